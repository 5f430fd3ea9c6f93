//! Frames of a channel: what either side says first, each in a frame of its own, and requests.

/// The host announces itself.
pub(crate) const ANNOUNCE: &[u8] = b"\x14\0\0\0\x0c\0\0\0\x03\0\0\0rDnI\x01\0\x0c\0\x01\0\0\0";

/// What both sides confirm to each other.
pub(crate) const CONFIRM: &[u8] = b"\x14\0\0\0\x0c\0\0\0\x03\0\0\0rDCC\x01\0\x0c\0\x01\0\0\0";

/// The client's name.
pub(crate) const NAME: &[u8] =
    b"\x20\0\0\0\x18\0\0\0\x03\0\0\0rDNC\x01\0\0\0\0\0\0\0\x08\0\0\0R\0D\0R\0\0\0";

/// The host's capabilities.
pub(crate) const HOST_SETS: &[u8] = b"\x4c\0\0\0\x44\0\0\0\x03\0\0\0rDPS\x03\0\0\0\
\x01\0\x2c\0\x02\0\0\0\x02\0\0\0\0\0\0\0\x01\0\x0c\0\xff\xff\0\0\0\0\0\0\x05\0\0\0\0\0\0\0\0\0\0\0\0\0\0\0\
\x02\0\x08\0\x01\0\0\0\x04\0\x08\0\x02\0\0\0";

/// The client's capabilities.
pub(crate) const CLIENT_SETS: &[u8] = b"\x4c\0\0\0\x44\0\0\0\x03\0\0\0rDPC\x03\0\0\0\
\x01\0\x2c\0\x02\0\0\0\x02\0\0\0\0\0\0\0\x01\0\x0c\0\xff\xff\0\0\0\0\0\0\x05\0\0\0\x01\0\0\0\0\0\0\0\0\0\0\0\
\x02\0\x08\0\x01\0\0\0\x04\0\x08\0\x02\0\0\0";

/// Somebody is logged on.
pub(crate) const LOGGED_ON: &[u8] = b"\x0c\0\0\0\x04\0\0\0\x03\0\0\0rDLU";

/// The list of one drive, DATA, with id 1.
pub(crate) const LIST: &[u8] =
    b"$\0\0\0\x1c\0\0\0\x03\0\0\0rDAD\x01\0\0\0\x08\0\0\0\x01\0\0\0DATA\0\0\0\0\0\0\0\0";

/// The same, which says that it has 257.
pub(crate) const LONG_LIST: &[u8] =
    b"$\0\0\0\x1c\0\0\0\x03\0\0\0rDAD\x01\x01\0\0\x08\0\0\0\x01\0\0\0DATA\0\0\0\0\0\0\0\0";

/// A completion of device 1 with completion id 0.
pub(crate) const COMPLETION: &[u8] =
    b"\x1d\0\0\0\x15\0\0\0\x03\0\0\0rDCI\x01\0\0\0\x05\0\0\0\0\0\0\0\0\0\0\0\0";

/// A Create for `\a.txt` on device 1 with completion id 0.
pub(crate) const CREATE: &[u8] = b"\x4e\0\0\0\x46\0\0\0\x03\0\0\0\
rDRI\x01\0\0\0\0\0\0\0\0\0\0\0\0\0\0\0\0\0\0\0\
\0\0\0\x80\0\0\0\0\0\0\0\0\0\0\0\0\x07\0\0\0\x01\0\0\0\0\0\0\0\
\x0e\0\0\0\\\0a\0.\0t\0x\0t\0\0\0";

/// Its first 23 bytes, which are no head.
pub(crate) const CUT_HEAD: &[u8] =
    b"\x1f\0\0\0\x17\0\0\0\x03\0\0\0rDRI\x01\0\0\0\0\0\0\0\0\0\0\0\0\0\0\0\0\0\0";

/// A Read of device 1 without the last byte of its body.
pub(crate) const CUT_READ: &[u8] = b"\x3f\0\0\0\x37\0\0\0\x03\0\0\0\
rDRI\x01\0\0\0\x01\0\0\0\0\0\0\0\x03\0\0\0\0\0\0\0\
\x05\0\0\0\0\0\0\0\0\0\0\0\0\0\0\0\0\0\0\0\0\0\0\0\0\0\0\0\0\0\0";
