//! Messages that worked examples give.

pub const ANNOUNCE: &[u8] = b"rDnI\x01\0\x0c\0\x01\0\0\0";

pub const CONFIRM: &[u8] = b"rDCC\x01\0\x0c\0\x01\0\0\0";

pub const NAME: &[u8] = b"rDNC\x01\0\0\0\0\0\0\0\x08\0\0\0R\0D\0R\0\0\0";

pub const HOST_SETS: &[u8] =
    b"rDPS\x03\0\0\0\x01\0\x2c\0\x02\0\0\0\x02\0\0\0\0\0\0\0\x01\0\x0c\0\xff\xff\0\0\0\0\0\0\x05\0\0\0\0\0\0\0\0\0\0\0\0\0\0\0\x02\0\x08\0\x01\0\0\0\x04\0\x08\0\x02\0\0\0";

pub const CLIENT_SETS: &[u8] =
    b"rDPC\x03\0\0\0\x01\0\x2c\0\x02\0\0\0\x02\0\0\0\0\0\0\0\x01\0\x0c\0\xff\xff\0\0\0\0\0\0\x05\0\0\0\x01\0\0\0\0\0\0\0\0\0\0\0\x02\0\x08\0\x01\0\0\0\x04\0\x08\0\x02\0\0\0";

pub const LOGGED_ON: &[u8] = b"rDLU";

/// The list of one drive, DATA, with id 1.
pub const LIST: &[u8] = b"rDAD\x01\0\0\0\x08\0\0\0\x01\0\0\0DATA\0\0\0\0\0\0\0\0";

/// The removal of device 1.
pub const REMOVAL: &[u8] = b"rDMD\x01\0\0\0\x01\0\0\0";

/// The reply to device 1, which is taken.
pub const REPLY: &[u8] = b"rDrd\x01\0\0\0\0\0\0\0";

/// Printer 1 takes XPS.
pub const XPS: &[u8] = b"RPCU\x01\0\0\0\0\0\0\0";

/// A Read of device 1 whose body is cut short, and the completion that says so.
pub const CUT_READ: &[u8] =
    b"rDRI\x01\0\0\0\x01\0\0\0\0\0\0\0\x03\0\0\0\0\0\0\0\x01\0\0\0\0\0\0\0\0\0\0\0\0\0\0\0\0\0\0\0\0\0\0\0\0\0\0\0\0\0\0";

pub const CUT_READ_FAULT: &[u8] = b"rDCI\x01\0\0\0\0\0\0\0\x0d\0\0\xc0\0\0\0\0";

/// A Create for `\a.txt` on device 1, for reading and shared by all.
pub const CREATE: &[u8] =
    b"rDRI\x01\0\0\0\0\0\0\0\0\0\0\0\0\0\0\0\0\0\0\0\0\0\0\x80\0\0\0\0\0\0\0\0\0\0\0\0\x07\0\0\0\x01\0\0\0\0\0\0\0\x0e\0\0\0\\\0a\0.\0t\0x\0t\0\0\0";

/// A request to device 1 with a function that no operation has, and the completion that says so.
pub const UNKNOWN: &[u8] = b"rDRI\x01\0\0\0\x01\0\0\0\x02\0\0\0\x12\0\0\0\x09\0\0\0";

pub const UNKNOWN_FAULT: &[u8] = b"rDCI\x01\0\0\0\x02\0\0\0\xbb\0\0\xc0\0\0\0\0";
