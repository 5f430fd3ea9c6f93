//! The status values of replies other than success (MS-ERREF 2.3).
use crate::rows::Want;

pub const NOTIFY_CLEANUP: Want = Want::No(0x0000_010b);

pub const NO_MORE_FILES: Want = Want::No(0x8000_0006);

pub const INVALID_INFO_CLASS: Want = Want::No(0xc000_0003);

pub const INVALID_HANDLE: Want = Want::No(0xc000_0008);

pub const INVALID_PARAMETER: Want = Want::No(0xc000_000d);

pub const NO_SUCH_FILE: Want = Want::No(0xc000_000f);

pub const INVALID_DEVICE_REQUEST: Want = Want::No(0xc000_0010);

pub const END_OF_FILE: Want = Want::No(0xc000_0011);

pub const ACCESS_DENIED: Want = Want::No(0xc000_0022);

pub const OBJECT_NAME_INVALID: Want = Want::No(0xc000_0033);

pub const OBJECT_NAME_NOT_FOUND: Want = Want::No(0xc000_0034);

pub const OBJECT_NAME_COLLISION: Want = Want::No(0xc000_0035);

pub const OBJECT_PATH_NOT_FOUND: Want = Want::No(0xc000_003a);

pub const SHARING_VIOLATION: Want = Want::No(0xc000_0043);

pub const FILE_LOCK_CONFLICT: Want = Want::No(0xc000_0054);

pub const LOCK_NOT_GRANTED: Want = Want::No(0xc000_0055);

pub const DELETE_PENDING: Want = Want::No(0xc000_0056);

pub const RANGE_NOT_LOCKED: Want = Want::No(0xc000_007e);

pub const DISK_FULL: Want = Want::No(0xc000_007f);

pub const INSUFFICIENT_RESOURCES: Want = Want::No(0xc000_009a);

pub const FILE_IS_A_DIRECTORY: Want = Want::No(0xc000_00ba);

pub const NOT_SUPPORTED: Want = Want::No(0xc000_00bb);

pub const DIRECTORY_NOT_EMPTY: Want = Want::No(0xc000_0101);

pub const NOT_A_DIRECTORY: Want = Want::No(0xc000_0103);

pub const TOO_MANY_OPENED_FILES: Want = Want::No(0xc000_011f);

pub const IO_DEVICE_ERROR: Want = Want::No(0xc000_0185);
