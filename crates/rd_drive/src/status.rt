//! The status values with which a drive replies, beside those that every device has (MS-ERREF 2.3).

use rd_base::Status;

/// A notification ends, since its handle was closed.
pub const NOTIFY_CLEANUP: Status = Status(0x0000_010b);

/// A listing has no more names.
pub const NO_MORE_FILES: Status = Status(0x8000_0006);

/// Nothing is told or set in this class.
pub const INVALID_INFO_CLASS: Status = Status(0xc000_0003);

/// A listing begins, and has no name.
pub const NO_SUCH_FILE: Status = Status(0xc000_000f);

/// A request for a file, and what is open is a folder.
pub const INVALID_DEVICE_REQUEST: Status = Status(0xc000_0010);

/// The handle's access or the node doesn't allow it.
pub const ACCESS_DENIED: Status = Status(0xc000_0022);

/// No path, or one past the limits.
pub const OBJECT_NAME_INVALID: Status = Status(0xc000_0033);

/// Something stands at the path.
pub const OBJECT_NAME_COLLISION: Status = Status(0xc000_0035);

/// A folder that the path leads through isn't there.
pub const OBJECT_PATH_NOT_FOUND: Status = Status(0xc000_003a);

/// Another handle on the node clashes.
pub const SHARING_VIOLATION: Status = Status(0xc000_0043);

/// A lock is in the way of a read or a write.
pub const FILE_LOCK_CONFLICT: Status = Status(0xc000_0054);

/// A lock is in the way of another one, or its handle was closed.
pub const LOCK_NOT_GRANTED: Status = Status(0xc000_0055);

/// The node goes with its last handle.
pub const DELETE_PENDING: Status = Status(0xc000_0056);

/// A range that is to be unlocked isn't locked.
pub const RANGE_NOT_LOCKED: Status = Status(0xc000_007e);

/// There are too many nodes, or bytes.
pub const DISK_FULL: Status = Status(0xc000_007f);

/// There are too many locks, or requests that wait.
pub const INSUFFICIENT_RESOURCES: Status = Status(0xc000_009a);

/// A folder stands where a file is asked for.
pub const FILE_IS_A_DIRECTORY: Status = Status(0xc000_00ba);

/// Something stands in a folder that is to go.
pub const DIRECTORY_NOT_EMPTY: Status = Status(0xc000_0101);

/// A file stands where a folder is asked for.
pub const NOT_A_DIRECTORY: Status = Status(0xc000_0103);
