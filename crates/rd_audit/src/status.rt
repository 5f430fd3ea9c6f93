//! The status values with which a client completes what no device ran (MS-ERREF 2.3).

use rd_base::Status;

/// The device is gone.
pub const NO_SUCH_DEVICE: Status = Status(0xc000_000e);

/// The device was removed before it ran the request.
pub const CANCELLED: Status = Status(0xc000_0120);
