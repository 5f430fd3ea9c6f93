//! What a request asks for.

ghost use Rattle.std.specs.Prelude.{◌≡◌, ◌+◌, ◌*◌, ◌↔◌, IsTrue};
ghost use Rattle.rd_irp.specs.Fits.{Fits, IsWritablePath, op_length};
ghost use Rattle.rd_irp.specs.Written.{major_of, minor_of};

use rd_base::{Bad, Bytes, Items, Units};

/// The most units that the path of a request has.
pub const MAX_PATH: usize = 4096;

/// The most bytes that a byte field of a message has.
pub const MAX_BUFFER: usize = 1_048_576;

/// The most ranges of a lock.
pub const MAX_RANGES: u32 = 1024;

// MajorFunctions (MS-RDPEFS 2.2.1.4).

pub const CREATE: u32 = 0;

pub const CLOSE: u32 = 2;

pub const READ: u32 = 3;

pub const WRITE: u32 = 4;

pub const QUERY_FILE: u32 = 5;

pub const SET_FILE: u32 = 6;

pub const QUERY_VOLUME: u32 = 0xa;

pub const SET_VOLUME: u32 = 0xb;

/// Requests about what a folder holds, by their MinorFunction `QUERY_DIR` or `NOTIFY`.
pub const DIRECTORY: u32 = 0xc;

pub const CONTROL: u32 = 0xe;

pub const LOCK: u32 = 0x11;

pub const QUERY_DIR: u32 = 1;

pub const NOTIFY: u32 = 2;

/// Bytes of a file that a lock is about (MS-RDPEFS 2.2.1.6).
#[derive(Clone, Copy, Debug, PartialEq, Eq, Drop)]
pub struct Range {
    /// In bytes from the file's first.
    pub offset: u64,
    /// In bytes.
    pub length: u64,
}

/// The ranges of a lock, in the order of the message.
pub type Ranges = Items<Range>;

/// The operation of a request, by its major and minor function (MS-RDPEFS 2.2.1.4.1 to 2.2.1.4.5, 2.2.3.3.6 to
/// 2.2.3.3.12).
#[derive(Debug, Drop)]
pub enum Op {
    /// Opens or makes a file or folder.
    Create {
        access: u32,
        /// AllocationSize, in bytes.
        allocation: u64,
        attributes: u32,
        share: u32,
        disposition: u32,
        options: u32,
        path: Units,
    },
    Close,
    Read {
        /// In bytes from the file's first.
        offset: u64,
        /// In bytes.
        length: u32,
    },
    Write {
        /// In bytes from the file's first.
        offset: u64,
        bytes: Bytes,
    },
    /// Asks for information of a class about a file.
    QueryFile {
        class: u32,
    },
    /// Sets information of a class about a file.
    SetFile {
        class: u32,
        bytes: Bytes,
    },
    /// Asks for information of a class about the volume.
    QueryVolume {
        class: u32,
    },
    /// Sets information of a class about the volume.
    SetVolume {
        class: u32,
        bytes: Bytes,
    },
    /// Asks for the next entry of a folder.
    QueryDir {
        class: u32,
        /// The first query of a listing: the path's last part is its pattern.
        initial: bool,
        path: Units,
    },
    /// Asks to be told when something in a folder changes.
    Notify {
        /// WatchTree: in the folders below it too.
        tree: bool,
        filter: u32,
    },
    /// A control code of the file system, with its input.
    Control {
        /// OutputBufferLength, in bytes.
        output: u32,
        code: u32,
        bytes: Bytes,
    },
    /// Locks or unlocks ranges of a file.
    Lock {
        operation: u32,
        /// The completion may wait until the lock is free.
        wait: bool,
        ranges: Ranges,
    },
    /// A function that isn't known here.
    Unknown {
        major: u32,
        minor: u32,
    },
    /// A known function whose body can't be read. `bad` is the body's first fault.
    Malformed {
        major: u32,
        minor: u32,
        bad: Bad,
    },
}

/// Whether a request with this operation can be sent.
pub fn fits(op: &Op) -> bool
    ensures { IsTrue result ↔ Fits op.now }
{
    match op {
        Op::Create { path, .. } | Op::QueryDir { path, .. } => path_fits(path),
        Op::Write { bytes, .. }
        | Op::SetFile { bytes, .. }
        | Op::SetVolume { bytes, .. }
        | Op::Control { bytes, .. } => bytes.as_slice().len() <= MAX_BUFFER,
        Op::Lock { ranges, .. } => ranges.as_slice().len() <= MAX_RANGES as usize,
        Op::Close
        | Op::Read { .. }
        | Op::QueryFile { .. }
        | Op::QueryVolume { .. }
        | Op::Notify { .. } => true,
        Op::Unknown { .. } | Op::Malformed { .. } => false,
    }
}

/// Whether a request can carry this path.
fn path_fits(path: &Units) -> bool
    ensures { IsTrue result ↔ IsWritablePath path.now }
{
    let units = path.as_slice();
    units.len() <= MAX_PATH && units.iter().all(|unit| *unit != 0)
}

/// The MajorFunction of an operation.
pub fn major_of(op: &Op) -> u32
    ensures { result ≡ major_of op.now }
{
    match op {
        Op::Create { .. } => CREATE,
        Op::Close => CLOSE,
        Op::Read { .. } => READ,
        Op::Write { .. } => WRITE,
        Op::QueryFile { .. } => QUERY_FILE,
        Op::SetFile { .. } => SET_FILE,
        Op::QueryVolume { .. } => QUERY_VOLUME,
        Op::SetVolume { .. } => SET_VOLUME,
        Op::QueryDir { .. } | Op::Notify { .. } => DIRECTORY,
        Op::Control { .. } => CONTROL,
        Op::Lock { .. } => LOCK,
        Op::Unknown { major, .. } | Op::Malformed { major, .. } => *major,
    }
}

/// The MinorFunction of an operation that fits.
pub fn minor_of(op: &Op) -> u32
    ensures { result ≡ minor_of op.now }
{
    match op {
        Op::QueryDir { .. } => QUERY_DIR,
        Op::Notify { .. } => NOTIFY,
        _ => 0,
    }
}

/// How many bytes the body of an operation that fits is written in.
pub fn op_length(op: &Op) -> usize
    requires { Fits op.now }
    ensures { result ≡ op_length op.now }
{
    match op {
        Op::Create { path, .. } | Op::QueryDir { path, .. } => 34 + 2 * path.as_slice().len(),
        Op::Write { bytes, .. }
        | Op::SetFile { bytes, .. }
        | Op::SetVolume { bytes, .. }
        | Op::Control { bytes, .. } => 32 + bytes.as_slice().len(),
        Op::Lock { ranges, .. } => 32 + 16 * ranges.as_slice().len(),
        Op::Close
        | Op::Read { .. }
        | Op::QueryFile { .. }
        | Op::QueryVolume { .. }
        | Op::Notify { .. } => 32,
        Op::Unknown { .. } | Op::Malformed { .. } => unreachable!(),
    }
}
