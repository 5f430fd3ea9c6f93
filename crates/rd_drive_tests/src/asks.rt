//! What the requests of the tables ask for, and their operations.
use rd_base::{Bad, Bytes, Units, Why};
use rd_irp::{Op, Range, Ranges};
use std::process::Abort;

/// FILE_WRITE_ATTRIBUTES, by which nothing is read, written or deleted
pub const WRITE_ATTRIBUTES: u32 = 0x100;

/// DELETE
pub const DELETE: u32 = 0x0001_0000;

/// GENERIC_ALL
pub const ALL: u32 = 0x1000_0000;

/// GENERIC_WRITE
pub const WRITE: u32 = 0x4000_0000;

/// GENERIC_READ
pub const READ: u32 = 0x8000_0000;

/// GENERIC_READ and GENERIC_WRITE
pub const READ_WRITE: u32 = 0xc000_0000;

/// FILE_SHARE_READ, FILE_SHARE_WRITE and FILE_SHARE_DELETE
pub const SHARED: u32 = 7;

/// FILE_OPEN
pub const OPEN: u32 = 1;

/// FILE_CREATE
pub const CREATE: u32 = 2;

/// FILE_DIRECTORY_FILE
pub const FOLDER: u32 = 1;

/// FILE_DELETE_ON_CLOSE
pub const DELETE_ON_CLOSE: u32 = 0x1000;

/// FileDispositionInformation, by which what is open goes with its last handle.
pub const MARK: Ask = Ask::SetFile(13, b"\x01");

/// What a request asks for.
#[derive(Clone, Copy)]
pub enum Ask {
    /// Opens what is there, shared by all: path, access.
    Open(&'static str, u32),
    /// Makes a file where nothing is, shared by all: path, access.
    Make(&'static str, u32),
    /// Opens what is there: path, access, share.
    Share(&'static str, u32, u32),
    /// Opens for reading, shared by all: path, disposition, options.
    Create(&'static str, u32, u32),
    /// Shared by all: path, disposition, access, options, attributes.
    CreateFor(&'static str, u32, u32, u32, u32),
    Close,
    /// Offset, length.
    Read(u64, u32),
    /// Offset, bytes.
    Write(u64, &'static [u8]),
    QueryFile(u32),
    SetFile(u32, &'static [u8]),
    QueryVolume(u32),
    SetVolume(u32, &'static [u8]),
    /// The first query of a listing: class, path.
    List(u32, &'static str),
    /// A further query of a listing.
    ListOn(u32),
    /// Operation, whether it waits, ranges as offset and length.
    Lock(u32, bool, &'static [(u64, u64)]),
    /// Whether what is below is watched too, filter.
    Notify(bool, u32),
    Control,
    Unknown,
    Malformed,
}

/// The units of a text.
pub fn units(rt: &(impl Abort + AllocGlobal), text: &str) -> Units {
    let units = text.encode_utf16().collect(rt.alloc());
    Units::of(units.expect(rt, "memory for units"))
}

pub fn bytes(rt: &(impl Abort + AllocGlobal), of: &[u8]) -> Bytes {
    Bytes::of(of.to_vec(rt.alloc()).expect(rt, "memory for bytes"))
}

fn ranges(rt: &(impl Abort + AllocGlobal), of: &[(u64, u64)]) -> Ranges {
    let mut ranges = Vec::new(rt.alloc());
    for (offset, length) in of {
        let range = Range {
            offset: *offset,
            length: *length,
        };
        ranges.push(range).expect(rt, "memory for a range");
    }
    Ranges::of(ranges)
}

fn create(
    path: Units,
    disposition: u32,
    access: u32,
    share: u32,
    options: u32,
    attributes: u32,
) -> Op {
    Op::Create {
        access,
        allocation: 0,
        attributes,
        share,
        disposition,
        options,
        path,
    }
}

/// The operation of a request.
pub fn op(rt: &(impl Abort + AllocGlobal), ask: Ask) -> Op {
    match ask {
        Ask::Open(path, access) => create(units(rt, path), OPEN, access, SHARED, 0, 0),
        Ask::Make(path, access) => create(units(rt, path), CREATE, access, SHARED, 0, 0),
        Ask::Share(path, access, share) => create(units(rt, path), OPEN, access, share, 0, 0),
        Ask::Create(path, disposition, options) => {
            create(units(rt, path), disposition, READ, SHARED, options, 0)
        }
        Ask::CreateFor(path, disposition, access, options, attributes) => create(
            units(rt, path),
            disposition,
            access,
            SHARED,
            options,
            attributes,
        ),
        Ask::Close => Op::Close,
        Ask::Read(offset, length) => Op::Read { offset, length },
        Ask::Write(offset, of) => Op::Write {
            offset,
            bytes: bytes(rt, of),
        },
        Ask::QueryFile(class) => Op::QueryFile { class },
        Ask::SetFile(class, of) => Op::SetFile {
            class,
            bytes: bytes(rt, of),
        },
        Ask::QueryVolume(class) => Op::QueryVolume { class },
        Ask::SetVolume(class, of) => Op::SetVolume {
            class,
            bytes: bytes(rt, of),
        },
        Ask::List(class, path) => Op::QueryDir {
            class,
            initial: true,
            path: units(rt, path),
        },
        Ask::ListOn(class) => Op::QueryDir {
            class,
            initial: false,
            path: units(rt, ""),
        },
        Ask::Lock(operation, wait, of) => Op::Lock {
            operation,
            wait,
            ranges: ranges(rt, of),
        },
        Ask::Notify(tree, filter) => Op::Notify { tree, filter },
        Ask::Control => Op::Control {
            output: 0,
            code: 0x0009_00a8,
            bytes: bytes(rt, b""),
        },
        Ask::Unknown => Op::Unknown { major: 9, minor: 0 },
        Ask::Malformed => Op::Malformed {
            major: 3,
            minor: 0,
            bad: Bad {
                at: 24,
                why: Why::Short,
            },
        },
    }
}
