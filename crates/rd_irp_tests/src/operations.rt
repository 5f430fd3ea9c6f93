//! The bodies of requests on files and folders, byte by byte, by the layouts of MS-RDPEFS 2.2.1.4 and 2.2.3.3.
use crate::said::{Said, UNKNOWN, said};
use rd_base::{Bad, Bytes, Units, Why};
use rd_irp::{
    Body, Head, Kind, Op, Range, Ranges, Request, fits, kind_of, put_completion, put_request,
    read_request, write_request,
};
use std::process::Abort;

/// `hello` at offset 2.
const WRITE: &[u8] = b"rDRI\x01\0\0\0\x01\0\0\0\0\0\0\0\x04\0\0\0\0\0\0\0\
\x05\0\0\0\x02\0\0\0\0\0\0\0\
\0\0\0\0\0\0\0\0\0\0\0\0\0\0\0\0\0\0\0\0hello";

/// FileStandardInformation.
const QUERY_FILE: &[u8] = b"rDRI\x01\0\0\0\x01\0\0\0\0\0\0\0\x05\0\0\0\0\0\0\0\
\x05\0\0\0\0\0\0\0\
\0\0\0\0\0\0\0\0\0\0\0\0\0\0\0\0\0\0\0\0\0\0\0\0";

/// FileDispositionInformation, 1.
const SET_FILE: &[u8] = b"rDRI\x01\0\0\0\x01\0\0\0\0\0\0\0\x06\0\0\0\0\0\0\0\
\x0d\0\0\0\x01\0\0\0\
\0\0\0\0\0\0\0\0\0\0\0\0\0\0\0\0\0\0\0\0\0\0\0\0\x01";

/// FileFsSizeInformation.
const QUERY_VOLUME: &[u8] = b"rDRI\x01\0\0\0\x01\0\0\0\0\0\0\0\x0a\0\0\0\0\0\0\0\
\x03\0\0\0\0\0\0\0\
\0\0\0\0\0\0\0\0\0\0\0\0\0\0\0\0\0\0\0\0\0\0\0\0";

/// FileFsLabelInformation, an empty label.
const SET_VOLUME: &[u8] = b"rDRI\x01\0\0\0\x01\0\0\0\0\0\0\0\x0b\0\0\0\0\0\0\0\
\x02\0\0\0\x04\0\0\0\
\0\0\0\0\0\0\0\0\0\0\0\0\0\0\0\0\0\0\0\0\0\0\0\0\0\0\0\0";

/// FileBothDirectoryInformation, the first query, with the path `\*`.
const QUERY_DIR: &[u8] = b"rDRI\x01\0\0\0\x01\0\0\0\0\0\0\0\x0c\0\0\0\x01\0\0\0\
\x03\0\0\0\x01\x06\0\0\0\
\0\0\0\0\0\0\0\0\0\0\0\0\0\0\0\0\0\0\0\0\0\0\0\
\\\0*\0\0\0";

/// Changes of names of files, in the folders below too.
const NOTIFY: &[u8] = b"rDRI\x01\0\0\0\x01\0\0\0\0\0\0\0\x0c\0\0\0\x02\0\0\0\
\x01\x01\0\0\0\
\0\0\0\0\0\0\0\0\0\0\0\0\0\0\0\0\0\0\0\0\0\0\0\0\0\0\0";

/// The code 0x000900a8 with the input `ab`, for up to 16 bytes.
const CONTROL: &[u8] = b"rDRI\x01\0\0\0\x01\0\0\0\0\0\0\0\x0e\0\0\0\0\0\0\0\
\x10\0\0\0\x02\0\0\0\xa8\0\x09\0\
\0\0\0\0\0\0\0\0\0\0\0\0\0\0\0\0\0\0\0\0ab";

/// An exclusive lock of 16 bytes from 256 on and of one byte from the first, waited for.
const LOCK: &[u8] = b"rDRI\x01\0\0\0\x01\0\0\0\0\0\0\0\x11\0\0\0\0\0\0\0\
\x03\0\0\0\x01\0\0\0\x02\0\0\0\
\0\0\0\0\0\0\0\0\0\0\0\0\0\0\0\0\0\0\0\0\
\x10\0\0\0\0\0\0\0\0\x01\0\0\0\0\0\0\
\x01\0\0\0\0\0\0\0\0\0\0\0\0\0\0\0";

/// The ranges of `LOCK`.
const RANGES: &[Range] = &[
    Range {
        offset: 256,
        length: 16,
    },
    Range {
        offset: 0,
        length: 1,
    },
];

fn bytes(rt: &(impl Abort + AllocGlobal), of: &[u8]) -> Bytes {
    Bytes::of(of.to_vec(rt.alloc()).expect(rt, "memory for bytes"))
}

/// The request of device 1, file 1 with this operation.
fn request(op: Op) -> Request {
    Request {
        device: 1,
        file: 1,
        completion: 0,
        op,
    }
}

/// An operation's request is this message, and its completion is of this kind.
fn written(rt: &(impl Abort + AllocGlobal), op: Op, kind: Kind, message: &[u8]) {
    let request = request(op);
    assert!(rt; kind_of(&request.op) == kind && fits(&request.op));
    let out = write_request(rt.alloc(), &request).expect(rt, "memory for a message");
    assert_eq!(rt; out.as_slice(), message);
}

/// A request's operation, and the count of the bytes after it.
fn op(rt: &(impl Abort + AllocGlobal), message: &[u8]) -> (Op, u32) {
    let (request, tail) = read_request(rt.alloc(), message).expect(rt, "a request");
    (request.op, tail)
}

#[test]
fn writes_operations(rt: HostRuntime) {
    let hello = bytes(&rt, b"hello");
    let write = Op::Write {
        offset: 2,
        bytes: hello,
    };
    written(&rt, write, Kind::Count, WRITE);
    written(&rt, Op::QueryFile { class: 5 }, Kind::Buffer, QUERY_FILE);
    let set = Op::SetFile {
        class: 13,
        bytes: bytes(&rt, b"\x01"),
    };
    written(&rt, set, Kind::Count, SET_FILE);
    let query = Op::QueryVolume { class: 3 };
    written(&rt, query, Kind::Buffer, QUERY_VOLUME);
    let set = Op::SetVolume {
        class: 2,
        bytes: bytes(&rt, &[0; 4]),
    };
    written(&rt, set, Kind::Count, SET_VOLUME);
}

#[test]
fn writes_more_operations(rt: HostRuntime) {
    let path = [0x5c, 0x2a]
        .to_vec(rt.alloc())
        .expect(&rt, "memory for a path");
    let query = Op::QueryDir {
        class: 3,
        initial: true,
        path: Units::of(path),
    };
    written(&rt, query, Kind::Buffer, QUERY_DIR);
    let notify = Op::Notify {
        tree: true,
        filter: 1,
    };
    written(&rt, notify, Kind::Buffer, NOTIFY);
    let control = Op::Control {
        output: 16,
        code: 0x0009_00a8,
        bytes: bytes(&rt, b"ab"),
    };
    written(&rt, control, Kind::Buffer, CONTROL);
    let ranges = RANGES.to_vec(rt.alloc()).expect(&rt, "memory for ranges");
    let lock = Op::Lock {
        operation: 3,
        wait: true,
        ranges: Ranges::of(ranges),
    };
    written(&rt, lock, Kind::Lock, LOCK);
}

/// Asserts what an operation's request says, with so many bytes after it.
fn reads(rt: &(impl Abort + AllocGlobal), message: &[u8], wanted: Said<'_>, ignored: u32) {
    let (op, tail) = op(rt, message);
    assert_eq!(rt; (said(&op), tail), (wanted, ignored));
}

#[test]
fn reads_operations(rt: HostRuntime) {
    reads(&rt, WRITE, ([4, 2, 0, 0], b"hello", &[], &[]), 0);
    reads(&rt, QUERY_FILE, ([5, 5, 0, 0], &[], &[], &[]), 0);
    reads(&rt, SET_FILE, ([6, 13, 0, 0], b"\x01", &[], &[]), 0);
    reads(&rt, QUERY_VOLUME, ([10, 3, 0, 0], &[], &[], &[]), 0);
    reads(&rt, SET_VOLUME, ([11, 2, 0, 0], &[0; 4], &[], &[]), 0);
    let pattern = [0x5c, 0x2a];
    reads(&rt, QUERY_DIR, ([12, 1, 3, 1], &[], &pattern, &[]), 0);
    reads(&rt, NOTIFY, ([12, 2, 1, 1], &[], &[], &[]), 0);
    reads(&rt, CONTROL, ([14, 16, 0x0009_00a8, 0], b"ab", &[], &[]), 0);
    reads(&rt, LOCK, ([17, 3, 1, 0], &[], &[], RANGES), 0);
}

/// A message with another byte at a place, cut to a length.
fn changed(
    rt: &(impl Abort + AllocGlobal),
    message: &[u8],
    place: usize,
    byte: u8,
    len: usize,
) -> Bytes {
    let mut changed = message.to_vec(rt.alloc()).expect(rt, "memory for bytes");
    assert!(rt; place < changed.len());
    changed[place] = byte;
    changed.truncate(len);
    Bytes::of(changed)
}

/// The fault of a malformed request, and the count of the bytes after its head.
fn fault(rt: &(impl Abort + AllocGlobal), message: &[u8]) -> Option<(Bad, u32)> {
    match op(rt, message) {
        (Op::Malformed { bad, .. }, tail) => Some((bad, tail)),
        _ => None,
    }
}

#[test]
fn names_faults_of_bodies(rt: HostRuntime) {
    // A message, a place and the byte there, a length, and the fault: data, a pattern, a range or an input that is cut, a pad
    // that is cut, an odd length, and 1,026 ranges.
    let rows: [(&[u8], usize, u8, usize, u32, Why); 8] = [
        (WRITE, 0, b'r', 60, 56, Why::Short),
        (SET_FILE, 28, 2, 57, 56, Why::Short),
        (QUERY_DIR, 0, b'r', 61, 56, Why::Short),
        (QUERY_DIR, 29, 5, 62, 29, Why::Length),
        (NOTIFY, 0, b'r', 55, 29, Why::Short),
        (CONTROL, 28, 0xff, 58, 56, Why::Short),
        (LOCK, 32, 3, 88, 88, Why::Short),
        (LOCK, 33, 4, 88, 32, Why::Count),
    ];
    for (message, place, byte, len, at, why) in rows {
        let changed = changed(&rt, message, place, byte, len);
        let found = fault(&rt, changed.as_slice());
        assert_eq!(rt; found, Some((Bad { at, why }, len as u32 - 24)));
    }
}

#[test]
fn reads_what_says_nothing(rt: HostRuntime) {
    // Of a query the length, of a lock every bit but the lowest, and of a flag everything but 0; a minor function that isn't known.
    let query = changed(&rt, QUERY_FILE, 28, 22, 56);
    reads(&rt, query.as_slice(), ([5, 5, 0, 0], &[], &[], &[]), 0);
    let lock = changed(&rt, LOCK, 28, 0xfe, 88);
    reads(&rt, lock.as_slice(), ([17, 3, 0, 0], &[], &[], RANGES), 0);
    let notify = changed(&rt, NOTIFY, 24, 0x80, 56);
    reads(&rt, notify.as_slice(), ([12, 2, 1, 1], &[], &[], &[]), 0);
    let minor = changed(&rt, NOTIFY, 20, 3, 56);
    reads(
        &rt,
        minor.as_slice(),
        ([UNKNOWN, 12, 3, 0], &[], &[], &[]),
        32,
    );
}

#[test]
fn appends(rt: HostRuntime) {
    let mut out = Vec::new(rt.alloc());
    let query = request(Op::QueryFile { class: 5 });
    assert!(rt; fits(&query.op));
    put_request(&mut out, &query).expect(&rt, "memory for a message");
    let head = Head {
        device: 1,
        completion: 0,
        status: rd_base::Status::SUCCESS,
    };
    put_completion(&mut out, Kind::Lock, &head, &Body::Locked).expect(&rt, "memory for a message");
    assert!(rt; out.len() == 77);
    assert_eq!(rt; &out[..56], QUERY_FILE);
    assert_eq!(rt;
        &out[56..],
        b"rDCI\x01\0\0\0\0\0\0\0\0\0\0\0\0\0\0\0\0".as_slice()
    );
}
