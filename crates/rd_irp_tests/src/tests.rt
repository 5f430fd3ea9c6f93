//! Bytes that the public standards and worked examples give.
use crate::said::{MALFORMED, Said, UNKNOWN, said};
use rd_base::{Bad, ReadNo, Status, Units, Why};
use rd_irp::{
    Body, Head, Kind, Op, Request, body_fits, fits, is_countable, kind_of, read_body, read_head,
    read_request, write_completion, write_request,
};
use std::process::Abort;

/// A CREATE for `\a.txt` on device 1, for reading and shared by all.
const CREATE: &[u8] = b"rDRI\x01\0\0\0\0\0\0\0\0\0\0\0\0\0\0\0\0\0\0\0\
\0\0\0\x80\0\0\0\0\0\0\0\0\0\0\0\0\x07\0\0\0\x01\0\0\0\0\0\0\0\
\x0e\0\0\0\
\\\0a\0.\0t\0x\0t\0\0\0";

/// A READ of device 1, file 1, of 5 bytes from the first.
const READ: &[u8] = b"rDRI\x01\0\0\0\x01\0\0\0\0\0\0\0\x03\0\0\0\0\0\0\0\
\x05\0\0\0\0\0\0\0\0\0\0\0\
\0\0\0\0\0\0\0\0\0\0\0\0\0\0\0\0\0\0\0\0";

/// A request with a function that isn't known, and one byte after it.
const UNKNOWN_FUNCTION: &[u8] = b"rDRI\x01\0\0\0\x01\0\0\0\x02\0\0\0\x12\0\0\0\x09\0\0\0\x05";

/// The units of `\a.txt`.
const PATH: &[u16] = &[0x5c, 0x61, 0x2e, 0x74, 0x78, 0x74];

/// The request that `CREATE` is.
fn create(rt: &(impl Abort + AllocGlobal)) -> Request {
    let path = PATH.to_vec(rt.alloc()).expect(rt, "memory for a path");
    let op = Op::Create {
        access: 0x8000_0000,
        allocation: 0,
        attributes: 0,
        share: 7,
        disposition: 1,
        options: 0,
        path: Units::of(path),
    };
    Request {
        device: 1,
        file: 0,
        completion: 0,
        op,
    }
}

/// `READ` without its last byte.
fn cut_read(rt: &impl Abort) -> &'static [u8] {
    assert_eq!(rt; READ.len(), 56);
    &READ[..55]
}

/// A request, and the count of the bytes after it.
fn read(rt: &(impl Abort + AllocGlobal), bytes: &[u8]) -> (Request, u32) {
    read_request(rt.alloc(), bytes).expect(rt, "a request")
}

/// A body, and the count of the bytes after it.
fn body(rt: &(impl Abort + AllocGlobal), kind: Kind, status: Status, bytes: &[u8]) -> (Body, u32) {
    read_body(rt.alloc(), kind, status, bytes).expect(rt, "a body")
}

#[test]
fn writes_a_create(rt: HostRuntime) {
    let request = create(&rt);
    assert!(rt; kind_of(&request.op) == Kind::Create && fits(&request.op));
    let message = write_request(rt.alloc(), &request).expect(&rt, "memory for a message");
    let message = message.as_slice();
    assert_eq!(rt; (message.len(), message), (70, CREATE));
}

/// Asserts what a request says, with so many bytes after it.
fn reads(rt: &(impl Abort + AllocGlobal), message: &[u8], wanted: Said<'_>, ignored: u32) {
    let (request, tail) = read(rt, message);
    assert_eq!(rt; (said(&request.op), tail), (wanted, ignored));
}

/// The device, the file and the completion id of a request.
fn ids(rt: &(impl Abort + AllocGlobal), message: &[u8]) -> (u32, u32, u32) {
    let (request, _) = read(rt, message);
    (request.device, request.file, request.completion)
}

#[test]
fn reads_requests(rt: HostRuntime) {
    assert_eq!(rt; ids(&rt, CREATE), (1, 0, 0));
    reads(&rt, CREATE, ([0, 0x8000_0000, 7, 0], &[], PATH, &[]), 0);
    reads(&rt, READ, ([3, 0, 5, 0], &[], &[], &[]), 0);
    let cut = cut_read(&rt);
    reads(&rt, cut, ([MALFORMED, 3, 36, 0], &[], &[], &[]), 31);
    assert_eq!(rt; ids(&rt, UNKNOWN_FUNCTION), (1, 1, 2));
    let unknown = [UNKNOWN, 0x12, 9, 0];
    reads(&rt, UNKNOWN_FUNCTION, (unknown, &[], &[], &[]), 1);
}

#[test]
fn completes_a_cut_read(rt: HostRuntime) {
    let (request, _) = read(&rt, cut_read(&rt));
    let kind = kind_of(&request.op);
    let head = Head {
        device: 1,
        completion: 0,
        status: Status::INVALID_PARAMETER,
    };
    assert!(rt; body_fits(kind, head.status, &Body::Fault) && is_countable(&Body::Fault));
    assert!(rt; !body_fits(kind, Status::SUCCESS, &Body::Fault));
    let completion = write_completion(rt.alloc(), kind, &head, &Body::Fault);
    let completion = completion.expect(&rt, "memory for a completion");
    let wanted = b"rDCI\x01\0\0\0\0\0\0\0\x0d\0\0\xc0\0\0\0\0";
    assert_eq!(rt; completion.as_slice(), wanted.as_slice());
}

#[test]
fn reads_what_other_programs_complete(rt: HostRuntime) {
    // A Close without its padding, a count without its padding, a buffer with bytes after it, a fault with some, a Create that is cut.
    let success = Status::SUCCESS;
    assert!(rt; matches!(body(&rt, Kind::Close, success, b""), (Body::Closed, 0)));
    assert!(rt;
        matches!(
            body(&rt, Kind::Count, success, b"\x02\0\0\0"),
            (Body::Count(2), 0)
        )
    );
    assert!(rt;
        matches!(
            body(&rt, Kind::Buffer, success, b"\x01\0\0\0ab"),
            (Body::Buffer(bytes), 1) if bytes.as_slice() == b"a".as_slice()
        )
    );
    assert!(rt;
        matches!(
            body(&rt, Kind::Create, Status::NO_MEMORY, &[0; 5]),
            (Body::Fault, 5)
        )
    );
    assert!(rt;
        matches!(
            read_body(rt.alloc(), Kind::Create, success, b"\x01\0\0\0"),
            Err(ReadNo::Bad(Bad {
                at: 4,
                why: Why::Short
            }))
        )
    );
}

#[test]
fn refuses_heads(rt: HostRuntime) {
    for (bytes, at, why) in [
        ("xx", 0, Why::Component),
        ("rDIR", 2, Why::Packet),
        ("rDCI", 4, Why::Short),
    ] {
        assert_eq!(rt; read_head(bytes.as_bytes()), Err(Bad { at, why }));
    }
}
