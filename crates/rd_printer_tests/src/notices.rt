//! Notices that the public standards and worked examples give.
use rd_base::{Bad, Bytes, ReadNo, Why};
use rd_printer::{Notice, can_write_notice, put_notice, read_notice, write_notice};
use std::process::Abort;

const ADD: &[u8] = b"RPCP\x01\0\0\0PRN1\0\0\0\0\0\0\0\0\x02\0\0\0\x02\0\0\0\x02\0\0\0abcdef";

const UPDATE: &[u8] = b"RPCP\x02\0\0\0\x02\0\0\0\x01\0\0\0cde";

const DELETE: &[u8] = b"RPCP\x03\0\0\0\x02\0\0\0cd";

const RENAME: &[u8] = b"RPCP\x04\0\0\0\x02\0\0\0\x02\0\0\0cdgh";

const USING_XPS: &[u8] = b"RPCU\x02\0\0\0\x01\0\0\0";

pub fn bytes(rt: &(impl Abort + AllocGlobal), of: &[u8]) -> Bytes {
    Bytes::of(of.to_vec(rt.alloc()).expect(rt, "memory for bytes"))
}

/// The notice is written in these bytes.
fn stands_in(rt: &(impl Abort + AllocGlobal), notice: &Notice, message: &[u8]) {
    assert!(rt; can_write_notice(notice));
    let written = write_notice(rt.alloc(), notice).expect(rt, "memory for a message");
    assert_eq!(rt; written.as_slice(), message);
    let mut out = Vec::new(rt.alloc());
    put_notice(&mut out, notice).expect(rt, "memory for a message");
    assert_eq!(rt; out.as_slice(), message);
}

/// What is read of a message is written in the same bytes, with none ignored.
fn reads_back(rt: &(impl Abort + AllocGlobal), message: &[u8]) {
    let (notice, tail) = read_notice(rt.alloc(), message).expect(rt, "a notice");
    assert_eq!(rt; tail, 0);
    stands_in(rt, &notice, message);
}

fn fault(rt: &(impl Abort + AllocGlobal), message: &[u8]) -> Option<Bad> {
    match read_notice(rt.alloc(), message) {
        Err(ReadNo::Bad(bad)) => Some(bad),
        _ => None,
    }
}

#[test]
fn writes_notices(rt: HostRuntime) {
    let add = Notice::Add {
        port: *b"PRN1\0\0\0\0",
        pnp: bytes(&rt, b""),
        driver: bytes(&rt, b"ab"),
        name: bytes(&rt, b"cd"),
        config: bytes(&rt, b"ef"),
    };
    stands_in(&rt, &add, ADD);
    let update = Notice::Update {
        name: bytes(&rt, b"cd"),
        config: bytes(&rt, b"e"),
    };
    stands_in(&rt, &update, UPDATE);
    let name = bytes(&rt, b"cd");
    stands_in(&rt, &Notice::Delete { name }, DELETE);
    let rename = Notice::Rename {
        old: bytes(&rt, b"cd"),
        new: bytes(&rt, b"gh"),
    };
    stands_in(&rt, &rename, RENAME);
    let printer = 2;
    let flags = 1;
    stands_in(&rt, &Notice::UsingXps { printer, flags }, USING_XPS);
}

#[test]
fn reads_notices(rt: HostRuntime) {
    for message in [ADD, UPDATE, DELETE, RENAME, USING_XPS] {
        reads_back(&rt, message);
    }
}

#[test]
fn names_faults(rt: HostRuntime) {
    let rows: [(&[u8], u32, Why); 6] = [
        (b"RPCP\x05\0\0\0", 4, Why::Value),
        (b"RPCP\0\0\0\0", 4, Why::Value),
        (b"rDCP\x01\0\0\0", 2, Why::Packet),
        (b"rDRI\x01\0\0\0", 2, Why::Packet),
        (b"RPCP\x03\0\0\0\x03\0\0\0cd", 12, Why::Short),
        (b"RPCU\x02\0\0\0\x01\0\0", 8, Why::Short),
    ];
    for (message, at, why) in rows {
        assert_eq!(rt; fault(&rt, message), Some(Bad { at, why }));
    }
}
