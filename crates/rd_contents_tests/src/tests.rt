//! What no clause says: with ample memory each call goes through, and how many pages a file keeps.
use rd_contents::{Contents, MAX_LEN, SizeNo};
use std::process::Abort;

/// A write at an offset, and an end that the file is then given.
struct Edit {
    offset: u64,
    bytes: &'static [u8],
    end: u64,
    shows: &'static [u8],
}

/// Bytes that stay, a gap, what a cut leaves, and zeros where it was.
const EDITS: &[Edit] = &[
    Edit {
        offset: 0,
        bytes: b"abc",
        end: 3,
        shows: b"abc",
    },
    Edit {
        offset: 5,
        bytes: b"de",
        end: 7,
        shows: b"abc\0\0de",
    },
    Edit {
        offset: 1,
        bytes: b"xy",
        end: 2,
        shows: b"ax",
    },
    Edit {
        offset: 9,
        bytes: b"",
        end: 4,
        shows: b"ax\0\0",
    },
];

#[test]
fn edits_a_file(rt: HostRuntime) {
    let mut file = Contents::new(rt.alloc());
    for edit in EDITS {
        file.write(edit.offset, edit.bytes)
            .expect(&rt, "room for the bytes");
        file.resize(edit.end).expect(&rt, "an end that fits");
        let bytes = file.read(0, 100).expect(&rt, "memory for the bytes");
        assert_eq!(rt; bytes.as_slice(), edit.shows);
    }
}

#[test]
fn reads_on(rt: HostRuntime) {
    let mut file = Contents::new(rt.alloc());
    file.write(4094, b"abcd").expect(&rt, "room for the bytes");
    let mut out = Vec::new(rt.alloc());
    for (offset, length) in [(4095, 2), (4097, 9), (4098, 9), (u64::MAX, 9), (4093, 2)] {
        file.read_into(&mut out, offset, length)
            .expect(&rt, "memory for the bytes");
    }
    assert_eq!(rt; (out.as_slice(), file.len()), (b"bcd\0a".as_slice(), 4098));
}

/// So many bytes at an offset of a file that had none, and the most pages that they may take.
struct Spread {
    offset: u64,
    count: usize,
    pages: usize,
}

const SPREADS: &[Spread] = &[
    Spread {
        offset: 1 << 30,
        count: 0,
        pages: 0,
    },
    Spread {
        offset: 0,
        count: 1,
        pages: 1,
    },
    Spread {
        offset: MAX_LEN - 2,
        count: 2,
        pages: 2,
    },
    Spread {
        offset: 4095,
        count: 2,
        pages: 2,
    },
    Spread {
        offset: 1 << 30,
        count: 65536,
        pages: 16,
    },
    Spread {
        offset: 4000,
        count: 8288,
        pages: 3,
    },
];

/// How many pages a file keeps whose only bytes are these.
fn pages_of(rt: &(impl Abort + AllocGlobal), spread: &Spread) -> usize {
    let bytes = vec![in rt.alloc(); 7; spread.count].expect(rt, "memory for the bytes");
    let mut file = Contents::new(rt.alloc());
    file.write(spread.offset, &bytes)
        .expect(rt, "room for the bytes");
    file.pages()
}

#[test]
fn keeps_what_was_written(rt: HostRuntime) {
    for spread in SPREADS {
        let pages = pages_of(&rt, spread);
        assert!(rt;
            pages <= spread.pages,
            "{} at {}: {pages}",
            spread.count,
            spread.offset
        );
    }
}

#[test]
fn gives_pages_back(rt: HostRuntime) {
    let mut file = Contents::new(rt.alloc());
    file.write(4095, b"ab").expect(&rt, "room for the bytes");
    let written = file.pages();
    file.resize(MAX_LEN).expect(&rt, "an end that fits");
    let extended = file.pages();
    file.resize(4096).expect(&rt, "an end that fits");
    let cut = file.pages();
    file.resize(0).expect(&rt, "an end that fits");
    assert_eq!(rt;
        (written, extended, cut, file.pages(), file.is_empty()),
        (2, 2, 1, 0, true)
    );
}

#[test]
fn refuses_long_files(rt: HostRuntime) {
    let mut file = Contents::new(rt.alloc());
    let none = file.write(u64::MAX, b"");
    let late = file.write(MAX_LEN - 1, b"ab");
    let long = file.resize(MAX_LEN + 1);
    assert_eq!(rt;
        (none, late, long, file.len()),
        (Ok(()), Err(SizeNo::TooBig), Err(SizeNo::TooBig), 0)
    );
}
