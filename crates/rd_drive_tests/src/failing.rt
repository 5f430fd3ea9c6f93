//! Drives over folders some of whose calls fail.
use crate::asks::{Ask, DELETE, DELETE_ON_CLOSE, MARK, OPEN, READ, READ_WRITE};
use crate::rows::Line::{Cut, Request};
use crate::rows::{Line, Node, Want, first_wrong, over_folder};
use crate::statuses::{INVALID_HANDLE, IO_DEVICE_ERROR, OBJECT_NAME_NOT_FOUND};

/// The numbers of the first calls by which a folder is read, and by which something is made, emptied, moved and taken out in it.
const READS: u64 = 18;

const MAKES: u64 = 19;

const EMPTIES: u64 = 20;

const MOVES: u64 = 24;

const TAKES_OUT: u64 = 25;

/// FILE_OVERWRITE_IF
const OVERWRITE_IF: u32 = 5;

/// A file of two bytes.
const FILE: &[Node] = &[Node::File("\\a", b"hi")];

/// A drive of its own, over a folder in which these calls fail, and what happens to it.
struct Failing {
    name: &'static str,
    fails: &'static [u64],
    lines: &'static [Line],
}

const ROWS: &[Failing] = &[
    Failing {
        name: "a read fails, and the next one gives the bytes",
        fails: &[READS],
        lines: &[
            Request(0, Ask::Open("\\a", READ), Want::Opened(1, 1)),
            Request(1, Ask::Read(0, 2), IO_DEVICE_ERROR),
            Request(1, Ask::Read(0, 2), Want::Bytes(b"hi")),
        ],
    },
    Failing {
        name: "a file that is kept, and closed",
        fails: &[TAKES_OUT],
        lines: &[
            Request(
                0,
                Ask::CreateFor("\\a", OPEN, DELETE, DELETE_ON_CLOSE, 0),
                Want::Opened(1, 1),
            ),
            Request(1, Ask::Close, IO_DEVICE_ERROR),
            Request(0, Ask::Open("\\a", READ), Want::Opened(2, 1)),
            Request(2, Ask::Read(0, 2), Want::Bytes(b"hi")),
            Request(1, Ask::Close, INVALID_HANDLE),
        ],
    },
    Failing {
        name: "a file that is kept where the drive is cut off",
        fails: &[TAKES_OUT],
        lines: &[
            Request(0, Ask::Open("\\a", DELETE), Want::Opened(1, 1)),
            Request(1, MARK, Want::Count(1)),
            Cut,
            Request(0, Ask::Open("\\a", READ), Want::Opened(2, 1)),
        ],
    },
    Failing {
        name: "a file that isn't made, whose id is given again",
        fails: &[MAKES],
        lines: &[
            Request(0, Ask::Make("\\b", READ_WRITE), IO_DEVICE_ERROR),
            Request(0, Ask::Open("\\b", READ), OBJECT_NAME_NOT_FOUND),
            Request(0, Ask::Make("\\b", READ_WRITE), Want::Opened(1, 0)),
        ],
    },
    Failing {
        name: "a file that isn't emptied",
        fails: &[EMPTIES],
        lines: &[
            Request(
                0,
                Ask::CreateFor("\\a", OVERWRITE_IF, READ_WRITE, 0, 0),
                IO_DEVICE_ERROR,
            ),
            Request(0, Ask::Open("\\a", READ), Want::Opened(1, 1)),
            Request(1, Ask::Read(0, 2), Want::Bytes(b"hi")),
        ],
    },
    Failing {
        name: "a file that isn't moved",
        fails: &[MOVES],
        lines: &[
            Request(0, Ask::Open("\\a", DELETE), Want::Opened(1, 1)),
            Request(
                1,
                Ask::SetFile(10, b"\x00\x00\x04\x00\x00\x00\\\x00b\x00"),
                IO_DEVICE_ERROR,
            ),
            Request(0, Ask::Open("\\b", READ), OBJECT_NAME_NOT_FOUND),
            Request(
                1,
                Ask::SetFile(10, b"\x00\x00\x04\x00\x00\x00\\\x00b\x00"),
                Want::Count(10),
            ),
            Request(0, Ask::Open("\\b", READ), Want::Opened(2, 1)),
            Request(0, Ask::Open("\\a", READ), OBJECT_NAME_NOT_FOUND),
        ],
    },
];

/// A folder's failure is answered, and changes nothing but that a file is closed.
#[test]
fn failures_are_answered(rt: HostRuntime) {
    for row in ROWS {
        let mut drive = over_folder(&rt, FILE, row.fails);
        assert_eq!(rt;
            first_wrong(&rt, &mut drive, row.lines),
            None,
            "{}",
            row.name
        );
    }
}
