//! SetFile that renames.
use crate::asks::{ALL, Ask, CREATE, DELETE, READ, READ_WRITE};
use crate::rows::Line::Request;
use crate::rows::{NODES, Node, Row, Want, check};
use crate::statuses::{
    ACCESS_DENIED, INVALID_PARAMETER, OBJECT_NAME_COLLISION, OBJECT_NAME_INVALID,
    OBJECT_NAME_NOT_FOUND, OBJECT_PATH_NOT_FOUND,
};
use rd_dirinfo::Naming;

/// FileRenameInformation
const RENAME: u32 = 10;

/// To `\n`, where nothing stands.
const TO_N: Ask = Ask::SetFile(RENAME, b"\0\0\x04\0\0\0\\\0n\0");

/// To `\d\f`, in place of what stands there.
const OVER_F: Ask = Ask::SetFile(RENAME, b"\x01\0\x08\0\0\0\\\0d\0\\\0f\0");

const ROWS: &[Row] = &[
    Row {
        name: "who may rename, and to which path",
        naming: Naming::Exact,
        nodes: NODES,
        lines: &[
            Request(0, Ask::Open("\\a", READ_WRITE), Want::Opened(1, 1)),
            Request(1, TO_N, ACCESS_DENIED),
            Request(0, Ask::Open("", ALL), Want::Opened(2, 1)),
            Request(2, TO_N, ACCESS_DENIED),
            Request(0, Ask::Open("\\a", DELETE), Want::Opened(3, 1)),
            Request(
                3,
                Ask::SetFile(RENAME, b"\0\x01\x04\0\0\0\\\0n\0"),
                INVALID_PARAMETER,
            ),
            Request(
                3,
                Ask::SetFile(RENAME, b"\0\0\x06\0\0\0\\\0n\0:\0"),
                OBJECT_NAME_INVALID,
            ),
            Request(3, Ask::SetFile(RENAME, b"\0\0\0\0\0\0"), ACCESS_DENIED),
            Request(
                3,
                Ask::SetFile(RENAME, b"\0\0\x04\0\0\0\\\0a\0"),
                Want::Count(10),
            ),
            Request(
                3,
                Ask::SetFile(RENAME, b"\0\0\x08\0\0\0\\\0x\0\\\0n\0"),
                OBJECT_PATH_NOT_FOUND,
            ),
            Request(0, Ask::Open("\\d", DELETE), Want::Opened(4, 1)),
            Request(
                4,
                Ask::SetFile(RENAME, b"\0\0\x08\0\0\0\\\0d\0\\\0n\0"),
                INVALID_PARAMETER,
            ),
            Request(
                4,
                Ask::SetFile(RENAME, b"\0\0\x08\0\0\0\\\0a\0\\\0n\0"),
                OBJECT_PATH_NOT_FOUND,
            ),
        ],
    },
    Row {
        name: "what stands at the path",
        naming: Naming::Exact,
        nodes: NODES,
        lines: &[
            Request(0, Ask::Open("\\a", DELETE), Want::Opened(1, 1)),
            Request(
                1,
                Ask::SetFile(RENAME, b"\0\0\x08\0\0\0\\\0d\0\\\0f\0"),
                OBJECT_NAME_COLLISION,
            ),
            Request(
                1,
                Ask::SetFile(RENAME, b"\x01\0\x04\0\0\0\\\0d\0"),
                ACCESS_DENIED,
            ),
            Request(
                0,
                Ask::CreateFor("\\n", CREATE, READ, 0, 1),
                Want::Opened(2, 0),
            ),
            Request(2, Ask::Close, Want::Closed),
            Request(
                1,
                Ask::SetFile(RENAME, b"\x01\0\x04\0\0\0\\\0n\0"),
                ACCESS_DENIED,
            ),
            Request(0, Ask::Open("\\d\\f", READ), Want::Opened(3, 1)),
            Request(1, OVER_F, ACCESS_DENIED),
            Request(3, Ask::Close, Want::Closed),
            Request(1, OVER_F, Want::Count(14)),
            Request(0, Ask::Open("\\d\\f", READ), Want::Opened(4, 1)),
            Request(4, Ask::Read(0, 9), Want::Bytes(b"hello")),
            Request(0, Ask::Open("\\a", READ), OBJECT_NAME_NOT_FOUND),
        ],
    },
    Row {
        name: "rename below open handles",
        naming: Naming::Exact,
        nodes: &[Node::Folder("\\d"), Node::File("\\d\\f", b"a")],
        lines: &[
            Request(0, Ask::Open("\\d\\f", READ), Want::Opened(1, 1)),
            Request(0, Ask::Open("\\d", DELETE), Want::Opened(2, 1)),
            Request(
                2,
                Ask::SetFile(RENAME, b"\0\0\x04\0\0\0\\\0e\0"),
                Want::Count(10),
            ),
            Request(1, Ask::Read(0, 1), Want::Bytes(b"a")),
            Request(0, Ask::Open("\\d\\f", READ), OBJECT_PATH_NOT_FOUND),
            Request(0, Ask::Open("\\e\\f", READ), Want::Opened(3, 1)),
        ],
    },
];

#[test]
fn renames(rt: HostRuntime) {
    check(&rt, ROWS);
}
