//! Close.
use crate::asks::{Ask, DELETE_ON_CLOSE, OPEN, READ, READ_WRITE};
use crate::rows::Line::{Cut, Request};
use crate::rows::{NODES, Node, Row, Want, check};
use crate::statuses::{DELETE_PENDING, INVALID_HANDLE, OBJECT_NAME_NOT_FOUND};
use rd_dirinfo::Naming;

const ROWS: &[Row] = &[
    Row {
        name: "delete on close",
        naming: Naming::Exact,
        nodes: &[Node::Folder("\\d")],
        lines: &[
            Request(0, Ask::Make("\\d\\n", READ_WRITE), Want::Opened(1, 0)),
            Request(1, Ask::Write(2, b"ab"), Want::Count(2)),
            Request(1, Ask::Read(0, 4), Want::Bytes(b"\0\0ab")),
            Request(
                0,
                Ask::Create("\\d\\n", OPEN, DELETE_ON_CLOSE),
                Want::Opened(2, 1),
            ),
            Request(2, Ask::Close, Want::Closed),
            Request(0, Ask::Open("\\d\\n", READ), DELETE_PENDING),
            Request(1, Ask::Close, Want::Closed),
            Request(0, Ask::Open("\\d\\n", READ), OBJECT_NAME_NOT_FOUND),
        ],
    },
    Row {
        name: "a folder in which something stands",
        naming: Naming::Exact,
        nodes: &[Node::Folder("\\d")],
        lines: &[
            Request(
                0,
                Ask::Create("\\d", OPEN, DELETE_ON_CLOSE),
                Want::Opened(1, 1),
            ),
            Request(0, Ask::Make("\\d\\n", READ), Want::Opened(2, 0)),
            Request(1, Ask::Close, Want::Closed),
            Request(0, Ask::Open("\\d", READ), Want::Opened(3, 1)),
        ],
    },
    Row {
        name: "cut off",
        naming: Naming::Exact,
        nodes: NODES,
        lines: &[
            Request(
                0,
                Ask::Create("\\a", OPEN, DELETE_ON_CLOSE),
                Want::Opened(1, 1),
            ),
            Request(0, Ask::Open("\\d", READ), Want::Opened(2, 1)),
            Request(2, Ask::Notify(false, 1), Want::Waits),
            Cut,
            Request(1, Ask::Read(0, 0), INVALID_HANDLE),
            Request(0, Ask::Open("\\a", READ), OBJECT_NAME_NOT_FOUND),
            Request(0, Ask::Make("\\d\\n", READ), Want::Opened(3, 0)),
        ],
    },
];

#[test]
fn closes_and_deletes(rt: HostRuntime) {
    check(&rt, ROWS);
}
