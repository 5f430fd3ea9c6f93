//! Notify, and the ends of notifications.
use crate::asks::{Ask, DELETE, MARK, READ, READ_WRITE};
use crate::rows::Line::{End, Request, Times};
use crate::rows::{NODES, Node, Row, Want, check};
use crate::statuses::{INSUFFICIENT_RESOURCES, INVALID_PARAMETER, NOTIFY_CLEANUP};
use rd_dirinfo::Naming;

const ROWS: &[Row] = &[
    Row {
        name: "notification of new file",
        naming: Naming::Exact,
        nodes: &[Node::Folder("\\d")],
        lines: &[
            Request(0, Ask::Open("\\d", READ), Want::Opened(1, 1)),
            Request(1, Ask::Notify(false, 1), Want::Waits),
            Request(0, Ask::Make("\\d\\n", READ_WRITE), Want::Opened(2, 0)),
            End(1, Want::Bytes(b"\0\0\0\0\x01\0\0\0\x02\0\0\0n\0")),
        ],
    },
    Row {
        name: "each change, told to who watches what is below and asks for it",
        naming: Naming::Exact,
        nodes: &[Node::Folder("\\d")],
        lines: &[
            Request(0, Ask::Open("", READ), Want::Opened(1, 1)),
            Request(1, Ask::Notify(true, 1), Want::Waits),
            Request(
                0,
                Ask::Make("\\d\\n", READ_WRITE | DELETE),
                Want::Opened(2, 0),
            ),
            End(1, Want::Bytes(b"\0\0\0\0\x01\0\0\0\x06\0\0\0d\0\\\0n\0")),
            Request(1, Ask::Notify(true, 0x18), Want::Waits),
            Request(2, Ask::Write(0, b"a"), Want::Count(1)),
            End(4, Want::Bytes(b"\0\0\0\0\x03\0\0\0\x06\0\0\0d\0\\\0n\0")),
            Request(1, Ask::Notify(true, 4), Want::Waits),
            Request(2, Ask::SetFile(4, &[0; 36]), Want::Count(36)),
            End(7, Want::Bytes(b"\0\0\0\0\x03\0\0\0\x06\0\0\0d\0\\\0n\0")),
            Request(1, Ask::Notify(true, 2), Want::Waits),
            Request(
                2,
                Ask::SetFile(10, b"\0\0\x08\0\0\0\\\0d\0\\\0m\0"),
                Want::Count(14),
            ),
            Request(1, Ask::Notify(false, 1), Want::Waits),
            Request(1, Ask::Notify(true, 1), Want::Waits),
            Request(
                2,
                Ask::SetFile(10, b"\0\0\x08\0\0\0\\\0d\0\\\0k\0"),
                Want::Count(14),
            ),
            End(13, Want::Bytes(b"\0\0\0\0\x04\0\0\0\x06\0\0\0d\0\\\0m\0")),
            Request(2, MARK, Want::Count(1)),
            Request(1, Ask::Notify(true, 1), Want::Waits),
            Request(2, Ask::Close, Want::Closed),
            End(17, Want::Bytes(b"\0\0\0\0\x02\0\0\0\x06\0\0\0d\0\\\0k\0")),
            Request(1, Ask::Close, Want::Closed),
            End(10, NOTIFY_CLEANUP),
            End(12, NOTIFY_CLEANUP),
        ],
    },
    Row {
        name: "a file, and 64 requests that wait",
        naming: Naming::Exact,
        nodes: NODES,
        lines: &[
            Request(0, Ask::Open("\\a", READ), Want::Opened(1, 1)),
            Request(1, Ask::Notify(false, 1), INVALID_PARAMETER),
            Request(0, Ask::Open("\\d", READ), Want::Opened(2, 1)),
            Times(63, 2, Ask::Notify(true, 1)),
            Request(2, Ask::Notify(true, 1), Want::Waits),
            Request(2, Ask::Notify(true, 1), INSUFFICIENT_RESOURCES),
        ],
    },
];

#[test]
fn tells_of_changes(rt: HostRuntime) {
    check(&rt, ROWS);
}
