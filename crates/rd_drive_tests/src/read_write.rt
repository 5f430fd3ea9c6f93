//! Read and Write.
use crate::asks::{Ask, READ, READ_WRITE, WRITE};
use crate::rows::Line::Request;
use crate::rows::{NODES, Node, Row, Want, check};
use crate::statuses::{
    ACCESS_DENIED, DISK_FULL, END_OF_FILE, FILE_LOCK_CONFLICT, INVALID_DEVICE_REQUEST,
};
use rd_dirinfo::Naming;

const ROWS: &[Row] = &[
    Row {
        name: "write gap and limit",
        naming: Naming::Exact,
        nodes: &[Node::File("\\e", b"")],
        lines: &[
            Request(0, Ask::Open("\\e", READ_WRITE), Want::Opened(1, 1)),
            Request(1, Ask::Write(10, b"ab"), Want::Count(2)),
            Request(1, Ask::Read(0, 12), Want::Bytes(b"\0\0\0\0\0\0\0\0\0\0ab")),
            Request(1, Ask::Write(1_099_511_627_775, b"ab"), DISK_FULL),
            Request(
                1,
                Ask::QueryFile(5),
                Want::Bytes(b"\0\x10\0\0\0\0\0\0\x0c\0\0\0\0\0\0\0\x01\0\0\0\0\0"),
            ),
        ],
    },
    Row {
        name: "reads",
        naming: Naming::Exact,
        nodes: NODES,
        lines: &[
            Request(0, Ask::Open("\\d", WRITE), Want::Opened(1, 1)),
            Request(1, Ask::Read(0, 0), INVALID_DEVICE_REQUEST),
            Request(0, Ask::Open("\\a", WRITE), Want::Opened(2, 1)),
            Request(2, Ask::Read(0, 0), ACCESS_DENIED),
            Request(2, Ask::Lock(3, false, &[(0, 1)]), Want::Locked),
            Request(0, Ask::Open("\\a", READ), Want::Opened(3, 1)),
            Request(3, Ask::Read(9, 0), Want::Bytes(b"")),
            Request(3, Ask::Read(0, 9), FILE_LOCK_CONFLICT),
            Request(3, Ask::Read(5, 1), END_OF_FILE),
            Request(3, Ask::Read(4, 9), Want::Bytes(b"o")),
        ],
    },
    Row {
        name: "writes",
        naming: Naming::Exact,
        nodes: NODES,
        lines: &[
            Request(0, Ask::Open("\\d", READ), Want::Opened(1, 1)),
            Request(1, Ask::Write(0, b""), INVALID_DEVICE_REQUEST),
            Request(0, Ask::Open("\\a", READ), Want::Opened(2, 1)),
            Request(2, Ask::Write(0, b""), ACCESS_DENIED),
            Request(2, Ask::Lock(3, false, &[(0, 1)]), Want::Locked),
            Request(0, Ask::Open("\\a", WRITE), Want::Opened(3, 1)),
            Request(3, Ask::Write(1 << 41, b""), Want::Count(0)),
            Request(3, Ask::Write(0, b"a"), FILE_LOCK_CONFLICT),
            Request(3, Ask::Write(1 << 40, b"a"), DISK_FULL),
            Request(3, Ask::Write(6, b"a"), Want::Count(1)),
            Request(2, Ask::Read(0, 9), Want::Bytes(b"hello\0a")),
        ],
    },
];

#[test]
fn reads_and_writes(rt: HostRuntime) {
    check(&rt, ROWS);
}
