//! QueryFile and QueryVolume.
use crate::asks::{Ask, READ, READ_WRITE};
use crate::rows::Line::Request;
use crate::rows::{Node, Row, Want, check};
use crate::statuses::INVALID_INFO_CLASS;
use rd_dirinfo::Naming;

const ROWS: &[Row] = &[
    Row {
        name: "a file",
        naming: Naming::Exact,
        nodes: &[Node::File("\\a", b"ab")],
        lines: &[
            Request(0, Ask::Open("\\a", READ_WRITE), Want::Opened(1, 1)),
            Request(1, Ask::QueryFile(6), INVALID_INFO_CLASS),
            Request(
                1,
                Ask::QueryFile(4),
                Want::Bytes(
                    b"\0\0\0\0\0\0\0\0\0\0\0\0\0\0\0\0\0\0\0\0\0\0\0\0\0\0\0\0\0\0\0\0\x20\0\0\0",
                ),
            ),
            Request(1, Ask::Write(0, b"c"), Want::Count(1)),
            Request(
                1,
                Ask::QueryFile(4),
                Want::Bytes(
                    b"\0\0\0\0\0\0\0\0\0\0\0\0\0\0\0\0\x07\0\0\0\0\0\0\0\x07\0\0\0\0\0\0\0\x20\0\0\0",
                ),
            ),
            Request(1, Ask::QueryFile(0x23), Want::Bytes(b"\x20\0\0\0\0\0\0\0")),
        ],
    },
    Row {
        name: "a folder",
        naming: Naming::Exact,
        nodes: &[Node::Folder("\\d")],
        lines: &[
            Request(0, Ask::Open("\\d", READ), Want::Opened(1, 1)),
            Request(
                1,
                Ask::QueryFile(4),
                Want::Bytes(
                    b"\0\0\0\0\0\0\0\0\0\0\0\0\0\0\0\0\0\0\0\0\0\0\0\0\0\0\0\0\0\0\0\0\x10\0\0\0",
                ),
            ),
            Request(
                1,
                Ask::QueryFile(5),
                Want::Bytes(b"\0\0\0\0\0\0\0\0\0\0\0\0\0\0\0\0\x01\0\0\0\0\x01"),
            ),
            Request(1, Ask::QueryFile(0x23), Want::Bytes(b"\x10\0\0\0\0\0\0\0")),
        ],
    },
    Row {
        name: "the volume",
        naming: Naming::Exact,
        nodes: &[],
        lines: &[
            Request(0, Ask::Open("", READ), Want::Opened(1, 1)),
            Request(1, Ask::QueryVolume(2), INVALID_INFO_CLASS),
            Request(
                1,
                Ask::QueryVolume(3),
                Want::Bytes(b"\0\0\0\x10\0\0\0\0\0\0\0\x10\0\0\0\0\x08\0\0\0\0\x02\0\0"),
            ),
            Request(1, Ask::QueryVolume(4), Want::Bytes(b"\x07\0\0\0\0\0\0\0")),
            Request(
                1,
                Ask::QueryVolume(5),
                Want::Bytes(b"\x07\0\0\0\xff\0\0\0\x08\0\0\0R\0D\0F\0S\0"),
            ),
            Request(
                1,
                Ask::QueryVolume(7),
                Want::Bytes(
                    b"\0\0\0\x10\0\0\0\0\0\0\0\x10\0\0\0\0\0\0\0\x10\0\0\0\0\x08\0\0\0\0\x02\0\0",
                ),
            ),
        ],
    },
];

#[test]
fn tells_by_class(rt: HostRuntime) {
    check(&rt, ROWS);
}
