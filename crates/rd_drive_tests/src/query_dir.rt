//! QueryDir.
use crate::asks::{Ask, READ};
use crate::rows::Line::Request;
use crate::rows::{NODES, Node, Row, Want, check};
use crate::statuses::{
    INVALID_INFO_CLASS, INVALID_PARAMETER, NO_MORE_FILES, NO_SUCH_FILE, OBJECT_NAME_INVALID,
};
use rd_dirinfo::Naming;

/// FileDirectoryInformation
const DIRECTORY: u32 = 1;

/// FileFullDirectoryInformation
const FULL_DIRECTORY: u32 = 2;

/// FileBothDirectoryInformation
const BOTH_DIRECTORY: u32 = 3;

/// FileNamesInformation
const NAMES: u32 = 12;

/// A pattern of 256 units.
const LONG: &str = "xxxxxxxxxxxxxxxxxxxxxxxxxxxxxxxxxxxxxxxxxxxxxxxxxxxxxxxxxxxxxxxx\
xxxxxxxxxxxxxxxxxxxxxxxxxxxxxxxxxxxxxxxxxxxxxxxxxxxxxxxxxxxxxxxx\
xxxxxxxxxxxxxxxxxxxxxxxxxxxxxxxxxxxxxxxxxxxxxxxxxxxxxxxxxxxxxxxx\
xxxxxxxxxxxxxxxxxxxxxxxxxxxxxxxxxxxxxxxxxxxxxxxxxxxxxxxxxxxxxxxx";

const ROWS: &[Row] = &[
    Row {
        name: "directory listing",
        naming: Naming::Exact,
        nodes: &[
            Node::Folder("\\d"),
            Node::File("\\d\\a", b"a"),
            Node::File("\\d\\b", b""),
        ],
        lines: &[
            Request(0, Ask::Open("\\d", READ), Want::Opened(1, 1)),
            Request(
                1,
                Ask::List(NAMES, "\\d\\*"),
                Want::Bytes(b"\0\0\0\0\0\0\0\0\x02\0\0\0a\0"),
            ),
            Request(
                1,
                Ask::ListOn(NAMES),
                Want::Bytes(b"\0\0\0\0\0\0\0\0\x02\0\0\0b\0"),
            ),
            Request(1, Ask::ListOn(NAMES), NO_MORE_FILES),
            Request(1, Ask::List(BOTH_DIRECTORY, "\\d\\z*"), NO_SUCH_FILE),
            Request(
                1,
                Ask::List(BOTH_DIRECTORY, "\\d\\*"),
                Want::Bytes(
                    b"\0\0\0\0\0\0\0\0\0\0\0\0\0\0\0\0\0\0\0\0\0\0\0\0\0\0\0\0\0\0\0\0\0\0\0\0\0\0\0\0\x01\0\0\0\0\0\0\0\0\x10\0\0\0\0\0\0\x20\0\0\0\x02\0\0\0\0\0\0\0\0\0\0\0\0\0\0\0\0\0\0\0\0\0\0\0\0\0\0\0\0\0\0\0\0a\0",
                ),
            ),
        ],
    },
    Row {
        name: "a file and a folder, by class",
        naming: Naming::Exact,
        nodes: &[Node::File("\\a", b"ab"), Node::Folder("\\b")],
        lines: &[
            Request(0, Ask::Open("", READ), Want::Opened(1, 1)),
            Request(
                1,
                Ask::List(DIRECTORY, "\\?"),
                Want::Bytes(
                    b"\0\0\0\0\0\0\0\0\0\0\0\0\0\0\0\0\0\0\0\0\0\0\0\0\0\0\0\0\0\0\0\0\0\0\0\0\0\0\0\0\x02\0\0\0\0\0\0\0\0\x10\0\0\0\0\0\0\x20\0\0\0\x02\0\0\0a\0",
                ),
            ),
            Request(
                1,
                Ask::ListOn(FULL_DIRECTORY),
                Want::Bytes(
                    b"\0\0\0\0\0\0\0\0\0\0\0\0\0\0\0\0\0\0\0\0\0\0\0\0\0\0\0\0\0\0\0\0\0\0\0\0\0\0\0\0\0\0\0\0\0\0\0\0\0\0\0\0\0\0\0\0\x10\0\0\0\x02\0\0\0\0\0\0\0b\0",
                ),
            ),
        ],
    },
    Row {
        name: "refusals, and listing anew",
        naming: Naming::Exact,
        nodes: NODES,
        lines: &[
            Request(0, Ask::Open("\\a", READ), Want::Opened(1, 1)),
            Request(1, Ask::List(6, LONG), INVALID_PARAMETER),
            Request(0, Ask::Open("\\d", READ), Want::Opened(2, 1)),
            Request(2, Ask::List(6, LONG), INVALID_INFO_CLASS),
            Request(2, Ask::List(NAMES, LONG), OBJECT_NAME_INVALID),
            Request(
                2,
                Ask::ListOn(NAMES),
                Want::Bytes(b"\0\0\0\0\0\0\0\0\x02\0\0\0f\0"),
            ),
            Request(2, Ask::List(NAMES, "\\d\\g*"), NO_SUCH_FILE),
            Request(2, Ask::ListOn(NAMES), NO_MORE_FILES),
            Request(
                2,
                Ask::List(NAMES, "\\d\\"),
                Want::Bytes(b"\0\0\0\0\0\0\0\0\x02\0\0\0f\0"),
            ),
        ],
    },
];

#[test]
fn lists(rt: HostRuntime) {
    check(&rt, ROWS);
}
