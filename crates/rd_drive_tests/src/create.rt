//! Create.
use crate::asks::{
    ALL, Ask, CREATE, DELETE, DELETE_ON_CLOSE, FOLDER, MARK, OPEN, READ, READ_WRITE, WRITE,
    WRITE_ATTRIBUTES,
};
use crate::rows::Line::{Request, Times};
use crate::rows::{NODES, Node, Row, Want, check};
use crate::statuses::{
    ACCESS_DENIED, DELETE_PENDING, END_OF_FILE, FILE_IS_A_DIRECTORY, INVALID_PARAMETER,
    NOT_A_DIRECTORY, OBJECT_NAME_COLLISION, OBJECT_NAME_INVALID, OBJECT_NAME_NOT_FOUND,
    OBJECT_PATH_NOT_FOUND, SHARING_VIOLATION, TOO_MANY_OPENED_FILES,
};
use rd_dirinfo::Naming;

/// FILE_SUPERSEDE
const SUPERSEDE: u32 = 0;

/// FILE_OPEN_IF
const OPEN_IF: u32 = 3;

/// FILE_OVERWRITE
const OVERWRITE: u32 = 4;

/// FILE_OVERWRITE_IF
const OVERWRITE_IF: u32 = 5;

/// FILE_NON_DIRECTORY_FILE
const FILE: u32 = 0x40;

const ROWS: &[Row] = &[
    Row {
        name: "what can't be asked, and what isn't there or is of the other kind",
        naming: Naming::Exact,
        nodes: NODES,
        lines: &[
            Request(0, Ask::Create("\\a", 6, 0), INVALID_PARAMETER),
            Request(
                0,
                Ask::Create("\\a", OPEN, FOLDER | FILE),
                INVALID_PARAMETER,
            ),
            Request(
                0,
                Ask::Create("\\n", OVERWRITE_IF, FOLDER),
                INVALID_PARAMETER,
            ),
            Request(0, Ask::Open("\\a:b", READ), OBJECT_NAME_INVALID),
            Request(0, Ask::Make("\\x\\n", READ), OBJECT_PATH_NOT_FOUND),
            Request(0, Ask::Make("\\a\\n", READ), OBJECT_PATH_NOT_FOUND),
            Request(0, Ask::Make("\\a", READ), OBJECT_NAME_COLLISION),
            Request(0, Ask::Create("\\a", OPEN, FOLDER), NOT_A_DIRECTORY),
            Request(0, Ask::Create("\\d", OPEN, FILE), FILE_IS_A_DIRECTORY),
            Request(0, Ask::Create("\\d", OVERWRITE_IF, 0), FILE_IS_A_DIRECTORY),
            Request(0, Ask::Create("", OPEN, DELETE_ON_CLOSE), ACCESS_DENIED),
            Request(0, Ask::Open("\\x", READ), OBJECT_NAME_NOT_FOUND),
            Request(0, Ask::Create("\\x", OVERWRITE, 0), OBJECT_NAME_NOT_FOUND),
            Request(0, Ask::Open("\\a", READ), Want::Opened(1, 1)),
        ],
    },
    Row {
        name: "what is to be deleted, and what is read-only",
        naming: Naming::Exact,
        nodes: NODES,
        lines: &[
            Request(0, Ask::Open("\\a", DELETE), Want::Opened(1, 1)),
            Request(1, MARK, Want::Count(1)),
            Request(0, Ask::Open("\\a", READ), DELETE_PENDING),
            Request(
                0,
                Ask::CreateFor("\\n", CREATE, DELETE, FOLDER, 0),
                Want::Opened(2, 0),
            ),
            Request(2, MARK, Want::Count(1)),
            Request(0, Ask::Make("\\n\\m", READ), DELETE_PENDING),
            Request(
                0,
                Ask::CreateFor("\\r", CREATE, ALL, 0, 1),
                Want::Opened(3, 0),
            ),
            Request(0, Ask::Open("\\r", WRITE), ACCESS_DENIED),
            Request(0, Ask::Create("\\r", OVERWRITE, 0), ACCESS_DENIED),
        ],
    },
    Row {
        name: "whether it was opened, overwritten, superseded or made, and its attributes",
        naming: Naming::Exact,
        nodes: NODES,
        lines: &[
            Request(0, Ask::Create("\\a", OPEN_IF, 0), Want::Opened(1, 1)),
            Request(0, Ask::Create("\\a", OVERWRITE, 0), Want::Opened(2, 3)),
            Request(0, Ask::Create("\\a", OVERWRITE_IF, 0), Want::Opened(3, 3)),
            Request(
                0,
                Ask::CreateFor("\\a", SUPERSEDE, READ_WRITE, 0, 0x87),
                Want::Opened(4, 0),
            ),
            Request(4, Ask::QueryFile(0x23), Want::Bytes(b"\x27\0\0\0\0\0\0\0")),
            Request(1, Ask::Read(0, 1), END_OF_FILE),
            Request(
                0,
                Ask::CreateFor("\\n", OPEN_IF, READ, FOLDER, 0x22),
                Want::Opened(5, 0),
            ),
            Request(5, Ask::QueryFile(0x23), Want::Bytes(b"\x12\0\0\0\0\0\0\0")),
        ],
    },
    Row {
        name: "sharing violation",
        naming: Naming::Exact,
        nodes: &[Node::File("\\a", b"")],
        lines: &[
            Request(0, Ask::Share("\\a", READ, 0), Want::Opened(1, 1)),
            Request(0, Ask::Share("\\a", READ, 0), SHARING_VIOLATION),
            Request(1, Ask::Close, Want::Closed),
            Request(0, Ask::Share("\\a", READ, 0), Want::Opened(2, 1)),
        ],
    },
    Row {
        name: "what another handle doesn't share, what it uses and isn't shared, and no use of either",
        naming: Naming::Exact,
        nodes: NODES,
        lines: &[
            Request(0, Ask::Share("\\a", READ, 6), Want::Opened(1, 1)),
            Request(0, Ask::Open("\\a", READ), SHARING_VIOLATION),
            Request(1, Ask::Close, Want::Closed),
            Request(0, Ask::Share("\\a", READ, 5), Want::Opened(2, 1)),
            Request(0, Ask::Open("\\a", WRITE), SHARING_VIOLATION),
            Request(0, Ask::Create("\\a", OVERWRITE_IF, 0), SHARING_VIOLATION),
            Request(2, Ask::Close, Want::Closed),
            Request(0, Ask::Share("\\a", READ, 3), Want::Opened(3, 1)),
            Request(0, Ask::Open("\\a", DELETE), SHARING_VIOLATION),
            Request(0, Ask::Share("\\a", WRITE, 6), SHARING_VIOLATION),
            Request(3, Ask::Close, Want::Closed),
            Request(0, Ask::Share("\\a", READ, 0), Want::Opened(4, 1)),
            Request(
                0,
                Ask::Share("\\a", WRITE_ATTRIBUTES, 0),
                Want::Opened(5, 1),
            ),
        ],
    },
    Row {
        name: "4,096 handles",
        naming: Naming::Exact,
        nodes: NODES,
        lines: &[
            Times(4095, 0, Ask::Open("\\a", READ)),
            Request(0, Ask::Open("\\a", READ), Want::Opened(4096, 1)),
            Request(0, Ask::Open("\\a", READ), TOO_MANY_OPENED_FILES),
        ],
    },
    Row {
        name: "folded names",
        naming: Naming::Folded,
        nodes: &[Node::File("\\Read.me", b"hi")],
        lines: &[
            Request(0, Ask::Open("\\READ.ME", READ), Want::Opened(1, 1)),
            Request(
                1,
                Ask::QueryVolume(5),
                Want::Bytes(b"\x06\0\0\0\xff\0\0\0\x08\0\0\0R\0D\0F\0S\0"),
            ),
            Request(0, Ask::Make("\\read.ME", READ_WRITE), OBJECT_NAME_COLLISION),
            Request(0, Ask::Open("", READ), Want::Opened(2, 1)),
            Request(
                2,
                Ask::List(12, "\\r*"),
                Want::Bytes(b"\0\0\0\0\0\0\0\0\x0e\0\0\0R\0e\0a\0d\0.\0m\0e\0"),
            ),
        ],
    },
    Row {
        name: "folded final sigma",
        naming: Naming::Folded,
        nodes: &[Node::File("\\\u{3a3}", b"a")],
        lines: &[Request(0, Ask::Open("\\\u{3c2}", READ), Want::Opened(1, 1))],
    },
    Row {
        name: "final sigma as it is",
        naming: Naming::Exact,
        nodes: &[Node::File("\\\u{3a3}", b"a")],
        lines: &[Request(0, Ask::Open("\\\u{3c2}", READ), OBJECT_NAME_NOT_FOUND)],
    },
];

#[test]
fn opens_and_makes(rt: HostRuntime) {
    check(&rt, ROWS);
}
