//! SetFile, but for renaming, and SetVolume.
use crate::asks::{ALL, Ask, CREATE, DELETE, MARK, READ, READ_WRITE, WRITE, WRITE_ATTRIBUTES};
use crate::rows::Line::Request;
use crate::rows::{NODES, Node, Row, Want, check};
use crate::statuses::{
    ACCESS_DENIED, DIRECTORY_NOT_EMPTY, DISK_FULL, END_OF_FILE, INVALID_DEVICE_REQUEST,
    INVALID_INFO_CLASS, INVALID_PARAMETER,
};
use rd_dirinfo::Naming;

/// FileBasicInformation
const BASIC: u32 = 4;

/// FileDispositionInformation
const DISPOSITION: u32 = 13;

/// FileAllocationInformation
const ALLOCATION: u32 = 0x13;

/// FileEndOfFileInformation
const END: u32 = 0x14;

/// FileFsLabelInformation
const LABEL: u32 = 2;

/// A `DISPOSITION` by which what is open stays.
const UNMARK: Ask = Ask::SetFile(DISPOSITION, b"\0");

const ROWS: &[Row] = &[
    Row {
        name: "classes, moments and attributes",
        naming: Naming::Exact,
        nodes: NODES,
        lines: &[
            Request(0, Ask::Open("\\a", READ), Want::Opened(1, 1)),
            Request(1, Ask::SetFile(5, b""), INVALID_INFO_CLASS),
            Request(1, Ask::SetFile(BASIC, b""), ACCESS_DENIED),
            Request(0, Ask::Open("\\a", WRITE_ATTRIBUTES), Want::Opened(2, 1)),
            Request(2, Ask::SetFile(BASIC, &[0; 35]), INVALID_PARAMETER),
            Request(
                2,
                Ask::SetFile(
                    BASIC,
                    b"\x01\0\0\0\0\0\0\0\x02\0\0\0\0\0\0\0\x03\0\0\0\0\0\0\0\0\0\0\0\0\0\0\0\x02\0\0\0",
                ),
                Want::Count(36),
            ),
            Request(
                2,
                Ask::QueryFile(BASIC),
                Want::Bytes(
                    b"\x01\0\0\0\0\0\0\0\x02\0\0\0\0\0\0\0\x03\0\0\0\0\0\0\0\x07\0\0\0\0\0\0\0\x02\0\0\0",
                ),
            ),
        ],
    },
    Row {
        name: "what goes with its last handle",
        naming: Naming::Exact,
        nodes: NODES,
        lines: &[
            Request(0, Ask::Open("\\a", READ_WRITE), Want::Opened(1, 1)),
            Request(1, UNMARK, ACCESS_DENIED),
            Request(0, Ask::Open("", ALL), Want::Opened(2, 1)),
            Request(2, UNMARK, ACCESS_DENIED),
            Request(
                0,
                Ask::CreateFor("\\n", CREATE, ALL, 0, 1),
                Want::Opened(3, 0),
            ),
            Request(3, MARK, ACCESS_DENIED),
            Request(3, Ask::SetFile(DISPOSITION, b""), ACCESS_DENIED),
            Request(3, UNMARK, Want::Count(1)),
            Request(0, Ask::Open("\\d", DELETE), Want::Opened(4, 1)),
            Request(4, MARK, DIRECTORY_NOT_EMPTY),
            Request(4, UNMARK, Want::Count(1)),
            Request(0, Ask::Open("\\a", DELETE), Want::Opened(5, 1)),
            Request(5, MARK, Want::Count(1)),
            Request(
                5,
                Ask::QueryFile(5),
                Want::Bytes(b"\0\x10\0\0\0\0\0\0\x05\0\0\0\0\0\0\0\x01\0\0\0\x01\0"),
            ),
            Request(5, UNMARK, Want::Count(1)),
            Request(0, Ask::Open("\\a", READ), Want::Opened(6, 1)),
        ],
    },
    Row {
        name: "the end of a file, and what is kept for it",
        naming: Naming::Exact,
        nodes: NODES,
        lines: &[
            Request(0, Ask::Open("\\d", READ), Want::Opened(1, 1)),
            Request(1, Ask::SetFile(END, b""), INVALID_DEVICE_REQUEST),
            Request(1, Ask::SetFile(ALLOCATION, b""), INVALID_DEVICE_REQUEST),
            Request(0, Ask::Open("\\a", READ), Want::Opened(2, 1)),
            Request(2, Ask::SetFile(END, b""), ACCESS_DENIED),
            Request(2, Ask::SetFile(ALLOCATION, b""), ACCESS_DENIED),
            Request(0, Ask::Open("\\a", WRITE), Want::Opened(3, 1)),
            Request(3, Ask::SetFile(END, &[0; 7]), INVALID_PARAMETER),
            Request(3, Ask::SetFile(ALLOCATION, &[0; 7]), INVALID_PARAMETER),
            Request(3, Ask::SetFile(END, b"\x01\0\0\0\0\x01\0\0"), DISK_FULL),
            Request(
                3,
                Ask::SetFile(ALLOCATION, b"\x01\0\0\0\0\x01\0\0"),
                DISK_FULL,
            ),
            Request(
                3,
                Ask::SetFile(ALLOCATION, b"\x09\0\0\0\0\0\0\0"),
                Want::Count(8),
            ),
            Request(2, Ask::Read(5, 1), END_OF_FILE),
            Request(
                3,
                Ask::SetFile(ALLOCATION, b"\x01\0\0\0\0\0\0\0"),
                Want::Count(8),
            ),
            Request(2, Ask::Read(0, 9), Want::Bytes(b"h")),
            Request(3, Ask::SetFile(END, b"\0\0\0\0\0\x01\0\0"), Want::Count(8)),
            Request(2, Ask::Read(0, 4), Want::Bytes(b"h\0\0\0")),
        ],
    },
    Row {
        name: "the label",
        naming: Naming::Exact,
        nodes: NODES,
        lines: &[
            Request(0, Ask::Open("\\a", READ), Want::Opened(1, 1)),
            Request(1, Ask::SetVolume(1, b""), INVALID_INFO_CLASS),
            Request(
                1,
                Ask::SetVolume(LABEL, b"\x03\0\0\0A\0B"),
                INVALID_PARAMETER,
            ),
            Request(1, Ask::SetVolume(LABEL, b"\0\0\0\0"), Want::Count(4)),
            Request(
                1,
                Ask::QueryVolume(1),
                Want::Bytes(b"\0\0\0\0\0\0\0\01RDR\0\0\0\0\0"),
            ),
        ],
    },
    Row {
        name: "label and end of file",
        naming: Naming::Exact,
        nodes: &[Node::File("\\a", b"")],
        lines: &[
            Request(0, Ask::Open("\\a", READ_WRITE), Want::Opened(1, 1)),
            Request(
                1,
                Ask::SetVolume(LABEL, b"\x06\0\0\0A\0B\0\0\0"),
                Want::Count(10),
            ),
            Request(
                1,
                Ask::QueryVolume(1),
                Want::Bytes(b"\0\0\0\0\0\0\0\01RDR\x04\0\0\0\0A\0B\0"),
            ),
            Request(1, Ask::SetVolume(LABEL, b"B\0\0\0"), INVALID_PARAMETER),
            Request(1, Ask::SetVolume(3, b"\0"), INVALID_INFO_CLASS),
            Request(1, Ask::SetFile(END, b"\x03\0\0\0\0\0\0\0"), Want::Count(8)),
            Request(1, Ask::Read(0, 8), Want::Bytes(b"\0\0\0")),
            Request(1, Ask::SetFile(DISPOSITION, b""), ACCESS_DENIED),
        ],
    },
];

#[test]
fn sets_by_class(rt: HostRuntime) {
    check(&rt, ROWS);
}
