//! What is looked at before an operation: whether it could be read, is known, and names a handle.
use crate::asks::{Ask, READ};
use crate::rows::Line::Request;
use crate::rows::{NODES, Row, Want, check};
use crate::statuses::{INVALID_HANDLE, INVALID_PARAMETER, NOT_SUPPORTED};
use rd_dirinfo::Naming;

const ROWS: &[Row] = &[
    Row {
        name: "no handle",
        naming: Naming::Exact,
        nodes: NODES,
        lines: &[
            Request(1, Ask::Malformed, INVALID_PARAMETER),
            Request(1, Ask::Unknown, NOT_SUPPORTED),
            Request(1, Ask::Close, INVALID_HANDLE),
            Request(1, Ask::Read(0, 1), INVALID_HANDLE),
            Request(1, Ask::Write(0, b""), INVALID_HANDLE),
            Request(1, Ask::QueryFile(6), INVALID_HANDLE),
            Request(1, Ask::SetFile(6, b""), INVALID_HANDLE),
            Request(1, Ask::QueryVolume(6), INVALID_HANDLE),
            Request(1, Ask::SetVolume(6, b""), INVALID_HANDLE),
            Request(1, Ask::List(6, ""), INVALID_HANDLE),
            Request(1, Ask::Lock(6, false, &[]), INVALID_HANDLE),
            Request(1, Ask::Notify(false, 0), INVALID_HANDLE),
            Request(1, Ask::Control, INVALID_HANDLE),
        ],
    },
    Row {
        name: "a handle, and one that is closed",
        naming: Naming::Exact,
        nodes: NODES,
        lines: &[
            Request(0, Ask::Open("\\a", READ), Want::Opened(1, 1)),
            Request(1, Ask::Control, NOT_SUPPORTED),
            Request(1, Ask::Close, Want::Closed),
            Request(1, Ask::Close, INVALID_HANDLE),
        ],
    },
];

#[test]
fn looks_at_handles_first(rt: HostRuntime) {
    check(&rt, ROWS);
}
