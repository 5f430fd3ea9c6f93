//! What is on a drive before the first request.
use crate::asks::{Ask, READ};
use crate::rows::Line::Request;
use crate::rows::{Line, Node, add, empty, first_wrong};
use crate::statuses::DISK_FULL;
use rd_dirinfo::{Naming, Path};
use rd_drive::MemoryDrive;
use rd_tree::AddNo;
use std::process::Abort;

/// A request for one more node than there is room for.
const ONE_MORE: &[Line] = &[Request(0, Ask::Make("\\n", READ), DISK_FULL)];

/// Adds a file to an empty drive.
fn added(rt: &(impl Abort + AllocGlobal), path: &'static str) -> Result<(), AddNo> {
    let mut drive = empty(rt, Naming::Exact);
    add(rt, &mut drive, Node::File(path, b"a"))
}

#[test]
fn adds_no_file_in_missing_folder(rt: HostRuntime) {
    assert_eq!(rt; added(&rt, "\\x"), Ok(()));
    assert_eq!(rt; added(&rt, "\\x\\y"), Err(AddNo::PathNotFound));
}

/// Adds 65,535 folders to the root.
fn fill(rt: &(impl Abort + AllocGlobal), drive: &mut MemoryDrive) {
    for first in 0x100..0x1ff {
        for second in 0x100..0x201 {
            let path = Path::split(rt.alloc(), &[0x5c, first, second]).expect(rt, "a path");
            drive.add_folder(&path).expect(rt, "room for a folder");
        }
    }
}

/// Why a full drive has no room for one more folder, and whether a request meets the same.
fn when_full(rt: &(impl Abort + AllocGlobal)) -> (Result<(), AddNo>, Option<usize>) {
    let mut drive = empty(rt, Naming::Exact);
    fill(rt, &mut drive);
    let added = add(rt, &mut drive, Node::Folder("\\n"));
    (added, first_wrong(rt, &mut drive, ONE_MORE))
}

#[test]
fn has_so_many_nodes(rt: HostRuntime) {
    assert_eq!(rt; when_full(&rt), (Err(AddNo::Full), None));
}
