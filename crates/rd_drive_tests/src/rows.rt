//! The rows of the tables: requests to a drive, line by line, and what comes of each, on a drive in memory and on one over a folder in memory. NO_MEMORY alone
//! never comes, as no test takes the memory away.
use crate::asks::{Ask, bytes, op, units};
use rd_base::{Calls, Key, Status};
use rd_dirinfo::{Naming, Path};
use rd_drive::{Device, End, Ends, Job, MemoryDrive, Step, prepare};
use rd_folder::{Folders, MemFolder, MemFolders};
use rd_folder_drive::FolderDrive;
use rd_irp::{Body, Reply};
use rd_tree::AddNo;
use std::process::Abort;

/// The moment of every request.
const MOMENT: u64 = 7;

/// What is on a drive before the first request.
#[derive(Clone, Copy)]
pub enum Node {
    Folder(&'static str),
    /// Path, bytes.
    File(&'static str, &'static [u8]),
}

/// A folder with a file in it, and a file beside it.
pub const NODES: &[Node] = &[
    Node::Folder("\\d"),
    Node::File("\\d\\f", b"ab"),
    Node::File("\\a", b"hello"),
];

/// What comes of a request.
#[derive(Clone, Copy)]
pub enum Want {
    /// File id, information.
    Opened(u32, u8),
    Closed,
    Count(u32),
    Bytes(&'static [u8]),
    Locked,
    Waits,
    No(u32),
}

/// What happens to a drive.
#[derive(Clone, Copy)]
pub enum Line {
    /// A request: file id, what it asks for, what comes of it.
    Request(u32, Ask, Want),
    /// Requests that are the same, whatever comes of them: how many, file id, what they ask for.
    Times(u32, u32, Ask),
    /// The end of a request that waited: its line, counted from 0, what comes of it.
    End(u64, Want),
    /// The drive is cut off.
    Cut,
}

/// A drive of its own and what happens to it.
pub struct Row {
    pub name: &'static str,
    pub naming: Naming,
    pub nodes: &'static [Node],
    pub lines: &'static [Line],
}

/// The path that a text spells.
fn path(rt: &(impl Abort + AllocGlobal), text: &str) -> Path {
    Path::split(rt.alloc(), units(rt, text).as_slice()).expect(rt, "a path")
}

/// An empty drive, `DATA`.
pub fn empty(rt: &(impl Abort + AllocGlobal), naming: Naming) -> MemoryDrive {
    let label = units(rt, "DATA");
    assert!(rt; label.as_slice().len() <= 32);
    MemoryDrive::new(rt.alloc(), label, naming).expect(rt, "memory for a drive")
}

pub fn add(
    rt: &(impl Abort + AllocGlobal),
    drive: &mut MemoryDrive,
    node: Node,
) -> Result<(), AddNo> {
    match node {
        Node::Folder(text) => drive.add_folder(&path(rt, text)),
        Node::File(text, of) => {
            let of = bytes(rt, of);
            assert!(rt; of.as_slice().len() <= 1 << 40);
            drive.add_file(&path(rt, text), &of)
        }
    }
}

/// A folder in memory with these nodes, in which the calls with these numbers fail.
fn folder(rt: &(impl Abort + AllocGlobal), nodes: &[Node], fails: &[u64]) -> MemFolder {
    let fails = fails.to_vec(rt.alloc()).expect(rt, "memory for numbers");
    let mut folder = MemFolder::new(rt.alloc(), Calls::of(fails));
    for node in nodes {
        let added = match *node {
            Node::Folder(text) => folder.add_folder(&path(rt, text)),
            Node::File(text, of) => folder.add_file(&path(rt, text), of),
        };
        added.expect(rt, "room for a node");
    }
    folder
}

/// A drive, `DATA`, over a folder in memory with these nodes, in which the calls with these numbers fail.
pub fn over_folder(
    rt: &(impl Abort + AllocGlobal),
    nodes: &[Node],
    fails: &[u64],
) -> FolderDrive<MemFolder> {
    let ahead = vec![in rt.alloc(); folder(rt, nodes, fails)].expect(rt, "memory for a folder");
    let calls = Calls::of(Vec::new(rt.alloc()));
    let mut folders = MemFolders::new(rt.alloc(), ahead, calls).expect(rt, "memory for folders");
    let folder = folders.open("").expect(rt, "a folder");
    let label = units(rt, "DATA");
    assert!(rt; label.as_slice().len() <= 32);
    FolderDrive::new(rt.alloc(), folder, label).expect(rt, "memory for a drive")
}

/// What comes of a request with this number, unless the end of one that waited is left.
fn run(
    rt: &(impl Abort + AllocGlobal),
    drive: &mut impl Device,
    index: u64,
    file: u32,
    ask: Ask,
    ends: &mut Ends,
) -> Option<Step> {
    if !ends.is_empty() {
        return None;
    }
    let job = Job {
        key: Key { channel: 1, index },
        file,
        completion: 0,
        op: op(rt, ask),
    };
    Some(drive.apply(prepare(rt.alloc(), job), MOMENT, ends))
}

fn is_body(body: &Body, want: Want) -> bool {
    match (body, want) {
        (Body::Created { file, information }, Want::Opened(id, how)) => {
            *file == id && *information == how
        }
        (Body::Closed, Want::Closed) => true,
        (Body::Locked, Want::Locked) => true,
        (Body::Count(count), Want::Count(wanted)) => *count == wanted,
        (Body::Buffer(bytes), Want::Bytes(wanted)) => bytes.as_slice() == wanted,
        (Body::Fault, Want::No(_)) => true,
        _ => false,
    }
}

fn is_reply(reply: &Reply, want: Want) -> bool {
    let status = match want {
        Want::No(status) => Status(status),
        _ => Status::SUCCESS,
    };
    reply.status == status && is_body(&reply.body, want)
}

fn is_step(step: Option<&Step>, want: Want) -> bool {
    match step {
        Some(Step::Reply(reply)) => is_reply(reply, want),
        Some(Step::Parked) => matches!(want, Want::Waits),
        None => false,
    }
}

fn is_end(end: Option<&End>, waited: u64, want: Want) -> bool {
    match end {
        Some(end) => end.key.index == waited && is_reply(&end.reply, want),
        None => false,
    }
}

/// Whether a line comes as it is said.
fn comes(
    rt: &(impl Abort + AllocGlobal),
    drive: &mut impl Device,
    ends: &mut Ends,
    index: u64,
    line: Line,
) -> bool {
    match line {
        Line::Request(file, ask, want) => {
            is_step(run(rt, drive, index, file, ask, ends).as_ref(), want)
        }
        Line::Times(times, file, ask) => {
            for _ in 0..times {
                if run(rt, drive, index, file, ask, ends).is_none() {
                    return false;
                }
            }
            true
        }
        Line::End(waited, want) => is_end(ends.pop().as_ref(), waited, want),
        Line::Cut => {
            drive.cut();
            true
        }
    }
}

/// The number of the first line that comes otherwise, counted from 0.
pub fn first_wrong(
    rt: &(impl Abort + AllocGlobal),
    drive: &mut impl Device,
    lines: &[Line],
) -> Option<usize> {
    let mut ends = Ends::new(rt.alloc()).expect(rt, "memory for the ends");
    for (index, line) in lines.iter().enumerate() {
        if !comes(rt, drive, &mut ends, index as u64, *line) {
            return Some(index);
        }
    }
    if ends.is_empty() {
        None
    } else {
        Some(lines.len())
    }
}

fn first_wrong_of(rt: &(impl Abort + AllocGlobal), row: &Row) -> Option<usize> {
    let mut drive = empty(rt, row.naming);
    for node in row.nodes {
        add(rt, &mut drive, *node).expect(rt, "room for a node");
    }
    first_wrong(rt, &mut drive, row.lines)
}

/// Asserts that every line of each row comes as it is said, and over a folder too where names are told apart by their units.
pub fn check(rt: &(impl Abort + AllocGlobal), rows: &[Row]) {
    for row in rows {
        assert_eq!(rt; first_wrong_of(rt, row), None, "{}", row.name);
        if let Naming::Exact = row.naming {
            let mut drive = over_folder(rt, row.nodes, &[]);
            let wrong = first_wrong(rt, &mut drive, row.lines);
            assert_eq!(rt; wrong, None, "over a folder: {}", row.name);
        }
    }
}
