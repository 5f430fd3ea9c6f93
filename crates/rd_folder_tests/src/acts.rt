//! What both kinds of folders are tried with.

use crate::paths::{path, units};
use rd_base::Moments;
use rd_dirinfo::Pattern;
use rd_folder::{Folder, FolderNo, Listed};
use std::process::Abort;

/// One call of a folder, with what it is to answer.
#[derive(Clone, Copy)]
pub enum Act<'a> {
    /// Whether a folder is there, and how many bytes it has, if something is there.
    Look(&'a str, Option<(bool, u64)>),
    /// The name that the root lists after another one, if one is given, and whether a folder has it, if there is one.
    Next(Option<&'a str>, Option<(&'a str, bool)>),
    /// At most so many bytes from an offset on are these.
    Read(&'a str, u64, u32, &'a [u8]),
    /// A folder is made, or a file.
    Make(&'a str, bool),
    Replace(&'a str),
    Write(&'a str, u64, &'a [u8]),
    Resize(&'a str, u64),
    /// All four moments are set, and those of access and of write are told.
    Mark(&'a str, u64),
    Rename(&'a str, &'a str),
    Remove(&'a str),
}

/// An act, which is done, or is refused.
#[derive(Clone, Copy)]
pub enum Row<'a> {
    Done(Act<'a>),
    Refused(Act<'a>, FolderNo),
}

/// Whether something is at a path, and is so.
fn looks<F: Folder>(
    rt: &(impl Abort + AllocGlobal),
    folder: &mut F,
    text: &str,
    so: Option<(bool, u64)>,
) -> Result<bool, FolderNo> {
    let found = folder.look(path(rt, text).names())?;
    Ok(found.map(|look| (look.folder, look.end)) == so)
}

/// Whether something is listed, and is so.
fn is_so(rt: &(impl Abort + AllocGlobal), listed: &Listed, so: (&str, bool)) -> bool {
    listed.name.as_slice() == units(rt, so.0).as_slice() && listed.look.folder == so.1
}

/// Whether the root lists this name after that one.
fn lists<F: Folder>(
    rt: &(impl Abort + AllocGlobal),
    folder: &mut F,
    after: Option<&str>,
    so: Option<(&str, bool)>,
) -> Result<bool, FolderNo> {
    let after = match after {
        Some(name) => Some(units(rt, name)),
        None => None,
    };
    let pattern = Pattern::any(rt.alloc());
    let listed = folder.next(path(rt, "\\").names(), after.as_ref(), &pattern)?;
    Ok(match (&listed, so) {
        (Some(listed), Some(so)) => is_so(rt, listed, so),
        (None, None) => true,
        _ => false,
    })
}

/// Whether these bytes are read.
fn reads<F: Folder>(
    rt: &(impl Abort + AllocGlobal),
    folder: &mut F,
    text: &str,
    offset: u64,
    count: u32,
    bytes: &[u8],
) -> Result<bool, FolderNo> {
    let found = folder.read(path(rt, text).names(), offset, count, Vec::new(rt.alloc()))?;
    Ok(found.as_slice() == bytes)
}

/// Marks a node, and whether its moments are told then.
fn marks<F: Folder>(
    rt: &(impl Abort + AllocGlobal),
    folder: &mut F,
    text: &str,
    moment: u64,
) -> Result<bool, FolderNo> {
    let path = path(rt, text);
    let moments = Moments {
        creation: moment,
        access: moment,
        write: moment,
        change: moment,
    };
    folder.mark(path.names(), 0x20, moments)?;
    let found = folder.look(path.names())?;
    Ok(found.map(|look| (look.moments.access, look.moments.write)) == Some((moment, moment)))
}

/// Does an act.
fn ends<F: Folder>(
    rt: &(impl Abort + AllocGlobal),
    folder: &mut F,
    act: Act<'_>,
) -> Result<bool, FolderNo> {
    let done = match act {
        Act::Look(text, so) => return looks(rt, folder, text, so),
        Act::Next(after, so) => return lists(rt, folder, after, so),
        Act::Read(text, offset, count, bytes) => {
            return reads(rt, folder, text, offset, count, bytes);
        }
        Act::Mark(text, moment) => return marks(rt, folder, text, moment),
        Act::Make(text, is_folder) => folder.make(path(rt, text).names(), is_folder, 0x20, 5),
        Act::Replace(text) => folder.replace(path(rt, text).names(), 0x20, 6),
        Act::Write(text, offset, bytes) => folder.write(path(rt, text).names(), offset, bytes, 7),
        Act::Resize(text, end) => folder.resize(path(rt, text).names(), end, 8),
        Act::Rename(from, to) => folder.rename(path(rt, from).names(), path(rt, to).names(), 9),
        Act::Remove(text) => folder.remove(path(rt, text).names()),
    };
    done?;
    Ok(true)
}

/// Whether an act ends as its row says.
fn holds<F: Folder>(rt: &(impl Abort + AllocGlobal), folder: &mut F, row: Row<'_>) -> bool {
    match row {
        Row::Done(act) => ends(rt, folder, act) == Ok(true),
        Row::Refused(act, no) => ends(rt, folder, act) == Err(no),
    }
}

/// Does some acts, each of which ends as its row says.
pub fn play<F: Folder>(rt: &(impl Abort + AllocGlobal), folder: &mut F, rows: &[Row<'_>]) {
    for row in rows {
        assert!(rt; holds(rt, folder, *row));
    }
}
