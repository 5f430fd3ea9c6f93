//! Folders in memory: each call once with ample memory, and calls that fail.

use crate::acts::{Act, Row, play};
use crate::paths::path;
use rd_base::Calls;
use rd_folder::{Folder, FolderNo, Folders, MemFolder, MemFolders};
use std::process::Abort;
use std::test::Fail;

/// A folder in memory, in which the calls with these numbers fail.
fn failing(rt: &(impl Abort + AllocGlobal), fails: &[u64]) -> MemFolder {
    let fails = Vec::from_slice(rt.alloc(), fails).expect(rt, "memory for numbers");
    MemFolder::new(rt.alloc(), Calls::of(fails))
}

static FAILING: [Row<'static>; 6] = [
    Row::Refused(Act::Read("\\a", 0, 2, b"hi"), FolderNo::Failed),
    Row::Done(Act::Read("\\a", 0, 2, b"hi")),
    Row::Refused(Act::Remove("\\a"), FolderNo::Failed),
    Row::Done(Act::Look("\\a", Some((false, 2)))),
    Row::Done(Act::Remove("\\a")),
    Row::Done(Act::Look("\\a", None)),
];

static GOING_THROUGH: [Row<'static>; 12] = [
    Row::Done(Act::Make("\\\u{ff5e}", false)),
    Row::Done(Act::Make("\\\u{10000}", true)),
    Row::Done(Act::Next(None, Some(("\u{10000}", true)))),
    Row::Done(Act::Next(Some("\u{10000}"), Some(("\u{ff5e}", false)))),
    Row::Done(Act::Write("\\\u{ff5e}", 1, b"x")),
    Row::Done(Act::Resize("\\\u{ff5e}", 9)),
    Row::Done(Act::Mark("\\\u{ff5e}", 8)),
    Row::Done(Act::Rename("\\\u{ff5e}", "\\\u{10000}\\b")),
    Row::Done(Act::Look("\\\u{10000}\\b", Some((false, 9)))),
    Row::Done(Act::Replace("\\\u{10000}\\b")),
    Row::Refused(Act::Remove("\\\u{10000}"), FolderNo::Missing),
    Row::Done(Act::Next(Some("\u{10000}"), None)),
];

/// The first read fails, and the next one gives the bytes.
#[test]
fn calls_fail_by_their_numbers(rt: HostRuntime) -> Result<(), Fail> {
    let mut folder = failing(&rt, &[18, 25]);
    folder
        .add_file(&path(&rt, "\\a"), b"hi")
        .expect(&rt, "a file");
    play(&rt, &mut folder, &FAILING);
    Ok(())
}

/// What is made is there, and a listing has the order of units: a pair of them comes before what is above them.
#[test]
fn calls_go_through(rt: HostRuntime) -> Result<(), Fail> {
    let mut folder = failing(&rt, &[]);
    play(&rt, &mut folder, &GOING_THROUGH);
    Ok(())
}

/// The second opening fails, and what was closed has its nodes.
#[test]
fn folders_come_one_after_the_other(rt: HostRuntime) -> Result<(), Fail> {
    let mut given = Vec::new(rt.alloc());
    given
        .push(failing(&rt, &[]))
        .expect(&rt, "memory for a folder");
    let fails = Vec::from_slice(rt.alloc(), &[2]).expect(&rt, "memory for a number");
    let mut folders = MemFolders::new(rt.alloc(), given, Calls::of(fails)).expect(&rt, "folders");
    let mut folder = folders.open("one").expect(&rt, "the first folder");
    folder
        .add_folder(&path(&rt, "\\d"))
        .expect(&rt, "a folder in it");
    let second = folders.open("two").err();
    folders.close(folder);
    let third = folders.open("three").err();
    let failed = Some(FolderNo::Failed);
    assert_eq!(rt;
        (second, third, folders.closed().len()),
        (failed, failed, 1)
    );
    Ok(())
}
