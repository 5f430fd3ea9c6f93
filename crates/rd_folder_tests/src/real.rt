//! Real folders, made where the tests run. Each test has one of its own.

use crate::acts::{Act, Row, play};
use rd_folder::{FolderNo, Folders, StdFolders};
use std::fs;
use std::io::{Error, ErrorKind};
use std::os::unix::fs::{FileExt, symlink};
use std::process::Abort;
use std::rt::Files;
use std::test::Fail;

/// 2020-01-01 UTC, in 100 ns since 1601-01-01 UTC.
const YEAR_2020: u64 = 132_223_104_000_000_000;

static MADE: [Row<'static>; 8] = [
    Row::Done(Act::Make("\\a", false)),
    Row::Done(Act::Make("\\sub", true)),
    Row::Done(Act::Write("\\a", 3, b"tail")),
    Row::Done(Act::Read("\\a", 2, 99, b"\0tail")),
    Row::Done(Act::Mark("\\a", YEAR_2020)),
    Row::Done(Act::Rename("\\a", "\\sub\\b")),
    Row::Refused(Act::Remove("\\sub"), FolderNo::Missing),
    Row::Done(Act::Resize("\\sub\\b", 4)),
];

static TAKEN_OUT: [Row<'static>; 5] = [
    Row::Done(Act::Replace("\\sub\\b")),
    Row::Done(Act::Look("\\sub\\b", Some((false, 0)))),
    Row::Done(Act::Remove("\\sub\\b")),
    Row::Done(Act::Remove("\\sub")),
    Row::Done(Act::Next(None, None)),
];

static KEPT: [Row<'static>; 12] = [
    Row::Done(Act::Read("\\a", 0, 9, b"first")),
    Row::Done(Act::Read("\\b", 2, 2, b"co")),
    Row::Done(Act::Write("\\a", 5, b"!")),
    Row::Done(Act::Read("\\a", 0, 9, b"first!")),
    Row::Done(Act::Rename("\\b", "\\a")),
    Row::Done(Act::Read("\\a", 0, 9, b"second")),
    Row::Refused(Act::Read("\\b", 0, 9, b"second"), FolderNo::Failed),
    Row::Done(Act::Remove("\\a")),
    Row::Refused(Act::Write("\\a", 0, b"x"), FolderNo::Failed),
    Row::Done(Act::Make("\\a", false)),
    Row::Done(Act::Read("\\a", 0, 9, b"")),
    Row::Done(Act::Read("\\a", u64::MAX, 9, b"")),
];

static LINKED: [Row<'static>; 12] = [
    Row::Done(Act::Next(None, Some(("\u{10000}", false)))),
    Row::Done(Act::Next(Some("\u{10000}"), Some(("\u{ff5e}", false)))),
    Row::Done(Act::Next(Some("\u{ff5e}"), None)),
    Row::Done(Act::Look("\\away", None)),
    Row::Done(Act::Look("\\away\\secret", None)),
    Row::Done(Act::Look("\\file", None)),
    Row::Refused(Act::Read("\\file", 0, 9, b""), FolderNo::Failed),
    Row::Refused(Act::Write("\\file", 0, b"x"), FolderNo::Failed),
    Row::Refused(Act::Make("\\file", false), FolderNo::Failed),
    Row::Refused(
        Act::Rename("\\\u{10000}", "\\away\\taken"),
        FolderNo::Failed,
    ),
    Row::Refused(Act::Rename("\\\u{10000}", "\\file"), FolderNo::Failed),
    Row::Refused(Act::Remove("\\file"), FolderNo::Failed),
];

/// Does some acts in a real folder that is there.
fn play_at<R: Abort + Files + AllocGlobal + Clone + Drop + Sync>(
    rt: &R,
    place: &str,
    rows: &[Row<'_>],
)
where
    R::File: FileExt + Send,
{
    let mut folders = StdFolders::new(rt);
    let mut folder = folders.open(place).expect(rt, "the folder");
    play(rt, &mut folder, rows);
    folders.close(folder);
}

/// What is made in a folder is there for it and for the system.
#[test]
fn real_files_are_made_and_moved(rt: HostRuntime) -> Result<(), Fail> {
    fs::create_dir(&rt, "moved").expect(&rt, "a folder");
    play_at(&rt, "moved", &MADE);
    let bytes = fs::read(&rt, "moved/sub/b").expect(&rt, "a file");
    assert!(rt; bytes.as_slice() == b"\0\0\0t".as_slice());
    play_at(&rt, "moved", &TAKEN_OUT);
    Ok(())
}

/// A file that is kept open is let go of when something else comes to stand at its path.
#[test]
fn kept_files_are_let_go_of(rt: HostRuntime) -> Result<(), Fail> {
    fs::create_dir(&rt, "kept").expect(&rt, "a folder");
    fs::write(&rt, "kept/a", b"first").expect(&rt, "a file");
    fs::write(&rt, "kept/b", b"second").expect(&rt, "another file");
    play_at(&rt, "kept", &KEPT);
    Ok(())
}

/// Links aren't there, whatever they lead to, and nothing is made in their place. A name that isn't UTF-8 isn't there either.
#[test]
fn links_are_not_there(rt: HostRuntime) -> Result<(), Fail> {
    fs::create_dir(&rt, "linked").expect(&rt, "a folder");
    fs::create_dir(&rt, "outside").expect(&rt, "another folder");
    fs::write(&rt, "outside/secret", b"secret").expect(&rt, "a file outside");
    fs::write(&rt, "linked/\u{ff5e}", b"mine").expect(&rt, "a file");
    fs::write(&rt, "linked/\u{10000}", b"mine").expect(&rt, "another file");
    symlink(&rt, "../outside", "linked/away").expect(&rt, "a link to a folder");
    symlink(&rt, "../outside/secret", "linked/file").expect(&rt, "a link to a file");
    let made = os::mkdir(b"linked/\xff");
    play_at(&rt, "linked", &LINKED);
    let bytes = fs::read(&rt, "outside/secret").expect(&rt, "the file outside");
    assert!(rt; made == 0 && bytes.as_slice() == b"secret".as_slice());
    Ok(())
}

/// A folder that isn't there fails at its opening, with the system's reason; one that is named by a link is opened.
#[test]
fn openings_have_their_reasons(rt: HostRuntime) -> Result<(), Fail> {
    fs::create_dir(&rt, "target").expect(&rt, "a folder");
    symlink(&rt, "target", "name").expect(&rt, "a link");
    let mut folders = StdFolders::new(&rt);
    let nowhere = folders.open("nowhere").err();
    let reason = folders.last_error().map(Error::kind);
    let named = folders.open("name").is_ok();
    assert_eq!(rt;
        (nowhere, reason, named),
        (Some(FolderNo::Failed), Some(ErrorKind::NotFound), true)
    );
    Ok(())
}
