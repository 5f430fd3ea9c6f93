//! The program over real files: its exit status, what it prints, and the recording that it leaves in the current folder.
use crate::outside::{sink, source, strings};
use crate::running::program_on;
use rd_base::{Calls, FileSink, MemSink, Sink, StdSink};
use rd_cli::words_of;
use rd_folder::MemFolders;
use rd_link::{FixedClock, MemLinker, NoGate};
use std::alloc::{AllocError, Global};
use std::env::FillError;
use std::fs;
use std::io::ErrorKind;
use std::process::{Abort, ExitCode};
use std::rt::{Env, Files};
use std::sync::Wait;
use std::test::Fail;
use std::thread::Threads;

/// What is reported of the long script.
const LONG_REPORT: &[u8] =
    b"1.1 done 00000000 0100000000\n1.2 done 00000000 7011010000\ndevice 1 ran 2\n";

/// What is recorded first.
const BEGUN: &[u8] = b"RDRREC01\x02";

/// The calls that fail: none.
fn never(alloc: Global) -> Calls {
    Calls::of(Vec::new(alloc))
}

/// Runs the program over an input, with its recording in a file. The output is any sink.
fn ended<K: Sink>(
    rt: &(impl Threads + Wait + Sync + Files + AllocGlobal),
    path: &str,
    word: &str,
    input: &[u8],
    output: &mut K,
) -> Result<ExitCode, AllocError> {
    let alloc = rt.alloc();
    let words = strings(alloc, &[word])?;
    let mut input = source(alloc, input)?;
    let mut linker = MemLinker::new(alloc, Vec::new(alloc), never(alloc))?;
    let mut folders = MemFolders::new(alloc, Vec::new(alloc), never(alloc))?;
    let mut recording = FileSink::new(rt, path);
    let mut notes = MemSink::new(alloc, never(alloc));
    Ok(program_on(
        rt,
        alloc,
        Ok(words.as_slice()),
        &mut input,
        output,
        &mut recording,
        &mut notes,
        &mut linker,
        &mut folders,
        &FixedClock(0),
        &NoGate {},
    ))
}

/// The exit status of the program over an input, and what it prints.
fn printed(
    rt: &(impl Threads + Wait + Sync + Files + AllocGlobal),
    path: &str,
    word: &str,
    input: &[u8],
) -> Result<(ExitCode, MemSink), AllocError> {
    let mut output = sink(rt.alloc());
    let code = ended(rt, path, word, input, &mut output)?;
    Ok((code, output))
}

/// A script in which a file of 70,000 bytes is made and written.
fn long_script(alloc: Global) -> Result<String, AllocError> {
    let mut script = String::from_str(
        alloc,
        "drive 1 DATA\n1 create h 1 \\a.txt 2 0xc0000000 7 0 0\n1 write h 0 ",
    )?;
    for _ in 0..70_000 {
        script.push_str("61")?;
    }
    script.push_str("\n")?;
    Ok(script)
}

#[test]
fn ends_with_the_status_of_its_command(rt: HostRuntime) -> Result<(), Fail> {
    for (word, input, status, wanted) in [
        ("decode", BEGUN, 0, b"".as_slice()),
        ("decode", b"RDRREC02", 4, b"fault at 0 Value\n"),
        ("decode", b"RDRREC01\x02\0", 4, b"fault at 10 Short\n"),
        ("print", BEGUN, 1, b"bad words\n"),
    ] {
        let (code, output) = printed(&rt, "unmade.rec", word, input)?;
        assert!(rt; code == ExitCode::from(status), "{word}");
        assert_eq!(rt; output.bytes(), wanted);
        // Nothing is recorded.
        let recording = fs::metadata(&rt, "unmade.rec").map_err(|error| error.kind());
        assert!(rt; matches!(recording, Err(ErrorKind::NotFound)));
    }
    Ok(())
}

/// A long recording takes more than one write, and a short one after it leaves nothing of it.
#[test]
fn leaves_a_recording_of_what_ran(rt: HostRuntime) -> Result<(), Fail> {
    let script = long_script(rt.alloc())?;
    let (code, output) = printed(&rt, "long.rec", "both", script.as_bytes())?;
    assert!(rt; code == ExitCode::from(0));
    assert_eq!(rt; output.bytes(), LONG_REPORT);
    let recording = fs::read(&rt, "long.rec")?;
    assert!(rt; recording.len() > 70_000 && recording.as_slice().starts_with(BEGUN));
    // A script that is refused leaves it as it was: what is recorded of a drive that nobody opens.
    for (script, status) in [
        (b"drive 1 DATA\n".as_slice(), 0),
        (b"drive 1 DATABASE\n", 1),
    ] {
        let (code, _) = printed(&rt, "long.rec", "both", script)?;
        assert!(rt; code == ExitCode::from(status));
        let recording = fs::read(&rt, "long.rec")?;
        assert!(rt; recording.len() == 366 && recording.as_slice().starts_with(BEGUN));
    }
    fs::remove_file(&rt, "long.rec")?;
    Ok(())
}

/// A report for which the disk has no room.
#[test]
fn ends_with_3_on_a_full_disk(rt: HostRuntime) -> Result<(), Fail> {
    let mut output = StdSink::new(fs::create(&rt, "/dev/full")?);
    let code = ended(&rt, "full.rec", "both", b"drive 1 DATA\n", &mut output)?;
    assert!(rt; code == ExitCode::from(3));
    let kind = output.last_error().map(std::io::Error::kind);
    assert_eq!(rt; kind, Some(ErrorKind::StorageFull));
    fs::remove_file(&rt, "full.rec")?;
    Ok(())
}

/// Want of memory for the words.
#[test]
fn ends_with_6_without_memory_for_its_words(rt: HostRuntime) -> Result<(), Fail> {
    let alloc = rt.alloc();
    let mut input = source(alloc, b"")?;
    let mut output = sink(alloc);
    let mut recording = sink(alloc);
    let mut notes = sink(alloc);
    let mut linker = MemLinker::new(alloc, Vec::new(alloc), never(alloc))?;
    let mut folders = MemFolders::new(alloc, Vec::new(alloc), never(alloc))?;
    let code = program_on(
        &rt,
        alloc,
        Err(AllocError),
        &mut input,
        &mut output,
        &mut recording,
        &mut notes,
        &mut linker,
        &mut folders,
        &FixedClock(0),
        &NoGate {},
    );
    assert!(rt; code == ExitCode::from(6));
    assert_eq!(rt; notes.bytes(), b"rdr: out of memory\n".as_slice());
    Ok(())
}

/// A system with these words after the program's name.
#[derive(Drop)]
struct Words {
    words: &'static [&'static [u8]],
    alloc: Global,
}

impl Alloc for Words {
    type A = Global;

    fn alloc(&self) -> Global {
        self.alloc
    }
}

impl Env for Words {
    fn arg(&self, index: usize, into: &mut [u8]) -> Result<usize, FillError> {
        let word = match index.checked_sub(1) {
            Some(index) => self.words.get(index).copied(),
            None => Some(b"rdr".as_slice()),
        };
        let Some(word) = word else {
            return Err(FillError::NotPresent);
        };
        if word.len() > into.len() {
            return Err(FillError::TooLong);
        }
        into[..word.len()].copy_from_slice(word);
        Ok(word.len())
    }

    fn var(&self, _name: &str, _into: &mut [u8]) -> Result<usize, FillError> {
        Err(FillError::NotPresent)
    }

    fn var_at(&self, _index: usize, _into: &mut [u8]) -> Result<usize, FillError> {
        Err(FillError::NotPresent)
    }
}

/// Words as the system has them, and as the program takes them: bytes that are no text, and a word longer than any command's, are no words.
const LINES: [(&[&[u8]], &[&str]); 5] = [
    (&[], &[]),
    (&[b"decode"], &["decode"]),
    (&[b"both", b"", b"decode"], &["both", "", "decode"]),
    (&[b"both", b"\xff"], &[]),
    (&[b"both", &[b'a'; 4097]], &[]),
];

#[test]
fn takes_every_word(rt: HostRuntime) -> Result<(), Fail> {
    for (words, wanted) in LINES {
        let alloc = rt.alloc();
        let found = words_of(&Words { words, alloc })?;
        let found: Vec<&str> = found.iter().map(String::as_str).collect(alloc)?;
        assert_eq!(rt; found.as_slice(), wanted);
    }
    Ok(())
}
