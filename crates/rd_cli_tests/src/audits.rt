//! The commands `trace` and `audit`: what an audit file holds, what is found of one, and what the notes say of that.
use crate::outside::{Failing, Kind, Outside, Remains, strings};
use std::alloc::{AllocError, Global};
use std::process::Abort;
use std::sync::Wait;
use std::test::Fail;
use std::thread::Threads;

/// A file is opened, read and closed.
const SCRIPT: &[u8] =
    b"drive 1 DATA\nfile 1 \\a.txt 68656c6c6f\n1 open h 1 \\a.txt\n1 read h 0 5\n1 close h\n";

/// What is before the journal text: the magic, and the script behind its length.
const HEAD: &[u8] =
    b"RDRAUD01\x4f\0\0\0drive 1 DATA\nfile 1 \\a.txt 68656c6c6f\n1 open h 1 \\a.txt\n1 read h 0 5\n1 close h\n";

/// The journal text behind its length.
const TEXT: &[u8] =
    b"\x69\0\0\0device 1\ncame 1 0\nran 1 0 0 0 0\nsent 1 0\ncame 1 1\nran 1 1 0 0 0\nsent 1 1\ncame 1 2\nran 1 2 0 0 0\nsent 1 2\n";

/// The same where the read didn't run.
const UNRUN: &[u8] =
    b"\x5b\0\0\0device 1\ncame 1 0\nran 1 0 0 0 0\nsent 1 0\ncame 1 1\nsent 1 1\ncame 1 2\nran 1 2 0 0 0\nsent 1 2\n";

/// The same where the close wasn't handed out.
const UNSENT: &[u8] =
    b"\x60\0\0\0device 1\ncame 1 0\nran 1 0 0 0 0\nsent 1 0\ncame 1 1\nran 1 1 0 0 0\nsent 1 1\ncame 1 2\nran 1 2 0 0 0\n";

/// The same of another request.
const OTHER: &[u8] =
    b"\x69\0\0\0device 1\ncame 1 0\nran 1 0 0 0 0\nsent 1 0\ncame 1 1\nran 1 1 0 0 0\nsent 1 1\ncame 1 3\nran 1 3 0 0 0\nsent 1 3\n";

/// One whose second line is none.
const UNREAD: &[u8] = b"\x12\0\0\0device 1\ncome 1 0\n";

/// Where the recording has the first of the bytes that were read.
const READ_AT: usize = 585;

/// No byte of the recording.
const NOWHERE: usize = usize::MAX;

/// No call on the outside fails.
const NEVER: &[Failing] = &[];

/// What a command leaves of an input.
fn command(
    rt: &(impl Threads + Wait + Sync + AllocGlobal),
    word: &str,
    input: &[u8],
    fails: &[Failing],
) -> Result<Remains, AllocError> {
    let alloc = rt.alloc();
    let words = strings(alloc, &[word])?;
    let outside = Outside::new(alloc, input, &[], fails)?;
    Ok(outside.run(rt, alloc, words.as_slice()))
}

/// The file of a journal text and a recording, of which the byte at one place is another.
fn audit_file(
    alloc: Global,
    text: &[u8],
    recording: &[u8],
    changed: usize,
) -> Result<Vec<u8>, AllocError> {
    let mut file = Vec::from_slice(alloc, HEAD)?;
    file.extend_from_slice(text)?;
    for (place, byte) in recording.iter().enumerate() {
        file.push(if place == changed { b'i' } else { *byte })?;
    }
    Ok(file)
}

/// `trace` records what `both` does, and prints the script, the journals and the recording.
#[test]
fn prints_what_it_played(rt: HostRuntime) -> Result<(), Fail> {
    let both = command(&rt, "both", SCRIPT, NEVER)?;
    let left = command(&rt, "trace", SCRIPT, NEVER)?;
    let wanted = audit_file(rt.alloc(), TEXT, both.recording.bytes(), NOWHERE)?;
    assert_eq!(rt;
        (left.status, left.output.bytes(), left.recording.bytes()),
        (0, wanted.as_slice(), both.recording.bytes())
    );
    Ok(())
}

/// A file, what can fail, and what comes of it: the status, the last line, and a part of what the notes say.
#[derive(Clone, Copy)]
struct Row {
    text: &'static [u8],
    changed: usize,
    fails: &'static [Failing],
    status: u8,
    line: &'static [u8],
    notes: &'static str,
}

/// A file of which all belongs together.
const BELONGS: Row = Row {
    text: TEXT,
    changed: NOWHERE,
    fails: NEVER,
    status: 0,
    line: b"yes\n",
    notes: "",
};

const ROWS: [Row; 9] = [
    BELONGS,
    Row {
        changed: READ_AT,
        status: 9,
        line: b"no entry 14 answer\n",
        notes: "rdr: the completion that ends in entry 14 of the recording isn't what its device replied",
        ..BELONGS
    },
    Row {
        text: UNRUN,
        status: 9,
        line: b"no journal 1 item 5 clause 3\n",
        notes: "rdr: device 1, entry 5 of its journal, line 6 of the journal text: sent 1 1\n",
        ..BELONGS
    },
    Row {
        text: UNSENT,
        status: 9,
        line: b"no entry 16 answer\n",
        notes: "rdr: the completion that ends in entry 16",
        ..BELONGS
    },
    Row {
        text: OTHER,
        status: 9,
        line: b"no journal 1 item 7 mark\n",
        notes: "rdr: device 1, entry 7 of its journal, line 8 of the journal text: came 1 3\n",
        ..BELONGS
    },
    Row {
        text: UNREAD,
        status: 4,
        line: b"fault at 104 Value\n",
        notes: "rdr: that is in line 2 of the journal text\n",
        ..BELONGS
    },
    // A read that fails, and a write.
    Row {
        fails: &[(Kind::Input, 1)],
        status: 2,
        line: b"",
        ..BELONGS
    },
    Row {
        fails: &[(Kind::Output, 1)],
        status: 3,
        line: b"",
        ..BELONGS
    },
    // The line can't be written, and the status stays.
    Row {
        text: UNRUN,
        fails: &[(Kind::Output, 1)],
        status: 9,
        line: b"",
        notes: "entry 5",
        ..BELONGS
    },
];

#[test]
fn finds_what_does_not_belong(rt: HostRuntime) -> Result<(), Fail> {
    let both = command(&rt, "both", SCRIPT, NEVER)?;
    for row in &ROWS {
        let file = audit_file(rt.alloc(), row.text, both.recording.bytes(), row.changed)?;
        let left = command(&rt, "audit", file.as_slice(), row.fails)?;
        assert_eq!(rt;
            (left.status, left.output.bytes(), left.recording.bytes()),
            (row.status, row.line, b"".as_slice())
        );
        let notes = std::str::from_utf8(left.notes.bytes())?;
        assert!(rt;
            notes.contains(row.notes) && notes.is_empty() == row.notes.is_empty(),
            "{notes}"
        );
    }
    Ok(())
}

/// A line of the script is named, with what is wrong with it.
#[test]
fn names_a_line_of_its_script(rt: HostRuntime) -> Result<(), Fail> {
    let left = command(&rt, "audit", b"RDRAUD01\x05\0\0\0drive\0\0\0\0", NEVER)?;
    assert_eq!(rt;
        (left.status, left.output.bytes()),
        (1, b"line 1 words\n".as_slice())
    );
    let notes = std::str::from_utf8(left.notes.bytes())?;
    assert!(rt; notes.contains("rdr: line 1: drive\n"), "{notes}");
    Ok(())
}
