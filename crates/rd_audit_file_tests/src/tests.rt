//! Worked files and texts, byte by byte, and each public call once with ample memory.

use rd_audit_file::{
    AuditFile, FieldFault, JournalLine, JournalLines, check_journals, put_line, take_line,
    write_audit,
};
use rd_base::{Books, Cause, Item, Journal, Key, Why};
use std::alloc::{AllocError, Global};

/// A session of one device, whose request ran and was sent.
const FILE: &[u8] =
    b"RDRAUD01\x0a\0\0\0drive 1 C\n\x36\0\0\0device 1\ncame 1 0\nran 1 0 12 1 0\nsent 1 0\ncut removed\nRDRREC01";

/// How long a prefix of the file is, and what is wrong with it.
type Cut = (usize, Option<usize>);

/// Each field, cut at its first byte and at its last.
const CUTS: &[Cut] = &[
    (0, Some(0)),
    (7, Some(0)),
    (8, Some(8)),
    (11, Some(8)),
    (12, Some(12)),
    (21, Some(12)),
    (22, Some(22)),
    (25, Some(22)),
    (26, Some(26)),
    (79, Some(26)),
    (80, None),
];

/// A journal text, and what is wrong with it where the devices are 1 and 20.
type Row = (&'static [u8], Option<(usize, Why)>);

const ROWS: &[Row] = &[
    (b"", Some((0, Why::Short))),
    (b"device 1\n", Some((9, Why::Short))),
    (b"device 1\ndevice 20\n", None),
    (b"device 1\nsent 1 0\ndevice 20\ncut dropped\n", None),
    (b"device 20\ndevice 1\n", Some((0, Why::Value))),
    (b"device 1\ndevice 1\n", Some((9, Why::Value))),
    (b"device 1\ndevice 20\ndevice 21\n", Some((19, Why::Value))),
    (b"cut removed\ndevice 1\ndevice 20\n", Some((0, Why::Value))),
    (b"device 1\ncame 1 00\n", Some((9, Why::Value))),
    (
        b"device 1\ncame 1 0\nran 1 0 0 0 2\n",
        Some((18, Why::Value)),
    ),
    (b"device 1\ndevice 20", Some((9, Why::Value))),
    (b"device 1\n\n", Some((9, Why::Value))),
];

/// The books of that session.
fn books_of(alloc: Global) -> Result<Books, AllocError> {
    let key = Key {
        channel: 1,
        index: 0,
    };
    let mut journal = Journal::new(alloc);
    journal.reserve(4)?;
    journal.add(Item::Came(key));
    journal.add(Item::Ran {
        key,
        moment: 12,
        starved: true,
        parked: false,
    });
    journal.add(Item::Sent(key));
    journal.add(Item::Cut(Cause::Removed));
    let mut books = Books::new(alloc);
    books.put(1, journal)?;
    Ok(books)
}

#[test]
fn writes_a_file(rt: HostRuntime) {
    let books = books_of(rt.alloc()).expect(&rt, "memory for the books");
    let file = write_audit(rt.alloc(), b"drive 1 C\n", &books, b"RDRREC01");
    let file = file.expect(&rt, "memory for the file");
    assert_eq!(rt; file.as_slice(), FILE);
}

/// Goes over a file's fields, up to its recording.
fn fault_of(bytes: &[u8]) -> Result<(), FieldFault> {
    let mut file = AuditFile::begin(bytes)?;
    file.counted()?;
    file.counted()?;
    Ok(())
}

#[test]
fn takes_a_file_apart(rt: HostRuntime) {
    for (len, at) in CUTS {
        let file = FILE.get(..*len).expect(&rt, "a prefix");
        let why = Why::Short;
        let fault = at.map(|at| FieldFault { at, why });
        assert_eq!(rt; fault_of(file).err(), fault);
    }
    let fault = Some(FieldFault {
        at: 0,
        why: Why::Value,
    });
    assert_eq!(rt; fault_of(b"RDRREC01").err(), fault);
}

#[test]
fn checks_journals(rt: HostRuntime) {
    for (text, fault) in ROWS {
        let fault = fault.map(|(at, why)| FieldFault { at, why });
        assert_eq!(rt; check_journals(text, &[1, 20]).err(), fault);
    }
}

/// The lines of a text, written once more.
fn written_again(alloc: Global, text: &[u8]) -> Result<String, AllocError> {
    let mut lines = JournalLines::new(text);
    let mut again = String::new(alloc);
    for _ in text {
        if let Ok(Some(line)) = lines.next() {
            put_line(&mut again, line)?;
        }
    }
    Ok(again)
}

#[test]
fn writes_lines_again(rt: HostRuntime) {
    let text =
        b"device 4294967295\ncame 1 18446744073709551615\nran 1 0 7 0 1\ncancelled 2 0\nsent 1 0\ncut removed\ncut dropped\n";
    let again = written_again(rt.alloc(), text).expect(&rt, "memory for the text");
    assert_eq!(rt; again.as_bytes(), text.as_slice());
}

#[test]
fn takes_a_line(rt: HostRuntime) {
    let key = Key {
        channel: 3,
        index: 4,
    };
    let line = JournalLine::Entry(Item::Came(key));
    assert_eq!(rt; take_line(b"came 3 4\nx"), Some((line, 9)));
}
