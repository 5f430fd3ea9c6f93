//! Each public call once with ample memory, and what no clause says of the forms over std.

ghost use Rattle.std.specs.Prelude.{◌≤◌, IfOk};

use rd_base::{
    Bad, Books, Cursor, Failed, FileSink, Item, Items, Journal, Key, MemSink, MemSource, PlainSink,
    PlainSource, Sink, Source, StdSink, StdSource, Why, write_all,
};
use std::alloc::{AllocError, Global};
use std::fs;
use std::io::{self, Error, ErrorKind, Read, Write};
use std::process::Abort;
use std::test::Fail;

fn list<T: Copy>(alloc: Global, elements: &[T]) -> Result<Items<T>, AllocError> {
    Ok(Items::of(elements.to_vec(alloc)?))
}

/// Books in which device 7 alone has a journal, of two entries.
fn books_of(alloc: Global, [first, second]: [Item; 2]) -> Result<Books, AllocError> {
    let mut journal = Journal::new(alloc);
    journal.reserve(2)?;
    journal.add(first);
    journal.add(second);
    let mut books = Books::new(alloc);
    books.put(7, journal)?;
    Ok(books)
}

/// A list of some elements and a copy of it have these elements.
fn copies<T: Copy + PartialEq>(
    rt: &impl Abort,
    alloc: Global,
    elements: &[T],
) -> Result<(), AllocError> {
    let whole = list(alloc, elements)?;
    let copied = whole.copy()?.into_vec();
    assert!(rt; whole.as_slice() == elements && copied.as_slice() == elements);
    Ok(())
}

/// A row is what a read into four zero bytes returns, and what they are then.
fn reads<S: Source>(rt: &impl Abort, source: &mut S, rows: &[(Result<usize, Failed>, [u8; 4])]) {
    for row in rows {
        let mut piece = [0; 4];
        let count = source.read(&mut piece);
        assert_eq!(rt; (count, piece), *row);
    }
}

/// A row is a piece, and what its write returns.
fn writes<S: Sink>(rt: &impl Abort, sink: &mut S, rows: &[(&[u8], Result<usize, Failed>)]) {
    for (piece, count) in rows {
        assert_eq!(rt; sink.write(piece), *count);
    }
}

/// A reader and a writer of one byte a call. Calls are counted from 1: one of them fails, with an error of this kind, and one takes or
/// gives nothing.
#[derive(Drop)]
struct Faltering {
    calls: u64,
    failing: u64,
    kind: ErrorKind,
    empty: u64,
}

impl Faltering {
    /// How many bytes this call takes or gives, where there is one.
    fn next(&mut self, most: usize) -> io::Result<usize>
        ensures { IfOk result (λ count. count ≤ most) }
    {
        self.calls = self.calls.saturating_add(1);
        if self.calls == self.failing {
            return Err(Error::from(self.kind));
        }
        if self.calls == self.empty {
            return Ok(0);
        }
        Ok(most.min(1))
    }
}

impl Read for Faltering {
    fn read(&mut self, into: &mut [u8]) -> io::Result<usize> {
        self.next(into.len())
    }
}

impl Write for Faltering {
    fn write(&mut self, piece: &[u8]) -> io::Result<usize> {
        self.next(piece.len())
    }

    fn flush(&mut self) -> io::Result<()> {
        Ok(())
    }
}

/// One whose call with the first number fails, and whose call with the second takes or gives nothing; 0 is the number of none.
fn one_byte_a_call(failing: u64, kind: ErrorKind, empty: u64) -> Faltering {
    Faltering {
        calls: 0,
        failing,
        kind,
        empty,
    }
}

/// The kind of an error, where there is one.
fn kind(error: Option<&Error>) -> Option<ErrorKind> {
    error.map(Error::kind)
}

#[test]
fn reads_fields_from_left_to_right(rt: HostRuntime) {
    let message = [1, 2, 3, 4, 5, 6, 7, 8, 9, 10, 11, 12, 13, 14, 15, 16, 17];
    let mut cursor = Cursor::new(&message);
    let short = Bad {
        at: 15,
        why: Why::Short,
    };
    assert_eq!(rt;
        (
            cursor.u8(),
            cursor.u16(),
            cursor.u32(),
            cursor.u64(),
            cursor.u32()
        ),
        (
            Ok(1),
            Ok(0x0302),
            Ok(0x0706_0504),
            Ok(0x0f0e_0d0c_0b0a_0908),
            Err(short)
        )
    );
    assert!(rt; matches!(cursor.take(2), Ok([16, 17])) && cursor.rest().is_empty());
}

#[test]
fn copies_lists(rt: HostRuntime) -> Result<(), Fail> {
    copies(&rt, rt.alloc(), b"hello")?;
    copies(&rt, rt.alloc(), &[0x5c_u16, 0x61])?;
    Ok(())
}

#[test]
fn keeps_journals_in_books(rt: HostRuntime) -> Result<(), Fail> {
    let key = Key {
        channel: 1,
        index: 0,
    };
    let entries = [Item::Came(key), Item::Sent(key)];
    let books = books_of(rt.alloc(), entries)?;
    let journal = books.journal(7).map(Journal::items);
    let spare = books.journal(7).map(Journal::spare);
    assert_eq!(rt; (journal, spare), (Some(entries.as_slice()), Some(0)));
    assert!(rt; books.journal(8).is_none() && books.iter().count() == 1);
    Ok(())
}

#[test]
fn memory_sources_fail_as_told(rt: HostRuntime) -> Result<(), Fail> {
    let hello = list(rt.alloc(), b"hello")?;
    let mut source = MemSource::new(hello, list(rt.alloc(), &[2])?);
    let rows = [
        (Ok(4), *b"hell"),
        (Err(Failed), [0; 4]),
        (Ok(1), *b"o\0\0\0"),
        (Ok(0), [0; 4]),
    ];
    reads(&rt, &mut source, &rows);
    Ok(())
}

#[test]
fn memory_sinks_fail_as_told(rt: HostRuntime) -> Result<(), Fail> {
    let mut sink = MemSink::new(rt.alloc(), list(rt.alloc(), &[1])?);
    writes(&rt, &mut sink, &[(b"lost", Err(Failed)), (b"kept", Ok(4))]);
    assert_eq!(rt; sink.bytes(), b"kept".as_slice());
    Ok(())
}

#[test]
fn plain_forms_never_fail(rt: HostRuntime) -> Result<(), Fail> {
    let mut source = PlainSource::new(list(rt.alloc(), b"ab")?);
    reads(&rt, &mut source, &[(Ok(2), *b"ab\0\0")]);
    writes(&rt, &mut PlainSink::new(), &[(b"abc", Ok(3))]);
    Ok(())
}

#[test]
fn std_forms_pass_bytes_on(rt: HostRuntime) {
    let mut source = StdSource::new(b"hi".as_slice());
    reads(&rt, &mut source, &[(Ok(2), *b"hi\0\0"), (Ok(0), [0; 4])]);
    let mut written = Vec::new(rt.alloc());
    writes(&rt, &mut StdSink::new(&mut written), &[(b"hi", Ok(2))]);
    assert_eq!(rt; written.as_slice(), b"hi".as_slice());
}

/// A call that the system interrupted has failed like any other: nothing is read or written again.
#[test]
fn std_forms_tell_of_failures(rt: HostRuntime) {
    for (failing, kind_of_failure, rows) in [
        (1, ErrorKind::BrokenPipe, [Err(Failed), Ok(1), Ok(0)]),
        (2, ErrorKind::Interrupted, [Ok(1), Err(Failed), Ok(0)]),
    ] {
        let mut source = StdSource::new(one_byte_a_call(failing, kind_of_failure, 3));
        let rows = rows.map(|row| (row, [0; 4]));
        reads(&rt, &mut source, &rows);
        assert_eq!(rt; kind(source.last_error()), Some(kind_of_failure));
    }
    for (failing, empty, rows, last) in [
        (1, 0, [Err(Failed), Ok(1)], ErrorKind::BrokenPipe),
        (2, 0, [Ok(1), Err(Failed)], ErrorKind::Interrupted),
        (0, 2, [Ok(1), Ok(0)], ErrorKind::WriteZero),
    ] {
        let mut sink = StdSink::new(one_byte_a_call(failing, last, empty));
        let rows = rows.map(|row| (b"abc".as_slice(), row));
        writes(&rt, &mut sink, &rows);
        assert_eq!(rt; kind(sink.last_error()), Some(last));
    }
}

/// The second call of the sink would fail.
#[test]
fn writes_all_in_one_call(rt: HostRuntime) -> Result<(), Fail> {
    let mut sink = MemSink::new(rt.alloc(), list(rt.alloc(), &[2])?);
    let bytes = [7; 100];
    assert_eq!(rt; write_all(&mut sink, &bytes), Ok(()));
    assert_eq!(rt; sink.bytes(), bytes.as_slice());
    Ok(())
}

/// A file is made at the first write, which empties one that is there already, and no other write does.
#[test]
fn makes_a_file_at_the_first_write(rt: HostRuntime) -> Result<(), Fail> {
    let mut sink = FileSink::new(&rt, "made.rec");
    assert!(rt; fs::open(&rt, "made.rec").is_err());
    writes(&rt, &mut sink, &[(b"RDR", Ok(3)), (b"REC01", Ok(5))]);
    assert_eq!(rt;
        fs::read(&rt, "made.rec")?.as_slice(),
        b"RDRREC01".as_slice()
    );
    let mut again = FileSink::new(&rt, "made.rec");
    writes(&rt, &mut again, &[(b"RD", Ok(2)), (b"R", Ok(1))]);
    assert_eq!(rt; fs::read(&rt, "made.rec")?.as_slice(), b"RDR".as_slice());
    fs::remove_file(&rt, "made.rec")?;
    Ok(())
}

#[test]
fn makes_no_folder(rt: HostRuntime) {
    let mut nowhere = FileSink::new(&rt, "no/folder/made.rec");
    writes(&rt, &mut nowhere, &[(b"RDR", Err(Failed))]);
    assert_eq!(rt; kind(nowhere.last_error()), Some(ErrorKind::NotFound));
}
