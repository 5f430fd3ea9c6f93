//! An audit file, written.

ghost use Rattle.std.specs.Prelude.{◌≡◌, ◌+◌, ◌^◌, ◌<◌, ◌++◌, length, All, IfOk, IfSome, OnOk};
ghost use Rattle.std.specs.String.{string_bytes};
ghost use Rattle.rd_audit_file.specs.File.{audit_file};
ghost use Rattle.rd_audit_file.specs.Journals.{entries_of, journal_text, lines_of_journal, lines_text, JournalsFit};
ghost use Rattle.rd_audit_file.specs.Lines.{LineFits};

use crate::file::{COUNT_LEN, MAGIC};
use crate::line::{JournalLine, put_line};
use rd_base::{Books, Bytes, Item, put_bytes, put_counted_bytes};
use std::alloc::{AllocError, Global};

/// The journal of a device: its own line, and one for each entry.
fn put_journal(text: &mut String, device: u32, entries: &[Item]) -> Result<(), AllocError>
    ensures bytes { OnOk result (string_bytes text.new ≡ string_bytes text.old ++ lines_text (lines_of_journal (device, entries.now))) }
    ensures fit { OnOk result (All LineFits (lines_of_journal (device, entries.now))) }
{
    put_line(text, JournalLine::Device(device))?;
    for entry in entries {
        put_line(text, JournalLine::Entry(*entry))?;
    }
    Ok(())
}

/// The text of the journals of a session.
fn text_of(alloc: Global, books: &Books) -> Result<String, AllocError>
    ensures bytes { IfOk result (λ text. string_bytes text ≡ journal_text (entries_of books.now)) }
    ensures fit { OnOk result (JournalsFit (entries_of books.now)) }
{
    let mut text = String::new(alloc);
    for (device, journal) in books.iter() {
        put_journal(&mut text, *device, journal.items())?;
    }
    Ok(text)
}

/// How many bytes an audit file has, with so many of a script, a journal text and a recording.
fn file_len(script: usize, text: usize, recording: usize) -> Option<usize>
    ensures { IfSome result (λ len. len ≡ 16 + script + text + recording) }
{
    let fixed = MAGIC.len() + COUNT_LEN + COUNT_LEN;
    fixed
        .checked_add(script)?
        .checked_add(text)?
        .checked_add(recording)
}

/// An audit file, in a buffer of its size.
fn file_of(alloc: Global, script: &[u8], text: &[u8], recording: &[u8]) -> Result<Bytes, AllocError>
    requires { length script.now < 2 ^ 32 }
    ensures written { IfOk result (λ bytes. bytes ≡ audit_file script.now text.now recording.now) }
    ensures countable { OnOk result (length text.now < 2 ^ 32) }
{
    if text.len() > u32::MAX as usize {
        return Err(AllocError);
    }
    let Some(len) = file_len(script.len(), text.len(), recording.len()) else {
        return Err(AllocError);
    };
    let mut out = Vec::with_capacity(alloc, len)?;
    put_bytes(&mut out, MAGIC);
    put_counted_bytes(&mut out, script);
    put_counted_bytes(&mut out, text);
    put_bytes(&mut out, recording);
    Ok(Bytes::of(out))
}

/// An audit file of a session: its script, its journals and its recording. A journal text of 2^32 bytes or more, which no count of an audit
/// file can say, is returned as want of memory.
pub fn write_audit(
    alloc: Global,
    script: &[u8],
    books: &Books,
    recording: &[u8],
) -> Result<Bytes, AllocError>
    requires { length script.now < 2 ^ 32 }
    ensures written { IfOk result (λ bytes. bytes ≡ audit_file script.now (journal_text (entries_of books.now)) recording.now) }
    ensures countable { OnOk result (length (journal_text (entries_of books.now)) < 2 ^ 32) }
    ensures fit { OnOk result (JournalsFit (entries_of books.now)) }
{
    let text = text_of(alloc, books)?;
    file_of(alloc, script, text.as_bytes(), recording)
}
