//! A line of a journal text.

ghost use Rattle.std.specs.Prelude.{◌≡◌, ◌++◌, OnOk};
ghost use Rattle.std.specs.String.{string_bytes};
ghost use Rattle.rd_audit_file.specs.Lines.{cause_text, entry_text, line_text, mark_text, EntryNumbersFit, LineFits, TakesLine};
ghost use Rattle.rd_audit_file.specs.Taken.{as_taken, cut_line, fields_at, line_at, run_line};

use crate::fields::{after, take_key, take_marks, take_u32, take_u64};
use crate::form::{Form, take_form};
use rd_base::{Cause, Item};
use std::alloc::AllocError;

/// What a line says.
#[derive(Clone, Copy, Debug, PartialEq, Eq)]
pub enum JournalLine {
    /// The journal of the device with this id begins.
    Device(u32),
    /// An entry of the journal that has begun.
    Entry(Item),
}

/// What a run says after its word.
fn take_run(text: &[u8]) -> Option<(JournalLine, &[u8])>
    ensures { as_taken result ≡ run_line text.now }
{
    let (key, rest) = take_key(text, b' ')?;
    let (moment, rest) = take_u64(rest, b' ')?;
    let ((starved, parked), rest) = take_marks(rest)?;
    let entry = Item::Ran {
        key,
        moment,
        starved,
        parked,
    };
    Some((JournalLine::Entry(entry), rest))
}

/// What a cut says after its word.
fn take_cut(text: &[u8]) -> Option<(JournalLine, &[u8])>
    ensures { as_taken result ≡ cut_line text.now }
{
    if let Some(rest) = after(text, b"removed\n") {
        return Some((JournalLine::Entry(Item::Cut(Cause::Removed)), rest));
    }
    let rest = after(text, b"dropped\n")?;
    Some((JournalLine::Entry(Item::Cut(Cause::Dropped)), rest))
}

/// What a line of a form says after its word, and what comes after the line.
fn take_fields(form: Form, text: &[u8]) -> Option<(JournalLine, &[u8])>
    ensures { as_taken result ≡ fields_at form text.now }
{
    match form {
        Form::Device => {
            let (id, rest) = take_u32(text, b'\n')?;
            Some((JournalLine::Device(id), rest))
        }
        Form::Came => {
            let (key, rest) = take_key(text, b'\n')?;
            Some((JournalLine::Entry(Item::Came(key)), rest))
        }
        Form::Ran => take_run(text),
        Form::Cancelled => {
            let (key, rest) = take_key(text, b'\n')?;
            Some((JournalLine::Entry(Item::Cancelled(key)), rest))
        }
        Form::Sent => {
            let (key, rest) = take_key(text, b'\n')?;
            Some((JournalLine::Entry(Item::Sent(key)), rest))
        }
        Form::Cut => take_cut(text),
    }
}

/// The line with which a text begins, and what comes after it.
fn take_line_of(text: &[u8]) -> Option<(JournalLine, &[u8])>
    ensures { as_taken result ≡ line_at text.now }
{
    let (form, rest) = take_form(text)?;
    take_fields(form, rest)
}

/// The line with which a text begins, and how many bytes it has with its line feed; none exactly where the text begins with no line in
/// form.
pub fn take_line(text: &[u8]) -> Option<(JournalLine, usize)>
    ensures { TakesLine text.now result }
{
    let (line, rest) = take_line_of(text)?;
    Some((line, text.len() - rest.len()))
}

fn mark_text(mark: bool) -> &'static str
    ensures { result.now ≡ mark_text mark }
{
    if mark { "1" } else { "0" }
}

fn cause_text(cause: Cause) -> &'static str
    ensures { result.now ≡ cause_text cause }
{
    match cause {
        Cause::Removed => "removed",
        Cause::Dropped => "dropped",
    }
}

fn put_entry(text: &mut String, entry: Item) -> Result<(), AllocError>
    ensures bytes { OnOk result (string_bytes text.new ≡ string_bytes text.old ++ line_text (JournalLine.Entry entry)) }
    ensures fits { EntryNumbersFit entry }
{
    match entry {
        Item::Came(key) => writeln!(text, "came {} {}", key.channel, key.index),
        Item::Ran {
            key,
            moment,
            starved,
            parked,
        } => {
            let (starved, parked) = (mark_text(starved), mark_text(parked));
            writeln!(
                text,
                "ran {} {} {moment} {starved} {parked}",
                key.channel, key.index
            )
        }
        Item::Cancelled(key) => writeln!(text, "cancelled {} {}", key.channel, key.index),
        Item::Sent(key) => writeln!(text, "sent {} {}", key.channel, key.index),
        Item::Cut(cause) => {
            let cause = cause_text(cause);
            writeln!(text, "cut {cause}")
        }
    }
}

/// Appends a line, with its line feed.
pub fn put_line(text: &mut String, line: JournalLine) -> Result<(), AllocError>
    ensures bytes { OnOk result (string_bytes text.new ≡ string_bytes text.old ++ line_text line) }
    ensures fits { LineFits line }
{
    match line {
        JournalLine::Device(id) => writeln!(text, "device {id}"),
        JournalLine::Entry(entry) => put_entry(text, entry),
    }
}
