//! A journal text, line by line.

ghost use Rattle.std.specs.Prelude.{◌≡◌};
ghost use Rattle.std.specs.Option.{option_copied};
ghost use Rattle.rd_audit_file.specs.Journals.{ChecksJournals};
ghost use Rattle.rd_audit_file.specs.Taken.{left_behind};

use crate::fault::FieldFault;
use crate::line::{JournalLine, take_line};
use rd_base::Why;
use std::marker::Model;

/// The lines of a journal text that aren't read yet.
#[derive(Debug, Drop)]
pub struct JournalLines<'a> {
    whole: usize,
    left: &'a [u8],
}

impl<'a> Model for JournalLines<'a> {
    ghost use Rattle.std.specs.Prelude.{◌≤◌, ◌-◌, length};
    ghost use Rattle.rd_base.specs.Position.{Position};

    ghost Value = { Position };

    ghost view = { λ l. record { at = l.whole - length l.left.now; left = l.left.now } };

    ghost invariant = { λ l. length l.left.now ≤ l.whole };
}

impl<'a> JournalLines<'a> {
    ghost use Rattle.rd_base.specs.Position.{at_start};
    ghost use Rattle.rd_audit_file.specs.Journals.{ReadsLine};

    pub fn new(text: &'a [u8]) -> Self
        ensures { result ≡ at_start text.now }
    {
        JournalLines {
            whole: text.len(),
            left: text,
        }
    }

    /// The place of the next line, in bytes from the text's first.
    pub fn at(&self) -> usize
        ensures { result ≡ self.now.at }
    {
        self.whole - self.left.len()
    }

    /// The next line, or none at the text's end. Where no line in form is next, the fault stands at its first byte, and nothing moves.
    pub fn next(&mut self) -> Result<Option<JournalLine>, FieldFault>
        ensures { ReadsLine self.old self.new result }
    {
        let left = self.left;
        if left.is_empty() {
            return Ok(None);
        }
        let Some((line, len)) = take_line(left) else {
            return Err(FieldFault {
                at: self.at(),
                why: Why::Value,
            });
        };
        self.left = &left[len..];
        Ok(Some(line))
    }
}

/// The devices that are still to come after a line, where the line goes on with the journals.
fn left_behind(left: &[u32], begun: bool, line: JournalLine) -> Option<&[u32]>
    ensures { option_copied result ≡ left_behind left.now begun line }
{
    match line {
        JournalLine::Device(id) => match left {
            [next, others @ ..] if *next == id => Some(others),
            _ => None,
        },
        JournalLine::Entry(_) => { if begun { Some(left) } else { None } }
    }
}

/// Whether a text is that of journals of these devices, in order, or else its first fault: `Value` at the first line that is out of form or
/// doesn't go on with the journals, and `Short` at the text's end where devices are missing. Takes one pass and no memory.
pub fn check_journals(text: &[u8], ids: &[u32]) -> Result<(), FieldFault>
    ensures { ChecksJournals ids.now text.now result }
{
    let mut lines = JournalLines::new(text);
    let mut to_come = ids;
    let mut begun = false;
    let mut at = 0;
    while let Some(line) = lines.next()? {
        let Some(others) = left_behind(to_come, begun, line) else {
            let why = Why::Value;
            return Err(FieldFault { at, why });
        };
        to_come = others;
        begun = true;
        at = lines.at();
    }
    if to_come.is_empty() {
        return Ok(());
    }
    let why = Why::Short;
    Err(FieldFault { at, why })
}
