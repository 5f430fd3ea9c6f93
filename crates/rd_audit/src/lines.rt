//! The lines of a journal text, as long as each is in form.

ghost use Rattle.rd_audit.specs.Lawful.{ReadsNextLine};

use rd_audit_file::{JournalLine, JournalLines};

/// The next line, or none where no line in form is next.
pub fn next_line(lines: &mut JournalLines<'_>) -> Option<JournalLine>
    ensures { ReadsNextLine lines.old.left lines.new.left result }
{
    match lines.next() {
        Ok(line) => line,
        Err(_) => None,
    }
}
