//! What holds of every audit file. These functions do nothing: their clauses are laws.

ghost use Rattle.std.specs.Prelude.{◌≡◌, ◌^◌, ◌<◌, ℕ, List, codes, length};
ghost use Rattle.rd_audit_file.specs.declared.line.JournalLine.{JournalLine};
ghost use Rattle.rd_audit_file.specs.File.{IsReadBack};
ghost use Rattle.rd_audit_file.specs.Journals.{journal_text, HasOneReading};
ghost use Rattle.rd_audit_file.specs.Lines.{BeginsWithLine, BeginsWithNoLine};
ghost use Rattle.rd_audit_file.specs.Worked as worked;

/// A file that is written is taken apart into its script, its journal text and its recording.
pub fn files_are_read_back(script: &[u8], text: &[u8], recording: &[u8])
    requires script { length script.now < 2 ^ 32 }
    requires text { length text.now < 2 ^ 32 }
    ensures { IsReadBack script.now text.now recording.now }
{}

/// A text begins with one line at most.
pub fn texts_begin_with_one_line(text: &[u8])
    ensures { (line other : JournalLine) (rest left : List ℕ) → BeginsWithLine text.now line rest → BeginsWithLine text.now other left → (line ≡ other) × (rest ≡ left) }
{}

/// A journal text is that of journals of these devices or has a first fault, never both, and no two lists of journals and no two faults.
pub fn journal_texts_have_one_reading(ids: &[u32], text: &[u8])
    ensures { HasOneReading ids.now text.now }
{}

/// A text that was worked by hand, and texts that begin with no line in form, which the checker computes.
pub fn journal_texts_are_as_listed()
    ensures text { journal_text worked.journals ≡ worked.text }
    ensures leading_zero { BeginsWithNoLine (codes "came 01 0\n") }
    ensures past_64_bits { BeginsWithNoLine (codes "came 1 18446744073709551616\n") }
    ensures past_32_bits { BeginsWithNoLine (codes "device 4294967296\n") }
    ensures no_number { BeginsWithNoLine (codes "device \n") }
    ensures two_spaces { BeginsWithNoLine (codes "sent  1 0\n") }
    ensures mark { BeginsWithNoLine (codes "ran 1 0 0 0 2\n") }
    ensures no_line_feed { BeginsWithNoLine (codes "cut dropped") }
    ensures carriage_return { BeginsWithNoLine (codes "cut dropped\r\n") }
{}
