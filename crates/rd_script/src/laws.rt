//! What holds of every line. This function does nothing: its clause is the law.

ghost use Rattle.std.specs.Prelude.{ℕ, List};
ghost use Rattle.rd_script.specs.Row.{words_of};
ghost use Rattle.rd_script.specs.Rows.{line_row};
ghost use Rattle.rd_script.specs.Said.{Said};
ghost use Rattle.rd_script.specs.Script.{is_application};
ghost use Rattle.rd_script.specs.Spelled.{IsDecided};

/// Whatever was said before a line, its words spell one line or have one first wrong word, and never both.
pub fn lines_are_decided()
    ensures { (said : Said) (text : List ℕ) → IsDecided (line_row said (is_application text)) (words_of text) }
{}
