//! The words of a table.

ghost use Rattle.std.specs.Prelude.{◌≡◌, map};
ghost use Rattle.rd_script.specs.Keywords.{entry_at};
ghost use Rattle.rd_script.specs.Row.{ReadsWords};
ghost use Rattle.rd_script.specs.Rows.{entry_word};

use crate::why::LineWhy;
use crate::words::Words;

/// The entry of a table of words at a word, if it is there.
fn entry_at<A: Copy>(table: &[(&[u8], A)], word: &[u8]) -> Option<A>
    ensures { result ≡ entry_at (map (λ e. (e.0.now, e.1)) table.now) word.now }
{
    for (text, value) in table {
        if word == *text {
            return Some(*value);
        }
    }
    None
}

/// The entry of a table at the next word.
#[tactic(auto, unfolding(crate::specs::Rows::entry_word))]
pub fn read_entry<A: Copy>(table: &[(&[u8], A)], words: &mut Words<'_>) -> Result<A, LineWhy>
    ensures { ReadsWords (λ x. x) (entry_word (map (λ e. (e.0.now, e.1)) table.now)) words.old words.new result }
{
    let word = words.next()?;
    match entry_at(table, word) {
        Some(entry) => Ok(entry),
        None => Err(LineWhy::Words),
    }
}
