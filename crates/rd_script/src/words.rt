//! The words of a line, from left to right.

ghost use Rattle.std.specs.Prelude.{◌≡◌, ◌+◌, ◌<◌, ◌∷◌, ◌==◌, drop, length, position, IfSome};
ghost use Rattle.std.specs.List.{slice_split};
ghost use Rattle.rd_script.specs.Row.{parts_left};

use crate::why::LineWhy;
use memchr::memchr;
use std::marker::Model;

/// Where a byte is first.
pub fn first(text: &[u8], byte: u8) -> Option<usize>
    ensures { result ≡ position (λ b. b == byte) text.now }
{
    text.iter().position(|b| *b == byte)
}

/// What comes after a place.
pub fn after(text: &[u8], i: usize) -> &[u8]
    requires { i < length text.now }
    ensures { result.now ≡ drop (i + 1) text.now }
{
    &text[i + 1..]
}

/// What stands before the first such byte of a text, and what comes after it.
pub fn cut(text: &[u8], byte: u8) -> (&[u8], Option<&[u8]>)
    ensures parts { slice_split (λ b. b == byte) text.now ≡ result.0.now ∷ parts_left byte result.1 }
    ensures shorter { IfSome result.1 (λ left. length left.now < length text.now) }
{
    match first(text, byte) {
        Some(i) => (&text[..i], Some(after(text, i))),
        None => (text, None),
    }
}

/// What stands before the first line feed of a text, and what comes after it: `cut` for the long rest of a script.
pub fn cut_line(text: &[u8]) -> (&[u8], Option<&[u8]>)
    ensures parts { slice_split (λ b. b == 0x0a) text.now ≡ result.0.now ∷ parts_left 0x0a result.1 }
    ensures shorter { IfSome result.1 (λ left. length left.now < length text.now) }
{
    match memchr(b'\n', text) {
        Some(i) => (&text[..i], Some(after(text, i))),
        None => (text, None),
    }
}

/// The words of a line that aren't read yet: what stands between its spaces.
#[derive(Drop)]
pub struct Words<'a> {
    left: Option<&'a [u8]>,
    /// How many words were asked for.
    asked: usize,
}

impl<'a> Model for Words<'a> {
    ghost use Rattle.std.specs.Prelude.{ℕ, List};
    ghost use Rattle.rd_script.specs.Row.{words_left};

    ghost Value = { List (List ℕ) };

    ghost view = { λ w. words_left w.left };
}

impl<'a> Words<'a> {
    ghost use Rattle.std.specs.Prelude.{◌≡◌};
    ghost use Rattle.rd_script.specs.Row.{word, last, words_of, ReadsWords};

    pub fn of(text: &'a [u8]) -> Self
        ensures { result ≡ words_of text.now }
    {
        Words {
            left: Some(text),
            asked: 0,
        }
    }

    /// The next word, lent. Where none is left, the line has too few.
    pub fn next(&mut self) -> Result<&'a [u8], LineWhy>
        ensures { ReadsWords (λ word. word.now) word self.old self.new result }
    {
        self.asked = self.asked.saturating_add(1);
        let Some(text) = self.left else {
            return Err(LineWhy::Words);
        };
        let (word, left) = cut(text, b' ');
        self.left = left;
        Ok(word)
    }

    /// No word is left.
    pub fn end(&mut self) -> Result<(), LineWhy>
        ensures { ReadsWords (λ done. done) last self.old self.new result }
    {
        if self.left.is_some() {
            self.asked = self.asked.saturating_add(1);
            return Err(LineWhy::Words);
        }
        Ok(())
    }

    /// The place of the word that was looked at last, counted from 0. The line may have fewer words.
    pub fn place(&self) -> usize {
        self.asked.saturating_sub(1)
    }
}
