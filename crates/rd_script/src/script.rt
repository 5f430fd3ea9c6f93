//! A script, and the first line outside the grammar.

ghost use Rattle.std.specs.Prelude.{◌≡◌, IfOk, IfErr};
ghost use Rattle.rd_script.specs.Script.{is_end, is_skipped, script_of, size_with, IsBadLine};

use crate::keyword::Mode;
use crate::known::Known;
use crate::line::{Line, Lines, NumberedLine};
use crate::reading::{read_line, wrong_place};
use crate::why::{LineNo, LineWhy, ScriptNo};
use crate::words::cut_line;
use std::alloc::Global;
use std::marker::Model;

/// The most lines of a script.
pub const MAX_LINES: u32 = 1_000_000;

/// The most bytes of a script.
pub const MAX_BYTES: usize = 67_108_864;

/// What a script says: its lines in order, without those that are skipped.
#[derive(Drop)]
pub struct Script {
    pub mode: Mode,
    pub lines: Lines,
}

/// Empty lines and remarks.
fn is_skipped(text: &[u8]) -> bool
    ensures { result ≡ is_skipped text.now }
{
    match text {
        [] => true,
        [byte, ..] => *byte == b'#',
    }
}

/// What is wrong with the first bad line of a text, for a person to read: the contract of `read_script` says what is promised.
#[derive(Clone, Copy)]
pub struct BadWord<'a> {
    /// Counted from 1.
    pub line: u32,
    pub why: LineWhy,
    /// The line without its line feed.
    pub text: &'a [u8],
    /// Which of its words is wrong, counted from 0, or missing.
    pub place: usize,
}

/// What was read so far.
#[derive(Drop)]
struct Reader {
    known: Known,
    lines: Vec<NumberedLine>,
    number: u32,
    bytes: usize,
}

impl Model for Reader {
    ghost use Rattle.std.specs.Prelude.{◌≤◌};
    ghost use Rattle.rd_script.specs.Script.{max_bytes, max_lines, Reading};

    ghost Value = { Reading };

    ghost view = { λ r. record { said = r.known; lines = r.lines.items; number = r.number; bytes = r.bytes } };

    ghost invariant = { λ r. (r.number ≤ max_lines) × (r.bytes ≤ max_bytes) };
}

impl Reader {
    ghost use Rattle.std.specs.Prelude.{◌≡◌, ◌+◌, true, OnOk, IfErr};
    ghost use Rattle.rd_script.specs.declared.why.ScriptNo.TheVariants as no;
    ghost use Rattle.rd_script.specs.Script.{bad_line, fits, reading, reading_at_start, skipping, Steps, TextLine};

    fn new(alloc: Global, mode: Mode) -> Self
        ensures { result ≡ reading_at_start mode }
    {
        Reader {
            known: Known::new(alloc, mode),
            lines: Vec::new(alloc),
            number: 0,
            bytes: 0,
        }
    }

    /// Whether one more line of so many bytes is within the limits.
    fn fits(&self, size: usize) -> bool
        ensures { result ≡ fits self.now size }
    {
        self.number < MAX_LINES && size <= MAX_BYTES - self.bytes
    }

    /// Passes over a line that is skipped.
    fn skip(&mut self, size: usize)
        requires { fits self.old size ≡ true }
        ensures { self.new ≡ skipping self.old size }
    {
        self.number += 1;
        self.bytes += size;
    }

    /// Keeps a line that was read.
    fn keep(&mut self, alloc: Global, line: Line, size: usize) -> Result<(), ScriptNo>
        requires { fits self.old size ≡ true }
        ensures kept { OnOk result (self.new ≡ reading self.old size line) }
        ensures memory { IfErr result (λ why. why ≡ no.Memory) }
    {
        match self.known.take(alloc, &line) {
            Ok(()) => self.push(line, size),
            Err(_) => {
                drop(line);
                Err(ScriptNo::Memory)
            }
        }
    }

    /// The same, where what it says was taken in.
    fn push(&mut self, line: Line, size: usize) -> Result<(), ScriptNo>
        requires { fits self.old size ≡ true }
        ensures pushed { OnOk result (self.new ≡ record (reading self.old size line) { said = self.old.said }) }
        ensures memory { IfErr result (λ why. why ≡ no.Memory) }
    {
        self.number += 1;
        self.bytes += size;
        let number = self.number;
        self.lines.push(NumberedLine { number, line })?;
        Ok(())
    }

    /// The next line is bad.
    fn bad(&self, why: LineWhy) -> ScriptNo
        ensures { result ≡ no.BadLine (self.now.number + 1) why }
    {
        ScriptNo::BadLine {
            line: self.number + 1,
            why,
        }
    }

    /// Reads one more line, which has so many bytes with its line feed.
    #[tactic(auto, unfolding(crate::specs::Script::step))]
    fn step(&mut self, alloc: Global, text: &[u8], size: usize) -> Result<(), ScriptNo>
        ensures { Steps self.old self.new (record { text = text.now; size = size }) result }
    {
        if !self.fits(size) {
            return Err(self.bad(LineWhy::Many));
        }
        if is_skipped(text) {
            self.skip(size);
            return Ok(());
        }
        match read_line(alloc, &self.known, text) {
            Ok(line) => self.keep(alloc, line, size),
            Err(LineNo::Why(why)) => Err(self.bad(why)),
            Err(LineNo::Memory) => Err(ScriptNo::Memory),
        }
    }

    fn into_script(self, mode: Mode) -> Script
        ensures { result ≡ record { mode = mode; lines = self.lines } }
    {
        let Reader { lines, .. } = self;
        Script {
            mode,
            lines: Lines::of(lines),
        }
    }
}

/// An empty line at the end is none.
fn is_end(line: &[u8], others: Option<&[u8]>) -> bool
    ensures { result ≡ is_end line.now others.entry }
{
    match others {
        Some(_) => false,
        None => line.is_empty(),
    }
}

/// How many bytes a line has with its line feed, which it has where something comes after it.
fn size_of(line: &[u8], others: Option<&[u8]>) -> usize
    ensures { result ≡ size_with line.now others.entry }
{
    match others {
        Some(_) => line.len() + 1,
        None => line.len(),
    }
}

/// Reads a script. The first line that is outside the grammar, or past a limit, is `ScriptNo::BadLine`.
#[tactic(auto, using(crate::proofs::ScriptLemmas::read_next, crate::proofs::ScriptLemmas::read_bad, crate::proofs::ScriptLemmas::read_end))]
pub fn read_script(alloc: Global, mode: Mode, bytes: &[u8]) -> Result<Script, ScriptNo>
    ensures script { IfOk result (λ script. script_of mode bytes.now ≡ Ok script) }
    ensures bad { IfErr result (IsBadLine (λ bad. script_of mode bytes.now ≡ Err bad)) }
{
    let mut reader = Reader::new(alloc, mode);
    let mut left = Some(bytes);
    while let Some(text) = left {
        let (line, others) = cut_line(text);
        if is_end(line, others) {
            return Ok(reader.into_script(mode));
        }
        let size = size_of(line, others);
        reader.step(alloc, line, size)?;
        left = others;
    }
    Ok(reader.into_script(mode))
}

/// What is wrong with the first bad line of a text, if it has one and memory is found.
pub fn bad_word(alloc: Global, mode: Mode, bytes: &[u8]) -> Option<BadWord<'_>> {
    let mut reader = Reader::new(alloc, mode);
    next_bad_word(alloc, &mut reader, bytes)
}

/// The same, of the lines that come next.
fn next_bad_word<'a>(alloc: Global, reader: &mut Reader, bytes: &'a [u8]) -> Option<BadWord<'a>> {
    for text in bytes.split(|byte| *byte == b'\n') {
        match reader.step(alloc, text, text.len().saturating_add(1)) {
            Ok(()) => {}
            Err(ScriptNo::BadLine { line, why }) => {
                return Some(BadWord {
                    line,
                    why,
                    text,
                    place: wrong_place(alloc, &reader.known, text),
                });
            }
            Err(ScriptNo::Memory) => return None,
        }
    }
    None
}
