//! A line: dispatched on its first word, and then read by the row of its form.

ghost use Rattle.std.specs.Prelude.{◌≡◌};
ghost use Rattle.rd_script.specs.Keywords.{keywords, verbs};
ghost use Rattle.rd_script.specs.Row.{ReadsWords, ReadsWordsInto};
ghost use Rattle.rd_script.specs.Rows.{application_row, control_line_row, end_row, entry_word, form_row, has_room_for, keyword_row, keyword_word, line_row, verb_word};
ghost use Rattle.rd_script.specs.Script.{is_application, line_of, FindsLine};

use crate::application::read_verb_row;
use crate::controls::{MAX_APPLICATIONS, read_add, read_at, read_cache, read_do, read_remove};
use crate::devices::{
    read_channels, read_clock, read_devices, read_drive, read_drivefold, read_file, read_fill,
    read_folder, read_piece, read_printer, read_real, read_seed, read_workers,
};
use crate::entry::read_entry;
use crate::keyword::{KEYWORDS, Keyword, VERBS, Verb};
use crate::known::Known;
use crate::line::Line;
use crate::numbers::read_small;
use crate::texts::read_handle;
use crate::why::{LineNo, LineWhy};
use crate::words::Words;
use std::alloc::Global;

/// A line that begins with a digit.
fn is_application(text: &[u8]) -> bool
    ensures { result ≡ is_application text.now }
{
    matches!(text, [b'0'..=b'9', ..])
}

/// The line of a text that isn't skipped.
#[tactic(auto, unfolding(crate::specs::Script::line_of))]
pub fn read_line(alloc: Global, known: &Known, text: &[u8]) -> Result<Line, LineNo>
    ensures { FindsLine (line_of known.now text.now) result }
{
    let mut words = Words::of(text);
    read_words(alloc, known, is_application(text), &mut words)
}

/// The place of the word of a bad line that is wrong, counted from 0: that of the first word that is missing, where none is wrong.
pub fn wrong_place(alloc: Global, known: &Known, text: &[u8]) -> usize {
    let mut words = Words::of(text);
    drop(read_words(alloc, known, is_application(text), &mut words));
    words.place()
}

#[tactic(auto, unfolding(crate::specs::Rows::line_row))]
fn read_words(
    alloc: Global,
    known: &Known,
    application: bool,
    words: &mut Words<'_>,
) -> Result<Line, LineNo>
    ensures { ReadsWordsInto (λ x. x) (line_row known.now application) words.old words.new result }
{
    let line = read_form(alloc, known, application, words)?;
    match read_end(known, &line, words) {
        Ok(()) => Ok(line),
        Err(why) => {
            drop(line);
            Err(LineNo::Why(why))
        }
    }
}

/// Whether the drive of a line that makes a node has room for it.
#[tactic(auto, unfolding(crate::specs::Rows::has_room_for))]
fn has_room_for(known: &Known, line: &Line) -> bool
    ensures { result ≡ has_room_for known.now line.now }
{
    match line {
        Line::Folder { device, .. } | Line::File { device, .. } | Line::Fill { device, .. } => {
            known.has_room(*device)
        }
        _ => true,
    }
}

/// No further word, and room for what the line makes.
#[tactic(auto, unfolding(crate::specs::Rows::end_row))]
fn read_end(known: &Known, line: &Line, words: &mut Words<'_>) -> Result<(), LineWhy>
    ensures { ReadsWords (λ x. x) (end_row known.now line.now) words.old words.new result }
{
    words.end()?;
    if !has_room_for(known, line) {
        return Err(LineWhy::Many);
    }
    Ok(())
}

#[tactic(auto, unfolding(crate::specs::Rows::form_row))]
fn read_form(
    alloc: Global,
    known: &Known,
    application: bool,
    words: &mut Words<'_>,
) -> Result<Line, LineNo>
    ensures { ReadsWordsInto (λ x. x) (form_row known.now application) words.old words.new result }
{
    if application {
        read_application(alloc, known, words)
    } else {
        read_control_line(alloc, known, words)
    }
}

fn read_any_keyword(words: &mut Words<'_>) -> Result<Keyword, LineWhy>
    ensures { ReadsWords (λ x. x) (entry_word keywords) words.old words.new result }
{
    read_entry(&KEYWORDS, words)
}

#[tactic(auto, unfolding(crate::specs::Rows::keyword_word))]
fn read_keyword(known: &Known, words: &mut Words<'_>) -> Result<Keyword, LineWhy>
    ensures { ReadsWords (λ x. x) (keyword_word known.now) words.old words.new result }
{
    let keyword = read_any_keyword(words)?;
    if !keyword.stands_in(known.mode()) {
        return Err(LineWhy::Words);
    }
    Ok(keyword)
}

#[tactic(auto, unfolding(crate::specs::Rows::control_line_row))]
fn read_control_line(alloc: Global, known: &Known, words: &mut Words<'_>) -> Result<Line, LineNo>
    ensures { ReadsWordsInto (λ x. x) (control_line_row known.now) words.old words.new result }
{
    let keyword = read_keyword(known, words)?;
    read_keyword_row(alloc, known, keyword, words)
}

fn read_any_verb(words: &mut Words<'_>) -> Result<Verb, LineWhy>
    ensures { ReadsWords (λ x. x) (entry_word verbs) words.old words.new result }
{
    read_entry(&VERBS, words)
}

#[tactic(auto, unfolding(crate::specs::Rows::verb_word))]
fn read_verb(known: &Known, words: &mut Words<'_>) -> Result<Verb, LineWhy>
    ensures { ReadsWords (λ x. x) (verb_word known.now) words.old words.new result }
{
    let verb = read_any_verb(words)?;
    if known.mode().is_client() {
        return Err(LineWhy::Words);
    }
    Ok(verb)
}

#[tactic(auto, unfolding(crate::specs::Rows::application_row))]
fn read_application(alloc: Global, known: &Known, words: &mut Words<'_>) -> Result<Line, LineNo>
    ensures { ReadsWordsInto (λ x. x) (application_row known.now) words.old words.new result }
{
    let application = read_small(words, 1, MAX_APPLICATIONS)?;
    let verb = read_verb(known, words)?;
    let handle = read_handle(words)?;
    read_verb_row(alloc, known, application, handle, verb, words)
}

#[tactic(auto, unfolding(crate::specs::Rows::keyword_row))]
fn read_keyword_row(
    alloc: Global,
    known: &Known,
    keyword: Keyword,
    words: &mut Words<'_>,
) -> Result<Line, LineNo>
    ensures { ReadsWordsInto (λ x. x) (keyword_row known.now keyword) words.old words.new result }
{
    match keyword {
        Keyword::Seed => read_seed(words),
        Keyword::Clock => read_clock(words),
        Keyword::Piece => read_piece(words),
        Keyword::Workers => read_workers(words),
        Keyword::Channels => read_channels(words),
        Keyword::Devices => read_devices(words),
        Keyword::Drive => read_drive(known, words),
        Keyword::DriveFold => read_drivefold(known, words),
        Keyword::Real => read_real(alloc, known, words),
        Keyword::Folder => read_folder(alloc, known, words),
        Keyword::File => read_file(alloc, known, words),
        Keyword::Fill => read_fill(alloc, known, words),
        Keyword::Printer => read_printer(alloc, known, words),
        Keyword::At => read_at(known, words),
        Keyword::Settle => Ok(Line::Settle),
        Keyword::Remove => read_remove(known, words),
        Keyword::Add => read_add(known, words),
        Keyword::Do => read_do(known, words),
        Keyword::Cache => read_cache(alloc, words),
        Keyword::Drop => Ok(Line::Drop),
        Keyword::Connect => Ok(Line::Connect),
    }
}
