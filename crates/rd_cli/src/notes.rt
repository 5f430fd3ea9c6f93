//! What the notes say to a person: how the command is used, what is wrong with a line, and which folder can't be opened. No contract speaks of it,
//! and where it can't be said it is left out.

use crate::forms::{FORMS, meaning, word_at};
use rd_base::{Sink, write_all};
use rd_script::{BadWord, Line, LineWhy, Mode, NumberedLine, bad_word};
use std::alloc::{AllocError, Global};
use std::slice::EscapeAscii;
use std::str;

/// How many bytes of a refused line are shown.
const SHOWN: usize = 64;

const USAGE: &str = "\
rdr: both ends of Remote Desktop drive redirection
usage: rdr both < SCRIPT
         plays the script of the standard input, prints a report, and leaves the frames in rdr.rec (docs/SCRIPT.md)
       rdr trace < SCRIPT > AUDIT
         does the same, but prints an audit file in the report's place: the script, the devices' journals and the frames (docs/RECORDING.md)
       rdr load N
         plays a session with N blocks in each of four files, N from 1 to 1000, prints what came of it in one line, and leaves the frames in
         rdr.rec
       rdr client PATH < SCRIPT
         serves the devices of a client's script, among them folders of this machine, over the channels that it dials at the socket PATH, one after
         the other, and prints how many requests each of them ran
       rdr host PATH < SCRIPT
         plays a host's script over the channels that are dialed at the socket PATH, where it listens, and prints what came of each line
       rdr decode < RECORDING
         prints a line for each message of a recording, and names the first fault (docs/RECORDING.md)
       rdr audit < AUDIT
         prints yes where the frames of an audit file belong to its journals and these to its script, and else the first thing that doesn't
";

/// Says how the command is used.
pub fn note_usage<N: Sink>(notes: &mut N) {
    let _ = write_all(notes, USAGE.as_bytes());
}

/// Says what is wrong with the line with this number, counted from 1: which of its words, and what is expected there.
pub fn note_line<N: Sink>(alloc: Global, notes: &mut N, mode: Mode, text: &[u8], number: u32) {
    match bad_word(alloc, mode, text) {
        Some(bad) if bad.line == number => note_bad_line(alloc, notes, bad),
        _ => {}
    }
}

/// Says what is wrong with a line whose bad word is known.
fn note_bad_line<N: Sink>(alloc: Global, notes: &mut N, bad: BadWord<'_>) {
    if let Ok(note) = bad_line_note(alloc, bad) {
        let _ = write_all(notes, note.as_bytes());
    }
}

/// What is said of such a line.
fn bad_line_note(alloc: Global, bad: BadWord<'_>) -> Result<String, AllocError> {
    let number = bad.line;
    let (line, cut) = shown(bad.text);
    let mut note = format!(in alloc; "rdr: line {number}: {line}{cut}\n")?;
    match bad.text.split(|byte| *byte == b' ').nth(bad.place) {
        Some(word) => {
            let (word, cut) = shown(word);
            writeln!(note, "rdr: {word}{cut} can't stand there")?;
        }
        None => writeln!(note, "rdr: a word is missing")?,
    }
    if let Some(said) = reason(bad.why) {
        writeln!(note, "rdr: {said}")?;
    }
    match bad.why {
        LineWhy::Many => {}
        LineWhy::Words if bad.place == 0 => {
            note.push_str("rdr: no line begins with that word; docs/SCRIPT.md has all lines\n")?;
        }
        _ if bad.place == 0 => {
            note.push_str(
                "rdr: a line that begins with a digit begins with an application, from 1 to 64\n",
            )?;
        }
        _ => put_expected(&mut note, &bad)?,
    }
    Ok(note)
}

/// What a reason doesn't say of itself.
fn reason(why: LineWhy) -> Option<&'static str> {
    match why {
        LineWhy::Device => Some(
            "a device is declared once, before the lines that name it, and a printer has no files",
        ),
        LineWhy::Path => Some("nothing else stands at a path, and its folder is made before it"),
        LineWhy::Many => Some("a limit is passed there: docs/SCRIPT.md has them"),
        LineWhy::Words | LineWhy::Number | LineWhy::Name | LineWhy::Hex => None,
    }
}

/// Says what each form that begins like the line has where it is wrong.
fn put_expected(note: &mut String, bad: &BadWord<'_>) -> Result<(), AllocError> {
    let mut ends = true;
    for form in FORMS {
        if let Some(word) = word_at(form, bad.text, bad.place) {
            ends = false;
            match meaning(word) {
                Some(said) => writeln!(note, "rdr: expected {word} of: {form} ({said})")?,
                None => writeln!(note, "rdr: expected {word} of: {form}")?,
            }
        }
    }
    if ends {
        note.push_str("rdr: expected no further word\n")?;
    }
    Ok(())
}

/// Says which folder can't be opened: that of this device, as a line of the script names it.
pub fn note_folder<N: Sink>(alloc: Global, notes: &mut N, lines: &[NumberedLine], device: u32) {
    if let Some(place) = place_of(lines, device) {
        if let Ok(note) = folder_note(alloc, device, place) {
            let _ = write_all(notes, note.as_bytes());
        }
    }
}

/// The place of the folder that a device is, by the line that declares it.
fn place_of(lines: &[NumberedLine], wanted: u32) -> Option<&[u8]> {
    for line in lines {
        if let Line::Real { device, place, .. } = &line.line {
            if *device == wanted {
                return Some(place.as_slice());
            }
        }
    }
    None
}

/// What is said of such a folder. Its place is text.
fn folder_note(alloc: Global, device: u32, place: &[u8]) -> Result<String, AllocError> {
    let place = str::from_utf8(place).unwrap_or_default().escape_debug();
    format!(in alloc; "rdr: device {device}: the folder {place} can't be opened\n")
}

/// Bytes as they can be shown, and what stands after them where they were cut.
fn shown(bytes: &[u8]) -> (EscapeAscii<'_>, &'static str) {
    match bytes.get(..SHOWN) {
        Some(front) => (front.escape_ascii(), ".."),
        None => (bytes.escape_ascii(), ""),
    }
}
