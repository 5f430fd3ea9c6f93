//! What the notes say to a person of an audit file: what was found of it, and of which line of its journals or entry of its recording; or where it is
//! wrong. No contract speaks of it, and where it can't be said it is left out.

use crate::notes::note_line;
use rd_audit::{AuditNo, AuditWhy, Verdict};
use rd_audit_file::AuditFile;
use rd_base::{Sink, write_all};
use rd_script::Mode;
use std::alloc::{AllocError, Global};

/// The parts of an audit file.
#[derive(Clone, Copy)]
struct Parts<'a> {
    script: &'a [u8],
    text: &'a [u8],
    /// Where the recording begins, in bytes from the file's first.
    recording_at: usize,
}

/// A line of a journal text, with its number, counted from 1.
#[derive(Clone, Copy)]
struct TextLine<'a> {
    number: usize,
    line: &'a [u8],
}

/// Says what a verdict means.
pub fn note_verdict<N: Sink>(alloc: Global, notes: &mut N, bytes: &[u8], verdict: Verdict) {
    let text = match parts_of(bytes) {
        Some(parts) => parts.text,
        None => &[],
    };
    if let Ok(note) = verdict_note(alloc, text, verdict) {
        let _ = write_all(notes, note.as_bytes());
    }
}

/// Says of an audit file that can't be judged where it is wrong.
pub fn note_refusal<N: Sink>(alloc: Global, notes: &mut N, bytes: &[u8], no: &AuditNo) {
    if let Some(parts) = parts_of(bytes) {
        match no {
            AuditNo::Line { line, .. } => note_line(alloc, notes, Mode::Both, parts.script, *line),
            AuditNo::Bad(fault) => note_place(alloc, notes, parts, fault.at),
            AuditNo::Memory => {}
        }
    }
}

/// The parts of a file, where it has them.
fn parts_of(bytes: &[u8]) -> Option<Parts<'_>> {
    let Ok(mut file) = AuditFile::begin(bytes) else {
        return None;
    };
    let Ok(script) = file.counted() else {
        return None;
    };
    let text = file.counted().unwrap_or_default();
    Some(Parts {
        script,
        text,
        recording_at: file.at(),
    })
}

fn verdict_note(alloc: Global, text: &[u8], verdict: Verdict) -> Result<String, AllocError> {
    match verdict {
        Verdict::Yes => Ok(String::new(alloc)),
        Verdict::Item {
            device,
            item,
            clause,
        } => entry_note(alloc, text, device, item, rule(clause)),
        Verdict::Mark { device, item } => entry_note(alloc, text, device, item, MARK),
        Verdict::Entry { entry, why } => {
            let said = said_of(why);
            format!(in alloc;
                "rdr: the completion that ends in entry {entry} of the recording {said}\n"
            )
        }
        Verdict::Open { channel } => format!(in alloc;
            "rdr: channel {channel} of the recording lacks a completion: one that its device handed out, or, where the channel has no end, that of any request\n"
        ),
    }
}

/// What is said of an entry that isn't what its device does.
const MARK: &str =
    "it is of no request of the recording to that device, or the device doesn't do that with it";

/// What is said of an entry that breaks the rule of journals with this number.
fn rule(clause: u8) -> &'static str {
    match clause {
        1 => "a request comes whose key isn't above those that came before",
        2 => "a request runs or is cancelled that didn't come before, or that did either before",
        3 => {
            "a completion is handed out whose request didn't run and wasn't cancelled before, still waits, or was handed out before"
        }
        4 => "a request runs that came before the device was cut off",
        5 => "a request is cancelled behind whose coming the device wasn't removed",
        6 => {
            "a request is named that came before its channel was dropped, or whose channel is before one that was named"
        }
        _ => {
            "more than 128 requests came on the last channel whose completions aren't handed out by then"
        }
    }
}

/// What is said of a completion that doesn't belong.
fn said_of(why: AuditWhy) -> &'static str {
    match why {
        AuditWhy::Stray => "has no request that waits for it",
        AuditWhy::Answer => {
            "isn't what its device replied to its request, or the device never handed one out"
        }
        AuditWhy::Order => {
            "stands where it can't have been sent: its device handed it out in another order, or behind what stands before it"
        }
        AuditWhy::Direct => {
            "is of a request that never came to its device, and isn't what is said then"
        }
    }
}

/// Says which entry of a journal it is, and what is wrong with it.
fn entry_note(
    alloc: Global,
    text: &[u8],
    device: u32,
    item: u64,
    said: &str,
) -> Result<String, AllocError> {
    let heading = format!(in alloc; "device {device}")?;
    match line_of(text, heading.as_bytes(), item) {
        Some(TextLine { number, line }) => {
            let line = line.escape_ascii();
            format!(in alloc;
                "rdr: device {device}, entry {item} of its journal, line {number} of the journal text: {line}\nrdr: {said}\n"
            )
        }
        None => { format!(in alloc; "rdr: device {device}, the end of its journal\nrdr: {said}\n") }
    }
}

/// The line of an entry, which is counted from 1, of the device whose line this is.
fn line_of<'a>(text: &'a [u8], heading: &[u8], item: u64) -> Option<TextLine<'a>> {
    let mut number = 0usize;
    let mut wanted = None;
    for line in text.split(|byte| *byte == b'\n') {
        number = number.saturating_add(1);
        match wanted {
            None if line == heading => wanted = Some(item),
            None => {}
            Some(1) if is_entry(line) => return Some(TextLine { number, line }),
            Some(count) => wanted = Some(count.saturating_sub(1)),
        }
    }
    None
}

/// Whether a line is that of an entry: not that of a device, and not what stands behind the last line feed.
fn is_entry(line: &[u8]) -> bool {
    !line.is_empty() && !line.starts_with(b"device ")
}

/// Says where in its journal text or its recording a file is wrong.
fn note_place<N: Sink>(alloc: Global, notes: &mut N, parts: Parts<'_>, at: u64) {
    if let Ok(note) = place_note(alloc, parts, at) {
        let _ = write_all(notes, note.as_bytes());
    }
}

fn place_note(alloc: Global, parts: Parts<'_>, at: u64) -> Result<String, AllocError> {
    if let Some(place) = at.checked_sub(parts.recording_at as u64) {
        return format!(in alloc; "rdr: that is byte {place} of the recording, counted from 0\n");
    }
    let text_at = parts.recording_at.saturating_sub(parts.text.len());
    match at.checked_sub(text_at as u64) {
        Some(place) => {
            let number = line_at(parts.text, place);
            format!(in alloc; "rdr: that is in line {number} of the journal text\n")
        }
        None => Ok(String::new(alloc)),
    }
}

/// The number, counted from 1, of the line in which a place of a text stands.
fn line_at(text: &[u8], place: u64) -> usize {
    let mut number = 1usize;
    let mut left = place;
    for byte in text {
        if left == 0 {
            return number;
        }
        left = left.saturating_sub(1);
        if *byte == b'\n' {
            number = number.saturating_add(1);
        }
    }
    number
}
