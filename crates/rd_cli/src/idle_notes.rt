//! What the notes say to a person of the lines that did nothing: why, or what each would have needed. No contract speaks of it, and where it
//! can't be said it is left out.
//!
//! Cost: two walks over the lines, beside the numbers of those that did nothing, and one write.

use rd_base::{Sink, write_all};
use rd_script::{Errand, Line, NumberedLine};
use rd_world::application_of;
use std::alloc::{AllocError, Global};

/// Of how many lines it is said.
const MOST: usize = 100;

/// What a script says that makes a line do nothing.
#[derive(Drop)]
struct Known {
    /// How many hands there are.
    hands: u32,
    /// Which applications have a line before this one.
    asked: [bool; 65],
}

/// Says why the lines with these numbers, which rise, did nothing.
pub fn note_idle<N: Sink>(alloc: Global, notes: &mut N, lines: &[NumberedLine], idle: &[u32]) {
    if idle.is_empty() {
        return;
    }
    if let Ok(note) = idle_note(alloc, lines, idle) {
        let _ = write_all(notes, note.as_bytes());
    }
}

fn idle_note(alloc: Global, lines: &[NumberedLine], idle: &[u32]) -> Result<String, AllocError> {
    let mut note = String::new(alloc);
    let mut known = Known {
        hands: hands_of(lines),
        asked: [false; 65],
    };
    let (mut left, rest) = idle.split_at(idle.len().min(MOST));
    for line in lines {
        let Some((number, others)) = left.split_first() else {
            break;
        };
        if *number == line.number {
            write!(note, "rdr: line {number} did nothing: ")?;
            put_reason(&mut note, &line.line, &known)?;
            left = others;
        }
        note_asked(&mut known, &line.line);
    }
    if !rest.is_empty() {
        let more = rest.len();
        writeln!(note, "rdr: and {more} more lines did nothing")?;
    }
    Ok(note)
}

/// How many hands the lines say that there are.
fn hands_of(lines: &[NumberedLine]) -> u32 {
    let mut hands = 1;
    for line in lines {
        if let Line::Workers { count } = &line.line {
            hands = *count;
        }
    }
    hands
}

/// Keeps which application a line is of.
fn note_asked(known: &mut Known, line: &Line) {
    if let Some(application) = application_of(line) {
        if let Some(asked) = known.asked.get_mut(application as usize) {
            *asked = true;
        }
    }
}

/// Whether a line of the application comes before.
fn has_asked(known: &Known, application: u32) -> bool {
    match known.asked.get(application as usize) {
        Some(asked) => *asked,
        None => false,
    }
}

/// Why a line did nothing, and the line's end.
fn put_reason(note: &mut String, line: &Line, known: &Known) -> Result<(), AllocError> {
    match line {
        Line::Do { errand } => put_errand(note, *errand, known),
        Line::Remove { device } => {
            writeln!(note, "device {device} has to be there, and a channel open")
        }
        Line::Add { device } => {
            writeln!(
                note,
                "device {device} has to be removed, and a channel open"
            )
        }
        Line::Connect => note.push_str("a channel is open\n"),
        _ => note.push_str("no channel is open\n"),
    }
}

/// Why a `do` line did nothing, and the line's end.
fn put_errand(note: &mut String, errand: Errand, known: &Known) -> Result<(), AllocError> {
    match errand {
        Errand::Issue { application } if !has_asked(known, application) => {
            writeln!(note, "no line of application {application} is before it")
        }
        Errand::Issue { application } => {
            writeln!(
                note,
                "application {application} needs a line that wasn't issued yet, and no request under way"
            )
        }
        Errand::Send => note.push_str("the host has nothing to send\n"),
        Errand::Read => {
            note.push_str("nothing came for the client, or a request waits for a full device\n")
        }
        Errand::Take { device, hand } => put_take(note, device, hand, known.hands),
        Errand::Apply { hand } => writeln!(note, "hand {hand} holds nothing"),
        Errand::Collect { device } => {
            writeln!(
                note,
                "a completion of device {device} has to be ready, and nothing else to be sent by the client"
            )
        }
        Errand::Answer => note.push_str("the client has nothing to send\n"),
        Errand::Back => note.push_str("nothing came for the host\n"),
    }
}

/// Why a hand took nothing, and the line's end.
fn put_take(note: &mut String, device: u32, hand: u32, hands: u32) -> Result<(), AllocError> {
    if hand == 0 || hand > hands {
        writeln!(note, "there is no hand {hand}, but 1 to {hands}")
    } else {
        writeln!(
            note,
            "a request has to wait for device {device}, and hand {hand} to be free"
        )
    }
}
