//! How a command ends that served the script of its input on channels.
//!
//! | status | comes where | last line |
//! |---|---|---|
//! | 0 | the input was read to its end, the session came to its end, and no count of the linker rose | |
//! | 1 | a line of the script is refused | `line N WHY` |
//! | 2 | a read of the input failed | |
//! | 3 | a write to the output failed, where it would have been 0 or 5 | |
//! | 4 | what came on a channel is wrong | `channel C at A WHY`, and ` in M` for message M, counted from 0 |
//! | 5 | a channel couldn't be had, or failed | |
//! | 6 | memory ran out | |
//! | 7 | 2^40 bytes came on a channel | `long` |
//! | 8 | a folder of the script couldn't be opened | |
//!
//! The first of these events ends the command. At 0, 4, 5 and 7 what tells of the session stands before the last line. A failure to write it leaves
//! 4 and 7 as they are.

ghost use Rattle.std.specs.Prelude.{◌≡◌, ◌++◌, IfOk, IsErr};
ghost use Rattle.rd_cli.specs.Serving.{EndsServed, failed_status, line_after, own_status, stop_after};
ghost use Rattle.rd_cli.specs.Outside.{stream};
ghost use Rattle.rd_cli.specs.Stops.{Prints};

use crate::ending::last_line;
use crate::stop::Stop;
use rd_base::{Sink, write_all};
use rd_carry::Ended;
use std::alloc::{AllocError, Global};

/// Says what a session came to, with this text that tells of it, if memory was found for that, and returns the status.
pub fn end_served<K: Sink>(
    alloc: Global,
    text: Result<Vec<u8>, AllocError>,
    ended: Ended,
    output: &mut K,
) -> u8
    ensures told { IfOk text (λ text. EndsServed text.items ended (stream K.held K.faults output.old) (stream K.held K.faults output.new) result) }
    ensures starved { IsErr text → (result ≡ 6) × (stream K.held K.faults output.new ≡ stream K.held K.faults output.old) }
{
    match text {
        Ok(text) => end_told(alloc, text, ended, output),
        Err(_) => Stop::Memory.status(),
    }
}

/// The same with a text.
fn end_told<K: Sink>(alloc: Global, text: Vec<u8>, ended: Ended, output: &mut K) -> u8
    ensures { EndsServed text.items ended (stream K.held K.faults output.old) (stream K.held K.faults output.new) result }
{
    let stop = stop_after(ended);
    if let Some(Stop::Memory) = stop {
        return Stop::Memory.status();
    }
    match print_end(alloc, text, &stop, output) {
        Ok(()) => own_status(&stop),
        Err(Stop::Output) => failed_status(&stop),
        Err(stop) => stop.status(),
    }
}

/// What ends the command after a session, if not its end.
fn stop_after(ended: Ended) -> Option<Stop>
    ensures { result ≡ stop_after ended }
{
    match ended {
        Ended::Over => None,
        Ended::Channel {
            channel,
            at,
            message,
            why,
        } => Some(Stop::Channel {
            channel,
            at,
            message,
            why,
        }),
        Ended::Link => Some(Stop::Link),
        Ended::Memory => Some(Stop::Memory),
        Ended::Long => Some(Stop::Long),
    }
}

/// The status where all was written.
fn own_status(stop: &Option<Stop>) -> u8
    ensures { result ≡ own_status stop.now }
{
    match stop {
        None => 0,
        Some(stop) => stop.status(),
    }
}

/// The status where a write failed.
fn failed_status(stop: &Option<Stop>) -> u8
    ensures { result ≡ failed_status stop.now }
{
    match stop {
        None | Some(Stop::Link) => Stop::Output.status(),
        Some(stop) => stop.status(),
    }
}

/// Writes the text, and behind it the last line, if there is one.
fn print_end<K: Sink>(
    alloc: Global,
    text: Vec<u8>,
    stop: &Option<Stop>,
    output: &mut K,
) -> Result<(), Stop>
    ensures { Prints (text.items ++ line_after stop.now) (stream K.held K.faults output.old) (stream K.held K.faults output.new) result }
{
    let text = end_text(alloc, text, stop)?;
    match write_all(output, text.as_slice()) {
        Ok(()) => Ok(()),
        Err(_) => Err(Stop::Output),
    }
}

/// What is written at the end.
fn end_text(alloc: Global, text: Vec<u8>, stop: &Option<Stop>) -> Result<Vec<u8>, AllocError>
    ensures { IfOk result (λ whole. whole.items ≡ text.items ++ line_after stop.now) }
{
    let mut text = text;
    if let Some(stop) = stop {
        if let Some(line) = last_line(alloc, stop)? {
            text.extend_from_slice(line.as_bytes())?;
        }
    }
    Ok(text)
}
