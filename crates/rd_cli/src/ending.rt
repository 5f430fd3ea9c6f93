//! How a command that stopped ends: with a last line, where it has one, and its status.

ghost use Rattle.std.specs.Prelude.{◌≡◌, IfOk, IsErr, IsSome, option_map, string_bytes};
ghost use Rattle.rd_cli.specs.Outside.{stream};
ghost use Rattle.rd_cli.specs.Stops.{StopsWith, audit_word, channel_line, chunk_word, end_word, fault_line, field_word, in_message, last_line, line_word, message_word, refused_line, verdict_line, why_word};

use crate::stop::Stop;
use rd_audit::{AuditWhy, Verdict};
use rd_base::{Sink, Why, write_all};
use rd_carry::EndWhy;
use rd_chunk::ChunkWhy;
use rd_decode::{Fault, FaultWhy};
use rd_hello::EndFault;
use rd_script::LineWhy;
use std::alloc::{AllocError, Global};

/// Says what ended a command, where that has a line, and returns the status. A failure to say it changes nothing.
pub fn end<K: Sink>(alloc: Global, output: &mut K, stop: Stop) -> u8
    ensures { StopsWith stop (stream K.held K.faults output.old) (stream K.held K.faults output.new) result }
{
    match last_line(alloc, &stop) {
        Ok(Some(line)) => {
            let _ = write_all(output, line.as_bytes());
            stop.status()
        }
        Ok(None) => stop.status(),
        Err(_) => Stop::Memory.status(),
    }
}

/// The last line on the output, if any.
pub fn last_line(alloc: Global, stop: &Stop) -> Result<Option<String>, AllocError>
    ensures line { IfOk result (λ line. option_map string_bytes line ≡ last_line stop.now) }
    ensures err { IsErr result → IsSome (last_line stop.now) }
{
    match stop {
        Stop::Words => Ok(Some(String::from_str(alloc, "bad words\n")?)),
        Stop::Line { line, why } => Ok(Some(refused_line(alloc, *line, *why)?)),
        Stop::Fault(fault) => Ok(Some(fault_line(alloc, *fault)?)),
        Stop::Long => Ok(Some(String::from_str(alloc, "long\n")?)),
        Stop::Channel {
            channel,
            at,
            message,
            why,
        } => Ok(Some(channel_line(alloc, *channel, *at, *message, *why)?)),
        Stop::No(verdict) => Ok(Some(verdict_line(alloc, *verdict)?)),
        Stop::Input | Stop::Output | Stop::Recording | Stop::Link | Stop::Folder | Stop::Memory =>
            Ok(None),
    }
}

/// The line for a refused line of a script.
fn refused_line(alloc: Global, line: u32, why: LineWhy) -> Result<String, AllocError>
    ensures { IfOk result (λ text. string_bytes text ≡ refused_line line why) }
{
    let word = line_word(why);
    format!(in alloc; "line {line} {word}\n")
}

/// The word for what is wrong with a line of a script.
fn line_word(why: LineWhy) -> &'static str
    ensures { result.now ≡ line_word why }
{
    match why {
        LineWhy::Words => "words",
        LineWhy::Number => "number",
        LineWhy::Name => "name",
        LineWhy::Path => "path",
        LineWhy::Hex => "hex",
        LineWhy::Device => "device",
        LineWhy::Many => "many",
    }
}

/// The line for a fault of a recording.
fn fault_line(alloc: Global, fault: Fault) -> Result<String, AllocError>
    ensures { IfOk result (λ line. string_bytes line ≡ fault_line fault) }
{
    let at = fault.at;
    let word = why_word(fault.why);
    format!(in alloc; "fault at {at} {word}\n")
}

/// The word for what is wrong with a recording.
fn why_word(why: FaultWhy) -> &'static str
    ensures { result.now ≡ why_word why }
{
    match why {
        FaultWhy::Chunk(why) => chunk_word(why),
        FaultWhy::Field(why) => field_word(why),
        FaultWhy::Stray => "Stray",
    }
}

/// The line for what was found of an audit file.
fn verdict_line(alloc: Global, verdict: Verdict) -> Result<String, AllocError>
    ensures { IfOk result (λ line. string_bytes line ≡ verdict_line verdict) }
{
    match verdict {
        Verdict::Yes => String::from_str(alloc, "yes\n"),
        Verdict::Item {
            device,
            item,
            clause,
        } => format!(in alloc; "no journal {device} item {item} clause {clause}\n"),
        Verdict::Mark { device, item } => {
            format!(in alloc; "no journal {device} item {item} mark\n")
        }
        Verdict::Entry { entry, why } => {
            let word = audit_word(why);
            format!(in alloc; "no entry {entry} {word}\n")
        }
        Verdict::Open { channel } => format!(in alloc; "no channel {channel} open\n"),
    }
}

/// The word for why a completion doesn't belong.
fn audit_word(why: AuditWhy) -> &'static str
    ensures { result.now ≡ audit_word why }
{
    match why {
        AuditWhy::Stray => "stray",
        AuditWhy::Answer => "answer",
        AuditWhy::Order => "order",
        AuditWhy::Direct => "direct",
    }
}

/// The line for what is wrong with what the other side sent on a channel.
fn channel_line(
    alloc: Global,
    channel: u32,
    at: u64,
    message: u64,
    why: EndWhy,
) -> Result<String, AllocError>
    ensures { IfOk result (λ line. string_bytes line ≡ channel_line channel at message why) }
{
    let word = end_word(why);
    let place = in_message(alloc, message, why)?;
    format!(in alloc; "channel {channel} at {at} {word}{place}")
}

/// The end of such a line: a fault of the frames is in no message.
fn in_message(alloc: Global, message: u64, why: EndWhy) -> Result<String, AllocError>
    ensures { IfOk result (λ place. string_bytes place ≡ in_message message why) }
{
    match why {
        EndWhy::Chunk(_) => String::from_str(alloc, "\n"),
        _ => format!(in alloc; " in {message}\n"),
    }
}

/// The word for what is wrong with what the other side sent.
fn end_word(why: EndWhy) -> &'static str
    ensures { result.now ≡ end_word why }
{
    match why {
        EndWhy::Chunk(why) => chunk_word(why),
        EndWhy::Message(fault) => message_word(fault),
        EndWhy::Stray => "Stray",
        EndWhy::BodyBad(_) => "BodyBad",
        EndWhy::Duplicate => "Duplicate",
    }
}

/// The word for what is wrong with a message.
fn message_word(fault: EndFault) -> &'static str
    ensures { result.now ≡ message_word fault }
{
    match fault {
        EndFault::Order { .. } => "Order",
        EndFault::Grammar(bad) => field_word(bad.why),
        EndFault::Memory => "Memory",
    }
}

/// The word for what is wrong with a frame.
fn chunk_word(why: ChunkWhy) -> &'static str
    ensures { result.now ≡ chunk_word why }
{
    match why {
        ChunkWhy::Empty => "Empty",
        ChunkWhy::Size => "Size",
        ChunkWhy::Compressed => "Compressed",
        ChunkWhy::NoFirst => "NoFirst",
        ChunkWhy::SecondFirst => "SecondFirst",
        ChunkWhy::TooLong => "TooLong",
        ChunkWhy::LengthChanged => "LengthChanged",
        ChunkWhy::Overrun => "Overrun",
        ChunkWhy::LastEarly => "LastEarly",
        ChunkWhy::NotLast => "NotLast",
    }
}

/// The word for what is wrong with a field.
fn field_word(why: Why) -> &'static str
    ensures { result.now ≡ field_word why }
{
    match why {
        Why::Short => "Short",
        Why::Component => "Component",
        Why::Packet => "Packet",
        Why::Count => "Count",
        Why::Length => "Length",
        Why::Value => "Value",
    }
}
