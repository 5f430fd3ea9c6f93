//! What a message comes to: its line, or its first fault.

ghost use Rattle.std.specs.Prelude.{◌≡◌, ◌≤◌, Ok, Err, IfOk, IfErr, length};
ghost use Rattle.std.specs.String.{string_bytes};
ghost use Rattle.rd_base.specs.Reading.{ForBad};
ghost use Rattle.rd_chunk.specs.Sizes.{max_message};
ghost use Rattle.rd_decode.specs.Kept.{PrintsLine, awaited_of};
ghost use Rattle.rd_decode.specs.Messages.{completion_line, message_line, plain_line, plain_tail, request_line};
ghost use Rattle.rd_decode.specs.Awaited.{Awaited};

use crate::awaited::{Pair, Requests};
use crate::fault::{EntryFault, FaultWhy, LineNo};
use crate::lines::{may_send, put_completion_line, put_plain_line, put_request_line};
use crate::side::Side;
use rd_base::{Packet, ReadNo, Why, packet_of};
use rd_devices::{read_list, read_removal, read_reply};
use rd_hello::read_hello;
use rd_irp::{COMPLETION_HEAD_LEN, Kind, kind_of_major, measure_body, measure_request, read_head};
use rd_printer::read_notice;
use std::alloc::Global;

/// Appends the line of a message of a side, and takes a completion together with its request.
pub fn put_message_line(
    alloc: Global,
    text: &mut String,
    requests: &mut Requests<Kind>,
    side: Side,
    message: &[u8],
) -> Result<(), LineNo>
    requires { length message.now ≤ max_message }
    ensures { PrintsLine (message_line side (awaited_of requests.old) message.now)
        (string_bytes text.old) (string_bytes text.new) (awaited_of requests.new) result }
{
    let packet = packet_of(message)?;
    if !may_send(side, packet) {
        return Err(LineNo::Bad(EntryFault {
            offset: 0,
            why: FaultWhy::Field(Why::Value),
        }));
    }
    match packet {
        Packet::IoRequest => put_request(text, requests, side, message),
        Packet::IoCompletion => put_completion(text, requests, side, message),
        _ => put_plain(alloc, text, side, packet, message),
    }
}

/// Appends the line of a request, whose completion is still to come.
fn put_request(
    text: &mut String,
    requests: &mut Requests<Kind>,
    side: Side,
    message: &[u8],
) -> Result<(), LineNo>
    requires { length message.now ≤ max_message }
    ensures { PrintsLine (request_line side (awaited_of requests.old) message.now)
        (string_bytes text.old) (string_bytes text.new) (awaited_of requests.new) result }
{
    let (head, tail) = measure_request(message)?;
    let pair = Pair {
        device: head.device,
        completion: head.completion,
    };
    requests.add(pair, kind_of_major(head.major))?;
    put_request_line(text, side, message.len(), head, tail)?;
    Ok(())
}

/// Appends the line of a completion of the first request of its pair that has none yet.
fn put_completion(
    text: &mut String,
    requests: &mut Requests<Kind>,
    side: Side,
    message: &[u8],
) -> Result<(), LineNo>
    requires { length message.now ≤ max_message }
    ensures { PrintsLine (completion_line side (awaited_of requests.old) message.now)
        (string_bytes text.old) (string_bytes text.new) (awaited_of requests.new) result }
{
    let head = read_head(message)?;
    let pair = Pair {
        device: head.device,
        completion: head.completion,
    };
    let Some(kind) = requests.complete(pair)? else {
        return Err(LineNo::Bad(EntryFault {
            offset: 1,
            why: FaultWhy::Stray,
        }));
    };
    let tail = measure_body(kind, head.status, &message[COMPLETION_HEAD_LEN..])?;
    put_completion_line(text, side, message.len(), head, tail)?;
    Ok(())
}

/// Appends the line of a message of a packet that says nothing of requests.
fn put_plain(
    alloc: Global,
    text: &mut String,
    side: Side,
    packet: Packet,
    message: &[u8],
) -> Result<(), LineNo>
    requires { length message.now ≤ max_message }
    ensures { (awaited : Awaited) → PrintsLine (plain_line side packet awaited message.now)
        (string_bytes text.old) (string_bytes text.new) awaited result }
{
    let tail = plain_tail(alloc, packet, message)?;
    put_plain_line(text, side, packet, message.len(), tail)?;
    Ok(())
}

/// Counts the ignored bytes of a message of a packet that says nothing of requests.
pub fn plain_tail(alloc: Global, packet: Packet, message: &[u8]) -> Result<u32, ReadNo>
    requires { length message.now ≤ max_message }
    ensures tail { IfOk result (λ tail. plain_tail packet message.now ≡ Ok tail) }
    ensures refused { IfErr result (ForBad (λ bad. plain_tail packet message.now ≡ Err bad)) }
{
    match packet {
        Packet::DeviceListAnnounce => Ok(read_list(alloc, message)?.1),
        Packet::DeviceListRemove => Ok(read_removal(alloc, message)?.1),
        Packet::DeviceReply => Ok(read_reply(message)?.1),
        Packet::PrinterCacheData | Packet::PrinterUsingXps => Ok(read_notice(alloc, message)?.1),
        _ => Ok(read_hello(alloc, message)?.1),
    }
}
