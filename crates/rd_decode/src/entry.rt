//! The entries of a recording.

ghost use Rattle.std.specs.Prelude.{◌≡◌, ◌≤◌, ◌+◌, Some, length};
ghost use Rattle.std.specs.String.{string_bytes};
ghost use Rattle.rd_decode.specs.Entries.{after_data, frame_entry, next_entry, under_way};
ghost use Rattle.rd_chunk.specs.Sizes.{max_message};
ghost use Rattle.rd_decode.specs.Kept.{TakesEntry, channel_of, kept_channel};
ghost use Rattle.rd_base.specs.declared.bad.Why.TheVariants as why;
ghost use Rattle.rd_decode.specs.declared.fault.FaultWhy.TheVariants as fault;
ghost use Rattle.rd_decode.specs.declared.fault.LineNo.TheVariants as no;

use crate::channel::Channel;
use crate::fault::{EntryFault, FaultWhy, LineNo};
use crate::frame::{SIZE_LEN, head_of, size_of};
use crate::side::Side;
use rd_base::Why;
use rd_chunk::{HEAD_LEN, RowFault, fields_fault, size_fault};
use std::alloc::Global;

/// The byte of an entry that is a frame of the host.
const HOST: u8 = 0;

/// The byte of an entry that is a frame of the client.
const CLIENT: u8 = 1;

/// The byte of an entry that says that a channel begins.
const BEGINS: u8 = 2;

/// The byte of an entry that says that a channel ended.
const ENDED: u8 = 3;

/// Takes the entry with which bytes begin, and returns how many bytes it has; or none, where it isn't all there. The line of a message that
/// it ends is appended.
pub fn take_entry(
    alloc: Global,
    channel: &mut Option<Channel>,
    text: &mut String,
    bytes: &[u8],
) -> Result<Option<usize>, LineNo>
    ensures { TakesEntry (next_entry (kept_channel channel.old) bytes.now) (kept_channel channel.old) (kept_channel channel.new)
        (string_bytes text.old) (string_bytes text.new) result }
{
    let [mark, frame @ ..] = bytes else {
        return Ok(None);
    };
    let Some(open) = channel else {
        if *mark != BEGINS {
            return Err(misplaced());
        }
        *channel = Some(Channel::new(alloc));
        return Ok(Some(1));
    };
    match *mark {
        ENDED => {
            *channel = None;
            Ok(Some(1))
        }
        HOST => take_frame(alloc, open, text, Side::Host, frame),
        CLIENT => take_frame(alloc, open, text, Side::Client, frame),
        _ => Err(misplaced()),
    }
}

/// Takes the frame of a side with which bytes begin, and returns how many bytes its entry has; or none, where it isn't all there.
fn take_frame(
    alloc: Global,
    channel: &mut Channel,
    text: &mut String,
    side: Side,
    bytes: &[u8],
) -> Result<Option<usize>, LineNo>
    ensures { TakesEntry (frame_entry side (channel_of channel.old) bytes.now) (Some (channel_of channel.old)) (Some (channel_of channel.new))
        (string_bytes text.old) (string_bytes text.new) result }
{
    let Some(size) = size_of(bytes) else {
        return Ok(None);
    };
    if let Some(row) = size_fault(size) {
        return Err(bad_frame(row));
    }
    let Some(head) = head_of(bytes) else {
        return Ok(None);
    };
    let under_way = channel.under_way(side);
    if let Some(row) = fields_fault(head, under_way.joined().len(), under_way.whole()) {
        return Err(bad_frame(row));
    }
    let len = size as usize + SIZE_LEN;
    if bytes.len() < len {
        return Ok(None);
    }
    take_data(
        alloc,
        channel,
        text,
        side,
        head.length as usize,
        &bytes[HEAD_LEN..len],
    )
}

/// Takes the data of a frame of a side, whose message has so many bytes, and returns how many bytes the frame's entry has.
fn take_data(
    alloc: Global,
    channel: &mut Channel,
    text: &mut String,
    side: Side,
    whole: usize,
    part: &[u8],
) -> Result<Option<usize>, LineNo>
    requires most { length (under_way side (channel_of channel.old)).joined + length part.now ≤ max_message }
    ensures { TakesEntry (after_data (13 + length part.now) side (channel_of channel.old) whole part.now)
        (Some (channel_of channel.old)) (Some (channel_of channel.new)) (string_bytes text.old) (string_bytes text.new) result }
{
    let size = 1 + HEAD_LEN + part.len();
    if !channel.take(side, whole, part)? {
        return Ok(Some(size));
    }
    channel.end_message(alloc, side, text)?;
    Ok(Some(size))
}

/// The fault of an entry that can't stand where it stands.
fn misplaced() -> LineNo
    ensures { result ≡ no.Bad (record { offset = 0; why = fault.Field why.Value }) }
{
    LineNo::Bad(EntryFault {
        offset: 0,
        why: FaultWhy::Field(Why::Value),
    })
}

/// The fault of a frame that a row of the table of chunk faults has.
fn bad_frame(row: RowFault) -> LineNo
    ensures { result ≡ no.Bad (record { offset = 1; why = fault.Chunk row.why }) }
{
    LineNo::Bad(EntryFault {
        offset: 1,
        why: FaultWhy::Chunk(row.why),
    })
}
