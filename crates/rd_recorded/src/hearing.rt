//! The entries of a recording, as they are heard.

ghost use Rattle.std.specs.Prelude.{◌≡◌, ◌+◌, ◌<◌, ◌≤◌, ◌^◌, Some, IfOk, length};
ghost use Rattle.rd_base.specs.declared.bad.Why.TheVariants as why;
ghost use Rattle.rd_chunk.specs.Sizes.{max_message};
ghost use Rattle.rd_decode.specs.declared.fault.FaultWhy.TheVariants as fault;
ghost use Rattle.rd_decode.specs.declared.fault.LineNo.TheVariants as no;
ghost use Rattle.rd_recorded.specs.Entries.{heard_data, all_channels, ended_after, entry, frame_heard, next_heard, silence, open_under_way};
ghost use Rattle.rd_recorded.specs.Channels.{Open};
ghost use Rattle.rd_recorded.specs.Kept.{HearsEntry, hearing_of, open_of};

use crate::channel::HeardChannel;
use crate::open_channel::OpenChannel;
use rd_base::Why;
use rd_chunk::{HEAD_LEN, RowFault, fields_fault, size_fault};
use rd_decode::{EntryFault, FaultWhy, LineNo, SIZE_LEN, Side, head_of, size_of};
use std::alloc::{AllocError, Global};

/// The byte of an entry that is a frame of the host.
const HOST: u8 = 0;

/// The byte of an entry that is a frame of the client.
const CLIENT: u8 = 1;

/// The byte of an entry that says that a channel begins.
const BEGINS: u8 = 2;

/// The byte of an entry that says that a channel ended.
const ENDED: u8 = 3;

/// What was heard so far.
#[derive(Drop)]
pub struct Hearing<'a> {
    alloc: Global,
    channels: Vec<HeardChannel<'a>>,
    current: Option<OpenChannel<'a>>,
    /// How many entries there were.
    entries: u64,
}

impl<'a> Hearing<'a> {
    /// Before the first entry.
    pub fn new(alloc: Global) -> Hearing<'a>
        ensures { hearing_of result ≡ silence }
    {
        Hearing {
            alloc,
            channels: Vec::new(alloc),
            current: None,
            entries: 0,
        }
    }

    /// All channels, where nothing more comes.
    pub fn finish(self) -> Result<Vec<HeardChannel<'a>>, AllocError>
        ensures { IfOk result (λ channels. channels.items ≡ all_channels (hearing_of self.entry)) }
    {
        let Hearing {
            mut channels,
            current,
            ..
        } = self;
        if let Some(open) = current {
            channels.push(open.close(false))?;
        }
        Ok(channels)
    }

    /// Takes the entry with which bytes begin, and returns how many bytes it has; or none, where it isn't all there.
    pub fn take(&mut self, bytes: &'a [u8]) -> Result<Option<usize>, LineNo>
        requires { self.old.entries + length bytes.now < 2 ^ 62 }
        ensures { HearsEntry (next_heard (hearing_of self.old) (hearing_of self.old).current bytes.now) (hearing_of self.new) result }
    {
        let [mark, frame @ ..] = bytes else {
            return Ok(None);
        };
        let number = self.entries + 1;
        let Some(open) = &mut self.current else {
            if *mark != BEGINS {
                return Err(misplaced());
            }
            self.current = Some(OpenChannel::new(self.alloc));
            self.entries = number;
            return Ok(Some(1));
        };
        let taken = match *mark {
            ENDED => return self.end(number),
            HOST => take_frame(self.alloc, open, number, Side::Host, frame)?,
            CLIENT => take_frame(self.alloc, open, number, Side::Client, frame)?,
            _ => return Err(misplaced()),
        };
        self.entries = number;
        Ok(taken)
    }

    /// Takes the entry that says that the channel ended, which has this number.
    fn end(&mut self, number: u64) -> Result<Option<usize>, LineNo>
        ensures { (o : Open) → (hearing_of self.old).current ≡ Some o → HearsEntry (entry 1 (ended_after number o (hearing_of self.old))) (hearing_of self.new) result }
    {
        if let Some(open) = self.current.take() {
            self.channels.push(open.close(true))?;
        }
        self.entries = number;
        Ok(Some(1))
    }
}

/// Takes the frame of a side with which bytes begin, and returns how many bytes its entry has, which has this number; or none, where it isn't all there.
fn take_frame<'a>(
    alloc: Global,
    channel: &mut OpenChannel<'a>,
    number: u64,
    side: Side,
    bytes: &'a [u8],
) -> Result<Option<usize>, LineNo>
    ensures { HearsEntry (frame_heard number side (open_of channel.old) bytes.now) (open_of channel.new) result }
{
    let Some(size) = size_of(bytes) else {
        return Ok(None);
    };
    if let Some(row) = size_fault(size) {
        return Err(bad_frame(row));
    }
    let Some(head) = head_of(bytes) else {
        return Ok(None);
    };
    let under_way = channel.open_under_way(side);
    if let Some(row) = fields_fault(head, under_way.joined().len(), under_way.whole()) {
        return Err(bad_frame(row));
    }
    let len = size as usize + SIZE_LEN;
    if bytes.len() < len {
        return Ok(None);
    }
    take_data(
        alloc,
        channel,
        number,
        side,
        head.length as usize,
        &bytes[HEAD_LEN..len],
    )
}

/// Takes the data of a frame of a side, whose message has so many bytes, and returns how many bytes the frame's entry has, which has this number.
fn take_data<'a>(
    alloc: Global,
    channel: &mut OpenChannel<'a>,
    number: u64,
    side: Side,
    whole: usize,
    part: &'a [u8],
) -> Result<Option<usize>, LineNo>
    requires { length (open_under_way side (open_of channel.old)).joined + length part.now ≤ max_message }
    ensures { HearsEntry (heard_data (13 + length part.now) number side (open_of channel.old) whole part.now) (open_of channel.new) result }
{
    let size = 1 + HEAD_LEN + part.len();
    if let Some(message) = channel.join(alloc, side, whole, part)? {
        channel.hear(alloc, number, side, message)?;
    }
    Ok(Some(size))
}

/// The fault of an entry that can't stand where it stands.
fn misplaced() -> LineNo
    ensures { result ≡ no.Bad (record { offset = 0; why = fault.Field why.Value }) }
{
    LineNo::Bad(EntryFault {
        offset: 0,
        why: FaultWhy::Field(Why::Value),
    })
}

/// The fault of a frame that a row of the table of chunk faults has.
fn bad_frame(row: RowFault) -> LineNo
    ensures { result ≡ no.Bad (record { offset = 1; why = fault.Chunk row.why }) }
{
    LineNo::Bad(EntryFault {
        offset: 1,
        why: FaultWhy::Chunk(row.why),
    })
}
