//! The channel that is open, and what is heard on it.

ghost use Rattle.std.specs.Prelude.{◌≡◌, ◌≤◌, ◌+◌, drop, length, Ok, Err, IfOk, IfErr, OnOk};
ghost use Rattle.rd_base.specs.Reading.{WithTail};
ghost use Rattle.rd_chunk.specs.Sizes.{max_message};
ghost use Rattle.rd_irp.specs.Completion.{completion_body};
ghost use Rattle.rd_irp.specs.Fits.{completion_head_len};
ghost use Rattle.rd_irp.specs.Measure.{tail_of};
ghost use Rattle.rd_recorded.specs.Channels.{closed, fresh_open};
ghost use Rattle.rd_recorded.specs.Entries.{open_under_way};
ghost use Rattle.rd_recorded.specs.Kept.{Hears, JoinsPart, JoinsOn, open_of};
ghost use Rattle.rd_recorded.specs.Views.{said_of};
ghost use Rattle.rd_recorded.specs.Messages.{with_completion, message_heard, heard_completion, heard_list, heard_packet, heard_removal, heard_request, asked_kind, saying};

use crate::channel::{ClientSaid, HeardChannel, HeardRequest, Saying};
use crate::message::Message;
use rd_base::{Bad, Bytes, Packet, Status, Why, packet_of};
use rd_decode::{
    EntryFault, FaultWhy, LineNo, Pair, Requests, Side, UnderWay, may_send, plain_tail,
};
use rd_devices::{read_list, read_removal};
use rd_irp::{COMPLETION_HEAD_LEN, Kind, kind_of_major, measure_body, measure_request, read_head};
use std::alloc::{AllocError, Global};

/// The channel that is open.
#[derive(Drop)]
pub struct OpenChannel<'a> {
    host: UnderWay,
    client: UnderWay,
    requests: Vec<HeardRequest<'a>>,
    sayings: Vec<Saying<'a>>,
    /// Of each pair the indices of the requests whose completions are still to come.
    awaited: Requests<usize>,
}

impl<'a> OpenChannel<'a> {
    /// A channel that begins.
    pub fn new(alloc: Global) -> OpenChannel<'a>
        ensures { open_of result ≡ fresh_open }
    {
        OpenChannel {
            host: UnderWay::new(alloc),
            client: UnderWay::new(alloc),
            requests: Vec::new(alloc),
            sayings: Vec::new(alloc),
            awaited: Requests::new(alloc),
        }
    }

    /// The channel, once nothing more is heard on it.
    pub fn close(self, ended: bool) -> HeardChannel<'a>
        ensures { result ≡ closed ended (open_of self.entry) }
    {
        let OpenChannel {
            requests,
            sayings,
            ..
        } = self;
        HeardChannel {
            requests,
            sayings,
            ended,
        }
    }

    /// What a side has under way.
    pub fn open_under_way(&self, side: Side) -> &UnderWay
        ensures { result.now ≡ open_under_way side (open_of self.now) }
    {
        match side {
            Side::Host => &self.host,
            Side::Client => &self.client,
        }
    }

    /// Takes a part of a message of a side, which has so many bytes, and returns the message where it is whole now.
    pub fn join(
        &mut self,
        alloc: Global,
        side: Side,
        whole: usize,
        part: &'a [u8],
    ) -> Result<Option<Message<'a>>, AllocError>
        requires { length (open_under_way side (open_of self.old)).joined + length part.now ≤ max_message }
        ensures { IfOk result (JoinsOn side whole part.now (open_of self.old) (open_of self.new)) }
    {
        match side {
            Side::Host => join(alloc, &mut self.host, whole, part),
            Side::Client => join(alloc, &mut self.client, whole, part),
        }
    }

    /// A message of a side, which this entry of the recording ended, is heard.
    pub fn hear(
        &mut self,
        alloc: Global,
        entry: u64,
        side: Side,
        message: Message<'a>,
    ) -> Result<(), LineNo>
        requires { length message ≤ max_message }
        ensures { Hears (message_heard entry side message.entry (open_of self.old)) (open_of self.new) result }
    {
        let packet = packet_of(message.as_slice())?;
        if !may_send(side, packet) {
            return Err(LineNo::Bad(EntryFault {
                offset: 0,
                why: FaultWhy::Field(Why::Value),
            }));
        }
        self.hear_packet(alloc, entry, packet, message)
    }

    /// A message of a packet that its side sends.
    fn hear_packet(
        &mut self,
        alloc: Global,
        entry: u64,
        packet: Packet,
        message: Message<'a>,
    ) -> Result<(), LineNo>
        requires { length message ≤ max_message }
        ensures { Hears (heard_packet packet entry message.entry (open_of self.old)) (open_of self.new) result }
    {
        match packet {
            Packet::IoRequest => self.hear_request(entry, message),
            Packet::IoCompletion => self.hear_completion(entry, message),
            Packet::DeviceListAnnounce => self.hear_list(alloc, entry, &message),
            Packet::DeviceListRemove => self.hear_removal(alloc, entry, &message),
            _ => {
                plain_tail(alloc, packet, message.as_slice())?;
                Ok(())
            }
        }
    }

    /// A request: its completion is still to come.
    fn hear_request(&mut self, entry: u64, message: Message<'a>) -> Result<(), LineNo>
        requires { length message ≤ max_message }
        ensures { Hears (heard_request entry message.entry (open_of self.old)) (open_of self.new) result }
    {
        let (head, _) = measure_request(message.as_slice())?;
        let pair = Pair {
            device: head.device,
            completion: head.completion,
        };
        self.awaited.add(pair, self.requests.len())?;
        self.requests.push(HeardRequest {
            entry,
            device: head.device,
            kind: kind_of_major(head.major),
            message,
            completion: None,
        })?;
        Ok(())
    }

    /// A completion: of the first request of its pair that has none yet, or of none.
    fn hear_completion(&mut self, entry: u64, message: Message<'a>) -> Result<(), LineNo>
        requires { length message ≤ max_message }
        ensures { Hears (heard_completion entry message.entry (open_of self.old)) (open_of self.new) result }
    {
        let head = read_head(message.as_slice())?;
        let pair = Pair {
            device: head.device,
            completion: head.completion,
        };
        let index = self.awaited.complete(pair)?;
        if let Some(index) = index {
            let kind = self.asked_kind(index);
            measure(kind, head.status, message.as_slice())?;
            let place = self.sayings.len();
            self.complete(index, place);
        }
        self.say(entry, ClientSaid::Completes(index, message))?;
        Ok(())
    }

    /// The layout of the completion of the request with an index.
    fn asked_kind(&self, index: usize) -> Kind
        ensures { result ≡ asked_kind index (open_of self.now).requests }
    {
        match self.requests.get(index) {
            Some(request) => request.kind,
            None => Kind::Buffer,
        }
    }

    /// The request with an index has its completion at this place among what the client says.
    fn complete(&mut self, index: usize, place: usize)
        ensures { open_of self.new ≡ record (open_of self.old) { requests = with_completion index place (open_of self.old).requests } }
    {
        if let Some(request) = self.requests.get_mut(index) {
            request.completion = Some(place);
        }
    }

    /// Devices are announced.
    fn hear_list(&mut self, alloc: Global, entry: u64, message: &Message<'a>) -> Result<(), LineNo>
        requires { length message.now ≤ max_message }
        ensures { Hears (heard_list entry message.now (open_of self.old)) (open_of self.new) result }
    {
        let (list, _) = read_list(alloc, message.as_slice())?;
        let mut ids = Vec::with_capacity(alloc, list.as_slice().len())?;
        for device in list.as_slice() {
            ids.push(device.id)?;
        }
        self.say(entry, ClientSaid::Announces(ids))?;
        Ok(())
    }

    /// Devices are gone.
    fn hear_removal(
        &mut self,
        alloc: Global,
        entry: u64,
        message: &Message<'a>,
    ) -> Result<(), LineNo>
        requires { length message.now ≤ max_message }
        ensures { Hears (heard_removal entry message.now (open_of self.old)) (open_of self.new) result }
    {
        let (removal, _) = read_removal(alloc, message.as_slice())?;
        self.say(entry, ClientSaid::Removes(removal))?;
        Ok(())
    }

    /// The client says something more.
    fn say(&mut self, entry: u64, said: ClientSaid<'a>) -> Result<(), AllocError>
        ensures { OnOk result (open_of self.new ≡ saying entry (said_of said.entry) (open_of self.old)) }
    {
        self.sayings.push(Saying { entry, said })?;
        Ok(())
    }
}

/// Takes a part of a message of so many bytes, and returns the message where it is whole now.
fn join<'a>(
    alloc: Global,
    under_way: &mut UnderWay,
    whole: usize,
    part: &'a [u8],
) -> Result<Option<Message<'a>>, AllocError>
    requires { length under_way.old.joined + length part.now ≤ max_message }
    ensures { IfOk result (JoinsPart whole part.now under_way.old under_way.new) }
{
    if under_way.joined().is_empty() && part.len() == whole {
        under_way.clear();
        return Ok(Some(Message::lent(part)));
    }
    if !under_way.take(whole, part)? {
        return Ok(None);
    }
    let message = Vec::from_slice(alloc, under_way.joined())?;
    under_way.clear();
    Ok(Some(Message::joined(Bytes::of(message))))
}

/// Counts the ignored bytes of a completion of this layout and status.
fn measure(kind: Kind, status: Status, message: &[u8]) -> Result<u32, Bad>
    requires { completion_head_len ≤ length message.now }
    ensures measured { IfOk result (λ count.
        WithTail count (λ tail. tail_of (completion_body kind status) (drop 16 message.now) ≡ Ok tail)) }
    ensures refused { IfErr result (λ bad. tail_of (completion_body kind status) (drop 16 message.now) ≡ Err bad) }
{
    measure_body(kind, status, &message[COMPLETION_HEAD_LEN..])
}
