//! What the writer takes: messages of the core, and completions of the desks.

ghost use Rattle.std.specs.Prelude.{◌≡◌, ◌<◌, [], length, nat_lt, slice_get, Option, Some, IfSome};
ghost use Rattle.std.specs.Option.{option_map};
ghost use Rattle.rd_client.specs.Core.{Outgoing};
ghost use Rattle.rd_drive.specs.Device.{CompletesKind};
ghost use Rattle.rd_front.specs.Front.{Collects, CollectsAt, Fills, FrontStep, GivesNext, GivesCollected, GivesWritten, IsCollectReply, Sends};
ghost use Rattle.rd_front.specs.State.{DeviceDeskState};
ghost use Rattle.rd_front.specs.declared.calls.FrontCall.TheVariants as Call;

use crate::calls::{FrontReply, Rest};
use crate::front::Front;
use rd_base::Bytes;
use rd_desk::{DeskCall, DeskReply};
use rd_folder::Folder;
use rd_irp::{Head, write_completion};
use rd_room::Room;
use rd_station::Completion;
use std::alloc::Global;
use std::sync::Wait;

/// What comes where the writer asks for a message.
#[derive(Drop)]
pub enum Got {
    Message(Bytes),
    Nothing,
    /// No memory was found for a completion that was collected.
    Memory,
}

impl<'a, T: Wait, F: Folder + Drop> Front<'a, T, F> {
    /// Messages to be written on a channel, as many as there is room for.
    pub(crate) fn next(&mut self, channel: u32, place: usize, mut room: Room) -> FrontReply
        ensures { FrontStep self.old (Call.Next channel place room) result self.new }
    {
        room.clear();
        if channel != self.channel {
            return FrontReply::Messages {
                room,
                rest: Rest::Nothing,
            };
        }
        let rest = self.fill(place, &mut room);
        FrontReply::Messages { room, rest }
    }

    /// Messages come until the room is full, or there is none.
    fn fill(&mut self, place: usize, room: &mut Room) -> Rest
        requires none { room.old.messages ≡ [] }
        ensures filled { Fills room.old.places self.old place room.new.messages result self.new }
        ensures places { room.new.places ≡ room.old.places }
    {
        while room.has_place() {
            match self.give(place) {
                Got::Message(message) => room.add(message),
                Got::Nothing => return Rest::Nothing,
                Got::Memory => return Rest::Memory,
            }
        }
        Rest::More
    }

    /// One message: the core's first, or where it has none, the completion that was ready first at a place.
    fn give(&mut self, place: usize) -> Got
        ensures { GivesNext self.old place result self.new }
    {
        match self.send() {
            Some(message) => Got::Message(message),
            None => self.collect(place),
        }
    }

    /// The message of the core that is to be sent first.
    fn send(&mut self) -> Option<Bytes>
        ensures { (sent : Option Outgoing) × Sends self.old sent self.new × (result ≡ option_map (λ o. o.message) sent) }
    {
        let sent = self.client.outbox();
        self.unsent = if sent.is_some() {
            self.unsent.saturating_sub(1)
        } else {
            0
        };
        sent
    }

    /// The completion that was ready first at a place, if there is a desk.
    fn collect(&mut self, place: usize) -> Got
        ensures { Collects (nat_lt place (length self.old.desks)) self.old place result self.new }
    {
        if place < self.desks.len() {
            return self.collect_at(place);
        }
        Got::Nothing
    }

    /// The completion that was ready first at the desk at a place.
    fn collect_at(&mut self, place: usize) -> Got
        requires { place < length self.old.desks }
        ensures { CollectsAt self.old place result self.new }
    {
        let device = self.id_at(place);
        let reply = self.call_desk(place, DeskCall::Collect);
        given(self.alloc, device, reply)
    }

    /// The id of the device whose desk stands at a place.
    fn id_at(&self, place: usize) -> u32
        requires { place < length self.now.desks }
        ensures { IfSome (slice_get self.now.desks place) (λ (d : DeviceDeskState). d.id ≡ result) }
    {
        let desk = &self.desks[place];
        desk.id()
    }
}

/// What a desk handed out, as a message.
fn given(alloc: Global, device: u32, reply: DeskReply) -> Got
    requires { IsCollectReply reply }
    ensures { GivesCollected device reply result }
{
    match reply {
        DeskReply::Collected(Some(completion)) => written(alloc, device, completion),
        DeskReply::Collected(None) => Got::Nothing,
        _ => unreachable!(),
    }
}

/// A completion as a message.
fn written(alloc: Global, device: u32, completion: Completion) -> Got
    requires { CompletesKind completion.kind completion.reply }
    ensures { GivesWritten device completion result }
{
    let head = Head {
        device,
        completion: completion.completion,
        status: completion.reply.status,
    };
    match write_completion(alloc, completion.kind, &head, &completion.reply.body) {
        Ok(message) => Got::Message(message),
        Err(_) => Got::Memory,
    }
}
