//! What the writer takes: messages of the core, and requests of the table.

ghost use Rattle.std.specs.Prelude.{◌≡◌, []};
ghost use Rattle.rd_host_front.specs.HostFront.{FillsRoom, HandsOne, HostFrontStep, SendsOwn};
ghost use Rattle.rd_host_front.specs.declared.calls.HostFrontCall.TheVariants as Call;

use crate::calls::{HostFrontReply, Stop};
use crate::first_pass::TableTurn;
use crate::host_front::HostFront;
use rd_base::Bytes;
use rd_room::Room;
use std::sync::Wait;

impl<'a, W: TableTurn, T: Wait> HostFront<'a, W, T> {
    /// Messages to be written on a channel, as many as there is room for.
    pub(crate) fn next(&mut self, channel: u32, mut room: Room) -> HostFrontReply<W>
        ensures { HostFrontStep self.old (Call.Next channel room) result self.new }
    {
        room.clear();
        if !self.is_channel_on(channel) {
            return HostFrontReply::Messages {
                room,
                why: Stop::Over,
            };
        }
        let why = self.fill(&mut room);
        HostFrontReply::Messages { room, why }
    }

    /// Messages come until the room is full, or there is none.
    fn fill(&mut self, room: &mut Room) -> Stop
        requires none { room.old.messages ≡ [] }
        ensures filled { FillsRoom room.old.places self.old room.new.messages result self.new }
        ensures places { room.new.places ≡ room.old.places }
    {
        while room.has_place() {
            match self.give() {
                Some(message) => room.add(message),
                None => return Stop::Empty,
            }
        }
        Stop::Full
    }

    /// One message: the core's first, or where it has none, the table's.
    fn give(&mut self) -> Option<Bytes>
        ensures { HandsOne self.old result self.new }
    {
        match self.send() {
            Some(message) => Some(message),
            None => self.table.outbox(self.rt),
        }
    }

    /// The message of the core that is to be sent first.
    fn send(&mut self) -> Option<Bytes>
        ensures { SendsOwn self.old result self.new }
    {
        let sent = self.core.outbox();
        self.unsent = if sent.is_some() {
            self.unsent.saturating_sub(1)
        } else {
            0
        };
        sent
    }
}
