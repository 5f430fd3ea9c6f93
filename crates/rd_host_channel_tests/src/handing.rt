//! A front that hands out rooms of one message each, and is over then.

use rd_base::Bytes;
use rd_carry::Outgoing;
use rd_host_channel::{Sent, send};
use rd_host_front::{HostFrontCall, HostFrontReply, Stop, TableTurn};
use rd_link::MemOut;
use rd_room::Room;
use rd_sleepers::Sleepers;
use rd_turn::{Caller, Object, Turn};
use std::alloc::Global;
use std::marker::PhantomData;
use std::sync::Wait;

/// So many rooms are left.
pub struct Handing<W: TableTurn> {
    alloc: Global,
    rooms: u32,
    of: PhantomData<W>,
}

impl<W: TableTurn> Object for Handing<W> {
    type Call = HostFrontCall<W>;

    type Reply = HostFrontReply<W>;

    ghost steps = { λ old call reply new. Unit {0} };

    fn call(&mut self, call: HostFrontCall<W>) -> HostFrontReply<W> {
        match call {
            HostFrontCall::Next { channel: _, room } => self.hand(room),
            _ => HostFrontReply::Over,
        }
    }
}

impl<W: TableTurn> Handing<W> {
    fn hand(&mut self, mut room: Room) -> HostFrontReply<W> {
        room.clear();
        if self.rooms == 0 {
            return HostFrontReply::Messages {
                room,
                why: Stop::Over,
            };
        }
        self.rooms -= 1;
        let Ok(message) = Vec::from_slice(self.alloc, b"rDLU") else {
            return HostFrontReply::Memory;
        };
        if room.has_place() {
            room.add(Bytes::of(message));
        }
        HostFrontReply::Messages {
            room,
            why: Stop::Full,
        }
    }
}

impl<W: TableTurn> Drop for Handing<W> {
    fn drop(self) {
        let Self {
            alloc: _,
            rooms: _,
            of: _,
        } = self;
    }
}

/// What was written of so many rooms, and whether no memory was found for a message.
pub fn written<W: TableTurn, T: Wait>(
    rt: &T,
    alloc: Global,
    rooms: u32,
    output: Outgoing<MemOut>,
) -> Option<(Outgoing<MemOut>, bool)> {
    let handing: Handing<W> = Handing {
        alloc,
        rooms,
        of: PhantomData,
    };
    let Ok(sleepers) = Sleepers::new(alloc) else {
        return None;
    };
    let Ok(room) = Room::new(alloc, 1) else {
        return None;
    };
    let Ok((turn, pass)) = Turn::new(alloc, handing) else {
        return None;
    };
    let Sent {
        front,
        output,
        starved,
    } = send(rt, &sleepers, 1, Caller::new(&turn, pass), room, output);
    let pass = front.into_pass();
    turn.close(pass);
    Some((output, starved))
}
