//! The calls of a host's front, and its replies.

use crate::first_pass::{FirstPass, TableTurn};
use rd_base::{Bad, Bytes};
use rd_hello::EndFault;
use rd_room::Room;

/// A call of a host's front. The calling thread makes `Begin` and `DropSent`, a channel's reader `Hear` and `DropChannel`, and its writer `Next`.
#[derive(Drop)]
pub enum HostFrontCall<W: TableTurn> {
    /// A channel of this number begins. Pass 0 of the table comes back with the reply.
    Begin { channel: u32, first: FirstPass<W> },
    /// A message of the client is heard on the channel of this number.
    Hear { channel: u32, message: Bytes },
    /// Messages to be written on the channel of this number, as many as there is room for: those of the core first, and then those of the table.
    Next { channel: u32, room: Room },
    /// The channel of this number ended by its peer, or by a fault.
    DropChannel(u32),
    /// The channel is to end by the script, once nothing is to be sent. Pass 0 of the table comes back with the reply. `anew` says that this is the first
    /// try for a line.
    DropSent { first: FirstPass<W>, anew: bool },
}

/// What a host's front replies.
#[derive(Drop)]
pub enum HostFrontReply<W: TableTurn> {
    /// Pass 0 comes back, and what came of the call.
    First {
        pass: FirstPass<W>,
        came: Came,
    },
    /// It is done.
    Done {
        /// Who waits for what it did.
        wakes: Wakes,
        /// Whether 1,024 messages may stand in the core's outbox, so that reading stops.
        full: bool,
    },
    /// The message is wrong.
    Wrong(EndFault),
    /// A completion belongs to no request.
    Stray {
        device: u32,
        id: u32,
    },
    /// The body of a completion isn't one for its request.
    BodyBad(Bad),
    /// No memory was found for all that was to be done.
    Memory,
    /// 1,024 messages may stand in the core's outbox, so nothing was done. The message comes back.
    Full(Bytes),
    /// The channel of this number has ended, or another began last, so nothing was done.
    Over,
    /// Messages to be written, in order.
    Messages {
        room: Room,
        why: Stop,
    },
}

/// What came of a call that pass 0 was handed with.
#[derive(Clone, Copy)]
pub enum Came {
    /// The channel began, or ended.
    Done,
    /// A message is to be sent, so the channel doesn't end yet.
    NotYet,
    /// The table doesn't begin the channel.
    Unfit,
    /// No memory was found for the announcement of the host.
    Memory,
    /// A channel is on, or its number isn't above those before, or pass 0 has fewer than two splits left. Nothing was done.
    Refused,
}

/// Who waits for what a call did.
#[derive(Clone, Copy)]
pub enum Wakes {
    Nobody,
    /// Who waits for the outcome of this number: it is there.
    Number(u64),
    /// All who wait: devices came or went, or the channel ended, by which requests are lost.
    Everybody,
}

/// Why a writer was given no more messages.
#[derive(Clone, Copy)]
pub enum Stop {
    /// The room is full.
    Full,
    /// There is none.
    Empty,
    /// The channel has ended, or another began last.
    Over,
}
