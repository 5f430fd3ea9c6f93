//! The thread that writes a channel.

ghost use Rattle.std.specs.Prelude.{◌≡◌, true, false, is_none};
ghost use Rattle.rd_host_channel.specs.Calls.{ComesBack};
ghost use Rattle.rd_host_channel.specs.Sending.{Sends, TakesMore, is_over, is_over_by};

use crate::putting::{put_room, starve};
use rd_carry::Outgoing;
use rd_host_front::{HostFrontCall, HostFrontReply, Stop, TableTurn};
use rd_link::Hang;
use rd_room::Room;
use rd_sleepers::Sleepers;
use rd_turn::{Caller, Object};
use std::sync::Wait;

/// What a thread that wrote a channel gives back.
#[derive(Drop)]
pub struct Sent<'f, F: Object, K: Hang + Drop> {
    pub front: Caller<'f, F>,
    pub output: Outgoing<K>,
    /// Whether no memory was found for a message.
    pub starved: bool,
}

/// What came of a call for messages.
#[derive(Drop)]
pub(crate) enum Took {
    /// There may be more.
    More(Room),
    /// There is none now.
    Empty(Room),
    /// There will be none: the channel is over, or the room didn't come back.
    Over,
}

/// Writes a channel to its end: takes messages of the front until there are none, writes them at once, and sleeps until there may be more. After a write that failed, and where no memory is found for a
/// message, the half is hung up, and messages are taken without being written, so that nobody waits for room.
pub fn send<
    'f,
    W: TableTurn,
    F: Object<Call = HostFrontCall<W>, Reply = HostFrontReply<W>>,
    T: Wait,
    K: Hang + Drop,
>(
    rt: &T,
    sleepers: &Sleepers,
    channel: u32,
    front: Caller<'f, F>,
    room: Room,
    output: Outgoing<K>,
) -> Sent<'f, F, K>
    ensures back { ComesBack front.entry.turn.now front.entry.pass result.front.pass }
    ensures sends { Sends channel result.starved front.entry.pass result.front.pass output result.output }
{
    let mut front = front;
    let mut output = output;
    let mut starved = false;
    send_all(
        rt,
        sleepers,
        channel,
        &mut front,
        room,
        &mut output,
        &mut starved,
    );
    output.flush();
    output.hang_up();
    sleepers.ring_change(rt);
    Sent {
        front,
        output,
        starved,
    }
}

/// Writes on until the channel is over.
fn send_all<
    W: TableTurn,
    F: Object<Call = HostFrontCall<W>, Reply = HostFrontReply<W>>,
    T: Wait,
    K: Hang + Drop,
>(
    rt: &T,
    sleepers: &Sleepers,
    channel: u32,
    front: &mut Caller<'_, F>,
    room: Room,
    output: &mut Outgoing<K>,
    starved: &mut bool,
)
    ensures turn { front.new.turn.now ≡ front.old.turn.now }
    ensures takes { TakesMore channel true starved.old starved.new front.old.pass front.new.pass output.old output.new }
{
    let mut room = room;
    for _ in rt.forever() {
        let times = sleepers.requests(rt);
        let Some(back) = take_all(rt, sleepers, channel, front, room, output, starved) else {
            return;
        };
        room = back;
        output.flush();
        sleepers.ring_change(rt);
        sleepers.wait_for_request(rt, times);
    }
    unreachable!()
}

/// Takes messages until there is none now. The room comes back, unless there will be none.
fn take_all<
    W: TableTurn,
    F: Object<Call = HostFrontCall<W>, Reply = HostFrontReply<W>>,
    T: Wait,
    K: Hang + Drop,
>(
    rt: &T,
    sleepers: &Sleepers,
    channel: u32,
    front: &mut Caller<'_, F>,
    room: Room,
    output: &mut Outgoing<K>,
    starved: &mut bool,
) -> Option<Room>
    ensures turn { front.new.turn.now ≡ front.old.turn.now }
    ensures takes { TakesMore channel (is_none result) starved.old starved.new front.old.pass front.new.pass output.old output.new }
{
    let mut room = room;
    for _ in rt.forever() {
        match take(rt, sleepers, channel, front, room, output, starved) {
            Took::More(back) => room = back,
            Took::Empty(back) => return Some(back),
            Took::Over => return None,
        }
    }
    unreachable!()
}

/// Takes as many messages as there is room for.
fn take<
    W: TableTurn,
    F: Object<Call = HostFrontCall<W>, Reply = HostFrontReply<W>>,
    T: Wait,
    K: Hang + Drop,
>(
    rt: &T,
    sleepers: &Sleepers,
    channel: u32,
    front: &mut Caller<'_, F>,
    room: Room,
    output: &mut Outgoing<K>,
    starved: &mut bool,
) -> Took
    ensures turn { front.new.turn.now ≡ front.old.turn.now }
    ensures takes { TakesMore channel (is_over result) starved.old starved.new front.old.pass front.new.pass output.old output.new }
{
    match front.call(rt, HostFrontCall::Next { channel, room }) {
        HostFrontReply::Messages { room, why } => {
            let room = put_room(room, output, starved);
            sleepers.ring_change(rt);
            with_room(room, why)
        }
        _ => {
            starve(output, starved);
            Took::Over
        }
    }
}

/// What came of a call that gave the room back.
fn with_room(room: Room, why: Stop) -> Took
    ensures { is_over result ≡ is_over_by why }
{
    match why {
        Stop::Full => Took::More(room),
        Stop::Empty => Took::Empty(room),
        Stop::Over => Took::Over,
    }
}
