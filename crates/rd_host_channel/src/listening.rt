//! The thread that reads a channel.

ghost use Rattle.std.specs.Prelude.{◌≡◌, ◌∷◌, []};
ghost use Rattle.rd_base.specs.Layout.{AreBytes};
ghost use Rattle.rd_host_channel.specs.Calls.{ComesBack};
ghost use Rattle.rd_host_channel.specs.Reading.{CallsToHear, GivesMore, Listens, ReadsMore, ReadsOn, after_reply};

use crate::ending::{Ending, body_bad, ending_by, stray, wrong};
use rd_base::{Bytes, Source};
use rd_carry::Incoming;
use rd_host_front::{HostFrontCall, HostFrontReply, TableTurn, Wakes};
use rd_sleepers::Sleepers;
use rd_turn::{Caller, Object};
use std::sync::Wait;

/// What a thread that read a channel gives back.
#[derive(Drop)]
pub struct Listened<'f, F: Object, S: Source + Drop> {
    /// Why it is read no further.
    pub ending: Ending,
    pub front: Caller<'f, F>,
    pub incoming: Incoming<S>,
}

/// What became of a message that was given to be heard.
#[derive(Drop)]
pub(crate) enum Heard {
    Taken,
    /// There was no room for it, and it came back.
    Again(Bytes),
    /// It is the last one.
    Last(Ending),
}

/// Reads a channel to its end. What comes is heard, in order. At the end the front is told that the channel is over, and all are woken.
pub fn listen<
    'f,
    W: TableTurn,
    F: Object<Call = HostFrontCall<W>, Reply = HostFrontReply<W>>,
    T: Wait,
    S: Source + Drop,
>(
    rt: &T,
    sleepers: &Sleepers,
    channel: u32,
    front: Caller<'f, F>,
    incoming: Incoming<S>,
) -> Listened<'f, F, S>
    ensures back { ComesBack front.entry.turn.now front.entry.pass result.front.pass }
    ensures listens { Listens channel result.ending front.entry.pass result.front.pass incoming result.incoming }
{
    let mut front = front;
    let mut incoming = incoming;
    let ending = read_all(rt, sleepers, channel, &mut front, &mut incoming);
    front.call(rt, HostFrontCall::DropChannel(channel));
    wake_all(rt, sleepers);
    Listened {
        ending,
        front,
        incoming,
    }
}

/// Reads on until the channel is read no further.
fn read_all<
    W: TableTurn,
    F: Object<Call = HostFrontCall<W>, Reply = HostFrontReply<W>>,
    T: Wait,
    S: Source + Drop,
>(
    rt: &T,
    sleepers: &Sleepers,
    channel: u32,
    front: &mut Caller<'_, F>,
    incoming: &mut Incoming<S>,
) -> Ending
    ensures turn { front.new.turn.now ≡ front.old.turn.now }
    ensures reads { ReadsMore channel (Some result) front.old.pass front.new.pass incoming.old incoming.new }
{
    for _ in rt.forever() {
        if let Some(ending) = step(rt, sleepers, channel, front, incoming) {
            return ending;
        }
    }
    unreachable!()
}

/// Hears the next message, or where nothing that was read is left, reads.
fn step<
    W: TableTurn,
    F: Object<Call = HostFrontCall<W>, Reply = HostFrontReply<W>>,
    T: Wait,
    S: Source + Drop,
>(
    rt: &T,
    sleepers: &Sleepers,
    channel: u32,
    front: &mut Caller<'_, F>,
    incoming: &mut Incoming<S>,
) -> Option<Ending>
    ensures turn { front.new.turn.now ≡ front.old.turn.now }
    ensures reads { ReadsMore channel result front.old.pass front.new.pass incoming.old incoming.new }
{
    match incoming.message() {
        Ok(Some(message)) => {
            let heard = incoming.heard();
            hear(rt, sleepers, channel, front, message, heard)
        }
        Ok(None) => read_on(incoming),
        Err(no) => Some(ending_by(no)),
    }
}

/// Reads once.
fn read_on<S: Source + Drop>(incoming: &mut Incoming<S>) -> Option<Ending>
    requires { incoming.old.unhandled ≡ [] }
    ensures { ReadsOn result incoming.old incoming.new }
{
    match incoming.read() {
        Ok(true) => None,
        Ok(false) => Some(Ending::Input),
        Err(no) => Some(ending_by(no)),
    }
}

/// Gives a message to be heard, the last of so many, until there is room for it.
fn hear<W: TableTurn, F: Object<Call = HostFrontCall<W>, Reply = HostFrontReply<W>>, T: Wait>(
    rt: &T,
    sleepers: &Sleepers,
    channel: u32,
    front: &mut Caller<'_, F>,
    message: Bytes,
    heard: u64,
) -> Option<Ending>
    ensures turn { front.new.turn.now ≡ front.old.turn.now }
    ensures gives { GivesMore channel (message ∷ []) heard result front.old.pass front.new.pass }
{
    let mut message = message;
    for _ in rt.forever() {
        match hear_once(rt, sleepers, channel, front, message, heard) {
            Heard::Taken => return None,
            Heard::Again(back) => message = back,
            Heard::Last(ending) => return Some(ending),
        }
    }
    unreachable!()
}

/// Gives a message to be heard. Where there is no room for it, sleeps until there may be.
fn hear_once<W: TableTurn, F: Object<Call = HostFrontCall<W>, Reply = HostFrontReply<W>>, T: Wait>(
    rt: &T,
    sleepers: &Sleepers,
    channel: u32,
    front: &mut Caller<'_, F>,
    message: Bytes,
    heard: u64,
) -> Heard
    ensures turn { front.new.turn.now ≡ front.old.turn.now }
    ensures calls { CallsToHear channel message heard result front.old.pass front.new.pass }
{
    let times = sleepers.changes(rt);
    are_bytes(message.as_slice());
    let reply = front.call(rt, HostFrontCall::Hear { channel, message });
    follow(rt, sleepers, times, reply, heard)
}

/// What follows from the front's reply to the last of so many messages. `times` is how often it was rung for a change before the call.
fn follow<W: TableTurn, T: Wait>(
    rt: &T,
    sleepers: &Sleepers,
    times: u64,
    reply: HostFrontReply<W>,
    heard: u64,
) -> Heard
    ensures { result ≡ after_reply reply heard }
{
    match reply {
        HostFrontReply::Done { wakes, full: _ } => {
            wake(rt, sleepers, wakes);
            Heard::Taken
        }
        HostFrontReply::Full(message) => {
            sleepers.ring_request(rt);
            sleepers.wait_for_change(rt, times);
            Heard::Again(message)
        }
        HostFrontReply::Wrong(fault) => Heard::Last(wrong(fault, heard)),
        HostFrontReply::Stray { device: _, id: _ } => Heard::Last(stray(heard)),
        HostFrontReply::BodyBad(bad) => Heard::Last(body_bad(bad, heard)),
        HostFrontReply::Over => Heard::Last(Ending::Over),
        HostFrontReply::Memory => Heard::Last(Ending::Memory),
        HostFrontReply::First { .. } => Heard::Last(Ending::Memory),
        HostFrontReply::Messages { .. } => Heard::Last(Ending::Memory),
    }
}

/// Wakes whoever waits for what a message did.
fn wake<T: Wait>(rt: &T, sleepers: &Sleepers, wakes: Wakes) {
    match wakes {
        // The core may have something to send.
        Wakes::Nobody => sleepers.ring_request(rt),
        Wakes::Number(number) => sleepers.ring_outcome(rt, number),
        Wakes::Everybody => wake_all(rt, sleepers),
    }
}

/// Wakes all who sleep.
fn wake_all<T: Wait>(rt: &T, sleepers: &Sleepers) {
    sleepers.ring_outcomes(rt);
    sleepers.ring_change(rt);
    sleepers.ring_request(rt);
}

/// The elements of a slice of bytes are bytes.
fn are_bytes(bytes: &[u8])
    ensures { AreBytes bytes.now }
{}
