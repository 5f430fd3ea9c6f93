//! The writer's role: whoever has its turn takes messages from the front, and writes them.

ghost use Rattle.std.specs.Prelude.{◌≡◌, ◌<◌, ◌⊎◌, ◌++◌, ◌∷◌, [], None, false, true, not};
ghost use Rattle.rd_chunk.specs.Carrier.{IsMessage};
ghost use Rattle.rd_front.specs.Calls.{RanOut};
ghost use Rattle.rd_front.specs.declared.calls.FrontCall.TheVariants as Front;
ghost use Rattle.rd_front.specs.declared.calls.FrontReply.TheVariants as Reply;
ghost use Rattle.rd_turn.specs.History.{calls_of, entry};
ghost use Rattle.rd_workers.specs.Passes.{caller_id};
ghost use Rattle.rd_workers.specs.Writing.{PutsTo, TakesMore, WriterStep};
ghost use Rattle.rd_workers.specs.declared.writer.WriterCall.TheVariants as Call;

use rd_base::Bytes;
use rd_carry::Outgoing;
use rd_chunk::MAX_MESSAGE;
use rd_front::{FrontCall, FrontReply, Rest};
use rd_link::Hang;
use rd_room::Room;
use rd_turn::{Caller, Object};
use std::marker::Model;
use std::sync::Wait;

/// A call of the writer.
#[derive(Drop)]
pub(crate) enum WriterCall<K: Hang> {
    /// The channel of this number begins, of which this is the half that is written to.
    Begin { channel: u32, output: Outgoing<K> },
    /// What is to be written: messages of the core, and then completions of the desk at this place. It is gathered, and all that was gathered is written if
    /// this is the last place.
    Write { place: usize, last: bool },
    /// The channel is over: what was gathered is written, and the half comes back.
    Finish,
}

/// What a writer replies.
#[derive(Drop)]
pub(crate) enum WriterReply<K: Hang> {
    /// Whether more can be written: a channel is on, no write failed, and memory was found for each message.
    Done {
        going: bool,
    },
    /// A channel is on, or one of a number that isn't below began before, so this half isn't taken.
    Refused(Outgoing<K>),
    /// The half, if a channel was on, and whether no memory was found for a message.
    Finished {
        output: Option<Outgoing<K>>,
        starved: bool,
    },
}

/// The pass of the front that takes messages, and the half of the channel that is on. Contracts see a `WriterState`.
pub(crate) struct Writer<
    'f,
    F: Object<Call = FrontCall, Reply = FrontReply>,
    T: Wait,
    K: Hang + Drop,
> {
    rt: &'f T,
    front: Caller<'f, F>,
    /// Room for messages, but while the front fills it.
    room: Option<Room>,
    /// The channel that began last.
    channel: u32,
    output: Option<Outgoing<K>>,
    /// Whether no memory was found for a message of the channel.
    starved: bool,
}

impl<'f, F: Object<Call = FrontCall, Reply = FrontReply>, T: Wait, K: Hang + Drop> Model
    for Writer<'f, F, T, K> {
    ghost use Rattle.rd_turn.specs.History.{calls_of};
    ghost use Rattle.rd_workers.specs.Passes.{WriterState, caller_id};

    ghost Value = { WriterState F };

    ghost view = { λ w. record {
      front = caller_id w.front.turn.now w.front.pass;
      own = calls_of w.front.pass.number w.front.pass.seen;
      channel = w.channel;
      half = w.output;
      starved = w.starved;
    } };
}

impl<'f, F: Object<Call = FrontCall, Reply = FrontReply>, T: Wait, K: Hang + Drop> Object
    for Writer<'f, F, T, K> {
    ghost use Rattle.rd_workers.specs.Writing.{WriterStep};

    type Call = WriterCall<K>;

    type Reply = WriterReply<K>;

    ghost steps = { WriterStep };

    fn call(&mut self, call: WriterCall<K>) -> WriterReply<K> {
        match call {
            WriterCall::Begin { channel, output } => self.begin(channel, output),
            WriterCall::Write { place, last } => self.write(place, last),
            WriterCall::Finish => self.finish(),
        }
    }
}

impl<'f, F: Object<Call = FrontCall, Reply = FrontReply>, T: Wait, K: Hang + Drop> Writer<
    'f,
    F,
    T,
    K,
> {
    /// The writer of a client, before its first channel.
    pub(crate) fn new(rt: &'f T, front: Caller<'f, F>, room: Room) -> Self
        ensures { result ≡ record {
          front = caller_id front.entry.turn.now front.entry.pass;
          own = calls_of front.entry.pass.number front.entry.pass.seen;
          channel = 0;
          half = None;
          starved = false;
        } }
    {
        Writer {
            rt,
            front,
            room: Some(room),
            channel: 0,
            output: None,
            starved: false,
        }
    }

    /// The front's pass, so that it can be joined.
    pub(crate) fn into_front(self) -> Caller<'f, F>
        ensures same { caller_id result.turn.now result.pass ≡ self.entry.front }
        ensures own { calls_of result.pass.number result.pass.seen ≡ self.entry.own }
    {
        let Self {
            rt: _,
            front,
            room: _,
            channel: _,
            output: _,
            starved: _,
        } = self;
        front
    }

    fn begin(&mut self, channel: u32, output: Outgoing<K>) -> WriterReply<K>
        ensures { WriterStep self.old (Call.Begin channel output) result self.new }
    {
        if self.output.is_some() || channel <= self.channel {
            return WriterReply::Refused(output);
        }
        self.channel = channel;
        self.output = Some(output);
        self.starved = false;
        WriterReply::Done { going: true }
    }

    fn write(&mut self, place: usize, last: bool) -> WriterReply<K>
        ensures { WriterStep self.old (Call.Write place last) result self.new }
    {
        let Some(mut output) = self.output.take() else {
            return WriterReply::Done { going: false };
        };
        self.gather(place, &mut output);
        flush_if(last, &mut output);
        let going = self.goes_on(&output);
        self.output = Some(output);
        WriterReply::Done { going }
    }

    /// Whether more can be written.
    fn goes_on(&self, output: &Outgoing<K>) -> bool
        ensures { result ≡ false → (0 < output.now.faults) ⊎ (self.now.starved ≡ true) }
    {
        !self.starved && !output.failed()
    }

    /// Takes messages until there is none.
    fn gather(&mut self, place: usize, output: &mut Outgoing<K>)
        ensures { TakesMore self.old output.old output.new self.new }
    {
        for _ in self.rt.forever() {
            if !self.gather_more(place, output) {
                break;
            }
        }
    }

    /// Takes messages once more, where more can be written. Whether there may be more.
    fn gather_more(&mut self, place: usize, output: &mut Outgoing<K>) -> bool
        ensures { TakesMore self.old output.old output.new self.new }
    {
        if self.starved || output.failed() {
            return false;
        }
        self.gather_some(place, output)
    }

    /// Takes as many messages as there is room for. Whether there may be more.
    fn gather_some(&mut self, place: usize, output: &mut Outgoing<K>) -> bool
        requires { self.old.starved ≡ false }
        ensures { TakesMore self.old output.old output.new self.new }
    {
        let Some(room) = self.room.take() else {
            return self.starve(output);
        };
        match self.ask(place, room) {
            FrontReply::Messages { room, rest } => self.put_room(room, rest, output),
            _ => self.starve(output),
        }
    }

    /// Asks the front for messages of the channel.
    fn ask(&mut self, place: usize, room: Room) -> FrontReply
        ensures { self.new ≡ record self.old { own = self.old.own ++ entry self.old.front.number (Front.Next self.old.channel place room) result ∷ [] } }
    {
        let channel = self.channel;
        self.front.call(
            self.rt,
            FrontCall::Next {
                channel,
                place,
                room,
            },
        )
    }

    /// Puts the messages of a room, and keeps it. Whether there may be more.
    fn put_room(&mut self, room: Room, rest: Rest, output: &mut Outgoing<K>) -> bool
        requires { self.old.starved ≡ false }
        ensures same { self.new ≡ record self.old { starved = self.new.starved } }
        ensures put { PutsTo self.new.starved room.messages output.old output.new }
        ensures found { self.new.starved ≡ false → ¬ (RanOut (Reply.Messages room rest)) }
    {
        let (room, starved) = put_all(room, output);
        self.room = Some(room);
        if starved || matches!(rest, Rest::Memory) {
            return self.starve(output);
        }
        matches!(rest, Rest::More)
    }

    /// No memory was found for a message, so nothing more is written on the channel.
    fn starve(&mut self, output: &mut Outgoing<K>) -> bool
        ensures same { self.new ≡ record self.old { starved = true } }
        ensures put { PutsTo false [] output.old output.new }
        ensures none { result ≡ false }
    {
        self.starved = true;
        output.flush();
        output.hang_up();
        false
    }

    fn finish(&mut self) -> WriterReply<K>
        ensures { WriterStep self.old Call.Finish result self.new }
    {
        let starved = self.starved;
        let Some(mut output) = self.output.take() else {
            return WriterReply::Finished {
                output: None,
                starved,
            };
        };
        output.flush();
        output.hang_up();
        WriterReply::Finished {
            output: Some(output),
            starved,
        }
    }
}

/// Puts messages to those that wait to be written, which are written where they are many; up to one for which no memory was found, if there is one.
fn put_all<K: Hang>(room: Room, output: &mut Outgoing<K>) -> (Room, bool)
    ensures { PutsTo result.1 room.messages output.old output.new }
{
    let mut room = room;
    while let Some(message) = room.pop() {
        if !put(output, &message) {
            return (room, true);
        }
    }
    (room, false)
}

/// Puts a message to those that wait. Whether memory was found for it; a message that is longer than one may be is taken for want of memory.
fn put<K: Hang>(output: &mut Outgoing<K>, message: &Bytes) -> bool
    ensures { PutsTo (not result) (message.now ∷ []) output.old output.new }
{
    let message = message.as_slice();
    if message.is_empty() || message.len() > MAX_MESSAGE {
        return false;
    }
    flush_if(output.is_full(), output);
    put_one(output, message)
}

/// Puts a message that may be one.
fn put_one<K: Hang>(output: &mut Outgoing<K>, message: &[u8]) -> bool
    requires { IsMessage message.now }
    ensures { PutsTo (not result) (message.now ∷ []) output.old output.new }
{
    output.put(message).is_ok()
}

/// Writes all that waits, where that is wanted.
fn flush_if<K: Hang>(is_wanted: bool, output: &mut Outgoing<K>)
    ensures { PutsTo false [] output.old output.new }
{
    if is_wanted {
        output.flush();
    }
}

impl<'f, F: Object<Call = FrontCall, Reply = FrontReply>, T: Wait, K: Hang + Drop> Drop
    for Writer<'f, F, T, K> {
    fn drop(self) {
        let Self {
            rt: _,
            front: _,
            room: _,
            channel: _,
            output: _,
            starved: _,
        } = self;
    }
}
