//! One channel after the other.

ghost use Rattle.std.specs.Prelude.{◌≡◌, ◌≤◌, ◌+◌, IfOk, IsTrue};
ghost use Rattle.rd_host_front.specs.declared.calls.Came.TheVariants as Comes;
ghost use Rattle.rd_host_channel.specs.Calls.{ComesBack};
ghost use Rattle.rd_host_channel.specs.Reading.{Listens};
ghost use Rattle.rd_host_channel.specs.Sending.{Sends};
ghost use Rattle.rd_turn.specs.Pass.{Belongs, max_made};
ghost use Rattle.rd_host_session.specs.Channels.{ServesAll, ServesBegun, ServesNext, end_by_channel, linked_told, next_of, stands};
ghost use Rattle.rd_host_player.specs.Play.{Begins, Plays, PlaysOut};

use rd_base::Source;
use rd_carry::{Ended, Incoming, Outgoing};
use rd_host_channel::{Ending, Listened, Sent, listen, send};
use rd_host_front::{Came, HostFrontCall, HostFrontReply, TableTurn};
use rd_host_player::{HandsBack, Player, Stop};
use rd_link::{Hang, Linker};
use rd_room::Room;
use rd_sleepers::Sleepers;
use rd_turn::{Caller, Object, Pass, Turn};
use std::alloc::{AllocError, Global};
use std::marker::PhantomData;
use std::snapshot::Snapshot;
use std::sync::Wait;
use std::thread;
use std::thread::{Promise, PromisedHandle, Scope, SpawnError, Threads};

/// How many bytes one read asks for.
const READ_LEN: usize = 65_536;

/// How many messages the writer takes from the front in one call.
const ROOM: usize = 64;

/// What became of the next channel.
#[derive(Clone, Copy)]
pub(crate) enum Next {
    /// It couldn't be had.
    None,
    /// It was served, and a line begins the next one.
    Goes,
    /// It was served, and the script is at its end.
    Last,
    /// Its end ends the session.
    Ends(Ended),
}

/// Plays the script on one channel after the other, until it is at its end, or something else ends the session. Gives what ended it, but for the script's end and the linker.
pub(crate) fn serve_all<
    'f,
    's,
    W: TableTurn + Send + 'f,
    F: HandsBack<W> + Send + 'f,
    L: Linker,
    T: Threads + Wait + Sync,
>(
    alloc: Global,
    devices: u32,
    linker: &mut L,
    player: Player<'f, 's, W, F, T>,
) -> Result<(Option<Ended>, Player<'f, 's, W, F, T>), AllocError>
    ensures { IfOk result (λ r. ServesAll W.turn devices r.0 (stands player.entry (linked_told (L.linked linker.old) (L.failures linker.old))) (stands r.1 (linked_told (L.linked linker.new) (L.failures linker.new)))) }
{
    let rt = player.rt();
    let mut player = player;
    let mut channel = 0u32;
    for _ in rt.forever() {
        let Some(next) = channel.checked_add(1) else {
            return Err(AllocError);
        };
        let (came, back) = serve_next(alloc, next, devices, linker, player)?;
        player = back;
        match came {
            Next::Goes => channel = next,
            Next::None => return play_out(None, player),
            Next::Last => return Ok((None, player)),
            Next::Ends(ended) => return play_out(Some(ended), player),
        }
    }
    unreachable!()
}

/// What is left of the script is issued.
fn play_out<'f, 's, W: TableTurn + 'f, F: HandsBack<W> + 'f, T: Threads + Wait + Sync>(
    ended: Option<Ended>,
    mut player: Player<'f, 's, W, F, T>,
) -> Result<(Option<Ended>, Player<'f, 's, W, F, T>), AllocError>
    ensures { IfOk result (λ r. (r.0 ≡ ended) × PlaysOut player.entry r.1) }
{
    player.play_out()?;
    Ok((ended, player))
}

/// Serves the next channel, if it can be had.
fn serve_next<
    'f,
    's,
    W: TableTurn + Send + 'f,
    F: HandsBack<W> + Send + 'f,
    L: Linker,
    T: Threads + Wait + Sync,
>(
    alloc: Global,
    channel: u32,
    devices: u32,
    linker: &mut L,
    player: Player<'f, 's, W, F, T>,
) -> Result<(Next, Player<'f, 's, W, F, T>), AllocError>
    ensures { IfOk result (λ r. ServesNext W.turn devices channel r.0 (stands player.entry (linked_told (L.linked linker.old) (L.failures linker.old))) (stands r.1 (linked_told (L.linked linker.new) (L.failures linker.new)))) }
{
    let mut player = player;
    let buffer = vec![in alloc; 0; READ_LEN]?;
    let room = Room::new(alloc, ROOM)?;
    let Ok((input, output)) = linker.connect() else {
        return Ok((Next::None, player));
    };
    if !begins(&mut player, channel) {
        linker.settle(input, output);
        return Err(AllocError);
    }
    let incoming = Incoming::new(alloc, input, buffer);
    let outgoing = Outgoing::new(output, Vec::new(alloc));
    let (halves, stop, player) = serve(channel, devices, incoming, outgoing, room, player);
    let Halves {
        incoming,
        ending,
        outgoing,
        starved,
    } = halves;
    let (input, _buffer) = incoming.into_parts();
    let (output, _frames) = outgoing.into_parts();
    linker.settle(input, output);
    Ok((
        next_of(end_by_channel(channel, ending, starved), stop?),
        player,
    ))
}

/// A channel begins, if it can and its threads can have passes of the front.
fn begins<'f, 's, W: TableTurn + 'f, F: HandsBack<W> + 'f, T: Threads + Wait + Sync>(
    player: &mut Player<'f, 's, W, F, T>,
    channel: u32,
) -> bool
    ensures began { IsTrue result → Begins channel Comes.Done player.old player.new }
    ensures room { IsTrue result → player.new.front.made + 2 ≤ max_made }
{
    match player.begin(channel) {
        Came::Done => player.may_split(),
        _ => false,
    }
}

/// The halves of a channel as they were left, why it was read no further, and whether no memory was found for a message that was to be written.
#[derive(Drop)]
struct Halves<S: Source + Drop, K: Hang + Drop> {
    incoming: Incoming<S>,
    ending: Ending,
    outgoing: Outgoing<K>,
    starved: bool,
}

/// Serves a channel that began: this thread plays the script, one beside it writes the channel, and another one reads it.
fn serve<
    'f,
    's,
    W: TableTurn + Send + 'f,
    F: HandsBack<W> + Send + 'f,
    S: Source + Send + Drop,
    K: Hang + Send + Drop,
    T: Threads + Wait + Sync,
>(
    channel: u32,
    devices: u32,
    incoming: Incoming<S>,
    outgoing: Outgoing<K>,
    room: Room,
    player: Player<'f, 's, W, F, T>,
) -> (
    Halves<S, K>,
    Result<Stop, AllocError>,
    Player<'f, 's, W, F, T>,
)
    requires { player.front.made + 2 ≤ max_made }
    ensures { IfOk result.1 (λ why. ServesBegun W.turn devices channel why result.0.ending result.0.starved incoming outgoing player.entry result.0.incoming result.0.outgoing result.2) }
{
    let mut player = player;
    let rt = player.rt();
    let sleepers = player.sleepers();
    let reader = player.split();
    let front = reader.turn;
    let writer = player.split();
    let passes = Passes {
        front,
        reader: reader.into_pass(),
        writer: writer.into_pass(),
    };
    let ((stop, player), read, written) = serve_beside(
        rt, sleepers, channel, devices, player, passes, incoming, outgoing, room,
    );
    let ReadHalf {
        pass: reader,
        ending,
        incoming,
    } = read;
    let WrittenHalf {
        pass: writer,
        outgoing,
        starved,
    } = written;
    let halves = Halves {
        incoming,
        ending,
        outgoing,
        starved,
    };
    let mut player = player;
    match stop {
        Ok(why) => {
            player.join(Caller::new(front, reader));
            player.join(Caller::new(front, writer));
            (halves, Ok(why), player)
        }
        Err(error) => (halves, Err(error), player),
    }
}

/// The front, with the passes of the two threads that serve a channel.
struct Passes<'t, F: Object> {
    front: &'t Turn<F>,
    reader: Pass<F>,
    writer: Pass<F>,
    ghost own: { Belongs front.now reader × Belongs front.now writer },
}

impl<'t, F: Object> Passes<'t, F> {
    /// The front for each of the two: the reader's, and the writer's.
    fn into_callers(self) -> (Caller<'t, F>, Caller<'t, F>)
        ensures reader { (result.0.turn.now ≡ self.entry.front.now) × (result.0.pass ≡ self.entry.reader) }
        ensures writer { (result.1.turn.now ≡ self.entry.front.now) × (result.1.pass ≡ self.entry.writer) }
    {
        let Self {
            front,
            reader,
            writer,
        } = self;
        (Caller::new(front, reader), Caller::new(front, writer))
    }
}

impl<'t, F: Object> Drop for Passes<'t, F> {
    fn drop(self) {
        let Self {
            front: _,
            reader: _,
            writer: _,
        } = self;
    }
}

/// What the thread that reads a channel gives back.
#[derive(Drop)]
struct ReadHalf<F: Object, S: Source + Drop> {
    pass: Pass<F>,
    /// Why it is read no further.
    ending: Ending,
    incoming: Incoming<S>,
}

/// What it promises of that: it read a channel, by the pass and from the half that it was given, and the pass comes back to its turn, whichever that is.
struct Reading<W: TableTurn, F: Object, S: Source + Drop> {
    channel: u32,
    pass: Snapshot<Pass<F>>,
    incoming: Snapshot<Incoming<S>>,
    of: PhantomData<W>,
}

impl<
    W: TableTurn,
    F: Object<Call = HostFrontCall<W>, Reply = HostFrontReply<W>>,
    S: Source + Drop,
> Promise<ReadHalf<F, S>> for Reading<W, F, S> {
    ghost kept_by = { λ p r. ((turn : _) → Belongs turn p.pass.value → Belongs turn r.pass × ComesBack turn p.pass.value r.pass) × Listens p.channel r.ending p.pass.value r.pass p.incoming.value r.incoming };
}

impl<W: TableTurn, F: Object, S: Source + Drop> Drop for Reading<W, F, S> {
    fn drop(self) {
        let Self {
            channel: _,
            pass: _,
            incoming: _,
            of: _,
        } = self;
    }
}

/// What the thread that writes a channel gives back.
#[derive(Drop)]
struct WrittenHalf<F: Object, K: Hang + Drop> {
    pass: Pass<F>,
    outgoing: Outgoing<K>,
    /// Whether no memory was found for a message.
    starved: bool,
}

/// What it promises of that: it wrote a channel, by the pass and to the half that it was given, and the pass comes back to its turn, whichever that is.
struct Writing<W: TableTurn, F: Object, K: Hang + Drop> {
    channel: u32,
    pass: Snapshot<Pass<F>>,
    outgoing: Snapshot<Outgoing<K>>,
    of: PhantomData<W>,
}

impl<
    W: TableTurn,
    F: Object<Call = HostFrontCall<W>, Reply = HostFrontReply<W>>,
    K: Hang + Drop,
> Promise<WrittenHalf<F, K>> for Writing<W, F, K> {
    ghost kept_by = { λ p r. ((turn : _) → Belongs turn p.pass.value → Belongs turn r.pass × ComesBack turn p.pass.value r.pass) × Sends p.channel r.starved p.pass.value r.pass p.outgoing.value r.outgoing };
}

impl<W: TableTurn, F: Object, K: Hang + Drop> Drop for Writing<W, F, K> {
    fn drop(self) {
        let Self {
            channel: _,
            pass: _,
            outgoing: _,
            of: _,
        } = self;
    }
}

/// This thread plays the script, and beside it a channel is written and read, each by a thread of its own. Where one of the two can't be started the channel is over, and so is the session.
fn serve_beside<
    'f,
    's,
    't,
    W: TableTurn + Send + 'f,
    F: HandsBack<W> + Send + 'f,
    S: Source + Send + Drop,
    K: Hang + Send + Drop,
    T: Threads + Wait + Sync,
>(
    rt: &T,
    sleepers: &Sleepers,
    channel: u32,
    devices: u32,
    player: Player<'f, 's, W, F, T>,
    passes: Passes<'t, F>,
    incoming: Incoming<S>,
    outgoing: Outgoing<K>,
    room: Room,
) -> (
    (Result<Stop, AllocError>, Player<'f, 's, W, F, T>),
    ReadHalf<F, S>,
    WrittenHalf<F, K>,
)
    ensures plays { IfOk result.0.0 (λ why. Plays W.turn devices why player.entry result.0.1) }
    ensures reader { Belongs passes.entry.front.now result.1.pass × ComesBack passes.entry.front.now passes.entry.reader result.1.pass }
    ensures writer { Belongs passes.entry.front.now result.2.pass × ComesBack passes.entry.front.now passes.entry.writer result.2.pass }
    ensures listens { Listens channel result.1.ending passes.entry.reader result.1.pass incoming result.1.incoming }
    ensures sends { Sends channel result.2.starved passes.entry.writer result.2.pass outgoing result.2.outgoing }
{
    thread::scope(
        thread::scope_env(),
        rt,
        |scope| -> (
            (Result<Stop, AllocError>, Player<W, F, T>),
            ReadHalf<F, S>,
            WrittenHalf<F, K>,
        )
            ensures plays { IfOk result.0.0 (λ why. Plays W.turn devices why player.entry result.0.1) }
            ensures reader { Belongs passes.entry.front.now result.1.pass × ComesBack passes.entry.front.now passes.entry.reader result.1.pass }
            ensures writer { Belongs passes.entry.front.now result.2.pass × ComesBack passes.entry.front.now passes.entry.writer result.2.pass }
            ensures listens { Listens channel result.1.ending passes.entry.reader result.1.pass incoming result.1.incoming }
            ensures sends { Sends channel result.2.starved passes.entry.writer result.2.pass outgoing result.2.outgoing }
        {
            write_beside(
                scope, rt, sleepers, channel, devices, player, passes, incoming, outgoing, room,
            )
        },
    )
}

/// Starts the thread that writes, and goes on beside it. Where it can't be started the channel is over before anything is written or read, and both are done here: each finds that at once.
fn write_beside<
    'x,
    'e: 'x,
    'f,
    's,
    't: 'x,
    W: TableTurn + Send + 'f + 'x,
    F: HandsBack<W> + Send + 'f + 't,
    S: Source + Send + Drop + 'x,
    K: Hang + Send + Drop + 'x,
    T: Threads + Wait + Sync + 'x,
>(
    scope: &Scope<'x, &'e ()>,
    rt: &'x T,
    sleepers: &'x Sleepers,
    channel: u32,
    devices: u32,
    player: Player<'f, 's, W, F, T>,
    passes: Passes<'t, F>,
    incoming: Incoming<S>,
    outgoing: Outgoing<K>,
    room: Room,
) -> (
    (Result<Stop, AllocError>, Player<'f, 's, W, F, T>),
    ReadHalf<F, S>,
    WrittenHalf<F, K>,
)
    ensures plays { IfOk result.0.0 (λ why. Plays W.turn devices why player.entry result.0.1) }
    ensures reader { Belongs passes.entry.front.now result.1.pass × ComesBack passes.entry.front.now passes.entry.reader result.1.pass }
    ensures writer { Belongs passes.entry.front.now result.2.pass × ComesBack passes.entry.front.now passes.entry.writer result.2.pass }
    ensures listens { Listens channel result.1.ending passes.entry.reader result.1.pass incoming result.1.incoming }
    ensures sends { Sends channel result.2.starved passes.entry.writer result.2.pass outgoing result.2.outgoing }
{
    let mut player = player;
    let (reader, writer) = passes.into_callers();
    let promise = Writing {
        channel,
        pass: Snapshot::of(&writer.pass),
        outgoing: Snapshot::of(&outgoing),
        of: PhantomData,
    };
    match scope.spawn_with(
        promise,
        move || -> WrittenHalf<F, K>
            ensures back { (turn : _) → Belongs turn writer.entry.pass → Belongs turn result.pass × ComesBack turn writer.entry.pass result.pass }
            ensures sends { Sends channel result.starved writer.entry.pass result.pass outgoing result.outgoing }
        { write_half(rt, sleepers, channel, writer, room, outgoing) },
    ) {
        Ok(writing) => read_beside(
            scope, rt, sleepers, channel, devices, player, reader, incoming, writing,
        ),
        Err(refused) => {
            let SpawnError { value: write } = refused;
            player.give_up(channel);
            let written = write();
            let read = read_half(rt, sleepers, channel, reader, incoming);
            ((Err(AllocError), player), read, written)
        }
    }
}

/// Starts the thread that reads, and plays the script beside it and the one that writes. Where it can't be started the channel is over: the one that writes finds that and hangs up, so what is read here comes to its end.
fn read_beside<
    'x,
    'e: 'x,
    'f,
    's,
    't: 'x,
    W: TableTurn + Send + 'f + 'x,
    F: HandsBack<W> + Send + 'f + 't,
    S: Source + Send + Drop + 'x,
    K: Hang + Send + Drop + 'x,
    T: Threads + Wait + Sync + 'x,
>(
    scope: &Scope<'x, &'e ()>,
    rt: &'x T,
    sleepers: &'x Sleepers,
    channel: u32,
    devices: u32,
    player: Player<'f, 's, W, F, T>,
    reader: Caller<'t, F>,
    incoming: Incoming<S>,
    writing: PromisedHandle<WrittenHalf<F, K>, Writing<W, F, K>>,
) -> (
    (Result<Stop, AllocError>, Player<'f, 's, W, F, T>),
    ReadHalf<F, S>,
    WrittenHalf<F, K>,
)
    ensures plays { IfOk result.0.0 (λ why. Plays W.turn devices why player.entry result.0.1) }
    ensures reader { (turn : _) → Belongs turn reader.entry.pass → Belongs turn result.1.pass × ComesBack turn reader.entry.pass result.1.pass }
    ensures writer { (turn : _) → Belongs turn writing.promise.pass.value → Belongs turn result.2.pass × ComesBack turn writing.promise.pass.value result.2.pass }
    ensures listens { Listens channel result.1.ending reader.entry.pass result.1.pass incoming result.1.incoming }
    ensures sends { Sends writing.promise.channel result.2.starved writing.promise.pass.value result.2.pass writing.promise.outgoing.value result.2.outgoing }
{
    let mut player = player;
    let promise = Reading {
        channel,
        pass: Snapshot::of(&reader.pass),
        incoming: Snapshot::of(&incoming),
        of: PhantomData,
    };
    match scope.spawn_with(
        promise,
        move || -> ReadHalf<F, S>
            ensures back { (turn : _) → Belongs turn reader.entry.pass → Belongs turn result.pass × ComesBack turn reader.entry.pass result.pass }
            ensures listens { Listens channel result.ending reader.entry.pass result.pass incoming result.incoming }
        { read_half(rt, sleepers, channel, reader, incoming) },
    ) {
        Ok(reading) => {
            let played = play(channel, devices, player);
            let read = reading.join(rt);
            (played, read, writing.join(rt))
        }
        Err(refused) => {
            let SpawnError { value: read } = refused;
            player.give_up(channel);
            let read = read();
            ((Err(AllocError), player), read, writing.join(rt))
        }
    }
}

/// Reads a channel to its end. The pass comes back alone.
fn read_half<
    't,
    W: TableTurn,
    F: Object<Call = HostFrontCall<W>, Reply = HostFrontReply<W>>,
    S: Source + Drop,
    T: Wait,
>(
    rt: &T,
    sleepers: &Sleepers,
    channel: u32,
    front: Caller<'t, F>,
    incoming: Incoming<S>,
) -> ReadHalf<F, S>
    ensures back { (turn : _) → Belongs turn front.entry.pass → Belongs turn result.pass × ComesBack turn front.entry.pass result.pass }
    ensures listens { Listens channel result.ending front.entry.pass result.pass incoming result.incoming }
{
    let Listened {
        ending,
        front,
        incoming,
    } = listen(rt, sleepers, channel, front, incoming);
    ReadHalf {
        pass: front.into_pass(),
        ending,
        incoming,
    }
}

/// Writes a channel to its end. The pass comes back alone.
fn write_half<
    't,
    W: TableTurn,
    F: Object<Call = HostFrontCall<W>, Reply = HostFrontReply<W>>,
    K: Hang + Drop,
    T: Wait,
>(
    rt: &T,
    sleepers: &Sleepers,
    channel: u32,
    front: Caller<'t, F>,
    room: Room,
    outgoing: Outgoing<K>,
) -> WrittenHalf<F, K>
    ensures back { (turn : _) → Belongs turn front.entry.pass → Belongs turn result.pass × ComesBack turn front.entry.pass result.pass }
    ensures sends { Sends channel result.starved front.entry.pass result.pass outgoing result.outgoing }
{
    let Sent {
        front,
        output,
        starved,
    } = send(rt, sleepers, channel, front, room, outgoing);
    WrittenHalf {
        pass: front.into_pass(),
        outgoing: output,
        starved,
    }
}

/// Plays the script on a channel. Where memory runs out the channel ends.
fn play<'f, 's, W: TableTurn + 'f, F: HandsBack<W> + 'f, T: Threads + Wait + Sync>(
    channel: u32,
    devices: u32,
    player: Player<'f, 's, W, F, T>,
) -> (Result<Stop, AllocError>, Player<'f, 's, W, F, T>)
    ensures { IfOk result.0 (λ why. Plays W.turn devices why player.entry result.1) }
{
    let mut player = player;
    match player.play(devices) {
        Ok(stop) => (Ok(stop), player),
        Err(error) => {
            player.give_up(channel);
            (Err(error), player)
        }
    }
}

/// What became of a channel that was served.
fn next_of(ended: Option<Ended>, stop: Stop) -> Next
    ensures { result ≡ next_of ended stop }
{
    match ended {
        Some(ended) => Next::Ends(ended),
        None => match stop {
            Stop::Connect => Next::Goes,
            Stop::End => Next::Last,
        },
    }
}

/// What ends the session, where a channel's end does.
fn end_by_channel(channel: u32, ending: Ending, starved: bool) -> Option<Ended>
    ensures { result ≡ end_by_channel channel ending starved }
{
    if starved {
        return Some(Ended::Memory);
    }
    match ending {
        Ending::Fault { at, message, why } => Some(Ended::Channel {
            channel,
            at,
            message,
            why,
        }),
        Ending::Long => Some(Ended::Long),
        Ending::Memory => Some(Ended::Memory),
        _ => None,
    }
}
