//! The reader: hears what the host sends on a channel, hands out jobs, and helps where nobody else does.

ghost use Rattle.std.specs.Prelude.{◌≡◌, ◌-◌, ◌++◌, ◌∷◌, ℕ, [], false, length, map, All, Some, IfErr, OnErr, OnOk};
ghost use Rattle.rd_base.specs.Layout.{AreBytes};
ghost use Rattle.rd_carry.specs.declared.ended.EndWhy.TheVariants as Why;
ghost use Rattle.rd_pool.specs.Desks.{KeepsMoment};
ghost use Rattle.rd_turn.specs.History.{calls_of, entry};
ghost use Rattle.rd_workers.specs.Faults.{ending_of};
ghost use Rattle.rd_workers.specs.Lines.{ActsAll, ByCall, DoesAct, KeepsToLines, StartsOnce};
ghost use Rattle.rd_workers.specs.Logs.{NoneAsks, asks_any, no_halves, writer_log, writes_by};
ghost use Rattle.rd_workers.specs.Passes.{WriterState, caller_id};
ghost use Rattle.rd_workers.specs.Reading.{BeginsChannel, BeginsNone, EndsCalls, EndsChannel, Follows, GoesOn, HearsOn, IsRelieved, TellsOf, having_written, wrong_at};
ghost use Rattle.rd_workers.specs.Writing.{WriterStep};
ghost use Rattle.rd_workers.specs.declared.due.Act.TheVariants as Acts;
ghost use Rattle.rd_workers.specs.declared.reader.Ending.TheVariants as Ended;

use crate::bells::Bells;
use crate::due::{Act, Due};
use crate::places::{MAX_PLACES, Places};
use crate::writer::{Writer, WriterCall, WriterReply};
use rd_base::Source;
use rd_carry::{CarryNo, EndWhy, Incoming, Outgoing};
use rd_desk::Batch;
use rd_folder::Folder;
use rd_front::{FrontCall, FrontReply};
use rd_hello::EndFault;
use rd_link::Hang;
use rd_pool::{Hands, Outside};
use rd_served_devices::ServedDevice;
use rd_turn::{Caller, Object};
use std::marker::Model;
use std::sync::Wait;
use std::thread;

/// The place of a request's completion id in its message.
const COMPLETION_ID: u64 = 12;

/// So many jobs are handed out before more is heard, so that the host has their completions meanwhile.
const PORTION: u32 = 8;

/// Why a channel is read no further.
#[derive(Clone, Copy)]
pub(crate) enum Ending {
    /// The input came to its end.
    Input,
    /// A line of the script drops the channel.
    Dropped,
    /// A read failed.
    Unread,
    /// Nothing more can be written: a write failed, or no memory was found for a message.
    Unwritten,
    /// What the host sent is wrong.
    Fault { at: u64, message: u64, why: EndWhy },
    /// 2^40 bytes were read.
    Long,
    Memory,
}

/// What the reader of a client has. Contracts see a `ReaderState`.
pub(crate) struct Reader<
    's,
    'w,
    'f,
    'g,
    'a,
    F: Object<Call = FrontCall, Reply = FrontReply>,
    T: Wait,
    K: Hang + Drop,
    X: Outside,
    M: Folder + Drop,
> {
    rt: &'s T,
    front: Caller<'g, F>,
    writer: Caller<'w, Writer<'f, F, T, K>>,
    hands: Hands<'a, ServedDevice<M>>,
    /// What its hands give back, but while they work.
    batch: Option<Batch>,
    outside: &'s X,
    bells: &'s Bells,
    /// Whether a worker may be held up between taking a job and running it. Then the reader takes none.
    holds: bool,
    /// Whether the front keeps a job back.
    kept: bool,
    /// How many jobs came since they were handed out last, and where.
    jobs: u32,
    desks: Places,
    /// Where the writer has something to do.
    ready: Places,
}

impl<
    's,
    'w,
    'f,
    'g,
    'a,
    F: Object<Call = FrontCall, Reply = FrontReply>,
    T: Wait,
    K: Hang + Drop,
    X: Outside,
    M: Folder + Drop,
> Model for Reader<'s, 'w, 'f, 'g, 'a, F, T, K, X, M> {
    ghost use Rattle.std.specs.Prelude.{◌≡◌, [], length, map, All, IfSome};
    ghost use Rattle.rd_pool.specs.Desks.{KeepsMoment};
    ghost use Rattle.rd_turn.specs.History.{calls_of};
    ghost use Rattle.rd_workers.specs.Logs.{NoneAsks, writer_log};
    ghost use Rattle.rd_workers.specs.Passes.{ReaderState, caller_id};

    ghost Value = { ReaderState F };

    ghost view = { λ r. record {
      front = caller_id r.front.turn.now r.front.pass;
      own = calls_of r.front.pass.number r.front.pass.seen;
      writer = caller_id r.writer.turn.now r.writer.pass;
      written = writer_log (calls_of r.writer.pass.number r.writer.pass.seen);
      desks = map (λ hand. hand.turn) r.hands;
      moment = X.moment r.outside.now;
    } };

    ghost invariant = { λ r. (length r.hands ≡ r.bells.now) × IfSome r.batch (λ batch. batch ≡ []) × NoneAsks (calls_of r.front.pass.number r.front.pass.seen)
        × All (KeepsMoment (X.moment r.outside.now)) (map (λ hand. hand.pass) r.hands) };
}

impl<
    's,
    'w,
    'f,
    'g,
    'a,
    F: Object<Call = FrontCall, Reply = FrontReply>,
    T: Wait,
    K: Hang + Drop,
    X: Outside,
    M: Folder + Drop,
> Reader<'s, 'w, 'f, 'g, 'a, F, T, K, X, M> {
    pub(crate) fn new(
        rt: &'s T,
        front: Caller<'g, F>,
        writer: Caller<'w, Writer<'f, F, T, K>>,
        hands: Hands<'a, ServedDevice<M>>,
        batch: Batch,
        outside: &'s X,
        bells: &'s Bells,
        holds: bool,
    ) -> Self
        requires none { batch ≡ [] }
        requires places { length hands ≡ bells.now }
        requires front { calls_of front.pass.number front.pass.seen ≡ [] }
        requires writer { calls_of writer.pass.number writer.pass.seen ≡ [] }
        requires moments { All (KeepsMoment (X.moment outside.now)) (map (λ hand. hand.pass) hands) }
        ensures { result ≡ record {
          front = caller_id front.entry.turn.now front.entry.pass;
          own = [];
          writer = caller_id writer.entry.turn.now writer.entry.pass;
          written = no_halves;
          desks = map (λ hand. hand.turn) hands.entry;
          moment = X.moment outside.now;
        } }
    {
        Reader {
            rt,
            front,
            writer,
            hands,
            batch: Some(batch),
            outside,
            bells,
            holds,
            kept: false,
            jobs: 0,
            desks: Places::new(),
            ready: Places::new(),
        }
    }

    /// Its passes, so that they can be joined.
    pub(crate) fn into_parts(
        self,
    ) -> (
        Caller<'g, F>,
        Caller<'w, Writer<'f, F, T, K>>,
        Hands<'a, ServedDevice<M>>,
    )
        ensures parts { record {
          front = caller_id result.0.turn.now result.0.pass;
          own = calls_of result.0.pass.number result.0.pass.seen;
          writer = caller_id result.1.turn.now result.1.pass;
          written = writer_log (calls_of result.1.pass.number result.1.pass.seen);
          desks = map (λ hand. hand.turn) result.2;
          moment = self.entry.moment;
        } ≡ self.entry }
        ensures moments { All (KeepsMoment self.entry.moment) (map (λ hand. hand.pass) result.2) }
        ensures asks { NoneAsks (calls_of result.0.pass.number result.0.pass.seen) }
    {
        let Self {
            rt: _,
            front,
            writer,
            hands,
            batch: _,
            outside: _,
            bells: _,
            holds: _,
            kept: _,
            jobs: _,
            desks: _,
            ready: _,
        } = self;
        (front, writer, hands)
    }

    /// A call of the front.
    fn call_front(&mut self, call: FrontCall) -> FrontReply
        requires { asks_any call ≡ false }
        ensures { self.new ≡ record self.old { own = self.old.own ++ entry self.old.front.number call result ∷ [] } }
    {
        self.front.call(self.rt, call)
    }

    /// A call of the writer.
    fn call_writer(&mut self, call: WriterCall<K>) -> WriterReply<K>
        ensures called { self.new ≡ record self.old { written = writes_by self.old.written call result } }
        ensures replied { (before : WriterState F) × (after : WriterState F) × WriterStep before call result after }
    {
        self.writer.call(self.rt, call)
    }

    /// Begins a channel of this number. Where that can't be the half comes back.
    pub(crate) fn begin(&mut self, channel: u32, output: Outgoing<K>) -> Result<(), Outgoing<K>>
        ensures begun { OnOk result (BeginsChannel channel output self.old self.new) }
        ensures refused { OnErr result (BeginsNone channel self.old self.new) }
        ensures back { IfErr result (λ half. half ≡ output) }
    {
        self.kept = false;
        self.bells.open_writer(self.rt);
        let FrontReply::Done { .. } = self.call_front(FrontCall::Begin(channel)) else {
            return Err(output);
        };
        match self.call_writer(WriterCall::Begin { channel, output }) {
            WriterReply::Done { .. } => Ok(()),
            WriterReply::Refused(output) => Err(output),
            WriterReply::Finished { .. } => unreachable!(),
        }
    }

    /// Ends the channel. Gives back the half that was written to, and whether no memory was found for a message.
    pub(crate) fn end(&mut self) -> (Option<Outgoing<K>>, bool)
        ensures { EndsChannel result.0 result.1 self.old self.new }
    {
        self.call_front(FrontCall::EndChannel);
        match self.call_writer(WriterCall::Finish) {
            WriterReply::Finished { output, starved } => (output, starved),
            _ => unreachable!(),
        }
    }

    /// The session is over: nothing more comes, and whoever sleeps leaves.
    pub(crate) fn end_session(&mut self)
        ensures { EndsCalls self.old self.new }
    {
        self.call_front(FrontCall::EndSession);
        self.bells.close(self.rt);
    }

    /// Reads a channel to its end.
    pub(crate) fn read<S: Source + Drop>(
        &mut self,
        channel: u32,
        due: &mut Due<'_>,
        incoming: &mut Incoming<S>,
    ) -> Ending
        ensures { HearsOn (KeepsToLines channel (Some result) due.old due.new) (Some result) self.old self.new incoming.old incoming.new }
    {
        for _ in self.rt.forever() {
            if let Some(ending) = self.step(channel, due, incoming) {
                return ending;
            }
        }
        unreachable!()
    }

    /// Does one thing: what lines of the script are due for, or the job that is kept back, or the next message, or where nothing that was read is left, the
    /// next read.
    fn step<S: Source + Drop>(
        &mut self,
        channel: u32,
        due: &mut Due<'_>,
        incoming: &mut Incoming<S>,
    ) -> Option<Ending>
        ensures { HearsOn (KeepsToLines channel result due.old due.new) result self.old self.new incoming.old incoming.new }
    {
        if let Some(ending) = self.act(channel, due) {
            return Some(ending);
        }
        if self.kept {
            return self.retry(incoming.heard());
        }
        self.hear(incoming)
    }

    /// Hears the next message, or where nothing that was read is left, reads.
    fn hear<S: Source + Drop>(&mut self, incoming: &mut Incoming<S>) -> Option<Ending>
        ensures { HearsOn (StartsOnce result) result self.old self.new incoming.old incoming.new }
    {
        match incoming.message() {
            Ok(Some(message)) => {
                are_bytes(message.as_slice());
                let reply = self.call_front(FrontCall::Hear(message));
                self.follow(reply, incoming.heard())
            }
            Ok(None) => self.read_on(incoming),
            Err(no) => Some(ending_of(no)),
        }
    }

    /// Hands out what came, and reads.
    fn read_on<S: Source + Drop>(&mut self, incoming: &mut Incoming<S>) -> Option<Ending>
        requires { incoming.old.unhandled ≡ [] }
        ensures { HearsOn (StartsOnce result) result self.old self.new incoming.old incoming.new }
    {
        if !self.hand_out() {
            return Some(Ending::Unwritten);
        }
        match incoming.read() {
            Ok(true) => None,
            Ok(false) => Some(Ending::Input),
            Err(no) => Some(ending_of(no)),
        }
    }

    /// What follows from the front's reply to a message, the last of so many.
    fn follow(&mut self, reply: FrontReply, heard: u64) -> Option<Ending>
        ensures { Follows reply heard result self.old self.new }
    {
        match reply {
            FrontReply::Done { at, full } => {
                match at {
                    Some(place) => {
                        self.jobs = self.jobs.saturating_add(1);
                        self.desks.add(place);
                    }
                    None => self.mark_core(),
                }
                if full {
                    return self.relieve();
                }
                if self.jobs >= PORTION {
                    return self.hand_on();
                }
                None
            }
            FrontReply::Kept => {
                self.kept = true;
                None
            }
            FrontReply::Wrong(fault) => Some(wrong(fault, heard)),
            FrontReply::Duplicate(_) => Some(Ending::Fault {
                at: COMPLETION_ID,
                message: heard.saturating_sub(1),
                why: EndWhy::Duplicate,
            }),
            _ => Some(Ending::Memory),
        }
    }

    /// Tries the job that is kept back once more, after some room was made at its desk.
    fn retry(&mut self, heard: u64) -> Option<Ending>
        ensures { GoesOn (StartsOnce result) result heard self.old self.new }
    {
        if let Some(ending) = self.relieve() {
            return Some(ending);
        }
        self.kept = false;
        let reply = self.call_front(FrontCall::Retry);
        if matches!(reply, FrontReply::Kept) {
            thread::yield_now();
        }
        self.follow(reply, heard)
    }

    /// Does what the lines of the script that are due say.
    fn act(&mut self, channel: u32, due: &mut Due<'_>) -> Option<Ending>
        ensures { (count : ℕ) → GoesOn (ActsAll channel result due.old due.new) result count self.old self.new }
    {
        if !due.waits(channel) {
            return None;
        }
        let FrontReply::Stands { ready, asked } = self.call_front(FrontCall::Look) else {
            return Some(Ending::Memory);
        };
        if !ready {
            return None;
        }
        for _ in self.rt.forever() {
            let Some(act) = due.next(channel, asked) else {
                return None;
            };
            if let Some(ending) = self.act_once(act) {
                return Some(ending);
            }
        }
        unreachable!()
    }

    fn act_once(&mut self, act: Act) -> Option<Ending>
        ensures { (count : ℕ) → GoesOn (DoesAct act result) result count self.old self.new }
    {
        match act {
            Act::Remove(device) => self.tell(FrontCall::Remove(device)),
            Act::Add(device) => self.tell(FrontCall::Add(device)),
            Act::Drop => Some(Ending::Dropped),
        }
    }

    /// The host is told of a device, where that may be.
    fn tell(&mut self, call: FrontCall) -> Option<Ending>
        requires { TellsOf call }
        ensures { (count : ℕ) → GoesOn (ByCall (Some call) result) result count self.old self.new }
    {
        match self.call_front(call) {
            FrontReply::Done { at, full } => {
                self.mark_core();
                if let Some(place) = at {
                    self.ready.add(place);
                }
                if full {
                    return self.relieve();
                }
                None
            }
            FrontReply::Refused => None,
            _ => Some(Ending::Memory),
        }
    }

    /// The core has messages, whose place is after those of the desks.
    fn mark_core(&mut self)
        ensures { self.new ≡ self.old }
    {
        let core = self.bells.desks();
        self.ready.add(core);
    }

    /// Whether the reader may run jobs itself.
    fn may_work(&self) -> bool {
        !self.holds || !self.bells.are_heard(self.rt)
    }

    /// Hands out what came, so that more can be heard.
    fn hand_on(&mut self) -> Option<Ending>
        ensures { IsRelieved result self.old self.new }
    {
        if self.hand_out() {
            return None;
        }
        Some(Ending::Unwritten)
    }

    /// Hands out what came since that was done last. False where nothing more can be written.
    fn hand_out(&mut self) -> bool
        ensures { self.new ≡ having_written result self.old }
    {
        self.jobs = 0;
        if !self.bells.are_heard(self.rt) {
            return self.do_all();
        }
        if self.may_work() && self.bells.claim_writer(self.rt) {
            let going = self.do_all();
            self.bells.release_writer(self.rt);
            return going;
        }
        self.bells.ring_all(self.rt, self.desks, self.ready);
        self.desks = Places::new();
        self.ready = Places::new();
        true
    }

    /// Runs the jobs that came and writes what is ready. False where nothing more can be written.
    fn do_all(&mut self) -> bool
        ensures { self.new ≡ having_written result self.old }
    {
        for _ in 0..MAX_PLACES {
            let Some(place) = self.desks.next() else {
                break
            };
            self.work(place);
            self.ready.add(place);
        }
        let mut next = self.ready.next();
        for _ in 0..MAX_PLACES {
            let Some(place) = next else { break };
            next = self.ready.next();
            if !self.write(place, next.is_none()) {
                return false;
            }
        }
        true
    }

    /// Makes room: runs jobs where it may, and has all that is ready written.
    fn relieve(&mut self) -> Option<Ending>
        ensures { IsRelieved result self.old self.new }
    {
        let all = Places::below(self.bells.desks());
        self.jobs = 0;
        if self.may_work() {
            self.desks = all;
        } else {
            self.bells.ring_all(self.rt, all, Places::new());
            self.desks = Places::new();
            self.ready = all;
        }
        self.mark_core();
        if self.do_all() {
            return None;
        }
        Some(Ending::Unwritten)
    }

    /// Works at the desk of a place until nothing is given there. Nobody is woken.
    fn work(&mut self, place: usize)
        ensures { self.new ≡ self.old }
    {
        let bells = self.bells;
        if place >= bells.desks() {
            return;
        }
        let Some(batch) = self.batch.take() else {
            return;
        };
        let batch = self.hands.work(
            self.rt,
            self.outside,
            &bells.reader,
            &bells.reader,
            place,
            batch,
        );
        self.batch = Some(batch);
    }

    /// Writes what is ready at a place. False where nothing more can be written.
    fn write(&mut self, place: usize, last: bool) -> bool
        ensures { self.new ≡ having_written result self.old }
    {
        match self.call_writer(WriterCall::Write { place, last }) {
            WriterReply::Done { going } => going,
            _ => unreachable!(),
        }
    }
}

impl<
    's,
    'w,
    'f,
    'g,
    'a,
    F: Object<Call = FrontCall, Reply = FrontReply>,
    T: Wait,
    K: Hang + Drop,
    X: Outside,
    M: Folder + Drop,
> Drop for Reader<'s, 'w, 'f, 'g, 'a, F, T, K, X, M> {
    fn drop(self) {
        let Self {
            rt: _,
            front: _,
            writer: _,
            hands: _,
            batch: _,
            outside: _,
            bells: _,
            holds: _,
            kept: _,
            jobs: _,
            desks: _,
            ready: _,
        } = self;
    }
}

/// The elements of a slice of bytes are bytes.
fn are_bytes(bytes: &[u8])
    ensures { AreBytes bytes.now }
{}

/// Why a channel is read no further whose input can't be.
fn ending_of(no: CarryNo) -> Ending
    ensures { result ≡ ending_of no }
{
    match no {
        CarryNo::Failed => Ending::Unread,
        CarryNo::Bad(bad) => Ending::Fault {
            at: bad.at,
            message: 0,
            why: EndWhy::Chunk(bad.why),
        },
        CarryNo::Long => Ending::Long,
        CarryNo::Memory => Ending::Memory,
    }
}

/// Why it is read no further after a wrong message, the last of so many.
fn wrong(fault: EndFault, heard: u64) -> Ending
    ensures { result ≡ Ended.Fault (wrong_at fault) (heard - 1) (Why.Message fault) }
{
    Ending::Fault {
        at: wrong_at(fault),
        message: heard.saturating_sub(1),
        why: EndWhy::Message(fault),
    }
}

/// Where a message has its fault.
fn wrong_at(fault: EndFault) -> u64
    ensures { result ≡ wrong_at fault }
{
    match fault {
        EndFault::Grammar(bad) => u64::from(bad.at),
        _ => 0,
    }
}
