//! The calling thread of a host: it comes to the lines of the script, has the applications issue theirs, and acts the control lines.

ghost use Rattle.std.specs.Prelude.{◌≡◌, ◌≢◌, ◌<◌, ◌≤◌, ◌+◌, ◌∷◌, ◌↔◌, ℕ, suc, [], false, true, Some, length, slice_get, IfNone, IfSome, IfOk, IsTrue, OnOk};
ghost use Rattle.rd_issuer.specs.declared.issuer.Issuer.{Issuer};
ghost use Rattle.rd_host_front.specs.declared.calls.HostFrontCall.TheVariants as Call;
ghost use Rattle.rd_host_front.specs.declared.calls.HostFrontReply.TheVariants as Reply;
ghost use Rattle.rd_host_front.specs.Kept.{IsHandedBack};
ghost use Rattle.rd_host_front.specs.State.{IsFirstOf, PassCalls};
ghost use Rattle.rd_host_player.specs.declared.player.Stop.TheVariants as Stops_at;
ghost use Rattle.rd_pending.specs.declared.calls.Stage.{Stage};
ghost use Rattle.rd_issuer.specs.Issues.{HasAllOutcomes};
ghost use Rattle.rd_issuer.specs.SideBySide.{RanSideBySide};
ghost use Rattle.rd_table.specs.declared.calls.PendingCall.TheVariants as Ask;
ghost use Rattle.rd_table.specs.declared.calls.PendingReply.TheVariants as Answer;
ghost use Rattle.rd_turn.specs.History.{calls_of};
ghost use Rattle.rd_turn.specs.Pass.{GoesOn, after_split, max_made, new_pass};
ghost use Rattle.rd_host_player.specs.Play.{Acts, AtControl, Begins, CallsFront, CameTo, ComesTo, ComesToControl, Ended, IsReady, Issued, JoinsFront, Looks, Plays, PlaysOut, Ran, Runs, Stops, TriesToEnd, Waited, HasCome, HaveAllOutcomes, QueuedAt, queued};

use crate::handing::HandsBack;
use crate::plan::{Control, acted_by};
use rd_host_front::{Came, HostFrontCall, TableTurn};
use rd_issuer::{Issuer, issue_side_by_side};
use rd_pending::Stage;
use rd_script::{Line, NumberedLine};
use rd_sleepers::Sleepers;
use rd_table::{PendingCall, PendingReply, Table};
use rd_turn::{Caller, MAX_MADE, Pass, Turn};
use rd_world::application_of;
use std::alloc::{AllocError, Global};
use std::marker::{Model, PhantomData};
use std::mem;
use std::sync::Wait;
use std::thread::Threads;

/// Where the calling thread stops.
#[derive(Clone, Copy)]
pub enum Stop {
    /// A line begins a channel, and none is open.
    Connect,
    /// The script is at its end, and so is the channel. Each line has its outcome.
    End,
}

/// What the calling thread keeps while a channel is served, and between channels. Contracts see a `PlayState`.
pub struct Player<'f, 's, W: TableTurn + 'f, F: HandsBack<W> + 'f, T: Threads + Wait + Sync> {
    rt: &'f T,
    alloc: Global,
    turn: &'f Turn<Table>,
    sleepers: &'f Sleepers,
    front: Caller<'f, F>,
    /// Pass 0 of the table, but while a call has it.
    first: Option<Pass<Table>>,
    /// The lines that are left.
    lines: &'s [NumberedLine],
    issuers: Vec<Issuer<'s>>,
    of: PhantomData<W>,
}

impl<'f, 's, W: TableTurn + 'f, F: HandsBack<W> + 'f, T: Threads + Wait + Sync> Model
    for Player<'f, 's, W, F, T> {
    ghost use Rattle.std.specs.Prelude.{◌≡◌, IsSomeAnd};
    ghost use Rattle.std.specs.Option.{unwrap_or};
    ghost use Rattle.rd_host_front.specs.State.{IsFirstOf};
    ghost use Rattle.rd_turn.specs.Pass.{first_pass};
    ghost use Rattle.rd_host_player.specs.Play.{PlayState};

    ghost Value = { PlayState F W };

    ghost view = { λ p. record {
      lines = p.lines.now;
      issuers = p.issuers.items;
      first = unwrap_or p.first (first_pass p.turn.now);
      at = p.front.turn.now;
      front = p.front.pass;
    } };

    ghost invariant = { λ p. (p.turn.now ≡ W.turn) × IsSomeAnd p.first (IsFirstOf W.turn) × (p.front.pass.number ≡ 0) };
}

impl<'f, 's, W: TableTurn + 'f, F: HandsBack<W> + 'f, T: Threads + Wait + Sync> Player<
    'f,
    's,
    W,
    F,
    T,
> {
    /// Before the first line.
    pub fn new(
        rt: &'f T,
        alloc: Global,
        turn: &'f Turn<Table>,
        sleepers: &'f Sleepers,
        front: Caller<'f, F>,
        first: Pass<Table>,
        lines: &'s [NumberedLine],
        issuers: Vec<Issuer<'s>>,
    ) -> Self
        requires turn { turn.now ≡ W.turn }
        requires front { front.pass.number ≡ 0 }
        requires first { IsFirstOf W.turn first }
        ensures { result ≡ record { lines = lines.now; issuers = issuers.entry.items; first = first; at = front.entry.turn.now; front = front.entry.pass } }
    {
        Player {
            rt,
            alloc,
            turn,
            sleepers,
            front,
            first: Some(first),
            lines,
            issuers,
            of: PhantomData,
        }
    }

    /// The front with the thread's pass of it, pass 0 of the table, and the applications.
    pub fn into_parts(
        self,
    ) -> (
        Caller<'f, F>,
        Pass<Table>,
        &'s [NumberedLine],
        Vec<Issuer<'s>>,
    )
        ensures at { result.0.turn.now ≡ self.entry.at }
        ensures front { result.0.pass ≡ self.entry.front }
        ensures number { result.0.pass.number ≡ 0 }
        ensures first { result.1 ≡ self.entry.first }
        ensures is_first { IsFirstOf W.turn result.1 }
        ensures lines { result.2.now ≡ self.entry.lines }
        ensures issuers { result.3.items ≡ self.entry.issuers }
    {
        let Self {
            rt: _,
            alloc: _,
            turn: _,
            sleepers: _,
            front,
            first,
            lines,
            issuers,
            of: _,
        } = self;
        let Some(first) = first else { unreachable!() };
        (front, first, lines, issuers)
    }

    pub fn rt(&self) -> &'f T {
        self.rt
    }

    pub fn alloc(&self) -> Global {
        self.alloc
    }

    /// The turn of the table.
    pub fn turn(&self) -> &'f Turn<Table>
        ensures { result.now ≡ W.turn }
    {
        self.turn
    }

    pub fn sleepers(&self) -> &'f Sleepers {
        self.sleepers
    }

    /// Whether two passes more may be split from the thread's pass of the front.
    pub fn may_split(&self) -> bool
        ensures { IsTrue result → self.now.front.made + 2 ≤ max_made }
    {
        let front = &self.front;
        front.pass.made() <= MAX_MADE - 2
    }

    /// The front with another pass of it, for a thread beside this one.
    pub fn split(&mut self) -> Caller<'f, F>
        requires { self.old.front.made < max_made }
        ensures at { result.turn.now ≡ self.old.at }
        ensures given { result.pass ≡ new_pass self.old.front }
        ensures fresh { calls_of result.pass.number result.pass.seen ≡ [] }
        ensures kept { self.new ≡ record self.old { front = after_split self.old.front } }
    {
        let turn = self.front.turn;
        let front = &mut self.front;
        let other = turn.split(&mut front.pass);
        Caller::new(turn, other)
    }

    /// Such a pass comes back.
    pub fn join(&mut self, other: Caller<'f, F>)
        requires at { other.turn.now ≡ self.old.at }
        requires later { other.pass.number ≢ 0 }
        ensures kept { self.new ≡ record self.old { front = self.new.front } }
        ensures joined { JoinsFront self.old.front other.entry.pass self.new.front }
    {
        let turn = self.front.turn;
        let front = &mut self.front;
        turn.join(&mut front.pass, other.into_pass());
    }

    /// A channel of this number begins, if it can.
    pub fn begin(&mut self, channel: u32) -> Came
        ensures { Begins channel result self.old self.new }
    {
        let rt = self.rt;
        let Some(first) = self.first.take() else {
            unreachable!()
        };
        let (first, came) = F::begin(rt, &mut self.front, first, channel);
        self.first = Some(first);
        came
    }

    /// Plays lines on a channel that began, once so many devices are there, until a line begins another, or the script is at its end.
    pub fn play(&mut self, devices: u32) -> Result<Stop, AllocError>
        ensures { IfOk result (λ why. Plays W.turn devices why self.old self.new) }
    {
        self.wait_for(devices);
        for _ in self.rt.forever() {
            if let Some(stop) = self.act()? {
                return Ok(stop);
            }
        }
        unreachable!()
    }

    /// No memory was found, so the channel of this number ends, and everybody looks once more.
    pub fn give_up(&mut self, channel: u32)
        ensures { self.new.at ≡ self.old.at }
    {
        let rt = self.rt;
        self.front.call(rt, HostFrontCall::DropChannel(channel));
        self.sleepers.ring_outcomes(rt);
        self.sleepers.ring_request(rt);
        self.sleepers.ring_change(rt);
    }

    /// Waits until so many devices are there, or the channel is over.
    fn wait_for(&mut self, devices: u32)
        ensures { Waited W.turn devices self.old self.new }
    {
        for _ in self.rt.forever() {
            let times = self.sleepers.changes(self.rt);
            let stage = self.look();
            if is_ready(devices, stage) {
                return;
            }
            self.sleepers.wait_for_change(self.rt, times);
        }
        unreachable!()
    }

    /// Issues lines and acts the next one, or where none is left ends the channel. Where it stops, if it does.
    fn act(&mut self) -> Result<Option<Stop>, AllocError>
        ensures goes_on { IfOk result (λ stop. IfNone stop (Acts W.turn self.old self.new)) }
        ensures stops { IfOk result (λ stop. IfSome stop (λ why. Stops W.turn why self.old self.new)) }
    {
        self.issue()?;
        match self.next_control()? {
            Some(Control::Drop) => {
                self.end_channel()?;
                Ok(None)
            }
            Some(Control::Connect) => Ok(self.go_on()),
            None => {
                self.end_channel()?;
                self.issue()?;
                self.check_outcomes()?;
                Ok(Some(Stop::End))
            }
        }
    }

    /// Goes on with the channel where it is open.
    fn go_on(&mut self) -> Option<Stop>
        ensures goes_on { IfNone result ((stage : Stage) × Looks W.turn stage self.old self.new × (stage.channel ≡ true)) }
        ensures stops { IfSome result (λ why. (why ≡ Stops_at.Connect) × (stage : Stage) × Looks W.turn stage self.old self.new × (stage.channel ≡ false)) }
    {
        let stage = self.look();
        if stage.channel {
            None
        } else {
            Some(Stop::Connect)
        }
    }

    /// Issues all lines that are left, where no channel is open and none is to begin any more. Each has its outcome then.
    pub fn play_out(&mut self) -> Result<(), AllocError>
        ensures { OnOk result (PlaysOut self.old self.new) }
    {
        for _ in self.rt.forever() {
            self.issue()?;
            if self.next_control()?.is_none() {
                return self.check_outcomes();
            }
        }
        unreachable!()
    }

    /// All lines that the script came to have their outcomes, as they do once no channel is open.
    fn check_outcomes(&self) -> Result<(), AllocError>
        ensures { OnOk result (HaveAllOutcomes self.now.issuers) }
    {
        if have_all_outcomes(self.issuers.as_slice()) {
            return Ok(());
        }
        Err(AllocError)
    }

    /// Looks how far the channel got.
    fn look(&mut self) -> Stage
        ensures { Looks W.turn result self.old self.new }
    {
        let Some(first) = self.first.take() else {
            unreachable!()
        };
        let (first, stage) = look::<W, T>(self.rt, self.turn, first);
        self.first = Some(first);
        stage
    }

    /// The channel ends once all was sent.
    fn end_channel(&mut self) -> Result<(), AllocError>
        ensures { OnOk result (Ended self.old self.new) }
    {
        let mut anew = true;
        for _ in self.rt.forever() {
            let times = self.sleepers.changes(self.rt);
            match self.try_to_end(anew) {
                Came::Done => {
                    self.sleepers.ring_request(self.rt);
                    return Ok(());
                }
                Came::NotYet => self.sleepers.wait_for_change(self.rt, times),
                _ => return Err(AllocError),
            }
            anew = false;
        }
        unreachable!()
    }

    /// Asks the front to end the channel, unless a message is to be sent.
    fn try_to_end(&mut self, anew: bool) -> Came
        ensures { TriesToEnd anew result self.old self.new }
    {
        let rt = self.rt;
        let Some(first) = self.first.take() else {
            unreachable!()
        };
        let (first, came) = F::try_to_end(rt, &mut self.front, first, anew);
        self.first = Some(first);
        came
    }

    /// Comes to the lines before the next one that it acts itself, and has the applications issue them, until each has the outcomes of its lines, or waits at one that is patient.
    fn issue(&mut self) -> Result<(), AllocError>
        ensures { OnOk result (Issued self.old self.new) }
    {
        self.queue()?;
        self.run_all()
    }

    /// Comes to the lines before the next one that it acts itself.
    fn queue(&mut self) -> Result<(), AllocError>
        ensures came { OnOk result ((lines : ℕ) × CameTo lines self.old self.new) }
        ensures there { OnOk result (AtControl self.new.lines) }
    {
        while let [line, rest @ ..] = self.lines {
            if acted_by(&line.line).is_some() {
                return Ok(());
            }
            self.come(line, rest)?;
        }
        Ok(())
    }

    /// The line that it acts itself and comes to next, if one is left.
    fn next_control(&mut self) -> Result<Option<Control>, AllocError>
        requires { AtControl self.old.lines }
        ensures some { IfOk result (λ next. IfSome next (λ c. ComesToControl c self.old self.new)) }
        ensures none { IfOk result (λ next. IfNone next ((self.old.lines ≡ []) × (self.new ≡ self.old))) }
    {
        let [line, rest @ ..] = self.lines else {
            return Ok(None);
        };
        let control = acted_by(&line.line);
        self.come(line, rest)?;
        Ok(control)
    }

    /// Comes to the next line, after which these are left.
    fn come(&mut self, line: &'s NumberedLine, rest: &'s [NumberedLine]) -> Result<(), AllocError>
        requires { self.old.lines ≡ line.now ∷ rest.now }
        ensures { OnOk result (ComesTo line.now self.old self.new) }
    {
        come_to(&mut self.issuers, &line.line)?;
        self.lines = rest;
        Ok(())
    }

    /// Has the applications issue what they may, until nothing more comes of it.
    fn run_all(&mut self) -> Result<(), AllocError>
        ensures { OnOk result ((times : ℕ) × Ran (suc times) self.old self.new) }
    {
        let mut before = awaited(self.alloc, self.issuers.as_slice())?;
        for _ in self.rt.forever() {
            self.run()?;
            let after = awaited(self.alloc, self.issuers.as_slice())?;
            if after.as_slice() == before.as_slice() {
                return Ok(());
            }
            before = after;
        }
        unreachable!()
    }

    /// The applications issue what they may, beside each other.
    fn run(&mut self) -> Result<(), AllocError>
        ensures { OnOk result (Runs self.old self.new) }
    {
        let alloc = self.alloc;
        let issuers = mem::replace(&mut self.issuers, Vec::new(alloc));
        let Some(first) = self.first.take() else {
            unreachable!()
        };
        let (first, ran) = run_beside::<W, T>(
            self.rt,
            alloc,
            self.turn,
            self.sleepers,
            first,
            issuers,
        );
        self.first = Some(first);
        self.issuers = ran?;
        Ok(())
    }
}

impl<'f, 's, W: TableTurn + 'f, F: HandsBack<W> + 'f, T: Threads + Wait + Sync> Drop
    for Player<'f, 's, W, F, T> {
    fn drop(self) {
        let Self {
            rt: _,
            alloc: _,
            turn: _,
            sleepers: _,
            front: _,
            first: _,
            lines: _,
            issuers: _,
            of: _,
        } = self;
    }
}

/// Whether so many devices are there, or the channel is over.
fn is_ready(devices: u32, stage: Stage) -> bool
    ensures { IsTrue result → IsReady devices stage }
{
    !stage.channel || u64::from(devices) <= stage.lives
}

/// The script comes to a line: where it is an application's, that may issue it.
fn come_to(issuers: &mut Vec<Issuer<'_>>, line: &Line) -> Result<(), AllocError>
    ensures { OnOk result (HasCome line.now issuers.old.items issuers.new.items) }
{
    match application_of(line) {
        Some(number) => queue_at(issuers, number),
        None => Ok(()),
    }
}

/// The application of this number may issue one line more. A script's lines have an application each, and are as many as it was made for.
fn queue_at(issuers: &mut Vec<Issuer<'_>>, number: u32) -> Result<(), AllocError>
    ensures { OnOk result (QueuedAt number issuers.old.items issuers.new.items) }
{
    let Some(place) = place_of(issuers.as_slice(), number) else {
        return Err(AllocError);
    };
    queue(&mut issuers[place])
}

/// Where the application of this number stands. There are 64 at most.
fn place_of(issuers: &[Issuer<'_>], number: u32) -> Option<usize>
    ensures within { IfSome result (λ place. place < length issuers.now) }
    ensures there { IfSome result (λ place. (i : Issuer) × (slice_get issuers.now place ≡ Some i) × (i.number ≡ number)) }
{
    for place in 0..issuers.len() {
        if issuers[place].number == number {
            return Some(place);
        }
    }
    None
}

/// It may issue one line more.
fn queue(issuer: &mut Issuer<'_>) -> Result<(), AllocError>
    ensures { OnOk result (issuer.new ≡ queued issuer.old) }
{
    if !issuer.application.may_queue() {
        return Err(AllocError);
    }
    issuer.application.queue();
    Ok(())
}

/// Whether all lines of applications that the script came to have their outcomes.
fn have_all_outcomes(issuers: &[Issuer<'_>]) -> bool
    ensures { IsTrue result ↔ HaveAllOutcomes issuers.now }
{
    issuers.iter().all(has_all_outcomes)
}

/// Whether all lines of an application that the script came to have their outcomes.
fn has_all_outcomes(issuer: &Issuer<'_>) -> bool
    ensures { IsTrue result ↔ HasAllOutcomes issuer.now.application }
{
    !issuer.application.may_issue() && issuer.application.awaits().is_none()
}

/// The numbers of the requests whose outcomes are awaited.
fn awaited(alloc: Global, issuers: &[Issuer<'_>]) -> Result<Vec<u64>, AllocError> {
    let mut awaited = Vec::new(alloc);
    for issuer in issuers {
        if let Some(request) = issuer.application.awaits() {
            awaited.push(request)?;
        }
    }
    Ok(awaited)
}

/// A look at the table by pass 0 of its turn.
fn look<W: TableTurn, T: Wait>(
    rt: &T,
    turn: &Turn<Table>,
    mut pass: Pass<Table>,
) -> (Pass<Table>, Stage)
    requires turn { turn.now ≡ W.turn }
    requires first { IsFirstOf W.turn pass }
    ensures first { IsFirstOf W.turn result.0 }
    ensures looks { PassCalls W.turn pass Ask.Stage (Answer.Stands result.1) result.0 }
{
    match turn.call(rt, &mut pass, PendingCall::Stage) {
        PendingReply::Stands(stage) => (pass, stage),
        _ => unreachable!(),
    }
}

/// Applications issue what they may, beside each other, with passes that are split from pass 0.
fn run_beside<'s, W: TableTurn, T: Threads + Wait + Sync>(
    rt: &T,
    alloc: Global,
    turn: &Turn<Table>,
    sleepers: &Sleepers,
    mut pass: Pass<Table>,
    issuers: Vec<Issuer<'s>>,
) -> (Pass<Table>, Result<Vec<Issuer<'s>>, AllocError>)
    requires turn { turn.now ≡ W.turn }
    requires first { IsFirstOf W.turn pass }
    ensures first { IsFirstOf W.turn result.0 }
    ensures goes_on { GoesOn pass result.0 }
    ensures ran { IfOk result.1 (λ after. RanSideBySide pass result.0 issuers.entry.items after.items) }
{
    if !may_split(&pass, issuers.len()) {
        return (pass, Err(AllocError));
    }
    let ran = issue_side_by_side(rt, alloc, turn, &mut pass, sleepers, issuers);
    (pass, ran)
}

/// Whether so many passes may be split from this one.
fn may_split(pass: &Pass<Table>, count: usize) -> bool
    ensures { IsTrue result → pass.now.made + count ≤ max_made }
{
    let made = pass.made();
    made <= MAX_MADE && count as u64 <= MAX_MADE - made
}
