//! The session of a script: what its lines do, and how it ends.

ghost use Rattle.std.specs.Prelude.{◌≡◌, ◌&&◌, ℕ, Bool, codes, length, not, true, IfErr, IfOk, IsOk, OnOk, Some};
ghost use Rattle.std.specs.List.{list_any};
ghost use Rattle.std.specs.Option.{option_map_or};
ghost use Rattle.std.specs.BTreeSet.{contains};
ghost use Rattle.std.specs.Io.KnownBytes.{Appends};
ghost use Rattle.std.specs.Ordering.{nat_cmp};
ghost use Rattle.rd_base.specs.declared.journal.Key.{Key};
ghost use Rattle.rd_script.specs.declared.line.Errand.TheVariants as errands;
ghost use Rattle.rd_script.specs.declared.line.Line.TheVariants as lines;
ghost use Rattle.rd_world.specs.Events.{client_read, connect, host_read, is_channel_open, is_enabled, tell};
ghost use Rattle.rd_declared.specs.Marks.{MarksAgree};
ghost use Rattle.rd_world.specs.Left.{is_parked_in, is_sent_in, parked_index, sent_index};
ghost use Rattle.rd_declared.specs.Declaring.{AreNotable, IsNotable};
ghost use Rattle.rd_world.specs.declared.event.StepNo.TheVariants as no;
ghost use Rattle.rd_world.specs.Recording.{recording_of_deeds};
ghost use Rattle.rd_world.specs.Run.{Most, WorldRun, by_event, connects_on, controls, ends_session, idles, is_left_parked, notice_of, plays, plays_line, queueing, some_left, world_of};
ghost use Rattle.rd_world.specs.Stations.{AreStations};
ghost use Rattle.rd_world.specs.Step.{MayHappen, event_in};
ghost use Rattle.rd_world.specs.Wire.{CountsWire, IsCut, IsCutRun, Records, StaysRecorded};
ghost use Rattle.rd_world.specs.World.{WorldState, journals_in};

use crate::asking::application_of;
use crate::event::{Event, StepNo};
use crate::noting::notice_of;
use crate::recorder::Recorder;
use crate::world::World;
use rd_base::{Item, Sink};
use rd_script::{Errand, Line, NumberedLine};
use std::alloc::{AllocError, Global};
use std::collections::BTreeSet;

/// More channels than a script's lines begin: past them it answers want of memory.
const MANY_CHANNELS: u32 = 0x8000_0000;

impl<'s> World<'s> {
    // ---- a line

    /// A line did nothing.
    fn idles(&mut self, number: u32) -> Result<(), AllocError>
        ensures { OnOk result (self.new ≡ idles self.old number) }
    {
        self.idle.push(number)?;
        Ok(())
    }

    /// An event of a line, where it can happen; else the line did nothing.
    fn by_event(
        &mut self,
        number: u32,
        event: Event,
        recorder: &mut Recorder,
    ) -> Result<(), AllocError>
        requires { MayHappen self.old event }
        ensures came { OnOk result ((starves : Key → Bool) (most : Most) → MarksAgree starves (journals_in self.new) → self.new ≡ by_event starves most self.old number (event_in event)) }
        ensures recorded { OnOk result (StaysRecorded self.old recorder.old self.new recorder.new) }
    {
        if self.enabled(&event) {
            self.act(event, recorder)
        } else {
            self.idles(number)
        }
    }

    /// What a `send` asks for.
    fn send(&mut self, number: u32, recorder: &mut Recorder) -> Result<(), AllocError>
        ensures done { OnOk result ((starves : Key → Bool) (most : Most) → controls starves most self.old number (lines.Do errands.Send) ≡ Some self.new) }
        ensures recorded { OnOk result (StaysRecorded self.old recorder.old self.new recorder.new) }
    {
        if self.enabled(&Event::HostSend) {
            self.host_send_all(recorder)
        } else {
            self.idles(number)
        }
    }

    /// What an `answer` asks for.
    fn answer(&mut self, number: u32, recorder: &mut Recorder) -> Result<(), AllocError>
        ensures done { OnOk result ((starves : Key → Bool) (most : Most) → controls starves most self.old number (lines.Do errands.Answer) ≡ Some self.new) }
        ensures recorded { OnOk result (StaysRecorded self.old recorder.old self.new recorder.new) }
    {
        if self.enabled(&Event::ClientSend) {
            self.client_send_all(recorder)
        } else {
            self.idles(number)
        }
    }

    /// Whether the client can read what is under way.
    #[tactic(auto, using(crate::proofs::DrawnLemmas::reads_all))]
    fn client_may_read(&self) -> bool
        ensures { result ≡ is_enabled self.now (client_read (length self.now.to_client.pipe)) }
    {
        self.to_client.len() > 0 && self.kept.is_none()
    }

    /// Whether the host can read what is under way.
    #[tactic(auto, using(crate::proofs::DrawnLemmas::reads_all))]
    fn host_may_read(&self) -> bool
        ensures { result ≡ is_enabled self.now (host_read (length self.now.to_host.pipe)) }
    {
        self.to_host.len() > 0
    }

    /// What a `read` asks for.
    fn read(&mut self, number: u32) -> Result<(), AllocError>
        ensures done { OnOk result ((starves : Key → Bool) (most : Most) → controls starves most self.old number (lines.Do errands.Read) ≡ Some self.new) }
        ensures recorded { OnOk result (recording_of_deeds self.new.deeds ≡ recording_of_deeds self.old.deeds) }
    {
        if self.client_may_read() {
            self.client_read_all()
        } else {
            self.idles(number)
        }
    }

    /// What a `back` asks for.
    fn read_back(&mut self, number: u32) -> Result<(), AllocError>
        ensures done { OnOk result ((starves : Key → Bool) (most : Most) → controls starves most self.old number (lines.Do errands.Back) ≡ Some self.new) }
        ensures recorded { OnOk result (recording_of_deeds self.new.deeds ≡ recording_of_deeds self.old.deeds) }
    {
        if self.host_may_read() {
            self.host_read_all()
        } else {
            self.idles(number)
        }
    }

    /// What a `do` line asks for.
    #[tactic(auto, unfolding(crate::specs::Run::controls))]
    fn errand(
        &mut self,
        number: u32,
        errand: Errand,
        recorder: &mut Recorder,
    ) -> Result<(), AllocError>
        ensures done { OnOk result ((starves : Key → Bool) (most : Most) → MarksAgree starves (journals_in self.new) → controls starves most self.old number (lines.Do errand) ≡ Some self.new) }
        ensures recorded { OnOk result (StaysRecorded self.old recorder.old self.new recorder.new) }
    {
        match errand {
            Errand::Issue { application } => self.by_event(
                number,
                Event::Issue(application),
                recorder,
            ),
            Errand::Send => self.send(number, recorder),
            Errand::Read => self.read(number),
            Errand::Take { device, hand } => self.by_event(
                number,
                Event::Take { device, hand },
                recorder,
            ),
            Errand::Apply { hand } => self.by_event(number, Event::Apply(hand), recorder),
            Errand::Collect { device } => self.by_event(number, Event::Collect(device), recorder),
            Errand::Answer => self.answer(number, recorder),
            Errand::Back => self.read_back(number),
        }
    }

    /// A channel begins, and both ends send and read until nothing is to be sent or read. Want of memory where too many channels began.
    fn begin(&mut self, recorder: &mut Recorder) -> Result<(), AllocError>
        requires { is_enabled self.old connect ≡ true }
        ensures begun { OnOk result ((most : Most) × ((starves : Key → Bool) → connects_on starves most self.old ≡ Some self.new)) }
        ensures recorded { OnOk result (StaysRecorded self.old recorder.old self.new recorder.new) }
    {
        if self.channels >= MANY_CHANNELS {
            return Err(AllocError);
        }
        self.connect_on(recorder)
    }

    /// A channel begins, unless one is open.
    #[tactic(auto, unfolding(crate::specs::Run::controls))]
    fn reconnect(&mut self, number: u32, recorder: &mut Recorder) -> Result<(), AllocError>
        ensures done { OnOk result ((most : Most) × ((starves : Key → Bool) → controls starves most self.old number lines.Connect ≡ Some self.new)) }
        ensures recorded { OnOk result (StaysRecorded self.old recorder.old self.new recorder.new) }
    {
        if self.enabled(&Event::Connect) {
            self.begin(recorder)
        } else {
            self.idles(number)
        }
    }

    /// What a line tells of a printer, if it tells anything.
    fn notice(&mut self, line: &NumberedLine, recorder: &mut Recorder) -> Result<(), AllocError>
        requires { IsNotable line.now.line }
        ensures told { OnOk result ((starves : Key → Bool) (most : Most) → MarksAgree starves (journals_in self.new) → self.new ≡ option_map_or (λ n. by_event starves most self.old line.now.number (tell n)) (notice_of line.now.line) self.old) }
        ensures recorded { OnOk result (StaysRecorded self.old recorder.old self.new recorder.new) }
    {
        match notice_of(self.alloc, &line.line)? {
            Some(notice) => self.by_event(line.number, Event::Notice(notice), recorder),
            None => Ok(()),
        }
    }

    /// What a control line does.
    #[tactic(auto, unfolding(crate::specs::Run::controls))]
    fn control<R: Sink>(
        &mut self,
        line: &NumberedLine,
        recorder: &mut Recorder,
        wire: &mut R,
    ) -> Result<(), StepNo>
        requires { IsNotable line.now.line }
        ensures controlled { OnOk result ((most : Most) × ((starves : Key → Bool) → MarksAgree starves (journals_in self.new) → controls starves most self.old line.now.number line.now.line ≡ Some self.new)) }
        ensures counted { CountsWire result (R.faults wire.old) (R.faults wire.new) }
        ensures recorded { OnOk result (Records (R.held wire.old) (R.held wire.new) self.old recorder.old self.new recorder.new) }
        ensures cut { IfErr result (λ cause. (x : WorldState) × IsCut (R.held wire.old) (R.held wire.new) self.old recorder.old (λ starves most. controls starves most self.old line.now.number line.now.line) x) }
    {
        self.stand();
        let number = line.number;
        match &line.line {
            Line::Settle => self.settle(recorder, wire),
            Line::Remove { device } => or_memory(self.by_event(
                number,
                Event::Remove(*device),
                recorder,
            )),
            Line::Add { device } => or_memory(self.by_event(number, Event::Add(*device), recorder)),
            Line::Drop => or_memory(self.by_event(number, Event::Drop, recorder)),
            Line::Connect => or_memory(self.reconnect(number, recorder)),
            Line::Do { errand } => or_memory(self.errand(number, *errand, recorder)),
            _ => or_memory(self.notice(line, recorder)),
        }
    }

    /// A line of an application may be issued after the others of that one.
    fn queue(&mut self, a: u32) -> Result<(), StepNo>
        ensures queued { OnOk result (self.new ≡ queueing self.old a) }
        ensures wanting { IfErr result (λ cause. cause ≡ no.Memory) }
    {
        if !self.applications.may_queue(a) {
            return Err(StepNo::Memory);
        }
        self.applications.queue(a);
        Ok(())
    }

    /// A line: an application's is queued, and any other does what it says.
    fn play_line<R: Sink>(
        &mut self,
        line: &NumberedLine,
        recorder: &mut Recorder,
        wire: &mut R,
    ) -> Result<(), StepNo>
        requires { IsNotable line.now.line }
        ensures played { OnOk result ((most : Most) × ((starves : Key → Bool) → MarksAgree starves (journals_in self.new) → plays_line starves most self.old line.now ≡ Some self.new)) }
        ensures counted { CountsWire result (R.faults wire.old) (R.faults wire.new) }
        ensures recorded { OnOk result (Records (R.held wire.old) (R.held wire.new) self.old recorder.old self.new recorder.new) }
        ensures cut { IfErr result (λ cause. (x : WorldState) × IsCut (R.held wire.old) (R.held wire.new) self.old recorder.old (λ starves most. plays_line starves most self.old line.now) x) }
    {
        self.stand();
        match application_of(&line.line) {
            Some(a) => self.queue(a),
            None => self.control(line, recorder, wire),
        }
    }

    // ---- a session

    /// The ids of the stations rise, and no key is named at two of them.
    pub(crate) fn stand(&self)
        ensures { AreStations self.now.stations }
    {
        self.stations.len();
    }

    /// The lines, one after the other. What is recorded goes to the wire in pieces.
    fn play<R: Sink>(
        &mut self,
        lines: &[NumberedLine],
        recorder: &mut Recorder,
        wire: &mut R,
    ) -> Result<(), StepNo>
        requires { AreNotable lines.now }
        ensures played { OnOk result ((most : Most) × ((starves : Key → Bool) → MarksAgree starves (journals_in self.new) → plays starves most lines.now self.old ≡ Some self.new)) }
        ensures kept { OnOk result (AreStations self.new.stations) }
        ensures counted { CountsWire result (R.faults wire.old) (R.faults wire.new) }
        ensures recorded { OnOk result (Records (R.held wire.old) (R.held wire.new) self.old recorder.old self.new recorder.new) }
        ensures cut { IfErr result (λ cause. (x : WorldState) × IsCut (R.held wire.old) (R.held wire.new) self.old recorder.old (λ starves most. plays starves most lines.now self.old) x) }
    {
        self.stand();
        for line in lines {
            self.play_line(line, recorder, wire)?;
            self.stand();
            if recorder.write_piece(wire).is_err() {
                return Err(StepNo::Wire);
            }
        }
        Ok(())
    }

    /// After the last settling a channel on which a request waits is dropped, and what is queued then is issued.
    fn end<R: Sink>(&mut self, recorder: &mut Recorder, wire: &mut R) -> Result<(), StepNo>
        ensures ended { OnOk result ((most : Most) × ((starves : Key → Bool) → MarksAgree starves (journals_in self.new) → ends_session starves most self.old ≡ Some self.new)) }
        ensures counted { CountsWire result (R.faults wire.old) (R.faults wire.new) }
        ensures recorded { OnOk result (Records (R.held wire.old) (R.held wire.new) self.old recorder.old self.new recorder.new) }
        ensures cut { IfErr result (λ cause. (x : WorldState) × IsCut (R.held wire.old) (R.held wire.new) self.old recorder.old (λ starves most. ends_session starves most self.old) x) }
    {
        self.stand();
        match self.is_left_waiting() {
            Ok(true) => {
                if self.drop_channel(recorder).is_err() {
                    return Err(StepNo::Memory);
                }
                self.settle(recorder, wire)
            }
            Ok(false) => Ok(()),
            Err(_) => Err(StepNo::Memory),
        }
    }

    /// Plays the lines of a script.
    pub fn run<R: Sink>(
        &mut self,
        lines: &[NumberedLine],
        recorder: &mut Recorder,
        wire: &mut R,
    ) -> Result<(), StepNo>
        requires begun { self.old ≡ world_of lines.now }
        requires notable { AreNotable lines.now }
        requires empty { recorder.old ≡ codes "RDRREC01" }
        ensures ran { OnOk result (WorldRun lines.now self.new) }
        ensures recorded { OnOk result (Appends (R.held wire.old) (R.held wire.new) (recording_of_deeds self.new.deeds)) }
        ensures cut { IfErr result (λ cause. (x : WorldState) × IsCutRun (R.held wire.old) (R.held wire.new) lines.now x) }
        ensures counted { CountsWire result (R.faults wire.old) (R.faults wire.new) }
    {
        self.stand();
        if self.begin(recorder).is_err() {
            return Err(StepNo::Memory);
        }
        self.stand();
        self.play(lines, recorder, wire)?;
        self.settle(recorder, wire)?;
        self.stand();
        self.end(recorder, wire)?;
        self.stand();
        match recorder.write_all(wire) {
            Ok(()) => Ok(()),
            Err(_) => Err(StepNo::Wire),
        }
    }

    /// Whether a channel is open on which a request is left waiting.
    fn is_left_waiting(&self) -> Result<bool, AllocError>
        ensures { IfOk result (λ left. left ≡ (is_channel_open self.now && some_left self.now)) }
    {
        if !self.side.is_open() {
            return Ok(false);
        }
        for place in 0..self.stations.len() {
            if is_some_left(self.alloc, self.stations.journal_at(place), self.channels)? {
                return Ok(true);
            }
        }
        Ok(false)
    }
}

/// Want of memory ends a session.
fn or_memory(came: Result<(), AllocError>) -> Result<(), StepNo>
    ensures came { OnOk result (IsOk came) }
    ensures wanting { IfErr result (λ cause. cause ≡ no.Memory) }
{
    match came {
        Ok(()) => Ok(()),
        Err(_) => Err(StepNo::Memory),
    }
}

/// Whether a request on a channel was left waiting, whose completion wasn't handed out.
fn is_some_left(alloc: Global, journal: &[Item], channel: u32) -> Result<bool, AllocError>
    ensures { IfOk result (λ left. left ≡ list_any (is_left_parked journal.now channel) journal.now) }
{
    let mut left = parked_on(alloc, journal, channel)?;
    take_sent(&mut left, journal, channel);
    Ok(!left.is_empty())
}

/// The indices of the requests on a channel that were left waiting.
fn parked_on(alloc: Global, journal: &[Item], channel: u32) -> Result<BTreeSet<u64>, AllocError>
    ensures { IfOk result (λ parked. (index : ℕ) → contains nat_cmp parked index ≡ is_parked_in journal.now channel index) }
{
    let mut parked = BTreeSet::new(alloc);
    for item in journal {
        if let Some(index) = parked_index(item, channel) {
            parked.insert(index)?;
        }
    }
    Ok(parked)
}

/// The index of a request on a channel that an entry says was left waiting.
fn parked_index(item: &Item, channel: u32) -> Option<u64>
    ensures { result ≡ parked_index channel item.now }
{
    match item {
        Item::Ran { key, parked, .. } => (*parked && key.channel == channel).then_some(key.index),
        _ => None,
    }
}

/// Takes out the indices of those requests on a channel whose completions were handed out.
fn take_sent(left: &mut BTreeSet<u64>, journal: &[Item], channel: u32)
    ensures { (index : ℕ) → contains nat_cmp left.new index ≡ (contains nat_cmp left.old index && not (is_sent_in journal.now channel index)) }
{
    for item in journal {
        if let Some(index) = sent_index(item, channel) {
            left.remove(&index);
        }
    }
}

/// The index of a request on a channel whose completion an entry says was handed out.
fn sent_index(item: &Item, channel: u32) -> Option<u64>
    ensures { result ≡ sent_index channel item.now }
{
    match item {
        Item::Sent(key) => (key.channel == channel).then_some(key.index),
        _ => None,
    }
}
