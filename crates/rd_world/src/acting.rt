//! What comes of each event of a session.

ghost use Rattle.std.specs.Prelude.{◌≡◌, ◌<◌, ◌++◌, ℕ, Bool, fold, if◌then◌else◌, length, map, true, IfOk, IsSome, IsTrue, None, OnOk};
ghost use Rattle.std.specs.Map.{lookup};
ghost use Rattle.std.specs.BTreeMap.{is_at};
ghost use Rattle.std.specs.Ordering.{nat_cmp};
ghost use Rattle.rd_base.specs.declared.journal.Key.{Key};
ghost use Rattle.rd_client.specs.Core.{MayTellAdded, MayTellRemoved, tell_added};
ghost use Rattle.rd_host.specs.Core.{MayTell};
ghost use Rattle.rd_script.specs.declared.outcome.Outcome.TheVariants as outcome;
ghost use Rattle.rd_world.specs.Applications.{application_in};
ghost use Rattle.rd_world.specs.Hands.{is_free_hand, is_full_hand};
ghost use Rattle.rd_declared.specs.Devices.{PrinterNames};
ghost use Rattle.rd_world.specs.Hearing.{ends_line, tries_kept, with_client};
ghost use Rattle.rd_declared.specs.Marks.{MarksAgree};
ghost use Rattle.rd_world.specs.Step.{recorded_by};
ghost use Rattle.rd_deeds.specs.Talk.{adds};
ghost use Rattle.rd_world.specs.World.{journals_in, marks_of, with_deed};
ghost use Rattle.rd_world.specs.Events as event;
ghost use Rattle.rd_world.specs.Events.{adds_device, applies_job, client_sends_next, collects, connects, cutting, drops, host_sends_next, issues, may_issue, refreshing, removes_device, removing, takes_job, telling_of};

use crate::asking::op_of;
use crate::recorder::Recorder;
use crate::way::Way;
use crate::world::World;
use rd_drive::prepare;
use rd_irp::{Head, write_completion};
use rd_pending::{SubmitNo, may_submit};
use rd_printer::Notice;
use rd_script::{Outcome, Refusal};
use rd_station::Given;
use std::alloc::AllocError;

impl<'s> World<'s> {
    /// An application issues its next line.
    #[tactic(auto, using(rd_pending::proofs::Reaching::not_submitted))]
    pub(crate) fn issue(&mut self, a: u32) -> Result<(), AllocError>
        requires there { IsSome (lookup (is_at (nat_cmp a)) self.old.applications) }
        requires may { may_issue (application_in self.old.applications a) ≡ true }
        ensures { OnOk result (self.new ≡ issues self.old a) }
    {
        let line = self.applications.next(a);
        let Some(target) = self.applications.target(a, line) else {
            return self.refuse(a, Refusal::NoHandle);
        };
        let Some(op) = op_of(line)? else {
            unreachable!();
        };
        if !may_submit(target, &op) {
            return Err(AllocError);
        }
        let submitted = self.deeds.becoming(&(a, target, &op));
        match self.side.submit(a, target, op) {
            Ok(number) => {
                self.deeds = submitted;
                self.applications.await_outcome(a, number);
                Ok(())
            }
            Err(SubmitNo::NoChannel) => self.refuse(a, Refusal::NoChannel),
            Err(SubmitNo::NoDevice) => self.refuse(a, Refusal::NoDevice),
            Err(SubmitNo::StaleHandle { .. }) => self.refuse(a, Refusal::StaleHandle),
            Err(SubmitNo::Full { .. }) => self.refuse(a, Refusal::Full),
            Err(SubmitNo::Worn { .. }) => self.refuse(a, Refusal::Worn),
            Err(SubmitNo::Memory) => Err(AllocError),
        }
    }

    /// The next line of an application is refused.
    fn refuse(&mut self, a: u32, why: Refusal) -> Result<(), AllocError>
        requires there { IsSome (lookup (is_at (nat_cmp a)) self.old.applications) }
        requires more { length (application_in self.old.applications a).outcomes < (application_in self.old.applications a).queued }
        ensures { OnOk result (self.new ≡ ends_line self.old a (outcome.Refused why) None) }
    {
        self.applications.end_line(a, Outcome::Refused(why), None)
    }

    /// The host sends the message that is next.
    #[tactic(auto, using(crate::proofs::StepLemmas::nothing_more))]
    pub(crate) fn host_send(&mut self, recorder: &mut Recorder) -> Result<(), AllocError>
        ensures sent { OnOk result (self.new ≡ host_sends_next self.old) }
        ensures recorded { OnOk result (recorder.new ≡ recorder.old ++ recorded_by self.old event.host_send) }
    {
        if self.to_client.has_ended() {
            return Err(AllocError);
        }
        if let Some(message) = self.side.send() {
            self.deeds = self.deeds.becoming(&(self.channels, &message));
            self.to_client.carry(message.as_slice())?;
            recorder.host_sent(message.as_slice())?;
        }
        Ok(())
    }

    /// The client sends its first message.
    #[tactic(auto, using(crate::proofs::StepLemmas::nothing_more))]
    pub(crate) fn client_send(&mut self, recorder: &mut Recorder) -> Result<(), AllocError>
        ensures sent { OnOk result (self.new ≡ client_sends_next self.old) }
        ensures recorded { OnOk result (recorder.new ≡ recorder.old ++ recorded_by self.old event.client_send) }
    {
        if self.to_host.has_ended() {
            return Err(AllocError);
        }
        self.deeds = self.deeds.becoming(&(self.channels, &self.client));
        if let Some(message) = self.client.outbox() {
            self.to_host.carry(message.as_slice())?;
            recorder.client_sent(message.as_slice())?;
        }
        Ok(())
    }

    /// A completion of a device is collected and sent, and a job that was kept back is tried again.
    pub(crate) fn collect(&mut self, device: u32, recorder: &mut Recorder) -> Result<(), AllocError>
        ensures collected { OnOk result (self.new ≡ collects self.old device) }
        ensures recorded { OnOk result (recorder.new ≡ recorder.old ++ recorded_by self.old (event.collect device)) }
    {
        if self.send_completion(device, recorder)? {
            return self.try_kept(device);
        }
        Ok(())
    }

    /// A completion of a device is collected and sent. False where it has none.
    #[tactic(auto, using(crate::proofs::StepLemmas::collected, crate::proofs::StepLemmas::collected_none, crate::proofs::StepLemmas::nothing_more, crate::proofs::StepLemmas::next_collected, crate::proofs::StepLemmas::none_collected))]
    fn send_completion(&mut self, device: u32, recorder: &mut Recorder) -> Result<bool, AllocError>
        ensures collected { IfOk result (λ sent. collects self.old device ≡ (if sent then tries_kept self.new device else self.new)) }
        ensures recorded { IfOk result (λ sent. recorder.new ≡ recorder.old ++ recorded_by self.old (event.collect device)) }
    {
        let Some(place) = self.stations.place_of(device) else {
            return Ok(false);
        };
        if self.to_host.has_ended() {
            return Err(AllocError);
        }
        let Some(completion) = self.stations.collect(place) else {
            return Ok(false);
        };
        let head = Head {
            device,
            completion: completion.completion,
            status: completion.reply.status,
        };
        let message = write_completion(self.alloc, completion.kind, &head, &completion.reply.body)?;
        self.deeds = self.deeds.becoming(&(device, completion.key, &message));
        self.to_host.carry(message.as_slice())?;
        recorder.client_sent(message.as_slice())?;
        Ok(true)
    }

    /// A hand takes the job of a device that came first.
    #[tactic(auto, using(crate::proofs::StepLemmas::took_job, crate::proofs::StepLemmas::took_none))]
    pub(crate) fn take_job(&mut self, device: u32, hand: u32)
        requires { IsTrue (is_free_hand self.old.hands hand) }
        ensures { self.new ≡ takes_job self.old device hand }
    {
        let Some(place) = self.stations.place_of(device) else {
            return;
        };
        match self.stations.take(place) {
            Given::Job(job) => self.hands.put(hand, device, job),
            Given::Nothing => {}
            Given::Over => {}
        }
    }

    /// A hand's job is run at the moment of the session, unless its station has it no more.
    #[tactic(auto, using(crate::proofs::StepLemmas::applied, crate::proofs::StepLemmas::applied_nowhere))]
    pub(crate) fn apply(&mut self, hand: u32)
        requires { IsTrue (is_full_hand self.old.hands hand) }
        ensures applied { (starves : Key → Bool) → MarksAgree starves (journals_in self.new) → self.new ≡ applies_job starves self.old hand }
        ensures marked { self.new ≡ applies_job (marks_of self.new) self.old hand }
    {
        let Some((device, job)) = self.hands.take(hand) else {
            return;
        };
        let Some(place) = self.stations.place_of(device) else {
            return;
        };
        let count = self.stations.journal_at(place).len();
        let plan = prepare(self.alloc, job);
        self.stations.apply(place, plan, self.moment);
        self.deeds = self.deeds.becoming(&(device, count, &self.stations));
    }

    /// The client tells that a device is gone, which is cut off at its station. A job of it that was kept back is tried again.
    pub(crate) fn remove(&mut self, device: u32) -> Result<(), AllocError>
        requires { MayTellRemoved self.old.client device }
        ensures { OnOk result (self.new ≡ removes_device self.old device) }
    {
        self.cut_off(device)?;
        self.try_kept(device)
    }

    /// The client tells that a device is gone, which is cut off at its station.
    #[tactic(auto, using(crate::proofs::CutLemmas::removed, crate::proofs::CutLemmas::not_there))]
    fn cut_off(&mut self, device: u32) -> Result<(), AllocError>
        requires { MayTellRemoved self.old.client device }
        ensures { OnOk result (self.new ≡ removing self.old device) }
    {
        self.client.tell_removed(device)?;
        self.deeds = self.deeds.becoming(&(device, &self.stations));
        if let Some(place) = self.stations.place_of(device) {
            self.stations.remove(place);
        }
        Ok(())
    }

    /// The client tells that a device is there again, with the data of a printer as it is kept now.
    pub(crate) fn add(&mut self, device: u32) -> Result<(), AllocError>
        requires { MayTellAdded self.old.client device }
        ensures { OnOk result (self.new ≡ adds_device self.old device) }
    {
        self.refresh(device)?;
        self.tell_added(device)?;
        self.announce(device)
    }

    /// The client tells that a device is there again.
    fn tell_added(&mut self, device: u32) -> Result<(), AllocError>
        requires { MayTellAdded self.old.client device }
        ensures { OnOk result (self.new ≡ with_deed (with_client self.old (tell_added self.old.client device)) (adds device)) }
    {
        self.deeds = self.deeds.becoming(&device);
        self.client.tell_added(device)
    }

    /// The data of a printer's announcement is that of what is kept for it now.
    fn refresh(&mut self, device: u32) -> Result<(), AllocError>
        ensures { OnOk result (self.new ≡ refreshing self.old device) }
    {
        if let Some(data) = self.printers.data(self.alloc, device, &self.cache)? {
            self.client.refresh(device, data);
        }
        Ok(())
    }

    /// The channel ends, and the applications take what came of their requests.
    pub(crate) fn drop_channel(&mut self, recorder: &mut Recorder) -> Result<(), AllocError>
        ensures dropped { OnOk result (self.new ≡ drops self.old) }
        ensures recorded { OnOk result (recorder.new ≡ recorder.old ++ recorded_by self.old event.drop_channel) }
    {
        self.cut_channel();
        recorder.end()?;
        self.all_take()
    }

    /// Nothing is under way or to be sent or handled any more, no job is kept back, and each device that is there is cut off.
    fn cut_channel(&mut self)
        ensures { self.new ≡ cutting self.old }
    {
        self.deeds = self.deeds.becoming(&(self.channels, &self.stations));
        self.stations.drop_all();
        self.side.end();
        self.client.clear();
        self.to_client.end();
        self.to_host.end();
        self.kept = None;
    }

    /// A channel begins.
    #[tactic(auto, using(crate::proofs::RoundsLemmas::refreshed_side, crate::proofs::RoundsLemmas::refreshed_channels))]
    pub(crate) fn connect(&mut self, recorder: &mut Recorder) -> Result<(), AllocError>
        ensures begun { OnOk result (self.new ≡ connects self.old) }
        ensures recorded { OnOk result (recorder.new ≡ recorder.old ++ recorded_by self.old event.connect) }
    {
        self.refresh_all()?;
        let Some(channel) = self.channels.checked_add(1) else {
            return Err(AllocError);
        };
        self.deeds = self.deeds.becoming(&channel);
        if !self.side.may_begin(channel) {
            return Err(AllocError);
        }
        self.side.begin(channel)?;
        self.client.begin(channel);
        self.channels = channel;
        self.to_client = Way::new(self.alloc);
        self.to_host = Way::new(self.alloc);
        recorder.begin()
    }

    /// The data of each printer's announcement is that of what is kept for it now.
    fn refresh_all(&mut self) -> Result<(), AllocError>
        ensures { OnOk result (self.new ≡ fold refreshing self.old (map (λ (e : ℕ × PrinterNames). e.0) self.old.printers)) }
    {
        for place in 0..self.printers.len() {
            let device = self.printers.id_at(place);
            self.refresh(device)?;
        }
        Ok(())
    }

    /// The host tells the client of a printer.
    pub(crate) fn tell(&mut self, notice: &Notice) -> Result<(), AllocError>
        requires { MayTell self.old.side.core notice.now }
        ensures { OnOk result (self.new ≡ telling_of self.old notice.now) }
    {
        self.deeds = self.deeds.becoming(&notice);
        self.side.tell(notice)
    }
}
