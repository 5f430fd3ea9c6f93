//! One step of a session.

ghost use Rattle.std.specs.Prelude.{◌≡◌, ◌≤◌, ◌++◌, Bool, false, true, length, IfErr, OnOk, Err};
ghost use Rattle.rd_base.specs.declared.journal.Key.{Key};
ghost use Rattle.rd_world.specs.declared.event.StepNo.TheVariants as no;
ghost use Rattle.rd_world.specs.Events.{WorldStep, act, has_completion, is_enabled, is_read, is_ready, job_waits};
ghost use Rattle.rd_world.specs.Hearing.{client_handles_all, host_handles_all};
ghost use Rattle.rd_declared.specs.Marks.{MarksAgree};
ghost use Rattle.rd_world.specs.Step.{MayHappen, event_in, recorded_by};
ghost use Rattle.rd_world.specs.World.{having_read, journals_in, marks_of};

use crate::event::{Event, StepNo};
use crate::recorder::Recorder;
use crate::way::Way;
use crate::world::World;
use rd_chunk::Joiner;
use std::alloc::AllocError;

impl<'s> World<'s> {
    /// Whether an event can happen.
    pub fn enabled(&self, event: &Event) -> bool
        ensures { result ≡ is_enabled self.now (event_in event.now) }
    {
        match event {
            Event::Issue(a) => self.applications.may_issue(*a),
            Event::HostSend => self.side.has_message(),
            Event::ClientRead(count) => may_read(&self.to_client, *count) && self.kept.is_none(),
            Event::ClientSend => self.client.has_message(),
            Event::Collect(device) => !self.client.has_message() && self.has_completion(*device),
            Event::HostRead(count) => may_read(&self.to_host, *count),
            Event::Take { device, hand } => self.hands.is_free(*hand) && self.job_waits(*device),
            Event::Apply(hand) => self.hands.is_full(*hand),
            Event::Remove(device) => {
                self.is_ready() && self.client.has_device(*device) && !self.client.is_gone(*device)
            }
            Event::Add(device) => self.is_ready() && self.client.is_gone(*device),
            Event::Drop => self.side.is_open(),
            Event::Connect => !self.side.is_open(),
            Event::Notice(_) => self.side.is_open() && self.side.is_ready(),
        }
    }

    /// Whether a channel is ready.
    fn is_ready(&self) -> bool
        ensures { result ≡ is_ready self.now }
    {
        self.side.is_open() && self.client.ready()
    }

    /// Whether a completion of a device can be collected.
    fn has_completion(&self, device: u32) -> bool
        ensures { result ≡ has_completion self.now device }
    {
        match self.stations.place_of(device) {
            Some(place) => self.stations.ready().has(place as u32),
            None => false,
        }
    }

    /// Whether a job of a device waits for a hand.
    fn job_waits(&self, device: u32) -> bool
        ensures { result ≡ job_waits self.now device }
    {
        match self.stations.place_of(device) {
            Some(place) => self.stations.waiting().has(place as u32),
            None => false,
        }
    }

    /// One step of a session: an event, where it can happen; else nothing changes. The recording gets what is written by it. After want of memory nothing
    /// is said of the session.
    pub fn step(&mut self, event: Event, recorder: &mut Recorder) -> Result<(), StepNo>
        requires { MayHappen self.old event }
        ensures stepped { OnOk result (WorldStep self.old (event_in event) self.new) }
        ensures recorded { OnOk result (recorder.new ≡ recorder.old ++ recorded_by self.old (event_in event)) }
        ensures disabled { is_enabled self.old (event_in event) ≡ false → (result ≡ Err (no.Disabled event)) × ((self.new ≡ self.old) × (recorder.new ≡ recorder.old)) }
        ensures wanting { is_enabled self.old (event_in event) ≡ true → IfErr result (λ cause. cause ≡ no.Memory) }
    {
        if !self.enabled(&event) {
            return Err(StepNo::Disabled(event));
        }
        match self.act(event, recorder) {
            Ok(()) => Ok(()),
            Err(_) => Err(StepNo::Memory),
        }
    }

    /// What comes of an event that can happen.
    #[tactic(auto, using(crate::proofs::StepLemmas::nothing_more))]
    pub(crate) fn act(&mut self, event: Event, recorder: &mut Recorder) -> Result<(), AllocError>
        requires may { MayHappen self.old event }
        requires enabled { is_enabled self.old (event_in event) ≡ true }
        ensures acted { OnOk result ((starves : Key → Bool) → MarksAgree starves (journals_in self.new) → self.new ≡ act starves self.old (event_in event)) }
        ensures recorded { OnOk result (recorder.new ≡ recorder.old ++ recorded_by self.old (event_in event)) }
        ensures marked { OnOk result (self.new ≡ act (marks_of self.new) self.old (event_in event)) }
    {
        match event {
            Event::Issue(a) => self.issue(a),
            Event::HostSend => self.host_send(recorder),
            Event::ClientRead(count) => self.client_read(count as usize),
            Event::ClientSend => self.client_send(recorder),
            Event::Collect(device) => self.collect(device, recorder),
            Event::HostRead(count) => self.host_read(count as usize),
            Event::Take { device, hand } => {
                self.take_job(device, hand);
                Ok(())
            }
            Event::Apply(hand) => {
                self.apply(hand);
                Ok(())
            }
            Event::Remove(device) => self.remove(device),
            Event::Add(device) => self.add(device),
            Event::Drop => self.drop_channel(recorder),
            Event::Connect => self.connect(recorder),
            Event::Notice(notice) => self.tell(&notice),
        }
    }

    /// The client's joiner, which stands for the bytes that the client handled.
    pub fn client_joiner(&self) -> &Joiner
        ensures taken { result.now.taken ≡ self.now.to_client.taken }
    {
        self.to_client.joiner()
    }

    /// The host's joiner, which stands for the bytes that the host handled.
    pub fn host_joiner(&self) -> &Joiner
        ensures taken { result.now.taken ≡ self.now.to_host.taken }
    {
        self.to_host.joiner()
    }

    /// The client reads so many bytes, and handles what it can.
    pub(crate) fn client_read(&mut self, count: usize) -> Result<(), AllocError>
        requires { count ≤ length self.old.to_client.pipe }
        ensures { OnOk result (self.new ≡ client_handles_all (record self.old { to_client = having_read count self.old.to_client })) }
    {
        self.to_client.read(count);
        self.client_handle_all()
    }

    /// The host reads so many bytes, and handles them.
    pub(crate) fn host_read(&mut self, count: usize) -> Result<(), AllocError>
        requires { count ≤ length self.old.to_host.pipe }
        ensures { OnOk result (self.new ≡ host_handles_all (record self.old { to_host = having_read count self.old.to_host })) }
    {
        self.to_host.read(count);
        self.host_handle_all()
    }
}

/// Whether so many bytes, and at least one, are under way.
fn may_read(way: &Way, count: u32) -> bool
    ensures { result ≡ is_read way.now.pipe count }
{
    count > 0 && count as usize <= way.len()
}
