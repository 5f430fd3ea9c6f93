//! Draws among what can happen by itself.
//!
//! Cost: a draw counts the set bits of five words, and picks by one of them; no application, device or hand is walked over.

ghost use Rattle.std.specs.Prelude.{◌≡◌, ◌+◌, ◌++◌, ◌<◌, ◌≤◌, ℕ, Bool, true, length, map, max, min, IfErr, OnOk, Some};
ghost use Rattle.rd_base.specs.declared.journal.Key.{Key};
ghost use Rattle.std.specs.List.{AllByRecursion};
ghost use Rattle.rd_world.specs.Choices.{choices_in};
ghost use Rattle.rd_world.specs.Drawn.{HasPlaces, can_happen, next_step_of};
ghost use Rattle.rd_world.specs.Hearing.{client_handles_all, host_handles_all};
ghost use Rattle.rd_declared.specs.Marks.{MarksAgree};
ghost use Rattle.rd_world.specs.Run.{choices, chosen, device_ids, drawing, drawn_count, picked, settled};
ghost use Rattle.rd_world.specs.Stations.{AreStations};
ghost use Rattle.rd_world.specs.Step.{recorded_next};
ghost use Rattle.rd_world.specs.Wire.{MarksOwnRuns, CountsWire, IsCut, Records};
ghost use Rattle.rd_world.specs.World.{WorldState, having_read, journals_in, marks_of};

use crate::bits::Bits;
use crate::choices::{Choice, Choices};
use crate::event::StepNo;
use crate::recorder::Recorder;
use crate::world::World;
use rd_base::Sink;
use std::alloc::AllocError;

impl<'s> World<'s> {
    /// What can happen by itself.
    fn choices(&self) -> Choices
        ensures drawn { map (next_step_of (device_ids self.now)) (choices_in result) ≡ choices self.now }
        ensures placed { AllByRecursion (HasPlaces (length self.now.stations)) (choices_in result) }
        ensures kept { AreStations self.now.stations }
    {
        let client_sends = self.client.has_message();
        Choices {
            issues: self.applications.issuing().copy(),
            host_sends: self.side.has_message(),
            client_reads: self.to_client.len() > 0 && self.kept.is_none(),
            client_sends,
            collects: if client_sends {
                Bits::new()
            } else {
                self.stations.ready().copy()
            },
            host_reads: self.to_host.len() > 0,
            waiting: self.stations.waiting().copy(),
            free: self.hands.free().copy(),
            full: self.hands.full().copy(),
        }
    }

    /// The draws go on.
    fn draw(&mut self)
        ensures { self.new ≡ drawing self.old }
    {
        self.draws = self
            .draws
            .wrapping_mul(6_364_136_223_846_793_005)
            .wrapping_add(1_442_695_040_888_963_407);
    }

    /// The place of the choice that is drawn among so many.
    fn picked(&self, choices: u32) -> u32
        requires { 0 < choices }
        ensures { result ≡ picked self.now.draws choices }
    {
        ((self.draws >> 33) % u64::from(choices)) as u32
    }

    /// How many of the bytes under way a read takes: one, and a further draw.
    fn drawn_count(&mut self, waiting: usize) -> usize
        requires { 0 < waiting }
        ensures drawn { self.new ≡ drawing self.old }
        ensures count { result ≡ 1 + picked (drawing self.old).draws (min (max 1 self.old.piece) waiting) }
        ensures within { result ≤ waiting }
    {
        self.draw();
        let most = (self.piece.max(1) as usize).min(waiting);
        1 + self.picked(most as u32) as usize
    }

    /// The client reads as many bytes as are drawn.
    fn client_read_drawn(&mut self) -> Result<(), AllocError>
        requires { 0 < length self.old.to_client.pipe }
        ensures { OnOk result (let x = drawing self.old in self.new ≡ client_handles_all (record x { to_client = having_read (drawn_count x x.to_client.pipe) x.to_client })) }
    {
        let waiting = self.to_client.len();
        let count = self.drawn_count(waiting);
        self.client_read(count)
    }

    /// The host reads as many bytes as are drawn.
    fn host_read_drawn(&mut self) -> Result<(), AllocError>
        requires { 0 < length self.old.to_host.pipe }
        ensures { OnOk result (let x = drawing self.old in self.new ≡ host_handles_all (record x { to_host = having_read (drawn_count x x.to_host.pipe) x.to_host })) }
    {
        let waiting = self.to_host.len();
        let count = self.drawn_count(waiting);
        self.host_read(count)
    }

    /// What comes of a choice that can be drawn.
    #[tactic(auto, using(crate::proofs::StepLemmas::nothing_more))]
    fn choose(&mut self, choice: Choice, recorder: &mut Recorder) -> Result<(), AllocError>
        requires can { can_happen self.old (next_step_of (device_ids self.old) choice) ≡ true }
        requires placed { HasPlaces (length self.old.stations) choice }
        ensures chosen { OnOk result ((starves : Key → Bool) → MarksAgree starves (journals_in self.new) → self.new ≡ chosen starves self.old (next_step_of (device_ids self.old) choice)) }
        ensures marked { OnOk result (self.new ≡ chosen (marks_of self.new) self.old (next_step_of (device_ids self.old) choice)) }
        ensures recorded { OnOk result (recorder.new ≡ recorder.old ++ recorded_next self.old (next_step_of (device_ids self.old) choice)) }
    {
        match choice {
            Choice::Issue(place) => self.issue(place + 1),
            Choice::HostSend => self.host_send(recorder),
            Choice::ClientRead => self.client_read_drawn(),
            Choice::ClientSend => self.client_send(recorder),
            Choice::Collect(place) => {
                let device = self.stations.id_at(place as usize);
                self.collect(device, recorder)
            }
            Choice::HostRead => self.host_read_drawn(),
            Choice::Take { device, hand } => {
                let device = self.stations.id_at(device as usize);
                self.take_job(device, hand + 1);
                Ok(())
            }
            Choice::Apply(hand) => {
                self.apply(hand + 1);
                Ok(())
            }
        }
    }

    /// Draws until nothing can happen by itself. What is recorded goes to the wire in pieces.
    pub fn settle<R: Sink>(&mut self, recorder: &mut Recorder, wire: &mut R) -> Result<(), StepNo>
        ensures settled { OnOk result ((most : ℕ) × ((starves : Key → Bool) → MarksAgree starves (journals_in self.new) → settled starves most self.old ≡ Some self.new)) }
        ensures marked { OnOk result (MarksOwnRuns self.new) }
        ensures counted { CountsWire result (R.faults wire.old) (R.faults wire.new) }
        ensures recorded { OnOk result (Records (R.held wire.old) (R.held wire.new) self.old recorder.old self.new recorder.new) }
        ensures cut { IfErr result (λ cause. (x : WorldState) × IsCut (R.held wire.old) (R.held wire.new) self.old recorder.old (λ starves most. settled starves most.draws self.old) x) }
    {
        'settling: for _ in 0..u64::MAX {
            let choices = self.choices();
            let count = choices.count();
            if count == 0 {
                return Ok(());
            }
            self.draw();
            let choice = choices.pick(self.picked(count));
            if self.choose(choice, recorder).is_err() {
                return Err(StepNo::Memory);
            }
            if recorder.write_piece(wire).is_err() {
                self.stand();
                return Err(StepNo::Wire);
            }
        }
        self.stand();
        Err(StepNo::Memory)
    }
}
