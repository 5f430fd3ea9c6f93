//! An application of a session.

ghost use Rattle.std.specs.Prelude.{◌≡◌, ◌<◌, ◌≤◌, ◌+◌, length, IfSome, IsTrue, OnOk, Some};
ghost use Rattle.std.specs.List.{AllByRecursion};
ghost use Rattle.std.specs.Option.{option_map_or};
ghost use Rattle.rd_script.specs.Report.{IsCountableOutcome};
ghost use Rattle.rd_script.specs.Script.{max_lines};
ghost use Rattle.rd_world.specs.Applications.{AreAsking, AsksFor, asked_lines};
ghost use Rattle.rd_world.specs.Events.{may_issue, target_of};
ghost use Rattle.rd_world.specs.Hearing.{next_asked, with_outcome};
ghost use Rattle.rd_world.specs.World.{Asked, new_application};

use crate::asking::{handle_of, opened_device};
use crate::handles::Handles;
use rd_pending::{Handle, Target};
use rd_script::{Line, NumberedLine, Outcome};
use std::alloc::{AllocError, Global};
use std::marker::Model;

/// An application of a session, whose lines stand in a script. Contracts see an `ApplicationState`.
#[derive(Drop)]
pub struct Application<'s> {
    lines: &'s [NumberedLine],
    /// Where its lines stand in the script, in order.
    places: Vec<u32>,
    /// To how many of them the script has come.
    queued: u32,
    /// The number of the request whose outcome it awaits.
    awaits: Option<u64>,
    handles: Handles,
    /// Of the lines that have one, in order.
    outcomes: Vec<Outcome>,
}

impl<'s> Model for Application<'s> {
    ghost use Rattle.std.specs.Prelude.{◌<◌, ◌≤◌, vec_len, IfSome};
    ghost use Rattle.std.specs.List.{AllByRecursion};
    ghost use Rattle.rd_script.specs.Report.{IsCountableOutcome};
    ghost use Rattle.rd_script.specs.Script.{max_lines};
    ghost use Rattle.rd_world.specs.Applications.{AreAsking, asked_lines};
    ghost use Rattle.rd_world.specs.World.{ApplicationState};

    ghost Value = { ApplicationState };

    ghost view = { λ a. record { asks = asked_lines a.lines.now a.places.items; queued = a.queued; awaits = a.awaits; handles = a.handles; outcomes = a.outcomes.items } };

    ghost invariant = { λ a. (a.queued ≤ vec_len a.places) × (vec_len a.places ≤ max_lines) × AreAsking a.lines.now a.places.items
        × (vec_len a.outcomes ≤ a.queued) × IfSome a.awaits (λ n. vec_len a.outcomes < a.queued)
        × AllByRecursion IsCountableOutcome a.outcomes.items };
}

impl<'s> Application<'s> {
    /// One whose lines stand at these places of a script, to none of which that has come.
    pub fn new(alloc: Global, lines: &'s [NumberedLine], places: Vec<u32>) -> Self
        requires asking { AreAsking lines.now places.items }
        requires few { length places.items ≤ max_lines }
        ensures { result ≡ record new_application { asks = asked_lines lines.now places.items } }
    {
        Application {
            lines,
            places,
            queued: 0,
            awaits: None,
            handles: Handles::new(alloc),
            outcomes: Vec::new(alloc),
        }
    }

    /// Whether it may issue its next line.
    pub fn may_issue(&self) -> bool
        ensures { result ≡ may_issue self.now }
    {
        self.outcomes.len() < self.queued as usize && self.awaits.is_none()
    }

    /// Whether the script may come to one line more of it.
    pub fn may_queue(&self) -> bool
        ensures { IsTrue result → self.now.queued < length self.now.asks }
    {
        (self.queued as usize) < self.places.len()
    }

    /// The script comes to one line more of it.
    pub fn queue(&mut self)
        requires { self.old.queued < length self.old.asks }
        ensures { self.new ≡ record self.old { queued = self.old.queued + 1 } }
    {
        self.queued += 1;
    }

    /// Its next line, or the one that awaits its outcome.
    pub fn next(&self) -> &'s Line
        requires { length self.now.outcomes < self.now.queued }
        ensures { (asked : Asked) × (next_asked self.now ≡ Some asked) × AsksFor asked result.now }
    {
        let place = self.places[self.outcomes.len()];
        &self.lines[place as usize].line
    }

    /// What a line of it names: the device of which it opens a file, or what its handle holds.
    pub fn target(&self, line: &Line) -> Option<Target>
        ensures { (asked : Asked) → AsksFor asked line.now → result ≡ target_of self.now asked }
    {
        if let Some(device) = opened_device(line) {
            return Some(Target::Device(device));
        }
        let name = handle_of(line)?;
        let handle = self.handles.get(name.as_slice())?;
        Some(Target::Handle(handle))
    }

    /// The number of the request whose outcome it awaits.
    pub fn awaits(&self) -> Option<u64>
        ensures number { result ≡ self.now.awaits }
        ensures queued { IfSome result (λ n. length self.now.outcomes < self.now.queued) }
    {
        self.awaits
    }

    /// It awaits the outcome of this number.
    pub fn await_outcome(&mut self, number: u64)
        requires { length self.old.outcomes < self.old.queued }
        ensures { self.new ≡ record self.old { awaits = Some number } }
    {
        self.awaits = Some(number);
    }

    /// Its next line has this outcome, and where it opens a file its handle holds what was given.
    #[tactic(auto, using(rd_drive::proofs::AllLemmas::all_append))]
    pub fn end_line(&mut self, outcome: Outcome, given: Option<Handle>) -> Result<(), AllocError>
        requires more { length self.old.outcomes < self.old.queued }
        requires countable { IsCountableOutcome outcome }
        ensures { OnOk result (self.new ≡ option_map_or (λ asked. with_outcome self.old outcome given asked) (next_asked self.old) self.old) }
    {
        let line = self.next();
        if opened_device(line).is_some() {
            if let Some(name) = handle_of(line) {
                self.handles.set(name.as_slice(), given)?;
            }
        }
        self.awaits = None;
        self.outcomes.push(outcome)?;
        Ok(())
    }

    /// The outcomes of the lines that have one, in order.
    pub fn finish(self) -> Vec<Outcome>
        ensures outcomes { result.items ≡ self.entry.outcomes }
        ensures few { length result.items ≤ max_lines }
        ensures countable { AllByRecursion IsCountableOutcome result.items }
    {
        let Application { outcomes, .. } = self;
        outcomes
    }
}
