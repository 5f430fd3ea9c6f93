//! The applications of a session, and which of them have something to do.
//!
//! Cost: an application is found among 64 by its number; after each call two bits are marked. `new` goes over the lines once.

ghost use Rattle.std.specs.Prelude.{◌≡◌, ◌<◌, ◌+◌, ◌-◌, length, map, is_some, IfOk, IfSome, IsTrue, OnOk, Some};
ghost use Rattle.std.specs.Option.{option_map_or};
ghost use Rattle.std.specs.Ordering.{nat_cmp};
ghost use Rattle.std.specs.BTreeMap.{insert_entry};
ghost use Rattle.rd_script.specs.declared.line.NumberedLine.{NumberedLine};
ghost use Rattle.rd_script.specs.Report.{IsCountableOutcome};
ghost use Rattle.rd_world.specs.Applications.{AreApplications, ArePlaced, AreNumbered, AsksFor, FindsPlace, IsNumber, IsThere, application_in, awaits_at, issues_at};
ghost use Rattle.rd_world.specs.Bits.{IsMarked, Marks, has, where_holds};
ghost use Rattle.rd_world.specs.Events.{may_issue, target_of};
ghost use Rattle.rd_world.specs.Hearing.{next_asked, with_outcome};
ghost use Rattle.rd_world.specs.Run.{applications_of};
ghost use Rattle.rd_world.specs.World.{Asked};

use crate::application::Application;
use crate::asking::application_of;
use crate::bits::Bits;
use rd_pending::{Handle, Target};
use rd_script::{Line, NumberedLine, Outcome};
use std::alloc::{AllocError, Global};
use std::collections::BTreeMap;
use std::marker::Model;

/// The applications of a session by their numbers, 1 to 64. Contracts see the number of each beside its `ApplicationState`, by rising numbers.
#[derive(Drop)]
pub struct Applications<'s> {
    by_number: BTreeMap<u32, Application<'s>>,
    /// The places of those that may issue their next line, each its number less one.
    issuing: Bits,
    /// The places of those that await an outcome.
    awaiting: Bits,
}

impl<'s> Model for Applications<'s> {
    ghost use Rattle.std.specs.Prelude.{ℕ, List};
    ghost use Rattle.rd_world.specs.Applications.{KeepsApplications};
    ghost use Rattle.rd_world.specs.World.{ApplicationState};

    ghost Value = { List (ℕ × ApplicationState) };

    ghost view = { λ s. s.by_number.entries };

    ghost invariant = { λ s. KeepsApplications s.by_number.entries s.issuing s.awaiting };
}

impl<'s> Applications<'s> {
    /// The applications of a script's lines, to none of which that has come.
    pub fn new(alloc: Global, lines: &'s [NumberedLine]) -> Result<Self, AllocError>
        requires { AreNumbered lines.now }
        ensures made { IfOk result (λ made. made ≡ applications_of (map (λ (l : NumberedLine). l.line) lines.now)) }
        ensures kept { IfOk result (λ made. AreApplications made) }
    {
        let mut by_number = BTreeMap::new(alloc);
        for (number, places) in places_of(alloc, lines)? {
            by_number.insert(number, Application::new(alloc, lines, places))?;
        }
        Ok(Applications {
            by_number,
            issuing: Bits::new(),
            awaiting: Bits::new(),
        })
    }

    /// The places of those that may issue their next line, each its number less one.
    pub fn issuing(&self) -> &Bits
        ensures places { where_holds (has result.now) 64 ≡ where_holds (issues_at self.now) 64 }
        ensures marks { Marks result.now (issues_at self.now) 64 }
        ensures kept { AreApplications self.now }
    {
        &self.issuing
    }

    /// The places of those that await an outcome, each its number less one.
    pub fn awaiting(&self) -> &Bits
        ensures places { where_holds (has result.now) 64 ≡ where_holds (awaits_at self.now) 64 }
        ensures marks { Marks result.now (awaits_at self.now) 64 }
        ensures kept { AreApplications self.now }
    {
        &self.awaiting
    }

    /// Whether there is one with this number and it may issue its next line.
    pub fn may_issue(&self, number: u32) -> bool
        ensures may { result ≡ may_issue (application_in self.now number) }
        ensures there { IsTrue result → IsThere self.now number }
    {
        match self.by_number.get(&number) {
            Some(application) => application.may_issue(),
            None => false,
        }
    }

    /// Whether there is one with this number and the script may come to one line more of it.
    pub fn may_queue(&self, number: u32) -> bool
        ensures there { IsTrue result → IsThere self.now number }
        ensures more { IsTrue result → (application_in self.now number).queued < length (application_in self.now number).asks }
    {
        match self.by_number.get(&number) {
            Some(application) => application.may_queue(),
            None => false,
        }
    }

    /// The script comes to one line more of an application.
    pub fn queue(&mut self, number: u32)
        requires there { IsThere self.old number }
        requires more { (application_in self.old number).queued < length (application_in self.old number).asks }
        ensures queued { let x = application_in self.old number in self.new ≡ insert_entry nat_cmp self.old number (record x { queued = x.queued + 1 }) }
        ensures kept { AreApplications self.new }
    {
        let Some(application) = self.by_number.get_mut(&number) else {
            unreachable!()
        };
        application.queue();
        mark(&mut self.issuing, &mut self.awaiting, number, application);
    }

    /// The next line of an application, or the one that awaits its outcome.
    pub fn next(&self, number: u32) -> &'s Line
        requires there { IsThere self.now number }
        requires more { length (application_in self.now number).outcomes < (application_in self.now number).queued }
        ensures { (asked : Asked) × (next_asked (application_in self.now number) ≡ Some asked) × AsksFor asked result.now }
    {
        let Some(application) = self.by_number.get(&number) else {
            unreachable!()
        };
        application.next()
    }

    /// What a line of an application names: the device of which it opens a file, or what its handle holds.
    pub fn target(&self, number: u32, line: &Line) -> Option<Target>
        requires { IsThere self.now number }
        ensures { (asked : Asked) → AsksFor asked line.now → result ≡ target_of (application_in self.now number) asked }
    {
        let Some(application) = self.by_number.get(&number) else {
            unreachable!()
        };
        application.target(line)
    }

    /// The number of the request whose outcome an application awaits, if there is one with this number and it awaits one.
    pub fn awaits(&self, number: u32) -> Option<u64>
        ensures request { result ≡ (application_in self.now number).awaits }
        ensures queued { IfSome result (λ n. length (application_in self.now number).outcomes < (application_in self.now number).queued) }
        ensures there { IfSome result (λ n. IsThere self.now number) }
    {
        match self.by_number.get(&number) {
            Some(application) => application.awaits(),
            None => None,
        }
    }

    /// An application awaits the outcome of a request.
    pub fn await_outcome(&mut self, number: u32, request: u64)
        requires there { IsThere self.old number }
        requires more { length (application_in self.old number).outcomes < (application_in self.old number).queued }
        ensures awaits { let x = application_in self.old number in self.new ≡ insert_entry nat_cmp self.old number (record x { awaits = Some request }) }
        ensures kept { AreApplications self.new }
    {
        let Some(application) = self.by_number.get_mut(&number) else {
            unreachable!()
        };
        application.await_outcome(request);
        mark(&mut self.issuing, &mut self.awaiting, number, application);
    }

    /// The next line of an application has this outcome, and where it opens a file its handle holds what was given.
    pub fn end_line(
        &mut self,
        number: u32,
        outcome: Outcome,
        given: Option<Handle>,
    ) -> Result<(), AllocError>
        requires there { IsThere self.old number }
        requires more { length (application_in self.old number).outcomes < (application_in self.old number).queued }
        requires countable { IsCountableOutcome outcome }
        ensures ended { OnOk result (let x = application_in self.old number in
            self.new ≡ option_map_or (λ asked. insert_entry nat_cmp self.old number (with_outcome x outcome given asked)) (next_asked x) self.old) }
        ensures kept { AreApplications self.new }
    {
        let Some(application) = self.by_number.get_mut(&number) else {
            unreachable!()
        };
        let answer = application.end_line(outcome, given);
        mark(&mut self.issuing, &mut self.awaiting, number, application);
        answer
    }

    /// The applications as they are, by their numbers.
    pub fn finish(self) -> BTreeMap<u32, Application<'s>>
        ensures entries { result.entries ≡ self.entry }
        ensures kept { AreApplications self.entry }
    {
        let Applications { by_number, .. } = self;
        by_number
    }
}

/// Where the lines of each application stand, by its number.
fn places_of(alloc: Global, lines: &[NumberedLine]) -> Result<BTreeMap<u32, Vec<u32>>, AllocError>
    requires { AreNumbered lines.now }
    ensures { IfOk result (λ found. ArePlaced lines.now found.entries (length lines.now)) }
{
    let mut found = BTreeMap::new(alloc);
    for place in 0..lines.len() {
        if let Some(number) = application_of(&lines[place].line) {
            find_place(alloc, &mut found, number, place as u32)?;
        }
    }
    Ok(found)
}

/// A line more of an application was found at a place.
fn find_place(
    alloc: Global,
    found: &mut BTreeMap<u32, Vec<u32>>,
    number: u32,
    place: u32,
) -> Result<(), AllocError>
    ensures { OnOk result (FindsPlace found.old.entries found.new.entries number place) }
{
    if let Some(places) = found.get_mut(&number) {
        places.push(place)?;
        return Ok(());
    }
    let mut places = Vec::new(alloc);
    places.push(place)?;
    found.insert(number, places)?;
    Ok(())
}

/// The bits of an application become what it may do.
fn mark(issuing: &mut Bits, awaiting: &mut Bits, number: u32, application: &Application<'_>)
    requires { IsNumber number }
    ensures issuing { IsMarked issuing.old issuing.new (number - 1) (may_issue application.now) }
    ensures awaiting { IsMarked awaiting.old awaiting.new (number - 1) (is_some application.now.awaits) }
{
    issuing.mark(number - 1, application.may_issue());
    awaiting.mark(number - 1, application.awaits().is_some());
}
