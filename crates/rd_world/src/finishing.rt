//! What comes of a session at its end.
//!
//! Cost: outcomes and journals are moved, and the finished documents of printers are copied once; each is put into a map at its end.

ghost use Rattle.std.specs.Prelude.{◌≡◌, ◌<◌, ◌≤◌, ◌++◌, ℕ, List, [], length, map, IfOk, OnErr, OnOk};
ghost use Rattle.std.specs.List.{AllByRecursion, flat_map};
ghost use Rattle.rd_script.specs.declared.outcome.Outcome.{Outcome};
ghost use Rattle.rd_script.specs.Report.{AreCountable, numbered_from};
ghost use Rattle.rd_script.specs.Script.{max_lines};
ghost use Rattle.rd_station.specs.Station.{StationState};
ghost use Rattle.rd_declared.specs.declared.device.SessionDevice.{SessionDevice};
ghost use Rattle.rd_world.specs.Report.{outcomes_under};
ghost use Rattle.rd_world.specs.Session.{StoresSome, TellsWorld, by_device, journals_of, printed_in};
ghost use Rattle.rd_world.specs.World.{journals_in};

use crate::applications::Applications;
use crate::stations::Stations;
use crate::world::World;
use rd_base::{Books, Bytes, Items};
use rd_declared::SessionDevice;
use rd_printer::Printer;
use rd_script::{Outcome, Outcomes};
use rd_station::Station;
use std::alloc::{AllocError, Global};
use std::collections::BTreeMap;

impl<'s> World<'s> {
    /// What is told of the session: how each line of an application ended, which lines did nothing, the finished documents, and what is kept for printers.
    /// The journals go into the books, a journal for each device; where memory runs out, the first of them did.
    pub fn finish(self, books: &mut Books) -> Result<Outcomes, AllocError>
        requires { books.old ≡ [] }
        ensures told { IfOk result (TellsWorld self.entry) }
        ensures countable { IfOk result (λ told. AreCountable told.lines.entries) }
        ensures stored { IfOk result (λ told. journals_of books.new ≡ journals_in self.entry) }
        ensures some { OnErr result (StoresSome (journals_in self.entry) books.new) }
    {
        let World {
            alloc,
            stations,
            cache,
            applications,
            idle,
            ..
        } = self;
        let lines = outcomes_of(alloc, applications)?;
        let documents = store_all(alloc, stations, books)?;
        Ok(Outcomes {
            lines,
            idle,
            documents,
            cache: cache.finish(),
        })
    }
}

/// The outcomes of each application under its number and theirs.
fn outcomes_of(
    alloc: Global,
    applications: Applications<'_>,
) -> Result<BTreeMap<(u32, u32), Outcome>, AllocError>
    ensures outcomes { IfOk result (λ told. told.entries ≡ flat_map outcomes_under applications.entry) }
    ensures countable { IfOk result (λ told. AreCountable told.entries) }
{
    let mut told = BTreeMap::new(alloc);
    for (number, application) in applications.finish() {
        let outcomes = application.finish();
        tell(&mut told, number, outcomes)?;
    }
    Ok(told)
}

/// The outcomes of one more application come after all others, under its number and theirs.
fn tell(
    told: &mut BTreeMap<(u32, u32), Outcome>,
    number: u32,
    outcomes: Vec<Outcome>,
) -> Result<(), AllocError>
    requires few { length outcomes.items ≤ max_lines }
    requires after { AllByRecursion (λ (e : (ℕ × ℕ) × Outcome). e.0.0 < number) told.old.entries }
    ensures { OnOk result (told.new.entries ≡ told.old.entries ++ numbered_from number 1 outcomes.items) }
{
    let mut line = 0u32;
    for outcome in outcomes {
        line += 1;
        told.insert((number, line), outcome)?;
    }
    Ok(())
}

/// The journal of each device goes into the books. Gives the finished documents of the printers.
fn store_all(
    alloc: Global,
    stations: Stations,
    books: &mut Books,
) -> Result<BTreeMap<u32, Items<Bytes>>, AllocError>
    requires { books.old ≡ [] }
    ensures documents { IfOk result (λ told. told.entries ≡ flat_map printed_in stations) }
    ensures stored { IfOk result (λ told. journals_of books.new ≡ map (λ (e : ℕ × StationState SessionDevice). (e.0, e.1.journal)) stations) }
    ensures some { OnErr result (StoresSome (map (λ (e : ℕ × StationState SessionDevice). (e.0, e.1.journal)) stations) books.new) }
{
    let mut documents = BTreeMap::new(alloc);
    let (ids, list) = stations.finish();
    let mut place = 0usize;
    for station in list {
        let id = ids[place];
        place += 1;
        let (device, journal) = station.finish();
        books.put(id, journal)?;
        add_documents(alloc, &mut documents, id, &device)?;
    }
    Ok(documents)
}

/// The finished documents of a device, where it is a printer.
fn add_documents(
    alloc: Global,
    documents: &mut BTreeMap<u32, Items<Bytes>>,
    id: u32,
    device: &SessionDevice,
) -> Result<(), AllocError>
    requires { AllByRecursion (λ (e : ℕ × List (List ℕ)). e.0 < id) documents.old.entries }
    ensures { OnOk result (documents.new.entries ≡ documents.old.entries ++ by_device id device.now) }
{
    if let SessionDevice::Printer(printer) = device {
        documents.insert(id, documents_of(alloc, printer)?)?;
    }
    Ok(())
}

/// The finished documents of a printer, once more.
fn documents_of(alloc: Global, printer: &Printer) -> Result<Items<Bytes>, AllocError>
    ensures { IfOk result (λ documents. documents ≡ printer.now.finished) }
{
    let mut documents = Vec::new(alloc);
    for document in printer.documents().as_slice() {
        documents.push(document.copy()?)?;
    }
    Ok(Items::of(documents))
}
