//! A printer that keeps what is printed in memory.

ghost use Rattle.std.specs.Prelude.{◌≡◌, ℕ, [], IsFalse, OnErr, OnOk};
ghost use Rattle.std.specs.Ordering.{nat_cmp};
ghost use Rattle.std.specs.BTreeMap.{insert_entry};
ghost use Rattle.rd_irp.specs.declared.op.Op.TheVariants as Op;
ghost use Rattle.rd_drive.specs.Device.{is_starved};
ghost use Rattle.rd_drive.specs.Outcome as outcome;
ghost use Rattle.rd_drive.specs.declared.step.Step.TheVariants as Step;
ghost use Rattle.rd_printer.specs.Printer.{finish, new_printer, on_document, open_document, print, printer_step};
ghost use Rattle.rd_printer.specs.Running.{printer_cuts, printer_parked, printer_runs, ComesTo};

use crate::document::Document;
use rd_base::{Bytes, Growing, Status};
use rd_drive::{Device, Ends, Job, Plan, Step};
use rd_irp::{Body, Op, Reply};
use std::alloc::{AllocError, Global};
use std::collections::BTreeMap;
use std::marker::Model;

/// The most open documents of a printer.
const MAX_OPEN: usize = 4096;

/// What every file id is below.
const FILE_ID_LIMIT: u64 = 1 << 32;

/// The most bytes of a document.
const MAX_DOCUMENT: usize = u32::MAX as usize;

const INVALID_DEVICE_REQUEST: Status = Status(0xc000_0010);

const DISK_FULL: Status = Status(0xc000_007f);

/// Finished documents, in the order in which they were finished. Contracts see them as a list, and its room.
pub type Documents = Growing<Bytes>;

/// A printer: it keeps what is printed.
#[derive(Drop)]
pub struct Printer {
    alloc: Global,
    /// By file id.
    opened: BTreeMap<u32, Document>,
    /// With a place for each open one.
    finished: Documents,
    /// The file id that is given next.
    next: u64,
}

impl Model for Printer {
    ghost use Rattle.rd_printer.specs.Printer.{PrinterState};

    ghost Value = { PrinterState };

    ghost use Rattle.std.specs.Prelude.{◌+◌, ◌≤◌, length};

    ghost view = { λ p. record { documents = p.opened.entries; finished = p.finished.items; next = p.next } };

    ghost invariant = { λ p. length p.finished.items + length p.opened.entries ≤ p.finished.room };
}

impl Printer {
    /// A printer to which nothing was printed.
    pub fn new(alloc: Global) -> Self
        ensures { result ≡ new_printer }
    {
        Printer {
            alloc,
            opened: BTreeMap::new(alloc),
            finished: Documents::new(alloc),
            next: 1,
        }
    }

    /// The finished documents, in the order in which they were finished.
    pub fn documents(&self) -> &Documents
        ensures { result.now.items ≡ self.now.finished }
    {
        &self.finished
    }

    /// What comes of a job for which memory was found.
    fn run(&mut self, job: &Job) -> Step
        ensures runs { (moment : ℕ) → ComesTo (printer_step self.old job.now.key job.now.file job.now.op moment) self.old result self.new }
        ensures close { job.now.op ≡ Op.Close → IsFalse (is_starved result) }
    {
        match &job.op {
            Op::Malformed { .. } => refused(Status::INVALID_PARAMETER),
            Op::Create { .. } => self.create(),
            Op::Write { bytes, .. } => self.print(job.file, bytes.as_slice()),
            Op::Close => self.finish(job.file),
            _ => refused(INVALID_DEVICE_REQUEST),
        }
    }

    /// Opens a document, if there is room for one more (MS-RDPEFS 2.2.1.4.1).
    fn create(&mut self) -> Step
        ensures { ComesTo (open_document self.old) self.old result self.new }
    {
        if self.opened.len() >= MAX_OPEN || self.next >= FILE_ID_LIMIT {
            return refused(Status::TOO_MANY_OPENED_FILES);
        }
        let file = self.next as u32;
        if self.add(file).is_err() {
            return refused(Status::NO_MEMORY);
        }
        self.next += 1;
        done(Body::Created {
            file,
            information: 0,
        })
    }

    /// Adds an empty document, with a place among the finished ones for when it is closed.
    fn add(&mut self, file: u32) -> Result<(), AllocError>
        ensures ok { OnOk result (self.new ≡ record self.old { documents = insert_entry nat_cmp self.old.documents file [] }) }
        ensures err { OnErr result (self.new ≡ self.old) }
    {
        self.finished.make_room(self.opened.len() + 1)?;
        self.opened.insert(file, Document::new(self.alloc))?;
        Ok(())
    }

    /// Appends bytes to a document (2.2.1.4.4).
    fn print(&mut self, file: u32, bytes: &[u8]) -> Step
        ensures { ComesTo (on_document self.old file (print self.old file bytes.now)) self.old result self.new }
    {
        let Some(document) = self.opened.get_mut(&file) else {
            return refused(Status::INVALID_HANDLE);
        };
        if document.len().saturating_add(bytes.len()) > MAX_DOCUMENT {
            return refused(DISK_FULL);
        }
        match document.append(bytes) {
            Ok(()) => done(Body::Count(bytes.len() as u32)),
            Err(_) => refused(Status::NO_MEMORY),
        }
    }

    /// Finishes a document, in the place that was made for it (2.2.1.4.2). It takes no memory.
    fn finish(&mut self, file: u32) -> Step
        ensures comes { ComesTo (on_document self.old file (finish self.old file)) self.old result self.new }
        ensures fed { IsFalse (is_starved result) }
    {
        let Some(document) = self.opened.remove(&file) else {
            return refused(Status::INVALID_HANDLE);
        };
        self.finished.push(document.into_bytes());
        done(Body::Closed)
    }
}

impl Device for Printer {
    ghost runs = { printer_runs };

    ghost parked = { printer_parked };

    ghost cuts = { printer_cuts };

    fn apply(&mut self, plan: Plan, _moment: u64, _ends: &mut Ends) -> Step {
        if plan.starved() {
            return refused(Status::NO_MEMORY);
        }
        self.run(plan.job())
    }

    fn cut(&mut self) {
        self.opened.clear();
    }
}

/// A request is done.
fn done(body: Body) -> Step
    ensures { result ≡ Step.Reply (outcome.done body) }
{
    Step::Reply(Reply {
        status: Status::SUCCESS,
        body,
    })
}

/// A request isn't done, for this cause.
fn refused(cause: Status) -> Step
    ensures { result ≡ Step.Reply (outcome.fault cause) }
{
    Step::Reply(Reply {
        status: cause,
        body: Body::Fault,
    })
}
