//! The journals of the devices, gone over with what each device does.

ghost use Rattle.std.specs.Prelude.{◌≡◌, ℕ, ◌+◌, ◌<◌, ◌^◌, ◌==◌, if◌then◌else◌, List, [], All, Ok, None, IfErr, IfOk, IfSome, OnOk, length};
ghost use Rattle.std.specs.List.{AllByRecursion};
ghost use Rattle.rd_audit_file.specs.declared.line.JournalLine.{JournalLine};
ghost use Rattle.rd_audit_file.specs.declared.line.JournalLine.TheVariants as line;
ghost use Rattle.rd_audit_file.specs.Journals.{lines_text};
ghost use Rattle.rd_audit_file.specs.Lines.{LineFits};
ghost use Rattle.rd_recorded.specs.Channels.{HeardChannel as Heard};
ghost use Rattle.rd_audit.specs.declared.no.AuditNo.TheVariants.{Memory};
ghost use Rattle.rd_audit.specs.Kept.{ComesOutAs, counted_in};
ghost use Rattle.rd_audit.specs.Replayed.{account_new, replayed};
ghost use Rattle.rd_audit.specs.Walked.{BeginsNext, WalksAt, HasNoneWaiting, LinePlace, first_place, found_by, place_after, place_begun, place_entered};

use crate::course::Courses;
use crate::lines::next_line;
use crate::no::AuditNo;
use crate::replay::Replay;
use crate::verdict::Verdict;
use rd_audit_file::{JournalLine, JournalLines};
use rd_base::Item;
use rd_declared::DeclaredDevice;
use rd_recorded::HeardChannel;
use std::alloc::{AllocError, Global};
use std::collections::BTreeMap;

/// How many entries the journal of each device has.
pub type Counts = BTreeMap<u32, u64>;

/// What came of the requests, and how many entries each journal has.
#[derive(Drop)]
pub struct Replayed {
    pub courses: Courses,
    pub counts: Counts,
}

impl Replayed {
    /// The journal of a device has so many entries now.
    fn count(&mut self, device: u32, count: u64) -> Result<(), AllocError>
        ensures courses { OnOk result (self.new.courses ≡ self.old.courses) }
        ensures counts { OnOk result ((d : ℕ) → counted_in self.new d ≡ (if device == d then count else counted_in self.old d)) }
    {
        self.counts.insert(device, count)?;
        Ok(())
    }
}

/// Has the devices do what the journals of a text say: the first entry of a journal that isn't of a request to its device, or isn't what the device does, or
/// else what came of the requests.
pub fn replay_journals(
    alloc: Global,
    devices: BTreeMap<u32, DeclaredDevice>,
    text: &[u8],
    channels: &[HeardChannel<'_>],
) -> Result<Result<Replayed, Verdict>, AuditNo>
    requires fits { length text.now < 2 ^ 62 }
    requires quiet { AllByRecursion HasNoneWaiting devices.entries }
    ensures found { (lines : List JournalLine) → text.now ≡ lines_text lines → All LineFits lines → IfOk result (ComesOutAs channels.now (replayed channels.now devices.entries None account_new lines)) }
    ensures refused { IfErr result (λ no. no ≡ Memory) }
{
    let mut walk = Walk::new(alloc, devices, channels)?;
    let mut lines = JournalLines::new(text);
    while let Some(line) = next_line(&mut lines) {
        let found = match line {
            JournalLine::Device(_) => {
                walk.begin()?;
                None
            }
            JournalLine::Entry(entry) => walk.enter(channels, entry)?,
        };
        if let Some(verdict) = found {
            return Ok(Err(verdict));
        }
    }
    Ok(Ok(walk.replayed))
}

/// The journals, as far as they were gone over.
#[derive(Drop)]
struct Walk {
    alloc: Global,
    /// The devices whose journals are still to come.
    devices: BTreeMap<u32, DeclaredDevice>,
    /// The device whose journal is gone over.
    replay: Option<Replay>,
    replayed: Replayed,
}

impl Walk {
    /// Before the first line.
    fn new(
        alloc: Global,
        devices: BTreeMap<u32, DeclaredDevice>,
        channels: &[HeardChannel<'_>],
    ) -> Result<Walk, AllocError>
        requires { AllByRecursion HasNoneWaiting devices.entries }
        ensures { IfOk result (WalksAt channels.now (first_place devices.entries) 0) }
    {
        Ok(Walk {
            alloc,
            devices,
            replay: None,
            replayed: Replayed {
                courses: Courses::new(alloc, channels)?,
                counts: BTreeMap::new(alloc),
            },
        })
    }

    /// The journal of the next device begins.
    fn begin(&mut self) -> Result<(), AllocError>
        ensures { (channels : List Heard) (p : LinePlace) (most : ℕ) → WalksAt channels p most self.old → OnOk result (WalksAt channels (place_begun p) most self.new) }
    {
        self.replay = next_replay(self.alloc, &mut self.devices)?;
        Ok(())
    }

    /// Another entry: that it isn't of a request to its device, or isn't what the device does, if so.
    fn enter(
        &mut self,
        channels: &[HeardChannel<'_>],
        entry: Item,
    ) -> Result<Option<Verdict>, AuditNo>
        requires { IfSome self.old.replay (λ replay. (replay.ends ≡ []) × (replay.count + 1 < 2 ^ 63)) }
        ensures found { (p : LinePlace) (most : ℕ) → WalksAt channels.now p most self.old → IfOk result (λ found. found ≡ found_by channels.now p.standing (line.Entry entry)) }
        ensures entered { (p : LinePlace) (most : ℕ) → WalksAt channels.now p most self.old → result ≡ Ok None → WalksAt channels.now (place_entered channels.now p entry) (most + 1) self.new }
        ensures refused { IfErr result (λ no. no ≡ Memory) }
    {
        let Some(replay) = &mut self.replay else {
            return Ok(None);
        };
        if !replay.take(channels, &mut self.replayed.courses, entry)? {
            return Ok(Some(replay.mark()));
        }
        self.replayed.count(replay.id(), replay.count())?;
        Ok(None)
    }
}

/// The first of the devices that are left, before the first entry of its journal.
fn next_replay(
    alloc: Global,
    devices: &mut BTreeMap<u32, DeclaredDevice>,
) -> Result<Option<Replay>, AllocError>
    ensures { AllByRecursion HasNoneWaiting devices.old.entries → IfOk result (BeginsNext devices.old.entries devices.new.entries) }
{
    let Some((id, device)) = devices.pop_first() else {
        return Ok(None);
    };
    let (state, _) = device.into_parts();
    Ok(Some(Replay::new(alloc, id, state)?))
}
