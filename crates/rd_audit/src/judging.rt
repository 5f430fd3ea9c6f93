//! The judgement of an audit file.

ghost use Rattle.std.specs.Prelude.{◌≡◌, ℕ, ◌+◌, ◌<◌, ◌^◌, List, All, IfErr, IfOk, Some, false, length, map, slice_get, unwrap_or};
ghost use Rattle.std.specs.List.{AllByRecursion};
ghost use Rattle.std.specs.Option.{option_map_or};
ghost use Rattle.rd_declared.specs.Devices.{Declared};
ghost use Rattle.rd_audit_file.specs.declared.line.JournalLine.{JournalLine};
ghost use Rattle.rd_audit_file.specs.Journals.{lines_text};
ghost use Rattle.rd_audit_file.specs.Lines.{LineFits};
ghost use Rattle.rd_audit.specs.declared.no.AuditNo.TheVariants.{Memory};
ghost use Rattle.rd_audit.specs.declared.verdict.Verdict.TheVariants.{Yes};
ghost use Rattle.rd_audit.specs.Audit.{Audits};
ghost use Rattle.rd_audit.specs.Completions.{first_lacking, is_due, lacks_completion};
ghost use Rattle.rd_audit.specs.Judged.{judged};
ghost use Rattle.rd_audit.specs.Kept.{KeepsCourses};
ghost use Rattle.rd_audit.specs.Replayed.{Account};
ghost use Rattle.rd_audit.specs.Walked.{HasNoneWaiting};
ghost use Rattle.rd_recorded.specs.Channels.{HeardChannel as Heard};
ghost use Rattle.rd_audit.specs.Refusals.{ChecksAt};

use crate::completions::first_wrong;
use crate::course::{Course, Courses};
use crate::journals::replay_journals;
use crate::lawful::first_unlawful;
use crate::no::AuditNo;
use crate::verdict::Verdict;
use rd_audit_file::{AuditFile, FieldFault, check_journals};
use rd_declared::{DeclaredDevice, declared_devices};
use rd_recorded::{HeardChannel, recorded_channels};
use rd_script::{Mode, read_script};
use std::alloc::{AllocError, Global};
use std::collections::BTreeMap;

/// Judges an audit file.
pub fn audit(alloc: Global, bytes: &[u8]) -> Result<Verdict, AuditNo>
    requires { length bytes.now < 2 ^ 62 }
    ensures { Audits bytes.now result }
{
    let mut file = AuditFile::begin(bytes)?;
    let script = read_script(alloc, Mode::Both, file.counted()?)?;
    let devices = declared_devices(alloc, script.lines.as_slice())?;
    let text = file.counted()?;
    let text_at = file.at() - text.len();
    check_text(text, text_at, ids_of(alloc, &devices)?.as_slice())?;
    let channels = recorded_channels(alloc, file.rest(), file.at() as u64)?;
    judge(alloc, devices, text, channels.as_slice())
}

/// The ids of devices.
fn ids_of(alloc: Global, devices: &BTreeMap<u32, DeclaredDevice>) -> Result<Vec<u32>, AllocError>
    ensures { IfOk result (λ ids. ids.items ≡ map (λ (d : ℕ × Declared). d.0) devices.now.entries) }
{
    let mut ids = Vec::with_capacity(alloc, devices.len())?;
    for (id, _) in devices {
        ids.push(*id)?;
    }
    Ok(ids)
}

/// Whether a text, whose first byte has this place in its file, is that of journals of these devices, or its first fault.
fn check_text(text: &[u8], at: usize, ids: &[u32]) -> Result<(), FieldFault>
    requires { at + length text.now < 2 ^ 62 }
    ensures { ChecksAt at ids.now text.now result }
{
    match check_journals(text, ids) {
        Ok(()) => Ok(()),
        Err(fault) => Err(FieldFault {
            at: at + fault.at,
            why: fault.why,
        }),
    }
}

/// Judges the journals of a text and the channels of a recording, in the order of what can be wrong.
fn judge(
    alloc: Global,
    devices: BTreeMap<u32, DeclaredDevice>,
    text: &[u8],
    channels: &[HeardChannel<'_>],
) -> Result<Verdict, AuditNo>
    requires fits { length text.now < 2 ^ 62 }
    requires quiet { AllByRecursion HasNoneWaiting devices.entries }
    ensures judged { (lines : List JournalLine) → text.now ≡ lines_text lines → All LineFits lines → IfOk result (λ v. v ≡ judged devices.entries lines channels.now) }
    ensures refused { IfErr result (λ no. no ≡ Memory) }
{
    if let Some(verdict) = first_unlawful(alloc, text)? {
        return Ok(verdict);
    }
    let replayed = match replay_journals(alloc, devices, text, channels)? {
        Ok(replayed) => replayed,
        Err(verdict) => return Ok(verdict),
    };
    match first_wrong(alloc, channels, &replayed)? {
        Some(verdict) => Ok(verdict),
        None => Ok(first_lacking(channels, &replayed.courses)),
    }
}

/// The first channel that lacks a completion, if one does.
fn first_lacking(channels: &[HeardChannel<'_>], courses: &Courses) -> Verdict
    ensures { (account : Account) → KeepsCourses channels.now account.courses courses.now → result ≡ unwrap_or (first_lacking account 1 channels.now) Yes }
{
    for place in 0..channels.len() {
        if lacks(&channels[place], place, courses) {
            let channel = u32::try_from(place + 1).unwrap_or(u32::MAX);
            return Verdict::Open { channel };
        }
    }
    Verdict::Yes
}

/// Whether a request of the channel at a place has no completion that it should have: each one has where the channel didn't end, and each one whose completion
/// was handed out.
fn lacks(channel: &HeardChannel<'_>, place: usize, courses: &Courses) -> bool
    ensures { (channels : List Heard) (account : Account) → slice_get channels place ≡ Some channel.now → KeepsCourses channels account.courses courses.now
        → result ≡ lacks_completion account (place + 1) channel.now }
{
    for (index, asked) in channel.requests.iter().enumerate() {
        if is_due(channel.ended, courses.at(place, index)) && asked.completion.is_none() {
            return true;
        }
    }
    false
}

/// Whether a request with this course on a channel that ended, or didn't, should have a completion.
fn is_due(ended: bool, course: Option<Course>) -> bool
    ensures { result ≡ option_map_or (is_due ended) course false }
{
    match course {
        Some(course) => !ended || course.sent.is_some(),
        None => false,
    }
}
