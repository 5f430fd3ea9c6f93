//! The report of a session.

ghost use Rattle.std.specs.Prelude.{◌≡◌, ◌==◌, ◌<◌, ◌^◌, ◌-◌, ◌++◌, codes, count_by, decimal, length, Some, IfOk, OnOk, slice_get};
ghost use Rattle.std.specs.Int.{w32, to_le_bytes};
ghost use Rattle.std.specs.List.{flat_map, list_any};
ghost use Rattle.std.specs.Option.{unwrap_or};
ghost use Rattle.std.specs.String.{string_bytes};
ghost use Rattle.rd_irp.specs.declared.completion.Kind.TheVariants as kind;
ghost use Rattle.hex.specs.Hex.{encode_lower};
ghost use Rattle.rd_irp.specs.Fits.{IsCountableBody};
ghost use Rattle.rd_irp.specs.Written.{body_bytes};
ghost use Rattle.rd_script.specs.ReportLines.{kinds_of};
ghost use Rattle.rd_script.specs.Report.{cached_line, cause_word, device_lines, document_lines, documents_from, hex_text, idle_line, is_run, listed_line, outcome_line, outcome_text, refusal_word, report_of, status_digits, AreCountable, IsCountableOutcome};

use crate::line::NumberedLine;
use crate::outcome::{Outcome, Outcomes, Refusal};
use crate::report_lines::{devices_of, kinds_of};
use crate::script::Script;
use rd_base::{Books, Bytes, Cause, Item, Items, Journal, Status};
use rd_irp::{Body, Kind, write_body};
use std::alloc::{AllocError, Global};
use std::collections::BTreeMap;

fn refusal_word(why: Refusal) -> &'static str
    ensures { result.now ≡ refusal_word why }
{
    match why {
        Refusal::NoChannel => "nochannel",
        Refusal::NoDevice => "nodevice",
        Refusal::StaleHandle => "stalehandle",
        Refusal::Full => "full",
        Refusal::Worn => "worn",
        Refusal::NoHandle => "nohandle",
    }
}

fn cause_word(cause: Cause) -> &'static str
    ensures { result.now ≡ cause_word cause }
{
    match cause {
        Cause::Removed => "removed",
        Cause::Dropped => "dropped",
    }
}

/// Bytes as digits, or a dash for none.
fn hex_text(alloc: Global, bytes: &[u8]) -> Result<String, AllocError>
    ensures { IfOk result (λ text. string_bytes text ≡ hex_text bytes.now) }
{
    if bytes.is_empty() {
        return String::from_str(alloc, "-");
    }
    hex::encode(alloc, bytes)
}

/// Bytes as digits, where there may be none.
fn put_digits(alloc: Global, text: &mut String, bytes: &[u8]) -> Result<(), AllocError>
    ensures { OnOk result (string_bytes text.new ≡ string_bytes text.old ++ encode_lower bytes.now) }
{
    let digits = hex::encode(alloc, bytes)?;
    text.push_str(digits.as_str())
}

/// A buffer and its length, as the body of a completion has them.
fn put_buffer(alloc: Global, text: &mut String, bytes: &[u8]) -> Result<(), AllocError>
    requires { length bytes.now < 2 ^ 32 }
    ensures { OnOk result (string_bytes text.new ≡ string_bytes text.old ++ encode_lower (to_le_bytes w32 (length bytes.now) ++ bytes.now)) }
{
    let length = (bytes.len() as u32).to_le_bytes();
    put_digits(alloc, text, &length)?;
    put_digits(alloc, text, bytes)
}

/// The body of a completion. A buffer goes to the text as it is; any other body has a few bytes, which are written first.
fn put_body(alloc: Global, text: &mut String, kind: Kind, body: &Body) -> Result<(), AllocError>
    requires { IsCountableBody body.now }
    ensures { OnOk result (string_bytes text.new ≡ string_bytes text.old ++ encode_lower (body_bytes kind body.now)) }
{
    match body {
        Body::Buffer(bytes) => put_buffer(alloc, text, bytes.as_slice()),
        _ => {
            let bytes = write_body(alloc, kind, body)?;
            put_digits(alloc, text, bytes.as_slice())
        }
    }
}

/// The reply of a request that was completed.
fn put_done(
    alloc: Global,
    text: &mut String,
    kind: Kind,
    status: Status,
    body: &Body,
) -> Result<(), AllocError>
    requires { IsCountableBody body.now }
    ensures { OnOk result (string_bytes text.new
        ≡ string_bytes text.old ++ (codes " done " ++ status_digits status ++ codes " " ++ encode_lower (body_bytes kind body.now))) }
{
    write!(text, " done {status} ")?;
    put_body(alloc, text, kind, body)
}

fn put_outcome(
    alloc: Global,
    text: &mut String,
    kind: Kind,
    outcome: &Outcome,
) -> Result<(), AllocError>
    requires { IsCountableOutcome outcome.now }
    ensures { OnOk result (string_bytes text.new ≡ string_bytes text.old ++ outcome_text kind outcome.now) }
{
    match outcome {
        Outcome::Done(reply) => put_done(alloc, text, kind, reply.status, &reply.body),
        Outcome::Lost(cause) => {
            let word = cause_word(*cause);
            write!(text, " lost {word}")
        }
        Outcome::Refused(why) => {
            let word = refusal_word(*why);
            write!(text, " refused {word}")
        }
    }
}

/// The layout of the completion of a line of an application, whose lines have these.
fn kind_in(kinds: &[Kind], line: u32) -> Kind
    ensures { result ≡ unwrap_or (slice_get kinds.now (line - 1)) kind.Buffer }
{
    let index = (line as usize).saturating_sub(1);
    kinds.get(index).copied().unwrap_or(Kind::Buffer)
}

/// The completions of an application's lines, given those of another's.
fn kinds_for(
    alloc: Global,
    lines: &[NumberedLine],
    other: u32,
    kinds: Vec<Kind>,
    application: u32,
) -> Result<Vec<Kind>, AllocError>
    requires { kinds.items ≡ kinds_of other lines.now }
    ensures { IfOk result (λ found. found.items ≡ kinds_of application lines.now) }
{
    if application == other {
        return Ok(kinds);
    }
    kinds_of(alloc, application, lines)
}

/// A line for the outcome of a line of an application, whose completion has this layout.
fn put_line(
    alloc: Global,
    text: &mut String,
    id: (u32, u32),
    kind: Kind,
    outcome: &Outcome,
) -> Result<(), AllocError>
    requires { IsCountableOutcome outcome.now }
    ensures { OnOk result (string_bytes text.new ≡ string_bytes text.old
        ++ (decimal id.0 ++ codes "." ++ decimal id.1 ++ outcome_text kind outcome.now ++ codes "\n")) }
{
    let (application, line) = id;
    write!(text, "{application}.{line}")?;
    put_outcome(alloc, text, kind, outcome)?;
    writeln!(text, "")
}

fn put_outcomes(
    alloc: Global,
    text: &mut String,
    lines: &[NumberedLine],
    outcomes: &BTreeMap<(u32, u32), Outcome>,
) -> Result<(), AllocError>
    requires { AreCountable outcomes.now.entries }
    ensures { OnOk result (string_bytes text.new ≡ string_bytes text.old ++ flat_map (outcome_line lines.now) outcomes.now.entries) }
{
    let mut application = 0u32;
    let mut kinds = kinds_of(alloc, application, lines)?;
    for (id, outcome) in outcomes.iter() {
        kinds = kinds_for(alloc, lines, application, kinds, id.0)?;
        application = id.0;
        let kind = kind_in(kinds.as_slice(), id.1);
        put_line(alloc, text, *id, kind, outcome)?;
    }
    Ok(())
}

fn put_idle(text: &mut String, idle: &[u32]) -> Result<(), AllocError>
    ensures { OnOk result (string_bytes text.new ≡ string_bytes text.old ++ flat_map idle_line idle.now) }
{
    for number in idle {
        writeln!(text, "line {number} idle")?;
    }
    Ok(())
}

/// How many requests the device ran.
fn runs_in(journal: &Journal) -> usize
    ensures { result ≡ count_by is_run journal.now.items }
{
    journal
        .items()
        .iter()
        .filter(|entry| matches!(entry, Item::Ran { .. }))
        .count()
}

/// Whether a device is among some.
fn is_listed(devices: &[u32], device: u32) -> bool
    ensures { result ≡ list_any (λ id. id == device) devices.now }
{
    devices.iter().any(|id| *id == device)
}

/// The line of a device, if it is among some.
fn put_device(
    text: &mut String,
    devices: &[u32],
    device: u32,
    journal: &Journal,
) -> Result<(), AllocError>
    ensures { OnOk result (string_bytes text.new ≡ string_bytes text.old ++ listed_line devices.now (device, journal.now)) }
{
    if !is_listed(devices, device) {
        return Ok(());
    }
    let ran = runs_in(journal);
    writeln!(text, "device {device} ran {ran}")
}

fn put_devices(
    alloc: Global,
    text: &mut String,
    lines: &[NumberedLine],
    books: &Books,
) -> Result<(), AllocError>
    ensures { OnOk result (string_bytes text.new ≡ string_bytes text.old ++ device_lines lines.now books.now) }
{
    let devices = devices_of(alloc, lines)?;
    for (device, journal) in books.iter() {
        put_device(text, devices.as_slice(), *device, journal)?;
    }
    Ok(())
}

fn put_documents_of(
    alloc: Global,
    text: &mut String,
    device: u32,
    documents: &[Bytes],
) -> Result<(), AllocError>
    ensures { OnOk result (string_bytes text.new ≡ string_bytes text.old ++ documents_from device 1 documents.now) }
{
    for (index, bytes) in documents.iter().enumerate() {
        let number = index as u64 + 1;
        let hex = hex_text(alloc, bytes.as_slice())?;
        writeln!(text, "document {device}.{number} {hex}")?;
    }
    Ok(())
}

fn put_documents(
    alloc: Global,
    text: &mut String,
    documents: &BTreeMap<u32, Items<Bytes>>,
) -> Result<(), AllocError>
    ensures { OnOk result (string_bytes text.new ≡ string_bytes text.old ++ flat_map document_lines documents.now.entries) }
{
    for (device, list) in documents.iter() {
        put_documents_of(alloc, text, *device, list.as_slice())?;
    }
    Ok(())
}

fn put_cache(
    alloc: Global,
    text: &mut String,
    cache: &BTreeMap<Vec<u8>, Bytes>,
) -> Result<(), AllocError>
    ensures { OnOk result (string_bytes text.new ≡ string_bytes text.old ++ flat_map cached_line cache.now.entries) }
{
    for (name, bytes) in cache.iter() {
        let name = hex_text(alloc, name.as_slice())?;
        let hex = hex_text(alloc, bytes.as_slice())?;
        writeln!(text, "cache {name} {hex}")?;
    }
    Ok(())
}

/// The report of a session: the outcomes by application and line, the control lines that did nothing, the script's devices with how
/// many requests each ran, the finished documents, and what is kept for printers.
pub fn report(
    alloc: Global,
    script: &Script,
    outcomes: &Outcomes,
    books: &Books,
) -> Result<Bytes, AllocError>
    requires { AreCountable outcomes.now.lines.entries }
    ensures { IfOk result (λ text. text ≡ report_of script.now outcomes.now books.now) }
{
    let lines = script.lines.as_slice();
    let mut text = String::new(alloc);
    put_outcomes(alloc, &mut text, lines, &outcomes.lines)?;
    put_idle(&mut text, outcomes.idle.as_slice())?;
    put_devices(alloc, &mut text, lines, books)?;
    put_documents(alloc, &mut text, &outcomes.documents)?;
    put_cache(alloc, &mut text, &outcomes.cache)?;
    Ok(Bytes::of(text.into_bytes()))
}
