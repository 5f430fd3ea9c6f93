//! Runs the examples of the current folder, and compares what each does with what stands beside it.
//!
//! `NAME.script` is played with `both`: `NAME.report` is the output, `NAME.rec` the recording, `NAME.status` the exit status where that
//! isn't 0; where it is, `trace` records the same, and `audit` says `yes` of what it prints. `NAME.words` are the words of a command without
//! an input: `NAME.report` is the output. The recording of either is read with `decode`, which finds no fault. Where there is a
//! `NAME.lines`, `NAME.rec` is read with `decode`: `NAME.lines` is the output, and `NAME.status` the exit status where no script has that
//! name. It fails where one differs.
#![tactic(auto)]

use anyhow::{Context, Result, bail};
use rd_base::{Books, Bytes, Calls, MemSink, MemSource, PlainSink};
use rd_folder::MemFolders;
use rd_link::{FixedClock, MemLinker, NoGate};
use std::fs;
use std::io::ErrorKind;
use std::rt::Files;
use std::sync::Wait;
use std::thread::Threads;

fn main(rt: HostRuntime) -> Result<()> {
    let mut differ = 0u64;
    for name in &names_of(&rt, ".script")? {
        let difference = played(&rt, name)?;
        differ = differ.saturating_add(told(&rt, "script", name, difference)?);
    }
    for name in &names_of(&rt, ".words")? {
        let difference = obeyed(&rt, name)?;
        differ = differ.saturating_add(told(&rt, "words", name, difference)?);
    }
    for name in &names_of(&rt, ".lines")? {
        let difference = decoded(&rt, name)?;
        differ = differ.saturating_add(told(&rt, "recording", name, difference)?);
    }
    if differ != 0 {
        bail!("{differ} of the examples differ");
    }
    Ok(())
}

/// The names of the files with this ending, without it, in order.
fn names_of(rt: &HostRuntime, ending: &str) -> Result<Vec<String>> {
    let mut names = Vec::new(rt.alloc());
    for entry in fs::read_dir(rt, ".")? {
        let entry = entry?;
        if let Some(name) = entry.file_name().strip_suffix(ending) {
            names.push(String::from_str(rt.alloc(), name)?)?;
        }
    }
    names.sort()?;
    Ok(names)
}

/// Says of an example whether it differs, and counts it then.
fn told(rt: &HostRuntime, kind: &str, name: &String, difference: Option<&str>) -> Result<u64> {
    println!(rt; "{kind} {name}: {}", difference.unwrap_or("as told"))?;
    Ok(u64::from(difference.is_some()))
}

/// What a command leaves.
#[derive(Drop)]
struct Remains {
    status: u8,
    output: MemSink,
    recording: MemSink,
}

/// The first thing in which a script's session differs from what stands beside it.
fn played<R: Threads + Wait + Sync + Files + AllocGlobal>(
    rt: &R,
    name: &String,
) -> Result<Option<&'static str>> {
    let left = left_by(rt, &["both"], read(rt, name, "script")?)?;
    if left.status != status_of(rt, name)? {
        return Ok(Some("another STATUS"));
    }
    if left.output.bytes() != read(rt, name, "report")?.as_slice() {
        return Ok(Some("another REPORT"));
    }
    if left.recording.bytes() != read(rt, name, "rec")?.as_slice() {
        return Ok(Some("another RECORDING"));
    }
    if left.status != 0 {
        return Ok(None);
    }
    match fault_in(rt, &left.recording)? {
        None => audited(rt, name, &left.recording),
        fault => Ok(fault),
    }
}

/// What is wrong with the audit file of a script that was recorded so, if anything is.
fn audited<R: Threads + Wait + Sync + Files + AllocGlobal>(
    rt: &R,
    name: &String,
    recording: &MemSink,
) -> Result<Option<&'static str>> {
    let traced = left_by(rt, &["trace"], read(rt, name, "script")?)?;
    if traced.status != 0 || traced.recording.bytes() != recording.bytes() {
        return Ok(Some("another RECORDING of trace"));
    }
    let found = left_by(rt, &["audit"], traced.output.bytes().to_vec(rt.alloc())?)?;
    match found.status {
        0 => Ok(None),
        _ => Ok(Some("something in its AUDIT that doesn't belong")),
    }
}

/// The first thing in which a command without an input differs from what stands beside its words.
fn obeyed<R: Threads + Wait + Sync + Files + AllocGlobal>(
    rt: &R,
    name: &String,
) -> Result<Option<&'static str>> {
    let line = text(rt, name, "words")?;
    let words: Vec<&str> = line.trim().split(' ').collect(rt.alloc())?;
    let left = left_by(rt, words.as_slice(), Vec::new(rt.alloc()))?;
    if left.status != 0 {
        return Ok(Some("another STATUS"));
    }
    if left.output.bytes() != read(rt, name, "report")?.as_slice() {
        return Ok(Some("another REPORT"));
    }
    fault_in(rt, &left.recording)
}

/// Whether `decode` finds a fault in what was recorded.
fn fault_in<R: Threads + Wait + Sync + Files + AllocGlobal>(
    rt: &R,
    recording: &MemSink,
) -> Result<Option<&'static str>> {
    let left = left_by(rt, &["decode"], recording.bytes().to_vec(rt.alloc())?)?;
    match left.status {
        0 => Ok(None),
        _ => Ok(Some("a FAULT in its recording")),
    }
}

/// The first thing in which what `decode` says of a recording differs from what stands beside it.
fn decoded<R: Threads + Wait + Sync + Files + AllocGlobal>(
    rt: &R,
    name: &String,
) -> Result<Option<&'static str>> {
    let left = left_by(rt, &["decode"], read(rt, name, "rec")?)?;
    let status = match exists(rt, name, "script")? {
        true => 0,
        false => status_of(rt, name)?,
    };
    if left.status != status {
        return Ok(Some("another STATUS"));
    }
    if left.output.bytes() != read(rt, name, "lines")?.as_slice() {
        return Ok(Some("other LINES"));
    }
    if !left.recording.bytes().is_empty() {
        return Ok(Some("a RECORDING"));
    }
    Ok(None)
}

/// Runs a command over an input.
fn left_by<R: Threads + Wait + Sync + Files + AllocGlobal>(
    rt: &R,
    words: &[&str],
    input: Vec<u8>,
) -> Result<Remains> {
    let words: Vec<String> = words
        .iter()
        .map(|word| String::from_str(rt.alloc(), word))
        .try_collect(rt.alloc())?;
    let never = Calls::of(Vec::new(rt.alloc()));
    let mut input = MemSource::new(Bytes::of(input), never.copy()?);
    let mut output = MemSink::new(rt.alloc(), never.copy()?);
    let mut recording = MemSink::new(rt.alloc(), never.copy()?);
    let mut books = Books::new(rt.alloc());
    // No example is a client, so nothing is connected, and no folder opened.
    let mut linker = MemLinker::new(rt.alloc(), Vec::new(rt.alloc()), never.copy()?)?;
    let mut folders = MemFolders::new(rt.alloc(), Vec::new(rt.alloc()), never)?;
    let status = rd_cli::run(
        rt,
        rt.alloc(),
        words.as_slice(),
        &mut input,
        &mut output,
        &mut recording,
        &mut PlainSink::new(),
        &mut linker,
        &mut folders,
        &FixedClock(0),
        &NoGate {},
        &mut books,
    );
    Ok(Remains {
        status,
        output,
        recording,
    })
}

/// The exit status of an example: 0 where it has no file that says another.
fn status_of<R: Files + AllocGlobal>(rt: &R, name: &String) -> Result<u8> {
    if !exists(rt, name, "status")? {
        return Ok(0);
    }
    Ok(text(rt, name, "status")?.trim().parse::<u8>()?)
}

/// The text of `NAME.ENDING`.
fn text<R: Files + AllocGlobal>(rt: &R, name: &String, ending: &str) -> Result<String> {
    let path = format!(in rt.alloc(); "{name}.{ending}")?;
    let text = fs::read_to_string(rt, path.as_str()).context(format_args!("reading {path}"))?;
    Ok(text)
}

/// Whether there is a `NAME.ENDING`.
fn exists<R: Files + AllocGlobal>(rt: &R, name: &String, ending: &str) -> Result<bool> {
    let path = format!(in rt.alloc(); "{name}.{ending}")?;
    match fs::metadata(rt, path.as_str()) {
        Ok(_) => Ok(true),
        Err(error) if error.kind() == ErrorKind::NotFound => Ok(false),
        Err(error) => Err(error.into()),
    }
}

/// The bytes of `NAME.ENDING`.
fn read<R: Files + AllocGlobal>(rt: &R, name: &String, ending: &str) -> Result<Vec<u8>> {
    let path = format!(in rt.alloc(); "{name}.{ending}")?;
    let bytes = fs::read(rt, path.as_str()).context(format_args!("reading {path}"))?;
    Ok(bytes)
}
