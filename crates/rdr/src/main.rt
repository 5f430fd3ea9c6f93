//! `rdr`: both ends of Remote Desktop drive redirection.
//!
//! It makes the real input, output, recording, notes, linker, folders and clock, a line each, and leaves the rest to `rd_cli::program`.
#![tactic(auto)]

use rd_base::{FileSink, StdSink, StdSource};
use rd_cli::{client_path_of, host_path_of, program, words_of};
use rd_folder::StdFolders;
use rd_link::NoGate;
use rd_unix::{SystemClock, UnixLinker};
use std::alloc::AllocError;
use std::fs::File;
use std::io;
use std::io::Eprint;
use std::net::Net;
use std::process::ExitCode;
use std::rt::Files;

/// Where the recording goes, in the current folder.
const RECORDING: &str = "rdr.rec";

/// A folder that every system has.
const ROOT: &str = "/";

fn main(rt: HostRuntime) -> ExitCode {
    // These take the lowest free descriptors, so that no file of ours stands in for a standard stream that is closed: a folder can
    // be neither read nor written.
    let _closed = [ROOT; 3].map(|path| File::open(&rt, path));
    let words = words_of(&rt);
    let words = match &words {
        Ok(words) => Ok(words.as_slice()),
        Err(_) => Err(AllocError),
    };
    // Words that are neither a host nor a client connect nothing.
    let (host, client) = match words {
        Ok(words) => (host_path_of(words), client_path_of(words)),
        Err(_) => (None, None),
    };
    let path = host.or(client).unwrap_or_default();
    let mut input = StdSource::new(rt.reader());
    let mut output = StdSink::new(io::writer(&rt));
    let mut recording = FileSink::new(&rt, RECORDING);
    let mut notes = StdSink::new(rt.stderr());
    let mut linker = linker_at(&rt, host, path);
    let mut folders = StdFolders::new(&rt);
    let clock = SystemClock::new(&rt);
    let code = program(
        &rt,
        rt.alloc(),
        words,
        &mut input,
        &mut output,
        &mut recording,
        &mut notes,
        &mut linker,
        &mut folders,
        &clock,
        &NoGate {},
    );
    say_why(&rt, "standard input", input.last_error());
    say_why(&rt, "standard output", output.last_error());
    say_why(&rt, RECORDING, recording.last_error());
    say_why(&rt, path, linker.last_error());
    say_why(&rt, "folders", folders.last_error());
    code
}

/// The linker: it listens at the path of a host, where there is one, and dials any other.
fn linker_at<'a, R: Files + Net + Eprint>(
    rt: &'a R,
    host: Option<&'a str>,
    path: &'a str,
) -> UnixLinker<'a, R> {
    match host {
        Some(path) => UnixLinker::listen(rt, path),
        None => UnixLinker::dial(rt, path),
    }
}

/// Says on the standard error which stream failed, and the system's reason.
fn say_why(rt: &HostRuntime, stream: &str, error: Option<&io::Error>) {
    if let Some(error) = error {
        let _ = eprintln!(rt; "rdr: {stream}: {error}");
    }
}
