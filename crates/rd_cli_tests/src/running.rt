//! The top call over any streams, linker, folders, clock and gate: whoever calls it needs nothing of what it promises.
ghost use Rattle.std.specs.Prelude.{◌≡◌, []};

use rd_base::{Books, Sink, Source};
use rd_cli::{program, run};
use rd_folder::Folders;
use rd_link::{Clock, Gate, Linker};
use std::alloc::{AllocError, Global};
use std::process::ExitCode;
use std::sync::Wait;
use std::thread::Threads;

/// Runs a command, and returns its status.
pub(crate) fn run_on<I: Source, K: Sink, L: Linker, D: Folders, C: Clock + Sync, G: Gate + Sync>(
    rt: &(impl Threads + Wait + Sync),
    alloc: Global,
    words: &[String],
    input: &mut I,
    output: &mut K,
    recording: &mut K,
    notes: &mut K,
    linker: &mut L,
    folders: &mut D,
    clock: &C,
    gate: &G,
    books: &mut Books,
) -> u8
    requires { books.old ≡ [] }
{
    run(
        rt, alloc, words, input, output, recording, notes, linker, folders, clock, gate, books,
    )
}

/// Runs the program, and returns its exit status.
pub(crate) fn program_on<
    I: Source,
    K: Sink,
    W: Sink,
    N: Sink,
    L: Linker,
    D: Folders,
    C: Clock + Sync,
    G: Gate + Sync,
>(
    rt: &(impl Threads + Wait + Sync),
    alloc: Global,
    words: Result<&[String], AllocError>,
    input: &mut I,
    output: &mut K,
    recording: &mut W,
    notes: &mut N,
    linker: &mut L,
    folders: &mut D,
    clock: &C,
    gate: &G,
) -> ExitCode {
    program(
        rt, alloc, words, input, output, recording, notes, linker, folders, clock, gate,
    )
}
