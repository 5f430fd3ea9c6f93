//! The commands with threads, run over a linker and folders of a test's own: `run` is called here alone, for any of both, since what that takes is proved at each call.

ghost use Rattle.std.specs.Prelude.{◌≡◌};

use rd_base::{Books, Bytes, MemSink, PlainSink, PlainSource};
use rd_cli::run;
use rd_folder::Folders;
use rd_link::{FixedClock, Gate, Linker};
use std::alloc::{AllocError, Global};
use std::sync::Wait;
use std::sync::atomic::AtomicU64;
use std::sync::atomic::Ordering::SeqCst;
use std::thread;
use std::thread::Threads;

/// How often anybody looks at most, with a yield after each look.
const LOOKS: u32 = 1_000_000;

/// Waits until something was counted so often. False where it wasn't in the end.
pub fn waits_for(counted: &AtomicU64, count: u64) -> bool {
    for _ in 0..LOOKS {
        if counted.load(SeqCst) >= count {
            return true;
        }
        thread::yield_now();
    }
    false
}

fn words(alloc: Global, command: &str) -> Result<Vec<String>, AllocError> {
    let words = vec![in alloc;
        String::from_str(alloc, command)?,
        String::from_str(alloc, "rdr.sock")?,
    ]?;
    Ok(words)
}

/// Runs a command with this script over a linker and folders, and returns its status.
pub fn serve<L: Linker, D: Folders, G: Gate + Sync>(
    rt: &(impl Threads + Wait + Sync),
    alloc: Global,
    command: &str,
    script: &[u8],
    output: &mut MemSink,
    linker: &mut L,
    folders: &mut D,
    gate: &G,
) -> Result<u8, AllocError> {
    let words = words(alloc, command)?;
    let script = Bytes::of(script.to_vec(alloc)?);
    let mut books = Books::new(alloc);
    let status = run(
        rt,
        alloc,
        words.as_slice(),
        &mut PlainSource::new(script),
        output,
        &mut PlainSink::new(),
        &mut PlainSink::new(),
        linker,
        folders,
        &FixedClock(0),
        gate,
        &mut books,
    );
    Ok(status)
}
