//! The command `client` with two drives and two workers, of which the one with the first drive's request is held up until the completion of the other
//! drive's was written.

ghost use Rattle.std.specs.Prelude.{◌≡◌, None};

use crate::serving::{serve, waits_for};
use rd_base::{Bytes, Calls, Failed, Key, MemSink, Sink, Source};
use rd_folder::MemFolders;
use rd_link::{Gate, Hang, Linker, MemIn, MemLinker, MemOut};
use std::alloc::{AllocError, Global};
use std::process::Abort;
use std::sync::Wait;
use std::sync::atomic::Ordering::SeqCst;
use std::sync::atomic::{AtomicBool, AtomicU64};
use std::test::Fail;
use std::thread;
use std::thread::Threads;

const SCRIPT: &[u8] = b"workers 2\ndrive 1 ONE\ndrive 2 TWO\n";

/// What the client prints.
const LINES: &[u8] = b"device 1 ran 1\ndevice 2 ran 1\n";

/// What the host says to open a channel.
pub const OPENING: &[u8] = b"\
\x14\0\0\0\x0c\0\0\0\x03\0\0\0rDnI\x01\0\x0c\0\x01\0\0\0\
\x4c\0\0\0\x44\0\0\0\x03\0\0\0rDPS\x03\0\0\0\
\x01\0\x2c\0\x02\0\0\0\x02\0\0\0\0\0\0\0\x01\0\x0c\0\xff\xff\0\0\0\0\0\0\x05\0\0\0\0\0\0\0\0\0\0\0\0\0\0\0\
\x02\0\x08\0\x01\0\0\0\x04\0\x08\0\x02\0\0\0\
\x14\0\0\0\x0c\0\0\0\x03\0\0\0rDCC\x01\0\x0c\0\x01\0\0\0\
\x0c\0\0\0\x04\0\0\0\x03\0\0\0rDLU";

/// A close at a device that there isn't, which is answered without a worker.
const KNOCK: &[u8] = b"\
\x40\0\0\0\x38\0\0\0\x03\0\0\0rDRI\x03\0\0\0\x09\0\0\0\0\0\0\0\x02\0\0\0\0\0\0\0\
\0\0\0\0\0\0\0\0\0\0\0\0\0\0\0\0\0\0\0\0\0\0\0\0\0\0\0\0\0\0\0\0";

/// A close at each drive, of a file that isn't open.
const CLOSES: &[u8] = b"\
\x40\0\0\0\x38\0\0\0\x03\0\0\0rDRI\x01\0\0\0\x09\0\0\0\0\0\0\0\x02\0\0\0\0\0\0\0\
\0\0\0\0\0\0\0\0\0\0\0\0\0\0\0\0\0\0\0\0\0\0\0\0\0\0\0\0\0\0\0\0\
\x40\0\0\0\x38\0\0\0\x03\0\0\0rDRI\x02\0\0\0\x09\0\0\0\0\0\0\0\x02\0\0\0\0\0\0\0\
\0\0\0\0\0\0\0\0\0\0\0\0\0\0\0\0\0\0\0\0\0\0\0\0\0\0\0\0\0\0\0\0";

/// Their completions, the second drive's first.
const COMPLETIONS: &[u8] = b"\
\x1c\0\0\0\x14\0\0\0\x03\0\0\0rDCI\x02\0\0\0\0\0\0\0\x08\0\0\xc0\0\0\0\0\
\x1c\0\0\0\x14\0\0\0\x03\0\0\0rDCI\x01\0\0\0\0\0\0\0\x08\0\0\xc0\0\0\0\0";

/// How a completion of the first drive begins, of the second, and of the device that there isn't.
const OF_FIRST: &[u8; 8] = b"rDCI\x01\0\0\0";

const OF_SECOND: &[u8; 8] = b"rDCI\x02\0\0\0";

const OF_NONE: &[u8; 8] = b"rDCI\x03\0\0\0";

/// How often the host knocks at most.
const KNOCKS: u64 = 10_000;

/// What the gate and the halves of the channel share: how many completions were written of each drive, and how many knocks were answered.
#[derive(Drop)]
struct Shared {
    first: AtomicU64,
    second: AtomicU64,
    answered: AtomicU64,
    /// How many requests were read before the one that is held up.
    held: AtomicU64,
    /// Whether somebody waited in vain.
    gave_up: AtomicBool,
}

impl Shared {
    /// Nothing was written, and no request is held up.
    fn new() -> Self {
        Shared {
            first: AtomicU64::new(0),
            second: AtomicU64::new(0),
            answered: AtomicU64::new(0),
            held: AtomicU64::new(u64::MAX),
            gave_up: AtomicBool::new(false),
        }
    }

    /// Counts what is in a piece that was written.
    fn note(&self, piece: &[u8]) {
        note_in(piece, OF_FIRST, &self.first);
        note_in(piece, OF_SECOND, &self.second);
        note_in(piece, OF_NONE, &self.answered);
    }

    /// Waits until so many were written. False where they weren't in the end.
    fn waits_for(&self, written: &AtomicU64, count: u64) -> bool {
        let came = waits_for(written, count);
        if !came {
            self.gave_up.store(true, SeqCst);
        }
        came
    }
}

/// Counts one more where a piece has these bytes.
fn note_in(piece: &[u8], bytes: &[u8; 8], count: &AtomicU64) {
    if piece.windows(8).any(|window| window == bytes.as_slice()) {
        count.fetch_add(1, SeqCst);
    }
}

impl Gate for Shared {
    /// Holds the first drive's request up until the second drive's completion was written.
    fn pass(&self, key: Key) {
        if key.index == self.held.load(SeqCst) {
            self.waits_for(&self.second, 1);
        }
    }
}

/// The half that the client reads. After the opening the host knocks until the client's threads are there; then both requests come, and the end once their
/// completions were written.
#[derive(Drop)]
struct HostIn<'a> {
    opening: MemIn,
    shared: &'a Shared,
    knocks: u64,
    asked: bool,
    /// What is left of what the host says.
    rest: &'static [u8],
}

impl HostIn<'_> {
    /// What the host says next.
    fn next(&mut self) -> &'static [u8]
        ensures { self.new.opening ≡ self.old.opening }
    {
        if self.asked {
            self.shared.waits_for(&self.shared.first, 1);
            self.shared.waits_for(&self.shared.second, 1);
            return b"";
        }
        if self.are_there() {
            self.asked = true;
            self.shared.held.store(self.knocks, SeqCst);
            return CLOSES;
        }
        if self.knocks >= KNOCKS {
            self.shared.gave_up.store(true, SeqCst);
            return b"";
        }
        self.knocks += 1;
        thread::yield_now();
        KNOCK
    }

    /// Whether the last knock is answered while the client's reader waits here. Then another thread does so; and until writer and workers have all come the
    /// reader itself does what there is to do before it reads on.
    fn are_there(&self) -> bool {
        let answered = self.shared.answered.load(SeqCst);
        answered < self.knocks && self.shared.waits_for(&self.shared.answered, self.knocks)
    }
}

impl Source for HostIn<'_> {
    ghost left = { λ _. None };

    ghost faults = { λ s. s.opening.faults };

    fn read(&mut self, into: &mut [u8]) -> Result<usize, Failed> {
        let count = self.opening.read(into)?;
        if count > 0 {
            return Ok(count);
        }
        if self.rest.is_empty() {
            self.rest = self.next();
        }
        let count = self.rest.len().min(into.len());
        into[..count].copy_from_slice(&self.rest[..count]);
        self.rest = &self.rest[count..];
        Ok(count)
    }
}

/// The half that the client writes.
#[derive(Drop)]
struct HostOut<'a> {
    written: MemOut,
    shared: &'a Shared,
}

impl Sink for HostOut<'_> {
    ghost held = { λ _. None };

    ghost faults = { λ s. s.written.faults };

    fn write(&mut self, piece: &[u8]) -> Result<usize, Failed> {
        let count = self.written.write(piece)?;
        self.shared.note(piece);
        Ok(count)
    }
}

impl Hang for HostOut<'_> {
    fn hang_up(&mut self) {
        self.written.hang_up();
    }
}

/// A linker of channels to the host. It tells nothing of them.
#[derive(Drop)]
struct Host<'a> {
    channels: MemLinker,
    shared: &'a Shared,
}

impl<'a> Linker for Host<'a> {
    type In = HostIn<'a>;

    type Out = HostOut<'a>;

    ghost linked = { λ _. None };

    ghost failures = { λ l. l.channels.failures };

    ghost trouble = { λ l. l.channels.trouble };

    fn count_failures(&self) -> u64 {
        self.channels.count_failures()
    }

    fn count_trouble(&self) -> u64 {
        self.channels.count_trouble()
    }

    fn connect(&mut self) -> Result<(HostIn<'a>, HostOut<'a>), Failed> {
        let (opening, written) = self.channels.connect()?;
        let input = HostIn {
            opening,
            shared: self.shared,
            knocks: 0,
            asked: false,
            rest: b"",
        };
        let output = HostOut {
            written,
            shared: self.shared,
        };
        Ok((input, output))
    }

    fn settle(&mut self, input: HostIn<'a>, output: HostOut<'a>) {
        self.channels.settle(input.opening, output.written);
    }
}

impl<'a> Host<'a> {
    /// A host that opens one channel.
    fn new(alloc: Global, shared: &'a Shared) -> Result<Self, AllocError> {
        let openings = vec![in alloc; Bytes::of(OPENING.to_vec(alloc)?)]?;
        Ok(Host {
            channels: MemLinker::new(alloc, openings, none(alloc))?,
            shared,
        })
    }

    /// What the client wrote on it.
    fn written(&self) -> &[u8] {
        match self.channels.settled().first() {
            Some(settled) => settled.written.as_slice(),
            None => b"",
        }
    }
}

/// No call fails.
fn none(alloc: Global) -> Calls {
    Calls::of(Vec::new(alloc))
}

/// What came of the client: its status, whether it printed what it should, and whether it wrote the completions last, in their order.
fn came_of(
    rt: &(impl Threads + Wait + Sync + AllocGlobal),
    shared: &Shared,
) -> Result<(u8, bool, bool), AllocError> {
    let alloc = rt.alloc();
    let mut output = MemSink::new(alloc, none(alloc));
    let mut host = Host::new(alloc, shared)?;
    let mut folders = MemFolders::new(alloc, Vec::new(alloc), none(alloc))?;
    let status = serve(
        rt,
        alloc,
        "client",
        SCRIPT,
        &mut output,
        &mut host,
        &mut folders,
        shared,
    )?;
    let printed = output.bytes() == LINES;
    let completed = host.written().ends_with(COMPLETIONS);
    Ok((status, printed, completed))
}

/// The second drive's completion is written while the first drive's request, which came before, is held up; then the first one's is.
#[test]
fn works_side_by_side(rt: HostRuntime) -> Result<(), Fail> {
    let shared = Shared::new();
    let came = came_of(&rt, &shared)?;
    let gave_up = shared.gave_up.load(SeqCst);
    assert_eq!(rt; (came, gave_up), ((0, true, true), false));
    Ok(())
}
