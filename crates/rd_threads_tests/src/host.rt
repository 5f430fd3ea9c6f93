//! The command `host` with two applications, whose client completes neither one's request before it has both: a host that plays one application after the
//! other never gets on with it.

ghost use Rattle.std.specs.Prelude.{◌≡◌, None};

use crate::serving::{serve, waits_for};
use rd_base::{Calls, Failed, MemSink, Sink, Source};
use rd_folder::MemFolders;
use rd_link::{Hang, Linker, NoGate};
use std::alloc::AllocError;
use std::process::Abort;
use std::sync::Wait;
use std::sync::atomic::Ordering::SeqCst;
use std::sync::atomic::{AtomicBool, AtomicU64};
use std::test::Fail;
use std::thread::Threads;

const SCRIPT: &[u8] = b"devices 2\n1 open h 1 \\a\n2 open h 2 \\b\n";

/// What the host prints: each application has its own file.
const LINES: &[u8] = b"1.1 done 00000000 0100000001\n2.1 done 00000000 0200000001\n";

/// What the client says before it has a request: its opening, and a list of two drives.
pub const OPENING: &[u8] = b"\
\x14\0\0\0\x0c\0\0\0\x03\0\0\0rDCC\x01\0\x0c\0\x01\0\0\0\
\x20\0\0\0\x18\0\0\0\x03\0\0\0rDNC\x01\0\0\0\0\0\0\0\x08\0\0\0R\0D\0R\0\0\0\
\x4c\0\0\0\x44\0\0\0\x03\0\0\0rDPC\x03\0\0\0\
\x01\0\x2c\0\x02\0\0\0\x02\0\0\0\0\0\0\0\x01\0\x0c\0\xff\xff\0\0\0\0\0\0\x05\0\0\0\x01\0\0\0\0\0\0\0\0\0\0\0\
\x02\0\x08\0\x01\0\0\0\x04\0\x08\0\x02\0\0\0\
\x38\0\0\0\x30\0\0\0\x03\0\0\0rDAD\x02\0\0\0\x08\0\0\0\x01\0\0\0ONE\0\0\0\0\0\0\0\0\0\x08\0\0\0\x02\0\0\0TWO\0\0\0\0\0\0\0\0\0";

/// The completions of both drives' requests, the second drive's first, where the first drive's request has completion id 0.
const FIRST_BEFORE: &[u8] = b"\
\x1d\0\0\0\x15\0\0\0\x03\0\0\0rDCI\x02\0\0\0\x01\0\0\0\0\0\0\0\x02\0\0\0\x01\
\x1d\0\0\0\x15\0\0\0\x03\0\0\0rDCI\x01\0\0\0\0\0\0\0\0\0\0\0\x01\0\0\0\x01";

/// The same where the second drive's request has it.
const SECOND_BEFORE: &[u8] = b"\
\x1d\0\0\0\x15\0\0\0\x03\0\0\0rDCI\x02\0\0\0\0\0\0\0\0\0\0\0\x02\0\0\0\x01\
\x1d\0\0\0\x15\0\0\0\x03\0\0\0rDCI\x01\0\0\0\x01\0\0\0\0\0\0\0\x01\0\0\0\x01";

/// How a request of the first drive with completion id 0 begins, and with 1; and the second drive's.
const FIRST_ZERO: &[u8; 16] = b"rDRI\x01\0\0\0\0\0\0\0\0\0\0\0";

const FIRST_ONE: &[u8; 16] = b"rDRI\x01\0\0\0\0\0\0\0\x01\0\0\0";

const SECOND_ZERO: &[u8; 16] = b"rDRI\x02\0\0\0\0\0\0\0\0\0\0\0";

const SECOND_ONE: &[u8; 16] = b"rDRI\x02\0\0\0\0\0\0\0\x01\0\0\0";

/// What the halves of the channel share: how many requests the client has with completion id 0 and with 1, and whether the former is the first drive's.
#[derive(Drop)]
struct Heard {
    zeros: AtomicU64,
    ones: AtomicU64,
    first_is_zero: AtomicBool,
    /// Whether the client waited in vain.
    gave_up: AtomicBool,
}

impl Heard {
    /// There is no request.
    fn new() -> Self {
        Heard {
            zeros: AtomicU64::new(0),
            ones: AtomicU64::new(0),
            first_is_zero: AtomicBool::new(false),
            gave_up: AtomicBool::new(false),
        }
    }

    /// Counts the requests in a piece that was written.
    fn note(&self, piece: &[u8]) {
        if has(piece, FIRST_ZERO) {
            self.first_is_zero.store(true, SeqCst);
        }
        if has(piece, FIRST_ZERO) || has(piece, SECOND_ZERO) {
            self.zeros.fetch_add(1, SeqCst);
        }
        if has(piece, FIRST_ONE) || has(piece, SECOND_ONE) {
            self.ones.fetch_add(1, SeqCst);
        }
    }

    /// Both completions, once both requests are there. Nothing where one of them never comes.
    fn completions(&self) -> &'static [u8] {
        if !(waits_for(&self.zeros, 1) && waits_for(&self.ones, 1)) {
            self.gave_up.store(true, SeqCst);
            return b"";
        }
        if self.first_is_zero.load(SeqCst) {
            FIRST_BEFORE
        } else {
            SECOND_BEFORE
        }
    }
}

/// Whether a piece has these bytes.
fn has(piece: &[u8], bytes: &[u8; 16]) -> bool {
    piece.windows(16).any(|window| window == bytes.as_slice())
}

/// The half that the host reads: the opening, then both completions, and then the end.
#[derive(Drop)]
struct ClientIn<'a> {
    heard: &'a Heard,
    completed: bool,
    /// What is left of what the client says.
    rest: &'static [u8],
}

impl Source for ClientIn<'_> {
    ghost left = { λ _. None };

    ghost faults = { λ _. 0 };

    fn read(&mut self, into: &mut [u8]) -> Result<usize, Failed> {
        if self.rest.is_empty() && !self.completed {
            self.completed = true;
            self.rest = self.heard.completions();
        }
        let count = self.rest.len().min(into.len());
        into[..count].copy_from_slice(&self.rest[..count]);
        self.rest = &self.rest[count..];
        Ok(count)
    }
}

/// The half that the host writes.
#[derive(Drop)]
struct ClientOut<'a> {
    heard: &'a Heard,
}

impl Sink for ClientOut<'_> {
    ghost held = { λ _. None };

    ghost faults = { λ _. 0 };

    fn write(&mut self, piece: &[u8]) -> Result<usize, Failed> {
        self.heard.note(piece);
        Ok(piece.len())
    }
}

impl Hang for ClientOut<'_> {
    fn hang_up(&mut self) {}
}

/// A linker of channels to the client. It tells nothing of them.
#[derive(Drop)]
struct Client<'a> {
    heard: &'a Heard,
}

impl<'a> Linker for Client<'a> {
    type In = ClientIn<'a>;

    type Out = ClientOut<'a>;

    ghost linked = { λ _. None };

    ghost failures = { λ _. 0 };

    ghost trouble = { λ _. 0 };

    fn count_failures(&self) -> u64 {
        0
    }

    fn count_trouble(&self) -> u64 {
        0
    }

    fn connect(&mut self) -> Result<(ClientIn<'a>, ClientOut<'a>), Failed> {
        let heard = self.heard;
        let input = ClientIn {
            heard,
            completed: false,
            rest: OPENING,
        };
        Ok((input, ClientOut { heard }))
    }

    fn settle(&mut self, _input: ClientIn<'a>, _output: ClientOut<'a>) {}
}

/// What came of the host: its status, and whether it printed what it should.
fn came_of(
    rt: &(impl Threads + Wait + Sync + AllocGlobal),
    heard: &Heard,
) -> Result<(u8, bool), AllocError> {
    let alloc = rt.alloc();
    let mut output = MemSink::new(alloc, Calls::of(Vec::new(alloc)));
    let mut client = Client { heard };
    let mut folders = MemFolders::new(alloc, Vec::new(alloc), Calls::of(Vec::new(alloc)))?;
    let status = serve(
        rt,
        alloc,
        "host",
        SCRIPT,
        &mut output,
        &mut client,
        &mut folders,
        &NoGate {},
    )?;
    Ok((status, output.bytes() == LINES))
}

/// Each application's request is sent before the other one's is completed; then both are done.
#[test]
fn plays_side_by_side(rt: HostRuntime) -> Result<(), Fail> {
    let heard = Heard::new();
    let came = came_of(&rt, &heard)?;
    let gave_up = heard.gave_up.load(SeqCst);
    assert_eq!(rt; (came, gave_up), ((0, true), false));
    Ok(())
}
