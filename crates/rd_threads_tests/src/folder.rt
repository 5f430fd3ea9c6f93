//! The command `client` with a drive over a folder and one in memory, and two workers. Its host says one thing after the other, each once the client has answered the
//! one before.

ghost use Rattle.std.specs.Prelude.{◌≡◌, None};

use crate::client::OPENING as HOST_OPENING;
use crate::host::OPENING as CLIENT_OPENING;
use crate::serving::{serve, waits_for};
use rd_base::{Bytes, Calls, Failed, MemSink, Sink, Source};
use rd_folder::{MemFolder, MemFolders};
use rd_link::{Hang, Linker, MemIn, MemLinker, MemOut, NoGate};
use std::alloc::{AllocError, Global};
use std::process::Abort;
use std::sync::Wait;
use std::sync::atomic::AtomicU64;
use std::sync::atomic::Ordering::SeqCst;
use std::test::Fail;
use std::thread::Threads;

/// The drive over the folder comes first here, and second where its client announces it.
const SCRIPT: &[u8] = b"workers 2\nreal 2 TWO notes\ndrive 1 ONE\n";

/// What the client prints.
const LINES: &[u8] = b"device 1 ran 1\ndevice 2 ran 5\n";

/// The number of a folder's first `read`.
const FIRST_READ: u64 = 18;

/// What the host says, and what the client answers.
#[derive(Clone, Copy)]
struct Exchange {
    says: &'static [u8],
    hears: &'static [u8],
}

/// Both open the channel. A file is made in the folder, written, read in vain and then with success, and closed; and one is made in memory.
static EXCHANGES: [Exchange; 7] = [
    Exchange {
        says: HOST_OPENING,
        hears: CLIENT_OPENING,
    },
    Exchange {
        says: b"\x46\0\0\0\x3e\0\0\0\x03\0\0\0rDRI\x02\0\0\0\0\0\0\0\0\0\0\0\0\0\0\0\0\0\0\0\
            \0\0\0\xc0\0\0\0\0\0\0\0\0\0\0\0\0\x07\0\0\0\x02\0\0\0\0\0\0\0\x06\0\0\0\\\0a\0\0\0",
        hears: b"\x1d\0\0\0\x15\0\0\0\x03\0\0\0rDCI\x02\0\0\0\0\0\0\0\0\0\0\0\x01\0\0\0\0",
    },
    Exchange {
        says: b"\x42\0\0\0\x3a\0\0\0\x03\0\0\0rDRI\x02\0\0\0\x01\0\0\0\0\0\0\0\x04\0\0\0\0\0\0\0\
            \x02\0\0\0\0\0\0\0\0\0\0\0\0\0\0\0\0\0\0\0\0\0\0\0\0\0\0\0\0\0\0\0hi",
        hears: b"\x1d\0\0\0\x15\0\0\0\x03\0\0\0rDCI\x02\0\0\0\0\0\0\0\0\0\0\0\x02\0\0\0\0",
    },
    Exchange {
        says: READ,
        hears: b"\x1c\0\0\0\x14\0\0\0\x03\0\0\0rDCI\x02\0\0\0\0\0\0\0\x85\x01\0\xc0\0\0\0\0",
    },
    Exchange {
        says: READ,
        hears: b"\x1e\0\0\0\x16\0\0\0\x03\0\0\0rDCI\x02\0\0\0\0\0\0\0\0\0\0\0\x02\0\0\0hi",
    },
    Exchange {
        says: b"\x40\0\0\0\x38\0\0\0\x03\0\0\0rDRI\x02\0\0\0\x01\0\0\0\0\0\0\0\x02\0\0\0\0\0\0\0\
            \0\0\0\0\0\0\0\0\0\0\0\0\0\0\0\0\0\0\0\0\0\0\0\0\0\0\0\0\0\0\0\0",
        hears: b"\x1c\0\0\0\x14\0\0\0\x03\0\0\0rDCI\x02\0\0\0\0\0\0\0\0\0\0\0\0\0\0\0",
    },
    Exchange {
        says: b"\x46\0\0\0\x3e\0\0\0\x03\0\0\0rDRI\x01\0\0\0\0\0\0\0\0\0\0\0\0\0\0\0\0\0\0\0\
            \0\0\0\xc0\0\0\0\0\0\0\0\0\0\0\0\0\x07\0\0\0\x02\0\0\0\0\0\0\0\x06\0\0\0\\\0a\0\0\0",
        hears: b"\x1d\0\0\0\x15\0\0\0\x03\0\0\0rDCI\x01\0\0\0\0\0\0\0\0\0\0\0\x01\0\0\0\0",
    },
];

/// Two bytes of the file in the folder are asked for.
const READ: &[u8] = b"\
\x40\0\0\0\x38\0\0\0\x03\0\0\0rDRI\x02\0\0\0\x01\0\0\0\0\0\0\0\x03\0\0\0\0\0\0\0\
\x02\0\0\0\0\0\0\0\0\0\0\0\0\0\0\0\0\0\0\0\0\0\0\0\0\0\0\0\0\0\0\0";

/// The half that the client reads.
#[derive(Drop)]
struct HostIn<'a> {
    unread: MemIn,
    /// How many bytes the client wrote.
    written: &'a AtomicU64,
    /// How many it has written when it has answered.
    due: u64,
    ahead: &'static [Exchange],
    /// What is left of what the host says.
    rest: &'static [u8],
}

impl HostIn<'_> {
    /// What the host says next: the end, where all was said, or no answer comes.
    fn next(&mut self) -> &'static [u8]
        ensures { self.new.unread ≡ self.old.unread }
    {
        if !waits_for(self.written, self.due) {
            return b"";
        }
        let Some((exchange, ahead)) = self.ahead.split_first() else {
            return b"";
        };
        self.ahead = ahead;
        self.due = self.due.saturating_add(exchange.hears.len() as u64);
        exchange.says
    }
}

impl Source for HostIn<'_> {
    ghost left = { λ _. None };

    ghost faults = { λ s. s.unread.faults };

    fn read(&mut self, into: &mut [u8]) -> Result<usize, Failed> {
        if self.rest.is_empty() {
            self.rest = self.next();
        }
        let count = self.rest.len().min(into.len());
        into[..count].copy_from_slice(&self.rest[..count]);
        self.rest = &self.rest[count..];
        Ok(count)
    }
}

/// The half that the client writes.
#[derive(Drop)]
struct HostOut<'a> {
    kept: MemOut,
    written: &'a AtomicU64,
}

impl Sink for HostOut<'_> {
    ghost held = { λ _. None };

    ghost faults = { λ s. s.kept.faults };

    fn write(&mut self, piece: &[u8]) -> Result<usize, Failed> {
        let count = self.kept.write(piece)?;
        self.written.fetch_add(count as u64, SeqCst);
        Ok(count)
    }
}

impl Hang for HostOut<'_> {
    fn hang_up(&mut self) {
        self.kept.hang_up();
    }
}

/// A linker of one channel to the host. It tells nothing of it.
#[derive(Drop)]
struct Host<'a> {
    channels: MemLinker,
    written: &'a AtomicU64,
}

impl<'a> Linker for Host<'a> {
    type In = HostIn<'a>;

    type Out = HostOut<'a>;

    ghost linked = { λ _. None };

    ghost failures = { λ l. l.channels.failures };

    ghost trouble = { λ l. l.channels.trouble };

    fn count_failures(&self) -> u64 {
        self.channels.count_failures()
    }

    fn count_trouble(&self) -> u64 {
        self.channels.count_trouble()
    }

    fn connect(&mut self) -> Result<(HostIn<'a>, HostOut<'a>), Failed> {
        let (unread, kept) = self.channels.connect()?;
        let input = HostIn {
            unread,
            written: self.written,
            due: 0,
            ahead: EXCHANGES.as_slice(),
            rest: b"",
        };
        let output = HostOut {
            kept,
            written: self.written,
        };
        Ok((input, output))
    }

    fn settle(&mut self, input: HostIn<'a>, output: HostOut<'a>) {
        self.channels.settle(input.unread, output.kept);
    }
}

impl<'a> Host<'a> {
    fn new(alloc: Global, written: &'a AtomicU64) -> Result<Self, AllocError> {
        let channel = vec![in alloc; Bytes::of(Vec::new(alloc))]?;
        Ok(Host {
            channels: MemLinker::new(alloc, channel, none(alloc))?,
            written,
        })
    }

    /// Whether the client wrote all its answers, and nothing else.
    fn heard_all(&self) -> bool {
        let Some(settled) = self.channels.settled().first() else {
            return false;
        };
        let mut left = settled.written.as_slice();
        for exchange in &EXCHANGES {
            match left.strip_prefix(exchange.hears) {
                Some(others) => left = others,
                None => return false,
            }
        }
        left.is_empty()
    }
}

/// No call fails.
fn none(alloc: Global) -> Calls {
    Calls::of(Vec::new(alloc))
}

/// One folder in which nothing is, whose first `read` fails.
fn folders(alloc: Global) -> Result<MemFolders, AllocError> {
    let fails = Calls::of(vec![in alloc; FIRST_READ]?);
    let folders = vec![in alloc; MemFolder::new(alloc, fails)]?;
    MemFolders::new(alloc, folders, none(alloc))
}

/// What came of the client: its status, whether it printed what it should, whether it answered as it should, and how many folders it closed.
fn came_of(
    rt: &(impl Threads + Wait + Sync + AllocGlobal),
) -> Result<(u8, bool, bool, usize), AllocError> {
    let alloc = rt.alloc();
    let written = AtomicU64::new(0);
    let mut output = MemSink::new(alloc, none(alloc));
    let mut host = Host::new(alloc, &written)?;
    let mut folders = folders(alloc)?;
    let status = serve(
        rt,
        alloc,
        "client",
        SCRIPT,
        &mut output,
        &mut host,
        &mut folders,
        &NoGate {},
    )?;
    let printed = output.bytes() == LINES;
    Ok((status, printed, host.heard_all(), folders.closed().len()))
}

/// A folder's file goes through the channel beside one in memory. A read that fails there is answered so, and leaves the file as it was.
#[test]
fn serves_a_folder(rt: HostRuntime) -> Result<(), Fail> {
    let came = came_of(&rt)?;
    assert_eq!(rt; came, (0, true, true, 1));
    Ok(())
}
