//! What a command is run on, all of it in memory, and what it leaves there.
use crate::running::run_on;
use rd_base::{Books, Bytes, Calls, MemSink, MemSource};
use rd_folder::{MemFolder, MemFolders};
use rd_link::{FixedClock, MemLinker, NoGate};
use std::alloc::{AllocError, Global};
use std::sync::Wait;
use std::thread::Threads;

/// What can fail: a read of the input, a write to the output or to the recording, the opening of a folder, or on a channel its beginning, a read or a
/// write.
#[derive(Clone, Copy, Debug)]
pub(crate) enum Kind {
    Input,
    Output,
    Recording,
    Opening,
    Connect,
    Read,
    Write,
}

/// A call that fails: which one of its kind, counted from 1.
pub(crate) type Failing = (Kind, u64);

/// What is read on a channel: frames, one after the other.
pub(crate) type Frames = &'static [&'static [u8]];

/// The numbers of the calls that fail, of each kind.
#[derive(Drop)]
struct Numbers {
    input: Vec<u64>,
    output: Vec<u64>,
    recording: Vec<u64>,
    opening: Vec<u64>,
    connect: Vec<u64>,
    read: Vec<u64>,
    write: Vec<u64>,
}

impl Numbers {
    /// No call fails.
    fn new(alloc: Global) -> Self {
        Numbers {
            input: Vec::new(alloc),
            output: Vec::new(alloc),
            recording: Vec::new(alloc),
            opening: Vec::new(alloc),
            connect: Vec::new(alloc),
            read: Vec::new(alloc),
            write: Vec::new(alloc),
        }
    }

    /// Those of a kind.
    fn of(&mut self, kind: Kind) -> &mut Vec<u64> {
        match kind {
            Kind::Input => &mut self.input,
            Kind::Output => &mut self.output,
            Kind::Recording => &mut self.recording,
            Kind::Opening => &mut self.opening,
            Kind::Connect => &mut self.connect,
            Kind::Read => &mut self.read,
            Kind::Write => &mut self.write,
        }
    }
}

/// The input, the output, the recording, the notes, the channels and the folders of a command.
#[derive(Drop)]
pub(crate) struct Outside {
    pub(crate) input: MemSource,
    pub(crate) output: MemSink,
    pub(crate) recording: MemSink,
    pub(crate) notes: MemSink,
    pub(crate) linker: MemLinker,
    pub(crate) folders: MemFolders,
}

/// What a command leaves.
#[derive(Drop)]
pub(crate) struct Remains {
    pub(crate) status: u8,
    pub(crate) output: MemSink,
    pub(crate) recording: MemSink,
    pub(crate) notes: MemSink,
    pub(crate) folders: MemFolders,
    pub(crate) books: Books,
}

impl Outside {
    /// An input, channels on which this is read, and two empty folders, where these calls fail.
    pub(crate) fn new(
        alloc: Global,
        input: &[u8],
        channels: &[Frames],
        fails: &[Failing],
    ) -> Result<Self, AllocError> {
        let numbers = numbers_of(alloc, fails)?;
        let linker = MemLinker::with_fails(
            alloc,
            channels_of(alloc, channels)?,
            Calls::of(numbers.connect),
            Calls::of(numbers.read),
            Calls::of(numbers.write),
        )?;
        let folders = MemFolders::new(alloc, two_folders(alloc)?, Calls::of(numbers.opening))?;
        let input = Bytes::of(input.to_vec(alloc)?);
        Ok(Outside {
            input: MemSource::new(input, Calls::of(numbers.input)),
            output: MemSink::new(alloc, Calls::of(numbers.output)),
            recording: MemSink::new(alloc, Calls::of(numbers.recording)),
            notes: sink(alloc),
            linker,
            folders,
        })
    }

    /// Runs a command on it.
    pub(crate) fn run(
        self,
        rt: &(impl Threads + Wait + Sync),
        alloc: Global,
        words: &[String],
    ) -> Remains {
        let Self {
            mut input,
            mut output,
            mut recording,
            mut notes,
            mut linker,
            mut folders,
        } = self;
        let mut books = Books::new(alloc);
        let status = run_on(
            rt,
            alloc,
            words,
            &mut input,
            &mut output,
            &mut recording,
            &mut notes,
            &mut linker,
            &mut folders,
            &FixedClock(0),
            &NoGate {},
            &mut books,
        );
        Remains {
            status,
            output,
            recording,
            notes,
            folders,
            books,
        }
    }
}

/// The words of a command.
pub(crate) fn strings(alloc: Global, words: &[&str]) -> Result<Vec<String>, AllocError> {
    words
        .iter()
        .map(|word| String::from_str(alloc, word))
        .try_collect(alloc)
}

/// The numbers of the calls that fail.
fn numbers_of(alloc: Global, fails: &[Failing]) -> Result<Numbers, AllocError> {
    let mut numbers = Numbers::new(alloc);
    for fails in fails {
        numbers.of(fails.0).push(fails.1)?;
    }
    Ok(numbers)
}

/// The bytes of each channel.
fn channels_of(alloc: Global, channels: &[Frames]) -> Result<Vec<Bytes>, AllocError> {
    let mut all = Vec::new(alloc);
    for frames in channels {
        all.push(Bytes::of(frames.concat(alloc)?))?;
    }
    Ok(all)
}

/// Two folders in which nothing is.
fn two_folders(alloc: Global) -> Result<Vec<MemFolder>, AllocError> {
    let folders = vec![in alloc;
        MemFolder::new(alloc, never(alloc)),
        MemFolder::new(alloc, never(alloc)),
    ]?;
    Ok(folders)
}

/// The calls that fail: none.
fn never(alloc: Global) -> Calls {
    Calls::of(Vec::new(alloc))
}

/// A source of these bytes.
pub(crate) fn source(alloc: Global, bytes: &[u8]) -> Result<MemSource, AllocError> {
    let bytes = Bytes::of(bytes.to_vec(alloc)?);
    Ok(MemSource::new(bytes, never(alloc)))
}

/// An empty sink.
pub(crate) fn sink(alloc: Global) -> MemSink {
    MemSink::new(alloc, never(alloc))
}
