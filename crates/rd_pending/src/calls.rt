//! What a host asks of its table, and what the table answers.

use rd_base::{Bad, Cause};
use rd_irp::Reply;

/// A file that an application holds open: the file id is of a life of the device.
#[derive(Clone, Copy, Debug, PartialEq, Eq)]
pub struct Handle {
    pub device: u32,
    pub life: u64,
    pub file: u32,
}

/// What a request names.
#[derive(Clone, Copy, Debug, PartialEq, Eq)]
pub enum Target {
    /// A device, to open a file of it.
    Device(u32),
    Handle(Handle),
}

/// Why a request isn't accepted.
#[derive(Clone, Copy, Debug, PartialEq, Eq)]
pub enum SubmitNo {
    /// No channel is open.
    NoChannel,
    /// The device isn't there.
    NoDevice,
    /// The device is there in another life than the handle's.
    StaleHandle { then: u64, now: u64 },
    /// So many slots are held that no other can be.
    Full { held: u32 },
    /// So many numbers were given that no other can be.
    Worn { count: u64 },
    Memory,
}

/// Why a device doesn't begin a life.
#[derive(Clone, Copy, Debug, PartialEq, Eq)]
pub enum LiveNo {
    /// No channel is open.
    NoChannel,
    /// The device is there already.
    Already,
    /// 256 devices are there.
    Full,
    /// So many lives were given that no other can be.
    Worn { count: u64 },
    Memory,
}

/// To which number a completion belongs.
#[derive(Clone, Copy, Debug, PartialEq, Eq)]
pub enum Completed {
    /// The number's outcome is its reply.
    Gave(u64),
    /// The number was lost before, when its device was removed.
    Late(u64),
}

/// Why a completion isn't taken.
#[derive(Clone, Copy, Debug, PartialEq, Eq)]
pub enum CompleteNo {
    /// No slot has this device and completion id.
    Stray { device: u32, id: u32 },
    /// The first fault of the body.
    BodyBad(Bad),
    Memory,
}

/// What came of a request.
#[derive(Debug, Drop)]
pub enum Outcome {
    /// Its own completion.
    Done(Reply),
    /// Why it has none.
    Lost(Cause),
}

/// An outcome as it is handed out, with the device and the life that the request named.
#[derive(Debug, Drop)]
pub struct Taken {
    pub device: u32,
    pub life: u64,
    pub outcome: Outcome,
}

/// Why no outcome is handed out.
#[derive(Clone, Copy, Debug, PartialEq, Eq)]
pub enum TakeNo {
    /// The number has none yet.
    NotYet,
    /// No such number was given, or its outcome was handed out.
    Unknown,
}

/// How far a channel got.
#[derive(Clone, Copy, Debug, PartialEq, Eq)]
pub struct Stage {
    /// Whether one is open.
    pub channel: bool,
    /// How many lives of devices began since the last one began.
    pub lives: u64,
}
