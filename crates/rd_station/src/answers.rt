//! What a station answers.

use rd_base::Key;
use rd_drive::Job;
use rd_irp::{Kind, Reply};

/// What a hand that asks for a job is given.
#[derive(Debug, Drop)]
pub enum Given {
    /// The job that came first of those that wait.
    Job(Job),
    Nothing,
    /// The session is over, so no job will come.
    Over,
}

/// What came of a job that a hand gave back.
#[derive(Clone, Copy, Debug, PartialEq, Eq)]
pub enum Applied {
    /// The device ran it, and its completion can be collected.
    Ran,
    /// The device ran it, and it waits there.
    Parked,
    /// Its device was removed after it came, so it wasn't run. Its completion can be collected.
    Cancelled,
    /// No hand has such a job from here any more, so it wasn't run.
    Stale,
}

/// A completion that can be sent.
#[derive(Debug, Drop)]
pub struct Completion {
    pub key: Key,
    /// The completion id of the request.
    pub completion: u32,
    /// The layout of its body.
    pub kind: Kind,
    pub reply: Reply,
}
