//! A request on its way to a device.

ghost use Rattle.std.specs.Prelude.{◌≡◌, [], IsFalse};

use rd_base::Key;
use rd_irp::Op;
use std::alloc::Global;
use std::marker::Model;

/// The most bytes that one `Read` gives.
pub const MAX_READ: u32 = 1_048_576;

/// A request that a device is to run.
#[derive(Debug, Drop)]
pub struct Job {
    pub key: Key,
    /// The file id that the request names.
    pub file: u32,
    pub completion: u32,
    pub op: Op,
}

/// A job with the memory that it needs beside the device's own. A worker finds it before it takes the device's turn.
#[derive(Drop)]
pub struct Plan {
    job: Job,
    room: Vec<u8>,
    starved: bool,
}

impl Model for Plan {
    ghost use Rattle.rd_drive.specs.Planned.{Planned};

    ghost Value = { Planned };

    ghost view = { λ p. record { job = p.job; starved = p.starved } };

    ghost use Rattle.std.specs.Prelude.{◌≡◌, ◌≢◌, [], IsTrue};
    ghost use Rattle.rd_irp.specs.declared.op.Op.TheVariants.{Close};

    ghost invariant = { λ p. (p.room.items ≡ []) × (IsTrue p.starved → p.job.op ≢ Close) };
}

/// Finds the memory for a job. Where there is none the plan is starved; that of a `Close` never is.
pub fn prepare(alloc: Global, job: Job) -> Plan
    ensures job { result.job ≡ job }
    ensures close { job.op ≡ Op.Close → IsFalse result.starved }
{
    let needed = match &job.op {
        Op::Read { length, .. } => (*length).min(MAX_READ) as usize,
        _ => 0,
    };
    match Vec::with_capacity(alloc, needed) {
        Ok(room) => Plan {
            job,
            room,
            starved: false,
        },
        Err(_) => Plan {
            job,
            room: Vec::new(alloc),
            starved: true,
        },
    }
}

impl Plan {
    pub fn key(&self) -> Key
        ensures { result ≡ self.now.job.key }
    {
        self.job.key
    }

    pub fn job(&self) -> &Job
        ensures { result.now ≡ self.now.job }
    {
        &self.job
    }

    /// Whether no memory was found for it.
    pub fn starved(&self) -> bool
        ensures starved { result ≡ self.now.starved }
        ensures close { self.now.job.op ≡ Op.Close → IsFalse result }
    {
        self.starved
    }

    /// The job, and the room for the bytes of its reply.
    pub fn into_parts(self) -> (Job, Vec<u8>)
        ensures job { result.0 ≡ self.job }
        ensures room { result.1.items ≡ [] }
    {
        let Plan { job, room, .. } = self;
        (job, room)
    }
}
