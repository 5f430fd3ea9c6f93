//! The outcomes of a session.

use rd_base::{Bytes, Cause, Items};
use rd_irp::Reply;
use std::alloc::Global;
use std::collections::BTreeMap;

/// Why an application's line sent no request.
#[derive(Clone, Copy)]
pub enum Refusal {
    /// No channel is open.
    NoChannel,
    /// The device isn't live.
    NoDevice,
    /// The handle was opened on a device or a channel that is gone.
    StaleHandle,
    /// The host has no slot for one more request.
    Full,
    /// The device's journal is full.
    Worn,
    /// The handle's name holds no handle.
    NoHandle,
}

/// The outcome of an application's line.
#[derive(Drop)]
pub enum Outcome {
    /// Its request was completed, with this reply.
    Done(Reply),
    /// Its device was removed, or its channel ended, before its completion was heard.
    Lost(Cause),
    /// It sent no request.
    Refused(Refusal),
}

/// The outcomes of a session, and what else its report tells.
#[derive(Drop)]
pub struct Outcomes {
    /// By application and line, each line counted from 1 in its application.
    pub lines: BTreeMap<(u32, u32), Outcome>,
    /// The numbers of the control lines that did nothing, in the order in which they were acted.
    pub idle: Vec<u32>,
    /// The finished documents of each printer, by device.
    pub documents: BTreeMap<u32, Items<Bytes>>,
    /// What the client keeps for each printer, by the printer's name.
    pub cache: BTreeMap<Vec<u8>, Bytes>,
}

impl Outcomes {
    ghost use Rattle.std.specs.Prelude.{◌≡◌, []};

    /// No outcome.
    pub fn new(alloc: Global) -> Self
        ensures lines { result.lines.entries ≡ [] }
        ensures idle { result.idle.items ≡ [] }
        ensures documents { result.documents.entries ≡ [] }
        ensures cache { result.cache.entries ≡ [] }
    {
        Outcomes {
            lines: BTreeMap::new(alloc),
            idle: Vec::new(alloc),
            documents: BTreeMap::new(alloc),
            cache: BTreeMap::new(alloc),
        }
    }
}
