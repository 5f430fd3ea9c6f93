//! Both sides of a session in one state.

ghost use Rattle.std.specs.Prelude.{◌≡◌, is_none};

use crate::applications::Applications;
use crate::client::Client;
use crate::done::Done;
use crate::hands::Hands;
use crate::host::Host;
use crate::kept_job::KeptJob;
use crate::stations::Stations;
use crate::way::Way;
use rd_declared::Printers;
use rd_printer::Cache;
use rd_trace::Trace;
use std::alloc::Global;
use std::marker::Model;

/// Both sides of a session: the two ends, what stands on them, and what is under way between them. Contracts see a `WorldState`.
#[derive(Drop)]
pub struct World<'s> {
    pub(crate) alloc: Global,
    /// The moment of each run, in 100 ns since 1601-01-01 UTC.
    pub(crate) moment: u64,
    /// The most bytes that a drawn read takes.
    pub(crate) piece: u32,
    /// Where the draws stand.
    pub(crate) draws: u64,
    pub(crate) client: Client,
    pub(crate) side: Host,
    pub(crate) stations: Stations,
    pub(crate) printers: Printers,
    pub(crate) cache: Cache,
    pub(crate) applications: Applications<'s>,
    pub(crate) hands: Hands,
    pub(crate) to_client: Way,
    pub(crate) to_host: Way,
    pub(crate) kept: Option<KeptJob>,
    /// How many channels began.
    pub(crate) channels: u32,
    /// The numbers of the lines that did nothing.
    pub(crate) idle: Vec<u32>,
    pub(crate) deeds: Trace<Done>,
}

impl<'s> Model for World<'s> {
    ghost use Rattle.rd_world.specs.World.{WorldState};

    ghost Value = { WorldState };

    ghost view = { λ w. record {
      moment = w.moment;
      piece = w.piece;
      draws = w.draws;
      client = w.client;
      side = w.side;
      stations = w.stations;
      printers = w.printers;
      cache = w.cache;
      applications = w.applications;
      hands = w.hands;
      to_client = w.to_client;
      to_host = w.to_host;
      kept = w.kept;
      channels = w.channels;
      idle = w.idle.items;
      deeds = w.deeds.items;
    } };
}
