//! How a session begins: with what its script declares.

ghost use Rattle.std.specs.Prelude.{◌≡◌, IfOk};
ghost use Rattle.rd_world.specs.Applications.{AreNumbered};
ghost use Rattle.rd_declared.specs.Declaring.{AreDeclared};
ghost use Rattle.rd_world.specs.Run.{world_of};
ghost use Rattle.rd_world.specs.World.{ending, new_way};

use crate::applications::Applications;
use crate::client::Client;
use crate::hands::Hands;
use crate::host::Host;
use crate::opening::{Opening, open_devices, settings_of};
use crate::way::Way;
use crate::world::World;
use rd_printer::Cache;
use rd_script::NumberedLine;
use rd_trace::Trace;
use std::alloc::{AllocError, Global};

/// The ClientId that the host gives.
const CLIENT_ID: u32 = 1;

impl<'s> World<'s> {
    /// The session that a script's lines begin, before its first channel.
    pub fn new(alloc: Global, lines: &'s [NumberedLine]) -> Result<Self, AllocError>
        requires declared { AreDeclared lines.now }
        requires numbered { AreNumbered lines.now }
        ensures begun { IfOk result (λ w. w ≡ world_of lines.now) }
        ensures first { IfOk result (λ w. w.channels ≡ 0) }
    {
        let settings = settings_of(lines);
        let Opening {
            stations,
            devices,
            printers,
        } = open_devices(alloc, lines)?;
        Ok(World {
            alloc,
            moment: settings.moment,
            piece: settings.piece,
            draws: settings.draws,
            client: Client::new(alloc, devices)?,
            side: Host::new(alloc, CLIENT_ID)?,
            stations,
            printers,
            cache: Cache::new(alloc),
            applications: Applications::new(alloc, lines)?,
            hands: Hands::new(alloc, settings.hands)?,
            to_client: ended_way(alloc),
            to_host: ended_way(alloc),
            kept: None,
            channels: 0,
            idle: Vec::new(alloc),
            deeds: Trace::new(),
        })
    }
}

/// A way whose channel ended.
fn ended_way(alloc: Global) -> Way
    ensures { result ≡ ending new_way }
{
    let mut way = Way::new(alloc);
    way.end();
    way
}
