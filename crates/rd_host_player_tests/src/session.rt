//! A script that is played over a table and a front, with nobody at the other end.

ghost use Rattle.std.specs.Prelude.{◌≡◌};
ghost use Rattle.rd_turn.specs.Pass.{first_pass};

use rd_host::HostCore;
use rd_host_front::{Came, HostFront, TableTurn};
use rd_host_player::{Player, awaited_devices, tell_all};
use rd_issuer::Issuer;
use rd_script::{NumberedLine, Outcome};
use rd_sleepers::Sleepers;
use rd_table::Table;
use rd_turn::{Caller, Pass, Turn};
use std::alloc::Global;
use std::collections::BTreeMap;
use std::marker::Brand;
use std::sync::Wait;
use std::thread::Threads;

/// Plays the lines over this turn, which `W` names: on channel 1 where it is to begin, which is dropped at once, and then on none. The applications.
pub fn over_turn<'s, W: TableTurn, R: Threads + Wait + Sync>(
    rt: &R,
    alloc: Global,
    turn: &Turn<Table>,
    mut pass: Pass<Table>,
    lines: &'s [NumberedLine],
    issuers: Vec<Issuer<'s>>,
    begins: bool,
) -> Option<Vec<Issuer<'s>>>
    requires turn { turn.now ≡ W.turn }
    requires first { pass ≡ first_pass turn.now }
{
    let Ok(sleepers) = Sleepers::new(alloc) else {
        return None;
    };
    let own = turn.split(&mut pass);
    let front = HostFront::<W, R>::new(rt, HostCore::new(alloc, 1), turn, own);
    let Ok((front, caller)) = Turn::new(alloc, front) else {
        return None;
    };
    let caller = Caller::new(&front, caller);
    let mut player = Player::new(rt, alloc, turn, &sleepers, caller, pass, lines, issuers);
    if begins {
        let Came::Done = player.begin(1) else {
            return None;
        };
        player.give_up(1);
        player.play(awaited_devices(lines)).ok()?;
    }
    player.play_out().ok()?;
    let (_, _, _, issuers) = player.into_parts();
    Some(issuers)
}

/// The same over a table of its own: what came of each line.
pub fn over_table<R: Threads + Wait + Sync>(
    rt: &R,
    alloc: Global,
    lines: &[NumberedLine],
    issuers: Vec<Issuer<'_>>,
    begins: bool,
) -> Option<BTreeMap<(u32, u32), Outcome>> {
    let Ok(table) = Table::new(alloc) else {
        return None;
    };
    let Ok((turn, pass)) = Turn::new(alloc, table) else {
        return None;
    };
    let issuers = over_turn::<Brand, R>(rt, alloc, &turn, pass, lines, issuers, begins)?;
    tell_all(alloc, issuers).ok()
}
