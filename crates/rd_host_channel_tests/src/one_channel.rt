//! A channel of a front over a table's turn, which is listened to on one thread.

ghost use Rattle.std.specs.Prelude.{◌≡◌, ◌<◌, IfSome};
ghost use Rattle.rd_host_front.specs.State.{IsFirstOf};
ghost use Rattle.rd_turn.specs.Pass.{max_made};

use rd_carry::Incoming;
use rd_host::HostCore;
use rd_host_channel::{Ending, Listened, listen};
use rd_host_front::{FirstPass, HostFront, HostFrontCall, HostFrontReply, TableTurn};
use rd_link::MemIn;
use rd_sleepers::Sleepers;
use rd_table::Table;
use rd_turn::{Caller, Pass, Turn};
use std::alloc::Global;
use std::marker::Brand;
use std::sync::Wait;

/// Channel 1 begins over this turn, and the channel of this number is listened to. Why it is read no further, and pass 0. The turn is the one that `W` names.
pub fn over_turn<W: TableTurn, T: Wait>(
    rt: &T,
    alloc: Global,
    turn: &Turn<Table>,
    mut pass: Pass<Table>,
    channel: u32,
    incoming: Incoming<MemIn>,
) -> Option<(Ending, Pass<Table>)>
    requires turn { turn.now ≡ W.turn }
    requires first { IsFirstOf turn.now pass }
    requires few { pass.made < max_made }
    ensures { IfSome result (λ r. IsFirstOf turn.now r.1) }
{
    let Ok(sleepers) = Sleepers::new(alloc) else {
        return None;
    };
    let own = turn.split(&mut pass);
    let front = HostFront::<W, T>::new(rt, HostCore::new(alloc, 1), turn, own);
    let Ok((front, mut caller)) = Turn::new(alloc, front) else {
        return None;
    };
    let begin = HostFrontCall::Begin {
        channel: 1,
        first: FirstPass::new(pass),
    };
    let HostFrontReply::First { pass, came: _ } = front.call(rt, &mut caller, begin) else {
        return None;
    };
    let caller = Caller::new(&front, caller);
    let Listened {
        ending,
        front: caller,
        incoming: _,
    } = listen(rt, &sleepers, channel, caller, incoming);
    let caller = caller.into_pass();
    let own = front.close(caller).into_pass();
    let mut pass = pass.into_pass();
    turn.join(&mut pass, own);
    Some((ending, pass))
}

/// The same over a table of its own, whose turn is closed with what comes back.
pub fn on_one_table<T: Wait>(
    rt: &T,
    alloc: Global,
    channel: u32,
    incoming: Incoming<MemIn>,
) -> Option<Ending> {
    let Ok(table) = Table::new(alloc) else {
        return None;
    };
    let Ok((turn, pass)) = Turn::new(alloc, table) else {
        return None;
    };
    let (ending, pass) = over_turn::<Brand, T>(rt, alloc, &turn, pass, channel, incoming)?;
    if pass.out() != 0 {
        return None;
    }
    turn.close(pass);
    Some(ending)
}
