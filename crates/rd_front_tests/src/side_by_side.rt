//! A reader and a writer that call one front, each in a thread of its own, and the front and its desk afterwards.

ghost use Rattle.std.specs.Prelude.{IfSome};
ghost use Rattle.rd_turn.specs.Pass.{Belongs, IsSamePass};
ghost use Rattle.rd_front.specs.Kept.{DesksGoOn};
ghost use Rattle.rd_served_devices.specs.ServedDevices.{IsServedReached};

use rd_declared::Printers;
use rd_desk::Desk;
use rd_folder::Folder;
use rd_front::{DeviceDesk, Front, FrontCall, FrontReply, fronts_call_desks};
use rd_served_devices::ServedDevice;
use rd_turn::{Caller, Pass, Turn};
use rd_world::Client;
use std::alloc::Global;
use std::sync::Wait;
use std::thread::{Threads, join};

/// Two threads call one front at once. Its desks go on by these calls.
pub fn call_side_by_side<'a, T: Threads + Wait + Sync, F: Folder + Drop + Send>(
    rt: &'a T,
    alloc: Global,
    front: Front<'a, T, F>,
    reads: FrontCall,
    writes: FrontCall,
) -> Option<(FrontReply, FrontReply, Front<'a, T, F>)>
    ensures { IfSome result (λ r. DesksGoOn front.entry r.2) }
{
    fronts_call_desks();
    let Ok((turn, mut a)) = Turn::new(alloc, front) else {
        return None;
    };
    let b = turn.split(&mut a);
    let one = Caller::new(&turn, a);
    let two = Caller::new(&turn, b);
    let ((first, one), (second, two)) = join(rt, || one.reply(rt, reads), || two.reply(rt, writes));
    let mut a = one.into_pass();
    turn.join(&mut a, two.into_pass());
    Some((first, second, turn.close(a)))
}

/// A front over one desk, which two threads call at once; and the pass of the desk afterwards.
pub fn on_one_desk<'a, T: Threads + Wait + Sync, F: Folder + Drop + Send>(
    rt: &'a T,
    alloc: Global,
    client: Client,
    turn: &'a Turn<Desk<ServedDevice<F>>>,
    pass: Pass<Desk<ServedDevice<F>>>,
    reads: FrontCall,
    writes: FrontCall,
) -> Option<(FrontReply, FrontReply, Pass<Desk<ServedDevice<F>>>)>
    requires own { Belongs turn.now pass }
    requires reached { IsServedReached turn.now.opening }
    ensures own { IfSome result (λ r. Belongs turn.now r.2) }
    ensures same { IfSome result (λ r. IsSamePass pass r.2) }
{
    let mut desks = Vec::new(alloc);
    let Ok(()) = desks.reserve(1) else {
        return None;
    };
    desks.push_reserved(DeviceDesk::new(1, turn, pass));
    let front = Front::new(rt, alloc, client, Printers::new(alloc), desks);
    let (first, second, front) = call_side_by_side(rt, alloc, front, reads, writes)?;
    let mut desks = front.into_desks();
    let desk = desks.pop()?;
    Some((first, second, desk.into_pass()))
}
