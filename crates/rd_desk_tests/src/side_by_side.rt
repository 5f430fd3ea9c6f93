//! Two hands that work at one desk side by side, and the station afterwards in whatever order their calls came.

ghost use Rattle.std.specs.Prelude.{◌≡◌, ◌+◌, ◌≤◌, [], suc, List, IfSome};
ghost use Rattle.rd_drive.specs.Answered.{drive_parked};
ghost use Rattle.rd_drive.specs.DriveStep.{drive_cut, drive_step};
ghost use Rattle.rd_station.specs.Tied.{IsTied};
ghost use Rattle.rd_turn.specs.declared.object.Entry.{Entry};
ghost use Rattle.rd_turn.specs.History.{calls_of};
ghost use Rattle.rd_turn.specs.Pass.{max_made, Belongs, IsSamePass};
ghost use Rattle.rd_desk.specs.declared.calls.DeskCall.{DeskCall};
ghost use Rattle.rd_desk.specs.declared.calls.DeskReply.{DeskReply};
ghost use Rattle.rd_desk.specs.Desk.{runs_of, told_calls};
ghost use Rattle.rd_desk.specs.Own.{GivesOwnBack, request_put};

use rd_desk::{Batch, Desk, DeskCall, Hand};
use rd_drive::{Job, MemoryDrive};
use rd_station::Station;
use rd_turn::{Pass, Turn};
use std::alloc::Global;
use std::sync::Wait;
use std::thread::{Threads, join};

/// How often a hand comes to the desk at most.
const ROUNDS: u32 = 8;

/// A hand that works until it is given nothing.
fn work_off<T: Wait>(
    rt: &T,
    alloc: Global,
    turn: &Turn<Desk<MemoryDrive>>,
    pass: Pass<Desk<MemoryDrive>>,
    moment: u64,
) -> Pass<Desk<MemoryDrive>>
    requires own { Belongs turn.now pass }
    requires fresh { calls_of pass.number pass.seen ≡ [] }
    ensures own { Belongs turn.now result }
    ensures same { IsSamePass pass result }
    ensures gives { GivesOwnBack (calls_of result.number result.seen) }
{
    let mut hand = Hand::new(turn, pass);
    let Ok(mut batch) = Batch::new(alloc) else {
        return hand.into_pass();
    };
    for _ in 0..ROUNDS {
        let worked = hand.work(rt, batch);
        let more = worked.count() > 0;
        batch = worked.into_batch(alloc, moment);
        if !more {
            break;
        }
    }
    hand.into_pass()
}

/// Splits two passes from pass 0, lets each work in a thread of its own, and joins them.
pub fn work_side_by_side<T: Threads + Wait + Sync>(
    rt: &T,
    alloc: Global,
    turn: &Turn<Desk<MemoryDrive>>,
    mut pass: Pass<Desk<MemoryDrive>>,
    moment: u64,
) -> Pass<Desk<MemoryDrive>>
    requires own { Belongs turn.now pass }
    requires first { pass.number ≡ 0 }
    requires few { pass.made + 2 ≤ max_made }
    ensures own { Belongs turn.now result }
    ensures counts { (result.number ≡ 0) × (result.made ≡ pass.made + 2) × (result.out ≡ pass.out) }
    ensures own_calls { calls_of 0 result.seen ≡ calls_of 0 pass.seen }
    ensures one_gives { GivesOwnBack (calls_of (suc pass.made) result.seen) }
    ensures two_gives { GivesOwnBack (calls_of (suc (suc pass.made)) result.seen) }
{
    let one = turn.split(&mut pass);
    let two = turn.split(&mut pass);
    let (one, two) = join(
        rt,
        || work_off(rt, alloc, turn, one, moment),
        || work_off(rt, alloc, turn, two, moment),
    );
    turn.join(&mut pass, one);
    turn.join(&mut pass, two);
    pass
}

/// A call that gives nothing back, of which the reply isn't looked at.
pub(crate) fn tell<T: Wait>(
    rt: &T,
    turn: &Turn<Desk<MemoryDrive>>,
    pass: &mut Pass<Desk<MemoryDrive>>,
    call: DeskCall,
)
    requires own { Belongs turn.now pass.old }
    requires idle { runs_of call ≡ [] }
    ensures own { Belongs turn.now pass.new }
    ensures same { IsSamePass pass.old pass.new }
    ensures gives { GivesOwnBack (calls_of pass.old.number pass.old.seen) → GivesOwnBack (calls_of pass.new.number pass.new.seen) }
{
    turn.call(rt, pass, call);
}

/// Puts two jobs at the desk of a drive, lets two hands work side by side, and gives the station back: what it has run are the two jobs, whoever ran them.
pub fn run_two<T: Threads + Wait + Sync>(
    rt: &T,
    alloc: Global,
    drive: MemoryDrive,
    first: Job,
    second: Job,
    moment: u64,
) -> Option<Station<MemoryDrive>>
    requires { drive_parked drive ≡ [] }
    ensures { IfSome result (λ s. (entries : List (Entry DeskCall DeskReply)) × IsTied drive_step drive_cut (request_put (told_calls entries)) drive s) }
{
    let Ok(station) = Station::new(alloc, drive) else {
        return None;
    };
    let Ok(desk) = Desk::new(alloc, station) else {
        return None;
    };
    let Ok((turn, mut pass)) = Turn::new(alloc, desk) else {
        return None;
    };
    tell(rt, &turn, &mut pass, DeskCall::Announce);
    tell(rt, &turn, &mut pass, DeskCall::Put(first));
    tell(rt, &turn, &mut pass, DeskCall::Put(second));
    let pass = work_side_by_side(rt, alloc, &turn, pass, moment);
    Some(turn.close(pass).into_station())
}
