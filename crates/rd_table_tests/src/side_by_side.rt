//! Two applications that ask at one table side by side, and the numbers of their requests in whatever order their calls came.

ghost use Rattle.std.specs.Prelude.{◌≡◌, ◌≢◌, ◌+◌, ◌≤◌, ◌∷◌, [], ℕ, suc, Some, Ok, IfSome};
ghost use Rattle.rd_pending.specs.declared.calls.Target.TheVariants as Target;
ghost use Rattle.rd_turn.specs.History.{calls_of, entry};
ghost use Rattle.rd_turn.specs.Pass.{max_made, Belongs, IsSamePass};
ghost use Rattle.rd_table.specs.declared.calls.PendingCall.TheVariants as Ask;
ghost use Rattle.rd_table.specs.declared.calls.PendingReply.TheVariants as Reply;

use rd_irp::Op;
use rd_pending::Target;
use rd_table::{PendingCall, PendingReply, Table};
use rd_turn::{Pass, Turn};
use std::alloc::Global;
use std::sync::Wait;
use std::thread::{Threads, join};

/// An application that asks something of device 1: the number of its request, where it is accepted.
fn ask<T: Wait>(
    rt: &T,
    turn: &Turn<Table>,
    mut pass: Pass<Table>,
    app: u32,
    op: Op,
) -> (Option<u64>, Pass<Table>)
    requires own { Belongs turn.now pass }
    requires fresh { calls_of pass.number pass.seen ≡ [] }
    ensures own { Belongs turn.now result.1 }
    ensures same { IsSamePass pass result.1 }
    ensures number { (number : ℕ) → result.0 ≡ Some number → calls_of pass.number result.1.seen ≡ entry pass.number (Ask.Submit app (Target.Device 1) op) (Reply.Submitted (Ok number)) ∷ [] }
{
    let target = Target::Device(1);
    let reply = turn.call(rt, &mut pass, PendingCall::Submit { app, target, op });
    match reply {
        PendingReply::Submitted(Ok(number)) => (Some(number), pass),
        _ => (None, pass),
    }
}

/// Splits two passes from pass 0, lets an application with each ask in a thread of its own, and joins them.
pub fn ask_side_by_side<T: Threads + Wait + Sync>(
    rt: &T,
    turn: &Turn<Table>,
    mut pass: Pass<Table>,
    left: Op,
    right: Op,
) -> (Option<u64>, Option<u64>, Pass<Table>)
    requires own { Belongs turn.now pass }
    requires first { pass.number ≡ 0 }
    requires few { pass.made + 2 ≤ max_made }
    ensures own { Belongs turn.now result.2 }
    ensures counts { (result.2.number ≡ 0) × (result.2.made ≡ pass.made + 2) × (result.2.out ≡ pass.out) }
    ensures left { (number : ℕ) → result.0 ≡ Some number → calls_of (suc pass.made) result.2.seen ≡ entry (suc pass.made) (Ask.Submit 1 (Target.Device 1) left) (Reply.Submitted (Ok number)) ∷ [] }
    ensures right { (number : ℕ) → result.1 ≡ Some number → calls_of (suc (suc pass.made)) result.2.seen ≡ entry (suc (suc pass.made)) (Ask.Submit 2 (Target.Device 1) right) (Reply.Submitted (Ok number)) ∷ [] }
{
    let one = turn.split(&mut pass);
    let two = turn.split(&mut pass);
    let (first, second) = join(
        rt,
        || ask(rt, turn, one, 1, left),
        || ask(rt, turn, two, 2, right),
    );
    let (number, one) = first;
    let (other, two) = second;
    turn.join(&mut pass, one);
    turn.join(&mut pass, two);
    (number, other, pass)
}

/// Begins a channel on which device 1 is there, lets two applications ask side by side, and closes the turn: the numbers of their requests, which are two,
/// whoever came first.
pub fn ask_two<T: Threads + Wait + Sync>(
    rt: &T,
    alloc: Global,
    left: Op,
    right: Op,
) -> Option<(u64, u64)>
    ensures { IfSome result (λ numbers. numbers.0 ≢ numbers.1) }
{
    let Ok(table) = Table::new(alloc) else {
        return None;
    };
    let Ok((turn, mut pass)) = Turn::new(alloc, table) else {
        return None;
    };
    turn.call(rt, &mut pass, PendingCall::Begin(1));
    turn.call(rt, &mut pass, PendingCall::Live(1));
    let (number, other, pass) = ask_side_by_side(rt, &turn, pass, left, right);
    turn.close(pass);
    both(number, other)
}

/// Two numbers, where both are there.
fn both(number: Option<u64>, other: Option<u64>) -> Option<(u64, u64)>
    ensures { IfSome result (λ numbers. (number ≡ Some numbers.0) × (other ≡ Some numbers.1)) }
{
    Some((number?, other?))
}
