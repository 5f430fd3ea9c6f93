//! Two passes of the adder's turn that call side by side, and what the adder is afterwards in whatever order they come.

ghost use Rattle.std.specs.Prelude.{◌≡◌, ◌+◌, ◌%◌, ◌^◌, ◌<◌, ◌++◌, ◌∷◌, [], suc, IfSome};
ghost use Rattle.rd_turn.specs.History.{entry, calls_of};
ghost use Rattle.rd_turn.specs.Pass.{max_made, Belongs, IsSamePass};
ghost use Rattle.rd_turn_tests.specs.Calls.{HasMade};

use crate::adder::Adder;
use rd_turn::{Pass, Turn};
use std::alloc::Global;
use std::sync::Wait;
use std::thread::{Threads, join};

fn call_once<T: Wait>(
    rt: &T,
    turn: &Turn<Adder>,
    mut pass: Pass<Adder>,
    call: u64,
) -> (u64, Pass<Adder>)
    requires own { Belongs turn.now pass }
    ensures own { Belongs turn.now result.1 }
    ensures same { IsSamePass pass result.1 }
    ensures own_calls { HasMade pass call result.0 result.1 }
{
    let reply = turn.call(rt, &mut pass, call);
    (reply, pass)
}

/// Splits a pass from pass 0, lets each of them make a call in a thread of its own, and joins the new one.
pub fn call_side_by_side<T: Threads + Wait + Sync>(
    rt: &T,
    turn: &Turn<Adder>,
    mut pass: Pass<Adder>,
    own: u64,
    other: u64,
) -> (u64, u64, Pass<Adder>)
    requires own { Belongs turn.now pass }
    requires first { pass.number ≡ 0 }
    requires few { pass.made < max_made }
    ensures own { Belongs turn.now result.2 }
    ensures counts { (result.2.number ≡ 0) × (result.2.made ≡ suc pass.made) × (result.2.out ≡ pass.out) }
    ensures own_calls { calls_of 0 result.2.seen ≡ calls_of 0 pass.seen ++ entry 0 own result.0 ∷ [] }
    ensures other_calls { calls_of (suc pass.made) result.2.seen ≡ entry (suc pass.made) other result.1 ∷ [] }
{
    let second = turn.split(&mut pass);
    let ((first_reply, mut pass), (second_reply, second)) = join(
        rt,
        || call_once(rt, turn, pass, own),
        || call_once(rt, turn, second, other),
    );
    turn.join(&mut pass, second);
    (first_reply, second_reply, pass)
}

/// Adds one number, and then two more side by side: the three replies, and the adder in the end.
pub fn add_three<T: Threads + Wait + Sync>(
    rt: &T,
    alloc: Global,
    first: u64,
    own: u64,
    other: u64,
) -> Option<([u64; 3], Adder)>
    ensures { IfSome result (λ r. (r.1.sum ≡ (first + own + other) % 2 ^ 64) × (r.1.calls ≡ 3)) }
{
    let Ok((turn, mut pass)) = Turn::new(alloc, Adder { sum: 0, calls: 0 }) else {
        return None;
    };
    let first_reply = turn.call(rt, &mut pass, first);
    let (own_reply, other_reply, pass) = call_side_by_side(rt, &turn, pass, own, other);
    Some(([first_reply, own_reply, other_reply], turn.close(pass)))
}
