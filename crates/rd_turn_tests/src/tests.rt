//! Calls of one thread, and of two.

ghost use Rattle.std.specs.Prelude.{◌≡◌, IfSome};
ghost use Rattle.rd_turn.specs.Pass.{Belongs};

use crate::adder::Adder;
use crate::front::Front;
use crate::shelf::Shelf;
use crate::side_by_side::add_three;
use rd_turn::{Caller, MAX_MADE, Pass, Turn};
use std::alloc::Global;
use std::sync::Wait;
use std::test::Fail;
use std::thread::{Threads, join};

fn start() -> Adder {
    Adder { sum: 0, calls: 0 }
}

#[test]
fn one_thread_with_two_passes(rt: HostRuntime) -> Result<(), Fail> {
    let Ok((turn, mut a)) = Turn::new(rt.alloc(), start()) else {
        return Err("there was no memory".into());
    };
    let first = turn.call(&rt, &mut a, 5);
    assert!(rt; a.made() < MAX_MADE);
    let mut b = turn.split(&mut a);
    let second = turn.call(&rt, &mut b, 2);
    let third = turn.call(&rt, &mut a, 1);
    assert!(rt; a.number() == 0 && a.made() == 1 && a.out() == 1 && b.number() == 1);
    turn.join(&mut a, b);
    assert!(rt; a.made() == 1 && a.out() == 0);
    let last = turn.close(a);
    assert!(rt; first == 5 && second == 7 && third == 8);
    assert!(rt; last.sum == 8 && last.calls == 3);
    Ok(())
}

#[test]
fn one_thread_in_the_other_order(rt: HostRuntime) -> Result<(), Fail> {
    let Ok((turn, mut a)) = Turn::new(rt.alloc(), start()) else {
        return Err("there was no memory".into());
    };
    let first = turn.call(&rt, &mut a, 5);
    let mut b = turn.split(&mut a);
    let third = turn.call(&rt, &mut a, 1);
    let second = turn.call(&rt, &mut b, 2);
    turn.join(&mut a, b);
    let last = turn.close(a);
    assert!(rt; first == 5 && third == 6 && second == 8);
    assert!(rt; last.sum == 8 && last.calls == 3);
    Ok(())
}

#[test]
fn two_threads_with_a_pass_each(rt: HostRuntime) -> Result<(), Fail> {
    let ([first, third, second], last) = add_three(&rt, rt.alloc(), 5, 1, 2).ok_or(
        "there was no memory",
    )?;
    assert!(rt; first == 5 && last.sum == 8 && last.calls == 3);
    assert!(rt; (third == 6 && second == 8) || (second == 7 && third == 8));
    Ok(())
}

/// Two threads call one front, whose calls are calls of the adder's turn.
fn through_a_front<'a, T: Threads + Wait + Sync>(
    rt: &'a T,
    turn: &'a Turn<Adder>,
    pass: Pass<Adder>,
    alloc: Global,
) -> Option<(u64, u64, Pass<Adder>)>
    requires { Belongs turn.now pass }
    ensures { IfSome result (λ r. Belongs turn.now r.2 × (r.2.number ≡ pass.number) × (r.2.out ≡ pass.out)) }
{
    let Ok((front, mut a)) = Turn::new(alloc, Front::new(rt, turn, pass)) else {
        return None;
    };
    let b = front.split(&mut a);
    let one = Caller::new(&front, a);
    let two = Caller::new(&front, b);
    let ((first, one), (second, two)) = join(rt, || one.reply(rt, 1), || two.reply(rt, 2));
    let mut a = one.into_pass();
    front.join(&mut a, two.into_pass());
    Some((first, second, front.close(a).into_pass()))
}

#[test]
fn two_threads_through_a_front(rt: HostRuntime) -> Result<(), Fail> {
    let Ok((turn, a)) = Turn::new(rt.alloc(), start()) else {
        return Err("there was no memory".into());
    };
    let (first, second, a) = through_a_front(&rt, &turn, a, rt.alloc()).ok_or(
        "there was no memory",
    )?;
    let last = turn.close(a);
    assert!(rt; last.sum == 3 && last.calls == 2);
    assert!(rt; (first == 1 && second == 3) || (first == 3 && second == 2));
    Ok(())
}

#[test]
fn a_call_may_find_no_memory(rt: HostRuntime) -> Result<(), Fail> {
    let shelf = Shelf {
        items: Vec::new(rt.alloc()),
    };
    let Ok((turn, mut a)) = Turn::new(rt.alloc(), shelf) else {
        return Err("there was no memory".into());
    };
    let put = turn.call(&rt, &mut a, 7).is_ok();
    let last = turn.close(a);
    assert!(rt; put && last.items.as_slice() == [7].as_slice());
    Ok(())
}
