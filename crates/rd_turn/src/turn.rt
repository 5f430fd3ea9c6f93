//! The turn and its calls.

ghost use Rattle.std.specs.Prelude.{◌≡◌, ◌≢◌, suc, ◌<◌, ◌++◌, ◌∷◌, [], length, Some, IfOk, IfErr};
ghost use Rattle.rd_turn.specs.History.{Leads, IsLegal, entry, calls_of};
ghost use Rattle.rd_turn.specs.Pass.{max_made, Belongs, first_pass, after_split, new_pass, IsSamePass, IsNumbered, Called, GoesOn, HasAllCalls, IsLongerOf};

use crate::object::Object;
use crate::pass::Pass;
use crate::rule::{InTurn, View};
use crate::steps;
use atomic_table::Table;
use std::alloc::{AllocFailed, Global};
use std::marker::Model;
use std::snapshot::Snapshot;
use std::sync::Wait;

/// An object, and whose turn it is to call it. Threads share it by reference, each with a pass of its own.
#[derive(Drop)]
pub struct Turn<O: Object> {
    table: Table<Option<O>, View<O, O::Call, O::Reply>, Snapshot<O>, InTurn, Global>,
}

impl<O: Object> Model for Turn<O> {
    ghost use Rattle.std.specs.Prelude.{◌≡◌};
    ghost use Rattle.rd_turn.specs.Pass.{TurnId, turn_coded};

    ghost Value = { TurnId O };

    ghost coded = { turn_coded O.code };

    ghost view = { λ t. record { table = t.table.shared.table_id; opening = t.table.shared.key.value } };

    ghost invariant = { λ t. (t.table.shared.table_id.words ≡ 2) × (t.table.shared.table_id.slots ≡ 1) };
}

/// There was no memory for a turn. The object comes back as it was.
#[derive(Drop)]
pub struct Refused<O> {
    pub object: O,
}

fn object_of<O>(mut slots: Vec<Option<O>>) -> O
    requires { (o : O) × (slots.items ≡ Some o ∷ []) }
    ensures { slots.items ≡ Some result ∷ [] }
{
    let Some(Some(object)) = slots.pop() else {
        unreachable!()
    };
    slots.destroy_empty();
    object
}

impl<O: Object> Turn<O> {
    /// A turn for the object, and its pass 0. It is refused for want of memory alone.
    pub fn new(alloc: Global, object: O) -> Result<(Turn<O>, Pass<O>), Refused<O>>
        ensures turn { IfOk result (λ t. t.0.opening ≡ object) }
        ensures pass { IfOk result (λ t. t.1 ≡ first_pass t.0) }
        ensures err { IfErr result (λ r. r.object ≡ object) }
    {
        let key = Snapshot::of(&object);
        let mut slots = Vec::new(alloc);
        if let Err(failed) = slots.push(Some(object)) {
            let AllocFailed { value } = failed;
            slots.destroy_empty();
            let Some(object) = value else { unreachable!() };
            return Err(Refused { object });
        }
        match Table::new(alloc, &[0, 0], slots, &key) {
            Ok((table, seat)) => {
                let pass = Pass {
                    number: 0,
                    made: 0,
                    out: 0,
                    seat,
                };
                Ok((Turn { table }, pass))
            }
            Err(refused) => {
                let atomic_table::Refused { slots } = refused;
                Err(Refused {
                    object: object_of(slots),
                })
            }
        }
    }

    /// Waits for its turn and makes the call. It may wait for good; what it promises holds if it returns.
    pub fn call<T: Wait>(&self, rt: &T, pass: &mut Pass<O>, call: O::Call) -> O::Reply
        requires own { Belongs self.now pass.old }
        ensures own { Belongs self.now pass.new }
        ensures same { IsSamePass pass.old pass.new }
        ensures called { Called pass.old call result pass.new }
        ensures own_calls { calls_of pass.old.number pass.new.seen ≡ calls_of pass.old.number pass.old.seen ++ entry pass.old.number call result ∷ [] }
        ensures legal { IsLegal O.steps self.now.opening pass.new.seen }
        ensures numbers { IsNumbered pass.new }
    {
        steps::call(rt, &self.table.shared, &mut pass.seat, call)
    }

    /// Splits a new pass from pass 0, for another holder. It has seen as much.
    pub fn split(&self, pass: &mut Pass<O>) -> Pass<O>
        requires own { Belongs self.now pass.old }
        requires first { pass.old.number ≡ 0 }
        requires few { pass.old.made < max_made }
        ensures kept { pass.new ≡ after_split pass.old }
        ensures given { result ≡ new_pass pass.old }
        ensures fresh { calls_of result.number result.seen ≡ [] }
    {
        let seat = steps::split(&self.table.shared, &mut pass.seat);
        pass.made += 1;
        pass.out += 1;
        Pass {
            number: pass.made,
            made: 0,
            out: 0,
            seat,
        }
    }

    /// Joins another pass to pass 0, which then has seen what either of them had.
    pub fn join(&self, pass: &mut Pass<O>, other: Pass<O>)
        requires own { Belongs self.now pass.old × Belongs self.now other }
        requires first { pass.old.number ≡ 0 }
        requires later { other.number ≢ 0 }
        ensures own { Belongs self.now pass.new }
        ensures counts { (pass.new.number ≡ 0) × (pass.new.made ≡ pass.old.made) × (suc pass.new.out ≡ pass.old.out) }
        ensures joined { pass.new.joined ≡ (other.number, length (calls_of other.number other.seen)) ∷ pass.old.joined }
        ensures longer { IsLongerOf pass.old.seen other.seen pass.new.seen }
        ensures other_calls { calls_of other.number pass.new.seen ≡ calls_of other.number other.seen }
        ensures goes_on { GoesOn pass.old pass.new }
        ensures numbers { IsNumbered pass.new }
    {
        let seat = other.into_seat();
        steps::join(&self.table.shared, &mut pass.seat, seat);
        pass.out -= 1;
    }

    /// Gives the object back. What pass 0 has seen is then its whole history.
    pub fn close(self, pass: Pass<O>) -> O
        requires own { Belongs self pass }
        requires first { pass.number ≡ 0 }
        requires all_joined { pass.out ≡ 0 }
        ensures leads { Leads O.steps self.opening pass.seen result }
        ensures all { HasAllCalls pass }
        ensures numbers { IsNumbered pass }
    {
        let Turn { table } = self;
        let mut closed = table.close_with(pass.into_seat());
        let Some(object) = closed.take(0) else {
            unreachable!()
        };
        closed.free();
        object
    }
}
