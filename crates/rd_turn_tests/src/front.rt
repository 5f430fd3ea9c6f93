//! A front: an object that holds a pass of another turn, and makes its calls there.

ghost use Rattle.std.specs.Prelude.{◌≡◌};
ghost use Rattle.rd_turn.specs.Pass.{Belongs};

use crate::adder::Adder;
use rd_turn::{Object, Pass, Turn};
use std::sync::Wait;

/// The adder behind its turn, with the pass that makes all calls of this object.
pub struct Front<'a, T: Wait> {
    pub rt: &'a T,
    pub turn: &'a Turn<Adder>,
    pub pass: Pass<Adder>,
    ghost own: { Belongs turn.now pass },
}

impl<'a, T: Wait> Object for Front<'a, T> {
    ghost use Rattle.rd_turn.specs.Pass.{Called, IsSamePass};
    ghost use Rattle.std.specs.Prelude.{◌≡◌};

    type Call = u64;

    type Reply = u64;

    ghost steps = { λ a call reply b. (b.turn.now ≡ a.turn.now) × IsSamePass a.pass b.pass × Called a.pass call reply b.pass };

    fn call(&mut self, call: u64) -> u64 {
        self.turn.call(self.rt, &mut self.pass, call)
    }
}

impl<'a, T: Wait> Drop for Front<'a, T> {
    fn drop(self) {
        let Self {
            rt: _,
            turn: _,
            pass: _,
        } = self;
    }
}

impl<'a, T: Wait> Front<'a, T> {
    pub fn new(rt: &'a T, turn: &'a Turn<Adder>, pass: Pass<Adder>) -> Front<'a, T>
        requires { Belongs turn.now pass }
        ensures { (result.turn.now ≡ turn.now) × (result.pass ≡ pass) }
    {
        Front { rt, turn, pass }
    }

    pub fn into_pass(self) -> Pass<Adder>
        ensures { (result ≡ self.entry.pass) × Belongs self.entry.turn.now result }
    {
        let Self {
            rt: _,
            turn: _,
            pass,
        } = self;
        pass
    }
}
