//! A turn together with a pass of it.

ghost use Rattle.std.specs.Prelude.{◌≡◌, ◌++◌, ◌∷◌, []};
ghost use Rattle.rd_turn.specs.History.{IsLegal, entry, calls_of};
ghost use Rattle.rd_turn.specs.Pass.{Belongs, IsSamePass, IsNumbered, Called};

use crate::object::Object;
use crate::pass::Pass;
use crate::turn::Turn;
use std::sync::Wait;

/// A turn and a pass that belongs to it. The closure of a thread captures it as one value, which keeps that they belong together.
pub struct Caller<'a, O: Object> {
    pub turn: &'a Turn<O>,
    pub pass: Pass<O>,
    ghost own: { Belongs turn.now pass },
}

impl<'a, O: Object> Caller<'a, O> {
    /// The two together.
    pub fn new(turn: &'a Turn<O>, pass: Pass<O>) -> Caller<'a, O>
        requires { Belongs turn.now pass }
        ensures { (result.turn.now ≡ turn.now) × (result.pass ≡ pass) }
    {
        Caller { turn, pass }
    }

    /// Makes a call of the turn.
    pub fn call<T: Wait>(&mut self, rt: &T, call: O::Call) -> O::Reply
        ensures turn { self.new.turn.now ≡ self.old.turn.now }
        ensures same { IsSamePass self.old.pass self.new.pass }
        ensures called { Called self.old.pass call result self.new.pass }
        ensures own_calls { calls_of self.old.pass.number self.new.pass.seen ≡ calls_of self.old.pass.number self.old.pass.seen ++ entry self.old.pass.number call result ∷ [] }
        ensures legal { IsLegal O.steps self.old.turn.now.opening self.new.pass.seen }
        ensures numbers { IsNumbered self.new.pass }
    {
        self.turn.call(rt, &mut self.pass, call)
    }

    /// Makes a call of the turn, and gives itself back with the reply: what a thread with one call runs.
    pub fn reply<T: Wait>(mut self, rt: &T, call: O::Call) -> (O::Reply, Caller<'a, O>)
        ensures turn { result.1.turn.now ≡ self.entry.turn.now }
        ensures same { IsSamePass self.entry.pass result.1.pass }
        ensures called { Called self.entry.pass call result.0 result.1.pass }
        ensures own_calls { calls_of self.entry.pass.number result.1.pass.seen ≡ calls_of self.entry.pass.number self.entry.pass.seen ++ entry self.entry.pass.number call result.0 ∷ [] }
        ensures legal { IsLegal O.steps self.entry.turn.now.opening result.1.pass.seen }
        ensures numbers { IsNumbered result.1.pass }
    {
        let reply = self.call(rt, call);
        (reply, self)
    }

    /// The pass, so that it can be joined, or the turn closed with it.
    pub fn into_pass(self) -> Pass<O>
        ensures same { result ≡ self.entry.pass }
        ensures own { Belongs self.entry.turn.now result }
    {
        let Self { turn: _, pass } = self;
        pass
    }
}

impl<'a, O: Object> Drop for Caller<'a, O> {
    fn drop(self) {
        let Self { turn: _, pass: _ } = self;
    }
}
