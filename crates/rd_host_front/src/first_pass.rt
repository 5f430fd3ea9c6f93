//! Pass 0 of the table, as a front is handed it.

ghost use Rattle.std.specs.Prelude.{◌≡◌, ◌<◌, []};
ghost use Rattle.rd_turn.specs.History.{calls_of};
ghost use Rattle.rd_turn.specs.Pass.{after_split, max_made, new_pass};
ghost use Rattle.rd_host_front.specs.State.{IsFirstOf, IsSplitOf, JoinsPass, PassCalls};

use rd_table::{PendingCall, PendingReply, Table};
use rd_turn::{Pass, Turn};
use std::marker::{Brand, Model, PhantomData};
use std::sync::Wait;

/// Names one turn of a table. Who makes a front over a turn picks it, by `Brand`: an object's call has no condition, and yet what it is handed has to belong to
/// the turn that the front calls.
pub trait TableTurn {
    ghost use Rattle.rd_host_front.specs.State.{TurnOfTable};

    ghost turn: { TurnOfTable };
}

impl TableTurn for Brand {
    ghost use Rattle.rd_host_front.specs.State.{no_turn};

    ghost turn = { no_turn };
}

/// Pass 0 of the turn that `W` names. Contracts see the pass.
pub struct FirstPass<W: TableTurn> {
    pass: Pass<Table>,
    of: PhantomData<W>,
}

impl<W: TableTurn> Model for FirstPass<W> {
    ghost use Rattle.rd_host_front.specs.State.{IsFirstOf, PassOfTable};

    ghost Value = { PassOfTable };

    ghost view = { λ f. f.pass };

    ghost invariant = { λ f. IsFirstOf W.turn f.pass };
}

impl<W: TableTurn> FirstPass<W> {
    /// Pass 0 of this turn.
    pub fn new(pass: Pass<Table>) -> Self
        requires { IsFirstOf W.turn pass }
        ensures { result ≡ pass }
    {
        FirstPass {
            pass,
            of: PhantomData,
        }
    }

    /// The pass, so that others are split from it and joined to it, or the turn is closed with it.
    pub fn into_pass(self) -> Pass<Table>
        ensures same { result ≡ self }
        ensures first { IsFirstOf W.turn result }
    {
        let FirstPass { pass, of: _ } = self;
        pass
    }

    /// How many passes were split from it.
    pub fn made(&self) -> u64
        ensures { result ≡ self.now.made }
    {
        self.pass.made()
    }

    /// Makes a call of the table.
    pub(crate) fn call<T: Wait>(
        &mut self,
        rt: &T,
        turn: &Turn<Table>,
        call: PendingCall,
    ) -> PendingReply
        requires { turn.now ≡ W.turn }
        ensures { PassCalls turn.now self.old call result self.new }
    {
        turn.call(rt, &mut self.pass, call)
    }

    /// Another pass, that was split from it, is joined to it.
    pub(crate) fn join(&mut self, turn: &Turn<Table>, other: Pass<Table>)
        requires turn { turn.now ≡ W.turn }
        requires other { IsSplitOf turn.now other }
        ensures { JoinsPass self.old other self.new }
    {
        turn.join(&mut self.pass, other);
    }

    /// A new pass is split from it.
    pub(crate) fn split(&mut self, turn: &Turn<Table>) -> Pass<Table>
        requires turn { turn.now ≡ W.turn }
        requires few { self.old.made < max_made }
        ensures kept { self.new ≡ after_split self.old }
        ensures given { result ≡ new_pass self.old }
        ensures fresh { calls_of result.number result.seen ≡ [] }
        ensures split { IsSplitOf turn.now result }
    {
        turn.split(&mut self.pass)
    }
}

impl<W: TableTurn> Drop for FirstPass<W> {
    fn drop(self) {
        let Self { pass: _, of: _ } = self;
    }
}
