//! Passes: each is the right to call the object of one turn.

ghost use Rattle.std.specs.Prelude.{◌≡◌};
ghost use Rattle.rd_turn.specs.Seats.{pass_of, Rests};

use crate::object::Object;
use crate::steps::TurnSeat;
use std::marker::Model;

/// The most passes that are split from pass 0.
pub const MAX_MADE: u64 = 1 << 32;

/// The right to call a turn's object. It goes with its holder from thread to thread.
///
/// Contracts see it as its numbers and the beginning of the history that it has seen. One that is dropped can't be joined any more, so
/// its turn can't be closed; dropping the turn drops the object.
pub struct Pass<O: Object> {
    pub(crate) number: u64,
    pub(crate) made: u64,
    pub(crate) out: u64,
    pub(crate) seat: TurnSeat<O>,
}

impl<O: Object> Model for Pass<O> {
    ghost use Rattle.std.specs.Prelude.{◌≡◌};
    ghost use Rattle.rd_turn.specs.Pass.{PassState, pass_coded};
    ghost use Rattle.rd_turn.specs.Seats.{pass_of, Rests};

    ghost Value = { PassState O O.Call O.Reply };

    ghost coded = { pass_coded O.code O.Call.code O.Reply.code };

    ghost view = { λ p. pass_of p.seat };

    ghost invariant = { λ p. Rests p.seat.me × (p.number ≡ p.seat.me.0.number) × (p.made ≡ p.seat.me.0.made) × (p.out ≡ p.seat.me.0.out) };
}

impl<O: Object> Pass<O> {
    pub(crate) fn into_seat(self) -> TurnSeat<O>
        ensures { (pass_of result ≡ self) × Rests result.me }
    {
        let Self {
            number: _,
            made: _,
            out: _,
            seat,
        } = self;
        seat
    }

    /// The pass that the turn was made with has number 0, and those that were split from it count from 1.
    pub fn number(&self) -> u64
        ensures { result ≡ self.now.number }
    {
        self.number
    }

    /// How many passes were split from this one.
    pub fn made(&self) -> u64
        ensures { result ≡ self.now.made }
    {
        self.made
    }

    /// How many of these were not joined to it.
    pub fn out(&self) -> u64
        ensures { result ≡ self.now.out }
    {
        self.out
    }
}

impl<O: Object> Drop for Pass<O> {
    fn drop(self) {
        let Self {
            number: _,
            made: _,
            out: _,
            seat: _,
        } = self;
    }
}
