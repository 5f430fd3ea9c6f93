//! An application on its thread, with a pass of the table.

ghost use Rattle.std.specs.Prelude.{◌≡◌, ◌≢◌, true};
ghost use Rattle.rd_turn.specs.Pass.{Belongs};
ghost use Rattle.rd_issuer.specs.Stints.{HasIssued, issuer_of};

use crate::issuer::Issuer;
use crate::issues::issue_lines;
use rd_sleepers::Sleepers;
use rd_table::Table;
use rd_turn::{Caller, Pass, Turn};
use std::marker::Model;
use std::sync::Wait;

/// An application with a pass of the table that isn't pass 0, for a thread of its own. Contracts see a `StintState`.
#[derive(Drop)]
pub(crate) struct Stint<'t, 's> {
    issuer: Issuer<'s>,
    table: Caller<'t, Table>,
    /// Whether memory was found for all that it did.
    found: bool,
}

impl<'t, 's> Model for Stint<'t, 's> {
    ghost use Rattle.std.specs.Prelude.{◌≢◌};
    ghost use Rattle.rd_turn.specs.Pass.{Belongs};
    ghost use Rattle.rd_issuer.specs.Stints.{StintState};

    ghost Value = { StintState };

    ghost view = { λ s. record { number = s.issuer.number; application = s.issuer.application; turn = s.table.turn.now; pass = s.table.pass; found = s.found } };

    ghost invariant = { λ s. Belongs s.table.turn.now s.table.pass × (s.table.pass.number ≢ 0) };
}

impl<'t, 's> Stint<'t, 's> {
    /// An application with its pass, which has done nothing so far.
    pub(crate) fn new(turn: &'t Turn<Table>, pass: Pass<Table>, issuer: Issuer<'s>) -> Self
        requires own { Belongs turn.now pass }
        requires later { pass.number ≢ 0 }
        ensures { result ≡ record { number = issuer.entry.number; application = issuer.entry.application; turn = turn.now; pass = pass; found = true } }
    {
        Stint {
            issuer,
            table: Caller::new(turn, pass),
            found: true,
        }
    }

    /// Issues its lines.
    pub(crate) fn issue<T: Wait>(self, rt: &T, sleepers: &Sleepers) -> Self
        ensures { HasIssued self.entry result }
    {
        let Stint {
            mut issuer,
            mut table,
            found: _,
        } = self;
        let issued = issue_lines(
            rt,
            &mut table,
            sleepers,
            issuer.number,
            &mut issuer.application,
        );
        Stint {
            issuer,
            table,
            found: issued.is_ok(),
        }
    }

    /// Its pass, so that it can be joined, the application, and whether memory was found for all that this did.
    pub(crate) fn into_parts(self) -> (Pass<Table>, Issuer<'s>, bool)
        ensures pass { result.0 ≡ self.entry.pass }
        ensures own { Belongs self.entry.turn result.0 }
        ensures later { result.0.number ≢ 0 }
        ensures issuer { result.1 ≡ issuer_of self.entry }
        ensures found { result.2 ≡ self.entry.found }
    {
        let Stint {
            issuer,
            table,
            found,
        } = self;
        (table.into_pass(), issuer, found)
    }
}
