//! Applications beside each other, and a client beside them.

ghost use Rattle.std.specs.Prelude.{◌≡◌, ◌≤◌, ◌+◌, length};
ghost use Rattle.std.specs.Thread.{IsSync};
ghost use Rattle.rd_turn.specs.Pass.{Belongs, max_made};

use crate::client::play_client;
use rd_irp::Head;
use rd_issuer::{Issuer, issue_side_by_side};
use rd_sleepers::Sleepers;
use rd_table::Table;
use rd_turn::{Pass, Turn};
use std::alloc::Global;
use std::sync::Wait;
use std::thread::{Threads, join};

/// Applications issue their lines beside each other.
pub fn issue<'s, R: Threads + Wait + Sync>(
    rt: &R,
    alloc: Global,
    turn: &Turn<Table>,
    mut pass: Pass<Table>,
    sleepers: &Sleepers,
    issuers: Vec<Issuer<'s>>,
) -> (Option<Vec<Issuer<'s>>>, Pass<Table>)
    requires own { Belongs turn.now pass }
    requires first { pass.number ≡ 0 }
    requires few { pass.made + length issuers.items ≤ max_made }
    ensures own { Belongs turn.now result.1 }
    ensures first { result.1.number ≡ 0 }
{
    let after = issue_side_by_side(rt, alloc, turn, &mut pass, sleepers, issuers);
    (after.ok(), pass)
}

/// What came of applications that issued their lines beside a client.
#[derive(Drop)]
pub struct Session<'s> {
    /// Where memory was found.
    pub issuers: Option<Vec<Issuer<'s>>>,
    /// What the client didn't complete.
    pub left: Option<Head>,
}

/// Applications issue their lines, and a client takes two messages and so many more, each on a thread of its own; and pass 0.
pub fn run<'s, R: Threads + Wait + Sync>(
    rt: &R,
    alloc: Global,
    turn: &Turn<Table>,
    mut pass: Pass<Table>,
    sleepers: &Sleepers,
    issuers: Vec<Issuer<'s>>,
    more: u32,
) -> (Session<'s>, Pass<Table>)
    requires own { Belongs turn.now pass }
    requires first { pass.number ≡ 0 }
    requires few { pass.made + 1 + length issuers.items ≤ max_made }
    ensures own { Belongs turn.now result.1 }
    ensures first { result.1.number ≡ 0 }
{
    let own = turn.split(&mut pass);
    let ((issuers, mut pass), (left, own)) = join(
        rt,
        || -> (Option<Vec<Issuer<'_>>>, Pass<Table>)
            requires { IsSync R.row × Belongs turn.now pass × (pass.number ≡ 0) × (pass.made + length issuers.items ≤ max_made) }
            ensures { Belongs turn.entry.now result.1 × (result.1.number ≡ 0) }
        { issue(rt, alloc, turn, pass, sleepers, issuers) },
        || play_client(rt, alloc, turn, own, sleepers, more),
    );
    turn.join(&mut pass, own);
    (Session { issuers, left }, pass)
}
