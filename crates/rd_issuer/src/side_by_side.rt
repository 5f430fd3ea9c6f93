//! The applications of a host beside each other, each on a thread of its own.

ghost use Rattle.std.specs.Prelude.{◌≡◌, ◌≤◌, ◌<◌, ◌+◌, ◌++◌, ℕ, List, [], true, length, map, All, IfOk, slice_index_or, vec_capacity};
ghost use Rattle.rd_turn.specs.Pass.{Belongs, GoesOn, max_made};
ghost use Rattle.rd_issuer.specs.SideBySide.{RanSideBySide};
ghost use Rattle.rd_issuer.specs.Stints.{CameHome, HasIssued, IsFresh, StintState, after_splits, issuer_of, stints_of};

use crate::issuer::Issuer;
use crate::stint::Stint;
use rd_sleepers::Sleepers;
use rd_table::Table;
use rd_turn::{Pass, Turn};
use std::alloc::{AllocError, Global};
use std::sync::Wait;
use std::thread::{Threads, map_vec};

/// Applications issue their lines beside each other, as `issue_lines` does, each on a thread of its own where one can be made, with a pass that is split from pass 0 and joined to it again.
/// It returns once each of them rests. Where a thread can't be made that application comes after another, and waits for what it asked for all the same. Where memory runs out for an application
/// the others go on, and all passes are joined; where it runs out for the threads, passes may be lost.
pub fn issue_side_by_side<'s, R: Threads + Wait + Sync>(
    rt: &R,
    alloc: Global,
    turn: &Turn<Table>,
    pass: &mut Pass<Table>,
    sleepers: &Sleepers,
    issuers: Vec<Issuer<'s>>,
) -> Result<Vec<Issuer<'s>>, AllocError>
    requires own { Belongs turn.now pass.old }
    requires first { pass.old.number ≡ 0 }
    requires few { pass.old.made + length issuers.items ≤ max_made }
    ensures own { Belongs turn.now pass.new }
    ensures first { pass.new.number ≡ 0 }
    ensures goes_on { GoesOn pass.old pass.new }
    ensures ran { IfOk result (λ after. RanSideBySide pass.old pass.new issuers.entry.items after.items) }
{
    let home = Vec::with_capacity(alloc, issuers.len())?;
    let stints = Vec::with_capacity(alloc, issuers.len())?;
    let stints = split_all(turn, pass, issuers, stints);
    let stints = issue_all(rt, sleepers, stints)?;
    join_all(turn, pass, stints, home)
}

/// Splits a pass for each application.
fn split_all<'t, 's>(
    turn: &'t Turn<Table>,
    pass: &mut Pass<Table>,
    issuers: Vec<Issuer<'s>>,
    stints: Vec<Stint<'t, 's>>,
) -> Vec<Stint<'t, 's>>
    requires own { Belongs turn.now pass.old }
    requires first { pass.old.number ≡ 0 }
    requires few { pass.old.made + length issuers.items ≤ max_made }
    requires none { stints.items ≡ [] }
    requires room { length issuers.items ≤ vec_capacity stints }
    ensures kept { pass.new ≡ after_splits pass.old issuers.entry.items }
    ensures stints { result.items ≡ stints_of turn.now pass.old issuers.entry.items }
    ensures fresh { All IsFresh result.items }
{
    let mut stints = stints;
    for issuer in issuers {
        let own = turn.split(pass);
        stints.push_reserved(Stint::new(turn, own, issuer));
    }
    stints
}

/// Each application issues its lines.
fn issue_all<'t, 's, R: Threads + Wait + Sync>(
    rt: &R,
    sleepers: &Sleepers,
    stints: Vec<Stint<'t, 's>>,
) -> Result<Vec<Stint<'t, 's>>, AllocError>
    ensures count { IfOk result (λ after. length after.items ≡ length stints.entry.items) }
    ensures each { IfOk result (λ after. (place : ℕ) (d e : StintState) → place < length stints.entry.items → HasIssued (slice_index_or stints.entry.items place d) (slice_index_or after.items place e)) }
{
    map_vec(
        rt,
        stints,
        &|stint: Stint<'_, '_>| -> Stint<'_, '_>
            ensures { HasIssued stint.entry result }
        { stint.issue(rt, sleepers) },
    )
}

/// Joins the passes, and gives back the applications.
fn join_all<'t, 's>(
    turn: &'t Turn<Table>,
    pass: &mut Pass<Table>,
    stints: Vec<Stint<'t, 's>>,
    home: Vec<Issuer<'s>>,
) -> Result<Vec<Issuer<'s>>, AllocError>
    requires own { Belongs turn.now pass.old }
    requires first { pass.old.number ≡ 0 }
    requires turns { All (λ s. s.turn ≡ turn.now) stints.items }
    requires none { home.items ≡ [] }
    requires room { length stints.items ≤ vec_capacity home }
    ensures own { Belongs turn.now pass.new }
    ensures counts { (pass.new.number ≡ 0) × (pass.new.made ≡ pass.old.made) × (pass.new.out + length stints.entry.items ≡ pass.old.out) }
    ensures kept { (more : List (ℕ × ℕ)) × (pass.new.joined ≡ more ++ pass.old.joined) }
    ensures goes_on { GoesOn pass.old pass.new }
    ensures home { All (λ s. CameHome pass.new s.pass) stints.entry.items }
    ensures found { IfOk result (λ home. All (λ s. s.found ≡ true) stints.entry.items) }
    ensures issuers { IfOk result (λ home. home.items ≡ map issuer_of stints.entry.items) }
{
    let mut home = home;
    let mut found = true;
    for stint in stints {
        let (other, issuer, all) = stint.into_parts();
        turn.join(pass, other);
        home.push_reserved(issuer);
        found &= all;
    }
    if !found {
        return Err(AllocError);
    }
    Ok(home)
}
