//! What came of the lines of all applications.

ghost use Rattle.std.specs.Prelude.{◌≡◌, ◌<◌, ◌≤◌, ◌++◌, ℕ, length, IfOk, OnOk};
ghost use Rattle.std.specs.List.{AllByRecursion};
ghost use Rattle.rd_script.specs.Report.{AreCountable, numbered_from};
ghost use Rattle.rd_script.specs.Script.{max_lines};
ghost use Rattle.rd_script.specs.declared.outcome.Outcome.{Outcome};
ghost use Rattle.rd_host_player.specs.Telling.{by_number, outcomes_told};

use rd_issuer::Issuer;
use rd_script::Outcome;
use rd_world::Application;
use std::alloc::{AllocError, Global};
use std::collections::BTreeMap;

/// The outcomes of each application under its number and theirs.
pub fn tell_all(
    alloc: Global,
    issuers: Vec<Issuer<'_>>,
) -> Result<BTreeMap<(u32, u32), Outcome>, AllocError>
    ensures told { IfOk result (λ told. told.entries ≡ outcomes_told issuers.entry.items) }
    ensures countable { IfOk result (λ told. AreCountable told.entries) }
{
    let mut told = BTreeMap::new(alloc);
    for (number, application) in by_number(alloc, issuers)? {
        tell(&mut told, number, application.finish())?;
    }
    Ok(told)
}

/// Applications by their numbers.
fn by_number<'s>(
    alloc: Global,
    issuers: Vec<Issuer<'s>>,
) -> Result<BTreeMap<u32, Application<'s>>, AllocError>
    ensures { IfOk result (λ found. found.entries ≡ by_number issuers.entry.items) }
{
    let mut found = BTreeMap::new(alloc);
    for issuer in issuers {
        let Issuer {
            number,
            application,
        } = issuer;
        found.insert(number, application)?;
    }
    Ok(found)
}

/// The outcomes of one more application come after all others, under its number and theirs, each counted from 1.
fn tell(
    told: &mut BTreeMap<(u32, u32), Outcome>,
    number: u32,
    outcomes: Vec<Outcome>,
) -> Result<(), AllocError>
    requires few { length outcomes.items ≤ max_lines }
    requires after { AllByRecursion (λ (e : (ℕ × ℕ) × Outcome). e.0.0 < number) told.old.entries }
    ensures { OnOk result (told.new.entries ≡ told.old.entries ++ numbered_from number 1 outcomes.items) }
{
    let mut line = 0u32;
    for outcome in outcomes {
        line += 1;
        told.insert((number, line), outcome)?;
    }
    Ok(())
}
