//! The patterns of directory queries, which contracts see as the list of their units.

ghost use Rattle.std.specs.Prelude.{◌≡◌, ◌≤◌, ◌-◌, ◌↔◌, ℕ, Err, Some, IfOk, IsTrue, length};
ghost use Rattle.rd_dirinfo.specs.Patterns.{any_name, last_part, matches, pattern_fault, pattern_of, Matches};
ghost use Rattle.rd_dirinfo.specs.declared.path.PathNo.TheVariants as PathNo;

use crate::matching::matches;
use crate::naming::Naming;
use crate::path::{MOST_NAME_UNITS, PathNo, after, first_backslash};
use rd_base::Units;
use std::alloc::Global;
use std::marker::Model;

/// The pattern of a directory query.
#[derive(Debug, Drop)]
pub struct Pattern {
    /// None stand for `*`.
    units: Units,
}

impl Model for Pattern {
    ghost use Rattle.std.specs.Prelude.{List, ℕ};
    ghost use Rattle.rd_dirinfo.specs.Patterns.{or_any};

    ghost Value = { List ℕ };

    ghost view = { λ p. or_any p.units };
}

impl Pattern {
    /// `*`, which every name matches. It takes no memory.
    pub fn any(alloc: Global) -> Self
        ensures { result ≡ any_name }
    {
        Pattern {
            units: Units::of(Vec::new(alloc)),
        }
    }

    /// The last part of a query's path, if it isn't too long.
    pub fn of_path(alloc: Global, units: &[u16]) -> Result<Self, PathNo>
        ensures pattern { IfOk result (λ pattern. pattern ≡ pattern_of units.now) }
        ensures invalid { (at : ℕ) → (result ≡ Err (PathNo.Invalid at)) ↔ (pattern_fault units.now ≡ Some at) }
    {
        let part = last_part(units);
        if part.len() > MOST_NAME_UNITS {
            let at = (units.len() - part.len()).min(u32::MAX as usize) as u32;
            return Err(PathNo::Invalid { at });
        }
        if matches!(part, [0x2a, 0x2e, 0x2a]) {
            return Ok(Pattern::any(alloc));
        }
        Ok(Pattern {
            units: Units::of(Vec::from_slice(alloc, part)?),
        })
    }

    /// Whether a name matches.
    pub fn matches(&self, naming: Naming, name: &[u16]) -> bool
        ensures cut { IsTrue result ↔ Matches naming self.now name.now }
        ensures computed { result ≡ matches naming self.now name.now }
    {
        let units = self.units.as_slice();
        units.is_empty() || matches(naming, units, name)
    }
}

/// The part after the last backslash.
fn last_part(units: &[u16]) -> &[u16]
    ensures value { last_part units.now ≡ record { at = length units.now - length result.now; name = result.now } }
    ensures within { length result.now ≤ length units.now }
{
    let mut rest = units;
    while let Some(i) = first_backslash(rest) {
        rest = after(rest, i);
    }
    rest
}
