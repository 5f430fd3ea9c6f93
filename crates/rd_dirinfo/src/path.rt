//! Paths, which contracts see as the list of their names.

ghost use Rattle.std.specs.Prelude.{◌≡◌, ◌==◌, ◌≢◌, ◌↔◌, ◌+◌, ◌-◌, ◌<◌, ◌≤◌, ◌∷◌, [], ℕ, Err, Some, IfOk, IsTrue, drop, length, map, position};
ghost use Rattle.std.specs.List.{list_all};
ghost use Rattle.rd_dirinfo.specs.Paths.{backslash, is_name, is_name_unit, is_dots, first_bad, is_path, most_names, names_of, named_parts, path_fault, parsed_path, rest_parts, Part};
ghost use Rattle.rd_dirinfo.specs.declared.path.PathNo.TheVariants as PathNo;

use rd_base::Units;
use std::alloc::{AllocError, Global};
use std::marker::Model;
use thiserror::Error;

/// What stands between the names of a path.
pub const BACKSLASH: u16 = 0x5c;

/// The most names of a path.
pub const MOST_NAMES: u32 = 64;

/// The most units of a name, and of a pattern.
pub const MOST_NAME_UNITS: usize = 255;

/// The most units of a path, with those between its names.
pub const MOST_PATH_UNITS: u32 = 4096;

/// Why units are no path, or no pattern.
#[derive(Clone, Copy, Debug, PartialEq, Eq, Error)]
pub enum PathNo {
    /// The name that begins at this unit is none, or is one too many; or the path is too long.
    #[error("no name at {at}")]
    Invalid { at: u32 },
    #[error("out of memory")]
    Memory,
}

impl From<AllocError> for PathNo {
    ghost from_gives = { λ _ e. e ≡ PathNo.Memory };

    fn from(_error: AllocError) -> PathNo {
        PathNo::Memory
    }
}

/// The names of a path, from the root on. The root itself has none.
#[derive(Debug, Drop)]
pub struct Path {
    names: Vec<Units>,
}

impl Model for Path {
    ghost use Rattle.std.specs.Prelude.{◌≡◌, List, ℕ, true};
    ghost use Rattle.rd_dirinfo.specs.Paths.{is_path};

    ghost Value = { List (List ℕ) };

    ghost view = { λ p. p.names.items };

    ghost invariant = { λ p. is_path p.names.items ≡ true };
}

impl Path {
    /// The path that units spell.
    pub fn split(alloc: Global, units: &[u16]) -> Result<Self, PathNo>
        ensures split { IfOk result (λ path. parsed_path units.now ≡ Some path) }
        ensures invalid { (at : ℕ) → (result ≡ Err (PathNo.Invalid at)) ↔ (path_fault units.now ≡ Some at) }
    {
        if let Some(at) = path_fault(units) {
            return Err(PathNo::Invalid { at });
        }
        let names = names_of(alloc, units)?;
        Ok(Path { names })
    }

    /// The names, lent.
    pub fn names(&self) -> &[Units]
        ensures names { result.now ≡ self.now }
        ensures within { IsTrue (is_path self.now) }
    {
        self.names.as_slice()
    }
}

/// Whether a name may have this unit.
fn is_name_unit(unit: u16) -> bool
    ensures { result ≡ is_name_unit unit }
{
    !matches!(
        unit,
        0..32 | 0x2f | 0x3a | 0x2a | 0x3f | 0x22 | 0x3c | 0x3e | 0x7c
    )
}

/// Whether a name means a folder itself or the folder above it.
fn is_dots(name: &[u16]) -> bool
    ensures { result ≡ is_dots name.now }
{
    matches!(name, [0x2e] | [0x2e, 0x2e])
}

/// Whether a name may have these units.
fn are_name_units(units: &[u16]) -> bool
    ensures { result ≡ list_all is_name_unit units.now }
{
    units.iter().all(|unit| is_name_unit(*unit))
}

fn is_name(name: &[u16]) -> bool
    ensures { result ≡ is_name name.now }
{
    if name.is_empty() {
        return false;
    }
    if name.len() > MOST_NAME_UNITS {
        return false;
    }
    are_name_units(name) && !is_dots(name)
}

/// The units without a backslash before them.
fn without_first_backslash(units: &[u16]) -> &[u16]
    ensures parts { named_parts units.now ≡ rest_parts (length units.now - length result.now) result.now }
    ensures one { length units.now ≤ length result.now + 1 }
    ensures within { length result.now ≤ length units.now }
{
    match units {
        [BACKSLASH, rest @ ..] => rest,
        _ => units,
    }
}

/// Where the first backslash is.
pub fn first_backslash(units: &[u16]) -> Option<usize>
    ensures { result ≡ position (λ unit. unit == backslash) units.now }
{
    units.iter().position(|unit| *unit == BACKSLASH)
}

/// What comes after a place.
pub fn after(units: &[u16], i: usize) -> &[u16]
    requires { i < length units.now }
    ensures { result.now ≡ drop (i + 1) units.now }
{
    &units[i + 1..]
}

/// The next part, and what comes after its backslash.
fn cut_part(rest: &[u16]) -> (&[u16], &[u16])
    requires { rest.now ≢ [] }
    ensures parts { (at : ℕ) → rest_parts at rest.now
        ≡ record { at = at; name = result.0.now } ∷ rest_parts (at + length result.0.now + 1) result.1.now }
    ensures shorter { length result.0.now + length result.1.now ≤ length rest.now }
    ensures smaller { length result.1.now < length rest.now }
{
    match first_backslash(rest) {
        Some(i) => (&rest[..i], after(rest, i)),
        None => (rest, &[]),
    }
}

/// The place of the first part that is no name, or that is one too many.
fn first_bad(units: &[u16]) -> Option<u32>
    ensures { result ≡ first_bad most_names (named_parts units.now) }
{
    let mut rest = without_first_backslash(units);
    let mut at = (units.len() - rest.len()) as u32;
    let mut room = MOST_NAMES;
    while !rest.is_empty() {
        let (name, others) = cut_part(rest);
        if room == 0 || !is_name(name) {
            return Some(at);
        }
        room -= 1;
        at += name.len() as u32 + 1;
        rest = others;
    }
    None
}

/// Where units fail to be a path.
fn path_fault(units: &[u16]) -> Option<u32>
    ensures { result ≡ path_fault units.now }
{
    match first_bad(units) {
        Some(at) => Some(at),
        None if units.len() <= MOST_PATH_UNITS as usize => None,
        None => Some(MOST_PATH_UNITS),
    }
}

/// The names that units spell.
fn names_of(alloc: Global, units: &[u16]) -> Result<Vec<Units>, AllocError>
    ensures { IfOk result (λ names. names.items ≡ names_of units.now) }
{
    let mut names = Vec::new(alloc);
    let mut rest = without_first_backslash(units);
    while !rest.is_empty() {
        let (name, others) = cut_part(rest);
        names.push(Units::of(Vec::from_slice(alloc, name)?))?;
        rest = others;
    }
    Ok(names)
}
