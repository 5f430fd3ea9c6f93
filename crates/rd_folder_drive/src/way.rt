//! A path that is kept as it came, or is put together from the names of others.

ghost use Rattle.std.specs.Prelude.{◌≡◌, ◌++◌, ◌≤◌, nat_le, true, IfOk, IsTrue, OnOk};
ghost use Rattle.rd_dirinfo.specs.Paths.{is_path, is_within_limits};
ghost use Rattle.rd_folder_drive.specs.Ways.{ended_len, IsMovedPath};

use crate::paths::{after, is_prefix};
use rd_base::Units;
use rd_dirinfo::{MOST_NAMES, MOST_PATH_UNITS, Path};
use std::alloc::{AllocError, Global};
use std::marker::Model;

/// How the names are kept.
#[derive(Debug, Drop)]
enum Held {
    Whole(Path),
    Joined(Vec<Units>),
}

/// The names of a path, from the root on.
#[derive(Debug, Drop)]
pub struct Way {
    held: Held,
}

impl Model for Way {
    ghost use Rattle.std.specs.Prelude.{◌≡◌, List, ℕ, true};
    ghost use Rattle.rd_dirinfo.specs.Paths.{is_path};
    ghost use Rattle.rd_folder_drive.specs.Ways.{held_names};

    ghost Value = { List (List ℕ) };

    ghost view = { λ w. held_names w.held };

    ghost invariant = { λ w. is_path (held_names w.held) ≡ true };
}

/// Appends names.
fn put_names(names: &mut Vec<Units>, more: &[Units]) -> Result<(), AllocError>
    ensures { OnOk result (names.new.items ≡ names.old.items ++ more.now) }
{
    for name in more {
        names.push(name.copy()?)?;
    }
    Ok(())
}

/// Whether names, with a unit after each, have one unit more than a path at most.
fn has_room(names: &[Units]) -> bool
    ensures { result ≡ nat_le (ended_len names.now) 4097 }
{
    let mut room = MOST_PATH_UNITS as usize + 1;
    for name in names {
        let len = name.as_slice().len();
        if room <= len {
            return false;
        }
        room -= len + 1;
    }
    true
}

/// Whether names are within the limits of a path.
#[tactic(auto, using(crate::proofs::WayLemmas::within_by))]
fn is_within_limits(names: &[Units]) -> bool
    ensures { result ≡ is_within_limits names.now }
{
    names.len() <= MOST_NAMES as usize && has_room(names)
}

impl Way {
    /// A path as it came. It takes no memory.
    pub fn new(path: Path) -> Self
        ensures { result ≡ path }
    {
        Way {
            held: Held::Whole(path),
        }
    }

    /// The same names once more.
    pub fn of(alloc: Global, names: &[Units]) -> Result<Self, AllocError>
        requires { is_path names.now ≡ true }
        ensures { IfOk result (λ way. way ≡ names.now) }
    {
        let mut joined = Vec::with_capacity(alloc, names.len())?;
        put_names(&mut joined, names)?;
        Ok(Way {
            held: Held::Joined(joined),
        })
    }

    /// The names, lent.
    pub fn names(&self) -> &[Units]
        ensures names { result.now ≡ self.now }
        ensures within { IsTrue (is_path self.now) }
    {
        match &self.held {
            Held::Whole(path) => path.names(),
            Held::Joined(names) => names.as_slice(),
        }
    }

    /// The path that this one has once what is at or below one path is moved to another: none where that is past the limits.
    pub fn moved(
        &self,
        alloc: Global,
        from: &[Units],
        to: &Path,
    ) -> Result<Option<Self>, AllocError>
        ensures { IfOk result (IsMovedPath from.now to.now self.now) }
    {
        let path = self.names();
        if !is_prefix(from, path) {
            return Ok(Some(Way::of(alloc, path)?));
        }
        let mut joined = Vec::with_capacity(alloc, path.len())?;
        put_names(&mut joined, to.names())?;
        put_names(&mut joined, after(path, from.len()))?;
        if !is_within_limits(joined.as_slice()) {
            return Ok(None);
        }
        Ok(Some(Way {
            held: Held::Joined(joined),
        }))
    }
}
