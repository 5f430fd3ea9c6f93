//! How many handles of a node make which use of it, so that no handle has to be looked at to see whether one clashes.

ghost use Rattle.std.specs.Prelude.{◌≡◌, ◌<◌, List, [], length};
ghost use Rattle.rd_drive.specs.declared.access.Use.{Use};
ghost use Rattle.rd_drive.specs.declared.uses.Uses.{Uses};
ghost use Rattle.rd_drive.specs.Uses.{uses_of};
ghost use Rattle.rd_drive.specs.UseCounts.{more, one_if, is_clashing, is_use_unshared, is_use_unsharing};

use crate::access::Use;

/// The counts of a node's handles.
#[derive(Clone, Copy, Debug, PartialEq, Eq, Drop)]
pub struct Uses {
    /// All of them.
    pub handles: u32,
    /// Those that read, write or delete.
    pub reading: u32,
    pub writing: u32,
    pub deleting: u32,
    /// Those that use the node and don't share it so.
    pub unshared_reading: u32,
    pub unshared_writing: u32,
    pub unshared_deleting: u32,
}

/// 1 for true.
fn count(holds: bool) -> u32
    ensures { result ≡ one_if holds }
{
    if holds { 1 } else { 0 }
}

impl Uses {
    /// Those of no handle.
    pub fn new() -> Self
        ensures { result ≡ uses_of [] }
    {
        Uses {
            handles: 0,
            reading: 0,
            writing: 0,
            deleting: 0,
            unshared_reading: 0,
            unshared_writing: 0,
            unshared_deleting: 0,
        }
    }

    /// One handle more.
    pub fn add(&mut self, usage: Use)
        requires { (uses : List Use) × (self.old ≡ uses_of uses) × (length uses < 4096) }
        ensures { self.new ≡ more usage self.old }
    {
        let using = usage.is_using();
        self.handles += 1;
        self.reading += count(usage.is_reading);
        self.writing += count(usage.is_writing);
        self.deleting += count(usage.is_deleting);
        self.unshared_reading += count(using && !usage.shares_reading());
        self.unshared_writing += count(using && !usage.shares_writing());
        self.unshared_deleting += count(using && !usage.shares_deleting());
    }

    /// One handle fewer.
    pub fn remove(&mut self, usage: Use)
        requires { (left : Uses) × (self.old ≡ more usage left) }
        ensures { (left : Uses) → self.old ≡ more usage left → self.new ≡ left }
    {
        let using = usage.is_using();
        self.handles -= 1;
        self.reading -= count(usage.is_reading);
        self.writing -= count(usage.is_writing);
        self.deleting -= count(usage.is_deleting);
        self.unshared_reading -= count(using && !usage.shares_reading());
        self.unshared_writing -= count(using && !usage.shares_writing());
        self.unshared_deleting -= count(using && !usage.shares_deleting());
    }

    /// Whether one of the handles doesn't share what a use does.
    fn unshared(&self, usage: Use) -> bool
        ensures { result ≡ is_use_unshared usage self.now }
    {
        (usage.is_reading && self.unshared_reading > 0)
            || (usage.is_writing && self.unshared_writing > 0)
            || (usage.is_deleting && self.unshared_deleting > 0)
    }

    /// Whether a use doesn't share what one of the handles does.
    fn unsharing(&self, usage: Use) -> bool
        ensures { result ≡ is_use_unsharing usage self.now }
    {
        (self.reading > 0 && !usage.shares_reading())
            || (self.writing > 0 && !usage.shares_writing())
            || (self.deleting > 0 && !usage.shares_deleting())
    }

    /// Whether one of the handles clashes with a use.
    pub fn clash(&self, usage: Use) -> bool
        ensures { result ≡ is_clashing usage self.now }
    {
        usage.is_using() && (self.unshared(usage) || self.unsharing(usage))
    }
}
