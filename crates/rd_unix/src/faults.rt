//! Counts of faults, with the system's reasons.

ghost use Rattle.std.specs.Prelude.{◌≡◌};
ghost use Rattle.rd_base.specs.Faults.{one_more};
ghost use Rattle.rd_link.specs.Links.{more_faults};

use rd_base::Failed;
use std::io::Error;
use std::marker::Model;

/// A count of faults and the system's reason for the last. Contracts see the count.
#[derive(Drop)]
pub struct Faults {
    count: u64,
    last: Option<Error>,
}

impl Model for Faults {
    ghost use Rattle.std.specs.Prelude.{ℕ};

    ghost Value = { ℕ };

    ghost view = { λ f. f.count };
}

impl Faults {
    pub fn new() -> Self
        ensures { result ≡ 0 }
    {
        Faults {
            count: 0,
            last: None,
        }
    }

    pub fn add(&mut self, error: Error) -> Failed
        ensures { self.new ≡ one_more self.old }
    {
        self.count = self.count.saturating_add(1);
        self.last = Some(error);
        Failed
    }

    /// Adds all of the others, and their last reason where there is one.
    pub fn add_all(&mut self, others: &Faults)
        ensures { self.new ≡ more_faults self.old others.now }
    {
        self.count = self.count.saturating_add(others.count);
        if others.last.is_some() {
            self.last = others.last;
        }
    }

    /// How many there were. The count stands still at 2^64 - 1.
    pub fn count(&self) -> u64
        ensures { result ≡ self.now }
    {
        self.count
    }

    pub fn last(&self) -> Option<&Error> {
        self.last.as_ref()
    }
}
