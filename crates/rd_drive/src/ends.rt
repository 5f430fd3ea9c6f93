//! The ends of requests that waited, as a step hands them out.

ghost use Rattle.std.specs.Prelude.{◌≡◌, ◌<◌, ◌↔◌, ◌++◌, ◌∷◌, [], length, None, IfOk, IfSome, IfNone, IsTrue};

use crate::step::End;
use std::alloc::{AllocError, Global};
use std::marker::Model;

/// The most requests that wait at a device.
pub const MAX_WAITING: usize = 64;

/// The ends of requests that waited, in the order in which they began to wait. Contracts see them as a list.
#[derive(Drop)]
pub struct Ends {
    ends: Vec<End>,
}

impl Model for Ends {
    ghost use Rattle.std.specs.Prelude.{List};
    ghost use Rattle.rd_drive.specs.declared.step.End.{End};

    ghost Value = { List End };

    ghost view = { λ e. e.ends.items };

    ghost use Rattle.std.specs.Prelude.{◌≤◌, length, vec_capacity};

    ghost invariant = { λ e. (length e.ends.items ≤ 64) × (64 ≤ vec_capacity e.ends) };
}

impl Ends {
    /// No ends, with room for as many as requests wait at a device.
    pub fn new(alloc: Global) -> Result<Self, AllocError>
        ensures { IfOk result (λ ends. ends ≡ []) }
    {
        Ok(Ends {
            ends: Vec::with_capacity(alloc, MAX_WAITING)?,
        })
    }

    /// Puts an end after the others. It takes no memory.
    pub fn push(&mut self, end: End)
        requires { length self.old < 64 }
        ensures { self.new ≡ self.old ++ end ∷ [] }
    {
        self.ends.push(end).unwrap();
    }

    /// Takes the first end, if there is one.
    pub fn pop(&mut self) -> Option<End>
        ensures none { result ≡ None → self.old ≡ [] }
        ensures some { IfSome result (λ end. self.old ≡ end ∷ self.new) }
        ensures empty { IfNone result (self.new ≡ self.old) }
    {
        if self.ends.is_empty() {
            return None;
        }
        Some(self.ends.remove(0))
    }

    /// Whether there is none.
    pub fn is_empty(&self) -> bool
        ensures { IsTrue result ↔ (self.now ≡ []) }
    {
        self.ends.is_empty()
    }
}
