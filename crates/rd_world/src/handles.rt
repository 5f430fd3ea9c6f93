//! What the handles of an application hold.

ghost use Rattle.std.specs.Prelude.{◌≡◌, [], OnOk};
ghost use Rattle.std.specs.Map.{lookup};
ghost use Rattle.std.specs.Option.{option_copied};
ghost use Rattle.std.specs.BTreeMap.{is_at};
ghost use Rattle.rd_printer.specs.Cache.{bytes_cmp};
ghost use Rattle.rd_world.specs.Hearing.{holding_under};

use rd_pending::Handle;
use std::alloc::{AllocError, Global};
use std::collections::BTreeMap;
use std::marker::Model;

/// The handles of an application, by its own names for them. Contracts see a map from the bytes of names to files.
#[derive(Drop)]
pub struct Handles {
    alloc: Global,
    files: BTreeMap<Vec<u8>, Handle>,
}

impl Model for Handles {
    ghost use Rattle.std.specs.Prelude.{List, ℕ};
    ghost use Rattle.rd_pending.specs.declared.calls.Handle.{Handle};
    ghost use Rattle.rd_world.specs.Names.{by_name};

    ghost Value = { List (List ℕ × Handle) };

    ghost view = { λ h. by_name h.files.entries };
}

impl Handles {
    /// No handle holds a file.
    pub fn new(alloc: Global) -> Self
        ensures { result ≡ [] }
    {
        Handles {
            alloc,
            files: BTreeMap::new(alloc),
        }
    }

    /// What the handle with this name holds, if it holds a file.
    pub fn get(&self, name: &[u8]) -> Option<Handle>
        ensures { result ≡ lookup (is_at (bytes_cmp name.now)) self.now }
    {
        self.files.get(name).copied()
    }

    /// The handle with this name holds what an open gave, or nothing where it gave none.
    pub fn set(&mut self, name: &[u8], given: Option<Handle>) -> Result<(), AllocError>
        ensures { OnOk result (self.new ≡ holding_under self.old name.now given) }
    {
        match given {
            Some(handle) => {
                self.files.insert(name.to_vec(self.alloc)?, handle)?;
            }
            None => {
                self.files.remove(name);
            }
        }
        Ok(())
    }
}
