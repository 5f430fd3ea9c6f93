//! What a client keeps for printers, by what the host tells of them (MS-RDPEPC 2.2.2.3 to 2.2.2.6).

ghost use Rattle.std.specs.Prelude.{◌≡◌, ◌≢◌, [], IsSome, OnErr, OnOk};
ghost use Rattle.std.specs.Option.{option_copied};
ghost use Rattle.rd_printer.specs.Cache.{by_bytes, forgetting, heard, kept_for, keeping, HearsNotice};
ghost use Rattle.rd_printer.specs.declared.notice.Notice.TheVariants as Notice;

use crate::notice::Notice;
use rd_base::Bytes;
use std::alloc::{AllocError, Global};
use std::collections::BTreeMap;
use std::marker::Model;

/// The configurations that a client keeps for printers. Contracts see a map from the bytes of names to those of configurations.
#[derive(Drop)]
pub struct Cache {
    alloc: Global,
    /// By name.
    kept: BTreeMap<Vec<u8>, Bytes>,
}

impl Model for Cache {
    ghost use Rattle.rd_printer.specs.Cache.{by_bytes, printer_name_cmp, CacheState};
    ghost use Rattle.std.specs.BTreeMap.{IsOrdered};

    ghost Value = { CacheState };

    ghost view = { λ c. by_bytes c.kept.entries };

    ghost invariant = { λ c. IsOrdered printer_name_cmp c.kept };
}

impl Cache {
    pub fn new(alloc: Global) -> Self
        ensures { result ≡ [] }
    {
        Cache {
            alloc,
            kept: BTreeMap::new(alloc),
        }
    }

    /// The configuration that is kept for a name.
    pub fn get(&self, name: &Bytes) -> Option<&Bytes>
        ensures { option_copied result ≡ kept_for self.now name.now }
    {
        self.kept.get(name.as_slice())
    }

    /// Does what a notice tells. Where there is no memory for what it sets, or for another name of it, nothing changes.
    pub fn hear(&mut self, notice: &Notice) -> Result<(), AllocError>
        ensures { HearsNotice self.old notice.now result self.new }
    {
        match notice {
            Notice::Add { name, config, .. } => self.keep(name.as_slice(), config),
            Notice::Update { name, config } => self.update(name.as_slice(), config),
            Notice::Delete { name } => {
                self.kept.remove(name.as_slice());
                Ok(())
            }
            Notice::Rename { old, new } => self.rename(old.as_slice(), new.as_slice()),
            Notice::UsingXps { .. } => Ok(()),
        }
    }

    /// What is kept, by name.
    pub fn finish(self) -> BTreeMap<Vec<u8>, Bytes>
        ensures { by_bytes result.entries ≡ self }
    {
        let Cache { kept, .. } = self;
        kept
    }

    /// Keeps a configuration for a name.
    fn keep(&mut self, name: &[u8], config: &Bytes) -> Result<(), AllocError>
        ensures ok { OnOk result (self.new ≡ keeping self.old name.now config.now) }
        ensures err { OnErr result (self.new ≡ self.old) }
    {
        let config = config.copy()?;
        self.kept.insert(name.to_vec(self.alloc)?, config)?;
        Ok(())
    }

    /// Keeps a configuration for a name that has one.
    fn update(&mut self, name: &[u8], config: &Bytes) -> Result<(), AllocError>
        ensures ok { OnOk result (self.new ≡ heard self.old (Notice.Update name.now config.now)) }
        ensures err { OnErr result (IsSome (kept_for self.old name.now) × (self.new ≡ self.old)) }
    {
        if let Some(kept) = self.kept.get_mut(name) {
            *kept = config.copy()?;
        }
        Ok(())
    }

    /// Moves the configuration of a name to another one.
    fn rename(&mut self, old: &[u8], new: &[u8]) -> Result<(), AllocError>
        ensures ok { OnOk result (self.new ≡ heard self.old (Notice.Rename old.now new.now)) }
        ensures err { OnErr result (((old.now ≢ new.now) × IsSome (kept_for self.old old.now)) × (self.new ≡ self.old)) }
    {
        if old == new || !self.kept.contains_key(old) {
            return Ok(());
        }
        // The new name gets its place first, so that nothing is lost where there is no memory for it.
        let place = new.to_vec(self.alloc)?;
        self.kept.insert(place, Bytes::of(Vec::new(self.alloc)))?;
        self.move_over(old, new);
        Ok(())
    }

    /// Moves the configuration of a name to the place of another one. It takes no memory.
    fn move_over(&mut self, old: &[u8], new: &[u8])
        requires other { old.now ≢ new.now }
        requires place { IsSome (kept_for self.old new.now) }
        ensures { self.new ≡ heard self.old (Notice.Rename old.now new.now) }
    {
        if let Some(config) = self.kept.remove(old) {
            if let Some(place) = self.kept.get_mut(new) {
                *place = config;
            }
        }
    }
}
