//! The judge of a journal.

use crate::memory::Memory;
use crate::rule::Rule;
use rd_base::Item;
use std::alloc::{AllocError, Global};
use std::marker::Model;

/// It takes the entries of a device's journal one by one, as long as they are lawful so far.
///
/// It keeps few bytes of them, and contracts see these (`Remembered`). Which entries it has taken a contract says beside it (`HasTaken`).
#[derive(Drop)]
pub struct Judge {
    memory: Memory,
}

impl Model for Judge {
    ghost use Rattle.std.specs.Prelude.{List};
    ghost use Rattle.rd_base.specs.declared.journal.Item.{Item};
    ghost use Rattle.rd_lawful.specs.Memory.{Remembered};

    ghost Value = { Remembered };

    ghost use Rattle.rd_lawful.specs.Judged.{HasTaken};

    ghost view = { λ j. j.memory };

    ghost invariant = { λ j. (items : List Item) × HasTaken j.memory items };
}

impl Judge {
    ghost use Rattle.std.specs.Prelude.{◌≡◌, ◌↔◌, ◌∷◌, ◌++◌, [], List, IfOk, IsTrue, OnErr, OnOk};
    ghost use Rattle.std.specs.Result.{result_err};
    ghost use Rattle.rd_base.specs.declared.journal.Item.{Item};
    ghost use Rattle.rd_base.specs.declared.journal.Item.TheVariants as entry_of;
    ghost use Rattle.rd_base.specs.Lawful.{FewUnsent};
    ghost use Rattle.rd_lawful.specs.Judged.{HasTaken};
    ghost use Rattle.rd_lawful.specs.Rules.{rule_broken};

    /// A judge that has taken no entry.
    pub fn new(alloc: Global) -> Self
        ensures { HasTaken result [] }
    {
        Judge {
            memory: Memory::new(alloc),
        }
    }

    /// Takes one more entry, exactly where it breaks no rule; else the lowest rule that it breaks is returned. Then, and where no memory is
    /// found, nothing changes. Only a request that comes takes memory.
    pub fn take(&mut self, entry: Item) -> Result<Result<(), Rule>, AllocError>
        ensures verdict { (items : List Item) → HasTaken self.old items → IfOk result (λ verdict. result_err verdict ≡ rule_broken items entry) }
        ensures taken { (items : List Item) → HasTaken self.old items → IfOk result (λ verdict. OnOk verdict (HasTaken self.new (items ++ entry ∷ []))) }
        ensures refused { IfOk result (λ verdict. OnErr verdict (self.new ≡ self.old)) }
        ensures err { OnErr result (self.new ≡ self.old) }
        ensures came { OnErr result ((key : _) × (entry ≡ entry_of.Came key)) }
    {
        if let Some(rule) = self.memory.broken_by(entry) {
            return Ok(Err(rule));
        }
        self.memory.remember(entry)?;
        Ok(Ok(()))
    }

    /// Whether the journal may end here: at most 128 requests of its last channel came and aren't sent.
    pub fn may_end(&self) -> bool
        ensures { (items : List Item) → HasTaken self.now items → (IsTrue result ↔ FewUnsent items) }
    {
        self.memory.few_unsent()
    }
}
