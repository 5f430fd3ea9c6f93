//! A whole journal.

ghost use Rattle.std.specs.Prelude.{◌↔◌, IfOk, IsTrue};
ghost use Rattle.rd_base.specs.Lawful.{IsLawful};

use crate::judge::Judge;
use rd_base::Item;
use std::alloc::{AllocError, Global};

/// Whether a journal whose entries lie in memory is lawful.
pub fn is_lawful(alloc: Global, entries: &[Item]) -> Result<bool, AllocError>
    ensures { IfOk result (λ lawful. IsTrue lawful ↔ IsLawful entries.now) }
{
    let mut judge = Judge::new(alloc);
    for entry in entries {
        let Ok(()) = judge.take(*entry)? else {
            return Ok(false);
        };
    }
    Ok(judge.may_end())
}
