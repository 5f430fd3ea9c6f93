//! Requests that are lost before their completions come.

ghost use Rattle.std.specs.Prelude.{◌≡◌, ◌==◌, true};
ghost use Rattle.rd_base.specs.declared.journal.Cause.TheVariants as Cause;
ghost use Rattle.rd_pending.specs.Table.{losing};

use crate::kept::Kept;
use rd_base::Cause;
use std::collections::BTreeMap;

/// The requests to a device that is gone are lost, if they have no outcome yet.
pub fn lose_removed(untaken: &mut BTreeMap<u64, Kept>, device: u32)
    ensures { untaken.new.entries ≡ losing (λ u. u.device == device) Cause.Removed untaken.old.entries }
{
    untaken.retain(|_, kept| {
        if kept.device() == device {
            kept.lose(Cause::Removed);
        }
        true
    });
}

/// All requests are lost, if they have no outcome yet: the channel ended.
pub fn lose_dropped(untaken: &mut BTreeMap<u64, Kept>)
    ensures { untaken.new.entries ≡ losing (λ u. true) Cause.Dropped untaken.old.entries }
{
    untaken.retain(|_, kept| {
        kept.lose(Cause::Dropped);
        true
    });
}
