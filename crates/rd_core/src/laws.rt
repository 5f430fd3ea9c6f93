//! The definitions at work, as contracts of functions that do nothing: the checker computes each case.

ghost use Rattle.std.specs.Prelude.{◌≡◌, None, Some};
ghost use Rattle.rd_core.specs.Core.{send};
ghost use Rattle.rd_core.specs.Worked.{fresh, holding_both, holding_eight};

/// What is to be sent is handed out in order.
pub fn ends_send_in_order()
    ensures first { send holding_both ≡ (holding_eight, Some 7) }
    ensures none { send fresh ≡ (fresh, None) }
{}
