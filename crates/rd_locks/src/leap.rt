//! Leaps over several slots of a node's chain at once, past locks that all lie before or all after what is looked for.

ghost use Rattle.std.specs.Prelude.{◌≡◌, false, true};
ghost use Rattle.rd_irp.specs.declared.op.Range.{Range};
ghost use Rattle.rd_locks.specs.Locks.{overlaps};
ghost use Rattle.rd_locks.specs.Slots.{IsSpanned};

use rd_irp::Range;

/// A way down a chain that passes some of its slots, and between which ends their ranges lie.
#[derive(Clone, Copy, Drop)]
pub struct Leap {
    /// The place that it leads to.
    pub to: usize,
    /// The least offset.
    pub low: u64,
    /// The largest end, where 2^64 - 1 stands for 2^64 and above.
    pub high: u64,
    /// How many slots it passes.
    pub steps: usize,
}

/// A leap over one slot with a range.
pub fn leap_to(to: usize, range: Range) -> Leap
    ensures to { result.to ≡ to }
    ensures spans { IsSpanned result range }
{
    Leap {
        to,
        low: range.offset,
        high: range.offset.saturating_add(range.length),
        steps: 1,
    }
}

/// One leap in place of three, of which each goes on where the one before leads to.
pub fn joined(first: Leap, second: Leap, third: Leap) -> Leap
    ensures to { result.to ≡ third.to }
    ensures first { (range : Range) → IsSpanned first range → IsSpanned result range }
    ensures second { (range : Range) → IsSpanned second range → IsSpanned result range }
    ensures third { (range : Range) → IsSpanned third range → IsSpanned result range }
{
    Leap {
        to: third.to,
        low: first.low.min(second.low).min(third.low),
        high: first.high.max(second.high).max(third.high),
        steps: first
            .steps
            .saturating_add(second.steps)
            .saturating_add(third.steps),
    }
}

/// Whether a range lies before or after all that a leap passes, so that it overlaps none and is none of them.
pub fn is_outside(leap: &Leap, range: Range) -> bool
    ensures overlaps { result ≡ true → (other : Range) → IsSpanned leap.now other → overlaps range other ≡ false }
    ensures other { result ≡ true → (other : Range) → IsSpanned leap.now other → other.offset ≡ range.offset → other.length ≡ range.length → ⊥ }
{
    leap.high < range.offset || range.offset.saturating_add(range.length) < leap.low
}
