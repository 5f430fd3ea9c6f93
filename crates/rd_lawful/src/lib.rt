//! The judge of a device's journal: it takes the entries one by one, and says of the first that may not stand there which rule it breaks.
//!
//! It stands on `rd_base`. The layer above uses one contract of it: a `Judge` that has taken some entries (`HasTaken`) takes a further one exactly
//! where this breaks no rule, and else names the lowest rule that it breaks (`rule_broken`); so the entries taken are lawful so far
//! (`IsLawfulSoFar`), and the journal is lawful exactly where, besides, it may end (`Judge::may_end`).
//!
//! Cost: an entry that names a request looks its key up by bisection among those that came, at most twice; a request that comes and a cut cost a
//! few moves. Of each request that came 16 bytes are kept, in room that grows by a half of itself.
#![tactic(auto)]

mod judge;
mod known;
mod laws;
mod memory;
mod rule;
mod whole;

pub use judge::Judge;
pub use laws::{journals_are_judged_by_entries, lowest_rules_are_broken, rules_are_as_listed};
pub use rule::Rule;
pub use whole::is_lawful;
