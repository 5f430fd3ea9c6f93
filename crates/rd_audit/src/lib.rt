//! Whether a recording belongs to the journals that came with it: `audit` reads an audit file, which holds a session's script, the journals of its
//! devices and its recording, and finds the first thing that doesn't belong, or that all does.
//!
//! Cost: the recording is gone over once, and each journal twice. A request is found by its key, and a completion by its pair, so that all takes time in the
//! order of n log n beside what the devices themselves do; a reply is compared where it is made, and none is kept.
#![tactic(auto)]

mod completions;
mod course;
mod journals;
mod judging;
mod lawful;
mod laws;
mod lines;
mod no;
mod replay;
mod reply;
mod status;
mod verdict;

pub use judging::audit;
pub use laws::journals_are_judged_whole;
pub use no::AuditNo;
pub use verdict::{AuditWhy, Verdict};
