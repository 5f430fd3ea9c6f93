//! Which thread of a host made which call of its front, and what became of each channel by these.
//!
//! It stands on `rd_host_session`, and has no code: each statement is the contract of a function that does nothing.
#![tactic(auto)]

mod laws;

pub use laws::threads_make_the_calls;
