//! What a host that keeps its table writes is in order, whatever the other end sends.
//!
//! It stands on `rd_orders`, and has no code: each statement is the contract of a function that does nothing.
#![tactic(auto)]

mod laws;

pub use laws::{hosts_keep_the_order, one_wrong_message, requests_are_those_accepted};
