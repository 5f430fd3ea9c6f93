//! What a client and a host come to that are two processes.
//!
//! It stands on the law that joins both sides and on what a client's session comes to, and has no code: each statement is the contract of a function that does nothing.
#![tactic(auto)]

mod laws;

pub use laws::{clients_are_joined, peers_are_joined};
