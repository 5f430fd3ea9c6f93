//! What every client of a session tells is its journals' answers, so both sides of every session are joined.
//!
//! It stands on `rd_refused`, `rd_directs` and `rd_joined`, and has no code: each statement is the contract of a function that does nothing.
#![tactic(auto)]

mod laws;

pub use laws::{
    clients_answer, clients_say_who_is_there, refusals_are_called_for, scripts_are_joined,
    scripts_declare_writable, sessions_are_joined,
};
