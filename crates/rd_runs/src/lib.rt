//! What holds at each point of every run of a session's world.
//!
//! It stands on `rd_world`, and has no code: each statement is the contract of a function that does nothing. A run of a script's lines is a list of moves
//! (`runs_are_moves`); so what holds at the beginning and is kept by each move holds of every world that lines come to (`proofs/Reaching`).
#![tactic(auto)]

mod laws;

pub use laws::{
    runs_are_moves, runs_carry, runs_come_to_rest, runs_count_lines, runs_keep_hosts,
    scripts_meet_premises,
};
