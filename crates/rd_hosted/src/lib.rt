//! What a host's session over a socket comes to: what the host did, as deeds by which it keeps its table.
//!
//! It stands on `rd_host_session`, on what is known of the passes of its front and of its table (`rd_host_threads`, `rd_host_turns`), and on which calls of a table may change places
//! (`rd_exchanges`). It has no code: each statement is the contract of a function that does nothing.
#![tactic(auto)]

mod laws;

pub use laws::{fronts_make_parts, hosts_keep_their_tables, outcomes_are_those_of_the_deeds};
