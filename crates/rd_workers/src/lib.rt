//! A client over sockets: the thread that calls it reads, one beside it writes, and workers run the requests of its devices.
#![tactic(auto)]

mod bells;
mod channels;
mod client_ended;
mod due;
mod places;
mod reader;
mod session;
mod storing;
mod writer;

pub use client_ended::ClientEnded;
pub use due::{Act, AtLine};
pub use session::serve_client;
