//! The program, but for the system's own streams: what `rdr` does with its words, its input and its two outputs, and the status with which it
//! ends.
//!
//! It stands on all layers below. `program` is what `main` calls, with the words that `words_of` finds. `run` finds the command that the words are, by
//! `clap`, and runs it: `both` reads a script whole, plays it through both sides of its session, whose every frame goes into a recording, and reports what
//! came of each line; `trace` does the same, but prints an audit file; `load` plays the script of a number and prints a summary of what came of it; `client`
//! serves a script's devices over a linker's channels, and `host` plays a script's applications over them, both by threads; `decode` prints a recording, and
//! `audit` judges an audit file.
//!
//! Cost: `both` reads its input once, in pieces of 8,192 bytes, and writes its report once; `load` goes once over the bytes that were read; what `decode` costs stands in `rd_decode`. `trace` holds the
//! recording once and the audit file once; `audit` holds its input once, and what its judgement costs stands in `rd_audit`.
#![tactic(auto)]

mod arguments;
mod auditing;
mod both;
mod channel_notes;
mod client;
mod decoding;
mod ending;
mod forms;
mod host;
mod idle_notes;
mod input;
mod laws;
mod load;
mod notes;
mod playing;
mod serving;
mod stop;
mod summary;
mod top;
mod trace;
mod verdict_notes;
mod words;

pub use arguments::words_of;
pub use decoding::decode;
pub use laws::{recordings_are_read, summaries_are_as_listed};
pub use top::{program, run};
pub use words::{client_path_of, host_path_of};
