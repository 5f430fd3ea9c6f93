//! The contents of a file: the list of its bytes to its callers, and inside pages of 4,096 bytes, of which those that were
//! never written aren't kept and read as zeros.
//!
//! It stands on `rd_base`. The layers above use three contracts of it: a read returns the part of the list that it names,
//! a write and a resizing make of the list what `specs/Contents` says, or refuse and change nothing.
//!
//! Cost: a call finds each page that it touches once in an ordered map (a write twice, since it makes room in all of them
//! first), and copies each byte once. An extension, or a gap before a write, costs nothing for its zeros.
#![tactic(auto)]

mod contents;
mod laws;
mod pages;

pub use contents::{Contents, MAX_LEN, SizeNo};
pub use laws::contents_are_as_listed;
