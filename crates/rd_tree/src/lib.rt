//! The tree of a drive's files and folders: numbered nodes, each with a path, a file with bytes.
//!
//! It stands on `rd_dirinfo` (namings, paths), `rd_contents` (the bytes of a file), `rd_base` and the kit's `slab`. The layers above
//! use one contract of it: a tree is the list of its live numbers with their paths and bytes (`specs/Places`), each call finds what
//! that list has, or makes of it what a definition says, or refuses by a table and changes nothing.
//!
//! Cost: a name on the way to a node is looked up once in an ordered map of its folder. `add` and `rename` copy the new name twice,
//! as asked and as the naming sees it. `find`, `end` and `remove` take no memory.
#![tactic(auto)]

mod keys;
mod laws;
mod listing;
mod moving;
mod node;
mod nodes;
mod refusal;
mod tree;

pub use laws::{
    adding_is_as_listed, finding_is_as_listed, listing_is_as_listed, renaming_is_as_listed,
};
pub use node::{Found, NodeId};
pub use refusal::{AddNo, MoveNo, NotEmpty};
pub use tree::{MAX_NODES, Tree};
