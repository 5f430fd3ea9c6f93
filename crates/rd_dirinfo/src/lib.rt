//! The names in a folder: which are the same (`Naming`), which units spell a path of them (`Path`), which match the pattern of a
//! query (`Pattern`), and what a listing says of each, as values and as bytes (MS-FSCC 2.4, as MS-RDPEFS 2.2.3.3.10 and
//! 2.2.3.4.10 send them, one entry a message).
//!
//! It stands on `rd_base`, and on the kit's `unicode`. The layers above use three contracts of it: a naming is an order of names,
//! in which equal names are the same; units are a path, a list of names within the limits, or fail at a place; and the
//! buffer of a class of entries is an entry, with ignored bytes after it, or has a first fault, or the class isn't one of the
//! table's.
//!
//! Cost: comparing and matching names takes no memory. Matching takes at most about as many steps as the pattern has units times
//! those of the name. A path copies each name once. An entry is appended to a buffer that the caller lends, in one
//! reservation of its exact size; reading one copies the name once.
#![tactic(auto)]

pub mod classes;
mod entry;
mod laws;
mod matching;
mod naming;
mod path;
mod pattern;

pub use entry::{Entry, entry_fits, put_entry, read_entry, write_entry};
pub use laws::{
    entry_is_decided, foldings_are_as_listed, names_are_ordered, paths_are_as_listed,
    patterns_are_as_listed,
};
pub use naming::Naming;
pub use path::{BACKSLASH, MOST_NAMES, MOST_PATH_UNITS, Path, PathNo};
pub use pattern::Pattern;
