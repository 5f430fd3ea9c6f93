//! The layout of an audit file: what a session came to, for an auditor. It has a magic, the script, the journals of the devices as text, a line
//! an entry, and the recording.
//!
//! It stands on `rd_base`. The layers above use three contracts of it: `write_audit` writes the file of a session, `AuditFile` takes a file apart
//! in its order, field by field, and `check_journals` tells whether a journal text is that of some devices' journals; each fault is the first, at
//! its place.
//!
//! Cost: reading copies nothing and takes no memory; a journal text is gone over once. Writing takes two buffers, that of the journal text and
//! that of the file, which has its exact size from the start.
#![tactic(auto)]

mod fault;
mod fields;
mod file;
mod form;
mod laws;
mod line;
mod lines;
mod writing;

pub use fault::FieldFault;
pub use file::AuditFile;
pub use laws::{
    files_are_read_back, journal_texts_are_as_listed, journal_texts_have_one_reading,
    texts_begin_with_one_line,
};
pub use line::{JournalLine, put_line, take_line};
pub use lines::{JournalLines, check_journals};
pub use writing::write_audit;
