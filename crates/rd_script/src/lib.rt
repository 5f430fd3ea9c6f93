//! A script: its lines as values, the first line outside the grammar, the script of a load, the outcomes of a session, and the report
//! of them.
//!
//! It stands on `rd_dirinfo`, `rd_irp` and `rd_base`, and on no drive: a script is data. The layers above use three contracts of it:
//! `read_script` gives the script that bytes are, or its first bad line and why; `report` is the text of a script's outcomes; and
//! `load_script` is the script of a load. What holds of every line, whoever reads it, is the clause of a function that does nothing,
//! `lines_are_decided`.
//!
//! Cost: a text is gone over once for its line feeds, once for the spaces of each line and once for each word. A line's value has 64 bytes,
//! with its handle or its short name in it; a path or a field of bytes is copied once, into memory of its own.
#![tactic(auto)]

mod application;
mod controls;
mod devices;
mod entry;
mod inline;
mod keys;
mod keyword;
mod known;
mod laws;
mod line;
mod load;
mod numbers;
mod outcome;
mod reading;
mod report_lines;
mod report_text;
mod script;
mod texts;
mod why;
mod words;

pub use inline::{BoxedUnits, ShortName};
pub use keyword::Mode;
pub use laws::lines_are_decided;
pub use line::{Errand, Line, Lines, NumberedLine};
pub use load::load_script;
pub use outcome::{Outcome, Outcomes, Refusal};
pub use report_text::report;
pub use script::{BadWord, MAX_BYTES, MAX_LINES, Script, bad_word, read_script};
pub use why::{LineWhy, ScriptNo};
