//! What is wrong with an audit file.

use rd_base::Why;

/// The first fault of an audit file or of its journal text.
#[derive(Clone, Copy, Debug, PartialEq, Eq)]
pub struct FieldFault {
    /// The place of the field or the line, in bytes from the first.
    pub at: usize,
    /// `Short` or `Value`.
    pub why: Why,
}
