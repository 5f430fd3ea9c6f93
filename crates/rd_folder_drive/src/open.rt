//! What is open.

ghost use Rattle.std.specs.Prelude.{◌≡◌};

use crate::way::Way;
use rd_drive::uses::Uses;

/// A file or folder that is open, by one handle or more.
#[derive(Debug, Drop)]
pub struct Open {
    pub path: Way,
    pub folder: bool,
    /// It goes with its last handle.
    pub pending: bool,
    /// Those of its handles.
    pub uses: Uses,
}
