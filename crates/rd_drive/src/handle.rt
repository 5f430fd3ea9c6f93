//! What a file id has open.

ghost use Rattle.std.specs.Prelude.{◌≡◌};
ghost use Rattle.rd_drive.specs.Access.{use_of};

use crate::access::{Use, use_of};
use rd_base::Units;
use rd_dirinfo::Pattern;
use rd_tree::NodeId;

/// What a file id has open.
#[derive(Debug, Drop)]
pub struct Handle {
    pub node: NodeId,
    pub access: u32,
    pub share: u32,
    pub delete_on_close: bool,
    /// Which names a listing has.
    pub pattern: Pattern,
    /// The name that was listed last.
    pub last: Option<Units>,
}

impl Handle {
    /// The use that it makes of its node.
    pub fn usage(&self) -> Use
        ensures { result ≡ use_of self.now.access self.now.share }
    {
        use_of(self.access, self.share)
    }
}
