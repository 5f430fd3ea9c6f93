//! What a file id has open.

ghost use Rattle.std.specs.Prelude.{◌≡◌};
ghost use Rattle.rd_drive.specs.Access.{use_of};

use rd_base::Units;
use rd_dirinfo::Pattern;
use rd_drive::access::{Use, use_of};

/// What a file id has open.
#[derive(Debug, Drop)]
pub struct Handle {
    /// The number of what is open: the file id that opened it first.
    pub node: u32,
    pub access: u32,
    pub share: u32,
    pub delete_on_close: bool,
    /// Which names a listing has.
    pub pattern: Pattern,
    /// The name that was listed last.
    pub last: Option<Units>,
}

impl Handle {
    /// The use that it makes of what it has open.
    pub fn usage(&self) -> Use
        ensures { result ≡ use_of self.now.access self.now.share }
    {
        use_of(self.access, self.share)
    }
}
