//! Why devices aren't opened.

ghost use Rattle.std.specs.Prelude.{◌≡◌, ℕ, Err};
ghost use Rattle.rd_folder.specs.FolderOpens.{CountsOpening};
ghost use Rattle.rd_sharing.specs.Refused.{IsFolderNo};

use rd_folder::FolderNo;
use std::alloc::AllocError;

/// Why the devices of a script aren't opened.
#[derive(Clone, Copy, Debug)]
pub enum OpeningNo {
    /// The folder of this device can't be opened.
    Folder { device: u32 },
    Memory,
}

impl OpeningNo {
    /// What the refusal of a device's folder means.
    pub fn of(device: u32, no: FolderNo) -> Self
        ensures { (before after : ℕ) → CountsOpening {X = Unit {0}} (Err no) before after → IsFolderNo device before after result }
    {
        match no {
            FolderNo::Failed => OpeningNo::Folder { device },
            _ => OpeningNo::Memory,
        }
    }
}

impl From<AllocError> for OpeningNo {
    ghost use Rattle.std.specs.Prelude.{◌≡◌};
    ghost use Rattle.rd_sharing.specs.declared.opening_no.OpeningNo.TheVariants as no;

    ghost from_gives = { λ _ e. e ≡ no.Memory };

    fn from(_error: AllocError) -> OpeningNo {
        OpeningNo::Memory
    }
}
