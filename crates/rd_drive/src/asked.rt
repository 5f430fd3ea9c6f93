//! What a Create asks for beside the path (MS-RDPEFS 2.2.1.4.1).

ghost use Rattle.std.specs.Prelude.{◌≡◌, ◌==◌};
ghost use Rattle.rd_drive.specs.Access.{new_file_attributes, new_folder_attributes};
ghost use Rattle.rd_drive.specs.Create.{asked_use, create_new, deletes_on_close, found_information, is_contradictory, made_attributes, replaces, wants_file, wants_folder};
ghost use Rattle.rd_drive.specs.Made.{needs_node};

use crate::access::{Use, has_any, use_of};

/// FILE_DIRECTORY_FILE
const DIRECTORY_FILE: u32 = 0x1;

/// FILE_NON_DIRECTORY_FILE
const NON_DIRECTORY_FILE: u32 = 0x40;

/// FILE_DELETE_ON_CLOSE
const DELETE_ON_CLOSE: u32 = 0x1000;

/// FILE_SUPERSEDE
const SUPERSEDE: u32 = 0;

/// FILE_OPEN
const OPEN_EXISTING: u32 = 1;

/// FILE_CREATE
const CREATE_NEW: u32 = 2;

/// FILE_OVERWRITE
const OVERWRITE: u32 = 4;

/// FILE_OVERWRITE_IF, the last of the dispositions.
const OVERWRITE_IF: u32 = 5;

/// FILE_SUPERSEDED, which is also FILE_CREATED's number here: what was there before isn't there any more.
pub const SUPERSEDED: u8 = 0;

/// FILE_OPENED
const OPENED: u8 = 1;

/// FILE_OVERWRITTEN
const OVERWRITTEN: u8 = 3;

/// What a Create asks for beside the path.
#[derive(Clone, Copy, Debug, PartialEq, Eq, Drop)]
pub struct Asked {
    /// DesiredAccess (MS-SMB2 2.2.13.1).
    pub access: u32,
    /// FileAttributes (MS-FSCC 2.6).
    pub attributes: u32,
    /// SharedAccess (MS-SMB2 2.2.13, as the next two).
    pub share: u32,
    /// CreateDisposition.
    pub disposition: u32,
    /// CreateOptions.
    pub options: u32,
}

impl Asked {
    /// FILE_DIRECTORY_FILE (MS-SMB2 2.2.13): a folder is asked for.
    pub fn wants_folder(&self) -> bool
        ensures { result ≡ wants_folder self.now }
    {
        has_any(DIRECTORY_FILE, self.options)
    }

    /// FILE_NON_DIRECTORY_FILE: a file is.
    pub fn wants_file(&self) -> bool
        ensures { result ≡ wants_file self.now }
    {
        has_any(NON_DIRECTORY_FILE, self.options)
    }

    /// FILE_DELETE_ON_CLOSE: the node is pending once the handle is closed.
    pub fn deletes_on_close(&self) -> bool
        ensures { result ≡ deletes_on_close self.now }
    {
        has_any(DELETE_ON_CLOSE, self.options)
    }

    /// Whether a file that is there is replaced.
    pub fn replaces(&self) -> bool
        ensures { result ≡ replaces self.now }
    {
        matches!(self.disposition, SUPERSEDE | OVERWRITE | OVERWRITE_IF)
    }

    /// Whether only a node that is there is asked for.
    pub fn needs_node(&self) -> bool
        ensures { result ≡ needs_node self.now }
    {
        matches!(self.disposition, OPEN_EXISTING | OVERWRITE)
    }

    /// Whether only a new node is asked for.
    pub fn needs_none(&self) -> bool
        ensures { result ≡ (self.now.disposition == create_new) }
    {
        self.disposition == CREATE_NEW
    }

    /// What can't be asked: a disposition that there isn't, a folder that is to be no folder, or one that is to be replaced.
    pub fn is_contradictory(&self) -> bool
        ensures { result ≡ is_contradictory self.now }
    {
        self.disposition > OVERWRITE_IF
            || (self.wants_folder() && self.wants_file())
            || (self.wants_folder() && self.replaces())
    }

    /// The use of the new handle as far as sharing goes, where replacing counts as writing.
    pub fn usage(&self) -> Use
        ensures { result ≡ asked_use self.now }
    {
        let own = use_of(self.access, self.share);
        Use {
            is_writing: own.is_writing || self.replaces(),
            ..own
        }
    }

    /// What a new file stores: READONLY, HIDDEN and SYSTEM as asked, and ARCHIVE.
    pub fn file_attributes(&self) -> u32
        ensures { result ≡ new_file_attributes self.now.attributes }
    {
        self.attributes & 7 | 0x20
    }

    /// What a new node stores.
    pub fn new_attributes(&self) -> u32
        ensures { result ≡ made_attributes self.now }
    {
        if self.wants_folder() {
            self.attributes & 7
        } else {
            self.file_attributes()
        }
    }

    /// The Information of a Create that found what it opens.
    pub fn information(&self) -> u8
        ensures { result ≡ found_information self.now }
    {
        match self.disposition {
            SUPERSEDE => SUPERSEDED,
            OVERWRITE | OVERWRITE_IF => OVERWRITTEN,
            _ => OPENED,
        }
    }
}
