//! The count of a real folder's faults, with the system's reasons.

ghost use Rattle.std.specs.Prelude.{◌≡◌, Err, None};
ghost use Rattle.rd_link.specs.Links.{more_faults};
ghost use Rattle.rd_folder.specs.FolderLaws.{CountsNo, no_faults, one_fault};
ghost use Rattle.rd_folder.specs.FolderOpens.{CountsOpening};
ghost use Rattle.rd_folder.specs.declared.folder.FolderNo.TheVariants as FolderNo;

use crate::folder::FolderNo;
use std::io::{Error, ErrorKind};
use std::marker::Model;

/// A count of faults, and the last refusal with the system's reason for it. Contracts see the count and the refusal.
#[derive(Drop)]
pub struct Faults {
    count: u64,
    no: Option<FolderNo>,
    last: Option<Error>,
}

impl Model for Faults {
    ghost use Rattle.rd_folder.specs.FolderLaws.{FolderFaults};

    ghost Value = { FolderFaults };

    ghost view = { λ f. record { count = f.count; last = f.no } };
}

/// What an error means for who called.
fn cause(error: &Error) -> FolderNo {
    match error.kind() {
        ErrorKind::OutOfMemory => FolderNo::Memory,
        ErrorKind::StorageFull | ErrorKind::QuotaExceeded | ErrorKind::FileTooLarge => {
            FolderNo::Full
        }
        ErrorKind::PermissionDenied | ErrorKind::ReadOnlyFilesystem => FolderNo::Denied,
        ErrorKind::DirectoryNotEmpty => FolderNo::Missing,
        _ => FolderNo::Failed,
    }
}

impl Faults {
    pub fn new() -> Self
        ensures { result ≡ no_faults }
    {
        Faults {
            count: 0,
            no: None,
            last: None,
        }
    }

    fn add(&mut self, no: FolderNo, error: Error)
        ensures { self.new ≡ one_fault no self.old }
    {
        self.count = self.count.saturating_add(1);
        self.no = Some(no);
        self.last = Some(error);
    }

    /// Why a call is refused. A fault is counted, but for want of memory.
    pub fn refuse(&mut self, error: Error) -> FolderNo
        ensures { CountsNo None result self.old self.new }
    {
        match cause(&error) {
            FolderNo::Memory => FolderNo::Memory,
            no => {
                self.add(no, error);
                no
            }
        }
    }

    /// Why a call is refused that takes no memory. A fault is counted.
    pub fn refuse_freely(&mut self, error: Error) -> FolderNo
        ensures counted { CountsNo None result self.old self.new }
        ensures memory { result ≡ FolderNo.Memory → ⊥ }
    {
        let no = match cause(&error) {
            FolderNo::Memory => FolderNo::Failed,
            no => no,
        };
        self.add(no, error);
        no
    }

    /// Why an opening fails.
    pub fn refuse_opening(&mut self, error: Error) -> FolderNo
        ensures { CountsOpening {X = Unit {0}} (Err result) self.old.count self.new.count }
    {
        match cause(&error) {
            FolderNo::Memory => FolderNo::Memory,
            _ => {
                self.add(FolderNo::Failed, error);
                FolderNo::Failed
            }
        }
    }

    /// Adds all of the others, and their last refusal where there is one.
    pub fn add_all(&mut self, others: &Faults)
        ensures { self.new.count ≡ more_faults self.old.count others.now.count }
    {
        self.count = self.count.saturating_add(others.count);
        if others.no.is_some() {
            self.no = others.no;
            self.last = others.last;
        }
    }

    pub fn last(&self) -> Option<&Error> {
        self.last.as_ref()
    }
}
