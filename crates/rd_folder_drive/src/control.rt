//! Device control (MS-RDPEFS 2.2.1.4.5).

ghost use Rattle.std.specs.Prelude.{IfOk};
ghost use Rattle.rd_base.specs.Statuses.{not_supported};
ghost use Rattle.rd_drive.specs.Outcome.{on_handle, refused};
ghost use Rattle.rd_folder_drive.specs.Alone.{ServesAlone};
ghost use Rattle.rd_folder_drive.specs.Table.{IsSound};
ghost use Rattle.rd_folder_drive.specs.Waits.{StaysWaiting};

use crate::table::{Outcome, Table};
use rd_base::Status;

impl Table {
    /// A drive has no device control, as its handles are told.
    pub fn control(&self, file: u32) -> Outcome
        requires sound { IsSound self.now }
        ensures serves { ServesAlone self.now self.now (λ s. on_handle s file (λ handle node. refused s not_supported)) result }
        ensures waits { StaysWaiting self.now self.now result }
        ensures refused { IfOk result (λ done. ⊥) }
    {
        match self.held(file) {
            Some(_) => Err(Status::NOT_SUPPORTED),
            None => Err(Status::INVALID_HANDLE),
        }
    }
}
