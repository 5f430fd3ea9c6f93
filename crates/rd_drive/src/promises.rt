//! What every device promises, said of the definition of a drive: contracts of functions that do nothing.

ghost use Rattle.std.specs.Prelude.{◌≡◌, ℕ, List, []};
ghost use Rattle.rd_base.specs.declared.journal.Item.{Item};
ghost use Rattle.rd_base.specs.declared.journal.Key.{Key};
ghost use Rattle.rd_base.specs.Lawful.{IsLawful};
ghost use Rattle.rd_irp.specs.declared.op.Op.{Op};
ghost use Rattle.rd_irp.specs.declared.request.Request.{Request};
ghost use Rattle.rd_drive.specs.Answered.{drive_parked, IsFitting};
ghost use Rattle.rd_drive.specs.Bounded.{IsBounded};
ghost use Rattle.rd_drive.specs.DriveState.{DriveState};
ghost use Rattle.rd_drive.specs.DriveStep.{drive_cut, drive_step};
ghost use Rattle.rd_drive.specs.Once.{HaveOneReplyEach};
ghost use Rattle.rd_drive.specs.Promise.{Cancels, IsDevice};
ghost use Rattle.rd_drive.specs.Ranged.{AreEndsInRange, IsSteppedInRange, SetsFew};
ghost use Rattle.rd_drive.specs.Replies.{replies_of};

/// Whatever is asked of a fitting drive, and where it is cut off, a fitting drive is left.
pub fn drives_stay_fitting()
    ensures step { (s : DriveState) (key : Key) (file : ℕ) (operation : Op) (moment : ℕ) → IsFitting s → IsFitting (drive_step s key file operation moment).state }
    ensures cut { (s : DriveState) → IsFitting s → IsFitting (drive_cut s).state }
{}

/// The numbers of every reply of a drive are in the ranges of their fields, so that each can be written.
pub fn replies_are_in_range()
    ensures step { (s : DriveState) (key : Key) (file : ℕ) (operation : Op) (moment : ℕ) → SetsFew operation → IsSteppedInRange (drive_step s key file operation moment) }
    ensures cut { (s : DriveState) → AreEndsInRange (drive_cut s).ends }
{}

/// A cut cancels the requests that wait in a drive, in their order.
pub fn cuts_cancel()
    ensures { (s : DriveState) → Cancels drive_step drive_cut drive_parked s }
{}

/// A drive within its bounds stays so, and does to the requests that wait what every device does.
pub fn drives_are_devices()
    ensures { IsDevice drive_step drive_cut drive_parked IsBounded }
{}

/// By a lawful journal of a drive in which nothing waited at first, no request has two replies.
pub fn requests_have_one_reply()
    ensures { (opening : DriveState) (requests : Key → Request) (journal : List Item) → IsFitting opening → drive_parked opening ≡ [] → IsLawful journal
        → HaveOneReplyEach (replies_of opening requests journal) }
{}
