//! What is left when a drive is cut off.

ghost use Rattle.std.specs.Prelude.{◌≡◌, ◌<◌, [], fold, length};
ghost use Rattle.std.specs.Map.{keys_of};
ghost use Rattle.rd_drive.specs.Cutting.{ClosesFirst};
ghost use Rattle.rd_drive.specs.DriveStep.{drive_cut, with_closed};
ghost use Rattle.rd_drive.specs.Store.{drive_of, IsSound};

use crate::store::Store;

impl Store {
    /// Cancels the requests that wait, and closes every handle, in order of file id. It takes no memory.
    pub fn cut(&mut self)
        requires sound { IsSound self.old }
        ensures sound { IsSound self.new }
        ensures cut { (drive_cut (drive_of self.old)).state ≡ drive_of self.new }
        ensures none { self.new.waiting.items ≡ [] }
    {
        self.cancel_all();
        self.close_all();
    }

    /// Cancels the requests that wait. Who cancels them answers them.
    fn cancel_all(&mut self)
        requires sound { IsSound self.old }
        ensures sound { IsSound self.new }
        ensures cancelled { drive_of self.new ≡ record (drive_of self.old) { waiting = [] } }
        ensures none { self.new.waiting.items ≡ [] }
    {
        self.locks.give_back_all();
        self.waiting.clear();
    }

    /// Closes every handle, where no request waits.
    fn close_all(&mut self)
        requires sound { IsSound self.old }
        requires none { self.old.waiting.items ≡ [] }
        ensures sound { IsSound self.new }
        ensures closed { fold with_closed (drive_of self.old) (keys_of (drive_of self.old).handles) ≡ drive_of self.new }
        ensures none { self.new.waiting.items ≡ [] }
    {
        while !self.handles.is_empty() {
            self.close_first();
        }
    }

    /// Closes the handle with the lowest file id, where no request waits.
    fn close_first(&mut self)
        requires sound { IsSound self.old }
        requires none { self.old.waiting.items ≡ [] }
        requires some { 0 < length self.old.handles.entries }
        ensures sound { IsSound self.new }
        ensures closed { ClosesFirst (drive_of self.old) (drive_of self.new) }
        ensures none { self.new.waiting.items ≡ [] }
    {
        if let Some((file, _)) = self.handles.first_key_value() {
            let file = *file;
            let _ = self.close(file);
        }
    }
}
