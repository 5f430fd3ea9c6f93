//! What is left when a drive is cut off.

ghost use Rattle.std.specs.Prelude.{◌≡◌, ◌<◌, [], None, length};
ghost use Rattle.rd_folder_drive.specs.Cutting.{ClosesEach, ClosesFirst, Cuts};
ghost use Rattle.rd_folder_drive.specs.Served.{seen, IsOver};
ghost use Rattle.rd_folder_drive.specs.Settling.{IsBeside};
ghost use Rattle.rd_folder_drive.specs.Table.{IsSound};

use crate::table::Table;
use rd_folder::Folder;

impl Table {
    /// Cancels the requests that wait, and closes every handle, in order of file id. It takes no memory.
    pub fn cut<F: Folder>(&mut self, folder: &mut F)
        requires sound { IsSound self.old }
        requires over { IsOver self.old (seen F.nodes F.faults folder.old) }
        ensures sound { IsSound self.new }
        ensures over { IsOver self.new (seen F.nodes F.faults folder.new) }
        ensures untold { F.nodes folder.old ≡ None → F.nodes folder.new ≡ None }
        ensures none { self.new.waiting.items ≡ [] }
        ensures shut { self.new.handles.entries ≡ [] }
        ensures cuts { Cuts self.old (seen F.nodes F.faults folder.old) self.new (seen F.nodes F.faults folder.new) }
    {
        self.cancel_all();
        self.close_all(folder);
    }

    /// Cancels the requests that wait. Who cancels them answers them.
    fn cancel_all(&mut self)
        requires sound { IsSound self.old }
        ensures sound { IsSound self.new }
        ensures others { IsBeside self.old self.new }
        ensures locks { self.new.locks ≡ record self.old.locks { reserved = 0 } }
        ensures none { self.new.waiting.items ≡ [] }
    {
        self.locks.give_back_all();
        self.waiting.clear();
    }

    /// Closes every handle, where no request waits.
    fn close_all<F: Folder>(&mut self, folder: &mut F)
        requires sound { IsSound self.old }
        requires over { IsOver self.old (seen F.nodes F.faults folder.old) }
        requires none { self.old.waiting.items ≡ [] }
        ensures sound { IsSound self.new }
        ensures over { IsOver self.new (seen F.nodes F.faults folder.new) }
        ensures untold { F.nodes folder.old ≡ None → F.nodes folder.new ≡ None }
        ensures none { self.new.waiting.items ≡ [] }
        ensures shut { self.new.handles.entries ≡ [] }
        ensures closes { ClosesEach self.old (seen F.nodes F.faults folder.old) self.new (seen F.nodes F.faults folder.new) }
    {
        while !self.handles.is_empty() {
            self.close_first(folder);
        }
    }

    /// Closes the handle with the lowest file id, where no request waits.
    fn close_first<F: Folder>(&mut self, folder: &mut F)
        requires sound { IsSound self.old }
        requires over { IsOver self.old (seen F.nodes F.faults folder.old) }
        requires none { self.old.waiting.items ≡ [] }
        requires some { 0 < length self.old.handles.entries }
        ensures sound { IsSound self.new }
        ensures over { IsOver self.new (seen F.nodes F.faults folder.new) }
        ensures untold { F.nodes folder.old ≡ None → F.nodes folder.new ≡ None }
        ensures none { self.new.waiting.items ≡ [] }
        ensures closes { ClosesFirst self.old (seen F.nodes F.faults folder.old) self.new (seen F.nodes F.faults folder.new) }
    {
        if let Some((file, _)) = self.handles.first_key_value() {
            let file = *file;
            let _ = self.close(folder, file);
        }
    }
}
