//! How a channel begins, and what the host is told of devices.

ghost use Rattle.std.specs.Prelude.{◌≡◌, ◌<◌, length, slice_get, IfSome, Ok};
ghost use Rattle.rd_client.specs.Core.{MayTellAdded, MayTellRemoved, tells_added, tells_removed};
ghost use Rattle.rd_front.specs.Front.{FrontAdds, AddsBy, FrontBegins, ClientDoes, Each, FrontStep, Refreshes, RefreshesOne, FrontRemoves, RemovesBy, may_add, may_begin, one_if_done};
ghost use Rattle.rd_front.specs.declared.calls.FrontCall.TheVariants as Call;

use crate::calls::FrontReply;
use crate::front::Front;
use rd_desk::DeskCall;
use rd_folder::Folder;
use std::alloc::AllocError;
use std::sync::Wait;

impl<'a, T: Wait, F: Folder + Drop> Front<'a, T, F> {
    /// A channel of this number begins, where it may.
    pub(crate) fn begin(&mut self, channel: u32) -> FrontReply
        ensures { FrontStep self.old (Call.Begin channel) result self.new }
    {
        if !self.may_begin(channel) {
            return FrontReply::Refused;
        }
        self.begin_channel(channel)
    }

    /// Whether a channel of this number may begin.
    fn may_begin(&self, channel: u32) -> bool
        ensures { result ≡ may_begin self.now channel }
    {
        !self.on && !self.over && self.channel < channel
    }

    /// The printers get their data, and a channel begins.
    fn begin_channel(&mut self, channel: u32) -> FrontReply
        ensures { FrontBegins self.old channel result self.new }
    {
        if !self.refresh_all() {
            return FrontReply::Memory;
        }
        self.client.begin(channel);
        self.channel = channel;
        self.on = true;
        self.unsent = 0;
        self.done(None)
    }

    /// The data of each printer's announcement is that of what is kept for it now. False where no memory is found for one.
    fn refresh_all(&mut self) -> bool
        ensures { Each RefreshesOne self.old.printers self.old result self.new }
    {
        for place in 0..self.printers.len() {
            if !self.refresh_at(place) {
                return false;
            }
        }
        true
    }

    /// The same of the printer at a place.
    fn refresh_at(&mut self, place: usize) -> bool
        requires { place < length self.old.printers }
        ensures refreshed { IfSome (slice_get self.old.printers place) (λ p. RefreshesOne p self.old result self.new) }
        ensures printers { self.new.printers ≡ self.old.printers }
    {
        let device = self.printers.id_at(place);
        self.refresh(device)
    }

    /// The data of a printer's announcement is that of what is kept for it now. False where no memory is found for it.
    fn refresh(&mut self, device: u32) -> bool
        ensures { Refreshes self.old device result self.new }
    {
        match self.printers.data(self.alloc, device, &self.cache) {
            Ok(Some(data)) => {
                self.client.refresh(device, data);
                true
            }
            Ok(None) => true,
            Err(_) => false,
        }
    }

    /// The host is told that a device is gone, where it may be.
    pub(crate) fn remove(&mut self, device: u32) -> FrontReply
        ensures { FrontStep self.old (Call.Remove device) result self.new }
    {
        if !self.on || !self.is_told(device) {
            return FrontReply::Refused;
        }
        if self.is_full() {
            return FrontReply::Full;
        }
        self.remove_device(device)
    }

    /// The host is told that a device is gone, which is cut off at its desk.
    fn remove_device(&mut self, device: u32) -> FrontReply
        requires may { MayTellRemoved self.old.client device }
        requires few { self.old.unsent < 1024 }
        ensures { FrontRemoves self.old device result self.new }
    {
        match self.tell_removed(device) {
            Ok(()) => self.cut(device),
            Err(_) => FrontReply::Memory,
        }
    }

    /// The host is told that a device is gone.
    fn tell_removed(&mut self, device: u32) -> Result<(), AllocError>
        requires may { MayTellRemoved self.old.client device }
        requires few { self.old.unsent < 1024 }
        ensures { ClientDoes self.old (tells_removed device result) (one_if_done result) self.new }
    {
        self.client.tell_removed(device)?;
        self.unsent += 1;
        Ok(())
    }

    /// A device is cut off at its desk, if it has one.
    fn cut(&mut self, device: u32) -> FrontReply
        ensures { RemovesBy self.old device (Ok tt) result self.new }
    {
        let at = self.place_of(device);
        if let Some(place) = at {
            self.call_desk(place, DeskCall::Remove);
        }
        self.done(at)
    }

    /// The host is told that a device is there again, where it may be.
    pub(crate) fn add(&mut self, device: u32) -> FrontReply
        ensures { FrontStep self.old (Call.Add device) result self.new }
    {
        if !self.may_add(device) {
            return FrontReply::Refused;
        }
        if self.is_full() {
            return FrontReply::Full;
        }
        self.add_device(device)
    }

    /// Whether the host may be told that a device is there again.
    fn may_add(&self, device: u32) -> bool
        ensures { result ≡ may_add self.now device }
    {
        self.on && self.client.ready() && self.client.is_gone(device)
    }

    /// The host is told that a device is there again, with the data of a printer as it is kept now.
    fn add_device(&mut self, device: u32) -> FrontReply
        requires may { MayTellAdded self.old.client device }
        requires few { self.old.unsent < 1024 }
        ensures { FrontAdds self.old device result self.new }
    {
        if !self.refresh(device) {
            return FrontReply::Memory;
        }
        match self.tell_added(device) {
            Ok(()) => self.announce_added(device),
            Err(_) => FrontReply::Memory,
        }
    }

    /// The host is told that a device is there again.
    fn tell_added(&mut self, device: u32) -> Result<(), AllocError>
        requires may { MayTellAdded self.old.client device }
        requires few { self.old.unsent < 1024 }
        ensures { ClientDoes self.old (tells_added device result) (one_if_done result) self.new }
    {
        self.client.tell_added(device)?;
        self.unsent += 1;
        Ok(())
    }

    /// A device that the host was told of is announced to its desk.
    fn announce_added(&mut self, device: u32) -> FrontReply
        ensures { AddsBy self.old device (Ok tt) result self.new }
    {
        if !self.announce(device) {
            return FrontReply::Memory;
        }
        self.done(None)
    }
}
