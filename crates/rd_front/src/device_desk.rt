//! The desk of a device, with the pass by which the front calls it.

ghost use Rattle.std.specs.Prelude.{◌≡◌};
ghost use Rattle.rd_turn.specs.Pass.{Belongs};
ghost use Rattle.rd_front.specs.State.{IsCalled};
ghost use Rattle.rd_served_devices.specs.ServedDevices.{IsServedReached};

use rd_desk::{Desk, DeskCall, DeskReply};
use rd_folder::Folder;
use rd_served_devices::ServedDevice;
use rd_turn::{Pass, Turn};
use std::marker::Model;
use std::sync::Wait;

/// A device's id, its desk behind a turn, and the pass that makes the front's calls there. Contracts see a `DeviceDeskState`.
pub struct DeviceDesk<'a, F: Folder + Drop> {
    id: u32,
    turn: &'a Turn<Desk<ServedDevice<F>>>,
    pass: Pass<Desk<ServedDevice<F>>>,
}

impl<'a, F: Folder + Drop> Model for DeviceDesk<'a, F> {
    ghost use Rattle.rd_front.specs.State.{DeviceDeskState, KeepsDesk};

    ghost Value = { DeviceDeskState };

    ghost view = { λ d. record { id = d.id; turn = d.turn.now; pass = d.pass } };

    ghost invariant = { λ d. KeepsDesk d.turn.now d.pass };
}

impl<'a, F: Folder + Drop> DeviceDesk<'a, F> {
    /// The device with this id, at this turn, which the pass belongs to.
    pub fn new(
        id: u32,
        turn: &'a Turn<Desk<ServedDevice<F>>>,
        pass: Pass<Desk<ServedDevice<F>>>,
    ) -> Self
        requires own { Belongs turn.now pass }
        requires reached { IsServedReached turn.now.opening }
        ensures { result ≡ record { id = id; turn = turn.now; pass = pass } }
    {
        DeviceDesk { id, turn, pass }
    }

    /// The device's id.
    pub fn id(&self) -> u32
        ensures { result ≡ self.now.id }
    {
        self.id
    }

    /// Makes a call of the desk.
    pub(crate) fn call<T: Wait>(&mut self, rt: &T, call: DeskCall) -> DeskReply
        ensures { IsCalled self.old call result self.new }
    {
        self.turn.call(rt, &mut self.pass, call)
    }

    /// The pass, so that it can be joined.
    pub fn into_pass(self) -> Pass<Desk<ServedDevice<F>>>
        ensures same { result ≡ self.entry.pass }
        ensures own { Belongs self.entry.turn result }
    {
        let DeviceDesk {
            id: _,
            turn: _,
            pass,
        } = self;
        pass
    }
}

impl<'a, F: Folder + Drop> Drop for DeviceDesk<'a, F> {
    fn drop(self) {
        let Self {
            id: _,
            turn: _,
            pass: _,
        } = self;
    }
}
