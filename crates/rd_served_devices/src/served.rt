//! A device of a client.

ghost use Rattle.std.specs.Prelude.{◌≡◌, []};
ghost use Rattle.std.specs.Option.{option_map};
ghost use Rattle.rd_drive.specs.Promise.{Applies, CutsOff};
ghost use Rattle.rd_served_devices.specs.ServedDevices as state;
ghost use Rattle.rd_served_devices.specs.ServedDevices.{faults_of, served_cuts, served_parked, served_runs, served_state};

use rd_declared::SessionDevice;
use rd_drive::{Device, Ends, Plan, Step};
use rd_folder::Folder;
use rd_folder_drive::FolderDrive;
use std::marker::Model;

/// What a device is.
#[derive(Drop)]
enum Which<F: Folder + Drop> {
    /// A script makes it up.
    Made(SessionDevice),
    /// It is a drive over a folder.
    Over(FolderDrive<F>),
}

impl<F: Folder + Drop> Which<F> {
    fn apply(&mut self, plan: Plan, moment: u64, ends: &mut Ends) -> Step
        requires { ends.old ≡ [] }
        ensures { Applies served_runs served_parked (served_state self.old) plan moment result ends.new (served_state self.new) }
    {
        match self {
            Which::Made(device) => device.apply(plan, moment, ends),
            Which::Over(drive) => drive.apply(plan, moment, ends),
        }
    }

    fn cut(&mut self)
        ensures { CutsOff served_cuts served_parked (served_state self.old) (served_state self.new) }
    {
        match self {
            Which::Made(device) => device.cut(),
            Which::Over(drive) => drive.cut(),
        }
    }
}

/// A device of a client: a drive in memory, a printer, or a drive over a folder. Contracts see a `ServedDeviceState`.
#[derive(Drop)]
pub struct ServedDevice<F: Folder + Drop> {
    which: Which<F>,
}

impl<F: Folder + Drop> Model for ServedDevice<F> {
    ghost use Rattle.rd_served_devices.specs.ServedDevices.{ServedDeviceState, served_state};

    ghost Value = { ServedDeviceState };

    ghost view = { λ d. served_state d.which };
}

impl<F: Folder + Drop> ServedDevice<F> {
    /// One that a script makes up.
    pub fn made(device: SessionDevice) -> Self
        ensures { result ≡ state.made device }
    {
        ServedDevice {
            which: Which::Made(device),
        }
    }

    /// A drive over a folder.
    pub fn over(drive: FolderDrive<F>) -> Self
        ensures { result ≡ state.over drive }
    {
        ServedDevice {
            which: Which::Over(drive),
        }
    }

    /// The folder, where it is a drive over one, to be closed.
    pub fn into_folder(self) -> Option<F>
        ensures { option_map F.faults result ≡ faults_of self }
    {
        let ServedDevice { which } = self;
        match which {
            Which::Made(_) => None,
            Which::Over(drive) => Some(drive.finish()),
        }
    }
}

impl<F: Folder + Drop> Device for ServedDevice<F> {
    ghost runs = { served_runs };

    ghost parked = { served_parked };

    ghost cuts = { served_cuts };

    fn apply(&mut self, plan: Plan, moment: u64, ends: &mut Ends) -> Step {
        self.which.apply(plan, moment, ends)
    }

    fn cut(&mut self) {
        self.which.cut();
    }
}
