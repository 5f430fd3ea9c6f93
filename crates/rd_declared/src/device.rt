//! A device of a session.

ghost use Rattle.rd_declared.specs.Devices.{device_cuts, device_parked, device_runs};

use rd_drive::{Device, Ends, MemoryDrive, Plan, Step};
use rd_printer::Printer;

/// A device of a session: what it does is what the drive or the printer does that it is.
#[derive(Drop)]
pub enum SessionDevice {
    Drive(MemoryDrive),
    Printer(Printer),
}

impl Device for SessionDevice {
    ghost runs = { device_runs };

    ghost parked = { device_parked };

    ghost cuts = { device_cuts };

    fn apply(&mut self, plan: Plan, moment: u64, ends: &mut Ends) -> Step {
        match self {
            SessionDevice::Drive(drive) => drive.apply(plan, moment, ends),
            SessionDevice::Printer(printer) => printer.apply(plan, moment, ends),
        }
    }

    fn cut(&mut self) {
        match self {
            SessionDevice::Drive(drive) => drive.cut(),
            SessionDevice::Printer(printer) => printer.cut(),
        }
    }
}
