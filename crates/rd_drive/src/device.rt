//! What runs requests.

ghost use Rattle.std.specs.Prelude.{◌≡◌, ℕ, [], List};
ghost use Rattle.rd_drive.specs.declared.step.Step.{Step};
ghost use Rattle.rd_drive.specs.declared.step.End.{End};
ghost use Rattle.rd_drive.specs.Planned.{Planned};
ghost use Rattle.rd_drive.specs.Device.{Parked};
ghost use Rattle.rd_drive.specs.Promise.{Applies, CutsOff};

use crate::ends::Ends;
use crate::plan::Plan;
use crate::step::Step;

/// What runs requests: a drive or a printer.
///
/// What it does with one is a relation and no function, since it may find no memory, or stand on what others change.
pub trait Device {
    // Of the device before, the job and whether it is starved, the moment, the answer, the ends of requests that waited, and the device after.
    ghost runs: { Self → Planned → ℕ → Step → List End → Self → Type 0 };

    // The requests that wait in it, in the order in which they began to wait.
    ghost parked: { Self → List Parked };

    // Of the device before it is cut off, and the device after.
    ghost cuts: { Self → Self → Type 0 };

    /// Runs a request at a moment, in units of 100 ns since 1601-01-01 UTC. It is answered by a reply of its layout, or waits after those that
    /// wait already; the ends of those that it ends are put into `ends`, which is empty. Where no memory was found for it, or where the device
    /// finds none, the reply is NO_MEMORY; that to a Close never is.
    fn apply(&mut self, plan: Plan, moment: u64, ends: &mut Ends) -> Step
        requires { ends.old ≡ [] }
        ensures { Applies runs parked self.old plan moment result ends.new self.new };

    /// Cancels the requests that wait, and closes every handle, in order of file id. It takes no memory.
    fn cut(&mut self)
        ensures { CutsOff cuts parked self.old self.new };
}
