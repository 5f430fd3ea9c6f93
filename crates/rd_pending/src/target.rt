//! What a request names, and whether it may be submitted.

ghost use Rattle.std.specs.Prelude.{◌≡◌, ◌↔◌, IsTrue};
ghost use Rattle.rd_irp.specs.Fits.{opens};
ghost use Rattle.rd_pending.specs.Table.{device_in, file_in, names_device, stale, MaySubmit};

use crate::calls::{SubmitNo, Target};
use rd_irp::{Op, fits};

/// Whether a request may be submitted: its operation can be written, and it opens a file exactly where it names a device. It takes no
/// memory.
pub fn may_submit(target: Target, op: &Op) -> bool
    ensures { IsTrue result ↔ MaySubmit target op.now }
{
    fits(op) && opens(op) == names_device(target)
}

/// Whether an operation opens a file.
fn opens(op: &Op) -> bool
    ensures { result ≡ opens op.now }
{
    matches!(op, Op::Create { .. })
}

fn names_device(target: Target) -> bool
    ensures { result ≡ names_device target }
{
    matches!(target, Target::Device(_))
}

/// The device that a request names.
pub fn device_in(target: Target) -> u32
    ensures { result ≡ device_in target }
{
    match target {
        Target::Device(device) => device,
        Target::Handle(handle) => handle.device,
    }
}

/// The file that a request names; of one that opens a file it means nothing.
pub fn file_in(target: Target) -> u32
    ensures { result ≡ file_in target }
{
    match target {
        Target::Device(_) => 0,
        Target::Handle(handle) => handle.file,
    }
}

/// Why a handle isn't of the device's life, if it isn't.
pub fn stale(target: Target, now: u64) -> Option<SubmitNo>
    ensures { result ≡ stale target now }
{
    match target {
        Target::Handle(handle) if handle.life != now => Some(SubmitNo::StaleHandle {
            then: handle.life,
            now,
        }),
        Target::Device(_) | Target::Handle(_) => None,
    }
}
