//! A device's name, as a volume label and as it is announced.

ghost use Rattle.std.specs.Prelude.{◌≡◌, ◌≤◌, length, IfOk};
ghost use Rattle.rd_declared.specs.Declaring.{max_device_name};
ghost use Rattle.rd_declared.specs.Devices.{dos_name};

use rd_base::Units;
use rd_script::ShortName;
use std::alloc::{AllocError, Global};

/// The bytes of a name as units.
pub fn label_of(alloc: Global, name: &ShortName) -> Result<Units, AllocError>
    ensures { IfOk result (λ label. label ≡ name.now) }
{
    let mut label = Vec::with_capacity(alloc, name.as_slice().len())?;
    for byte in name.as_slice() {
        label.push(u16::from(*byte))?;
    }
    Ok(Units::of(label))
}

/// A name, filled with zeros to eight bytes.
pub fn dos_name(name: &ShortName) -> [u8; 8]
    requires { length name.now ≤ max_device_name }
    ensures { result ≡ dos_name name.now }
{
    let name = name.as_slice();
    let mut dos = [0; 8];
    for i in 0..name.len() {
        dos[i] = name[i];
    }
    dos
}
