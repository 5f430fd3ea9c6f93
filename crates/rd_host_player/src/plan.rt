//! What a script makes a host do.

ghost use Rattle.std.specs.Prelude.{◌≡◌};
ghost use Rattle.rd_host_player.specs.Plan.{acted_by, devices_by, awaited_devices};

use rd_script::{Line, NumberedLine};

/// A line that the calling thread acts itself.
#[derive(Clone, Copy)]
pub enum Control {
    /// The channel ends.
    Drop,
    /// A channel begins.
    Connect,
}

/// For how many devices lines have a host wait once a channel began: for as many as the last of them says that says it.
pub fn awaited_devices(lines: &[NumberedLine]) -> u32
    ensures { result ≡ awaited_devices lines.now }
{
    let mut devices = 1;
    for line in lines {
        devices = devices_by(devices, &line.line);
    }
    devices
}

/// For how many a line says, or for as many as before.
fn devices_by(devices: u32, line: &Line) -> u32
    ensures { result ≡ devices_by devices line.now }
{
    match line {
        Line::Devices { count } => *count,
        _ => devices,
    }
}

/// What a line does that the calling thread acts itself.
pub fn acted_by(line: &Line) -> Option<Control>
    ensures { result ≡ acted_by line.now }
{
    match line {
        Line::Drop => Some(Control::Drop),
        Line::Connect => Some(Control::Connect),
        _ => None,
    }
}
