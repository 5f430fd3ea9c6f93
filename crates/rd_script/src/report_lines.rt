//! Which lines an application issues, and which devices a script declares.

ghost use Rattle.std.specs.Prelude.{◌≡◌, ◌++◌, IfOk, OnOk};
ghost use Rattle.rd_script.specs.ReportLines.{issued, kind_for, kinds_of, declared_by, devices_on_line, devices_of};

use crate::line::{Line, NumberedLine};
use rd_irp::Kind;
use std::alloc::{AllocError, Global};

/// The application that issues a line, and the layout of its completion; of any other line none.
fn issued(line: &Line) -> Option<(u32, Kind)>
    ensures { result ≡ issued line.now }
{
    match line {
        Line::Open { application, .. } | Line::Create { application, .. } => {
            Some((*application, Kind::Create))
        }
        Line::Close { application, .. } => Some((*application, Kind::Close)),
        Line::Write { application, .. }
        | Line::Set { application, .. }
        | Line::SetVolume { application, .. } => Some((*application, Kind::Count)),
        Line::Lock { application, .. } => Some((*application, Kind::Lock)),
        Line::Read { application, .. }
        | Line::Query { application, .. }
        | Line::Volume { application, .. }
        | Line::Dir { application, .. }
        | Line::Control { application, .. }
        | Line::Notify { application, .. } => Some((*application, Kind::Buffer)),
        _ => None,
    }
}

fn kind_for(application: u32, line: &NumberedLine) -> Option<Kind>
    ensures { result ≡ kind_for application (issued line.now.line) }
{
    match issued(&line.line) {
        Some((other, kind)) if other == application => Some(kind),
        _ => None,
    }
}

/// The completions of an application's lines, in order.
pub fn kinds_of(
    alloc: Global,
    application: u32,
    lines: &[NumberedLine],
) -> Result<Vec<Kind>, AllocError>
    ensures { IfOk result (λ kinds. kinds.items ≡ kinds_of application lines.now) }
{
    lines
        .iter()
        .filter_map(|line| kind_for(application, line))
        .collect(alloc)
}

#[tactic(auto, unfolding(crate::specs::ReportLines::declared_by))]
fn declared_by(line: &NumberedLine) -> Option<u32>
    ensures { result ≡ declared_by line.now.line }
{
    match &line.line {
        Line::Drive { device, .. }
        | Line::DriveFold { device, .. }
        | Line::Real { device, .. }
        | Line::Printer { device, .. } => Some(*device),
        _ => None,
    }
}

/// Adds the device that a line declares, if it does.
fn push_device(devices: &mut Vec<u32>, line: &NumberedLine) -> Result<(), AllocError>
    ensures { OnOk result (devices.new.items ≡ devices.old.items ++ devices_on_line line.now) }
{
    match declared_by(line) {
        Some(device) => Ok(devices.push(device)?),
        None => Ok(()),
    }
}

/// The devices of a script, in the order of its lines.
pub fn devices_of(alloc: Global, lines: &[NumberedLine]) -> Result<Vec<u32>, AllocError>
    ensures { IfOk result (λ devices. devices.items ≡ devices_of lines.now) }
{
    let mut devices = Vec::new(alloc);
    for line in lines {
        push_device(&mut devices, line)?;
    }
    Ok(devices)
}
