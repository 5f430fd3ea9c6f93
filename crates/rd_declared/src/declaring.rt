//! The devices that lines declare, with what is on them, and how each is announced.
//!
//! Cost: lines are gone over twice, and a device is found among at most 32. The bytes of a file are copied once, into its drive.

ghost use Rattle.std.specs.Prelude.{◌≡◌, ◌≤◌, ◌^◌, [], fold, length, IfOk, OnOk};
ghost use Rattle.std.specs.Ordering.{nat_cmp};
ghost use Rattle.std.specs.BTreeMap.{insert_entry};
ghost use Rattle.rd_dirinfo.specs.declared.naming.Naming.TheVariants as naming;
ghost use Rattle.rd_declared.specs.Declaring.{AreDeclarable, IsDeclarable, bare_lines, declared_devices, declared_printer, max_device_name};
ghost use Rattle.rd_declared.specs.Devices.{announce_of, declared_drive, declaring, furnishing, holding_at, with_first};
ghost use Rattle.rd_declared.specs.Printers.{max_printer_units};

use crate::device::SessionDevice;
use crate::names::{dos_name, label_of};
use crate::printers::PrinterNames;
use rd_base::Bytes;
use rd_devices::Announce;
use rd_dirinfo::{Naming, Path};
use rd_drive::MemoryDrive;
use rd_printer::{Cache, Printer};
use rd_script::{BoxedUnits, Line, NumberedLine, ShortName};
use std::alloc::{AllocError, Global};
use std::collections::BTreeMap;
use std::marker::Model;

/// The type of a printer (MS-RDPEFS 2.2.1.3).
const PRINT: u32 = 4;

/// The type of a file system.
const FILE_SYSTEM: u32 = 8;

/// A device as lines declare it, with what is on it.
#[derive(Drop)]
pub struct DeclaredDevice {
    id: u32,
    state: SessionDevice,
    kind: u32,
    name: ShortName,
    printer: Option<PrinterNames>,
}

impl Model for DeclaredDevice {
    ghost use Rattle.rd_declared.specs.Devices.{Declared};

    ghost Value = { Declared };

    ghost view = { λ d. record { id = d.id; state = d.state; kind = d.kind; name = d.name; printer = d.printer } };
}

/// The devices that lines declare: all declarations come first, and then what is on the drives.
pub fn declared_devices(
    alloc: Global,
    lines: &[NumberedLine],
) -> Result<BTreeMap<u32, DeclaredDevice>, AllocError>
    requires { AreDeclarable lines.now }
    ensures { IfOk result (λ devices. devices.entries ≡ declared_devices (bare_lines lines.now)) }
{
    let mut devices = declare_all(alloc, lines)?;
    furnish_all(alloc, &mut devices, lines)?;
    Ok(devices)
}

/// The devices that lines declare, with nothing on them.
fn declare_all(
    alloc: Global,
    lines: &[NumberedLine],
) -> Result<BTreeMap<u32, DeclaredDevice>, AllocError>
    requires { AreDeclarable lines.now }
    ensures { IfOk result (λ devices. devices.entries ≡ fold declaring [] (bare_lines lines.now)) }
{
    let mut devices = BTreeMap::new(alloc);
    for line in lines {
        declare(alloc, &mut devices, &line.line)?;
    }
    Ok(devices)
}

/// With what lines make on them.
fn furnish_all(
    alloc: Global,
    devices: &mut BTreeMap<u32, DeclaredDevice>,
    lines: &[NumberedLine],
) -> Result<(), AllocError>
    requires { AreDeclarable lines.now }
    ensures { OnOk result (devices.new.entries ≡ fold furnishing devices.old.entries (bare_lines lines.now)) }
{
    for line in lines {
        furnish(alloc, devices, &line.line)?;
    }
    Ok(())
}

/// With the device that a line declares, if it declares one.
#[tactic(auto, unfolding(crate::specs::Declaring::IsDeclarable, crate::specs::Devices::declaring))]
fn declare(
    alloc: Global,
    devices: &mut BTreeMap<u32, DeclaredDevice>,
    line: &Line,
) -> Result<(), AllocError>
    requires { IsDeclarable line.now }
    ensures { OnOk result (devices.new.entries ≡ declaring devices.old.entries line.now) }
{
    match line {
        Line::Drive { device, name } => add_drive(alloc, devices, *device, name, Naming::Exact),
        Line::DriveFold { device, name } => add_drive(
            alloc,
            devices,
            *device,
            name,
            Naming::Folded,
        ),
        Line::Printer {
            device,
            name,
            driver,
            printer,
        } => add_printer(alloc, devices, *device, name, driver, printer),
        _ => Ok(()),
    }
}

/// With an empty drive, whose name is its volume label too.
fn add_drive(
    alloc: Global,
    devices: &mut BTreeMap<u32, DeclaredDevice>,
    id: u32,
    name: &ShortName,
    naming: Naming,
) -> Result<(), AllocError>
    requires { length name.now ≤ max_device_name }
    ensures { OnOk result (devices.new.entries ≡ insert_entry nat_cmp devices.old.entries id (declared_drive id naming name.now)) }
{
    let drive = MemoryDrive::new(alloc, label_of(alloc, name)?, naming)?;
    let declared = DeclaredDevice {
        id,
        state: SessionDevice::Drive(drive),
        kind: FILE_SYSTEM,
        name: ShortName::of(name.as_slice()),
        printer: None,
    };
    devices.insert(id, declared)?;
    Ok(())
}

/// With a printer.
fn add_printer(
    alloc: Global,
    devices: &mut BTreeMap<u32, DeclaredDevice>,
    id: u32,
    name: &ShortName,
    driver: &BoxedUnits,
    printer: &BoxedUnits,
) -> Result<(), AllocError>
    requires name { length name.now ≤ max_device_name }
    requires driver { length driver.now ≤ max_printer_units }
    requires printer { length printer.now ≤ max_printer_units }
    ensures { OnOk result (devices.new.entries ≡ insert_entry nat_cmp devices.old.entries id (declared_printer id name.now driver.now printer.now)) }
{
    let names = PrinterNames::new(driver.copy()?, printer.copy()?);
    let declared = DeclaredDevice {
        id,
        state: SessionDevice::Printer(Printer::new(alloc)),
        kind: PRINT,
        name: ShortName::of(name.as_slice()),
        printer: Some(names),
    };
    devices.insert(id, declared)?;
    Ok(())
}

/// With the folder or the file that a line makes, if it makes one.
#[tactic(auto, unfolding(crate::specs::Declaring::IsDeclarable, crate::specs::Devices::furnishing))]
fn furnish(
    alloc: Global,
    devices: &mut BTreeMap<u32, DeclaredDevice>,
    line: &Line,
) -> Result<(), AllocError>
    requires { IsDeclarable line.now }
    ensures { OnOk result (devices.new.entries ≡ furnishing devices.old.entries line.now) }
{
    match line {
        Line::Folder { device, path } => add_folder(devices, *device, path),
        Line::File {
            device,
            path,
            bytes,
        } => add_file(devices, *device, path, bytes),
        Line::Fill {
            device,
            path,
            length,
            byte,
        } => {
            let bytes = Bytes::of(vec![in alloc; *byte; *length as usize]?);
            add_file(devices, *device, path, &bytes)
        }
        _ => Ok(()),
    }
}

/// With a folder on a device. What isn't a drive of these has none.
fn add_folder(
    devices: &mut BTreeMap<u32, DeclaredDevice>,
    id: u32,
    path: &Path,
) -> Result<(), AllocError>
    ensures { OnOk result (devices.new.entries ≡ holding_at devices.old.entries id (path.now, None)) }
{
    match devices.get_mut(&id) {
        Some(device) => device.add_folder(path),
        None => Ok(()),
    }
}

/// The same with a file.
fn add_file(
    devices: &mut BTreeMap<u32, DeclaredDevice>,
    id: u32,
    path: &Path,
    bytes: &Bytes,
) -> Result<(), AllocError>
    requires { length bytes.now ≤ 2 ^ 40 }
    ensures { OnOk result (devices.new.entries ≡ holding_at devices.old.entries id (path.now, Some bytes.now)) }
{
    match devices.get_mut(&id) {
        Some(device) => device.add_file(path, bytes),
        None => Ok(()),
    }
}

impl DeclaredDevice {
    /// With a folder, where it is a drive. That its place is free was tested where the script was read, so a refusal is taken for want of memory.
    fn add_folder(&mut self, path: &Path) -> Result<(), AllocError>
        ensures { OnOk result (self.new ≡ with_first (path.now, None) self.old) }
    {
        if let SessionDevice::Drive(drive) = &mut self.state {
            if drive.add_folder(path).is_err() {
                return Err(AllocError);
            }
        }
        Ok(())
    }

    /// The same with a file.
    fn add_file(&mut self, path: &Path, bytes: &Bytes) -> Result<(), AllocError>
        requires { length bytes.now ≤ 2 ^ 40 }
        ensures { OnOk result (self.new ≡ with_first (path.now, Some bytes.now) self.old) }
    {
        if let SessionDevice::Drive(drive) = &mut self.state {
            if drive.add_file(path, bytes).is_err() {
                return Err(AllocError);
            }
        }
        Ok(())
    }
}

impl DeclaredDevice {
    /// How it is announced while nothing is kept for its printer.
    pub fn announce(&self, alloc: Global) -> Result<Announce, AllocError>
        requires { length self.now.name ≤ max_device_name }
        ensures { IfOk result (λ a. a ≡ announce_of [] self.now) }
    {
        let body = match &self.printer {
            Some(names) => names.data(alloc, &Cache::new(alloc))?,
            None => Bytes::of(Vec::new(alloc)),
        };
        Ok(Announce {
            kind: self.kind,
            id: self.id,
            dos: dos_name(&self.name),
            body,
        })
    }

    /// What it is, and the names of a printer.
    pub fn into_parts(self) -> (SessionDevice, Option<PrinterNames>)
        ensures state { result.0 ≡ self.state }
        ensures printer { result.1 ≡ self.printer }
    {
        let DeclaredDevice { state, printer, .. } = self;
        (state, printer)
    }
}
