//! Drives over folders, as the lines of a script declare them.

ghost use Rattle.std.specs.Prelude.{◌≡◌, ◌≤◌, [], length, IfErr, IfOk, OnOk};
ghost use Rattle.std.specs.List.{AllByRecursion};
ghost use Rattle.std.specs.BTreeMap.{insert_entry};
ghost use Rattle.std.specs.Ordering.{nat_cmp};
ghost use Rattle.rd_client.specs.Events.{IsWritableDevice};
ghost use Rattle.rd_dirinfo.specs.declared.naming.Naming.TheVariants as naming;
ghost use Rattle.rd_sharing.specs.FolderLines.{IsFolderDevice, declaring_folder, folder_devices};
ghost use Rattle.rd_sharing.specs.Refused.{IsFolderNo, OnFolderNo};
ghost use Rattle.rd_sharing.specs.ServedOpening.{OpensOne};
ghost use Rattle.rd_declared.specs.Devices.{announce_of, declared_drive, dos_name};
ghost use Rattle.rd_declared.specs.Declaring.{bare_lines, max_device_name};

use crate::opening_no::OpeningNo;
use rd_base::Bytes;
use rd_declared::{dos_name, label_of};
use rd_devices::Announce;
use rd_folder::Folders;
use rd_folder_drive::FolderDrive;
use rd_script::{Line, NumberedLine, ShortName};
use std::alloc::{AllocError, Global};
use std::collections::BTreeMap;
use std::marker::Model;

/// The most bytes of a device's name.
const MOST_NAME: usize = 7;

/// The type of a file system (MS-RDPEFS 2.2.1.3).
const FILE_SYSTEM: u32 = 8;

/// A drive over a folder, as a line declares it: its id, its name, and the place of its folder. Contracts see the drive in memory as which it is announced.
#[derive(Drop)]
pub struct RealDrive {
    id: u32,
    name: ShortName,
    place: Bytes,
}

impl Model for RealDrive {
    ghost use Rattle.std.specs.Prelude.{◌<◌, ◌≤◌, ◌^◌, length};
    ghost use Rattle.rd_dirinfo.specs.declared.naming.Naming.TheVariants as naming;
    ghost use Rattle.rd_declared.specs.Devices.{Declared, declared_drive};
    ghost use Rattle.rd_declared.specs.Declaring.{max_device_name};

    ghost Value = { Declared };

    ghost view = { λ d. declared_drive d.id naming.Exact d.name };

    ghost invariant = { λ d. (d.id < 2 ^ 32) × (length d.name ≤ max_device_name) };
}

/// The drives over folders that lines declare, by their ids. A name that is longer than a device's, which the grammar of scripts doesn't let pass, is taken
/// for want of memory.
pub fn real_drives(
    alloc: Global,
    lines: &[NumberedLine],
) -> Result<BTreeMap<u32, RealDrive>, AllocError>
    ensures declared { IfOk result (λ drives. drives.entries ≡ folder_devices (bare_lines lines.now)) }
    ensures are { IfOk result (λ drives. AllByRecursion IsFolderDevice drives.entries) }
{
    let mut drives = BTreeMap::new(alloc);
    for line in lines {
        declare(&mut drives, &line.line)?;
    }
    Ok(drives)
}

/// With the drive that a line declares, if it declares one.
#[tactic(auto, unfolding(crate::specs::FolderLines::declaring_folder))]
fn declare(drives: &mut BTreeMap<u32, RealDrive>, line: &Line) -> Result<(), AllocError>
    requires { AllByRecursion IsFolderDevice drives.old.entries }
    ensures declared { OnOk result (drives.new.entries ≡ declaring_folder drives.old.entries line.now) }
    ensures are { OnOk result (AllByRecursion IsFolderDevice drives.new.entries) }
{
    match line {
        Line::Real {
            device,
            name,
            place,
        } => add_real(drives, *device, name, place),
        _ => Ok(()),
    }
}

/// With this drive.
fn add_real(
    drives: &mut BTreeMap<u32, RealDrive>,
    id: u32,
    name: &ShortName,
    place: &Bytes,
) -> Result<(), AllocError>
    requires { AllByRecursion IsFolderDevice drives.old.entries }
    ensures declared { OnOk result (drives.new.entries ≡ insert_entry nat_cmp drives.old.entries id (declared_drive id naming.Exact name.now)) }
    ensures are { OnOk result (AllByRecursion IsFolderDevice drives.new.entries) }
{
    let drive = RealDrive::new(id, name, place)?;
    drives.insert(id, drive)?;
    Ok(())
}

impl RealDrive {
    fn new(id: u32, name: &ShortName, place: &Bytes) -> Result<Self, AllocError>
        ensures made { IfOk result (λ drive. drive ≡ declared_drive id naming.Exact name.now) }
        ensures short { IfOk result (λ _. length name.now ≤ max_device_name) }
    {
        let name = name.as_slice();
        if name.len() > MOST_NAME {
            return Err(AllocError);
        }
        let place = place.copy()?;
        Ok(RealDrive {
            id,
            name: ShortName::of(name),
            place,
        })
    }

    /// How it is announced.
    pub fn announce(&self, alloc: Global) -> Announce
        ensures announced { result ≡ announce_of [] self.now }
        ensures writable { IsWritableDevice result }
    {
        Announce {
            kind: FILE_SYSTEM,
            id: self.id,
            dos: dos_name(&self.name),
            body: Bytes::of(Vec::new(alloc)),
        }
    }

    /// Opens its folder, and makes a drive over it with its name as the volume label. A place that isn't UTF-8, which the grammar of scripts doesn't let pass, is
    /// taken for want of memory.
    pub fn open<D: Folders>(
        &self,
        alloc: Global,
        folders: &mut D,
    ) -> Result<FolderDrive<D::F>, OpeningNo>
        ensures opened { IfOk result (λ drive. OpensOne self.now.name (D.opened folders.old) drive (D.opened folders.new)) }
        ensures failures { IfOk result (λ _. D.failures folders.new ≡ D.failures folders.old) }
        ensures trouble { D.trouble folders.new ≡ D.trouble folders.old }
        ensures refused { IfErr result (IsFolderNo self.now.id (D.failures folders.old) (D.failures folders.new)) }
        ensures unopened { IfErr result (λ no. OnFolderNo no (D.opened folders.new ≡ D.opened folders.old)) }
    {
        let Ok(place) = str::from_utf8(self.place.as_slice()) else {
            return Err(OpeningNo::Memory);
        };
        let label = label_of(alloc, &self.name)?;
        match folders.open(place) {
            Ok(folder) => Ok(FolderDrive::new(alloc, folder, label)?),
            Err(no) => Err(OpeningNo::of(self.id, no)),
        }
    }
}
