//! The devices of a script, opened.

ghost use Rattle.std.specs.Prelude.{◌≡◌, ℕ, List, length, map, All, IfErr, IfOk, OnOk};
ghost use Rattle.std.specs.List.{AllByRecursion, zip};
ghost use Rattle.std.specs.List.Sorted.{IsStrictlySortedBy};
ghost use Rattle.std.specs.Ordering.{nat_cmp};
ghost use Rattle.rd_served_devices.specs.ServedDevices.{IsServedReached};
ghost use Rattle.rd_sharing.specs.Closing.{AreUntroubled, station_devices};
ghost use Rattle.rd_sharing.specs.Devices.{AreSideBySide, KeepsDevices, OpensFolders};
ghost use Rattle.rd_sharing.specs.FolderLines.{IsFolderDevice, folder_devices};
ghost use Rattle.rd_sharing.specs.Refused.{StopsOpening};
ghost use Rattle.rd_sharing.specs.ServedOpening.{AreServedDevices, OpensServed, ServedDeclared, as_made, folders_told};
ghost use Rattle.rd_declared.specs.Declaring.{AreDeclared, bare_lines, declared_devices};

use crate::closing::close_all;
use crate::devices::Devices;
use crate::opening_no::OpeningNo;
use crate::real::{RealDrive, real_drives};
use rd_base::Items;
use rd_declared::Printers;
use rd_devices::DeviceList;
use rd_folder::{Folder, Folders};
use rd_script::NumberedLine;
use rd_served_devices::ServedDevice;
use rd_station::Station;
use rd_world::{Opening, open_devices};
use std::alloc::{AllocError, Global};
use std::collections::BTreeMap;

/// What a client's session begins with.
#[derive(Drop)]
pub struct ServedOpening<F: Folder + Drop> {
    /// The ids of the devices. They rise.
    pub ids: Vec<u32>,
    /// In the same order.
    pub stations: Vec<Station<ServedDevice<F>>>,
    /// As the client announces them on the first channel.
    pub devices: DeviceList,
    pub printers: Printers,
}

/// Opens the devices that lines declare, and the folders of those that are drives over one, in the order of their ids. Where a folder can't be opened, those
/// that were are closed.
pub fn open_served<D: Folders>(
    alloc: Global,
    lines: &[NumberedLine],
    folders: &mut D,
) -> Result<ServedOpening<D::F>, OpeningNo>
    requires { AreDeclared lines.now }
    ensures opened { IfOk result (λ o. (devices : List (ℕ × ServedDeclared)) × AreServedDevices (bare_lines lines.now) (D.opened folders.old) (D.opened folders.new) devices
        × OpensServed devices (zip o.ids.items o.stations.items) o.devices o.printers) }
    ensures same { IfOk result (λ o. length o.stations.items ≡ length o.ids.items) }
    ensures rise { IfOk result (λ o. IsStrictlySortedBy nat_cmp o.ids.items) }
    ensures reached { IfOk result (λ o. All IsServedReached o.stations.items) }
    ensures failures { IfOk result (λ _. D.failures folders.new ≡ D.failures folders.old) }
    ensures trouble { D.trouble folders.new ≡ D.trouble folders.old }
    ensures refused { IfErr result (StopsOpening (folder_devices (bare_lines lines.now)) (folders_told (D.opened folders.old) (D.failures folders.old) (D.trouble folders.old))
        (folders_told (D.opened folders.new) (D.failures folders.new) (D.trouble folders.new))) }
{
    let drives = real_drives(alloc, lines)?;
    let (mut served, printers) = open_made::<D::F>(alloc, lines)?;
    if let Err(no) = open_folders(alloc, drives, folders, &mut served) {
        let Devices { stations, .. } = served;
        close_all(stations, folders);
        return Err(no);
    }
    let Devices {
        ids,
        stations,
        announced,
    } = served;
    Ok(ServedOpening {
        ids,
        stations,
        devices: Items::of(announced),
        printers,
    })
}

/// The devices that lines make up, and the printers among them.
fn open_made<F: Folder + Drop>(
    alloc: Global,
    lines: &[NumberedLine],
) -> Result<(Devices<F>, Printers), AllocError>
    requires { AreDeclared lines.now }
    ensures kept { IfOk result (λ given. KeepsDevices (map as_made (declared_devices (bare_lines lines.now))) given.1 given.0) }
    ensures calm { IfOk result (λ given. AreUntroubled (station_devices given.0.stations.items)) }
{
    let Opening {
        stations,
        devices,
        printers,
    } = open_devices(alloc, lines)?;
    let served = Devices::made(alloc, stations, devices)?;
    Ok((served, printers))
}

/// Opens the folders of drives in the order of their ids, and adds the drives. Where one can't be opened, those before it stay.
fn open_folders<D: Folders>(
    alloc: Global,
    mut drives: BTreeMap<u32, RealDrive>,
    folders: &mut D,
    served: &mut Devices<D::F>,
) -> Result<(), OpeningNo>
    requires are { AllByRecursion IsFolderDevice drives.entries }
    requires same { AreSideBySide served.old }
    requires calm { AreUntroubled (station_devices served.old.stations.items) }
    ensures opened { OnOk result (OpensFolders drives.entries (D.opened folders.old) (D.opened folders.new) served.old served.new) }
    ensures calm { AreUntroubled (station_devices served.new.stations.items) }
    ensures failures { OnOk result (D.failures folders.new ≡ D.failures folders.old) }
    ensures trouble { D.trouble folders.new ≡ D.trouble folders.old }
    ensures refused { IfErr result (StopsOpening drives.entries (folders_told (D.opened folders.old) (D.failures folders.old) (D.trouble folders.old))
        (folders_told (D.opened folders.new) (D.failures folders.new) (D.trouble folders.new))) }
{
    while let Some((id, drive)) = drives.pop_first() {
        let drive_over = drive.open(alloc, folders)?;
        let device = ServedDevice::over(drive_over);
        served.add(alloc, id, device, drive.announce(alloc))?;
    }
    Ok(())
}
