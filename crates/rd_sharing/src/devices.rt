//! Devices side by side, as they are opened one after the other.

ghost use Rattle.std.specs.Prelude.{◌≡◌, [], map, All, IfOk, OnOk};
ghost use Rattle.std.specs.List.{AllByRecursion};
ghost use Rattle.rd_client.specs.Events.{IsWritableDevice};
ghost use Rattle.rd_served_devices.specs.ServedDevices.{served_parked};
ghost use Rattle.rd_sharing.specs.Closing.{AreUntroubled, IsUntroubled, station_devices};
ghost use Rattle.rd_sharing.specs.Devices.{AddsDevice, AreSideBySide, IsQuietStation, KeepsMade, anew};

use rd_declared::SessionDevice;
use rd_devices::{Announce, DeviceList};
use rd_folder::Folder;
use rd_served_devices::ServedDevice;
use rd_station::Station;
use rd_world::Stations;
use std::alloc::{AllocError, Global};

/// The most devices of a session.
const MOST_DEVICES: usize = 32;

/// Devices by rising ids: their ids, their stations, and how they are announced, in the same order.
#[derive(Drop)]
pub struct Devices<F: Folder + Drop> {
    pub ids: Vec<u32>,
    pub stations: Vec<Station<ServedDevice<F>>>,
    pub announced: Vec<Announce>,
}

impl<F: Folder + Drop> Devices<F> {
    /// The devices of these stations, which are announced so.
    pub fn made(
        alloc: Global,
        stations: Stations,
        announced: DeviceList,
    ) -> Result<Self, AllocError>
        requires { AllByRecursion (λ e. IsQuietStation e.1) stations }
        ensures { IfOk result (KeepsMade stations announced) }
    {
        let (ids, list) = stations.finish();
        Ok(Devices {
            ids,
            stations: stations_anew(alloc, list)?,
            announced: announced_anew(alloc, announced)?,
        })
    }

    /// One device more, at the place of its id. A second device with an id and a 33rd device, which the grammar of scripts doesn't let pass, are taken for want of
    /// memory.
    pub fn add(
        &mut self,
        alloc: Global,
        id: u32,
        device: ServedDevice<F>,
        announce: Announce,
    ) -> Result<(), AllocError>
        requires same { AreSideBySide self.old }
        requires quiet { served_parked device ≡ [] }
        requires calm { AreUntroubled (station_devices self.old.stations.items) }
        requires faultless { IsUntroubled device }
        requires writable { IsWritableDevice announce }
        ensures added { OnOk result (AddsDevice id device announce self.old self.new) }
        ensures calm { AreUntroubled (station_devices self.new.stations.items) }
    {
        if self.ids.len() >= MOST_DEVICES {
            return Err(AllocError);
        }
        let Err(place) = self.ids.binary_search(&id) else {
            return Err(AllocError);
        };
        let Ok(station) = Station::new(alloc, device) else {
            return Err(AllocError);
        };
        self.ids.insert(place, id)?;
        self.stations.insert(place, station)?;
        self.announced.insert(place, announce)?;
        Ok(())
    }
}

/// The same devices, each in a station anew, with room for all that may come.
fn stations_anew<F: Folder + Drop>(
    alloc: Global,
    list: Vec<Station<SessionDevice>>,
) -> Result<Vec<Station<ServedDevice<F>>>, AllocError>
    requires { AllByRecursion IsQuietStation list.items }
    ensures { IfOk result (λ stations. stations.items ≡ map anew list.items) }
{
    let mut stations = Vec::with_capacity(alloc, MOST_DEVICES)?;
    for given in list {
        let (device, _journal) = given.finish();
        let Ok(station) = Station::new(alloc, ServedDevice::made(device)) else {
            return Err(AllocError);
        };
        stations.push(station)?;
    }
    Ok(stations)
}

/// The same announcements, with room for all that may come.
fn announced_anew(alloc: Global, list: DeviceList) -> Result<Vec<Announce>, AllocError>
    ensures same { IfOk result (λ announced. announced.items ≡ list) }
    ensures writable { IfOk result (λ announced. All IsWritableDevice announced.items) }
{
    let mut announced = Vec::with_capacity(alloc, MOST_DEVICES)?;
    for announce in list.into_vec() {
        announced.push(announce)?;
    }
    Ok(announced)
}
