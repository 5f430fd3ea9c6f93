//! The end of a device: its folder goes back to where it came from.

ghost use Rattle.std.specs.Prelude.{◌≡◌};
ghost use Rattle.rd_sharing.specs.Closing.{station_devices, trouble_after, trouble_with};

use rd_folder::Folders;
use rd_served_devices::ServedDevice;
use rd_station::Station;

/// Closes the folder of a device, if it is a drive over one.
pub fn close_device<D: Folders>(device: ServedDevice<D::F>, folders: &mut D)
    ensures opened { D.opened folders.new ≡ D.opened folders.old }
    ensures failures { D.failures folders.new ≡ D.failures folders.old }
    ensures trouble { D.trouble folders.new ≡ trouble_with (D.trouble folders.old) device }
{
    if let Some(folder) = device.into_folder() {
        folders.close(folder);
    }
}

/// Closes the folders of the devices of stations.
pub fn close_all<D: Folders>(stations: Vec<Station<ServedDevice<D::F>>>, folders: &mut D)
    ensures opened { D.opened folders.new ≡ D.opened folders.old }
    ensures failures { D.failures folders.new ≡ D.failures folders.old }
    ensures trouble { D.trouble folders.new ≡ trouble_after (D.trouble folders.old) (station_devices stations.items) }
{
    for station in stations {
        let (device, _journal) = station.finish();
        close_device(device, folders);
    }
}
