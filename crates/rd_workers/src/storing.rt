//! The desks of a client's devices at its beginning, and what comes of their stations at its end.

ghost use Rattle.std.specs.Prelude.{◌≡◌, [], length, map, IfOk, OnOk};
ghost use Rattle.std.specs.List.{AllZip, zip};
ghost use Rattle.std.specs.List.Sorted.{IsStrictlySortedBy};
ghost use Rattle.std.specs.Ordering.{nat_cmp};
ghost use Rattle.rd_turn.specs.Pass.{first_pass};
ghost use Rattle.rd_pool.specs.Desks.{IsFirst};
ghost use Rattle.rd_sharing.specs.Closing.{station_devices, trouble_after};
ghost use Rattle.rd_workers.specs.Passes.{AreNew};
ghost use Rattle.rd_world.specs.Session.{StoresSome, journals_of};

use rd_base::Books;
use rd_drive::Device;
use rd_folder::Folders;
use rd_pool::{Desks, Passes};
use rd_served_devices::ServedDevice;
use rd_sharing::close_device;
use rd_station::Station;
use std::alloc::{AllocError, Global};
use std::collections::VecDeque;

/// A desk for each station, with the passes 0.
pub(crate) fn open_desks<D: Device + Drop>(
    alloc: Global,
    ids: &[u32],
    list: Vec<Station<D>>,
) -> Result<(Desks<D>, Passes<D>), AllocError>
    requires rise { IsStrictlySortedBy nat_cmp ids.now }
    requires same { length list.items ≡ length ids.now }
    ensures first { IfOk result (λ both. AllZip IsFirst both.0.turns both.1) }
    ensures new { IfOk result (λ both. AreNew both.1) }
    ensures opened { IfOk result (λ both. map (λ turn. turn.opening) both.0.turns ≡ list.items) }
    ensures passes { IfOk result (λ both. both.1 ≡ map first_pass both.0.turns) }
{
    let mut desks = Desks::new(alloc);
    let mut passes = Passes::new(alloc);
    let mut place = 0usize;
    for station in list {
        let id = ids[place];
        place += 1;
        let Ok(()) = desks.add(alloc, &mut passes, id, station) else {
            return Err(AllocError);
        };
    }
    Ok((desks, passes))
}

/// The journal of each station goes into the books, under its id, and the folder of its device is closed. Where no memory is found the books have the first of
/// them, and the other folders are left.
pub(crate) fn store_all<D: Folders>(
    ids: &[u32],
    stations: VecDeque<Station<ServedDevice<D::F>>>,
    books: &mut Books,
    folders: &mut D,
) -> Result<(), AllocError>
    requires rise { IsStrictlySortedBy nat_cmp ids.now }
    requires same { length stations.items ≡ length ids.now }
    requires none { books.old ≡ [] }
    ensures stored { OnOk result (journals_of books.new ≡ zip ids.now (map (λ station. station.journal) stations.items)) }
    ensures some { StoresSome (zip ids.now (map (λ station. station.journal) stations.items)) books.new }
    ensures opened { D.opened folders.new ≡ D.opened folders.old }
    ensures failures { D.failures folders.new ≡ D.failures folders.old }
    ensures trouble { OnOk result (D.trouble folders.new ≡ trouble_after (D.trouble folders.old) (station_devices stations.items)) }
{
    let mut place = 0usize;
    for station in stations {
        let id = ids[place];
        place += 1;
        let (device, journal) = station.finish();
        close_device(device, folders);
        books.put(id, journal)?;
    }
    Ok(())
}
