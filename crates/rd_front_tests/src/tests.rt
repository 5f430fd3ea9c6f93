//! A front over the desk of a drive in memory. Want of memory never comes, as no test takes the memory away.

use crate::side_by_side::on_one_desk;
use rd_base::Units;
use rd_declared::SessionDevice;
use rd_desk::Desk;
use rd_devices::DeviceList;
use rd_dirinfo::Naming;
use rd_drive::MemoryDrive;
use rd_folder::MemFolder;
use rd_front::{FrontCall, FrontReply, Rest};
use rd_room::Room;
use rd_served_devices::ServedDevice;
use rd_station::Station;
use rd_turn::Turn;
use rd_world::Client;
use std::test::Fail;

#[test]
fn a_channel_begins_beside_the_writer(rt: HostRuntime) -> Result<(), Fail> {
    let alloc = rt.alloc();
    let label = Units::of(Vec::new(alloc));
    let drive = MemoryDrive::new(alloc, label, Naming::Exact)?;
    let device: ServedDevice<MemFolder> = ServedDevice::made(SessionDevice::Drive(drive));
    let Ok(station) = Station::new(alloc, device) else {
        return Err("there was no memory".into());
    };
    let Ok(desk) = Desk::new(alloc, station) else {
        return Err("there was no memory".into());
    };
    let Ok((turn, pass)) = Turn::new(alloc, desk) else {
        return Err("there was no memory".into());
    };
    let client = Client::new(alloc, DeviceList::of(Vec::new(alloc)))?;
    let room = Room::new(alloc, 4)?;
    let next = FrontCall::Next {
        channel: 1,
        place: 0,
        room,
    };
    let (began, given, pass) = on_one_desk(
        &rt,
        alloc,
        client,
        &turn,
        pass,
        FrontCall::Begin(1),
        next,
    ).ok_or("there was no memory")?;
    assert!(rt;
        matches!(
            began,
            FrontReply::Done {
                at: None,
                full: false
            }
        )
    );
    assert!(rt;
        matches!(
            given,
            FrontReply::Messages {
                rest: Rest::Nothing,
                ..
            }
        )
    );
    let station = turn.close(pass).into_station();
    assert!(rt; !station.waits() && !station.has_ready());
    Ok(())
}
