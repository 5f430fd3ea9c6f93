//! A front over a table, in two threads. Want of memory never comes, as no test takes the memory away.

use crate::one_table::on_one_table;
use rd_base::Bytes;
use rd_room::Room;
use std::test::Fail;

/// The host's announcement (MS-RDPEFS 2.2.2.2), and what the client says to it (2.2.2.3).
const ANNOUNCE: &[u8] = b"rDnI\x01\0\x0c\0\x01\0\0\0";

const CONFIRM: &[u8] = b"rDCC\x01\0\x0c\0\x01\0\0\0";

#[test]
fn a_message_is_heard_beside_the_writer(rt: HostRuntime) -> Result<(), Fail> {
    let alloc = rt.alloc();
    let message = Bytes::of(Vec::from_slice(alloc, CONFIRM)?);
    let room = Room::new(alloc, 4)?;
    let session = on_one_table(&rt, alloc, message, room).ok_or("there was no memory")?;
    assert!(rt; session.heard);
    let mut room = session.room.ok_or("no messages were handed out")?;
    let first = room.pop().ok_or("the host announces itself")?;
    assert!(rt; first.as_slice() == ANNOUNCE && room.pop().is_none());
    Ok(())
}
