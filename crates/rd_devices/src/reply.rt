//! The host's reply to a device that was announced (MS-RDPEFS 2.2.2.1).

ghost use Rattle.std.specs.Prelude.{◌≡◌, ◌++◌, IfOk, IfErr, OnErr, OnOk};
ghost use Rattle.rd_base.specs.Reading.{Reads, WithTail};
ghost use Rattle.rd_devices.specs.DeviceReply.{device_reply, reply_bytes, SpellsReply, FirstFaultOfReply};

use rd_base::{
    Bad, Bytes, Cursor, Format, HEADER_LEN, Packet, ReadNo, Status, append_message, put_header,
    put_u32, read_header, tail_len, write_message,
};
use std::alloc::{AllocError, Global};

/// What the host makes of a device.
#[derive(Clone, Copy, Debug, PartialEq, Eq)]
pub struct DeviceReply {
    pub id: u32,
    /// ResultCode: success, or why the host won't use the device.
    pub code: Status,
}

/// Reads a reply, and counts the ignored bytes after it.
pub fn read_reply(bytes: &[u8]) -> Result<(DeviceReply, u32), Bad>
    ensures spelled { IfOk result (λ read.
        WithTail read.1 (λ tail. SpellsReply read.0 tail bytes.now)) }
    ensures refused { IfErr result (FirstFaultOfReply bytes.now) }
{
    let mut cursor = Cursor::new(bytes);
    let reply = reply_of(&mut cursor)?;
    Ok((reply, tail_len(cursor.rest())))
}

#[tactic(auto, unfolding(crate::specs::DeviceReply::device_reply))]
fn reply_of(cursor: &mut Cursor<'_>) -> Result<DeviceReply, Bad>
    ensures { Reads (λ reply. reply) device_reply cursor.old cursor.new result }
{
    read_header(cursor, Packet::DeviceReply)?;
    let id = cursor.u32()?;
    let code = Status(cursor.u32()?);
    Ok(DeviceReply { id, code })
}

impl Format for DeviceReply {
    ghost use Rattle.rd_devices.specs.DeviceReply.{device_reply, reply_bytes};

    ghost layout = { device_reply };

    ghost bytes = { reply_bytes };

    ghost fits = { λ _. Unit {0} };

    fn read(_alloc: Global, cursor: &mut Cursor<'_>) -> Result<DeviceReply, ReadNo> {
        Ok(reply_of(cursor)?)
    }

    #[tactic(auto, using(crate::proofs::DeviceReplyLemmas::reply_spelled, std::proofs::Common::append_assoc), unfolding(rd_base::specs::Fields::bytes32))]
    fn put(&self, out: &mut Vec<u8>) {
        put_header(out, Packet::DeviceReply);
        put_u32(out, self.id);
        put_u32(out, self.code.0);
    }

    fn size(&self) -> usize {
        HEADER_LEN + 8
    }
}

/// Writes a reply.
pub fn write_reply(alloc: Global, reply: &DeviceReply) -> Result<Bytes, AllocError>
    ensures spelled { IfOk result (SpellsReply reply.now 0) }
    ensures written { IfOk result (λ message. message ≡ reply_bytes reply.now) }
{
    write_message(alloc, reply)
}

/// Appends a reply. Where there is no memory for all of it, nothing is appended.
pub fn put_reply(out: &mut Vec<u8>, reply: &DeviceReply) -> Result<(), AllocError>
    ensures bytes { OnOk result (out.new.items ≡ out.old.items ++ reply_bytes reply.now) }
    ensures err { OnErr result (out.new.items ≡ out.old.items) }
{
    append_message(out, reply)
}
