//! The list of a client's devices (MS-RDPEFS 2.2.2.9).

ghost use Rattle.std.specs.Prelude.{◌≡◌, ◌+◌, ◌-◌, ◌≤◌, ◌^◌, ◌↔◌, [], ◌++◌, IsTrue, IfOk, IfErr, OnErr, OnOk, length, min, vec_capacity, vec_len};
ghost use Rattle.rd_base.specs.Reading.{ReadsInto, WithTail, ForBad};
ghost use Rattle.rd_devices.specs.DeviceList.{device_list, list_bytes, IsWritableList, SpellsList, FirstFaultOfList};

use rd_base::{
    Bytes, Cursor, Format, HEADER_LEN, Items, Packet, ReadNo, put_bytes, put_counted,
    put_counted_bytes, put_header, put_u32, read_counted, read_counted_bytes, read_eight,
    read_header, size_of_all, tail_len,
};
use std::alloc::{AllocError, Global};

/// The most devices of a list or a removal.
pub const MAX_DEVICES: u32 = 256;

/// One device (MS-RDPEFS 2.2.1.3).
#[derive(Debug, Drop)]
pub struct Announce {
    /// DeviceType: 1 a serial port, 2 a parallel port, 4 a printer, 8 a file system, 0x20 a smart card reader.
    pub kind: u32,
    pub id: u32,
    /// PreferredDosName, filled up with zeros.
    pub dos: [u8; 8],
    /// DeviceData, which depends on the kind: `PrinterInfo` for a printer; that of a file system is kept unread.
    pub body: Bytes,
}

/// The devices that a client announces, in the order of the message.
pub type DeviceList = Items<Announce>;

impl Format for Announce {
    ghost use Rattle.rd_devices.specs.DeviceList.{announce, announce_bytes, HasCountableBody};

    ghost layout = { announce };

    ghost bytes = { announce_bytes };

    ghost fits = { HasCountableBody };

    #[tactic(auto, unfolding(crate::specs::DeviceList::announce, rd_base::specs::Counted::counted_bytes))]
    fn read(alloc: Global, cursor: &mut Cursor<'_>) -> Result<Announce, ReadNo> {
        let kind = cursor.u32()?;
        let id = cursor.u32()?;
        let dos = read_eight(cursor)?;
        let body = read_counted_bytes(alloc, cursor)?;
        Ok(Announce {
            kind,
            id,
            dos,
            body,
        })
    }

    #[tactic(auto, using(crate::proofs::DeviceListLemmas::announce_spelled, std::proofs::Common::append_assoc), unfolding(rd_base::specs::Fields::bytes32))]
    fn put(&self, out: &mut Vec<u8>) {
        put_u32(out, self.kind);
        put_u32(out, self.id);
        put_bytes(out, &self.dos);
        put_counted_bytes(out, self.body.as_slice());
    }

    fn size(&self) -> usize {
        20 + self.body.as_slice().len()
    }
}

/// Reads a list of devices, and counts the ignored bytes after it.
pub fn read_list(alloc: Global, bytes: &[u8]) -> Result<(DeviceList, u32), ReadNo>
    ensures spelled { IfOk result (λ read.
        WithTail read.1 (λ tail. SpellsList read.0 tail bytes.now)) }
    ensures refused { IfErr result (ForBad (FirstFaultOfList bytes.now)) }
{
    let mut cursor = Cursor::new(bytes);
    let list = list_of(alloc, &mut cursor)?;
    Ok((list, tail_len(cursor.rest())))
}

#[tactic(auto, unfolding(crate::specs::DeviceList::device_list))]
fn list_of(alloc: Global, cursor: &mut Cursor<'_>) -> Result<DeviceList, ReadNo>
    ensures { ReadsInto (λ list. list) device_list cursor.old cursor.new result }
{
    read_header(cursor, Packet::DeviceListAnnounce)?;
    read_counted(alloc, cursor, MAX_DEVICES)
}

/// Writes a list of devices.
pub fn write_list(alloc: Global, list: &DeviceList) -> Result<Bytes, AllocError>
    requires { IsWritableList list.now }
    ensures spelled { IfOk result (SpellsList list.now 0) }
    ensures written { IfOk result (λ message. message ≡ list_bytes list.now) }
{
    let mut out = Vec::with_capacity(alloc, list_size(list))?;
    append(&mut out, list);
    Ok(Bytes::of(out))
}

/// Appends a list of devices. Where there is no memory for all of it, nothing is appended.
pub fn put_list(out: &mut Vec<u8>, list: &DeviceList) -> Result<(), AllocError>
    requires { IsWritableList list.now }
    ensures bytes { OnOk result (out.new.items ≡ out.old.items ++ list_bytes list.now) }
    ensures spelled { OnOk result (SpellsList list.now 0 (list_bytes list.now)) }
    ensures err { OnErr result (out.new.items ≡ out.old.items) }
{
    out.try_reserve(list_size(list))?;
    append(out, list);
    Ok(())
}

/// Appends a list of devices to bytes that have room for it.
#[tactic(auto, using(crate::proofs::DeviceListLemmas::list_spelled, std::proofs::Common::append_assoc))]
fn append(out: &mut Vec<u8>, list: &DeviceList)
    requires writable { IsWritableList list.now }
    requires room { vec_len out.old + length (list_bytes list.now) ≤ vec_capacity out.old }
    ensures bytes { out.new.items ≡ out.old.items ++ list_bytes list.now }
    ensures spelled { SpellsList list.now 0 (list_bytes list.now) }
{
    put_header(out, Packet::DeviceListAnnounce);
    put_counted(out, list.as_slice());
}

/// How many bytes a list of devices is written in; 2^64 - 1 where it is more.
pub fn list_size(list: &DeviceList) -> usize
    requires { IsWritableList list.now }
    ensures { result ≡ min (length (list_bytes list.now)) (2 ^ 64 - 1) }
{
    (HEADER_LEN + 4).saturating_add(size_of_all(list.as_slice()))
}

/// Whether a list of devices can be written: it isn't too long, and the data of each can be counted.
pub fn can_write_list(list: &DeviceList) -> bool
    ensures { IsTrue result ↔ IsWritableList list.now }
{
    let devices = list.as_slice();
    devices.len() <= MAX_DEVICES as usize
        && devices
            .iter()
            .all(|device| device.body.as_slice().len() < 1 << 32)
}
