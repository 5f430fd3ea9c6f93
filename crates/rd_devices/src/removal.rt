//! The removal of devices (MS-RDPEFS 2.2.3.2).

ghost use Rattle.std.specs.Prelude.{◌≡◌, ◌+◌, ◌*◌, ◌≤◌, ◌↔◌, [], ◌++◌, IsTrue, IfOk, IfErr, OnErr, OnOk, length, vec_capacity, vec_len};
ghost use Rattle.rd_base.specs.Reading.{ReadsInto, WithTail, ForBad};
ghost use Rattle.rd_devices.specs.Removal.{removal, removal_bytes, IsWritableRemoval, SpellsRemoval, FirstFaultOfRemoval};

use crate::list::MAX_DEVICES;
use rd_base::{
    Bytes, Cursor, HEADER_LEN, Items, Packet, ReadNo, put_counted, put_header, read_counted,
    read_header, tail_len,
};
use std::alloc::{AllocError, Global};

/// The ids of the devices that a client takes away, in the order of the message.
pub type Removal = Items<u32>;

/// Reads a removal, and counts the ignored bytes after it.
pub fn read_removal(alloc: Global, bytes: &[u8]) -> Result<(Removal, u32), ReadNo>
    ensures spelled { IfOk result (λ read.
        WithTail read.1 (λ tail. SpellsRemoval read.0 tail bytes.now)) }
    ensures refused { IfErr result (ForBad (FirstFaultOfRemoval bytes.now)) }
{
    let mut cursor = Cursor::new(bytes);
    let ids = removal_of(alloc, &mut cursor)?;
    Ok((ids, tail_len(cursor.rest())))
}

#[tactic(auto, unfolding(crate::specs::Removal::removal))]
fn removal_of(alloc: Global, cursor: &mut Cursor<'_>) -> Result<Removal, ReadNo>
    ensures { ReadsInto (λ ids. ids) removal cursor.old cursor.new result }
{
    read_header(cursor, Packet::DeviceListRemove)?;
    read_counted(alloc, cursor, MAX_DEVICES)
}

/// Writes a removal.
pub fn write_removal(alloc: Global, removal: &Removal) -> Result<Bytes, AllocError>
    requires { IsWritableRemoval removal.now }
    ensures spelled { IfOk result (SpellsRemoval removal.now 0) }
    ensures written { IfOk result (λ message. message ≡ removal_bytes removal.now) }
{
    let mut out = Vec::with_capacity(alloc, size_of(removal))?;
    append(&mut out, removal);
    Ok(Bytes::of(out))
}

/// Appends a removal. Where there is no memory for all of it, nothing is appended.
pub fn put_removal(out: &mut Vec<u8>, removal: &Removal) -> Result<(), AllocError>
    requires { IsWritableRemoval removal.now }
    ensures bytes { OnOk result (out.new.items ≡ out.old.items ++ removal_bytes removal.now) }
    ensures spelled { OnOk result (SpellsRemoval removal.now 0 (removal_bytes removal.now)) }
    ensures err { OnErr result (out.new.items ≡ out.old.items) }
{
    out.try_reserve(size_of(removal))?;
    append(out, removal);
    Ok(())
}

/// Appends a removal to bytes that have room for it.
#[tactic(auto, using(crate::proofs::RemovalLemmas::removal_spelled, std::proofs::Common::append_assoc))]
fn append(out: &mut Vec<u8>, removal: &Removal)
    requires writable { IsWritableRemoval removal.now }
    requires room { vec_len out.old + length (removal_bytes removal.now) ≤ vec_capacity out.old }
    ensures bytes { out.new.items ≡ out.old.items ++ removal_bytes removal.now }
    ensures spelled { SpellsRemoval removal.now 0 (removal_bytes removal.now) }
{
    put_header(out, Packet::DeviceListRemove);
    put_counted(out, removal.as_slice());
}

/// How many bytes a removal is written in.
#[tactic(auto, using(crate::proofs::RemovalLemmas::length_ids))]
fn size_of(removal: &Removal) -> usize
    requires { IsWritableRemoval removal.now }
    ensures { result ≡ length (removal_bytes removal.now) }
{
    HEADER_LEN + 4 + 4 * removal.as_slice().len()
}

/// Whether a removal can be written: it isn't too long.
pub fn can_write_removal(removal: &Removal) -> bool
    ensures { IsTrue result ↔ IsWritableRemoval removal.now }
{
    removal.as_slice().len() <= MAX_DEVICES as usize
}
