//! What a volume tells of itself (MS-FSCC 2.5).

ghost use Rattle.std.specs.Prelude.{◌≡◌, ◌*◌, ◌^◌, ◌<◌, ◌↔◌, ◌++◌, ℕ, All, IsTrue, IfOk, IfErr, OnOk, OnErr, length};
ghost use Rattle.rd_base.specs.Classes.{IsRefusal, IsUnlisted, ReadsOfClass};
ghost use Rattle.rd_base.specs.Reading.{Reads, ReadsInto};
ghost use Rattle.rd_fileinfo.specs.VolumeInfo.{volume_classes, volume_class, volume_info_bytes, volume_info, attribute_info, size_info, full_size_info, VolumeFits, IsVolumeInfoInRange, SpellsVolumeInfo};

use crate::classes::{ATTRIBUTE, DEVICE, FULL_SIZE, SIZE, VOLUME};
use rd_base::{
    Bad, Bytes, Cursor, InfoNo, ReadNo, Units, put_u8, put_u32, put_u64, put_units, read_text,
    read_units_length,
};
use std::alloc::{AllocError, Global};

/// So many units have more bytes than a length can say.
const TOO_MANY_UNITS: usize = 0x8000_0000;

#[derive(Debug, Drop)]
pub enum VolumeInfo {
    /// FileFsVolumeInformation (MS-FSCC 2.5.9).
    Volume {
        /// In units of 100 ns since 1601-01-01 UTC.
        creation: u64,
        serial: u32,
        /// SupportsObjects
        objects: u8,
        label: Units,
    },
    /// FileFsSizeInformation (2.5.8).
    Size {
        /// In allocation units.
        total: u64,
        free: u64,
        /// Of an allocation unit.
        sectors: u32,
        /// Of a sector.
        bytes: u32,
    },
    /// FileFsDeviceInformation (2.5.10).
    Device {
        kind: u32,
        /// Characteristics
        traits: u32,
    },
    /// FileFsAttributeInformation (2.5.1).
    Attribute {
        flags: u32,
        /// The most units of a name.
        longest: u32,
        /// Of the file system.
        name: Units,
    },
    /// FileFsFullSizeInformation (2.5.4).
    FullSize {
        /// In allocation units.
        total: u64,
        /// What is free for the caller.
        caller: u64,
        /// What is free at all.
        free: u64,
        /// Of an allocation unit.
        sectors: u32,
        /// Of a sector.
        bytes: u32,
    },
}

/// Whether a value can be written.
pub fn volume_fits(info: &VolumeInfo) -> bool
    ensures { IsTrue result ↔ VolumeFits info.now }
{
    match info {
        VolumeInfo::Volume { label, .. } => label.as_slice().len() < TOO_MANY_UNITS,
        VolumeInfo::Attribute { name, .. } => name.as_slice().len() < TOO_MANY_UNITS,
        VolumeInfo::Size { .. } | VolumeInfo::Device { .. } | VolumeInfo::FullSize { .. } => true,
    }
}

/// Reads the buffer of a class; bytes after its fields are ignored.
pub fn read_volume(alloc: Global, class: u32, bytes: &[u8]) -> Result<VolumeInfo, InfoNo>
    ensures spelled { IfOk result (λ info.
        (tail : ℕ) × SpellsVolumeInfo class info tail bytes.now) }
    ensures refused { IfErr result (IsRefusal volume_classes class bytes.now) }
    ensures class { (result ≡ Err (InfoNo.Class class)) ↔ IsUnlisted volume_classes class }
{
    let mut cursor = Cursor::new(bytes);
    volume_of(alloc, class, &mut cursor)
}

#[tactic(auto, unfolding(crate::specs::VolumeInfo::volume_classes, crate::specs::VolumeInfo::device_info))]
fn volume_of(alloc: Global, class: u32, cursor: &mut Cursor<'_>) -> Result<VolumeInfo, InfoNo>
    ensures { ReadsOfClass (λ info. info) volume_classes class cursor.old cursor.new result }
{
    match class {
        VOLUME => Ok(read_volume_info(alloc, cursor)?),
        SIZE => Ok(read_size(cursor)?),
        DEVICE => {
            let kind = cursor.u32()?;
            let traits = cursor.u32()?;
            Ok(VolumeInfo::Device { kind, traits })
        }
        ATTRIBUTE => Ok(read_attribute(alloc, cursor)?),
        FULL_SIZE => Ok(read_full_size(cursor)?),
        _ => Err(InfoNo::Class(class)),
    }
}

#[tactic(auto, unfolding(crate::specs::VolumeInfo::volume_info))]
fn read_volume_info(alloc: Global, cursor: &mut Cursor<'_>) -> Result<VolumeInfo, ReadNo>
    ensures { ReadsInto (λ info. info) volume_info cursor.old cursor.new result }
{
    let creation = cursor.u64()?;
    let serial = cursor.u32()?;
    let count = read_units_length(cursor)?;
    let objects = cursor.u8()?;
    let label = read_text(alloc, cursor, count)?;
    Ok(VolumeInfo::Volume {
        creation,
        serial,
        objects,
        label,
    })
}

#[tactic(auto, unfolding(crate::specs::VolumeInfo::size_info))]
fn read_size(cursor: &mut Cursor<'_>) -> Result<VolumeInfo, Bad>
    ensures { Reads (λ info. info) size_info cursor.old cursor.new result }
{
    let total = cursor.u64()?;
    let free = cursor.u64()?;
    let sectors = cursor.u32()?;
    let bytes = cursor.u32()?;
    Ok(VolumeInfo::Size {
        total,
        free,
        sectors,
        bytes,
    })
}

#[tactic(auto, unfolding(crate::specs::VolumeInfo::attribute_info))]
fn read_attribute(alloc: Global, cursor: &mut Cursor<'_>) -> Result<VolumeInfo, ReadNo>
    ensures { ReadsInto (λ info. info) attribute_info cursor.old cursor.new result }
{
    let flags = cursor.u32()?;
    let longest = cursor.u32()?;
    let count = read_units_length(cursor)?;
    let name = read_text(alloc, cursor, count)?;
    Ok(VolumeInfo::Attribute {
        flags,
        longest,
        name,
    })
}

#[tactic(auto, unfolding(crate::specs::VolumeInfo::full_size_info))]
fn read_full_size(cursor: &mut Cursor<'_>) -> Result<VolumeInfo, Bad>
    ensures { Reads (λ info. info) full_size_info cursor.old cursor.new result }
{
    let total = cursor.u64()?;
    let caller = cursor.u64()?;
    let free = cursor.u64()?;
    let sectors = cursor.u32()?;
    let bytes = cursor.u32()?;
    Ok(VolumeInfo::FullSize {
        total,
        caller,
        free,
        sectors,
        bytes,
    })
}

/// Writes the buffer of a value that fits.
pub fn write_volume(alloc: Global, info: &VolumeInfo) -> Result<Bytes, AllocError>
    requires { VolumeFits info.now }
    ensures spelled { IfOk result (SpellsVolumeInfo (volume_class info.now) info.now 0) }
    ensures written { IfOk result (λ bytes. bytes ≡ volume_info_bytes info.now) }
{
    let mut out = Vec::new(alloc);
    put_volume(&mut out, info)?;
    Ok(Bytes::of(out))
}

/// Appends the buffer of a value that fits.
pub fn put_volume(out: &mut Vec<u8>, info: &VolumeInfo) -> Result<(), AllocError>
    requires { VolumeFits info.now }
    ensures bytes { OnOk result (out.new.items ≡ out.old.items ++ volume_info_bytes info.now) }
    ensures spelled { OnOk result
        (SpellsVolumeInfo (volume_class info.now) info.now 0 (volume_info_bytes info.now)) }
    ensures err { OnErr result (out.new.items ≡ out.old.items) }
{
    append_volume(out, info)?;
    Ok(())
}

fn append_volume(out: &mut Vec<u8>, info: &VolumeInfo) -> Result<(), AllocError>
    requires { VolumeFits info.now }
    ensures bytes { OnOk result (out.new.items ≡ out.old.items ++ volume_info_bytes info.now) }
    ensures in_range { OnOk result (IsVolumeInfoInRange info.now) }
    ensures err { OnErr result (out.new.items ≡ out.old.items) }
{
    match info {
        VolumeInfo::Volume {
            creation,
            serial,
            objects,
            label,
        } => append_labelled(out, *creation, *serial, *objects, label),
        VolumeInfo::Size {
            total,
            free,
            sectors,
            bytes,
        } => append_size(out, *total, *free, *sectors, *bytes),
        VolumeInfo::Device { kind, traits } => {
            out.try_reserve(8)?;
            put_u32(out, *kind);
            put_u32(out, *traits);
            Ok(())
        }
        VolumeInfo::Attribute {
            flags,
            longest,
            name,
        } => append_attribute(out, *flags, *longest, name),
        VolumeInfo::FullSize {
            total,
            caller,
            free,
            sectors,
            bytes,
        } => append_full_size(out, *total, *caller, *free, *sectors, *bytes),
    }
}

fn append_labelled(
    out: &mut Vec<u8>,
    creation: u64,
    serial: u32,
    objects: u8,
    label: &Units,
) -> Result<(), AllocError>
    requires { 2 * length label.now < 2 ^ 32 }
    ensures bytes { OnOk result (out.new.items
        ≡ out.old.items ++ volume_info_bytes (VolumeInfo.Volume creation serial objects label.now)) }
    ensures in_range { OnOk result (All (λ unit. unit < 2 ^ 16) label.now) }
    ensures err { OnErr result (out.new.items ≡ out.old.items) }
{
    let units = label.as_slice();
    let len = 2 * units.len();
    out.try_reserve(17 + len)?;
    put_u64(out, creation);
    put_u32(out, serial);
    put_u32(out, len as u32);
    put_u8(out, objects);
    put_units(out, units);
    Ok(())
}

fn append_size(
    out: &mut Vec<u8>,
    total: u64,
    free: u64,
    sectors: u32,
    bytes: u32,
) -> Result<(), AllocError>
    ensures bytes { OnOk result (out.new.items
        ≡ out.old.items ++ volume_info_bytes (VolumeInfo.Size total free sectors bytes)) }
    ensures err { OnErr result (out.new.items ≡ out.old.items) }
{
    out.try_reserve(24)?;
    put_u64(out, total);
    put_u64(out, free);
    put_u32(out, sectors);
    put_u32(out, bytes);
    Ok(())
}

fn append_attribute(
    out: &mut Vec<u8>,
    flags: u32,
    longest: u32,
    name: &Units,
) -> Result<(), AllocError>
    requires { 2 * length name.now < 2 ^ 32 }
    ensures bytes { OnOk result (out.new.items
        ≡ out.old.items ++ volume_info_bytes (VolumeInfo.Attribute flags longest name.now)) }
    ensures in_range { OnOk result (All (λ unit. unit < 2 ^ 16) name.now) }
    ensures err { OnErr result (out.new.items ≡ out.old.items) }
{
    let units = name.as_slice();
    let len = 2 * units.len();
    out.try_reserve(12 + len)?;
    put_u32(out, flags);
    put_u32(out, longest);
    put_u32(out, len as u32);
    put_units(out, units);
    Ok(())
}

fn append_full_size(
    out: &mut Vec<u8>,
    total: u64,
    caller: u64,
    free: u64,
    sectors: u32,
    bytes: u32,
) -> Result<(), AllocError>
    ensures bytes { OnOk result (out.new.items
        ≡ out.old.items ++ volume_info_bytes (VolumeInfo.FullSize total caller free sectors bytes)) }
    ensures err { OnErr result (out.new.items ≡ out.old.items) }
{
    out.try_reserve(32)?;
    put_u64(out, total);
    put_u64(out, caller);
    put_u64(out, free);
    put_u32(out, sectors);
    put_u32(out, bytes);
    Ok(())
}
