//! What is set of a file (MS-FSCC 2.4).

ghost use Rattle.std.specs.Prelude.{◌≡◌, ◌↔◌, ◌++◌, ℕ, IsTrue, IfOk, IfErr, OnOk, OnErr};
ghost use Rattle.rd_base.specs.Classes.{IsRefusal, IsUnlisted, ReadsOfClass};
ghost use Rattle.rd_fileinfo.specs.SetInfo.{set_classes, set_class, set_info_bytes, disposition_set, rename_set, SetInfoFits, IsSetInfoInRange, SpellsSetInfo};
ghost use Rattle.rd_base.specs.Reading.{Reads, ReadsInto};

use crate::classes::{ALLOCATION, BASIC, DISPOSITION, END_OF_FILE, RENAME};
use rd_base::{
    Bad, Bytes, Cursor, InfoNo, Moments, ReadNo, Units, put_flag, put_moments, put_path, put_u8,
    put_u32, put_u64, read_constant_u8, read_flag, read_moments, read_path, read_units_length,
};
use std::alloc::{AllocError, Global};

/// A path of so many units has more bytes than its length can say.
const TOO_MANY_UNITS: usize = 0x7fff_ffff;

#[derive(Debug, Drop)]
pub enum SetInfo {
    /// FileBasicInformation (MS-FSCC 2.4.7).
    Basic {
        moments: Moments,
        attributes: u32,
    },
    /// FileRenameInformation (2.4.37), in the form of MS-RDPEFS 2.2.3.3.9.1.
    Rename {
        /// ReplaceIfExists
        replace: bool,
        path: Units,
    },
    /// FileDispositionInformation (2.4.11): whether the file goes once it is closed.
    Disposition(bool),
    /// FileAllocationInformation (2.4.4), in bytes.
    Allocation(u64),
    /// FileEndOfFileInformation (2.4.13), in bytes.
    EndOfFile(u64),
}

/// Whether a value can be written.
pub fn set_info_fits(info: &SetInfo) -> bool
    ensures { IsTrue result ↔ SetInfoFits info.now }
{
    match info {
        SetInfo::Rename { path, .. } => {
            let units = path.as_slice();
            units.len() < TOO_MANY_UNITS && units.iter().all(|unit| *unit != 0)
        }
        SetInfo::Basic { .. }
        | SetInfo::Disposition(_)
        | SetInfo::Allocation(_)
        | SetInfo::EndOfFile(_) => true,
    }
}

/// Reads the buffer of a class; bytes after its fields are ignored.
pub fn read_set_info(alloc: Global, class: u32, bytes: &[u8]) -> Result<SetInfo, InfoNo>
    ensures spelled { IfOk result (λ info. (tail : ℕ) × SpellsSetInfo class info tail bytes.now) }
    ensures refused { IfErr result (IsRefusal set_classes class bytes.now) }
    ensures class { (result ≡ Err (InfoNo.Class class)) ↔ IsUnlisted set_classes class }
{
    let mut cursor = Cursor::new(bytes);
    set_info_of(alloc, class, &mut cursor)
}

#[tactic(auto, unfolding(crate::specs::SetInfo::set_classes, crate::specs::SetInfo::basic_set, crate::specs::SetInfo::allocation_set, crate::specs::SetInfo::end_of_file_set))]
fn set_info_of(alloc: Global, class: u32, cursor: &mut Cursor<'_>) -> Result<SetInfo, InfoNo>
    ensures { ReadsOfClass (λ info. info) set_classes class cursor.old cursor.new result }
{
    match class {
        BASIC => {
            let moments = read_moments(cursor)?;
            let attributes = cursor.u32()?;
            Ok(SetInfo::Basic {
                moments,
                attributes,
            })
        }
        RENAME => Ok(read_rename(alloc, cursor)?),
        DISPOSITION => Ok(read_disposition(cursor)?),
        ALLOCATION => Ok(SetInfo::Allocation(cursor.u64()?)),
        END_OF_FILE => Ok(SetInfo::EndOfFile(cursor.u64()?)),
        _ => Err(InfoNo::Class(class)),
    }
}

#[tactic(auto, unfolding(crate::specs::SetInfo::rename_set))]
fn read_rename(alloc: Global, cursor: &mut Cursor<'_>) -> Result<SetInfo, ReadNo>
    ensures { ReadsInto (λ info. info) rename_set cursor.old cursor.new result }
{
    let replace = read_flag(cursor)?;
    read_constant_u8(cursor, 0)?;
    let count = read_units_length(cursor)?;
    let path = read_path(alloc, cursor, count)?;
    Ok(SetInfo::Rename { replace, path })
}

/// An empty buffer asks for the deletion.
#[tactic(auto, unfolding(crate::specs::SetInfo::disposition_set))]
fn read_disposition(cursor: &mut Cursor<'_>) -> Result<SetInfo, Bad>
    ensures { Reads (λ info. info) disposition_set cursor.old cursor.new result }
{
    if cursor.rest().is_empty() {
        return Ok(SetInfo::Disposition(true));
    }
    let deletes = read_flag(cursor)?;
    Ok(SetInfo::Disposition(deletes))
}

/// Writes the buffer of a value that fits.
pub fn write_set_info(alloc: Global, info: &SetInfo) -> Result<Bytes, AllocError>
    requires { SetInfoFits info.now }
    ensures spelled { IfOk result (SpellsSetInfo (set_class info.now) info.now 0) }
    ensures written { IfOk result (λ bytes. bytes ≡ set_info_bytes info.now) }
{
    let mut out = Vec::new(alloc);
    put_set_info(&mut out, info)?;
    Ok(Bytes::of(out))
}

/// Appends the buffer of a value that fits.
pub fn put_set_info(out: &mut Vec<u8>, info: &SetInfo) -> Result<(), AllocError>
    requires { SetInfoFits info.now }
    ensures bytes { OnOk result (out.new.items ≡ out.old.items ++ set_info_bytes info.now) }
    ensures spelled { OnOk result
        (SpellsSetInfo (set_class info.now) info.now 0 (set_info_bytes info.now)) }
    ensures err { OnErr result (out.new.items ≡ out.old.items) }
{
    append_set_info(out, info)?;
    Ok(())
}

fn append_set_info(out: &mut Vec<u8>, info: &SetInfo) -> Result<(), AllocError>
    requires { SetInfoFits info.now }
    ensures bytes { OnOk result (out.new.items ≡ out.old.items ++ set_info_bytes info.now) }
    ensures in_range { OnOk result (IsSetInfoInRange info.now) }
    ensures err { OnErr result (out.new.items ≡ out.old.items) }
{
    match info {
        SetInfo::Basic {
            moments,
            attributes,
        } => {
            out.try_reserve(36)?;
            put_moments(out, moments);
            put_u32(out, *attributes);
            Ok(())
        }
        SetInfo::Rename { replace, path } => append_rename(out, *replace, path),
        SetInfo::Disposition(deletes) => {
            out.try_reserve(1)?;
            put_flag(out, *deletes);
            Ok(())
        }
        SetInfo::Allocation(size) => {
            out.try_reserve(8)?;
            put_u64(out, *size);
            Ok(())
        }
        SetInfo::EndOfFile(end) => {
            out.try_reserve(8)?;
            put_u64(out, *end);
            Ok(())
        }
    }
}

fn append_rename(out: &mut Vec<u8>, replace: bool, path: &Units) -> Result<(), AllocError>
    requires { SetInfoFits (SetInfo.Rename replace path.now) }
    ensures bytes { OnOk result (out.new.items
        ≡ out.old.items ++ set_info_bytes (SetInfo.Rename replace path.now)) }
    ensures in_range { OnOk result (IsSetInfoInRange (SetInfo.Rename replace path.now)) }
    ensures err { OnErr result (out.new.items ≡ out.old.items) }
{
    let units = path.as_slice();
    let len = 2 * units.len() + 2;
    out.try_reserve(6 + len)?;
    put_flag(out, replace);
    put_u8(out, 0);
    put_u32(out, len as u32);
    put_path(out, units);
    Ok(())
}
