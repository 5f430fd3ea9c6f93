//! What a file tells of itself (MS-FSCC 2.4).

ghost use Rattle.std.specs.Prelude.{◌≡◌, ◌↔◌, ◌≢◌, ◌++◌, ℕ, IfOk, IfErr, OnOk, OnErr};
ghost use Rattle.rd_base.specs.Classes.{IsRefusal, IsUnlisted, ReadsOfClass};
ghost use Rattle.rd_fileinfo.specs.FileInfo.{file_classes, file_class, file_info_bytes, IsFileInfoInRange, SpellsFileInfo};

use crate::classes::{ATTRIBUTE_TAG, BASIC, STANDARD};
use rd_base::{
    Bytes, Cursor, InfoNo, Moments, put_moments, put_u8, put_u32, put_u64, read_moments,
};
use std::alloc::{AllocError, Global};

#[derive(Clone, Copy, Debug, PartialEq, Eq)]
pub enum FileInfo {
    /// FileBasicInformation (MS-FSCC 2.4.7).
    Basic {
        moments: Moments,
        attributes: u32,
    },
    /// FileStandardInformation (2.4.41).
    Standard {
        /// In bytes.
        allocation: u64,
        /// The bytes of the file.
        end: u64,
        links: u32,
        /// 1 where the file goes once it is closed.
        pending: u8,
        /// 1 for a folder.
        folder: u8,
    },
    /// FileAttributeTagInformation (2.4.6).
    Tag {
        attributes: u32,
        tag: u32,
    },
}

/// Reads the buffer of a class; bytes after its fields are ignored.
pub fn read_file_info(class: u32, bytes: &[u8]) -> Result<FileInfo, InfoNo>
    ensures spelled { IfOk result (λ info. (tail : ℕ) × SpellsFileInfo class info tail bytes.now) }
    ensures refused { IfErr result (IsRefusal file_classes class bytes.now) }
    ensures class { (result ≡ Err (InfoNo.Class class)) ↔ IsUnlisted file_classes class }
    ensures memory { result ≢ Err InfoNo.Memory }
{
    let mut cursor = Cursor::new(bytes);
    file_info_of(class, &mut cursor)
}

#[tactic(auto, unfolding(crate::specs::FileInfo::file_classes, crate::specs::FileInfo::basic_info, crate::specs::FileInfo::standard_info, crate::specs::FileInfo::tag_info))]
fn file_info_of(class: u32, cursor: &mut Cursor<'_>) -> Result<FileInfo, InfoNo>
    ensures read { ReadsOfClass (λ info. info) file_classes class cursor.old cursor.new result }
    ensures memory { result ≢ Err InfoNo.Memory }
{
    match class {
        BASIC => {
            let moments = read_moments(cursor)?;
            let attributes = cursor.u32()?;
            Ok(FileInfo::Basic {
                moments,
                attributes,
            })
        }
        STANDARD => {
            let allocation = cursor.u64()?;
            let end = cursor.u64()?;
            let links = cursor.u32()?;
            let pending = cursor.u8()?;
            let folder = cursor.u8()?;
            Ok(FileInfo::Standard {
                allocation,
                end,
                links,
                pending,
                folder,
            })
        }
        ATTRIBUTE_TAG => {
            let attributes = cursor.u32()?;
            let tag = cursor.u32()?;
            Ok(FileInfo::Tag { attributes, tag })
        }
        _ => Err(InfoNo::Class(class)),
    }
}

/// Writes the buffer of a value.
pub fn write_file_info(alloc: Global, info: &FileInfo) -> Result<Bytes, AllocError>
    ensures spelled { IfOk result (SpellsFileInfo (file_class info.now) info.now 0) }
    ensures written { IfOk result (λ bytes. bytes ≡ file_info_bytes info.now) }
{
    let mut out = Vec::new(alloc);
    put_file_info(&mut out, info)?;
    Ok(Bytes::of(out))
}

/// Appends the buffer of a value.
pub fn put_file_info(out: &mut Vec<u8>, info: &FileInfo) -> Result<(), AllocError>
    ensures bytes { OnOk result (out.new.items ≡ out.old.items ++ file_info_bytes info.now) }
    ensures spelled { OnOk result
        (SpellsFileInfo (file_class info.now) info.now 0 (file_info_bytes info.now)) }
    ensures err { OnErr result (out.new.items ≡ out.old.items) }
{
    append_file_info(out, info)?;
    Ok(())
}

fn append_file_info(out: &mut Vec<u8>, info: &FileInfo) -> Result<(), AllocError>
    ensures bytes { OnOk result (out.new.items ≡ out.old.items ++ file_info_bytes info.now) }
    ensures in_range { OnOk result (IsFileInfoInRange info.now) }
    ensures err { OnErr result (out.new.items ≡ out.old.items) }
{
    match info {
        FileInfo::Basic {
            moments,
            attributes,
        } => {
            out.try_reserve(36)?;
            put_moments(out, moments);
            put_u32(out, *attributes);
            Ok(())
        }
        FileInfo::Standard {
            allocation,
            end,
            links,
            pending,
            folder,
        } => {
            out.try_reserve(22)?;
            put_u64(out, *allocation);
            put_u64(out, *end);
            put_u32(out, *links);
            put_u8(out, *pending);
            put_u8(out, *folder);
            Ok(())
        }
        FileInfo::Tag { attributes, tag } => {
            out.try_reserve(8)?;
            put_u32(out, *attributes);
            put_u32(out, *tag);
            Ok(())
        }
    }
}
