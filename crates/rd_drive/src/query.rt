//! What a file and the volume tell of themselves (MS-FSCC 2.4 and 2.5).

ghost use Rattle.std.specs.Prelude.{◌≡◌, ◌≤◌, ◌<◌, ◌^◌, ◌⊎◌, [], length, IfOk, IfErr, IsSome, Some, None, nat_eq};
ghost use Rattle.std.specs.HashMap.{get};
ghost use Rattle.std.specs.Int.{next_multiple_of};
ghost use Rattle.rd_fileinfo.specs.VolumeInfo.{VolumeFits};
ghost use Rattle.rd_tree.specs.Places.{IsLive};
ghost use Rattle.rd_drive.specs.Outcome.{on_handle};
ghost use Rattle.rd_drive.specs.Query.{info_of_volume, node_info, query_file, query_volume, volume_flags};
ghost use Rattle.rd_drive.specs.Store.{drive_of, IsSound, Serves};
ghost use Rattle.rd_drive.specs.Kept.{own_node, IsNoInfo};

use crate::news::News;
use crate::node::shown_attributes;
use crate::status;
use crate::store::{Done, Outcome, Store};
use rd_base::{Bytes, Status, Units};
use rd_dirinfo::Naming;
use rd_fileinfo::classes::{
    ATTRIBUTE, ATTRIBUTE_TAG, BASIC, DEVICE, FULL_SIZE, SIZE, STANDARD, VOLUME,
};
use rd_fileinfo::{FileInfo, VolumeInfo, put_file_info, put_volume};
use rd_irp::Body;
use rd_tree::NodeId;
use std::alloc::Global;

/// VolumeSerialNumber
const SERIAL_NUMBER: u32 = 0x5244_5231;

/// The allocation units of the volume, all of which are free.
const VOLUME_UNITS: u64 = 268_435_456;

const SECTORS_PER_UNIT: u32 = 8;

const BYTES_PER_SECTOR: u32 = 512;

/// FILE_DEVICE_DISK
const DISK: u32 = 7;

/// FILE_CASE_PRESERVED_NAMES and FILE_UNICODE_ON_DISK.
const VOLUME_FLAGS: u32 = 6;

/// FILE_CASE_SENSITIVE_SEARCH
const CASE_SENSITIVE: u32 = 1;

/// The most units of a name.
const LONGEST_NAME: u32 = 255;

/// The bytes that are kept for a file: whole clusters.
const CLUSTER: u64 = 4096;

/// How many bytes are kept for a file with so many (AllocationSize, MS-FSCC 2.4.41).
pub fn allocation_for(end: u64) -> u64
    requires { end < 2 ^ 63 }
    ensures { result ≡ next_multiple_of end 4096 }
{
    end.next_multiple_of(CLUSTER)
}

/// What the volume tells of itself, by class (MS-FSCC 2.5): a volume with this label, whose names are told apart so.
pub fn volume_info(
    alloc: Global,
    label: &Units,
    naming: Naming,
    class: u32,
) -> Result<VolumeInfo, Status>
    requires { length label.now ≤ 32 }
    ensures ok { IfOk result (λ info. info_of_volume label.now naming class ≡ Some info) }
    ensures fits { IfOk result VolumeFits }
    ensures err { IfErr result (λ status. IsNoInfo (info_of_volume label.now naming class) status) }
{
    match class {
        VOLUME => match label.copy() {
            Ok(label) => Ok(VolumeInfo::Volume {
                creation: 0,
                serial: SERIAL_NUMBER,
                objects: 0,
                label,
            }),
            Err(_) => Err(Status::NO_MEMORY),
        },
        SIZE => Ok(VolumeInfo::Size {
            total: VOLUME_UNITS,
            free: VOLUME_UNITS,
            sectors: SECTORS_PER_UNIT,
            bytes: BYTES_PER_SECTOR,
        }),
        DEVICE => Ok(VolumeInfo::Device {
            kind: DISK,
            traits: 0,
        }),
        ATTRIBUTE => match Vec::from_slice(alloc, &[0x52, 0x44, 0x46, 0x53]) {
            Ok(name) => Ok(VolumeInfo::Attribute {
                flags: volume_flags(naming),
                longest: LONGEST_NAME,
                name: Units::of(name),
            }),
            Err(_) => Err(Status::NO_MEMORY),
        },
        FULL_SIZE => Ok(VolumeInfo::FullSize {
            total: VOLUME_UNITS,
            caller: VOLUME_UNITS,
            free: VOLUME_UNITS,
            sectors: SECTORS_PER_UNIT,
            bytes: BYTES_PER_SECTOR,
        }),
        _ => Err(status::INVALID_INFO_CLASS),
    }
}

fn volume_flags(naming: Naming) -> u32
    ensures { result ≡ volume_flags naming }
{
    match naming {
        Naming::Exact => VOLUME_FLAGS | CASE_SENSITIVE,
        Naming::Folded => VOLUME_FLAGS,
    }
}

impl Store {
    /// What a node tells of itself, by class.
    fn file_info(&self, node: NodeId, class: u32) -> Result<FileInfo, Status>
        requires live { IsLive self.now.tree node.0 }
        requires kept { IsSome (get nat_eq self.now.states node.0) }
        ensures ok { IfOk result (λ info. node_info (own_node self.now node.0) class ≡ Some info) }
        ensures err { IfErr result (λ status. IsNoInfo (node_info (own_node self.now node.0) class) status) }
    {
        let end = self.tree.end(node);
        let folder = end.is_none();
        let end = end.unwrap_or(0);
        let state = self.state(node);
        let attributes = shown_attributes(folder, state.attributes);
        match class {
            BASIC => Ok(FileInfo::Basic {
                moments: state.moments,
                attributes,
            }),
            STANDARD => Ok(FileInfo::Standard {
                allocation: allocation_for(end),
                end,
                links: 1,
                pending: u8::from(state.pending),
                folder: u8::from(folder),
            }),
            ATTRIBUTE_TAG => Ok(FileInfo::Tag { attributes, tag: 0 }),
            _ => Err(status::INVALID_INFO_CLASS),
        }
    }

    pub fn query_file(&self, file: u32, class: u32, mut room: Vec<u8>) -> Outcome
        requires sound { IsSound self.now }
        requires room { room.items ≡ [] }
        ensures { Serves self.now self.now (on_handle (drive_of self.now) file (query_file (drive_of self.now) class)) result }
    {
        let Some(handle) = self.handle(file) else {
            return Err(Status::INVALID_HANDLE);
        };
        let info = match self.file_info(handle.node, class) {
            Ok(info) => info,
            Err(status) => return Err(status),
        };
        match put_file_info(&mut room, &info) {
            Ok(()) => Ok(Done::Replied(Body::Buffer(Bytes::of(room)), News::none())),
            Err(_) => Err(Status::NO_MEMORY),
        }
    }

    pub fn query_volume(&self, file: u32, class: u32, mut room: Vec<u8>) -> Outcome
        requires sound { IsSound self.now }
        requires room { room.items ≡ [] }
        ensures { Serves self.now self.now (on_handle (drive_of self.now) file (query_volume (drive_of self.now) class)) result }
    {
        let Some(_) = self.handle(file) else {
            return Err(Status::INVALID_HANDLE);
        };
        let info = match volume_info(self.alloc, &self.label, self.naming, class) {
            Ok(info) => info,
            Err(status) => return Err(status),
        };
        match put_volume(&mut room, &info) {
            Ok(()) => Ok(Done::Replied(Body::Buffer(Bytes::of(room)), News::none())),
            Err(_) => Err(Status::NO_MEMORY),
        }
    }
}
