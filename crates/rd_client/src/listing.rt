//! The lists by which a client announces its devices (MS-RDPEFS 2.2.2.9), written without copying a device.

ghost use Rattle.std.specs.Prelude.{◌≡◌, ◌+◌, ◌-◌, ◌^◌, ◌≤◌, ◌<◌, ◌++◌, [], All, IfOk, filter, length, min, vec_capacity, vec_len};
ghost use Rattle.std.specs.List.{flat_map};
ghost use Rattle.rd_devices.specs.DeviceList.{HasCountableBody, announce_bytes, list_bytes};
ghost use Rattle.rd_client.specs.Heard.{is_in_list};

use rd_base::{Bytes, Format, HEADER_LEN, Packet, put_header, put_u32};
use rd_devices::Announce;
use std::alloc::{AllocError, Global};
use std::collections::BTreeSet;

/// The list of the devices that are told of: the one with this id, or where none is named each that isn't removed.
pub fn write_told(
    alloc: Global,
    devices: &[Announce],
    gone: &BTreeSet<u32>,
    only: Option<u32>,
) -> Result<Bytes, AllocError>
    requires countable { All HasCountableBody devices.now }
    requires few { length devices.now < 2 ^ 32 }
    requires short { length (flat_map announce_bytes (filter (is_in_list gone.now only) devices.now)) < 2 ^ 32 }
    ensures { IfOk result (λ message. message ≡ list_bytes (filter (is_in_list gone.now only) devices.now)) }
{
    let size = HEADER_LEN + 4 + size_of_told(devices, gone, only);
    let room = Vec::with_capacity(alloc, size)?;
    Ok(told_in(room, devices, gone, only))
}

/// The list in a buffer that has room for it and for no byte more.
#[tactic(auto, unfolding(rd_base::specs::Fields::bytes32), using(std::proofs::Common::append_assoc))]
fn told_in(room: Vec<u8>, devices: &[Announce], gone: &BTreeSet<u32>, only: Option<u32>) -> Bytes
    requires countable { All HasCountableBody devices.now }
    requires few { length devices.now < 2 ^ 32 }
    requires empty { room.items ≡ [] }
    requires exact { vec_capacity room ≡ 8 + length (flat_map announce_bytes (filter (is_in_list gone.now only) devices.now)) }
    ensures { result ≡ list_bytes (filter (is_in_list gone.now only) devices.now) }
{
    let mut out = room;
    put_header(&mut out, Packet::DeviceListAnnounce);
    put_u32(&mut out, count_of_told(devices, gone, only));
    put_told(&mut out, devices, gone, only);
    Bytes::of(out)
}

/// Appends the devices that are told of to bytes that have room for them.
fn put_told(out: &mut Vec<u8>, devices: &[Announce], gone: &BTreeSet<u32>, only: Option<u32>)
    requires countable { All HasCountableBody devices.now }
    requires room { vec_len out.old + length (flat_map announce_bytes (filter (is_in_list gone.now only) devices.now)) ≤ vec_capacity out.old }
    ensures { out.new.items ≡ out.old.items ++ flat_map announce_bytes (filter (is_in_list gone.now only) devices.now) }
{
    for announce in devices {
        if is_in_list(gone, only, announce) {
            announce.put(out);
        }
    }
}

/// How many bytes the devices that are told of are written in.
fn size_of_told(devices: &[Announce], gone: &BTreeSet<u32>, only: Option<u32>) -> usize
    requires countable { All HasCountableBody devices.now }
    requires short { length (flat_map announce_bytes (filter (is_in_list gone.now only) devices.now)) < 2 ^ 32 }
    ensures { result ≡ length (flat_map announce_bytes (filter (is_in_list gone.now only) devices.now)) }
{
    let mut size = 0usize;
    for announce in devices {
        if is_in_list(gone, only, announce) {
            size += announce.size();
        }
    }
    size
}

/// How many devices are told of.
fn count_of_told(devices: &[Announce], gone: &BTreeSet<u32>, only: Option<u32>) -> u32
    requires { length devices.now < 2 ^ 32 }
    ensures { result ≡ length (filter (is_in_list gone.now only) devices.now) }
{
    let mut count = 0u32;
    for announce in devices {
        if is_in_list(gone, only, announce) {
            count += 1;
        }
    }
    count
}

/// Whether a device is told of.
fn is_in_list(gone: &BTreeSet<u32>, only: Option<u32>, announce: &Announce) -> bool
    ensures { result ≡ is_in_list gone.now only announce.now }
{
    match only {
        Some(device) => announce.id == device,
        None => !gone.contains(&announce.id),
    }
}
