//! What the lines read so far say that later ones depend on: the devices, the nodes of each drive, and how far the `at` lines
//! have come.

ghost use Rattle.std.specs.Option.{option_copied};
ghost use Rattle.rd_base.specs.Limits.{max_nodes};

use crate::keys::key_of;
use crate::keyword::Mode;
use crate::line::Line;
use rd_base::Units;
use rd_dirinfo::{Naming, Path};
use std::alloc::{AllocError, Global};
use std::collections::BTreeMap;
use std::marker::Model;

/// The most devices of a script.
const MAX_SCRIPT_DEVICES: usize = 32;

/// The most nodes of a drive, with the root.
const MAX_NODES: usize = 65_536;

/// What a device is.
#[derive(Clone, Copy)]
pub enum DeviceKind {
    /// A drive in memory, and how it tells names apart.
    Drive(Naming),
    /// A drive over a folder of this machine.
    Real,
    Printer,
}

/// A device that a line declared. The nodes of a drive stand under what its naming sees of their paths, each with whether it is a
/// folder.
#[derive(Drop)]
pub struct Device {
    id: u32,
    kind: DeviceKind,
    nodes: BTreeMap<Vec<Vec<u16>>, bool>,
}

impl Model for Device {
    ghost use Rattle.rd_script.specs.Said.{SaidDevice};
    ghost use Rattle.rd_script.specs.Kept.{kept_nodes};

    ghost Value = { SaidDevice };

    ghost view = { λ d. record { id = d.id; kind = d.kind; nodes = kept_nodes d.nodes.entries } };
}

impl Device {
    ghost use Rattle.std.specs.Prelude.{◌≡◌, OnOk, IfOk, length, map, nat_lt};
    ghost use Rattle.rd_script.specs.Said.{is_free_in, is_free_key, said_node, naming_of, root_node, with_said_node};

    fn new(alloc: Global, id: u32, kind: DeviceKind) -> Result<Self, AllocError>
        ensures { IfOk result (λ d. d ≡ record { id = id; kind = kind; nodes = root_node }) }
    {
        let mut nodes = BTreeMap::new(alloc);
        nodes.insert(Vec::new(alloc), true)?;
        Ok(Device { id, kind, nodes })
    }

    fn id(&self) -> u32
        ensures { result ≡ self.now.id }
    {
        self.id
    }

    /// How it tells the names of its nodes apart, if it has any.
    fn naming(&self) -> Option<Naming>
        ensures { result ≡ naming_of self.now.kind }
    {
        match self.kind {
            DeviceKind::Drive(naming) => Some(naming),
            DeviceKind::Real | DeviceKind::Printer => None,
        }
    }

    /// Whether a folder is at a path that is seen so, if anything is.
    fn node_at(&self, key: &[Vec<u16>]) -> Option<bool>
        ensures { result ≡ said_node self.now.nodes (map (λ name. name.items) key.now) }
    {
        self.nodes.get(key).copied()
    }

    /// Whether nothing is at a path that is seen so, and a folder is where its parent is.
    fn is_free_key(&self, key: &[Vec<u16>]) -> bool
        ensures { result ≡ is_free_key self.now.nodes (map (λ name. name.items) key.now) }
    {
        if key.is_empty() {
            return false;
        }
        if !self.node_at(&key[..key.len() - 1]).unwrap_or(false) {
            return false;
        }
        self.node_at(key).is_none()
    }

    /// Whether a node can be made at a path.
    fn is_free(&self, alloc: Global, path: &[Units]) -> Result<bool, AllocError>
        ensures { IfOk result (λ free. free ≡ is_free_in path.now self.now) }
    {
        let Some(naming) = self.naming() else {
            return Ok(false);
        };
        let key = key_of(alloc, naming, path)?;
        Ok(self.is_free_key(key.as_slice()))
    }

    /// Whether it has room for one more node.
    fn has_room(&self) -> bool
        ensures { result ≡ nat_lt (length self.now.nodes) max_nodes }
    {
        self.nodes.len() < MAX_NODES
    }

    fn add(&mut self, alloc: Global, path: &[Units], folder: bool) -> Result<(), AllocError>
        ensures { OnOk result (self.new ≡ with_said_node path.now folder self.old) }
    {
        if let Some(naming) = self.naming() {
            let key = key_of(alloc, naming, path)?;
            self.nodes.insert(key, folder)?;
        }
        Ok(())
    }
}

/// What the lines so far say.
#[derive(Drop)]
pub struct Known {
    mode: Mode,
    devices: Vec<Device>,
    channel: u32,
    requests: u64,
}

impl Model for Known {
    ghost use Rattle.rd_script.specs.Said.{Said};

    ghost Value = { Said };

    ghost view = { λ k. record { mode = k.mode; devices = k.devices.items; channel = k.channel; requests = k.requests } };
}

impl Known {
    ghost use Rattle.std.specs.Prelude.{◌≡◌, ◌==◌, OnOk, IfOk, length, nat_le, position};
    ghost use Rattle.rd_script.specs.Said.{device_at, has_room, is_declared, is_free, is_in_order, is_known, max_script_devices, naming_at, nothing_said, with_said_device, with_line, with_node_at, SaidDevice};

    pub fn new(alloc: Global, mode: Mode) -> Self
        ensures { result ≡ nothing_said mode }
    {
        Known {
            mode,
            devices: Vec::new(alloc),
            channel: 0,
            requests: 0,
        }
    }

    pub fn mode(&self) -> Mode
        ensures { result ≡ self.now.mode }
    {
        self.mode
    }

    fn position(&self, id: u32) -> Option<usize>
        ensures { result ≡ position (λ (d : SaidDevice). d.id == id) self.now.devices }
    {
        self.devices.iter().position(|device| device.id() == id)
    }

    fn device(&self, id: u32) -> Option<&Device>
        ensures { option_copied result ≡ device_at self.now id }
    {
        self.devices.iter().find(|device| device.id() == id)
    }

    /// Whether a line before declared a device.
    pub fn is_declared(&self, id: u32) -> bool
        ensures { result ≡ is_declared self.now id }
    {
        self.device(id).is_some()
    }

    /// Whether a line may name a device. To a host none is unknown.
    pub fn is_known(&self, id: u32) -> bool
        ensures { result ≡ is_known self.now id }
    {
        self.mode.is_host() || self.is_declared(id)
    }

    /// Whether there is no room for one more device.
    pub fn is_full(&self) -> bool
        ensures { result ≡ nat_le max_script_devices (length self.now.devices) }
    {
        self.devices.len() >= MAX_SCRIPT_DEVICES
    }

    /// How a device in memory tells the names of its nodes apart. No other device has nodes.
    pub fn naming(&self, id: u32) -> Option<Naming>
        ensures { result ≡ naming_at self.now id }
    {
        match self.device(id) {
            Some(device) => device.naming(),
            None => None,
        }
    }

    /// Whether a node can be made at a path of a device.
    pub fn is_free(&self, alloc: Global, id: u32, path: &Path) -> Result<bool, AllocError>
        ensures { IfOk result (λ free. free ≡ is_free self.now id path.now) }
    {
        match self.device(id) {
            Some(device) => device.is_free(alloc, path.names()),
            None => Ok(false),
        }
    }

    /// Whether a device has room for one more node.
    pub fn has_room(&self, id: u32) -> bool
        ensures { result ≡ has_room self.now id }
    {
        match self.device(id) {
            Some(device) => device.has_room(),
            None => false,
        }
    }

    /// Whether an `at` line may stand here: none before it is of a later channel, or of a later request of the same.
    pub fn is_in_order(&self, channel: u32, requests: u64) -> bool
        ensures { result ≡ is_in_order self.now channel requests }
    {
        self.channel < channel || self.channel == channel && self.requests <= requests
    }

    /// Takes in a line that was read.
    pub fn take(&mut self, alloc: Global, line: &Line) -> Result<(), AllocError>
        ensures { OnOk result (self.new ≡ with_line self.old line.now) }
    {
        match line {
            Line::Drive { device, .. } => {
                self.declare(alloc, *device, DeviceKind::Drive(Naming::Exact))
            }
            Line::DriveFold { device, .. } => {
                self.declare(alloc, *device, DeviceKind::Drive(Naming::Folded))
            }
            Line::Real { device, .. } => self.declare(alloc, *device, DeviceKind::Real),
            Line::Printer { device, .. } => self.declare(alloc, *device, DeviceKind::Printer),
            Line::Folder { device, path } => self.add(alloc, *device, path, true),
            Line::File { device, path, .. } | Line::Fill { device, path, .. } => {
                self.add(alloc, *device, path, false)
            }
            Line::AtRemove {
                channel,
                requests,
                ..
            }
            | Line::AtAdd {
                channel,
                requests,
                ..
            }
            | Line::AtDrop { channel, requests } => {
                self.channel = *channel;
                self.requests = *requests;
                Ok(())
            }
            _ => Ok(()),
        }
    }

    fn declare(&mut self, alloc: Global, id: u32, kind: DeviceKind) -> Result<(), AllocError>
        ensures { OnOk result (self.new ≡ with_said_device self.old id kind) }
    {
        let device = Device::new(alloc, id, kind)?;
        self.devices.push(device)?;
        Ok(())
    }

    fn add(&mut self, alloc: Global, id: u32, path: &Path, folder: bool) -> Result<(), AllocError>
        ensures { OnOk result (self.new ≡ with_node_at self.old id path.now folder) }
    {
        match self.position(id) {
            Some(i) => self.devices[i].add(alloc, path.names(), folder),
            None => Ok(()),
        }
    }
}
