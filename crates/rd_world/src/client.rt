//! A client's end whose announcements stay short.

ghost use Rattle.std.specs.Prelude.{◌≡◌, ◌≢◌, ◌≤◌, ◌↔◌, [], length, IfOk, IsTrue, IfSome, Option, Err};
ghost use Rattle.std.specs.Option.{option_map};
ghost use Rattle.rd_chunk.specs.Carrier.{IsMessage};
ghost use Rattle.rd_client.specs.Core.{AreDevices, ClientStep, IsClientReady, MayAnswer, MayHear, MayTellAdded, MayTellRemoved, Outgoing, begins, directs, has_device, hears, is_gone, may_be_asked, new_client, refresh, sends, tells_added, tells_removed};
ghost use Rattle.rd_world.specs.Client.{listed_at};
ghost use Rattle.rd_world.specs.Opening.{AreShort, ids_of};
ghost use Rattle.rd_declared.specs.Printers.{max_printer_data};

use rd_base::{Bytes, Status};
use rd_client::{ClientCore, Heard};
use rd_devices::{Announce, DeviceList};
use rd_drive::Job;
use rd_hello::EndFault;
use std::alloc::{AllocError, Global};
use std::marker::Model;

/// A client's end of a channel. Each of its announcements is short, so the data of a printer may be replaced at any time. Contracts see a
/// `ClientCoreState`.
#[derive(Drop)]
pub struct Client {
    core: ClientCore,
    /// The ids of its devices, in the order of its list.
    ids: Vec<u32>,
}

impl Model for Client {
    ghost use Rattle.rd_client.specs.Core.{ClientCoreState};
    ghost use Rattle.rd_world.specs.Client.{KeepsClient};

    ghost Value = { ClientCoreState };

    ghost view = { λ c. c.core };

    ghost invariant = { λ c. KeepsClient c.core c.ids.items };
}

impl Client {
    /// A client on no channel, with these devices. What it allocates later comes from `alloc` too.
    pub fn new(alloc: Global, devices: DeviceList) -> Result<Self, AllocError>
        requires devices { AreDevices devices }
        requires short { AreShort devices }
        ensures { IfOk result (λ made. made ≡ new_client devices) }
    {
        let ids = ids_of(alloc, devices.as_slice())?;
        Ok(Client {
            core: ClientCore::new(alloc, devices),
            ids,
        })
    }

    /// A channel begins: of what came before only the devices are kept, and which of them are removed.
    pub fn begin(&mut self, channel: u32)
        ensures step { ClientStep self.old (begins channel) self.new }
    {
        self.core.begin(channel);
    }

    /// How many requests were heard on the channel.
    pub fn asked(&self) -> u64
        ensures { result ≡ self.now.asked }
    {
        self.core.asked()
    }

    /// Whether the opening is over.
    pub fn ready(&self) -> bool
        ensures { IsTrue result ↔ IsClientReady self.now }
    {
        self.core.ready()
    }

    /// Hears a message of the host. After a message that is wrong the answer stays until a channel begins; want of memory changes nothing.
    pub fn hear(&mut self, message: &[u8]) -> Result<Heard, EndFault>
        requires { MayHear self.old }
        ensures step { ClientStep self.old (hears message.now result) self.new }
        ensures held { IfSome self.old.core.fault (λ held. result ≡ Err held) }
    {
        self.core.hear(message)
    }

    /// Answers a request that no device runs. Want of memory changes nothing.
    pub fn direct(&mut self, job: &Job, device: u32, status: Status) -> Result<(), AllocError>
        requires { MayAnswer self.old status }
        ensures step { ClientStep self.old (directs job.now device status result) self.new }
    {
        self.core.direct(job, device, status)
    }

    /// Whether a request may have come, so that one may be answered directly (`direct`).
    pub fn may_be_asked(&self) -> bool
        ensures { result ≡ may_be_asked self.now.core.shake }
    {
        self.core.may_be_asked()
    }

    /// Whether the client has a device with this id, removed or not.
    pub fn has_device(&self, device: u32) -> bool
        ensures { result ≡ has_device self.now device }
    {
        self.core.has_device(device)
    }

    /// Whether a device was removed and not added since.
    pub fn is_gone(&self, device: u32) -> bool
        ensures { result ≡ is_gone self.now device }
    {
        self.core.is_gone(device)
    }

    /// How many devices the client has, removed or not.
    pub fn len(&self) -> usize
        ensures { result ≡ length self.now.devices }
    {
        self.ids.len()
    }

    /// The id of the device at a place of the client's list, unless the device is removed.
    pub fn listed_at(&self, place: usize) -> Option<u32>
        ensures { result ≡ listed_at self.now place }
    {
        let id = self.ids.get(place).copied()?;
        if self.core.is_gone(id) {
            return None;
        }
        Some(id)
    }

    /// Replaces the data of a device, if the client has it. It takes no memory.
    pub fn refresh(&mut self, device: u32, body: Bytes)
        requires { length body ≤ max_printer_data }
        ensures { self.new ≡ refresh self.old device body }
    {
        if self.core.has_device(device) {
            self.core.refresh(device, body);
        }
    }

    /// Tells the host that a device is gone. Want of memory changes nothing.
    pub fn tell_removed(&mut self, device: u32) -> Result<(), AllocError>
        requires { MayTellRemoved self.old device }
        ensures step { ClientStep self.old (tells_removed device result) self.new }
    {
        self.core.tell_removed(device)
    }

    /// Tells the host that a device is there again. Want of memory changes nothing.
    pub fn tell_added(&mut self, device: u32) -> Result<(), AllocError>
        requires { MayTellAdded self.old device }
        ensures step { ClientStep self.old (tells_added device result) self.new }
    {
        self.core.tell_added(device)
    }

    /// The message that is to be sent first, if one waits. It takes no memory.
    pub fn outbox(&mut self) -> Option<Bytes>
        ensures step { (sent : Option Outgoing) × ClientStep self.old (sends sent) self.new × (result ≡ option_map (λ o. o.message) sent) }
        ensures message { IfSome result IsMessage }
    {
        self.core.outbox()
    }

    /// Whether a message waits to be sent.
    pub fn has_message(&self) -> bool
        ensures { IsTrue result ↔ (self.now.core.outbox ≢ []) }
    {
        self.core.has_message()
    }

    /// Nothing is to be sent any more. It takes no memory.
    pub fn clear(&mut self)
        ensures { self.new ≡ record self.old { core = record self.old.core { outbox = [] } } }
    {
        while self.core.outbox().is_some() {}
    }
}

/// The ids of devices, in their order.
fn ids_of(alloc: Global, devices: &[Announce]) -> Result<Vec<u32>, AllocError>
    ensures { IfOk result (λ ids. ids.items ≡ ids_of devices.now) }
{
    let mut ids = Vec::new(alloc);
    for device in devices {
        ids.push(device.id)?;
    }
    Ok(ids)
}
