//! A client's end of a channel (MS-RDPEFS 3.2.5).

ghost use Rattle.std.specs.Prelude.{◌≡◌, ◌≢◌, ◌==◌, ◌↔◌, [], position, IsTrue, IfSome, Option, Err};
ghost use Rattle.std.specs.List.{list_any};
ghost use Rattle.std.specs.Option.{option_map};
ghost use Rattle.rd_chunk.specs.Carrier.{IsMessage};
ghost use Rattle.rd_client.specs.Core.{AreDevices, ClientStep, IsClientKept, IsClientReady, MayAnswer, MayHear, MayRefresh, MayTellAdded, MayTellRemoved, Outgoing, begins, directs, has_device, hears, is_gone, may_be_asked, new_client, refreshes, sends, tells_added, tells_removed};
ghost use Rattle.rd_client.specs.Heard.{ask_of};

use crate::heard::{Came, Heard};
use crate::hearing::{ClientEnd, listen};
use crate::listing::write_told;
use crate::outgoing::Outgoing;
use rd_base::{Bytes, Items, Key, Status};
use rd_core::EndCore;
use rd_devices::{Announce, DeviceList, write_removal};
use rd_drive::Job;
use rd_hello::{ClientState, EndFault};
use rd_irp::{Body, Head, Request, kind_of, write_completion};
use std::alloc::{AllocError, Global};
use std::collections::BTreeSet;
use std::marker::Model;

/// A client's end of a channel. What it answers a message with is at once in its outbox; what its devices answer isn't its own. Contracts see a
/// `ClientCoreState`.
#[derive(Drop)]
pub struct ClientCore {
    alloc: Global,
    end: ClientEnd,
    channel: u32,
    asked: u64,
    devices: Vec<Announce>,
    /// The ids of the devices that were removed and not added since.
    gone: BTreeSet<u32>,
}

impl Model for ClientCore {
    ghost use Rattle.rd_client.specs.Core.{ClientCoreState, IsClientKept};
    ghost use Rattle.rd_client.specs.Heard.{client_devices};

    ghost Value = { ClientCoreState };

    ghost view = { λ c. record { core = c.end; channel = c.channel; asked = c.asked; devices = client_devices c.devices.items c.gone } };

    ghost invariant = { λ c. IsClientKept (record { core = c.end; channel = c.channel; asked = c.asked; devices = client_devices c.devices.items c.gone }) };
}

impl ClientCore {
    /// A client on no channel, with these devices. It takes no memory; what it allocates later comes from `alloc`.
    pub fn new(alloc: Global, devices: DeviceList) -> ClientCore
        requires { AreDevices devices }
        ensures step { result ≡ new_client devices }
        ensures kept { IsClientKept result }
    {
        ClientCore {
            alloc,
            end: EndCore::new(alloc, ClientState::Start),
            channel: 0,
            asked: 0,
            devices: devices.into_vec(),
            gone: BTreeSet::new(alloc),
        }
    }

    /// A channel begins: of what came before only the devices are kept, and which of them are removed.
    pub fn begin(&mut self, channel: u32)
        ensures step { ClientStep self.old (begins channel) self.new }
        ensures kept { IsClientKept self.new }
    {
        self.end.begin(ClientState::Start);
        self.channel = channel;
        self.asked = 0;
    }

    /// How many requests were heard on the channel.
    pub fn asked(&self) -> u64
        ensures { result ≡ self.now.asked }
    {
        self.asked
    }

    /// Whether the opening is over.
    pub fn ready(&self) -> bool
        ensures { IsTrue result ↔ IsClientReady self.now }
    {
        self.end.state() == ClientState::Ready
    }

    /// Hears a message of the host. After a message that is wrong the answer stays until a channel begins; want of memory changes nothing.
    pub fn hear(&mut self, message: &[u8]) -> Result<Heard, EndFault>
        requires { MayHear self.old }
        ensures step { ClientStep self.old (hears message.now result) self.new }
        ensures kept { IsClientKept self.new }
        ensures held { IfSome self.old.core.fault (λ held. result ≡ Err held) }
    {
        let devices = self.devices.as_slice();
        let came = match listen(&mut self.end, self.alloc, devices, &self.gone, message) {
            Ok(came) => came,
            Err(fault) => return Err(fault),
        };
        match came {
            Came::Nothing => Ok(Heard::Nothing),
            Came::Print(notice) => Ok(Heard::Print(notice)),
            Came::Ask(request) => {
                let index = self.asked;
                self.asked += 1;
                Ok(ask_of(request, self.channel, index))
            }
        }
    }

    /// Answers a request that no device runs. Want of memory changes nothing.
    pub fn direct(&mut self, job: &Job, device: u32, status: Status) -> Result<(), AllocError>
        requires { MayAnswer self.old status }
        ensures step { ClientStep self.old (directs job.now device status result) self.new }
        ensures kept { IsClientKept self.new }
    {
        let head = Head {
            device,
            completion: job.completion,
            status,
        };
        let message = write_completion(self.alloc, kind_of(&job.op), &head, &Body::Fault)?;
        self.end.put(Outgoing::answer(message, job.key))
    }

    /// Whether a request may have come, so that one may be answered directly (`direct`).
    pub fn may_be_asked(&self) -> bool
        ensures { result ≡ may_be_asked self.now.core.shake }
    {
        matches!(self.end.state(), ClientState::Waiting | ClientState::Ready)
    }

    /// Whether the client has a device with this id, removed or not.
    pub fn has_device(&self, device: u32) -> bool
        ensures { result ≡ has_device self.now device }
    {
        is_among(self.devices.as_slice(), device)
    }

    /// Whether a device was removed and not added since.
    pub fn is_gone(&self, device: u32) -> bool
        ensures { result ≡ is_gone self.now device }
    {
        let removed = self.gone.contains(&device);
        let there = is_among(self.devices.as_slice(), device);
        removed & there
    }

    /// Replaces the data of a device. It takes no memory.
    pub fn refresh(&mut self, device: u32, body: Bytes)
        requires { MayRefresh self.old device body }
        ensures step { ClientStep self.old (refreshes device body) self.new }
        ensures kept { IsClientKept self.new }
    {
        match place_of(self.devices.as_slice(), device) {
            Some(place) => {
                let announce = &mut self.devices[place];
                announce.body = body;
            }
            None => {}
        }
    }

    /// Tells the host that a device is gone. Want of memory changes nothing.
    pub fn tell_removed(&mut self, device: u32) -> Result<(), AllocError>
        requires { MayTellRemoved self.old device }
        ensures step { ClientStep self.old (tells_removed device result) self.new }
        ensures kept { IsClientKept self.new }
    {
        let removal = Items::of(Vec::from_array(self.alloc, [device])?);
        let message = write_removal(self.alloc, &removal)?;
        self.gone.insert(device)?;
        match self.end.put(Outgoing::plain(message)) {
            Ok(()) => Ok(()),
            Err(error) => {
                self.gone.remove(&device);
                Err(error)
            }
        }
    }

    /// Tells the host that a device is there again. Want of memory changes nothing.
    pub fn tell_added(&mut self, device: u32) -> Result<(), AllocError>
        requires { MayTellAdded self.old device }
        ensures step { ClientStep self.old (tells_added device result) self.new }
        ensures kept { IsClientKept self.new }
    {
        let message = write_told(
            self.alloc,
            self.devices.as_slice(),
            &self.gone,
            Some(device),
        )?;
        self.end.put(Outgoing::plain(message))?;
        self.gone.remove(&device);
        Ok(())
    }

    /// The message that is to be sent first, if one waits. It takes no memory.
    pub fn outbox(&mut self) -> Option<Bytes>
        ensures step { (sent : Option Outgoing) × ClientStep self.old (sends sent) self.new × (result ≡ option_map (λ o. o.message) sent) }
        ensures message { IfSome result IsMessage }
        ensures kept { IsClientKept self.new }
    {
        match self.end.send() {
            Some(sent) => Some(sent.into_message()),
            None => None,
        }
    }

    /// Whether a message waits to be sent.
    pub fn has_message(&self) -> bool
        ensures { IsTrue result ↔ (self.now.core.outbox ≢ []) }
    {
        self.end.has_message()
    }
}

/// The place of the device with this id. No request passes here, so a list of at most 256 is searched.
fn place_of(devices: &[Announce], device: u32) -> Option<usize>
    ensures { result ≡ position (λ a. a.id == device) devices.now }
{
    devices.iter().position(|announce| announce.id == device)
}

/// Whether one of the devices has this id.
fn is_among(devices: &[Announce], device: u32) -> bool
    ensures { result ≡ list_any (λ a. a.id == device) devices.now }
{
    devices.iter().any(|announce| announce.id == device)
}

/// A request with its place on the channel.
fn ask_of(request: Request, channel: u32, index: u64) -> Heard
    ensures { result ≡ ask_of request channel index }
{
    let Request {
        device,
        file,
        completion,
        op,
    } = request;
    let key = Key { channel, index };
    Heard::Ask {
        device,
        job: Job {
            key,
            file,
            completion,
            op,
        },
    }
}
