//! The front: what the reader and the writer of a client share.

ghost use Rattle.std.specs.Prelude.{◌≡◌, ◌<◌, [], false, length, IfSome, None};
ghost use Rattle.rd_front.specs.Front.{DeskDoes, done_at, is_front_full, is_front_ready, is_told_there, desk_place, standing_of};

use crate::calls::{FrontCall, FrontReply};
use crate::device_desk::DeviceDesk;
use crate::kept_job::KeptJob;
use rd_declared::Printers;
use rd_desk::{DeskCall, DeskReply};
use rd_folder::Folder;
use rd_printer::Cache;
use rd_turn::Object;
use rd_world::Client;
use std::alloc::Global;
use std::marker::Model;
use std::sync::Wait;

/// So many messages in the core's outbox, and nothing more is heard, nor told of a device.
const MAX_UNSENT: u32 = 1024;

/// What the reader and the writer of a client share. Contracts see a `FrontState`.
pub struct Front<'a, T: Wait, F: Folder + Drop> {
    pub(crate) rt: &'a T,
    pub(crate) alloc: Global,
    pub(crate) client: Client,
    pub(crate) printers: Printers,
    pub(crate) cache: Cache,
    pub(crate) desks: Vec<DeviceDesk<'a, F>>,
    pub(crate) kept: Option<KeptJob>,
    /// The number of the channel that began last.
    pub(crate) channel: u32,
    /// Whether it hasn't ended.
    pub(crate) on: bool,
    /// Whether the session is over.
    pub(crate) over: bool,
    /// At most so many messages stand in the core's outbox.
    pub(crate) unsent: u32,
}

impl<'a, T: Wait, F: Folder + Drop> Model for Front<'a, T, F> {
    ghost use Rattle.rd_front.specs.State.{FrontState};

    ghost Value = { FrontState };

    ghost view = { λ f. record {
      client = f.client;
      printers = f.printers;
      cache = f.cache;
      desks = f.desks.items;
      kept = f.kept;
      channel = f.channel;
      on = f.on;
      over = f.over;
      unsent = f.unsent;
    } };
}

impl<'a, T: Wait, F: Folder + Drop> Object for Front<'a, T, F> {
    ghost use Rattle.rd_front.specs.Front.{FrontStep};

    type Call = FrontCall;

    type Reply = FrontReply;

    ghost steps = { FrontStep };

    fn call(&mut self, call: FrontCall) -> FrontReply {
        match call {
            FrontCall::Begin(channel) => self.begin(channel),
            FrontCall::Hear(message) => self.hear(message.as_slice()),
            FrontCall::Retry => self.retry(),
            FrontCall::Next {
                channel,
                place,
                room,
            } => self.next(channel, place, room),
            FrontCall::Remove(device) => self.remove(device),
            FrontCall::Add(device) => self.add(device),
            FrontCall::Look => self.look(),
            FrontCall::EndChannel => self.end_channel(),
            FrontCall::EndSession => self.end_session(),
        }
    }
}

impl<'a, T: Wait, F: Folder + Drop> Front<'a, T, F> {
    /// A front over these desks, before the first channel.
    pub fn new(
        rt: &'a T,
        alloc: Global,
        client: Client,
        printers: Printers,
        desks: Vec<DeviceDesk<'a, F>>,
    ) -> Self
        ensures { result ≡ record {
          client = client;
          printers = printers;
          cache = [];
          desks = desks.entry.items;
          kept = None;
          channel = 0;
          on = false;
          over = false;
          unsent = 0;
        } }
    {
        Front {
            rt,
            alloc,
            client,
            printers,
            cache: Cache::new(alloc),
            desks,
            kept: None,
            channel: 0,
            on: false,
            over: false,
            unsent: 0,
        }
    }

    /// The desks, so that their passes can be joined.
    pub fn into_desks(self) -> Vec<DeviceDesk<'a, F>>
        ensures { result.items ≡ self.entry.desks }
    {
        let Self {
            rt: _,
            alloc: _,
            client: _,
            printers: _,
            cache: _,
            desks,
            kept: _,
            channel: _,
            on: _,
            over: _,
            unsent: _,
        } = self;
        desks
    }

    /// Makes a call of the desk at a place.
    pub(crate) fn call_desk(&mut self, place: usize, call: DeskCall) -> DeskReply
        requires { place < length self.old.desks }
        ensures { DeskDoes self.old place call result self.new }
    {
        let desk = &mut self.desks[place];
        desk.call(self.rt, call)
    }

    /// The place of a device's desk, if it has one.
    pub(crate) fn place_of(&self, device: u32) -> Option<usize>
        ensures place { result ≡ desk_place self.now.desks device }
        ensures within { IfSome result (λ place. place < length self.now.desks) }
    {
        self.desks.iter().position(|desk| desk.id() == device)
    }

    /// Whether the client's opening is over.
    pub(crate) fn is_ready(&self) -> bool
        ensures { result ≡ is_front_ready self.now }
    {
        self.client.ready()
    }

    /// Whether the host was last told that a device is there.
    pub(crate) fn is_told(&self, device: u32) -> bool
        ensures { result ≡ is_told_there self.now device }
    {
        self.client.ready() && self.client.has_device(device) && !self.client.is_gone(device)
    }

    /// Whether 1,024 messages may stand in the core's outbox.
    pub(crate) fn is_full(&self) -> bool
        ensures { result ≡ is_front_full self.now }
    {
        MAX_UNSENT <= self.unsent
    }

    /// How far the channel is.
    fn look(&self) -> FrontReply
        ensures { result ≡ standing_of self.now }
    {
        FrontReply::Stands {
            ready: self.on && self.client.ready(),
            asked: self.client.asked(),
        }
    }

    /// The reply where something is done.
    pub(crate) fn done(&self, at: Option<usize>) -> FrontReply
        ensures { result ≡ done_at at self.now }
    {
        FrontReply::Done {
            at,
            full: self.is_full(),
        }
    }
}

impl<'a, T: Wait, F: Folder + Drop> Drop for Front<'a, T, F> {
    fn drop(self) {
        let Self {
            rt: _,
            alloc: _,
            client: _,
            printers: _,
            cache: _,
            desks: _,
            kept: _,
            channel: _,
            on: _,
            over: _,
            unsent: _,
        } = self;
    }
}
