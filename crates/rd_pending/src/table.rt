//! The table itself: each call of it is its step. The type above it (`Pending`) says what holds of every table that came to be by calls.

ghost use Rattle.std.specs.Prelude.{is_some, ◌≡◌, ◌↔◌, ◌++◌, ◌∷◌, [], Some, IsTrue, IfErr, IfOk, OnErr, OnOk};
ghost use Rattle.std.specs.BTreeMap.{insert_entry};
ghost use Rattle.std.specs.Option.{option_map};
ghost use Rattle.std.specs.Ordering.{nat_cmp};
ghost use Rattle.rd_pending.specs.Known.{IsKnown};
ghost use Rattle.rd_pending.specs.Places.{IsPlaceFor, slot_of_head};
ghost use Rattle.rd_pending.specs.Slots.{slot_of};
ghost use Rattle.rd_pending.specs.Table.{MayBegin, MaySubmit, TableStep, begins, completes, drops, drops_sent, live_refusal, lives, new_table, removes, sends, stages, submit_refusal, submits, takes};

use crate::calls::{
    CompleteNo, Completed, LiveNo, Outcome, Stage, SubmitNo, TakeNo, Taken, Target,
};
use crate::kept::Kept;
use crate::losing::{lose_dropped, lose_removed};
use crate::replies::read_reply;
use crate::slots::{Held, MAX_SLOTS, Slots};
use crate::target::{device_in, file_in, stale};
use rd_base::Bytes;
use rd_irp::{Head, Op, Request, kind_of, write_request};
use std::alloc::{AllocError, Global};
use std::collections::{BTreeMap, VecDeque};
use std::marker::Model;

/// The most devices that are there.
const MAX_DEVICES: usize = 256;

/// The most lives of a session.
const MAX_LIVES: u64 = 1 << 40;

/// The most requests of a session.
const MAX_NUMBERS: u64 = 1 << 40;

/// A table.
#[derive(Drop)]
pub struct Table {
    alloc: Global,
    /// The open channel.
    channel: Option<u32>,
    /// Each channel that began is below it.
    below: u64,
    /// How many requests were accepted on the last channel.
    asked: u64,
    /// The lives of the devices that are there.
    lives: BTreeMap<u32, u64>,
    /// How many lives were given.
    given: u64,
    /// How many of them since the last channel began.
    begun: u64,
    slots: Slots,
    /// How many requests were accepted.
    count: u64,
    /// The requests whose outcomes weren't handed out, by number.
    untaken: BTreeMap<u64, Kept>,
    /// The messages that aren't sent yet.
    outbox: VecDeque<Bytes>,
}

/// Where the next request goes.
#[derive(Clone, Copy, Debug)]
pub struct Place {
    /// Of the device.
    life: u64,
    /// The completion id.
    id: u32,
}

impl Model for Table {
    ghost use Rattle.std.specs.Prelude.{◌≤◌};
    ghost use Rattle.rd_pending.specs.Table.{TableState};

    ghost Value = { TableState };

    ghost view = { λ t. record {
      channel = t.channel;
      below = t.below;
      asked = t.asked;
      lives = t.lives.entries;
      given = t.given;
      begun = t.begun;
      slots = t.slots;
      count = t.count;
      untaken = t.untaken.entries;
      outbox = t.outbox.items;
    } };

    ghost invariant = { λ t. (t.asked ≤ t.count) × (t.begun ≤ t.given) };
}

impl Table {
    pub fn new(alloc: Global) -> Result<Self, AllocError>
        ensures { IfOk result (λ table. table ≡ new_table) }
    {
        Ok(Table {
            alloc,
            channel: None,
            below: 0,
            asked: 0,
            lives: BTreeMap::new(alloc),
            given: 0,
            begun: 0,
            slots: Slots::new(alloc)?,
            count: 0,
            untaken: BTreeMap::new(alloc),
            outbox: VecDeque::new(alloc),
        })
    }

    pub fn may_begin(&self, channel: u32) -> bool
        ensures { IsTrue result ↔ MayBegin self.now channel }
    {
        self.below <= u64::from(channel)
    }

    pub fn begin(&mut self, channel: u32) -> bool
        requires { MayBegin self.old channel }
        ensures { TableStep self.old (begins channel result) self.new }
    {
        if self.channel.is_some() {
            return false;
        }
        self.channel = Some(channel);
        self.below = u64::from(channel) + 1;
        self.asked = 0;
        self.begun = 0;
        true
    }

    /// Whether a channel is open.
    pub fn is_open(&self) -> bool
        ensures { result ≡ is_some self.now.channel }
    {
        self.channel.is_some()
    }

    /// Begins a device's next life.
    pub fn live(&mut self, device: u32) -> Result<u64, LiveNo>
        ensures { TableStep self.old (lives device result) self.new }
    {
        if let Some(no) = self.live_refusal(device) {
            return Err(no);
        }
        let life = self.given + 1;
        if self.lives.insert(device, life).is_err() {
            return Err(LiveNo::Memory);
        }
        self.given = life;
        self.begun += 1;
        Ok(life)
    }

    /// Why a device doesn't begin a life, if it doesn't; of memory it says nothing.
    fn live_refusal(&self, device: u32) -> Option<LiveNo>
        ensures { result ≡ live_refusal self.now device }
    {
        if self.channel.is_none() {
            return Some(LiveNo::NoChannel);
        }
        if self.lives.contains_key(&device) {
            return Some(LiveNo::Already);
        }
        if self.lives.len() >= MAX_DEVICES {
            return Some(LiveNo::Full);
        }
        if self.given >= MAX_LIVES {
            return Some(LiveNo::Worn { count: self.given });
        }
        None
    }

    /// Accepts a request, with all places that its outcome needs.
    pub fn submit(&mut self, app: u32, named: Target, op: Op) -> Result<u64, SubmitNo>
        requires { MaySubmit named op }
        ensures { TableStep self.old (submits app named op result) self.new }
    {
        let place = self.place_for(named)?;
        let number = self.count + 1;
        let device = device_in(named);
        let kind = kind_of(&op);
        let request = Request {
            device,
            file: file_in(named),
            completion: place.id,
            op,
        };
        let Ok(message) = write_request(self.alloc, &request) else {
            return Err(SubmitNo::Memory);
        };
        let Ok(()) = self.keep(number, Kept::new(device, place.life), message) else {
            return Err(SubmitNo::Memory);
        };
        self.slots.hold(
            place.id,
            Held {
                number,
                device,
                kind,
                dead: false,
            },
        );
        self.count = number;
        self.asked += 1;
        Ok(number)
    }

    /// The device's life and the completion id of the next request, or why it isn't accepted; of memory it says nothing.
    fn place_for(&self, named: Target) -> Result<Place, SubmitNo>
        ensures ok { IfOk result (IsPlaceFor self.now named) }
        ensures err { IfErr result (λ no. submit_refusal self.now named ≡ Some no) }
    {
        if self.channel.is_none() {
            return Err(SubmitNo::NoChannel);
        }
        let Some(life) = self.lives.get(&device_in(named)) else {
            return Err(SubmitNo::NoDevice);
        };
        if let Some(no) = stale(named, *life) {
            return Err(no);
        }
        let Some(id) = self.slots.least_free() else {
            return Err(SubmitNo::Full {
                held: MAX_SLOTS as u32,
            });
        };
        if self.count >= MAX_NUMBERS {
            return Err(SubmitNo::Worn { count: self.count });
        }
        Ok(Place { life: *life, id })
    }

    /// Keeps a request, and its message after the others. Where there is no memory for both, nothing changes.
    fn keep(&mut self, number: u64, kept: Kept, message: Bytes) -> Result<(), AllocError>
        ensures ok { OnOk result (self.new ≡ record self.old { untaken = insert_entry nat_cmp self.old.untaken number kept; outbox = self.old.outbox ++ message ∷ [] }) }
        ensures err { OnErr result (self.new ≡ self.old) }
    {
        self.outbox.reserve(1)?;
        self.untaken.insert(number, kept)?;
        self.outbox.push_back_reserved(message);
        Ok(())
    }

    pub fn has_message(&self) -> bool
        ensures { IsTrue result ↔ ¬ (self.now.outbox ≡ []) }
    {
        !self.outbox.is_empty()
    }

    pub fn send(&mut self) -> Option<Bytes>
        ensures { TableStep self.old (sends result) self.new }
    {
        self.outbox.pop_front()
    }

    /// Hears a completion.
    pub fn complete(&mut self, head: Head, body: &[u8]) -> Result<Completed, CompleteNo>
        ensures { TableStep self.old (completes head body.now result) self.new }
    {
        let Some(held) = self.held_for(&head) else {
            return Err(CompleteNo::Stray {
                device: head.device,
                id: head.completion,
            });
        };
        if held.dead {
            self.slots.free(head.completion);
            return Ok(Completed::Late(held.number));
        }
        let reply = read_reply(self.alloc, held.kind, head.status, body)?;
        self.slots.free(head.completion);
        if let Some(kept) = self.untaken.get_mut(&held.number) {
            kept.settle(Outcome::Done(reply));
        }
        Ok(Completed::Gave(held.number))
    }

    /// The slot that a completion is for: that of its completion id, if it is of its device.
    fn held_for(&self, head: &Head) -> Option<Held>
        ensures { option_map slot_of result ≡ slot_of_head self.now head.now }
    {
        let held = self.slots.get(head.completion)?;
        if held.device != head.device {
            return None;
        }
        Some(held)
    }

    /// Loses the requests to a device that is gone.
    pub fn remove(&mut self, device: u32) -> bool
        ensures { TableStep self.old (removes device result) self.new }
    {
        if self.lives.remove(&device).is_none() {
            return false;
        }
        self.slots.kill(device);
        lose_removed(&mut self.untaken, device);
        true
    }

    /// Ends the channel.
    pub fn drop_channel(&mut self)
        ensures { TableStep self.old drops self.new }
    {
        self.channel = None;
        self.lives.clear();
        self.slots.clear();
        lose_dropped(&mut self.untaken);
        self.outbox.clear();
    }

    /// Ends the channel, unless a message is to be sent.
    pub fn drop_sent(&mut self) -> bool
        ensures { TableStep self.old (drops_sent result) self.new }
    {
        if self.has_message() {
            return false;
        }
        self.drop_channel();
        true
    }

    /// Hands the outcome of a number out.
    pub fn take(&mut self, number: u64) -> Result<Taken, TakeNo>
        ensures step { TableStep self.old (takes number result) self.new }
        ensures known { IfOk result (λ taken. IsKnown taken.outcome) }
    {
        let Some(kept) = self.untaken.get(&number) else {
            return Err(TakeNo::Unknown);
        };
        if kept.is_awaited() {
            return Err(TakeNo::NotYet);
        }
        match self.untaken.remove(&number) {
            Some(kept) => Ok(kept.into_taken()),
            None => unreachable!(),
        }
    }

    pub fn stage(&self) -> Stage
        ensures { TableStep self.now (stages result) self.now }
    {
        Stage {
            channel: self.channel.is_some(),
            lives: self.begun,
        }
    }
}
