//! What a judge keeps of the entries that it took.

ghost use Rattle.std.specs.Prelude.{◌≡◌, ◌<◌, ◌≤◌, ◌&&◌, not, None, OnErr, OnOk, length, nat_le};
ghost use Rattle.rd_base.specs.declared.journal.Item.TheVariants as Item;
ghost use Rattle.rd_lawful.specs.declared.rule.Rule.TheVariants as Rule;
ghost use Rattle.rd_lawful.specs.Memory.{IsRisingByKey, broken_by, channel_of_last, is_above, is_waiting, may_name, nothing_taken, remember, stage_in, stage_settled, stage_waits, unless};

use crate::known::{Known, Stage, make_room, set_stage, stage_in};
use crate::rule::Rule;
use rd_base::{Cause, Item, Key};
use std::alloc::{AllocError, Global};
use std::marker::Model;

/// The most requests of the last channel that came and aren't sent, at a cut and at the end of a journal.
pub const MAX_UNSENT: usize = 128;

/// What is kept of the entries.
#[derive(Drop)]
pub struct Memory {
    /// The requests that came, in order, which is that of their keys.
    known: Vec<Known>,
    /// The last of their keys.
    last: Option<Key>,
    /// The last key that came before a cut.
    cut: Option<Key>,
    /// The last key that came before a removal.
    removed: Option<Key>,
    /// The last key that came before a drop.
    dropped: Option<Key>,
    /// What the last run or cut left waiting inside the device.
    waiting: Option<Key>,
    /// How many requests of the last channel came and aren't sent.
    unsent: usize,
}

impl Model for Memory {
    ghost use Rattle.rd_lawful.specs.Memory.{Remembered};

    ghost Value = { Remembered };

    ghost view = { λ m. record { known = m.known.items; last = m.last; cut = m.cut; removed = m.removed; dropped = m.dropped; waiting = m.waiting; unsent = m.unsent } };
}

impl Memory {
    /// Of no entries.
    pub fn new(alloc: Global) -> Self
        ensures { result ≡ nothing_taken }
    {
        Memory {
            known: Vec::new(alloc),
            last: None,
            cut: None,
            removed: None,
            dropped: None,
            waiting: None,
            unsent: 0,
        }
    }

    /// The lowest rule that an entry breaks.
    pub fn broken_by(&self, entry: Item) -> Option<Rule>
        requires { IsRisingByKey self.now.known }
        ensures { result ≡ broken_by self.now entry }
    {
        match entry {
            Item::Came(key) => self.broken_by_coming(key),
            Item::Ran { key, .. } => self.broken_by_running(key),
            Item::Cancelled(key) => self.broken_by_cancelling(key),
            Item::Sent(key) => self.broken_by_sending(key),
            Item::Cut(_) => self.broken_by_cutting(),
        }
    }

    fn broken_by_coming(&self, key: Key) -> Option<Rule>
        ensures { result ≡ broken_by self.now (Item.Came key) }
    {
        if is_above(self.last, key) {
            None
        } else {
            Some(Rule::KeysRise)
        }
    }

    fn broken_by_running(&self, key: Key) -> Option<Rule>
        requires { IsRisingByKey self.now.known }
        ensures { (moment : _) (starved : _) (parked : _) → result ≡ broken_by self.now (Item.Ran key moment starved parked) }
    {
        if !self.may_settle(key) {
            Some(Rule::RunsOnce)
        } else if !is_above(self.cut, key) {
            Some(Rule::NoRunAfterCut)
        } else {
            self.broken_by_naming(key)
        }
    }

    fn broken_by_cancelling(&self, key: Key) -> Option<Rule>
        requires { IsRisingByKey self.now.known }
        ensures { result ≡ broken_by self.now (Item.Cancelled key) }
    {
        if !self.may_settle(key) {
            Some(Rule::RunsOnce)
        } else if is_above(self.removed, key) {
            Some(Rule::CancelledAfterRemoval)
        } else {
            self.broken_by_naming(key)
        }
    }

    fn broken_by_sending(&self, key: Key) -> Option<Rule>
        requires { IsRisingByKey self.now.known }
        ensures { result ≡ broken_by self.now (Item.Sent key) }
    {
        if self.may_send(key) {
            self.broken_by_naming(key)
        } else {
            Some(Rule::SentOnce)
        }
    }

    fn broken_by_naming(&self, key: Key) -> Option<Rule>
        ensures { result ≡ unless (may_name self.now key) Rule.DropForgets None }
    {
        if is_above(self.dropped, key) && self.channel() <= key.channel {
            None
        } else {
            Some(Rule::DropForgets)
        }
    }

    fn broken_by_cutting(&self) -> Option<Rule>
        ensures { (cause : _) → result ≡ broken_by self.now (Item.Cut cause) }
    {
        if self.few_unsent() {
            None
        } else {
            Some(Rule::FewUnsent)
        }
    }

    /// Whether the request came, and neither ran nor was cancelled.
    fn may_settle(&self, key: Key) -> bool
        requires { IsRisingByKey self.now.known }
        ensures { result ≡ stage_waits (stage_in self.now.known key) }
    {
        matches!(stage_in(&self.known, key), Some(Stage::Waits))
    }

    /// Whether the request ran or was cancelled, and neither waits inside the device nor was sent.
    fn may_send(&self, key: Key) -> bool
        requires { IsRisingByKey self.now.known }
        ensures { result ≡ (stage_settled (stage_in self.now.known key) && not (is_waiting self.now.waiting key)) }
    {
        matches!(stage_in(&self.known, key), Some(Stage::Settled)) && !is_waiting(self.waiting, key)
    }

    /// The channel of the request that came last, 0 where none came.
    fn channel(&self) -> u32
        ensures { result ≡ channel_of_last self.now.last }
    {
        match self.last {
            Some(last) => last.channel,
            None => 0,
        }
    }

    /// Whether at most 128 requests of the last channel came and aren't sent.
    pub fn few_unsent(&self) -> bool
        ensures { result ≡ nat_le self.now.unsent 128 }
    {
        self.unsent <= MAX_UNSENT
    }

    /// One more entry. Nothing changes where no memory is found.
    pub fn remember(&mut self, entry: Item) -> Result<(), AllocError>
        requires rising { IsRisingByKey self.old.known }
        requires few { self.old.unsent ≤ length self.old.known }
        requires sent { (key : _) → entry ≡ Item.Sent key → 0 < self.old.unsent }
        ensures ok { OnOk result (self.new ≡ remember self.old entry) }
        ensures err { OnErr result (self.new ≡ self.old) }
        ensures came { OnErr result ((key : _) × (entry ≡ Item.Came key)) }
    {
        match entry {
            Item::Came(key) => self.come(key)?,
            Item::Ran { key, parked, .. } => self.run(key, parked),
            Item::Cancelled(key) => set_stage(&mut self.known, key, Stage::Settled),
            Item::Sent(key) => self.send(key),
            Item::Cut(cause) => self.cut(cause),
        }
        Ok(())
    }

    fn come(&mut self, key: Key) -> Result<(), AllocError>
        requires { self.old.unsent ≤ length self.old.known }
        ensures ok { OnOk result (self.new ≡ remember self.old (Item.Came key)) }
        ensures err { OnErr result (self.new ≡ self.old) }
    {
        make_room(&mut self.known)?;
        let others = if self.channel() == key.channel {
            self.unsent
        } else {
            0
        };
        self.known.push_reserved(Known {
            index: key.index,
            channel: key.channel,
            stage: Stage::Waits,
        });
        self.last = Some(key);
        self.unsent = others + 1;
        Ok(())
    }

    fn run(&mut self, key: Key, parked: bool)
        requires { IsRisingByKey self.old.known }
        ensures { (moment : _) (starved : _) → self.new ≡ remember self.old (Item.Ran key moment starved parked) }
    {
        set_stage(&mut self.known, key, Stage::Settled);
        self.waiting = if parked { Some(key) } else { None };
    }

    fn send(&mut self, key: Key)
        requires rising { IsRisingByKey self.old.known }
        requires some { 0 < self.old.unsent }
        ensures { self.new ≡ remember self.old (Item.Sent key) }
    {
        set_stage(&mut self.known, key, Stage::Sent);
        self.unsent -= 1;
    }

    fn cut(&mut self, cause: Cause)
        ensures { self.new ≡ remember self.old (Item.Cut cause) }
    {
        self.cut = self.last;
        match cause {
            Cause::Removed => self.removed = self.last,
            Cause::Dropped => self.dropped = self.last,
        }
        self.waiting = None;
    }
}

/// Whether the key is above this one, if there is one: by channel, and then by index.
fn is_above(mark: Option<Key>, key: Key) -> bool
    ensures { result ≡ is_above mark key }
{
    match mark {
        Some(last) => {
            last.channel < key.channel || (last.channel == key.channel && last.index < key.index)
        }
        None => true,
    }
}

/// Whether the request is the one that was left waiting.
fn is_waiting(waiting: Option<Key>, key: Key) -> bool
    ensures { result ≡ is_waiting waiting key }
{
    match waiting {
        Some(other) => other.channel == key.channel && other.index == key.index,
        None => false,
    }
}
