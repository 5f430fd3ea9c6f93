//! The host's front: what a channel's reader, its writer and the calling thread share.

ghost use Rattle.std.specs.Prelude.{◌≡◌, false};
ghost use Rattle.rd_host_front.specs.HostFront.{done_waking, has_many_unsent, is_channel_on};
ghost use Rattle.rd_host_front.specs.State.{IsSplitOf};

use crate::calls::{HostFrontCall, HostFrontReply, Wakes};
use crate::first_pass::TableTurn;
use crate::front_pass::FrontPass;
use rd_host::HostCore;
use rd_table::Table;
use rd_turn::{Object, Pass, Turn};
use std::marker::Model;
use std::sync::Wait;

/// So many messages in the core's outbox, and nothing more is heard.
const MAX_UNSENT: u32 = 1024;

/// What a channel's reader, its writer and the calling thread share: the host's core, and a pass of the table, whose turn `W` names. Contracts see a
/// `HostFrontState`.
pub struct HostFront<'a, W: TableTurn, T: Wait> {
    pub(crate) rt: &'a T,
    pub(crate) core: HostCore,
    pub(crate) table: FrontPass<'a, W>,
    /// The number of the channel that began last.
    pub(crate) channel: u32,
    /// Whether it hasn't ended.
    pub(crate) on: bool,
    /// At most so many messages stand in the core's outbox.
    pub(crate) unsent: u32,
}

impl<'a, W: TableTurn, T: Wait> Model for HostFront<'a, W, T> {
    ghost use Rattle.rd_host_front.specs.State.{HostFrontState};

    ghost Value = { HostFrontState };

    ghost view = { λ f. record {
      core = f.core;
      table = f.table;
      channel = f.channel;
      on = f.on;
      unsent = f.unsent;
    } };
}

impl<'a, W: TableTurn, T: Wait> Object for HostFront<'a, W, T> {
    ghost use Rattle.rd_host_front.specs.HostFront.{HostFrontStep};

    type Call = HostFrontCall<W>;

    type Reply = HostFrontReply<W>;

    ghost steps = { HostFrontStep };

    fn call(&mut self, call: HostFrontCall<W>) -> HostFrontReply<W> {
        match call {
            HostFrontCall::Begin { channel, first } => self.begin(channel, first),
            HostFrontCall::Hear { channel, message } => self.hear(channel, message),
            HostFrontCall::Next { channel, room } => self.next(channel, room),
            HostFrontCall::DropChannel(channel) => self.drop_channel(channel),
            HostFrontCall::DropSent { first, anew } => self.drop_sent(first, anew),
        }
    }
}

impl<'a, W: TableTurn, T: Wait> HostFront<'a, W, T> {
    /// A front before the first channel, over a host's core and a pass that was split from pass 0 of this turn.
    pub fn new(rt: &'a T, core: HostCore, turn: &'a Turn<Table>, pass: Pass<Table>) -> Self
        requires turn { turn.now ≡ W.turn }
        requires split { IsSplitOf turn.now pass }
        ensures { result ≡ record {
          core = core;
          table = record { turn = turn.now; pass = pass };
          channel = 0;
          on = false;
          unsent = 0;
        } }
    {
        HostFront {
            rt,
            core,
            table: FrontPass::new(turn, pass),
            channel: 0,
            on: false,
            unsent: 0,
        }
    }

    /// The pass of the table, so that it can be joined.
    pub fn into_pass(self) -> Pass<Table>
        ensures same { result ≡ self.entry.table.pass }
        ensures split { IsSplitOf W.turn result }
    {
        let Self {
            rt: _,
            core: _,
            table,
            channel: _,
            on: _,
            unsent: _,
        } = self;
        table.into_pass()
    }

    /// Whether the channel of this number began last, and hasn't ended.
    pub(crate) fn is_channel_on(&self, channel: u32) -> bool
        ensures { result ≡ is_channel_on self.now channel }
    {
        self.on && self.channel == channel
    }

    /// Whether 1,024 messages may stand in the core's outbox.
    pub(crate) fn is_full(&self) -> bool
        ensures { result ≡ has_many_unsent self.now }
    {
        MAX_UNSENT <= self.unsent
    }

    /// The reply where something is done.
    pub(crate) fn done(&self, wakes: Wakes) -> HostFrontReply<W>
        ensures { result ≡ done_waking wakes self.now }
    {
        HostFrontReply::Done {
            wakes,
            full: self.is_full(),
        }
    }
}

impl<'a, W: TableTurn, T: Wait> Drop for HostFront<'a, W, T> {
    fn drop(self) {
        let Self {
            rt: _,
            core: _,
            table: _,
            channel: _,
            on: _,
            unsent: _,
        } = self;
    }
}
