//! A host's table: what it asked of devices, and what came of each request.

ghost use Rattle.std.specs.Prelude.{◌≡◌, ◌↔◌, [], IsTrue, IfOk, IfSome, is_some};
ghost use Rattle.rd_chunk.specs.Carrier.{IsMessage};
ghost use Rattle.rd_pending.specs.History.{IsReachedTable};
ghost use Rattle.rd_pending.specs.Known.{IsKnown};
ghost use Rattle.rd_pending.specs.Table.{MayBegin, MaySubmit, TableStep, begins, completes, drops, drops_sent, lives, new_table, removes, sends, stages, submits, takes};

use crate::calls::{CompleteNo, Completed, LiveNo, Stage, SubmitNo, TakeNo, Taken, Target};
use crate::table::Table;
use rd_base::Bytes;
use rd_irp::{Head, Op};
use std::alloc::{AllocError, Global};
use std::marker::Model;

/// A host's table. It came to be by calls: that is what always holds of it, and it says what came of each request.
#[derive(Drop)]
pub struct Pending {
    table: Table,
}

impl Model for Pending {
    ghost use Rattle.rd_pending.specs.Table.{TableState};
    ghost use Rattle.rd_pending.specs.History.{IsReachedTable};

    ghost Value = { TableState };

    ghost view = { λ p. p.table };

    ghost invariant = { λ p. IsReachedTable p.table };
}

impl Pending {
    /// A table with no channel, and nothing in it.
    pub fn new(alloc: Global) -> Result<Self, AllocError>
        ensures new { IfOk result (λ pending. pending ≡ new_table) }
        ensures reached { IfOk result IsReachedTable }
    {
        Ok(Pending {
            table: Table::new(alloc)?,
        })
    }

    /// Whether a channel is open. It takes no memory.
    pub fn is_open(&self) -> bool
        ensures { result ≡ is_some self.now.channel }
    {
        self.table.is_open()
    }

    /// Whether a channel may begin: it is above every channel that began. It takes no memory.
    pub fn may_begin(&self, channel: u32) -> bool
        ensures { IsTrue result ↔ MayBegin self.now channel }
    {
        self.table.may_begin(channel)
    }

    /// Begins a channel that may begin (`may_begin`); false where one is open, and then nothing changes. It takes no memory.
    pub fn begin(&mut self, channel: u32) -> bool
        requires { MayBegin self.old channel }
        ensures step { TableStep self.old (begins channel result) self.new }
        ensures reached { IsReachedTable self.new }
    {
        self.table.begin(channel)
    }

    /// Begins the next life of a device. A refusal changes nothing.
    pub fn live(&mut self, device: u32) -> Result<u64, LiveNo>
        ensures step { TableStep self.old (lives device result) self.new }
        ensures reached { IsReachedTable self.new }
    {
        self.table.live(device)
    }

    /// Accepts a request that may be submitted (`may_submit`) from an application, and puts its message into the outbox. All places that its outcome needs
    /// are taken here. A refusal changes nothing.
    pub fn submit(&mut self, app: u32, target: Target, op: Op) -> Result<u64, SubmitNo>
        requires { MaySubmit target op }
        ensures step { TableStep self.old (submits app target op result) self.new }
        ensures reached { IsReachedTable self.new }
    {
        self.table.submit(app, target, op)
    }

    /// Whether a message stands in the outbox. It takes no memory.
    pub fn has_message(&self) -> bool
        ensures { IsTrue result ↔ ¬ (self.now.outbox ≡ []) }
    {
        self.table.has_message()
    }

    /// Hands out the message that was submitted first. It takes no memory.
    pub fn outbox(&mut self) -> Option<Bytes>
        ensures step { TableStep self.old (sends result) self.new }
        ensures message { IfSome result IsMessage }
        ensures reached { IsReachedTable self.new }
    {
        self.table.send()
    }

    /// Hears a completion, with the bytes after its head. It takes memory for the bytes of a buffer alone. A refusal changes nothing.
    pub fn complete(&mut self, head: Head, body: &[u8]) -> Result<Completed, CompleteNo>
        ensures step { TableStep self.old (completes head body.now result) self.new }
        ensures reached { IsReachedTable self.new }
    {
        self.table.complete(head, body)
    }

    /// Loses the requests to a device that is gone; false where it isn't there. It takes no memory.
    pub fn remove(&mut self, device: u32) -> bool
        ensures step { TableStep self.old (removes device result) self.new }
        ensures reached { IsReachedTable self.new }
    {
        self.table.remove(device)
    }

    /// Ends the channel. It takes no memory.
    pub fn drop_channel(&mut self)
        ensures step { TableStep self.old drops self.new }
        ensures reached { IsReachedTable self.new }
    {
        self.table.drop_channel();
    }

    /// Ends the channel, unless a message is to be sent: then it answers false, and nothing changes. It takes no memory.
    pub fn drop_sent(&mut self) -> bool
        ensures step { TableStep self.old (drops_sent result) self.new }
        ensures reached { IsReachedTable self.new }
    {
        self.table.drop_sent()
    }

    /// Hands the outcome of a number out, once. It takes no memory.
    pub fn take(&mut self, number: u64) -> Result<Taken, TakeNo>
        ensures step { TableStep self.old (takes number result) self.new }
        ensures known { IfOk result (λ taken. IsKnown taken.outcome) }
        ensures reached { IsReachedTable self.new }
    {
        self.table.take(number)
    }

    /// How far the channel got; nothing changes. It takes no memory.
    pub fn stage(&mut self) -> Stage
        ensures step { TableStep self.old (stages result) self.new }
        ensures reached { IsReachedTable self.new }
    {
        self.table.stage()
    }
}
