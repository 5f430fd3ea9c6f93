//! The table: what a host awaits, as an object.

ghost use Rattle.std.specs.Prelude.{◌≡◌, IfOk};
ghost use Rattle.rd_pending.specs.Table.{new_table};
ghost use Rattle.rd_table.specs.Calls.{PendingStep};
ghost use Rattle.rd_table.specs.declared.calls.PendingCall.TheVariants as Call;

use crate::calls::{PendingCall, PendingReply};
use rd_base::Bytes;
use rd_irp::{Head, Op};
use rd_pending::{Pending, Target, may_submit};
use rd_turn::Object;
use std::alloc::{AllocError, Global};
use std::marker::Model;

/// A host's table behind a turn. It lies on the heap, so that a turn moves a pointer. Contracts see the table.
#[derive(Drop)]
pub struct Table {
    pending: Box<Pending>,
}

impl Model for Table {
    ghost use Rattle.rd_pending.specs.Table.{TableState};

    ghost Value = { TableState };

    ghost view = { λ t. t.pending.value };
}

impl Table {
    /// A table with no channel, and nothing in it.
    pub fn new(alloc: Global) -> Result<Self, AllocError>
        ensures { IfOk result (λ table. table ≡ new_table) }
    {
        Ok(Table {
            pending: Box::new(alloc, Pending::new(alloc)?)?,
        })
    }
}

impl Object for Table {
    ghost use Rattle.rd_table.specs.Calls.{PendingStep};

    type Call = PendingCall;

    type Reply = PendingReply;

    ghost steps = { PendingStep };

    fn call(&mut self, call: PendingCall) -> PendingReply {
        let pending = &mut *self.pending;
        match call {
            PendingCall::Begin(channel) => begin(pending, channel),
            PendingCall::Live(device) => PendingReply::Lives(pending.live(device)),
            PendingCall::Submit { app, target, op } => submit(pending, app, target, op),
            PendingCall::Outbox => PendingReply::Sent(pending.outbox()),
            PendingCall::Complete { head, body } => complete(pending, head, body),
            PendingCall::Remove(device) => PendingReply::Removed(pending.remove(device)),
            PendingCall::DropChannel => {
                pending.drop_channel();
                PendingReply::Dropped
            }
            PendingCall::DropSent => PendingReply::DroppedSent(pending.drop_sent()),
            PendingCall::Take(number) => PendingReply::Taken(pending.take(number)),
            PendingCall::Stage => PendingReply::Stands(pending.stage()),
        }
    }
}

/// A channel begins, where it may.
fn begin(pending: &mut Pending, channel: u32) -> PendingReply
    ensures { PendingStep pending.old (Call.Begin channel) result pending.new }
{
    if !pending.may_begin(channel) {
        return PendingReply::Unfit;
    }
    PendingReply::Begun(pending.begin(channel))
}

/// A request is submitted, where it may.
fn submit(pending: &mut Pending, app: u32, target: Target, op: Op) -> PendingReply
    ensures { PendingStep pending.old (Call.Submit app target op) result pending.new }
{
    if !may_submit(target, &op) {
        return PendingReply::Unfit;
    }
    PendingReply::Submitted(pending.submit(app, target, op))
}

/// A completion is heard.
fn complete(pending: &mut Pending, head: Head, body: Bytes) -> PendingReply
    ensures { PendingStep pending.old (Call.Complete head body) result pending.new }
{
    PendingReply::Completed(pending.complete(head, body.as_slice()))
}
