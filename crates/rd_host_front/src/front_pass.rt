//! The front's pass of the table, with the calls that a front makes by it.

ghost use Rattle.std.specs.Prelude.{◌≡◌, ◌<◌};
ghost use Rattle.rd_turn.specs.Pass.{max_made};
ghost use Rattle.rd_table.specs.declared.calls.PendingCall.TheVariants as Call;
ghost use Rattle.rd_table.specs.declared.calls.PendingReply.TheVariants as Reply;
ghost use Rattle.rd_host_front.specs.State.{FrontPassCalls, IsSplitOf, Renews, RenewsBy};

use crate::first_pass::{FirstPass, TableTurn};
use rd_base::Bytes;
use rd_irp::Head;
use rd_pending::{CompleteNo, Completed, LiveNo};
use rd_table::{PendingCall, PendingReply, Table};
use rd_turn::{Pass, Turn};
use std::marker::{Model, PhantomData};
use std::sync::Wait;

/// The turn of the table, and the pass by which a front calls it. It is away only while it is joined to pass 0 and another is split. Contracts see a
/// `FrontPassState`.
pub(crate) struct FrontPass<'a, W: TableTurn> {
    turn: &'a Turn<Table>,
    pass: Option<Pass<Table>>,
    of: PhantomData<W>,
}

impl<'a, W: TableTurn> Model for FrontPass<'a, W> {
    ghost use Rattle.std.specs.Option.{unwrap_or};
    ghost use Rattle.rd_turn.specs.Pass.{first_pass};
    ghost use Rattle.rd_host_front.specs.State.{FrontPassState, HoldsPass};

    ghost Value = { FrontPassState };

    ghost view = { λ f. record { turn = f.turn.now; pass = unwrap_or f.pass (first_pass f.turn.now) } };

    ghost invariant = { λ f. HoldsPass W.turn f.turn.now f.pass };
}

impl<'a, W: TableTurn> FrontPass<'a, W> {
    /// A pass that was split from pass 0 of this turn.
    pub(crate) fn new(turn: &'a Turn<Table>, pass: Pass<Table>) -> Self
        requires turn { turn.now ≡ W.turn }
        requires split { IsSplitOf turn.now pass }
        ensures { result ≡ record { turn = turn.now; pass = pass } }
    {
        FrontPass {
            turn,
            pass: Some(pass),
            of: PhantomData,
        }
    }

    /// The pass, so that it can be joined.
    pub(crate) fn into_pass(self) -> Pass<Table>
        ensures same { result ≡ self.entry.pass }
        ensures split { IsSplitOf W.turn result }
    {
        let FrontPass {
            turn: _,
            pass,
            of: _,
        } = self;
        let Some(pass) = pass else { unreachable!() };
        pass
    }

    /// Makes a call of the table.
    fn call<T: Wait>(&mut self, rt: &T, call: PendingCall) -> PendingReply
        ensures { FrontPassCalls self.old call result self.new }
    {
        let Some(pass) = &mut self.pass else {
            unreachable!()
        };
        self.turn.call(rt, pass, call)
    }

    /// It is joined to pass 0, and a new one is split from that.
    pub(crate) fn renew(&mut self, first: &mut FirstPass<W>)
        requires { first.old.made < max_made }
        ensures { Renews first.old self.old first.new self.new }
    {
        let Some(pass) = self.pass.take() else {
            unreachable!()
        };
        first.join(self.turn, pass);
        self.pass = Some(first.split(self.turn));
    }

    /// The same, and in between a channel begins by pass 0. The reply is the table's.
    pub(crate) fn renew_at_begin<T: Wait>(
        &mut self,
        rt: &T,
        first: &mut FirstPass<W>,
        channel: u32,
    ) -> PendingReply
        requires { first.old.made < max_made }
        ensures { RenewsBy (Call.Begin channel) result first.old self.old first.new self.new }
    {
        let Some(pass) = self.pass.take() else {
            unreachable!()
        };
        first.join(self.turn, pass);
        let reply = first.call(rt, self.turn, PendingCall::Begin(channel));
        self.pass = Some(first.split(self.turn));
        reply
    }

    /// A device begins its next life, if it can.
    pub(crate) fn live<T: Wait>(&mut self, rt: &T, device: u32) -> Result<u64, LiveNo>
        ensures { FrontPassCalls self.old (Call.Live device) (Reply.Lives result) self.new }
    {
        match self.call(rt, PendingCall::Live(device)) {
            PendingReply::Lives(life) => life,
            _ => unreachable!(),
        }
    }

    /// A completion was heard, with the bytes after its head.
    pub(crate) fn complete<T: Wait>(
        &mut self,
        rt: &T,
        head: Head,
        body: Bytes,
    ) -> Result<Completed, CompleteNo>
        ensures { FrontPassCalls self.old (Call.Complete head body) (Reply.Completed result) self.new }
    {
        match self.call(rt, PendingCall::Complete { head, body }) {
            PendingReply::Completed(completed) => completed,
            _ => unreachable!(),
        }
    }

    /// A device is gone. Whether it was there.
    pub(crate) fn remove<T: Wait>(&mut self, rt: &T, device: u32) -> bool
        ensures { FrontPassCalls self.old (Call.Remove device) (Reply.Removed result) self.new }
    {
        match self.call(rt, PendingCall::Remove(device)) {
            PendingReply::Removed(was) => was,
            _ => unreachable!(),
        }
    }

    /// The message that was submitted first, if one waits.
    pub(crate) fn outbox<T: Wait>(&mut self, rt: &T) -> Option<Bytes>
        ensures { FrontPassCalls self.old Call.Outbox (Reply.Sent result) self.new }
    {
        match self.call(rt, PendingCall::Outbox) {
            PendingReply::Sent(message) => message,
            _ => unreachable!(),
        }
    }

    /// The channel ended.
    pub(crate) fn drop_channel<T: Wait>(&mut self, rt: &T)
        ensures { FrontPassCalls self.old Call.DropChannel Reply.Dropped self.new }
    {
        match self.call(rt, PendingCall::DropChannel) {
            PendingReply::Dropped => {}
            _ => unreachable!(),
        }
    }

    /// The channel ends, unless a message is to be sent. Whether it did.
    pub(crate) fn drop_sent<T: Wait>(&mut self, rt: &T) -> bool
        ensures { FrontPassCalls self.old Call.DropSent (Reply.DroppedSent result) self.new }
    {
        match self.call(rt, PendingCall::DropSent) {
            PendingReply::DroppedSent(dropped) => dropped,
            _ => unreachable!(),
        }
    }
}

impl<'a, W: TableTurn> Drop for FrontPass<'a, W> {
    fn drop(self) {
        let Self {
            turn: _,
            pass: _,
            of: _,
        } = self;
    }
}
