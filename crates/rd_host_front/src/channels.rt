//! How a channel begins, and how it ends.

ghost use Rattle.std.specs.Prelude.{◌≡◌, ◌<◌, ◌≤◌, ◌+◌};
ghost use Rattle.rd_turn.specs.Pass.{max_made};
ghost use Rattle.rd_host_front.specs.HostFront.{BeginsChannel, BeginsTable, DropsBy, DropsTable, DropsUnsent, EndsChannel, EndsSent, HostFrontStep, began_as, begun_if, has_begun, may_begin_on, may_renew, over_on};
ghost use Rattle.rd_host_front.specs.declared.calls.HostFrontCall.TheVariants as Call;

use crate::calls::{Came, HostFrontReply, Wakes};
use crate::first_pass::{FirstPass, TableTurn};
use crate::host_front::HostFront;
use rd_table::PendingReply;
use rd_turn::MAX_MADE;
use std::sync::Wait;

impl<'a, W: TableTurn, T: Wait> HostFront<'a, W, T> {
    /// A channel of this number begins, where it may.
    pub(crate) fn begin(&mut self, channel: u32, first: FirstPass<W>) -> HostFrontReply<W>
        ensures { HostFrontStep self.old (Call.Begin channel first) result self.new }
    {
        if !self.may_begin(channel, &first) {
            return HostFrontReply::First {
                pass: first,
                came: Came::Refused,
            };
        }
        self.begin_channel(channel, first)
    }

    /// Whether a channel of this number may begin.
    fn may_begin(&self, channel: u32, first: &FirstPass<W>) -> bool
        ensures { result ≡ may_begin_on self.now channel first.now }
    {
        !self.on && self.channel < channel && may_renew(first)
    }

    /// The host announces itself on a new channel.
    fn begin_channel(&mut self, channel: u32, first: FirstPass<W>) -> HostFrontReply<W>
        requires { first.made + 2 ≤ max_made }
        ensures { BeginsChannel self.old channel first result self.new }
    {
        match self.core.begin() {
            Ok(()) => {
                self.unsent = 1;
                self.begin_table(channel, first)
            }
            Err(_) => HostFrontReply::First {
                pass: first,
                came: Came::Memory,
            },
        }
    }

    /// The channel begins at the table too, by pass 0. The front's pass is joined to that before, and split from it after.
    fn begin_table(&mut self, channel: u32, mut first: FirstPass<W>) -> HostFrontReply<W>
        requires { first.made + 2 ≤ max_made }
        ensures { BeginsTable self.old channel first result self.new }
    {
        let reply = self.table.renew_at_begin(self.rt, &mut first, channel);
        let came = self.take_up(channel, has_begun(&reply));
        HostFrontReply::First { pass: first, came }
    }

    /// The channel is on, if the table began it.
    fn take_up(&mut self, channel: u32, begun: bool) -> Came
        ensures { (self.new ≡ begun_if begun self.old channel) × (result ≡ began_as begun) }
    {
        if begun {
            self.channel = channel;
            self.on = true;
            Came::Done
        } else {
            Came::Unfit
        }
    }

    /// The channel of this number ended by its peer, or by a fault.
    pub(crate) fn drop_channel(&mut self, channel: u32) -> HostFrontReply<W>
        ensures { HostFrontStep self.old (Call.DropChannel channel) result self.new }
    {
        if !self.is_channel_on(channel) {
            return HostFrontReply::Over;
        }
        self.end_channel()
    }

    /// The table is told that the channel ended, and nothing is to be sent.
    fn end_channel(&mut self) -> HostFrontReply<W>
        ensures { EndsChannel self.old result self.new }
    {
        self.table.drop_channel(self.rt);
        self.clear();
        self.done(Wakes::Everybody)
    }

    /// Nothing is to be sent on the channel, which has ended.
    fn clear(&mut self)
        ensures { self.new ≡ over_on self.old }
    {
        while self.core.outbox().is_some() {}
        self.on = false;
        self.unsent = 0;
    }

    /// The channel is to end by the script.
    pub(crate) fn drop_sent(&mut self, first: FirstPass<W>, anew: bool) -> HostFrontReply<W>
        ensures { HostFrontStep self.old (Call.DropSent first anew) result self.new }
    {
        if !may_renew(&first) {
            return HostFrontReply::First {
                pass: first,
                came: Came::Refused,
            };
        }
        self.end_sent(first, anew)
    }

    /// At the first try for a line the front's pass is renewed; then the channel ends, unless a message is to be sent.
    fn end_sent(&mut self, mut first: FirstPass<W>, anew: bool) -> HostFrontReply<W>
        requires { first.made + 2 ≤ max_made }
        ensures { EndsSent first anew self.old result self.new }
    {
        if anew {
            self.table.renew(&mut first);
        }
        self.end_unsent(first)
    }

    /// The channel ends, unless a message is to be sent.
    fn end_unsent(&mut self, first: FirstPass<W>) -> HostFrontReply<W>
        requires { first.made < max_made }
        ensures { DropsUnsent self.old.core.core.outbox first self.old result self.new }
    {
        if self.core.has_message() {
            return HostFrontReply::First {
                pass: first,
                came: Came::NotYet,
            };
        }
        self.end_table(first)
    }

    /// The channel ends, unless the table has a message to send.
    fn end_table(&mut self, first: FirstPass<W>) -> HostFrontReply<W>
        requires { first.made < max_made }
        ensures { DropsTable first self.old result self.new }
    {
        let dropped = self.table.drop_sent(self.rt);
        self.end_by(dropped, first)
    }

    /// Where the table dropped the channel it has ended, and the front's pass is renewed.
    fn end_by(&mut self, dropped: bool, mut first: FirstPass<W>) -> HostFrontReply<W>
        requires { first.made < max_made }
        ensures { DropsBy dropped first self.old result self.new }
    {
        if !dropped {
            return HostFrontReply::First {
                pass: first,
                came: Came::NotYet,
            };
        }
        self.table.renew(&mut first);
        self.on = false;
        self.unsent = 0;
        HostFrontReply::First {
            pass: first,
            came: Came::Done,
        }
    }
}

/// Whether two passes more may be split from pass 0.
fn may_renew<W: TableTurn>(first: &FirstPass<W>) -> bool
    ensures { result ≡ may_renew first.now }
{
    first.made() <= MAX_MADE - 2
}

/// Whether the table began the channel.
fn has_begun(reply: &PendingReply) -> bool
    ensures { result ≡ has_begun reply.now }
{
    match reply {
        PendingReply::Begun(began) => *began,
        _ => false,
    }
}
