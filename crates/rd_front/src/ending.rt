//! How a channel ends, and the session.

ghost use Rattle.std.specs.Prelude.{◌≡◌};
ghost use Rattle.std.specs.List.{AllZip};
ghost use Rattle.rd_front.specs.Front.{ChannelEnds, EndsBy, FrontStep, SessionEnds, end_call};
ghost use Rattle.rd_front.specs.declared.calls.FrontCall.TheVariants as Call;

use crate::calls::FrontReply;
use crate::device_desk::DeviceDesk;
use crate::front::Front;
use rd_desk::DeskCall;
use rd_folder::Folder;
use std::sync::Wait;

impl<'a, T: Wait, F: Folder + Drop> Front<'a, T, F> {
    /// The channel ended, where one is on.
    pub(crate) fn end_channel(&mut self) -> FrontReply
        ensures { FrontStep self.old Call.EndChannel result self.new }
    {
        if !self.on {
            return FrontReply::Refused;
        }
        self.cut_channel();
        self.done(None)
    }

    /// The session is over, where it wasn't.
    pub(crate) fn end_session(&mut self) -> FrontReply
        ensures { FrontStep self.old Call.EndSession result self.new }
    {
        if self.over {
            return FrontReply::Refused;
        }
        self.cut_session();
        self.done(None)
    }

    /// Each desk is told that the channel ended, no job is kept back, and nothing is to be sent.
    pub(crate) fn cut_channel(&mut self)
        ensures { ChannelEnds self.old self.new }
    {
        end_desks(self.rt, self.desks.as_mut_slice(), false);
        self.client.clear();
        self.kept = None;
        self.on = false;
        self.unsent = 0;
    }

    /// The same at the end of the session.
    fn cut_session(&mut self)
        ensures { SessionEnds self.old self.new }
    {
        end_desks(self.rt, self.desks.as_mut_slice(), true);
        self.client.clear();
        self.kept = None;
        self.on = false;
        self.over = true;
        self.unsent = 0;
    }
}

/// Each desk is told that the channel ended, or the session.
fn end_desks<'a, T: Wait, F: Folder + Drop>(rt: &T, desks: &mut [DeviceDesk<'a, F>], over: bool)
    ensures { AllZip (EndsBy (end_call over)) desks.old desks.new }
{
    for place in 0..desks.len() {
        let desk = &mut desks[place];
        desk.call(rt, end_call(over));
    }
}

/// What a desk is told.
fn end_call(over: bool) -> DeskCall
    ensures { result ≡ end_call over }
{
    if over {
        DeskCall::End
    } else {
        DeskCall::DropChannel
    }
}
