//! The front, as the calling thread hands it pass 0 of the table.

ghost use Rattle.std.specs.Prelude.{◌≡◌};
ghost use Rattle.rd_host_front.specs.declared.calls.HostFrontCall.TheVariants as Call;
ghost use Rattle.rd_host_front.specs.declared.calls.HostFrontReply.TheVariants as Reply;
ghost use Rattle.rd_host_front.specs.Kept.{IsHandedBack};
ghost use Rattle.rd_host_front.specs.State.{IsFirstOf};
ghost use Rattle.rd_host_player.specs.Play.{CallsFront};

use rd_host_front::{Came, FirstPass, HostFront, HostFrontCall, HostFrontReply, TableTurn};
use rd_table::Table;
use rd_turn::{Caller, Object, Pass};
use std::sync::Wait;

/// A front that hands pass 0 of the table back.
pub trait HandsBack<W: TableTurn>: Object<Call = HostFrontCall<W>, Reply = HostFrontReply<W>> {
    /// A channel of this number begins, if the front can begin it. Pass 0 of the table comes back.
    fn begin<T: Wait>(
        rt: &T,
        front: &mut Caller<'_, Self>,
        pass: Pass<Table>,
        channel: u32,
    ) -> (Pass<Table>, Came)
        requires { IsFirstOf W.turn pass }
        ensures first { IsFirstOf W.turn result.0 }
        ensures turn { front.new.turn.now ≡ front.old.turn.now }
        ensures called { CallsFront (Call.Begin channel pass) (Reply.First result.0 result.1) front.old.pass front.new.pass }
        ensures back { IsHandedBack pass result.0 };

    /// The channel ends, unless a message is to be sent. Pass 0 of the table comes back.
    fn try_to_end<T: Wait>(
        rt: &T,
        front: &mut Caller<'_, Self>,
        pass: Pass<Table>,
        anew: bool,
    ) -> (Pass<Table>, Came)
        requires { IsFirstOf W.turn pass }
        ensures first { IsFirstOf W.turn result.0 }
        ensures turn { front.new.turn.now ≡ front.old.turn.now }
        ensures called { CallsFront (Call.DropSent pass anew) (Reply.First result.0 result.1) front.old.pass front.new.pass }
        ensures back { IsHandedBack pass result.0 };
}

impl<'a, W: TableTurn, R: Wait> HandsBack<W> for HostFront<'a, W, R> {
    fn begin<T: Wait>(
        rt: &T,
        front: &mut Caller<'_, Self>,
        pass: Pass<Table>,
        channel: u32,
    ) -> (Pass<Table>, Came) {
        let first = FirstPass::new(pass);
        match front.call(rt, HostFrontCall::Begin { channel, first }) {
            HostFrontReply::First { pass, came } => (pass.into_pass(), came),
            _ => unreachable!(),
        }
    }

    fn try_to_end<T: Wait>(
        rt: &T,
        front: &mut Caller<'_, Self>,
        pass: Pass<Table>,
        anew: bool,
    ) -> (Pass<Table>, Came) {
        let first = FirstPass::new(pass);
        match front.call(rt, HostFrontCall::DropSent { first, anew }) {
            HostFrontReply::First { pass, came } => (pass.into_pass(), came),
            _ => unreachable!(),
        }
    }
}
