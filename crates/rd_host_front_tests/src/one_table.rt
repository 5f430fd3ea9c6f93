//! A front over a table's turn, whose reader and writer call it side by side once a channel began, and pass 0 of the table afterwards.

ghost use Rattle.std.specs.Prelude.{◌≡◌, ◌<◌, IfSome};
ghost use Rattle.rd_host_front.specs.State.{IsFirstOf};
ghost use Rattle.rd_turn.specs.Pass.{max_made};

use rd_base::Bytes;
use rd_host::HostCore;
use rd_host_front::{FirstPass, HostFront, HostFrontCall, HostFrontReply, TableTurn};
use rd_room::Room;
use rd_table::Table;
use rd_turn::{Caller, Pass, Turn};
use std::alloc::Global;
use std::marker::Brand;
use std::sync::Wait;
use std::thread::{Threads, join};

/// What came of a channel on which one message was heard while messages were handed out.
#[derive(Drop)]
pub struct Session {
    /// Whether the message was heard.
    pub heard: bool,
    /// The messages that were handed out.
    pub room: Option<Room>,
}

/// A channel begins over this turn, on which a message is heard and messages are handed out, each in a thread of its own; and pass 0. The turn is
/// the one that `W` names.
pub fn over_turn<W: TableTurn + Send, T: Threads + Wait + Sync>(
    rt: &T,
    alloc: Global,
    turn: &Turn<Table>,
    mut pass: Pass<Table>,
    message: Bytes,
    room: Room,
) -> Option<(Session, Pass<Table>)>
    requires turn { turn.now ≡ W.turn }
    requires first { IsFirstOf turn.now pass }
    requires few { pass.made < max_made }
    ensures { IfSome result (λ r. IsFirstOf turn.now r.1) }
{
    let own = turn.split(&mut pass);
    let core = HostCore::new(alloc, 1);
    let front = HostFront::<W, T>::new(rt, core, turn, own);
    let Ok((front, mut caller)) = Turn::new(alloc, front) else {
        return None;
    };
    let begin = HostFrontCall::Begin {
        channel: 1,
        first: FirstPass::new(pass),
    };
    let HostFrontReply::First { pass, came: _ } = front.call(rt, &mut caller, begin) else {
        return None;
    };
    let writer = front.split(&mut caller);
    let reader = Caller::new(&front, caller);
    let writer = Caller::new(&front, writer);
    let hear = HostFrontCall::Hear {
        channel: 1,
        message,
    };
    let next = HostFrontCall::Next { channel: 1, room };
    let ((heard, reader), (given, writer)) = join(
        rt,
        || reader.reply(rt, hear),
        || writer.reply(rt, next),
    );
    let mut caller = reader.into_pass();
    front.join(&mut caller, writer.into_pass());
    let own = front.close(caller).into_pass();
    let mut pass = pass.into_pass();
    turn.join(&mut pass, own);
    let session = Session {
        heard: is_done(&heard),
        room: room_of(given),
    };
    Some((session, pass))
}

/// Whether a message was heard.
fn is_done<W: TableTurn>(reply: &HostFrontReply<W>) -> bool {
    matches!(reply, HostFrontReply::Done { .. })
}

/// The room that came back.
fn room_of<W: TableTurn>(reply: HostFrontReply<W>) -> Option<Room> {
    match reply {
        HostFrontReply::Messages { room, why: _ } => Some(room),
        _ => None,
    }
}

/// The same over a table of its own, whose turn is closed with what comes back.
pub fn on_one_table<T: Threads + Wait + Sync>(
    rt: &T,
    alloc: Global,
    message: Bytes,
    room: Room,
) -> Option<Session> {
    let Ok(table) = Table::new(alloc) else {
        return None;
    };
    let Ok((turn, pass)) = Turn::new(alloc, table) else {
        return None;
    };
    let (session, pass) = over_turn::<Brand, T>(rt, alloc, &turn, pass, message, room)?;
    if pass.out() != 0 {
        return None;
    }
    turn.close(pass);
    Some(session)
}
