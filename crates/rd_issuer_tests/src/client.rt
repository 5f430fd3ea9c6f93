//! A client that is played at a host's table: it takes what is to be sent, and completes it.

ghost use Rattle.std.specs.Prelude.{◌≡◌};
ghost use Rattle.rd_turn.specs.Pass.{Belongs};

use rd_base::{Bytes, Status};
use rd_irp::{Head, Kind, kind_of_major, measure_request};
use rd_pending::Completed;
use rd_sleepers::Sleepers;
use rd_table::{PendingCall, PendingReply, Table};
use rd_turn::{Caller, Pass, Turn};
use std::alloc::Global;
use std::sync::Wait;

/// The next message that is to be sent. It waits until there is one.
fn next_message<T: Wait>(rt: &T, table: &mut Caller<'_, Table>, sleepers: &Sleepers) -> Bytes
    ensures turn { table.new.turn.now ≡ table.old.turn.now }
    ensures number { table.new.pass.number ≡ table.old.pass.number }
{
    for _ in rt.forever() {
        let times = sleepers.requests(rt);
        if let PendingReply::Sent(Some(message)) = table.call(rt, PendingCall::Outbox) {
            return message;
        }
        sleepers.wait_for_request(rt, times);
    }
    unreachable!()
}

/// A success's body: of an open file 1, of a read or a notification no bytes, and of others nothing.
fn body_of(alloc: Global, kind: Kind) -> Bytes {
    let bytes: &[u8] = match kind {
        Kind::Create => b"\x01\0\0\0\x01",
        Kind::Buffer => b"\0\0\0\0",
        Kind::Close | Kind::Count | Kind::Lock => b"",
    };
    match Vec::from_slice(alloc, bytes) {
        Ok(body) => Bytes::of(body),
        Err(_) => Bytes::of(Vec::new(alloc)),
    }
}

/// Completes a request with success, and wakes the application that awaits its outcome.
pub fn complete<T: Wait>(
    rt: &T,
    alloc: Global,
    table: &mut Caller<'_, Table>,
    sleepers: &Sleepers,
    head: Head,
    kind: Kind,
)
    ensures turn { table.new.turn.now ≡ table.old.turn.now }
    ensures number { table.new.pass.number ≡ table.old.pass.number }
{
    let body = body_of(alloc, kind);
    let reply = table.call(rt, PendingCall::Complete { head, body });
    if let PendingReply::Completed(Ok(Completed::Gave(request))) = reply {
        sleepers.ring_outcome(rt, request);
    }
}

/// Completes the request that a message is, unless it is one for a buffer, which is left: its head then.
fn answer<T: Wait>(
    rt: &T,
    alloc: Global,
    table: &mut Caller<'_, Table>,
    sleepers: &Sleepers,
    message: &Bytes,
) -> Option<Head>
    ensures turn { table.new.turn.now ≡ table.old.turn.now }
    ensures number { table.new.pass.number ≡ table.old.pass.number }
{
    let Ok((request, _)) = measure_request(message.as_slice()) else {
        return None;
    };
    let head = Head {
        device: request.device,
        completion: request.completion,
        status: Status::SUCCESS,
    };
    match kind_of_major(request.major) {
        Kind::Buffer => Some(head),
        kind => {
            complete(rt, alloc, table, sleepers, head, kind);
            None
        }
    }
}

/// Plays the client for two messages, which it completes once both were handed out, and then for so many more. What is left is a request for a buffer.
pub fn play_client<T: Wait>(
    rt: &T,
    alloc: Global,
    turn: &Turn<Table>,
    pass: Pass<Table>,
    sleepers: &Sleepers,
    more: u32,
) -> (Option<Head>, Pass<Table>)
    requires { Belongs turn.now pass }
    ensures own { Belongs turn.now result.1 }
    ensures number { result.1.number ≡ pass.number }
{
    let mut table = Caller::new(turn, pass);
    let one = next_message(rt, &mut table, sleepers);
    let other = next_message(rt, &mut table, sleepers);
    let mut left = answer(rt, alloc, &mut table, sleepers, &one);
    left = answer(rt, alloc, &mut table, sleepers, &other).or(left);
    for _ in 0..more {
        let message = next_message(rt, &mut table, sleepers);
        left = answer(rt, alloc, &mut table, sleepers, &message).or(left);
    }
    (left, table.into_pass())
}
