//! A table behind a turn, with one caller and with two in a thread each. Want of memory never comes, as no test takes the memory away.

use crate::side_by_side::ask_two;
use rd_base::{Bytes, Status, Units};
use rd_irp::{Head, Op};
use rd_pending::{Completed, Handle, Stage, Target};
use rd_table::{PendingCall, PendingReply, Table};
use rd_turn::{Caller, Turn};
use std::alloc::Global;
use std::process::Abort;

/// Opening the root of a device.
fn opening(alloc: Global) -> Op {
    Op::Create {
        access: 0x8000_0000,
        allocation: 0,
        attributes: 0,
        share: 7,
        disposition: 1,
        options: 0,
        path: Units::of(Vec::new(alloc)),
    }
}

/// An application asks for the root of device 1.
fn submit(alloc: Global) -> PendingCall {
    PendingCall::Submit {
        app: 1,
        target: Target::Device(1),
        op: opening(alloc),
    }
}

/// The request with a completion id is refused.
fn refuse(alloc: Global, completion: u32) -> PendingCall {
    let head = Head {
        device: 1,
        completion,
        status: Status(0xc000_0022),
    };
    PendingCall::Complete {
        head,
        body: Bytes::of(Vec::new(alloc)),
    }
}

/// Each call goes through, one after the other.
#[test]
fn goes_through(rt: HostRuntime) {
    let alloc = rt.alloc();
    let table = Table::new(alloc).expect(&rt, "memory for a table");
    let Ok((turn, pass)) = Turn::new(alloc, table) else {
        panic!(rt; "memory for a turn")
    };
    let mut caller = Caller::new(&turn, pass);
    let begun = caller.call(&rt, PendingCall::Begin(1));
    assert!(rt; matches!(begun, PendingReply::Begun(true)));
    let again = caller.call(&rt, PendingCall::Begin(1));
    assert!(rt; matches!(again, PendingReply::Unfit));
    let life = caller.call(&rt, PendingCall::Live(1));
    assert!(rt; matches!(life, PendingReply::Lives(Ok(1))));
    let number = caller.call(&rt, submit(alloc));
    assert!(rt; matches!(number, PendingReply::Submitted(Ok(1))));
    let unsent = caller.call(&rt, PendingCall::DropSent);
    assert!(rt; matches!(unsent, PendingReply::DroppedSent(false)));
    let message = caller.call(&rt, PendingCall::Outbox);
    assert!(rt; matches!(message, PendingReply::Sent(Some(_))));
    let completed = caller.call(&rt, refuse(alloc, 0));
    assert!(rt; matches!(completed, PendingReply::Completed(Ok(Completed::Gave(1)))));
    let taken = caller.call(&rt, PendingCall::Take(1));
    assert!(rt; matches!(taken, PendingReply::Taken(Ok(_))));
    let stage = caller.call(&rt, PendingCall::Stage);
    assert!(rt;
        matches!(
            stage,
            PendingReply::Stands(Stage {
                channel: true,
                lives: 1
            })
        )
    );
    let removed = caller.call(&rt, PendingCall::Remove(1));
    assert!(rt; matches!(removed, PendingReply::Removed(true)));
    let sent = caller.call(&rt, PendingCall::DropSent);
    assert!(rt; matches!(sent, PendingReply::DroppedSent(true)));
    let dropped = caller.call(&rt, PendingCall::DropChannel);
    assert!(rt; matches!(dropped, PendingReply::Dropped));
    let pass = caller.into_pass();
    turn.close(pass);
}

/// A request that opens a file names a device: one that names a handle may not come.
#[test]
fn refuses_what_may_not_come(rt: HostRuntime) {
    let alloc = rt.alloc();
    let table = Table::new(alloc).expect(&rt, "memory for a table");
    let Ok((turn, pass)) = Turn::new(alloc, table) else {
        panic!(rt; "memory for a turn")
    };
    let mut caller = Caller::new(&turn, pass);
    let handle = Handle {
        device: 1,
        life: 1,
        file: 1,
    };
    let unfit = caller.call(
        &rt,
        PendingCall::Submit {
            app: 1,
            target: Target::Handle(handle),
            op: opening(alloc),
        },
    );
    assert!(rt; matches!(unfit, PendingReply::Unfit));
    let pass = caller.into_pass();
    turn.close(pass);
}

/// Two applications ask in a thread each.
#[test]
fn asks_side_by_side(rt: HostRuntime) {
    let alloc = rt.alloc();
    let numbers = ask_two(&rt, alloc, opening(alloc), opening(alloc));
    assert!(rt; matches!(numbers, Some((1, 2)) | Some((2, 1))));
}
