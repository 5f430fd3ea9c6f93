//! A host's end, message by message.

use crate::messages::{
    ANNOUNCE, CLIENT_SETS, CONFIRM, CUT_READ_FAULT, HOST_SETS, LIST, LOGGED_ON, NAME, REMOVAL,
    REPLY, XPS,
};
use rd_base::{Bad, Status, Why};
use rd_hello::EndFault;
use rd_host::{Act, HostCore, LentAct};
use rd_printer::Notice;
use std::process::Abort;

/// A host on a channel.
fn begun(rt: &(impl Abort + AllocGlobal)) -> HostCore {
    let mut host = HostCore::new(rt.alloc(), 1);
    host.begin().expect(rt, "memory for the announce");
    host
}

/// The host hears a message that asks nothing.
fn goes(rt: &impl Abort, host: &mut HostCore, message: &[u8]) {
    let act = host.hear(message).expect(rt, "a message in order");
    assert!(rt; matches!(&act, Act::Nothing));
}

/// The host sends this message next.
fn sends(rt: &impl Abort, host: &mut HostCore, message: &[u8]) {
    assert!(rt; host.has_message());
    let sent = host.outbox().expect(rt, "a message");
    assert_eq!(rt; sent.as_slice(), message);
}

/// A host that is ready, and has nothing to send.
fn ready(rt: &(impl Abort + AllocGlobal)) -> HostCore {
    let mut host = begun(rt);
    for message in [CONFIRM, NAME, CLIENT_SETS] {
        goes(rt, &mut host, message);
    }
    for message in [ANNOUNCE, HOST_SETS, CONFIRM, LOGGED_ON] {
        sends(rt, &mut host, message);
    }
    host
}

#[test]
fn opens(rt: HostRuntime) {
    let host = ready(&rt);
    assert!(rt; host.ready());
    assert!(rt; !host.has_message());
}

/// A message that a host refuses after these, and why. The answer stays until a channel begins.
#[test]
fn refuses(rt: HostRuntime) {
    let order = |state: u8, packet: u16| EndFault::Order { state, packet };
    let rows: [(&[u8], EndFault); 4] = [
        (LIST, order(0, 0x4441)),
        (CLIENT_SETS, order(0, 0x4350)),
        (CUT_READ_FAULT, order(0, 0x4943)),
        (
            b"",
            EndFault::Grammar(Bad {
                at: 0,
                why: Why::Short,
            }),
        ),
    ];
    for (message, fault) in &rows {
        let mut host = begun(&rt);
        assert_eq!(rt; host.hear(message).err(), Some(*fault));
        assert_eq!(rt; host.hear(CONFIRM).err(), Some(*fault));
        host.begin().expect(&rt, "memory for the announce");
        goes(&rt, &mut host, CONFIRM);
        assert_eq!(rt; host.hear(CONFIRM).err(), Some(order(1, 0x4343)));
    }
}

#[test]
fn refuses_a_long_list(rt: HostRuntime) {
    let mut host = ready(&rt);
    let long = b"rDAD\x01\x01\0\0\x08\0\0\0\x01\0\0\0DATA\0\0\0\0\0\0\0\0";
    let count = EndFault::Grammar(Bad {
        at: 4,
        why: Why::Count,
    });
    assert_eq!(rt; host.hear(long).err(), Some(count));
}

/// A list, the reply to its device, a completion, and the removal.
#[test]
fn serves_a_device(rt: HostRuntime) {
    let mut host = ready(&rt);
    let listed = host.hear(LIST).expect(&rt, "a list");
    assert!(rt; matches!(&listed, Act::Announced(devices) if devices.as_slice().len() == 1));
    assert!(rt; host.ready());
    host.reply(1, Status::SUCCESS)
        .expect(&rt, "memory for a reply");
    sends(&rt, &mut host, REPLY);
    let completed = host.hear(CUT_READ_FAULT).expect(&rt, "a completion");
    let Act::Complete { head, body } = &completed else {
        panic!(rt; "no completion");
    };
    assert_eq!(rt;
        (head.device, head.completion, head.status),
        (1, 0, Status::INVALID_PARAMETER)
    );
    assert_eq!(rt; body.as_slice(), [0; 4].as_slice());
    let removed = host.hear(REMOVAL).expect(&rt, "a removal");
    assert!(rt; matches!(&removed, Act::Removed(ids) if ids.as_slice() == [1].as_slice()));
}

/// A list may come again, and so may the removal of a device that isn't there: both are handed on.
#[test]
fn hands_on_what_comes_again(rt: HostRuntime) {
    let mut host = ready(&rt);
    for _ in 0..2 {
        let listed = host.hear(LIST).expect(&rt, "a list");
        assert!(rt; matches!(&listed, Act::Announced(devices) if devices.as_slice().len() == 1));
    }
    let removed = host
        .hear(b"rDMD\x01\0\0\0\x09\0\0\0")
        .expect(&rt, "a removal");
    assert!(rt; matches!(&removed, Act::Removed(ids) if ids.as_slice() == [9].as_slice()));
}

#[test]
fn lends_a_body(rt: HostRuntime) {
    let mut host = ready(&rt);
    let lent = host.hear_lent(CUT_READ_FAULT).expect(&rt, "a completion");
    let LentAct::Complete { head, body } = &lent else {
        panic!(rt; "no completion");
    };
    assert_eq!(rt;
        (head.device, head.completion, head.status),
        (1, 0, Status::INVALID_PARAMETER)
    );
    assert_eq!(rt; *body, [0; 4].as_slice());
}

#[test]
fn tells_of_a_printer(rt: HostRuntime) {
    let mut host = ready(&rt);
    assert!(rt; host.ready());
    let notice = Notice::UsingXps {
        printer: 1,
        flags: 0,
    };
    host.notice(&notice).expect(&rt, "memory for a notice");
    sends(&rt, &mut host, XPS);
}
