//! Messages that a captured channel and worked examples give, and channels that open in each order.
use rd_base::{Bad, ReadNo, Why};
use rd_hello::{
    Cap, ClientShake, ClientState, General, Hello, HostShake, HostState, ShakeNo, Version,
    can_write_hello, put_hello, read_hello, write_hello,
};
use std::process::Abort;

const ANNOUNCE: &[u8] = b"rDnI\x01\0\x0c\0\x01\0\0\0";

const CONFIRM: &[u8] = b"rDCC\x01\0\x0c\0\x01\0\0\0";

const NAME: &[u8] = b"rDNC\x01\0\0\0\0\0\0\0\x08\0\0\0R\0D\0R\0\0\0";

const HOST_SETS: &[u8] =
    b"rDPS\x03\0\0\0\x01\0\x2c\0\x02\0\0\0\x02\0\0\0\0\0\0\0\x01\0\x0c\0\xff\xff\0\0\0\0\0\0\x05\0\0\0\0\0\0\0\0\0\0\0\0\0\0\0\x02\0\x08\0\x01\0\0\0\x04\0\x08\0\x02\0\0\0";

const CLIENT_SETS: &[u8] =
    b"rDPC\x03\0\0\0\x01\0\x2c\0\x02\0\0\0\x02\0\0\0\0\0\0\0\x01\0\x0c\0\xff\xff\0\0\0\0\0\0\x05\0\0\0\x01\0\0\0\0\0\0\0\0\0\0\0\x02\0\x08\0\x01\0\0\0\x04\0\x08\0\x02\0\0\0";

const LOGGED_ON: &[u8] = b"rDLU";

/// The sets that another host wrote: GENERAL, PRINTER, PORT, DRIVE and SMARTCARD.
const CAPTURED_SETS: &[u8] =
    b"rDPS\x05\0\0\0\x01\0\x2c\0\x02\0\0\0\x02\0\0\0\0\0\0\0\x01\0\x0c\0\xff\xff\0\0\0\0\0\0\x07\0\0\0\0\0\0\0\0\0\0\0\x02\0\0\0\x02\0\x08\0\x01\0\0\0\x03\0\x08\0\x01\0\0\0\x04\0\x08\0\x02\0\0\0\x05\0\x08\0\x01\0\0\0";

/// What is read of a message.
fn read(rt: &(impl Abort + AllocGlobal), message: &[u8]) -> Hello {
    let (hello, _) = read_hello(rt.alloc(), message).expect(rt, "a message");
    hello
}

/// This message is written, in these bytes.
fn is_written(rt: &(impl Abort + AllocGlobal), reply: &Option<Hello>, message: &[u8]) {
    let hello = reply.as_ref().expect(rt, "a reply");
    assert!(rt; can_write_hello(hello));
    let written = write_hello(rt.alloc(), hello).expect(rt, "memory for a message");
    assert_eq!(rt; written.as_slice(), message);
}

/// The client reads a message and is in this state then.
fn client_goes(
    rt: &(impl Abort + AllocGlobal),
    client: &mut ClientShake,
    message: &[u8],
    next: ClientState,
) {
    let hello = read(rt, message);
    let replies = client.step(rt.alloc(), &hello).expect(rt, "a step");
    assert_eq!(rt;
        (client.state(), replies.ready),
        (next, next == ClientState::Ready)
    );
}

/// The client refuses a message.
fn client_refusal(
    rt: &(impl Abort + AllocGlobal),
    client: &mut ClientShake,
    message: &[u8],
) -> Option<ShakeNo> {
    let hello = read(rt, message);
    client.step(rt.alloc(), &hello).err()
}

/// The fault of a message.
fn fault(rt: &(impl Abort + AllocGlobal), message: &[u8]) -> Option<Bad> {
    match read_hello(rt.alloc(), message) {
        Err(ReadNo::Bad(bad)) => Some(bad),
        _ => None,
    }
}

#[test]
fn host_begins(rt: HostRuntime) {
    let mut host = HostShake::new(1);
    is_written(&rt, &Some(host.begin()), ANNOUNCE);
    assert_eq!(rt; host.state(), HostState::Start);
}

#[test]
fn reads_an_announce(rt: HostRuntime) {
    let version = Version {
        minor: 12,
        client: 1,
    };
    assert!(rt;
        matches!(
            read_hello(rt.alloc(), ANNOUNCE),
            Ok((Hello::Announce(read), 0)) if read == version
        )
    );
}

#[test]
fn client_replies(rt: HostRuntime) {
    let mut client = ClientShake::new();
    let announce = read(&rt, ANNOUNCE);
    let replies = client.step(rt.alloc(), &announce).expect(&rt, "a step");
    is_written(&rt, &replies.first, CONFIRM);
    is_written(&rt, &replies.second, NAME);
    client_goes(&rt, &mut client, HOST_SETS, ClientState::Offered(true));
    let confirm = read(&rt, CONFIRM);
    let replies = client.step(rt.alloc(), &confirm).expect(&rt, "a step");
    is_written(&rt, &replies.first, CLIENT_SETS);
    client_goes(&rt, &mut client, LOGGED_ON, ClientState::Ready);
    client_goes(&rt, &mut client, LOGGED_ON, ClientState::Ready);
}

#[test]
fn host_replies(rt: HostRuntime) {
    let mut host = HostShake::new(1);
    let confirm = read(&rt, CONFIRM);
    let replies = host.step(rt.alloc(), &confirm).expect(&rt, "a step");
    assert!(rt; replies.first.is_none() && !replies.ready);
    let name = read(&rt, NAME);
    let replies = host.step(rt.alloc(), &name).expect(&rt, "a step");
    is_written(&rt, &replies.first, HOST_SETS);
    is_written(&rt, &replies.second, CONFIRM);
    let sets = read(&rt, CLIENT_SETS);
    let replies = host.step(rt.alloc(), &sets).expect(&rt, "a step");
    is_written(&rt, &replies.first, LOGGED_ON);
    assert!(rt; replies.ready);
}

#[test]
fn client_opens_in_each_order(rt: HostRuntime) {
    let mut client = ClientShake::new();
    client_goes(&rt, &mut client, ANNOUNCE, ClientState::Named);
    client_goes(&rt, &mut client, CONFIRM, ClientState::Confirmed);
    client_goes(&rt, &mut client, HOST_SETS, ClientState::Waiting);
    let mut other = ClientShake::new();
    client_goes(&rt, &mut other, ANNOUNCE, ClientState::Named);
    client_goes(&rt, &mut other, HOST_SETS, ClientState::Offered(true));
    client_goes(&rt, &mut other, CONFIRM, ClientState::Waiting);
}

#[test]
fn refuses_what_is_out_of_order(rt: HostRuntime) {
    let mut client = ClientShake::new();
    client_goes(&rt, &mut client, ANNOUNCE, ClientState::Named);
    let refusal = client_refusal(&rt, &mut client, ANNOUNCE);
    let state = 1;
    let packet = 0x496e;
    assert_eq!(rt; refusal, Some(ShakeNo::OutOfOrder { state, packet }));
    let text = format!(in rt.alloc(); "{}", ShakeNo::OutOfOrder { state, packet }).expect(
        &rt, "text",
    );
    assert_eq!(rt; text.as_str(), "the packet 0x496e doesn't come in state 1");
    client_goes(&rt, &mut client, CONFIRM, ClientState::Confirmed);
}

#[test]
fn reads_captured_sets(rt: HostRuntime) {
    let general = General {
        os: 2,
        os_version: 0,
        minor: 12,
        codes: 0xffff,
        codes2: 0,
        extended: 7,
        extra: 0,
        extra2: 0,
        special: Some(2),
    };
    let hello = read(&rt, CAPTURED_SETS);
    assert!(rt;
        matches!(&hello, Hello::ServerCaps(caps) if matches!(
            caps.as_slice(),
            [
                Cap::General(read),
                Cap::Printer(1),
                Cap::Other { kind: 3, version: 1, .. },
                Cap::Drive(2),
                Cap::Other { kind: 5, version: 1, .. },
            ] if *read == general
        ))
    );
    assert!(rt; can_write_hello(&hello));
    let mut out = Vec::new(rt.alloc());
    put_hello(&mut out, &hello).expect(&rt, "memory for a message");
    assert_eq!(rt; out.as_slice(), CAPTURED_SETS);
}

#[test]
fn names_faults(rt: HostRuntime) {
    let rows: [(&[u8], u32, Why); 6] = [
        (b"sDnI\x01\0\x0c\0\x01\0\0\0", 0, Why::Component),
        (b"rD\0\0\x01\0\x0c\0\x01\0\0\0", 2, Why::Packet),
        (b"rDnI\x02\0\x0c\0\x01\0\0\0", 4, Why::Value),
        (b"rDnI\x01\0\x0c\0\x01\0\0", 8, Why::Short),
        (
            b"rDNC\x01\0\0\0\0\0\0\0\x08\0\0\0R\0D\0R\0\0",
            16,
            Why::Short,
        ),
        (b"rDPC\x41\0\0\0", 4, Why::Count),
    ];
    for (message, at, why) in rows {
        assert_eq!(rt; fault(&rt, message), Some(Bad { at, why }));
    }
}
