//! A client's end, message by message.

ghost use Rattle.std.specs.Prelude.{◌≡◌, ◌∷◌, []};
ghost use Rattle.rd_client.specs.Core.{AreDevices};

use crate::messages::{
    ANNOUNCE, CLIENT_SETS, CONFIRM, CREATE, CUT_READ, CUT_READ_FAULT, HOST_SETS, LIST, LOGGED_ON,
    NAME, REMOVAL, REPLY, UNKNOWN, UNKNOWN_FAULT, XPS,
};
use rd_base::{Bad, Bytes, Items, Status, Why};
use rd_client::{ClientCore, Heard};
use rd_devices::{Announce, DeviceList};
use rd_drive::Job;
use rd_hello::EndFault;
use rd_irp::Op;
use rd_printer::Notice;
use std::process::Abort;

/// The most requests of a channel.
const MAX_ASKED: u64 = 1 << 40;

/// The list of the drive DATA with id 1.
fn devices(rt: &(impl Abort + AllocGlobal)) -> DeviceList
    ensures drive { result ≡ record { kind = 8; id = 1; dos = 68 ∷ 65 ∷ 84 ∷ 65 ∷ 0 ∷ 0 ∷ 0 ∷ 0 ∷ []; body = [] } ∷ [] }
    ensures devices { AreDevices result }
{
    let drive = Announce {
        kind: 8,
        id: 1,
        dos: *b"DATA\0\0\0\0",
        body: Bytes::of(Vec::new(rt.alloc())),
    };
    let list = Vec::from_array(rt.alloc(), [drive]).expect(rt, "memory for a list");
    Items::of(list)
}

/// A client with the drive, on channel 1.
fn begun(rt: &(impl Abort + AllocGlobal)) -> ClientCore {
    let mut client = ClientCore::new(rt.alloc(), devices(rt));
    client.begin(1);
    client
}

/// What a client hears.
fn hear(rt: &impl Abort, client: &mut ClientCore, message: &[u8]) -> Result<Heard, EndFault> {
    assert!(rt; client.asked() < MAX_ASKED);
    client.hear(message)
}

/// The client hears a message that asks nothing.
fn goes(rt: &impl Abort, client: &mut ClientCore, message: &[u8]) {
    let heard = hear(rt, client, message).expect(rt, "a message in order");
    assert!(rt; matches!(&heard, Heard::Nothing));
}

/// The client sends this message next.
fn sends(rt: &impl Abort, client: &mut ClientCore, message: &[u8]) {
    assert!(rt; client.has_message());
    let sent = client.outbox().expect(rt, "a message");
    assert_eq!(rt; sent.as_slice(), message);
}

/// A client that heard these messages, which ask nothing.
fn heard(rt: &(impl Abort + AllocGlobal), messages: &[&[u8]]) -> ClientCore {
    let mut client = begun(rt);
    for message in messages {
        goes(rt, &mut client, message);
    }
    client
}

/// A client that is ready, and has nothing to send.
fn ready(rt: &(impl Abort + AllocGlobal)) -> ClientCore {
    let mut client = heard(rt, &[ANNOUNCE, HOST_SETS, CONFIRM, LOGGED_ON]);
    for message in [CONFIRM, NAME, CLIENT_SETS, LIST] {
        sends(rt, &mut client, message);
    }
    client
}

/// The client hears a request, for this device.
fn asks(rt: &impl Abort, client: &mut ClientCore, message: &[u8]) -> (u32, Job) {
    match hear(rt, client, message).expect(rt, "a request") {
        Heard::Ask { device, job } => (device, job),
        _ => panic!(rt; "no request"),
    }
}

/// The client answers a request itself, and sends this completion next.
fn answers(
    rt: &impl Abort,
    client: &mut ClientCore,
    (device, job): (u32, Job),
    status: Status,
    message: &[u8],
) {
    assert!(rt; client.may_be_asked() && status != Status::SUCCESS);
    client
        .direct(&job, device, status)
        .expect(rt, "memory for a completion");
    sends(rt, client, message);
}

#[test]
fn opens(rt: HostRuntime) {
    let client = ready(&rt);
    assert!(rt; client.ready());
    assert!(rt; !client.has_message());
}

/// The confirm may come first or last. The client waits for the log-on that the host's sets tell of, and may be asked before.
#[test]
fn waits(rt: HostRuntime) {
    for messages in [
        [ANNOUNCE, CONFIRM, HOST_SETS],
        [ANNOUNCE, HOST_SETS, CONFIRM],
    ] {
        let mut client = heard(&rt, &messages);
        assert!(rt; client.may_be_asked() && !client.ready());
        asks(&rt, &mut client, CREATE);
        goes(&rt, &mut client, LOGGED_ON);
        assert!(rt; client.ready());
    }
}

/// A message that a client refuses at the start, and why. The answer stays until a channel begins.
#[test]
fn refuses(rt: HostRuntime) {
    let wrong = |at: u32, why: Why| EndFault::Grammar(Bad { at, why });
    let rows: [(&[u8], EndFault); 5] = [
        (b"", wrong(0, Why::Short)),
        (b"sDnI\x01\0\x0c\0\x01\0\0\0", wrong(0, Why::Component)),
        (b"rD\0\0\x01\0\x0c\0\x01\0\0\0", wrong(2, Why::Packet)),
        (b"rDnI\x02\0\x0c\0\x01\0\0\0", wrong(4, Why::Value)),
        (
            CREATE,
            EndFault::Order {
                state: 0,
                packet: 0x4952,
            },
        ),
    ];
    for (message, fault) in &rows {
        let mut client = begun(&rt);
        assert_eq!(rt; hear(&rt, &mut client, message).err(), Some(*fault));
        assert_eq!(rt; hear(&rt, &mut client, ANNOUNCE).err(), Some(*fault));
        client.begin(2);
        goes(&rt, &mut client, ANNOUNCE);
    }
}

/// A message that comes too early or too late, after these, in the state with this number.
struct OutOfOrder {
    before: &'static [&'static [u8]],
    message: &'static [u8],
    state: u8,
    packet: u16,
}

const OUT_OF_ORDER: [OutOfOrder; 4] = [
    OutOfOrder {
        before: &[ANNOUNCE],
        message: ANNOUNCE,
        state: 1,
        packet: 0x496e,
    },
    OutOfOrder {
        before: &[ANNOUNCE],
        message: CREATE,
        state: 1,
        packet: 0x4952,
    },
    OutOfOrder {
        before: &[ANNOUNCE, CONFIRM],
        message: CREATE,
        state: 2,
        packet: 0x4952,
    },
    OutOfOrder {
        before: &[ANNOUNCE, HOST_SETS],
        message: CREATE,
        state: 3,
        packet: 0x4952,
    },
];

#[test]
fn refuses_out_of_order(rt: HostRuntime) {
    for row in &OUT_OF_ORDER {
        let mut client = heard(&rt, row.before);
        let order = EndFault::Order {
            state: row.state,
            packet: row.packet,
        };
        assert_eq!(rt; hear(&rt, &mut client, row.message).err(), Some(order));
    }
}

/// A request whose body is cut short can be completed.
#[test]
fn answers_a_cut_request(rt: HostRuntime) {
    let mut client = ready(&rt);
    let (device, job) = asks(&rt, &mut client, CUT_READ);
    assert_eq!(rt;
        (device, job.key.channel, job.key.index, client.asked()),
        (1, 1, 0, 1)
    );
    let Op::Malformed { major, bad, .. } = &job.op else {
        panic!(rt; "a whole request");
    };
    assert_eq!(rt; (*major, bad.at), (3, 36));
    let status = Status::INVALID_PARAMETER;
    answers(&rt, &mut client, (device, job), status, CUT_READ_FAULT);
}

/// One whose head is cut short can't.
#[test]
fn refuses_a_cut_head(rt: HostRuntime) {
    let mut client = ready(&rt);
    let head = b"rDRI\x01\0\0\0\0\0\0\0\0\0\0\0\0\0\0\0\0\0\0";
    let short = EndFault::Grammar(Bad {
        at: 20,
        why: Why::Short,
    });
    assert_eq!(rt; hear(&rt, &mut client, head).err(), Some(short));
}

/// A request with a function that no operation has is handed on as it came.
#[test]
fn hears_of_an_unknown_function(rt: HostRuntime) {
    let mut client = ready(&rt);
    let (device, job) = asks(&rt, &mut client, UNKNOWN);
    let Op::Unknown { major, minor } = &job.op else {
        panic!(rt; "a known function");
    };
    assert_eq!(rt; (device, *major, *minor), (1, 0x12, 9));
    let status = Status::NOT_SUPPORTED;
    answers(&rt, &mut client, (device, job), status, UNKNOWN_FAULT);
}

/// A reply to a device is ignored.
#[test]
fn ignores_replies(rt: HostRuntime) {
    let mut client = ready(&rt);
    goes(&rt, &mut client, REPLY);
    assert!(rt; !client.has_message());
}

/// What the host tells of a printer is handed on.
#[test]
fn hears_of_a_printer(rt: HostRuntime) {
    let mut client = ready(&rt);
    let heard = hear(&rt, &mut client, XPS).expect(&rt, "a notice");
    assert!(rt;
        matches!(
            &heard,
            Heard::Print(Notice::UsingXps {
                printer: 1,
                flags: 0
            })
        )
    );
}

/// A device that was removed isn't announced on the next channel, and one that was added is.
#[test]
fn announces_what_is_there(rt: HostRuntime) {
    let mut client = ready(&rt);
    assert!(rt; client.ready() && client.has_device(1) && !client.is_gone(1));
    client.tell_removed(1).expect(&rt, "memory for a removal");
    sends(&rt, &mut client, REMOVAL);
    client.begin(2);
    for message in [ANNOUNCE, HOST_SETS, CONFIRM, LOGGED_ON] {
        goes(&rt, &mut client, message);
    }
    for message in [CONFIRM, NAME, CLIENT_SETS, b"rDAD\0\0\0\0"] {
        sends(&rt, &mut client, message);
    }
    assert!(rt; client.ready() && client.is_gone(1));
    client.tell_added(1).expect(&rt, "memory for a list");
    sends(&rt, &mut client, LIST);
}

/// A client on channel 1 whose drive has other data now.
fn refreshed(rt: &(impl Abort + AllocGlobal)) -> ClientCore {
    let mut client = ClientCore::new(rt.alloc(), devices(rt));
    let data = Vec::from_array(rt.alloc(), [1, 2]).expect(rt, "memory for data");
    client.refresh(1, Bytes::of(data));
    client.begin(1);
    client
}

/// A device whose data was replaced is announced with the new data.
#[test]
fn announces_new_data(rt: HostRuntime) {
    let mut client = refreshed(&rt);
    for message in [ANNOUNCE, HOST_SETS, CONFIRM, LOGGED_ON] {
        goes(&rt, &mut client, message);
    }
    let list = b"rDAD\x01\0\0\0\x08\0\0\0\x01\0\0\0DATA\0\0\0\0\x02\0\0\0\x01\x02";
    for message in [CONFIRM, NAME, CLIENT_SETS, list] {
        sends(&rt, &mut client, message);
    }
}
