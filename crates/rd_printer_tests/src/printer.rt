//! What a printer replies, and the documents that it finishes. NO_MEMORY never comes, as no test takes the memory away.
use crate::notices::bytes;
use rd_base::{Key, Status, Units};
use rd_drive::{Device, Ends, Job, Step, prepare};
use rd_irp::{Body, Op, Reply};
use rd_printer::Printer;
use std::process::Abort;

const INVALID_HANDLE: Want = Want::No(0xc000_0008);

const INVALID_DEVICE_REQUEST: Want = Want::No(0xc000_0010);

/// What a request asks for.
#[derive(Clone, Copy)]
enum Ask {
    Create,
    Write(&'static [u8]),
    /// Of this class.
    Query(u32),
    Close,
}

/// What comes of it.
#[derive(Clone, Copy)]
enum Want {
    /// File id.
    Opened(u32),
    Count(u32),
    Closed,
    No(u32),
}

/// The documents that requests finish: of each its file id, what it asks for, and what comes of it.
struct Row {
    lines: &'static [(u32, Ask, Want)],
    documents: &'static [&'static [u8]],
}

const ROWS: &[Row] = &[
    Row {
        lines: &[
            (0, Ask::Create, Want::Opened(1)),
            (1, Ask::Query(5), INVALID_DEVICE_REQUEST),
            (1, Ask::Close, Want::Closed),
            (1, Ask::Close, INVALID_HANDLE),
        ],
        documents: &[b""],
    },
    Row {
        lines: &[
            (0, Ask::Create, Want::Opened(1)),
            (0, Ask::Create, Want::Opened(2)),
            (1, Ask::Write(b"a"), Want::Count(1)),
            (2, Ask::Write(b"b"), Want::Count(1)),
            (3, Ask::Write(b"c"), INVALID_HANDLE),
            (1, Ask::Write(b"cd"), Want::Count(2)),
            (2, Ask::Close, Want::Closed),
            (1, Ask::Close, Want::Closed),
        ],
        documents: &[b"b", b"acd"],
    },
];

/// One document is finished, and one open.
const OPENED: &[(u32, Ask, Want)] = &[
    (0, Ask::Create, Want::Opened(1)),
    (1, Ask::Write(b"a"), Want::Count(1)),
    (1, Ask::Close, Want::Closed),
    (0, Ask::Create, Want::Opened(2)),
];

/// What was open is gone, and its file id isn't given again.
const LOST: &[(u32, Ask, Want)] = &[
    (2, Ask::Close, INVALID_HANDLE),
    (0, Ask::Create, Want::Opened(3)),
];

fn op(rt: &(impl Abort + AllocGlobal), ask: Ask) -> Op {
    match ask {
        Ask::Create => Op::Create {
            access: 0x4000_0000,
            allocation: 0,
            attributes: 0,
            share: 0,
            disposition: 1,
            options: 0,
            path: Units::of(Vec::new(rt.alloc())),
        },
        Ask::Write(of) => Op::Write {
            offset: 0,
            bytes: bytes(rt, of),
        },
        Ask::Query(class) => Op::QueryFile { class },
        Ask::Close => Op::Close,
    }
}

fn run(rt: &(impl Abort + AllocGlobal), printer: &mut Printer, file: u32, ask: Ask) -> Step {
    let job = Job {
        key: Key {
            channel: 1,
            index: 0,
        },
        file,
        completion: 0,
        op: op(rt, ask),
    };
    let mut ends = Ends::new(rt.alloc()).expect(rt, "memory for ends");
    printer.apply(prepare(rt.alloc(), job), 0, &mut ends)
}

fn is_body(body: &Body, want: Want) -> bool {
    match (body, want) {
        (Body::Created { file, information }, Want::Opened(id)) => *file == id && *information == 0,
        (Body::Count(count), Want::Count(wanted)) => *count == wanted,
        (Body::Closed, Want::Closed) => true,
        (Body::Fault, Want::No(_)) => true,
        _ => false,
    }
}

fn is_step(step: &Step, want: Want) -> bool {
    let status = match want {
        Want::No(status) => Status(status),
        _ => Status::SUCCESS,
    };
    match step {
        Step::Reply(reply) => reply.status == status && is_body(&reply.body, want),
        Step::Parked => false,
    }
}

/// Whether each request comes as it is said.
fn comes(
    rt: &(impl Abort + AllocGlobal),
    printer: &mut Printer,
    lines: &[(u32, Ask, Want)],
) -> bool {
    for (file, ask, want) in lines {
        let step = run(rt, printer, *file, *ask);
        if !is_step(&step, *want) {
            return false;
        }
    }
    true
}

/// Whether the printer finished these documents, in their order.
fn finished(printer: &Printer, wanted: &[&[u8]]) -> bool {
    let documents = printer.documents().as_slice();
    let mut alike = documents.iter().zip(wanted);
    documents.len() == wanted.len() && alike.all(|(is, wanted)| is.as_slice() == *wanted)
}

/// Whether a row's requests come as they are said, and finish its documents.
fn prints(rt: &(impl Abort + AllocGlobal), row: &Row) -> bool {
    let mut printer = Printer::new(rt.alloc());
    comes(rt, &mut printer, row.lines) && finished(&printer, row.documents)
}

/// Whether a printer that is cut off loses what is open, and keeps what is finished.
fn cuts_off(rt: &(impl Abort + AllocGlobal)) -> bool {
    let mut printer = Printer::new(rt.alloc());
    let before = comes(rt, &mut printer, OPENED);
    printer.cut();
    let after = comes(rt, &mut printer, LOST);
    before && after && finished(&printer, &[b"a"])
}

#[test]
fn prints_documents(rt: HostRuntime) {
    for row in ROWS {
        assert!(rt; prints(&rt, row));
    }
}

#[test]
fn drops_open_documents(rt: HostRuntime) {
    assert!(rt; cuts_off(&rt));
}
