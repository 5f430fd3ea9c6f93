//! The calls of a row, and what a table answers, as text.
use rd_base::{Status, Units};
use rd_irp::{Head, Op, measure_request};
use rd_pending::{Handle, Pending, SubmitNo, Target, may_submit};
use std::alloc::Global;
use std::fmt::Debug;
use std::process::Abort;

/// STATUS_ACCESS_DENIED, with which a row refuses a request.
pub const DENIED: Status = Status(0xc000_0022);

/// What a row asks of the table.
#[derive(Clone, Copy)]
pub enum Call {
    Begin(u32),
    Live(u32),
    /// Opens the root of a device.
    Open(u32),
    /// Opens the root of a device, and names a file of it: that may not be.
    Reopen(u32),
    /// Reads from a file of a device in a life.
    Read(u32, u64),
    HasMessage,
    /// Sends a message; the answer is its device and its completion id.
    Send,
    /// Refuses the request with a device and a completion id.
    Refuse(u32, u32),
    /// Completes it with success, with these bytes after the head.
    Complete(u32, u32, &'static [u8]),
    Remove(u32),
    Take(u64),
    Drop,
    DropSent,
    Stage,
}

/// Opening the root of a device.
pub fn opening(alloc: Global) -> Op {
    Op::Create {
        access: 0x8000_0000,
        allocation: 0,
        attributes: 0,
        share: 7,
        disposition: 1,
        options: 0,
        path: Units::of(Vec::new(alloc)),
    }
}

fn handle(device: u32, life: u64) -> Target {
    Target::Handle(Handle {
        device,
        life,
        file: 1,
    })
}

/// Submits a request, if it may be submitted.
pub fn submit(pending: &mut Pending, target: Target, op: Op) -> Option<Result<u64, SubmitNo>> {
    if !may_submit(target, &op) {
        return None;
    }
    Some(pending.submit(1, target, op))
}

/// Sends a message: its device and its completion id.
pub fn send(pending: &mut Pending) -> Option<(u32, u32)> {
    let message = pending.outbox()?;
    let (head, _) = measure_request(message.as_slice()).ok()?;
    Some((head.device, head.completion))
}

/// The head of a completion.
pub fn head(device: u32, completion: u32, status: Status) -> Head {
    Head {
        device,
        completion,
        status,
    }
}

fn begin(pending: &mut Pending, channel: u32) -> Option<bool> {
    if !pending.may_begin(channel) {
        return None;
    }
    Some(pending.begin(channel))
}

/// What the table answers.
pub fn answer(rt: &(impl Abort + AllocGlobal), pending: &mut Pending, call: Call) -> String {
    match call {
        Call::Begin(channel) => told(rt, &begin(pending, channel)),
        Call::Live(device) => told(rt, &pending.live(device)),
        Call::Open(device) => {
            let op = opening(rt.alloc());
            told(rt, &submit(pending, Target::Device(device), op))
        }
        Call::Reopen(device) => {
            let op = opening(rt.alloc());
            told(rt, &submit(pending, handle(device, 1), op))
        }
        Call::Read(device, life) => {
            let op = Op::Read {
                offset: 0,
                length: 2,
            };
            told(rt, &submit(pending, handle(device, life), op))
        }
        Call::HasMessage => told(rt, &pending.has_message()),
        Call::Send => told(rt, &send(pending)),
        Call::Refuse(device, id) => told(rt, &pending.complete(head(device, id, DENIED), &[])),
        Call::Complete(device, id, body) => {
            told(
                rt,
                &pending.complete(head(device, id, Status::SUCCESS), body),
            )
        }
        Call::Remove(device) => told(rt, &pending.remove(device)),
        Call::Take(number) => told(rt, &pending.take(number)),
        Call::Drop => {
            pending.drop_channel();
            told(rt, &())
        }
        Call::DropSent => told(rt, &pending.drop_sent()),
        Call::Stage => told(rt, &pending.stage()),
    }
}

/// A value as text.
pub fn told<T: Debug>(rt: &(impl Abort + AllocGlobal), value: &T) -> String {
    format!(in rt.alloc(); "{value:?}").expect(rt, "memory for an answer")
}
