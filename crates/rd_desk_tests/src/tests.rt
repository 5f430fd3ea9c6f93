//! A desk over a drive in memory, with one hand, and with two in a thread each. Want of memory never comes, as no test takes the memory away.

ghost use Rattle.std.specs.Prelude.{◌≡◌, []};
ghost use Rattle.rd_drive.specs.Answered.{drive_parked};
ghost use Rattle.rd_turn.specs.Pass.{Belongs};

use crate::side_by_side::{run_two, tell, work_side_by_side};
use rd_base::{Bytes, Key, Units};
use rd_desk::{Batch, Desk, DeskCall, DeskReply, Hand, Worked};
use rd_dirinfo::Naming;
use rd_drive::{Job, MemoryDrive};
use rd_irp::{Body, Op};
use rd_station::{Applied, Completion, Station};
use rd_turn::{Caller, Pass, Turn};
use std::alloc::Global;
use std::process::Abort;
use std::sync::Wait;

type Drives = Desk<MemoryDrive>;

/// The key of a number.
fn key(number: u32) -> Key {
    Key {
        channel: 1,
        index: u64::from(number),
    }
}

/// A request of the file that is opened first, under the key and the completion id of a number.
fn job(number: u32, op: Op) -> Job {
    Job {
        key: key(number),
        file: 1,
        completion: number,
        op,
    }
}

/// A file is made, to be read and written.
fn create<R: Abort>(rt: &R, alloc: Global) -> Job {
    let path = "\\a".encode_utf16().collect(alloc).expect(rt, "a path");
    let op = Op::Create {
        access: 0xc000_0000,
        allocation: 0,
        attributes: 0,
        share: 7,
        disposition: 2,
        options: 0,
        path: Units::of(path),
    };
    job(0, op)
}

/// A write of two bytes.
fn write<R: Abort>(rt: &R, alloc: Global, number: u32, offset: u64, text: &[u8]) -> Job {
    let bytes = Bytes::of(text.to_vec(alloc).expect(rt, "bytes"));
    job(number, Op::Write { offset, bytes })
}

fn read(number: u32) -> Job {
    job(
        number,
        Op::Read {
            offset: 0,
            length: 9,
        },
    )
}

/// A drive that is empty.
fn drive<R: Abort>(rt: &R, alloc: Global) -> MemoryDrive
    ensures { drive_parked result ≡ [] }
{
    MemoryDrive::new(alloc, Units::of(Vec::new(alloc)), Naming::Exact).expect(rt, "a drive")
}

/// The desk of a station.
fn desk_of<R: Abort>(rt: &R, alloc: Global, station: Station<MemoryDrive>) -> Drives {
    let Ok(desk) = Desk::new(alloc, station) else {
        panic!(rt; "a desk");
    };
    desk
}

/// The desk of a drive that is empty.
fn desk<R: Abort>(rt: &R, alloc: Global) -> Drives {
    let Ok(station) = Station::new(alloc, drive(rt, alloc)) else {
        panic!(rt; "a station");
    };
    desk_of(rt, alloc, station)
}

/// A job is put. Whether it comes.
fn put<T: Wait>(rt: &T, desk: &mut Caller<'_, Drives>, job: Job) -> bool {
    let reply = desk.call(rt, DeskCall::Put(job));
    matches!(reply, DeskReply::Put(Ok(())))
}

/// Jobs are put. How many come.
fn put_all<T: Wait>(rt: &T, desk: &mut Caller<'_, Drives>, jobs: Vec<Job>) -> u32 {
    let mut come = 0u32;
    for job in jobs {
        if put(rt, desk, job) {
            come = come.wrapping_add(1);
        }
    }
    come
}

/// Whether a job that is put comes back, since it may not come.
fn is_unfit<T: Wait>(rt: &T, desk: &mut Caller<'_, Drives>, job: Job) -> bool {
    let reply = desk.call(rt, DeskCall::Put(job));
    matches!(reply, DeskReply::Unfit(_))
}

fn is_success(done: &Completion, id: u32, bytes: &[u8]) -> bool {
    let right = match &done.reply.body {
        Body::Buffer(buffer) => buffer.as_slice() == bytes,
        _ => bytes.is_empty(),
    };
    right && done.completion == id && done.reply.status.0 == 0
}

/// Whether what is collected next is a success with this completion id, and with these bytes where it has some.
fn collects<T: Wait>(rt: &T, desk: &mut Caller<'_, Drives>, id: u32, bytes: &[u8]) -> bool {
    let reply = desk.call(rt, DeskCall::Collect);
    match reply {
        DeskReply::Collected(Some(done)) => is_success(&done, id, bytes),
        _ => false,
    }
}

/// Whether the reply to a hand is this: how many jobs, whether some are left, whether a completion is ready, and whether the session is over.
fn says(worked: &Worked, count: usize, left: bool, ready: bool, over: bool) -> bool {
    worked.count() == count
        && worked.left() == left
        && worked.ready() == ready
        && worked.over() == over
}

/// The turn of a new desk.
fn open<R: Abort>(rt: &R, alloc: Global, desk: Drives) -> (Turn<Drives>, Pass<Drives>)
    ensures own { Belongs result.0 result.1 }
    ensures first { (result.1.number ≡ 0) × (result.1.made ≡ 0) × (result.1.out ≡ 0) }
{
    let Ok(opened) = Turn::new(alloc, desk) else {
        panic!(rt; "a turn");
    };
    opened
}

/// One hand is given four jobs and then the fifth; what it gives back is run, in the order in which it came.
#[test]
fn a_hand_works(rt: HostRuntime) {
    let alloc = rt.alloc();
    let (turn, mut pass) = open(&rt, alloc, desk(&rt, alloc));
    let mut hand = Hand::new(&turn, turn.split(&mut pass));
    let mut desk = Caller::new(&turn, pass);
    desk.call(&rt, DeskCall::Announce);
    let jobs = [
        create(&rt, alloc),
        write(&rt, alloc, 1, 0, b"ab"),
        write(&rt, alloc, 2, 2, b"cd"),
        read(3),
        job(4, Op::Close),
    ];
    let jobs = Vec::from_array(alloc, jobs).expect(&rt, "jobs");
    assert!(rt; put_all(&rt, &mut desk, jobs) == 5);
    assert!(rt; is_unfit(&rt, &mut desk, read(3)));
    let worked = hand.work(&rt, Batch::new(alloc).expect(&rt, "a batch"));
    assert!(rt; says(&worked, 4, true, false, false));
    assert!(rt; worked.key(3) == Some(key(3)) && worked.key(4).is_none());
    let worked = hand.work(&rt, worked.into_batch(alloc, 5));
    assert!(rt; says(&worked, 1, false, true, false));
    assert!(rt; worked.applied(3) == Some(Applied::Ran));
    let worked = hand.work(&rt, worked.into_batch(alloc, 6));
    assert!(rt; says(&worked, 0, false, true, false));
    for id in 0..5 {
        let bytes: &[u8] = if id == 3 { b"abcd" } else { b"" };
        assert!(rt; collects(&rt, &mut desk, id, bytes));
    }
    desk.call(&rt, DeskCall::End);
    let worked = hand.work(&rt, worked.into_batch(alloc, 7));
    assert!(rt; says(&worked, 0, false, false, true));
}

/// Two hands run two writes side by side, in whatever order, and the read after them has both.
#[test]
fn two_hands_in_two_threads(rt: HostRuntime) {
    let alloc = rt.alloc();
    let (turn, mut pass) = open(&rt, alloc, desk(&rt, alloc));
    tell(&rt, &turn, &mut pass, DeskCall::Announce);
    tell(&rt, &turn, &mut pass, DeskCall::Put(create(&rt, alloc)));
    let mut pass = work_side_by_side(&rt, alloc, &turn, pass, 5);
    let first = write(&rt, alloc, 1, 0, b"ab");
    let second = write(&rt, alloc, 2, 2, b"cd");
    tell(&rt, &turn, &mut pass, DeskCall::Put(first));
    tell(&rt, &turn, &mut pass, DeskCall::Put(second));
    let mut pass = work_side_by_side(&rt, alloc, &turn, pass, 6);
    tell(&rt, &turn, &mut pass, DeskCall::Put(read(3)));
    let pass = work_side_by_side(&rt, alloc, &turn, pass, 7);
    let mut desk = Caller::new(&turn, pass);
    for _ in 0..3 {
        desk.call(&rt, DeskCall::Collect);
    }
    assert!(rt; collects(&rt, &mut desk, 3, b"abcd"));
}

/// Two jobs that two hands run; a removal leaves what is ready, and the channel's end doesn't.
#[test]
fn a_device_goes(rt: HostRuntime) {
    let alloc = rt.alloc();
    let first = create(&rt, alloc);
    let ran = run_two(&rt, alloc, drive(&rt, alloc), first, read(1), 5);
    let station = ran.expect(&rt, "a station");
    assert!(rt; station.journal().items().len() == 4);
    let (turn, pass) = open(&rt, alloc, desk_of(&rt, alloc, station));
    let mut desk = Caller::new(&turn, pass);
    desk.call(&rt, DeskCall::Remove);
    assert!(rt; collects(&rt, &mut desk, 0, b""));
    desk.call(&rt, DeskCall::DropChannel);
    assert!(rt; !collects(&rt, &mut desk, 1, b""));
}
