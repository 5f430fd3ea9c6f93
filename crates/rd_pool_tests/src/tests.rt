//! Two workers at the desks of two drives, a thread that works alone, and a bell. Want of memory never comes, as no test takes the memory away.

ghost use Rattle.std.specs.Prelude.{◌≡◌};

use crate::alone::{Digits, run_alone};
use crate::side_by_side::{Held, LOOKS, Order, open_two, run_two};
use rd_base::{Item, Key, Units};
use rd_dirinfo::Naming;
use rd_drive::{Device, Job, MemoryDrive};
use rd_irp::Op;
use rd_pool::{AfterGate, Bell};
use rd_station::Station;
use std::alloc::Global;
use std::process::Abort;
use std::sync::Wait;
use std::sync::atomic::{AtomicBool, AtomicU64};
use std::thread;
use std::thread::{Threads, join};

/// A close of a file that isn't open, under the key and the completion id of a number.
fn close(number: u32) -> Job {
    Job {
        key: Key {
            channel: 1,
            index: u64::from(number),
        },
        file: 9,
        completion: number,
        op: Op::Close,
    }
}

/// The station of a drive that is empty.
fn station<R: Abort>(rt: &R, alloc: Global) -> Station<MemoryDrive> {
    let drive = MemoryDrive::new(alloc, Units::of(Vec::new(alloc)), Naming::Exact).expect(
        rt, "a drive",
    );
    let Ok(station) = Station::new(alloc, drive) else {
        panic!(rt; "a station");
    };
    station
}

/// What comes of a close at each of two desks, if there is memory.
fn close_at_two<T: Threads + Wait + Sync, D: Device + Drop + Send>(
    rt: &T,
    alloc: Global,
    first: Station<D>,
    second: Station<D>,
    bell: &Bell,
    writer: &Bell,
    held: &Held,
) -> Option<Order>
    requires { (bell.now ≡ 2) × (writer.now ≡ 2) }
{
    let (desks, passes) = open_two(alloc, first, second)?;
    let ran = run_two(
        rt,
        alloc,
        desks,
        passes,
        bell,
        writer,
        held,
        close(7),
        close(7),
    );
    ran.map(|both| both.1)
}

/// While a worker is held up with the job of one drive another runs that of the other drive, which is collected first; then the first one's is.
#[test]
fn works_side_by_side(rt: HostRuntime) {
    let alloc = rt.alloc();
    let held = Held {
        alloc,
        goes_on: AtomicBool::new(false),
    };
    let bell = Bell::new(alloc, 2).expect(&rt, "a bell");
    let writer = Bell::new(alloc, 2).expect(&rt, "a bell");
    let first = station(&rt, alloc);
    let second = station(&rt, alloc);
    let order = close_at_two(&rt, alloc, first, second, &bell, &writer, &held);
    let right = Order {
        first: Some(1),
        second: Some(0),
    };
    assert!(rt; order == Some(right));
}

/// A job is put. Whether it comes.
fn put(station: &mut Station<MemoryDrive>, job: Job) -> bool {
    station.may_put(job.key) && station.put(job).is_ok()
}

/// Whether the entry is a run of the request with this number, at this moment.
fn is_run(entry: &Item, number: u64, at: u64) -> bool {
    match *entry {
        Item::Ran { key, moment, .. } => key.index == number && moment == at,
        _ => false,
    }
}

/// The keys 1 and 2 have passed the gate, in this order, before the clock is asked at which moment both jobs run: it tells what has passed.
#[test]
fn passes_the_gate(rt: HostRuntime) {
    let alloc = rt.alloc();
    let digits = Digits {
        passed: AtomicU64::new(0),
    };
    let outside = AfterGate {
        alloc,
        clock: &digits,
        gate: &digits,
    };
    let bell = Bell::new(alloc, 1).expect(&rt, "a bell");
    let writer = Bell::new(alloc, 2).expect(&rt, "a bell");
    let mut station = station(&rt, alloc);
    assert!(rt; station.announce().is_ok());
    assert!(rt; put(&mut station, close(1)) && put(&mut station, close(2)));
    let ran = run_alone(&rt, alloc, &outside, station, &bell, &writer);
    let station = ran
        .expect(&rt, "desks")
        .pop_front()
        .expect(&rt, "a station");
    let entries = station.journal().items();
    assert!(rt; entries.len() == 4 && is_run(&entries[2], 1, 12) && is_run(&entries[3], 2, 12));
    assert!(rt; writer.try_next(&rt) == Some(0));
}

/// Each place is given once, in the order in which it was rung for, and none once the bell is over.
#[test]
fn a_bell_is_rung(rt: HostRuntime) {
    let bell = Bell::new(rt.alloc(), 3).expect(&rt, "a bell");
    assert!(rt; bell.count() == 3);
    bell.ring(&rt, 2);
    bell.ring(&rt, 0);
    bell.ring(&rt, 2);
    assert!(rt; bell.wait(&rt) == Some(2) && bell.wait(&rt) == Some(0));
    assert!(rt; bell.try_next(&rt).is_none());
    bell.ring(&rt, 1);
    bell.close(&rt);
    assert!(rt; bell.wait(&rt).is_none() && bell.try_next(&rt).is_none());
}

/// What whoever claims sees: whether the first claim was one, and the second, and which place is given meanwhile.
type Claims = (bool, bool, Option<usize>);

/// Claims the bell once somebody sleeps there, and rings for a place.
fn claim_twice<T: Wait>(rt: &T, bell: &Bell) -> Claims
    requires { bell.now ≡ 2 }
{
    for _ in 0..LOOKS {
        if bell.has_sleeper(rt) {
            break;
        }
        thread::yield_now();
    }
    let claims = (bell.claim(rt), bell.claim(rt));
    bell.ring(rt, 1);
    let given = bell.try_next(rt);
    bell.release(rt);
    (claims.0, claims.1, given)
}

/// A thread sleeps at the bell while another claims it. The place that it is given, and what the other sees.
fn claim_beside<T: Threads + Wait + Sync>(rt: &T, bell: &Bell) -> (Option<usize>, Claims)
    requires { bell.now ≡ 2 }
{
    join(rt, || bell.wait(rt), || claim_twice(rt, bell))
}

/// A claim needs a sleeper, and no place is given before it ends; then the sleeper is given what was rung for. A bell that was closed can be opened.
#[test]
fn a_bell_is_claimed(rt: HostRuntime) {
    let bell = Bell::new(rt.alloc(), 2).expect(&rt, "a bell");
    assert!(rt; !bell.was_heard(&rt) && !bell.claim(&rt));
    let seen = claim_beside(&rt, &bell);
    assert!(rt; seen == (Some(1), (true, false, None)));
    assert!(rt; bell.was_heard(&rt) && !bell.has_sleeper(&rt));
    bell.ring(&rt, 0);
    bell.close(&rt);
    bell.open(&rt);
    bell.ring(&rt, 1);
    assert!(rt; bell.wait(&rt) == Some(1) && bell.try_next(&rt).is_none());
}
