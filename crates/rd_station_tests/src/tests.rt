//! A station over a drive in memory: what a request goes through, what doesn't come, and what is left when a device or a channel ends. Want of
//! memory never comes, as no test takes the memory away.
use rd_base::{Cause, Item, Key, Status, Units};
use rd_dirinfo::Naming;
use rd_drive::{Job, MemoryDrive, prepare};
use rd_irp::{Op, Reply};
use rd_station::{AnnounceNo, Applied, Completion, Given, PutWhy, Station};
use std::alloc::Global;
use std::process::Abort;

type Drives = Station<MemoryDrive>;

const CLEANUP: u32 = 0x0000_010b;

const INVALID_HANDLE: u32 = 0xc000_0008;

const CANCELLED: u32 = 0xc000_0120;

/// The key of a request of the first channel.
fn key(index: u64) -> Key {
    Key { channel: 1, index }
}

/// The close of a file that isn't open.
fn close(index: u64, completion: u32) -> Job {
    Job {
        key: key(index),
        file: 9,
        completion,
        op: Op::Close,
    }
}

/// A request of the root, which is opened under the file id 1.
fn of_root(completion: u32, op: Op) -> Job {
    Job {
        key: key(u64::from(completion)),
        file: 1,
        completion,
        op,
    }
}

/// A station that the host is told of.
fn announced<R: Abort>(rt: &R, alloc: Global) -> Drives {
    let drive = MemoryDrive::new(alloc, Units::of(Vec::new(alloc)), Naming::Exact).expect(
        rt, "a drive",
    );
    let Ok(mut station) = Station::new(alloc, drive) else {
        panic!(rt; "a station");
    };
    assert!(rt; station.announce().is_ok());
    station
}

/// Why a job doesn't come, if it doesn't.
fn put<R: Abort>(rt: &R, station: &mut Drives, job: Job) -> Option<PutWhy> {
    assert!(rt; station.may_put(job.key));
    match station.put(job) {
        Ok(()) => None,
        Err(no) => Some(no.why),
    }
}

/// The job that came first is taken and given back at moment 5.
fn run_next<R: Abort>(rt: &R, station: &mut Drives, alloc: Global) -> Applied {
    let Given::Job(job) = station.take() else {
        panic!(rt; "a job waits");
    };
    station.apply(prepare(alloc, job), 5)
}

/// The key, the completion id and the status of what is collected next.
fn collected(station: &mut Drives) -> Option<(u64, u32, u32)> {
    let Completion {
        key,
        completion,
        reply,
        ..
    } = station.collect()?;
    let Reply { status, .. } = reply;
    Some((key.index, completion, status.0))
}

#[test]
fn a_request_goes_through(rt: HostRuntime) {
    let mut station = announced(&rt, rt.alloc());
    assert_eq!(rt; station.announce(), Err(AnnounceNo::Live));
    assert_eq!(rt; put(&rt, &mut station, close(0, 7)), None);
    assert!(rt; station.waits() && !station.has_ready());
    assert_eq!(rt; run_next(&rt, &mut station, rt.alloc()), Applied::Ran);
    assert!(rt; !station.waits() && station.has_ready());
    assert_eq!(rt; collected(&mut station), Some((0, 7, INVALID_HANDLE)));
    assert_eq!(rt; collected(&mut station), None);
    assert!(rt; !station.may_put(key(0)) && station.may_put(key(1)));
    let ran = Item::Ran {
        key: key(0),
        moment: 5,
        starved: false,
        parked: false,
    };
    let entries = [Item::Came(key(0)), ran, Item::Sent(key(0))];
    assert_eq!(rt; station.journal().items(), entries.as_slice());
}

/// 128 are held and no more; a completion id is one job's as long as it is held.
#[test]
fn a_station_is_full(rt: HostRuntime) {
    let mut station = announced(&rt, rt.alloc());
    for index in 0..128 {
        assert_eq!(rt; put(&rt, &mut station, close(index, index as u32)), None);
    }
    assert_eq!(rt;
        put(&rt, &mut station, close(128, 128)),
        Some(PutWhy::Full { held: 128 })
    );
    assert_eq!(rt; run_next(&rt, &mut station, rt.alloc()), Applied::Ran);
    assert_eq!(rt;
        put(&rt, &mut station, close(128, 128)),
        Some(PutWhy::Full { held: 128 })
    );
    assert_eq!(rt; collected(&mut station), Some((0, 0, INVALID_HANDLE)));
    assert_eq!(rt;
        put(&rt, &mut station, close(128, 5)),
        Some(PutWhy::Duplicate(key(5)))
    );
    assert_eq!(rt; put(&rt, &mut station, close(128, 0)), None);
}

/// What waits inside the device is completed behind the request that ends it.
#[test]
fn a_request_waits(rt: HostRuntime) {
    let mut station = announced(&rt, rt.alloc());
    let open = Op::Create {
        access: 0x8000_0000,
        allocation: 0,
        attributes: 0,
        share: 7,
        disposition: 1,
        options: 1,
        path: Units::of(Vec::new(rt.alloc())),
    };
    let notify = Op::Notify {
        tree: false,
        filter: 1,
    };
    assert_eq!(rt; put(&rt, &mut station, of_root(0, open)), None);
    assert_eq!(rt; put(&rt, &mut station, of_root(1, notify)), None);
    assert_eq!(rt; put(&rt, &mut station, of_root(2, Op::Close)), None);
    assert_eq!(rt; run_next(&rt, &mut station, rt.alloc()), Applied::Ran);
    assert_eq!(rt; run_next(&rt, &mut station, rt.alloc()), Applied::Parked);
    assert_eq!(rt; run_next(&rt, &mut station, rt.alloc()), Applied::Ran);
    assert_eq!(rt; collected(&mut station), Some((0, 0, 0)));
    assert_eq!(rt; collected(&mut station), Some((2, 2, 0)));
    assert_eq!(rt; collected(&mut station), Some((1, 1, CLEANUP)));
}

/// A removal cancels what no hand took, and then what comes back from a hand; after the channel's end nothing is held.
#[test]
fn a_device_goes(rt: HostRuntime) {
    let mut station = announced(&rt, rt.alloc());
    assert_eq!(rt; put(&rt, &mut station, close(0, 7)), None);
    assert_eq!(rt; put(&rt, &mut station, close(1, 8)), None);
    let Given::Job(first) = station.take() else {
        panic!(rt; "a job waits");
    };
    assert!(rt; station.remove() && !station.remove());
    assert_eq!(rt; put(&rt, &mut station, close(2, 9)), Some(PutWhy::Gone));
    assert_eq!(rt; collected(&mut station), Some((1, 8, CANCELLED)));
    assert_eq!(rt;
        station.apply(prepare(rt.alloc(), first), 5),
        Applied::Cancelled
    );
    assert_eq!(rt;
        station.apply(prepare(rt.alloc(), close(0, 7)), 5),
        Applied::Stale
    );
    station.drop_channel();
    assert_eq!(rt; collected(&mut station), None);
    assert!(rt; !station.may_put(key(2)));
    assert!(rt; matches!(station.take(), Given::Nothing));
    station.end();
    assert!(rt; matches!(station.take(), Given::Over));
    let (_, journal) = station.finish();
    assert_eq!(rt; journal.items().get(2), Some(&Item::Cut(Cause::Removed)));
}
