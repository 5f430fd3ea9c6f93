//! What no clause says: with ample memory each call goes through, and slots are used again. The rows are calls of a few
//! handles on one file.
use rd_irp::Range;
use rd_locks::{Held, LockNo, Locks};
use std::process::Abort;

/// The file that the rows are about.
const NODE: u32 = 7;

/// So many bytes from an offset on.
fn bytes(offset: u64, length: u64) -> Range {
    Range { offset, length }
}

/// What a row asks for.
#[derive(Drop)]
enum Call {
    Share,
    Exclude,
    Unlock,
    Read,
    Write,
    Release,
}

/// A call with a handle and a range, whether it goes through, and after it how many of three probes are free to be locked
/// by a fourth handle: the bytes 0, 9 and 2^64 - 1.
#[derive(Drop)]
struct Row {
    call: Call,
    file: u32,
    offset: u64,
    length: u64,
    granted: bool,
    free: u32,
}

fn asks(call: Call, file: u32, offset: u64, length: u64, granted: bool, free: u32) -> Row {
    Row {
        call,
        file,
        offset,
        length,
        granted,
        free,
    }
}

fn rows() -> [Row; 22] {
    [
        asks(Call::Exclude, 1, 0, 10, true, 1),
        asks(Call::Share, 2, 9, 1, false, 1),
        asks(Call::Share, 1, 9, 1, true, 1),
        asks(Call::Exclude, 1, 9, 1, false, 1),
        asks(Call::Read, 2, 9, 1, false, 1),
        asks(Call::Read, 1, 9, 1, true, 1),
        asks(Call::Write, 1, 9, 1, false, 1),
        asks(Call::Write, 1, 0, 9, true, 1),
        asks(Call::Exclude, 2, 5, 0, true, 1),
        asks(Call::Read, 2, 5, 0, true, 1),
        asks(Call::Unlock, 2, 0, 10, false, 1),
        asks(Call::Unlock, 1, 0, 9, false, 1),
        asks(Call::Unlock, 1, 0, 10, true, 2),
        asks(Call::Share, 2, 9, 1, true, 2),
        asks(Call::Exclude, 3, u64::MAX, 1, true, 1),
        asks(Call::Share, 1, u64::MAX - 1, 2, false, 1),
        asks(Call::Read, 1, u64::MAX, u64::MAX, false, 1),
        asks(Call::Share, 1, 0, u64::MAX, true, 0),
        asks(Call::Release, 1, 0, 0, true, 1),
        asks(Call::Release, 3, 0, 0, true, 2),
        asks(Call::Release, 9, 0, 0, true, 2),
        asks(Call::Unlock, 2, 9, 1, true, 3),
    ]
}

/// Whether the call goes through.
fn granted(locks: &mut Locks, row: &Row) -> bool {
    let range = bytes(row.offset, row.length);
    match row.call {
        Call::Share => locks.lock(NODE, row.file, false, &[range]).is_ok(),
        Call::Exclude => locks.lock(NODE, row.file, true, &[range]).is_ok(),
        Call::Unlock => locks.unlock(NODE, row.file, &[range]).is_ok(),
        Call::Read => locks.may_read(NODE, row.file, range),
        Call::Write => locks.may_write(NODE, row.file, range),
        Call::Release => {
            locks.release(row.file);
            true
        }
    }
}

/// How many of the three probes a fourth handle may write.
fn free(locks: &Locks) -> u32 {
    let mut count = 0u32;
    for offset in [0, 9, u64::MAX] {
        if locks.may_write(NODE, 4, bytes(offset, 1)) {
            count = count.saturating_add(1);
        }
    }
    count
}

#[test]
fn answers_row_by_row(rt: HostRuntime) {
    let mut locks = Locks::new(rt.alloc());
    for (i, row) in rows().iter().enumerate() {
        let was = granted(&mut locks, row);
        assert_eq!(rt; (i, was, free(&locks)), (i, row.granted, row.free));
    }
}

/// So many ranges of one byte each, from the file's first on.
fn single_bytes(rt: &(impl Abort + AllocGlobal), count: u64) -> Vec<Range> {
    let mut ranges = Vec::new(rt.alloc());
    for offset in 0..count {
        ranges
            .push(bytes(offset, 1))
            .expect(rt, "memory for the ranges");
    }
    ranges
}

/// Locks the ranges for a handle on each of so many files.
fn lock_each(rt: &(impl Abort + AllocGlobal), locks: &mut Locks, nodes: u32, ranges: &[Range]) {
    for node in 0..nodes {
        locks
            .lock(node, 1, true, ranges)
            .expect(rt, "room for the locks");
    }
}

#[test]
fn names_the_lock_in_the_way(rt: HostRuntime) {
    let mut locks = Locks::new(rt.alloc());
    let ranges = [bytes(0, 10), bytes(10, 1)];
    lock_each(&rt, &mut locks, 2, &ranges);
    let held = Held {
        node: 1,
        file: 1,
        exclusive: true,
        range: ranges[1],
    };
    let wanted = [bytes(30, 9), bytes(10, 9)];
    let answer = locks.lock(1, 2, false, &wanted);
    assert_eq!(rt; answer, Err(LockNo::Conflict(held)));
    let last = locks.lock(1, 2, false, &[bytes(9, 1)]);
    assert_eq!(rt;
        last,
        Err(LockNo::Conflict(Held {
            range: ranges[0],
            ..held
        }))
    );
    assert_eq!(rt; locks.unlock(1, 1, &[ranges[0], wanted[0]]), Err(wanted[0]));
    assert_eq!(rt;
        locks.lock(1, 1, true, &[wanted[0], wanted[0]]),
        Err(LockNo::Conflict(Held {
            range: wanted[0],
            ..held
        }))
    );
}

#[test]
fn holds_65536(rt: HostRuntime) {
    let ranges = single_bytes(&rt, 1024);
    let mut locks = Locks::new(rt.alloc());
    lock_each(&rt, &mut locks, 64, ranges.as_slice());
    let one = [bytes(5000, 1)];
    let more = locks.lock(9, 1, true, &one);
    let taken = locks.lock(9, 1, true, ranges.as_slice());
    let places = locks.reserve(1);
    locks.release(1);
    let again = locks.reserve(65_536);
    let over = locks.lock(9, 1, true, &one);
    assert_eq!(rt;
        (more, taken.is_err(), places, again, over),
        (
            Err(LockNo::Full),
            true,
            Err(LockNo::Full),
            Ok(()),
            Err(LockNo::Full)
        )
    );
    assert_ne!(rt; taken, Err(LockNo::Full));
}

#[test]
fn spends_and_gives_back_places(rt: HostRuntime) {
    let ranges = [bytes(0, 4), bytes(4, 4)];
    let mut locks = Locks::new(rt.alloc());
    locks.reserve(65_536).expect(&rt, "room for the places");
    locks
        .lock_reserved(NODE, 1, true, &ranges)
        .expect(&rt, "no lock in the way");
    locks.give_back(65_534);
    let taken = locks.may_read(NODE, 2, ranges[1]);
    let free = locks.lock(NODE, 1, true, &[bytes(9, 1)]);
    let full = locks.reserve(65_534);
    assert_eq!(rt; (taken, free, full), (false, Ok(()), Err(LockNo::Full)));
}

/// Locks and unlocks one range so many times beside a lock that stays, and says whether each call went through.
fn again_and_again(locks: &mut Locks, times: u32) -> bool {
    let range = [bytes(3, 5)];
    for _ in 0..times {
        if locks.lock(NODE, 2, true, &range).is_err() || locks.unlock(NODE, 2, &range).is_err() {
            return false;
        }
    }
    true
}

#[test]
fn uses_slots_again(rt: HostRuntime) {
    let mut locks = Locks::new(rt.alloc());
    let stays = bytes(0, 2);
    lock_each(&rt, &mut locks, 9, &[stays]);
    let went = again_and_again(&mut locks, 100);
    assert_eq!(rt;
        (
            went,
            locks.may_read(NODE, 3, stays),
            locks.may_read(9, 3, stays)
        ),
        (true, false, true)
    );
}
