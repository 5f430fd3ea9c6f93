//! What no clause says: with ample memory each entry is judged. The rows are a journal, with entries between that may not stand there.
use rd_base::{Cause, Item, Key};
use rd_lawful::{Judge, is_lawful};

/// An entry, and the number of the rule that it breaks, 0 where it breaks none.
#[derive(Clone, Copy)]
struct Row {
    entry: Item,
    rule: u8,
}

/// The key of a request of a channel.
fn key(channel: u32, index: u64) -> Key {
    Key { channel, index }
}

/// The request comes, is cancelled, is sent.
fn came(channel: u32, index: u64, rule: u8) -> Row {
    Row {
        entry: Item::Came(key(channel, index)),
        rule,
    }
}

fn cancelled(channel: u32, index: u64, rule: u8) -> Row {
    Row {
        entry: Item::Cancelled(key(channel, index)),
        rule,
    }
}

fn sent(channel: u32, index: u64, rule: u8) -> Row {
    Row {
        entry: Item::Sent(key(channel, index)),
        rule,
    }
}

/// The request runs, and maybe is left waiting inside the device.
fn ran(channel: u32, index: u64, parked: bool, rule: u8) -> Row {
    Row {
        entry: Item::Ran {
            key: key(channel, index),
            moment: 0,
            starved: false,
            parked,
        },
        rule,
    }
}

fn cut(cause: Cause, rule: u8) -> Row {
    Row {
        entry: Item::Cut(cause),
        rule,
    }
}

fn rows() -> [Row; 20] {
    [
        came(1, 0, 0),
        came(1, 2, 0),
        came(1, 1, 1),
        ran(1, 0, true, 0),
        ran(1, 0, false, 2),
        ran(1, 1, false, 2),
        sent(1, 0, 3),
        cancelled(1, 2, 5),
        cut(Cause::Removed, 0),
        sent(1, 0, 0),
        sent(1, 0, 3),
        ran(1, 2, false, 4),
        cancelled(1, 2, 0),
        cut(Cause::Dropped, 0),
        sent(1, 2, 6),
        came(2, 0, 0),
        ran(2, 0, false, 0),
        sent(1, 2, 6),
        sent(2, 0, 0),
        came(1, 9, 1),
    ]
}

#[test]
fn entries_are_judged(rt: HostRuntime) {
    let mut judge = Judge::new(rt.alloc());
    for row in rows() {
        let verdict = judge.take(row.entry).expect(&rt, "memory");
        let rule = match verdict {
            Ok(()) => 0,
            Err(rule) => rule.number(),
        };
        assert_eq!(rt; rule, row.rule);
    }
    assert!(rt; judge.may_end());
}

/// 128 requests wait, and then one more.
#[test]
fn few_wait(rt: HostRuntime) {
    let mut judge = Judge::new(rt.alloc());
    for index in 0..128 {
        judge
            .take(Item::Came(key(1, index)))
            .expect(&rt, "memory")
            .expect(&rt, "lawful");
    }
    assert!(rt; judge.may_end());
    let _ = judge.take(Item::Came(key(1, 128))).expect(&rt, "memory");
    assert!(rt; !judge.may_end());
}

#[test]
fn whole_journals_are_judged(rt: HostRuntime) {
    let first = key(1, 0);
    let once = [Item::Came(first), Item::Cut(Cause::Dropped)];
    assert!(rt; is_lawful(rt.alloc(), &once).expect(&rt, "memory"));
    let twice = [Item::Came(first), Item::Came(first)];
    assert!(rt; !is_lawful(rt.alloc(), &twice).expect(&rt, "memory"));
}
