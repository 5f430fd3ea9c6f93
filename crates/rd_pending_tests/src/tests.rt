//! What no clause says: with ample memory each call goes through.
use crate::calls::{DENIED, answer, head, opening, send, submit};
use crate::rows::ROWS;
use rd_pending::{Completed, Pending, SubmitNo, Target};
use std::process::Abort;

/// A table with a channel on which device 1 is there.
fn begun(rt: &(impl Abort + AllocGlobal)) -> Pending {
    let mut pending = Pending::new(rt.alloc()).expect(rt, "memory for a table");
    if pending.may_begin(1) {
        pending.begin(1);
    }
    let life = pending.live(1);
    assert!(rt; life == Ok(1));
    pending
}

/// The completion id under which a further request to device 1 is sent.
fn asked(rt: &(impl Abort + AllocGlobal), pending: &mut Pending) -> u32 {
    let answer = submit(pending, Target::Device(1), opening(rt.alloc()));
    assert!(rt; matches!(answer, Some(Ok(_))));
    let (_, id) = send(pending).expect(rt, "a message");
    id
}

#[test]
fn answers_as_listed(rt: HostRuntime) {
    let mut pending = Pending::new(rt.alloc()).expect(&rt, "memory for a table");
    for (call, wanted) in ROWS {
        let answer = answer(&rt, &mut pending, call);
        assert_eq!(rt; answer.as_str(), wanted);
    }
}

/// 1,024 slots are held, and no more; the one that is freed is the next.
#[test]
fn fills_and_frees(rt: HostRuntime) {
    let mut pending = begun(&rt);
    for wanted in 0..1024 {
        let id = asked(&rt, &mut pending);
        assert_eq!(rt; id, wanted);
    }
    let refused = submit(&mut pending, Target::Device(1), opening(rt.alloc()));
    assert!(rt; refused == Some(Err(SubmitNo::Full { held: 1024 })));
    let freed = pending.complete(head(1, 7, DENIED), &[]);
    assert!(rt; freed == Ok(Completed::Gave(8)));
    let id = asked(&rt, &mut pending);
    assert_eq!(rt; id, 7);
}

/// 20,000 requests, of which four at most are held at a time, go through four slots.
#[test]
fn passes_through_four_slots(rt: HostRuntime) {
    let mut pending = begun(&rt);
    for _ in 0..3 {
        asked(&rt, &mut pending);
    }
    for number in 4..20_004 {
        let id = asked(&rt, &mut pending);
        assert_eq!(rt; id, 3);
        let completed = pending.complete(head(1, 3, DENIED), &[]);
        assert!(rt; completed == Ok(Completed::Gave(number)));
        let taken = pending.take(number);
        assert!(rt; taken.is_ok());
    }
}
