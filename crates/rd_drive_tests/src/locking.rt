//! Lock, and the ends of locks that wait.
use crate::asks::{Ask, DELETE, READ_WRITE};
use crate::rows::Line::{End, Request, Times};
use crate::rows::{NODES, Node, Row, Want, check};
use crate::statuses::{
    ACCESS_DENIED, FILE_LOCK_CONFLICT, INSUFFICIENT_RESOURCES, INVALID_DEVICE_REQUEST,
    INVALID_PARAMETER, LOCK_NOT_GRANTED, RANGE_NOT_LOCKED,
};
use rd_dirinfo::Naming;

/// RDP_LOWIO_OP_SHAREDLOCK
const SHARE: u32 = 2;

/// RDP_LOWIO_OP_EXCLUSIVELOCK
const EXCLUDE: u32 = 3;

/// RDP_LOWIO_OP_UNLOCK
const UNLOCK: u32 = 4;

/// RDP_LOWIO_OP_UNLOCK_MULTIPLE
const UNLOCK_ALL: u32 = 5;

/// The first byte, once, twice, and as often as one request can ask for it.
const FIRST: &[(u64, u64)] = &[(0, 1)];

const TWICE: &[(u64, u64)] = &[(0, 1); 2];

const MOST: &[(u64, u64)] = &[(0, 1); 1024];

/// The second byte, as often as there is room left.
const OTHERS: &[(u64, u64)] = &[(1, 1); 1023];

/// The byte before 2^64, and it and one more.
const LAST: &[(u64, u64)] = &[(u64::MAX, 1)];

const PAST_LAST: &[(u64, u64)] = &[(u64::MAX, 2)];

const ROWS: &[Row] = &[
    Row {
        name: "byte range locks",
        naming: Naming::Exact,
        nodes: &[Node::File("\\a", b"hello")],
        lines: &[
            Request(0, Ask::Open("\\a", READ_WRITE), Want::Opened(1, 1)),
            Request(0, Ask::Open("\\a", READ_WRITE), Want::Opened(2, 1)),
            Request(1, Ask::Lock(EXCLUDE, false, &[(0, 10)]), Want::Locked),
            Request(2, Ask::Read(5, 1), FILE_LOCK_CONFLICT),
            Request(2, Ask::Lock(EXCLUDE, false, &[(5, 0)]), Want::Locked),
            Request(1, Ask::Lock(UNLOCK, false, &[(0, 9)]), RANGE_NOT_LOCKED),
        ],
    },
    Row {
        name: "own shared lock stops write",
        naming: Naming::Exact,
        nodes: &[Node::File("\\a", b"hello")],
        lines: &[
            Request(0, Ask::Open("\\a", READ_WRITE), Want::Opened(1, 1)),
            Request(1, Ask::Lock(SHARE, false, &[(0, 4)]), Want::Locked),
            Request(1, Ask::Write(0, b"a"), FILE_LOCK_CONFLICT),
            Request(1, Ask::Write(4, b"a"), Want::Count(1)),
            Request(1, Ask::Lock(EXCLUDE, false, &[(2, 1)]), LOCK_NOT_GRANTED),
            Request(1, Ask::Lock(UNLOCK, false, &[(0, 4)]), Want::Locked),
            Request(1, Ask::Write(0, b"a"), Want::Count(1)),
        ],
    },
    Row {
        name: "waiting lock",
        naming: Naming::Exact,
        nodes: &[Node::File("\\a", b"a")],
        lines: &[
            Request(0, Ask::Open("\\a", READ_WRITE), Want::Opened(1, 1)),
            Request(0, Ask::Open("\\a", READ_WRITE), Want::Opened(2, 1)),
            Request(1, Ask::Lock(EXCLUDE, false, FIRST), Want::Locked),
            Request(2, Ask::Lock(EXCLUDE, true, FIRST), Want::Waits),
            Request(1, Ask::Lock(UNLOCK, false, FIRST), Want::Locked),
            End(3, Want::Locked),
            Request(2, Ask::Read(0, 1), Want::Bytes(b"a")),
        ],
    },
    Row {
        name: "what can't be asked",
        naming: Naming::Exact,
        nodes: NODES,
        lines: &[
            Request(0, Ask::Open("\\d", DELETE), Want::Opened(1, 1)),
            Request(1, Ask::Lock(EXCLUDE, false, FIRST), INVALID_DEVICE_REQUEST),
            Request(0, Ask::Open("\\a", DELETE), Want::Opened(2, 1)),
            Request(2, Ask::Lock(6, false, FIRST), ACCESS_DENIED),
            Request(0, Ask::Open("\\a", READ_WRITE), Want::Opened(3, 1)),
            Request(3, Ask::Lock(6, false, FIRST), INVALID_PARAMETER),
            Request(3, Ask::Lock(EXCLUDE, false, PAST_LAST), INVALID_PARAMETER),
            Request(3, Ask::Lock(EXCLUDE, false, LAST), Want::Locked),
            Request(3, Ask::Lock(EXCLUDE, true, TWICE), LOCK_NOT_GRANTED),
            Request(3, Ask::Lock(SHARE, false, TWICE), Want::Locked),
        ],
    },
    Row {
        name: "which locks are in the way",
        naming: Naming::Exact,
        nodes: NODES,
        lines: &[
            Request(0, Ask::Open("\\a", READ_WRITE), Want::Opened(1, 1)),
            Request(0, Ask::Open("\\a", READ_WRITE), Want::Opened(2, 1)),
            Request(1, Ask::Lock(EXCLUDE, false, FIRST), Want::Locked),
            Request(1, Ask::Lock(EXCLUDE, false, FIRST), LOCK_NOT_GRANTED),
            Request(2, Ask::Lock(SHARE, false, FIRST), LOCK_NOT_GRANTED),
            Request(2, Ask::Lock(UNLOCK_ALL, false, FIRST), RANGE_NOT_LOCKED),
            Request(1, Ask::Lock(UNLOCK, true, TWICE), RANGE_NOT_LOCKED),
            Request(1, Ask::Lock(SHARE, false, FIRST), Want::Locked),
            Request(1, Ask::Lock(UNLOCK_ALL, false, TWICE), Want::Locked),
            Request(2, Ask::Lock(EXCLUDE, false, FIRST), Want::Locked),
        ],
    },
    Row {
        name: "a lock that waits for its own handle's, and one for another's; both handles are closed",
        naming: Naming::Exact,
        nodes: NODES,
        lines: &[
            Request(0, Ask::Open("\\a", READ_WRITE), Want::Opened(1, 1)),
            Request(0, Ask::Open("\\a", READ_WRITE), Want::Opened(2, 1)),
            Request(0, Ask::Open("\\a", READ_WRITE), Want::Opened(3, 1)),
            Request(1, Ask::Lock(EXCLUDE, false, FIRST), Want::Locked),
            Request(1, Ask::Lock(EXCLUDE, true, FIRST), Want::Waits),
            Request(2, Ask::Lock(SHARE, true, FIRST), Want::Waits),
            Request(3, Ask::Lock(SHARE, true, FIRST), Want::Waits),
            Request(2, Ask::Close, Want::Closed),
            End(5, LOCK_NOT_GRANTED),
            Request(1, Ask::Close, Want::Closed),
            End(4, LOCK_NOT_GRANTED),
            End(6, Want::Locked),
        ],
    },
    Row {
        name: "64 requests that wait",
        naming: Naming::Exact,
        nodes: NODES,
        lines: &[
            Request(0, Ask::Open("\\a", READ_WRITE), Want::Opened(1, 1)),
            Request(1, Ask::Lock(EXCLUDE, false, FIRST), Want::Locked),
            Times(63, 1, Ask::Lock(EXCLUDE, true, FIRST)),
            Request(1, Ask::Lock(EXCLUDE, true, FIRST), Want::Waits),
            Request(1, Ask::Lock(EXCLUDE, true, FIRST), INSUFFICIENT_RESOURCES),
        ],
    },
    Row {
        name: "65,536 ranges that are locked or waited for",
        naming: Naming::Exact,
        nodes: NODES,
        lines: &[
            Request(0, Ask::Open("\\a", READ_WRITE), Want::Opened(1, 1)),
            Request(0, Ask::Open("\\a", READ_WRITE), Want::Opened(2, 1)),
            Request(1, Ask::Lock(EXCLUDE, false, FIRST), Want::Locked),
            Times(63, 2, Ask::Lock(SHARE, true, MOST)),
            Request(2, Ask::Lock(SHARE, false, OTHERS), Want::Locked),
            Request(2, Ask::Lock(SHARE, true, FIRST), INSUFFICIENT_RESOURCES),
        ],
    },
];

#[test]
fn locks_and_waits(rt: HostRuntime) {
    check(&rt, ROWS);
}
