//! What an operation says, as a value that tests compare.
use rd_irp::{Op, Range};

/// The MajorFunction, further numbers, and the bytes, the path and the ranges.
pub type Said<'a> = ([u64; 4], &'a [u8], &'a [u16], &'a [Range]);

/// In place of the MajorFunction of a function that isn't known.
pub const UNKNOWN: u64 = 100;

/// In place of that of a body that can't be read.
pub const MALFORMED: u64 = 101;

pub fn said(op: &Op) -> Said<'_> {
    match op {
        Op::Write { bytes, .. }
        | Op::SetFile { bytes, .. }
        | Op::SetVolume { bytes, .. }
        | Op::Control { bytes, .. } => (numbers(op), bytes.as_slice(), &[], &[]),
        Op::Create { path, .. } | Op::QueryDir { path, .. } => {
            (numbers(op), &[], path.as_slice(), &[])
        }
        Op::Lock { ranges, .. } => (numbers(op), &[], &[], ranges.as_slice()),
        _ => (numbers(op), &[], &[], &[]),
    }
}

fn numbers(op: &Op) -> [u64; 4] {
    match op {
        Op::Create { access, share, .. } => [0, u64::from(*access), u64::from(*share), 0],
        Op::Close => [2, 0, 0, 0],
        Op::Read { offset, length } => [3, *offset, u64::from(*length), 0],
        Op::Write { offset, .. } => [4, *offset, 0, 0],
        Op::QueryFile { class } => [5, u64::from(*class), 0, 0],
        Op::SetFile { class, .. } => [6, u64::from(*class), 0, 0],
        Op::QueryVolume { class } => [10, u64::from(*class), 0, 0],
        Op::SetVolume { class, .. } => [11, u64::from(*class), 0, 0],
        Op::QueryDir { class, initial, .. } => [12, 1, u64::from(*class), truth(*initial)],
        Op::Notify { tree, filter } => [12, 2, truth(*tree), u64::from(*filter)],
        Op::Control { output, code, .. } => [14, u64::from(*output), u64::from(*code), 0],
        Op::Lock {
            operation,
            wait,
            ..
        } => [17, u64::from(*operation), truth(*wait), 0],
        Op::Unknown { major, minor } => [UNKNOWN, u64::from(*major), u64::from(*minor), 0],
        Op::Malformed { major, bad, .. } => { [MALFORMED, u64::from(*major), u64::from(bad.at), 0] }
    }
}

fn truth(holds: bool) -> u64 {
    if holds { 1 } else { 0 }
}
