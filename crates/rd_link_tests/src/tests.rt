//! Each public call once with ample memory, and each implementation through its trait's bound.

use crate::echo::echo_once;
use rd_base::{Bytes, Calls, Failed, Key, Sink, Source};
use rd_link::{Clock, FixedClock, Gate, Hang, Linker, MemLinker, NoGate};
use std::alloc::{AllocError, Global};
use std::process::Abort;
use std::test::Fail;

fn bytes(alloc: Global, elements: &[u8]) -> Result<Bytes, AllocError> {
    Ok(Bytes::of(elements.to_vec(alloc)?))
}

fn calls(alloc: Global, numbers: &[u64]) -> Result<Calls, AllocError> {
    Ok(Calls::of(numbers.to_vec(alloc)?))
}

/// Channels of five bytes, of two and of one.
fn channels(alloc: Global) -> Result<Vec<Bytes>, AllocError> {
    let mut channels = Vec::with_capacity(alloc, 3)?;
    channels.push(bytes(alloc, b"hello")?)?;
    channels.push(bytes(alloc, b"hi")?)?;
    channels.push(bytes(alloc, b"!")?)?;
    Ok(channels)
}

/// Of a settled channel: its bytes, how many were read, what was written, its faults, and how many of these were at writes.
type Row = (&'static [u8], u64, &'static [u8], u64, u64);

/// The settled channels are those of the rows.
fn has_settled(rt: &impl Abort, linker: &MemLinker, rows: &[Row]) {
    assert_eq!(rt; linker.settled().len(), rows.len());
    for (settled, row) in linker.settled().iter().zip(rows) {
        let (scripted, read, written, faults, write_faults) = *row;
        assert!(rt; settled.scripted.as_slice() == scripted && settled.read == read);
        assert!(rt; settled.written.as_slice() == written);
        assert_eq!(rt;
            (settled.faults, settled.write_faults),
            (faults, write_faults)
        );
    }
}

/// A row is what an echo with room for four bytes returns.
fn echoes<L: Linker>(rt: &impl Abort, linker: &mut L, rows: &[Result<(), Failed>]) {
    for row in rows {
        let mut room = [0; 4];
        assert_eq!(rt; echo_once(linker, &mut room), *row);
    }
}

/// What a worker does of which nothing is promised but the moment that a fixed clock tells.
fn passes<C: Clock + Sync, G: Gate + Sync>(clock: &C, gate: &G, key: Key) -> u64 {
    gate.pass(key);
    clock.now()
}

/// A call of `connect` that fails takes no channel.
#[test]
fn gives_one_channel_after_the_other(rt: HostRuntime) -> Result<(), Fail> {
    let fails = calls(rt.alloc(), &[2])?;
    let mut linker = MemLinker::new(rt.alloc(), channels(rt.alloc())?, fails)?;
    let rows = [Ok(()), Err(Failed), Ok(()), Ok(()), Err(Failed)];
    echoes(&rt, &mut linker, &rows);
    has_settled(
        &rt,
        &linker,
        &[
            (b"hello", 4, b"hell", 0, 0),
            (b"hi", 2, b"hi", 0, 0),
            (b"!", 1, b"!", 0, 0),
        ],
    );
    Ok(())
}

/// Reads and writes are counted over all channels: the second read is on the second channel, and the second write on the third.
#[test]
fn halves_fail_as_told(rt: HostRuntime) -> Result<(), Fail> {
    let mut linker = MemLinker::with_fails(
        rt.alloc(),
        channels(rt.alloc())?,
        calls(rt.alloc(), &[])?,
        calls(rt.alloc(), &[2])?,
        calls(rt.alloc(), &[2])?,
    )?;
    echoes(&rt, &mut linker, &[Ok(()), Err(Failed), Err(Failed)]);
    has_settled(
        &rt,
        &linker,
        &[
            (b"hello", 4, b"hell", 0, 0),
            (b"hi", 0, b"", 1, 0),
            (b"!", 1, b"", 1, 1),
        ],
    );
    Ok(())
}

/// Two channels are out at once, and are settled in the order in which they were given.
#[test]
fn gives_two_channels_at_once(rt: HostRuntime) -> Result<(), Fail> {
    let none = calls(rt.alloc(), &[])?;
    let mut linker = MemLinker::new(rt.alloc(), channels(rt.alloc())?, none)?;
    let (input, mut output) = linker.connect().expect(&rt, "the first channel");
    let (mut other_input, other_output) = linker.connect().expect(&rt, "the second channel");
    assert_eq!(rt; output.write(b"ab"), Ok(2));
    output.hang_up();
    assert_eq!(rt; output.bytes(), b"ab".as_slice());
    assert_eq!(rt; other_input.read(&mut [0; 1]), Ok(1));
    linker.settle(input, output);
    linker.settle(other_input, other_output);
    has_settled(
        &rt,
        &linker,
        &[(b"hello", 0, b"ab", 0, 0), (b"hi", 1, b"", 0, 0)],
    );
    Ok(())
}

#[test]
fn a_fixed_clock_stands_still(rt: HostRuntime) {
    let key = Key {
        channel: 1,
        index: 0,
    };
    assert_eq!(rt; passes(&FixedClock(7), &NoGate {}, key), 7);
}
