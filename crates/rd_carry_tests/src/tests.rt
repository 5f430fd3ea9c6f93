//! Each public call over halves in memory, with ample memory.

ghost use Rattle.std.specs.Prelude.{◌≡◌, ◌<◌, IfOk, vec_len};
ghost use Rattle.rd_chunk.specs.Carrier.{IsMessage};
ghost use Rattle.rd_carry.specs.Incoming.{new_incoming};
ghost use Rattle.rd_carry.specs.Outgoing.{new_outgoing};

use crate::echo::echo_all;
use rd_base::{Bytes, Calls};
use rd_carry::{CarryNo, FLUSH_LEN, Incoming, Outgoing};
use rd_chunk::{ChunkBad, ChunkWhy, split};
use rd_link::{Linker, MemIn, MemLinker, MemOut};
use std::alloc::{AllocError, Global};
use std::process::Abort;
use std::test::Fail;

const FRAME: &[u8] = b"\x0c\0\0\0\x04\0\0\0\x03\0\0\0rDLU";

fn calls(alloc: Global, numbers: &[u64]) -> Result<Calls, AllocError> {
    Ok(Calls::of(numbers.to_vec(alloc)?))
}

/// A linker of one channel of these bytes, where these reads and writes fail.
fn linker(
    alloc: Global,
    bytes: &[u8],
    reads: &[u64],
    writes: &[u64],
) -> Result<MemLinker, AllocError> {
    let mut channels = Vec::with_capacity(alloc, 1)?;
    channels.push(Bytes::of(bytes.to_vec(alloc)?))?;
    let none = calls(alloc, &[])?;
    let reads = calls(alloc, reads)?;
    let writes = calls(alloc, writes)?;
    MemLinker::with_fails(alloc, channels, none, reads, writes)
}

/// The two halves of a linker's channel, where one read asks for so many bytes.
fn halves(
    rt: &impl Abort,
    alloc: Global,
    linker: &mut MemLinker,
    room: usize,
) -> Result<(Incoming<MemIn>, Outgoing<MemOut>), AllocError>
    requires { 0 < room }
    ensures input { IfOk result (λ halves. halves.0 ≡ new_incoming halves.0.left halves.0.faults halves.0.room) }
    ensures output { IfOk result (λ halves. halves.1 ≡ new_outgoing halves.1.held halves.1.capacity) }
{
    let buffer = vec![in alloc; 0; room]?;
    let (input, output) = linker.connect().expect(rt, "a channel");
    let input = Incoming::new(alloc, input, buffer);
    let output = Outgoing::new(output, Vec::new(alloc));
    Ok((input, output))
}

/// What was written on the channel, how many faults it had, and how many of these at writes.
fn has_written(
    rt: &impl Abort,
    mut linker: MemLinker,
    input: Incoming<MemIn>,
    output: Outgoing<MemOut>,
    written: &[u8],
    faults: (u64, u64),
) {
    let (input, _) = input.into_parts();
    let (output, _) = output.into_parts();
    linker.settle(input, output);
    for settled in linker.settled() {
        assert!(rt; settled.written.as_slice() == written);
        assert_eq!(rt; (settled.faults, settled.write_faults), faults);
    }
}

/// The length of the next message.
fn next_length(input: &mut Incoming<MemIn>) -> Result<usize, CarryNo> {
    match input.message()? {
        Some(message) => Ok(message.as_slice().len()),
        None => Ok(0),
    }
}

/// One read, where no message is whole.
fn read_on(input: &mut Incoming<MemIn>) -> Result<bool, CarryNo> {
    let None = input.message()? else {
        return Err(CarryNo::Memory);
    };
    input.read()
}

/// A message of two frames after one of one, in single bytes.
#[test]
fn echoes_single_bytes(rt: HostRuntime) -> Result<(), Fail> {
    let mut bytes = FRAME.to_vec(rt.alloc())?;
    let long = split(rt.alloc(), &[7; 1700])?;
    bytes.extend_from_slice(long.as_slice())?;
    let mut linker = linker(rt.alloc(), bytes.as_slice(), &[], &[])?;
    let (mut input, mut output) = halves(&rt, rt.alloc(), &mut linker, 1)?;
    assert_eq!(rt; echo_all(&mut input, &mut output), Ok(()));
    assert_eq!(rt; input.heard(), 2);
    has_written(&rt, linker, input, output, bytes.as_slice(), (0, 0));
    Ok(())
}

/// The first read fails, and nothing is lost. A frame without data comes after sixteen bytes, and its fault stays.
#[test]
fn names_the_first_fault(rt: HostRuntime) -> Result<(), Fail> {
    let mut bytes = FRAME.to_vec(rt.alloc())?;
    bytes.extend_from_slice(b"\x08\0\0\0")?;
    let mut linker = linker(rt.alloc(), bytes.as_slice(), &[1], &[])?;
    let (mut input, output) = halves(&rt, rt.alloc(), &mut linker, 64)?;
    assert_eq!(rt; read_on(&mut input), Err(CarryNo::Failed));
    assert_eq!(rt; read_on(&mut input), Ok(true));
    assert_eq!(rt; next_length(&mut input), Ok(4));
    let bad = CarryNo::Bad(ChunkBad {
        at: 16,
        why: ChunkWhy::Empty,
    });
    assert_eq!(rt; next_length(&mut input), Err(bad));
    assert_eq!(rt; next_length(&mut input), Err(bad));
    assert_eq!(rt; input.heard(), 1);
    has_written(&rt, linker, input, output, b"", (1, 0));
    Ok(())
}

/// A message of so many bytes.
fn long_message(alloc: Global, length: usize) -> Result<Vec<u8>, AllocError>
    ensures { IfOk result (λ message. vec_len message ≡ length) }
{
    vec![in alloc; 7; length]
}

/// Whether the half is full once the message is put, and whether a write failed once all is written.
fn put_and_flush(output: &mut Outgoing<MemOut>, message: &[u8]) -> Result<(bool, bool), AllocError>
    requires { IsMessage message.now }
{
    output.put(message)?;
    let full = output.is_full();
    output.flush();
    Ok((full, output.failed()))
}

/// Two messages, a long one, and another, with a write after the second, the third and the fourth.
fn put_four(output: &mut Outgoing<MemOut>, long: &[u8]) -> Result<[(bool, bool); 3], AllocError>
    requires { IsMessage long.now }
{
    output.put(b"rDLU")?;
    let second = put_and_flush(output, b"rDLU")?;
    let third = put_and_flush(output, long)?;
    let fourth = put_and_flush(output, b"rDLU")?;
    output.hang_up();
    Ok([second, third, fourth])
}

/// Two messages are one write. The second write fails, and nothing is written after it.
#[test]
fn hangs_up_after_a_failed_write(rt: HostRuntime) -> Result<(), Fail> {
    let mut twice = FRAME.to_vec(rt.alloc())?;
    twice.extend_from_slice(FRAME)?;
    let long = long_message(rt.alloc(), FLUSH_LEN)?;
    let mut linker = linker(rt.alloc(), b"", &[], &[2])?;
    let (input, mut output) = halves(&rt, rt.alloc(), &mut linker, 1)?;
    let found = put_four(&mut output, long.as_slice());
    has_written(&rt, linker, input, output, twice.as_slice(), (1, 1));
    assert_eq!(rt; found, Ok([(false, false), (true, true), (false, true)]));
    Ok(())
}
