//! The byte rows of the standard and of worked examples.

ghost use Rattle.std.specs.Prelude.{◌<◌};

use rd_base::Bytes;
use rd_chunk::{ChunkBad, ChunkWhy, FeedNo, Joiner, join_pieces, split};
use std::alloc::{AllocError, Global};
use std::process::Abort;
use std::test::Fail;

/// A stream, the message that it carries, and its fault.
type Row = (&'static [u8], Option<&'static [u8]>, Option<ChunkBad>);

const ANNOUNCE: &[u8] = b"rDnI\x01\0\x0c\0\x01\0\0\0";

const ANNOUNCE_FRAME: &[u8] = b"\x14\0\0\0\x0c\0\0\0\x03\0\0\0rDnI\x01\0\x0c\0\x01\0\0\0";

fn bad(at: u64, why: ChunkWhy) -> Option<ChunkBad> {
    Some(ChunkBad { at, why })
}

/// Feeds a stream in pieces of `step` bytes. Returns whether each piece before a fault is taken whole, with no message
/// finished before the last one, and the fault.
fn feed(
    joiner: &mut Joiner,
    stream: &[u8],
    step: usize,
) -> Result<(bool, Option<ChunkBad>), AllocError>
    requires { 0 < step }
{
    let mut whole = true;
    let mut fault = None;
    for piece in stream.chunks(step) {
        whole &= joiner.take().is_none();
        match joiner.feed(piece) {
            Ok(count) => whole &= count == piece.len(),
            Err(FeedNo::Bad(bad)) => fault = Some(bad),
            Err(FeedNo::Memory) => return Err(AllocError),
        }
    }
    Ok((whole, fault))
}

/// The message that waits is this one.
fn gives(rt: &impl Abort, joiner: &mut Joiner, message: Option<&[u8]>) {
    let joined = joiner.take();
    assert_eq!(rt; joined.as_ref().map(Bytes::as_slice), message);
}

/// A new joiner that is fed the row's stream, in pieces of `step` bytes, gives the row's message or fault, and no other.
fn joins(rt: &impl Abort, joiner: &mut Joiner, row: &Row, step: usize) -> Result<(), AllocError>
    requires { 0 < step }
{
    let (stream, message, fault) = *row;
    let fresh = joiner.between();
    let (whole, found) = feed(joiner, stream, step)?;
    let counted = fault.is_some() || joiner.taken() == stream.len() as u64;
    assert!(rt;
        fresh && whole && counted && !joiner.between() && found == fault,
        "{found:?} by {step}"
    );
    gives(rt, joiner, message);
    Ok(())
}

/// A message makes a stream of `length` bytes, whose last frame begins at `last` with `first`, and which gives the
/// message back.
fn splits(
    rt: &impl Abort,
    alloc: Global,
    message: &[u8],
    length: usize,
    last: usize,
    first: u8,
) -> Result<(), Fail> {
    assert!(rt; !message.is_empty() && message.len() < 10_000);
    let stream = split(alloc, message)?;
    let bytes = stream.as_slice();
    assert_eq!(rt;
        (bytes.len(), bytes.get(last).copied()),
        (length, Some(first))
    );
    let joined = join_pieces(alloc, &[stream])?;
    assert!(rt; matches!(joined.as_slice(), [only] if only.as_slice() == message));
    Ok(())
}

#[test]
fn joins_streams_in_any_pieces(rt: HostRuntime) -> Result<(), Fail> {
    let rows: [Row; 6] = [
        (ANNOUNCE_FRAME, Some(ANNOUNCE), None),
        (
            b"\x09\0\0\0\x01\0\0\0\x02\0\0\0a",
            None,
            bad(8, ChunkWhy::NoFirst),
        ),
        (
            b"\x09\0\0\0\x01\0\0\0\x03\0\x20\0a",
            None,
            bad(8, ChunkWhy::Compressed),
        ),
        (b"\x08\0\0\0", None, bad(0, ChunkWhy::Empty)),
        (
            b"\x09\0\0\0\x01\x10\x10\0\x01\0\0\0a",
            None,
            bad(4, ChunkWhy::TooLong),
        ),
        (b"\x09\0\0\0\0\x10\x10\0\x01\0\0\0a", None, None),
    ];
    for row in &rows {
        joins(&rt, &mut Joiner::new(rt.alloc()), row, 1)?;
        joins(&rt, &mut Joiner::new(rt.alloc()), row, 64)?;
    }
    Ok(())
}

#[test]
fn splits_messages(rt: HostRuntime) -> Result<(), Fail> {
    assert_eq!(rt; split(rt.alloc(), ANNOUNCE)?.as_slice(), ANNOUNCE_FRAME);
    for (size, length, last, first) in [
        (1600, 1612, 0, 0x48),
        (1601, 1625, 1612, 9),
        (3200, 3224, 1612, 0x48),
    ] {
        let message = vec![in rt.alloc(); 0x41; size]?;
        splits(&rt, rt.alloc(), message.as_slice(), length, last, first)?;
    }
    Ok(())
}
