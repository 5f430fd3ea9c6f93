//! One read of a source, and one message out of what was read.

ghost use Rattle.std.specs.Prelude.{◌≡◌, ◌≢◌, ◌<◌, ◌≤◌, ◌+◌, ◌^◌, ◌++◌, ℕ, List, None, Some, Err, IfOk, IfNone, IfSome, OnErr, length, take};
ghost use Rattle.std.specs.Option.{option_to_list};
ghost use Rattle.std.specs.Io.KnownBytes.{Consumes, IsAtEnd, Keeps};
ghost use Rattle.rd_base.specs.Faults.{CountsFault};
ghost use Rattle.rd_chunk.specs.Carrier.{IsMessage};
ghost use Rattle.rd_chunk.specs.Standing.{HasJoined};
ghost use Rattle.rd_carry.specs.Incoming.{HasFirstFault, without_fault};
ghost use Rattle.rd_carry.specs.declared.feeding.CarryNo.TheVariants as no;

use rd_base::{Bytes, Failed, Source};
use rd_chunk::{ChunkBad, FeedNo, Joiner};
use thiserror::Error;

/// As many bytes are read from one channel at most.
pub const MAX_INCOMING: u64 = 1 << 40;

/// Why there is no next message, or no next read.
#[derive(Clone, Copy, Debug, PartialEq, Eq, Error)]
pub enum CarryNo {
    #[error("a read failed")]
    Failed,
    #[error("a frame at {} has the fault {:?}", .0.at, .0.why)]
    Bad(ChunkBad),
    /// So many bytes were read as are read at most, 2^40.
    #[error("the channel is too long")]
    Long,
    #[error("out of memory")]
    Memory,
}

/// Takes what the piece has of one message, and returns how much that is, and the message if it is whole then.
pub(crate) fn feed_one(joiner: &mut Joiner, piece: &[u8]) -> Result<(usize, Option<Bytes>), CarryNo>
    ensures count { IfOk result (λ fed. fed.0 ≤ length piece.now) }
    ensures all { IfOk result (λ fed. IfNone fed.1 (fed.0 ≡ length piece.now)) }
    ensures joined { IfOk result (λ fed. (messages : List (List ℕ)) (bytes : List ℕ) → HasJoined (without_fault joiner.old) messages bytes
        → HasJoined joiner.new (messages ++ option_to_list fed.1) (bytes ++ take fed.0 piece.now)) }
    ensures given { IfOk result (λ fed. (messages : List (List ℕ)) (bytes : List ℕ) → HasJoined (without_fault joiner.old) messages bytes
        → IfSome fed.1 (λ message. IsMessage message × (0 < fed.0))) }

    ensures failed { (bad : ChunkBad) → result ≡ Err (no.Bad bad) → joiner.new.fault ≡ Some bad }
    ensures fault { (bad : ChunkBad) → result ≡ Err (no.Bad bad) → joiner.old.fault ≡ None → (messages : List (List ℕ)) (bytes : List ℕ)
        → HasJoined joiner.old messages bytes → length bytes + length piece.now < 2 ^ 64 → HasFirstFault messages (bytes ++ piece.now) bad }
    ensures stays { (bad : ChunkBad) → joiner.old.fault ≡ Some bad → (result ≡ Err (no.Bad bad)) × (joiner.new ≡ joiner.old) }
    ensures err { OnErr result (joiner.new ≡ record joiner.old { fault = joiner.new.fault }) }
    ensures memory { result ≡ Err no.Memory → joiner.new ≡ joiner.old }
    ensures no_read { (result ≢ Err no.Failed) × (result ≢ Err no.Long) }
{
    let count = match joiner.feed(piece) {
        Ok(count) => count,
        Err(FeedNo::Bad(bad)) => return Err(CarryNo::Bad(bad)),
        Err(FeedNo::Memory) => return Err(CarryNo::Memory),
    };
    Ok((count, joiner.take()))
}

/// Reads once, so many bytes at most, into the first places of the buffer, and returns how many came.
pub(crate) fn read_once<S: Source>(
    source: &mut S,
    buffer: &mut [u8],
    most: u64,
) -> Result<usize, Failed>
    requires some { 0 < most }
    requires room { 0 < length buffer.old }
    ensures count { IfOk result (λ count. (count ≤ most) × (count ≤ length buffer.new)) }
    ensures consumed { IfOk result (λ count. Consumes (S.left source.old) (S.left source.new) (take count buffer.new)) }
    ensures ended { IfOk result (λ count. count ≡ 0 → IsAtEnd (S.left source.new)) }
    ensures err { OnErr result (Keeps (S.left source.old) (S.left source.new)) }
    ensures counted { CountsFault result (S.faults source.old) (S.faults source.new) }
{
    let room = usize::try_from(most).map_or(buffer.len(), |most| most.min(buffer.len()));
    source.read(&mut buffer[..room])
}
