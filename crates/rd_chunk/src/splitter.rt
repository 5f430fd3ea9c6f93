//! A message into carrier frames.

ghost use Rattle.std.specs.Prelude.{◌≡◌, ◌<◌, ◌≤◌, ◌+◌, ◌*◌, ◌++◌, length, vec_len, vec_capacity, IfOk, OnOk, OnErr};
ghost use Rattle.rd_chunk.specs.Carrier.{carrier_of, carrier_frame, carrier_data, carrier_flags};
ghost use Rattle.rd_chunk.specs.Frames.{One};
ghost use Rattle.rd_chunk.specs.Sizes.{chunk_len, head_len, max_message};
ghost use Rattle.std.specs.Int.{div_ceil};

use crate::head::{CHUNK_LEN, FIRST, HEAD_LEN, LAST};
use rd_base::{Bytes, Items};
use std::alloc::{AllocError, Global};

/// The frames that carry a message of 1 to 1,052,672 bytes: each has 1,600 of its bytes, the last what is left.
pub fn split(alloc: Global, message: &[u8]) -> Result<Bytes, AllocError>
    requires some { 1 ≤ length message.now }
    requires most { length message.now ≤ max_message }
    ensures stream { IfOk result (λ stream. stream ≡ carrier_of message.now) }
    ensures one { IfOk result (λ stream. One message.now stream) }
{
    let mut stream = Vec::with_capacity(alloc, carrier_len(message.len()))?;
    put_frames(&mut stream, message)?;
    Ok(Items::of(stream))
}

/// Appends the same frames to what a stream holds. Want of memory changes nothing.
pub fn put_frames(stream: &mut Vec<u8>, message: &[u8]) -> Result<(), AllocError>
    requires some { 1 ≤ length message.now }
    requires most { length message.now ≤ max_message }
    ensures frames { OnOk result (stream.new.items ≡ stream.old.items ++ carrier_of message.now) }
    ensures capacity { vec_capacity stream.old ≤ vec_capacity stream.new }
    ensures err { OnErr result ((stream.new.items ≡ stream.old.items) × (vec_capacity stream.new ≡ vec_capacity stream.old)) }
{
    stream.try_reserve(carrier_len(message.len()))?;
    for k in 0..message.len().div_ceil(CHUNK_LEN) {
        put_frame(stream, message, k)?;
    }
    Ok(())
}

/// How many bytes carry a message of so many.
fn carrier_len(bytes: usize) -> usize
    requires { bytes ≤ max_message }
    ensures { result ≡ bytes + head_len * div_ceil bytes chunk_len }
{
    bytes + HEAD_LEN * bytes.div_ceil(CHUNK_LEN)
}

/// Appends frame `k` of a message, counted from 0.
#[tactic(auto, unfolding(crate::specs::Carrier::carrier_frame))]
pub fn put_frame(stream: &mut Vec<u8>, message: &[u8], k: usize) -> Result<(), AllocError>
    requires place { chunk_len * k < length message.now }
    requires most { length message.now ≤ max_message }
    ensures frame { OnOk result (stream.new.items ≡ stream.old.items ++ carrier_frame message.now k) }
    // It fails only where room was missing.
    ensures capacity { vec_capacity stream.old ≤ vec_capacity stream.new }
    ensures full { OnErr result (vec_capacity stream.old < vec_len stream.old + length (carrier_frame message.now k)) }
{
    let bytes = carrier_data(message, k);
    stream.extend_from_slice(&(bytes.len() as u32 + 8).to_le_bytes())?;
    stream.extend_from_slice(&(message.len() as u32).to_le_bytes())?;
    stream.extend_from_slice(&carrier_flags(message.len(), k).to_le_bytes())?;
    stream.extend_from_slice(bytes)
}

/// The data of frame `k`.
fn carrier_data(message: &[u8], k: usize) -> &[u8]
    requires place { chunk_len * k < length message.now }
    requires most { length message.now ≤ max_message }
    ensures value { result.now ≡ carrier_data message.now k }
    ensures most { length result.now ≤ chunk_len }
{
    let from = k * CHUNK_LEN;
    let to = message.len().min(from + CHUNK_LEN);
    &message[from..to]
}

/// The flags of frame `k` of a message of so many bytes.
fn carrier_flags(bytes: usize, k: usize) -> u32
    requires place { chunk_len * k < bytes }
    requires most { bytes ≤ max_message }
    ensures { result ≡ carrier_flags bytes k }
{
    let first = if k == 0 { FIRST } else { 0 };
    let last = if (k + 1) * CHUNK_LEN < bytes { 0 } else { LAST };
    first | last
}
