//! The frame with which bytes begin.

ghost use Rattle.std.specs.Prelude.{◌≡◌, ◌≤◌, ◌<◌, length, IfSome, IfNone};
ghost use Rattle.rd_chunk.specs.Sizes.{head_len};
ghost use Rattle.rd_chunk.specs.Frames.{flags_of, length_of, size_of};

use rd_chunk::{HEAD_LEN, Head};

/// The bytes of a frame's size field, which doesn't count them.
pub const SIZE_LEN: usize = 4;

/// The size of the frame with which bytes begin, once its four bytes are there.
pub fn size_of(bytes: &[u8]) -> Option<u32>
    ensures size { IfSome result (λ size. (4 ≤ length bytes.now) × (size ≡ size_of bytes.now)) }
    ensures short { IfNone result (length bytes.now < 4) }
{
    if bytes.len() < SIZE_LEN {
        return None;
    }
    Some(u32::from_le_bytes([bytes[0], bytes[1], bytes[2], bytes[3]]))
}

/// The head of the frame with which bytes begin, once its twelve bytes are there.
pub fn head_of(bytes: &[u8]) -> Option<Head>
    ensures size { IfSome result (λ head. (head_len ≤ length bytes.now) × (head.size ≡ size_of bytes.now)) }
    ensures length { IfSome result (λ head. head.length ≡ length_of bytes.now) }
    ensures flags { IfSome result (λ head. head.flags ≡ flags_of bytes.now) }
    ensures short { IfNone result (length bytes.now < head_len) }
{
    if bytes.len() < HEAD_LEN {
        return None;
    }
    Some(Head {
        size: u32::from_le_bytes([bytes[0], bytes[1], bytes[2], bytes[3]]),
        length: u32::from_le_bytes([bytes[4], bytes[5], bytes[6], bytes[7]]),
        flags: u32::from_le_bytes([bytes[8], bytes[9], bytes[10], bytes[11]]),
    })
}
