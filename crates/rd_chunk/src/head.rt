//! The head of a carrier frame: how many bytes come after its first four, and then the CHANNEL_PDU_HEADER (MS-RDPBCGR 2.2.6.1.1), the
//! message's length and the flags; each a little-endian u32.

ghost use Rattle.std.specs.Prelude.{◌≡◌, ◌≤◌, ◌-◌};
ghost use Rattle.rd_chunk.specs.Faults.{fields_fault};
ghost use Rattle.rd_chunk.specs.Faults as Faults;
ghost use Rattle.rd_chunk.specs.Sizes.{max_message};

use crate::fault::ChunkWhy;

/// The most bytes of a message.
pub const MAX_MESSAGE: usize = 1_052_672;

/// The most data bytes of a frame.
pub const MAX_CHUNK: usize = 16_384;

/// The data bytes of each frame but a message's last, as this project writes them (the standard's default chunk).
pub const CHUNK_LEN: usize = 1_600;

/// The bytes of a head's first field, by which its size is known.
pub const SIZE_LEN: usize = 4;

/// The bytes of a frame's head.
pub const HEAD_LEN: usize = 12;

/// The flag of a message's first frame, CHANNEL_FLAG_FIRST.
pub const FIRST: u32 = 0x1;

/// The flag of a message's last frame, CHANNEL_FLAG_LAST.
pub const LAST: u32 = 0x2;

/// The flag of compressed data, CHANNEL_PACKET_COMPRESSED.
pub const PACKET_COMPRESSED: u32 = 0x20_0000;

/// The fields of a frame's head.
#[derive(Clone, Copy, Debug, PartialEq, Eq)]
pub struct Head {
    /// The bytes after this field: the 8 of the other two, and the data.
    pub size: u32,
    /// The bytes of the whole message.
    pub length: u32,
    pub flags: u32,
}

impl Head {
    /// The data bytes of the frame.
    pub fn data_len(self) -> usize
        ensures { result ≡ self.size - 8 }
    {
        (self.size as usize).saturating_sub(8)
    }
}

/// A fault of a frame, and its place in bytes from the frame's first.
#[derive(Clone, Copy, Debug, PartialEq, Eq)]
pub struct RowFault {
    pub offset: u64,
    pub why: ChunkWhy,
}

/// The fault of a frame's size, which is known before the rest of the head.
pub fn size_fault(size: u32) -> Option<RowFault>
    ensures { result ≡ Faults.size_fault size }
{
    if size == 8 {
        return Some(RowFault {
            offset: 0,
            why: ChunkWhy::Empty,
        });
    }
    if size < 9 || size as usize > MAX_CHUNK + 8 {
        return Some(RowFault {
            offset: 0,
            why: ChunkWhy::Size,
        });
    }
    None
}

/// The first fault of a head whose size is good, after `joined` data bytes of a message of `length` bytes. With no
/// data bytes no message is under way, and `length` says nothing.
#[tactic(auto, unfolding(crate::specs::Faults::fields_fault))]
pub fn fields_fault(head: Head, joined: usize, length: usize) -> Option<RowFault>
    requires { joined ≤ max_message }
    ensures { result ≡ fields_fault length joined head.size head.length head.flags }
{
    let reached = joined + head.data_len();
    let last = head.flags & LAST != 0;
    let (offset, why) = if head.flags & PACKET_COMPRESSED != 0 {
        (8, ChunkWhy::Compressed)
    } else if joined == 0 && head.flags & FIRST == 0 {
        (8, ChunkWhy::NoFirst)
    } else if joined != 0 && head.flags & FIRST != 0 {
        (8, ChunkWhy::SecondFirst)
    } else if head.length as usize > MAX_MESSAGE {
        (4, ChunkWhy::TooLong)
    } else if joined != 0 && head.length as usize != length {
        (4, ChunkWhy::LengthChanged)
    } else if reached > head.length as usize {
        (12, ChunkWhy::Overrun)
    } else if last && reached < head.length as usize {
        (8, ChunkWhy::LastEarly)
    } else if !last && reached == head.length as usize {
        (8, ChunkWhy::NotLast)
    } else {
        return None;
    };
    Some(RowFault { offset, why })
}
