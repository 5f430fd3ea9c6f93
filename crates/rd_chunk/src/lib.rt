//! Messages of a static virtual channel in carrier frames (MS-RDPBCGR 2.2.6.1), and back.
//!
//! It stands on the lists of `rd_base`. The layers above use two contracts of it: `split` gives the one stream of
//! frames that this project writes for a message, and a `Joiner` stands for the bytes that came since the last
//! message was taken, however they were cut into pieces. What holds of every stream, whoever reads it, are the clauses
//! of functions that do nothing, such as `faulty_or_sound`.
//!
//! Cost: `split` reserves its result once and copies each byte of the message once. A byte of frame data is copied
//! once on its way through `feed`, and `take` moves the message out. A message's buffer is reserved as its data come:
//! for its whole length, but for at most 64 times the data bytes that are there. So a frame's head alone reserves
//! nothing, a message of up to 64 times its first data is reserved once, and a longer one is moved each time that
//! its data have grown 64-fold. A joiner never holds more than 1,052,684 bytes of the stream: a message, and twelve
//! bytes of head.
#![tactic(auto)]

mod fault;
mod head;
mod joiner;
mod laws;
mod pieces;
mod progress;
mod splitter;

pub use fault::{ChunkBad, ChunkWhy, FeedNo};
pub use head::{
    CHUNK_LEN, FIRST, HEAD_LEN, Head, LAST, MAX_CHUNK, MAX_MESSAGE, PACKET_COMPRESSED, RowFault,
    fields_fault, size_fault,
};
pub use joiner::Joiner;
pub use laws::{
    carrier_carries, faulty_or_sound, first_and_last_alone, one_reading, stands_without_fault,
    worked_streams,
};
pub use pieces::join_pieces;
pub use splitter::{put_frame, put_frames, split};
