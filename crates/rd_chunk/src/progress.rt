//! How far a joiner has come in the frame under way.

ghost use Rattle.std.specs.Prelude.{◌≡◌, ◌<◌, ◌≤◌, ◌+◌, ◌-◌, ◌*◌, ◌%◌, ◌↔◌, ◌^◌, length, vec_len, vec_capacity, IsErr, IsTrue, IfOk, IfErr, OnOk, OnErr, ◌≢◌, None, Ok, ◌⊎◌, false, true, take, List, ℕ};
ghost use Rattle.std.specs.Prelude.{◌++◌, ◌∷◌, []};
ghost use Rattle.rd_chunk.specs.Standing.{Takes, BringsFault, ForFeedBad};
ghost use Rattle.rd_chunk.specs.Kept.{InRange, head_of, held_so_far, is_done, next_test};
ghost use Rattle.rd_chunk.specs.Frames.{size_of, length_of, flags_of};
ghost use Rattle.rd_chunk.specs.Faults.{size_fault, head_fault};
ghost use Rattle.rd_chunk.specs.Sizes.{buffer_for, head_len, max_message};

use crate::fault::{ChunkBad, FeedNo};
use crate::head::{HEAD_LEN, Head, RowFault, SIZE_LEN, fields_fault, size_fault};
use std::alloc::AllocError;

/// How many times the data bytes that are there a message's buffer may be reserved.
const GROWTH: usize = 64;

/// The frame under way, and what is known of its message. The message's data stand beside it, in a `Vec`.
#[derive(Clone, Copy, Debug)]
pub struct Progress {
    /// The bytes of the head that are there, from its first on.
    pub head: [u8; 12],
    /// How many they are: all twelve exactly while data are still to come.
    pub have: usize,
    /// The data bytes of the frame that are still to come.
    pub left: usize,
    /// The bytes of the whole message, once its first head is there; before that it says nothing.
    pub length: usize,
    /// How many bytes of the stream were taken, modulo 2^64.
    pub taken: u64,
}

impl Progress {
    /// Before the stream's first byte.
    pub fn start() -> Progress
        ensures in_range { InRange result 0 }
        ensures have { result.have ≡ 0 }
        ensures left { result.left ≡ 0 }
        ensures length { result.length ≡ 0 }
        ensures taken { result.taken ≡ 0 }
    {
        Progress {
            head: [0; 12],
            have: 0,
            left: 0,
            length: 0,
            taken: 0,
        }
    }

    /// Whether the message is finished, with `joined` of its bytes there.
    pub fn is_done(self, joined: usize) -> bool
        ensures { result ≡ is_done self joined }
    {
        self.left == 0 && joined != 0 && joined == self.length
    }

    /// How many bytes of the head are to come until something of it can be tested.
    fn until_test(self) -> usize
        requires { self.have < head_len }
        ensures some { 0 < result }
        ensures test { self.have + result ≡ next_test self.have }
    {
        if self.have < SIZE_LEN {
            SIZE_LEN - self.have
        } else {
            HEAD_LEN - self.have
        }
    }

    /// These bytes more of the head.
    fn with_bytes(self, bytes: &[u8]) -> Progress
        requires { self.have + length bytes.now ≤ head_len }
        ensures head { head_of result ≡ head_of self ++ bytes.now }
        ensures have { result.have ≡ self.have + length bytes.now }
        ensures left { result.left ≡ self.left }
        ensures length { result.length ≡ self.length }
        ensures taken { result.taken ≡ (self.taken + length bytes.now) % 2 ^ 64 }
    {
        let have = self.have + bytes.len();
        let mut next = self;
        next.head[self.have..have].copy_from_slice(bytes);
        next.have = have;
        next.taken = self.taken.wrapping_add(bytes.len() as u64);
        next
    }

    /// The fields of a head that is all there; before that only those whose bytes are.
    fn fields(self) -> Head
        requires { self.have ≤ head_len }
        ensures size { 4 ≤ self.have → result.size ≡ size_of (head_of self) }
        ensures length { self.have ≡ head_len → result.length ≡ length_of (head_of self) }
        ensures flags { self.have ≡ head_len → result.flags ≡ flags_of (head_of self) }
    {
        let h = self.head;
        Head {
            size: u32::from_le_bytes([h[0], h[1], h[2], h[3]]),
            length: u32::from_le_bytes([h[4], h[5], h[6], h[7]]),
            flags: u32::from_le_bytes([h[8], h[9], h[10], h[11]]),
        }
    }

    /// The fault that the newest byte of the head brings, after `joined` bytes of the message.
    fn fault(self, joined: usize) -> Option<RowFault>
        requires have { self.have ≤ head_len }
        requires joined { joined ≤ max_message }
        ensures size { self.have ≡ 4 → result ≡ size_fault (size_of (head_of self)) }
        ensures head { self.have ≡ head_len → result ≡ head_fault self.length joined (head_of self) }
        ensures other { self.have ≢ 4 → self.have ≢ head_len → result ≡ None }
    {
        match self.have {
            SIZE_LEN => size_fault(self.fields().size),
            HEAD_LEN => fields_fault(self.fields(), joined, self.length),
            _ => None,
        }
    }

    /// The fault at its place in the stream; the frame under way began `have` bytes ago.
    fn place(self, row: RowFault) -> ChunkBad
        ensures at { (result.at + self.have) % 2 ^ 64 ≡ (self.taken + row.offset) % 2 ^ 64 }
        ensures fits { result.at < 2 ^ 64 }
        ensures why { result.why ≡ row.why }
    {
        let frame = self.taken.wrapping_sub(self.have as u64);
        ChunkBad {
            at: frame.wrapping_add(row.offset),
            why: row.why,
        }
    }

    /// As it is, or with the data to come if the head is all there.
    fn opened(self) -> Progress
        requires { self.have ≤ head_len }
        ensures head { head_of result ≡ head_of self }
        ensures have { result.have ≡ self.have }
        ensures taken { result.taken ≡ self.taken }
        ensures early { self.have < head_len → result ≡ self }
        ensures left { self.have ≡ head_len → result.left ≡ size_of (head_of self) - 8 }
        ensures length { self.have ≡ head_len → result.length ≡ length_of (head_of self) }
    {
        if self.have < HEAD_LEN {
            return self;
        }
        let head = self.fields();
        let mut next = self;
        next.left = head.data_len();
        next.length = head.length as usize;
        next
    }

    /// With `count` bytes of data taken; a frame that has all its data makes way for the next one.
    fn with_data(self, count: usize) -> Progress
        requires { count ≤ self.left }
        ensures left { result.left ≡ self.left - count }
        ensures head { result.left ≢ 0 → head_of result ≡ head_of self }
        ensures next { result.left ≡ 0 → head_of result ≡ [] }
        ensures in_frame { result.left ≢ 0 → result.have ≡ self.have }
        ensures after { result.left ≡ 0 → result.have ≡ 0 }
        ensures length { result.length ≡ self.length }
        ensures taken { result.taken ≡ (self.taken + count) % 2 ^ 64 }
    {
        let mut next = self;
        next.left = self.left - count;
        next.have = if next.left == 0 { 0 } else { self.have };
        next.taken = self.taken.wrapping_add(count as u64);
        next
    }
}

/// Takes bytes into the head of the frame under way, none past the next test of it, after `joined` bytes of its message.
fn take_head(progress: Progress, joined: usize, bytes: &[u8]) -> Result<Progress, ChunkBad>
    requires in_range { InRange progress joined }
    requires in_head { progress.left ≡ 0 }
    requires fits { progress.have + length bytes.now ≤ next_test progress.have }
    requires some { 0 < length bytes.now }
    ensures in_range { IfOk result (λ next. InRange next joined) }
    ensures counts { IfOk result (λ next. next.taken ≡ (progress.taken + length bytes.now) % 2 ^ 64) }
    ensures takes { IfOk result (λ next. (message : List ℕ) → length message ≡ joined →
        is_done progress joined ≡ false → Takes (held_so_far progress message) (held_so_far next message) bytes.now) }
    ensures fault { IfErr result (λ bad. (message : List ℕ) → length message ≡ joined →
        is_done progress joined ≡ false → BringsFault (held_so_far progress message) bytes.now bad) }
{
    let next = progress.with_bytes(bytes);
    match next.fault(joined) {
        Some(row) => Err(next.place(row)),
        None => Ok(next.opened()),
    }
}

/// Takes as much of the frame's data as `piece` has, and returns how many bytes it took.
fn take_data(
    progress: Progress,
    message: &mut Vec<u8>,
    piece: &[u8],
) -> Result<(Progress, usize), AllocError>
    requires in_range { InRange progress (vec_len message.old) }
    requires in_data { 0 < progress.left }
    requires piece { 0 < length piece.now }
    ensures count { IfOk result (λ y. (0 < y.1) × (y.1 ≤ length piece.now)) }
    ensures in_range { IfOk result (λ y. InRange y.0 (vec_len message.new)) }
    ensures counts { IfOk result (λ y. y.0.taken ≡ (progress.taken + y.1) % 2 ^ 64) }
    ensures takes { IfOk result (λ y.
        Takes (held_so_far progress message.old.items) (held_so_far y.0 message.new.items) (take y.1 piece.now)) }
    ensures message { IfOk result (λ y.
        message.new.items ≡ message.old.items ++ take y.1 piece.now) }
    ensures err { OnErr result (message.new.items ≡ message.old.items) }
{
    let count = progress.left.min(piece.len());
    append(message, &piece[..count], progress.length)?;
    Ok((progress.with_data(count), count))
}

/// Takes some of `piece` into the frame under way: its head as far as the next test of it, or as much of its data as is there.
/// Returns how many bytes it took.
fn step(progress: &mut Progress, message: &mut Vec<u8>, piece: &[u8]) -> Result<usize, FeedNo>
    requires piece { 0 < length piece.now }
    requires in_range { InRange progress.old (vec_len message.old) }
    requires lacking { is_done progress.old (vec_len message.old) ≡ false }
    ensures count { IfOk result (λ n. (0 < n) × (n ≤ length piece.now)) }
    ensures in_range { OnOk result (InRange progress.new (vec_len message.new)) }
    ensures counts { IfOk result (λ n.
        progress.new.taken ≡ (progress.old.taken + n) % 2 ^ 64) }
    ensures takes { IfOk result (λ n.
        Takes (held_so_far progress.old message.old.items) (held_so_far progress.new message.new.items) (take n piece.now)) }
    ensures fault { IfErr result (ForFeedBad (λ bad. (count : ℕ) × (count ≤ length piece.now) ×
        BringsFault (held_so_far progress.old message.old.items) (take count piece.now) bad)) }
    ensures message { (more : List ℕ) × (message.new.items ≡ message.old.items ++ more) }
{
    if progress.left > 0 {
        let (next, count) = take_data(*progress, message, piece)?;
        *progress = next;
        return Ok(count);
    }
    let count = progress.until_test().min(piece.len());
    match take_head(*progress, message.len(), &piece[..count]) {
        Ok(next) => {
            *progress = next;
            Ok(count)
        }
        Err(bad) => Err(FeedNo::Bad(bad)),
    }
}

/// Appends data to a message that will have `whole` bytes in all.
fn append(message: &mut Vec<u8>, bytes: &[u8], whole: usize) -> Result<(), AllocError>
    requires { vec_len message.old + length bytes.now ≤ max_message }
    ensures ok { OnOk result (message.new.items ≡ message.old.items ++ bytes.now) }
    ensures err { OnErr result (message.new.items ≡ message.old.items) }
{
    make_room(message, bytes.len(), whole)?;
    message.extend_from_slice(bytes)
}

/// Reserves room for `more` bytes of a message that will have `whole` bytes in all: for all of it, but for no more than
/// 64 times the bytes that have come.
fn make_room(message: &mut Vec<u8>, more: usize, whole: usize) -> Result<(), AllocError>
    requires { vec_len message.old + more ≤ max_message }
    ensures items { message.new.items ≡ message.old.items }
    ensures len { vec_len message.new ≡ vec_len message.old }
    ensures room { OnOk result (vec_len message.old + more ≤ vec_capacity message.new) }
    ensures grown { OnOk result (vec_capacity message.new
        ≡ buffer_for (vec_capacity message.old) (vec_len message.old + more) whole) }
    ensures err { IsErr result → vec_capacity message.new ≡ vec_capacity message.old }
{
    let there = message.len() + more;
    if message.capacity() >= there {
        return Ok(());
    }
    let room = (there * GROWTH).min(whole).max(there);
    message.reserve_exact(room - message.len())
}

/// Takes bytes of `piece` until the message under way is complete, and returns how many.
pub fn take_in(
    progress: &mut Progress,
    message: &mut Vec<u8>,
    piece: &[u8],
) -> Result<usize, FeedNo>
    requires { InRange progress.old (vec_len message.old) }
    ensures count { IfOk result (λ n. n ≤ length piece.now) }
    ensures in_range { OnOk result (InRange progress.new (vec_len message.new)) }
    ensures counts { IfOk result (λ n.
        progress.new.taken ≡ (progress.old.taken + n) % 2 ^ 64) }
    ensures takes { IfOk result (λ n.
        Takes (held_so_far progress.old message.old.items) (held_so_far progress.new message.new.items) (take n piece.now)) }
    // Bytes are left only where the message is complete.
    ensures all { IfOk result (λ n. n < length piece.now →
        is_done progress.new (vec_len message.new) ≡ true) }
    ensures idle { (piece.now ≡ []) ⊎ (is_done progress.old (vec_len message.old) ≡ true) →
        result ≡ Ok 0 }
    ensures none { IfOk result (λ n. (n ≡ 0) ↔
        ((piece.now ≡ []) ⊎ (is_done progress.old (vec_len message.old) ≡ true))) }
    ensures fault { IfErr result (ForFeedBad (λ bad. (count : ℕ) × (count ≤ length piece.now) ×
        BringsFault (held_so_far progress.old message.old.items) (take count piece.now) bad)) }
    ensures message { (more : List ℕ) × (message.new.items ≡ message.old.items ++ more) }
{
    let mut at = 0;
    while at < piece.len() && !progress.is_done(message.len()) {
        at += step(progress, message, &piece[at..])?;
    }
    Ok(at)
}
