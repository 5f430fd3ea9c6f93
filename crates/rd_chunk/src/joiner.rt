//! Messages out of a stream of carrier frames.

ghost use Rattle.std.specs.Prelude.{◌≡◌, ◌<◌, ◌≤◌, ◌+◌, ◌%◌, ◌^◌, ◌↔◌, ◌⊎◌, ℕ, List, [], length, take, false, None, Some, Ok, Err, IsTrue, IsSome, IfNone, OnSome, IfOk, IfErr, OnErr};
ghost use Rattle.rd_chunk.specs.Frames.{One};
ghost use Rattle.rd_chunk.specs.Sizes.{head_len, max_message};
ghost use Rattle.rd_chunk.specs.Standing.{StandsFor, Takes, BringsFault, ForFeedBad, waiting};

use crate::fault::{ChunkBad, FeedNo};
use crate::progress::{Progress, take_in};
use rd_base::{Bytes, Items};
use std::alloc::Global;
use std::marker::Model;
use std::mem;

/// Joins the frames of a stream to messages. The bytes may come in any pieces.
#[derive(Debug, Drop)]
pub struct Joiner {
    message: Vec<u8>,
    progress: Progress,
    bad: Option<ChunkBad>,
}

impl Model for Joiner {
    ghost use Rattle.rd_chunk.specs.Standing.{Held};
    ghost use Rattle.rd_chunk.specs.Kept.{held_of, InRange};
    ghost use Rattle.std.specs.Prelude.{vec_len};

    ghost Value = { Held };

    ghost view = { λ j. held_of j.progress j.message.items j.bad };

    ghost invariant = { λ j. InRange j.progress (vec_len j.message) };
}

impl Joiner {
    /// Before the first byte of a stream. The message's buffer comes from `alloc`.
    pub fn new(alloc: Global) -> Joiner
        ensures stands { StandsFor result 0 [] }
        ensures none_waits { waiting result ≡ None }
    {
        Joiner {
            message: Vec::new(alloc),
            progress: Progress::start(),
            bad: None,
        }
    }

    /// Takes what the piece has of one message, no byte after its last, and returns how many. While a finished message waits
    /// it takes none. A fault stays: each later call returns it again. Want of memory changes nothing.
    pub fn feed(&mut self, piece: &[u8]) -> Result<usize, FeedNo>
        // What is taken is a prefix of the piece, and the joiner then stands for that too.
        ensures count { IfOk result (λ n. n ≤ length piece.now) }
        ensures takes { IfOk result (λ n. Takes self.old self.new (take n piece.now)) }
        ensures counts { IfOk result (λ n. self.new.taken ≡ (self.old.taken + n) % 2 ^ 64) }

        // Bytes are left only after the last of a message, and none are taken only where there are none or one waits.
        ensures all { IfOk result (λ n. n < length piece.now → IsSome (waiting self.new)) }
        ensures idle { self.old.fault ≡ None → (piece.now ≡ []) ⊎ IsSome (waiting self.old) →
            result ≡ Ok 0 }
        ensures none { IfOk result (λ n. (n ≡ 0) ↔
            ((piece.now ≡ []) ⊎ IsSome (waiting self.old))) }

        // A fault is the first one of the stream, which the piece brings, and it stays.
        ensures fault { IfErr result (ForFeedBad (λ bad.
            (count : ℕ) × (count ≤ length piece.now) × BringsFault self.old (take count piece.now) bad)) }
        ensures failed { (bad : ChunkBad) →
            (self.new.fault ≡ Some bad) ↔ (result ≡ Err (FeedNo.Bad bad)) }
        ensures stays { (bad : ChunkBad) → self.old.fault ≡ Some bad →
            (result ≡ Err (FeedNo.Bad bad)) × (self.new ≡ self.old) }
        ensures err { OnErr result (self.new ≡ record self.old { fault = self.new.fault }) }
        ensures memory { result ≡ Err FeedNo.Memory → self.new ≡ self.old }

        // A message, and the twelve bytes of a head.
        ensures held { length self.new.joined + length self.new.head ≤ max_message + head_len }
    {
        if let Some(bad) = self.bad {
            return Err(FeedNo::Bad(bad));
        }
        let before = self.progress;
        let held = self.message.len();
        let taken = take_in(&mut self.progress, &mut self.message, piece);
        if let Err(no) = &taken {
            self.progress = before;
            self.message.truncate(held);
            if let FeedNo::Bad(bad) = no {
                self.bad = Some(*bad);
            }
        }
        taken
    }

    /// The finished message, if one waits. Its bytes are moved, and no memory is taken.
    pub fn take(&mut self) -> Option<Bytes>
        ensures message { result ≡ waiting self.old }
        ensures whole { (before : ℕ) (bytes message : List ℕ) → StandsFor self.old before bytes →
            (result ≡ Some message) ↔ One message bytes }
        ensures next { OnSome result ((before : ℕ) (bytes : List ℕ) →
            StandsFor self.old before bytes → StandsFor self.new (before + length bytes) []) }
        ensures none { IfNone result (self.new ≡ self.old) }
        ensures gone { waiting self.new ≡ None }
        ensures taken { self.new.taken ≡ self.old.taken }
    {
        if self.bad.is_some() || !self.progress.is_done(self.message.len()) {
            return None;
        }
        let empty = Vec::new(*self.message.allocator());
        Some(Items::of(mem::replace(&mut self.message, empty)))
    }

    /// Whether it stands between two messages, where a stream may stop.
    pub fn between(&self) -> bool
        ensures stands { (before : ℕ) (bytes : List ℕ) → StandsFor self.now before bytes →
            IsTrue result ↔ (bytes ≡ []) }
        ensures failed { IsSome self.now.fault → result ≡ false }
    {
        self.bad.is_none() && self.message.len() + self.progress.have == 0
    }

    /// The bytes that `feed` took since `new`, modulo 2^64.
    pub fn taken(&self) -> u64
        ensures value { result ≡ self.now.taken }
        ensures stands { (before : ℕ) (bytes : List ℕ) → StandsFor self.now before bytes →
            result ≡ (before + length bytes) % 2 ^ 64 }
    {
        self.progress.taken
    }
}
