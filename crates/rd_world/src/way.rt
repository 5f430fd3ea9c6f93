//! One direction of a channel.
//!
//! Cost: a message is copied onto the way once, and its data off it once, by the joiner. Handled bytes are cut off only where they are half of all, so that each
//! byte moves at most once more.

ghost use Rattle.std.specs.Prelude.{◌≡◌, ◌≤◌, false, length, IfOk, IfSome, OnErr, OnOk};
ghost use Rattle.rd_chunk.specs.Carrier.{IsMessage};
ghost use Rattle.rd_world.specs.World.{carrying, ending, handling, having_read, new_way};

use rd_base::Bytes;
use rd_chunk::{FeedNo, Joiner, put_frames};
use rd_trace::Trace;
use std::alloc::{AllocError, Global};
use std::marker::Model;

/// From so many handled bytes on they are cut off, where they are half of all.
const MOST_HANDLED: usize = 65_536;

/// One direction of a channel: the bytes under way, those that the reader read and didn't handle yet, and the joiner through which it handles them. Contracts
/// see a `WayState`. What is on the way are whole messages in this project's frames, of which the reader handled a part.
#[derive(Drop)]
pub struct Way {
    /// Before `front` it was handled, and from `read` on it is under way.
    bytes: Vec<u8>,
    front: usize,
    read: usize,
    joiner: Joiner,
    /// What was handled since the last message.
    part: Trace<u8>,
    /// Whether the channel ended.
    ended: bool,
}

impl Model for Way {
    ghost use Rattle.std.specs.Prelude.{◌≡◌, ◌≤◌, ◌++◌, drop, take, vec_len};
    ghost use Rattle.rd_world.specs.World.{WayState};
    ghost use Rattle.rd_world.specs.Ways.{IsOnItsWay};

    ghost Value = { WayState };

    ghost view = { λ y. record { part = y.part.items; taken = y.joiner.taken; unhandled = drop y.front (take y.read y.bytes.items); pipe = drop y.read y.bytes.items; ended = y.ended } };

    ghost invariant = { λ y. IsOnItsWay y.front y.read y.bytes.items y.joiner y.part.items y.ended };
}

impl Way {
    /// Before the first byte of a channel.
    pub fn new(alloc: Global) -> Way
        ensures { result ≡ new_way }
    {
        Way {
            bytes: Vec::new(alloc),
            front: 0,
            read: 0,
            joiner: Joiner::new(alloc),
            part: Trace::new(),
            ended: false,
        }
    }

    /// How many bytes are under way.
    pub fn len(&self) -> usize
        ensures { result ≡ length self.now.pipe }
    {
        self.bytes.len() - self.read
    }

    /// Whether the channel ended.
    pub fn has_ended(&self) -> bool
        ensures { result ≡ self.now.ended }
    {
        self.ended
    }

    /// Puts the frames of a message on the way. Where there is no memory for them the channel ends.
    pub fn carry(&mut self, message: &[u8]) -> Result<(), AllocError>
        requires fits { IsMessage message.now }
        requires going { self.old.ended ≡ false }
        ensures carried { OnOk result (self.new ≡ carrying self.old message.now) }
        ensures err { OnErr result (self.new ≡ ending self.old) }
    {
        self.cut_handled();
        let put = put_frames(&mut self.bytes, message);
        if put.is_err() {
            self.bytes.clear();
            self.front = 0;
            self.read = 0;
            self.ended = true;
        }
        put
    }

    /// The reader reads so many bytes.
    pub fn read(&mut self, count: usize)
        requires { count ≤ length self.old.pipe }
        ensures { self.new ≡ having_read count self.old }
    {
        self.read += count;
    }

    /// The reader handles the first message of what it read, if one is whole, else all that it read.
    pub fn handle(&mut self) -> Result<Option<Bytes>, AllocError>
        requires { self.old.ended ≡ false }
        ensures handled { IfOk result (λ message. handling self.old ≡ (self.new, message)) }
        ensures fits { IfOk result (λ message. IfSome message IsMessage) }
        ensures going { self.new.ended ≡ false }
        ensures err { OnErr result (self.new ≡ self.old) }
    {
        let from = self.front;
        match self.joiner.feed(&self.bytes[from..self.read]) {
            Ok(count) => self.front += count,
            Err(FeedNo::Memory) => return Err(AllocError),
            Err(FeedNo::Bad(_)) => unreachable!(),
        }
        let message = self.joiner.take();
        self.part = self
            .part
            .becoming(&(message.is_some(), &self.bytes[from..self.front]));
        Ok(message)
    }

    /// The channel ends: what is under way and what isn't handled is gone. It takes no memory.
    pub fn end(&mut self)
        ensures { self.new ≡ ending self.old }
    {
        self.bytes.truncate(self.front);
        self.read = self.front;
        self.ended = true;
    }

    /// The reader's joiner.
    pub fn joiner(&self) -> &Joiner
        ensures taken { result.now.taken ≡ self.now.taken }
    {
        &self.joiner
    }

    /// Cuts off what was handled, where that is much. It takes no memory.
    fn cut_handled(&mut self)
        ensures { self.new ≡ self.old }
    {
        if self.front == self.bytes.len() {
            self.bytes.clear();
            self.front = 0;
            self.read = 0;
            return;
        }
        if self.front < MOST_HANDLED || self.front < self.bytes.len() / 2 {
            return;
        }
        self.bytes.drain(..self.front);
        self.read -= self.front;
        self.front = 0;
    }
}
