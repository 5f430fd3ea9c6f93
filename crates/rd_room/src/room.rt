//! The room for messages that a writer takes at once.

ghost use Rattle.std.specs.Prelude.{◌≡◌, ◌<◌, ◌∷◌, ◌++◌, ◌↔◌, [], length, IfOk, IsTrue};
ghost use Rattle.rd_room.specs.Room.{first_in_room};

use rd_base::Bytes;
use std::alloc::{AllocError, Global};
use std::collections::VecDeque;
use std::marker::Model;

/// Messages, and how many may stand there. Contracts see a `MessageRoom`. The places are found where it is made, so no message takes one later.
#[derive(Drop)]
pub struct Room {
    places: usize,
    messages: VecDeque<Bytes>,
}

impl Model for Room {
    ghost use Rattle.std.specs.Prelude.{◌≤◌, length};
    ghost use Rattle.std.specs.VecDeque.{deque_capacity};
    ghost use Rattle.rd_room.specs.Room.{MessageRoom};

    ghost Value = { MessageRoom };

    ghost view = { λ r. record { places = r.places; messages = r.messages.items } };

    ghost invariant = { λ r. (length r.messages.items ≤ r.places) × (r.places ≤ deque_capacity r.messages) };
}

impl Room {
    /// Room for so many messages, with none.
    pub fn new(alloc: Global, places: usize) -> Result<Self, AllocError>
        ensures { IfOk result (λ room. room ≡ record { places = places; messages = [] }) }
    {
        Ok(Room {
            places,
            messages: VecDeque::with_capacity(alloc, places)?,
        })
    }

    /// The message that came first, if there is one.
    pub fn pop(&mut self) -> Option<Bytes>
        ensures { first_in_room self.old ≡ (self.new, result) }
    {
        self.messages.pop_front()
    }

    /// Whether another message may come.
    pub fn has_place(&self) -> bool
        ensures { IsTrue result ↔ (length self.now.messages < self.now.places) }
    {
        self.messages.len() < self.places
    }

    /// A message comes last. It takes no memory.
    pub fn add(&mut self, message: Bytes)
        requires { length self.old.messages < self.old.places }
        ensures { self.new ≡ record self.old { messages = self.old.messages ++ message ∷ [] } }
    {
        self.messages.push_back_reserved(message);
    }

    /// No messages are left.
    pub fn clear(&mut self)
        ensures { self.new ≡ record self.old { messages = [] } }
    {
        self.messages.clear();
    }
}
