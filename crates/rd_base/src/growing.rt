//! A list that grows by at least a half where it has no room, so that a long one is moved few times.

use std::alloc::{AllocError, Global};
use std::marker::Model;

/// A list whose room is made ahead. Contracts see its elements and its room: how many elements it holds without being moved.
#[derive(Debug, Drop)]
pub struct Growing<T> {
    items: Vec<T>,
}

impl<T> Model for Growing<T> {
    ghost use Rattle.std.specs.Prelude.{◌≤◌, length, vec_capacity};
    ghost use Rattle.rd_base.specs.Growth.{Grown};

    ghost Value = { Grown T };

    ghost view = { λ g. record { items = g.items.items; room = vec_capacity g.items } };
}

impl<T> Growing<T> {
    ghost use Rattle.std.specs.Prelude.{◌≡◌, ◌+◌, ◌<◌, ◌≤◌, [], ◌∷◌, ◌++◌, OnOk, OnErr, length};
    ghost use Rattle.rd_base.specs.Growth.{room_for};

    /// An empty list without room.
    pub fn new(alloc: Global) -> Self
        ensures items { result.items ≡ [] }
    {
        Growing {
            items: Vec::new(alloc),
        }
    }

    /// Makes room for at least `more` further elements: none is moved where the room is there, and else the room grows by a half of
    /// itself or by what is lacking, whichever is more.
    pub fn make_room(&mut self, more: usize) -> Result<(), AllocError>
        ensures items { self.new.items ≡ self.old.items }
        ensures ok { OnOk result (self.new.room ≡ room_for self.old.room (length self.old.items + more)) }
        ensures enough { OnOk result (length self.old.items + more ≤ self.new.room) }
        ensures err { OnErr result (self.new ≡ self.old) }
    {
        let len = self.items.len();
        let room = self.items.capacity();
        if more <= room - len {
            return Ok(());
        }
        let Some(wanted) = len.checked_add(more) else {
            return Err(AllocError);
        };
        let goal = wanted.max(room.saturating_add(room / 2));
        self.items.try_reserve_exact(goal - len)
    }

    /// Adds an element after all others, in room that was made.
    pub fn push(&mut self, item: T)
        requires { length self.old.items < self.old.room }
        ensures items { self.new.items ≡ self.old.items ++ item ∷ [] }
        ensures room { self.new.room ≡ self.old.room }
    {
        self.items.push_reserved(item);
    }

    /// The elements in order.
    pub fn as_slice(&self) -> &[T]
        ensures { result.now ≡ self.now.items }
    {
        self.items.as_slice()
    }
}
