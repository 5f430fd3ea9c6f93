//! The message that is under way on one side of a channel.

ghost use Rattle.std.specs.Prelude.{◌≡◌, ◌≤◌, ◌+◌, ◌==◌, ◌++◌, IfOk, OnOk, length};
ghost use Rattle.rd_chunk.specs.Sizes.{max_message};

use std::alloc::{AllocError, Global};
use std::marker::Model;

/// A message under way: its length and the data that came. Without data none is under way.
#[derive(Drop)]
pub struct UnderWay {
    whole: usize,
    joined: Vec<u8>,
}

impl Model for UnderWay {
    ghost use Rattle.std.specs.Prelude.{◌≤◌, vec_len};
    ghost use Rattle.rd_decode.specs.Entries.{UnderWay};
    ghost use Rattle.rd_chunk.specs.Sizes.{max_message};

    ghost Value = { UnderWay };

    ghost view = { λ u. record { whole = u.whole; joined = u.joined.items } };

    ghost invariant = { λ u. vec_len u.joined ≤ max_message };
}

impl UnderWay {
    ghost use Rattle.rd_decode.specs.Entries.{nothing_under_way};

    pub fn new(alloc: Global) -> UnderWay
        ensures { result ≡ nothing_under_way }
    {
        UnderWay {
            whole: 0,
            joined: Vec::new(alloc),
        }
    }

    /// The bytes of the whole message, which say nothing where no data came.
    pub fn whole(&self) -> usize
        ensures { result ≡ self.now.whole }
    {
        self.whole
    }

    /// The data that came.
    pub fn joined(&self) -> &[u8]
        ensures joined { result.now ≡ self.now.joined }
        ensures most { length result.now ≤ max_message }
    {
        self.joined.as_slice()
    }

    /// Takes the data of a frame of a message of so many bytes, and says whether it is whole now.
    pub fn take(&mut self, whole: usize, part: &[u8]) -> Result<bool, AllocError>
        requires { length self.old.joined + length part.now ≤ max_message }
        ensures taken { OnOk result (self.new ≡ record { whole = whole; joined = self.old.joined ++ part.now }) }
        ensures done { IfOk result (λ done. done ≡ (length (self.old.joined ++ part.now) == whole)) }
    {
        self.joined.extend_from_slice(part)?;
        self.whole = whole;
        Ok(self.joined.len() == whole)
    }

    /// Nothing is under way any more. The buffer stays, for the next message.
    pub fn clear(&mut self)
        ensures { self.new ≡ nothing_under_way }
    {
        self.joined.clear();
        self.whole = 0;
    }
}
