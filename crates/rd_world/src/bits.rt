//! A word of 64 bits as a set of places.

ghost use Rattle.std.specs.Prelude.{◌≡◌, ◌≢◌, ◌<◌, ℕ, length, slice_get, Some};
ghost use Rattle.rd_world.specs.Bits.{IsMarked, has, where_holds};

use std::marker::Model;

/// A set of places below 64, a bit for each. Contracts see the word.
#[derive(Drop)]
pub struct Bits {
    word: u64,
}

impl Model for Bits {
    ghost use Rattle.std.specs.Prelude.{ℕ};

    ghost Value = { ℕ };

    ghost view = { λ b. b.word };
}

impl Bits {
    /// No place.
    pub fn new() -> Self
        ensures { result ≡ 0 }
    {
        Bits { word: 0 }
    }

    /// The same places.
    pub fn copy(&self) -> Self
        ensures { result ≡ self.now }
    {
        Bits { word: self.word }
    }

    /// Whether a place is in it.
    pub fn has(&self, place: u32) -> bool
        requires { place < 64 }
        ensures { result ≡ has self.now place }
    {
        self.word >> place & 1 == 1
    }

    /// How many places are in it.
    pub fn count(&self) -> u32
        ensures { result ≡ length (where_holds (has self.now) 64) }
    {
        ones(self.word)
    }

    /// The place with this index among those in it, from the lowest.
    pub fn pick(&self, index: u32) -> u32
        requires { index < length (where_holds (has self.now) 64) }
        ensures { slice_get (where_holds (has self.now) 64) index ≡ Some result }
    {
        nth_one(self.word, index)
    }

    /// A place is put in or taken out.
    pub fn mark(&mut self, place: u32, on: bool)
        requires { place < 64 }
        ensures { IsMarked self.old self.new place on }
    {
        self.word = with_bit(self.word, place, on);
    }
}

/// How many bits of a word are set.
fn ones(word: u64) -> u32
    ensures { result ≡ length (where_holds (has word) 64) }
{
    word.count_ones()
}

/// The place of the set bit with this index, from the lowest.
fn nth_one(word: u64, index: u32) -> u32
    requires { index < length (where_holds (has word) 64) }
    ensures { slice_get (where_holds (has word) 64) index ≡ Some result }
{
    let mut rest = word;
    for _passed in 0..index {
        rest &= !(1 << rest.trailing_zeros());
    }
    rest.trailing_zeros()
}

/// A word with the bit at a place set or cleared.
fn with_bit(word: u64, place: u32, on: bool) -> u64
    requires { place < 64 }
    ensures same { has result place ≡ on }
    ensures others { (i : ℕ) → i < 64 → i ≢ place → has result i ≡ has word i }
{
    if on {
        word | (1 << place)
    } else {
        word & !(1 << place)
    }
}
