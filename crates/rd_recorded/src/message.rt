//! A message of a recording.

ghost use Rattle.std.specs.Prelude.{◌≡◌};

use rd_base::Bytes;
use std::marker::Model;

/// The bytes of a message. One that a single frame carries is lent by the recording.
#[derive(Drop)]
pub struct Message<'a>(Held<'a>);

#[derive(Drop)]
enum Held<'a> {
    Lent(&'a [u8]),
    Joined(Bytes),
}

impl<'a> Model for Message<'a> {
    ghost use Rattle.std.specs.Prelude.{ℕ, List};
    ghost use Rattle.rd_recorded.specs.Bytes.{held_bytes};

    ghost Value = { List ℕ };

    ghost view = { λ m. held_bytes m.0 };
}

impl<'a> Message<'a> {
    /// A message that a frame carries.
    pub fn lent(bytes: &'a [u8]) -> Message<'a>
        ensures { result ≡ bytes.now }
    {
        Message(Held::Lent(bytes))
    }

    /// A message of several frames.
    pub fn joined(bytes: Bytes) -> Message<'a>
        ensures { result ≡ bytes }
    {
        Message(Held::Joined(bytes))
    }

    pub fn as_slice(&self) -> &[u8]
        ensures { result.now ≡ self.now }
    {
        match &self.0 {
            Held::Lent(bytes) => bytes,
            Held::Joined(bytes) => bytes.as_slice(),
        }
    }
}
