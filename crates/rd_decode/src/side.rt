//! The sides of a channel.

ghost use Rattle.std.specs.Prelude.{Some};
ghost use Rattle.rd_decode.specs.Lines.{side_word};

use std::fmt;

/// A side of the channel, which sent a message.
#[derive(Clone, Copy, Debug, PartialEq, Eq)]
pub enum Side {
    Host,
    Client,
}

impl fmt::Display for Side {
    ghost output = { λ s. Some (side_word s) };

    fn fmt<W: fmt::Write>(&self, f: &mut fmt::Formatter<W>) -> fmt::Result {
        let word = match self {
            Side::Host => "host",
            Side::Client => "client",
        };
        f.write_str(word)
    }
}
