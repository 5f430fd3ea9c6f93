//! What waits to be sent to the host.

ghost use Rattle.std.specs.Prelude.{◌≡◌, Some};
ghost use Rattle.std.specs.Option.{option_map};
ghost use Rattle.rd_client.specs.Core.{plain};

use rd_base::{Bytes, Key};
use std::marker::Model;

/// A message that is to be sent, and the key of the request that it answers, if it answers one.
#[derive(Debug, Drop)]
pub struct Outgoing {
    message: Bytes,
    answers: Option<Key>,
}

impl Model for Outgoing {
    ghost use Rattle.rd_client.specs.Core.{Outgoing};

    ghost Value = { Outgoing };

    ghost view = { λ o. record { message = o.message; answers = o.answers } };
}

impl Outgoing {
    /// A message that answers no request.
    pub fn plain(message: Bytes) -> Outgoing
        ensures { result ≡ plain message }
    {
        Outgoing {
            message,
            answers: None,
        }
    }

    /// The same, where there is a message.
    pub fn plain_if(message: Option<Bytes>) -> Option<Outgoing>
        ensures { result ≡ option_map plain message }
    {
        match message {
            Some(message) => Some(Outgoing::plain(message)),
            None => None,
        }
    }

    /// The completion of the request with this key.
    pub fn answer(message: Bytes, key: Key) -> Outgoing
        ensures { result ≡ record { message = message; answers = Some key } }
    {
        Outgoing {
            message,
            answers: Some(key),
        }
    }

    /// The message.
    pub fn into_message(self) -> Bytes
        ensures { result ≡ self.message }
    {
        let Outgoing {
            message,
            answers: _,
        } = self;
        message
    }
}
