//! A channel: what each side has under way, and the requests whose completions are still to come.

ghost use Rattle.std.specs.Prelude.{◌≡◌, ◌≤◌, ◌+◌, ◌==◌, ◌++◌, IfOk, OnOk, length};
ghost use Rattle.std.specs.String.{string_bytes};
ghost use Rattle.rd_chunk.specs.Sizes.{max_message};
ghost use Rattle.rd_decode.specs.Entries.{fresh, nothing_under_way, under_way, with_under_way};
ghost use Rattle.rd_decode.specs.Kept.{EndsMessage, channel_of};
ghost use Rattle.rd_decode.specs.Messages.{message_line};

use crate::awaited::Requests;
use crate::fault::LineNo;
use crate::message::put_message_line;
use crate::side::Side;
use crate::under_way::UnderWay;
use rd_irp::Kind;
use std::alloc::{AllocError, Global};

#[derive(Drop)]
pub struct Channel {
    host: UnderWay,
    client: UnderWay,
    requests: Requests<Kind>,
}

impl Channel {
    /// A channel that begins.
    pub fn new(alloc: Global) -> Channel
        ensures { channel_of result ≡ fresh }
    {
        Channel {
            host: UnderWay::new(alloc),
            client: UnderWay::new(alloc),
            requests: Requests::new(alloc),
        }
    }

    /// What a side has under way.
    pub fn under_way(&self, side: Side) -> &UnderWay
        ensures { result.now ≡ under_way side (channel_of self.now) }
    {
        match side {
            Side::Host => &self.host,
            Side::Client => &self.client,
        }
    }

    /// Takes the data of a frame of a side, whose message has so many bytes, and says whether the message is whole now.
    pub fn take(&mut self, side: Side, whole: usize, part: &[u8]) -> Result<bool, AllocError>
        requires { length (under_way side (channel_of self.old)).joined + length part.now ≤ max_message }
        ensures taken { OnOk result (channel_of self.new ≡ with_under_way side
            (record { whole = whole; joined = (under_way side (channel_of self.old)).joined ++ part.now }) (channel_of self.old)) }
        ensures done { IfOk result (λ done.
            done ≡ (length ((under_way side (channel_of self.old)).joined ++ part.now) == whole)) }
    {
        match side {
            Side::Host => self.host.take(whole, part),
            Side::Client => self.client.take(whole, part),
        }
    }

    /// Appends the line of the message that a side has under way, and takes a completion together with its request. Nothing is under way
    /// there after that.
    pub fn end_message(
        &mut self,
        alloc: Global,
        side: Side,
        text: &mut String,
    ) -> Result<(), LineNo>
        ensures { EndsMessage side (channel_of self.old) (message_line side (channel_of self.old).awaited (under_way side (channel_of self.old)).joined)
            (string_bytes text.old) (string_bytes text.new) (channel_of self.new) result }
    {
        match side {
            Side::Host => {
                put_message_line(alloc, text, &mut self.requests, side, self.host.joined())?;
                self.host.clear();
            }
            Side::Client => {
                put_message_line(alloc, text, &mut self.requests, side, self.client.joined())?;
                self.client.clear();
            }
        }
        Ok(())
    }
}
