//! Entries one after another, and the lines of their messages.

ghost use Rattle.std.specs.Prelude.{◌≡◌, ◌+◌, ◌<◌, ◌^◌, None, [], length};
ghost use Rattle.std.specs.String.{string_bytes};
ghost use Rattle.rd_decode.specs.Kept.{TakesAll, kept_channel};

use crate::channel::Channel;
use crate::entry::take_entry;
use crate::fault::{DecodeNo, Fault, LineNo};
use std::alloc::Global;

/// The place of the next entry, the channel that has begun, and the lines that aren't printed yet.
#[derive(Drop)]
pub struct Decoder {
    alloc: Global,
    pub at: u64,
    pub channel: Option<Channel>,
    pub text: String,
}

impl Decoder {
    /// Before the first entry, whose first byte has this place.
    pub fn new(alloc: Global, at: u64) -> Decoder
        ensures at { result.at ≡ at }
        ensures channel { result.channel ≡ None }
        ensures text { string_bytes result.text ≡ [] }
    {
        Decoder {
            alloc,
            at,
            channel: None,
            text: String::new(alloc),
        }
    }

    /// Takes all entries of these bytes that are there whole, and returns how many bytes they have.
    pub fn take_all(&mut self, bytes: &[u8]) -> Result<usize, DecodeNo>
        requires { self.old.at + length bytes.now < 2 ^ 62 }
        ensures { TakesAll self.old.at (kept_channel self.old.channel) bytes.now self.new.at (kept_channel self.new.channel)
            (string_bytes self.old.text) (string_bytes self.new.text) result }
    {
        let mut taken = 0;
        loop {
            match take_entry(
                self.alloc,
                &mut self.channel,
                &mut self.text,
                &bytes[taken..],
            ) {
                Ok(Some(size)) => {
                    taken += size;
                    self.at += size as u64;
                }
                Ok(None) => return Ok(taken),
                Err(LineNo::Bad(fault)) => {
                    return Err(DecodeNo::Bad(Fault {
                        at: self.at + u64::from(fault.offset),
                        why: fault.why,
                    }));
                }
                Err(LineNo::Memory) => return Err(DecodeNo::Memory),
            }
        }
    }
}
