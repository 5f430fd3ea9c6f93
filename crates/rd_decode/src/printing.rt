//! Printing a recording: a line for each message.

ghost use Rattle.std.specs.Prelude.{◌≡◌, ◌<◌, ◌^◌};
ghost use Rattle.rd_decode.specs.Ends.{EndsDecode};
ghost use Rattle.rd_decode.specs.Kept.{nothing_left};
ghost use Rattle.rd_decode.specs.Streams.{stream};

use crate::decoder::Decoder;
use crate::fault::{DecodeNo, Fault, FaultWhy};
use crate::flushing::{flush, flush_full, print_before, print_unread};
use crate::reading::{LIMIT, MAGIC, read_after, read_magic};
use rd_base::{Sink, Source, Why};
use std::alloc::Global;

/// Prints a line for each message of the recording that the input is. The first event that stops it ends it: a failed read or write, a fault of
/// the recording, its length, want of memory. The lines of what was read before a failed read or a fault are printed before it ends.
pub fn decode<S: Source, K: Sink>(
    alloc: Global,
    input: &mut S,
    output: &mut K,
) -> Result<(), DecodeNo>
    ensures { EndsDecode (stream S.left S.faults input.old) (stream S.left S.faults input.new)
        (stream K.held K.faults output.old) (stream K.held K.faults output.new) result }
{
    let mut held = read_magic(alloc, input)?;
    let mut read = held.len() as u64;
    let mut taken = MAGIC.len();
    let mut decoder = Decoder::new(alloc, taken as u64);
    loop {
        match decoder.take_all(&held[taken..]) {
            Ok(count) => taken += count,
            Err(no) => return Err(print_before(output, decoder.text.as_str(), no)),
        }
        flush_full(output, &mut decoder.text)?;
        if read >= LIMIT {
            flush(output, &mut decoder.text)?;
            return Err(DecodeNo::Long);
        }
        let rest = &held[taken..];
        let next = match read_after(alloc, input, rest, LIMIT - read) {
            Ok(next) => next,
            Err(no) => return Err(print_unread(output, decoder.text.as_str(), no)),
        };
        let count = next.len() - rest.len();
        if count == 0 {
            flush(output, &mut decoder.text)?;
            return end(decoder.at, rest);
        }
        read += count as u64;
        taken = 0;
        held = next;
    }
}

/// At the input's end: an entry of which only a part is there is a fault at its frame.
fn end(at: u64, rest: &[u8]) -> Result<(), DecodeNo>
    requires { at < 2 ^ 62 }
    ensures { result ≡ nothing_left at rest.now }
{
    if rest.is_empty() {
        return Ok(());
    }
    Err(DecodeNo::Bad(Fault {
        at: at + 1,
        why: FaultWhy::Field(Why::Short),
    }))
}
