//! Writing lines in pieces.

ghost use Rattle.std.specs.Prelude.{◌≡◌, ◌<◌, ◌++◌, [], length, OnOk, IfErr};
ghost use Rattle.std.specs.String.{string_bytes};
ghost use Rattle.rd_decode.specs.declared.fault.DecodeNo.TheVariants as no;
ghost use Rattle.rd_decode.specs.Kept.{Flushed, PrintsBefore, PrintsUnread, piece_len};
ghost use Rattle.rd_decode.specs.Streams.{FailedToWrite, stream};

use crate::fault::DecodeNo;
use rd_base::{Sink, write_all};

/// How long the lines are at least that one write has, unless they are the last.
const PIECE_LEN: usize = 65_536;

/// Writes all lines that aren't printed yet.
pub fn flush<K: Sink>(output: &mut K, text: &mut String) -> Result<(), DecodeNo>
    ensures flushed { OnOk result (Flushed (stream K.held K.faults output.old) (stream K.held K.faults output.new) (string_bytes text.old) (string_bytes text.new)) }
    ensures all { OnOk result (string_bytes text.new ≡ []) }
    ensures failed { IfErr result (λ e. (e ≡ no.Output) × FailedToWrite (stream K.held K.faults output.old) (stream K.held K.faults output.new) (string_bytes text.old)) }
{
    match write_all(output, text.as_bytes()) {
        Ok(()) => {
            text.clear();
            Ok(())
        }
        Err(_) => Err(DecodeNo::Output),
    }
}

/// Writes them where they are long enough.
pub fn flush_full<K: Sink>(output: &mut K, text: &mut String) -> Result<(), DecodeNo>
    ensures flushed { OnOk result (Flushed (stream K.held K.faults output.old) (stream K.held K.faults output.new) (string_bytes text.old) (string_bytes text.new)) }
    ensures few { OnOk result (length (string_bytes text.new) < piece_len) }
    ensures failed { IfErr result (λ e. (e ≡ no.Output) × FailedToWrite (stream K.held K.faults output.old) (stream K.held K.faults output.new) (string_bytes text.old)) }
{
    if text.len() < PIECE_LEN {
        return Ok(());
    }
    flush(output, text)
}

/// Prints the lines before a fault of the recording, and returns it. Where that fails, the failed write comes first.
pub fn print_before<K: Sink>(output: &mut K, text: &str, stop: DecodeNo) -> DecodeNo
    ensures { PrintsBefore (stream K.held K.faults output.old) (stream K.held K.faults output.new) text.now stop result }
{
    match stop {
        DecodeNo::Bad(fault) => match write_all(output, text.as_bytes()) {
            Ok(()) => DecodeNo::Bad(fault),
            Err(_) => DecodeNo::Output,
        },
        other => other,
    }
}

/// Prints the lines of what was read before a failed read, where the output takes them.
pub fn print_unread<K: Sink>(output: &mut K, text: &str, stop: DecodeNo) -> DecodeNo
    ensures { PrintsUnread (stream K.held K.faults output.old) (stream K.held K.faults output.new) text.now stop result }
{
    match stop {
        DecodeNo::Input => {
            let _ = write_all(output, text.as_bytes());
            DecodeNo::Input
        }
        other => other,
    }
}
