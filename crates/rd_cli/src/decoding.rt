//! The command `decode`: a recording is printed, message by message.

ghost use Rattle.std.specs.Prelude.{◌≡◌};
ghost use Rattle.rd_cli.specs.Decoding.{IsEndOfDecode, stop_for};
ghost use Rattle.rd_cli.specs.Outside.{stream};

use crate::ending::end;
use crate::stop::Stop;
use rd_base::{Sink, Source};
use rd_decode::DecodeNo;
use std::alloc::Global;

/// Prints a line for each message of the recording on the input, and returns the exit status.
///
/// | status | comes where | last line |
/// |---|---|---|
/// | 0 | the input is a recording | |
/// | 2 | a read of the input failed | |
/// | 3 | a write to the output failed | |
/// | 4 | the input has a fault, of which this is the first | `fault at A WHY` |
/// | 6 | memory ran out | |
/// | 7 | the input has 2^40 bytes or more | `long` |
///
/// The first of these events ends it. A last line that can't be written leaves the status as it is.
pub fn decode<S: Source, K: Sink>(alloc: Global, input: &mut S, output: &mut K) -> u8
    ensures { IsEndOfDecode (stream S.left S.faults input.old) (stream S.left S.faults input.new)
        (stream K.held K.faults output.old) (stream K.held K.faults output.new) result }
{
    match rd_decode::decode(alloc, input, output) {
        Ok(()) => 0,
        Err(no) => end(alloc, output, stop_for(no)),
    }
}

/// What the command stops for, by why the printing did.
fn stop_for(no: DecodeNo) -> Stop
    ensures { result ≡ stop_for no }
{
    match no {
        DecodeNo::Input => Stop::Input,
        DecodeNo::Output => Stop::Output,
        DecodeNo::Bad(fault) => Stop::Fault(fault),
        DecodeNo::Long => Stop::Long,
        DecodeNo::Memory => Stop::Memory,
    }
}
