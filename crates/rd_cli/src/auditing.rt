//! The command `audit`: an audit file is judged.

ghost use Rattle.std.specs.Prelude.{◌≡◌, codes};
ghost use Rattle.rd_cli.specs.Auditing.{ComesOutOfAudit, IsEndOfAudit, audit_stop};
ghost use Rattle.rd_cli.specs.Outside.{stream};
ghost use Rattle.rd_cli.specs.Stops.{Prints};

use crate::ending::end;
use crate::input::read_all;
use crate::stop::Stop;
use crate::verdict_notes::{note_refusal, note_verdict};
use rd_audit::{AuditNo, Verdict};
use rd_base::{Sink, Source, write_all};
use std::alloc::Global;

/// The most bytes of an audit file.
const MAX_FILE: usize = 1_073_741_824;

/// Judges the audit file that the input is, and returns the exit status.
///
/// | status | comes where | last line |
/// |---|---|---|
/// | 0 | all of the file belongs together | `yes` |
/// | 1 | a line of its script is refused | `line N WHY` |
/// | 2 | a read of the input failed | |
/// | 3 | the write of `yes` failed | |
/// | 4 | the file has a fault, of which this is the first | `fault at A WHY` |
/// | 6 | memory ran out | |
/// | 7 | the input has more than 2^30 bytes | `long` |
/// | 9 | something doesn't belong, of which this is the first | `no journal D item I clause K`, `no journal D item I mark`, `no entry E WHY`, `no channel C open` |
///
/// The first of these events ends it. A last line other than `yes` that can't be written leaves the status as it is. At 1, 4 and 9 the notes say
/// more of it.
pub fn audit<S: Source, K: Sink, N: Sink>(
    alloc: Global,
    input: &mut S,
    output: &mut K,
    notes: &mut N,
) -> u8
    ensures { IsEndOfAudit (stream S.left S.faults input.old) (stream S.left S.faults input.new)
        (stream K.held K.faults output.old) (stream K.held K.faults output.new) result }
{
    match judge(alloc, input, output, notes) {
        Ok(()) => 0,
        Err(stop) => end(alloc, output, stop),
    }
}

/// Judges the file, and writes `yes` where all belongs together. Anything else stops it.
fn judge<S: Source, K: Sink, N: Sink>(
    alloc: Global,
    input: &mut S,
    output: &mut K,
    notes: &mut N,
) -> Result<(), Stop>
    ensures { ComesOutOfAudit (stream S.left S.faults input.old) (stream S.left S.faults input.new)
        (stream K.held K.faults output.old) (stream K.held K.faults output.new) result }
{
    let bytes = read_all(alloc, input, MAX_FILE)?;
    if bytes.len() > MAX_FILE {
        return Err(Stop::Long);
    }
    let verdict = match rd_audit::audit(alloc, bytes.as_slice()) {
        Ok(verdict) => verdict,
        Err(no) => {
            note_refusal(alloc, notes, bytes.as_slice(), &no);
            return Err(audit_stop(no));
        }
    };
    match verdict {
        Verdict::Yes => print_yes(output),
        _ => {
            note_verdict(alloc, notes, bytes.as_slice(), verdict);
            Err(Stop::No(verdict))
        }
    }
}

/// Says that all belongs together.
fn print_yes<K: Sink>(output: &mut K) -> Result<(), Stop>
    ensures { Prints (codes "yes\n") (stream K.held K.faults output.old) (stream K.held K.faults output.new) result }
{
    match write_all(output, b"yes\n") {
        Ok(()) => Ok(()),
        Err(_) => Err(Stop::Output),
    }
}

/// What the command stops for, by why the file couldn't be judged.
fn audit_stop(no: AuditNo) -> Stop
    ensures { result ≡ audit_stop no }
{
    match no {
        AuditNo::Line { line, why } => Stop::Line { line, why },
        AuditNo::Bad(fault) => Stop::Fault(fault),
        AuditNo::Memory => Stop::Memory,
    }
}
