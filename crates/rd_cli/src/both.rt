//! The command `both`: a script, read whole, is played by both ends of one session.

ghost use Rattle.std.specs.Prelude.{◌≡◌, []};
ghost use Rattle.rd_cli.specs.Headline.{report_printed};
ghost use Rattle.rd_cli.specs.Outside.{outside, stream};
ghost use Rattle.rd_cli.specs.Playing.{ComesOut, IsEndOfBoth};
ghost use Rattle.rd_cli.specs.Stops.{Prints};
ghost use Rattle.rd_script.specs.Report.{AreCountable, report_of};

use crate::ending::end;
use crate::idle_notes::note_idle;
use crate::input::input_script;
use crate::playing::play;
use crate::stop::Stop;
use rd_base::{Books, Sink, Source, write_all};
use rd_script::{Mode, Outcomes, Script, report};
use std::alloc::Global;

/// Plays the script of the input, and returns the exit status.
pub fn both<S: Source, K: Sink, R: Sink, N: Sink>(
    alloc: Global,
    input: &mut S,
    output: &mut K,
    recording: &mut R,
    notes: &mut N,
    books: &mut Books,
) -> u8
    requires { books.old ≡ [] }
    ensures { IsEndOfBoth
        (outside S.left S.faults K.held K.faults R.held R.faults input.old output.old recording.old)
        (outside S.left S.faults K.held K.faults R.held R.faults input.new output.new recording.new) books.new result }
{
    match report_script(alloc, input, output, recording, notes, books) {
        Ok(()) => 0,
        Err(stop) => end(alloc, output, stop),
    }
}

/// Reads a script from the input, plays it, and writes its report to the output. The first event that stops it ends it.
fn report_script<S: Source, K: Sink, R: Sink, N: Sink>(
    alloc: Global,
    input: &mut S,
    output: &mut K,
    recording: &mut R,
    notes: &mut N,
    books: &mut Books,
) -> Result<(), Stop>
    requires { books.old ≡ [] }
    ensures { ComesOut report_printed
        (outside S.left S.faults K.held K.faults R.held R.faults input.old output.old recording.old)
        (outside S.left S.faults K.held K.faults R.held R.faults input.new output.new recording.new) books.new result }
{
    let script = input_script(alloc, Mode::Both, input, notes)?;
    let told = play(alloc, &script, recording, books)?;
    note_idle(alloc, notes, script.lines.as_slice(), told.idle.as_slice());
    print_report(alloc, &script, &told, books, output)
}

/// Writes the report of a script that was played.
fn print_report<K: Sink>(
    alloc: Global,
    script: &Script,
    told: &Outcomes,
    books: &Books,
    output: &mut K,
) -> Result<(), Stop>
    requires { AreCountable told.now.lines.entries }
    ensures { Prints (report_of script.now told.now books.now) (stream K.held K.faults output.old) (stream K.held K.faults output.new) result }
{
    let report = report(alloc, script, told, books)?;
    match write_all(output, report.as_slice()) {
        Ok(()) => Ok(()),
        Err(_) => Err(Stop::Output),
    }
}
