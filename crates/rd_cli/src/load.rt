//! The command `load`: the script of a number is played, and its summary is printed.

ghost use Rattle.std.specs.Prelude.{◌≡◌, []};
ghost use Rattle.rd_cli.specs.Loading.{ComesOutOfLoad, IsEndOfLoad};
ghost use Rattle.rd_cli.specs.Outside.{stream};
ghost use Rattle.rd_cli.specs.Shapes.{IsLoadNumber};
ghost use Rattle.rd_cli.specs.Stops.{Prints};
ghost use Rattle.rd_cli.specs.Summary.{summary_of};
ghost use Rattle.rd_script.specs.Report.{AreCountable};

use crate::ending::end;
use crate::playing::play;
use crate::stop::Stop;
use crate::summary::summary_of;
use rd_base::{Books, Sink, write_all};
use rd_script::{Outcomes, load_script};
use std::alloc::Global;

/// Plays the load of a number, and returns the exit status. No input is read.
pub fn load<K: Sink, R: Sink>(
    alloc: Global,
    number: u32,
    output: &mut K,
    recording: &mut R,
    books: &mut Books,
) -> u8
    requires books { books.old ≡ [] }
    requires number { IsLoadNumber number }
    ensures { IsEndOfLoad number (stream K.held K.faults output.old) (stream K.held K.faults output.new)
        (stream R.held R.faults recording.old) (stream R.held R.faults recording.new) books.new result }
{
    match summarize(alloc, number, output, recording, books) {
        Ok(()) => 0,
        Err(stop) => end(alloc, output, stop),
    }
}

/// Plays the load, and writes its summary to the output. The first event that stops it ends it.
fn summarize<K: Sink, R: Sink>(
    alloc: Global,
    number: u32,
    output: &mut K,
    recording: &mut R,
    books: &mut Books,
) -> Result<(), Stop>
    requires books { books.old ≡ [] }
    requires number { IsLoadNumber number }
    ensures { ComesOutOfLoad number (stream K.held K.faults output.old) (stream K.held K.faults output.new)
        (stream R.held R.faults recording.old) (stream R.held R.faults recording.new) books.new result }
{
    let script = load_script(alloc, number)?;
    let told = play(alloc, &script, recording, books)?;
    print_summary(alloc, number, &told, output)
}

/// Writes the summary of a load that was played.
fn print_summary<K: Sink>(
    alloc: Global,
    number: u32,
    told: &Outcomes,
    output: &mut K,
) -> Result<(), Stop>
    requires { AreCountable told.now.lines.entries }
    ensures { Prints (summary_of number told.now.lines.entries) (stream K.held K.faults output.old) (stream K.held K.faults output.new) result }
{
    let summary = summary_of(alloc, number, told)?;
    match write_all(output, summary.as_bytes()) {
        Ok(()) => Ok(()),
        Err(_) => Err(Stop::Output),
    }
}
