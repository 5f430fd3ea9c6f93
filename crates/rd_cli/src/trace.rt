//! The command `trace`: a script is played as `both` does, and what is printed of its session is an audit file.

ghost use Rattle.std.specs.Prelude.{◌≡◌, ◌<◌, ◌^◌, [], length};
ghost use Rattle.rd_audit_file.specs.File.{audit_file};
ghost use Rattle.rd_audit_file.specs.Journals.{entries_of, journal_text};
ghost use Rattle.rd_cli.specs.Headline.{audit_printed};
ghost use Rattle.rd_cli.specs.Outside.{outside, stream};
ghost use Rattle.rd_cli.specs.Playing.{ComesOut, IsEndOfTrace};
ghost use Rattle.rd_cli.specs.Stops.{Prints};

use crate::ending::end;
use crate::idle_notes::note_idle;
use crate::input::input_text;
use crate::playing::play_kept;
use crate::stop::Stop;
use rd_audit_file::write_audit;
use rd_base::{Books, Sink, Source, write_all};
use rd_script::Mode;
use std::alloc::Global;

/// Plays the script of the input, and returns the exit status (`run` has the table). The recording is kept while it is played, and written before the
/// audit file: it is held once, and the file once.
pub fn trace<S: Source, K: Sink, R: Sink, N: Sink>(
    alloc: Global,
    input: &mut S,
    output: &mut K,
    recording: &mut R,
    notes: &mut N,
    books: &mut Books,
) -> u8
    requires { books.old ≡ [] }
    ensures { IsEndOfTrace
        (outside S.left S.faults K.held K.faults R.held R.faults input.old output.old recording.old)
        (outside S.left S.faults K.held K.faults R.held R.faults input.new output.new recording.new) books.new result }
{
    match trace_script(alloc, input, output, recording, notes, books) {
        Ok(()) => 0,
        Err(stop) => end(alloc, output, stop),
    }
}

/// Reads a script from the input, plays it, and writes its audit file to the output. The first event that stops it ends it.
fn trace_script<S: Source, K: Sink, R: Sink, N: Sink>(
    alloc: Global,
    input: &mut S,
    output: &mut K,
    recording: &mut R,
    notes: &mut N,
    books: &mut Books,
) -> Result<(), Stop>
    requires { books.old ≡ [] }
    ensures { ComesOut audit_printed
        (outside S.left S.faults K.held K.faults R.held R.faults input.old output.old recording.old)
        (outside S.left S.faults K.held K.faults R.held R.faults input.new output.new recording.new) books.new result }
{
    let (text, script) = input_text(alloc, Mode::Both, input, notes)?;
    let (told, kept) = play_kept(alloc, &script, recording, books)?;
    note_idle(alloc, notes, script.lines.as_slice(), told.idle.as_slice());
    print_audit(alloc, text.as_slice(), books, kept.bytes(), output)
}

/// Writes the audit file of a script, its journals and its recording.
fn print_audit<K: Sink>(
    alloc: Global,
    script: &[u8],
    books: &Books,
    recording: &[u8],
    output: &mut K,
) -> Result<(), Stop>
    requires { length script.now < 2 ^ 32 }
    ensures { Prints (audit_file script.now (journal_text (entries_of books.now)) recording.now) (stream K.held K.faults output.old) (stream K.held K.faults output.new) result }
{
    let file = write_audit(alloc, script, books, recording)?;
    match write_all(output, file.as_slice()) {
        Ok(()) => Ok(()),
        Err(_) => Err(Stop::Output),
    }
}
