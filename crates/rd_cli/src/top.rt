//! The top calls: a run of one command, and the program over its words and its streams.

ghost use Rattle.std.specs.Prelude.{◌≡◌, [], IfOk, IsErr, map, string_bytes};
ghost use Rattle.std.specs.Process.{exit_status};
ghost use Rattle.rd_cli.specs.Ends.{EndsProgram, EndsUntouched, IsEnd};
ghost use Rattle.rd_cli.specs.Outside.{linked_by, outside, sharing_by};

use crate::auditing::audit;
use crate::both::both;
use crate::client::client;
use crate::decoding::decode;
use crate::ending::end;
use crate::host::host;
use crate::load::load;
use crate::notes::note_usage;
use crate::stop::Stop;
use crate::trace::trace;
use crate::words::{Command, command_of};
use rd_base::{Books, Sink, Source, write_all};
use rd_folder::Folders;
use rd_link::{Clock, Gate, Linker};
use std::alloc::{AllocError, Global};
use std::process::ExitCode;
use std::sync::Wait;
use std::thread::Threads;

/// Runs a command and returns the exit status.
///
/// `words` are the command's words without the program's name. `both` reads a script from `input` to its end, plays it, writes a recording of all
/// frames to `recording` meanwhile, and then the report to `output`. `trace` does the same, but writes the recording once it is whole, and an audit file in
/// the report's place. `load` does the same as `both` with the script of its number, reads no input, and writes a
/// summary of one line in the report's place. `decode` reads a recording from `input` and prints its lines to `output`. `audit` reads an audit file from
/// `input` to its end, and prints to `output` what is found of it. `client` reads a client's
/// script from `input` to its end, opens the folders that it names by `folders`, serves its devices on one channel of `linker` after the other, closes
/// the folders, and then writes to `output` how many requests each device ran; `linker` is to dial the path, `clock` tells the moments of the requests,
/// and each worker passes `gate`. `host` reads a host's script from `input` to its end, plays it on one channel of `linker` after the other, and then
/// writes to `output` what came of each line; `linker` is to listen at the path. No other command uses these. `books` is to be empty; a session of `both`, `trace`, `load` or `client` that comes to its end stores its
/// devices' journals there. `notes` is for people: it gets the usage where the words are no command, what is wrong with a line of a script or on a
/// channel, which folder can't be opened, why lines did nothing, and what was found of an audit file.
///
/// | status | comes where |
/// |---|---|
/// | 0 | the script, or that of the load, was played to its end; the client's channels came to their ends; the input is a recording; all of an audit file belongs together (`yes`) |
/// | 1 | the words are no command (`bad words` on `output`), or a line of the script is refused (`line N WHY`) |
/// | 2 | a read of the input failed |
/// | 3 | a write to the output or the recording failed |
/// | 4 | what should be a recording or an audit file has a fault (`fault at A WHY`), or what came on a channel (`channel C at A WHY`) |
/// | 5 | a channel couldn't be had, or a read or a write on it failed |
/// | 6 | memory ran out |
/// | 7 | what should be a recording, or came on a channel, has 2^40 bytes or more, or what should be an audit file more than 2^30 (`long`) |
/// | 8 | a folder that a client's script names couldn't be opened |
/// | 9 | something of an audit file doesn't belong (`auditing` has the lines) |
///
/// The first of these events ends the run. A last line that can't be written leaves the status as it is.
pub fn run<
    S: Source,
    K: Sink,
    R: Sink,
    N: Sink,
    T: Threads + Wait + Sync,
    L: Linker,
    D: Folders,
    C: Clock + Sync,
    G: Gate + Sync,
>(
    rt: &T,
    alloc: Global,
    words: &[String],
    input: &mut S,
    output: &mut K,
    recording: &mut R,
    notes: &mut N,
    linker: &mut L,
    folders: &mut D,
    clock: &C,
    gate: &G,
    books: &mut Books,
) -> u8
    requires { books.old ≡ [] }
    ensures { IsEnd (map string_bytes words.now)
        (outside S.left S.faults K.held K.faults R.held R.faults input.old output.old recording.old)
        (outside S.left S.faults K.held K.faults R.held R.faults input.new output.new recording.new)
        (linked_by L.linked L.failures L.trouble (C.moment clock.now) linker.old) (linked_by L.linked L.failures L.trouble (C.moment clock.now) linker.new)
        (sharing_by D.opened D.failures D.trouble folders.old) (sharing_by D.opened D.failures D.trouble folders.new) books.new result }
{
    match command_of(alloc, words) {
        Ok(Command::Both) => both(alloc, input, output, recording, notes, books),
        Ok(Command::Trace) => trace(alloc, input, output, recording, notes, books),
        Ok(Command::Decode) => decode(alloc, input, output),
        Ok(Command::Audit) => audit(alloc, input, output, notes),
        Ok(Command::Load(number)) => load(alloc, number, output, recording, books),
        Ok(Command::Client(_)) => client(
            rt, alloc, input, output, notes, linker, folders, clock, gate, books,
        ),
        Ok(Command::Host(_)) => host(rt, alloc, input, output, notes, linker),
        Err(stop) => {
            if let Stop::Words = stop {
                note_usage(notes);
            }
            end(alloc, output, stop)
        }
    }
}

/// Runs the command that the words are, once, and returns the program's exit status (`run` has the table). `words` are an error where no
/// memory was found for them: then nothing is read or written but a note.
pub fn program<
    S: Source,
    K: Sink,
    R: Sink,
    N: Sink,
    T: Threads + Wait + Sync,
    L: Linker,
    D: Folders,
    C: Clock + Sync,
    G: Gate + Sync,
>(
    rt: &T,
    alloc: Global,
    words: Result<&[String], AllocError>,
    input: &mut S,
    output: &mut K,
    recording: &mut R,
    notes: &mut N,
    linker: &mut L,
    folders: &mut D,
    clock: &C,
    gate: &G,
) -> ExitCode
    ensures ends { IfOk words.entry (λ words. EndsProgram (map string_bytes words.now)
        (outside S.left S.faults K.held K.faults R.held R.faults input.old output.old recording.old)
        (outside S.left S.faults K.held K.faults R.held R.faults input.new output.new recording.new)
        (linked_by L.linked L.failures L.trouble (C.moment clock.now) linker.old) (linked_by L.linked L.failures L.trouble (C.moment clock.now) linker.new)
        (sharing_by D.opened D.failures D.trouble folders.old) (sharing_by D.opened D.failures D.trouble folders.new) (exit_status result)) }
    ensures untouched { IsErr words.entry → EndsUntouched
        (outside S.left S.faults K.held K.faults R.held R.faults input.old output.old recording.old)
        (outside S.left S.faults K.held K.faults R.held R.faults input.new output.new recording.new)
        (linked_by L.linked L.failures L.trouble (C.moment clock.now) linker.old) (linked_by L.linked L.failures L.trouble (C.moment clock.now) linker.new)
        (sharing_by D.opened D.failures D.trouble folders.old) (sharing_by D.opened D.failures D.trouble folders.new) (exit_status result) }
{
    let mut books = Books::new(alloc);
    let status = match words {
        Ok(words) => run(
            rt, alloc, words, input, output, recording, notes, linker, folders, clock, gate,
            &mut books,
        ),
        Err(_) => Stop::Memory.status(),
    };
    if status == Stop::Memory.status() {
        let _ = write_all(notes, b"rdr: out of memory\n");
    }
    ExitCode::from(status)
}
