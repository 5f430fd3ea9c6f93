//! The command `client`: the devices of a script, read whole, are served on one channel after the other. Its drives over folders are opened before.

ghost use Rattle.std.specs.Prelude.{◌≡◌, [], IfOk};
ghost use Rattle.rd_cli.specs.Client.{IsEndOfClient};
ghost use Rattle.rd_cli.specs.Outside.{linked_by, sharing_by, stream};
ghost use Rattle.rd_script.specs.Report.{device_lines};

use crate::channel_notes::note_channel;
use crate::ending::end;
use crate::input::input_script;
use crate::notes::note_folder;
use crate::serving::end_served;
use crate::stop::Stop;
use rd_base::{Books, Sink, Source};
use rd_folder::Folders;
use rd_link::{Clock, Gate, Linker};
use rd_script::{Mode, Outcomes, Script, report};
use rd_workers::{ClientEnded, serve_client};
use std::alloc::{AllocError, Global};
use std::sync::Wait;
use std::thread::Threads;

/// Serves the devices of the input's script, prints a line for each, and returns the exit status (`serving` has the table).
pub fn client<
    S: Source,
    K: Sink,
    N: Sink,
    T: Threads + Wait + Sync,
    L: Linker,
    D: Folders,
    C: Clock + Sync,
    G: Gate + Sync,
>(
    rt: &T,
    alloc: Global,
    input: &mut S,
    output: &mut K,
    notes: &mut N,
    linker: &mut L,
    folders: &mut D,
    clock: &C,
    gate: &G,
    books: &mut Books,
) -> u8
    requires { books.old ≡ [] }
    ensures { IsEndOfClient (stream S.left S.faults input.old) (stream S.left S.faults input.new)
        (stream K.held K.faults output.old) (stream K.held K.faults output.new)
        (linked_by L.linked L.failures L.trouble (C.moment clock.now) linker.old) (linked_by L.linked L.failures L.trouble (C.moment clock.now) linker.new)
        (sharing_by D.opened D.failures D.trouble folders.old) (sharing_by D.opened D.failures D.trouble folders.new) books.new result }
{
    match input_script(alloc, Mode::Client, input, notes) {
        Ok(script) => match serve_client(rt, alloc, &script, linker, folders, clock, gate, books) {
            ClientEnded::Ended(ended) => {
                note_channel(alloc, notes, "host", ended);
                let text = device_text(alloc, &script, books);
                end_served(alloc, text, ended, output)
            }
            ClientEnded::Folder { device } => {
                note_folder(alloc, notes, script.lines.as_slice(), device);
                Stop::Folder.status()
            }
        },
        Err(stop) => end(alloc, output, stop),
    }
}

/// The lines of the devices: the report of a session that has nothing else to tell.
fn device_text(alloc: Global, script: &Script, books: &Books) -> Result<Vec<u8>, AllocError>
    ensures { IfOk result (λ text. text.items ≡ device_lines script.now.lines books.now) }
{
    let told = Outcomes::new(alloc);
    Ok(report(alloc, script, &told, books)?.into_vec())
}
