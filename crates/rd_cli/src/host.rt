//! The command `host`: the applications' lines of a script, read whole, are played on one channel after the other.

ghost use Rattle.std.specs.Prelude.{◌≡◌, ℕ, [], IfOk, Option};
ghost use Rattle.std.specs.List.{flat_map};
ghost use Rattle.rd_cli.specs.Host.{IsEndOfHost};
ghost use Rattle.rd_cli.specs.Outside.{linked_by, stream};
ghost use Rattle.rd_script.specs.Report.{AreCountable, outcome_line};

use crate::channel_notes::note_channel;
use crate::ending::end;
use crate::input::input_script;
use crate::serving::end_served;
use rd_base::{Books, Sink, Source};
use rd_host_session::serve_host;
use rd_link::Linker;
use rd_script::{Mode, Outcome, Outcomes, Script, report};
use std::alloc::{AllocError, Global};
use std::collections::BTreeMap;
use std::sync::Wait;
use std::thread::Threads;

/// Plays the input's script, prints what came of each line of an application, and returns the exit status (`serving` has the table). No request runs here,
/// so the contract holds whatever moment a clock tells.
pub fn host<S: Source, K: Sink, N: Sink, T: Threads + Wait + Sync, L: Linker>(
    rt: &T,
    alloc: Global,
    input: &mut S,
    output: &mut K,
    notes: &mut N,
    linker: &mut L,
) -> u8
    ensures { (moment : Option ℕ) → IsEndOfHost (stream S.left S.faults input.old) (stream S.left S.faults input.new)
        (stream K.held K.faults output.old) (stream K.held K.faults output.new)
        (linked_by L.linked L.failures L.trouble moment linker.old) (linked_by L.linked L.failures L.trouble moment linker.new) result }
{
    match input_script(alloc, Mode::Host, input, notes) {
        Ok(script) => {
            let (ended, told) = serve_host(rt, alloc, &script, linker);
            note_channel(alloc, notes, "client", ended);
            let text = outcome_text(alloc, &script, told);
            end_served(alloc, text, ended, output)
        }
        Err(stop) => end(alloc, output, stop),
    }
}

/// The lines of the outcomes: the report of a session that has nothing else to tell.
fn outcome_text(
    alloc: Global,
    script: &Script,
    told: BTreeMap<(u32, u32), Outcome>,
) -> Result<Vec<u8>, AllocError>
    requires { AreCountable told.entries }
    ensures { IfOk result (λ text. text.items ≡ flat_map (outcome_line script.now.lines) told.entries) }
{
    let told = outcomes_of(alloc, told);
    Ok(report(alloc, script, &told, &Books::new(alloc))?.into_vec())
}

/// The outcomes of these lines, and nothing else.
fn outcomes_of(alloc: Global, told: BTreeMap<(u32, u32), Outcome>) -> Outcomes
    ensures lines { result.lines ≡ told }
    ensures idle { result.idle.items ≡ [] }
    ensures documents { result.documents.entries ≡ [] }
    ensures cache { result.cache.entries ≡ [] }
{
    Outcomes {
        lines: told,
        idle: Vec::new(alloc),
        documents: BTreeMap::new(alloc),
        cache: BTreeMap::new(alloc),
    }
}
