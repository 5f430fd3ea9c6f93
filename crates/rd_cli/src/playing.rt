//! Plays a script: both sides of its session in one state.

ghost use Rattle.std.specs.Prelude.{◌≡◌, [], IfErr, IfOk};
ghost use Rattle.rd_cli.specs.Headline.{Played, PlayedAs};
ghost use Rattle.rd_cli.specs.Outside.{stream};
ghost use Rattle.rd_cli.specs.Playing.{HasPlayed, StopsForRecording};
ghost use Rattle.rd_headline.specs.LoadsAllPremises.{MeetPremises};
ghost use Rattle.rd_script.specs.Report.{AreCountable};

use crate::stop::Stop;
use rd_base::{Books, Calls, MemSink, Sink, write_all};
use rd_script::{Outcomes, Script};
use rd_world::{Recorder, World};
use std::alloc::Global;

/// Plays a script: its session goes to the recording while it is played, and the devices' journals into the books at its end.
pub fn play<R: Sink>(
    alloc: Global,
    script: &Script,
    recording: &mut R,
    books: &mut Books,
) -> Result<Outcomes, Stop>
    requires books { books.old ≡ [] }
    requires script { MeetPremises script.now.lines }
    ensures countable { IfOk result (λ told. AreCountable told.lines.entries) }
    ensures played { IfOk result (Played script.now (stream R.held R.faults recording.old) (stream R.held R.faults recording.new) books.new) }
    ensures err { IfErr result (StopsForRecording script.now (stream R.held R.faults recording.old) (stream R.held R.faults recording.new) books.new) }
{
    let world = session_of(alloc, script, recording)?;
    Ok(world.finish(books)?)
}

/// The same, with the recording kept: it is written once it is whole, and returned too.
pub fn play_kept<R: Sink>(
    alloc: Global,
    script: &Script,
    recording: &mut R,
    books: &mut Books,
) -> Result<(Outcomes, MemSink), Stop>
    requires books { books.old ≡ [] }
    requires script { MeetPremises script.now.lines }
    ensures played { IfOk result (λ kept. PlayedAs (kept.1).held script.now (stream R.held R.faults recording.old) (stream R.held R.faults recording.new) books.new kept.0) }
    ensures err { IfErr result (StopsForRecording script.now (stream R.held R.faults recording.old) (stream R.held R.faults recording.new) books.new) }
{
    let mut kept = MemSink::new(alloc, Calls::of(Vec::new(alloc)));
    // Nothing but want of memory ends it: each write to such a sink finds memory or fails.
    let Ok(world) = session_of(alloc, script, &mut kept) else {
        return Err(Stop::Memory);
    };
    let Ok(()) = write_all(recording, kept.bytes()) else {
        return Err(Stop::Recording);
    };
    Ok((world.finish(books)?, kept))
}

/// Plays a script up to the end of its session, which goes to the recording meanwhile.
fn session_of<'s, R: Sink>(
    alloc: Global,
    script: &'s Script,
    recording: &mut R,
) -> Result<World<'s>, Stop>
    requires { MeetPremises script.now.lines }
    ensures played { IfOk result (HasPlayed script.now (stream R.held R.faults recording.old) (stream R.held R.faults recording.new)) }
    ensures err { IfErr result (StopsForRecording script.now (stream R.held R.faults recording.old) (stream R.held R.faults recording.new) []) }
{
    let lines = script.lines.as_slice();
    let mut recorder = Recorder::new(alloc)?;
    let mut world = World::new(alloc, lines)?;
    world.run(lines, &mut recorder, recording)?;
    Ok(world)
}
