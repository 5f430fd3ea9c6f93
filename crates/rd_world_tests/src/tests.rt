//! That calls find memory when there is ample, that messages come off a channel one at a time, that a session opens its channel, and that a script is
//! played to its end.
ghost use Rattle.std.specs.Prelude.{◌≡◌, false};
ghost use Rattle.rd_world.specs.Applications.{AreNumbered};
ghost use Rattle.rd_declared.specs.Declaring.{AreDeclared, AreNotable};

use rd_base::{Books, Calls, MemSink};
use rd_script::{Mode, Script, read_script};
use rd_world::{Event, Host, Recorder, Way, World, found_told};
use std::alloc::{AllocError, Global};
use std::process::Abort;

#[test]
fn makes_outcomes_of_the_worked_session(rt: HostRuntime) {
    let told = found_told(rt.alloc()).expect(&rt, "memory for four outcomes");
    assert_eq!(&rt; told.lines.len(), 4);
    assert_eq!(&rt; told.idle.len(), 0);
    assert_eq!(&rt; told.documents.len(), 0);
    assert_eq!(&rt; told.cache.len(), 0);
}

/// Reads so many pieces of `step` bytes, and appends each message that comes, and a `/` after it.
fn read_by(
    way: &mut Way,
    step: usize,
    pieces: usize,
    messages: &mut Vec<u8>,
) -> Result<(), AllocError>
    requires { way.old.ended ≡ false }
{
    for _ in 0..pieces {
        way.read(way.len().min(step));
        if let Some(message) = way.handle()? {
            messages.extend_from_slice(message.as_slice())?;
            messages.push(b'/')?;
        }
    }
    Ok(())
}

#[test]
fn takes_two_messages_in_pieces(rt: HostRuntime) {
    let mut way = Way::new(rt.alloc());
    way.carry(b"rDnI").expect(&rt, "memory for a frame");
    way.carry(b"rDCC with data")
        .expect(&rt, "memory for a frame");
    let mut messages = Vec::new(rt.alloc());
    read_by(&mut way, 5, 9, &mut messages).expect(&rt, "memory for two messages");
    assert_eq!(&rt;
        (messages.as_slice(), way.len(), way.joiner().taken()),
        (b"rDnI/rDCC with data/".as_slice(), 0, 42)
    );
}

#[test]
fn a_host_opens_and_ends_a_channel(rt: HostRuntime) {
    let mut host = Host::new(rt.alloc(), 1).expect(&rt, "memory for a host");
    host.begin(1).expect(&rt, "memory for an announce");
    let announce = host.send().expect(&rt, "an announce");
    assert_eq!(&rt;
        announce.as_slice(),
        b"rDnI\x01\0\x0c\0\x01\0\0\0".as_slice()
    );
    host.hear(b"rDCC\x01\0\x0c\0\x01\0\0\0")
        .expect(&rt, "a confirm is heard");
    host.hear(b"rDNC\x01\0\0\0\0\0\0\0\x08\0\0\0R\0R\0R\0\0\0")
        .expect(&rt, "a name is heard");
    let sent = (host.is_open(), host.is_ready(), host.has_message());
    host.end();
    assert_eq!(&rt;
        (sent, host.is_open(), host.has_message()),
        ((true, false, true), false, false)
    );
}

/// What a recording begins with, and the host's announce in a frame.
const ANNOUNCED: &[u8] = b"RDRREC01\x02\0\x14\0\0\0\x0c\0\0\0\x03\0\0\0rDnI\x01\0\x0c\0\x01\0\0\0";

/// The script that a text is.
fn script_in(rt: &impl Abort, alloc: Global, text: &[u8]) -> Script
    ensures declared { AreDeclared result.lines }
    ensures numbered { AreNumbered result.lines }
    ensures notable { AreNotable result.lines }
{
    read_script(alloc, Mode::Both, text).expect(rt, "a script")
}

#[test]
fn a_session_opens_a_channel(rt: HostRuntime) {
    let script = script_in(&rt, rt.alloc(), b"drive 1 DATA\n");
    let lines = script.lines.as_slice();
    let mut world = World::new(rt.alloc(), lines).expect(&rt, "memory for a session");
    let mut recorder = Recorder::new(rt.alloc()).expect(&rt, "memory for a recording");
    let mut wire = MemSink::new(rt.alloc(), Calls::of(Vec::new(rt.alloc())));
    let early = world.enabled(&Event::HostSend);
    world
        .step(Event::Connect, &mut recorder)
        .expect(&rt, "a channel begins");
    world
        .settle(&mut recorder, &mut wire)
        .expect(&rt, "both ends open the channel");
    recorder
        .write_all(&mut wire)
        .expect(&rt, "the recording is written");
    let late = world.enabled(&Event::ClientSend);
    let dropped = world.enabled(&Event::Drop);
    let recorded = wire.bytes().starts_with(ANNOUNCED);
    assert_eq!(&rt;
        (early, late, dropped, recorded),
        (false, false, true, true)
    );
}

/// A drive that is removed while an application reads.
const REMOVED: &[u8] = b"drive 1 DATA
file 1 \\a 61
connect
1 open h 1 \\a
settle
1 read h 0 1
do issue 1
remove 1
";

#[test]
fn a_script_is_played_to_its_end(rt: HostRuntime) {
    let script = script_in(&rt, rt.alloc(), REMOVED);
    let lines = script.lines.as_slice();
    let mut world = World::new(rt.alloc(), lines).expect(&rt, "memory for a session");
    let mut recorder = Recorder::new(rt.alloc()).expect(&rt, "memory for a recording");
    let mut wire = MemSink::new(rt.alloc(), Calls::of(Vec::new(rt.alloc())));
    world
        .run(lines, &mut recorder, &mut wire)
        .expect(&rt, "the script is played");
    let mut books = Books::new(rt.alloc());
    let told = world
        .finish(&mut books)
        .expect(&rt, "memory for what is told");
    assert_eq!(&rt;
        (told.lines.len(), told.idle.as_slice()),
        (2, [3].as_slice())
    );
    assert!(&rt; wire.bytes().starts_with(ANNOUNCED) && books.journal(1).is_some());
}
