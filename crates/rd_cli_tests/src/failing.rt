//! Reads, writes and connections that fail, each in turn, until a command comes to its end with none.
use crate::frames::{ANNOUNCE, CLIENT_SETS, CONFIRM, CREATE, HOST_SETS, LIST, LOGGED_ON, NAME};
use crate::outside::{Failing, Frames, Kind, Outside, Remains, strings};
use std::alloc::AllocError;
use std::process::Abort;
use std::sync::Wait;
use std::test::Fail;
use std::thread::Threads;

/// As many calls are made to fail at most.
const MOST: u64 = 64;

/// A command, its script, and what each of its two channels has.
#[derive(Clone, Copy)]
struct Session {
    words: &'static [&'static str],
    script: &'static [u8],
    channel: Frames,
}

/// What is recorded of it goes out in pieces.
const BOTH: Session = Session {
    words: &["both"],
    script: b"drive 1 DATA\nfill 1 \\big 65536 0x41\n1 open h 1 \\big\n1 read h 0 65536\n1 read h 0 65536\n",
    channel: &[],
};

const CLIENT: Session = Session {
    words: &["client", "rdr.sock"],
    script: b"channels 2\ndrive 1 DATA\nfile 1 \\a.txt 61\n",
    channel: &[ANNOUNCE, HOST_SETS, CONFIRM, LOGGED_ON, CREATE],
};

/// Each of its lines may be issued or not before its channel ends.
const HOST: Session = Session {
    words: &["host", "rdr.sock"],
    script: b"1 open h 1 \\a.txt\ndrop\nconnect\n1 open h 1 \\a.txt\n",
    channel: &[CONFIRM, NAME, CLIENT_SETS, LIST],
};

/// What a session leaves.
fn left_by(
    rt: &(impl Threads + Wait + Sync + AllocGlobal),
    session: &Session,
    fails: Failing,
) -> Result<Remains, AllocError> {
    let alloc = rt.alloc();
    let words = strings(alloc, session.words)?;
    let channels = [session.channel; 2];
    let outside = Outside::new(alloc, session.script, &channels, &[fails])?;
    Ok(outside.run(rt, alloc, words.as_slice()))
}

/// Whether what a command wrote is a prefix of what another one did.
fn is_prefix(left: &Remains, whole: &Remains) -> bool {
    whole.output.bytes().starts_with(left.output.bytes())
        && whole.recording.bytes().starts_with(left.recording.bytes())
}

/// The status to which a session comes, and whether it wrote a prefix of what the whole one did, if that is given.
fn came_of(
    rt: &(impl Threads + Wait + Sync + AllocGlobal),
    session: &Session,
    fails: Failing,
    whole: Option<&Remains>,
) -> Result<(u8, bool), AllocError> {
    let left = left_by(rt, session, fails)?;
    let is_within = match whole {
        Some(whole) => is_prefix(&left, whole),
        None => true,
    };
    Ok((left.status, is_within))
}

/// The first run that doesn't come to this status or writes what it shouldn't, where in each run the next call of a kind fails: its number, its status,
/// and whether it wrote what it should.
fn first_other(
    rt: &(impl Threads + Wait + Sync + AllocGlobal),
    session: &Session,
    (kind, status): (Kind, u8),
    whole: Option<&Remains>,
) -> Result<(u64, u8, bool), AllocError> {
    for number in 1..=MOST {
        let (came, is_within) = came_of(rt, session, (kind, number), whole)?;
        if came != status || !is_within {
            return Ok((number, came, is_within));
        }
    }
    Ok((MOST, status, true))
}

/// A channel that can't be had, or fails, ends the command in its time with status 5. A writer may leave before the call that fails, so the first run may
/// already be a whole one.
#[test]
fn ends_with_5_up_to_the_whole_run(rt: HostRuntime) -> Result<(), Fail> {
    for session in [CLIENT, HOST] {
        for (kind, least) in [(Kind::Connect, 3), (Kind::Read, 2), (Kind::Write, 1)] {
            let came = first_other(&rt, &session, (kind, 5), None)?;
            assert!(rt; came.0 >= least && came.1 == 0, "{kind:?}, {came:?}");
        }
    }
    Ok(())
}

/// What is written up to a failure is a prefix of the bytes of the whole run.
#[test]
fn writes_a_prefix_up_to_a_failure(rt: HostRuntime) -> Result<(), Fail> {
    let whole = left_by(&rt, &BOTH, (Kind::Input, 0))?;
    for (kind, status, least) in [
        (Kind::Input, 2, 3),
        (Kind::Output, 3, 2),
        (Kind::Recording, 3, 3),
    ] {
        let came = first_other(&rt, &BOTH, (kind, status), Some(&whole))?;
        assert!(rt;
            came.0 >= least && came.1 == 0 && came.2,
            "{kind:?}, {came:?}"
        );
    }
    Ok(())
}
