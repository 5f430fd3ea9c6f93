//! Two applications beside each other and a client beside them, on real threads. Want of memory never comes, as no test takes the memory away.

ghost use Rattle.std.specs.Prelude.{◌≡◌};
ghost use Rattle.rd_turn.specs.Pass.{Belongs};
ghost use Rattle.rd_world.specs.Applications.{AreNumbered};

use crate::client::complete;
use crate::session::{issue, run};
use rd_base::Status;
use rd_irp::Kind;
use rd_issuer::Issuer;
use rd_script::{Mode, NumberedLine, Outcome, Script, read_script};
use rd_sleepers::Sleepers;
use rd_table::{PendingCall, Table};
use rd_turn::{Caller, Pass, Turn};
use rd_world::{Application, Applications};
use std::alloc::{AllocError, Global};
use std::process::Abort;
use std::sync::Wait;

/// How many lines each application has.
const LINES: u32 = 2;

/// The script of a host that a text is.
fn script_in(rt: &impl Abort, alloc: Global, text: &[u8]) -> Script
    ensures { AreNumbered result.lines }
{
    read_script(alloc, Mode::Host, text).expect(rt, "a script")
}

/// The script comes to all lines of an application.
fn queued(application: Application<'_>) -> Application<'_> {
    let mut application = application;
    for _ in 0..LINES {
        if application.may_queue() {
            application.queue();
        }
    }
    application
}

/// The applications of a script.
fn issuers_of<'s>(alloc: Global, lines: &'s [NumberedLine]) -> Result<Vec<Issuer<'s>>, AllocError>
    requires { AreNumbered lines.now }
{
    let mut issuers = Vec::new(alloc);
    for (number, application) in Applications::new(alloc, lines)?.finish() {
        let application = queued(application);
        issuers.push(Issuer {
            number,
            application,
        })?;
    }
    Ok(issuers)
}

/// A table with a channel on which device 1 is there.
fn open_table<R: Abort + Wait>(rt: &R, alloc: Global) -> (Turn<Table>, Pass<Table>)
    ensures own { Belongs result.0 result.1 }
    ensures first { result.1.number ≡ 0 }
    ensures made { result.1.made ≡ 0 }
{
    let table = Table::new(alloc).expect(rt, "memory for a table");
    let Ok((turn, mut pass)) = Turn::new(alloc, table) else {
        panic!(rt; "memory for a turn")
    };
    turn.call(rt, &mut pass, PendingCall::Begin(1));
    turn.call(rt, &mut pass, PendingCall::Live(1));
    (turn, pass)
}

/// Whether a line's request was completed with success.
fn is_done(outcome: &Outcome) -> bool {
    matches!(outcome, Outcome::Done(reply) if reply.status == Status::SUCCESS)
}

/// The applications' numbers, and how many lines of each were done.
fn done_lines(alloc: Global, issuers: Vec<Issuer<'_>>) -> Result<Vec<(u32, usize)>, AllocError> {
    let mut done = Vec::new(alloc);
    for issuer in issuers {
        let Issuer {
            number,
            application,
        } = issuer;
        let outcomes = application.finish();
        let count = outcomes.iter().filter(|outcome| is_done(outcome)).count();
        done.push((number, count))?;
    }
    Ok(done)
}

/// The client completes nothing until both applications' first requests were handed out, so neither of them waits for the other.
#[test]
fn two_applications_issue_beside_each_other(rt: HostRuntime) {
    let alloc = rt.alloc();
    let script = script_in(
        &rt,
        alloc,
        b"1 open h 1 \\a\n1 close h\n2 open h 1 \\b\n2 close h\n",
    );
    let issuers = issuers_of(alloc, script.lines.as_slice()).expect(&rt, "memory for two");
    assert_eq!(&rt; issuers.len(), 2);
    let sleepers = Sleepers::new(alloc).expect(&rt, "memory for places to sleep");
    let (turn, pass) = open_table(&rt, alloc);
    let (session, pass) = run(&rt, alloc, &turn, pass, &sleepers, issuers, 2);
    assert_eq!(&rt; pass.out(), 0);
    turn.close(pass);
    let issuers = session.issuers.expect(&rt, "memory for two threads");
    let done = done_lines(alloc, issuers).expect(&rt, "memory for two counts");
    assert_eq!(&rt; done.as_slice(), [(1, 2), (2, 2)].as_slice());
}

/// An application that waits for news of a folder rests, so both come back; and once there are news it goes on.
#[test]
fn one_application_rests_and_goes_on(rt: HostRuntime) {
    let alloc = rt.alloc();
    let script = script_in(
        &rt,
        alloc,
        b"1 open h 1 -\n1 notify h 0 1\n2 open h 1 \\b\n2 close h\n",
    );
    let issuers = issuers_of(alloc, script.lines.as_slice()).expect(&rt, "memory for two");
    assert_eq!(&rt; issuers.len(), 2);
    let sleepers = Sleepers::new(alloc).expect(&rt, "memory for places to sleep");
    let (turn, pass) = open_table(&rt, alloc);
    let (session, pass) = run(&rt, alloc, &turn, pass, &sleepers, issuers, 2);
    let issuers = session.issuers.expect(&rt, "memory for two threads");
    let left = session.left.expect(&rt, "a request for news");
    assert_eq!(&rt; (issuers.len(), pass.made()), (2, 3));
    assert!(&rt; issuers[0].application.awaits().is_some());
    let mut table = Caller::new(&turn, pass);
    complete(&rt, alloc, &mut table, &sleepers, left, Kind::Buffer);
    let pass = table.into_pass();
    assert_eq!(&rt; pass.made(), 3);
    let (issuers, pass) = issue(&rt, alloc, &turn, pass, &sleepers, issuers);
    assert_eq!(&rt; pass.out(), 0);
    turn.close(pass);
    let issuers = issuers.expect(&rt, "memory for two threads");
    let done = done_lines(alloc, issuers).expect(&rt, "memory for two counts");
    assert_eq!(&rt; done.as_slice(), [(1, 2), (2, 2)].as_slice());
}
