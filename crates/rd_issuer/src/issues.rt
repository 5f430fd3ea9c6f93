//! An application issues its lines.

ghost use Rattle.std.specs.Prelude.{◌≡◌, ◌<◌, ◌++◌, ◌∷◌, [], length, is_ok, false, true, Some, IfOk, OnOk};
ghost use Rattle.rd_pending.specs.Table.{TableState, new_table};
ghost use Rattle.rd_table.specs.Calls.{PendingStep};
ghost use Rattle.rd_table.specs.declared.calls.PendingCall.TheVariants as Ask;
ghost use Rattle.rd_turn.specs.History.{calls_of, entry};
ghost use Rattle.rd_turn.specs.Pass.{IsSamePass};
ghost use Rattle.rd_world.specs.Events.{may_issue};
ghost use Rattle.rd_issuer.specs.Issues.{Goes, Rests};

use crate::answers::{given_handle, is_patient, refusal_of, reported_outcome};
use rd_pending::TakeNo;
use rd_script::{Outcome, Refusal};
use rd_sleepers::Sleepers;
use rd_table::{PendingCall, PendingReply, Table};
use rd_turn::Caller;
use rd_world::{Application, op_of};
use std::alloc::AllocError;
use std::sync::Wait;

/// Issues the lines of an application, one after the other, and waits for the outcome of each, until all to which the script came have one, or the next one waits that is patient and has
/// none yet. Where memory runs out it stops.
pub fn issue_lines<T: Wait>(
    rt: &T,
    table: &mut Caller<'_, Table>,
    sleepers: &Sleepers,
    number: u32,
    application: &mut Application<'_>,
) -> Result<(), AllocError>
    ensures turn { table.new.turn.now ≡ table.old.turn.now }
    ensures goes { Goes number (is_ok result) application.old application.new table.old.pass table.new.pass }
    ensures rests { OnOk result (Rests application.new (calls_of table.new.pass.number table.new.pass.seen)) }
{
    for _ in rt.forever() {
        if !issue_or_take(rt, table, sleepers, number, application)? {
            return Ok(());
        }
    }
    unreachable!()
}

/// Does one thing. False where nothing is left to be done now.
fn issue_or_take<T: Wait>(
    rt: &T,
    table: &mut Caller<'_, Table>,
    sleepers: &Sleepers,
    number: u32,
    application: &mut Application<'_>,
) -> Result<bool, AllocError>
    ensures turn { table.new.turn.now ≡ table.old.turn.now }
    ensures goes { Goes number (is_ok result) application.old application.new table.old.pass table.new.pass }
    ensures rests { IfOk result (λ more. more ≡ false → Rests application.new (calls_of table.new.pass.number table.new.pass.seen)) }
{
    if let Some(request) = application.awaits() {
        return take(rt, table, sleepers, number, application, request);
    }
    if !application.may_issue() {
        return Ok(false);
    }
    issue(rt, table, sleepers, number, application)?;
    Ok(true)
}

/// Issues the next line, and wakes whoever sends its request.
fn issue<T: Wait>(
    rt: &T,
    table: &mut Caller<'_, Table>,
    sleepers: &Sleepers,
    number: u32,
    application: &mut Application<'_>,
) -> Result<(), AllocError>
    requires { may_issue application.old ≡ true }
    ensures turn { table.new.turn.now ≡ table.old.turn.now }
    ensures goes { Goes number (is_ok result) application.old application.new table.old.pass table.new.pass }
{
    let line = application.next();
    let Some(target) = application.target(line) else {
        return application.end_line(Outcome::Refused(Refusal::NoHandle), None);
    };
    let Some(op) = op_of(line)? else {
        unreachable!()
    };
    let call = PendingCall::Submit {
        app: number,
        target,
        op,
    };
    match call_table(rt, table, call) {
        PendingReply::Submitted(Ok(request)) => {
            sleepers.ring_request(rt);
            application.await_outcome(request);
            Ok(())
        }
        PendingReply::Submitted(Err(cause)) => {
            application.end_line(Outcome::Refused(refusal_of(cause)?), None)
        }
        // What a script asks for can be asked.
        _ => Err(AllocError),
    }
}

/// Takes the outcome that the application awaits, or sleeps until it may be there. False where it waits that is patient.
fn take<T: Wait>(
    rt: &T,
    table: &mut Caller<'_, Table>,
    sleepers: &Sleepers,
    number: u32,
    application: &mut Application<'_>,
    request: u64,
) -> Result<bool, AllocError>
    requires awaits { application.old.awaits ≡ Some request }
    requires queued { length application.old.outcomes < application.old.queued }
    ensures turn { table.new.turn.now ≡ table.old.turn.now }
    ensures goes { Goes number (is_ok result) application.old application.new table.old.pass table.new.pass }
    ensures rests { IfOk result (λ more. more ≡ false → Rests application.new (calls_of table.new.pass.number table.new.pass.seen)) }
{
    let times = sleepers.outcomes(rt, request);
    let line = application.next();
    match call_table(rt, table, PendingCall::Take(request)) {
        PendingReply::Taken(Ok(taken)) => {
            let given = given_handle(&taken);
            application.end_line(reported_outcome(taken), given)?;
            Ok(true)
        }
        PendingReply::Taken(Err(TakeNo::NotYet)) => {
            if is_patient(line) {
                return Ok(false);
            }
            sleepers.wait_for_outcome(rt, request, times);
            Ok(true)
        }
        // What is awaited is known.
        PendingReply::Taken(Err(TakeNo::Unknown)) => Err(AllocError),
        _ => unreachable!(),
    }
}

/// A call of the table, with its reply.
fn call_table<T: Wait>(rt: &T, table: &mut Caller<'_, Table>, call: PendingCall) -> PendingReply
    ensures turn { table.new.turn.now ≡ table.old.turn.now }
    ensures same { IsSamePass table.old.pass table.new.pass }
    ensures called { calls_of table.old.pass.number table.new.pass.seen ≡ calls_of table.old.pass.number table.old.pass.seen ++ entry table.old.pass.number call result ∷ [] }
    ensures replied { (before : TableState) × (after : TableState) × PendingStep before call result after }
{
    table.call(rt, call)
}
