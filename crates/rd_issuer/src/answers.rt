//! What an application reads off the table's answers.

ghost use Rattle.std.specs.Prelude.{◌≡◌, ◌≢◌, IfOk};
ghost use Rattle.rd_pending.specs.Known.{IsKnown};
ghost use Rattle.rd_pending.specs.declared.calls.SubmitNo.TheVariants as Cause;
ghost use Rattle.rd_script.specs.Report.{IsCountableOutcome};
ghost use Rattle.rd_world.specs.Events.{refusal_of};
ghost use Rattle.rd_world.specs.Hearing.{given_handle, reported_outcome};
ghost use Rattle.rd_world.specs.World.{Asked};
ghost use Rattle.rd_world.specs.Applications.{AsksFor};
ghost use Rattle.rd_issuer.specs.Issues.{is_patient};

use rd_base::Status;
use rd_irp::Body;
use rd_pending::{Handle, SubmitNo, Taken};
use rd_script::{Line, Outcome, Refusal};
use std::alloc::AllocError;

/// Why a line whose request isn't accepted is refused. Want of memory is no cause.
pub(crate) fn refusal_of(cause: SubmitNo) -> Result<Refusal, AllocError>
    ensures why { IfOk result (λ why. why ≡ refusal_of cause) }
    ensures memory { IfOk result (λ why. cause ≢ Cause.Memory) }
{
    match cause {
        SubmitNo::NoChannel => Ok(Refusal::NoChannel),
        SubmitNo::NoDevice => Ok(Refusal::NoDevice),
        SubmitNo::StaleHandle { .. } => Ok(Refusal::StaleHandle),
        SubmitNo::Full { .. } => Ok(Refusal::Full),
        SubmitNo::Worn { .. } => Ok(Refusal::Worn),
        SubmitNo::Memory => Err(AllocError),
    }
}

/// What an open gives its handle: the file id of a device in a life.
pub(crate) fn given_handle(taken: &Taken) -> Option<Handle>
    ensures { result ≡ given_handle taken.now }
{
    let rd_pending::Outcome::Done(reply) = &taken.outcome else {
        return None;
    };
    match reply.body {
        Body::Created { file, .. } if reply.status == Status::SUCCESS => Some(Handle {
            device: taken.device,
            life: taken.life,
            file,
        }),
        _ => None,
    }
}

/// The outcome of a request, as that of its line.
pub(crate) fn reported_outcome(taken: Taken) -> Outcome
    requires { IsKnown taken.outcome }
    ensures outcome { result ≡ reported_outcome taken.outcome }
    ensures countable { IsCountableOutcome result }
{
    match taken.outcome {
        rd_pending::Outcome::Done(reply) => Outcome::Done(reply),
        rd_pending::Outcome::Lost(cause) => Outcome::Lost(cause),
    }
}

/// Whether what a line asks for may wait as long as it likes.
#[tactic(auto, unfolding(rd_world::specs::Run::asked_by))]
pub(crate) fn is_patient(line: &Line) -> bool
    ensures { (asked : Asked) → AsksFor asked line.now → result ≡ is_patient asked.op }
{
    match line {
        Line::Lock { wait, .. } => *wait,
        Line::Notify { .. } => true,
        _ => false,
    }
}
