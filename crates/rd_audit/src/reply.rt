//! Whether a completion says what a device replied.

ghost use Rattle.std.specs.Prelude.{◌≡◌, IfOk};
ghost use Rattle.rd_drive.specs.Outcome.{fault};
ghost use Rattle.rd_audit.specs.Said.{same_body, says};

use rd_base::{ReadNo, Status};
use rd_irp::{Body, COMPLETION_HEAD_LEN, Kind, Reply, read_body, read_head};
use std::alloc::{AllocError, Global};

/// A reply that a request isn't done.
pub fn fault(status: Status) -> Reply
    ensures { result ≡ fault status }
{
    Reply {
        status,
        body: Body::Fault,
    }
}

/// Whether a completion of this layout has this reply.
pub fn completes(
    alloc: Global,
    kind: Kind,
    message: &[u8],
    reply: &Reply,
) -> Result<bool, AllocError>
    ensures { IfOk result (λ same. same ≡ says kind message.now reply.now) }
{
    let Ok(head) = read_head(message) else {
        return Ok(false);
    };
    if head.status.0 != reply.status.0 {
        return Ok(false);
    }
    match read_body(alloc, kind, head.status, &message[COMPLETION_HEAD_LEN..]) {
        Ok((body, _)) => Ok(is_same(&body, &reply.body)),
        Err(ReadNo::Bad(_)) => Ok(false),
        Err(ReadNo::Memory) => Err(AllocError),
    }
}

/// Whether two bodies say the same.
fn is_same(said: &Body, body: &Body) -> bool
    ensures { result ≡ same_body said.now body.now }
{
    match said {
        Body::Created { file, information } => match body {
            Body::Created {
                file: other,
                information: more,
            } => *file == *other && *information == *more,
            _ => false,
        },
        Body::Closed => match body {
            Body::Closed => true,
            _ => false,
        },
        Body::Count(count) => match body {
            Body::Count(other) => *count == *other,
            _ => false,
        },
        Body::Buffer(bytes) => match body {
            Body::Buffer(other) => bytes.as_slice() == other.as_slice(),
            _ => false,
        },
        Body::Locked => match body {
            Body::Locked => true,
            _ => false,
        },
        Body::Fault => match body {
            Body::Fault => true,
            _ => false,
        },
    }
}
