//! What a device answers to a request, and the ends of requests that waited.

ghost use Rattle.std.specs.Prelude.{◌≡◌};
ghost use Rattle.rd_drive.specs.Outcome.{done, fault};

use rd_base::{Key, Status};
use rd_irp::{Body, Reply};

/// What comes of a request that a device was given.
#[derive(Debug, Drop)]
pub enum Step {
    Reply(Reply),
    /// The request waits in the device. A later request, or a cut, ends it.
    Parked,
}

/// The end of a request that waited.
#[derive(Debug, Drop)]
pub struct End {
    pub key: Key,
    pub reply: Reply,
}

/// A reply that the request is done.
pub fn success(body: Body) -> Reply
    ensures { result ≡ done body }
{
    Reply {
        status: Status::SUCCESS,
        body,
    }
}

/// A reply that the request isn't done.
pub fn fault(status: Status) -> Reply
    ensures { result ≡ fault status }
{
    Reply {
        status,
        body: Body::Fault,
    }
}
