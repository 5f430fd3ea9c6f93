//! The reply that a completion's body spells.

ghost use Rattle.std.specs.Prelude.{◌≡◌, IfOk};
ghost use Rattle.rd_pending.specs.declared.calls.Outcome.TheVariants as Outcome;
ghost use Rattle.rd_pending.specs.Known.{IsKnown, ReadsReply};

use crate::calls::CompleteNo;
use rd_base::{ReadNo, Status};
use rd_irp::{Kind, Reply, read_body};
use std::alloc::Global;

/// Reads the body of a completion. It takes memory for the bytes of a buffer alone.
pub fn read_reply(
    alloc: Global,
    kind: Kind,
    status: Status,
    bytes: &[u8],
) -> Result<Reply, CompleteNo>
    ensures reply { ReadsReply kind status bytes.now result }
    ensures known { IfOk result (λ reply. IsKnown (Outcome.Done reply)) }
{
    match read_body(alloc, kind, status, bytes) {
        Ok((body, _)) => Ok(Reply { status, body }),
        Err(ReadNo::Bad(bad)) => Err(CompleteNo::BodyBad(bad)),
        Err(ReadNo::Memory) => Err(CompleteNo::Memory),
    }
}
