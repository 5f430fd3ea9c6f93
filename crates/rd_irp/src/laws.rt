//! Laws of the messages: bytes are one of them with one tail, or have one first fault, never both. Each is a function
//! that does nothing: its contract is the law.

ghost use Rattle.rd_base.specs.Reading.{IsOneOf};
ghost use Rattle.rd_irp.specs.Request.{SpellsRequest, FirstFaultOfRequest};
ghost use Rattle.rd_irp.specs.Completion.{SpellsHead, FirstFaultOfHead, SpellsBody, FirstFaultOfBody};
ghost use Rattle.std.specs.Prelude.{◌≡◌, ◌++◌};
ghost use Rattle.rd_base.specs.declared.bad.Why.TheVariants as why;
ghost use Rattle.rd_base.specs.Layout.{FirstFaultFrom};
ghost use Rattle.rd_irp.specs.Op.{op_body};
ghost use Rattle.rd_irp.specs.Written.{request_bytes};
ghost use Rattle.rd_irp.specs.Worked as worked;

use crate::completion::Kind;
use rd_base::Status;

/// Bytes are one request, malformed or not, or their head has a first fault.
pub fn request_is_decided(bytes: &[u8])
    ensures { IsOneOf SpellsRequest FirstFaultOfRequest bytes.now }
{}

/// Bytes begin with one head of a completion or have a first fault.
pub fn completion_head_is_decided(bytes: &[u8])
    ensures { IsOneOf SpellsHead FirstFaultOfHead bytes.now }
{}

/// Bytes are one body of a completion of this kind and status or have a first fault.
pub fn completion_body_is_decided(kind: Kind, status: Status, bytes: &[u8])
    ensures { IsOneOf (SpellsBody kind status) (FirstFaultOfBody kind status) bytes.now }
{}

/// The definitions at requests on files and folders that were worked by hand. Faults of a body stand at their place in the
/// message, whose head has 24 bytes.
pub fn worked_operations()
    ensures write { request_bytes (worked.request worked.write) ≡ worked.write_message }
    ensures query_dir { request_bytes (worked.request worked.query_dir) ≡ worked.query_dir_message }
    ensures lock { request_bytes (worked.request worked.lock) ≡ worked.head 17 0 ++ worked.lock_body_of 1 0 }
    ensures cut_write { FirstFaultFrom 24 (op_body 4 0) worked.cut_write (record { at = 56; why = why.Short }) }
    ensures odd_path { FirstFaultFrom 24 (op_body 12 1) worked.odd_query_dir (record { at = 29; why = why.Length }) }
    ensures many_ranges { FirstFaultFrom 24 (op_body 17 0) (worked.lock_body_of 1 4) (record { at = 32; why = why.Count }) }
    ensures few_ranges { FirstFaultFrom 24 (op_body 17 0) (worked.lock_body_of 2 0) (record { at = 72; why = why.Short }) }
{}
