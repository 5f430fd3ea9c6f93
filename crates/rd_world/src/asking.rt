//! What the line of an application asks for.

ghost use Rattle.std.specs.Prelude.{◌≡◌, ℕ, IfOk};
ghost use Rattle.std.specs.Option.{option_and_then, option_copied, option_map};
ghost use Rattle.rd_world.specs.Run.{asked_by};
ghost use Rattle.rd_world.specs.World.{Asked};

use rd_irp::Op;
use rd_script::{Line, ShortName};
use std::alloc::AllocError;

/// GENERIC_READ, the DesiredAccess of an `open`, which only reads.
const GENERIC_READ: u32 = 0x8000_0000;

/// The SharedAccess that lets everybody read, write and delete.
const SHARE_ALL: u32 = 7;

/// FILE_OPEN, the CreateDisposition that opens what is there and makes nothing.
const OPEN_EXISTING: u32 = 1;

/// The application whose line it is, if it is one's.
#[tactic(auto, unfolding(crate::specs::Run::asked_by))]
pub fn application_of(line: &Line) -> Option<u32>
    ensures { result ≡ option_map (λ (x : ℕ × Asked). x.0) (asked_by line.now) }
{
    match line {
        Line::Open { application, .. }
        | Line::Create { application, .. }
        | Line::Close { application, .. }
        | Line::Read { application, .. }
        | Line::Write { application, .. }
        | Line::Query { application, .. }
        | Line::Set { application, .. }
        | Line::Volume { application, .. }
        | Line::SetVolume { application, .. }
        | Line::Dir { application, .. }
        | Line::Lock { application, .. }
        | Line::Control { application, .. }
        | Line::Notify { application, .. } => Some(*application),
        _ => None,
    }
}

/// The name of the handle that it opens or uses.
#[tactic(auto, unfolding(crate::specs::Run::asked_by))]
pub fn handle_of(line: &Line) -> Option<&ShortName>
    ensures { option_copied result ≡ option_map (λ (x : ℕ × Asked). x.1.handle) (asked_by line.now) }
{
    match line {
        Line::Open { handle, .. }
        | Line::Create { handle, .. }
        | Line::Close { handle, .. }
        | Line::Read { handle, .. }
        | Line::Write { handle, .. }
        | Line::Query { handle, .. }
        | Line::Set { handle, .. }
        | Line::Volume { handle, .. }
        | Line::SetVolume { handle, .. }
        | Line::Dir { handle, .. }
        | Line::Lock { handle, .. }
        | Line::Control { handle, .. }
        | Line::Notify { handle, .. } => Some(handle),
        _ => None,
    }
}

/// The device of which it opens a file, if it opens one.
#[tactic(auto, unfolding(crate::specs::Run::asked_by))]
pub fn opened_device(line: &Line) -> Option<u32>
    ensures { result ≡ option_and_then (λ (x : ℕ × Asked). x.1.device) (asked_by line.now) }
{
    match line {
        Line::Open { device, .. } | Line::Create { device, .. } => Some(*device),
        _ => None,
    }
}

/// The operation that it asks for.
#[tactic(auto, unfolding(crate::specs::Run::asked_by))]
pub fn op_of(line: &Line) -> Result<Option<Op>, AllocError>
    ensures { IfOk result (λ op. op ≡ option_map (λ (x : ℕ × Asked). x.1.op) (asked_by line.now)) }
{
    match line {
        Line::Close { .. } => Ok(Some(Op::Close)),
        Line::Read { offset, length, .. } => Ok(Some(Op::Read {
            offset: *offset,
            length: *length,
        })),
        Line::Write { offset, bytes, .. } => Ok(Some(Op::Write {
            offset: *offset,
            bytes: bytes.copy()?,
        })),
        Line::Query { class, .. } => Ok(Some(Op::QueryFile { class: *class })),
        Line::Set { class, bytes, .. } => Ok(Some(Op::SetFile {
            class: *class,
            bytes: bytes.copy()?,
        })),
        Line::Volume { class, .. } => Ok(Some(Op::QueryVolume { class: *class })),
        Line::SetVolume { class, bytes, .. } => Ok(Some(Op::SetVolume {
            class: *class,
            bytes: bytes.copy()?,
        })),
        Line::Dir {
            class,
            initial,
            path,
            ..
        } => Ok(Some(Op::QueryDir {
            class: *class,
            initial: *initial,
            path: path.copy()?,
        })),
        Line::Lock {
            operation,
            wait,
            ranges,
            ..
        } => Ok(Some(Op::Lock {
            operation: *operation,
            wait: *wait,
            ranges: ranges.copy()?,
        })),
        Line::Control {
            code,
            output,
            bytes,
            ..
        } => Ok(Some(Op::Control {
            output: *output,
            code: *code,
            bytes: bytes.copy()?,
        })),
        Line::Notify { tree, filter, .. } => Ok(Some(Op::Notify {
            tree: *tree,
            filter: *filter,
        })),
        Line::Open { path, .. } => Ok(Some(Op::Create {
            access: GENERIC_READ,
            allocation: 0,
            attributes: 0,
            share: SHARE_ALL,
            disposition: OPEN_EXISTING,
            options: 0,
            path: path.copy()?,
        })),
        Line::Create {
            path,
            disposition,
            access,
            share,
            options,
            attributes,
            ..
        } => Ok(Some(Op::Create {
            access: *access,
            allocation: 0,
            attributes: *attributes,
            share: *share,
            disposition: *disposition,
            options: *options,
            path: path.copy()?,
        })),
        _ => Ok(None),
    }
}
