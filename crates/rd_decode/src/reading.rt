//! Reading a recording in pieces.

ghost use Rattle.std.specs.Prelude.{◌≡◌, ◌≤◌, ◌<◌, ◌^◌, ◌++◌, nat_eq, true, List, ℕ, [], length, IfOk, IfErr};
ghost use Rattle.std.specs.List.{starts_with};
ghost use Rattle.std.specs.Io.KnownBytes.{IsAtEnd};
ghost use Rattle.rd_decode.specs.Ends.{limit};
ghost use Rattle.rd_decode.specs.Recording.{magic, no_magic};
ghost use Rattle.rd_decode.specs.declared.fault.DecodeNo.TheVariants as no;
ghost use Rattle.rd_decode.specs.Streams.{Read, stream};
ghost use Rattle.rd_decode.specs.Kept.{FailsToRead, FailsToBegin};

use crate::fault::{DecodeNo, Fault, FaultWhy};
use rd_base::{Source, Why};
use std::alloc::Global;

/// How many bytes one read asks for.
const PIECE: usize = 65_536;

/// With what a recording begins.
pub const MAGIC: &[u8] = b"RDRREC01";

/// As many bytes are read at most.
pub const LIMIT: u64 = 1 << 40;

/// Reads until the magic is there, and returns all that was read.
pub fn read_magic<S: Source>(alloc: Global, input: &mut S) -> Result<Vec<u8>, DecodeNo>
    ensures read { IfOk result (λ bytes. Read (stream S.left S.faults input.old) (stream S.left S.faults input.new) bytes.items) }
    ensures begins { IfOk result (λ bytes. (8 ≤ length bytes.items) × (starts_with nat_eq bytes.items magic ≡ true)) }
    ensures few { IfOk result (λ bytes. length bytes.items < 2 ^ 20) }
    ensures err { IfErr result (FailsToBegin (stream S.left S.faults input.old) (stream S.left S.faults input.new)) }
{
    let mut held = Vec::new(alloc);
    while held.len() < MAGIC.len() {
        let next = read_after(alloc, input, held.as_slice(), LIMIT)?;
        if next.len() == held.len() {
            return Err(no_magic());
        }
        held = next;
    }
    if !held.as_slice().starts_with(MAGIC) {
        return Err(no_magic());
    }
    Ok(held)
}

/// Reads the next piece, of so many bytes at most, and returns what is held and the piece after it. Without one the input has ended.
pub fn read_after<S: Source>(
    alloc: Global,
    input: &mut S,
    held: &[u8],
    most: u64,
) -> Result<Vec<u8>, DecodeNo>
    requires some { 0 < most }
    requires room { length held.now < limit }
    ensures read { IfOk result (λ bytes. (piece : List ℕ) × (bytes.items ≡ held.now ++ piece) × Read (stream S.left S.faults input.old) (stream S.left S.faults input.new) piece
        × (length piece ≤ most) × (length piece ≤ 65536) × (piece ≡ [] → IsAtEnd (S.left input.new))) }
    ensures err { IfErr result (FailsToRead (stream S.left S.faults input.old) (stream S.left S.faults input.new)) }
{
    let mut bytes = Vec::with_capacity(alloc, held.len() + PIECE)?;
    bytes.extend_from_slice(held)?;
    let mut piece = [0; PIECE];
    let room = usize::try_from(most).unwrap_or(PIECE).min(PIECE);
    let Ok(count) = input.read(&mut piece[..room]) else {
        return Err(DecodeNo::Input);
    };
    bytes.extend_from_slice(&piece[..count])?;
    Ok(bytes)
}

fn no_magic() -> DecodeNo
    ensures { result ≡ no.Bad no_magic }
{
    DecodeNo::Bad(Fault {
        at: 0,
        why: FaultWhy::Field(Why::Value),
    })
}
