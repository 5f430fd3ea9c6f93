//! The bodies of requests that open and close files, and read and write their bytes (MS-RDPEFS 2.2.1.4.1 to 2.2.1.4.5).

ghost use Rattle.std.specs.Prelude.{◌≡◌, ◌+◌, ◌*◌, ◌≤◌, ◌++◌, length, vec_capacity, vec_len};
ghost use Rattle.std.specs.Int.{w32, w64, to_le_bytes};
ghost use Rattle.rd_base.specs.Reading.{ReadsInto};
ghost use Rattle.rd_irp.specs.Op.{create_body, close_body, read_body, write_body, control_body};
ghost use Rattle.rd_irp.specs.Fits.{IsWritablePath, max_buffer};
ghost use Rattle.rd_irp.specs.Written.{op_bytes, IsOpInRange};
ghost use Rattle.rd_irp.specs.declared.op.Op.TheVariants as op;

use crate::op::Op;
use crate::path::put_path_length;
use rd_base::{
    Cursor, ReadNo, put_bytes, put_path, put_u32, put_u64, read_bytes, read_path, read_units_length,
};
use std::alloc::Global;

/// The pad of a `Close` body.
const CLOSE_PAD: [u8; 32] = [0; 32];

/// The pad after the numbers of the other bodies here.
const PAD: [u8; 20] = [0; 20];

#[tactic(auto, unfolding(crate::specs::Op::create_body))]
pub fn read_create(alloc: Global, cursor: &mut Cursor<'_>) -> Result<Op, ReadNo>
    ensures { ReadsInto (λ op. op) create_body cursor.old cursor.new result }
{
    let access = cursor.u32()?;
    let allocation = cursor.u64()?;
    let attributes = cursor.u32()?;
    let share = cursor.u32()?;
    let disposition = cursor.u32()?;
    let options = cursor.u32()?;
    let count = read_units_length(cursor)?;
    let path = read_path(alloc, cursor, count)?;
    Ok(Op::Create {
        access,
        allocation,
        attributes,
        share,
        disposition,
        options,
        path,
    })
}

#[tactic(auto, using(std::proofs::Common::append_assoc))]
pub fn put_create(
    out: &mut Vec<u8>,
    access: u32,
    allocation: u64,
    attributes: u32,
    share: u32,
    disposition: u32,
    options: u32,
    path: &[u16],
)
    requires writable { IsWritablePath path.now }
    requires room { vec_len out.old + 34 + 2 * length path.now ≤ vec_capacity out.old }
    ensures bytes { out.new.items
        ≡ out.old.items ++ op_bytes (op.Create access allocation attributes share disposition options path.now) }
    ensures in_range { IsOpInRange (op.Create access allocation attributes share disposition options path.now) }
    ensures len { vec_len out.new ≡ vec_len out.old + 34 + 2 * length path.now }
    ensures room { vec_capacity out.old ≤ vec_capacity out.new }
{
    put_access(out, access, allocation, attributes);
    put_three(out, share, disposition, options);
    put_path_length(out, path);
    put_path(out, path);
}

#[tactic(auto, unfolding(rd_base::specs::Fields::bytes32, rd_base::specs::Fields::bytes64), using(std::proofs::Common::append_assoc))]
fn put_access(out: &mut Vec<u8>, access: u32, allocation: u64, attributes: u32)
    requires { vec_len out.old + 16 ≤ vec_capacity out.old }
    ensures bytes { out.new.items
        ≡ out.old.items ++ (to_le_bytes w32 access ++ to_le_bytes w64 allocation ++ to_le_bytes w32 attributes) }
    ensures len { vec_len out.new ≡ vec_len out.old + 16 }
    ensures room { vec_capacity out.old ≤ vec_capacity out.new }
{
    put_u32(out, access);
    put_u64(out, allocation);
    put_u32(out, attributes);
}

/// Appends three numbers.
#[tactic(auto, unfolding(rd_base::specs::Fields::bytes32), using(std::proofs::Common::append_assoc))]
pub fn put_three(out: &mut Vec<u8>, first: u32, second: u32, third: u32)
    requires { vec_len out.old + 12 ≤ vec_capacity out.old }
    ensures bytes { out.new.items
        ≡ out.old.items ++ (to_le_bytes w32 first ++ to_le_bytes w32 second ++ to_le_bytes w32 third) }
    ensures len { vec_len out.new ≡ vec_len out.old + 12 }
    ensures room { vec_capacity out.old ≤ vec_capacity out.new }
{
    put_u32(out, first);
    put_u32(out, second);
    put_u32(out, third);
}

#[tactic(auto, unfolding(crate::specs::Op::close_body))]
pub fn read_close(cursor: &mut Cursor<'_>) -> Result<Op, ReadNo>
    ensures { ReadsInto (λ op. op) close_body cursor.old cursor.new result }
{
    cursor.take(CLOSE_PAD.len() as u32)?;
    Ok(Op::Close)
}

pub fn put_close(out: &mut Vec<u8>)
    requires { vec_len out.old + 32 ≤ vec_capacity out.old }
    ensures bytes { out.new.items ≡ out.old.items ++ op_bytes op.Close }
    ensures len { vec_len out.new ≡ vec_len out.old + 32 }
    ensures room { vec_capacity out.old ≤ vec_capacity out.new }
{
    put_bytes(out, &CLOSE_PAD);
}

#[tactic(auto, unfolding(crate::specs::Op::read_body))]
pub fn read_read(cursor: &mut Cursor<'_>) -> Result<Op, ReadNo>
    ensures { ReadsInto (λ op. op) read_body cursor.old cursor.new result }
{
    let length = cursor.u32()?;
    let offset = cursor.u64()?;
    cursor.take(PAD.len() as u32)?;
    Ok(Op::Read { offset, length })
}

#[tactic(auto, unfolding(rd_base::specs::Fields::bytes32, rd_base::specs::Fields::bytes64), using(std::proofs::Common::append_assoc))]
pub fn put_read(out: &mut Vec<u8>, offset: u64, length: u32)
    requires { vec_len out.old + 32 ≤ vec_capacity out.old }
    ensures bytes { out.new.items ≡ out.old.items ++ op_bytes (op.Read offset length) }
    ensures in_range { IsOpInRange (op.Read offset length) }
    ensures len { vec_len out.new ≡ vec_len out.old + 32 }
    ensures room { vec_capacity out.old ≤ vec_capacity out.new }
{
    put_u32(out, length);
    put_u64(out, offset);
    put_bytes(out, &PAD);
}

#[tactic(auto, unfolding(crate::specs::Op::write_body))]
pub fn read_write(alloc: Global, cursor: &mut Cursor<'_>) -> Result<Op, ReadNo>
    ensures { ReadsInto (λ op. op) write_body cursor.old cursor.new result }
{
    let count = cursor.u32()?;
    let offset = cursor.u64()?;
    cursor.take(PAD.len() as u32)?;
    let bytes = read_bytes(alloc, cursor, count)?;
    Ok(Op::Write { offset, bytes })
}

#[tactic(auto, using(std::proofs::Common::append_assoc))]
pub fn put_write(out: &mut Vec<u8>, offset: u64, bytes: &[u8])
    requires short { length bytes.now ≤ max_buffer }
    requires room { vec_len out.old + 32 + length bytes.now ≤ vec_capacity out.old }
    ensures bytes { out.new.items ≡ out.old.items ++ op_bytes (op.Write offset bytes.now) }
    ensures in_range { IsOpInRange (op.Write offset bytes.now) }
    ensures len { vec_len out.new ≡ vec_len out.old + 32 + length bytes.now }
    ensures room { vec_capacity out.old ≤ vec_capacity out.new }
{
    // Before the bytes stand the fields of a `Read` of so many.
    put_read(out, offset, bytes.len() as u32);
    put_bytes(out, bytes);
}

#[tactic(auto, unfolding(crate::specs::Op::control_body))]
pub fn read_control(alloc: Global, cursor: &mut Cursor<'_>) -> Result<Op, ReadNo>
    ensures { ReadsInto (λ op. op) control_body cursor.old cursor.new result }
{
    let output = cursor.u32()?;
    let count = cursor.u32()?;
    let code = cursor.u32()?;
    cursor.take(PAD.len() as u32)?;
    let bytes = read_bytes(alloc, cursor, count)?;
    Ok(Op::Control {
        output,
        code,
        bytes,
    })
}

#[tactic(auto, using(std::proofs::Common::append_assoc))]
pub fn put_control(out: &mut Vec<u8>, output: u32, code: u32, bytes: &[u8])
    requires short { length bytes.now ≤ max_buffer }
    requires room { vec_len out.old + 32 + length bytes.now ≤ vec_capacity out.old }
    ensures bytes { out.new.items ≡ out.old.items ++ op_bytes (op.Control output code bytes.now) }
    ensures in_range { IsOpInRange (op.Control output code bytes.now) }
    ensures len { vec_len out.new ≡ vec_len out.old + 32 + length bytes.now }
    ensures room { vec_capacity out.old ≤ vec_capacity out.new }
{
    put_three(out, output, bytes.len() as u32, code);
    put_bytes(out, &PAD);
    put_bytes(out, bytes);
}
