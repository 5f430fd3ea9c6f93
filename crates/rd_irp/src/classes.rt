//! The bodies of requests for information of a class, about a file or the volume (MS-RDPEFS 2.2.3.3.6 to 2.2.3.3.9).

ghost use Rattle.std.specs.Prelude.{◌≡◌, ◌^◌, ◌+◌, ◌<◌, ◌≤◌, ◌++◌, length, vec_capacity, vec_len};
ghost use Rattle.rd_base.specs.Reading.{Reads, ReadsInto};
ghost use Rattle.rd_irp.specs.Op.{queried_class, class_and_bytes, query_file_body, set_file_body, query_volume_body, set_volume_body};
ghost use Rattle.rd_irp.specs.Fits.{max_buffer};
ghost use Rattle.rd_irp.specs.Written.{queried_bytes, set_bytes};

use crate::op::Op;
use rd_base::{Bad, Bytes, Cursor, ReadNo, put_bytes, put_u32, read_bytes};
use std::alloc::Global;

/// The pad after the numbers of the bodies.
const PAD: [u8; 24] = [0; 24];

#[tactic(auto, unfolding(crate::specs::Op::queried_class))]
fn read_queried(cursor: &mut Cursor<'_>) -> Result<u32, Bad>
    ensures { Reads (λ class. class) queried_class cursor.old cursor.new result }
{
    let class = cursor.u32()?;
    let _length = cursor.u32()?;
    cursor.take(PAD.len() as u32)?;
    Ok(class)
}

/// Appends a query of a class, whose length is 0.
#[tactic(auto, unfolding(rd_base::specs::Fields::bytes32), using(std::proofs::Common::append_assoc))]
pub fn put_queried(out: &mut Vec<u8>, class: u32)
    requires { vec_len out.old + 32 ≤ vec_capacity out.old }
    ensures bytes { out.new.items ≡ out.old.items ++ queried_bytes class }
    ensures in_range { class < 2 ^ 32 }
    ensures len { vec_len out.new ≡ vec_len out.old + 32 }
    ensures room { vec_capacity out.old ≤ vec_capacity out.new }
{
    put_u32(out, class);
    put_u32(out, 0);
    put_bytes(out, &PAD);
}

#[tactic(auto, unfolding(crate::specs::Op::class_and_bytes))]
fn read_set(alloc: Global, cursor: &mut Cursor<'_>) -> Result<(u32, Bytes), ReadNo>
    ensures { ReadsInto (λ fields. fields) class_and_bytes cursor.old cursor.new result }
{
    let class = cursor.u32()?;
    let count = cursor.u32()?;
    cursor.take(PAD.len() as u32)?;
    let bytes = read_bytes(alloc, cursor, count)?;
    Ok((class, bytes))
}

/// Appends a class that is set, and its buffer.
#[tactic(auto, unfolding(rd_base::specs::Fields::bytes32), using(std::proofs::Common::append_assoc))]
pub fn put_set(out: &mut Vec<u8>, class: u32, bytes: &[u8])
    requires short { length bytes.now ≤ max_buffer }
    requires room { vec_len out.old + 32 + length bytes.now ≤ vec_capacity out.old }
    ensures bytes { out.new.items ≡ out.old.items ++ set_bytes class bytes.now }
    ensures in_range { class < 2 ^ 32 }
    ensures len { vec_len out.new ≡ vec_len out.old + 32 + length bytes.now }
    ensures room { vec_capacity out.old ≤ vec_capacity out.new }
{
    put_u32(out, class);
    put_u32(out, bytes.len() as u32);
    put_bytes(out, &PAD);
    put_bytes(out, bytes);
}

#[tactic(auto, unfolding(crate::specs::Op::query_file_body))]
pub fn read_query_file(cursor: &mut Cursor<'_>) -> Result<Op, ReadNo>
    ensures { ReadsInto (λ op. op) query_file_body cursor.old cursor.new result }
{
    let class = read_queried(cursor)?;
    Ok(Op::QueryFile { class })
}

#[tactic(auto, unfolding(crate::specs::Op::set_file_body))]
pub fn read_set_file(alloc: Global, cursor: &mut Cursor<'_>) -> Result<Op, ReadNo>
    ensures { ReadsInto (λ op. op) set_file_body cursor.old cursor.new result }
{
    let (class, bytes) = read_set(alloc, cursor)?;
    Ok(Op::SetFile { class, bytes })
}

#[tactic(auto, unfolding(crate::specs::Op::query_volume_body))]
pub fn read_query_volume(cursor: &mut Cursor<'_>) -> Result<Op, ReadNo>
    ensures { ReadsInto (λ op. op) query_volume_body cursor.old cursor.new result }
{
    let class = read_queried(cursor)?;
    Ok(Op::QueryVolume { class })
}

#[tactic(auto, unfolding(crate::specs::Op::set_volume_body))]
pub fn read_set_volume(alloc: Global, cursor: &mut Cursor<'_>) -> Result<Op, ReadNo>
    ensures { ReadsInto (λ op. op) set_volume_body cursor.old cursor.new result }
{
    let (class, bytes) = read_set(alloc, cursor)?;
    Ok(Op::SetVolume { class, bytes })
}
