//! The bodies of requests about what a folder holds (MS-RDPEFS 2.2.3.3.10 and 2.2.3.3.11).

ghost use Rattle.std.specs.Prelude.{◌≡◌, ◌+◌, ◌*◌, ◌≤◌, ◌++◌, length, vec_capacity, vec_len};
ghost use Rattle.rd_base.specs.Reading.{ReadsInto};
ghost use Rattle.rd_irp.specs.Op.{directory_body, query_dir_body, notify_body};
ghost use Rattle.rd_irp.specs.Fits.{IsWritablePath};
ghost use Rattle.rd_irp.specs.Written.{op_bytes, IsOpInRange};
ghost use Rattle.rd_irp.specs.declared.op.Op.TheVariants as op;

use crate::op::{NOTIFY, Op, QUERY_DIR};
use crate::path::put_path_length;
use rd_base::{
    Cursor, ReadNo, put_bytes, put_flag, put_path, put_u32, read_flag, read_path, read_units_length,
};
use std::alloc::Global;

/// The pad before the path of a `QueryDir` body.
const QUERY_DIR_PAD: [u8; 23] = [0; 23];

/// The pad of a `Notify` body.
const NOTIFY_PAD: [u8; 27] = [0; 27];

/// Reads the body of a request with this minor function.
#[tactic(auto, unfolding(crate::specs::Op::directory_body))]
pub fn read_directory(
    alloc: Global,
    major: u32,
    minor: u32,
    cursor: &mut Cursor<'_>,
) -> Result<Op, ReadNo>
    ensures { ReadsInto (λ op. op) (directory_body major minor) cursor.old cursor.new result }
{
    match minor {
        QUERY_DIR => read_query_dir(alloc, cursor),
        NOTIFY => read_notify(cursor),
        _ => Ok(Op::Unknown { major, minor }),
    }
}

#[tactic(auto, unfolding(crate::specs::Op::query_dir_body))]
fn read_query_dir(alloc: Global, cursor: &mut Cursor<'_>) -> Result<Op, ReadNo>
    ensures { ReadsInto (λ op. op) query_dir_body cursor.old cursor.new result }
{
    let class = cursor.u32()?;
    let initial = read_flag(cursor)?;
    let count = read_units_length(cursor)?;
    cursor.take(QUERY_DIR_PAD.len() as u32)?;
    let path = read_path(alloc, cursor, count)?;
    Ok(Op::QueryDir {
        class,
        initial,
        path,
    })
}

#[tactic(auto, unfolding(rd_base::specs::Fields::bytes8, rd_base::specs::Fields::bytes32), using(std::proofs::Common::append_assoc))]
pub fn put_query_dir(out: &mut Vec<u8>, class: u32, initial: bool, path: &[u16])
    requires writable { IsWritablePath path.now }
    requires room { vec_len out.old + 34 + 2 * length path.now ≤ vec_capacity out.old }
    ensures bytes { out.new.items ≡ out.old.items ++ op_bytes (op.QueryDir class initial path.now) }
    ensures in_range { IsOpInRange (op.QueryDir class initial path.now) }
    ensures len { vec_len out.new ≡ vec_len out.old + 34 + 2 * length path.now }
    ensures room { vec_capacity out.old ≤ vec_capacity out.new }
{
    put_u32(out, class);
    put_flag(out, initial);
    put_path_length(out, path);
    put_bytes(out, &QUERY_DIR_PAD);
    put_path(out, path);
}

#[tactic(auto, unfolding(crate::specs::Op::notify_body))]
fn read_notify(cursor: &mut Cursor<'_>) -> Result<Op, ReadNo>
    ensures { ReadsInto (λ op. op) notify_body cursor.old cursor.new result }
{
    let tree = read_flag(cursor)?;
    let filter = cursor.u32()?;
    cursor.take(NOTIFY_PAD.len() as u32)?;
    Ok(Op::Notify { tree, filter })
}

#[tactic(auto, unfolding(rd_base::specs::Fields::bytes8, rd_base::specs::Fields::bytes32), using(std::proofs::Common::append_assoc))]
pub fn put_notify(out: &mut Vec<u8>, tree: bool, filter: u32)
    requires { vec_len out.old + 32 ≤ vec_capacity out.old }
    ensures bytes { out.new.items ≡ out.old.items ++ op_bytes (op.Notify tree filter) }
    ensures in_range { IsOpInRange (op.Notify tree filter) }
    ensures len { vec_len out.new ≡ vec_len out.old + 32 }
    ensures room { vec_capacity out.old ≤ vec_capacity out.new }
{
    put_flag(out, tree);
    put_u32(out, filter);
    put_bytes(out, &NOTIFY_PAD);
}
