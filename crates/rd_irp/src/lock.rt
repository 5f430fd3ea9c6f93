//! The body of a request to lock or unlock ranges of a file (MS-RDPEFS 2.2.3.3.12).

ghost use Rattle.std.specs.Prelude.{◌≡◌, ◌+◌, ◌*◌, ◌≤◌, ◌++◌, length, vec_capacity, vec_len};
ghost use Rattle.rd_base.specs.Reading.{ReadsInto};
ghost use Rattle.rd_irp.specs.Op.{lock_body, max_ranges};
ghost use Rattle.rd_irp.specs.Written.{op_bytes, IsOpInRange};
ghost use Rattle.rd_irp.specs.declared.op.Op.TheVariants as op;

use crate::files::put_three;
use crate::op::{MAX_RANGES, Op, Range};
use rd_base::{Cursor, Format, ReadNo, put_all, put_bytes, put_u64, read_count32, read_times};
use std::alloc::Global;

/// The pad before the ranges.
const PAD: [u8; 20] = [0; 20];

impl Format for Range {
    ghost use Rattle.rd_irp.specs.Op.{range};
    ghost use Rattle.rd_irp.specs.Written.{range_bytes};

    ghost layout = { range };

    ghost bytes = { range_bytes };

    ghost fits = { λ _. Unit {0} };

    #[tactic(auto, unfolding(crate::specs::Op::range))]
    fn read(_alloc: Global, cursor: &mut Cursor<'_>) -> Result<Range, ReadNo> {
        let length = cursor.u64()?;
        let offset = cursor.u64()?;
        Ok(Range { offset, length })
    }

    #[tactic(auto, using(crate::proofs::OpLemmas::range_spelled, std::proofs::Common::append_assoc), unfolding(rd_base::specs::Fields::bytes64))]
    fn put(&self, out: &mut Vec<u8>) {
        put_u64(out, self.length);
        put_u64(out, self.offset);
    }

    fn size(&self) -> usize {
        16
    }
}

#[tactic(auto, unfolding(crate::specs::Op::lock_body))]
pub fn read_lock(alloc: Global, cursor: &mut Cursor<'_>) -> Result<Op, ReadNo>
    ensures { ReadsInto (λ op. op) lock_body cursor.old cursor.new result }
{
    let operation = cursor.u32()?;
    let bits = cursor.u32()?;
    let count = read_count32(cursor, MAX_RANGES)?;
    cursor.take(PAD.len() as u32)?;
    let ranges = read_times(alloc, cursor, count)?;
    Ok(Op::Lock {
        operation,
        wait: bits % 2 == 1,
        ranges,
    })
}

#[tactic(auto, using(std::proofs::Common::append_assoc))]
pub fn put_lock(out: &mut Vec<u8>, operation: u32, wait: bool, ranges: &[Range])
    requires few { length ranges.now ≤ max_ranges }
    requires room { vec_len out.old + 32 + 16 * length ranges.now ≤ vec_capacity out.old }
    ensures bytes { out.new.items ≡ out.old.items ++ op_bytes (op.Lock operation wait ranges.now) }
    ensures in_range { IsOpInRange (op.Lock operation wait ranges.now) }
    ensures room { vec_capacity out.old ≤ vec_capacity out.new }
{
    let bits: u32 = if wait { 1 } else { 0 };
    put_three(out, operation, bits, ranges.len() as u32);
    put_bytes(out, &PAD);
    put_all(out, ranges);
}
