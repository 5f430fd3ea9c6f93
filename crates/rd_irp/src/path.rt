//! The path field of a request as it is written.

ghost use Rattle.std.specs.Prelude.{◌≡◌, ◌+◌, ◌*◌, ◌≤◌, ◌++◌, length, vec_capacity, vec_len};
ghost use Rattle.std.specs.Int.{w32, to_le_bytes};
ghost use Rattle.rd_irp.specs.Fits.{max_path};

use rd_base::put_u32;

/// Appends the length in bytes of a path and of the zero unit after it.
#[tactic(auto, unfolding(rd_base::specs::Fields::bytes32))]
pub fn put_path_length(out: &mut Vec<u8>, path: &[u16])
    requires short { length path.now ≤ max_path }
    requires room { vec_len out.old + 4 ≤ vec_capacity out.old }
    ensures bytes { out.new.items ≡ out.old.items ++ to_le_bytes w32 (2 * length path.now + 2) }
    ensures len { vec_len out.new ≡ vec_len out.old + 4 }
    ensures room { vec_capacity out.old ≤ vec_capacity out.new }
{
    let count = 2 * path.len() + 2;
    put_u32(out, count as u32);
}
