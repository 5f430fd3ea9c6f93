//! The keys of names: what a naming sees of them.

ghost use Rattle.std.specs.Prelude.{◌≡◌, ◌≤◌, IfOk, length, take};
ghost use Rattle.rd_dirinfo.specs.Naming.{folding, seen};

use rd_dirinfo::Naming;
use std::alloc::{AllocError, Global};

/// The folding of a name, at the start of a buffer.
pub fn fold_into(name: &[u16], buffer: &mut [u16])
    requires { length name.now ≤ length buffer.old }
    ensures { take (length name.now) buffer.new ≡ folding name.now }
{
    for i in 0..name.len() {
        buffer[i] = Naming::Folded.see(name[i]);
    }
}

/// The key of a name, in memory of its own.
pub fn key_of(alloc: Global, naming: Naming, name: &[u16]) -> Result<Vec<u16>, AllocError>
    ensures { IfOk result (λ key. key.items ≡ seen naming name.now) }
{
    match naming {
        Naming::Exact => Vec::from_slice(alloc, name),
        Naming::Folded => name.iter().map(|unit| naming.see(*unit)).collect(alloc),
    }
}
