//! What a naming sees of paths.

ghost use Rattle.std.specs.Prelude.{◌≡◌, IfOk, map};
ghost use Rattle.rd_dirinfo.specs.Naming.{fold_unit, seen};
ghost use Rattle.rd_dirinfo.specs.Paths.{seen_path};

use rd_base::Units;
use rd_dirinfo::Naming;
use std::alloc::{AllocError, Global};
use unicode::case::simple_fold;

/// The folding of a unit. Half of a surrogate pair stays as it is.
fn fold_unit(unit: u16) -> u16
    ensures { result ≡ fold_unit unit }
{
    let Some(character) = char::from_u32(u32::from(unit)) else {
        return unit;
    };
    let other = simple_fold(character) as u32;
    if other < 0x1_0000 { other as u16 } else { unit }
}

/// What a naming sees of a name.
fn seen(alloc: Global, naming: Naming, name: &[u16]) -> Result<Vec<u16>, AllocError>
    ensures { IfOk result (λ key. key.items ≡ seen naming name.now) }
{
    match naming {
        Naming::Exact => Vec::from_slice(alloc, name),
        Naming::Folded => name.iter().map(|unit| fold_unit(*unit)).collect(alloc),
    }
}

/// What a naming sees of a path.
pub fn key_of(alloc: Global, naming: Naming, path: &[Units]) -> Result<Vec<Vec<u16>>, AllocError>
    ensures { IfOk result (λ key. map (λ name. name.items) key.items ≡ seen_path naming path.now) }
{
    let mut key = Vec::new(alloc);
    for name in path {
        key.push(seen(alloc, naming, name.as_slice())?)?;
    }
    Ok(key)
}
