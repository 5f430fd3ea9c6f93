//! Paths for tests.

use rd_base::Units;
use rd_dirinfo::Path;
use std::process::Abort;

/// The units of a text.
pub fn units(rt: &(impl Abort + AllocGlobal), text: &str) -> Units {
    let mut units = Vec::new(rt.alloc());
    for unit in text.encode_utf16() {
        units.push(unit).expect(rt, "memory for a unit");
    }
    Units::of(units)
}

/// The path that a text spells.
pub fn path(rt: &(impl Abort + AllocGlobal), text: &str) -> Path {
    Path::split(rt.alloc(), units(rt, text).as_slice()).expect(rt, "a path")
}
