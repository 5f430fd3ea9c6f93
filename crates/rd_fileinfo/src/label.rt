//! The label that a volume is given (FileFsLabelInformation, MS-FSCC 2.5.5).

ghost use Rattle.std.specs.Prelude.{◌≡◌, ◌↔◌, ◌++◌, ℕ, IsTrue, IfOk, IfErr, OnOk, OnErr};
ghost use Rattle.rd_base.specs.Reading.{ReadsInto, ForBad};
ghost use Rattle.rd_fileinfo.specs.Label.{label_bytes, label_set, FirstFaultOfLabel, LabelFits, SpellsLabel};

use rd_base::{Bad, Bytes, Cursor, ReadNo, Units, Why, put_path, put_u32, read_path};
use std::alloc::{AllocError, Global};

/// The most bytes of a label, its zero unit counted.
const MAX_LABEL: u32 = 64;

/// The most units of a label.
pub const MAX_LABEL_UNITS: usize = 31;

/// Whether a label can be written.
pub fn label_fits(label: &Units) -> bool
    ensures { IsTrue result ↔ LabelFits label.now }
{
    let units = label.as_slice();
    units.len() <= MAX_LABEL_UNITS && units.iter().all(|unit| *unit != 0)
}

/// Reads the buffer of a label; bytes after it are ignored.
pub fn read_label(alloc: Global, bytes: &[u8]) -> Result<Units, ReadNo>
    ensures spelled { IfOk result (λ label. (tail : ℕ) × SpellsLabel label tail bytes.now) }
    ensures refused { IfErr result (ForBad (FirstFaultOfLabel bytes.now)) }
{
    let mut cursor = Cursor::new(bytes);
    label_of(alloc, &mut cursor)
}

#[tactic(auto, unfolding(crate::specs::Label::label_set))]
fn label_of(alloc: Global, cursor: &mut Cursor<'_>) -> Result<Units, ReadNo>
    ensures { ReadsInto (λ label. label) label_set cursor.old cursor.new result }
{
    let at = cursor.place();
    let count = cursor.u32()?;
    if count > MAX_LABEL {
        return Err(ReadNo::Bad(Bad {
            at,
            why: Why::Count,
        }));
    }
    if count % 2 != 0 {
        return Err(ReadNo::Bad(Bad {
            at,
            why: Why::Length,
        }));
    }
    read_path(alloc, cursor, count)
}

/// Writes the buffer of a label that fits.
pub fn write_label(alloc: Global, label: &Units) -> Result<Bytes, AllocError>
    requires { LabelFits label.now }
    ensures spelled { IfOk result (SpellsLabel label.now 0) }
    ensures written { IfOk result (λ bytes. bytes ≡ label_bytes label.now) }
{
    let mut out = Vec::new(alloc);
    put_label(&mut out, label)?;
    Ok(Bytes::of(out))
}

/// Appends the buffer of a label that fits.
pub fn put_label(out: &mut Vec<u8>, label: &Units) -> Result<(), AllocError>
    requires { LabelFits label.now }
    ensures bytes { OnOk result (out.new.items ≡ out.old.items ++ label_bytes label.now) }
    ensures spelled { OnOk result (SpellsLabel label.now 0 (label_bytes label.now)) }
    ensures err { OnErr result (out.new.items ≡ out.old.items) }
{
    let units = label.as_slice();
    let len = 2 * units.len() + 2;
    out.try_reserve(4 + len)?;
    put_u32(out, len as u32);
    put_path(out, units);
    Ok(())
}
