//! An audit file, taken apart from its first byte on.

ghost use Rattle.std.specs.Prelude.{◌≡◌};

use crate::fault::FieldFault;
use rd_base::Why;
use std::marker::Model;

/// The first bytes of an audit file.
pub const MAGIC: &[u8] = b"RDRAUD01";

/// The bytes of a count.
pub const COUNT_LEN: usize = 4;

/// What isn't read yet of an audit file: a script and a journal text, each with the count of its bytes before it, and a recording up to the
/// file's end.
#[derive(Debug, Drop)]
pub struct AuditFile<'a> {
    whole: usize,
    left: &'a [u8],
}

impl<'a> Model for AuditFile<'a> {
    ghost use Rattle.std.specs.Prelude.{◌≤◌, ◌-◌, length};
    ghost use Rattle.rd_base.specs.Position.{Position};

    ghost Value = { Position };

    ghost view = { λ f. record { at = f.whole - length f.left.now; left = f.left.now } };

    ghost invariant = { λ f. length f.left.now ≤ f.whole };
}

impl<'a> AuditFile<'a> {
    ghost use Rattle.rd_audit_file.specs.File.{behind_magic, ReadsCounted};

    /// The bytes after the magic of a file. Where it is cut, the fault is `Short` at 0, and where it is another, `Value` at 0.
    pub fn begin(bytes: &'a [u8]) -> Result<Self, FieldFault>
        ensures { result ≡ behind_magic bytes.now }
    {
        if bytes.len() < MAGIC.len() {
            let why = Why::Short;
            return Err(FieldFault { at: 0, why });
        }
        let Some(left) = bytes.strip_prefix(MAGIC) else {
            let why = Why::Value;
            return Err(FieldFault { at: 0, why });
        };
        let whole = bytes.len();
        Ok(AuditFile { whole, left })
    }

    /// The place of the next byte, counted from the file's first.
    pub fn at(&self) -> usize
        ensures { result ≡ self.now.at }
    {
        self.whole - self.left.len()
    }

    /// The bytes that aren't read yet.
    pub fn rest(&self) -> &'a [u8]
        ensures { result.now ≡ self.now.left }
    {
        self.left
    }

    /// The next field, lent: a count of four bytes, the lowest first, and as many bytes as it says. Where the file cuts the count or the bytes,
    /// the fault is `Short` at its first byte, and nothing moves.
    pub fn counted(&mut self) -> Result<&'a [u8], FieldFault>
        ensures { ReadsCounted self.old self.new result }
    {
        let why = Why::Short;
        let at = self.at();
        let Some((count, left)) = self.left.split_first_chunk::<COUNT_LEN>() else {
            return Err(FieldFault { at, why });
        };
        let count = u32::from_le_bytes(*count) as usize;
        if left.len() < count {
            let at = at + COUNT_LEN;
            return Err(FieldFault { at, why });
        }
        let (field, rest) = left.split_at(count);
        self.left = rest;
        Ok(field)
    }
}
