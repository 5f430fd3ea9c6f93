//! What a handle may do and lets others do, and the attributes of nodes (MS-SMB2 2.2.13.1, MS-FSCC 2.6).

ghost use Rattle.std.specs.Prelude.{◌≡◌};
ghost use Rattle.rd_drive.specs.Access.{clash, deletes, has_any, is_using, marks, reads, use_of, writes};

/// GENERIC_ALL, which stands for every access.
const GENERIC_ALL: u32 = 0x1000_0000;

/// FILE_READ_DATA, GENERIC_EXECUTE, GENERIC_READ.
const READS: u32 = 0x1 | 0x2000_0000 | 0x8000_0000 | GENERIC_ALL;

/// FILE_WRITE_DATA, FILE_APPEND_DATA, GENERIC_WRITE.
const WRITES: u32 = 0x2 | 0x4 | 0x4000_0000 | GENERIC_ALL;

/// DELETE.
const DELETES: u32 = 0x1_0000 | GENERIC_ALL;

/// FILE_WRITE_ATTRIBUTES, GENERIC_WRITE.
const MARKS: u32 = 0x100 | 0x4000_0000 | GENERIC_ALL;

/// FILE_SHARE_READ.
const SHARE_READ: u32 = 1;

/// FILE_SHARE_WRITE.
const SHARE_WRITE: u32 = 2;

/// FILE_SHARE_DELETE.
const SHARE_DELETE: u32 = 4;

/// Whether a number has one of some bits.
pub fn has_any(bits: u32, number: u32) -> bool
    ensures { result ≡ has_any bits number }
{
    number & bits != 0
}

/// Whether an access (MS-SMB2 2.2.13.1) lets read.
pub fn reads(access: u32) -> bool
    ensures { result ≡ reads access }
{
    has_any(READS, access)
}

/// Whether it lets write.
pub fn writes(access: u32) -> bool
    ensures { result ≡ writes access }
{
    has_any(WRITES, access)
}

/// Whether it lets delete.
pub fn deletes(access: u32) -> bool
    ensures { result ≡ deletes access }
{
    has_any(DELETES, access)
}

/// Whether attributes and moments may be set.
pub fn marks(access: u32) -> bool
    ensures { result ≡ marks access }
{
    has_any(MARKS, access)
}

/// What matters of a handle where two share a node: what it does, and what it lets others do.
#[derive(Clone, Copy, Debug, PartialEq, Eq, Drop)]
pub struct Use {
    pub is_reading: bool,
    pub is_writing: bool,
    pub is_deleting: bool,
    /// FILE_SHARE_READ, FILE_SHARE_WRITE, FILE_SHARE_DELETE (MS-SMB2 2.2.13).
    pub share: u32,
}

/// The use that a handle with this access and share makes.
pub fn use_of(access: u32, share: u32) -> Use
    ensures { result ≡ use_of access share }
{
    Use {
        is_reading: reads(access),
        is_writing: writes(access),
        is_deleting: deletes(access),
        share,
    }
}

impl Use {
    /// Whether it reads, writes or deletes.
    pub fn is_using(self) -> bool
        ensures { result ≡ is_using self }
    {
        self.is_reading || self.is_writing || self.is_deleting
    }

    /// Whether it lets others read.
    pub fn shares_reading(self) -> bool
        ensures { result ≡ has_any 1 self.share }
    {
        has_any(SHARE_READ, self.share)
    }

    /// Whether it lets others write.
    pub fn shares_writing(self) -> bool
        ensures { result ≡ has_any 2 self.share }
    {
        has_any(SHARE_WRITE, self.share)
    }

    /// Whether it lets others delete.
    pub fn shares_deleting(self) -> bool
        ensures { result ≡ has_any 4 self.share }
    {
        has_any(SHARE_DELETE, self.share)
    }
}
