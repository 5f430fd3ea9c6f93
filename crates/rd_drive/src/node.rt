//! What a drive keeps of a node beside its path and its bytes.

ghost use Rattle.std.specs.Prelude.{◌≡◌, ◌==◌, ◌&&◌, if◌then◌else◌, not, bit_and, bit_or};
ghost use Rattle.rd_drive.specs.Access.{has_any};
ghost use Rattle.rd_drive.specs.Made.{made_state};

use crate::access::has_any;
use crate::uses::Uses;
use rd_base::Moments;

/// READONLY
const READONLY: u32 = 1;

/// DIRECTORY
const DIRECTORY: u32 = 0x10;

/// NORMAL
const NORMAL: u32 = 0x80;

/// What a drive keeps of a node beside its path and its bytes.
#[derive(Clone, Copy, Debug, PartialEq, Eq, Drop)]
pub struct NodeState {
    /// As they are stored, which isn't as they are shown (MS-FSCC 2.6).
    pub attributes: u32,
    /// In units of 100 ns since 1601-01-01 UTC.
    pub moments: Moments,
    /// The node goes with its last handle.
    pub pending: bool,
    pub uses: Uses,
}

impl NodeState {
    /// That of a node which is made at a moment.
    pub fn new(attributes: u32, moment: u64) -> Self
        ensures { result ≡ made_state attributes moment }
    {
        NodeState {
            attributes,
            moments: Moments {
                creation: moment,
                access: moment,
                write: moment,
                change: moment,
            },
            pending: false,
            uses: Uses::new(),
        }
    }
}

/// Whether a file with these stored attributes is read-only. A folder never is.
pub fn is_readonly(folder: bool, attributes: u32) -> bool
    ensures { result ≡ (not folder && has_any 1 attributes) }
{
    !folder && has_any(READONLY, attributes)
}

/// What a node stores of attributes that are set.
pub fn stored_attributes(folder: bool, asked: u32) -> u32
    ensures { result ≡ (if folder then bit_and asked 7 else bit_and asked 0x27) }
{
    if folder { asked & 7 } else { asked & 0x27 }
}

/// What a node shows: a folder DIRECTORY beside what it stores, and a file what it stores, or NORMAL for nothing.
pub fn shown_attributes(folder: bool, stored: u32) -> u32
    ensures { result ≡ (if folder then bit_or stored 0x10 else (if stored == 0 then 0x80 else stored)) }
{
    if folder {
        stored | DIRECTORY
    } else if stored == 0 {
        NORMAL
    } else {
        stored
    }
}
