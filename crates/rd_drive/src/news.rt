//! What the requests that wait have to know of an operation.

ghost use Rattle.std.specs.Prelude.{◌≡◌, if◌then◌else◌};
ghost use Rattle.rd_drive.specs.Store.{about, about_locks, nothing};
ghost use Rattle.rd_drive.specs.declared.news.Named.TheVariants as Named;

use rd_base::Units;
use rd_tree::NodeId;

/// The node that a change is about: one that is there, with the name that it has now, or a name that a folder no longer has.
#[derive(Debug, Drop)]
pub enum Named {
    Node(NodeId),
    Gone { folder: NodeId, name: Units },
}

/// A change, as those are told who watch a folder (MS-FSCC 2.7.1).
#[derive(Debug, Drop)]
pub struct Change {
    /// FILE_ACTION_ADDED and the like.
    pub action: u32,
    pub named: Named,
    /// The bits of the filters that ask for it.
    pub bits: u32,
}

/// What the requests that wait have to know of an operation.
#[derive(Debug, Drop)]
pub struct News {
    /// The file id that was closed.
    pub closed: Option<u32>,
    /// The file that may have fewer locks.
    pub unlocked: Option<NodeId>,
    /// What changed, in order.
    pub changes: [Option<Change>; 3],
}

/// FILE_ACTION_ADDED (MS-FSCC 2.7.1)
pub const ADDED: u32 = 1;

/// FILE_ACTION_REMOVED
pub const REMOVED: u32 = 2;

/// FILE_ACTION_MODIFIED
pub const MODIFIED: u32 = 3;

/// FILE_ACTION_RENAMED_OLD_NAME
pub const RENAMED_FROM: u32 = 4;

/// FILE_ACTION_RENAMED_NEW_NAME
pub const RENAMED_TO: u32 = 5;

/// FILE_NOTIFY_CHANGE_SIZE and FILE_NOTIFY_CHANGE_LAST_WRITE (MS-SMB2 2.2.35)
pub const CONTENT_BITS: u32 = 0x18;

/// FILE_NOTIFY_CHANGE_ATTRIBUTES
pub const ATTRIBUTE_BITS: u32 = 4;

/// FILE_NOTIFY_CHANGE_DIR_NAME for a folder, FILE_NOTIFY_CHANGE_FILE_NAME for a file.
pub fn name_bit(folder: bool) -> u32
    ensures { result ≡ (if folder then 2 else 1) }
{
    if folder { 2 } else { 1 }
}

impl News {
    /// Nothing to tell.
    pub fn none() -> Self
        ensures { result ≡ nothing }
    {
        News {
            closed: None,
            unlocked: None,
            changes: [None, None, None],
        }
    }

    /// That a node changed.
    pub fn changed(action: u32, node: NodeId, bits: u32) -> Self
        ensures { result ≡ about (record { action = action; named = Named.Node node; bits = bits }) }
    {
        News {
            closed: None,
            unlocked: None,
            changes: [
                Some(Change {
                    action,
                    named: Named::Node(node),
                    bits,
                }),
                None,
                None,
            ],
        }
    }

    /// That a file may have fewer locks.
    pub fn unlocked(node: NodeId) -> Self
        ensures { result ≡ about_locks node }
    {
        News {
            closed: None,
            unlocked: Some(node),
            changes: [None, None, None],
        }
    }
}
