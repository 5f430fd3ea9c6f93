//! What the requests that wait have to know of an operation.

ghost use Rattle.std.specs.Prelude.{◌≡◌};
ghost use Rattle.rd_folder_drive.specs.Served.{about, about_locks, nothing};
ghost use Rattle.rd_folder_drive.specs.declared.news.Named.TheVariants as Named;

use crate::way::Way;

/// What a change is about: something that is open, at the path that it has now, or a path at which nothing is any more.
#[derive(Debug, Drop)]
pub enum Named {
    Node(u32),
    Gone(Way),
}

/// A change, as those are told who watch a folder (MS-FSCC 2.7.1).
#[derive(Debug, Drop)]
pub struct Change {
    pub action: u32,
    pub named: Named,
    /// The bits of the filters that ask for it.
    pub bits: u32,
}

/// What the requests that wait have to know of an operation.
#[derive(Debug, Drop)]
pub struct News {
    /// The file id that was closed.
    pub closed: Option<u32>,
    /// The file that may have fewer locks.
    pub unlocked: Option<Named>,
    /// What changed, in order.
    pub changes: [Option<Change>; 3],
}

impl News {
    pub fn none() -> Self
        ensures { result ≡ nothing }
    {
        News {
            closed: None,
            unlocked: None,
            changes: [None, None, None],
        }
    }

    /// That something open changed.
    pub fn changed(action: u32, node: u32, bits: u32) -> Self
        ensures { result ≡ about (record { action = action; named = Named.Node node; bits = bits }) }
    {
        News {
            closed: None,
            unlocked: None,
            changes: [
                Some(Change {
                    action,
                    named: Named::Node(node),
                    bits,
                }),
                None,
                None,
            ],
        }
    }

    /// That an open file may have fewer locks.
    pub fn unlocked(node: u32) -> Self
        ensures { result ≡ about_locks node }
    {
        News {
            closed: None,
            unlocked: Some(Named::Node(node)),
            changes: [None, None, None],
        }
    }
}
