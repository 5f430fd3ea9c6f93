//! Why a tree refuses to change. It is then as it was.

use thiserror::Error;

/// Why a node could not be added.
#[derive(Clone, Copy, Debug, PartialEq, Eq, Error)]
pub enum AddNo {
    /// No folder is at the path's parent.
    #[error("no folder is there")]
    PathNotFound,
    /// A node is at the path.
    #[error("a node is there")]
    Collision,
    #[error("a tree has at most 65536 nodes")]
    Full,
    #[error("out of memory")]
    Memory,
}

/// The folder has a child.
#[derive(Clone, Copy, Debug, PartialEq, Eq, Error)]
#[error("the folder isn't empty")]
pub struct NotEmpty;

/// Why a node could not be renamed.
#[derive(Clone, Copy, Debug, PartialEq, Eq, Error)]
pub enum MoveNo {
    /// The target is below the node.
    #[error("the target is below the node")]
    Inside,
    /// No folder is at the target's parent.
    #[error("no folder is there")]
    PathNotFound,
    /// A moved path would have more than 64 names, or more than 4,096 units.
    #[error("a path would be too long")]
    TooDeep,
    /// A node at the target is in the way.
    #[error("a node is there")]
    Collision,
    #[error("out of memory")]
    Memory,
}
