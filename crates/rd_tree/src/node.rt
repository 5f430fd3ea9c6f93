//! One node of a tree.

use rd_base::Units;
use rd_contents::Contents;
use std::collections::BTreeMap;

/// The number of a node, which it keeps for its life.
#[derive(Clone, Copy, Debug, PartialEq, Eq)]
pub struct NodeId(pub u32);

/// Where a path leads.
#[derive(Clone, Copy)]
pub struct Found {
    /// The folder in which its last name stands, if one is there; of the root's path the root itself.
    pub folder: Option<NodeId>,
    /// The node at it.
    pub node: Option<NodeId>,
}

/// A file or a folder. A file has no children, and a folder no bytes.
#[derive(Drop)]
pub struct Node {
    pub parent: usize,
    /// As it was made or last renamed.
    pub name: Units,
    pub folder: bool,
    pub contents: Contents,
    /// The numbers of the children, by the keys of their names.
    pub children: BTreeMap<Vec<u16>, usize>,
}
