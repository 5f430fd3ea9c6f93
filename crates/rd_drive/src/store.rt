//! What a drive keeps, and its parts.

ghost use Rattle.std.specs.Prelude.{◌≡◌, ◌≢◌, ◌⊎◌, ℕ, IsSome, IfErr, IfOk, None, Some, OnErr, false, if◌then◌else◌, nat_eq};
ghost use Rattle.std.specs.Option.{option_map, unwrap_or};
ghost use Rattle.std.specs.Ordering.{nat_cmp};
ghost use Rattle.std.specs.BTreeMap.{IsOrdered};
ghost use Rattle.std.specs.HashMap.{get};
ghost use Rattle.rd_drive.specs.Store.{kept_handle, state_of};
ghost use Rattle.rd_drive.specs.Kept.{IsKept};
ghost use Rattle.rd_drive.specs.Made.{AddsNode, IsAlike};
ghost use Rattle.rd_tree.specs.declared.refusal.AddNo.TheVariants as AddNo;
ghost use Rattle.rd_tree.specs.Places.{add_refusal, folder_of, has_child, node_at, without, IsLive};

use crate::handle::Handle;
use crate::news::News;
use crate::node::NodeState;
use crate::waiting::Waiting;
use rd_base::{Status, Units};
use rd_dirinfo::{Naming, Path};
use rd_irp::Body;
use rd_locks::Locks;
use rd_tree::{AddNo, NodeId, Tree};
use std::alloc::Global;
use std::collections::{BTreeMap, HashMap};

/// What a drive keeps.
#[derive(Drop)]
pub struct Store {
    pub alloc: Global,
    pub naming: Naming,
    pub label: Units,
    pub tree: Tree,
    /// Of each node, by its number.
    pub states: HashMap<u32, NodeState>,
    /// By file id.
    pub handles: BTreeMap<u32, Handle>,
    pub locks: Locks,
    /// In the order in which they began to wait.
    pub waiting: Vec<Waiting>,
    /// The file id that is given next.
    pub next: u64,
}

/// What an operation comes to that isn't refused.
#[derive(Debug, Drop)]
pub enum Done {
    /// The body of its reply, and what the requests that wait have to know.
    Replied(Body, News),
    /// It waits.
    Parked,
}

/// What an operation comes to, before the requests that wait are looked at.
pub type Outcome = Result<Done, Status>;

impl Store {
    /// Adds a folder or an empty file in a folder that was found for it, with its attributes, at a moment.
    pub fn add_node(
        &mut self,
        parent: NodeId,
        path: &Path,
        folder: bool,
        attributes: u32,
        moment: u64,
    ) -> Result<NodeId, AddNo>
        requires place { folder_of self.old.tree path.now ≡ Some parent.0 }
        requires free { node_at self.old.tree path.now ≡ None }
        ensures added { IfOk result (λ node. AddsNode self.old self.new path.now folder attributes moment node.0) }
        ensures other { IfOk result (λ node. 0 ≢ node.0) }
        ensures refused { IfErr result (λ no. no ≡ unwrap_or (add_refusal self.old.tree path.now) AddNo.Memory ⊎ no ≡ AddNo.Memory) }
        ensures err { OnErr result (IsAlike self.old self.new) }
    {
        if self.states.reserve(1).is_err() {
            return Err(AddNo::Memory);
        }
        let node = self.tree.add_in(parent, path, folder)?;
        let _ = self
            .states
            .insert(node.0, NodeState::new(attributes, moment));
        Ok(node)
    }

    /// Takes a node back that was added.
    pub fn take_back(&mut self, node: NodeId)
        requires live { IsLive self.old.tree node.0 }
        requires other { 0 ≢ node.0 }
        requires empty { has_child self.old.tree node.0 ≡ false }
        ensures others { self.new ≡ record self.old { tree = self.new.tree; states = self.new.states } }
        ensures tree { self.new.tree ≡ without self.old.tree node.0 }
        ensures states { (n : ℕ) → get nat_eq self.new.states n ≡ (if nat_eq node.0 n then None else get nat_eq self.old.states n) }
    {
        let _ = self.tree.remove(node);
        self.states.remove(&node.0);
    }

    /// What is kept of a node.
    pub fn state(&self, node: NodeId) -> NodeState
        requires { IsSome (get nat_eq self.now.states node.0) }
        ensures { result ≡ state_of self.now.states node.0 }
    {
        match self.states.get(&node.0) {
            Some(state) => *state,
            None => unreachable!(),
        }
    }

    /// Keeps something else of a node.
    pub fn set_state(&mut self, node: NodeId, state: NodeState)
        requires { IsSome (get nat_eq self.old.states node.0) }
        ensures others { self.new ≡ record self.old { states = self.new.states } }
        ensures kept { IsKept self.old.states self.new.states node.0 state }
    {
        if let Some(kept) = self.states.get_mut(&node.0) {
            *kept = state;
        }
    }

    /// What every map of handles is: its file ids rise. It does nothing, and is called for what it promises.
    pub fn ordered(&self)
        ensures { IsOrdered nat_cmp self.now.handles }
    {
        let _ = self.handles.len();
    }

    /// The handle of a file id.
    pub fn handle(&self, file: u32) -> Option<&Handle>
        ensures { option_map (λ handle. handle.now) result ≡ kept_handle self.now file }
    {
        self.handles.get(&file)
    }
}
