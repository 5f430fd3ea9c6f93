//! The tree.

ghost use Rattle.std.specs.Prelude.{◌≡◌, ◌≢◌, ◌↔◌, ◌<◌, ◌≤◌, ◌^◌, ℕ, [], ◌∷◌, ◌++◌, length, not, IsTrue, true, false, Some, None, Err, IfSome, IfNone, IfOk, IfErr, OnOk, OnErr};
ghost use Rattle.std.specs.Option.{option_map, unwrap_or, is_some};
ghost use Rattle.rd_dirinfo.specs.Paths.{is_name, last_name, parent};
ghost use Rattle.rd_contents.specs.Contents.{part, written, resized, max_len, EndsTooFar};
ghost use Rattle.rd_contents.specs.declared.contents.SizeNo.TheVariants as SizeNo;
ghost use Rattle.rd_tree.specs.declared.refusal.AddNo.TheVariants as AddNo;
ghost use Rattle.rd_tree.specs.Places.{add_refusal, node_at, Adds, bytes_at, file_at, folder_of, has_child, is_folder, next_name, own_path, root_alone, with_bytes, without, IsLive, IsFile, IsWhole, Renames};

use crate::listing::next_name;
use crate::moving::{fits, is_taken, leads_through, retitle, shift, units_left};
use crate::node::{Found, Node, NodeId};
use crate::nodes::{ROOT, child, find, has_child, insert, locate, take_out};
use crate::refusal::{AddNo, MoveNo, NotEmpty};
use rd_base::{Bytes, Units};
use rd_contents::{Contents, SizeNo};
use rd_dirinfo::{MOST_NAMES, Naming, Path, Pattern};
use slab::Slab;
use std::alloc::{AllocError, Global};
use std::collections::BTreeMap;
use std::marker::Model;

/// The most nodes of a tree, with the root.
pub const MAX_NODES: usize = 65_536;

/// A tree of files and folders.
#[derive(Drop)]
pub struct Tree {
    nodes: Slab<Node>,
    naming: Naming,
    alloc: Global,
}

impl Model for Tree {
    ghost use Rattle.rd_tree.specs.Places.{Places};

    ghost Value = { Places };

    ghost use Rattle.rd_tree.specs.Nodes.{places_of, IsSoundTree};

    ghost view = { λ t. places_of t.naming t.nodes };

    ghost invariant = { λ t. IsSoundTree t.naming t.nodes };
}

/// A number that was found, which fits 32 bits.
fn numbered(found: Option<usize>) -> Option<NodeId>
    requires { IfSome found (λ n. n < 2 ^ 32) }
    ensures { option_map (λ node. node.0) result ≡ found }
{
    match found {
        Some(node) => Some(NodeId(node as u32)),
        None => None,
    }
}

impl Tree {
    /// The root alone.
    pub fn new(alloc: Global, naming: Naming) -> Result<Self, AllocError>
        ensures made { IfOk result (λ tree. tree ≡ root_alone naming) }
        ensures is_whole { IfOk result (λ tree. IsWhole tree) }
    {
        let mut nodes = Slab::new(alloc);
        nodes.insert(Node {
            parent: ROOT,
            name: Units::of(Vec::new(alloc)),
            folder: true,
            contents: Contents::new(alloc),
            children: BTreeMap::new(alloc),
        })?;
        Ok(Tree {
            nodes,
            naming,
            alloc,
        })
    }

    /// The node at a path.
    pub fn find(&self, path: &Path) -> Option<NodeId>
        ensures found { option_map (λ node. node.0) result ≡ node_at self.now path.now }
        ensures live { IfSome result (λ node. IsLive self.now node.0) }
        ensures root { IfSome result (λ node. 0 ≡ node.0 → path.now ≡ []) }
    {
        numbered(find(&self.nodes, self.naming, path.names()))
    }

    /// The folder and the node that a path leads to, by one way down.
    pub fn look(&self, path: &Path) -> Found
        ensures folder { option_map (λ folder. folder.0) result.folder ≡ folder_of self.now path.now }
        ensures node { option_map (λ node. node.0) result.node ≡ node_at self.now path.now }
        ensures folder_live { IfSome result.folder (λ folder. IsLive self.now folder.0) }
        ensures node_live { IfSome result.node (λ node. IsLive self.now node.0) }
        ensures lost { IfNone result.folder (add_refusal self.now path.now ≡ Some AddNo.PathNotFound) }
    {
        let nodes = &self.nodes;
        let names = path.names();
        if names.is_empty() {
            let root = NodeId(ROOT as u32);
            return Found {
                folder: Some(root),
                node: Some(root),
            };
        }
        let Some((folder, name)) = locate(nodes, self.naming, names) else {
            return Found {
                folder: None,
                node: None,
            };
        };
        Found {
            folder: Some(NodeId(folder as u32)),
            node: numbered(child(nodes, self.naming, folder, name)),
        }
    }

    /// The folder in which a node may be added at a path, but for want of room.
    pub fn free(&self, path: &Path) -> Result<NodeId, AddNo>
        ensures folder { IfOk result (λ folder. folder_of self.now path.now ≡ Some folder.0) }
        ensures free { OnOk result (node_at self.now path.now ≡ None) }
        ensures refused { IfErr result (λ no. add_refusal self.now path.now ≡ Some no) }
    {
        let found = self.look(path);
        match found.folder {
            Some(folder) if found.node.is_none() => Ok(folder),
            Some(_) => Err(AddNo::Collision),
            None => Err(AddNo::PathNotFound),
        }
    }

    /// The node with a name in a folder.
    pub fn child(&self, folder: NodeId, name: &[u16]) -> Option<NodeId>
        requires folder { is_folder self.now folder.0 ≡ Some true }
        requires name { is_name name.now ≡ true }
        ensures found { option_map (λ node. node.0) result ≡ node_at self.now (own_path self.now folder.0 ++ name.now ∷ []) }
        ensures live { IfSome result (λ node. IsLive self.now node.0) }
    {
        numbered(child(&self.nodes, self.naming, folder.0 as usize, name))
    }

    /// The folder in which a node stands that isn't the root.
    pub fn parent(&self, node: NodeId) -> NodeId
        requires live { IsLive self.now node.0 }
        requires other { 0 ≢ node.0 }
        ensures above { own_path self.now result.0 ≡ parent (own_path self.now node.0) }
        ensures live { IsLive self.now result.0 }
        ensures folder { is_folder self.now result.0 ≡ Some true }
    {
        match self.nodes.get(node.0 as usize) {
            Some(node) => NodeId(node.parent as u32),
            None => unreachable!(),
        }
    }

    /// The name of a node that isn't the root, as it was made or last renamed.
    pub fn name(&self, node: NodeId) -> &Units
        requires live { IsLive self.now node.0 }
        requires other { 0 ≢ node.0 }
        ensures last { result.now ≡ last_name (own_path self.now node.0) }
        ensures name { is_name result.now ≡ true }
    {
        match self.nodes.get(node.0 as usize) {
            Some(node) => &node.name,
            None => unreachable!(),
        }
    }

    /// Whether something stands in a folder.
    pub fn has_child(&self, node: NodeId) -> bool
        requires { IsLive self.now node.0 }
        ensures { result ≡ has_child self.now node.0 }
    {
        has_child(&self.nodes, node.0 as usize)
    }

    /// Whether a node is a folder.
    pub fn is_folder(&self, node: NodeId) -> bool
        requires { IsLive self.now node.0 }
        ensures kind { is_folder self.now node.0 ≡ Some result }
        ensures bytes { result ≡ not (is_some (bytes_at self.now node.0)) }
    {
        match self.nodes.get(node.0 as usize) {
            Some(node) => node.folder,
            None => unreachable!(),
        }
    }

    /// How many bytes a file has; a folder has none.
    pub fn end(&self, node: NodeId) -> Option<u64>
        requires { IsLive self.now node.0 }
        ensures end { result ≡ option_map length (bytes_at self.now node.0) }
        ensures most { IfSome result (λ end. end ≤ max_len) }
        ensures file { IfSome result (λ _. IsFile self.now node.0) }
        ensures folder { IfNone result (is_folder self.now node.0 ≡ Some true) }
    {
        let Some(node) = self.nodes.get(node.0 as usize) else {
            return None;
        };
        if node.folder {
            return None;
        }
        Some(node.contents.len())
    }

    /// The bytes of a file from an offset up to its end, at most `count`.
    pub fn read(&self, node: NodeId, offset: u64, count: u32) -> Result<Bytes, AllocError>
        requires { IsFile self.now node.0 }
        ensures { IfOk result (λ bytes. bytes ≡ part (file_at self.now node.0) offset count) }
    {
        let Some(file) = self.nodes.get(node.0 as usize) else {
            unreachable!()
        };
        file.contents.read(offset, count)
    }

    /// Appends the bytes of a file from an offset up to its end, at most `count`.
    pub fn read_into(
        &self,
        node: NodeId,
        out: &mut Vec<u8>,
        offset: u64,
        count: u32,
    ) -> Result<(), AllocError>
        requires { IsFile self.now node.0 }
        ensures read { OnOk result (out.new.items ≡ out.old.items ++ part (file_at self.now node.0) offset count) }
        ensures err { OnErr result (out.new.items ≡ out.old.items) }
    {
        let Some(file) = self.nodes.get(node.0 as usize) else {
            unreachable!()
        };
        file.contents.read_into(out, offset, count)
    }

    /// Adds a folder or an empty file. Its number is none that is live; one that was removed may come again.
    pub fn add(&mut self, path: &Path, folder: bool) -> Result<NodeId, AddNo>
        ensures added { IfOk result (λ node. Adds self.old self.new path.now folder node.0) }
        ensures live { IfOk result (λ node. IsLive self.new node.0) }
        ensures file { IfOk result (λ node. folder ≡ false → IsFile self.new node.0) }
        ensures other { IfOk result (λ node. 0 ≢ node.0) }
        ensures is_whole { OnOk result (IsWhole self.new) }
        ensures refused { IfErr result (λ no. no ≡ unwrap_or (add_refusal self.old path.now) AddNo.Memory) }
        ensures err { OnErr result (self.new ≡ self.old) }
    {
        let parent = match self.free(path) {
            Ok(parent) => parent,
            Err(no) => return Err(no),
        };
        self.add_in(parent, path, folder)
    }

    /// The same where the path is known to be free, in the folder that was found.
    pub fn add_in(&mut self, parent: NodeId, path: &Path, folder: bool) -> Result<NodeId, AddNo>
        requires place { folder_of self.old path.now ≡ Some parent.0 }
        requires free { node_at self.old path.now ≡ None }
        ensures added { IfOk result (λ node. Adds self.old self.new path.now folder node.0) }
        ensures live { IfOk result (λ node. IsLive self.new node.0) }
        ensures file { IfOk result (λ node. folder ≡ false → IsFile self.new node.0) }
        ensures other { IfOk result (λ node. 0 ≢ node.0) }
        ensures is_whole { OnOk result (IsWhole self.new) }
        ensures refused { IfErr result (λ no. no ≡ unwrap_or (add_refusal self.old path.now) AddNo.Memory) }
        ensures err { OnErr result (self.new ≡ self.old) }
    {
        let Some((name, _)) = path.names().split_last() else {
            unreachable!()
        };
        if self.nodes.len() >= MAX_NODES {
            return Err(AddNo::Full);
        }
        let made = insert(
            &mut self.nodes,
            self.alloc,
            self.naming,
            parent.0 as usize,
            name.as_slice(),
            folder,
        );
        let Ok(node) = made else {
            return Err(AddNo::Memory);
        };
        Ok(NodeId(node as u32))
    }

    /// Removes a file, or a folder without children, but not the root; its name is left. Its number is live no more, and may be given
    /// again.
    pub fn remove(&mut self, node: NodeId) -> Result<Units, NotEmpty>
        requires live { IsLive self.old node.0 }
        requires other { 0 ≢ node.0 }
        ensures name { IfOk result (λ name. name ≡ last_name (own_path self.old node.0)) }
        ensures removed { OnOk result (self.new ≡ without self.old node.0) }
        ensures is_whole { OnOk result (IsWhole self.new) }
        ensures not_empty { (result ≡ Err (record {})) ↔ IsTrue (has_child self.old node.0) }
        ensures err { OnErr result (self.new ≡ self.old) }
    {
        if has_child(&self.nodes, node.0 as usize) {
            return Err(NotEmpty);
        }
        Ok(take_out(&mut self.nodes, self.naming, node.0 as usize))
    }

    /// Gives a node that isn't the root, with all that is below it, a new path, which isn't the root's. A file that is there is
    /// replaced, if that is asked for. Its own path, as the naming sees it, is never refused; it is then kept as asked.
    pub fn rename(&mut self, node: NodeId, to: &Path, replace: bool) -> Result<(), MoveNo>
        requires live { IsLive self.old node.0 }
        requires other { 0 ≢ node.0 }
        requires target { 0 < length to.now }
        ensures renames { Renames self.old self.new node.0 to.now replace result }
        ensures is_whole { OnOk result (IsWhole self.new) }
    {
        let names = to.names();
        let node = node.0 as usize;
        let target = find(&self.nodes, self.naming, names);
        if target == Some(node) {
            let Some((folder, name)) = locate(&self.nodes, self.naming, names) else {
                return Err(MoveNo::PathNotFound);
            };
            return match retitle(&mut self.nodes, self.alloc, node, folder, name) {
                Ok(()) => Ok(()),
                Err(_) => Err(MoveNo::Memory),
            };
        }
        if leads_through(&self.nodes, self.naming, node, names) {
            return Err(MoveNo::Inside);
        }
        let Some((folder, name)) = locate(&self.nodes, self.naming, names) else {
            return Err(MoveNo::PathNotFound);
        };
        if !fits(
            &self.nodes,
            node,
            MOST_NAMES as usize - names.len(),
            units_left(names),
        ) {
            return Err(MoveNo::TooDeep);
        }
        if is_taken(&self.nodes, target, replace) {
            return Err(MoveNo::Collision);
        }
        match shift(
            &mut self.nodes,
            self.alloc,
            self.naming,
            node,
            folder,
            name,
            target,
        ) {
            Ok(()) => Ok(()),
            Err(_) => Err(MoveNo::Memory),
        }
    }

    /// The first name of a folder's children, in the order of the naming, that matches a pattern and comes after another name,
    /// if one is given.
    pub fn next(&self, folder: NodeId, after: Option<&Units>, pattern: &Pattern) -> Option<&Units>
        requires { is_folder self.now folder.0 ≡ Some true }
        ensures { option_map (λ name. name.now) result ≡ next_name self.now folder.0 (option_map (λ other. other.now) after.entry) pattern.now }
    {
        next_name(&self.nodes, self.naming, folder.0 as usize, after, pattern)
    }

    /// Writes bytes into a file at an offset.
    pub fn write(&mut self, node: NodeId, offset: u64, bytes: &[u8]) -> Result<(), SizeNo>
        requires { IsFile self.old node.0 }
        ensures file { IsFile self.new node.0 }
        ensures written { OnOk result (self.new ≡ with_bytes self.old node.0 (λ file. written file offset bytes.now)) }
        ensures is_whole { OnOk result (IsWhole self.new) }
        ensures too_big { (result ≡ Err SizeNo.TooBig) ↔ EndsTooFar offset bytes.now }
        ensures err { OnErr result (self.new ≡ self.old) }
    {
        let Some(file) = self.nodes.get_mut(node.0 as usize) else {
            unreachable!()
        };
        file.contents.write(offset, bytes)
    }

    /// Cuts a file at an end, or extends it by zeros.
    pub fn resize(&mut self, node: NodeId, end: u64) -> Result<(), SizeNo>
        requires { IsFile self.old node.0 }
        ensures file { IsFile self.new node.0 }
        ensures resized { OnOk result (self.new ≡ with_bytes self.old node.0 (λ file. resized file end)) }
        ensures is_whole { OnOk result (IsWhole self.new) }
        ensures too_big { (result ≡ Err SizeNo.TooBig) ↔ max_len < end }
        ensures err { OnErr result (self.new ≡ self.old) }
    {
        let Some(file) = self.nodes.get_mut(node.0 as usize) else {
            unreachable!()
        };
        file.contents.resize(end)
    }
}
