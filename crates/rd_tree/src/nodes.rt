//! What is done with the nodes of a tree, a step at a time.

ghost use Rattle.std.specs.Prelude.{◌≡◌, ◌≢◌, ◌≤◌, ◌<◌, ◌-◌, ◌^◌, ℕ, [], length, take, map, if◌then◌else◌, Some, None, Err, true, false, IsSome, IfSome, IfNone, IfOk, OnOk, OnErr};
ghost use Rattle.std.specs.Option.{option_map};
ghost use Rattle.std.specs.List.{list_all};
ghost use Rattle.rd_dirinfo.specs.Naming.{Name, seen};
ghost use Rattle.rd_dirinfo.specs.Paths.{is_name, seen_path};
ghost use Rattle.rd_tree.specs.Walk.{Key, down};
ghost use Rattle.rd_tree.specs.Nodes.{child_of, file_of, kind_of, link_of, HasChild, Inserts, LacksFolder, Locates, Removes, SameNodes};

use crate::keys::{fold_into, key_of};
use crate::node::Node;
use rd_base::Units;
use rd_contents::Contents;
use rd_dirinfo::Naming;
use slab::Slab;
use std::alloc::{AllocError, Global};
use std::collections::BTreeMap;

/// The number of the root.
pub const ROOT: usize = 0;

/// The most units of a name.
pub const MOST_NAME_UNITS: usize = 255;

/// The child of a node at a key.
fn child_at(nodes: &Slab<Node>, node: usize, key: &[u16]) -> Option<usize>
    ensures { result ≡ child_of nodes.now node key.now }
{
    match nodes.get(node) {
        Some(folder) => folder.children.get(key).copied(),
        None => None,
    }
}

/// The child of a node with a name.
pub fn child(nodes: &Slab<Node>, naming: Naming, node: usize, name: &[u16]) -> Option<usize>
    requires { is_name name.now ≡ true }
    ensures { result ≡ child_of nodes.now node (seen naming name.now) }
{
    match naming {
        Naming::Exact => child_at(nodes, node, name),
        Naming::Folded => {
            let mut buffer = [0u16; MOST_NAME_UNITS];
            fold_into(name, &mut buffer);
            child_at(nodes, node, &buffer[..name.len()])
        }
    }
}

/// Whether a node is a folder.
pub fn kind(nodes: &Slab<Node>, node: usize) -> Option<bool>
    ensures { result ≡ kind_of nodes.now node }
{
    match nodes.get(node) {
        Some(node) => Some(node.folder),
        None => None,
    }
}

/// The node that some names lead to from the root on.
pub fn find(nodes: &Slab<Node>, naming: Naming, names: &[Units]) -> Option<usize>
    requires { list_all is_name names.now ≡ true }
    ensures { result ≡ down (child_of nodes.now) 0 (seen_path naming names.now) }
{
    let mut node = ROOT;
    for name in names {
        match child(nodes, naming, node, name.as_slice()) {
            Some(next) => node = next,
            None => return None,
        }
    }
    Some(node)
}

/// The last of some names, and the folder that the others lead to. There is none for the root.
pub fn locate<'a>(
    nodes: &Slab<Node>,
    naming: Naming,
    names: &'a [Units],
) -> Option<(usize, &'a [u16])>
    requires { list_all is_name names.now ≡ true }
    ensures located { IfSome result (λ p. Locates naming nodes.now names.now p.0 p.1.now) }
    ensures lost { IfNone result (0 < length names.now → LacksFolder naming nodes.now names.now) }
{
    let (name, parents) = names.split_last()?;
    let folder = find(nodes, naming, parents)?;
    match kind(nodes, folder) {
        Some(true) => Some((folder, name.as_slice())),
        _ => None,
    }
}

/// Gives a folder a child.
pub fn link(
    nodes: &mut Slab<Node>,
    folder: usize,
    key: Vec<u16>,
    node: usize,
) -> Result<(), AllocError>
    requires { IsSome (kind_of nodes.old folder) }
    ensures here { OnOk result (child_of nodes.new folder key.items ≡ Some node) }
    ensures others { (n : ℕ) (x : Key) → ((n ≡ folder) × (x ≡ key.items) → ⊥) → child_of nodes.new n x ≡ child_of nodes.old n x }
    ensures refused { OnErr result ((n : ℕ) (x : Key) → child_of nodes.new n x ≡ child_of nodes.old n x) }
    ensures links { (n : ℕ) → link_of nodes.new n ≡ link_of nodes.old n }
    ensures files { (n : ℕ) → file_of nodes.new n ≡ file_of nodes.old n }
{
    match nodes.get_mut(folder) {
        Some(folder) => {
            folder.children.insert(key, node)?;
            Ok(())
        }
        None => Err(AllocError),
    }
}

/// Takes a child from a folder.
fn unlink_at(nodes: &mut Slab<Node>, folder: usize, key: &[u16])
    ensures gone { child_of nodes.new folder key.now ≡ None }
    ensures others { (n : ℕ) (x : Key) → ((n ≡ folder) × (x ≡ key.now) → ⊥) → child_of nodes.new n x ≡ child_of nodes.old n x }
    ensures links { (n : ℕ) → link_of nodes.new n ≡ link_of nodes.old n }
    ensures files { (n : ℕ) → file_of nodes.new n ≡ file_of nodes.old n }
{
    if let Some(folder) = nodes.get_mut(folder) {
        folder.children.remove(key);
    }
}

/// Takes the child with a name from a folder.
pub fn unlink(nodes: &mut Slab<Node>, naming: Naming, folder: usize, name: &[u16])
    requires { is_name name.now ≡ true }
    ensures gone { child_of nodes.new folder (seen naming name.now) ≡ None }
    ensures others { (n : ℕ) (x : Key) → ((n ≡ folder) × (x ≡ seen naming name.now) → ⊥) → child_of nodes.new n x ≡ child_of nodes.old n x }
    ensures links { (n : ℕ) → link_of nodes.new n ≡ link_of nodes.old n }
    ensures files { (n : ℕ) → file_of nodes.new n ≡ file_of nodes.old n }
{
    match naming {
        Naming::Exact => unlink_at(nodes, folder, name),
        Naming::Folded => {
            let mut buffer = [0u16; MOST_NAME_UNITS];
            fold_into(name, &mut buffer);
            unlink_at(nodes, folder, &buffer[..name.len()]);
        }
    }
}

/// Takes a node away, which no folder has.
pub fn delete(nodes: &mut Slab<Node>, node: usize)
    ensures bare { (x : Key) → child_of nodes.new node x ≡ None }
    ensures children { (n : ℕ) (x : Key) → (n ≡ node → ⊥) → child_of nodes.new n x ≡ child_of nodes.old n x }
    ensures link { link_of nodes.new node ≡ None }
    ensures links { (n : ℕ) → (n ≡ node → ⊥) → link_of nodes.new n ≡ link_of nodes.old n }
    ensures file { file_of nodes.new node ≡ None }
    ensures files { (n : ℕ) → (n ≡ node → ⊥) → file_of nodes.new n ≡ file_of nodes.old n }
{
    nodes.try_remove(node);
}

/// Makes a folder or an empty file, the child of a folder. Without memory nothing changes.
pub fn insert(
    nodes: &mut Slab<Node>,
    alloc: Global,
    naming: Naming,
    parent: usize,
    name: &[u16],
    folder: bool,
) -> Result<usize, AllocError>
    requires root { IsSome (kind_of nodes.old 0) }
    requires parent { IsSome (kind_of nodes.old parent) }
    ensures inserted { IfOk result (Inserts naming nodes.old nodes.new parent name.now (if folder then None else Some [])) }
    ensures refused { OnErr result (SameNodes nodes.old nodes.new) }
{
    let key = key_of(alloc, naming, name)?;
    let own = Vec::from_slice(alloc, name)?;
    if nodes.vacant_key() > u32::MAX as usize {
        return Err(AllocError);
    }
    let made = nodes.insert(Node {
        parent,
        name: Units::of(own),
        folder,
        contents: Contents::new(alloc),
        children: BTreeMap::new(alloc),
    });
    let Ok(node) = made else {
        return Err(AllocError);
    };
    if link(nodes, parent, key, node).is_err() {
        delete(nodes, node);
        return Err(AllocError);
    }
    Ok(node)
}

/// Whether a node has a child.
pub fn has_child(nodes: &Slab<Node>, node: usize) -> bool
    ensures some { result ≡ true → HasChild nodes.now node }
    ensures none { result ≡ false → (x : Key) → child_of nodes.now node x ≡ None }
{
    match nodes.get(node) {
        Some(folder) => match folder.children.first_key_value() {
            Some(_) => true,
            None => false,
        },
        None => false,
    }
}

/// Takes a node out of its folder, and away. What is left of it is its name.
pub fn take_out(nodes: &mut Slab<Node>, naming: Naming, node: usize) -> Units
    requires other { 0 ≢ node }
    requires live { IsSome (kind_of nodes.old node) }
    requires named { (a : ℕ) (x : Name) → link_of nodes.old node ≡ Some (a, x) → is_name x ≡ true }
    ensures removed { (a : ℕ) (x : Name) → link_of nodes.old node ≡ Some (a, x) → Removes nodes.old nodes.new a (seen naming x) node }
    ensures name { (a : ℕ) (x : Name) → link_of nodes.old node ≡ Some (a, x) → result ≡ x }
{
    let Some(taken) = nodes.try_remove(node) else {
        unreachable!()
    };
    let Node { parent, name, .. } = taken;
    unlink(nodes, naming, parent, name.as_slice());
    name
}
