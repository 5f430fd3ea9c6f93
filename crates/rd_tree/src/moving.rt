//! How a node gets another place.

ghost use Rattle.std.specs.Prelude.{◌≡◌, ◌≢◌, ◌≤◌, ◌-◌, ℕ, ◌&&◌, ◌||◌, not, length, Some, None, true, false, OnOk, OnErr, OnSome};
ghost use Rattle.std.specs.Option.{is_some, IsSome, option_and_then, unwrap_or};
ghost use Rattle.std.specs.List.{list_all};
ghost use Rattle.rd_dirinfo.specs.Naming.{Name, seen};
ghost use Rattle.rd_dirinfo.specs.Paths.{is_name, seen_path};
ghost use Rattle.rd_tree.specs.Walk.{Key, LeadsThrough, FitsWithin, IsDeep, added_units};
ghost use Rattle.rd_tree.specs.Nodes.{child_of, file_of, kind_of, link_of, Retitles, SameNodes, Shifts};

use crate::keys::key_of;
use crate::node::Node;
use crate::nodes::{ROOT, child, delete, kind, link, unlink};
use rd_base::Units;
use rd_dirinfo::{MOST_PATH_UNITS, Naming};
use slab::Slab;
use std::alloc::{AllocError, Global};
use std::mem;

/// Whether the way along some names leads to a node, or through it.
pub fn leads_through(nodes: &Slab<Node>, naming: Naming, node: usize, names: &[Units]) -> bool
    requires { list_all is_name names.now ≡ true }
    ensures through { result ≡ true → LeadsThrough (child_of nodes.now) 0 node (seen_path naming names.now) }
    ensures past { result ≡ false → LeadsThrough (child_of nodes.now) 0 node (seen_path naming names.now) → ⊥ }
{
    let mut here = ROOT;
    for name in names {
        if here == node {
            return true;
        }
        match child(nodes, naming, here, name.as_slice()) {
            Some(next) => here = next,
            None => return false,
        }
    }
    here == node
}

/// How many units more a path may have that begins with some names.
pub fn units_left(names: &[Units]) -> usize
    requires { added_units names.now ≤ 4097 }
    ensures { result ≡ 4097 - added_units names.now }
{
    let mut left = MOST_PATH_UNITS as usize + 1;
    for name in names {
        left -= name.as_slice().len() + 1;
    }
    left
}

/// Whether no way down from a node has more names, or adds more units, than there is room for.
pub fn fits(nodes: &Slab<Node>, node: usize, names: usize, units: usize) -> bool
    ensures fits { result ≡ true → FitsWithin (child_of nodes.now) node names units }
    ensures deep { result ≡ false → IsDeep (child_of nodes.now) node names units }
{
    let Some(folder) = nodes.get(node) else {
        return true;
    };
    for (key, child) in &folder.children {
        let len = key.len();
        if names == 0 {
            return false;
        }
        if units <= len {
            return false;
        }
        if !fits(nodes, *child, names - 1, units - len - 1) {
            return false;
        }
    }
    true
}

/// Whether a node is in the way: it isn't to be replaced, or is a folder.
pub fn is_taken(nodes: &Slab<Node>, target: Option<usize>, replace: bool) -> bool
    ensures { result ≡ (is_some target && (not replace || unwrap_or (option_and_then (kind_of nodes.now) target) false)) }
{
    let Some(target) = target else {
        return false;
    };
    if !replace {
        return true;
    }
    match kind(nodes, target) {
        Some(folder) => folder,
        None => false,
    }
}

/// Gives a node another link, and answers the one that it had.
fn place(nodes: &mut Slab<Node>, node: usize, folder: usize, name: Units) -> Option<(usize, Units)>
    requires other { 0 ≢ node }
    ensures from { result ≡ link_of nodes.old node }
    ensures to { OnSome result (link_of nodes.new node ≡ Some (folder, name)) }
    ensures links { (n : ℕ) → (n ≡ node → ⊥) → link_of nodes.new n ≡ link_of nodes.old n }
    ensures children { (n : ℕ) (x : Key) → child_of nodes.new n x ≡ child_of nodes.old n x }
    ensures files { (n : ℕ) → file_of nodes.new n ≡ file_of nodes.old n }
{
    match nodes.get_mut(node) {
        Some(node) => {
            let was = mem::replace(&mut node.parent, folder);
            let old = mem::replace(&mut node.name, name);
            Some((was, old))
        }
        None => None,
    }
}

/// Gives a node a new name for the same key. Without memory nothing changes.
pub fn retitle(
    nodes: &mut Slab<Node>,
    alloc: Global,
    node: usize,
    folder: usize,
    name: &[u16],
) -> Result<(), AllocError>
    requires other { 0 ≢ node }
    requires linked { IsSome (link_of nodes.old node) }
    ensures retitled { OnOk result (Retitles nodes.old nodes.new node folder name.now) }
    ensures refused { OnErr result (SameNodes nodes.old nodes.new) }
{
    let own = Vec::from_slice(alloc, name)?;
    match place(nodes, node, folder, Units::of(own)) {
        Some(_) => Ok(()),
        None => Err(AllocError),
    }
}

/// Puts a node into another folder, in the place of a target if there is one. Without memory nothing changes.
pub fn shift(
    nodes: &mut Slab<Node>,
    alloc: Global,
    naming: Naming,
    node: usize,
    folder: usize,
    name: &[u16],
    target: Option<usize>,
) -> Result<(), AllocError>
    requires folder { IsSome (kind_of nodes.old folder) }
    requires other { 0 ≢ node }
    requires linked { IsSome (link_of nodes.old node) }
    requires named { (a : ℕ) (x : Name) → link_of nodes.old node ≡ Some (a, x) → is_name x ≡ true }
    ensures shifted { OnOk result ((a : ℕ) (x : Name) → link_of nodes.old node ≡ Some (a, x) → ((folder ≡ a) × (seen naming name.now ≡ seen naming x) → ⊥) → (target ≡ Some node → ⊥) → (target ≡ Some folder → ⊥) → Shifts naming nodes.old nodes.new node a x folder name.now target) }
    ensures refused { OnErr result (SameNodes nodes.old nodes.new) }
{
    let key = key_of(alloc, naming, name)?;
    let own = Vec::from_slice(alloc, name)?;
    if link(nodes, folder, key, node).is_err() {
        return Err(AllocError);
    }
    let Some((from, old)) = place(nodes, node, folder, Units::of(own)) else {
        return Err(AllocError);
    };
    unlink(nodes, naming, from, old.as_slice());
    match target {
        Some(target) => {
            delete(nodes, target);
            Ok(())
        }
        None => Ok(()),
    }
}
