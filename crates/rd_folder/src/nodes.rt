//! Nodes of a folder in memory, in the order of their paths.

ghost use Rattle.std.specs.Prelude.{◌≡◌, ◌<◌, ◌≤◌, ◌^◌, ◌&&◌, ℕ, [], true, get_or, set, None, length, map, find, position, IfOk, IfSome, OnOk, OnErr, vec_len, vec_capacity};
ghost use Rattle.std.specs.Option.{option_map, unwrap_or};
ghost use Rattle.std.specs.List.{list_any};
ghost use Rattle.rd_dirinfo.specs.declared.naming.Naming.TheVariants as Naming;
ghost use Rattle.rd_dirinfo.specs.Paths.{is_below, is_parent, is_prefix, last_name, moved_path};
ghost use Rattle.rd_dirinfo.specs.Patterns.{is_wanted};
ghost use Rattle.rd_drive.specs.DriveState.{Node, add_node, in_order, is_at_path, new_node};
ghost use Rattle.rd_folder.specs.FolderCalls.{listed_of};
ghost use Rattle.rd_folder.specs.InMemory.{carried, is_no_earlier, changed_node, left_out, paths_of, relocated};

use crate::look::Listed;
use crate::node::{MemNode, compare};
use rd_base::Units;
use rd_dirinfo::{Naming, Pattern};
use std::alloc::{AllocError, Global};
use std::mem;

/// Where the node at a path stands among others.
pub fn position(nodes: &[MemNode], path: &[Units]) -> Option<usize>
    ensures { result ≡ position (is_at_path Naming.Exact path.now) nodes.now }
{
    nodes.iter().position(|node| node.is_at(path))
}

/// Where the node at a path stands among others.
pub fn place_of(nodes: &Vec<MemNode>, path: &[Units]) -> Option<usize>
    ensures { result ≡ position (is_at_path Naming.Exact path.now) nodes.now.items }
{
    position(nodes.as_slice(), path)
}

/// The first of the nodes that doesn't come before a path.
fn first_later(nodes: &[MemNode], path: &[Units]) -> Option<usize>
    ensures { result ≡ position (is_no_earlier path.now) nodes.now }
{
    nodes
        .iter()
        .position(|other| !compare(other.path(), path).is_lt())
}

/// Where a node at a path goes among others: before the first that doesn't come before it.
fn place(nodes: &[MemNode], path: &[Units]) -> usize
    ensures { result ≡ unwrap_or (position (is_no_earlier path.now) nodes.now) (length nodes.now) }
{
    match first_later(nodes, path) {
        Some(at) => at,
        None => nodes.len(),
    }
}

/// Puts a node among others, which have room for one more, in its place by the order of paths.
#[tactic(auto, using(crate::proofs::PutLemmas::put_found))]
pub fn put(nodes: &mut Vec<MemNode>, node: MemNode)
    requires room { vec_len nodes.old < vec_capacity nodes.old }
    ensures items { nodes.new.items ≡ add_node Naming.Exact node nodes.old.items }
    ensures capacity { vec_capacity nodes.new ≡ vec_capacity nodes.old }
{
    let at = place(nodes.as_slice(), node.path());
    let _ = nodes.insert(at, node);
}

/// The same path once more.
pub fn copy_of(alloc: Global, path: &[Units]) -> Result<Vec<Units>, AllocError>
    ensures { IfOk result (λ copied. copied.items ≡ path.now) }
{
    let mut names = Vec::with_capacity(alloc, path.len())?;
    for name in path {
        names.push(name.copy()?)?;
    }
    Ok(names)
}

/// Whether a path is at or below another one.
fn is_prefix(from: &[Units], path: &[Units]) -> bool
    ensures { result ≡ is_prefix Naming.Exact from.now path.now }
{
    if from.len() > path.len() {
        return false;
    }
    compare(from, &path[..from.len()]).is_eq()
}

/// Whether a path is below another one.
pub fn is_below(folder: &[Units], path: &[Units]) -> bool
    ensures { result ≡ is_below Naming.Exact folder.now path.now }
{
    is_prefix(folder, path) && folder.len() != path.len()
}

/// Whether a path's last name stands in a folder.
fn is_parent(folder: &[Units], path: &[Units]) -> bool
    ensures { result ≡ is_parent Naming.Exact folder.now path.now }
{
    if path.len() <= folder.len() {
        return false;
    }
    is_prefix(folder, path) && path.len() - 1 == folder.len()
}

/// A path with another beginning, if it is at or below one.
fn moved_path(
    alloc: Global,
    from: &[Units],
    to: &[Units],
    path: &[Units],
) -> Result<Vec<Units>, AllocError>
    ensures { IfOk result (λ moved. moved.items ≡ moved_path Naming.Exact from.now to.now path.now) }
{
    if !is_prefix(from, path) {
        return copy_of(alloc, path);
    }
    let mut names = copy_of(alloc, to)?;
    let rest = &path[from.len()..];
    for name in rest {
        names.push(name.copy()?)?;
    }
    Ok(names)
}

/// The paths that nodes have when one path gets another beginning, of each in turn.
fn moved_paths(
    alloc: Global,
    nodes: &[MemNode],
    from: &[Units],
    to: &[Units],
) -> Result<Vec<Vec<Units>>, AllocError>
    ensures { IfOk result (λ paths. paths_of paths.items ≡ map (λ (node : Node). moved_path Naming.Exact from.now to.now node.path) nodes.now) }
{
    let mut paths = Vec::with_capacity(alloc, nodes.len())?;
    for node in nodes {
        paths.push(moved_path(alloc, from, to, node.path())?)?;
    }
    Ok(paths)
}

/// Takes out what is at a place, if one is given.
fn leave_out<T: Drop>(items: &mut Vec<T>, at: Option<usize>)
    requires { IfSome at (λ i. i < length items.old.items) }
    ensures { items.new.items ≡ left_out items.old.items at }
{
    if let Some(at) = at {
        items.remove(at);
    }
}

/// Gives each node the path of its place, and puts all in order into a list that has room for them.
fn set_paths(into: &mut Vec<MemNode>, nodes: Vec<MemNode>, paths: Vec<Vec<Units>>)
    requires empty { into.old.items ≡ [] }
    requires room { length nodes.items ≤ vec_capacity into.old }
    requires each { length paths.items ≡ length nodes.items }
    ensures { into.new.items ≡ in_order Naming.Exact (carried nodes.items (paths_of paths.items)) }
{
    let (mut nodes, mut paths) = (nodes, paths);
    while let (Some(node), Some(path)) = (nodes.pop(), paths.pop()) {
        let mut node = node;
        node.set_path(path);
        put(into, node);
    }
}

/// Whether some of the nodes stands in a folder.
fn any_child(nodes: &[MemNode], folder: &[Units]) -> bool
    ensures { result ≡ list_any (λ (node : Node). is_parent Naming.Exact folder.now node.path) nodes.now }
{
    nodes.iter().any(|node| is_parent(folder, node.path()))
}

/// Whether some of the nodes stands in a folder.
pub fn has_child(nodes: &Vec<MemNode>, folder: &[Units]) -> bool
    ensures { result ≡ list_any (λ (node : Node). is_parent Naming.Exact folder.now node.path) nodes.now.items }
{
    any_child(nodes.as_slice(), folder)
}

/// Whether a name matches a pattern and comes after another one, if one is given.
fn is_wanted(after: Option<&Units>, pattern: &Pattern, name: &[u16]) -> bool
    ensures { result ≡ is_wanted Naming.Exact (option_map (λ other. other.now) after.entry) pattern.now name.now }
{
    match after {
        Some(other) => {
            Naming::Exact.compare(other.as_slice(), name).is_lt()
                && pattern.matches(Naming::Exact, name)
        }
        None => pattern.matches(Naming::Exact, name),
    }
}

/// The last name of a path; the root has an empty one.
#[tactic(auto, using(crate::proofs::PutLemmas::last_joined))]
fn last_name(path: &[Units]) -> &[u16]
    ensures { result.now ≡ last_name path.now }
{
    match path.split_last() {
        Some((name, _)) => name.as_slice(),
        None => &[],
    }
}

/// What a listing tells of a node.
pub fn list(alloc: Global, node: &MemNode) -> Result<Listed, AllocError>
    ensures listed { IfOk result (λ listed. listed ≡ listed_of node.now) }
    ensures bound { IfOk result (λ listed. listed.look.end < 2 ^ 63) }
{
    let units = Vec::from_slice(alloc, last_name(node.path()))?;
    Ok(Listed {
        name: Units::of(units),
        look: node.look(),
    })
}

/// The first of the nodes that stands in a folder, and whose name matches a pattern and comes after another one, if one is given.
fn first_wanted<'a>(
    nodes: &'a [MemNode],
    folder: &[Units],
    after: Option<&Units>,
    pattern: &Pattern,
) -> Option<&'a MemNode>
    ensures { option_map (λ node. node.now) result ≡ find (λ (node : Node). is_parent Naming.Exact folder.now node.path && is_wanted Naming.Exact (option_map (λ other. other.now) after.entry) pattern.now (last_name node.path)) nodes.now }
{
    nodes.iter().find(|node| {
        is_parent(folder, node.path()) && is_wanted(after, pattern, last_name(node.path()))
    })
}

/// The node that a listing of a folder gives next.
pub fn next_node<'a>(
    nodes: &'a Vec<MemNode>,
    folder: &[Units],
    after: Option<&Units>,
    pattern: &Pattern,
) -> Option<&'a MemNode>
    ensures { option_map (λ node. node.now) result ≡ find (λ (node : Node). is_parent Naming.Exact folder.now node.path && is_wanted Naming.Exact (option_map (λ other. other.now) after.entry) pattern.now (last_name node.path)) nodes.now.items }
{
    first_wanted(nodes.as_slice(), folder, after, pattern)
}

/// The paths that nodes have when all at or below one path get another, of each in turn.
fn paths_after(
    alloc: Global,
    nodes: &Vec<MemNode>,
    from: &[Units],
    to: &[Units],
) -> Result<Vec<Vec<Units>>, AllocError>
    ensures { IfOk result (λ paths. paths_of paths.items ≡ map (λ (node : Node). moved_path Naming.Exact from.now to.now node.path) nodes.now.items) }
{
    moved_paths(alloc, nodes.as_slice(), from, to)
}

/// The node at a place changed at a moment.
fn change_at(nodes: &mut Vec<MemNode>, at: usize, moment: u64)
    requires { at < length nodes.old.items }
    ensures { nodes.new.items ≡ set nodes.old.items at (changed_node (get_or nodes.old.items at (new_node [] None 0 0)) moment) }
{
    let node = &mut nodes[at];
    node.set_change(moment);
}

/// Gives the node at a place, and all that is below its path, another path, since this moment. A node that stands there goes. Without memory nothing
/// changes.
pub fn relocate(
    nodes: &mut Vec<MemNode>,
    alloc: Global,
    at: usize,
    from: &[Units],
    to: &[Units],
    moment: u64,
) -> Result<(), AllocError>
    requires { at < length nodes.old.items }
    ensures moved { OnOk result (nodes.new.items ≡ relocated nodes.old.items at from.now to.now moment) }
    ensures err { OnErr result (nodes.new.items ≡ nodes.old.items) }
{
    let mut paths = paths_after(alloc, nodes, from, to)?;
    let room = Vec::with_capacity(alloc, nodes.len())?;
    let target = place_of(nodes, to);
    change_at(nodes, at, moment);
    let mut rest = mem::replace(nodes, room);
    leave_out(&mut rest, target);
    leave_out(&mut paths, target);
    set_paths(nodes, rest, paths);
    Ok(())
}
