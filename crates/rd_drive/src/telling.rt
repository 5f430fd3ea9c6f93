//! What is told of a change to who watches a folder (MS-FSCC 2.7.1).

ghost use Rattle.std.specs.Prelude.{◌≡◌, ◌+◌, ◌*◌, ◌<◌, ◌≤◌, ◌^◌, ◌++◌, ◌∷◌, [], ℕ, find, length, vec_capacity, vec_len, true, IfSome, IfNone};
ghost use Rattle.std.specs.List.{AllByRecursion};
ghost use Rattle.std.specs.Option.{option_map};
ghost use Rattle.rd_base.specs.Fields.{text_bytes};
ghost use Rattle.rd_dirinfo.specs.Paths.{is_below, is_prefix, is_within_limits};
ghost use Rattle.rd_tree.specs.Places.{own_path, IsLive, IsWhole};
ghost use Rattle.rd_drive.specs.Store.{IsTold, change_of, change_room, changes_of, named_path};
ghost use Rattle.rd_drive.specs.Telling.{is_watched, name_below, tells, IsIn};
ghost use Rattle.rd_drive.specs.Waiting.{change_bytes};

use crate::access::has_any;
use crate::news::{Change, Named};
use rd_base::{Bytes, Units, put_u32, put_units};
use rd_dirinfo::BACKSLASH;
use rd_tree::{NodeId, Tree};

/// The most bytes that are told of a change: its head and a path.
pub const CHANGE_ROOM: usize = 12 + 2 * 4096;

/// The folder in which the last name of a change's path stands, and this name. The root has none.
fn place_of<'a>(tree: &'a Tree, named: &'a Named) -> Option<(NodeId, &'a Units)>
    requires is_whole { IsWhole tree.now }
    requires told { IsTold tree.now named.now }
    ensures some { IfSome result (λ found. IsIn tree.now named.now (found.0).0 (found.1).now) }
    ensures none { IfNone result (named_path tree.now named.now ≡ []) }
{
    match named {
        Named::Node(node) => {
            if node.0 == 0 {
                return None;
            }
            Some((tree.parent(*node), tree.name(*node)))
        }
        Named::Gone { folder, name } => Some((*folder, name)),
    }
}

/// Whether a folder is another one or above it.
fn is_above(tree: &Tree, folder: NodeId, node: NodeId) -> bool
    requires is_whole { IsWhole tree.now }
    requires folder { IsLive tree.now folder.0 }
    requires node { IsLive tree.now node.0 }
    ensures { result ≡ is_prefix tree.now.naming (own_path tree.now folder.0) (own_path tree.now node.0) }
{
    let mut node = node;
    while node.0 != folder.0 {
        if node.0 == 0 {
            return false;
        }
        node = tree.parent(node);
    }
    true
}

/// Whether a change is in a folder, or with `deep` anywhere below it.
fn is_watched(tree: &Tree, folder: NodeId, deep: bool, named: &Named) -> bool
    requires is_whole { IsWhole tree.now }
    requires folder { IsLive tree.now folder.0 }
    requires told { IsTold tree.now named.now }
    ensures { result ≡ is_watched tree.now.naming (own_path tree.now folder.0) deep (named_path tree.now named.now) }
{
    let Some((parent, _)) = place_of(tree, named) else {
        return false;
    };
    parent.0 == folder.0 || (deep && is_above(tree, folder, parent))
}

/// Whether who watches a folder is told of a change.
fn tells(tree: &Tree, folder: NodeId, deep: bool, filter: u32, change: &Change) -> bool
    requires is_whole { IsWhole tree.now }
    requires folder { IsLive tree.now folder.0 }
    requires told { IsTold tree.now change.now.named }
    ensures { result ≡ tells tree.now.naming (own_path tree.now folder.0) deep filter (change_of tree.now change.now) }
{
    has_any(filter, change.bits) && is_watched(tree, folder, deep, &change.named)
}

/// The first change that who watches a folder is told.
pub fn first_told<'a>(
    tree: &Tree,
    folder: NodeId,
    deep: bool,
    filter: u32,
    changes: &'a [Option<Change>],
) -> Option<&'a Change>
    requires is_whole { IsWhole tree.now }
    requires folder { IsLive tree.now folder.0 }
    requires heard { AllByRecursion (λ change. IfSome change (λ c. IsTold tree.now c.named)) changes.now }
    ensures found { option_map (λ change. change_of tree.now change.now) result ≡ find (tells tree.now.naming (own_path tree.now folder.0) deep filter) (changes_of tree.now changes.now) }
    ensures told { IfSome result (λ change. IsTold tree.now change.now.named) }
{
    for change in changes {
        if let Some(change) = change
            && tells(tree, folder, deep, filter, change)
        {
            return Some(change);
        }
    }
    None
}

/// What is told of a change to who watches a folder, in room that was found for it.
pub fn told(tree: &Tree, folder: NodeId, change: &Change, mut room: Vec<u8>) -> Bytes
    requires is_whole { IsWhole tree.now }
    requires folder { IsLive tree.now folder.0 }
    requires told { IsTold tree.now change.now.named }
    requires below { is_below tree.now.naming (own_path tree.now folder.0) (named_path tree.now change.now.named) ≡ true }
    requires short { is_within_limits (named_path tree.now change.now.named) ≡ true }
    requires empty { room.items ≡ [] }
    requires room { change_room ≤ vec_capacity room }
    ensures { result ≡ change_bytes (own_path tree.now folder.0) (change_of tree.now change.now) }
{
    let Some((parent, name)) = place_of(tree, &change.named) else {
        unreachable!()
    };
    put_u32(&mut room, 0);
    put_u32(&mut room, change.action);
    put_u32(&mut room, 2 * length_below(tree, folder, parent, name));
    put_below(tree, folder, parent, name, &mut room);
    Bytes::of(room)
}

/// How many units the names from a folder down to one in a folder at or below it have, with those between them.
fn length_below(tree: &Tree, folder: NodeId, parent: NodeId, name: &Units) -> u32
    requires is_whole { IsWhole tree.now }
    requires folder { IsLive tree.now folder.0 }
    requires parent { IsLive tree.now parent.0 }
    requires below { is_prefix tree.now.naming (own_path tree.now folder.0) (own_path tree.now parent.0) ≡ true }
    requires short { length (name_below tree.now folder.0 parent.0 name.now) < 2 ^ 31 }
    ensures { result ≡ length (name_below tree.now folder.0 parent.0 name.now) }
{
    let units = name.as_slice();
    if parent.0 == folder.0 {
        return units.len() as u32;
    }
    length_below(tree, folder, tree.parent(parent), tree.name(parent)) + 1 + units.len() as u32
}

/// Appends these names.
fn put_below(tree: &Tree, folder: NodeId, parent: NodeId, name: &Units, out: &mut Vec<u8>)
    requires is_whole { IsWhole tree.now }
    requires folder { IsLive tree.now folder.0 }
    requires parent { IsLive tree.now parent.0 }
    requires below { is_prefix tree.now.naming (own_path tree.now folder.0) (own_path tree.now parent.0) ≡ true }
    requires room { vec_len out.old + 2 * length (name_below tree.now folder.0 parent.0 name.now) ≤ vec_capacity out.old }
    ensures bytes { out.new.items ≡ out.old.items ++ text_bytes (name_below tree.now folder.0 parent.0 name.now) }
    ensures len { vec_len out.new ≡ vec_len out.old + 2 * length (name_below tree.now folder.0 parent.0 name.now) }
    ensures room { vec_capacity out.old ≤ vec_capacity out.new }
{
    let units = name.as_slice();
    if parent.0 == folder.0 {
        put_units(out, units);
        return;
    }
    put_below(tree, folder, tree.parent(parent), tree.name(parent), out);
    put_units(out, &[BACKSLASH]);
    put_units(out, units);
}
