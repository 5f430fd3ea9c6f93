//! Listing a folder, name by name.

ghost use Rattle.std.specs.Prelude.{◌≡◌, true, IfSome, IsSome};
ghost use Rattle.std.specs.Option.{option_map};
ghost use Rattle.std.specs.List.{filter};
ghost use Rattle.std.specs.List.Sorted.{IsStrictlySortedBy};
ghost use Rattle.std.specs.Map.{keys_of};
ghost use Rattle.rd_tree.specs.Nodes.{key_cmp, kind_of, places_of, IsSoundTree};
ghost use Rattle.rd_dirinfo.specs.Naming.{seen};
ghost use Rattle.rd_dirinfo.specs.Patterns.{is_wanted};
ghost use Rattle.rd_tree.specs.Places.{next_name};
ghost use Rattle.rd_tree.specs.Nodes.{first_in, names_in};

use crate::keys::fold_into;
use crate::node::Node;
use crate::nodes::MOST_NAME_UNITS;
use rd_base::Units;
use rd_dirinfo::{Naming, Pattern};
use slab::Slab;
use std::collections::BTreeMap;
use std::collections::btree_map::Range;
use std::ops::Bound;

/// Whether a name matches a pattern and comes after another one, if one is given.
fn is_wanted(naming: Naming, after: Option<&Units>, pattern: &Pattern, name: &[u16]) -> bool
    ensures { result ≡ is_wanted naming (option_map (λ other. other.now) after.entry) pattern.now name.now }
{
    match after {
        Some(other) => {
            naming.compare(other.as_slice(), name).is_lt() && pattern.matches(naming, name)
        }
        None => pattern.matches(naming, name),
    }
}

/// The key that a folder keeps, if it has this one.
fn stored<'a>(children: &'a BTreeMap<Vec<u16>, usize>, key: &[u16]) -> Option<&'a Vec<u16>>
    ensures { IfSome result (λ kept. kept.now.items ≡ key.now) }
{
    match children.get_key_value(key) {
        Some((kept, _)) => Some(kept),
        None => None,
    }
}

/// The key that a folder keeps of a name, if it has it.
fn stored_name<'a>(
    children: &'a BTreeMap<Vec<u16>, usize>,
    naming: Naming,
    name: &[u16],
) -> Option<&'a Vec<u16>>
    ensures { IfSome result (λ kept. kept.now.items ≡ seen naming name.now) }
{
    if name.len() > MOST_NAME_UNITS {
        return None;
    }
    match naming {
        Naming::Exact => stored(children, name),
        Naming::Folded => {
            let mut buffer = [0u16; MOST_NAME_UNITS];
            fold_into(name, &mut buffer);
            stored(children, &buffer[..name.len()])
        }
    }
}

/// The first name of some entries that is wanted.
fn first_wanted<'a>(
    nodes: &'a Slab<Node>,
    entries: Range<'_, Vec<u16>, usize>,
    naming: Naming,
    after: Option<&Units>,
    pattern: &Pattern,
) -> Option<&'a Units>
    ensures { option_map (λ name. name.now) result ≡ first_in (is_wanted naming (option_map (λ other. other.now) after.entry) pattern.now) (names_in nodes.now entries.entry) }
{
    for (_, child) in entries {
        if let Some(node) = nodes.get(*child) {
            if is_wanted(naming, after, pattern, node.name.as_slice()) {
                return Some(&node.name);
            }
        }
    }
    None
}

/// All entries of a folder.
fn all(children: &BTreeMap<Vec<u16>, usize>) -> Range<'_, Vec<u16>, usize>
    ensures all { result ≡ filter (λ _. true) children.now.entries }
    ensures ordered { IsStrictlySortedBy key_cmp (keys_of children.now.entries) }
{
    children.range(..)
}

/// The first name of a folder's children that is wanted.
pub fn next_name<'a>(
    nodes: &'a Slab<Node>,
    naming: Naming,
    folder: usize,
    after: Option<&Units>,
    pattern: &Pattern,
) -> Option<&'a Units>
    requires sound { IsSoundTree naming nodes.now }
    requires live { IsSome (kind_of nodes.now folder) }
    ensures { option_map (λ name. name.now) result ≡ next_name (places_of naming nodes.now) folder (option_map (λ other. other.now) after.entry) pattern.now }
{
    let Some(folder) = nodes.get(folder) else {
        unreachable!()
    };
    let children = &folder.children;
    match after {
        Some(other) => match stored_name(children, naming, other.as_slice()) {
            Some(key) => {
                let rest = children.range((Bound::Excluded(key), Bound::Unbounded));
                first_wanted(nodes, rest, naming, after, pattern)
            }
            None => first_wanted(nodes, all(children), naming, after, pattern),
        },
        None => first_wanted(nodes, all(children), naming, after, pattern),
    }
}
