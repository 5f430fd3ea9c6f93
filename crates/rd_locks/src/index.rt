//! Where a node's chain of slots ends, and on which node a file has its locks.

ghost use Rattle.std.specs.Prelude.{◌≡◌, ◌≤◌, ◌<◌, ◌+◌, ◌==◌, ℕ, if◌then◌else◌, nat_eq};
ghost use Rattle.std.specs.HashMap.{get, spare};
ghost use Rattle.rd_locks.specs.Index.{end_of, IsHome};

use std::collections::HashMap;

/// On which nodes a file may have its locks.
#[derive(Clone, Copy, Drop)]
pub enum Home {
    One(u32),
    Many,
}

/// The end of each node's chain, by node.
pub type Ends = HashMap<u32, usize>;

/// The home of each file's locks, by file.
pub type Homes = HashMap<u32, Home>;

/// The end of a node's chain, 0 where it has none.
pub fn end_of(ends: &Ends, node: u32) -> usize
    ensures { result ≡ end_of ends.now node }
{
    match ends.get(&node) {
        Some(end) => *end,
        None => 0,
    }
}

/// Gives a node's chain an end, for which there is room.
pub fn add_end(ends: &mut Ends, node: u32, end: usize)
    requires { 0 < spare ends.old }
    ensures ends { (n : ℕ) → end_of ends.new n ≡ (if n == node then end else end_of ends.old n) }
    ensures room { spare ends.old ≤ spare ends.new + 1 }
{
    let _ = ends.insert(node, end);
}

/// Gives a chain that has an end another one, or none.
pub fn set_end(ends: &mut Ends, node: u32, end: usize)
    requires { end ≤ end_of ends.old node }
    ensures ends { (n : ℕ) → end_of ends.new n ≡ (if n == node then end else end_of ends.old n) }
    ensures room { spare ends.old ≤ spare ends.new }
{
    if end == 0 {
        let _ = ends.remove(&node);
    } else if let Some(kept) = ends.get_mut(&node) {
        *kept = end;
    }
}

/// The home of a file with a lock on one more node.
fn with_home(home: Option<Home>, node: u32) -> Home
    ensures here { IsHome (Some result) node }
    ensures others { (n : ℕ) → IsHome home n → IsHome (Some result) n }
{
    match home {
        None => Home::One(node),
        Some(Home::One(one)) if one == node => Home::One(node),
        Some(_) => Home::Many,
    }
}

/// Lets a file have a lock on a node, where there is room.
pub fn add_home(homes: &mut Homes, file: u32, node: u32)
    requires { 0 < spare homes.old }
    ensures here { IsHome (get nat_eq homes.new file) node }
    ensures others { (f n : ℕ) → IsHome (get nat_eq homes.old f) n → IsHome (get nat_eq homes.new f) n }
    ensures room { spare homes.old ≤ spare homes.new + 1 }
{
    let home = with_home(homes.get(&file).copied(), node);
    let _ = homes.insert(file, home);
}
