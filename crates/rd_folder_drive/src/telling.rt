//! What is told of a change to who watches a folder (MS-FSCC 2.7.1).

ghost use Rattle.std.specs.Prelude.{◌≡◌, ◌+◌, ◌*◌, ◌<◌, ◌≤◌, ◌^◌, ◌++◌, [], find, length, vec_capacity, vec_len, true, IfSome};
ghost use Rattle.std.specs.List.{AllByRecursion};
ghost use Rattle.std.specs.Option.{option_map};
ghost use Rattle.rd_base.specs.Fields.{text_bytes};
ghost use Rattle.rd_dirinfo.specs.declared.naming.Naming.TheVariants.{Exact};
ghost use Rattle.rd_dirinfo.specs.Paths.{is_below, is_within_limits, joined};
ghost use Rattle.rd_drive.specs.Store.{change_room};
ghost use Rattle.rd_drive.specs.Telling.{is_watched, tells};
ghost use Rattle.rd_drive.specs.Waiting.{change_bytes};
ghost use Rattle.rd_folder_drive.specs.Served.{change_of, changes_of, named_path, IsTold};
ghost use Rattle.rd_folder_drive.specs.Table.{path_at};
ghost use Rattle.rd_folder_drive.specs.Telling.{rest_below, told_bytes};

use crate::news::{Change, Named};
use crate::table::Table;
use rd_base::{Bytes, Units, put_u32, put_units};
use rd_dirinfo::BACKSLASH;
use rd_drive::access::has_any;

/// The names that a path has below another one, if it is at or below it.
fn rest_below<'a>(folder: &[Units], path: &'a [Units]) -> Option<&'a [Units]>
    ensures { option_map (λ names. names.now) result ≡ rest_below folder.now path.now }
{
    let (mut above, mut rest) = (folder, path);
    while let Some((name, names)) = above.split_first() {
        let Some((other, others)) = rest.split_first() else {
            return None;
        };
        if name.as_slice() != other.as_slice() {
            return None;
        }
        (above, rest) = (names, others);
    }
    Some(rest)
}

/// Whether a path is in a folder, or with `deep` anywhere below it.
fn is_watched(folder: &[Units], deep: bool, path: &[Units]) -> bool
    ensures { result ≡ is_watched Exact folder.now deep path.now }
{
    match rest_below(folder, path) {
        Some(rest) => rest.len() == 1 || (deep && !rest.is_empty()),
        None => false,
    }
}

/// How many units names have, with one between each two.
fn joined_len(names: &[Units]) -> u32
    requires short { length (joined names.now) < 2 ^ 31 }
    ensures { result ≡ length (joined names.now) }
{
    let Some((first, others)) = names.split_first() else {
        return 0;
    };
    let mut len = first.as_slice().len() as u32;
    for name in others {
        len += 1 + name.as_slice().len() as u32;
    }
    len
}

/// Appends names, with a backslash between each two.
fn put_joined(out: &mut Vec<u8>, names: &[Units])
    requires room { vec_len out.old + 2 * length (joined names.now) ≤ vec_capacity out.old }
    ensures bytes { out.new.items ≡ out.old.items ++ text_bytes (joined names.now) }
{
    let Some((first, others)) = names.split_first() else {
        return;
    };
    put_units(out, first.as_slice());
    for name in others {
        put_units(out, &[BACKSLASH]);
        put_units(out, name.as_slice());
    }
}

/// What is told of a change of what has these names below the folder, in room that was found for it.
fn told_bytes(action: u32, names: &[Units], mut room: Vec<u8>) -> Bytes
    requires short { length (joined names.now) ≤ 4096 }
    requires empty { room.items ≡ [] }
    requires room { change_room ≤ vec_capacity room }
    ensures { result ≡ told_bytes action names.now }
{
    put_u32(&mut room, 0);
    put_u32(&mut room, action);
    put_u32(&mut room, 2 * joined_len(names));
    put_joined(&mut room, names);
    Bytes::of(room)
}

impl Table {
    /// The path of what is open by a number.
    pub fn path(&self, node: u32) -> &[Units]
        ensures { result.now ≡ path_at self.now node }
    {
        match self.opened(node) {
            Some(open) => open.path.names(),
            None => &[],
        }
    }

    /// The path of what a change is about.
    fn named_path<'a>(&'a self, named: &'a Named) -> &'a [Units]
        ensures { result.now ≡ named_path self.now named.now }
    {
        match named {
            Named::Node(node) => self.path(*node),
            Named::Gone(path) => path.names(),
        }
    }

    /// Whether who watches the folder that is open by a number is told of a change.
    fn tells(&self, node: u32, deep: bool, filter: u32, change: &Change) -> bool
        ensures { result ≡ tells Exact (path_at self.now node) deep filter (change_of self.now change.now) }
    {
        has_any(filter, change.bits)
            && is_watched(self.path(node), deep, self.named_path(&change.named))
    }

    /// The first change that who watches the folder that is open by a number is told.
    pub fn first_told<'a>(
        &self,
        node: u32,
        deep: bool,
        filter: u32,
        changes: &'a [Option<Change>],
    ) -> Option<&'a Change>
        requires heard { AllByRecursion (λ change. IfSome change (λ c. IsTold self.now c.named)) changes.now }
        ensures found { option_map (λ change. change_of self.now change.now) result ≡ find (tells Exact (path_at self.now node) deep filter) (changes_of self.now changes.now) }
        ensures told { IfSome result (λ change. IsTold self.now change.now.named) }
    {
        for change in changes {
            if let Some(change) = change
                && self.tells(node, deep, filter, change)
            {
                return Some(change);
            }
        }
        None
    }

    /// What is told of a change to who watches the folder that is open by a number, in room that was found for it.
    pub fn told(&self, node: u32, change: &Change, room: Vec<u8>) -> Bytes
        requires below { is_below Exact (path_at self.now node) (named_path self.now change.now.named) ≡ true }
        requires short { is_within_limits (named_path self.now change.now.named) ≡ true }
        requires empty { room.items ≡ [] }
        requires room { change_room ≤ vec_capacity room }
        ensures { result ≡ change_bytes (path_at self.now node) (change_of self.now change.now) }
    {
        match rest_below(self.path(node), self.named_path(&change.named)) {
            Some(names) => told_bytes(change.action, names, room),
            None => unreachable!(),
        }
    }
}
