//! All nodes of a folder in memory.

ghost use Rattle.std.specs.Prelude.{◌≡◌, ◌<◌, ◌≤◌, ◌∷◌, ◌^◌, ◌&&◌, not, true, false, [], length, map, Some, None, Ok, Err, IfOk, IfSome, OnOk, OnErr, position, take};
ghost use Rattle.std.specs.Option.{option_map, is_some};
ghost use Rattle.rd_dirinfo.specs.Paths.{is_name};
ghost use Rattle.rd_dirinfo.specs.declared.naming.Naming.TheVariants as Naming;
ghost use Rattle.rd_drive.specs.DriveState.{Node, has_folder, new_node};
ghost use Rattle.rd_folder.specs.Told.{drive_over, IsFolderMap};
ghost use Rattle.rd_folder.specs.FolderCalls.{folder_look, folder_mark, folder_next, folder_read, folder_remove, folder_rename, folder_replace, folder_resize, folder_write, making, may_make, may_move, node_there};
ghost use Rattle.rd_folder.specs.FolderLaws.{AreNames};
ghost use Rattle.rd_folder.specs.InMemory.{Tries};
ghost use Rattle.rd_folder.specs.declared.folder.FolderNo.TheVariants as FolderNo;

use crate::folder::FolderNo;
use crate::look::{Listed, Look};
use crate::node::{MemNode, compare};
use crate::nodes::{
    copy_of, has_child, is_below, list, next_node, place_of, position, put, relocate,
};
use rd_base::{Bytes, Moments, Units};
use rd_contents::Contents;
use rd_dirinfo::Pattern;
use std::alloc::Global;
use std::marker::Model;

/// The nodes of a folder in memory: the root, and all others in the order of their paths. Contracts see the list of all.
#[derive(Drop)]
pub struct MemNodes {
    alloc: Global,
    root: MemNode,
    others: Vec<MemNode>,
}

impl Model for MemNodes {
    ghost use Rattle.std.specs.Prelude.{◌∷◌, List};
    ghost use Rattle.rd_drive.specs.DriveState.{Node};
    ghost use Rattle.rd_folder.specs.Told.{IsFolderMap};

    ghost Value = { List Node };

    ghost view = { λ n. n.root ∷ n.others.items };

    ghost invariant = { λ n. IsFolderMap (n.root ∷ n.others.items) };
}

impl MemNodes {
    /// The root alone. It takes no memory.
    pub fn new(alloc: Global) -> Self
        ensures { result ≡ new_node [] None 0 0 ∷ [] }
    {
        MemNodes {
            alloc,
            root: MemNode::new(Vec::new(alloc), None, 0, 0),
            others: Vec::new(alloc),
        }
    }

    /// The nodes are a map, as all that a folder tells. It does nothing, and is called for what it promises.
    pub fn whole(&self)
        ensures { IsFolderMap self.now }
    {
        let _ = &self.root;
    }

    /// The node at a path.
    fn get(&self, path: &[Units]) -> Option<&MemNode>
        ensures { option_map (λ node. node.now) result ≡ node_there self.now path.now }
    {
        if path.is_empty() {
            return Some(&self.root);
        }
        match position(self.others.as_slice(), path) {
            Some(at) => Some(&self.others[at]),
            None => None,
        }
    }

    /// Whether a folder is at a path.
    fn has_folder(&self, path: &[Units]) -> bool
        ensures { result ≡ has_folder (drive_over self.now) path.now }
    {
        match self.get(path) {
            Some(node) => node.is_folder(),
            None => false,
        }
    }

    pub fn look(&self, path: &[Units]) -> Option<Look>
        ensures look { Some (result, self.now) ≡ folder_look path.now self.now }
        ensures bound { IfSome result (λ look. look.end < 2 ^ 63) }
    {
        match self.get(path) {
            Some(node) => Some(node.look()),
            None => None,
        }
    }

    pub fn next(
        &self,
        path: &[Units],
        after: Option<&Units>,
        pattern: &Pattern,
    ) -> Result<Option<Listed>, FolderNo>
        ensures tries { Tries self.now self.now (folder_next path.now (option_map (λ other. other.now) after.entry) pattern.now self.now) result }
        ensures name { IfOk result (λ found. IfSome found (λ listed. is_name listed.name ≡ true)) }
        ensures bound { IfOk result (λ found. IfSome found (λ listed. listed.look.end < 2 ^ 63)) }
    {
        if !self.has_folder(path) {
            return Err(FolderNo::Missing);
        }
        match next_node(&self.others, path, after, pattern) {
            Some(node) => match list(self.alloc, node) {
                Ok(listed) => Ok(Some(listed)),
                Err(_) => Err(FolderNo::Memory),
            },
            None => Ok(None),
        }
    }

    pub fn read(
        &self,
        path: &[Units],
        offset: u64,
        count: u32,
        room: Vec<u8>,
    ) -> Result<Bytes, FolderNo>
        requires room { room.items ≡ [] }
        ensures tries { Tries self.now self.now (folder_read path.now offset count self.now) result }
        ensures bound { IfOk result (λ bytes. length bytes ≤ count) }
    {
        match self.get(path) {
            Some(node) => node.read(offset, count, room),
            None => Err(FolderNo::Missing),
        }
    }

    pub fn replace(&mut self, path: &[Units], attributes: u32, moment: u64) -> Result<(), FolderNo>
        ensures { Tries self.old self.new (folder_replace path.now attributes moment self.old) result }
    {
        let Some(at) = place_of(&self.others, path) else {
            return Err(FolderNo::Missing);
        };
        let node = &mut self.others[at];
        node.replace(attributes, moment)
    }

    pub fn write(
        &mut self,
        path: &[Units],
        offset: u64,
        bytes: &[u8],
        moment: u64,
    ) -> Result<(), FolderNo>
        ensures { Tries self.old self.new (folder_write path.now offset bytes.now moment self.old) result }
    {
        let Some(at) = place_of(&self.others, path) else {
            return Err(FolderNo::Missing);
        };
        let node = &mut self.others[at];
        node.write(offset, bytes, moment)
    }

    pub fn resize(&mut self, path: &[Units], end: u64, moment: u64) -> Result<(), FolderNo>
        ensures { Tries self.old self.new (folder_resize path.now end moment self.old) result }
    {
        let Some(at) = place_of(&self.others, path) else {
            return Err(FolderNo::Missing);
        };
        let node = &mut self.others[at];
        node.resize(end, moment)
    }

    pub fn mark(
        &mut self,
        path: &[Units],
        attributes: u32,
        moments: Moments,
    ) -> Result<(), FolderNo>
        ensures { Tries self.old self.new (folder_mark path.now attributes moments self.old) result }
    {
        if path.is_empty() {
            self.root.mark(attributes, moments);
            return Ok(());
        }
        let Some(at) = place_of(&self.others, path) else {
            return Err(FolderNo::Missing);
        };
        let node = &mut self.others[at];
        node.mark(attributes, moments);
        Ok(())
    }

    /// Whether a node may be made at a path.
    fn may_make(&self, path: &[Units]) -> bool
        ensures { result ≡ may_make self.now path.now }
    {
        let Some((_, above)) = path.split_last() else {
            return false;
        };
        if !self.has_folder(above) {
            return false;
        }
        self.get(path).is_none()
    }

    /// Makes a file with these contents, or a folder.
    pub fn make(
        &mut self,
        path: &[Units],
        contents: Option<Contents>,
        attributes: u32,
        moment: u64,
    ) -> Result<(), FolderNo>
        requires { AreNames path.now }
        ensures { Tries self.old self.new (making path.now contents attributes moment self.old) result }
    {
        if !self.may_make(path) {
            return Err(FolderNo::Missing);
        }
        let Ok(names) = copy_of(self.alloc, path) else {
            return Err(FolderNo::Memory);
        };
        if self.others.try_reserve(1).is_err() {
            return Err(FolderNo::Memory);
        }
        let node = MemNode::new(names, contents, attributes, moment);
        put(&mut self.others, node);
        Ok(())
    }

    /// Whether a node that isn't the root may get another path.
    fn may_move(&self, from: &[Units], to: &[Units]) -> bool
        ensures { result ≡ may_move self.now from.now to.now }
    {
        let Some((_, above)) = to.split_last() else {
            return false;
        };
        if is_below(from, to) {
            return false;
        }
        if !self.has_folder(above) {
            return false;
        }
        !self.has_folder(to)
    }

    pub fn rename(&mut self, from: &[Units], to: &[Units], moment: u64) -> Result<(), FolderNo>
        requires { AreNames to.now }
        ensures { Tries self.old self.new (folder_rename from.now to.now moment self.old) result }
    {
        let Some(at) = place_of(&self.others, from) else {
            return Err(FolderNo::Missing);
        };
        if compare(from, to).is_eq() {
            return Ok(());
        }
        if !self.may_move(from, to) {
            return Err(FolderNo::Missing);
        }
        let Ok(()) = relocate(&mut self.others, self.alloc, at, from, to, moment) else {
            return Err(FolderNo::Memory);
        };
        Ok(())
    }

    pub fn remove(&mut self, path: &[Units]) -> Result<(), FolderNo>
        ensures tries { Tries self.old self.new (folder_remove path.now self.old) result }
        ensures memory { result ≡ Err FolderNo.Memory → ⊥ }
    {
        let Some(at) = place_of(&self.others, path) else {
            return Err(FolderNo::Missing);
        };
        if has_child(&self.others, path) {
            return Err(FolderNo::Missing);
        }
        self.others.remove(at);
        Ok(())
    }
}
