//! Folders in memory, opened one after the other.

ghost use Rattle.std.specs.Prelude.{◌≡◌, ◌<◌, ◌+◌, ◌-◌, ◌↔◌, ◌⊎◌, ◌∷◌, ◌++◌, [], List, Some, None, Contains, IsErr, IfOk, IfSome, OnErr};
ghost use Rattle.rd_base.specs.Faults.{one_more};
ghost use Rattle.rd_link.specs.Links.{more_faults};
ghost use Rattle.rd_drive.specs.DriveState.{Node};
ghost use Rattle.rd_folder.specs.Told.{IsFolderMap};
ghost use Rattle.rd_folder.specs.FolderLaws.{no_faults};
ghost use Rattle.rd_folder.specs.FolderOpens.{CountsOpening, OpensFolder};
ghost use Rattle.rd_folder.specs.InMemory.{FolderState};

use crate::folder::FolderNo;
use crate::folders::Folders;
use crate::mem_nodes::MemNodes;
use crate::memory::MemFolder;
use rd_base::Calls;
use rd_trace::Trace;
use std::alloc::{AllocError, Global};
use std::marker::Model;

/// Given folders in memory, some of whose openings fail. Each opening gives the next one, whatever its place is. Contracts see the folders to come,
/// the nodes of those that were opened, how many are out, those that were closed, the numbers of the openings that fail, and the counts.
#[derive(Drop)]
pub struct MemFolders {
    ahead: Vec<MemFolder>,
    opened: Trace<MemNodes>,
    out: usize,
    closed: Vec<MemFolder>,
    calls: u64,
    fails: Calls,
    failures: u64,
    trouble: u64,
}

impl Model for MemFolders {
    ghost use Rattle.std.specs.Prelude.{◌≤◌, ◌+◌, length, vec_capacity};
    ghost use Rattle.rd_folder.specs.InMemory.{FoldersState};

    ghost Value = { FoldersState };

    ghost view = { λ f. record { ahead = f.ahead.items; opened = f.opened.items; out = f.out; closed = f.closed.items; calls = f.calls; fails = f.fails; failures = f.failures; trouble = f.trouble } };

    ghost invariant = { λ f. length f.closed.items + f.out + length f.ahead.items ≤ vec_capacity f.closed };
}

impl MemFolders {
    /// These folders, to be opened in order. The openings with the given numbers, counted from 1, fail.
    pub fn new(alloc: Global, folders: Vec<MemFolder>, fails: Calls) -> Result<Self, AllocError>
        ensures { IfOk result (λ made. made ≡ record { ahead = folders.items; opened = []; out = 0; closed = []; calls = 0; fails = fails; failures = 0; trouble = 0 }) }
    {
        let closed = Vec::with_capacity(alloc, folders.len())?;
        Ok(MemFolders {
            ahead: folders,
            opened: Trace::new(),
            out: 0,
            closed,
            calls: 0,
            fails,
            failures: 0,
            trouble: 0,
        })
    }

    /// The folders that were closed, in order.
    pub fn closed(&self) -> &[MemFolder]
        ensures { result.now ≡ self.now.closed }
    {
        self.closed.as_slice()
    }
}

impl Folders for MemFolders {
    type F = MemFolder;

    ghost opened = { λ f. Some f.opened };

    ghost failures = { λ f. f.failures };

    ghost trouble = { λ f. f.trouble };

    /// Fails where its number is one of those that fail, and where no folder is left.
    fn open(&mut self, _place: &str) -> Result<MemFolder, FolderNo>
        ensures failures { CountsOpening result self.old.failures self.new.failures }
        ensures trouble { self.new.trouble ≡ self.old.trouble }
        ensures faultless { IfOk result (λ folder. folder.faults ≡ no_faults) }
        ensures whole { IfOk result (λ folder. IfSome (Some folder.nodes) IsFolderMap) }
        ensures opens { IfOk result (λ folder. OpensFolder (Some self.old.opened) (Some self.new.opened) (Some folder.nodes)) }
        ensures err { OnErr result (self.new ≡ record self.old { calls = one_more self.old.calls; failures = one_more self.old.failures }) }
        ensures fails { IsErr result ↔ (Contains self.old.fails (one_more self.old.calls) ⊎ (self.old.ahead ≡ [])) }
        // The next folder is given, without the faults that it may have had.
        ensures next { IfOk result (λ folder. (next : FolderState) × (self.old.ahead ≡ next ∷ self.new.ahead) × (folder ≡ record next { faults = no_faults })
            × (self.new ≡ record self.old { ahead = self.new.ahead; opened = self.old.opened ++ folder.nodes ∷ []; out = self.old.out + 1; calls = one_more self.old.calls })) }
    {
        self.calls = self.calls.saturating_add(1);
        if self.fails.as_slice().contains(&self.calls) || self.ahead.is_empty() {
            self.failures = self.failures.saturating_add(1);
            return Err(FolderNo::Failed);
        }
        let mut folder = self.ahead.remove(0);
        folder.renew();
        self.out += 1;
        self.opened = self.opened.becoming(folder.nodes());
        Ok(folder)
    }

    /// Keeps a folder that was opened here.
    fn close(&mut self, folder: MemFolder)
        ensures failures { self.new.failures ≡ self.old.failures }
        ensures trouble { self.new.trouble ≡ more_faults self.old.trouble (folder.faults).count }
        ensures opened { Some self.new.opened ≡ Some self.old.opened }
        ensures others { (self.new.ahead ≡ self.old.ahead) × (self.new.calls ≡ self.old.calls) × (self.new.fails ≡ self.old.fails) }
        ensures closed { 0 < self.old.out → (self.new.closed ≡ self.old.closed ++ folder ∷ []) × (self.new.out ≡ self.old.out - 1) }
    {
        self.trouble = self.trouble.saturating_add(folder.faults());
        if self.out == 0 {
            return;
        }
        self.out -= 1;
        self.closed.push_reserved(folder);
    }
}
