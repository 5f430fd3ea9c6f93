//! A linker of channels in memory.

ghost use Rattle.std.specs.Prelude.{◌≡◌, ◌∷◌, ◌++◌, ◌-◌, ◌↔◌, ◌⊎◌, ℕ, List, [], Some, Contains, IsErr, IfOk, OnErr, length, map};
ghost use Rattle.rd_base.specs.Faults.{CountsFault, one_more};
ghost use Rattle.rd_link.specs.Links.{Lends, TakesBack, more_faults};
ghost use Rattle.rd_link.specs.InMemory.{Scripted, scripted, links_of};

use crate::halves::{MemIn, MemOut};
use crate::link::Linker;
use rd_base::{Bytes, Calls, Failed};
use std::alloc::{AllocError, Global};
use std::marker::Model;

/// A channel that was settled: the bytes that its input half had, how many of them were read, the bytes that were written, how many reads
/// and writes failed, and how many of these were writes. The bytes read are the first ones of `scripted`. Counts of faults stand still at
/// 2^64 - 1.
#[derive(Debug, Drop)]
pub struct Settled {
    pub scripted: Bytes,
    pub read: u64,
    pub written: Bytes,
    pub faults: u64,
    pub write_faults: u64,
}

/// A channel to come. Its bytes are there twice: once for the half that is given, and once for what is told when it is settled.
#[derive(Drop)]
struct Channel {
    given: Bytes,
    kept: Bytes,
    read_fails: Calls,
    write_fails: Calls,
}

impl Model for Channel {
    ghost use Rattle.std.specs.Prelude.{◌≡◌};
    ghost use Rattle.rd_link.specs.InMemory.{Scripted};

    ghost Value = { Scripted };

    ghost view = { λ c. record { bytes = c.given; read_fails = c.read_fails; write_fails = c.write_fails } };

    ghost invariant = { λ c. c.kept ≡ c.given };
}

impl Channel {
    fn new(given: Bytes, read_fails: &Calls, write_fails: &Calls) -> Result<Self, AllocError>
        ensures { IfOk result (λ channel. channel ≡ scripted read_fails.now write_fails.now given) }
    {
        let kept = given.copy()?;
        Ok(Channel {
            given,
            kept,
            read_fails: read_fails.copy()?,
            write_fails: write_fails.copy()?,
        })
    }
}

/// A linker of given channels, some of whose calls fail, and some of the reads and writes on whose halves. Contracts see the channels to
/// come, those that are out and those that are settled, the numbers of calls that fail, and the counts of calls and of faults.
#[derive(Drop)]
pub struct MemLinker {
    alloc: Global,
    ahead: Vec<Channel>,
    lent: Vec<Bytes>,
    settled: Vec<Settled>,
    calls: u64,
    fails: Calls,
    failures: u64,
    trouble: u64,
    reads: u64,
    writes: u64,
}

impl Model for MemLinker {
    ghost use Rattle.std.specs.Prelude.{◌≤◌, ◌+◌, length, vec_capacity};
    ghost use Rattle.rd_link.specs.InMemory.{LinkerState};

    ghost Value = { LinkerState };

    ghost view = { λ l. record { ahead = l.ahead.items; lent = l.lent.items; settled = l.settled.items; calls = l.calls; fails = l.fails; failures = l.failures; trouble = l.trouble; reads = l.reads; writes = l.writes } };

    ghost invariant = { λ l. (length l.lent.items + length l.ahead.items ≤ vec_capacity l.lent) × (length l.settled.items + length l.lent.items + length l.ahead.items ≤ vec_capacity l.settled) };
}

impl MemLinker {
    /// A linker of channels with these bytes. The calls of `connect` with the given numbers, counted from 1, fail.
    pub fn new(alloc: Global, channels: Vec<Bytes>, fails: Calls) -> Result<Self, AllocError>
        ensures { IfOk result (λ linker. linker ≡ record { ahead = map (scripted [] []) channels.items; lent = []; settled = []; calls = 0; fails = fails; failures = 0; trouble = 0; reads = 0; writes = 0 }) }
    {
        let none = Calls::of(Vec::new(alloc));
        let also_none = Calls::of(Vec::new(alloc));
        MemLinker::with_fails(alloc, channels, fails, none, also_none)
    }

    /// A linker of channels with these bytes. The calls of `connect` with the given numbers fail, and so do reads and writes on halves.
    /// All are counted from 1, reads and writes over all channels: a half goes on from the halves that were settled before it was given.
    pub fn with_fails(
        alloc: Global,
        channels: Vec<Bytes>,
        connects: Calls,
        reads: Calls,
        writes: Calls,
    ) -> Result<Self, AllocError>
        ensures { IfOk result (λ linker. linker ≡ record { ahead = map (scripted reads writes) channels.items; lent = []; settled = []; calls = 0; fails = connects; failures = 0; trouble = 0; reads = 0; writes = 0 }) }
    {
        let count = channels.len();
        let mut ahead = Vec::with_capacity(alloc, count)?;
        for bytes in channels {
            ahead.push(Channel::new(bytes, &reads, &writes)?)?;
        }
        Ok(MemLinker {
            alloc,
            ahead,
            lent: Vec::with_capacity(alloc, count)?,
            settled: Vec::with_capacity(alloc, count)?,
            calls: 0,
            fails: connects,
            failures: 0,
            trouble: 0,
            reads: 0,
            writes: 0,
        })
    }

    /// The settled channels, in the order in which they were given.
    pub fn settled(&self) -> &[Settled]
        ensures { result.now ≡ self.now.settled }
    {
        self.settled.as_slice()
    }
}

impl Linker for MemLinker {
    type In = MemIn;

    type Out = MemOut;

    ghost linked = { λ l. Some (links_of l) };

    ghost failures = { λ l. l.failures };

    ghost trouble = { λ l. l.trouble };

    fn count_failures(&self) -> u64 {
        self.failures
    }

    fn count_trouble(&self) -> u64 {
        self.trouble
    }

    /// Fails where its number is one of those that fail, and where no channel is left.
    fn connect(&mut self) -> Result<(MemIn, MemOut), Failed>
        ensures failures { CountsFault result self.old.failures self.new.failures }
        ensures trouble { self.new.trouble ≡ self.old.trouble }
        ensures faultless { IfOk result (λ halves. (halves.0.faults ≡ 0) × (halves.1.faults ≡ 0)) }
        ensures lends { IfOk result (λ halves. Lends (Some (links_of self.old)) (Some (links_of self.new)) (Some halves.0.left) (Some halves.1.held)) }
        ensures err { OnErr result (self.new ≡ record self.old { calls = one_more self.old.calls; failures = one_more self.old.failures }) }
        ensures fails { IsErr result ↔ (Contains self.old.fails (one_more self.old.calls) ⊎ (self.old.ahead ≡ [])) }
        // The next channel is given, and its halves count on.
        ensures next { IfOk result (λ halves. (next : Scripted) × (self.old.ahead ≡ next ∷ self.new.ahead)
            × (halves.0 ≡ record { left = next.bytes; calls = self.old.reads; fails = next.read_fails; faults = 0 })
            × (halves.1 ≡ record { held = []; calls = self.old.writes; fails = next.write_fails; faults = 0 })
            × (self.new ≡ record self.old { ahead = self.new.ahead; lent = self.old.lent ++ next.bytes ∷ []; calls = one_more self.old.calls })) }
    {
        self.calls = self.calls.saturating_add(1);
        if self.fails.as_slice().contains(&self.calls) || self.ahead.is_empty() {
            self.failures = self.failures.saturating_add(1);
            return Err(Failed);
        }
        let Channel {
            given,
            kept,
            read_fails,
            write_fails,
        } = self.ahead.remove(0);
        self.lent.push_reserved(kept);
        Ok((
            MemIn::new(given, self.reads, read_fails),
            MemOut::new(self.alloc, self.writes, write_fails),
        ))
    }

    fn settle(&mut self, input: MemIn, output: MemOut)
        ensures failures { self.new.failures ≡ self.old.failures }
        ensures trouble { self.new.trouble ≡ more_faults self.old.trouble (more_faults input.faults output.faults) }
        ensures settles { TakesBack (Some (links_of self.old)) (Some (links_of self.new)) (Some input.left) (Some output.held) input.faults output.faults }
        ensures calls { (self.new.calls ≡ self.old.calls) × (self.new.fails ≡ self.old.fails) × (self.new.ahead ≡ self.old.ahead) }
        ensures counts { (self.new.reads ≡ input.calls) × (self.new.writes ≡ output.calls) }
        // What is told has the channel's own bytes.
        ensures settled { (given : List ℕ) (others : List (List ℕ)) → self.old.lent ≡ given ∷ others
            → self.new.settled ≡ self.old.settled ++ record { scripted = given; read = length given - length input.left; written = output.held; faults = more_faults input.faults output.faults; write_faults = output.faults } ∷ [] }
    {
        let faults = input.faults().saturating_add(output.faults());
        self.trouble = self.trouble.saturating_add(faults);
        self.reads = input.calls();
        self.writes = output.calls();
        if self.lent.is_empty() {
            return;
        }
        let scripted = self.lent.remove(0);
        let read = scripted.as_slice().len().saturating_sub(input.count()) as u64;
        self.settled.push_reserved(Settled {
            scripted,
            read,
            write_faults: output.faults(),
            written: output.into_bytes(),
            faults,
        });
    }
}
