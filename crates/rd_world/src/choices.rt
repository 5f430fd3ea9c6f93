//! What can happen by itself, counted and picked from bits.
//!
//! Cost: no list is made. A count takes the set bits of five words, and so does a pick at most, which then steps through the bits of one word, or of two for a take.

ghost use Rattle.std.specs.Prelude.{◌≡◌, ◌<◌, length, slice_get, Some};
ghost use Rattle.rd_world.specs.Choices.{AreWorked, choices_in, takes_in, worked_order};
ghost use Rattle.rd_world.specs.declared.choices.Choices.{Choices};

use crate::bits::Bits;

/// What can happen by itself. A word has each device at the place of its station, and each application and each hand at its number less one.
#[derive(Drop)]
pub struct Choices {
    /// The applications that may issue what they ask for.
    pub issues: Bits,
    /// The host has a message to send.
    pub host_sends: bool,
    /// The client has bytes to read.
    pub client_reads: bool,
    /// The client has a message to send.
    pub client_sends: bool,
    /// The devices with a completion that the client may collect.
    pub collects: Bits,
    /// The host has bytes to read.
    pub host_reads: bool,
    /// The devices where a job waits for a hand.
    pub waiting: Bits,
    /// The hands without a job.
    pub free: Bits,
    /// The hands with a job.
    pub full: Bits,
}

/// One of the things that can happen by itself, by places.
#[derive(Clone, Copy)]
pub enum Choice {
    Issue(u32),
    HostSend,
    ClientRead,
    ClientSend,
    Collect(u32),
    HostRead,
    Take { device: u32, hand: u32 },
    Apply(u32),
}

impl Choices {
    /// How many things can happen by themselves.
    pub fn count(&self) -> u32
        ensures { result ≡ length (choices_in self.now) }
    {
        let messages = u32::from(self.host_sends)
            + u32::from(self.client_reads)
            + u32::from(self.client_sends)
            + u32::from(self.host_reads);
        self.issues.count() + messages + self.collects.count() + self.takes() + self.full.count()
    }

    /// The one with this index among them, in the order of a draw.
    pub fn pick(&self, index: u32) -> Choice
        requires { index < length (choices_in self.now) }
        ensures { slice_get (choices_in self.now) index ≡ Some result }
    {
        let issues = self.issues.count();
        if index < issues {
            return Choice::Issue(self.issues.pick(index));
        }
        let index = index - issues;
        let host_sends = u32::from(self.host_sends);
        if index < host_sends {
            return Choice::HostSend;
        }
        let index = index - host_sends;
        let client_reads = u32::from(self.client_reads);
        if index < client_reads {
            return Choice::ClientRead;
        }
        let index = index - client_reads;
        let client_sends = u32::from(self.client_sends);
        if index < client_sends {
            return Choice::ClientSend;
        }
        let index = index - client_sends;
        let collects = self.collects.count();
        if index < collects {
            return Choice::Collect(self.collects.pick(index));
        }
        let index = index - collects;
        let host_reads = u32::from(self.host_reads);
        if index < host_reads {
            return Choice::HostRead;
        }
        let index = index - host_reads;
        let takes = self.takes();
        if index < takes {
            return self.pick_take(index);
        }
        Choice::Apply(self.full.pick(index - takes))
    }

    /// How many takes there are: each device with each hand.
    fn takes(&self) -> u32
        ensures { result ≡ length (takes_in self.now) }
    {
        self.waiting.count() * self.free.count()
    }

    /// The take with this index, by device and then by hand.
    fn pick_take(&self, index: u32) -> Choice
        requires { index < length (takes_in self.now) }
        ensures { slice_get (takes_in self.now) index ≡ Some result }
    {
        let free = self.free.count();
        Choice::Take {
            device: self.waiting.pick(index / free),
            hand: self.free.pick(index % free),
        }
    }
}

/// A case with some of each kind but one.
pub fn choices_stand_in_order()
    ensures { (c : Choices) → AreWorked c → choices_in c ≡ worked_order }
{}
