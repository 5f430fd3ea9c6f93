//! A linker, and the halves of the channels that it gives.

ghost use Rattle.std.specs.Prelude.{◌≡◌, ℕ, Option, IfOk, OnErr};
ghost use Rattle.rd_base.specs.Faults.{CountsFault};
ghost use Rattle.rd_link.specs.Links.{Links, Lends, TakesBack, more_faults};

use rd_base::{Failed, Sink, Source};

/// The half of a channel that is written to.
pub trait Hang: Sink {
    /// Says that nothing more is written. What the half holds and its count of faults stay. It takes no memory.
    fn hang_up(&mut self)
        ensures held { Self.held self.new ≡ Self.held self.old }
        ensures faults { Self.faults self.new ≡ Self.faults self.old };
}

/// Where channels come from, one after the other.
pub trait Linker {
    type In: Source + Send + Drop;

    type Out: Hang + Send + Drop;

    /// The settled channels and those that are out, where it can tell.
    ghost linked: { Self → Option Links };

    /// How many calls of `connect` failed. The count stands still at 2^64 - 1.
    ghost failures: { Self → ℕ };

    /// How many faults settled halves had. The count stands still at 2^64 - 1.
    ghost trouble: { Self → ℕ };

    /// How many calls of `connect` failed.
    fn count_failures(&self) -> u64
        ensures { result ≡ failures self.now };

    /// How many faults settled halves had.
    fn count_trouble(&self) -> u64
        ensures { result ≡ trouble self.now };

    /// Gives the two halves of the next channel, which had no fault yet. It may wait for the other side. A call that fails counts in
    /// `failures`.
    fn connect(&mut self) -> Result<(Self::In, Self::Out), Failed>
        ensures failures { CountsFault result (failures self.old) (failures self.new) }
        ensures trouble { trouble self.new ≡ trouble self.old }
        ensures faultless { IfOk result (λ halves. (Self.In.faults halves.0 ≡ 0) × (Self.Out.faults halves.1 ≡ 0)) }
        ensures lends { IfOk result (λ halves. Lends (linked self.old) (linked self.new) (Self.In.left halves.0) (Self.Out.held halves.1)) }
        ensures err { OnErr result (linked self.new ≡ linked self.old) };

    /// Takes back the halves of the channel that is out the longest, once nobody reads or writes any more. It takes no memory. `trouble`
    /// rises by the faults of both halves, so it stays where they had none.
    fn settle(&mut self, input: Self::In, output: Self::Out)
        ensures failures { failures self.new ≡ failures self.old }
        ensures trouble { trouble self.new ≡ more_faults (trouble self.old) (more_faults (Self.In.faults input) (Self.Out.faults output)) }
        ensures settles { TakesBack (linked self.old) (linked self.new) (Self.In.left input) (Self.Out.held output) (Self.In.faults input) (Self.Out.faults output) };
}
