//! A caller of any linker: on each channel it writes back what one read gives.

ghost use Rattle.std.specs.Prelude.{◌≡◌, ◌++◌, ◌∷◌, [], ℕ, List, Some, OnOk};
ghost use Rattle.std.specs.Io.KnownBytes.{Consumes, Appends};
ghost use Rattle.rd_link.specs.Links.{SettledChannel};

use rd_base::{Failed, Sink, Source, write_all};
use rd_link::{Hang, Linker};

/// Writes what one read gives.
pub fn pass_on<S: Source, K: Sink>(
    input: &mut S,
    output: &mut K,
    room: &mut [u8],
) -> Result<(), Failed>
    ensures faultless { OnOk result ((S.faults input.new ≡ S.faults input.old) × (K.faults output.new ≡ K.faults output.old)) }
    ensures passed { OnOk result ((bytes : List ℕ) × Consumes (S.left input.old) (S.left input.new) bytes × Appends (K.held output.old) (K.held output.new) bytes) }
{
    let count = input.read(room)?;
    write_all(output, &room[..count])
}

/// Gets a channel, passes on what one read gives, hangs up and settles the channel.
pub fn echo_once<L: Linker>(linker: &mut L, room: &mut [u8]) -> Result<(), Failed>
    ensures trouble { OnOk result (L.trouble linker.new ≡ L.trouble linker.old) }
    ensures failures { OnOk result (L.failures linker.new ≡ L.failures linker.old) }
    // Where the linker tells its channels, what was written on this one is what was read.
    ensures echoed { OnOk result ((settled : List SettledChannel) → L.linked linker.old ≡ Some (record { settled = settled; lent = [] })
        → (bytes : List ℕ) × (L.linked linker.new ≡ Some (record { settled = settled ++ record { read = bytes; written = bytes; faults = 0; write_faults = 0 } ∷ []; lent = [] }))) }
{
    let (mut input, mut output) = linker.connect()?;
    let passed = pass_on(&mut input, &mut output, room);
    output.hang_up();
    linker.settle(input, output);
    passed
}
