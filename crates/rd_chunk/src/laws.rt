//! What holds of every stream of carrier frames. These functions do nothing: their clauses are laws.

ghost use Rattle.std.specs.Prelude.{◌≡◌, ◌↔◌, ◌⊎◌, ℕ, List, [], ◌∷◌, ◌++◌, length, IsTrue};
ghost use Rattle.std.specs.List.{flat_map, AllByRecursion};
ghost use Rattle.rd_chunk.specs.declared.fault.ChunkWhy.{ChunkWhy};
ghost use Rattle.rd_chunk.specs.declared.fault.ChunkWhy.TheVariants as why;
ghost use Rattle.rd_chunk.specs.Frames.{AreFrames, One, Carried, Begun, data_of, is_first, is_last};
ghost use Rattle.rd_chunk.specs.Faults.{ChunkFault};
ghost use Rattle.rd_chunk.specs.Sizes.{max_message};
ghost use Rattle.rd_chunk.specs.Standing.{Held, StandsFor};
ghost use Rattle.rd_chunk.specs.Streams.{HasChunkFault, IsStream};
ghost use Rattle.rd_chunk.specs.Carrier.{IsMessage, carrier_of, carrier_stream};
ghost use Rattle.rd_chunk.specs.Worked as worked;

/// Of a message's frames the first alone has the first one's flag, and the last alone the last one's.
pub fn first_and_last_alone()
    ensures first { (n : ℕ) (before after : List (List ℕ)) (frame : List ℕ) →
        AreFrames n 0 (before ++ frame ∷ after) → IsTrue (is_first frame) ↔ (before ≡ []) }
    ensures last { (n : ℕ) (before after : List (List ℕ)) (frame : List ℕ) →
        AreFrames n 0 (before ++ frame ∷ after) →
        length (flat_map data_of (before ++ frame ∷ after)) ≡ n → IsTrue (is_last frame) ↔ (after ≡ []) }
{}

/// Every byte list has a fault, or it is messages, frames of one that isn't complete, and a part of a frame; never both.
pub fn faulty_or_sound()
    ensures either { (bytes : List ℕ) →
        HasChunkFault bytes ⊎ ((messages : List (List ℕ)) × IsStream messages bytes) }
    ensures never_both { (bytes : List ℕ) (messages : List (List ℕ)) →
        HasChunkFault bytes → IsStream messages bytes → ⊥ }
{}

/// A stream has one fault at most, and one list of messages, whatever comes after.
pub fn one_reading()
    ensures fault { (prefix other rest tail : List ℕ) (place spot : ℕ) (why cause : ChunkWhy) →
        ChunkFault prefix place why → ChunkFault other spot cause →
        prefix ++ rest ≡ other ++ tail → (prefix ≡ other) × (place ≡ spot) × (why ≡ cause) }
    ensures messages { (messages others : List (List ℕ)) (bytes : List ℕ) →
        IsStream messages bytes → IsStream others bytes → messages ≡ others }
{}

/// A joiner stands for no bytes with a fault: so a `feed` that takes a piece has met none.
pub fn stands_without_fault()
    ensures { (held : Held) (before : ℕ) (bytes : List ℕ) →
        StandsFor held before bytes → HasChunkFault bytes → ⊥ }
{}

/// The stream that this project writes for some messages carries them, and so gives them back (`one_reading`).
pub fn carrier_carries()
    ensures { (messages : List (List ℕ)) → AllByRecursion IsMessage messages →
        Carried messages (carrier_stream messages) }
{}

/// The definitions at streams that were worked by hand.
pub fn worked_streams()
    ensures written { carrier_of worked.announce ≡ worked.announce_frame }
    ensures read { One worked.announce worked.announce_frame }
    ensures longest { Begun max_message (0x61 ∷ []) worked.longest }
    ensures empty { ChunkFault worked.empty 0 why.Empty }
    ensures size { ChunkFault worked.too_small 0 why.Size }
    ensures compressed { ChunkFault worked.compressed 8 why.Compressed }
    ensures no_first { ChunkFault worked.no_first 8 why.NoFirst }
    ensures second_first { ChunkFault worked.second_first 21 why.SecondFirst }
    ensures too_long { ChunkFault worked.too_long 4 why.TooLong }
    ensures length_changed { ChunkFault worked.length_changed 17 why.LengthChanged }
    ensures overrun { ChunkFault worked.overrun 25 why.Overrun }
    ensures last_early { ChunkFault worked.last_early 8 why.LastEarly }
    ensures not_last { ChunkFault worked.not_last 21 why.NotLast }
{}
