//! What holds of every recording. These functions do nothing: their clauses are laws.

ghost use Rattle.std.specs.Prelude.{◌≡◌, ℕ, List, [], ◌++◌, Some, None, codes};
ghost use Rattle.rd_base.specs.declared.bad.Why.TheVariants as why;
ghost use Rattle.rd_chunk.specs.declared.fault.ChunkWhy.TheVariants as chunk;
ghost use Rattle.rd_decode.specs.declared.fault.Fault.{Fault};
ghost use Rattle.rd_decode.specs.declared.fault.FaultWhy.TheVariants as fault;
ghost use Rattle.rd_decode.specs.Recording.{decoded, magic};
ghost use Rattle.rd_decode.specs.Worked as worked;

/// The first fault of bytes is that of all bytes that begin with them, and the lines before it are the same.
pub fn first_fault_stays()
    ensures { (bytes more : List ℕ) (f : Fault) → (decoded bytes).fault ≡ Some f →
        ((decoded (bytes ++ more)).fault ≡ Some f) × ((decoded (bytes ++ more)).whole_fault ≡ Some f)
        × ((decoded (bytes ++ more)).text ≡ (decoded bytes).text) }
{}

/// Worked recordings, which the checker computes.
pub fn recordings_are_as_listed()
    ensures nothing { (decoded []).whole_fault ≡ Some (record { at = 0; why = fault.Field why.Value }) }
    ensures no_channel { (decoded magic).whole_fault ≡ None }
    ensures no_begin { (decoded (magic ++ worked.ended)).whole_fault ≡ Some (record { at = 8; why = fault.Field why.Value }) }
    ensures line { (decoded (magic ++ worked.announce)).text ≡ codes "host 12 SERVER_ANNOUNCE tail 0\n" }
    ensures good { (decoded (magic ++ worked.announce)).whole_fault ≡ None }
    ensures cut { (decoded (magic ++ worked.cut_frame)).whole_fault ≡ Some (record { at = 10; why = fault.Field why.Short }) }
    ensures cut_text { (decoded (magic ++ worked.cut_frame)).text ≡ [] }
    ensures empty_frame { (decoded (magic ++ worked.empty_frame)).fault ≡ Some (record { at = 10; why = fault.Chunk chunk.Empty }) }
    ensures stray { (decoded (magic ++ worked.stray)).fault ≡ Some (record { at = 10; why = fault.Stray }) }
    ensures wrong_side { (decoded (magic ++ worked.wrong_side)).fault ≡ Some (record { at = 9; why = fault.Field why.Value }) }
    ensures unfinished { (decoded (magic ++ worked.unfinished)).whole_fault ≡ None }
{}
