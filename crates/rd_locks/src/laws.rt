//! The definitions at work, as a contract of a function that does nothing: the checker computes each case.

ghost use Rattle.std.specs.Prelude.{◌≡◌, [], ◌∷◌, true, false, Ok, Err, Some, None};
ghost use Rattle.rd_locks.specs.Locks.{overlaps, wanted_locks, conflict, may_read, may_write, unlocked, released};
ghost use Rattle.rd_locks.specs.Worked.{bytes, shared, exclusive};

/// What is in the way of what, and what is left, case by case.
pub fn locks_are_as_listed()
    // Ranges are whole numbers, so they may end at 2^64 and past it.
    ensures touching { overlaps (bytes 0 10) (bytes 10 5) ≡ false }
    ensures last_byte { overlaps (bytes 0 10) (bytes 9 1) ≡ true }
    ensures inside { overlaps (bytes 3 1) (bytes 0 10) ≡ true }
    ensures empty { overlaps (bytes 0 10) (bytes 5 0) ≡ false }
    ensures both_empty { overlaps (bytes 5 0) (bytes 5 0) ≡ false }
    ensures at_end { overlaps (bytes 0xFFFF_FFFF_FFFF_FFFF 1) (bytes 0 0xFFFF_FFFF_FFFF_FFFF) ≡ false }
    ensures past_end { overlaps (bytes 0xFFFF_FFFF_FFFF_FFFF 9) (bytes 0xFFFF_FFFF_FFFF_FFFE 2) ≡ true }

    // An exclusive lock is kept out by every lock, its own handle's too; a shared one by the exclusive locks of other handles.
    ensures shared_behind_exclusive { conflict (exclusive 1 (bytes 0 10) ∷ []) (shared 2 (bytes 9 1) ∷ []) ≡ Some (exclusive 1 (bytes 0 10)) }
    ensures own_shared { conflict (exclusive 1 (bytes 0 10) ∷ []) (shared 1 (bytes 9 1) ∷ []) ≡ None }
    ensures own_exclusive { conflict (shared 1 (bytes 0 10) ∷ []) (exclusive 1 (bytes 9 1) ∷ []) ≡ Some (shared 1 (bytes 0 10)) }
    ensures both_shared { conflict (shared 1 (bytes 0 10) ∷ []) (shared 2 (bytes 0 10) ∷ []) ≡ None }
    ensures exclusive_behind_shared { conflict (shared 1 (bytes 0 10) ∷ []) (exclusive 2 (bytes 0 10) ∷ []) ≡ Some (shared 1 (bytes 0 10)) }
    ensures first_of_two { conflict (shared 1 (bytes 0 10) ∷ shared 2 (bytes 0 10) ∷ []) (exclusive 3 (bytes 4 1) ∷ []) ≡ Some (shared 1 (bytes 0 10)) }
    ensures other_node { conflict (record (exclusive 1 (bytes 0 10)) { node = 8 } ∷ []) (exclusive 2 (bytes 0 10) ∷ []) ≡ None }
    ensures its_own_ranges { conflict [] (wanted_locks 7 1 true (bytes 0 10 ∷ bytes 9 1 ∷ [])) ≡ Some (exclusive 1 (bytes 0 10)) }
    ensures its_own_shared_ranges { conflict [] (wanted_locks 7 1 false (bytes 0 10 ∷ bytes 9 1 ∷ [])) ≡ None }

    // Writing is kept out by any shared lock and by other handles' exclusive ones, reading by the latter alone.
    ensures reads_own { may_read (exclusive 1 (bytes 0 10) ∷ []) 7 1 (bytes 5 1) ≡ true }
    ensures reads_other { may_read (exclusive 1 (bytes 0 10) ∷ []) 7 2 (bytes 5 1) ≡ false }
    ensures reads_nothing { may_read (exclusive 1 (bytes 0 10) ∷ []) 7 2 (bytes 5 0) ≡ true }
    ensures reads_shared { may_read (shared 1 (bytes 0 10) ∷ []) 7 2 (bytes 5 1) ≡ true }
    ensures writes_own { may_write (exclusive 1 (bytes 0 10) ∷ []) 7 1 (bytes 5 1) ≡ true }
    ensures writes_own_shared { may_write (shared 1 (bytes 0 10) ∷ []) 7 1 (bytes 5 1) ≡ false }
    ensures writes_other { may_write (exclusive 1 (bytes 0 10) ∷ []) 7 2 (bytes 9 9) ≡ false }

    // The first of equal ranges goes, once for each time that it is named, or none at all.
    ensures takes_first { unlocked 7 1 (shared 1 (bytes 0 4) ∷ shared 2 (bytes 0 4) ∷ exclusive 1 (bytes 0 4) ∷ []) (bytes 0 4 ∷ []) ≡ Ok (shared 2 (bytes 0 4) ∷ exclusive 1 (bytes 0 4) ∷ []) }
    ensures takes_both { unlocked 7 1 (shared 1 (bytes 0 4) ∷ shared 2 (bytes 0 4) ∷ exclusive 1 (bytes 0 4) ∷ []) (bytes 0 4 ∷ bytes 0 4 ∷ []) ≡ Ok (shared 2 (bytes 0 4) ∷ []) }
    ensures names_missing { unlocked 7 1 (shared 1 (bytes 0 4) ∷ []) (bytes 0 4 ∷ bytes 0 4 ∷ bytes 9 9 ∷ []) ≡ Err (bytes 0 4) }
    ensures part_of_one { unlocked 7 1 (exclusive 1 (bytes 0 10) ∷ []) (bytes 0 9 ∷ []) ≡ Err (bytes 0 9) }
    ensures none_named { unlocked 7 1 (shared 1 (bytes 0 4) ∷ []) [] ≡ Ok (shared 1 (bytes 0 4) ∷ []) }
    ensures releases { released 1 (shared 1 (bytes 0 4) ∷ shared 2 (bytes 0 4) ∷ record (exclusive 1 (bytes 5 4)) { node = 8 } ∷ []) ≡ shared 2 (bytes 0 4) ∷ [] }
{}
