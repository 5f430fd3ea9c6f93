//! The definitions at work, as a contract of a function that does nothing: the checker computes each case.

ghost use Rattle.std.specs.Prelude.{◌≡◌, [], ◌∷◌, ◌++◌, replicate};
ghost use Rattle.rd_contents.specs.Contents.{part, resized, written};

/// What resizing, writing and reading mean, case by case.
pub fn contents_are_as_listed()
    ensures gap { written (1 ∷ []) 3 (7 ∷ 8 ∷ []) ≡ 1 ∷ 0 ∷ 0 ∷ 7 ∷ 8 ∷ [] }
    ensures middle { written (1 ∷ 2 ∷ 3 ∷ 4 ∷ []) 1 (7 ∷ 8 ∷ []) ≡ 1 ∷ 7 ∷ 8 ∷ 4 ∷ [] }
    ensures past_end { written (1 ∷ 2 ∷ []) 1 (7 ∷ 8 ∷ []) ≡ 1 ∷ 7 ∷ 8 ∷ [] }
    ensures page_edge { written (replicate 4098 1) 4095 (7 ∷ 8 ∷ []) ≡ replicate 4095 1 ++ (7 ∷ 8 ∷ 1 ∷ []) }
    ensures no_bytes { written (1 ∷ []) 9 [] ≡ 1 ∷ [] }
    ensures cut { resized (1 ∷ 2 ∷ 3 ∷ []) 1 ≡ 1 ∷ [] }
    ensures cut_and_extended { resized (resized (1 ∷ 2 ∷ 3 ∷ []) 1) 3 ≡ 1 ∷ 0 ∷ 0 ∷ [] }
    ensures read { part (1 ∷ 2 ∷ 3 ∷ 4 ∷ []) 1 2 ≡ 2 ∷ 3 ∷ [] }
    ensures read_at_end { part (1 ∷ 2 ∷ []) 2 9 ≡ [] }
    ensures read_past_end { part (1 ∷ 2 ∷ []) 7 9 ≡ [] }
{}
