//! The definitions at work. Each is the contract of a function that does nothing: the checker computes the cases.

ghost use Rattle.std.specs.Prelude.{◌≡◌, [], ◌∷◌, ◌++◌, codes, replicate, true, false, None, Some};
ghost use Rattle.rd_dirinfo.specs.declared.naming.Naming.TheVariants as Naming;
ghost use Rattle.rd_dirinfo.specs.Patterns.{any_name};
ghost use Rattle.rd_tree.specs.declared.refusal.AddNo.TheVariants as AddNo;
ghost use Rattle.rd_tree.specs.declared.refusal.MoveNo.TheVariants as MoveNo;
ghost use Rattle.rd_tree.specs.Places.{add_refusal, asked_path, bytes_at, has_child, is_too_deep, move_refusal, moved, new_place, next_name, node_at, path_at, with_bytes, with_place, without};
ghost use Rattle.rd_tree.specs.Sample.{crowded, deep, long_names, sample};

/// What is found at a path, by both namings, and what is left when a node goes or its bytes change.
pub fn finding_is_as_listed()
    ensures root { node_at (sample Naming.Exact) [] ≡ Some 0 }
    ensures case { node_at (sample Naming.Folded) (codes "d" ∷ codes "B" ∷ []) ≡ Some 2 }
    ensures case_exact { node_at (sample Naming.Exact) (codes "d" ∷ codes "B" ∷ []) ≡ None }
    ensures below_a_file { node_at (sample Naming.Exact) (codes "c" ∷ codes "b" ∷ []) ≡ None }
    ensures bytes { bytes_at (sample Naming.Exact) 2 ≡ Some (7 ∷ []) }
    ensures folder { bytes_at (sample Naming.Exact) 1 ≡ None }
    ensures parent { has_child (sample Naming.Exact) 1 ≡ true }
    ensures leaf { has_child (sample Naming.Exact) 3 ≡ false }
    ensures gone { node_at (without (sample Naming.Exact) 2) (codes "D" ∷ codes "b" ∷ []) ≡ None }
    ensures others { node_at (without (sample Naming.Exact) 2) (codes "c" ∷ []) ≡ Some 3 }
    ensures changed { bytes_at (with_bytes (sample Naming.Exact) 2 (λ file. file ++ 8 ∷ [])) 2 ≡ Some (7 ∷ 8 ∷ []) }
{}

/// Where a node may be added, and the path that it gets.
pub fn adding_is_as_listed()
    ensures root { add_refusal (sample Naming.Exact) [] ≡ Some AddNo.Collision }
    ensures there { add_refusal (sample Naming.Folded) (codes "d" ∷ codes "B" ∷ []) ≡ Some AddNo.Collision }
    ensures free { add_refusal (sample Naming.Exact) (codes "D" ∷ codes "B" ∷ []) ≡ None }
    ensures no_folder { add_refusal (sample Naming.Exact) (codes "d" ∷ codes "x" ∷ []) ≡ Some AddNo.PathNotFound }
    ensures under_a_file { add_refusal (sample Naming.Exact) (codes "c" ∷ codes "x" ∷ []) ≡ Some AddNo.PathNotFound }
    ensures full { add_refusal (crowded 65535 Naming.Exact) (codes "d" ∷ []) ≡ Some AddNo.Full }
    ensures one_more { add_refusal (crowded 65534 Naming.Exact) (codes "d" ∷ []) ≡ None }
    ensures kept_parent { asked_path (sample Naming.Folded) (codes "d" ∷ codes "X" ∷ []) ≡ codes "D" ∷ codes "X" ∷ [] }
    ensures new { node_at (with_place (sample Naming.Folded) 9 (new_place (sample Naming.Folded) (codes "d" ∷ codes "X" ∷ []) true)) (codes "D" ∷ codes "x" ∷ []) ≡ Some 9 }
{}

/// Where a node may be moved, and what moves with it. 16 names of 254 units and one of 16 make a path of 4,096 units, with those
/// that stand between names; and so they do with a last name of 14 and one of one unit below it.
pub fn renaming_is_as_listed()
    ensures inside { move_refusal (sample Naming.Folded) 1 (codes "d" ∷ codes "e" ∷ []) true ≡ Some MoveNo.Inside }
    ensures not_inside { move_refusal (sample Naming.Exact) 1 (codes "d" ∷ codes "e" ∷ []) true ≡ Some MoveNo.PathNotFound }
    ensures under_a_file { move_refusal (sample Naming.Exact) 1 (codes "c" ∷ codes "e" ∷ []) true ≡ Some MoveNo.PathNotFound }
    ensures many_names { is_too_deep (sample Naming.Exact) 1 (replicate 64 (codes "a")) ≡ true }
    ensures most_names { is_too_deep (sample Naming.Exact) 1 (replicate 63 (codes "a")) ≡ false }
    ensures many_units { move_refusal (deep Naming.Exact) 3 (long_names 16 ++ replicate 17 0x61 ∷ []) false ≡ Some MoveNo.TooDeep }
    ensures most_units { move_refusal (deep Naming.Exact) 3 (long_names 16 ++ replicate 16 0x61 ∷ []) false ≡ None }
    ensures many_units_below { move_refusal (deep Naming.Exact) 1 (long_names 16 ++ replicate 15 0x61 ∷ []) false ≡ Some MoveNo.TooDeep }
    ensures most_units_below { move_refusal (deep Naming.Exact) 1 (long_names 16 ++ replicate 14 0x61 ∷ []) false ≡ None }
    ensures collision { move_refusal (sample Naming.Exact) 3 (codes "D" ∷ codes "b" ∷ []) false ≡ Some MoveNo.Collision }
    ensures replaced { move_refusal (sample Naming.Exact) 3 (codes "D" ∷ codes "b" ∷ []) true ≡ None }
    ensures no_folder_replaced { move_refusal (sample Naming.Exact) 3 (codes "D" ∷ []) true ≡ Some MoveNo.Collision }
    ensures own { move_refusal (sample Naming.Folded) 1 (codes "d" ∷ []) false ≡ None }
    ensures own_name { path_at (moved (sample Naming.Folded) 1 (codes "d" ∷ [])) 2 ≡ Some (codes "d" ∷ codes "b" ∷ []) }
    ensures own_parent { path_at (moved (sample Naming.Folded) 2 (codes "d" ∷ codes "B" ∷ [])) 2 ≡ Some (codes "D" ∷ codes "B" ∷ []) }
    ensures below { path_at (moved (sample Naming.Exact) 1 (codes "x" ∷ [])) 2 ≡ Some (codes "x" ∷ codes "b" ∷ []) }
    ensures left { node_at (moved (sample Naming.Exact) 1 (codes "x" ∷ [])) (codes "D" ∷ codes "b" ∷ []) ≡ None }
    ensures replaces { node_at (moved (sample Naming.Exact) 3 (codes "D" ∷ codes "b" ∷ [])) (codes "D" ∷ codes "b" ∷ []) ≡ Some 3 }
    ensures target_gone { path_at (moved (sample Naming.Exact) 3 (codes "D" ∷ codes "b" ∷ [])) 2 ≡ None }
    ensures others { path_at (moved (sample Naming.Exact) 1 (codes "x" ∷ [])) 3 ≡ Some (codes "c" ∷ []) }
{}

/// Which name is listed next.
pub fn listing_is_as_listed()
    ensures first { next_name (sample Naming.Exact) 0 None any_name ≡ Some (codes "D") }
    ensures first_folded { next_name (sample Naming.Folded) 0 None any_name ≡ Some (codes "c") }
    ensures after { next_name (sample Naming.Folded) 0 (Some (codes "C")) any_name ≡ Some (codes "D") }
    ensures last { next_name (sample Naming.Folded) 0 (Some (codes "d")) any_name ≡ None }
    ensures matching { next_name (sample Naming.Exact) 0 None (codes "c*") ≡ Some (codes "c") }
    ensures matching_folded { next_name (sample Naming.Folded) 0 None (codes "d*") ≡ Some (codes "D") }
    ensures matching_exact { next_name (sample Naming.Exact) 0 None (codes "d*") ≡ None }
    ensures children_alone { next_name (sample Naming.Exact) 0 None (codes "b") ≡ None }
{}
