//! The law of the classes of entries, the laws of names, and the definitions at work. Each is a function that does nothing: its
//! contract is the law.

ghost use Rattle.std.specs.Prelude.{◌≡◌, ◌↔◌, ◌⊎◌, ℕ, List, [], ◌∷◌, ◌++◌, codes, replicate, true, false, None, Some};
ghost use Rattle.std.specs.Cmp.{IsTotalOrder};
ghost use Rattle.std.specs.declared.cmp.Ordering.TheVariants.{Equal};
ghost use Rattle.rd_base.specs.Classes.{IsOneOfClass};
ghost use Rattle.rd_dirinfo.specs.Entry.{entry_classes};
ghost use Rattle.rd_dirinfo.specs.Naming.{fold_unit, folding, name_cmp, IsSame, SortsBefore};
ghost use Rattle.rd_dirinfo.specs.Paths.{path_fault, parsed_path, path_cmp, IsSamePath};
ghost use Rattle.rd_dirinfo.specs.Patterns.{matches, pattern_fault, pattern_of};
ghost use Rattle.rd_dirinfo.specs.declared.naming.Naming.TheVariants as Naming;

use crate::naming::Naming;

/// The buffer of a class of entries is one entry with one tail, or has one first fault, never both; of another class it
/// is neither.
pub fn entry_is_decided(class: u32, bytes: &[u8])
    ensures { IsOneOfClass entry_classes class bytes.now }
{}

/// Names, and paths, stand in a total order, in which names are equal exactly where they are the same. Coming before holds of
/// no name and itself, of one of two names that aren't the same, and of whatever is the same as these.
pub fn names_are_ordered(naming: Naming)
    ensures order { IsTotalOrder (name_cmp naming) }
    ensures paths { IsTotalOrder (path_cmp naming) }
    ensures same { (a b : List ℕ) → (name_cmp naming a b ≡ Equal) ↔ IsSame naming a b }
    ensures same_paths { (p q : List (List ℕ)) → (path_cmp naming p q ≡ Equal) ↔ IsSamePath naming p q }
    ensures never { (a b : List ℕ) → IsSame naming a b → SortsBefore naming a b → ⊥ }
    ensures one { (a b : List ℕ) → SortsBefore naming a b ⊎ (IsSame naming a b ⊎ SortsBefore naming b a) }
    ensures respects { (a b c d : List ℕ) → IsSame naming a c → IsSame naming b d → SortsBefore naming a b → SortsBefore naming c d }
{}

/// What folding means, case by case: the three sigmas; the dotted capital I and the sharp s, whose foldings have more than one
/// character or none; the capital sharp s; the sign of the kelvin; and a surrogate pair.
pub fn foldings_are_as_listed()
    ensures sigmas { folding (0x3a3 ∷ 0x3c2 ∷ 0x3c3 ∷ []) ≡ 0x3c3 ∷ 0x3c3 ∷ 0x3c3 ∷ [] }
    ensures dotted_capital { fold_unit 0x130 ≡ 0x130 }
    ensures sharp_s { fold_unit 0xdf ≡ 0xdf }
    ensures capital_sharp_s { fold_unit 0x1e9e ≡ 0xdf }
    ensures kelvin { fold_unit 0x212a ≡ 0x6b }
    ensures pair { folding (0xd801 ∷ 0xdc00 ∷ []) ≡ 0xd801 ∷ 0xdc00 ∷ [] }
    ensures case { IsSame Naming.Folded (codes "Read.me") (codes "READ.ME") }
    ensures before { SortsBefore Naming.Folded (codes "a") (codes "B") }
    ensures before_exact { SortsBefore Naming.Exact (codes "B") (codes "a") }
{}

/// Which units spell a path, case by case. 0x5c is the backslash.
pub fn paths_are_as_listed()
    ensures none { parsed_path [] ≡ Some [] }
    ensures root { parsed_path (0x5c ∷ []) ≡ Some [] }
    ensures two { path_fault (0x5c ∷ 0x5c ∷ []) ≡ Some 1 }
    ensures names { parsed_path (0x5c ∷ codes "ab" ++ 0x5c ∷ codes "c" ++ 0x5c ∷ []) ≡ Some (codes "ab" ∷ codes "c" ∷ []) }
    ensures empty_name { path_fault (0x5c ∷ codes "a" ++ 0x5c ∷ 0x5c ∷ codes "b") ≡ Some 3 }
    ensures colon { path_fault (0x5c ∷ codes "a:b") ≡ Some 1 }
    ensures dots { path_fault (codes "a" ++ 0x5c ∷ codes "..") ≡ Some 2 }
    ensures long_name { path_fault (codes "a" ++ 0x5c ∷ replicate 256 0x61) ≡ Some 2 }
{}

/// What matches a pattern, case by case.
pub fn patterns_are_as_listed()
    ensures runs { matches Naming.Exact (codes "a*b*c") (codes "a1b2bc") ≡ true }
    ensures last { matches Naming.Exact (codes "a*b*c") (codes "abcd") ≡ false }
    ensures no_run { matches Naming.Exact (codes "a*b") (codes "ab") ≡ true }
    ensures one { matches Naming.Exact (codes "?b") (codes "ab") ≡ true }
    ensures not_none { matches Naming.Exact (codes "?") [] ≡ false }
    ensures case { matches Naming.Folded (codes "*.TXT") (codes "a.txt") ≡ true }
    ensures case_exact { matches Naming.Exact (codes "*.TXT") (codes "a.txt") ≡ false }
    ensures half { matches Naming.Exact (codes "?") (0xd801 ∷ 0xdc00 ∷ []) ≡ false }
    ensures after_folder { pattern_of (0x5c ∷ codes "d" ++ 0x5c ∷ codes "a*") ≡ codes "a*" }
    ensures nothing { pattern_of (0x5c ∷ codes "d" ++ 0x5c ∷ []) ≡ codes "*" }
    ensures dot { pattern_of (codes "*.*") ≡ codes "*" }
    ensures long { pattern_fault (0x5c ∷ replicate 256 0x61) ≡ Some 1 }
{}
