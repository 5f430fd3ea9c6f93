//! How names are told apart: by their units, or by their foldings.

ghost use Rattle.std.specs.Prelude.{◌≡◌, ◌↔◌, IsTrue};
ghost use Rattle.std.specs.Ordering.{nat_cmp};
ghost use Rattle.rd_dirinfo.specs.Naming.{fold_unit, seen_unit, name_cmp, IsSame, SortsBefore};

use std::cmp::Ordering;
use unicode::case::simple_fold;

/// How a drive tells names apart.
#[derive(Clone, Copy, Debug, PartialEq, Eq)]
pub enum Naming {
    /// By their units.
    Exact,
    /// By their simple case foldings, unit by unit: names that differ in case alone are the same.
    Folded,
}

/// The folding of a unit. Half of a surrogate pair stays as it is.
fn fold_unit(unit: u16) -> u16
    ensures { result ≡ fold_unit unit }
{
    let Some(character) = char::from_u32(u32::from(unit)) else {
        return unit;
    };
    let other = simple_fold(character) as u32;
    if other < 0x1_0000 { other as u16 } else { unit }
}

impl Naming {
    /// Whether two names are the same.
    pub fn same(self, a: &[u16], b: &[u16]) -> bool
        ensures { IsTrue result ↔ IsSame self a.now b.now }
    {
        self.compare(a, b).is_eq()
    }

    /// Whether the first name comes before the second.
    pub fn before(self, a: &[u16], b: &[u16]) -> bool
        ensures { IsTrue result ↔ SortsBefore self a.now b.now }
    {
        self.compare(a, b).is_lt()
    }

    /// The order of two names, for maps: by the first unit that is seen to differ, and a beginning of a name before the
    /// whole name.
    pub fn compare(self, a: &[u16], b: &[u16]) -> Ordering
        ensures { result ≡ name_cmp self a.now b.now }
    {
        let (mut a, mut b) = (a, b);
        while let (Some((x, xs)), Some((y, ys))) = (a.split_first(), b.split_first()) {
            let order = self.compare_units(*x, *y);
            if order != Ordering::Equal {
                return order;
            }
            (a, b) = (xs, ys);
        }
        a.len().cmp(&b.len())
    }

    fn compare_units(self, x: u16, y: u16) -> Ordering
        ensures { result ≡ nat_cmp (seen_unit self x) (seen_unit self y) }
    {
        if x == y {
            return Ordering::Equal;
        }
        self.see(x).cmp(&self.see(y))
    }

    /// What the naming sees of a unit.
    pub fn see(self, unit: u16) -> u16
        ensures { result ≡ seen_unit self unit }
    {
        match self {
            Naming::Exact => unit,
            Naming::Folded => fold_unit(unit),
        }
    }
}
