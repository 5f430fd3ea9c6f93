//! Whether a name matches a pattern: each part of the pattern between two `*` is looked for from the left, and the first
//! place where it fits is kept.

ghost use Rattle.std.specs.Prelude.{◌≡◌, ◌∷◌};
ghost use Rattle.rd_dirinfo.specs.Naming.{seen};
ghost use Rattle.rd_dirinfo.specs.Patterns.{star, is_cut_by, matches};
ghost use Rattle.rd_dirinfo.specs.Walks.{WalkTells};

use crate::naming::Naming;

/// `*`
const STAR: u16 = 0x2a;

/// `?`
const QUESTION: u16 = 0x3f;

/// How a walk of a pattern along a name ends.
enum Walk<'p, 'n> {
    /// Both end.
    Whole,
    /// The name ends first.
    Short,
    /// The pattern has a `*`: what comes after it, and what is left of the name.
    Star(&'p [u16], &'n [u16]),
    /// They differ, or the pattern ends first.
    Differs,
}

/// Walks a pattern along a name up to the next `*`.
fn walk_along<'p, 'n>(naming: Naming, pattern: &'p [u16], name: &'n [u16]) -> Walk<'p, 'n>
    ensures { WalkTells naming pattern.now name.now result }
{
    let (mut pattern, mut name) = (pattern, name);
    while let Some((first, others)) = pattern.split_first() {
        let wanted = naming.see(*first);
        if wanted == STAR {
            return Walk::Star(others, name);
        }
        let Some((unit, rest)) = name.split_first() else {
            return Walk::Short;
        };
        if wanted != QUESTION && wanted != naming.see(*unit) {
            return Walk::Differs;
        }
        (pattern, name) = (others, rest);
    }
    if name.is_empty() {
        Walk::Whole
    } else {
        Walk::Differs
    }
}

/// Whether a name matches a pattern.
pub fn matches(naming: Naming, pattern: &[u16], name: &[u16]) -> bool
    ensures { result ≡ matches naming pattern.now name.now }
{
    match walk_along(naming, pattern, name) {
        Walk::Whole => true,
        Walk::Star(others, rest) => matches_after_star(naming, others, rest),
        Walk::Short | Walk::Differs => false,
    }
}

/// Whether a name matches a pattern that has a `*` before it.
fn matches_after_star(naming: Naming, pattern: &[u16], name: &[u16]) -> bool
    ensures { result ≡ is_cut_by (star ∷ seen naming pattern.now) (seen naming name.now) }
{
    let (mut pattern, mut name) = (pattern, name);
    loop {
        if pattern.is_empty() {
            return true;
        }
        match walk_along(naming, pattern, name) {
            Walk::Whole => return true,
            Walk::Short => return false,
            Walk::Star(others, rest) => (pattern, name) = (others, rest),
            Walk::Differs => match name.split_first() {
                Some((_, rest)) => name = rest,
                None => return false,
            },
        }
    }
}
