//! Names, paths and patterns: rows that follow from the limits, and the case foldings of the Unicode Character Database.
use rd_dirinfo::{Naming, Path, PathNo, Pattern};
use std::alloc::{AllocError, Global};
use std::process::Abort;

/// The units of an ASCII text.
fn units(alloc: Global, text: &[u8]) -> Result<Vec<u16>, AllocError> {
    text.iter().map(|byte| u16::from(*byte)).collect(alloc)
}

/// Text so many times.
fn repeated(alloc: Global, text: &[u8], times: usize) -> Result<Vec<u16>, AllocError> {
    let mut repeated = Vec::new(alloc);
    for _ in 0..times {
        repeated.extend_from_slice(units(alloc, text)?.as_slice())?;
    }
    Ok(repeated)
}

/// How many names a path has, or where it isn't one.
fn split(rt: &(impl Abort + AllocGlobal), path: &[u16]) -> Result<usize, u32> {
    match Path::split(rt.alloc(), path) {
        Ok(path) => Ok(path.names().len()),
        Err(PathNo::Invalid { at }) => Err(at),
        Err(PathNo::Memory) => panic!(rt; "memory for a path"),
    }
}

#[test]
fn splits_paths(rt: HostRuntime) {
    let rows: [(&[u8], Result<usize, u32>); 12] = [
        (b"\\a\\\\b", Err(3)),
        (b"\\a:b", Err(1)),
        (b"", Ok(0)),
        (b"\\", Ok(0)),
        (b"\\\\", Err(1)),
        (b"a", Ok(1)),
        (b"\\a\\", Ok(1)),
        (b"\\a\\\\", Err(3)),
        (b"\\ab\\c", Ok(2)),
        (b".", Err(0)),
        (b"\\a\\..", Err(3)),
        (b"\\...\\.a", Ok(2)),
    ];
    for (path, wanted) in rows {
        let units = units(rt.alloc(), path).expect(&rt, "memory for a row");
        assert_eq!(rt; split(&rt, units.as_slice()), wanted, "{path:?}");
    }
}

#[test]
fn names_lack_some_units(rt: HostRuntime) {
    for unit in 0..128u16 {
        let wanted = match unit {
            0..32 => Err(0),
            0x2f | 0x3a | 0x2a | 0x3f | 0x22 | 0x3c | 0x3e | 0x7c => Err(0),
            0x5c => Ok(2),
            _ => Ok(1),
        };
        assert_eq!(rt; split(&rt, &[0x61, unit, 0x62]), wanted, "{unit}");
    }
}

/// A path: text, names of `a` with a backslash after each, and text; and how many names it has, or where it fails.
#[derive(Drop)]
struct Long {
    front: &'static [u8],
    /// The units of a name.
    name: usize,
    names: usize,
    back: &'static [u8],
    wanted: Result<usize, u32>,
}

fn row(
    front: &'static [u8],
    (name, names): (usize, usize),
    back: &'static [u8],
    wanted: Result<usize, u32>,
) -> Long {
    Long {
        front,
        name,
        names,
        back,
        wanted,
    }
}

fn long_path(alloc: Global, row: &Long) -> Result<Vec<u16>, AllocError> {
    let mut path = units(alloc, row.front)?;
    for _ in 0..row.names {
        path.extend_from_slice(repeated(alloc, b"a", row.name)?.as_slice())?;
        path.push(0x5c)?;
    }
    path.extend_from_slice(units(alloc, row.back)?.as_slice())?;
    Ok(path)
}

#[test]
fn paths_have_limits(rt: HostRuntime) {
    let rows = [
        row(b"", (255, 1), b"", Ok(1)),
        row(b"\\", (256, 1), b"", Err(1)),
        row(b"\\", (1, 63), b"a", Ok(64)),
        row(b"\\", (1, 64), b"a", Err(129)),
        // 16 names of 255 units with a backslash after each have 4,096 units.
        row(b"", (255, 16), b"", Ok(16)),
        row(b"", (255, 16), b"a", Err(4096)),
        row(b"\\", (255, 16), b"", Err(4096)),
        row(b"\\", (254, 16), b"aaaaaaaaaaaaaaa", Ok(17)),
        row(b"\\", (254, 16), b"aaaaaaaaaaaaaaaa", Err(4096)),
    ];
    for row in &rows {
        let path = long_path(rt.alloc(), row).expect(&rt, "memory for a row");
        assert_eq!(rt;
            split(&rt, path.as_slice()),
            row.wanted,
            "{} {}",
            row.name,
            row.names
        );
    }
}

/// A pattern, a name, and whether it matches in both namings.
#[derive(Drop)]
struct Match {
    pattern: &'static [u8],
    name: &'static [u8],
    exact: bool,
    folded: bool,
}

fn pattern(rt: &(impl Abort + AllocGlobal), path: &[u8]) -> Pattern {
    let units = units(rt.alloc(), path).expect(rt, "memory for a row");
    Pattern::of_path(rt.alloc(), units.as_slice()).expect(rt, "a pattern")
}

#[test]
fn matches_patterns(rt: HostRuntime) {
    let row = |pattern, name, exact, folded| Match {
        pattern,
        name,
        exact,
        folded,
    };
    let rows: [Match; 15] = [
        row(b"", b"a", true, true),
        row(b"\\d\\", b".a", true, true),
        row(b"\\d\\*", b"a", true, true),
        row(b"*.*", b"a", true, true),
        row(b"*.", b"a", false, false),
        row(b"?", b"a", true, true),
        row(b"?", b"ab", false, false),
        row(b"a?", b"a", false, false),
        row(b"a*b*c", b"abc", true, true),
        row(b"a*b*c", b"a1b2bc3c", true, true),
        row(b"a*b*c", b"a1c2bd", false, false),
        row(b"a*b*c", b"AxBxC", false, true),
        row(b"*.TXT", b"a.txt.Txt", false, true),
        row(b"**a**", b"bab", true, true),
        row(b"ab", b"abc", false, false),
    ];
    for row in &rows {
        let pattern = pattern(&rt, row.pattern);
        let name = units(rt.alloc(), row.name).expect(&rt, "memory for a row");
        let exact = pattern.matches(Naming::Exact, name.as_slice());
        let folded = pattern.matches(Naming::Folded, name.as_slice());
        assert_eq!(rt;
            (exact, folded),
            (row.exact, row.folded),
            "{:?} {:?}",
            row.pattern,
            row.name
        );
    }
}

/// A backslash and a last part of so many units.
fn last_part(alloc: Global, len: usize) -> Result<Vec<u16>, AllocError> {
    let mut path = units(alloc, b"\\")?;
    path.extend_from_slice(repeated(alloc, b"a", len)?.as_slice())?;
    Ok(path)
}

/// Where such a part isn't a pattern.
fn fault(rt: &(impl Abort + AllocGlobal), len: usize) -> Option<u32> {
    let path = last_part(rt.alloc(), len).expect(rt, "memory for a row");
    match Pattern::of_path(rt.alloc(), path.as_slice()) {
        Ok(_) => None,
        Err(PathNo::Invalid { at }) => Some(at),
        Err(PathNo::Memory) => panic!(rt; "memory for a pattern"),
    }
}

#[test]
fn patterns_have_255_units(rt: HostRuntime) {
    assert_eq!(rt; (fault(&rt, 255), fault(&rt, 256)), (None, Some(1)));
}

/// Many ways to cut a name, of which none will do.
#[test]
fn matches_many_stars(rt: HostRuntime) {
    let mut stars = repeated(rt.alloc(), b"*a", 127).expect(&rt, "memory for a pattern");
    let name = repeated(rt.alloc(), b"a", 255).expect(&rt, "memory for a name");
    for (last, wanted) in [(0x2a, true), (0x62, false)] {
        stars.push(last).expect(&rt, "memory for a pattern");
        let pattern = Pattern::of_path(rt.alloc(), stars.as_slice()).expect(&rt, "a pattern");
        assert_eq!(rt; pattern.matches(Naming::Folded, name.as_slice()), wanted);
        stars.pop();
    }
}

#[test]
fn matches_any_name(rt: HostRuntime) {
    assert!(rt; Pattern::any(rt.alloc()).matches(Naming::Folded, &[0x61]));
}

#[test]
fn folds_names(rt: HostRuntime) {
    // Two names, and whether they are the same but for case. CaseFolding.txt has the foldings.
    let rows: [(&[u16], &[u16], bool); 10] = [
        (&[0x3a3], &[0x3c3], true),
        (&[0x3a3], &[0x3c2], true),
        (&[0x3c2], &[0x3c3], true),
        (&[0x52, 0x2e, 0x6d], &[0x72, 0x2e, 0x4d], true),
        (&[0x212a], &[0x6b], true),
        (&[0x130], &[0x69], false),
        (&[0x130], &[0x69, 0x307], false),
        (&[0xdf], &[0x73, 0x73], false),
        (&[0xdf], &[0x1e9e], true),
        // A letter of Deseret and its small letter, each a surrogate pair.
        (&[0xd801, 0xdc00], &[0xd801, 0xdc28], false),
    ];
    for (a, b, same) in rows {
        let folded = (Naming::Folded.same(a, b), Naming::Folded.same(b, a));
        let exact = (Naming::Exact.same(a, b), Naming::Exact.same(a, a));
        assert_eq!(rt;
            (folded, exact),
            ((same, same), (false, true)),
            "{a:?} {b:?}"
        );
    }
}

#[test]
fn orders_names(rt: HostRuntime) {
    let (small, capital, longer): (&[u16], &[u16], &[u16]) = (&[0x61], &[0x42], &[0x41, 0x61]);
    let folded = (
        Naming::Folded.before(small, capital),
        Naming::Folded.before(capital, small),
        Naming::Folded.before(small, longer),
    );
    assert_eq!(rt; folded, (true, false, true));
    let exact = (
        Naming::Exact.before(small, capital),
        Naming::Exact.before(capital, small),
        Naming::Exact.before(small, longer),
    );
    assert_eq!(rt; exact, (false, true, false));
}
