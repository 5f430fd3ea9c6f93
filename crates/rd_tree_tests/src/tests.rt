//! What no clause says: with ample memory each call goes through.
use rd_base::Units;
use rd_contents::SizeNo;
use rd_dirinfo::{Naming, Path, Pattern};
use rd_tree::{AddNo, MoveNo, NodeId, NotEmpty, Tree};
use std::process::Abort;

/// The path that an ASCII text spells.
fn path(rt: &(impl Abort + AllocGlobal), text: &[u8]) -> Path {
    let mut units = Vec::new(rt.alloc());
    for byte in text {
        units.push(u16::from(*byte)).expect(rt, "memory for a unit");
    }
    Path::split(rt.alloc(), units.as_slice()).expect(rt, "a path")
}

/// A path, whether a folder is to be made there, and why it isn't, by each naming.
struct Row {
    path: &'static [u8],
    folder: bool,
    exact: Option<AddNo>,
    folded: Option<AddNo>,
}

/// In this order, into a tree that has the root alone.
const ROWS: &[Row] = &[
    Row {
        path: b"\\",
        folder: true,
        exact: Some(AddNo::Collision),
        folded: Some(AddNo::Collision),
    },
    Row {
        path: b"\\Dir",
        folder: true,
        exact: None,
        folded: None,
    },
    Row {
        path: b"\\Dir",
        folder: false,
        exact: Some(AddNo::Collision),
        folded: Some(AddNo::Collision),
    },
    Row {
        path: b"\\dir",
        folder: false,
        exact: None,
        folded: Some(AddNo::Collision),
    },
    Row {
        path: b"\\Dir\\a",
        folder: false,
        exact: None,
        folded: None,
    },
    Row {
        path: b"\\DIR\\A",
        folder: false,
        exact: Some(AddNo::PathNotFound),
        folded: Some(AddNo::Collision),
    },
    Row {
        path: b"\\dir\\A\\x",
        folder: false,
        exact: Some(AddNo::PathNotFound),
        folded: Some(AddNo::PathNotFound),
    },
];

#[test]
fn adds_by_each_naming(rt: HostRuntime) {
    for naming in [Naming::Exact, Naming::Folded] {
        let mut tree = Tree::new(rt.alloc(), naming).expect(&rt, "memory for a tree");
        for row in ROWS {
            let made = tree.add(&path(&rt, row.path), row.folder);
            let wanted = match naming {
                Naming::Exact => row.exact,
                Naming::Folded => row.folded,
            };
            assert_eq!(rt; made.err(), wanted, "{:?}", row.path);
        }
    }
}

/// The number of the node at a path.
fn at(rt: &(impl Abort + AllocGlobal), tree: &Tree, text: &[u8]) -> Option<NodeId> {
    tree.find(&path(rt, text))
}

#[test]
fn finds_by_each_naming(rt: HostRuntime) {
    for naming in [Naming::Exact, Naming::Folded] {
        let mut tree = Tree::new(rt.alloc(), naming).expect(&rt, "memory for a tree");
        let made = tree
            .add(&path(&rt, b"\\Read.me"), false)
            .expect(&rt, "room for a file");
        let other = at(&rt, &tree, b"\\READ.ME");
        assert_eq!(rt; at(&rt, &tree, b"\\Read.me"), Some(made));
        assert_eq!(rt; other.is_some(), naming == Naming::Folded);
    }
}

#[test]
fn keeps_bytes(rt: HostRuntime) {
    let mut tree = Tree::new(rt.alloc(), Naming::Exact).expect(&rt, "memory for a tree");
    let file = tree
        .add(&path(&rt, b"\\s"), false)
        .expect(&rt, "room for a file");
    let written = tree.write(file, 2, b"ab");
    assert_eq!(rt; written, Ok(()));
    let passed = tree.write(file, 1 << 40, b"a");
    assert_eq!(rt; passed, Err(SizeNo::TooBig));
    let cut = tree.resize(file, 3);
    assert_eq!(rt; cut, Ok(()));
    let bytes = tree.read(file, 0, 9).expect(&rt, "memory for the bytes");
    assert_eq!(rt; bytes.as_slice(), b"\0\0a".as_slice());
    let mut out = Vec::new(rt.alloc());
    tree.read_into(file, &mut out, 1, 9)
        .expect(&rt, "memory for the bytes");
    assert_eq!(rt; out.as_slice(), b"\0a".as_slice());
}

/// The first unit of the name that is left when the node at a path goes, which isn't the root's.
fn remove(
    rt: &(impl Abort + AllocGlobal),
    tree: &mut Tree,
    text: &[u8],
) -> Result<Option<u16>, NotEmpty> {
    let Some(node) = tree.find(&path(rt, text)) else {
        return Ok(None);
    };
    assert!(rt; node.0 != 0, "the root");
    match tree.remove(node) {
        Ok(name) => Ok(name.as_slice().first().copied()),
        Err(no) => Err(no),
    }
}

#[test]
fn removes_leaves(rt: HostRuntime) {
    let mut tree = Tree::new(rt.alloc(), Naming::Folded).expect(&rt, "memory for a tree");
    for (text, folder) in [(b"\\d".as_slice(), true), (b"\\d\\e".as_slice(), false)] {
        let made = tree.add(&path(&rt, text), folder);
        assert_eq!(rt; made.err(), None);
    }
    let full = remove(&rt, &mut tree, b"\\D");
    assert_eq!(rt; full, Err(NotEmpty));
    let leaf = remove(&rt, &mut tree, b"\\D\\E");
    assert_eq!(rt; leaf, Ok(Some(0x65)));
    let empty = remove(&rt, &mut tree, b"\\D");
    assert_eq!(rt; empty, Ok(Some(0x64)));
    assert_eq!(rt; at(&rt, &tree, b"\\d"), None);
}

/// The first name of the root's children that matches a pattern and comes after another, if there is one.
fn listed(rt: &(impl Abort + AllocGlobal), naming: Naming, after: Option<&Units>) -> Option<u16> {
    let mut tree = Tree::new(rt.alloc(), naming).expect(rt, "memory for a tree");
    for text in [b"\\B".as_slice(), b"\\a".as_slice(), b"\\c".as_slice()] {
        let made = tree.add(&path(rt, text), false);
        assert_eq!(rt; made.err(), None);
    }
    let root = tree.find(&path(rt, b"\\")).expect(rt, "the root");
    if !tree.is_folder(root) {
        return None;
    }
    let name = tree.next(root, after, &Pattern::any(rt.alloc()))?;
    name.as_slice().first().copied()
}

#[test]
fn lists_by_each_naming(rt: HostRuntime) {
    let other = Units::of([0x61].to_vec(rt.alloc()).expect(&rt, "memory for a name"));
    assert_eq!(rt; listed(&rt, Naming::Exact, None), Some(0x42));
    assert_eq!(rt; listed(&rt, Naming::Folded, None), Some(0x61));
    assert_eq!(rt; listed(&rt, Naming::Exact, Some(&other)), Some(0x63));
    assert_eq!(rt; listed(&rt, Naming::Folded, Some(&other)), Some(0x42));
}

/// The first unit of the root's first name.
fn first_unit(rt: &(impl Abort + AllocGlobal), tree: &Tree) -> Option<u16> {
    let root = tree.find(&path(rt, b"\\")).expect(rt, "the root");
    if !tree.is_folder(root) {
        return None;
    }
    let name = tree.next(root, None, &Pattern::any(rt.alloc()))?;
    name.as_slice().first().copied()
}

/// What renaming the node at a path returns; neither path is the root's.
fn rename(
    rt: &(impl Abort + AllocGlobal),
    tree: &mut Tree,
    from: &[u8],
    to: &[u8],
    replace: bool,
) -> Result<(), MoveNo> {
    let to = path(rt, to);
    assert!(rt; !to.names().is_empty(), "the root");
    let node = tree.find(&path(rt, from)).expect(rt, "a node");
    assert!(rt; node.0 != 0, "the root");
    tree.rename(node, &to, replace)
}

#[test]
fn renames_by_folding(rt: HostRuntime) {
    let mut tree = Tree::new(rt.alloc(), Naming::Folded).expect(&rt, "memory for a tree");
    for (text, folder) in [
        (b"\\d".as_slice(), true),
        (b"\\d\\f".as_slice(), false),
        (b"\\g".as_slice(), false),
    ] {
        let made = tree.add(&path(&rt, text), folder);
        assert_eq!(rt; made.err(), None);
    }
    let inside = rename(&rt, &mut tree, b"\\d", b"\\d\\e", false);
    assert_eq!(rt; inside, Err(MoveNo::Inside));
    assert_eq!(rt; first_unit(&rt, &tree), Some(0x64));
    let other_case = rename(&rt, &mut tree, b"\\d", b"\\D", false);
    assert_eq!(rt; other_case, Ok(()));
    assert_eq!(rt; first_unit(&rt, &tree), Some(0x44));
    let moved = at(&rt, &tree, b"\\g");
    let taken = rename(&rt, &mut tree, b"\\g", b"\\d\\F", false);
    assert_eq!(rt; taken, Err(MoveNo::Collision));
    let replaced = rename(&rt, &mut tree, b"\\g", b"\\d\\F", true);
    assert_eq!(rt; replaced, Ok(()));
    assert_eq!(rt; at(&rt, &tree, b"\\g"), None);
    assert_eq!(rt; at(&rt, &tree, b"\\d\\f"), moved);
}
