//! How one path stands to another.

ghost use Rattle.std.specs.Prelude.{◌≡◌, ◌<◌, ◌≤◌, drop, length};
ghost use Rattle.rd_dirinfo.specs.Paths.{is_below, is_prefix, is_same_path, parent, path_cmp};
ghost use Rattle.rd_dirinfo.specs.declared.naming.Naming.TheVariants as Naming;

use rd_base::Units;
use rd_dirinfo::Naming;
use std::cmp::Ordering;

/// The order of two paths.
fn compare(a: &[Units], b: &[Units]) -> Ordering
    ensures { result ≡ path_cmp Naming.Exact a.now b.now }
{
    let (mut a, mut b) = (a, b);
    while let (Some((x, xs)), Some((y, ys))) = (a.split_first(), b.split_first()) {
        let order = Naming::Exact.compare(x.as_slice(), y.as_slice());
        if order != Ordering::Equal {
            return order;
        }
        (a, b) = (xs, ys);
    }
    a.len().cmp(&b.len())
}

/// Whether two paths are the same.
pub fn is_same(a: &[Units], b: &[Units]) -> bool
    ensures { result ≡ is_same_path Naming.Exact a.now b.now }
{
    compare(a, b).is_eq()
}

/// Whether a path is at or below another one.
pub fn is_prefix(from: &[Units], path: &[Units]) -> bool
    ensures { result ≡ is_prefix Naming.Exact from.now path.now }
{
    if from.len() > path.len() {
        return false;
    }
    compare(from, &path[..from.len()]).is_eq()
}

/// Whether a path is below another one.
pub fn is_below(folder: &[Units], path: &[Units]) -> bool
    ensures { result ≡ is_below Naming.Exact folder.now path.now }
{
    is_prefix(folder, path) && folder.len() != path.len()
}

/// The path of the folder in which the last name stands.
pub fn above(path: &[Units]) -> &[Units]
    requires { 0 < length path.now }
    ensures { result.now ≡ parent path.now }
{
    &path[..path.len() - 1]
}

/// What comes after the first names of a path.
pub fn after(path: &[Units], count: usize) -> &[Units]
    requires { count ≤ length path.now }
    ensures { result.now ≡ drop count path.now }
{
    &path[count..]
}
