//! A node of a folder in memory.

ghost use Rattle.std.specs.Prelude.{◌≡◌, ◌<◌, ◌^◌, ℕ, [], Some, None, not, IfOk, length, if◌then◌else◌};
ghost use Rattle.std.specs.Option.{option_map, is_some};
ghost use Rattle.rd_contents.specs.Contents.{part};
ghost use Rattle.rd_dirinfo.specs.Paths.{is_parent, last_name, moved_path, path_cmp};
ghost use Rattle.rd_dirinfo.specs.declared.naming.Naming.TheVariants as Naming;
ghost use Rattle.rd_drive.specs.DriveState.{bytes_of, is_at_path, is_folder_node, new_node};
ghost use Rattle.rd_folder.specs.FolderCalls.{emptied, ended_at, look_of, marked_so, of_file, overwritten};
ghost use Rattle.rd_folder.specs.InMemory.{size_refusal, Alters, IsSamePlace, Tries};

use crate::folder::FolderNo;
use crate::look::Look;
use rd_base::{Bytes, Moments, Units};
use rd_contents::{Contents, SizeNo};
use rd_dirinfo::Naming;
use std::cmp::Ordering;
use std::marker::Model;

/// A file or folder of a folder in memory.
#[derive(Drop)]
pub struct MemNode {
    path: Vec<Units>,
    /// A folder has none.
    contents: Option<Contents>,
    attributes: u32,
    moments: Moments,
}

impl Model for MemNode {
    ghost use Rattle.std.specs.Prelude.{false};
    ghost use Rattle.rd_drive.specs.DriveState.{Node};

    ghost Value = { Node };

    ghost view = { λ n. record { path = n.path.items; bytes = n.contents; attributes = n.attributes; moments = n.moments; pending = false } };
}

/// The order of two paths.
pub fn compare(a: &[Units], b: &[Units]) -> Ordering
    ensures { result ≡ path_cmp Naming.Exact a.now b.now }
{
    let (mut a, mut b) = (a, b);
    while let (Some((x, xs)), Some((y, ys))) = (a.split_first(), b.split_first()) {
        let order = Naming::Exact.compare(x.as_slice(), y.as_slice());
        if order != Ordering::Equal {
            return order;
        }
        (a, b) = (xs, ys);
    }
    a.len().cmp(&b.len())
}

/// A change of a file's size that isn't made.
fn size_no(no: SizeNo) -> FolderNo
    ensures { result ≡ size_refusal no }
{
    match no {
        SizeNo::TooBig => FolderNo::Missing,
        SizeNo::Memory => FolderNo::Memory,
    }
}

impl MemNode {
    /// A node that is made at a moment: a file with these contents, or a folder.
    pub fn new(path: Vec<Units>, contents: Option<Contents>, attributes: u32, moment: u64) -> Self
        ensures { result ≡ new_node path.items contents attributes moment }
    {
        MemNode {
            path,
            contents,
            attributes,
            moments: Moments {
                creation: moment,
                access: moment,
                write: moment,
                change: moment,
            },
        }
    }

    pub fn path(&self) -> &[Units]
        ensures { result.now ≡ self.now.path }
    {
        self.path.as_slice()
    }

    pub fn is_folder(&self) -> bool
        ensures { result ≡ is_folder_node self.now }
    {
        self.contents.is_none()
    }

    pub fn look(&self) -> Look
        ensures look { result ≡ look_of self.now }
        ensures bound { result.end < 2 ^ 63 }
    {
        let (folder, end) = match &self.contents {
            Some(contents) => (false, contents.len()),
            None => (true, 0),
        };
        Look {
            folder,
            end,
            attributes: self.attributes,
            moments: self.moments,
        }
    }

    /// Whether it is at this path.
    pub fn is_at(&self, path: &[Units]) -> bool
        ensures { result ≡ is_at_path Naming.Exact path.now self.now }
    {
        compare(self.path.as_slice(), path).is_eq()
    }

    /// The bytes of a file from an offset up to its end, at most `count`, in the room that was found for them.
    pub fn read(&self, offset: u64, count: u32, mut room: Vec<u8>) -> Result<Bytes, FolderNo>
        requires room { room.items ≡ [] }
        ensures { Tries self.now self.now (of_file self.now (Some (part (bytes_of self.now) offset count, self.now))) result }
    {
        let Some(contents) = &self.contents else {
            return Err(FolderNo::Missing);
        };
        match contents.read_into(&mut room, offset, count) {
            Ok(()) => Ok(Bytes::of(room)),
            Err(_) => Err(FolderNo::Memory),
        }
    }

    pub fn replace(&mut self, attributes: u32, moment: u64) -> Result<(), FolderNo>
        ensures alters { Alters self.old self.new (emptied attributes moment self.old) result }
        ensures place { IsSamePlace self.old self.new }
    {
        let Some(contents) = &mut self.contents else {
            return Err(FolderNo::Missing);
        };
        match contents.resize(0) {
            Ok(()) => {
                self.attributes = attributes;
                self.moments.write = moment;
                self.moments.change = moment;
                Ok(())
            }
            Err(no) => Err(size_no(no)),
        }
    }

    pub fn write(&mut self, offset: u64, bytes: &[u8], moment: u64) -> Result<(), FolderNo>
        ensures alters { Alters self.old self.new (overwritten offset bytes.now moment self.old) result }
        ensures place { IsSamePlace self.old self.new }
    {
        let Some(contents) = &mut self.contents else {
            return Err(FolderNo::Missing);
        };
        if bytes.is_empty() {
            return Ok(());
        }
        match contents.write(offset, bytes) {
            Ok(()) => {
                self.moments.write = moment;
                self.moments.change = moment;
                Ok(())
            }
            Err(no) => Err(size_no(no)),
        }
    }

    pub fn resize(&mut self, end: u64, moment: u64) -> Result<(), FolderNo>
        ensures alters { Alters self.old self.new (ended_at end moment self.old) result }
        ensures place { IsSamePlace self.old self.new }
    {
        let Some(contents) = &mut self.contents else {
            return Err(FolderNo::Missing);
        };
        match contents.resize(end) {
            Ok(()) => {
                self.moments.write = moment;
                self.moments.change = moment;
                Ok(())
            }
            Err(no) => Err(size_no(no)),
        }
    }

    pub fn mark(&mut self, attributes: u32, moments: Moments)
        ensures marked { Some self.new ≡ marked_so attributes moments self.old }
        ensures place { IsSamePlace self.old self.new }
    {
        self.attributes = attributes;
        self.moments = moments;
    }

    /// It has another path.
    pub fn set_path(&mut self, path: Vec<Units>)
        ensures { self.new ≡ record self.old { path = path.items } }
    {
        self.path = path;
    }

    /// It changed at a moment.
    pub fn set_change(&mut self, moment: u64)
        ensures { self.new ≡ record self.old { moments = record self.old.moments { change = moment } } }
    {
        self.moments.change = moment;
    }
}
