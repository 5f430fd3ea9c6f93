//! An open folder of the system, and what is done by one name in it.

ghost use Rattle.std.specs.Prelude.{IsTrue};
ghost use Rattle.rd_folder.specs.OneName.{is_one_name};

use crate::one_name::OneName;
use arrayvec::ArrayString;
use os::FromRawFd;
use std::alloc::Global;
use std::fmt::Write;
use std::fs::{Metadata, OpenFile, OpenOptions};
use std::io::{Error, ErrorKind};
use std::os::fd::{AsRawFd, OwnedFd};
use std::os::unix::fs::MetadataExt;
use std::rt::Files;
use std::{fs, io};

/// The most bytes of a path by which the system finds a name in an open folder.
const MOST: usize = 800;

/// The working folder, as `openat` takes it.
const WORKING_FOLDER: i32 = -100;

/// A folder that is open. It stays the same folder whatever its path comes to mean.
#[derive(Drop)]
pub struct Place {
    fd: OwnedFd,
}

/// The folder that a path leads to. A link at its end is refused.
fn open_folder(folder: i32, path: &[u8]) -> io::Result<Place> {
    let fd = os::open_dir_at(folder, path);
    if fd < 0 {
        return Err(Error::from_raw_os_error(os::errno()));
    }
    Ok(Place {
        fd: unsafe { OwnedFd::from_raw_fd(fd) },
    })
}

/// The folder with a name in an open folder. A link is refused.
fn open_below(folder: i32, name: &str) -> io::Result<Place>
    requires { IsTrue (is_one_name name.now) }
{
    open_folder(folder, name.as_bytes())
}

/// What a call of the system came to that answers 0 or -1.
fn done(status: i32) -> io::Result<()> {
    if status < 0 {
        return Err(Error::from_raw_os_error(os::errno()));
    }
    Ok(())
}

/// A path that means what is open, as long as it is.
fn path_to(fd: &OwnedFd) -> io::Result<ArrayString<MOST>> {
    let mut path = ArrayString::new();
    let fd = fd.as_raw_fd();
    match write!(path, "/proc/self/fd/{fd}") {
        Ok(()) => Ok(path),
        Err(_) => Err(Error::from(ErrorKind::InvalidFilename)),
    }
}

/// Whether two looks saw one and the same thing.
fn is_same(a: &Metadata, b: &Metadata) -> bool {
    a.dev() == b.dev()
        && a.ino() == b.ino()
        && a.is_file() == b.is_file()
        && a.is_dir() == b.is_dir()
}

impl Place {
    /// The folder that a user names, who may name it by a link.
    pub fn named(alloc: Global, path: &str) -> io::Result<Place> {
        if path.is_empty() {
            return Err(Error::from(ErrorKind::NotFound));
        }
        let mut whole = String::from_str(alloc, path)?;
        whole.push('/')?;
        open_folder(WORKING_FOLDER, whole.as_bytes())
    }

    /// The same folder once more.
    pub fn again(&self) -> io::Result<Place> {
        let fd = os::duplicate(self.fd.as_raw_fd());
        if fd < 0 {
            return Err(Error::from_raw_os_error(os::errno()));
        }
        Ok(Place {
            fd: unsafe { OwnedFd::from_raw_fd(fd) },
        })
    }

    pub fn below(&self, name: &OneName) -> io::Result<Place> {
        open_below(self.fd.as_raw_fd(), name.as_str())
    }

    /// A path that means the folder itself, as long as it is open.
    pub fn own_path(&self) -> io::Result<ArrayString<MOST>> {
        path_to(&self.fd)
    }

    /// A path that means a name in the folder, as long as it is open.
    fn path_of(&self, name: &OneName) -> io::Result<ArrayString<MOST>> {
        let mut path = self.own_path()?;
        let text = name.as_str();
        match write!(path, "/{text}") {
            Ok(()) => Ok(path),
            Err(_) => Err(Error::from(ErrorKind::InvalidFilename)),
        }
    }

    /// What the folder is.
    pub fn look_at_self<R: Files>(&self, rt: &R) -> io::Result<Metadata> {
        let path = self.own_path()?;
        fs::metadata(rt, path.as_str())
    }

    /// What stands under a name. A link is one.
    pub fn look<R: Files>(&self, rt: &R, name: &OneName) -> io::Result<Metadata> {
        let path = self.path_of(name)?;
        fs::symlink_metadata(rt, path.as_str())
    }

    /// What stands under a name, held open. A pipe that took a file's place would let whoever reads it wait for a writer, so a file is held to be
    /// written too, if that is allowed.
    fn hold(&self, name: &OneName, is_folder: bool) -> io::Result<OwnedFd> {
        if is_folder {
            let folder = self.below(name)?;
            return Ok(folder.fd);
        }
        let path = self.path_of(name)?;
        let mut fd = os::open_update(path.as_bytes());
        if fd < 0 {
            fd = os::open_read(path.as_bytes());
        }
        if fd < 0 {
            return Err(Error::from_raw_os_error(os::errno()));
        }
        Ok(unsafe { OwnedFd::from_raw_fd(fd) })
    }

    /// Opens what stands under a name, of which a look was taken. What took its place since is refused.
    pub fn open<R: Files>(
        &self,
        rt: &R,
        name: &OneName,
        seen: &Metadata,
        writes: bool,
    ) -> io::Result<R::File> {
        let held = self.hold(name, seen.is_dir())?;
        let path = path_to(&held)?;
        let found = fs::metadata(rt, path.as_str())?;
        if !is_same(seen, &found) {
            return Err(Error::from(ErrorKind::FilesystemLoop));
        }
        OpenOptions::new()
            .read(true)
            .write(writes)
            .open(rt, path.as_str())
    }

    /// Opens the folder itself.
    pub fn open_self<R: Files>(&self, rt: &R) -> io::Result<R::File> {
        let path = self.own_path()?;
        OpenOptions::new().read(true).open(rt, path.as_str())
    }

    /// Makes an empty file under a name at which nothing stands; a link is something.
    pub fn make_file<R: Files>(&self, rt: &R, name: &OneName) -> io::Result<()> {
        let path = self.path_of(name)?;
        let file = OpenOptions::new()
            .write(true)
            .create_new(true)
            .open(rt, path.as_str())?;
        drop(file);
        Ok(())
    }

    pub fn make_folder<R: Files>(&self, rt: &R, name: &OneName) -> io::Result<()> {
        let path = self.path_of(name)?;
        fs::create_dir(rt, path.as_str())
    }

    pub fn remove_file(&self, name: &OneName) -> io::Result<()> {
        done(os::unlink_at(self.fd.as_raw_fd(), name.as_str().as_bytes()))
    }

    pub fn remove_folder(&self, name: &OneName) -> io::Result<()> {
        done(os::rmdir_at(self.fd.as_raw_fd(), name.as_str().as_bytes()))
    }

    /// Moves a file to a name at which nothing stands. It fails where something came there meanwhile.
    pub fn move_file<R: Files>(
        &self,
        rt: &R,
        name: &OneName,
        to: &Place,
        new_name: &OneName,
    ) -> io::Result<()> {
        let from_path = self.path_of(name)?;
        let to_path = to.path_of(new_name)?;
        fs::hard_link(rt, from_path.as_str(), to_path.as_str())?;
        self.remove_file(name)
    }

    /// Moves what stands under a name, in the place of a file of the new name, if there is one.
    pub fn rename<R: Files>(
        &self,
        rt: &R,
        name: &OneName,
        to: &Place,
        new_name: &OneName,
    ) -> io::Result<()> {
        let from_path = self.path_of(name)?;
        let to_path = to.path_of(new_name)?;
        fs::rename(rt, from_path.as_str(), to_path.as_str())
    }
}
