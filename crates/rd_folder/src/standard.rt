//! A real folder.

ghost use Rattle.std.specs.Prelude.{◌≡◌, ◌≤◌, ◌<◌, ◌^◌, [], length, true, None, IfOk, IfSome, OnOk};
ghost use Rattle.std.specs.Io.{ReadsAtMost};
ghost use Rattle.rd_dirinfo.specs.Paths.{is_name};

use crate::faults::Faults;
use crate::finding::{file_in, known_in, reach, seen_at, spot_of};
use crate::folder::{Folder, FolderNo};
use crate::folders::Folders;
use crate::kept::KeptFiles;
use crate::listing::Listing;
use crate::look::{Listed, Look};
use crate::place::Place;
use crate::seen::{MOST_BYTES, look_of, times_of};
use rd_base::{Bytes, Moments, Units};
use rd_dirinfo::Pattern;
use std::fs::OpenFile;
use std::io;
use std::io::{Error, ErrorKind};
use std::os::unix::fs::FileExt;
use std::rt::Files;

/// Reads from an offset on until there is no more room, or the file has ended, and returns how many bytes it read.
fn fill<F: FileExt>(file: &F, room: &mut [u8], offset: u64) -> io::Result<usize>
    ensures bound { ReadsAtMost result room.new }
{
    let mut at = 0;
    while at < room.len() {
        let count = file.read_at(&mut room[at..], offset.saturating_add(at as u64))?;
        if count == 0 {
            break;
        }
        at += count;
    }
    Ok(at)
}

/// How many bytes of an open file are read from an offset on, at most, into room of a capacity. The file isn't asked where the room suffices.
fn wanted<F: OpenFile>(file: &F, offset: u64, count: u32, capacity: usize) -> io::Result<usize>
    ensures { IfOk result (λ wanted. wanted ≤ count) }
{
    let most = MOST_BYTES.saturating_sub(offset).min(u64::from(count));
    if count as usize <= capacity {
        return Ok(most as usize);
    }
    let end = file.metadata()?.len();
    Ok(end.saturating_sub(offset).min(most) as usize)
}

/// Reads the bytes of an open file from an offset on, at most `count`, in the place of what is in the room.
fn read_into<F: FileExt + OpenFile>(
    file: &F,
    offset: u64,
    count: u32,
    room: &mut Vec<u8>,
) -> io::Result<()>
    ensures { OnOk result (length room.new.items ≤ count) }
{
    let wanted = wanted(file, offset, count, room.capacity())?;
    room.resize(wanted, 0)?;
    let count = fill(file, room.as_mut_slice(), offset)?;
    room.truncate(count);
    Ok(())
}

/// Opens the file at a path.
fn open_at<R: Files>(rt: &R, root: &Place, path: &[Units], writes: bool) -> io::Result<R::File> {
    let spot = spot_of(root, path)?;
    let seen = file_in(rt, &spot.folder, &spot.name)?;
    spot.folder.open(rt, &spot.name, &seen, writes)
}

/// A real folder of the system, and all that is below it. It tells nothing. Nothing outside of it is reached: the system gets one name at a time, in
/// a folder that is open, and no link is followed. Links, pipes, sockets and devices aren't there, nor is what the system has under names that aren't
/// UTF-8, or that are no names here. A file shows ARCHIVE, a folder no attributes; of what is marked the moments of access and write are set.
#[derive(Drop)]
pub struct StdFolder<'a, R: Files + AllocGlobal + Clone + Drop> {
    rt: &'a R,
    root: Place,
    listing: Option<Listing>,
    kept: KeptFiles<R::File>,
    faults: Faults,
}

impl<R: Files + AllocGlobal + Clone + Drop> StdFolder<'_, R>
where
    R::File: FileExt,
{
    /// Lets go of what was listed and of the files that are kept open: something else may come to stand there.
    fn let_go(&mut self)
        ensures { self.new.faults ≡ self.old.faults }
    {
        self.listing = None;
        self.kept.clear();
    }

    /// The system's reason for the last fault, if there was one.
    pub fn last_error(&self) -> Option<&Error> {
        self.faults.last()
    }

    fn next_listed(
        &mut self,
        path: &[Units],
        after: Option<&Units>,
        pattern: &Pattern,
    ) -> io::Result<Option<Listed>>
        ensures name { IfOk result (λ found. IfSome found (λ listed. is_name listed.name ≡ true)) }
        ensures bound { IfOk result (λ found. IfSome found (λ listed. listed.look.end < 2 ^ 63)) }
        ensures faults { self.new.faults ≡ self.old.faults }
    {
        let folder = reach(&self.root, path)?;
        let anew = match &self.listing {
            Some(listing) => after.is_none() || !listing.is_of(path),
            None => true,
        };
        if anew {
            self.listing = Some(Listing::of(self.rt, &folder, path)?);
        }
        match &self.listing {
            Some(listing) => listing.next(self.rt, &folder, after, pattern),
            None => Ok(None),
        }
    }

    /// Reads from the file that is kept open, or where there is none or it fails, from one that is opened now.
    fn read_at(
        &mut self,
        path: &[Units],
        offset: u64,
        count: u32,
        mut room: Vec<u8>,
    ) -> io::Result<Bytes>
        ensures bound { IfOk result (λ bytes. length bytes ≤ count) }
        ensures faults { self.new.faults ≡ self.old.faults }
    {
        if let Some(file) = self.kept.find(path, false) {
            if read_into(file, offset, count, &mut room).is_ok() {
                return Ok(Bytes::of(room));
            }
        }
        let file = open_at(self.rt, &self.root, path, false)?;
        read_into(&file, offset, count, &mut room)?;
        self.kept.keep(self.rt.alloc(), path, false, file);
        Ok(Bytes::of(room))
    }

    /// Writes into the file that is kept open, or where there is none or it fails, into one that is opened now.
    fn write_at(&mut self, path: &[Units], offset: u64, bytes: &[u8]) -> io::Result<()>
        ensures { self.new.faults ≡ self.old.faults }
    {
        if let Some(file) = self.kept.find(path, true) {
            if file.write_all_at(bytes, offset).is_ok() {
                return Ok(());
            }
        }
        let file = open_at(self.rt, &self.root, path, true)?;
        file.write_all_at(bytes, offset)?;
        self.kept.keep(self.rt.alloc(), path, true, file);
        Ok(())
    }

    /// Sets the end of the file that is kept open, or where there is none or it fails, of one that is opened now.
    fn set_end(&mut self, path: &[Units], end: u64) -> io::Result<()>
        ensures { self.new.faults ≡ self.old.faults }
    {
        if let Some(file) = self.kept.find(path, true) {
            if file.set_len(end).is_ok() {
                return Ok(());
            }
        }
        let file = open_at(self.rt, &self.root, path, true)?;
        file.set_len(end)?;
        self.kept.keep(self.rt.alloc(), path, true, file);
        Ok(())
    }

    fn make_at(&self, path: &[Units], folder: bool) -> io::Result<()> {
        let spot = spot_of(&self.root, path)?;
        let place = &spot.folder;
        if folder {
            place.make_folder(self.rt, &spot.name)
        } else {
            place.make_file(self.rt, &spot.name)
        }
    }

    fn mark_at(&self, path: &[Units], moments: Moments) -> io::Result<()> {
        if path.is_empty() {
            let root = self.root.open_self(self.rt)?;
            return root.set_times(times_of(moments));
        }
        let spot = spot_of(&self.root, path)?;
        let place = &spot.folder;
        let seen = known_in(self.rt, place, &spot.name)?;
        let node = place.open(self.rt, &spot.name, &seen, false)?;
        node.set_times(times_of(moments))
    }

    /// A file that stands at the other path goes; a folder there, and what isn't there for a drive, stays.
    fn move_to(&self, from: &[Units], to: &[Units]) -> io::Result<()> {
        let spot = spot_of(&self.root, from)?;
        let place = &spot.folder;
        let seen = known_in(self.rt, place, &spot.name)?;
        let target = spot_of(&self.root, to)?;
        let new_place = &target.folder;
        match new_place.look(self.rt, &target.name) {
            Ok(there) if !there.is_file() => Err(Error::from(ErrorKind::AlreadyExists)),
            Ok(_) if seen.is_file() => place.rename(self.rt, &spot.name, new_place, &target.name),
            Ok(_) => {
                new_place.remove_file(&target.name)?;
                place.rename(self.rt, &spot.name, new_place, &target.name)
            }
            Err(error) if error.kind() != ErrorKind::NotFound => Err(error),
            Err(_) if seen.is_file() => {
                place.move_file(self.rt, &spot.name, new_place, &target.name)
            }
            Err(_) => place.rename(self.rt, &spot.name, new_place, &target.name),
        }
    }

    fn remove_at(&self, path: &[Units]) -> io::Result<()> {
        let spot = spot_of(&self.root, path)?;
        let place = &spot.folder;
        let seen = known_in(self.rt, place, &spot.name)?;
        if seen.is_dir() {
            place.remove_folder(&spot.name)
        } else {
            place.remove_file(&spot.name)
        }
    }
}

impl<R: Files + AllocGlobal + Clone + Drop> Folder for StdFolder<'_, R>
where
    R::File: FileExt,
{
    ghost nodes = { λ _. None };

    ghost faults = { λ f. f.faults };

    fn look(&mut self, path: &[Units]) -> Result<Option<Look>, FolderNo> {
        match seen_at(self.rt, &self.root, path) {
            Ok(Some(seen)) => Ok(Some(look_of(&seen))),
            Ok(None) => Ok(None),
            Err(error) => Err(self.faults.refuse(error)),
        }
    }

    /// A folder is listed once, and again where a listing begins or this folder has changed something.
    fn next(
        &mut self,
        path: &[Units],
        after: Option<&Units>,
        pattern: &Pattern,
    ) -> Result<Option<Listed>, FolderNo> {
        match self.next_listed(path, after, pattern) {
            Ok(found) => Ok(found),
            Err(error) => Err(self.faults.refuse(error)),
        }
    }

    fn read(
        &mut self,
        path: &[Units],
        offset: u64,
        count: u32,
        room: Vec<u8>,
    ) -> Result<Bytes, FolderNo> {
        match self.read_at(path, offset, count, room) {
            Ok(bytes) => Ok(bytes),
            Err(error) => Err(self.faults.refuse(error)),
        }
    }

    fn make(
        &mut self,
        path: &[Units],
        folder: bool,
        _attributes: u32,
        _moment: u64,
    ) -> Result<(), FolderNo> {
        self.let_go();
        match self.make_at(path, folder) {
            Ok(()) => Ok(()),
            Err(error) => Err(self.faults.refuse(error)),
        }
    }

    fn replace(&mut self, path: &[Units], _attributes: u32, _moment: u64) -> Result<(), FolderNo> {
        self.kept.clear();
        match self.set_end(path, 0) {
            Ok(()) => Ok(()),
            Err(error) => Err(self.faults.refuse(error)),
        }
    }

    fn write(
        &mut self,
        path: &[Units],
        offset: u64,
        bytes: &[u8],
        _moment: u64,
    ) -> Result<(), FolderNo> {
        match self.write_at(path, offset, bytes) {
            Ok(()) => Ok(()),
            Err(error) => Err(self.faults.refuse(error)),
        }
    }

    fn resize(&mut self, path: &[Units], end: u64, _moment: u64) -> Result<(), FolderNo> {
        match self.set_end(path, end) {
            Ok(()) => Ok(()),
            Err(error) => Err(self.faults.refuse(error)),
        }
    }

    fn mark(&mut self, path: &[Units], _attributes: u32, moments: Moments) -> Result<(), FolderNo> {
        self.kept.clear();
        match self.mark_at(path, moments) {
            Ok(()) => Ok(()),
            Err(error) => Err(self.faults.refuse(error)),
        }
    }

    fn rename(&mut self, from: &[Units], to: &[Units], _moment: u64) -> Result<(), FolderNo> {
        self.let_go();
        match self.move_to(from, to) {
            Ok(()) => Ok(()),
            Err(error) => Err(self.faults.refuse(error)),
        }
    }

    fn remove(&mut self, path: &[Units]) -> Result<(), FolderNo> {
        self.let_go();
        match self.remove_at(path) {
            Ok(()) => Ok(()),
            Err(error) => Err(self.faults.refuse_freely(error)),
        }
    }
}

/// What opens real folders. It tells nothing.
#[derive(Drop)]
pub struct StdFolders<'a, R: Files + AllocGlobal + Clone + Drop> {
    rt: &'a R,
    failures: Faults,
    trouble: Faults,
}

impl<'a, R: Files + AllocGlobal + Clone + Drop + Sync> StdFolders<'a, R>
where
    R::File: FileExt + Send,
{
    pub fn new(rt: &'a R) -> Self
        ensures failures { ⟦<StdFolders<'a, R> as Folders>⟧.failures result ≡ 0 }
        ensures trouble { ⟦<StdFolders<'a, R> as Folders>⟧.trouble result ≡ 0 }
        ensures opened { ⟦<StdFolders<'a, R> as Folders>⟧.opened result ≡ None }
    {
        StdFolders {
            rt,
            failures: Faults::new(),
            trouble: Faults::new(),
        }
    }

    /// The system's reason for the last opening that failed, and where none did, for the last fault of closed folders, if they had one.
    pub fn last_error(&self) -> Option<&Error> {
        self.failures.last().or(self.trouble.last())
    }
}

impl<'a, R: Files + AllocGlobal + Clone + Drop + Sync> Folders for StdFolders<'a, R>
where
    R::File: FileExt + Send,
{
    type F = StdFolder<'a, R>;

    ghost opened = { λ _. None };

    ghost failures = { λ f. (f.failures).count };

    ghost trouble = { λ f. (f.trouble).count };

    /// The place is followed where it is a link itself: it is named by the user. It stays open until the folder is closed.
    fn open(&mut self, place: &str) -> Result<StdFolder<'a, R>, FolderNo> {
        match Place::named(self.rt.alloc(), place) {
            Ok(root) => Ok(StdFolder {
                rt: self.rt,
                root,
                listing: None,
                kept: KeptFiles::new(self.rt.alloc()),
                faults: Faults::new(),
            }),
            Err(error) => Err(self.failures.refuse_opening(error)),
        }
    }

    fn close(&mut self, folder: StdFolder<'a, R>) {
        self.trouble.add_all(&folder.faults);
    }
}
