//! From paths to what stands there, one name at a time.

use crate::one_name::OneName;
use crate::place::Place;
use rd_base::Units;
use std::fs::Metadata;
use std::io;
use std::io::{Error, ErrorKind};
use std::rt::Files;

/// What a path leads to: a folder, and a name in it.
#[derive(Drop)]
pub struct Spot {
    pub folder: Place,
    pub name: OneName,
}

/// The folder that names lead to from the root on, through no link.
pub fn reach(root: &Place, names: &[Units]) -> io::Result<Place> {
    let mut place = root.again()?;
    for name in names {
        let name = OneName::of(name.as_slice())?;
        place = place.below(&name)?;
    }
    Ok(place)
}

/// The spot of a path that isn't the root's.
pub fn spot_of(root: &Place, path: &[Units]) -> io::Result<Spot> {
    let Some((name, folders)) = path.split_last() else {
        return Err(Error::from(ErrorKind::InvalidInput));
    };
    let folder = reach(root, folders)?;
    let name = OneName::of(name.as_slice())?;
    Ok(Spot { folder, name })
}

/// Whether an error says that nothing is there.
fn is_absence(error: &Error) -> bool {
    matches!(
        error.kind(),
        ErrorKind::NotFound
            | ErrorKind::NotADirectory
            | ErrorKind::FilesystemLoop
            | ErrorKind::InvalidFilename
    )
}

/// A file or folder that stands under a name, if one does. Links, pipes, sockets and devices aren't there.
pub fn seen_in<R: Files>(rt: &R, place: &Place, name: &OneName) -> io::Result<Option<Metadata>> {
    match place.look(rt, name) {
        Ok(seen) if seen.is_file() || seen.is_dir() => Ok(Some(seen)),
        Ok(_) => Ok(None),
        Err(error) if is_absence(&error) => Ok(None),
        Err(error) => Err(error),
    }
}

/// The same of one that is to be there.
pub fn known_in<R: Files>(rt: &R, place: &Place, name: &OneName) -> io::Result<Metadata> {
    match seen_in(rt, place, name)? {
        Some(seen) => Ok(seen),
        None => Err(Error::from(ErrorKind::NotFound)),
    }
}

/// The same of a file.
pub fn file_in<R: Files>(rt: &R, place: &Place, name: &OneName) -> io::Result<Metadata> {
    let seen = known_in(rt, place, name)?;
    if !seen.is_file() {
        return Err(Error::from(ErrorKind::IsADirectory));
    }
    Ok(seen)
}

/// The file or folder at a path, if one is there.
pub fn seen_at<R: Files>(rt: &R, root: &Place, path: &[Units]) -> io::Result<Option<Metadata>> {
    if path.is_empty() {
        return Ok(Some(root.look_at_self(rt)?));
    }
    match spot_of(root, path) {
        Ok(spot) => seen_in(rt, &spot.folder, &spot.name),
        Err(error) if is_absence(&error) => Ok(None),
        Err(error) => Err(error),
    }
}
