//! Listing a folder of the system.

ghost use Rattle.std.specs.Prelude.{◌≡◌, ◌<◌, ◌^◌, true, IfOk, IfSome};
ghost use Rattle.rd_dirinfo.specs.Paths.{is_name};

use crate::finding::seen_in;
use crate::look::Listed;
use crate::node::compare;
use crate::nodes::copy_of;
use crate::one_name::OneName;
use crate::place::Place;
use crate::seen::look_of;
use rd_base::Units;
use rd_dirinfo::{Naming, Path, PathNo, Pattern};
use std::alloc::{AllocError, Global};
use std::io::{Error, ErrorKind};
use std::rt::Files;
use std::{fs, io};

/// The most names of a folder that is listed.
const MOST_NAMES: usize = 65_536;

/// The names that the system had in a folder, in the order of their units. Names that aren't UTF-8 are left out.
#[derive(Drop)]
pub struct Listing {
    folder: Vec<Units>,
    names: Vec<Vec<u16>>,
}

/// The units of a text.
fn units_of(alloc: Global, text: &str) -> Result<Vec<u16>, AllocError> {
    let mut units = Vec::new(alloc);
    for unit in text.encode_utf16() {
        units.push(unit)?;
    }
    Ok(units)
}

/// The names in an open folder, as the system gives them.
fn names_in<R: Files + AllocGlobal + Clone + Drop>(
    rt: &R,
    place: &Place,
) -> io::Result<Vec<Vec<u16>>> {
    let alloc = rt.alloc();
    let path = place.own_path()?;
    let mut names = Vec::new(alloc);
    for entry in fs::read_dir(rt, path.as_str())? {
        match entry {
            Ok(entry) => names.push(units_of(alloc, entry.file_name())?)?,
            Err(error) if error.kind() == ErrorKind::InvalidFilename => {}
            Err(error) => return Err(error),
        }
        if names.len() > MOST_NAMES {
            return Err(Error::from(ErrorKind::InvalidData));
        }
    }
    Ok(names)
}

/// The name that units are, if they are one.
fn name_of(alloc: Global, units: &[u16]) -> Result<Option<Units>, AllocError>
    ensures { IfOk result (λ found. IfSome found (λ name. is_name name ≡ true)) }
{
    let path = match Path::split(alloc, units) {
        Ok(path) => path,
        Err(PathNo::Memory) => return Err(AllocError),
        Err(PathNo::Invalid { .. }) => return Ok(None),
    };
    match path.names() {
        [name] if name.as_slice() == units => Ok(Some(name.copy()?)),
        _ => Ok(None),
    }
}

/// What is told of a file or folder whose name these units are, where one stands there.
fn listed_at<R: Files + AllocGlobal>(
    rt: &R,
    place: &Place,
    units: &[u16],
) -> io::Result<Option<Listed>>
    ensures name { IfOk result (λ found. IfSome found (λ listed. is_name listed.name ≡ true)) }
    ensures bound { IfOk result (λ found. IfSome found (λ listed. listed.look.end < 2 ^ 63)) }
{
    let Some(name) = name_of(rt.alloc(), units)? else {
        return Ok(None);
    };
    let Ok(text) = OneName::of(units) else {
        return Ok(None);
    };
    match seen_in(rt, place, &text)? {
        Some(seen) => Ok(Some(Listed {
            name,
            look: look_of(&seen),
        })),
        None => Ok(None),
    }
}

impl Listing {
    /// Lists an open folder, which some names lead to.
    pub fn of<R: Files + AllocGlobal + Clone + Drop>(
        rt: &R,
        place: &Place,
        folder: &[Units],
    ) -> io::Result<Listing> {
        let folder = copy_of(rt.alloc(), folder)?;
        let mut names = names_in(rt, place)?;
        names.sort_unstable();
        Ok(Listing { folder, names })
    }

    /// Whether it is of the folder that these names lead to.
    pub fn is_of(&self, folder: &[Units]) -> bool {
        compare(self.folder.as_slice(), folder).is_eq()
    }

    /// The names that come after another one, if one is given.
    fn names_after(&self, after: Option<&Units>) -> &[Vec<u16>] {
        let names = self.names.as_slice();
        let Some(after) = after else {
            return names;
        };
        let start = names.partition_point(|name| !Naming::Exact.before(
            after.as_slice(),
            name.as_slice(),
        ));
        &names[start..]
    }

    /// The first file or folder that is there still, and whose name matches a pattern and comes after another one, if one is given.
    pub fn next<R: Files + AllocGlobal>(
        &self,
        rt: &R,
        place: &Place,
        after: Option<&Units>,
        pattern: &Pattern,
    ) -> io::Result<Option<Listed>>
        ensures name { IfOk result (λ found. IfSome found (λ listed. is_name listed.name ≡ true)) }
        ensures bound { IfOk result (λ found. IfSome found (λ listed. listed.look.end < 2 ^ 63)) }
    {
        for units in self.names_after(after) {
            if pattern.matches(Naming::Exact, units.as_slice()) {
                if let Some(listed) = listed_at(rt, place, units.as_slice())? {
                    return Ok(Some(listed));
                }
            }
        }
        Ok(None)
    }
}
