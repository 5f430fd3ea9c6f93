//! Files that a real folder keeps open.

ghost use Rattle.std.specs.Prelude.{◌<◌, length, IfSome};

use crate::node::compare;
use crate::nodes::copy_of;
use rd_base::Units;
use std::alloc::Global;

/// How many files are kept open: few enough that 32 drives keep fewer than the 1,024 that a process mostly may have.
const PLACES: usize = 24;

/// A file that is kept open.
#[derive(Drop)]
struct Kept<F: Drop> {
    path: Vec<Units>,
    /// Whether it is open for writing, too.
    writes: bool,
    file: F,
}

/// The files that are kept open, by the paths at which they were opened. The one that was used last stands last, and the first goes where there are
/// too many.
#[derive(Drop)]
pub struct KeptFiles<F: Drop> {
    files: Vec<Kept<F>>,
}

impl<F: Drop> KeptFiles<F> {
    /// None. It takes no memory.
    pub fn new(alloc: Global) -> Self {
        KeptFiles {
            files: Vec::new(alloc),
        }
    }

    /// Where the file at a path stands.
    fn position(&self, path: &[Units]) -> Option<usize>
        ensures { IfSome result (λ at. at < length self.now.files.items) }
    {
        self.files
            .iter()
            .position(|kept| compare(kept.path.as_slice(), path).is_eq())
    }

    /// The file at a path, if it is kept, and is open for writing where it is to be written.
    pub fn find(&mut self, path: &[Units], writes: bool) -> Option<&F> {
        let at = self.position(path)?;
        self.files[at..].rotate_left(1);
        let kept = self.files.last()?;
        if writes && !kept.writes {
            return None;
        }
        Some(&kept.file)
    }

    /// Keeps a file, where there is memory for it.
    pub fn keep(&mut self, alloc: Global, path: &[Units], writes: bool, file: F) {
        if let Some(at) = self.position(path) {
            self.files.remove(at);
        }
        if self.files.len() >= PLACES {
            self.files.remove(0);
        }
        let Ok(path) = copy_of(alloc, path) else {
            return;
        };
        let _ = self.files.push(Kept { path, writes, file });
    }

    /// Lets go of all.
    pub fn clear(&mut self) {
        self.files.clear();
    }
}
