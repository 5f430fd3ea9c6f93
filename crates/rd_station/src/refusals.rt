//! Why a station refuses.

use rd_base::Key;
use rd_drive::Job;

/// Why a job doesn't come.
#[derive(Clone, Copy, Debug, PartialEq, Eq)]
pub enum PutWhy {
    /// No job may come: the device isn't announced, or is gone.
    Gone,
    /// The job of this key is held under the same completion id.
    Duplicate(Key),
    /// So many jobs are held that no other can be.
    Full { held: u32 },
    /// The journal has so many entries, with the places that are spoken for, that the job's may not fit.
    Worn { count: u32 },
    Memory,
}

/// A job that doesn't come, and why.
#[derive(Debug, Drop)]
pub struct PutNo {
    pub why: PutWhy,
    /// The job as it was.
    pub job: Job,
}

/// No memory was found for a station.
#[derive(Debug, Drop)]
pub struct StationNo<D> {
    /// The device as it was.
    pub device: D,
}

/// Why no job may come to a device that is announced.
#[derive(Clone, Copy, Debug, PartialEq, Eq)]
pub enum AnnounceNo {
    /// Jobs may come already.
    Live,
    /// The journal has so many entries, with the places that are spoken for, that the next cut may not fit.
    Worn { count: u32 },
    Memory,
}
