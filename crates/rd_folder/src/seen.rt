//! What is told of what the system saw.

ghost use Rattle.std.specs.Prelude.{◌<◌, ◌^◌};

use crate::look::Look;
use rd_base::Moments;
use std::fs::{FileTimes, Metadata};
use std::io;
use std::os::unix::fs::MetadataExt;
use std::time::{Duration, SystemTime};

/// How many times 100 ns there are in a second.
const PER_SECOND: u64 = 10_000_000;

/// How many nanoseconds there are in 100 ns.
const NANOS: u32 = 100;

/// The moment 1970-01-01 UTC, in 100 ns since 1601-01-01 UTC.
const UNIX_EPOCH: u64 = 116_444_736_000_000_000;

/// The most bytes of a file that are told.
pub const MOST_BYTES: u64 = (1 << 63) - 1;

/// ARCHIVE
const ARCHIVE: u32 = 0x20;

/// A moment by seconds and nanoseconds since 1970.
fn moment_since(seconds: u64, nanos: u32) -> u64 {
    seconds
        .saturating_mul(PER_SECOND)
        .saturating_add(u64::from(nanos / NANOS))
        .saturating_add(UNIX_EPOCH)
}

/// The moment of one of the system's times, if it can be told.
fn moment_of(time: io::Result<SystemTime>) -> Option<u64> {
    let time = time.ok()?;
    let since = time.duration_since(SystemTime::UNIX_EPOCH).ok()?;
    Some(moment_since(since.as_secs(), since.subsec_nanos()))
}

/// The time of a moment, if it isn't before 1970.
fn time_of(moment: u64) -> Option<SystemTime> {
    let since = moment.checked_sub(UNIX_EPOCH)?;
    let nanos = (since % PER_SECOND) as u32 * NANOS;
    SystemTime::UNIX_EPOCH.checked_add(Duration::new(since / PER_SECOND, nanos))
}

/// What is told of what the system saw.
pub fn look_of(seen: &Metadata) -> Look
    ensures { result.end < 2 ^ 63 }
{
    let folder = seen.is_dir();
    let write = moment_of(seen.modified()).unwrap_or(UNIX_EPOCH);
    let seconds = u64::try_from(seen.ctime()).unwrap_or(0);
    let nanos = u32::try_from(seen.ctime_nsec()).unwrap_or(0);
    Look {
        folder,
        end: if folder {
            0
        } else {
            seen.len().min(MOST_BYTES)
        },
        attributes: if folder { 0 } else { ARCHIVE },
        moments: Moments {
            creation: moment_of(seen.created()).unwrap_or(write),
            access: moment_of(seen.accessed()).unwrap_or(write),
            write,
            change: moment_since(seconds, nanos),
        },
    }
}

/// The times of access and of write that moments give a node.
pub fn times_of(moments: Moments) -> FileTimes {
    let mut times = FileTimes::new();
    if let Some(time) = time_of(moments.access) {
        times = times.set_accessed(time);
    }
    if let Some(time) = time_of(moments.write) {
        times = times.set_modified(time);
    }
    times
}
