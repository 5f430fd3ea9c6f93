//! What a file and a volume tell of themselves and what is set of them: information classes as values and as bytes
//! (MS-FSCC 2.4 and 2.5, as MS-RDPEFS 2.2.3.3 and 2.2.3.4 send them).
//!
//! It stands on `rd_base`. The layers above use one contract of it for each call: the buffer of a class is a value,
//! with ignored bytes after it, or has a first fault, or the call doesn't know the class.
//!
//! Cost: a value is appended to a buffer that the caller lends, in one reservation of its exact size. Reading copies a
//! path, a label or a name once, and nothing else.
#![tactic(auto)]

pub mod classes;
mod file_info;
mod label;
mod laws;
mod set_info;
mod volume_info;

pub use file_info::{FileInfo, put_file_info, read_file_info, write_file_info};
pub use label::{MAX_LABEL_UNITS, label_fits, put_label, read_label, write_label};
pub use laws::{file_info_is_decided, label_is_decided, set_info_is_decided, volume_is_decided};
pub use set_info::{SetInfo, put_set_info, read_set_info, set_info_fits, write_set_info};
pub use volume_info::{VolumeInfo, put_volume, read_volume, volume_fits, write_volume};
