//! The numbers of the information classes of a folder's entries (MS-FSCC 2.4).

/// FileDirectoryInformation
pub const DIRECTORY: u32 = 1;

/// FileFullDirectoryInformation
pub const FULL_DIRECTORY: u32 = 2;

/// FileBothDirectoryInformation
pub const BOTH_DIRECTORY: u32 = 3;

/// FileNamesInformation
pub const NAMES: u32 = 12;
