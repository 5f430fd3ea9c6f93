//! The numbers of the information classes of files (MS-FSCC 2.4) and of volumes (2.5).

/// FileBasicInformation
pub const BASIC: u32 = 0x04;

/// FileStandardInformation
pub const STANDARD: u32 = 0x05;

/// FileRenameInformation
pub const RENAME: u32 = 0x0a;

/// FileDispositionInformation
pub const DISPOSITION: u32 = 0x0d;

/// FileAllocationInformation
pub const ALLOCATION: u32 = 0x13;

/// FileEndOfFileInformation
pub const END_OF_FILE: u32 = 0x14;

/// FileAttributeTagInformation
pub const ATTRIBUTE_TAG: u32 = 0x23;

/// FileFsVolumeInformation
pub const VOLUME: u32 = 1;

/// FileFsLabelInformation
pub const LABEL: u32 = 2;

/// FileFsSizeInformation
pub const SIZE: u32 = 3;

/// FileFsDeviceInformation
pub const DEVICE: u32 = 4;

/// FileFsAttributeInformation
pub const ATTRIBUTE: u32 = 5;

/// FileFsFullSizeInformation
pub const FULL_SIZE: u32 = 7;
