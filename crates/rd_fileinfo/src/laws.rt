//! Laws of the classes: the buffer of a class that a call knows is one value with one tail, or has one first fault, never
//! both; of another class it is neither. Each is a function that does nothing: its contract is the law.

ghost use Rattle.rd_base.specs.Classes.{IsOneOfClass};
ghost use Rattle.rd_base.specs.Reading.{IsOneOf};
ghost use Rattle.rd_fileinfo.specs.FileInfo.{file_classes};
ghost use Rattle.rd_fileinfo.specs.SetInfo.{set_classes};
ghost use Rattle.rd_fileinfo.specs.VolumeInfo.{volume_classes};
ghost use Rattle.rd_fileinfo.specs.Label.{FirstFaultOfLabel, SpellsLabel};

/// What a file tells of itself.
pub fn file_info_is_decided(class: u32, bytes: &[u8])
    ensures { IsOneOfClass file_classes class bytes.now }
{}

/// What is set of a file.
pub fn set_info_is_decided(class: u32, bytes: &[u8])
    ensures { IsOneOfClass set_classes class bytes.now }
{}

/// What a volume tells of itself.
pub fn volume_is_decided(class: u32, bytes: &[u8])
    ensures { IsOneOfClass volume_classes class bytes.now }
{}

/// The label of a volume.
pub fn label_is_decided(bytes: &[u8])
    ensures { IsOneOf SpellsLabel FirstFaultOfLabel bytes.now }
{}
