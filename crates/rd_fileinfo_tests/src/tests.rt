//! Buffers that worked examples and the layouts of the public standard give (MS-FSCC 2.4 and 2.5).
use rd_base::{Bad, InfoNo, Moments, ReadNo, Why};
use rd_fileinfo::{
    FileInfo, SetInfo, VolumeInfo, label_fits, read_file_info, read_label, read_set_info,
    read_volume, set_info_fits, volume_fits, write_file_info, write_label, write_set_info,
    write_volume,
};
use std::process::Abort;

/// The units of `AB`.
const AB: &[u16] = &[0x41, 0x42];

/// Four moments and the attributes ARCHIVE.
const BASIC: &[u8] = b"\x01\0\0\0\0\0\0\0\x02\0\0\0\0\0\0\0\
\x03\0\0\0\0\0\0\0\x04\0\0\0\0\0\0\x80\x20\0\0\0";

/// A file of 12 bytes.
const STANDARD: &[u8] = b"\0\x10\0\0\0\0\0\0\x0c\0\0\0\0\0\0\0\x01\0\0\0\0\0";

/// A read-only file without a reparse tag.
const TAG: &[u8] = b"\x01\0\0\0\0\0\0\0";

/// Renaming to `\AB`, over what is there.
const RENAME: &[u8] = b"\x01\0\x08\0\0\0\\\0A\0B\0\0\0";

/// A volume with the label `AB`.
const VOLUME: &[u8] = b"\0\0\0\0\0\0\0\0\x31RDR\x04\0\0\0\0A\0B\0";

/// 2^28 units, all free, of 8 sectors of 512 bytes.
const SIZE: &[u8] = b"\0\0\0\x10\0\0\0\0\0\0\0\x10\0\0\0\0\x08\0\0\0\0\x02\0\0";

/// A disk.
const DEVICE: &[u8] = b"\x07\0\0\0\0\0\0\0";

/// A file system with the name `AB`, whose names have at most 255 units.
const ATTRIBUTE: &[u8] = b"\x07\0\0\0\xff\0\0\0\x04\0\0\0A\0B\0";

/// As `SIZE`, of which the caller may take 1 unit.
const FULL_SIZE: &[u8] =
    b"\0\0\0\x10\0\0\0\0\x01\0\0\0\0\0\0\0\0\0\0\x10\0\0\0\0\x08\0\0\0\0\x02\0\0";

/// The label `AB`.
const LABEL: &[u8] = b"\x06\0\0\0A\0B\0\0\0";

/// The units of `\AB`.
const PATH: &[u16] = &[0x5c, 0x41, 0x42];

const MOMENTS: Moments = Moments {
    creation: 1,
    access: 2,
    write: 3,
    change: 0x8000_0000_0000_0004,
};

/// Reads the value of a class, which has to be spelled, and writes it again.
fn sets_again(rt: &(impl Abort + AllocGlobal), class: u32, bytes: &[u8]) -> SetInfo {
    let info = read_set_info(rt.alloc(), class, bytes).expect(rt, "a value");
    assert!(rt; set_info_fits(&info));
    let written = write_set_info(rt.alloc(), &info).expect(rt, "memory for a buffer");
    assert_eq!(rt; written.as_slice(), bytes, "class {class}");
    info
}

#[test]
fn tells_of_files(rt: HostRuntime) {
    let basic = FileInfo::Basic {
        moments: MOMENTS,
        attributes: 0x20,
    };
    let standard = FileInfo::Standard {
        allocation: 4096,
        end: 12,
        links: 1,
        pending: 0,
        folder: 0,
    };
    let tag = FileInfo::Tag {
        attributes: 1,
        tag: 0,
    };
    for (class, info, bytes) in [(4, basic, BASIC), (5, standard, STANDARD), (0x23, tag, TAG)] {
        assert_eq!(rt;
            read_file_info(class, bytes).ok(),
            Some(info),
            "class {class}"
        );
        let written = write_file_info(rt.alloc(), &info).expect(&rt, "memory for a buffer");
        assert_eq!(rt; written.as_slice(), bytes, "class {class}");
    }
}

#[test]
fn sets_files(rt: HostRuntime) {
    assert!(rt;
        matches!(
            sets_again(&rt, 4, BASIC),
            SetInfo::Basic {
                moments: MOMENTS,
                attributes: 0x20
            }
        )
    );
    assert!(rt;
        matches!(
            sets_again(&rt, 10, RENAME),
            SetInfo::Rename { replace: true, path } if path.as_slice() == PATH
        )
    );
    assert!(rt; matches!(sets_again(&rt, 13, b"\x01"), SetInfo::Disposition(true)));
    assert!(rt; matches!(sets_again(&rt, 13, b"\0"), SetInfo::Disposition(false)));
    let three = b"\x03\0\0\0\0\0\0\0";
    assert!(rt; matches!(sets_again(&rt, 19, three), SetInfo::Allocation(3)));
    assert!(rt; matches!(sets_again(&rt, 20, three), SetInfo::EndOfFile(3)));
}

/// The value is the one that the buffer of its class above spells.
fn is_told(info: &VolumeInfo) -> bool {
    match info {
        VolumeInfo::Volume {
            creation,
            serial,
            objects,
            label,
        } => (*creation, *serial, *objects) == (0, 0x5244_5231, 0) && label.as_slice() == AB,
        VolumeInfo::Size {
            total,
            free,
            sectors,
            bytes,
        } => (*total, *free, *sectors, *bytes) == (0x1000_0000, 0x1000_0000, 8, 512),
        VolumeInfo::Device { kind, traits } => (*kind, *traits) == (7, 0),
        VolumeInfo::Attribute {
            flags,
            longest,
            name,
        } => (*flags, *longest) == (7, 255) && name.as_slice() == AB,
        VolumeInfo::FullSize {
            total,
            caller,
            free,
            sectors,
            bytes,
        } => { (*total, *caller, *free, *sectors, *bytes) == (0x1000_0000, 1, 0x1000_0000, 8, 512) }
    }
}

#[test]
fn tells_of_volumes(rt: HostRuntime) {
    for (class, bytes) in [
        (1, VOLUME),
        (3, SIZE),
        (4, DEVICE),
        (5, ATTRIBUTE),
        (7, FULL_SIZE),
    ] {
        let info = read_volume(rt.alloc(), class, bytes).expect(&rt, "a value");
        assert!(rt; is_told(&info) && volume_fits(&info), "class {class}");
        let written = write_volume(rt.alloc(), &info).expect(&rt, "memory for a buffer");
        assert_eq!(rt; written.as_slice(), bytes, "class {class}");
    }
}

#[test]
fn labels_a_volume(rt: HostRuntime) {
    let label = read_label(rt.alloc(), LABEL).expect(&rt, "a label");
    assert!(rt; label.as_slice() == AB && label_fits(&label));
    let written = write_label(rt.alloc(), &label).expect(&rt, "memory for a buffer");
    assert_eq!(rt; written.as_slice(), LABEL);
    let long = read_label(rt.alloc(), b"\x42\0\0\0");
    assert!(rt;
        matches!(
            long,
            Err(ReadNo::Bad(Bad {
                at: 0,
                why: Why::Count
            }))
        )
    );
}

#[test]
fn refuses_buffers(rt: HostRuntime) {
    assert!(rt;
        matches!(
            read_set_info(rt.alloc(), 4, &[0; 35]),
            Err(InfoNo::Bad(Bad {
                at: 32,
                why: Why::Short
            }))
        )
    );
    assert!(rt; matches!(read_volume(rt.alloc(), 9, b""), Err(InfoNo::Class(9))));
    assert!(rt; matches!(read_file_info(10, RENAME), Err(InfoNo::Class(10))));
}
