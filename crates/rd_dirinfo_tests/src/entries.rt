//! Buffers that worked examples and the layouts of the public standard give (MS-FSCC 2.4).
use rd_base::{InfoNo, Moments, Units};
use rd_dirinfo::{Entry, entry_fits, read_entry, write_entry};
use std::process::Abort;

/// What every class but FileNamesInformation begins with, for an entry whose name has one unit.
const HEAD: &[u8] = b"\0\0\0\0\0\0\0\0\
\x01\0\0\0\0\0\0\0\x02\0\0\0\0\0\0\0\x03\0\0\0\0\0\0\0\x04\0\0\0\0\0\0\x80\
\x01\0\0\0\0\0\0\0\0\x10\0\0\0\0\0\0\x20\0\0\0\x02\0\0\0";

/// The name `a` in FileNamesInformation.
const NAMES: &[u8] = b"\0\0\0\0\0\0\0\0\x02\0\0\0a\0";

fn entry(rt: &(impl Abort + AllocGlobal)) -> Entry {
    let name = [0x61].to_vec(rt.alloc()).expect(rt, "memory for a name");
    Entry {
        moments: Moments {
            creation: 1,
            access: 2,
            write: 3,
            change: 0x8000_0000_0000_0004,
        },
        end: 1,
        allocation: 4096,
        attributes: 0x20,
        name: Units::of(name),
    }
}

/// The entry is that of `entry`.
fn is_whole(read: &Entry) -> bool {
    let Entry {
        moments,
        end,
        allocation,
        attributes,
        name,
    } = read;
    let moments = (
        moments.creation,
        moments.access,
        moments.write,
        moments.change,
    );
    moments == (1, 2, 3, 0x8000_0000_0000_0004)
        && (*end, *allocation, *attributes) == (1, 4096, 0x20)
        && name.as_slice() == [0x61].as_slice()
}

#[test]
fn lists_an_entry(rt: HostRuntime) {
    // How many zero bytes stand between the head and the name.
    for (class, zeros) in [(1, 0), (2, 4), (3, 29)] {
        let mut wanted = HEAD.to_vec(rt.alloc()).expect(&rt, "memory for a row");
        wanted
            .extend_from_slice(&[0; 29][..zeros])
            .expect(&rt, "memory for a row");
        wanted
            .extend_from_slice(b"a\0")
            .expect(&rt, "memory for a row");
        let entry = entry(&rt);
        assert!(rt; entry_fits(&entry));
        let written = write_entry(rt.alloc(), class, &entry).expect(&rt, "a buffer");
        assert_eq!(rt; written.as_slice(), wanted.as_slice(), "class {class}");
        let read = read_entry(rt.alloc(), class, wanted.as_slice()).expect(&rt, "an entry");
        assert!(rt; is_whole(&read), "class {class}");
    }
}

#[test]
fn lists_a_name(rt: HostRuntime) {
    let entry = entry(&rt);
    assert!(rt; entry_fits(&entry));
    let written = write_entry(rt.alloc(), 12, &entry).expect(&rt, "a buffer");
    assert_eq!(rt; written.as_slice(), NAMES);
    let read = read_entry(rt.alloc(), 12, NAMES).expect(&rt, "an entry");
    assert!(rt; (read.moments.write, read.end, read.attributes) == (0, 0, 0));
    assert!(rt; read.name.as_slice() == [0x61].as_slice());
}

#[test]
fn has_no_class_7(rt: HostRuntime) {
    let entry = entry(&rt);
    assert!(rt; entry_fits(&entry));
    assert!(rt; matches!(write_entry(rt.alloc(), 7, &entry), Err(InfoNo::Class(7))));
    assert!(rt; matches!(read_entry(rt.alloc(), 7, NAMES), Err(InfoNo::Class(7))));
}
