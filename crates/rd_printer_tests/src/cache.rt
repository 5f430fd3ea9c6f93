//! What a client keeps for printers, notice by notice.
use crate::notices::bytes;
use rd_printer::{Cache, Notice};
use std::process::Abort;

/// What the host tells of names and configurations.
#[derive(Clone, Copy)]
enum Tell {
    Add(&'static [u8], &'static [u8]),
    Update(&'static [u8], &'static [u8]),
    Delete(&'static [u8]),
    /// The old name, the new one.
    Rename(&'static [u8], &'static [u8]),
    Xps,
}

/// A notice, and what is kept of both names after it.
type Row = (Tell, Option<&'static [u8]>, Option<&'static [u8]>);

const ROWS: &[Row] = &[
    (Tell::Update(b"Office", b"\x01"), None, None),
    (Tell::Rename(b"Office", b"Desk"), None, None),
    (Tell::Add(b"Office", b"\x01\x02"), Some(b"\x01\x02"), None),
    (Tell::Update(b"Office", b"\x03"), Some(b"\x03"), None),
    (Tell::Rename(b"Office", b"Office"), Some(b"\x03"), None),
    (Tell::Rename(b"Office", b"Desk"), None, Some(b"\x03")),
    (Tell::Add(b"Office", b""), Some(b""), Some(b"\x03")),
    (Tell::Xps, Some(b""), Some(b"\x03")),
    (Tell::Rename(b"Office", b"Desk"), None, Some(b"")),
    (Tell::Add(b"Desk", b"\x04"), None, Some(b"\x04")),
    (Tell::Delete(b"Office"), None, Some(b"\x04")),
    (Tell::Delete(b"Desk"), None, None),
];

fn notice(rt: &(impl Abort + AllocGlobal), tell: Tell) -> Notice {
    match tell {
        Tell::Add(name, config) => Notice::Add {
            port: *b"PRN1\0\0\0\0",
            pnp: bytes(rt, b""),
            driver: bytes(rt, b"Driver"),
            name: bytes(rt, name),
            config: bytes(rt, config),
        },
        Tell::Update(name, config) => Notice::Update {
            name: bytes(rt, name),
            config: bytes(rt, config),
        },
        Tell::Delete(name) => Notice::Delete {
            name: bytes(rt, name),
        },
        Tell::Rename(old, new) => Notice::Rename {
            old: bytes(rt, old),
            new: bytes(rt, new),
        },
        Tell::Xps => Notice::UsingXps {
            printer: 2,
            flags: 0,
        },
    }
}

/// Whether this is kept of a name.
fn keeps(
    rt: &(impl Abort + AllocGlobal),
    cache: &Cache,
    name: &[u8],
    wanted: Option<&[u8]>,
) -> bool {
    let name = bytes(rt, name);
    match (cache.get(&name), wanted) {
        (Some(config), Some(wanted)) => config.as_slice() == wanted,
        (None, None) => true,
        _ => false,
    }
}

/// Whether this is kept of both names after a notice.
fn hears(rt: &(impl Abort + AllocGlobal), cache: &mut Cache, row: &Row) -> bool {
    let (tell, office, desk) = *row;
    let heard = cache.hear(&notice(rt, tell));
    heard.is_ok() && keeps(rt, cache, b"Office", office) && keeps(rt, cache, b"Desk", desk)
}

#[test]
fn keeps_what_notices_tell(rt: HostRuntime) {
    let mut cache = Cache::new(rt.alloc());
    for row in ROWS {
        assert!(rt; hears(&rt, &mut cache, row));
    }
}
