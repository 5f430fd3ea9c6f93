//! Capability sets (MS-RDPEFS 2.2.1.2), which say what a side can do.

ghost use Rattle.std.specs.Prelude.{◌≡◌, ◌+◌, ◌-◌, ◌<◌, ◌≤◌, ◌^◌, ◌↔◌, ◌++◌, [], ◌∷◌, IsTrue, IfSome, length, vec_capacity, vec_len};
ghost use Rattle.std.specs.List.{flat_map};
ghost use Rattle.rd_base.specs.Layout.{within};
ghost use Rattle.rd_base.specs.Reading.{Reads, ReadsInto};
ghost use Rattle.rd_base.specs.Spelling.{IsSpelling};
ghost use Rattle.rd_hello.specs.Capability.{least_length, least_of_version, special, general, body_of, capability, sets, capability_head_bytes, special_bytes, general_head, system_bytes, codes_bytes, general_bytes, capability_bytes, sets_bytes, is_kept, IsWritableSet, AreWritableSets};
ghost use Rattle.rd_hello.specs.declared.capability.Cap.TheVariants as cap;

use rd_base::{
    Bad, Bytes, Cursor, Format, Items, ReadNo, Why, put_all, put_bytes, put_u16, put_u32,
    read_bytes, read_count16, read_times, size_of_all,
};
use std::alloc::Global;

/// The most sets of a message.
pub const MAX_SETS: u16 = 64;

/// CAP_GENERAL_TYPE.
const GENERAL: u16 = 1;

/// CAP_PRINTER_TYPE.
const PRINTER: u16 = 2;

/// CAP_DRIVE_TYPE.
const DRIVE: u16 = 4;

/// The bytes of a set's head: its type, its length and its version.
const HEAD_LEN: u16 = 8;

/// The bytes of GENERAL in version 1.
const GENERAL_LEN: u16 = 40;

/// The bytes of GENERAL from version 2 on.
const GENERAL2_LEN: u16 = 44;

/// What a side can do in general (MS-RDPEFS 2.2.2.7.1). Its protocolMajor is always 1.
#[derive(Clone, Copy, Debug, PartialEq, Eq)]
pub struct General {
    /// osType, which says nothing.
    pub os: u32,
    /// osVersion, which says nothing.
    pub os_version: u32,
    /// protocolMinor.
    pub minor: u16,
    /// ioCode1: the functions of requests that are known.
    pub codes: u32,
    /// ioCode2.
    pub codes2: u32,
    /// extendedPDU: 1 removals of devices, 2 display names, 4 the packet of a log-on.
    pub extended: u32,
    /// extraFlags1: 1 requests need not be completed in order.
    pub extra: u32,
    /// extraFlags2.
    pub extra2: u32,
    /// SpecialTypeDeviceCap, from version 2 on; version 1 has none.
    pub special: Option<u32>,
}

/// One capability set (MS-RDPEFS 2.2.1.2).
#[derive(Debug, Drop)]
pub enum Cap {
    General(General),
    /// The version of printing (2.2.2.7.2).
    Printer(u32),
    /// The version of drives (2.2.2.7.4).
    Drive(u32),
    /// A set of any other type, kept unread.
    Other {
        kind: u16,
        version: u32,
        body: Bytes,
    },
}

/// The capability sets of a message, in order.
pub type Caps = Items<Cap>;

impl Format for Cap {
    ghost use Rattle.rd_hello.specs.Capability.{capability, capability_bytes, IsWritableSet};

    ghost layout = { capability };

    ghost bytes = { capability_bytes };

    ghost fits = { IsWritableSet };

    #[tactic(auto, unfolding(crate::specs::Capability::capability))]
    fn read(alloc: Global, cursor: &mut Cursor<'_>) -> Result<Cap, ReadNo> {
        let kind = cursor.u16()?;
        let at = cursor.place();
        let length = cursor.u16()?;
        let too_short = Bad {
            at,
            why: Why::Length,
        };
        if length < least_length(kind) {
            return Err(ReadNo::Bad(too_short));
        }
        let version = cursor.u32()?;
        if length < least_of_version(kind, version) {
            return Err(ReadNo::Bad(too_short));
        }
        read_within(alloc, cursor, kind, version, length - HEAD_LEN)
    }

    #[tactic(auto, using(crate::proofs::CapabilityLemmas::printer_spelled, crate::proofs::CapabilityLemmas::drive_spelled, crate::proofs::CapabilityLemmas::other_spelled, std::proofs::Common::append_assoc))]
    fn put(&self, out: &mut Vec<u8>) {
        match self {
            Cap::General(general) => put_general(out, general),
            Cap::Printer(version) => put_head(out, PRINTER, HEAD_LEN, *version),
            Cap::Drive(version) => put_head(out, DRIVE, HEAD_LEN, *version),
            Cap::Other {
                kind,
                version,
                body,
            } => {
                put_head(
                    out,
                    *kind,
                    HEAD_LEN + body.as_slice().len() as u16,
                    *version,
                );
                put_bytes(out, body.as_slice());
            }
        }
    }

    fn size(&self) -> usize {
        match self {
            Cap::General(general) => match general.special {
                Some(_) => 44,
                None => 40,
            },
            Cap::Printer(_) | Cap::Drive(_) => 8,
            Cap::Other { body, .. } => 8 + body.as_slice().len(),
        }
    }
}

/// The least length of a set of this type.
fn least_length(kind: u16) -> u16
    ensures { result ≡ least_length kind }
{
    if kind == GENERAL {
        GENERAL_LEN
    } else {
        HEAD_LEN
    }
}

/// The least length of a set of this type and version.
fn least_of_version(kind: u16, version: u32) -> u16
    ensures { result ≡ least_of_version kind version }
{
    if kind == GENERAL && version >= 2 {
        GENERAL2_LEN
    } else {
        HEAD_LEN
    }
}

/// Reads what stands after the version of a set, in so many bytes.
fn read_within(
    alloc: Global,
    cursor: &mut Cursor<'_>,
    kind: u16,
    version: u32,
    count: u16,
) -> Result<Cap, ReadNo>
    ensures { ReadsInto (λ cap. cap) (within count (body_of kind version count)) cursor.old cursor.new result }
{
    let mut part = cursor.part(count as u32)?;
    read_body(alloc, &mut part, kind, version, count)
}

#[tactic(auto, unfolding(crate::specs::Capability::body_of, crate::specs::Capability::other))]
fn read_body(
    alloc: Global,
    part: &mut Cursor<'_>,
    kind: u16,
    version: u32,
    count: u16,
) -> Result<Cap, ReadNo>
    ensures { ReadsInto (λ cap. cap) (body_of kind version count) part.old part.new result }
{
    match kind {
        GENERAL => Ok(read_general(part, version)?),
        PRINTER => Ok(Cap::Printer(version)),
        DRIVE => Ok(Cap::Drive(version)),
        _ => {
            let body = read_bytes(alloc, part, count as u32)?;
            Ok(Cap::Other {
                kind,
                version,
                body,
            })
        }
    }
}

/// Reads GENERAL after its version.
#[tactic(auto, unfolding(crate::specs::Capability::general))]
fn read_general(part: &mut Cursor<'_>, version: u32) -> Result<Cap, Bad>
    ensures { Reads (λ cap. cap) (general version) part.old part.new result }
{
    let os = part.u32()?;
    let os_version = part.u32()?;
    let at = part.place();
    let major = part.u16()?;
    if major != 1 {
        return Err(Bad {
            at,
            why: Why::Value,
        });
    }
    let minor = part.u16()?;
    let codes = part.u32()?;
    let codes2 = part.u32()?;
    let extended = part.u32()?;
    let extra = part.u32()?;
    let extra2 = part.u32()?;
    let special = read_special(part, version)?;
    Ok(Cap::General(General {
        os,
        os_version,
        minor,
        codes,
        codes2,
        extended,
        extra,
        extra2,
        special,
    }))
}

/// Reads SpecialTypeDeviceCap where this version of GENERAL has it.
#[tactic(auto, unfolding(crate::specs::Capability::special))]
fn read_special(part: &mut Cursor<'_>, version: u32) -> Result<Option<u32>, Bad>
    ensures { Reads (λ n. n) (special version) part.old part.new result }
{
    if version < 2 {
        return Ok(None);
    }
    let special = part.u32()?;
    Ok(Some(special))
}

/// Appends the head of a set.
#[tactic(auto, unfolding(rd_base::specs::Fields::bytes16, rd_base::specs::Fields::bytes32), using(std::proofs::Common::append_assoc))]
fn put_head(out: &mut Vec<u8>, kind: u16, length: u16, version: u32)
    requires { vec_len out.old + 8 ≤ vec_capacity out.old }
    ensures bytes { out.new.items ≡ out.old.items ++ capability_head_bytes kind length version }
    ensures len { vec_len out.new ≡ vec_len out.old + 8 }
    ensures room { vec_capacity out.old ≤ vec_capacity out.new }
{
    put_u16(out, kind);
    put_u16(out, length);
    put_u32(out, version);
}

/// Appends GENERAL, with version 2 where it has the field of version 2.
#[tactic(auto, using(std::proofs::Common::append_assoc))]
fn put_general(out: &mut Vec<u8>, general: &General)
    requires { vec_len out.old + length (capability_bytes (cap.General general.now)) ≤ vec_capacity out.old }
    ensures bytes { out.new.items ≡ out.old.items ++ capability_bytes (cap.General general.now) }
    ensures spelled { IsSpelling capability (cap.General general.now)
        (capability_bytes (cap.General general.now)) }
    ensures room { vec_capacity out.old ≤ vec_capacity out.new }
{
    put_general_head(out, general.special);
    put_system(out, general.os, general.os_version, general.minor);
    put_codes(
        out,
        general.codes,
        general.codes2,
        general.extended,
        general.extra,
        general.extra2,
    );
    put_special(out, general.special);
}

fn put_general_head(out: &mut Vec<u8>, special: Option<u32>)
    requires { vec_len out.old + 8 ≤ vec_capacity out.old }
    ensures bytes { out.new.items ≡ out.old.items ++ general_head special }
    ensures len { vec_len out.new ≡ vec_len out.old + 8 }
    ensures room { vec_capacity out.old ≤ vec_capacity out.new }
{
    match special {
        Some(_) => put_head(out, GENERAL, GENERAL2_LEN, 2),
        None => put_head(out, GENERAL, GENERAL_LEN, 1),
    }
}

/// Appends what GENERAL says of the operating system, and the version of the protocol.
#[tactic(auto, unfolding(rd_base::specs::Fields::bytes16, rd_base::specs::Fields::bytes32), using(std::proofs::Common::append_assoc))]
fn put_system(out: &mut Vec<u8>, os: u32, os_version: u32, minor: u16)
    requires { vec_len out.old + 12 ≤ vec_capacity out.old }
    ensures bytes { out.new.items ≡ out.old.items ++ system_bytes os os_version minor }
    ensures fits { (os < 2 ^ 32) × (os_version < 2 ^ 32) × (minor < 2 ^ 16) }
    ensures len { vec_len out.new ≡ vec_len out.old + 12 }
    ensures room { vec_capacity out.old ≤ vec_capacity out.new }
{
    put_u32(out, os);
    put_u32(out, os_version);
    put_u16(out, 1);
    put_u16(out, minor);
}

/// Appends what GENERAL says of messages.
#[tactic(auto, unfolding(rd_base::specs::Fields::bytes32), using(std::proofs::Common::append_assoc))]
fn put_codes(out: &mut Vec<u8>, codes: u32, codes2: u32, extended: u32, extra: u32, extra2: u32)
    requires { vec_len out.old + 20 ≤ vec_capacity out.old }
    ensures bytes { out.new.items ≡ out.old.items ++ codes_bytes codes codes2 extended extra extra2 }
    ensures fits { (codes < 2 ^ 32) × (codes2 < 2 ^ 32) × (extended < 2 ^ 32) × (extra < 2 ^ 32) × (extra2 < 2 ^ 32) }
    ensures len { vec_len out.new ≡ vec_len out.old + 20 }
    ensures room { vec_capacity out.old ≤ vec_capacity out.new }
{
    put_u32(out, codes);
    put_u32(out, codes2);
    put_u32(out, extended);
    put_u32(out, extra);
    put_u32(out, extra2);
}

#[tactic(auto, unfolding(rd_base::specs::Fields::bytes32))]
fn put_special(out: &mut Vec<u8>, special: Option<u32>)
    requires { vec_len out.old + length (special_bytes special) ≤ vec_capacity out.old }
    ensures bytes { out.new.items ≡ out.old.items ++ special_bytes special }
    ensures fits { IfSome special (λ n. n < 2 ^ 32) }
    ensures room { vec_capacity out.old ≤ vec_capacity out.new }
{
    match special {
        Some(n) => put_u32(out, n),
        None => {}
    }
}

/// Reads the sets of a message after its header.
#[tactic(auto, unfolding(crate::specs::Capability::sets))]
pub fn read_sets(alloc: Global, cursor: &mut Cursor<'_>) -> Result<Caps, ReadNo>
    ensures { ReadsInto (λ caps. caps) sets cursor.old cursor.new result }
{
    let count = read_count16(cursor, MAX_SETS)?;
    cursor.take(2)?;
    read_times(alloc, cursor, count as u32)
}

/// Appends the sets of a message after its header.
#[tactic(auto, using(crate::proofs::CapabilityLemmas::sets_spelled, std::proofs::Common::append_assoc), unfolding(rd_base::specs::Fields::bytes16))]
pub fn put_sets(out: &mut Vec<u8>, caps: &Caps)
    requires writable { AreWritableSets caps.now }
    requires room { vec_len out.old + length (sets_bytes caps.now) ≤ vec_capacity out.old }
    ensures bytes { out.new.items ≡ out.old.items ++ sets_bytes caps.now }
    ensures spelled { IsSpelling sets caps.now (sets_bytes caps.now) }
    ensures room { vec_capacity out.old ≤ vec_capacity out.new }
{
    put_u16(out, caps.as_slice().len() as u16);
    put_bytes(out, &[0, 0]);
    put_all(out, caps.as_slice());
}

/// How many bytes the sets of a message are written in.
#[tactic(auto, using(crate::proofs::CapabilityLemmas::sets_short))]
pub fn size_of_sets(caps: &Caps) -> usize
    requires { AreWritableSets caps.now }
    ensures size { result ≡ length (sets_bytes caps.now) }
    ensures short { result < 2 ^ 32 }
{
    4 + size_of_all(caps.as_slice())
}

/// Whether sets can be written in one message.
pub fn can_write_sets(caps: &Caps) -> bool
    ensures { IsTrue result ↔ AreWritableSets caps.now }
{
    let all = caps.as_slice();
    all.len() <= MAX_SETS as usize && all.iter().all(can_write_set)
}

/// Whether a set can be written.
fn can_write_set(cap: &Cap) -> bool
    ensures { IsTrue result ↔ IsWritableSet cap.now }
{
    match cap {
        Cap::Other { kind, body, .. } => {
            is_kept(*kind) && body.as_slice().len() <= (u16::MAX - HEAD_LEN) as usize
        },
        _ => true,
    }
}

/// Whether a set of this type is kept unread.
fn is_kept(kind: u16) -> bool
    ensures { result ≡ is_kept kind }
{
    kind != GENERAL && kind != PRINTER && kind != DRIVE
}
