//! The entries of a folder's listing (MS-FSCC 2.4).

ghost use Rattle.std.specs.Prelude.{◌≡◌, ◌+◌, ◌<◌, ◌≤◌, ◌^◌, ◌↔◌, ◌++◌, ℕ, IsTrue, IfOk, IfErr, OnOk, OnErr, vec_capacity, vec_len};
ghost use Rattle.rd_base.specs.Classes.{IsListed, IsRefusal, IsUnlisted, ReadsOfClass};
ghost use Rattle.rd_base.specs.Moments.{MomentsFit};
ghost use Rattle.rd_base.specs.Reading.{Reads, ReadsInto};
ghost use Rattle.rd_dirinfo.specs.Entry.{both_directory, both_directory_entry, directory_entry, entry_bytes, entry_classes, entry_head, entry_with, full_directory_entry, entry_start, entry_head_bytes, names_entry, sent_entry, EntryFits, IsEntryInRange, IsUnwritten, SpellsEntry};

use crate::classes::{BOTH_DIRECTORY, DIRECTORY, FULL_DIRECTORY, NAMES};
use rd_base::{
    Bad, Bytes, Cursor, InfoNo, Moments, ReadNo, Units, put_bytes, put_moments, put_u8, put_u32,
    put_u64, put_units, read_constant_u8, read_constant_u32, read_moments, read_text,
    read_units_length, read_zeros,
};
use std::alloc::{AllocError, Global};

/// So many units have more bytes than a length can say.
const TOO_MANY_UNITS: usize = 0x8000_0000;

/// What a listing says of one member of a folder.
#[derive(Debug, Drop)]
pub struct Entry {
    pub moments: Moments,
    /// The bytes of the file.
    pub end: u64,
    /// The bytes that are kept for it.
    pub allocation: u64,
    pub attributes: u32,
    pub name: Units,
}

/// What an entry says before its name.
#[derive(Clone, Copy, Debug, PartialEq, Eq)]
struct Head {
    moments: Moments,
    end: u64,
    allocation: u64,
    attributes: u32,
    /// FileNameLength, in bytes.
    name_len: u32,
}

/// Whether an entry can be written.
pub fn entry_fits(entry: &Entry) -> bool
    ensures { IsTrue result ↔ EntryFits entry.now }
{
    entry.name.as_slice().len() < TOO_MANY_UNITS
}

/// Reads the buffer of a class; bytes after the name are ignored. What FileNamesInformation doesn't send is 0.
pub fn read_entry(alloc: Global, class: u32, bytes: &[u8]) -> Result<Entry, InfoNo>
    ensures spelled { IfOk result (λ entry. (tail : ℕ) × SpellsEntry class entry tail bytes.now) }
    ensures refused { IfErr result (IsRefusal entry_classes class bytes.now) }
    ensures class { (result ≡ Err (InfoNo.Class class)) ↔ IsUnlisted entry_classes class }
{
    let mut cursor = Cursor::new(bytes);
    entry_of(alloc, class, &mut cursor)
}

#[tactic(auto, unfolding(crate::specs::Entry::entry_classes))]
fn entry_of(alloc: Global, class: u32, cursor: &mut Cursor<'_>) -> Result<Entry, InfoNo>
    ensures { ReadsOfClass (λ entry. entry) entry_classes class cursor.old cursor.new result }
{
    match class {
        DIRECTORY => Ok(read_directory(alloc, cursor)?),
        FULL_DIRECTORY => Ok(read_full_directory(alloc, cursor)?),
        BOTH_DIRECTORY => Ok(read_both_directory(alloc, cursor)?),
        NAMES => Ok(read_names(alloc, cursor)?),
        _ => Err(InfoNo::Class(class)),
    }
}

#[tactic(auto, unfolding(crate::specs::Entry::directory_entry))]
fn read_directory(alloc: Global, cursor: &mut Cursor<'_>) -> Result<Entry, ReadNo>
    ensures { ReadsInto (λ entry. entry) directory_entry cursor.old cursor.new result }
{
    let head = read_entry_head(cursor)?;
    let name = read_text(alloc, cursor, head.name_len)?;
    Ok(entry_with(head, name))
}

#[tactic(auto, unfolding(crate::specs::Entry::full_directory_entry))]
fn read_full_directory(alloc: Global, cursor: &mut Cursor<'_>) -> Result<Entry, ReadNo>
    ensures { ReadsInto (λ entry. entry) full_directory_entry cursor.old cursor.new result }
{
    let head = read_entry_head(cursor)?;
    read_constant_u32(cursor, 0)?;
    let name = read_text(alloc, cursor, head.name_len)?;
    Ok(entry_with(head, name))
}

#[tactic(auto, unfolding(crate::specs::Entry::both_directory_entry))]
fn read_both_directory(alloc: Global, cursor: &mut Cursor<'_>) -> Result<Entry, ReadNo>
    ensures { ReadsInto (λ entry. entry) both_directory_entry cursor.old cursor.new result }
{
    let head = read_entry_head(cursor)?;
    read_constant_u32(cursor, 0)?;
    read_constant_u8(cursor, 0)?;
    read_zeros(cursor, 24)?;
    let name = read_text(alloc, cursor, head.name_len)?;
    Ok(entry_with(head, name))
}

#[tactic(auto, unfolding(crate::specs::Entry::names_entry))]
fn read_names(alloc: Global, cursor: &mut Cursor<'_>) -> Result<Entry, ReadNo>
    ensures { ReadsInto (λ entry. entry) names_entry cursor.old cursor.new result }
{
    read_entry_start(cursor)?;
    let count = read_units_length(cursor)?;
    let name = read_text(alloc, cursor, count)?;
    let moments = Moments {
        creation: 0,
        access: 0,
        write: 0,
        change: 0,
    };
    Ok(Entry {
        moments,
        end: 0,
        allocation: 0,
        attributes: 0,
        name,
    })
}

/// What every class but FileNamesInformation begins with.
#[tactic(auto, unfolding(crate::specs::Entry::entry_head))]
fn read_entry_head(cursor: &mut Cursor<'_>) -> Result<Head, Bad>
    ensures { Reads (λ head. head) entry_head cursor.old cursor.new result }
{
    read_entry_start(cursor)?;
    let moments = read_moments(cursor)?;
    let end = cursor.u64()?;
    let allocation = cursor.u64()?;
    let attributes = cursor.u32()?;
    let name_len = read_units_length(cursor)?;
    Ok(Head {
        moments,
        end,
        allocation,
        attributes,
        name_len,
    })
}

fn entry_with(head: Head, name: Units) -> Entry
    ensures { result ≡ entry_with head name }
{
    let Head {
        moments,
        end,
        allocation,
        attributes,
        ..
    } = head;
    Entry {
        moments,
        end,
        allocation,
        attributes,
        name,
    }
}

/// NextEntryOffset and FileIndex
#[tactic(auto, unfolding(crate::specs::Entry::entry_start))]
fn read_entry_start(cursor: &mut Cursor<'_>) -> Result<(), Bad>
    ensures { Reads (λ u. u) entry_start cursor.old cursor.new result }
{
    read_constant_u32(cursor, 0)?;
    read_constant_u32(cursor, 0)
}

/// Writes the buffer of an entry that fits.
pub fn write_entry(alloc: Global, class: u32, entry: &Entry) -> Result<Bytes, InfoNo>
    requires { EntryFits entry.now }
    ensures spelled { IfOk result (SpellsEntry class (sent_entry class entry.now) 0) }
    ensures written { IfOk result (λ bytes. bytes ≡ entry_bytes class entry.now) }
    ensures refused { IfErr result (IsUnwritten class) }
    ensures class { (result ≡ Err (InfoNo.Class class)) ↔ IsUnlisted entry_classes class }
{
    let mut out = Vec::new(alloc);
    put_entry(&mut out, class, entry)?;
    Ok(Bytes::of(out))
}

/// Appends the buffer of an entry that fits.
pub fn put_entry(out: &mut Vec<u8>, class: u32, entry: &Entry) -> Result<(), InfoNo>
    requires { EntryFits entry.now }
    ensures bytes { OnOk result (out.new.items ≡ out.old.items ++ entry_bytes class entry.now) }
    ensures spelled { OnOk result
        (SpellsEntry class (sent_entry class entry.now) 0 (entry_bytes class entry.now)) }
    ensures err { OnErr result (out.new.items ≡ out.old.items) }
    ensures refused { IfErr result (IsUnwritten class) }
    ensures class { (result ≡ Err (InfoNo.Class class)) ↔ IsUnlisted entry_classes class }
{
    append_entry(out, class, entry)?;
    Ok(())
}

#[tactic(auto, unfolding(crate::specs::Entry::entry_classes))]
fn append_entry(out: &mut Vec<u8>, class: u32, entry: &Entry) -> Result<(), InfoNo>
    requires { EntryFits entry.now }
    ensures bytes { OnOk result (out.new.items ≡ out.old.items ++ entry_bytes class entry.now) }
    ensures in_range { OnOk result (IsEntryInRange (sent_entry class entry.now)) }
    ensures listed { OnOk result (IsListed entry_classes class) }
    ensures err { OnErr result (out.new.items ≡ out.old.items) }
    ensures refused { IfErr result (IsUnwritten class) }
    ensures class { (result ≡ Err (InfoNo.Class class)) ↔ IsUnlisted entry_classes class }
{
    let units = entry.name.as_slice();
    let len = 2 * units.len();
    match class {
        DIRECTORY => {
            out.try_reserve(64 + len)?;
            put_head(out, entry);
            put_units(out, units);
            Ok(())
        }
        FULL_DIRECTORY => {
            out.try_reserve(68 + len)?;
            put_head(out, entry);
            put_u32(out, 0);
            put_units(out, units);
            Ok(())
        }
        BOTH_DIRECTORY => Ok(append_both_directory(out, entry)?),
        NAMES => {
            out.try_reserve(12 + len)?;
            put_u32(out, 0);
            put_u32(out, 0);
            put_u32(out, len as u32);
            put_units(out, units);
            Ok(())
        }
        _ => Err(InfoNo::Class(class)),
    }
}

fn append_both_directory(out: &mut Vec<u8>, entry: &Entry) -> Result<(), AllocError>
    requires { EntryFits entry.now }
    ensures bytes { OnOk result (out.new.items
        ≡ out.old.items ++ entry_bytes both_directory entry.now) }
    ensures in_range { OnOk result (IsEntryInRange entry.now) }
    ensures err { OnErr result (out.new.items ≡ out.old.items) }
{
    let units = entry.name.as_slice();
    out.try_reserve(93 + 2 * units.len())?;
    put_head(out, entry);
    put_u32(out, 0);
    put_u8(out, 0);
    put_bytes(out, &[0; 24]);
    put_units(out, units);
    Ok(())
}

/// The zero entry_start, the numbers, and the length of the name.
#[tactic(auto, unfolding(crate::specs::Entry::entry_head_bytes))]
fn put_head(out: &mut Vec<u8>, entry: &Entry)
    requires room { vec_len out.old + 64 ≤ vec_capacity out.old }
    requires fits { EntryFits entry.now }
    ensures bytes { out.new.items ≡ out.old.items ++ entry_head_bytes entry.now }
    ensures len { vec_len out.new ≡ vec_len out.old + 64 }
    ensures room { vec_capacity out.old ≤ vec_capacity out.new }
    ensures moments { MomentsFit entry.now.moments }
    ensures end { entry.now.end < 2 ^ 64 }
    ensures allocation { entry.now.allocation < 2 ^ 64 }
    ensures attributes { entry.now.attributes < 2 ^ 32 }
{
    put_u32(out, 0);
    put_u32(out, 0);
    put_moments(out, &entry.moments);
    put_u64(out, entry.end);
    put_u64(out, entry.allocation);
    put_u32(out, entry.attributes);
    put_u32(out, 2 * entry.name.as_slice().len() as u32);
}
