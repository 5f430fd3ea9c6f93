//! What the host tells a client of its printers (MS-RDPEPC 2.2.2.2 to 2.2.2.6).

ghost use Rattle.std.specs.Prelude.{◌≡◌, ◌+◌, ◌<◌, ◌≤◌, ◌^◌, ◌↔◌, ◌++◌, IsTrue, IfOk, IfErr, OnErr, OnOk, length, vec_capacity, vec_len};
ghost use Rattle.std.specs.Int.{w32, to_le_bytes};
ghost use Rattle.rd_base.specs.Counted.{four_fields_bytes};
ghost use Rattle.rd_base.specs.Header.{header_bytes};
ghost use Rattle.rd_base.specs.Reading.{ReadsInto, WithTail, ForBad};
ghost use Rattle.rd_base.specs.declared.packet.Packet.TheVariants as packet;
ghost use Rattle.rd_printer.specs.Notice.{cache_data, event_body, using_xps, event_bytes, notice_bytes, IsCountable, IsWritableNotice, SpellsNotice, FirstFaultOfNotice};

use rd_base::{
    Bad, Bytes, Cursor, Format, HEADER_LEN, Packet, ReadNo, Why, append_message, put_bytes,
    put_counted_bytes, put_four_fields, put_header, put_two_fields, put_u32, read_counted_bytes,
    read_eight, read_four_fields, read_header_among, read_message, read_two_fields, write_message,
};
use std::alloc::{AllocError, Global};

const ADD: u32 = 1;

const UPDATE: u32 = 2;

const DELETE: u32 = 3;

const RENAME: u32 = 4;

/// The packets of notices.
const NOTICES: [Packet; 2] = [Packet::PrinterCacheData, Packet::PrinterUsingXps];

/// The bytes of a header and an EventId.
const EVENT_LEN: usize = HEADER_LEN + 4;

/// What the host tells. Names and configurations are kept unread.
#[derive(Debug, Drop)]
pub enum Notice {
    /// A printer was added with this configuration (2.2.2.3).
    Add {
        /// PortDosName, filled up with zeros.
        port: [u8; 8],
        pnp: Bytes,
        driver: Bytes,
        name: Bytes,
        config: Bytes,
    },
    /// The configuration of a printer changed (2.2.2.4).
    Update {
        name: Bytes,
        config: Bytes,
    },
    /// A printer was deleted (2.2.2.5).
    Delete {
        name: Bytes,
    },
    /// A printer was renamed (2.2.2.6).
    Rename {
        old: Bytes,
        new: Bytes,
    },
    /// The host prints to this printer in XPS format (2.2.2.2).
    UsingXps {
        /// The printer's device id.
        printer: u32,
        flags: u32,
    },
}

impl Format for Notice {
    ghost use Rattle.rd_printer.specs.Notice.{notice, notice_bytes, IsWritableNotice};

    ghost layout = { notice };

    ghost bytes = { notice_bytes };

    ghost fits = { IsWritableNotice };

    #[tactic(auto, unfolding(crate::specs::Notice::notice))]
    fn read(alloc: Global, cursor: &mut Cursor<'_>) -> Result<Notice, ReadNo> {
        match read_header_among(cursor, &NOTICES)? {
            Packet::PrinterUsingXps => read_using_xps(cursor),
            _ => read_cache_data(alloc, cursor),
        }
    }

    #[tactic(auto, using(crate::proofs::NoticeLemmas::notice_spelled, std::proofs::Common::append_assoc), unfolding(rd_base::specs::Counted::two_fields_bytes, rd_base::specs::Counted::four_fields_bytes))]
    fn put(&self, out: &mut Vec<u8>) {
        match self {
            Notice::Add {
                port,
                pnp,
                driver,
                name,
                config,
            } => put_add(
                out,
                port,
                pnp.as_slice(),
                driver.as_slice(),
                name.as_slice(),
                config.as_slice(),
            ),
            Notice::Update { name, config } => {
                put_event(out, UPDATE);
                put_two_fields(out, name.as_slice(), config.as_slice());
            }
            Notice::Delete { name } => {
                put_event(out, DELETE);
                put_counted_bytes(out, name.as_slice());
            }
            Notice::Rename { old, new } => {
                put_event(out, RENAME);
                put_two_fields(out, old.as_slice(), new.as_slice());
            }
            Notice::UsingXps { printer, flags } => put_using_xps(out, *printer, *flags),
        }
    }

    #[tactic(auto, unfolding(rd_base::specs::Counted::two_fields_bytes, rd_base::specs::Counted::four_fields_bytes))]
    fn size(&self) -> usize {
        match self {
            Notice::Add {
                port,
                pnp,
                driver,
                name,
                config,
            } => {
                let names = pnp.as_slice().len() + driver.as_slice().len() + name.as_slice().len();
                EVENT_LEN + port.as_slice().len() + 16 + names + config.as_slice().len()
            }
            Notice::Update { name, config } => {
                EVENT_LEN + 8 + name.as_slice().len() + config.as_slice().len()
            }
            Notice::Delete { name } => EVENT_LEN + 4 + name.as_slice().len(),
            Notice::Rename { old, new } => {
                EVENT_LEN + 8 + old.as_slice().len() + new.as_slice().len()
            }
            Notice::UsingXps { .. } => HEADER_LEN + 8,
        }
    }
}

#[tactic(auto, unfolding(crate::specs::Notice::using_xps))]
fn read_using_xps(cursor: &mut Cursor<'_>) -> Result<Notice, ReadNo>
    ensures { ReadsInto (λ notice. notice) using_xps cursor.old cursor.new result }
{
    let printer = cursor.u32()?;
    let flags = cursor.u32()?;
    Ok(Notice::UsingXps { printer, flags })
}

/// Reads an EventId and what stands after it.
#[tactic(auto, unfolding(crate::specs::Notice::cache_data))]
fn read_cache_data(alloc: Global, cursor: &mut Cursor<'_>) -> Result<Notice, ReadNo>
    ensures { ReadsInto (λ notice. notice) cache_data cursor.old cursor.new result }
{
    let at = cursor.place();
    let event = cursor.u32()?;
    if !(ADD..=RENAME).contains(&event) {
        return Err(ReadNo::Bad(Bad {
            at,
            why: Why::Value,
        }));
    }
    read_event(alloc, event, cursor)
}

#[tactic(auto, unfolding(crate::specs::Notice::event_body, crate::specs::Notice::add_event, crate::specs::Notice::update_event, crate::specs::Notice::delete_event, crate::specs::Notice::rename_event, rd_base::specs::Counted::counted_bytes))]
fn read_event(alloc: Global, event: u32, cursor: &mut Cursor<'_>) -> Result<Notice, ReadNo>
    ensures { ReadsInto (λ notice. notice) (event_body event) cursor.old cursor.new result }
{
    match event {
        ADD => {
            let port = read_eight(cursor)?;
            let (pnp, driver, name, config) = read_four_fields(alloc, cursor)?;
            Ok(Notice::Add {
                port,
                pnp,
                driver,
                name,
                config,
            })
        }
        UPDATE => {
            let (name, config) = read_two_fields(alloc, cursor)?;
            Ok(Notice::Update { name, config })
        }
        DELETE => {
            let name = read_counted_bytes(alloc, cursor)?;
            Ok(Notice::Delete { name })
        }
        _ => {
            let (old, new) = read_two_fields(alloc, cursor)?;
            Ok(Notice::Rename { old, new })
        }
    }
}

/// Appends the header and the EventId of a change of the cache.
#[tactic(auto, unfolding(rd_base::specs::Fields::bytes32), using(std::proofs::Common::append_assoc))]
fn put_event(out: &mut Vec<u8>, event: u32)
    requires { vec_len out.old + 8 ≤ vec_capacity out.old }
    ensures bytes { out.new.items ≡ out.old.items ++ event_bytes event }
    ensures len { vec_len out.new ≡ vec_len out.old + 8 }
    ensures room { vec_capacity out.old ≤ vec_capacity out.new }
{
    put_header(out, Packet::PrinterCacheData);
    put_u32(out, event);
}

/// Appends the whole notice of a printer that was added.
#[tactic(auto, using(std::proofs::Common::append_assoc))]
fn put_add(out: &mut Vec<u8>, port: &[u8; 8], pnp: &[u8], driver: &[u8], name: &[u8], config: &[u8])
    requires pnp { IsCountable pnp.now }
    requires driver { IsCountable driver.now }
    requires name { IsCountable name.now }
    requires config { IsCountable config.now }
    requires room { vec_len out.old + 24 + length port.now + length pnp.now + length driver.now + length name.now + length config.now ≤ vec_capacity out.old }
    ensures bytes { out.new.items ≡ out.old.items
        ++ (event_bytes 1 ++ port.now ++ four_fields_bytes pnp.now driver.now name.now config.now) }
    ensures port { length port.now ≡ 8 }
    ensures room { vec_capacity out.old ≤ vec_capacity out.new }
{
    put_event(out, ADD);
    put_bytes(out, port);
    put_four_fields(out, pnp, driver, name, config);
}

/// Appends the whole notice that the host prints in XPS format.
#[tactic(auto, unfolding(rd_base::specs::Fields::bytes32), using(std::proofs::Common::append_assoc))]
fn put_using_xps(out: &mut Vec<u8>, printer: u32, flags: u32)
    requires { vec_len out.old + 12 ≤ vec_capacity out.old }
    ensures bytes { out.new.items ≡ out.old.items
        ++ (header_bytes packet.PrinterUsingXps ++ to_le_bytes w32 printer ++ to_le_bytes w32 flags) }
    ensures fits { (printer < 2 ^ 32) × (flags < 2 ^ 32) }
    ensures room { vec_capacity out.old ≤ vec_capacity out.new }
{
    put_header(out, Packet::PrinterUsingXps);
    put_u32(out, printer);
    put_u32(out, flags);
}

/// Reads a notice, and counts the ignored bytes after it.
pub fn read_notice(alloc: Global, bytes: &[u8]) -> Result<(Notice, u32), ReadNo>
    ensures spelled { IfOk result (λ read.
        WithTail read.1 (λ tail. SpellsNotice read.0 tail bytes.now)) }
    ensures refused { IfErr result (ForBad (FirstFaultOfNotice bytes.now)) }
{
    read_message(alloc, bytes)
}

/// Writes a notice.
pub fn write_notice(alloc: Global, notice: &Notice) -> Result<Bytes, AllocError>
    requires { IsWritableNotice notice.now }
    ensures spelled { IfOk result (SpellsNotice notice.now 0) }
    ensures written { IfOk result (λ message. message ≡ notice_bytes notice.now) }
{
    write_message(alloc, notice)
}

/// Appends a notice. Where there is no memory for all of it, nothing is appended.
pub fn put_notice(out: &mut Vec<u8>, notice: &Notice) -> Result<(), AllocError>
    requires { IsWritableNotice notice.now }
    ensures bytes { OnOk result (out.new.items ≡ out.old.items ++ notice_bytes notice.now) }
    ensures err { OnErr result (out.new.items ≡ out.old.items) }
{
    append_message(out, notice)
}

/// Whether a notice can be written: its byte fields can be counted.
pub fn can_write_notice(notice: &Notice) -> bool
    ensures { IsTrue result ↔ IsWritableNotice notice.now }
{
    match notice {
        Notice::Add {
            pnp,
            driver,
            name,
            config,
            ..
        } => {
            is_countable(pnp) && is_countable(driver) && is_countable(name) && is_countable(config)
        }
        Notice::Update { name, config } => is_countable(name) && is_countable(config),
        Notice::Delete { name } => is_countable(name),
        Notice::Rename { old, new } => is_countable(old) && is_countable(new),
        Notice::UsingXps { .. } => true,
    }
}

fn is_countable(field: &Bytes) -> bool
    ensures { IsTrue result ↔ IsCountable field.now }
{
    field.as_slice().len() < 1 << 32
}
