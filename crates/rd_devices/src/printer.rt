//! The data of a printer's announcement (MS-RDPEPC 2.2.2.1).

ghost use Rattle.std.specs.Prelude.{◌≡◌, ◌<◌, ◌^◌, ◌↔◌, ◌++◌, IsTrue, IfOk, IfErr, OnErr, OnOk, length};
ghost use Rattle.rd_base.specs.Reading.{WithTail, ForBad};
ghost use Rattle.rd_devices.specs.PrinterInfo.{printer_bytes, IsWritablePrinter, SpellsPrinter, FirstFaultOfPrinter};

use rd_base::{
    Bytes, Cursor, Format, ReadNo, append_message, put_four_fields, put_u32, read_four_fields,
    read_message, write_message,
};
use std::alloc::{AllocError, Global};

/// What the announcement of a printer says beside its kind, id and DOS name.
#[derive(Debug, Drop)]
pub struct PrinterInfo {
    /// ASCII 1, default printer 2, network printer 4, terminal services printer 8, XPS format 0x10.
    pub flags: u32,
    /// CodePage, which is reserved.
    pub page: u32,
    /// PnPName.
    pub pnp: Bytes,
    /// DriverName.
    pub driver: Bytes,
    /// PrintName.
    pub name: Bytes,
    /// CachedPrinterConfigData, kept unread.
    pub config: Bytes,
}

impl Format for PrinterInfo {
    ghost use Rattle.rd_devices.specs.PrinterInfo.{printer_info, printer_bytes, IsWritablePrinter};

    ghost layout = { printer_info };

    ghost bytes = { printer_bytes };

    ghost fits = { IsWritablePrinter };

    #[tactic(auto, unfolding(crate::specs::PrinterInfo::printer_info))]
    fn read(alloc: Global, cursor: &mut Cursor<'_>) -> Result<PrinterInfo, ReadNo> {
        let flags = cursor.u32()?;
        let page = cursor.u32()?;
        let (pnp, driver, name, config) = read_four_fields(alloc, cursor)?;
        Ok(PrinterInfo {
            flags,
            page,
            pnp,
            driver,
            name,
            config,
        })
    }

    #[tactic(auto, using(crate::proofs::PrinterInfoLemmas::printer_spelled, std::proofs::Common::append_assoc), unfolding(rd_base::specs::Fields::bytes32, rd_base::specs::Counted::four_fields_bytes))]
    fn put(&self, out: &mut Vec<u8>) {
        put_u32(out, self.flags);
        put_u32(out, self.page);
        put_four_fields(
            out,
            self.pnp.as_slice(),
            self.driver.as_slice(),
            self.name.as_slice(),
            self.config.as_slice(),
        );
    }

    #[tactic(auto, unfolding(rd_base::specs::Counted::four_fields_bytes))]
    fn size(&self) -> usize {
        let names = self.pnp.as_slice().len()
            + self.driver.as_slice().len()
            + self.name.as_slice().len();
        24 + names + self.config.as_slice().len()
    }
}

/// Reads the data of a printer's announcement, and counts the ignored bytes after it.
pub fn read_printer(alloc: Global, body: &[u8]) -> Result<(PrinterInfo, u32), ReadNo>
    ensures spelled { IfOk result (λ read.
        WithTail read.1 (λ tail. SpellsPrinter read.0 tail body.now)) }
    ensures refused { IfErr result (ForBad (FirstFaultOfPrinter body.now)) }
{
    read_message(alloc, body)
}

/// Writes the data of a printer's announcement.
pub fn write_printer(alloc: Global, info: &PrinterInfo) -> Result<Bytes, AllocError>
    requires { IsWritablePrinter info.now }
    ensures spelled { IfOk result (SpellsPrinter info.now 0) }
    ensures written { IfOk result (λ body. body ≡ printer_bytes info.now) }
{
    write_message(alloc, info)
}

/// Appends the data of a printer's announcement. Where there is no memory for all of it, nothing is appended.
pub fn put_printer(out: &mut Vec<u8>, info: &PrinterInfo) -> Result<(), AllocError>
    requires { IsWritablePrinter info.now }
    ensures bytes { OnOk result (out.new.items ≡ out.old.items ++ printer_bytes info.now) }
    ensures err { OnErr result (out.new.items ≡ out.old.items) }
{
    append_message(out, info)
}

/// Whether the data of a printer's announcement can be written: its four fields can be counted.
pub fn can_write_printer(info: &PrinterInfo) -> bool
    ensures { IsTrue result ↔ IsWritablePrinter info.now }
{
    is_countable(&info.pnp)
        && is_countable(&info.driver)
        && is_countable(&info.name)
        && is_countable(&info.config)
}

fn is_countable(field: &Bytes) -> bool
    ensures { IsTrue result ↔ (length field.now < 2 ^ 32) }
{
    field.as_slice().len() < 1 << 32
}
