//! The printers of a session, and the data with which each is announced.
//!
//! Cost: a printer is found by looking at one after another, at most 32, and only where a channel begins.

ghost use Rattle.std.specs.Prelude.{◌≡◌, ◌<◌, ◌≤◌, ◌∷◌, ◌++◌, [], length, slice_get, vec_len, IfOk, IfSome, OnErr, OnOk};
ghost use Rattle.std.specs.Map.{lookup};
ghost use Rattle.std.specs.Option.{option_copied, option_map};
ghost use Rattle.std.specs.Ordering.{nat_cmp};
ghost use Rattle.std.specs.BTreeMap.{is_at};
ghost use Rattle.rd_declared.specs.Devices.{max_config, printer_data, zero_text};
ghost use Rattle.rd_declared.specs.Printers.{kept_config, max_printer_data, max_printer_units};

use rd_base::{Bytes, Units, put_path};
use rd_devices::{PrinterInfo, write_printer};
use rd_printer::Cache;
use std::alloc::{AllocError, Global};
use std::marker::Model;

/// The most bytes of a configuration that is announced.
const MAX_CONFIG: usize = 16384;

/// The driver and the name of a printer, at most 255 units each.
#[derive(Drop)]
pub struct PrinterNames {
    driver: Units,
    printer: Units,
}

impl Model for PrinterNames {
    ghost use Rattle.rd_declared.specs.Devices as devices;
    ghost use Rattle.rd_declared.specs.Printers.{AreShortNames};

    ghost Value = { devices.PrinterNames };

    ghost view = { λ n. record { driver = n.driver; printer = n.printer } };

    ghost invariant = { λ n. AreShortNames (record { driver = n.driver; printer = n.printer }) };
}

impl PrinterNames {
    pub fn new(driver: Units, printer: Units) -> Self
        requires driver { length driver ≤ max_printer_units }
        requires printer { length printer ≤ max_printer_units }
        ensures { result ≡ record { driver = driver; printer = printer } }
    {
        PrinterNames { driver, printer }
    }

    /// The data with which a printer of these names is announced: the configuration that is kept for it is part of it.
    pub fn data(&self, alloc: Global, cache: &Cache) -> Result<Bytes, AllocError>
        ensures bytes { IfOk result (λ bytes. bytes ≡ printer_data cache.now self.now) }
        ensures few { IfOk result (λ bytes. length bytes ≤ max_printer_data) }
    {
        let driver = zero_text(alloc, &self.driver)?;
        let name = zero_text(alloc, &self.printer)?;
        let config = config_of(alloc, cache, &name)?;
        let info = PrinterInfo {
            flags: 0,
            page: 0,
            pnp: Bytes::of(Vec::new(alloc)),
            driver,
            name,
            config,
        };
        write_printer(alloc, &info)
    }
}

/// The bytes of units, and a zero unit after them.
pub fn zero_text(alloc: Global, units: &Units) -> Result<Bytes, AllocError>
    requires { length units.now ≤ max_printer_units }
    ensures bytes { IfOk result (λ bytes. bytes ≡ zero_text units.now) }
    ensures few { IfOk result (λ bytes. length bytes ≤ 512) }
{
    let units = units.as_slice();
    let mut out = Vec::with_capacity(alloc, 2 * units.len() + 2)?;
    put_path(&mut out, units);
    Ok(Bytes::of(out))
}

/// The configuration that is kept for a name, where it isn't too long.
fn config_of(alloc: Global, cache: &Cache, name: &Bytes) -> Result<Bytes, AllocError>
    ensures bytes { IfOk result (λ bytes. bytes ≡ kept_config cache.now name.now) }
    ensures few { IfOk result (λ bytes. length bytes ≤ max_config) }
{
    if let Some(config) = cache.get(name) {
        if config.as_slice().len() <= MAX_CONFIG {
            return config.copy();
        }
    }
    Ok(Bytes::of(Vec::new(alloc)))
}

/// The printers of a session with their names. Contracts see each beside its device's id.
#[derive(Drop)]
pub struct Printers {
    list: Vec<(u32, PrinterNames)>,
}

impl Model for Printers {
    ghost use Rattle.std.specs.Prelude.{ℕ, List};
    ghost use Rattle.rd_declared.specs.Devices as devices;

    ghost Value = { List (ℕ × devices.PrinterNames) };

    ghost view = { λ p. p.list.items };
}

impl Printers {
    /// No printers.
    pub fn new(alloc: Global) -> Self
        ensures { result ≡ [] }
    {
        Printers {
            list: Vec::new(alloc),
        }
    }

    /// Another printer comes last. Where no memory is found nothing changes.
    pub fn add(&mut self, id: u32, names: PrinterNames) -> Result<(), AllocError>
        ensures added { OnOk result (self.new ≡ self.old ++ (id, names) ∷ []) }
        ensures unchanged { OnErr result (self.new ≡ self.old) }
    {
        self.list.reserve(1)?;
        self.list.push_reserved((id, names));
        Ok(())
    }

    /// How many printers there are.
    pub fn len(&self) -> usize
        ensures { result ≡ length self.now }
    {
        self.list.len()
    }

    /// The id of the device that is the printer at a place.
    pub fn id_at(&self, place: usize) -> u32
        requires { place < length self.now }
        ensures { IfSome (slice_get self.now place) (λ e. e.0 ≡ result) }
    {
        self.list[place].0
    }

    /// The data with which the printer is announced that is this device, if it is one.
    pub fn data(
        &self,
        alloc: Global,
        device: u32,
        cache: &Cache,
    ) -> Result<Option<Bytes>, AllocError>
        ensures bytes { IfOk result (λ found. found ≡ option_map (printer_data cache.now) (lookup (is_at (nat_cmp device)) self.now)) }
        ensures few { IfOk result (λ found. IfSome found (λ bytes. length bytes ≤ max_printer_data)) }
    {
        match self.names_of(device) {
            Some(names) => Ok(Some(names.data(alloc, cache)?)),
            None => Ok(None),
        }
    }

    /// The names of the printer that is this device, if it is one.
    fn names_of(&self, device: u32) -> Option<&PrinterNames>
        ensures { option_copied result ≡ lookup (is_at (nat_cmp device)) self.now }
    {
        for (id, names) in &self.list {
            if *id == device {
                return Some(names);
            }
        }
        None
    }
}
