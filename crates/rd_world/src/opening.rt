//! What a session of a script begins with: its settings, and its devices as stations and as announcements.

ghost use Rattle.std.specs.Prelude.{◌≡◌, ◌<◌, ◌∷◌, ◌++◌, [], length, All, IfOk, OnOk};
ghost use Rattle.rd_declared.specs.Devices.{announce_of};
ghost use Rattle.rd_declared.specs.Declaring.{AreDeclared, AreOpenable, IsOpenable, bare_lines, declared_devices, max_session_devices};
ghost use Rattle.rd_world.specs.Opening.{AreSettings, BeginsBy, Opens, with_setting};
ghost use Rattle.rd_world.specs.Run.{printers_of, station_of, world_of};

use crate::stations::Stations;
use rd_base::Items;
use rd_declared::{DeclaredDevice, Printers, declared_devices};
use rd_devices::{Announce, DeviceList};
use rd_script::{Line, NumberedLine};
use rd_station::Station;
use std::alloc::{AllocError, Global};
use std::collections::BTreeMap;

/// What a script sets for its session.
#[derive(Clone, Copy)]
pub struct Settings {
    /// The moment at which the session begins, in 100 ns since 1601-01-01 UTC.
    pub moment: u64,
    /// Where the draws begin.
    pub draws: u64,
    /// The most bytes that a drawn read takes.
    pub piece: u32,
    /// How many hands there are.
    pub hands: u32,
}

/// What a script's session begins with.
#[derive(Drop)]
pub struct Opening {
    pub stations: Stations,
    /// As the client announces them on the first channel.
    pub devices: DeviceList,
    pub printers: Printers,
}

/// What lines set.
#[tactic(auto, using(crate::proofs::OpeningLemmas::setting_within, std::proofs::lemmas::Grind::common_steps))]
pub fn settings_of(lines: &[NumberedLine]) -> Settings
    requires { AreDeclared lines.now }
    ensures begins { BeginsBy (world_of lines.now) result }
    ensures within { AreSettings result }
{
    let mut settings = Settings {
        moment: 0,
        draws: 0,
        piece: 4096,
        hands: 1,
    };
    for line in lines {
        settings = with_setting(settings, &line.line);
    }
    settings
}

/// With the setting that a line gives, if it gives one.
#[tactic(auto, unfolding(crate::specs::Opening::with_setting))]
fn with_setting(settings: Settings, line: &Line) -> Settings
    ensures { result ≡ with_setting settings line.now }
{
    match line {
        Line::Seed { number } => Settings {
            draws: *number,
            ..settings
        },
        Line::Clock { moment } => Settings {
            moment: *moment,
            ..settings
        },
        Line::Piece { most } => Settings {
            piece: *most,
            ..settings
        },
        Line::Workers { count } => Settings {
            hands: *count,
            ..settings
        },
        _ => settings,
    }
}

/// The devices that lines declare, as a session begins with them: all declarations come first, and then what is on the drives.
pub fn open_devices(alloc: Global, lines: &[NumberedLine]) -> Result<Opening, AllocError>
    requires { AreDeclared lines.now }
    ensures { IfOk result (λ o. Opens (declared_devices (bare_lines lines.now)) o.stations o.devices o.printers) }
{
    let devices = declared_devices(alloc, lines)?;
    open_all(alloc, devices)
}

/// The stations, the announcements and the printers of devices, one after the other by their ids.
fn open_all(
    alloc: Global,
    mut devices: BTreeMap<u32, DeclaredDevice>,
) -> Result<Opening, AllocError>
    requires { AreOpenable devices.entries }
    ensures { IfOk result (λ o. Opens devices.entries o.stations o.devices o.printers) }
{
    let mut opened = Opened {
        stations: Stations::new(alloc),
        announced: Vec::new(alloc),
        printers: Printers::new(alloc),
    };
    while let Some((id, device)) = devices.pop_first() {
        opened.add(alloc, id, device)?;
    }
    let Opened {
        stations,
        announced,
        printers,
    } = opened;
    Ok(Opening {
        stations,
        devices: Items::of(announced),
        printers,
    })
}

/// What of the devices was opened so far.
#[derive(Drop)]
struct Opened {
    stations: Stations,
    announced: Vec<Announce>,
    printers: Printers,
}

impl Opened {
    /// Opens the next device.
    fn add(&mut self, alloc: Global, id: u32, device: DeclaredDevice) -> Result<(), AllocError>
        requires openable { IsOpenable (id, device) }
        requires above { All (λ e. e.0 < id) self.old.stations }
        requires few { length self.old.stations < max_session_devices }
        ensures stations { OnOk result (self.new.stations ≡ self.old.stations ++ station_of (id, device) ∷ []) }
        ensures announced { OnOk result (self.new.announced.items ≡ self.old.announced.items ++ announce_of [] device ∷ []) }
        ensures printers { OnOk result (self.new.printers ≡ self.old.printers ++ printers_of ((id, device) ∷ [])) }
    {
        self.announced.push(device.announce(alloc)?)?;
        let (state, printer) = device.into_parts();
        let Ok(station) = Station::new(alloc, state) else {
            return Err(AllocError);
        };
        self.stations.add(id, station)?;
        if let Some(names) = printer {
            self.printers.add(id, names)?;
        }
        Ok(())
    }
}
