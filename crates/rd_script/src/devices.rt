//! The lines of settings and of devices.

ghost use Rattle.rd_dirinfo.specs.Paths.{parsed_path};
ghost use Rattle.rd_script.specs.Row.{ReadsWords, ReadsWordsInto};
ghost use Rattle.rd_script.specs.Rows.{SplitsInto, channels_row, clock_row, devices_row, drive_id, drive_row, drivefold_row, file_row, fill_length, fill_row, folder_row, known_device, new_device, new_path, piece_row, printer_name, printer_row, real_row, seed_row, workers_row};
ghost use Rattle.rd_script.specs.Numbers.{number_word};

use crate::inline::BoxedUnits;
use crate::known::Known;
use crate::line::Line;
use crate::numbers::{read_small, read_u64};
use crate::texts::{read_few_units, read_hex, read_name, read_place, read_units};
use crate::why::{LineNo, LineWhy};
use crate::words::Words;
use rd_base::Units;
use rd_dirinfo::{Path, PathNo};
use std::alloc::Global;

/// The most bytes of a `fill` line.
const MAX_FILL: u64 = 16_777_216;

/// The most units of the name of a printer or a driver.
pub const MAX_PRINTER_NAME: usize = 255;

#[tactic(auto, unfolding(crate::specs::Rows::seed_row))]
pub fn read_seed(words: &mut Words<'_>) -> Result<Line, LineNo>
    ensures { ReadsWordsInto (λ x. x) seed_row words.old words.new result }
{
    let number = read_u64(words)?;
    Ok(Line::Seed { number })
}

#[tactic(auto, unfolding(crate::specs::Rows::clock_row))]
pub fn read_clock(words: &mut Words<'_>) -> Result<Line, LineNo>
    ensures { ReadsWordsInto (λ x. x) clock_row words.old words.new result }
{
    let moment = read_u64(words)?;
    Ok(Line::Clock { moment })
}

#[tactic(auto, unfolding(crate::specs::Rows::piece_row))]
pub fn read_piece(words: &mut Words<'_>) -> Result<Line, LineNo>
    ensures { ReadsWordsInto (λ x. x) piece_row words.old words.new result }
{
    let most = read_small(words, 1, 65_536)?;
    Ok(Line::Piece { most })
}

#[tactic(auto, unfolding(crate::specs::Rows::workers_row))]
pub fn read_workers(words: &mut Words<'_>) -> Result<Line, LineNo>
    ensures { ReadsWordsInto (λ x. x) workers_row words.old words.new result }
{
    let count = read_small(words, 1, 16)?;
    Ok(Line::Workers { count })
}

#[tactic(auto, unfolding(crate::specs::Rows::channels_row))]
pub fn read_channels(words: &mut Words<'_>) -> Result<Line, LineNo>
    ensures { ReadsWordsInto (λ x. x) channels_row words.old words.new result }
{
    let count = read_small(words, 1, 64)?;
    Ok(Line::Channels { count })
}

#[tactic(auto, unfolding(crate::specs::Rows::devices_row))]
pub fn read_devices(words: &mut Words<'_>) -> Result<Line, LineNo>
    ensures { ReadsWordsInto (λ x. x) devices_row words.old words.new result }
{
    let count = read_small(words, 0, 256)?;
    Ok(Line::Devices { count })
}

/// The id of a device that wasn't declared before, where one more may be.
#[tactic(auto, unfolding(crate::specs::Rows::new_device))]
fn read_new_device(known: &Known, words: &mut Words<'_>) -> Result<u32, LineWhy>
    ensures { ReadsWords (λ x. x) (new_device known.now) words.old words.new result }
{
    let device = read_small(words, 1, u32::MAX)?;
    if known.is_declared(device) {
        return Err(LineWhy::Device);
    }
    if known.is_full() {
        return Err(LineWhy::Many);
    }
    Ok(device)
}

/// The id of a device that a line may name.
#[tactic(auto, unfolding(crate::specs::Rows::known_device))]
pub fn read_device(known: &Known, words: &mut Words<'_>) -> Result<u32, LineWhy>
    ensures { ReadsWords (λ x. x) (known_device known.now) words.old words.new result }
{
    let device = read_small(words, 1, u32::MAX)?;
    if !known.is_known(device) {
        return Err(LineWhy::Device);
    }
    Ok(device)
}

/// The id of a drive in memory.
#[tactic(auto, unfolding(crate::specs::Rows::drive_id))]
fn read_drive_id(known: &Known, words: &mut Words<'_>) -> Result<u32, LineWhy>
    ensures { ReadsWords (λ x. x) (drive_id known.now) words.old words.new result }
{
    let device = read_small(words, 1, u32::MAX)?;
    if known.naming(device).is_none() {
        return Err(LineWhy::Device);
    }
    Ok(device)
}

/// A path of a drive in memory, at which a node can be made.
#[tactic(auto, unfolding(crate::specs::Rows::new_path))]
fn read_new_path(
    alloc: Global,
    known: &Known,
    device: u32,
    words: &mut Words<'_>,
) -> Result<Path, LineNo>
    ensures { ReadsWordsInto (λ x. x) (new_path known.now device) words.old words.new result }
{
    let units = read_units(alloc, words, LineWhy::Path)?;
    let path = split(alloc, &units)?;
    if !known.is_free(alloc, device, &path)? {
        return Err(LineNo::Why(LineWhy::Path));
    }
    Ok(path)
}

/// The path that units are.
fn split(alloc: Global, units: &Units) -> Result<Path, LineNo>
    ensures { SplitsInto (parsed_path units.now) result }
{
    match Path::split(alloc, units.as_slice()) {
        Ok(path) => Ok(path),
        Err(PathNo::Invalid { .. }) => Err(LineNo::Why(LineWhy::Path)),
        Err(PathNo::Memory) => Err(LineNo::Memory),
    }
}

#[tactic(auto, unfolding(crate::specs::Rows::drive_row))]
pub fn read_drive(known: &Known, words: &mut Words<'_>) -> Result<Line, LineNo>
    ensures { ReadsWordsInto (λ x. x) (drive_row known.now) words.old words.new result }
{
    let device = read_new_device(known, words)?;
    let name = read_name(words)?;
    Ok(Line::Drive { device, name })
}

#[tactic(auto, unfolding(crate::specs::Rows::drivefold_row))]
pub fn read_drivefold(known: &Known, words: &mut Words<'_>) -> Result<Line, LineNo>
    ensures { ReadsWordsInto (λ x. x) (drivefold_row known.now) words.old words.new result }
{
    let device = read_new_device(known, words)?;
    let name = read_name(words)?;
    Ok(Line::DriveFold { device, name })
}

#[tactic(auto, unfolding(crate::specs::Rows::real_row))]
pub fn read_real(alloc: Global, known: &Known, words: &mut Words<'_>) -> Result<Line, LineNo>
    ensures { ReadsWordsInto (λ x. x) (real_row known.now) words.old words.new result }
{
    let device = read_new_device(known, words)?;
    let name = read_name(words)?;
    let place = read_place(alloc, words)?;
    Ok(Line::Real {
        device,
        name,
        place,
    })
}

#[tactic(auto, unfolding(crate::specs::Rows::folder_row))]
pub fn read_folder(alloc: Global, known: &Known, words: &mut Words<'_>) -> Result<Line, LineNo>
    ensures { ReadsWordsInto (λ x. x) (folder_row known.now) words.old words.new result }
{
    let device = read_drive_id(known, words)?;
    let path = read_new_path(alloc, known, device, words)?;
    Ok(Line::Folder { device, path })
}

#[tactic(auto, unfolding(crate::specs::Rows::file_row))]
pub fn read_file(alloc: Global, known: &Known, words: &mut Words<'_>) -> Result<Line, LineNo>
    ensures { ReadsWordsInto (λ x. x) (file_row known.now) words.old words.new result }
{
    let device = read_drive_id(known, words)?;
    let path = read_new_path(alloc, known, device, words)?;
    let bytes = read_hex(alloc, words)?;
    Ok(Line::File {
        device,
        path,
        bytes,
    })
}

/// How many bytes a `fill` line makes.
#[tactic(auto, unfolding(crate::specs::Rows::fill_length))]
fn read_fill_length(words: &mut Words<'_>) -> Result<u32, LineWhy>
    ensures { ReadsWords (λ x. x) fill_length words.old words.new result }
{
    let length = read_u64(words)?;
    if length > MAX_FILL {
        return Err(LineWhy::Many);
    }
    Ok(length as u32)
}

/// A byte as a number.
fn read_byte(words: &mut Words<'_>) -> Result<u8, LineWhy>
    ensures { ReadsWords (λ x. x) (number_word 0 255) words.old words.new result }
{
    let byte = read_small(words, 0, 255)?;
    Ok(byte as u8)
}

#[tactic(auto, unfolding(crate::specs::Rows::fill_row))]
pub fn read_fill(alloc: Global, known: &Known, words: &mut Words<'_>) -> Result<Line, LineNo>
    ensures { ReadsWordsInto (λ x. x) (fill_row known.now) words.old words.new result }
{
    let device = read_drive_id(known, words)?;
    let path = read_new_path(alloc, known, device, words)?;
    let length = read_fill_length(words)?;
    let byte = read_byte(words)?;
    Ok(Line::Fill {
        device,
        path,
        length,
        byte,
    })
}

/// The name of a printer or a driver.
pub fn read_printer_name(alloc: Global, words: &mut Words<'_>) -> Result<Units, LineNo>
    ensures { ReadsWordsInto (λ x. x) printer_name words.old words.new result }
{
    read_few_units(alloc, words, LineWhy::Name, MAX_PRINTER_NAME)
}

/// The same, behind a pointer.
pub fn read_boxed_name(alloc: Global, words: &mut Words<'_>) -> Result<BoxedUnits, LineNo>
    ensures { ReadsWordsInto (λ x. x) printer_name words.old words.new result }
{
    let name = read_printer_name(alloc, words)?;
    Ok(BoxedUnits::of(alloc, name)?)
}

#[tactic(auto, unfolding(crate::specs::Rows::printer_row))]
pub fn read_printer(alloc: Global, known: &Known, words: &mut Words<'_>) -> Result<Line, LineNo>
    ensures { ReadsWordsInto (λ x. x) (printer_row known.now) words.old words.new result }
{
    let device = read_new_device(known, words)?;
    let name = read_name(words)?;
    let driver = read_boxed_name(alloc, words)?;
    let printer = read_boxed_name(alloc, words)?;
    Ok(Line::Printer {
        device,
        name,
        driver,
        printer,
    })
}
