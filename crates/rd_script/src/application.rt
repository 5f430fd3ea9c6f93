//! The lines of applications, behind their handles.

ghost use Rattle.rd_script.specs.Row.{ReadsWordsInto};
ghost use Rattle.rd_script.specs.Rows.{buffer_word, control_row, create_numbers, create_row, dir_row, lock_row, notify_row, open_row, path_word, query_row, read_row, set_row, setvolume_row, verb_row, volume_row, write_row};

use crate::devices::read_device;
use crate::inline::{BoxedUnits, ShortName};
use crate::keyword::Verb;
use crate::known::Known;
use crate::line::Line;
use crate::numbers::{read_flag, read_u32, read_u64};
use crate::texts::{read_few_bytes, read_few_ranges, read_few_units};
use crate::why::{LineNo, LineWhy};
use crate::words::Words;
use rd_base::{Bytes, Units};
use rd_irp::{MAX_BUFFER, MAX_PATH, MAX_RANGES};
use std::alloc::Global;

/// A path that a request can carry.
fn read_path(alloc: Global, words: &mut Words<'_>) -> Result<Units, LineNo>
    ensures { ReadsWordsInto (λ x. x) path_word words.old words.new result }
{
    read_few_units(alloc, words, LineWhy::Path, MAX_PATH)
}

/// Bytes that a request can carry.
fn read_buffer(alloc: Global, words: &mut Words<'_>) -> Result<Bytes, LineNo>
    ensures { ReadsWordsInto (λ x. x) buffer_word words.old words.new result }
{
    read_few_bytes(alloc, words, MAX_BUFFER)
}

#[tactic(auto, unfolding(crate::specs::Rows::open_row))]
fn read_open(
    alloc: Global,
    known: &Known,
    application: u32,
    handle: ShortName,
    words: &mut Words<'_>,
) -> Result<Line, LineNo>
    ensures { ReadsWordsInto (λ x. x) (open_row known.now application handle) words.old words.new result }
{
    let device = read_device(known, words)?;
    let path = read_path(alloc, words)?;
    Ok(Line::Open {
        application,
        handle,
        device,
        path,
    })
}

#[tactic(auto, unfolding(crate::specs::Rows::create_row))]
fn read_create(
    alloc: Global,
    known: &Known,
    application: u32,
    handle: ShortName,
    words: &mut Words<'_>,
) -> Result<Line, LineNo>
    ensures { ReadsWordsInto (λ x. x) (create_row known.now application handle) words.old words.new result }
{
    let device = read_device(known, words)?;
    let path = BoxedUnits::of(alloc, read_path(alloc, words)?)?;
    read_create_numbers(application, handle, device, path, words)
}

/// The numbers of a `create` line.
#[tactic(auto, unfolding(crate::specs::Rows::create_numbers))]
fn read_create_numbers(
    application: u32,
    handle: ShortName,
    device: u32,
    path: BoxedUnits,
    words: &mut Words<'_>,
) -> Result<Line, LineNo>
    ensures { ReadsWordsInto (λ x. x) (create_numbers application handle device path) words.old words.new result }
{
    let disposition = read_u32(words)?;
    let access = read_u32(words)?;
    let share = read_u32(words)?;
    let options = read_u32(words)?;
    let attributes = read_u32(words)?;
    Ok(Line::Create {
        application,
        handle,
        device,
        path,
        disposition,
        access,
        share,
        options,
        attributes,
    })
}

#[tactic(auto, unfolding(crate::specs::Rows::read_row))]
fn read_read(application: u32, handle: ShortName, words: &mut Words<'_>) -> Result<Line, LineNo>
    ensures { ReadsWordsInto (λ x. x) (read_row application handle) words.old words.new result }
{
    let offset = read_u64(words)?;
    let length = read_u32(words)?;
    Ok(Line::Read {
        application,
        handle,
        offset,
        length,
    })
}

#[tactic(auto, unfolding(crate::specs::Rows::write_row))]
fn read_write(
    alloc: Global,
    application: u32,
    handle: ShortName,
    words: &mut Words<'_>,
) -> Result<Line, LineNo>
    ensures { ReadsWordsInto (λ x. x) (write_row application handle) words.old words.new result }
{
    let offset = read_u64(words)?;
    let bytes = read_buffer(alloc, words)?;
    Ok(Line::Write {
        application,
        handle,
        offset,
        bytes,
    })
}

#[tactic(auto, unfolding(crate::specs::Rows::query_row))]
fn read_query(application: u32, handle: ShortName, words: &mut Words<'_>) -> Result<Line, LineNo>
    ensures { ReadsWordsInto (λ x. x) (query_row application handle) words.old words.new result }
{
    let class = read_u32(words)?;
    Ok(Line::Query {
        application,
        handle,
        class,
    })
}

#[tactic(auto, unfolding(crate::specs::Rows::set_row))]
fn read_set(
    alloc: Global,
    application: u32,
    handle: ShortName,
    words: &mut Words<'_>,
) -> Result<Line, LineNo>
    ensures { ReadsWordsInto (λ x. x) (set_row application handle) words.old words.new result }
{
    let class = read_u32(words)?;
    let bytes = read_buffer(alloc, words)?;
    Ok(Line::Set {
        application,
        handle,
        class,
        bytes,
    })
}

#[tactic(auto, unfolding(crate::specs::Rows::volume_row))]
fn read_volume(application: u32, handle: ShortName, words: &mut Words<'_>) -> Result<Line, LineNo>
    ensures { ReadsWordsInto (λ x. x) (volume_row application handle) words.old words.new result }
{
    let class = read_u32(words)?;
    Ok(Line::Volume {
        application,
        handle,
        class,
    })
}

#[tactic(auto, unfolding(crate::specs::Rows::setvolume_row))]
fn read_setvolume(
    alloc: Global,
    application: u32,
    handle: ShortName,
    words: &mut Words<'_>,
) -> Result<Line, LineNo>
    ensures { ReadsWordsInto (λ x. x) (setvolume_row application handle) words.old words.new result }
{
    let class = read_u32(words)?;
    let bytes = read_buffer(alloc, words)?;
    Ok(Line::SetVolume {
        application,
        handle,
        class,
        bytes,
    })
}

#[tactic(auto, unfolding(crate::specs::Rows::dir_row))]
fn read_dir(
    alloc: Global,
    application: u32,
    handle: ShortName,
    words: &mut Words<'_>,
) -> Result<Line, LineNo>
    ensures { ReadsWordsInto (λ x. x) (dir_row application handle) words.old words.new result }
{
    let class = read_u32(words)?;
    let initial = read_flag(words)?;
    let path = read_path(alloc, words)?;
    Ok(Line::Dir {
        application,
        handle,
        class,
        initial,
        path,
    })
}

#[tactic(auto, unfolding(crate::specs::Rows::lock_row))]
fn read_lock(
    alloc: Global,
    application: u32,
    handle: ShortName,
    words: &mut Words<'_>,
) -> Result<Line, LineNo>
    ensures { ReadsWordsInto (λ x. x) (lock_row application handle) words.old words.new result }
{
    let operation = read_u32(words)?;
    let wait = read_flag(words)?;
    let ranges = read_few_ranges(alloc, words, MAX_RANGES as usize)?;
    Ok(Line::Lock {
        application,
        handle,
        operation,
        wait,
        ranges,
    })
}

#[tactic(auto, unfolding(crate::specs::Rows::control_row))]
fn read_control(
    alloc: Global,
    application: u32,
    handle: ShortName,
    words: &mut Words<'_>,
) -> Result<Line, LineNo>
    ensures { ReadsWordsInto (λ x. x) (control_row application handle) words.old words.new result }
{
    let code = read_u32(words)?;
    let output = read_u32(words)?;
    let bytes = read_buffer(alloc, words)?;
    Ok(Line::Control {
        application,
        handle,
        code,
        output,
        bytes,
    })
}

#[tactic(auto, unfolding(crate::specs::Rows::notify_row))]
fn read_notify(application: u32, handle: ShortName, words: &mut Words<'_>) -> Result<Line, LineNo>
    ensures { ReadsWordsInto (λ x. x) (notify_row application handle) words.old words.new result }
{
    let tree = read_flag(words)?;
    let filter = read_u32(words)?;
    Ok(Line::Notify {
        application,
        handle,
        tree,
        filter,
    })
}

/// What is left of an application's line, by its verb.
#[tactic(auto, unfolding(crate::specs::Rows::verb_row))]
pub fn read_verb_row(
    alloc: Global,
    known: &Known,
    application: u32,
    handle: ShortName,
    verb: Verb,
    words: &mut Words<'_>,
) -> Result<Line, LineNo>
    ensures { ReadsWordsInto (λ x. x) (verb_row known.now application handle verb) words.old words.new result }
{
    match verb {
        Verb::Open => read_open(alloc, known, application, handle, words),
        Verb::Create => read_create(alloc, known, application, handle, words),
        Verb::Close => Ok(Line::Close {
            application,
            handle,
        }),
        Verb::Read => read_read(application, handle, words),
        Verb::Write => read_write(alloc, application, handle, words),
        Verb::Query => read_query(application, handle, words),
        Verb::Set => read_set(alloc, application, handle, words),
        Verb::Volume => read_volume(application, handle, words),
        Verb::SetVolume => read_setvolume(alloc, application, handle, words),
        Verb::Dir => read_dir(alloc, application, handle, words),
        Verb::Lock => read_lock(alloc, application, handle, words),
        Verb::Control => read_control(alloc, application, handle, words),
        Verb::Notify => read_notify(application, handle, words),
    }
}
