//! The script of a load: four applications write and read blocks of files of their own.

ghost use Rattle.std.specs.Prelude.{◌≡◌, ◌+◌, ◌*◌, ◌<◌, ◌≤◌, ◌^◌, ◌++◌, ◌∷◌, [], codes, replicate, vec_len, IfOk, OnOk};
ghost use Rattle.rd_script.specs.declared.line.Line.TheVariants as line;
ghost use Rattle.rd_script.specs.Load.{block, block_bytes, blocks, create_line, load_application, load_script, settings, write_and_read, AddsLines};

use crate::inline::{BoxedUnits, ShortName};
use crate::keyword::Mode;
use crate::line::{Line, Lines, NumberedLine};
use crate::script::Script;
use rd_base::{Bytes, Units};
use std::alloc::{AllocError, Global};

/// How many bytes are written and read at a time.
const BLOCK: u32 = 4096;

fn push(lines: &mut Vec<NumberedLine>, line: Line) -> Result<(), AllocError>
    requires { vec_len lines.old + 1 < 2 ^ 32 }
    ensures added { OnOk result (AddsLines lines.old.items lines.new.items (line ∷ [])) }
    ensures length { OnOk result (vec_len lines.new ≡ vec_len lines.old + 1) }
{
    let number = lines.len() as u32 + 1;
    lines.push(NumberedLine { number, line })?;
    Ok(())
}

/// A block, all whose bytes are the same.
fn block_of(alloc: Global, byte: u8) -> Result<Bytes, AllocError>
    ensures { IfOk result (λ bytes. bytes ≡ replicate block byte) }
{
    let bytes = vec![in alloc; byte; BLOCK as usize]?;
    Ok(Bytes::of(bytes))
}

fn write_line(alloc: Global, application: u32, i: u32) -> Result<Line, AllocError>
    requires application { application ≤ 4 }
    requires i { i < 1000 }
    ensures { IfOk result (λ l. l ≡ line.Write application (codes "h") (block * i) (block_bytes application i)) }
{
    let byte = ((application + i) % 256) as u8;
    let bytes = block_of(alloc, byte)?;
    let handle = ShortName::of(b"h");
    let offset = u64::from(BLOCK) * u64::from(i);
    Ok(Line::Write {
        application,
        handle,
        offset,
        bytes,
    })
}

fn read_line(application: u32, i: u32) -> Line
    requires { i < 1000 }
    ensures { result ≡ line.Read application (codes "h") (block * i) block }
{
    let handle = ShortName::of(b"h");
    let offset = u64::from(BLOCK) * u64::from(i);
    Line::Read {
        application,
        handle,
        offset,
        length: BLOCK,
    }
}

/// A block is written and read again.
fn push_block(
    alloc: Global,
    lines: &mut Vec<NumberedLine>,
    application: u32,
    i: u32,
) -> Result<(), AllocError>
    requires few { vec_len lines.old + 2 < 2 ^ 32 }
    requires application { application ≤ 4 }
    requires i { i < 1000 }
    ensures added { OnOk result (AddsLines lines.old.items lines.new.items (write_and_read application i)) }
    ensures length { OnOk result (vec_len lines.new ≡ vec_len lines.old + 2) }
{
    let write = write_line(alloc, application, i)?;
    push(lines, write)?;
    let read = read_line(application, i);
    push(lines, read)?;
    Ok(())
}

/// The path of an application's file.
fn path_of(alloc: Global, application: u32) -> Result<Units, AllocError>
    requires { application ≤ 4 }
    ensures { IfOk result (λ path. path ≡ codes "\\f" ++ (0x30 + application) ∷ []) }
{
    let mut units = Vec::new(alloc);
    units.push(0x5c)?;
    units.push(0x66)?;
    units.push(0x30 + application as u16)?;
    Ok(Units::of(units))
}

/// Its file is made.
fn create_line(alloc: Global, application: u32) -> Result<Line, AllocError>
    requires { application ≤ 4 }
    ensures { IfOk result (λ l. l ≡ create_line application) }
{
    let device = if application % 2 == 1 { 1 } else { 2 };
    let handle = ShortName::of(b"h");
    let path = BoxedUnits::of(alloc, path_of(alloc, application)?)?;
    Ok(Line::Create {
        application,
        handle,
        device,
        path,
        disposition: 2,
        access: 0xc000_0000,
        share: 7,
        options: 0,
        attributes: 0,
    })
}

fn push_blocks(
    alloc: Global,
    lines: &mut Vec<NumberedLine>,
    application: u32,
    count: u32,
) -> Result<(), AllocError>
    requires few { vec_len lines.old < 2 ^ 20 }
    requires application { application ≤ 4 }
    requires count { count ≤ 1000 }
    ensures added { OnOk result (AddsLines lines.old.items lines.new.items (blocks application 0 count)) }
    ensures length { OnOk result (vec_len lines.new ≡ vec_len lines.old + 2 * count) }
{
    for i in 0..count {
        push_block(alloc, lines, application, i)?;
    }
    Ok(())
}

fn push_application(
    alloc: Global,
    lines: &mut Vec<NumberedLine>,
    application: u32,
    count: u32,
) -> Result<(), AllocError>
    requires few { vec_len lines.old + 1 < 2 ^ 20 }
    requires application { application ≤ 4 }
    requires count { count ≤ 1000 }
    ensures added { OnOk result (AddsLines lines.old.items lines.new.items (load_application count application)) }
    ensures length { OnOk result (vec_len lines.new ≡ vec_len lines.old + 2 * count + 2) }
{
    let create = create_line(alloc, application)?;
    push(lines, create)?;
    push_blocks(alloc, lines, application, count)?;
    let handle = ShortName::of(b"h");
    push(
        lines,
        Line::Close {
            application,
            handle,
        },
    )?;
    Ok(())
}

/// The drives and the settings of a load.
fn push_settings(alloc: Global, lines: &mut Vec<NumberedLine>, count: u32) -> Result<(), AllocError>
    requires { vec_len lines.old ≡ 0 }
    ensures added { OnOk result (AddsLines lines.old.items lines.new.items (settings count)) }
    ensures length { OnOk result (vec_len lines.new ≡ 4) }
{
    let name = ShortName::of(b"LOAD");
    push(lines, Line::Drive { device: 1, name })?;
    let name = ShortName::of(b"LOADB");
    push(lines, Line::Drive { device: 2, name })?;
    let number = u64::from(count);
    push(lines, Line::Seed { number })?;
    push(lines, Line::Workers { count: 4 })?;
    Ok(())
}

/// The script of a load of so many blocks in each of four files, on two drives.
pub fn load_script(alloc: Global, number: u32) -> Result<Script, AllocError>
    requires least { 1 ≤ number }
    requires most { number ≤ 1000 }
    ensures { IfOk result (λ script. script ≡ load_script number) }
{
    let mut lines = Vec::new(alloc);
    push_settings(alloc, &mut lines, number)?;
    push_application(alloc, &mut lines, 1, number)?;
    push_application(alloc, &mut lines, 2, number)?;
    push_application(alloc, &mut lines, 3, number)?;
    push_application(alloc, &mut lines, 4, number)?;
    Ok(Script {
        mode: Mode::Both,
        lines: Lines::of(lines),
    })
}
