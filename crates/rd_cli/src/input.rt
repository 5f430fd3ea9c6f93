//! Reading the input, and the script that it is.

ghost use Rattle.std.specs.Prelude.{◌≡◌, ◌+◌, ◌≤◌, length, IfOk, IfErr, Ok};
ghost use Rattle.std.specs.Io.KnownBytes.{IsAtEnd};
ghost use Rattle.rd_cli.specs.Outside.{Read, stream};
ghost use Rattle.rd_cli.specs.Reading.{ReadsScript, ReadsText, StopsForInput, StopsForScript, StopsForText};
ghost use Rattle.rd_script.specs.Script.{script_of};

use crate::notes::note_line;
use crate::stop::Stop;
use rd_base::{Sink, Source};
use rd_script::{MAX_BYTES, Mode, Script, ScriptNo, read_script};
use std::alloc::Global;

/// How many bytes one read asks for.
const PIECE: usize = 8192;

/// Reads the script of this mode that the input is. Of the first line that is refused the notes say what is wrong with it.
pub fn input_script<S: Source, N: Sink>(
    alloc: Global,
    mode: Mode,
    input: &mut S,
    notes: &mut N,
) -> Result<Script, Stop>
    ensures script { IfOk result (ReadsScript mode (stream S.left S.faults input.old) (stream S.left S.faults input.new)) }
    ensures err { IfErr result (StopsForScript mode (stream S.left S.faults input.old) (stream S.left S.faults input.new)) }
{
    let (_, script) = input_text(alloc, mode, input, notes)?;
    Ok(script)
}

/// Reads the text that the input is, and the script of this mode that the text is. The notes are those of `input_script`.
pub fn input_text<S: Source, N: Sink>(
    alloc: Global,
    mode: Mode,
    input: &mut S,
    notes: &mut N,
) -> Result<(Vec<u8>, Script), Stop>
    ensures script { IfOk result (λ read. ReadsText mode (stream S.left S.faults input.old) (stream S.left S.faults input.new) (read.0).items read.1) }
    ensures err { IfErr result (StopsForScript mode (stream S.left S.faults input.old) (stream S.left S.faults input.new)) }
{
    let text = read_all(alloc, input, MAX_BYTES)?;
    let script = script_in(alloc, mode, text.as_slice(), notes)?;
    Ok((text, script))
}

/// The script that a text is.
fn script_in<N: Sink>(alloc: Global, mode: Mode, text: &[u8], notes: &mut N) -> Result<Script, Stop>
    ensures script { IfOk result (λ script. script_of mode text.now ≡ Ok script) }
    ensures err { IfErr result (StopsForText mode text.now) }
{
    match read_script(alloc, mode, text) {
        Ok(script) => Ok(script),
        Err(ScriptNo::BadLine { line, why }) => {
            note_line(alloc, notes, mode, text, line);
            Err(Stop::Line { line, why })
        }
        Err(ScriptNo::Memory) => Err(Stop::Memory),
    }
}

/// Reads to the end of the input, or until more than `most` bytes came, which are less than a piece more. The first fault ends it.
pub fn read_all<S: Source>(alloc: Global, input: &mut S, most: usize) -> Result<Vec<u8>, Stop>
    ensures read { IfOk result (λ bytes. Read (stream S.left S.faults input.old) (stream S.left S.faults input.new) bytes.items) }
    ensures bound { IfOk result (λ bytes. length bytes.items ≤ most + 8192) }
    ensures whole { IfOk result (λ bytes. length bytes.items ≤ most → IsAtEnd (S.left input.new)) }
    ensures err { IfErr result (StopsForInput (stream S.left S.faults input.old) (stream S.left S.faults input.new)) }
{
    let mut bytes = Vec::new(alloc);
    let mut piece = [0; PIECE];
    while bytes.len() <= most {
        let Ok(count) = input.read(&mut piece) else {
            return Err(Stop::Input);
        };
        if count == 0 {
            break;
        }
        bytes.extend_from_slice(&piece[..count])?;
    }
    Ok(bytes)
}
