//! Why a script can't be read.

ghost use Rattle.std.specs.Prelude.{◌≡◌};

use std::alloc::{AllocError, AllocFailed};
use thiserror::Error;

/// Why a line is outside the grammar: what is wrong with the first of its words that is.
#[derive(Clone, Copy, Debug, PartialEq, Eq, Error)]
pub enum LineWhy {
    /// No such line in this mode: a word is unknown, missing, or one too many.
    #[error("words")]
    Words,
    /// A number is out of its form or its range.
    #[error("number")]
    Number,
    /// A name, a port or a handle is out of its form.
    #[error("name")]
    Name,
    /// A path is out of its form, or nothing can be made there.
    #[error("path")]
    Path,
    /// Bytes are out of their form.
    #[error("hex")]
    Hex,
    /// A device is unknown, or there already, or of another kind.
    #[error("device")]
    Device,
    /// A limit is passed.
    #[error("many")]
    Many,
}

/// Why a script can't be read.
#[derive(Debug, Drop, Error)]
pub enum ScriptNo {
    /// This line, counted from 1, is the first outside the grammar.
    #[error("line {line} {why}")]
    BadLine { line: u32, why: LineWhy },
    #[error("out of memory")]
    Memory,
}

/// Why a line can't be read.
#[derive(Drop)]
pub enum LineNo {
    Why(LineWhy),
    Memory,
}

impl From<LineWhy> for LineNo {
    ghost use Rattle.rd_script.specs.declared.why.LineNo.TheVariants as no;

    ghost from_gives = { λ why e. e ≡ no.Why why };

    fn from(why: LineWhy) -> LineNo {
        LineNo::Why(why)
    }
}

impl From<AllocError> for LineNo {
    ghost use Rattle.rd_script.specs.declared.why.LineNo.TheVariants as no;

    ghost from_gives = { λ _ e. e ≡ no.Memory };

    fn from(_error: AllocError) -> LineNo {
        LineNo::Memory
    }
}

impl From<AllocError> for ScriptNo {
    ghost use Rattle.rd_script.specs.declared.why.ScriptNo.TheVariants as no;

    ghost from_gives = { λ _ e. e ≡ no.Memory };

    fn from(_error: AllocError) -> ScriptNo {
        ScriptNo::Memory
    }
}

impl<T: Drop> From<AllocFailed<T>> for ScriptNo {
    ghost use Rattle.rd_script.specs.declared.why.ScriptNo.TheVariants as no;

    ghost from_gives = { λ _ e. e ≡ no.Memory };

    fn from(_error: AllocFailed<T>) -> ScriptNo {
        ScriptNo::Memory
    }
}
