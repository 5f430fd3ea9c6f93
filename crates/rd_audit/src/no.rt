//! Why an audit file can't be judged.

ghost use Rattle.std.specs.Prelude.{◌≡◌};

use rd_audit_file::FieldFault;
use rd_decode::{Fault, FaultWhy};
use rd_recorded::RecordingNo;
use rd_script::{LineWhy, ScriptNo};
use std::alloc::{AllocError, AllocFailed};
use thiserror::Error;

/// Why an audit file can't be judged.
#[derive(Debug, Drop, Error)]
pub enum AuditNo {
    /// This line of the script, counted from 1, is the first outside the grammar.
    #[error("line {line} {why}")]
    Line { line: u32, why: LineWhy },
    /// A field of the file, a line of a journal, or the recording has a fault. Its place is in bytes from the file's first.
    #[error("the audit file has the fault {:?} at {}", .0.why, .0.at)]
    Bad(Fault),
    #[error("out of memory")]
    Memory,
}

impl From<AllocError> for AuditNo {
    ghost use Rattle.rd_audit.specs.declared.no.AuditNo.TheVariants as no;

    ghost from_gives = { λ _ e. e ≡ no.Memory };

    fn from(_error: AllocError) -> AuditNo {
        AuditNo::Memory
    }
}

impl<T: Drop> From<AllocFailed<T>> for AuditNo {
    ghost use Rattle.rd_audit.specs.declared.no.AuditNo.TheVariants as no;

    ghost from_gives = { λ _ e. e ≡ no.Memory };

    fn from(_error: AllocFailed<T>) -> AuditNo {
        AuditNo::Memory
    }
}

impl From<ScriptNo> for AuditNo {
    ghost use Rattle.rd_audit.specs.Refusals.{refused_script};

    ghost from_gives = { λ no e. e ≡ refused_script no };

    fn from(no: ScriptNo) -> AuditNo {
        match no {
            ScriptNo::BadLine { line, why } => AuditNo::Line { line, why },
            ScriptNo::Memory => AuditNo::Memory,
        }
    }
}

impl From<RecordingNo> for AuditNo {
    ghost use Rattle.rd_audit.specs.Refusals.{refused_recording};

    ghost from_gives = { λ no e. e ≡ refused_recording no };

    fn from(no: RecordingNo) -> AuditNo {
        match no {
            RecordingNo::Bad(fault) => AuditNo::Bad(fault),
            RecordingNo::Memory => AuditNo::Memory,
        }
    }
}

impl From<FieldFault> for AuditNo {
    ghost use Rattle.rd_audit.specs.Refusals.{refused_field};

    ghost from_gives = { λ fault e. e ≡ refused_field fault };

    fn from(fault: FieldFault) -> AuditNo {
        AuditNo::Bad(Fault {
            at: fault.at as u64,
            why: FaultWhy::Field(fault.why),
        })
    }
}
