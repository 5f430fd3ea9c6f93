//! What a `cache` line tells of a printer.

ghost use Rattle.std.specs.Prelude.{◌≡◌, IfOk, IfSome};
ghost use Rattle.rd_declared.specs.Declaring.{IsNotable};
ghost use Rattle.rd_world.specs.Noting.{IsTellable};
ghost use Rattle.rd_world.specs.Run.{notice_of};

use rd_base::Bytes;
use rd_declared::{dos_name, zero_text};
use rd_printer::Notice;
use rd_script::Line;
use std::alloc::{AllocError, Global};

/// The notice of a `cache` line, if the line is one: names with a zero unit after them, and no PnP name.
#[tactic(auto, unfolding(crate::specs::Run::notice_of, rd_declared::specs::Declaring::IsNotable), using(crate::proofs::NotingLemmas::tellable))]
pub fn notice_of(alloc: Global, line: &Line) -> Result<Option<Notice>, AllocError>
    requires { IsNotable line.now }
    ensures notice { IfOk result (λ notice. notice ≡ notice_of line.now) }
    ensures tellable { IfOk result (λ notice. IfSome notice IsTellable) }
{
    match line {
        Line::CacheAdd {
            port,
            driver,
            printer,
            bytes,
        } => Ok(Some(Notice::Add {
            port: dos_name(port),
            pnp: Bytes::of(Vec::new(alloc)),
            driver: zero_text(alloc, &driver.copy()?)?,
            name: zero_text(alloc, &printer.copy()?)?,
            config: bytes.copy()?,
        })),
        Line::CacheUpdate { printer, bytes } => Ok(Some(Notice::Update {
            name: zero_text(alloc, printer)?,
            config: bytes.copy()?,
        })),
        Line::CacheDelete { printer } => Ok(Some(Notice::Delete {
            name: zero_text(alloc, printer)?,
        })),
        Line::CacheRename { old, new } => Ok(Some(Notice::Rename {
            old: zero_text(alloc, old)?,
            new: zero_text(alloc, new)?,
        })),
        _ => Ok(None),
    }
}
