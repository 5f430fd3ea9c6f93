//! The outcomes of the worked session, made by a program: so there are such.

ghost use Rattle.std.specs.Prelude.{◌≡◌, IfOk};
ghost use Rattle.rd_script.specs.declared.outcome.Outcome.TheVariants.{Done};
ghost use Rattle.rd_world.specs.Found.{AreFound, gives_file};

use rd_base::{Cause, Status};
use rd_irp::{Body, Reply};
use rd_script::{Outcome, Outcomes};
use std::alloc::{AllocError, Global};

/// The outcomes of the worked session: two lines open a file, and a read is lost by the channel's end, another by the device's removal. `Err` where no
/// memory is found.
pub fn found_told(alloc: Global) -> Result<Outcomes, AllocError>
    ensures told { IfOk result AreFound }
{
    let mut told = Outcomes::new(alloc);
    told.lines.insert((1, 1), opened(1))?;
    told.lines.insert((1, 2), Outcome::Lost(Cause::Dropped))?;
    told.lines.insert((1, 3), opened(2))?;
    told.lines.insert((1, 4), Outcome::Lost(Cause::Removed))?;
    Ok(told)
}

/// A line that opened this file.
fn opened(file: u32) -> Outcome
    ensures { result ≡ Done (gives_file file) }
{
    Outcome::Done(Reply {
        status: Status(0),
        body: Body::Created {
            file,
            information: 1,
        },
    })
}
