//! Scripts whose lines nobody carries out, on real threads. Want of memory never comes, as no test takes the memory away.

ghost use Rattle.rd_world.specs.Applications.{AreNumbered};

use crate::session::over_table;
use rd_issuer::Issuer;
use rd_script::{Mode, NumberedLine, Outcome, Script, read_script};
use rd_world::Applications;
use std::alloc::{AllocError, Global};
use std::collections::BTreeMap;
use std::process::Abort;

/// Two applications, of which the one has two lines; a drop, at which nothing is open, and a connect.
const TEXT: &[u8] = b"1 open h 1 \\a\n2 open g 1 \\b\ndrop\n1 close h\nconnect\n2 close g\n";

/// The script of a host that a text is.
fn script_in(rt: &impl Abort, alloc: Global, text: &[u8]) -> Script
    ensures { AreNumbered result.lines }
{
    read_script(alloc, Mode::Host, text).expect(rt, "a script")
}

/// The applications of a script.
fn issuers_of<'s>(alloc: Global, lines: &'s [NumberedLine]) -> Result<Vec<Issuer<'s>>, AllocError>
    requires { AreNumbered lines.now }
{
    let mut issuers = Vec::new(alloc);
    for (number, application) in Applications::new(alloc, lines)?.finish() {
        issuers.push(Issuer {
            number,
            application,
        })?;
    }
    Ok(issuers)
}

/// Each line with whether its request was refused.
fn refusals(
    alloc: Global,
    told: BTreeMap<(u32, u32), Outcome>,
) -> Result<Vec<(u32, u32, bool)>, AllocError> {
    let mut refusals = Vec::new(alloc);
    for ((application, line), outcome) in told {
        let refused = matches!(outcome, Outcome::Refused(_));
        refusals.push((application, line, refused))?;
    }
    Ok(refusals)
}

/// Where no channel can be had each line is issued, and refused.
#[test]
fn lines_are_played_out_without_a_channel(rt: HostRuntime) {
    let alloc = rt.alloc();
    let script = script_in(&rt, alloc, TEXT);
    let lines = script.lines.as_slice();
    let issuers = issuers_of(alloc, lines).expect(&rt, "memory for two");
    let told = over_table(&rt, alloc, lines, issuers, false).expect(&rt, "what came of them");
    let refusals = refusals(alloc, told).expect(&rt, "memory for four");
    let all = [(1, 1, true), (1, 2, true), (2, 1, true), (2, 2, true)];
    assert_eq!(&rt; refusals.as_slice(), all.as_slice());
}

/// On a channel that is over at once it waits for no device, a line that ends it or begins one more is acted as ever, and each application's line is refused.
#[test]
fn lines_are_played_on_a_channel_that_is_over(rt: HostRuntime) {
    let alloc = rt.alloc();
    let script = script_in(&rt, alloc, b"devices 2\n1 open h 1 \\a\ndrop\n1 close h\n");
    let lines = script.lines.as_slice();
    let issuers = issuers_of(alloc, lines).expect(&rt, "memory for one");
    let told = over_table(&rt, alloc, lines, issuers, true).expect(&rt, "what came of them");
    let refusals = refusals(alloc, told).expect(&rt, "memory for two");
    assert_eq!(&rt;
        refusals.as_slice(),
        [(1, 1, true), (1, 2, true)].as_slice()
    );
}
