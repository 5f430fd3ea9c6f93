//! A host's session: its table, its front and its applications, and one channel after the other.

ghost use Rattle.std.specs.Prelude.{◌≡◌, IfOk};
ghost use Rattle.rd_host_front.specs.State.{IsFirstOf};
ghost use Rattle.rd_script.specs.Report.{AreCountable};
ghost use Rattle.rd_turn.specs.Pass.{first_pass};
ghost use Rattle.rd_world.specs.Applications.{AreNumbered};
ghost use Rattle.rd_host_session.specs.Channels.{TellsCounts, linked_told};
ghost use Rattle.rd_host_session.specs.Hosted.{HasHosted, Hosts, PlaysOver, hosted_end, issuers_of};

use crate::channels::serve_all;
use rd_carry::Ended;
use rd_host::HostCore;
use rd_host_front::{HostFront, TableTurn};
use rd_host_player::{Player, awaited_devices, tell_all};
use rd_issuer::Issuer;
use rd_link::Linker;
use rd_script::{NumberedLine, Outcome, Script};
use rd_sleepers::Sleepers;
use rd_table::Table;
use rd_turn::{Caller, Pass, Turn};
use rd_world::Applications;
use std::alloc::{AllocError, Global};
use std::collections::BTreeMap;
use std::marker::Brand;
use std::sync::Wait;
use std::thread;
use std::thread::Threads;

/// The number by which the host names its client (MS-RDPEFS 2.2.2.2).
const CLIENT_ID: u32 = 1;

/// Plays the application lines of a script on the channels of a linker, which it takes one after the other as the script says. Gives what came of each line, by its application and its place among the lines of that,
/// and how the session ended. Where memory ran out, or a thread of a channel can't be started, nothing is told of the lines.
pub fn serve_host<R: Threads + Wait + Sync, L: Linker>(
    rt: &R,
    alloc: Global,
    script: &Script,
    linker: &mut L,
) -> (Ended, BTreeMap<(u32, u32), Outcome>)
    requires { AreNumbered script.now.lines }
    ensures hosted { HasHosted script.now.lines result.0 result.1.entries (linked_told (L.linked linker.old) (L.failures linker.old)) (linked_told (L.linked linker.new) (L.failures linker.new)) }
    ensures countable { AreCountable result.1.entries }
    ensures counts { TellsCounts result.0 (L.failures linker.old) (L.failures linker.new) (L.trouble linker.old) (L.trouble linker.new) }
{
    let failures = linker.count_failures();
    let trouble = linker.count_trouble();
    match serve(rt, alloc, script.lines.as_slice(), linker) {
        Ok((other, told)) => {
            let rose = linker.count_failures() != failures || linker.count_trouble() != trouble;
            (hosted_end(other, rose), told)
        }
        Err(_) => (Ended::Memory, BTreeMap::new(alloc)),
    }
}

/// How a session ended: as a channel's end has it, or else with the script's end, unless a count of the linker rose.
fn hosted_end(other: Option<Ended>, rose: bool) -> Ended
    ensures { result ≡ hosted_end other rose }
{
    match other {
        Some(ended) => ended,
        None => { if rose { Ended::Link } else { Ended::Over } }
    }
}

/// Plays the lines. Gives what ended the session, but for the script's end and the linker, and what came of each line.
fn serve<R: Threads + Wait + Sync, L: Linker>(
    rt: &R,
    alloc: Global,
    lines: &[NumberedLine],
    linker: &mut L,
) -> Result<(Option<Ended>, BTreeMap<(u32, u32), Outcome>), AllocError>
    requires { AreNumbered lines.now }
    ensures hosted { IfOk result (λ r. Hosts lines.now r.0 r.1.entries (linked_told (L.linked linker.old) (L.failures linker.old)) (linked_told (L.linked linker.new) (L.failures linker.new))) }
    ensures countable { IfOk result (λ r. AreCountable r.1.entries) }
{
    if !makes_threads(rt) {
        return Err(AllocError);
    }
    let issuers = issuers_of(alloc, lines)?;
    let sleepers = Sleepers::new(alloc)?;
    let Ok((turn, pass)) = Turn::new(alloc, Table::new(alloc)?) else {
        return Err(AllocError);
    };
    let (other, pass, issuers) = serve_over::<Brand, R, L>(
        rt, alloc, lines, linker, &turn, pass, &sleepers, issuers,
    )?;
    if pass.out() != 0 {
        return Err(AllocError);
    }
    turn.close(pass);
    Ok((other, tell_all(alloc, issuers)?))
}

/// Whether a thread can be made.
fn makes_threads<R: Threads>(rt: &R) -> bool {
    match thread::spawn(rt, || ()) {
        Ok(handle) => {
            handle.join(rt);
            true
        }
        Err(_) => false,
    }
}

/// The applications of a script, to none of whose lines it has come.
fn issuers_of<'s>(alloc: Global, lines: &'s [NumberedLine]) -> Result<Vec<Issuer<'s>>, AllocError>
    requires { AreNumbered lines.now }
    ensures { IfOk result (λ issuers. issuers.items ≡ issuers_of lines.now) }
{
    let mut issuers = Vec::new(alloc);
    for (number, application) in Applications::new(alloc, lines)?.finish() {
        issuers.push(Issuer {
            number,
            application,
        })?;
    }
    Ok(issuers)
}

/// Plays the lines over the turn of the table, which `W` names. Its pass 0 comes home.
fn serve_over<'x, 's, W: TableTurn + Send, R: Threads + Wait + Sync, L: Linker>(
    rt: &'x R,
    alloc: Global,
    lines: &'s [NumberedLine],
    linker: &mut L,
    turn: &'x Turn<Table>,
    mut pass: Pass<Table>,
    sleepers: &'x Sleepers,
    issuers: Vec<Issuer<'s>>,
) -> Result<(Option<Ended>, Pass<Table>, Vec<Issuer<'s>>), AllocError>
    requires turn { turn.now ≡ W.turn }
    requires first { pass ≡ first_pass turn.now }
    requires issuers { issuers.items ≡ issuers_of lines.now }
    ensures first { IfOk result (λ r. IsFirstOf W.turn r.1) }
    ensures plays { IfOk result (λ r. PlaysOver W W.turn lines.now r.0 r.2.items pass r.1 (linked_told (L.linked linker.old) (L.failures linker.old)) (linked_told (L.linked linker.new) (L.failures linker.new))) }
{
    let own = turn.split(&mut pass);
    let core = HostCore::new(alloc, CLIENT_ID);
    let Ok((front, caller)) = Turn::new(alloc, HostFront::<W, R>::new(rt, core, turn, own)) else {
        return Err(AllocError);
    };
    let player = Player::new(
        rt,
        alloc,
        turn,
        sleepers,
        Caller::new(&front, caller),
        pass,
        lines,
        issuers,
    );
    let (other, player) = serve_all(alloc, awaited_devices(lines), linker, player)?;
    let (caller, mut pass, _, issuers) = player.into_parts();
    let caller = caller.into_pass();
    if caller.out() != 0 {
        return Err(AllocError);
    }
    let own = front.close(caller).into_pass();
    turn.join(&mut pass, own);
    Ok((other, pass, issuers))
}
