//! One channel after the other.

ghost use Rattle.std.specs.Prelude.{◌≡◌, ◌<◌, ◌≤◌, ◌||◌, [], false, length, None, IfErr, IfOk, IfSome, OnOk};
ghost use Rattle.rd_workers.specs.Channels.{EndsByCalls, EndsOn, ServesOne, channels_by, channels_of, ended_as, stands_at, told_as};
ghost use Rattle.rd_workers.specs.Faults.{Counts, EndsSession, IsOtherEnd, TellsFaults, is_unread};
ghost use Rattle.rd_workers.specs.Lines.{at_lines};
ghost use Rattle.rd_workers.specs.Logs.{no_halves};
ghost use Rattle.rd_workers.specs.Reading.{IsSame};
ghost use Rattle.rd_declared.specs.Declaring.{AreDeclared};

use crate::due::Due;
use crate::reader::{Ending, Reader};
use rd_carry::{Ended, Incoming, Outgoing};
use rd_folder::Folder;
use rd_front::{FrontCall, FrontReply};
use rd_link::Linker;
use rd_pool::Outside;
use rd_script::{Line, NumberedLine};
use rd_turn::Object;
use rd_world::settings_of;
use std::alloc::Global;
use std::sync::Wait;

/// What a client does, by its script.
#[derive(Clone, Copy)]
pub(crate) struct Plan<'s> {
    pub(crate) lines: &'s [NumberedLine],
    /// How many channels it serves.
    pub(crate) channels: u32,
    pub(crate) workers: u32,
}

/// What these lines make a client do.
pub(crate) fn plan_of<'s>(lines: &'s [NumberedLine]) -> Plan<'s>
    requires { AreDeclared lines.now }
    ensures lines { result.lines.now ≡ lines.now }
    ensures few { result.workers ≤ 16 }
    ensures channels { result.channels ≡ channels_of lines.now }
{
    Plan {
        lines,
        channels: channels_of(lines),
        workers: settings_of(lines).hands,
    }
}

/// How many channels lines are for: as many as the last of them that says it.
fn channels_of(lines: &[NumberedLine]) -> u32
    ensures { result ≡ channels_of lines.now }
{
    let mut channels = 1;
    for line in lines {
        channels = channels_by(channels, &line.line);
    }
    channels
}

/// How many a line says, or as many as before.
fn channels_by(channels: u32, line: &Line) -> u32
    ensures { result ≡ channels_by channels line.now }
{
    match line {
        Line::Channels { count } => *count,
        _ => channels,
    }
}

/// Serves one channel after the other, with this buffer for what is read.
pub(crate) fn serve_channels<
    's,
    'w,
    'f,
    'g,
    'a,
    F: Object<Call = FrontCall, Reply = FrontReply>,
    T: Wait,
    L: Linker,
    X: Outside,
    M: Folder + Drop,
>(
    alloc: Global,
    plan: Plan<'_>,
    linker: &mut L,
    reader: &mut Reader<'s, 'w, 'f, 'g, 'a, F, T, L::Out, X, M>,
    buffer: Vec<u8>,
) -> Ended
    requires room { 0 < length buffer.items }
    requires own { reader.old.own ≡ [] }
    requires written { reader.old.written ≡ no_halves }
    ensures same { IsSame reader.old reader.new }
    ensures ends { EndsByCalls (at_lines plan.entry.lines.now) plan.entry.channels result reader.new.own reader.new.written.done (told_as (L.linked linker.old) (L.failures linker.old)) (told_as (L.linked linker.new) (L.failures linker.new)) }
    ensures faults { TellsFaults result (L.failures linker.old) (L.failures linker.new) (L.trouble linker.old) (L.trouble linker.new) }
{
    let mut due = Due::new(plan.lines);
    let mut buffer = buffer;
    let mut troubled = false;
    let mut channel = 0;
    while channel < plan.channels {
        channel += 1;
        match serve_channel(alloc, channel, linker, reader, &mut due, buffer) {
            Ok((back, fault)) => {
                buffer = back;
                troubled |= fault;
            }
            Err(ended) => return ended,
        }
    }
    if troubled { Ended::Link } else { Ended::Over }
}

/// Serves the next channel. Gives the buffer back, and whether a read or a write failed; or what ends the session.
fn serve_channel<
    's,
    'w,
    'f,
    'g,
    'a,
    F: Object<Call = FrontCall, Reply = FrontReply>,
    T: Wait,
    L: Linker,
    X: Outside,
    M: Folder + Drop,
>(
    alloc: Global,
    channel: u32,
    linker: &mut L,
    reader: &mut Reader<'s, 'w, 'f, 'g, 'a, F, T, L::Out, X, M>,
    due: &mut Due<'_>,
    buffer: Vec<u8>,
) -> Result<(Vec<u8>, bool), Ended>
    requires { 0 < length buffer.items }
    ensures same { IsSame reader.old reader.new }
    ensures served { OnOk result (ServesOne channel None (stands_at reader.old due.old (told_as (L.linked linker.old) (L.failures linker.old))) (stands_at reader.new due.new (told_as (L.linked linker.new) (L.failures linker.new)))) }
    ensures ends { IfErr result (λ ended. EndsOn channel ended (stands_at reader.old due.old (told_as (L.linked linker.old) (L.failures linker.old))) (stands_at reader.new due.new (told_as (L.linked linker.new) (L.failures linker.new)))) }
    ensures room { IfOk result (λ given. 0 < length given.0.items) }
    ensures connected { OnOk result (L.failures linker.new ≡ L.failures linker.old) }
    ensures counted { IfOk result (λ given. Counts given.1 (L.trouble linker.old) (L.trouble linker.new)) }
    ensures ended { IfErr result (λ ended. EndsSession ended (L.failures linker.old) (L.failures linker.new)) }
{
    let Ok((input, output)) = linker.connect() else {
        return Err(Ended::Link);
    };
    if let Err(output) = reader.begin(channel, Outgoing::new(output, Vec::new(alloc))) {
        let (output, _frames) = output.into_parts();
        linker.settle(input, output);
        return Err(Ended::Memory);
    }
    let mut incoming = Incoming::new(alloc, input, buffer);
    let ending = reader.read(channel, due, &mut incoming);
    let (output, starved) = reader.end();
    let Some(output) = output else {
        return Err(Ended::Memory);
    };
    let failed = output.failed();
    let (input, buffer) = incoming.into_parts();
    let (output, _frames) = output.into_parts();
    linker.settle(input, output);
    match ended_by(channel, ending, starved) {
        Some(ended) => Err(ended),
        None => Ok((buffer, is_troubled(failed, ending))),
    }
}

/// Whether a write failed, or a read.
fn is_troubled(failed: bool, ending: Ending) -> bool
    ensures { result ≡ failed || is_unread ending }
{
    failed || matches!(ending, Ending::Unread)
}

/// What ends the session, where a channel's end does.
fn ended_by(channel: u32, ending: Ending, starved: bool) -> Option<Ended>
    ensures by { result ≡ ended_as channel ending starved }
    ensures other { IfSome result IsOtherEnd }
{
    if starved {
        return Some(Ended::Memory);
    }
    match ending {
        Ending::Fault { at, message, why } => Some(Ended::Channel {
            channel,
            at,
            message,
            why,
        }),
        Ending::Long => Some(Ended::Long),
        Ending::Memory => Some(Ended::Memory),
        _ => None,
    }
}
