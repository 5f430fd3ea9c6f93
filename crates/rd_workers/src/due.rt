//! The lines of a script that act at a place of a channel.

ghost use Rattle.std.specs.Prelude.{◌≡◌, ◌∷◌, [], IfNone, IfSome};
ghost use Rattle.rd_workers.specs.Lines.{at_line, at_lines, first_due, is_due_at, lines_from_on, once_acted, waits_first};

use rd_script::{Line, NumberedLine};
use std::marker::Model;

/// What such a line does.
#[derive(Clone, Copy)]
pub enum Act {
    Remove(u32),
    Add(u32),
    Drop,
}

/// A line that acts on the channel of this number, once so many requests were heard there, and what it does.
#[derive(Clone, Copy)]
pub struct AtLine {
    channel: u32,
    requests: u64,
    act: Act,
}

impl AtLine {
    /// Whether it acts on this channel where so many requests were heard.
    fn is_due_at(self, channel: u32, requests: u64) -> bool
        ensures { result ≡ is_due_at channel requests self }
    {
        self.channel == channel && self.requests <= requests
    }
}

/// The lines of a script that act at a place of a channel, which are in the order of their places, but for those that acted and those of channels that are over. Contracts
/// see these.
#[derive(Drop)]
pub(crate) struct Due<'s> {
    lines: &'s [NumberedLine],
}

impl<'s> Model for Due<'s> {
    ghost use Rattle.std.specs.Prelude.{List};
    ghost use Rattle.rd_workers.specs.declared.due.AtLine.{AtLine};
    ghost use Rattle.rd_workers.specs.Lines.{at_lines};

    ghost Value = { List AtLine };

    ghost view = { λ d. at_lines d.lines.now };
}

impl<'s> Due<'s> {
    pub(crate) fn new(lines: &'s [NumberedLine]) -> Self
        ensures { result ≡ at_lines lines.now }
    {
        Due { lines }
    }

    /// Whether a line is left that acts on a channel. Those that act on one before are passed over.
    pub(crate) fn waits(&mut self, channel: u32) -> bool
        ensures waits { result ≡ waits_first channel (lines_from_on channel self.old) }
        ensures left { self.new ≡ lines_from_on channel self.old }
    {
        match self.first(channel) {
            Some((line, _)) => line.channel == channel,
            None => false,
        }
    }

    /// What the next line does that acts on a channel once so many requests were heard there, if it acts by now.
    pub(crate) fn next(&mut self, channel: u32, requests: u64) -> Option<Act>
        ensures due { result ≡ first_due channel requests (lines_from_on channel self.old) }
        ensures left { self.new ≡ once_acted channel requests (lines_from_on channel self.old) }
    {
        let (line, others) = self.first(channel)?;
        if !line.is_due_at(channel, requests) {
            return None;
        }
        self.lines = others;
        Some(line.act)
    }

    /// The first line that acts on no channel before this one, and the lines after it.
    fn first(&mut self, channel: u32) -> Option<(AtLine, &'s [NumberedLine])>
        ensures left { self.new ≡ lines_from_on channel self.old }
        ensures first { IfSome result (λ given. self.new ≡ given.0 ∷ at_lines given.1.now) }
        ensures none { IfNone result (self.new ≡ []) }
    {
        while let [line, others @ ..] = self.lines {
            match at_line(&line.line) {
                Some(line) if line.channel >= channel => return Some((line, others)),
                _ => self.lines = others,
            }
        }
        None
    }
}

/// A line's place and what it does there, if it acts at one.
fn at_line(line: &Line) -> Option<AtLine>
    ensures { result ≡ at_line line.now }
{
    match line {
        Line::AtRemove {
            channel,
            requests,
            device,
        } => Some(AtLine {
            channel: *channel,
            requests: *requests,
            act: Act::Remove(*device),
        }),
        Line::AtAdd {
            channel,
            requests,
            device,
        } => Some(AtLine {
            channel: *channel,
            requests: *requests,
            act: Act::Add(*device),
        }),
        Line::AtDrop { channel, requests } => Some(AtLine {
            channel: *channel,
            requests: *requests,
            act: Act::Drop,
        }),
        _ => None,
    }
}
