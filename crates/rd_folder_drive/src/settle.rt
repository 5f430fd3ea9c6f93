//! Which of the requests that wait an operation ends (MS-SMB2 2.2.35, MS-FSCC 2.7.1).

ghost use Rattle.std.specs.Prelude.{◌≡◌, ◌<◌, ◌==◌, List, [], false, length, map};
ghost use Rattle.std.specs.Option.{option_map_or};
ghost use Rattle.rd_drive.specs.Answered.{parked_of};
ghost use Rattle.rd_drive.specs.Device.{AreEnded};
ghost use Rattle.rd_drive.specs.DriveState.{Node};
ghost use Rattle.rd_drive.specs.Settling.{is_closed_file};
ghost use Rattle.rd_drive.specs.Store.{waiting_of};
ghost use Rattle.rd_drive.specs.Waiting.{settled};
ghost use Rattle.rd_folder_drive.specs.Served.{is_of_number, news_of, IsHeard};
ghost use Rattle.rd_folder_drive.specs.Settling.{IsBeside, IsHalfway, SettlesAt};
ghost use Rattle.rd_folder_drive.specs.Table.{drive_of, IsSound, IsSoundBut};

use crate::news::{Named, News};
use crate::table::Table;
use rd_drive::settle::close_reply;
use rd_drive::step::success;
use rd_drive::waiting::{Waiting, Wish};
use rd_drive::{End, Ends};
use rd_irp::Body;

/// Whether a file id is the one that was closed.
fn is_closed(news: &News, file: u32) -> bool
    ensures { result ≡ is_closed_file news.now.closed file }
{
    match news.closed {
        Some(closed) => file == closed,
        None => false,
    }
}

/// Whether what is open by a number is the file that may have fewer locks. What is gone is at no number.
fn is_unlocked(news: &News, node: u32) -> bool
    ensures { result ≡ option_map_or (is_of_number node) news.now.unlocked false }
{
    match &news.unlocked {
        Some(Named::Node(other)) => *other == node,
        Some(Named::Gone(_)) | None => false,
    }
}

impl Table {
    /// Ends the requests that wait and that an operation ends, in the order in which they began to wait. It takes no memory.
    pub fn settle(&mut self, news: &News, ends: &mut Ends)
        requires sound { IsSoundBut news.now.closed self.old }
        requires heard { IsHeard self.old news.now }
        requires ends { ends.old ≡ [] }
        ensures sound { IsSound self.new }
        ensures others { IsBeside self.old self.new }
        ensures settled { (nodes : List Node) → settled (drive_of self.old nodes) (news_of self.old news.now) ≡ record { state = drive_of self.new nodes; ends = ends.new } }
        ensures parks { AreEnded (map parked_of (map waiting_of self.old.waiting.items)) ends.new (map parked_of (map waiting_of self.new.waiting.items)) }
    {
        let mut at = 0;
        while at < self.waiting.len() {
            match self.settle_at(at, news) {
                Some(end) => ends.push(end),
                None => at += 1,
            }
        }
    }

    /// Ends the request at a place, if an operation ends it.
    fn settle_at(&mut self, at: usize, news: &News) -> Option<End>
        requires halfway { IsHalfway self.old news.now at }
        requires within { at < length self.old.waiting.items }
        ensures { SettlesAt self.old self.new news.now at result }
    {
        let waiting = &self.waiting[at];
        let key = waiting.key;
        let file = waiting.file;
        if is_closed(news, file) {
            let Waiting { wish, .. } = self.waiting.remove(at);
            let reply = close_reply(&mut self.locks, &wish);
            return Some(End { key, reply });
        }
        let Some(handle) = self.handle(file) else {
            unreachable!()
        };
        let node = handle.node;
        match &self.waiting[at].wish {
            Wish::Ranges { exclusive, ranges } => {
                if !is_unlocked(news, node) {
                    return None;
                }
                match self
                    .locks
                    .lock_reserved(node, file, *exclusive, ranges.as_slice())
                {
                    Ok(()) => {}
                    Err(_) => return None,
                }
                let _ = self.waiting.remove(at);
                Some(End {
                    key,
                    reply: success(Body::Locked),
                })
            }
            Wish::Change { deep, filter, .. } => {
                let (deep, filter) = (*deep, *filter);
                let changes = news.changes.as_slice();
                let Some(change) = self.first_told(node, deep, filter, changes) else {
                    return None;
                };
                let Waiting { wish, .. } = self.waiting.remove(at);
                let Wish::Change { room, .. } = wish else {
                    unreachable!()
                };
                let bytes = self.told(node, change, room);
                Some(End {
                    key,
                    reply: success(Body::Buffer(bytes)),
                })
            }
        }
    }
}
