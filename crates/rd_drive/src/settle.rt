//! Which of the requests that wait an operation ends (MS-SMB2 2.2.35, MS-FSCC 2.7.1).

ghost use Rattle.std.specs.Prelude.{◌≡◌, ◌-◌, ◌<◌, ◌≤◌, ◌==◌, [], false, length};
ghost use Rattle.std.specs.Option.{option_map_or};
ghost use Rattle.rd_drive.specs.Settling.{is_closed_file, IsHalfway, SettlesAt};
ghost use Rattle.rd_drive.specs.Store.{drive_of, news_of, wish_ranges, wish_of, IsHeard, IsSound, IsSoundBut};
ghost use Rattle.rd_drive.specs.Waiting.{closing_reply, settled};

use crate::ends::Ends;
use crate::news::News;
use crate::status;
use crate::step::{End, fault, success};
use crate::store::Store;
use crate::telling::{first_told, told};
use crate::waiting::{Waiting, Wish};
use rd_irp::{Body, Range, Reply};
use rd_locks::Locks;
use rd_tree::NodeId;

/// Whether a file id is the one that was closed.
fn is_closed(news: &News, file: u32) -> bool
    ensures { result ≡ is_closed_file news.now.closed file }
{
    match news.closed {
        Some(closed) => file == closed,
        None => false,
    }
}

/// Whether a file is the one that may have fewer locks.
fn is_unlocked(news: &News, node: NodeId) -> bool
    ensures { result ≡ option_map_or (λ other. other.0 == node.0) news.now.unlocked false }
{
    match news.unlocked {
        Some(other) => other.0 == node.0,
        None => false,
    }
}

/// Gives the places back that were reserved for ranges.
pub fn give_back(locks: &mut Locks, ranges: &[Range])
    requires { length ranges.now ≤ locks.old.reserved }
    ensures { locks.new ≡ record locks.old { reserved = locks.old.reserved - length ranges.now } }
{
    for _ in ranges {
        locks.give_back(1);
    }
}

/// What a request that waits is answered where its handle was closed; its places are given back.
pub fn close_reply(locks: &mut Locks, wish: &Wish) -> Reply
    requires { wish_ranges wish.now ≤ locks.old.reserved }
    ensures locks { locks.new ≡ record locks.old { reserved = locks.old.reserved - wish_ranges wish.now } }
    ensures reply { result ≡ closing_reply (wish_of wish.now) }
{
    match wish {
        Wish::Ranges { ranges, .. } => {
            give_back(locks, ranges.as_slice());
            fault(status::LOCK_NOT_GRANTED)
        }
        Wish::Change { .. } => fault(status::NOTIFY_CLEANUP),
    }
}

impl Store {
    /// Ends the requests that wait and that an operation ends, in the order in which they began to wait. It takes no memory.
    pub fn settle(&mut self, news: &News, ends: &mut Ends)
        requires sound { IsSoundBut news.now.closed self.old }
        requires heard { IsHeard self.old.tree news.now }
        requires ends { ends.old ≡ [] }
        ensures sound { IsSound self.new }
        ensures settled { settled (drive_of self.old) (news_of self.old.tree news.now) ≡ record { state = drive_of self.new; ends = ends.new } }
    {
        let mut at = 0;
        while at < self.waiting.len() {
            match self.settle_at(at, news) {
                Some(end) => ends.push(end),
                None => at += 1,
            }
        }
    }

    /// Ends the request at a place, if an operation ends it.
    fn settle_at(&mut self, at: usize, news: &News) -> Option<End>
        requires halfway { IsHalfway self.old news.now at }
        requires within { at < length self.old.waiting.items }
        ensures { SettlesAt self.old self.new news.now at result }
    {
        let waiting = &self.waiting[at];
        let key = waiting.key;
        let file = waiting.file;
        if is_closed(news, file) {
            let Waiting { wish, .. } = self.waiting.remove(at);
            let reply = close_reply(&mut self.locks, &wish);
            return Some(End { key, reply });
        }
        let Some(handle) = self.handle(file) else {
            unreachable!()
        };
        let node = handle.node;
        match &self.waiting[at].wish {
            Wish::Ranges { exclusive, ranges } => {
                if !is_unlocked(news, node) {
                    return None;
                }
                match self
                    .locks
                    .lock_reserved(node.0, file, *exclusive, ranges.as_slice())
                {
                    Ok(()) => {}
                    Err(_) => return None,
                }
                let _ = self.waiting.remove(at);
                Some(End {
                    key,
                    reply: success(Body::Locked),
                })
            }
            Wish::Change { deep, filter, .. } => {
                let changes = news.changes.as_slice();
                let Some(change) = first_told(&self.tree, node, *deep, *filter, changes) else {
                    return None;
                };
                let Waiting { wish, .. } = self.waiting.remove(at);
                let Wish::Change { room, .. } = wish else {
                    unreachable!()
                };
                let bytes = told(&self.tree, node, change, room);
                Some(End {
                    key,
                    reply: success(Body::Buffer(bytes)),
                })
            }
        }
    }
}
