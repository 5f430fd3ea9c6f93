//! The jobs that a station holds, by how far they got.

ghost use Rattle.std.specs.Prelude.{◌≡◌, ◌≢◌, ℕ, ◌+◌, ◌*◌, ◌<◌, ◌≤◌, ◌↔◌, List, [], ◌∷◌, ◌++◌, Some, None, IsTrue, if◌then◌else◌, slice_get, OnOk, IfOk, IfErr, IfSome, IfNone, find, length, map};
ghost use Rattle.std.specs.Map.{lookup};
ghost use Rattle.std.specs.Ordering.{nat_cmp};
ghost use Rattle.std.specs.Option.{option_to_list};
ghost use Rattle.std.specs.VecDeque.{deque_capacity, deque_len};
ghost use Rattle.std.specs.BTreeMap.{is_at};
ghost use Rattle.rd_base.specs.declared.journal.Item.TheVariants as Item;
ghost use Rattle.rd_station.specs.Queues.{AreRising, by_first, in_hand, job_count, no_jobs, owed_count, settled_jobs};
ghost use Rattle.rd_drive.specs.Replies.{cancellation};
ghost use Rattle.rd_station.specs.Station.{completion_of, cancelled_parked, cancelled_waiting, is_key, marked_removed, without_taken};

use crate::answers::Completion;
use rd_base::{Item, Journal, Key, Status};
use rd_drive::{End, Ends, Job};
use rd_irp::{Body, Kind, Reply, kind_of};
use std::alloc::{AllocError, Global};
use std::collections::{BTreeMap, VecDeque};
use std::marker::Model;

/// The most jobs that a station holds.
pub const MAX_HELD: usize = 128;

/// The status of a request that was given up (MS-ERREF 2.3.1, STATUS_CANCELLED).
const CANCELLED: Status = Status(0xc000_0120);

/// A job in a hand.
#[derive(Clone, Copy, Debug)]
pub struct InHand {
    pub key: Key,
    pub completion: u32,
    /// Whether the device was removed since the job came.
    pub removed: bool,
}

/// A job whose request waits inside the device.
#[derive(Clone, Copy, Debug)]
pub struct ParkedJob {
    pub key: Key,
    pub completion: u32,
    pub kind: Kind,
}

/// The jobs that a station holds, with room for as many as it ever does.
#[derive(Drop)]
pub struct Held {
    /// What no hand took yet, in the order in which it came.
    waiting: VecDeque<Job>,
    /// What is in hands, in the order in which it was taken, which is that of its keys.
    taken: Vec<InHand>,
    /// What waits inside the device, in the order in which it began to wait.
    parked: VecDeque<ParkedJob>,
    /// What can be handed out, in the order in which it became so.
    ready: VecDeque<Completion>,
    /// The key of each of these by its completion id.
    keys: BTreeMap<u32, Key>,
}

impl Model for Held {
    ghost use Rattle.std.specs.Prelude.{◌+◌, ◌≤◌, length, vec_capacity};
    ghost use Rattle.std.specs.VecDeque.{deque_capacity};
    ghost use Rattle.rd_station.specs.Queues.{Queues};

    ghost Value = { Queues };

    ghost view = { λ h. record { waiting = h.waiting.items; taken = h.taken.items; parked = h.parked.items; ready = h.ready.items; keys = h.keys.entries } };

    ghost invariant = { λ h. (length h.waiting.items + length h.taken.items + length h.parked.items + length h.ready.items ≤ 128)
        × (128 ≤ deque_capacity h.waiting) × (128 ≤ vec_capacity h.taken) × (128 ≤ deque_capacity h.parked) × (128 ≤ deque_capacity h.ready) };
}

impl Held {
    /// Nothing is held. The room for all that will be is found here, but that of the keys.
    pub fn new(alloc: Global) -> Result<Self, AllocError>
        ensures { IfOk result (λ held. held ≡ no_jobs) }
    {
        Ok(Held {
            waiting: VecDeque::with_capacity(alloc, MAX_HELD)?,
            taken: Vec::with_capacity(alloc, MAX_HELD)?,
            parked: VecDeque::with_capacity(alloc, MAX_HELD)?,
            ready: VecDeque::with_capacity(alloc, MAX_HELD)?,
            keys: BTreeMap::new(alloc),
        })
    }

    /// How many jobs are held.
    pub fn len(&self) -> usize
        ensures count { result ≡ job_count self.now }
        ensures few { result ≤ 128 }
    {
        self.waiting.len() + self.taken.len() + self.parked.len() + self.ready.len()
    }

    /// How many entries of the journal they still need.
    pub fn owed(&self) -> u32
        ensures owed { result ≡ owed_count self.now }
        ensures few { result ≤ 256 }
    {
        let unrun = self.waiting.len() + self.taken.len();
        let others = self.parked.len() + self.ready.len();
        (2 * unrun + others) as u32
    }

    /// Whether one waits that no hand took.
    pub fn waits(&self) -> bool
        ensures { IsTrue result ↔ (self.now.waiting ≢ []) }
    {
        !self.waiting.is_empty()
    }

    /// Whether a completion can be handed out.
    pub fn has_ready(&self) -> bool
        ensures { IsTrue result ↔ (self.now.ready ≢ []) }
    {
        !self.ready.is_empty()
    }

    /// The key of the job that is held with a completion id, if one is.
    pub fn key_of(&self, completion: u32) -> Option<Key>
        ensures { result ≡ lookup (is_at (nat_cmp completion)) self.now.keys }
    {
        self.keys.get(&completion).copied()
    }

    /// A job comes last. Where no memory is found for it, it comes back.
    pub fn put(&mut self, job: Job) -> Result<(), Job>
        requires { job_count self.old < 128 }
        ensures ok { OnOk result (self.new ≡ record self.old { waiting = self.old.waiting ++ job ∷ []; keys = self.new.keys }) }
        ensures keys { OnOk result ((id : ℕ) → lookup (is_at (nat_cmp id)) self.new.keys ≡ (if is_at (nat_cmp job.completion) id then Some job.key else lookup (is_at (nat_cmp id)) self.old.keys)) }
        ensures err { IfErr result (λ back. (back ≡ job) × (self.new ≡ self.old)) }
    {
        if self.keys.insert(job.completion, job.key).is_err() {
            return Err(job);
        }
        self.waiting.push_back_reserved(job);
        Ok(())
    }

    /// The job that came first goes into a hand.
    pub fn take(&mut self) -> Option<Job>
        ensures none { IfNone result ((self.old.waiting ≡ []) × (self.new ≡ self.old)) }
        ensures some { IfSome result (λ job. (self.old.waiting ≡ job ∷ self.new.waiting)
            × (self.new ≡ record self.old { waiting = self.new.waiting; taken = self.old.taken ++ in_hand job ∷ [] })) }
    {
        let job = self.waiting.pop_front()?;
        self.taken.push_reserved(InHand {
            key: job.key,
            completion: job.completion,
            removed: false,
        });
        Some(job)
    }

    /// The job with this key comes back from its hand, if it is in one.
    pub fn take_back(&mut self, key: Key) -> Option<InHand>
        requires { AreRising (map (λ t. t.key) self.old.taken) }
        ensures found { result ≡ find (λ t. is_key t.key key) self.old.taken }
        ensures none { IfNone result (self.new ≡ self.old) }
        ensures some { IfSome result (λ hand. self.new ≡ record self.old { taken = without_taken hand.key self.old.taken }) }
    {
        let place = place_of(self.taken.as_slice(), key)?;
        Some(self.taken.remove(place))
    }

    /// A completion is the last that can be handed out.
    pub fn make_ready(&mut self, completion: Completion)
        requires { job_count self.old < 128 }
        ensures { self.new ≡ record self.old { ready = self.old.ready ++ completion ∷ [] } }
    {
        self.ready.push_back_reserved(completion);
    }

    /// A job waits inside the device, after the others.
    pub fn park(&mut self, job: ParkedJob)
        requires { job_count self.old < 128 }
        ensures { self.new ≡ record self.old { parked = self.old.parked ++ job ∷ [] } }
    {
        self.parked.push_back_reserved(job);
    }

    /// Those that ended become ready, in the order in which they began to wait, and the others wait on.
    pub fn settle(&mut self, ends: &mut Ends)
        requires { (settled_jobs self.old.parked ends.old).2 ≡ [] }
        ensures held { self.new ≡ record self.old { parked = (settled_jobs self.old.parked ends.old).1; ready = self.old.ready ++ (settled_jobs self.old.parked ends.old).0 } }
        ensures ends { ends.new ≡ [] }
        ensures count { job_count self.new ≡ job_count self.old }
    {
        settle_all(&mut self.parked, &mut self.ready, ends);
    }

    /// What is in hands was overtaken by a removal of the device.
    pub fn mark_removed(&mut self)
        ensures { self.new ≡ record self.old { taken = map marked_removed self.old.taken } }
    {
        mark_all(self.taken.as_mut_slice());
    }

    /// What waits inside the device is cancelled.
    pub fn cancel_parked(&mut self)
        ensures { self.new ≡ record self.old { parked = []; ready = self.old.ready ++ map cancelled_parked self.old.parked } }
    {
        cancel_all(&mut self.parked, &mut self.ready);
    }

    /// What no hand took is cancelled, which the journal says.
    pub fn cancel_waiting(&mut self, journal: &mut Journal)
        requires { length self.old.waiting ≤ journal.old.spare }
        ensures held { self.new ≡ record self.old { waiting = []; ready = self.old.ready ++ map cancelled_waiting self.old.waiting } }
        ensures journal { journal.new.items ≡ journal.old.items ++ map (λ job. Item.Cancelled job.key) self.old.waiting }
        ensures spare { journal.new.spare + length self.old.waiting ≡ journal.old.spare }
    {
        cancel_unrun(&mut self.waiting, &mut self.ready, journal);
    }

    /// The completion that was ready first is handed out.
    pub fn collect(&mut self) -> Option<Completion>
        ensures none { IfNone result ((self.old.ready ≡ []) × (self.new ≡ self.old)) }
        ensures some { IfSome result (λ completion. (self.old.ready ≡ completion ∷ self.new.ready)
            × (self.new ≡ record self.old { ready = self.new.ready; keys = self.new.keys })) }
        ensures keys { IfSome result (λ completion. (id : ℕ) → lookup (is_at (nat_cmp id)) self.new.keys ≡ (if is_at (nat_cmp completion.completion) id then None else lookup (is_at (nat_cmp id)) self.old.keys)) }
    {
        let completion = self.ready.pop_front()?;
        self.keys.remove(&completion.completion);
        Some(completion)
    }

    /// Nothing is held any more.
    pub fn clear(&mut self)
        ensures { self.new ≡ no_jobs }
    {
        self.waiting.clear();
        self.taken.clear();
        self.parked.clear();
        self.ready.clear();
        self.keys.clear();
    }
}

/// The completion of a job that was given up.
pub fn cancelled(key: Key, completion: u32, kind: Kind) -> Completion
    ensures { result ≡ completion_of key completion kind cancellation }
{
    Completion {
        key,
        completion,
        kind,
        reply: Reply {
            status: CANCELLED,
            body: Body::Fault,
        },
    }
}

/// Each job in a hand was overtaken by a removal of its device.
fn mark_all(taken: &mut [InHand])
    ensures { taken.new ≡ map marked_removed taken.old }
{
    for place in 0..taken.len() {
        taken[place].removed = true;
    }
}

/// Each job that waits inside the device becomes ready as one that was given up.
fn cancel_all(parked: &mut VecDeque<ParkedJob>, ready: &mut VecDeque<Completion>)
    requires { deque_len ready.old + deque_len parked.old ≤ deque_capacity ready.old }
    ensures parked { parked.new.items ≡ [] }
    ensures ready { ready.new.items ≡ ready.old.items ++ map cancelled_parked parked.old.items }
    ensures capacity { (deque_capacity parked.new ≡ deque_capacity parked.old) × (deque_capacity ready.new ≡ deque_capacity ready.old) }
{
    while let Some(job) = parked.pop_front() {
        ready.push_back_reserved(cancelled(job.key, job.completion, job.kind));
    }
}

/// Each job that no hand took becomes ready as one that was given up, which the journal says.
fn cancel_unrun(
    waiting: &mut VecDeque<Job>,
    ready: &mut VecDeque<Completion>,
    journal: &mut Journal,
)
    requires room { deque_len ready.old + deque_len waiting.old ≤ deque_capacity ready.old }
    requires entries { deque_len waiting.old ≤ journal.old.spare }
    ensures waiting { waiting.new.items ≡ [] }
    ensures ready { ready.new.items ≡ ready.old.items ++ map cancelled_waiting waiting.old.items }
    ensures capacity { (deque_capacity waiting.new ≡ deque_capacity waiting.old) × (deque_capacity ready.new ≡ deque_capacity ready.old) }
    ensures journal { journal.new.items ≡ journal.old.items ++ map (λ job. Item.Cancelled job.key) waiting.old.items }
    ensures spare { journal.new.spare + deque_len waiting.old ≡ journal.old.spare }
{
    while let Some(job) = waiting.pop_front() {
        journal.add(Item::Cancelled(job.key));
        let kind = kind_of(&job.op);
        ready.push_back_reserved(cancelled(job.key, job.completion, kind));
    }
}

/// What ends make of the jobs that wait inside the device.
fn settle_all(parked: &mut VecDeque<ParkedJob>, ready: &mut VecDeque<Completion>, ends: &mut Ends)
    requires all { (settled_jobs parked.old.items ends.old).2 ≡ [] }
    requires parked_room { deque_len parked.old ≤ deque_capacity parked.old }
    requires ready_room { deque_len ready.old + deque_len parked.old ≤ deque_capacity ready.old }
    ensures parked { parked.new.items ≡ (settled_jobs parked.old.items ends.old).1 }
    ensures ready { ready.new.items ≡ ready.old.items ++ (settled_jobs parked.old.items ends.old).0 }
    ensures ends { ends.new ≡ [] }
    ensures capacity { (deque_capacity parked.new ≡ deque_capacity parked.old) × (deque_capacity ready.new ≡ deque_capacity ready.old) }
    ensures count { deque_len parked.new + deque_len ready.new ≡ deque_len parked.old + deque_len ready.old }
{
    if ends.is_empty() {
        return;
    }
    let mut next = ends.pop();
    'jobs: for _ in 0..parked.len() {
        next = settle_first(parked, ready, next, ends);
    }
    drop(next);
}

/// The first job that waits inside the device becomes ready where the next end is its own, and else waits after the others. The end that
/// comes next then is returned.
fn settle_first(
    parked: &mut VecDeque<ParkedJob>,
    ready: &mut VecDeque<Completion>,
    next: Option<End>,
    ends: &mut Ends,
) -> Option<End>
    requires some { 0 < deque_len parked.old }
    requires last { next ≡ None → ends.old ≡ [] }
    requires parked_room { deque_len parked.old ≤ deque_capacity parked.old }
    requires ready_room { deque_len ready.old < deque_capacity ready.old }
    ensures first { (job : _) × (jobs : _) × (parked.old.items ≡ job ∷ jobs) × (by_first job jobs ready.old.items (option_to_list next ++ ends.old) ≡ (parked.new.items, ready.new.items, option_to_list result ++ ends.new)) }
    ensures last { result ≡ None → ends.new ≡ [] }
    ensures parked { deque_capacity parked.new ≡ deque_capacity parked.old }
    ensures ready { deque_capacity ready.new ≡ deque_capacity ready.old }
    ensures count { deque_len parked.new + deque_len ready.new ≡ deque_len parked.old + deque_len ready.old }
{
    let Some(job) = parked.pop_front() else {
        unreachable!()
    };
    match next {
        Some(end) => {
            if end.key == job.key {
                ready.push_back_reserved(Completion {
                    key: job.key,
                    completion: job.completion,
                    kind: job.kind,
                    reply: end.reply,
                });
                ends.pop()
            } else {
                parked.push_back_reserved(job);
                Some(end)
            }
        }
        None => {
            parked.push_back_reserved(job);
            None
        }
    }
}

/// Where the job with this key stands among those in hands, if it does.
fn place_of(taken: &[InHand], key: Key) -> Option<usize>
    requires { AreRising (map (λ t. t.key) taken.now) }
    ensures some { IfSome result (λ place. (t : _) × (slice_get taken.now place ≡ Some t) × (find (λ t. is_key t.key key) taken.now ≡ Some t)) }
    ensures none { IfNone result (find (λ t. is_key t.key key) taken.now ≡ None) }
{
    match taken.binary_search_by_key(&key.index, |hand| hand.key.index) {
        Ok(place) => {
            if taken[place].key == key {
                Some(place)
            } else {
                None
            }
        }
        Err(_) => None,
    }
}
