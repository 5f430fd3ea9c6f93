//! The slots in which locks are kept, in the order in which they were taken. The slots of one node are chained from the
//! last to the first, so its locks are found without those of others. A place in a chain is the number of slots up to it,
//! itself among them, and 0 ends it.

ghost use Rattle.std.specs.Prelude.{◌≡◌, ◌≤◌, ◌<◌, ◌+◌, ◌-◌, ◌==◌, ◌&&◌, ℕ, not, true, false, length, if◌then◌else◌, Ok, Err, OnOk, OnErr, IfOk, IfErr};
ghost use Rattle.rd_locks.specs.Locks.{overlaps, is_in_way, unlocked, released};
ghost use Rattle.rd_locks.specs.Slots.{slot_at, IsSpanned, standing, is_sought, shows, Leads, IsChained, Follows, StaysLinked, IsSwept, IsSettled};

use crate::held::Held;
use crate::leap::{Leap, is_outside, joined, leap_to};
use rd_irp::Range;

/// A lock that stands or stood, in its place.
#[derive(Clone, Copy, Drop)]
pub struct Slot {
    pub lock: Held,
    pub stands: bool,
    /// Its node's chain still passes it. Between two calls these are the locks that stand.
    pub linked: bool,
    /// The next place of its node's chain.
    pub below: usize,
    pub leap: Leap,
}

/// What is looked for among a node's locks.
#[derive(Clone, Copy, Drop)]
pub enum Aim {
    /// What is in the way of taking the wanted lock.
    Take,
    /// What is in the way of writing its range.
    Write,
    /// The wanted lock itself.
    Match,
}

/// Whether a byte lies in both.
fn overlaps(a: Range, b: Range) -> bool
    ensures { result ≡ overlaps a b }
{
    if a.length == 0 || b.length == 0 {
        return false;
    }
    if a.offset <= b.offset {
        b.offset - a.offset < a.length
    } else {
        a.offset - b.offset < b.length
    }
}

/// Whether a lock on the same node is in the way of the wanted one.
pub fn is_in_way(wanted: &Held, lock: &Held) -> bool
    requires { lock.now.node ≡ wanted.now.node }
    ensures { result ≡ is_in_way wanted.now lock.now }
{
    overlaps(wanted.range, lock.range)
        && (wanted.exclusive || (lock.exclusive && lock.file != wanted.file))
}

/// Whether a lock on the same node is what is looked for.
fn is_sought(aim: Aim, wanted: &Held, lock: &Held) -> bool
    requires { lock.now.node ≡ wanted.now.node }
    ensures { result ≡ is_sought aim wanted.now lock.now }
{
    let own = lock.file == wanted.file;
    match aim {
        Aim::Take => is_in_way(wanted, lock),
        Aim::Write => overlaps(wanted.range, lock.range) && !(lock.exclusive && own),
        Aim::Match => {
            own && lock.range.offset == wanted.range.offset
                && lock.range.length == wanted.range.length
        }
    }
}

/// Whether a lock of the wanted one's node stands in the slot and is what is looked for.
fn shows(aim: Aim, wanted: &Held, slot: &Slot) -> bool
    requires { slot.now.lock.node ≡ wanted.now.node }
    ensures { result ≡ shows aim wanted.now slot.now }
{
    slot.stands && is_sought(aim, wanted, &slot.lock)
}

/// The first slot, in the order of taking, whose lock is what is looked for; the number of slots where there is none.
pub fn first(slots: &[Slot], end: usize, aim: Aim, wanted: &Held) -> usize
    requires chained { IsChained slots.now }
    requires leads { Leads slots.now wanted.now.node (length slots.now) end }
    ensures within { result ≤ length slots.now }
    ensures before { (i : ℕ) → i < result → shows aim wanted.now (slot_at slots.now i) ≡ false }
    ensures found { result < length slots.now → shows aim wanted.now (slot_at slots.now result) ≡ true }
{
    let mut first = slots.len();
    let mut place = end;
    while place > 0 {
        let slot = &slots[place - 1];
        if is_outside(&slot.leap, wanted.range) {
            place = slot.leap.to;
            continue;
        }
        if shows(aim, wanted, slot) {
            first = place - 1;
        }
        place = slot.below;
    }
    first
}

/// The leap of a slot that is to be the last of its node's chain. Two leaps below it over as many slots become one, so the
/// leaps over a chain grow as it does.
pub fn leap_over(slots: &[Slot], node: u32, below: usize, range: Range) -> Leap
    requires chained { IsChained slots.now }
    requires leads { Leads slots.now node (length slots.now) below }
    ensures within { result.to ≤ below }
    ensures same { 0 < result.to → (slot_at slots.now (result.to - 1)).lock.node ≡ node }
    ensures own { IsSpanned result range }
    ensures spans { (j : ℕ) → result.to ≤ j → j < below → (slot_at slots.now j).lock.node ≡ node → (slot_at slots.now j).linked ≡ true → IsSpanned result (slot_at slots.now j).lock.range }
{
    let own = leap_to(below, range);
    if below == 0 {
        return own;
    }
    let last = slots[below - 1].leap;
    if last.to == 0 {
        return own;
    }
    let next = slots[last.to - 1].leap;
    if last.steps != next.steps {
        return own;
    }
    joined(own, last, next)
}

/// Unlinks the slots of a chain from a place down to one whose lock stands, and returns its place, or 0.
fn unlink_to_standing(slots: &mut [Slot], place: usize) -> usize
    requires chained { IsChained slots.old }
    requires within { place ≤ length slots.old }
    ensures follows { Follows slots.old slots.new }
    ensures stands { (i : ℕ) → (slot_at slots.new i).stands ≡ (slot_at slots.old i).stands }
    ensures chained { IsChained slots.new }
    ensures leads { (node i : ℕ) → Leads slots.old node i place → Leads slots.new node i result }
    ensures top { 0 < result → (slot_at slots.new (result - 1)).stands ≡ true }
    ensures within { result ≤ place }
{
    let mut place = place;
    while place > 0 && !slots[place - 1].stands {
        slots[place - 1].linked = false;
        place = slots[place - 1].below;
    }
    place
}

/// Takes the slots whose locks don't stand out of a node's chain, and returns its new end.
fn sweep(slots: &mut [Slot], node: u32, end: usize) -> usize
    requires chained { IsChained slots.old }
    requires leads { Leads slots.old node (length slots.old) end }
    ensures follows { Follows slots.old slots.new }
    ensures stands { (i : ℕ) → (slot_at slots.new i).stands ≡ (slot_at slots.old i).stands }
    ensures chained { IsChained slots.new }
    ensures leads { Leads slots.new node (length slots.new) result }
    ensures swept { IsSwept slots.new node }
    ensures within { result ≤ end }
{
    let top = unlink_to_standing(slots, end);
    let mut place = top;
    while place > 0 {
        let below = slots[place - 1].below;
        let next = unlink_to_standing(slots, below);
        slots[place - 1].below = next;
        place = next;
    }
    top
}

/// Whether a lock of the file stands in the slot.
fn is_of(slot: &Slot, file: u32) -> bool
    ensures { result ≡ (slot.now.stands && slot.now.lock.file == file) }
{
    slot.stands && slot.lock.file == file
}

/// Lets go of a file's locks on a node, and returns how many they were. Their slots stay linked.
fn let_go(slots: &mut [Slot], node: u32, end: usize, file: u32) -> usize
    requires chained { IsChained slots.old }
    requires leads { Leads slots.old node (length slots.old) end }
    ensures stays { StaysLinked slots.old slots.new }
    ensures gone { (i : ℕ) → (slot_at slots.old i).lock.node ≡ node → (slot_at slots.old i).lock.file ≡ file → (slot_at slots.new i).stands ≡ false }
    ensures others { (i : ℕ) → ¬ ((slot_at slots.old i).lock.file ≡ file) → (slot_at slots.new i).stands ≡ (slot_at slots.old i).stands }
    ensures other_nodes { (i : ℕ) → ¬ ((slot_at slots.old i).lock.node ≡ node) → (slot_at slots.new i).stands ≡ (slot_at slots.old i).stands }
    ensures count { length (standing slots.new) + result ≡ length (standing slots.old) }
{
    let mut count = 0;
    let mut place = end;
    while place > 0 {
        let slot = slots[place - 1];
        if is_of(&slot, file) {
            slots[place - 1].stands = false;
            count += 1;
        }
        place = slot.below;
    }
    count
}

/// Lets every lock stand again whose slot is linked.
fn stand_again(slots: &mut [Slot], node: u32, end: usize)
    requires chained { IsChained slots.old }
    requires leads { Leads slots.old node (length slots.old) end }
    ensures stays { StaysLinked slots.old slots.new }
    ensures again { (i : ℕ) → (slot_at slots.old i).lock.node ≡ node → (slot_at slots.new i).stands ≡ (slot_at slots.old i).linked }
    ensures others { (i : ℕ) → ¬ ((slot_at slots.old i).lock.node ≡ node) → (slot_at slots.new i).stands ≡ (slot_at slots.old i).stands }
{
    let mut place = end;
    while place > 0 {
        slots[place - 1].stands = slots[place - 1].linked;
        place = slots[place - 1].below;
    }
}

/// Lets go of a slot's lock if it is the file's, and returns how many that is. The slot is unlinked where it is.
fn let_go_at(slots: &mut [Slot], i: usize, file: u32) -> usize
    requires within { i < length slots.old }
    requires chained { IsChained slots.old }
    ensures follows { Follows slots.old slots.new }
    ensures chained { IsChained slots.new }
    ensures settled { (k : ℕ) → ((slot_at slots.old k).stands ≡ false → (slot_at slots.old k).linked ≡ false) → (slot_at slots.new k).stands ≡ false → (slot_at slots.new k).linked ≡ false }
    ensures here { (slot_at slots.new i).stands ≡ ((slot_at slots.old i).stands && not ((slot_at slots.old i).lock.file == file)) }
    ensures others { (k : ℕ) → ¬ (k ≡ i) → (slot_at slots.new k).stands ≡ (slot_at slots.old k).stands }
    ensures count { length (standing slots.new) + result ≡ length (standing slots.old) }
    ensures one { result ≤ 1 }
{
    if !is_of(&slots[i], file) {
        return 0;
    }
    slots[i] = Slot {
        stands: false,
        linked: false,
        ..slots[i]
    };
    1
}

/// Lets go of a file's locks on every node, and returns how many they were. Their slots are unlinked where they are.
pub fn release_everywhere(slots: &mut [Slot], file: u32) -> usize
    requires chained { IsChained slots.old }
    requires settled { IsSettled slots.old }
    ensures follows { Follows slots.old slots.new }
    ensures chained { IsChained slots.new }
    ensures settled { IsSettled slots.new }
    ensures fewer { (i : ℕ) → (slot_at slots.old i).stands ≡ false → (slot_at slots.new i).stands ≡ false }
    ensures gone { (i : ℕ) → (slot_at slots.old i).lock.file ≡ file → (slot_at slots.new i).stands ≡ false }
    ensures released { standing slots.new ≡ released file (standing slots.old) }
    ensures count { length (standing slots.new) + result ≡ length (standing slots.old) }
{
    let mut count = 0;
    for i in 0..slots.len() {
        count += let_go_at(slots, i, file);
    }
    count
}

/// Lets go of a file's locks, which are on one node, and takes their slots out of its chain. It returns how many they were
/// and the chain's new end.
pub fn release_on(slots: &mut [Slot], node: u32, end: usize, file: u32) -> (usize, usize)
    requires chained { IsChained slots.old }
    requires leads { Leads slots.old node (length slots.old) end }
    requires settled { IsSettled slots.old }
    requires home { (i : ℕ) → (slot_at slots.old i).stands ≡ true → (slot_at slots.old i).lock.file ≡ file → (slot_at slots.old i).lock.node ≡ node }
    ensures follows { Follows slots.old slots.new }
    ensures chained { IsChained slots.new }
    ensures leads { Leads slots.new node (length slots.new) result.1 }
    ensures within { result.1 ≤ end }
    ensures settled { IsSettled slots.new }
    ensures fewer { (i : ℕ) → (slot_at slots.old i).stands ≡ false → (slot_at slots.new i).stands ≡ false }
    ensures gone { (i : ℕ) → (slot_at slots.old i).lock.file ≡ file → (slot_at slots.new i).stands ≡ false }
    ensures released { standing slots.new ≡ released file (standing slots.old) }
    ensures count { length (standing slots.new) + result.0 ≡ length (standing slots.old) }
{
    let count = let_go(slots, node, end, file);
    (count, sweep(slots, node, end))
}

/// Lets go of a file's first lock of each range, in turn. Their slots stay linked. Where one is missing, all stand again.
fn take_all(
    slots: &mut [Slot],
    node: u32,
    end: usize,
    file: u32,
    ranges: &[Range],
) -> Result<(), Range>
    requires chained { IsChained slots.old }
    requires leads { Leads slots.old node (length slots.old) end }
    requires settled { IsSettled slots.old }
    ensures stays { StaysLinked slots.old slots.new }
    ensures ok { OnOk result (unlocked node file (standing slots.old) ranges.now ≡ Ok (standing slots.new)) }
    ensures count { OnOk result (length (standing slots.new) + length ranges.now ≡ length (standing slots.old)) }
    ensures missing { IfErr result (λ range. unlocked node file (standing slots.old) ranges.now ≡ Err range) }
    ensures err { OnErr result (slots.new ≡ slots.old) }
    ensures others { (i : ℕ) → ¬ ((slot_at slots.old i).lock.node ≡ node) → (slot_at slots.new i).stands ≡ (slot_at slots.old i).stands }
    ensures fewer { (i : ℕ) → (slot_at slots.old i).stands ≡ false → (slot_at slots.new i).stands ≡ false }
{
    for range in ranges {
        let wanted = Held {
            node,
            file,
            exclusive: false,
            range: *range,
        };
        let found = first(slots, end, Aim::Match, &wanted);
        if found == slots.len() {
            stand_again(slots, node, end);
            return Err(*range);
        }
        slots[found].stands = false;
    }
    Ok(())
}

/// Lets go of a file's first lock of each range, in turn, and takes their slots out of the node's chain. It returns the
/// chain's new end, or the first range that matches no lock left, and then nothing has changed.
pub fn unlock_on(
    slots: &mut [Slot],
    node: u32,
    end: usize,
    file: u32,
    ranges: &[Range],
) -> Result<usize, Range>
    requires chained { IsChained slots.old }
    requires leads { Leads slots.old node (length slots.old) end }
    requires settled { IsSettled slots.old }
    ensures follows { Follows slots.old slots.new }
    ensures chained { IsChained slots.new }
    ensures leads { IfOk result (λ end. Leads slots.new node (length slots.new) end) }
    ensures within { IfOk result (λ new_end. new_end ≤ end) }
    ensures settled { IsSettled slots.new }
    ensures fewer { (i : ℕ) → (slot_at slots.old i).stands ≡ false → (slot_at slots.new i).stands ≡ false }
    ensures unlocked { OnOk result (unlocked node file (standing slots.old) ranges.now ≡ Ok (standing slots.new)) }
    ensures count { OnOk result (length (standing slots.new) + length ranges.now ≡ length (standing slots.old)) }
    ensures missing { IfErr result (λ range. unlocked node file (standing slots.old) ranges.now ≡ Err range) }
    ensures err { OnErr result (slots.new ≡ slots.old) }
{
    take_all(slots, node, end, file, ranges)?;
    Ok(sweep(slots, node, end))
}
