//! Two drives with a job each, and two workers, of which the one at the first drive is held up until what the other did was collected.

ghost use Rattle.std.specs.Prelude.{◌≡◌, suc, length, map, ◌<◌, All, IfOk, OnOk, IfSome, Some};
ghost use Rattle.std.specs.List.{AllZip};
ghost use Rattle.rd_turn.specs.Pass.{after_split, max_made};
ghost use Rattle.rd_pool.specs.Desks.{IsFirst, IsOther};

use rd_desk::{Batch, DeskCall, DeskReply, Worked};
use rd_drive::{Device, Job};
use rd_pool::{Bell, Desks, Outside, Passes, with_workers};
use rd_station::Station;
use std::alloc::{AllocError, Global};
use std::collections::VecDeque;
use std::sync::Wait;
use std::sync::atomic::AtomicBool;
use std::sync::atomic::Ordering::SeqCst;
use std::thread;
use std::thread::Threads;

/// How often anybody looks at most, with a yield after each look.
pub(crate) const LOOKS: u32 = 1_000_000;

/// Holds up whoever took a job at the first desk, until it is told to go on.
#[derive(Drop)]
pub struct Held {
    pub alloc: Global,
    pub goes_on: AtomicBool,
}

impl Outside for Held {
    ghost moment = { λ held. Some 5 };

    fn batch(&self, place: usize, worked: Worked) -> Batch {
        if place == 0 && worked.count() > 0 {
            for _ in 0..LOOKS {
                if self.goes_on.load(SeqCst) {
                    break;
                }
                thread::yield_now();
            }
        }
        worked.into_batch(self.alloc, 5)
    }
}

/// The places where the first two completions were collected, in order.
#[derive(Clone, Copy, Debug, PartialEq, Eq)]
pub struct Order {
    pub first: Option<usize>,
    pub second: Option<usize>,
}

/// Wakes a worker for each desk, and collects what they did, until it has two completions.
fn collect_two<T: Wait, D: Device + Drop>(
    rt: &T,
    desks: &Desks<D>,
    own: Passes<D>,
    bell: &Bell,
    writer: &Bell,
    held: &Held,
) -> (Passes<D>, Order)
    requires others { AllZip IsOther desks.now.turns own }
    requires places { (length desks.now.turns ≡ 2) × (bell.now ≡ 2) × (writer.now ≡ 2) }
    ensures others { AllZip IsOther desks.now.turns result.0 }
{
    let mut own = own;
    let mut first = None;
    let mut second = None;
    bell.ring(rt, 0);
    bell.ring(rt, 1);
    for _ in 0..LOOKS {
        if let Some(place) = writer.try_next(rt) {
            let reply = desks.call(rt, &mut own, place, DeskCall::Collect);
            if matches!(reply, DeskReply::Collected(Some(_))) {
                held.goes_on.store(true, SeqCst);
                if first.is_some() {
                    second = Some(place);
                    break;
                }
                first = Some(place);
            }
        }
        thread::yield_now();
    }
    bell.close(rt);
    (own, Order { first, second })
}

/// The desks of two drives, with their passes 0.
pub fn open_two<D: Device + Drop>(
    alloc: Global,
    first: Station<D>,
    second: Station<D>,
) -> Option<(Desks<D>, Passes<D>)>
    ensures first { IfSome result (λ both. AllZip IsFirst both.0.turns both.1) }
    ensures count { IfSome result (λ both. length both.0.turns ≡ 2) }
    ensures new { IfSome result (λ both. All (λ p. (p.made ≡ 0) × (p.out ≡ 0)) both.1) }
{
    let mut desks = Desks::new(alloc);
    let mut passes = Passes::new(alloc);
    let Ok(()) = desks.add(alloc, &mut passes, 1, first) else {
        return None;
    };
    let Ok(()) = desks.add(alloc, &mut passes, 2, second) else {
        return None;
    };
    Some((desks, passes))
}

/// Lets two workers run while this thread collects.
fn work_two<T: Threads + Wait + Sync, D: Device + Drop + Send>(
    rt: &T,
    alloc: Global,
    desks: &Desks<D>,
    passes: Passes<D>,
    own: Passes<D>,
    bell: &Bell,
    writer: &Bell,
    held: &Held,
) -> (Passes<D>, Order)
    requires first { AllZip IsFirst desks.now.turns passes }
    requires few { All (λ p. p.made ≡ 1) passes }
    requires others { AllZip IsOther desks.now.turns own }
    requires places { (length desks.now.turns ≡ 2) × (bell.now ≡ 2) × (writer.now ≡ 2) }
    ensures first { AllZip IsFirst desks.now.turns result.0 }
    ensures out { map (λ p. suc p.out) result.0 ≡ map (λ p. p.out) passes }
{
    let ((own, order), mut passes) = with_workers(
        rt,
        alloc,
        desks,
        passes,
        held,
        bell,
        writer,
        2,
        || -> (Passes<D>, Order)
            requires { AllZip IsOther desks.now.turns own × (length desks.now.turns ≡ 2) × (bell.now ≡ 2) × (writer.now ≡ 2) }
            ensures { AllZip IsOther desks.entry.now.turns result.0 }
        { collect_two(rt, desks, own, bell, writer, held) },
    );
    desks.join(&mut passes, own);
    (passes, order)
}

/// Splits a pass from each, and puts a job at each desk.
fn put_two<T: Wait, D: Device + Drop>(
    rt: &T,
    alloc: Global,
    desks: &Desks<D>,
    passes: &mut Passes<D>,
    first: Job,
    second: Job,
) -> Result<Passes<D>, AllocError>
    requires first { AllZip IsFirst desks.now.turns passes.old }
    requires few { All (λ p. p.made < max_made) passes.old }
    requires count { length desks.now.turns ≡ 2 }
    ensures others { IfOk result (λ own. AllZip IsOther desks.now.turns own) }
    ensures kept { OnOk result (passes.new ≡ map after_split passes.old) }
{
    let mut own = desks.split(alloc, passes)?;
    desks.call(rt, &mut own, 0, DeskCall::Announce);
    desks.call(rt, &mut own, 1, DeskCall::Announce);
    desks.call(rt, &mut own, 0, DeskCall::Put(first));
    desks.call(rt, &mut own, 1, DeskCall::Put(second));
    Ok(own)
}

/// Puts a job at each desk, lets two workers run them, and gives the stations back.
pub fn run_two<T: Threads + Wait + Sync, D: Device + Drop + Send>(
    rt: &T,
    alloc: Global,
    desks: Desks<D>,
    passes: Passes<D>,
    bell: &Bell,
    writer: &Bell,
    held: &Held,
    first: Job,
    second: Job,
) -> Option<(VecDeque<Station<D>>, Order)>
    requires first { AllZip IsFirst desks.turns passes }
    requires new { All (λ p. (p.made ≡ 0) × (p.out ≡ 0)) passes }
    requires places { (length desks.turns ≡ 2) × (bell.now ≡ 2) × (writer.now ≡ 2) }
{
    let mut passes = passes;
    let Ok(own) = put_two(rt, alloc, &desks, &mut passes, first, second) else {
        return None;
    };
    let (passes, order) = work_two(rt, alloc, &desks, passes, own, bell, writer, held);
    Some((desks.close(passes), order))
}
