//! Workers: each has a hand at every desk, and works where it is rung for.

ghost use Rattle.std.specs.Prelude.{◌≡◌, ◌<◌, ◌≤◌, ◌+◌, ◌-◌, ℕ, Option, [], length, map, All, IfOk, OnOk, OnErr};
ghost use Rattle.std.specs.List.{AllZip};
ghost use Rattle.std.specs.Thread.{IsSend, IsSync};
ghost use Rattle.rd_turn.specs.Pass.{after_split, max_made};
ghost use Rattle.rd_pool.specs.Desks.{AllByHand, AllByHandBut, IsFirst, IsOther, KeepsMoment};

use crate::bell::Bell;
use crate::desks::Desks;
use crate::hands::Hands;
use crate::outside::Outside;
use crate::passes::Passes;
use rd_desk::{Batch, Hand};
use rd_drive::Device;
use std::alloc::{AllocError, Global};
use std::sync::Wait;
use std::thread::{Threads, join};

/// Works at a desk until nothing is given there.
pub(crate) fn work_at<'a, D: Device, T: Wait, X: Outside>(
    rt: &T,
    outside: &X,
    bell: &Bell,
    writer: &Bell,
    place: usize,
    hand: &mut Hand<'a, D>,
    batch: Batch,
) -> Batch
    requires none { batch ≡ [] }
    requires place { (place < bell.now) × (place < writer.now) }
    ensures none { result ≡ [] }
    ensures turn { hand.new.turn ≡ hand.old.turn }
    ensures number { hand.new.pass.number ≡ hand.old.pass.number }
    ensures moments { KeepsMoment (X.moment outside.now) hand.old.pass → KeepsMoment (X.moment outside.now) hand.new.pass }
    ensures by_hand { AllByHand hand.old.pass → AllByHand hand.new.pass }
{
    let mut batch = batch;
    for _ in rt.forever() {
        let worked = hand.work(rt, batch);
        if worked.left() {
            bell.ring(rt, place);
        }
        if worked.ready() {
            writer.ring(rt, place);
        }
        let done = worked.count() == 0;
        batch = outside.batch(place, worked);
        if done {
            return batch;
        }
    }
    unreachable!()
}

/// A worker: works at the desks that are rung for, until the bell is over.
fn work<'a, D: Device + Drop, T: Wait, X: Outside>(
    rt: &T,
    outside: &X,
    bell: &Bell,
    writer: &Bell,
    hands: Hands<'a, D>,
    batch: Batch,
) -> Passes<D>
    requires none { batch ≡ [] }
    requires places { (bell.now ≡ length hands) × (length hands ≤ writer.now) }
    requires moments { All (KeepsMoment (X.moment outside.now)) (map (λ hand. hand.pass) hands) }
    ensures others { AllZip IsOther (map (λ hand. hand.turn) hands.entry) result }
    ensures moments { All (KeepsMoment (X.moment outside.entry.now)) result }
    ensures by_hand { (number : ℕ) → All (AllByHandBut number) result }
{
    let mut hands = hands;
    let mut batch = batch;
    for _ in rt.forever() {
        let Some(place) = bell.wait(rt) else { break };
        batch = hands.work(rt, outside, bell, writer, place, batch);
    }
    hands.into_passes()
}

/// What a worker begins with. Where there is no memory for it nothing changes.
fn begin<'a, D: Device + Drop>(
    alloc: Global,
    desks: &'a Desks<D>,
    passes: &mut Passes<D>,
) -> Result<(Hands<'a, D>, Batch), AllocError>
    requires first { AllZip IsFirst desks.now.turns passes.old }
    requires few { All (λ p. p.made < max_made) passes.old }
    ensures kept { OnOk result (passes.new ≡ map after_split passes.old) }
    ensures unchanged { OnErr result (passes.new ≡ passes.old) }
    ensures turns { IfOk result (λ both. map (λ hand. hand.turn) both.0 ≡ desks.now.turns) }
    ensures none { IfOk result (λ both. both.1 ≡ []) }
    ensures moments { (told : Option ℕ) → All (KeepsMoment told) passes.old → All (KeepsMoment told) passes.new }
    ensures by_hand { (number : ℕ) → All (AllByHandBut number) passes.old → All (AllByHandBut number) passes.new }
    ensures new_moments { IfOk result (λ both. (told : Option ℕ) → All (KeepsMoment told) (map (λ hand. hand.pass) both.0)) }
{
    let batch = Batch::new(alloc)?;
    let hands = Hands::new(alloc, desks, passes)?;
    Ok((hands, batch))
}

/// Makes `part` in this thread, with so many workers beside it, each in a thread of its own. It returns once `part` has returned and the bell is over for
/// each worker, so `part` closes the bell. Where a thread can't be made that worker comes last; where a worker's memory isn't found there are fewer.
pub fn with_workers<
    R: Threads + Wait + Sync,
    D: Device + Drop + Send,
    X: Outside + Sync,
    B,
    F: FnOnce() -> B,
>(
    rt: &R,
    alloc: Global,
    desks: &Desks<D>,
    mut passes: Passes<D>,
    outside: &X,
    bell: &Bell,
    writer: &Bell,
    workers: u64,
    part: F,
) -> (B, Passes<D>)
    requires first { AllZip IsFirst desks.now.turns passes }
    requires few { All (λ p. p.made + workers < max_made) passes }
    requires places { (bell.now ≡ length desks.now.turns) × (length desks.now.turns ≤ writer.now) }
    requires part { F.pre part }
    ensures part { F.post part result.0 }
    ensures first { AllZip IsFirst desks.now.turns result.1 }
    ensures out { map (λ p. p.out) result.1 ≡ map (λ p. p.out) passes }
    ensures moments { All (KeepsMoment (X.moment outside.now)) passes → All (KeepsMoment (X.moment outside.now)) result.1 }
    ensures by_hand { (number : ℕ) → All (AllByHandBut number) passes → All (AllByHandBut number) result.1 }
{
    if workers == 0 {
        return (part(), passes);
    }
    let (hands, batch) = match begin(alloc, desks, &mut passes) {
        Ok(both) => both,
        Err(_) => return (part(), passes),
    };
    let (others, (value, mut passes)) = join(
        rt,
        || -> Passes<D>
            requires { IsSync R.row × IsSync X.row × IsSend D.row × (batch ≡ []) × (bell.now ≡ length hands) × (length hands ≤ writer.now) × All (KeepsMoment (X.moment outside.now)) (map (λ hand. hand.pass) hands) }
            ensures { AllZip IsOther (map (λ hand. hand.turn) hands.entry) result × All (KeepsMoment (X.moment outside.entry.now)) result × ((number : ℕ) → All (AllByHandBut number) result) }
        { work(rt, outside, bell, writer, hands, batch) },
        || -> (B, Passes<D>)
            requires { IsSync R.row × IsSync X.row × IsSend D.row × AllZip IsFirst desks.now.turns passes × All (λ p. p.made + (workers - 1) < max_made) passes × (bell.now ≡ length desks.now.turns) × (length desks.now.turns ≤ writer.now) × F.pre part × (0 < workers) }
            ensures { F.post part result.0 × AllZip IsFirst desks.entry.now.turns result.1 × (map (λ p. p.out) result.1 ≡ map (λ p. p.out) passes)
                × (All (KeepsMoment (X.moment outside.entry.now)) passes → All (KeepsMoment (X.moment outside.entry.now)) result.1)
                × ((number : ℕ) → All (AllByHandBut number) passes → All (AllByHandBut number) result.1) }
        {
            with_workers(
                rt,
                alloc,
                desks,
                passes,
                outside,
                bell,
                writer,
                workers - 1,
                part,
            )
        },
    );
    desks.join(&mut passes, others);
    (value, passes)
}
