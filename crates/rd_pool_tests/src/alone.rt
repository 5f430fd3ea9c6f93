//! A drive with two jobs, at which the calling thread works by itself while a worker sleeps.

ghost use Rattle.std.specs.Prelude.{◌≡◌, ◌<◌, None, [], length, map, All, IfSome};
ghost use Rattle.std.specs.List.{AllZip};
ghost use Rattle.rd_pool.specs.Desks.{IsFirst, IsOther};

use rd_base::Key;
use rd_desk::Batch;
use rd_drive::Device;
use rd_link::{Clock, Gate};
use rd_pool::{AfterGate, Bell, Desks, Hands, Passes, with_workers};
use rd_station::Station;
use std::alloc::Global;
use std::collections::VecDeque;
use std::sync::Wait;
use std::sync::atomic::AtomicU64;
use std::sync::atomic::Ordering::SeqCst;
use std::thread::Threads;

/// The keys that passed, as the digits of a number, which it tells as the moment.
#[derive(Drop)]
pub struct Digits {
    pub passed: AtomicU64,
}

impl Gate for Digits {
    fn pass(&self, key: Key) {
        let before = self.passed.load(SeqCst).wrapping_mul(10);
        self.passed.store(before.wrapping_add(key.index), SeqCst);
    }
}

impl Clock for Digits {
    ghost moment = { λ digits. None };

    fn now(&self) -> u64 {
        self.passed.load(SeqCst)
    }
}

/// Works at the first desk until nothing is given there, and lets the worker go.
fn work_here<'a, T: Wait, D: Device + Drop>(
    rt: &T,
    outside: &AfterGate<'_, Digits, Digits>,
    bell: &Bell,
    writer: &Bell,
    mut hands: Hands<'a, D>,
    batch: Batch,
) -> Passes<D>
    requires none { batch ≡ [] }
    requires places { (length hands ≡ 1) × (bell.now ≡ 1) × (writer.now ≡ 2) }
    ensures { AllZip IsOther (map (λ hand. hand.turn) hands.entry) result }
{
    hands.work(rt, outside, bell, writer, 0, batch);
    bell.close(rt);
    hands.into_passes()
}

/// Works while a worker sleeps, if there is memory.
fn work_alone<T: Threads + Wait + Sync, D: Device + Drop + Send>(
    rt: &T,
    alloc: Global,
    outside: &AfterGate<'_, Digits, Digits>,
    desks: &Desks<D>,
    mut passes: Passes<D>,
    bell: &Bell,
    writer: &Bell,
) -> Option<Passes<D>>
    requires first { AllZip IsFirst desks.now.turns passes }
    requires new { All (λ p. (p.made ≡ 0) × (p.out ≡ 0)) passes }
    requires places { (length desks.now.turns ≡ 1) × (bell.now ≡ 1) × (writer.now ≡ 2) }
    ensures first { IfSome result (λ home. AllZip IsFirst desks.now.turns home) }
    ensures home { IfSome result (λ home. All (λ p. p.out ≡ 0) home) }
{
    let Ok(batch) = Batch::new(alloc) else {
        return None;
    };
    let Ok(hands) = Hands::new(alloc, desks, &mut passes) else {
        return None;
    };
    let (others, mut passes) = with_workers(
        rt,
        alloc,
        desks,
        passes,
        outside,
        bell,
        writer,
        1,
        || -> Passes<D>
            requires { (batch ≡ []) × (length hands ≡ 1) × (bell.now ≡ 1) × (writer.now ≡ 2) }
            ensures { AllZip IsOther (map (λ hand. hand.turn) hands.entry) result }
        { work_here(rt, outside, bell, writer, hands, batch) },
    );
    desks.join(&mut passes, others);
    Some(passes)
}

/// The desk of one drive, with its pass 0, works alone; then it gives its station back.
pub fn run_alone<T: Threads + Wait + Sync, D: Device + Drop + Send>(
    rt: &T,
    alloc: Global,
    outside: &AfterGate<'_, Digits, Digits>,
    station: Station<D>,
    bell: &Bell,
    writer: &Bell,
) -> Option<VecDeque<Station<D>>>
    requires { (bell.now ≡ 1) × (writer.now ≡ 2) }
{
    let mut desks = Desks::new(alloc);
    let mut passes = Passes::new(alloc);
    let Ok(()) = desks.add(alloc, &mut passes, 1, station) else {
        return None;
    };
    let passes = work_alone(rt, alloc, outside, &desks, passes, bell, writer)?;
    Some(desks.close(passes))
}
