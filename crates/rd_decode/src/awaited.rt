//! The requests whose completions are still to come.

ghost use Rattle.std.specs.Prelude.{◌≡◌, List, OnOk, IfOk};

use std::alloc::{AllocError, Global};
use std::collections::{BTreeMap, VecDeque};

/// What a completion names its request by.
#[derive(Clone, Copy, Debug, PartialEq, Eq, PartialOrd, Ord)]
pub struct Pair {
    pub device: u32,
    /// The completion id of the request.
    pub completion: u32,
}

/// Of each pair what is kept of the requests whose completions are still to come, in their order. A pair without any takes no place.
#[derive(Drop)]
pub struct Requests<K> {
    alloc: Global,
    queues: BTreeMap<Pair, VecDeque<K>>,
}

impl<K: Drop> Requests<K> {
    ghost use Rattle.std.specs.Prelude.{◌++◌, ◌∷◌, []};
    ghost use Rattle.rd_decode.specs.Kept.{awaited_of};
    ghost use Rattle.rd_decode.specs.Awaited.{first_awaited, none_awaited, others_of, with_awaited};

    pub fn new(alloc: Global) -> Requests<K>
        ensures { awaited_of result ≡ none_awaited }
    {
        Requests {
            alloc,
            queues: BTreeMap::new(alloc),
        }
    }

    /// A request, the last of its pair.
    pub fn add(&mut self, pair: Pair, kept: K) -> Result<(), AllocError>
        ensures { OnOk result (awaited_of self.new ≡ with_awaited pair.device pair.completion
            (awaited_of self.old pair.device pair.completion ++ kept ∷ []) (awaited_of self.old)) }
    {
        let mut queue = self.take_out(pair);
        queue.push_back(kept)?;
        self.put(pair, queue)?;
        Ok(())
    }

    /// The first request of a pair, which has its completion now, if there is one.
    #[tactic(auto, using(crate::proofs::AwaitedLemmas::popped_first, crate::proofs::AwaitedLemmas::popped_all))]
    pub fn complete(&mut self, pair: Pair) -> Result<Option<K>, AllocError>
        ensures first { IfOk result (λ first. first ≡ first_awaited (awaited_of self.old pair.device pair.completion)) }
        ensures others { OnOk result (awaited_of self.new ≡ with_awaited pair.device pair.completion
            (others_of (awaited_of self.old pair.device pair.completion)) (awaited_of self.old)) }
    {
        let mut queue = self.take_out(pair);
        let first = queue.pop_front();
        if queue.is_empty() {
            return Ok(first);
        }
        self.put(pair, queue)?;
        Ok(first)
    }

    /// Takes out what is still to come of a pair.
    fn take_out(&mut self, pair: Pair) -> VecDeque<K>
        ensures queue { result.items ≡ awaited_of self.old pair.device pair.completion }
        ensures none { awaited_of self.new ≡ with_awaited pair.device pair.completion [] (awaited_of self.old) }
    {
        match self.queues.remove(&pair) {
            Some(queue) => queue,
            None => VecDeque::new(self.alloc),
        }
    }

    /// Keeps what is still to come of a pair.
    fn put(&mut self, pair: Pair, queue: VecDeque<K>) -> Result<(), AllocError>
        ensures { OnOk result (awaited_of self.new ≡ with_awaited pair.device pair.completion queue.items (awaited_of self.old)) }
    {
        self.queues.insert(pair, queue)?;
        Ok(())
    }
}
