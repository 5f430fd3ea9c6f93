//! A few places of desks.

/// So many places there are at most.
pub(crate) const MAX_PLACES: u32 = 64;

/// Places of desks, each at most once, in no order that matters. A session has at most 32 desks; a place from 64 on is forgotten.
#[derive(Clone, Copy)]
pub(crate) struct Places {
    bits: u64,
}

impl Places {
    pub(crate) fn new() -> Self {
        Places { bits: 0 }
    }

    /// All places below a count.
    pub(crate) fn below(count: usize) -> Self {
        let mut places = Places::new();
        for place in 0..count {
            places.add(place);
        }
        places
    }

    pub(crate) fn add(&mut self, place: usize) {
        if place < MAX_PLACES as usize {
            self.bits |= 1 << place;
        }
    }

    /// The least of them, which is gone then.
    pub(crate) fn next(&mut self) -> Option<usize> {
        if self.bits == 0 {
            return None;
        }
        let place = self.bits.trailing_zeros();
        self.bits &= self.bits - 1;
        Some(place as usize)
    }
}
