ghost use Rattle.std.specs.Prelude.{◌≡◌, ℕ, ◌≤◌, min, [], length, IfOk};
ghost use Rattle.std.specs.Vec.{vec_capacity};
ghost use Rattle.words.specs.Words.{most};

use crate::reading::{GrowStore, MOST, ReadStore, item_in};
use refusals::fault::Fault;
use std::alloc::{AllocError, Global};

// Words in a `Vec` whose memory is reserved when the store is made: no put ever asks for more. The limit
// stands beside it, since the memory that is reserved may be more.
#[derive(Drop)]
pub struct HeapWords {
    words: Vec<u64>,
    limit: usize,
    ghost within: { length words.items ≤ limit },
    ghost reserved: { limit ≤ vec_capacity words },
    ghost small: { limit ≤ most },
}

impl HeapWords {
    // No words, and room for `limit`, cut to the most there may be.
    pub fn new(heap: Global, limit: usize) -> Result<Self, AllocError>
        ensures list { IfOk result (λ h. h.words.items ≡ []) }
        ensures room { IfOk result (λ h. h.limit ≡ min limit most) }
    {
        let limit = limit.min(MOST);
        let words = Vec::with_capacity(heap, limit)?;
        Ok(HeapWords { words, limit })
    }
}

impl ReadStore for HeapWords {
    type Item = u64;

    ghost list = { λ h. h.words.items };

    fn len(&self) -> usize {
        self.words.len()
    }

    fn item(&self, i: usize) -> Result<u64, Fault> {
        item_in(&self.words, i)
    }
}

impl GrowStore for HeapWords {
    ghost room = { λ h. h.limit };

    ghost within = { λ h. h.within };

    ghost small = { λ h. h.small };

    fn capacity(&self) -> usize {
        self.limit
    }

    fn put(&mut self, w: u64) -> Result<(), Fault> {
        let at = self.words.len();
        if at >= self.limit {
            return Err(Fault::Full(at));
        }
        self.words.push_reserved(w);
        Ok(())
    }

    fn clear(&mut self) {
        self.words.clear();
    }
}
