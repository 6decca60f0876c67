ghost use Rattle.std.specs.Prelude.{◌≡◌, ℕ, ◌≤◌, length, take};
ghost use Rattle.words.specs.Words.{most, buffer_room, buffer_list};
ghost use Rattle.std.proofs.Common.{arith, length-take};

use crate::reading::{GrowStore, MOST, ReadStore, item_in};
use refusals::fault::Fault;

// A buffer of words, of bytes or of whatever a column holds. The caller hands in the buffer and how much of
// it is in use, which a buffer alone does not say; a column over it needs no memory of its own. The buffer's
// length, cut to the most there may be, is the capacity; its first `used` items are the list.
#[derive(Drop)]
pub struct Lent<'a, T> {
    items: &'a mut [T],
    used: usize,
    ghost within: { used ≤ buffer_room (length items.now) },
}

impl<'a, T: Copy> Lent<'a, T> {
    // The buffer with its first `used` items in use, or as many as it has room for.
    pub fn new(items: &'a mut [T], used: usize) -> Self
        ensures list { take result.used result.items.now ≡ buffer_list items.old used }
        ensures room { buffer_room (length result.items.now) ≡ buffer_room (length items.old) }
        ensures same { result.items.now ≡ items.old }
    {
        let used = used.min(items.len().min(MOST));
        Lent { items, used }
    }
}

impl<'a, T: Copy> ReadStore for Lent<'a, T> {
    type Item = T;

    ghost list = { λ b. take b.used b.items.now };

    fn len(&self) -> usize {
        self.used
    }

    fn item(&self, i: usize) -> Result<T, Fault> {
        item_in(&self.items[..self.used], i)
    }
}

impl<'a, T: Copy> GrowStore for Lent<'a, T> {
    ghost room = { λ b. buffer_room (length b.items.now) };

    ghost within = { λ b. omega (arith, length-take b.used b.items.now, b.within) };

    ghost small = { λ b. omega arith };

    fn capacity(&self) -> usize {
        self.items.len().min(MOST)
    }

    fn put(&mut self, x: T) -> Result<(), Fault> {
        let at = self.used;
        if at >= self.capacity() {
            return Err(Fault::Full(at));
        }
        self.items[at] = x;
        self.used = at + 1;
        Ok(())
    }

    fn clear(&mut self) {
        self.used = 0;
    }
}
