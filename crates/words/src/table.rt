ghost use Rattle.std.specs.Prelude.{◌≡◌, ℕ, ◌≤◌, min, [], length};
ghost use Rattle.words.specs.Words.{most, table_list};
ghost use Rattle.std.proofs.Common.{arith, length-take, rules};

use crate::reading::{GrowStore, ReadStore, item_in};
use refusals::fault::Fault;

// How many words a table holds.
const PLACES: usize = 64;

// A table of 64 words held by value and copied as one, which a vector is not; the first `used`, cut to 64, are
// in use. They are cut in code: a type with a ghost field that owns no memory can't stand beside a lent buffer
// in a type argument, as in `Option<(Table64, Lent<u64>)>`. Of this size alone, as its name says.
#[derive(Clone, Copy)]
pub struct Table64 {
    words: [u64; 64],
    used: usize,
}

impl Table64 {
    // A table with no word in use.
    pub fn new() -> Self
        ensures list { table_list result.words result.used ≡ [] }
    {
        Table64 {
            words: [0; 64],
            used: 0,
        }
    }

    fn at(&self) -> usize
        ensures { result ≡ min self.now.used 64 }
    {
        self.used.min(PLACES)
    }
}

impl ReadStore for Table64 {
    type Item = u64;

    ghost list = { λ t. table_list t.words t.used };

    fn len(&self) -> usize {
        self.at()
    }

    fn item(&self, i: usize) -> Result<u64, Fault> {
        item_in(&self.words[..self.at()], i)
    }
}

impl GrowStore for Table64 {
    ghost room = { λ _. 64 };

    ghost within = { λ t. omega (arith, length-take (min t.used 64) t.words) };

    ghost small = { Prim.search rules };

    fn capacity(&self) -> usize {
        PLACES
    }

    fn put(&mut self, w: u64) -> Result<(), Fault> {
        let at = self.at();
        if at >= PLACES {
            return Err(Fault::Full(at));
        }
        self.words[at] = w;
        self.used = at + 1;
        Ok(())
    }

    fn clear(&mut self) {
        self.used = 0;
    }
}
