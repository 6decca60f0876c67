ghost use Rattle.std.specs.Prelude.{◌≡◌};

use crate::reading::{ReadStore, item_in};
use refusals::fault::Fault;

// A read-only part of a store: it only reads.
#[derive(Clone, Copy)]
pub struct Part<'a> {
    words: &'a [u64],
}

impl<'a> Part<'a> {
    // The part that holds just these words.
    pub fn new(words: &'a [u64]) -> Self
        ensures list { result.words.now ≡ words.now }
    {
        Part { words }
    }
}

impl<'a> ReadStore for Part<'a> {
    type Item = u64;

    ghost list = { λ p. p.words.now };

    fn len(&self) -> usize {
        self.words.len()
    }

    fn item(&self, i: usize) -> Result<u64, Fault> {
        item_in(self.words, i)
    }
}
