ghost use Rattle.std.specs.Prelude.{◌≡◌};
ghost use Rattle.byte_items.specs.Pack.{part_bytes};

use refusals::fault::Fault;
use words::part::Part;
use words::reading::{ReadStore, word_of};

// The bytes in a word.
const WORD_BYTES: usize = 8;

// The first bytes of a part of a store, as many as it has at most: they are only read. Their number stands
// beside the words, since it may end within the last of them.
#[derive(Clone, Copy)]
pub struct PartBytes<'a> {
    words: Part<'a>,
    bytes: usize,
}

impl<'a> PartBytes<'a> {
    // The first `bytes` bytes of the words.
    pub fn new(words: Part<'a>, bytes: usize) -> Self
        ensures words { result.words.words.now ≡ words.entry.words.now }
        ensures bytes { result.bytes ≡ bytes }
    {
        PartBytes { words, bytes }
    }
}

impl<'a> ReadStore for PartBytes<'a> {
    type Item = u8;

    ghost list = { λ p. part_bytes p.words.words.now p.bytes };

    #[tactic(auto, using(crate::proofs::InWords::length_part_bytes))]
    fn len(&self) -> usize {
        if self.bytes / WORD_BYTES < self.words.len() {
            self.bytes
        } else {
            WORD_BYTES * self.words.len()
        }
    }

    #[tactic(auto, using(crate::proofs::InWords::length_part_bytes, crate::proofs::InWords::part_got, words::proofs::Got::got_outside))]
    fn item(&self, i: usize) -> Result<u8, Fault> {
        if i >= self.len() {
            return Err(Fault::Outside(i));
        }
        let word = word_of(&self.words, i / WORD_BYTES);
        Ok(((word >> (8 * (i % WORD_BYTES))) & 255) as u8)
    }
}
