ghost use Rattle.std.specs.Prelude.{◌≡◌, ℕ, ◌+◌, ◌*◌, ◌/◌, ◌^◌, ◌<◌, ◌≤◌, true, List, [], ◌∷◌, ◌++◌, length, take, drop, Ok, Err, count_ones, slice_index, slice_index_or};
ghost use Rattle.std.proofs.Props.{props};
ghost use Rattle.bitlaws.specs.Bits.{most_bits, low_bits, rank_of, first_from, Held};

use crate::group::Group;
use crate::tail::{Tail, WORD};
use refusals::fault::Fault;
use words::reading::{GrowStore, MOST, Owned, ReadStore, put_in, word_of};

pub mod growing;

// Bits packed into full words and a tail.
#[derive(Drop)]
pub struct Bools<V: ReadStore<Item = u64>> {
    values: V,
    tail: Tail,
    owned: Owned,
    pub ghost held: { Held (V.ReadStore.list values) tail.word tail.bits } by { Prim.hlevel props },
}

impl<V: ReadStore<Item = u64>> Bools<V> {
    ghost use Rattle.bits.specs.Columns.{bits_in, get_answer, first_answer};

    #[tactic(auto, using(bitlaws::proofs::Words::length_bits))]
    pub fn len(&self) -> usize
        ensures { result ≡ length (bits_in V.ReadStore self.now) }
    {
        WORD * self.values.len() + self.tail.bits
    }

    // The store of the full words.
    pub fn words(&self) -> &V
        ensures { result.now ≡ self.now.values }
    {
        &self.values
    }

    // The bits behind the last full word.
    pub fn tail(&self) -> Tail
        ensures { result ≡ self.now.tail }
    {
        self.tail
    }

    // Word `block`, or the tail's behind the last.
    #[tactic(auto, using(crate::proofs::Reading::got_or))]
    pub(crate) fn word(&self, block: usize) -> u64
        ensures { result ≡ slice_index_or (V.ReadStore.list self.now.values) block self.now.tail.word }
    {
        self.values.item(block).unwrap_or(self.tail.word)
    }

    // Bit `index`, refused with 1 outside.
    #[tactic(auto, using(bitlaws::proofs::Words::length_bits, crate::proofs::Reading::get_is))]
    pub fn get(&self, index: usize) -> Result<bool, Fault>
        ensures { result ≡ get_answer (bits_in V.ReadStore self.now) index }
    {
        if index >= self.len() {
            return Err(Fault::Outside(index));
        }
        let w = self.word(index / WORD);
        Ok((w >> (index % WORD)) & 1 == 1)
    }

    // The ones in the first `upper` words, from those in the first `lower`.
    #[tactic(auto, using(bitlaws::proofs::Words::length_bits, bitlaws::proofs::Words::rank_word, bitlaws::proofs::Words::rank_le, crate::proofs::Reading::few_ones))]
    pub(crate) fn ones_up_to(&self, mut count: usize, lower: usize, upper: usize) -> usize
        requires within { (lower ≤ upper) × (upper ≤ length (V.ReadStore.list self.now.values)) }
        requires counted { count ≡ rank_of (bits_in V.ReadStore self.now) (64 * lower) }
        ensures { result ≡ rank_of (bits_in V.ReadStore self.now) (64 * upper) }
    {
        for pos in lower..upper {
            count += word_of(&self.values, pos).count_ones() as usize;
        }
        count
    }

    // The number of the word with the one that `rank` ones stand before, from the ones in the first `start`
    // words on, or the tail's; and the ones before it. No option for the tail: it is the word behind the
    // last, which `word` reads by that number.
    #[tactic(auto, using(bitlaws::proofs::Words::length_bits, bitlaws::proofs::Words::rank_word, bitlaws::proofs::Words::rank_le, crate::proofs::Reading::few_ones))]
    pub(crate) fn word_with(&self, rank: u64, start: usize, mut count: u64) -> (usize, u64)
        requires within { start ≤ length (V.ReadStore.list self.now.values) }
        requires counted { count ≡ rank_of (bits_in V.ReadStore self.now) (64 * start) }
        requires below { count ≤ rank }
        ensures within { result.0 ≤ length (V.ReadStore.list self.now.values) }
        ensures counted { result.1 ≡ rank_of (bits_in V.ReadStore self.now) (64 * result.0) }
        ensures below { result.1 ≤ rank }
        ensures above { result.0 < length (V.ReadStore.list self.now.values) → rank < result.1 + count_ones (slice_index (V.ReadStore.list self.now.values) result.0) }
    {
        let end = self.values.len();
        for block in start..end {
            let pop = word_of(&self.values, block).count_ones() as u64;
            if count + pop > rank {
                return (block, count);
            }
            count += pop;
        }
        (end, count)
    }

    // The first one in word `start` or behind it, the tail's included, or none.
    #[tactic(auto, using(bitlaws::proofs::Firsts::first_word, bitlaws::proofs::Firsts::rank_skip, bitlaws::proofs::Firsts::first_past))]
    fn first_in(&self, start: usize) -> Option<usize>
        ensures { result ≡ first_from (bits_in V.ReadStore self.now) (64 * start) }
    {
        for block in start..=self.values.len() {
            let word = self.word(block);
            if word != 0 {
                return Some(WORD * block + word.trailing_zeros() as usize);
            }
        }
        None
    }

    // The first one at or after `pos`, or none; refused with 1 above the length.
    #[tactic(auto, using(bitlaws::proofs::Words::length_bits, bitlaws::proofs::Firsts::first_here, bitlaws::proofs::Firsts::rank_on, crate::proofs::Reading::first_is, std::proofs::lemmas::Nat::trailing_le))]
    pub fn first_from(&self, pos: usize) -> Result<Option<usize>, Fault>
        ensures { result ≡ first_answer (bits_in V.ReadStore self.now) pos }
    {
        if pos > self.len() {
            return Err(Fault::Outside(pos));
        }
        let block = pos / WORD;
        let here = self.word(block) >> (pos % WORD);
        if here != 0 {
            return Ok(Some(pos + here.trailing_zeros() as usize));
        }
        Ok(self.first_in(block + 1))
    }

    // The bits from `pos` on, of which the lowest `count` are those asked for.
    #[tactic(auto, using(bitlaws::proofs::Words::length_bits, bitlaws::proofs::Ranges::one_word_range, bitlaws::proofs::Ranges::two_word_range))]
    fn bits_from(&self, pos: usize, count: usize) -> u64
        requires count { (0 < count) × (count ≤ 64) }
        requires within { pos + count ≤ length (bits_in V.ReadStore self.now) }
        ensures { low_bits count result ≡ take count (drop pos (bits_in V.ReadStore self.now)) }
    {
        let block = pos / WORD;
        let bit = pos % WORD;
        let low = self.word(block) >> bit;
        if bit + count <= WORD {
            return low;
        }
        low | (self.word(block + 1) << (WORD - bit))
    }

    // The `count` bits from `pos` on.
    pub(crate) fn bits_at(&self, pos: usize, count: usize) -> Group
        requires count { (0 < count) × (count ≤ 64) }
        requires within { pos + count ≤ length (bits_in V.ReadStore self.now) }
        ensures list { low_bits result.count result.word ≡ take count (drop pos (bits_in V.ReadStore self.now)) }
        ensures count { result.count ≡ count }
    {
        Group::lowest(self.bits_from(pos, count), count)
    }
}
