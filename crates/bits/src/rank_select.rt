ghost use Rattle.std.specs.Prelude.{◌≡◌, ℕ, ◌+◌, ◌-◌, ◌*◌, ◌/◌, ◌^◌, ◌<◌, ◌≤◌, true, List, [], ◌∷◌, ◌++◌, length, Ok, Err, slice_index, nat_lt, if◌then◌else◌};
ghost use Rattle.std.proofs.Props.{props};
ghost use Rattle.bitlaws.specs.Bits.{bits_of, rank_of, select_of, Counted};

use crate::bools::Bools;
use crate::in_word::select_in_word;
use crate::tail::WORD;
use refusals::fault::Fault;
use words::reading::{GrowStore, ReadStore, put_in, word_of};

pub mod growing;

// The words that one count spans, and their bits: about 6 % of memory on top of the bits.
const WORDS_PER_CHUNK: usize = 16;

const BITS_PER_CHUNK: usize = 1024;

// Bits with the number of ones after each whole chunk of 1,024, so that rank reads one count and at
// most 16 words.
#[derive(Drop)]
pub struct RankSelect<C: ReadStore<Item = u64>, V: ReadStore<Item = u64>> {
    counts: C,
    values: Bools<V>,
    pub ghost counted: { Counted (C.ReadStore.list counts) (bits_of (V.ReadStore.list values.values) values.tail.word values.tail.bits) } by { Prim.hlevel props },
}

impl<C: ReadStore<Item = u64>, V: ReadStore<Item = u64>> RankSelect<C, V> {
    ghost use Rattle.bits.specs.Columns.{column_bits, get_answer, rank_answer, first_answer, word_or_tail};

    pub fn len(&self) -> usize
        ensures { result ≡ length (column_bits V.ReadStore self.now) }
    {
        self.values.len()
    }

    // The store of the counts.
    pub fn counts(&self) -> &C
        ensures { result.now ≡ self.now.counts }
    {
        &self.counts
    }

    // The bits without the counts.
    pub fn values(&self) -> &Bools<V>
        ensures { result.now ≡ self.now.values }
    {
        &self.values
    }

    // Bit `index`, refused with 1 outside.
    pub fn get(&self, index: usize) -> Result<bool, Fault>
        ensures { result ≡ get_answer (column_bits V.ReadStore self.now) index }
    {
        self.values.get(index)
    }

    // Full word `block`, or the tail's behind the last one; refused with 1 past it.
    #[tactic(auto, using(bitlaws::proofs::Words::length_bits))]
    pub fn word_at(&self, block: usize) -> Result<u64, Fault>
        ensures { result ≡ word_or_tail (V.ReadStore.list self.now.values.values) self.now.values.tail.word block }
    {
        if block > self.values.words().len() {
            return Err(Fault::Outside(block));
        }
        Ok(self.values.word(block))
    }

    // The first one at or after `pos`, or none; refused with 1 above the length.
    pub fn first_from(&self, pos: usize) -> Result<Option<usize>, Fault>
        ensures { result ≡ first_answer (column_bits V.ReadStore self.now) pos }
    {
        self.values.first_from(pos)
    }

    // The number of ones before `index`, refused with 1 above the length.
    #[tactic(auto, using(bitlaws::proofs::Words::length_bits, bitlaws::proofs::Words::rank_le, crate::proofs::Reading::rank_sum, crate::proofs::Reading::rank_is, crate::proofs::Reading::before_words))]
    pub fn rank(&self, index: usize) -> Result<usize, Fault>
        ensures { result ≡ rank_answer (column_bits V.ReadStore self.now) index }
    {
        if index > self.len() {
            return Err(Fault::Outside(index));
        }
        let block = index / WORD;
        let chunk = block / WORDS_PER_CHUNK;
        let count = self.values.ones_up_to(
            before_chunk(&self.counts, chunk),
            WORDS_PER_CHUNK * chunk,
            block,
        );
        let word = self.values.word(block);
        Ok(count + (word & ((1 << (index % WORD)) - 1)).count_ones() as usize)
    }

    // The first chunk after which more than `rank` ones stand, by halving over the counts; behind the
    // last count where there is none. A loop by hand: `partition_point` is of slices, and a store is
    // none.
    #[tactic(auto, using(bitlaws::proofs::Words::rank_none))]
    fn chunk_with(&self, rank: u64) -> usize
        ensures within { result ≤ length (C.ReadStore.list self.now.counts) }
        ensures below { rank_of (column_bits V.ReadStore self.now) (1024 * result) ≤ rank }
        ensures above { result < length (C.ReadStore.list self.now.counts) → rank < slice_index (C.ReadStore.list self.now.counts) result }
    {
        let mut lo = 0;
        let mut hi = self.counts.len();
        while lo < hi {
            let mid = lo + (hi - lo) / 2;
            if word_of(&self.counts, mid) <= rank {
                lo = mid + 1;
            } else {
                hi = mid;
            }
        }
        lo
    }

    // The place of the one that `rank` ones stand before, or none.
    #[tactic(auto, using(bitlaws::proofs::Words::length_bits, crate::proofs::Reading::before_is))]
    pub fn select(&self, rank: u64) -> Option<usize>
        ensures { result ≡ select_of (column_bits V.ReadStore self.now) rank }
    {
        let chunk = self.chunk_with(rank);
        let before = before_chunk(&self.counts, chunk);
        let (block, count) = self
            .values
            .word_with(rank, WORDS_PER_CHUNK * chunk, before as u64);
        let bit = select_in_word(self.values.word(block), rank - count)?;
        Some(WORD * block + bit)
    }
}

// The ones before chunk `chunk`: the count of the chunk before it.
pub(crate) fn before_chunk<C: ReadStore<Item = u64>>(counts: &C, chunk: usize) -> usize
    requires { chunk ≤ length (C.ReadStore.list counts.now) }
    ensures { result ≡ (if nat_lt 0 chunk then slice_index (C.ReadStore.list counts.now) (chunk - 1) else 0) }
{
    if chunk > 0 {
        word_of(counts, chunk - 1) as usize
    } else {
        0
    }
}
