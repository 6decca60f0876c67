ghost use Rattle.std.specs.Prelude.{◌≡◌, ℕ, ◌+◌, ◌-◌, ◌*◌, ◌<◌, ◌≤◌, length, None, IfOk, OnErr, ◌≢◌, slice_index_or};
ghost use Rattle.std.specs.Int.Count.{count_trailing_zeros};
ghost use Rattle.bitlaws.specs.Bits.{first_from};
ghost use Rattle.bits.specs.Columns.{column_bits};
ghost use Rattle.cursor.specs.Hint.{above};
ghost use Rattle.cursor.specs.Moves.{spot, next_one, step, to_pos, to_rank, behind_one, meets, ahead, told, left};

use crate::cursor::Cursor;
use bits::rank_select::RankSelect;
use bits::tail::WORD;
use refusals::fault::Fault;
use words::reading::ReadStore;

impl Cursor {
    // A cursor at place 0 of a column.
    pub fn new<C: ReadStore<Item = u64>, V: ReadStore<Item = u64>>(
        column: &RankSelect<C, V>,
    ) -> Self
        ensures at { spot result ≡ (0, 0) }
        ensures length { result.length ≡ length (column_bits V.ReadStore column.now) }
    {
        Cursor {
            place: 0,
            count: 0,
            length: column.len(),
            block: 0,
            word: 0,
            rest: 0,
        }
    }

    // The next place to look at.
    pub fn pos(&self) -> usize
        ensures { result ≡ self.now.place }
    {
        self.place
    }

    // The count of ones that the walk has come to.
    pub fn rank(&self) -> u64
        ensures { result ≡ self.now.count }
    {
        self.count
    }

    // The length of the column that the walk is over.
    pub fn total_bits(&self) -> usize
        ensures { result ≡ self.now.length }
    {
        self.length
    }

    // The next one at or after the place, or none; the place is then behind it. For walking over all ones.
    #[tactic(auto, using(bitlaws::proofs::Words::length_bits, crate::proofs::Bounds::first_bounds, crate::proofs::Hints::some_at, crate::proofs::Hints::some_in, crate::proofs::Hints::none_at))]
    pub fn next_one<C: ReadStore<Item = u64>, V: ReadStore<Item = u64>>(
        &mut self,
        column: &RankSelect<C, V>,
    ) -> Result<Option<usize>, Fault>
        ensures answer { result ≡ told (meets (column_bits V.ReadStore column.now) self.old.length) (next_one (column_bits V.ReadStore column.now) (spot self.old)).0 }
        ensures moved { spot self.new ≡ left (meets (column_bits V.ReadStore column.now) self.old.length) (next_one (column_bits V.ReadStore column.now) (spot self.old)).1 (spot self.old) }
        ensures length { self.new.length ≡ self.old.length }
        ensures same { OnErr result (self.new ≡ self.old) }
    {
        let n = self.meets(column)?;
        let word = word_in(column, self.block);
        let rest = self.left_of(word);
        if rest != 0 {
            *self = self.behind(word, rest);
            return Ok(Some(self.place - 1));
        }
        let found = one_from(column, self.block + 1);
        match found {
            Some(q) => *self = self.at(q + 1, self.count + 1),
            None => *self = self.at(self.place.max(WORD * (n / WORD)), self.count),
        }
        Ok(found)
    }

    // The bit at the place, which is stepped over and counted, or none at the end. For walking over all
    // bits. A match and no `map`: its first arm moves the cursor.
    pub fn step<C: ReadStore<Item = u64>, V: ReadStore<Item = u64>>(
        &mut self,
        column: &RankSelect<C, V>,
    ) -> Result<Option<bool>, Fault>
        ensures answer { result ≡ told (meets (column_bits V.ReadStore column.now) self.old.length) (step (column_bits V.ReadStore column.now) (spot self.old)).0 }
        ensures moved { spot self.new ≡ left (meets (column_bits V.ReadStore column.now) self.old.length) (step (column_bits V.ReadStore column.now) (spot self.old)).1 (spot self.old) }
        ensures length { self.new.length ≡ self.old.length }
        ensures same { OnErr result (self.new ≡ self.old) }
    {
        self.meets(column)?;
        match column.get(self.place) {
            Ok(bit) => {
                *self = self.at(self.place + 1, self.count + bit as u64);
                Ok(Some(bit))
            }
            Err(_) => Ok(None),
        }
    }

    // Goes to a place, and counts the ones before it; false, and at the end, where there is no such place.
    #[tactic(auto, using(crate::proofs::Bounds::rank_bound))]
    pub fn seek_to_pos<C: ReadStore<Item = u64>, V: ReadStore<Item = u64>>(
        &mut self,
        column: &RankSelect<C, V>,
        target: usize,
    ) -> Result<bool, Fault>
        ensures answer { result ≡ told (ahead (column_bits V.ReadStore column.now) self.old.length target self.old.place) (to_pos (column_bits V.ReadStore column.now) target (spot self.old)).0 }
        ensures moved { spot self.new ≡ left (ahead (column_bits V.ReadStore column.now) self.old.length target self.old.place) (to_pos (column_bits V.ReadStore column.now) target (spot self.old)).1 (spot self.old) }
        ensures length { self.new.length ≡ self.old.length }
        ensures same { OnErr result (self.new ≡ self.old) }
    {
        let n = self.meets(column)?;
        if target < self.place {
            return Err(Fault::Behind(target as u64));
        }
        if target >= n {
            *self = self.at(n, self.count);
            return Ok(false);
        }
        let count = column.rank(target).unwrap();
        *self = self.at(target, count as u64);
        Ok(true)
    }

    // Goes behind the one that `target` ones stand before, which it answers; none, and at the end, where
    // there is no such one.
    #[tactic(auto, using(crate::proofs::Bounds::select_bounds))]
    pub fn seek_to_rank<C: ReadStore<Item = u64>, V: ReadStore<Item = u64>>(
        &mut self,
        column: &RankSelect<C, V>,
        target: u64,
    ) -> Result<Option<usize>, Fault>
        ensures answer { result ≡ told (ahead (column_bits V.ReadStore column.now) self.old.length target self.old.count) (to_rank (column_bits V.ReadStore column.now) target (spot self.old)).0 }
        ensures moved { spot self.new ≡ left (ahead (column_bits V.ReadStore column.now) self.old.length target self.old.count) (to_rank (column_bits V.ReadStore column.now) target (spot self.old)).1 (spot self.old) }
        ensures length { self.new.length ≡ self.old.length }
        ensures same { OnErr result (self.new ≡ self.old) }
    {
        let n = self.meets(column)?;
        if target < self.count {
            return Err(Fault::Behind(target));
        }
        let found = column.select(target);
        match found {
            Some(q) => *self = self.at(q + 1, target + 1),
            None => *self = self.at_end(column),
        }
        Ok(found)
    }

    // The column's length, which is the cursor's: refused with 5 where it is another.
    fn meets<C: ReadStore<Item = u64>, V: ReadStore<Item = u64>>(
        &self,
        column: &RankSelect<C, V>,
    ) -> Result<usize, Fault>
        ensures answer { result ≡ told (meets (column_bits V.ReadStore column.now) self.now.length) (length (column_bits V.ReadStore column.now)) }
        ensures met { IfOk result (λ n. (n ≡ length (column_bits V.ReadStore column.now)) × (n ≡ self.now.length)) }
    {
        let n = column.len();
        if n == self.length {
            Ok(n)
        } else {
            Err(Fault::Length(n))
        }
    }

    // The cursor with another place and count.
    fn at(&self, place: usize, count: u64) -> Self
        requires { (count ≤ place) × (place ≤ self.now.length) }
        ensures at { spot result ≡ (place, count) }
        ensures length { result.length ≡ self.now.length }
    {
        Cursor {
            place,
            count,
            length: self.length,
            block: place / WORD,
            word: 0,
            rest: 0,
        }
    }

    // What of a word in the cursor's block lies at or after the place.
    fn left_of(&self, word: u64) -> u64
        ensures { result ≡ above word (self.now.place - 64 * self.now.block) }
    {
        if word == self.word {
            return self.rest;
        }
        let bit = self.place - WORD * self.block;
        if bit < WORD { (word >> bit) << bit } else { 0 }
    }

    // The cursor behind the lowest one of what is left of a word in its block.
    #[tactic(auto, using(crate::proofs::Hints::past_r, crate::proofs::Hints::in_word, crate::proofs::Hints::cleared))]
    fn behind(&self, word: u64, rest: u64) -> Self
        requires rest { rest ≡ above word (self.now.place - 64 * self.now.block) }
        requires some { rest ≢ 0 }
        requires within { 64 * self.now.block + count_trailing_zeros 64 rest < self.now.length }
        ensures at { spot result ≡ (64 * self.now.block + count_trailing_zeros 64 rest + 1, self.now.count + 1) }
        ensures length { result.length ≡ self.now.length }
    {
        Cursor {
            place: WORD * self.block + rest.trailing_zeros() as usize + 1,
            count: self.count + 1,
            length: self.length,
            block: self.block,
            word,
            rest: rest & (rest - 1),
        }
    }

    // The cursor at the end, with the ones of the whole words: what a seek past the last one leaves.
    #[tactic(auto, using(crate::proofs::Bounds::rank_bound))]
    fn at_end<C: ReadStore<Item = u64>, V: ReadStore<Item = u64>>(
        &self,
        column: &RankSelect<C, V>,
    ) -> Self
        requires length { length (column_bits V.ReadStore column.now) ≡ self.now.length }
        ensures at { spot result ≡ behind_one (column_bits V.ReadStore column.now) 0 None }
        ensures length { result.length ≡ self.now.length }
    {
        let n = column.len();
        let count = column.rank(WORD * (n / WORD)).unwrap();
        self.at(n, count as u64)
    }
}

// The word of a block that the column has.
fn word_in<C: ReadStore<Item = u64>, V: ReadStore<Item = u64>>(
    column: &RankSelect<C, V>,
    block: usize,
) -> u64
    requires within { block ≤ length (V.ReadStore.list column.now.values.values) }
    ensures { result ≡ slice_index_or (V.ReadStore.list column.now.values.values) block column.now.values.tail.word }
{
    column.word_at(block).unwrap()
}

// The first one in a block or behind it.
#[tactic(auto, using(crate::proofs::Hints::first_or_none))]
fn one_from<C: ReadStore<Item = u64>, V: ReadStore<Item = u64>>(
    column: &RankSelect<C, V>,
    block: usize,
) -> Option<usize>
    requires near { block ≤ length (V.ReadStore.list column.now.values.values) + 1 }
    ensures { result ≡ first_from (column_bits V.ReadStore column.now) (64 * block) }
{
    column.first_from(WORD * block).unwrap_or(None)
}
