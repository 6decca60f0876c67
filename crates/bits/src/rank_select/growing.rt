ghost use Rattle.std.specs.Prelude.{◌≡◌, ℕ, ◌+◌, ◌-◌, ◌*◌, ◌/◌, ◌^◌, ◌<◌, ◌≤◌, true, List, [], ◌∷◌, ◌++◌, length, Ok, Err, OnErr};
ghost use Rattle.bitlaws.specs.Bits.{most_bits, low_bits, rank_of, Counted, Lagging};
ghost use Rattle.bits.specs.Columns.{bits_in, column_bits, room_in, push_answer, push_list, group_answer, group_list, append_answer, append_list};

use crate::bools::Bools;
use crate::group::Group;
use crate::rank_select::{BITS_PER_CHUNK, RankSelect, WORDS_PER_CHUNK, before_chunk};
use crate::tail::WORD;
use refusals::fault::Fault;
use words::reading::{GrowStore, ReadStore, put_in};

impl<C: GrowStore<Item = u64>, V: GrowStore<Item = u64>> RankSelect<C, V> {
    // No bits, over two stores that are cleared.
    pub fn new(mut counts: C, values: V) -> Self
        ensures list { column_bits V.ReadStore result ≡ [] }
        ensures room { V.GrowStore.room result.values.values ≡ V.GrowStore.room values }
        ensures others { C.GrowStore.room result.counts ≡ C.GrowStore.room counts }
    {
        counts.clear();
        RankSelect {
            counts,
            values: Bools::new(values),
        }
    }

    // Whether `n` bits are within the limit.
    pub fn has_room(&self, n: usize) -> bool
        ensures { result ≡ room_in C.GrowStore.own V.GrowStore.own self.now n }
    {
        self.values.has_room(n) && n / BITS_PER_CHUNK <= self.counts.capacity()
    }

    // Whether there is room for `n` more bits: refused with 3 where there is not.
    #[inline]
    #[tactic(auto, using(crate::proofs::Growing::pushed, crate::proofs::Growing::fits_tail))]
    pub fn room_for(&self, n: usize) -> Result<(), Fault>
        ensures { result ≡ push_answer (column_bits V.ReadStore self.now) (room_in C.GrowStore.own V.GrowStore.own self.now (length (column_bits V.ReadStore self.now) + n)) }
    {
        // bits that stay in the tail pass no limit
        if n < WORD - self.values.tail().bits {
            return Ok(());
        }
        let len = self.len();
        if self.has_room(len.saturating_add(n)) {
            Ok(())
        } else {
            Err(Fault::Full(len))
        }
    }

    // Whether bits `start` to `end - 1` of a source can be added: refused with 2 where the end lies past
    // the source, even for an empty range, then with 3.
    pub fn fits_range<D: ReadStore<Item = u64>, S: ReadStore<Item = u64>>(
        &self,
        source: &RankSelect<D, S>,
        start: usize,
        end: usize,
    ) -> Result<(), Fault>
        ensures { result ≡ append_answer (column_bits V.ReadStore self.now) (room_in C.GrowStore.own V.GrowStore.own self.now (length (column_bits V.ReadStore self.now) + (end - start))) (column_bits S.ReadStore source.now) end }
    {
        if end > source.len() {
            return Err(Fault::Past(end));
        }
        self.room_for(end.saturating_sub(start))
    }

    // Adds a group of bits for which there is room.
    #[tactic(auto, using(bitlaws::proofs::Words::length_low, bitlaws::proofs::Counts::lag, crate::proofs::Growing::fits_all))]
    fn add_bits(&mut self, group: Group)
        requires { room_in C.GrowStore.own V.GrowStore.own self.old (length (column_bits V.ReadStore self.old) + group.count) ≡ true }
        ensures list { column_bits V.ReadStore self.new ≡ column_bits V.ReadStore self.old ++ low_bits group.count group.word }
        ensures room { V.GrowStore.room self.new.values.values ≡ V.GrowStore.room self.old.values.values }
        ensures others { C.GrowStore.room self.new.counts ≡ C.GrowStore.room self.old.counts }
    {
        self.values.add_bits(group);
        update_counts(&mut self.counts, &self.values);
    }

    // Adds a bit that stays in the tail.
    #[tactic(auto, using(bitlaws::proofs::Words::length_bits, bitlaws::proofs::Counts::lag, bitlaws::proofs::Counts::caught, std::proofs::lemmas::List::length_push))]
    fn add_to_tail(&mut self, bit: bool)
        requires stays { self.old.values.tail.bits < 63 }
        requires room { room_in C.GrowStore.own V.GrowStore.own self.old (length (column_bits V.ReadStore self.old) + 1) ≡ true }
        ensures list { column_bits V.ReadStore self.new ≡ column_bits V.ReadStore self.old ++ (bit ∷ []) }
        ensures room { V.GrowStore.room self.new.values.values ≡ V.GrowStore.room self.old.values.values }
        ensures others { C.GrowStore.room self.new.counts ≡ C.GrowStore.room self.old.counts }
    {
        self.values.add_bits(Group::one(bit));
    }

    // Adds a bit, refused with 3 where the limit would be passed. Why beside that of `Bools`: see
    // `push_bits`. A hint to inline, since most calls end at the first test.
    #[inline]
    #[tactic(auto, using(crate::proofs::Growing::pushed, crate::proofs::Growing::pushed_list, crate::proofs::Growing::fits_tail))]
    pub fn push(&mut self, bit: bool) -> Result<(), Fault>
        ensures answer { result ≡ push_answer (column_bits V.ReadStore self.old) (room_in C.GrowStore.own V.GrowStore.own self.old (length (column_bits V.ReadStore self.old) + 1)) }
        ensures list { column_bits V.ReadStore self.new ≡ push_list (column_bits V.ReadStore self.old) (room_in C.GrowStore.own V.GrowStore.own self.old (length (column_bits V.ReadStore self.old) + 1)) (bit ∷ []) }
        ensures room { V.GrowStore.room self.new.values.values ≡ V.GrowStore.room self.old.values.values }
        ensures others { C.GrowStore.room self.new.counts ≡ C.GrowStore.room self.old.counts }
        ensures same { OnErr result (self.new ≡ self.old) }
    {
        // a bit that stays in the tail passes no limit, and no count is due
        if self.values.tail().bits < WORD - 1 {
            self.add_to_tail(bit);
            return Ok(());
        }
        self.room_for(1)?;
        self.add_bits(Group::one(bit));
        Ok(())
    }

    // Adds the `count` lowest bits of a group, lowest first: refused with 4 where the count is above 64 or
    // a bit is set at or above it, then with 3. This, `room_for`, `push` and `append` are those of `Bools`
    // under another limit, and counts follow: a text for both would be a trait for two types.
    pub fn push_bits(&mut self, group: u64, count: usize) -> Result<(), Fault>
        ensures answer { result ≡ group_answer (column_bits V.ReadStore self.old) (room_in C.GrowStore.own V.GrowStore.own self.old (length (column_bits V.ReadStore self.old) + count)) group count }
        ensures list { column_bits V.ReadStore self.new ≡ group_list (column_bits V.ReadStore self.old) (room_in C.GrowStore.own V.GrowStore.own self.old (length (column_bits V.ReadStore self.old) + count)) group count }
        ensures room { V.GrowStore.room self.new.values.values ≡ V.GrowStore.room self.old.values.values }
        ensures others { C.GrowStore.room self.new.counts ≡ C.GrowStore.room self.old.counts }
        ensures same { OnErr result (self.new ≡ self.old) }
    {
        let bits = Group::new(group, count)?;
        self.room_for(count)?;
        self.add_bits(bits);
        Ok(())
    }

    // Adds bits `start` to `end - 1` of a source, a word at a time: refused with 2 where the end lies past
    // the source, even for an empty range, then with 3. Why beside that of `Bools`: see `push_bits`.
    pub fn append<D: ReadStore<Item = u64>, S: ReadStore<Item = u64>>(
        &mut self,
        source: &RankSelect<D, S>,
        start: usize,
        end: usize,
    ) -> Result<(), Fault>
        ensures answer { result ≡ append_answer (column_bits V.ReadStore self.old) (room_in C.GrowStore.own V.GrowStore.own self.old (length (column_bits V.ReadStore self.old) + (end - start))) (column_bits S.ReadStore source.now) end }
        ensures list { column_bits V.ReadStore self.new ≡ append_list (column_bits V.ReadStore self.old) (room_in C.GrowStore.own V.GrowStore.own self.old (length (column_bits V.ReadStore self.old) + (end - start))) (column_bits S.ReadStore source.now) start end }
        ensures room { V.GrowStore.room self.new.values.values ≡ V.GrowStore.room self.old.values.values }
        ensures others { C.GrowStore.room self.new.counts ≡ C.GrowStore.room self.old.counts }
        ensures same { OnErr result (self.new ≡ self.old) }
    {
        self.fits_range(source, start, end)?;
        self.values.add_range(&source.values, start, end);
        update_counts(&mut self.counts, &self.values);
        Ok(())
    }

    // Leaves no bits.
    pub fn clear(&mut self)
        ensures list { column_bits V.ReadStore self.new ≡ [] }
        ensures room { V.GrowStore.room self.new.values.values ≡ V.GrowStore.room self.old.values.values }
        ensures others { C.GrowStore.room self.new.counts ≡ C.GrowStore.room self.old.counts }
    {
        self.counts.clear();
        self.values.clear();
    }
}

// The number of ones in the first `chunk + 1` chunks, from the counts of those before.
#[tactic(auto, using(bitlaws::proofs::Words::length_bits, crate::proofs::Reading::before_words))]
fn next_count<C: ReadStore<Item = u64>, V: ReadStore<Item = u64>>(
    counts: &C,
    values: &Bools<V>,
    chunk: usize,
) -> usize
    requires counted { Lagging (C.ReadStore.list counts.now) (bits_in V.ReadStore values.now) }
    requires chunk { chunk ≤ length (C.ReadStore.list counts.now) }
    requires within { chunk < length (bits_in V.ReadStore values.now) / 1024 }
    ensures { result ≡ rank_of (bits_in V.ReadStore values.now) (1024 * (chunk + 1)) }
{
    let lower = WORDS_PER_CHUNK * chunk;
    values.ones_up_to(before_chunk(counts, chunk), lower, lower + WORDS_PER_CHUNK)
}

// Adds the counts that are missing.
fn update_counts<C: GrowStore<Item = u64>, V: ReadStore<Item = u64>>(
    counts: &mut C,
    values: &Bools<V>,
)
    requires lagging { Lagging (C.ReadStore.list counts.old) (bits_in V.ReadStore values.now) }
    requires room { length (bits_in V.ReadStore values.now) / 1024 ≤ C.GrowStore.room counts.old }
    ensures counted { Counted (C.ReadStore.list counts.new) (bits_in V.ReadStore values.now) }
    ensures room { C.GrowStore.room counts.new ≡ C.GrowStore.room counts.old }
{
    for chunk in counts.len()..values.len() / BITS_PER_CHUNK {
        let count = next_count(counts, values, chunk);
        put_in(counts, count as u64);
    }
}
