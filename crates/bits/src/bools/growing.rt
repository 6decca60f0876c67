ghost use Rattle.std.specs.Prelude.{◌≡◌, ℕ, ◌+◌, ◌-◌, ◌^◌, ◌<◌, ◌≤◌, true, List, [], ◌∷◌, ◌++◌, length, Ok, Err, OnErr};
ghost use Rattle.bitlaws.specs.Bits.{most_bits, low_bits};
ghost use Rattle.bits.specs.Columns.{bits_in, fits_words, push_answer, push_list, group_answer, group_list, range_of, append_answer, append_list};

use crate::bools::Bools;
use crate::group::Group;
use crate::tail::{Tail, WORD};
use refusals::fault::Fault;
use words::reading::{GrowStore, MOST, ReadStore, put_in};

impl<V: GrowStore<Item = u64>> Bools<V> {
    // No bits, over a store that is cleared.
    #[tactic(auto, using(crate::proofs::Growing::empty_list))]
    pub fn new(mut values: V) -> Self
        ensures list { bits_in V.ReadStore result ≡ [] }
        ensures room { V.GrowStore.room result.values ≡ V.GrowStore.room values }
    {
        values.clear();
        Bools {
            values,
            tail: Tail::empty(),
            owned: [],
        }
    }

    // Whether `n` bits are within the limit.
    pub(crate) fn has_room(&self, n: usize) -> bool
        ensures { result ≡ fits_words n (V.GrowStore.room self.now.values) }
    {
        n <= MOST && n / WORD <= self.values.capacity()
    }

    // Whether there is room for `n` more bits: refused with 3 where there is not.
    #[inline]
    #[tactic(auto, using(crate::proofs::Growing::pushed, crate::proofs::Growing::words_tail))]
    fn room_for(&self, n: usize) -> Result<(), Fault>
        ensures { result ≡ push_answer (bits_in V.ReadStore self.now) (fits_words (length (bits_in V.ReadStore self.now) + n) (V.GrowStore.room self.now.values)) }
    {
        // bits that stay in the tail pass no limit
        if n < WORD - self.tail.bits {
            return Ok(());
        }
        let len = self.len();
        if self.has_room(len.saturating_add(n)) {
            Ok(())
        } else {
            Err(Fault::Full(len))
        }
    }

    // Adds a group of bits for which there is room. That is said by the contracts, here and elsewhere, and
    // by no type: it ties a number to a column that changes.
    #[tactic(auto, using(crate::proofs::Growing::tail_list, crate::proofs::Growing::word_room, crate::proofs::Growing::word_list, crate::proofs::Growing::word_held))]
    pub(crate) fn add_bits(&mut self, group: Group)
        requires { fits_words (length (bits_in V.ReadStore self.old) + group.count) (V.GrowStore.room self.old.values) ≡ true }
        ensures list { bits_in V.ReadStore self.new ≡ bits_in V.ReadStore self.old ++ low_bits group.count group.word }
        ensures room { V.GrowStore.room self.new.values ≡ V.GrowStore.room self.old.values }
    {
        let tail = self.tail;
        if tail.bits + group.count < WORD {
            self.tail = tail.with(group.word, group.count);
        } else {
            put_in(&mut self.values, tail.joined(group.word));
            self.tail = tail.rest(group.word, group.count);
        }
    }

    // Adds a bit, refused with 3 where the limit would be passed.
    pub fn push(&mut self, bit: bool) -> Result<(), Fault>
        ensures answer { result ≡ push_answer (bits_in V.ReadStore self.old) (fits_words (length (bits_in V.ReadStore self.old) + 1) (V.GrowStore.room self.old.values)) }
        ensures list { bits_in V.ReadStore self.new ≡ push_list (bits_in V.ReadStore self.old) (fits_words (length (bits_in V.ReadStore self.old) + 1) (V.GrowStore.room self.old.values)) (bit ∷ []) }
        ensures room { V.GrowStore.room self.new.values ≡ V.GrowStore.room self.old.values }
        ensures same { OnErr result (self.new ≡ self.old) }
    {
        self.room_for(1)?;
        self.add_bits(Group::one(bit));
        Ok(())
    }

    // Adds the `count` lowest bits of a group, lowest first: refused with 4 where the count is above 64 or
    // a bit is set at or above it, then with 3.
    pub fn push_bits(&mut self, group: u64, count: usize) -> Result<(), Fault>
        ensures answer { result ≡ group_answer (bits_in V.ReadStore self.old) (fits_words (length (bits_in V.ReadStore self.old) + count) (V.GrowStore.room self.old.values)) group count }
        ensures list { bits_in V.ReadStore self.new ≡ group_list (bits_in V.ReadStore self.old) (fits_words (length (bits_in V.ReadStore self.old) + count) (V.GrowStore.room self.old.values)) group count }
        ensures room { V.GrowStore.room self.new.values ≡ V.GrowStore.room self.old.values }
        ensures same { OnErr result (self.new ≡ self.old) }
    {
        let bits = Group::new(group, count)?;
        self.room_for(count)?;
        self.add_bits(bits);
        Ok(())
    }

    // Adds bits `start` to `end - 1` of a source, a word at a time, for which there is room. A range is two
    // numbers everywhere, as the rules speak of it, and no struct.
    #[tactic(auto, using(bitlaws::proofs::Ranges::range_more))]
    pub(crate) fn add_range<S: ReadStore<Item = u64>>(
        &mut self,
        source: &Bools<S>,
        start: usize,
        end: usize,
    )
        requires within { end ≤ length (bits_in S.ReadStore source.now) }
        requires room { fits_words (length (bits_in V.ReadStore self.old) + (end - start)) (V.GrowStore.room self.old.values) ≡ true }
        ensures list { bits_in V.ReadStore self.new ≡ bits_in V.ReadStore self.old ++ range_of (bits_in S.ReadStore source.now) start end }
        ensures room { V.GrowStore.room self.new.values ≡ V.GrowStore.room self.old.values }
    {
        for pos in (start..end).step_by(WORD) {
            let count = (end - pos).min(WORD);
            self.add_bits(source.bits_at(pos, count));
        }
    }

    // Adds bits `start` to `end - 1` of a source: refused with 2 where the end lies past the source, even
    // for an empty range, then with 3.
    pub fn append<S: ReadStore<Item = u64>>(
        &mut self,
        source: &Bools<S>,
        start: usize,
        end: usize,
    ) -> Result<(), Fault>
        ensures answer { result ≡ append_answer (bits_in V.ReadStore self.old) (fits_words (length (bits_in V.ReadStore self.old) + (end - start)) (V.GrowStore.room self.old.values)) (bits_in S.ReadStore source.now) end }
        ensures list { bits_in V.ReadStore self.new ≡ append_list (bits_in V.ReadStore self.old) (fits_words (length (bits_in V.ReadStore self.old) + (end - start)) (V.GrowStore.room self.old.values)) (bits_in S.ReadStore source.now) start end }
        ensures room { V.GrowStore.room self.new.values ≡ V.GrowStore.room self.old.values }
        ensures same { OnErr result (self.new ≡ self.old) }
    {
        if end > source.len() {
            return Err(Fault::Past(end));
        }
        self.room_for(end.saturating_sub(start))?;
        self.add_range(source, start, end);
        Ok(())
    }

    // Leaves no bits.
    #[tactic(auto, using(crate::proofs::Growing::empty_list))]
    pub fn clear(&mut self)
        ensures list { bits_in V.ReadStore self.new ≡ [] }
        ensures room { V.GrowStore.room self.new.values ≡ V.GrowStore.room self.old.values }
    {
        self.values.clear();
        self.tail = Tail::empty();
    }
}
