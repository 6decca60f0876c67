ghost use Rattle.std.specs.Prelude.{◌≡◌, ℕ, true, List, [], ◌∷◌, ◌++◌, length, Ok, Err};
ghost use Rattle.bits.specs.Columns.{column_bits, room_in};
ghost use Rattle.options.specs.Entries.{merge};
ghost use Rattle.options.specs.Limits.{limited, asked};
ghost use Rattle.bits.proofs.Growing.{fits_less};
ghost use Rattle.columns.proofs.Marked.{marks_within};
ghost use Rattle.options.specs.Limiting.{limited_held, limit_begins, limit_asks, limit_third};
ghost use Rattle.std.proofs.Common.{rules};

use crate::fault::{OptionsFault, of_marks, of_somes};
use crate::kind::OptionsKind;
use crate::options::Options;
use bits::rank_select::RankSelect;
use columns::column::{Column, Payload};
use columns::granted::{append_bits, append_items, push_bit, ranks_in};
use columns::kind::Kind;
use refusals::refusal::Refusal;
use words::reading::{GrowStore, ReadStore};

impl<T: Payload, C: GrowStore<Item = u64>, V: GrowStore<Item = u64>> Options<T, C, V> {
    // No entries, over two stores and a payload that are cleared.
    #[tactic(auto, using(columns::proofs::Marked::ones_none))]
    pub fn new(counts: C, values: V, mut somes: T) -> Self
        ensures list { merge (column_bits V.ReadStore result.indexes) (T.Column.items result.somes) ≡ [] }
        ensures room { V.GrowStore.room result.indexes.values.values ≡ V.GrowStore.room values }
        ensures others { C.GrowStore.room result.indexes.counts ≡ C.GrowStore.room counts }
        ensures limit { T.Payload.limit result.somes ≡ T.Payload.limit somes }
        ensures ask { T.Payload.ask result.somes ≡ T.Payload.ask somes }
    {
        somes.clear();
        Options {
            indexes: RankSelect::new(counts, values),
            somes,
        }
    }
}

impl<T: Payload, C: GrowStore<Item = u64>, V: GrowStore<Item = u64>> Payload for Options<T, C, V> {
    ghost limit = { λ s. limited (room_in C.GrowStore.own V.GrowStore.own s.indexes) (T.Payload.limit s.somes) };

    ghost ask = { λ s. asked (room_in C.GrowStore.own V.GrowStore.own s.indexes) (T.Payload.ask s.somes) };

    ghost holds = { λ s.
        limited_held (room_in C.GrowStore.own V.GrowStore.own s.indexes) (T.Payload.limit s.somes) (column_bits V.ReadStore s.indexes) (T.Column.items s.somes) s.many
        (marks_within s.indexes C.GrowStore.own V.GrowStore.own (C.GrowStore.within s.indexes.counts) (V.GrowStore.within s.indexes.values.values)) (T.Payload.holds s.somes) };

    ghost empty = { Prim.search rules };

    ghost begins = { λ s xs ys e.
        limit_begins (room_in C.GrowStore.own V.GrowStore.own s.indexes) (T.Payload.limit s.somes) (T.Payload.ask s.somes)
        (λ m n h. fits_less m n (V.GrowStore.room s.indexes.values.values) (C.GrowStore.room s.indexes.counts) h) (T.Payload.begins s.somes) xs ys e };

    ghost asks = { λ s xs ys. limit_asks (room_in C.GrowStore.own V.GrowStore.own s.indexes) (T.Payload.limit s.somes) (T.Payload.ask s.somes) (T.Payload.asks s.somes) xs ys };

    ghost third = { λ s xs ys f e. limit_third (room_in C.GrowStore.own V.GrowStore.own s.indexes) (T.Payload.limit s.somes) (T.Payload.ask s.somes) T.Fault.Refusal.numbered (T.Payload.third s.somes) xs ys f e };

    fn fits(&self, x: Option<T::Item>) -> Result<(), OptionsFault<T::Fault>> {
        of_marks(self.indexes.room_for(1))?; // one mark, whichever the entry
        // no `map_or`: the proof would have to open its closure
        match x {
            Some(v) => of_somes(self.somes.fits(v)),
            None => Ok(()),
        }
    }

    fn fits_range(
        &self,
        source: &Self,
        start: usize,
        end: usize,
    ) -> Result<(), OptionsFault<T::Fault>> {
        if start >= end {
            return Ok(());
        }
        of_marks(self.indexes.fits_range(&source.indexes, start, end))?;
        let (first, last) = ranks_in(&source.indexes, start, end);
        of_somes(self.somes.fits_range(&source.somes, first, last))
    }

    fn push(&mut self, x: Option<T::Item>) -> Result<(), OptionsFault<T::Fault>> {
        of_marks(self.indexes.room_for(1))?;
        // an arm ends with its own bit: the checker joins no branches in which `x` is held in part
        match x {
            Some(v) => {
                of_somes(self.somes.push(v))?;
                push_bit(&mut self.indexes, true);
                Ok(())
            }
            None => {
                push_bit(&mut self.indexes, false);
                Ok(())
            }
        }
    }

    fn append(
        &mut self,
        source: &Self,
        start: usize,
        end: usize,
    ) -> Result<(), OptionsFault<T::Fault>> {
        self.fits_range(source, start, end)?;
        if start >= end {
            return Ok(());
        }
        let (first, last) = ranks_in(&source.indexes, start, end);
        append_items(&mut self.somes, &source.somes, first, last);
        append_bits(&mut self.indexes, &source.indexes, start, end);
        Ok(())
    }

    #[tactic(auto, using(columns::proofs::Marked::ones_none))]
    fn clear(&mut self) {
        self.indexes.clear();
        self.somes.clear();
    }
}
