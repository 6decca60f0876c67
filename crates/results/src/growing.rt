ghost use Rattle.std.specs.Prelude.{◌≡◌, ℕ, true, List, [], ◌∷◌, ◌++◌, length, Ok, Err};
ghost use Rattle.bits.specs.Columns.{column_bits, room_in};
ghost use Rattle.results.specs.Entries.{merge};
ghost use Rattle.results.specs.Limits.{limited, asked};
ghost use Rattle.bits.proofs.Growing.{fits_less};
ghost use Rattle.columns.proofs.Marked.{marks_within};
ghost use Rattle.results.specs.Limiting.{limited_held, limit_begins, limit_asks, limit_third};
ghost use Rattle.std.proofs.Common.{rules};

use crate::fault::{ResultsFault, of_errs, of_oks};
use crate::kind::ResultsKind;
use crate::results::Results;
use bits::rank_select::RankSelect;
use columns::column::{Column, Payload};
use columns::granted::{append_bits, append_items, push_bit, ranks_in};
use columns::kind::Kind;
use refusals::refusal::Refusal;
use words::reading::{GrowStore, ReadStore};

impl<S: Payload, T: Payload, C: GrowStore<Item = u64>, V: GrowStore<Item = u64>> Results<
    S,
    T,
    C,
    V,
> {
    // No entries, over two stores and two payloads that are cleared.
    #[tactic(auto, using(columns::proofs::Marked::ones_none))]
    pub fn new(counts: C, values: V, mut oks: S, mut errs: T) -> Self
        ensures list { merge (column_bits V.ReadStore result.indexes) (S.Column.items result.oks) (T.Column.items result.errs) ≡ [] }
        ensures room { V.GrowStore.room result.indexes.values.values ≡ V.GrowStore.room values }
        ensures others { C.GrowStore.room result.indexes.counts ≡ C.GrowStore.room counts }
        ensures limit { (S.Payload.limit result.oks ≡ S.Payload.limit oks) × (T.Payload.limit result.errs ≡ T.Payload.limit errs) }
        ensures ask { (S.Payload.ask result.oks ≡ S.Payload.ask oks) × (T.Payload.ask result.errs ≡ T.Payload.ask errs) }
    {
        oks.clear();
        errs.clear();
        Results {
            indexes: RankSelect::new(counts, values),
            oks,
            errs,
        }
    }
}

impl<S: Payload, T: Payload, C: GrowStore<Item = u64>, V: GrowStore<Item = u64>> Payload
    for Results<S, T, C, V> {
    ghost limit = { λ s. limited (room_in C.GrowStore.own V.GrowStore.own s.indexes) (S.Payload.limit s.oks) (T.Payload.limit s.errs) };

    ghost ask = { λ s. asked (room_in C.GrowStore.own V.GrowStore.own s.indexes) (S.Payload.ask s.oks) (T.Payload.ask s.errs) };

    ghost holds = { λ s.
        limited_held (room_in C.GrowStore.own V.GrowStore.own s.indexes) (S.Payload.limit s.oks) (T.Payload.limit s.errs) (column_bits V.ReadStore s.indexes) (S.Column.items s.oks) (T.Column.items s.errs) s.ones s.zeros
        (marks_within s.indexes C.GrowStore.own V.GrowStore.own (C.GrowStore.within s.indexes.counts) (V.GrowStore.within s.indexes.values.values)) (S.Payload.holds s.oks) (T.Payload.holds s.errs) };

    ghost empty = { Prim.search rules };

    ghost begins = { λ s xs ys e.
        limit_begins (room_in C.GrowStore.own V.GrowStore.own s.indexes) (S.Payload.limit s.oks) (T.Payload.limit s.errs) (S.Payload.ask s.oks) (T.Payload.ask s.errs)
        (λ m n h. fits_less m n (V.GrowStore.room s.indexes.values.values) (C.GrowStore.room s.indexes.counts) h) (S.Payload.begins s.oks) (T.Payload.begins s.errs) xs ys e };

    ghost asks = { λ s xs ys.
        limit_asks (room_in C.GrowStore.own V.GrowStore.own s.indexes) (S.Payload.limit s.oks) (T.Payload.limit s.errs) (S.Payload.ask s.oks) (T.Payload.ask s.errs)
        (S.Payload.asks s.oks) (T.Payload.asks s.errs) xs ys };

    ghost third = { λ s xs ys f e.
        limit_third (room_in C.GrowStore.own V.GrowStore.own s.indexes) (S.Payload.limit s.oks) (T.Payload.limit s.errs) (S.Payload.ask s.oks) (T.Payload.ask s.errs)
        S.Fault.Refusal.numbered T.Fault.Refusal.numbered (S.Payload.third s.oks) (T.Payload.third s.errs) xs ys f e };

    fn fits(&self, x: Result<S::Item, T::Item>) -> Result<(), ResultsFault<S::Fault, T::Fault>> {
        self.indexes.room_for(1)?; // one mark, whichever the entry
        match x {
            Ok(v) => of_oks(self.oks.fits(v)),
            Err(w) => of_errs(self.errs.fits(w)),
        }
    }

    fn fits_range(
        &self,
        source: &Self,
        start: usize,
        end: usize,
    ) -> Result<(), ResultsFault<S::Fault, T::Fault>> {
        if start >= end {
            return Ok(());
        }
        self.indexes.fits_range(&source.indexes, start, end)?;
        let (first, last) = ranks_in(&source.indexes, start, end);
        of_oks(self.oks.fits_range(&source.oks, first, last))?;
        of_errs(
            self.errs
                .fits_range(&source.errs, start - first, end - last),
        )
    }

    fn push(
        &mut self,
        x: Result<S::Item, T::Item>,
    ) -> Result<(), ResultsFault<S::Fault, T::Fault>> {
        self.indexes.room_for(1)?;
        // an arm ends with its own bit, as in `Options`
        match x {
            Ok(v) => {
                of_oks(self.oks.push(v))?;
                push_bit(&mut self.indexes, true);
                Ok(())
            }
            Err(w) => {
                of_errs(self.errs.push(w))?;
                push_bit(&mut self.indexes, false);
                Ok(())
            }
        }
    }

    fn append(
        &mut self,
        source: &Self,
        start: usize,
        end: usize,
    ) -> Result<(), ResultsFault<S::Fault, T::Fault>> {
        self.fits_range(source, start, end)?;
        if start >= end {
            return Ok(());
        }
        let (first, last) = ranks_in(&source.indexes, start, end);
        append_items(&mut self.oks, &source.oks, first, last);
        append_items(&mut self.errs, &source.errs, start - first, end - last);
        append_bits(&mut self.indexes, &source.indexes, start, end);
        Ok(())
    }

    #[tactic(auto, using(columns::proofs::Marked::ones_none))]
    fn clear(&mut self) {
        self.indexes.clear();
        self.oks.clear();
        self.errs.clear();
    }
}
