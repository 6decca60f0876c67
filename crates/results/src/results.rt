ghost use Rattle.std.specs.Prelude.{◌≡◌, ℕ, ◌+◌, List, [], length, Ok, Err};
ghost use Rattle.std.proofs.Common.{sym, subst, arith};
ghost use Rattle.bitlaws.specs.Bits.{ones_among};
ghost use Rattle.bits.specs.Columns.{column_bits};
ghost use Rattle.results.specs.Entries.{merge};
ghost use Rattle.columns.specs.Kinds.{Each};
ghost use Rattle.columns.proofs.Marked.{marks_few};
ghost use Rattle.results.specs.EntriesLemmas.{merge_length, oks_merge, errs_merge, each_entry};

use crate::fault::{ResultsFault, of_errs, of_oks};
use crate::kind::ResultsKind;
use bits::rank_select::RankSelect;
use columns::column::{Column, Variant};
use columns::granted::rank_in;
use columns::kind::Kind;
use refusals::fault::Fault;
use refusals::refusal::Refusal;
use words::reading::ReadStore;

// Results of two payloads' items. Entry i is Ok where mark i is a one, and its item is then item rank(i) of
// the Ok payload, and else item i - rank(i) of the Err payload.
#[derive(Drop)]
pub struct Results<S: Column, T: Column, C: ReadStore<Item = u64>, V: ReadStore<Item = u64>> {
    pub(crate) indexes: RankSelect<C, V>,
    pub(crate) oks: S,
    pub(crate) errs: T,
    pub ghost ones: { length (S.Column.items oks) ≡ ones_among (column_bits V.ReadStore indexes) },
    pub ghost zeros: { ones_among (column_bits V.ReadStore indexes) + length (T.Column.items errs) ≡ length (column_bits V.ReadStore indexes) },
}

impl<S: Column, T: Column, C: ReadStore<Item = u64>, V: ReadStore<Item = u64>> Column
    for Results<S, T, C, V> {
    type Item = Result<S::Item, T::Item>;

    type Fault = ResultsFault<S::Fault, T::Fault>;

    type Kind = ResultsKind<S::Kind, T::Kind>;

    ghost items = { λ s. merge (column_bits V.ReadStore s.indexes) (S.Column.items s.oks) (T.Column.items s.errs) };

    ghost lawful = { λ s.
        let bs = column_bits V.ReadStore s.indexes in
        let os = S.Column.items s.oks in
        let es = T.Column.items s.errs in
        let fit_oks = S.Kind.Kind.fit in
        let fit_errs = T.Kind.Kind.fit in
        record {
          few = omega (arith, merge_length bs os es s.ones s.zeros, marks_few s.indexes);
          each = each_entry fit_oks fit_errs (merge bs os es)
              (subst (Each fit_oks) (sym (oks_merge bs os es s.ones s.zeros)) (S.Column.lawful s.oks).each)
              (subst (Each fit_errs) (sym (errs_merge bs os es s.ones s.zeros)) (T.Column.lawful s.errs).each);
        } };

    #[tactic(auto, using(crate::specs::EntriesLemmas::merge_length))]
    fn len(&self) -> usize {
        self.indexes.len()
    }

    #[tactic(auto, using(columns::proofs::Marked::one_below, words::proofs::Got::got_outside, words::proofs::Got::got_there, crate::specs::EntriesLemmas::merge_length, crate::specs::EntriesLemmas::get_ok, crate::specs::EntriesLemmas::get_err))]
    fn get(&self, i: usize) -> Result<Result<S::Item, T::Item>, ResultsFault<S::Fault, T::Fault>> {
        let ok = self.indexes.get(i)?;
        let rank = rank_in(&self.indexes, i);
        if ok {
            let x = of_oks(self.oks.get(rank))?;
            Ok(Ok(x))
        } else {
            let y = of_errs(self.errs.get(i - rank))?;
            Ok(Err(y))
        }
    }
}

// These ask the marks alone, as in `Options`: a text for both would be a trait for two types, of calls of
// one line.
impl<S: Column, T: Column, C: ReadStore<Item = u64>, V: ReadStore<Item = u64>> Variant
    for Results<S, T, C, V> {
    #[tactic(auto, using(crate::specs::EntriesLemmas::marks_merge, crate::specs::EntriesLemmas::merge_length))]
    fn rank(&self, i: usize) -> Result<usize, ResultsFault<S::Fault, T::Fault>> {
        Ok(self.indexes.rank(i)?)
    }

    #[tactic(auto, using(crate::specs::EntriesLemmas::marks_merge))]
    fn select(&self, r: u64) -> Option<usize> {
        self.indexes.select(r)
    }
}
