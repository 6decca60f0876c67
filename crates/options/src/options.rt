ghost use Rattle.std.specs.Prelude.{◌≡◌, ℕ, List, [], length, Ok, Err};
ghost use Rattle.std.proofs.Common.{sym, subst, arith};
ghost use Rattle.bitlaws.specs.Bits.{ones_among};
ghost use Rattle.bits.specs.Columns.{column_bits};
ghost use Rattle.options.specs.Entries.{merge};
ghost use Rattle.columns.specs.Kinds.{Each};
ghost use Rattle.columns.proofs.Marked.{marks_few};
ghost use Rattle.options.specs.EntriesLemmas.{merge_length, somes_merge, each_entry};

use crate::fault::{OptionsFault, of_marks, of_somes};
use crate::kind::OptionsKind;
use bits::rank_select::RankSelect;
use columns::column::{Column, Variant};
use columns::granted::rank_in;
use columns::kind::Kind;
use refusals::fault::Fault;
use refusals::refusal::Refusal;
use words::reading::ReadStore;

// Options of a payload's items. Entry i is Some where mark i is a one, and its item is then the payload's
// item number rank(i): so None takes one bit and no item.
#[derive(Drop)]
pub struct Options<T: Column, C: ReadStore<Item = u64>, V: ReadStore<Item = u64>> {
    pub(crate) indexes: RankSelect<C, V>,
    pub(crate) somes: T,
    pub ghost many: { length (T.Column.items somes) ≡ ones_among (column_bits V.ReadStore indexes) },
}

impl<T: Column, C: ReadStore<Item = u64>, V: ReadStore<Item = u64>> Column for Options<T, C, V> {
    type Item = Option<T::Item>;

    type Fault = OptionsFault<T::Fault>;

    type Kind = OptionsKind<T::Kind>;

    ghost items = { λ s. merge (column_bits V.ReadStore s.indexes) (T.Column.items s.somes) };

    ghost lawful = { λ s.
        let bs = column_bits V.ReadStore s.indexes in
        let ss = T.Column.items s.somes in
        let fit = T.Kind.Kind.fit in
        record {
          few = omega (arith, merge_length bs ss s.many, marks_few s.indexes);
          each = each_entry fit (merge bs ss) (subst (Each fit) (sym (somes_merge bs ss s.many)) (T.Column.lawful s.somes).each);
        } };

    #[tactic(auto, using(crate::specs::EntriesLemmas::merge_length))]
    fn len(&self) -> usize {
        self.indexes.len()
    }

    #[tactic(auto, using(columns::proofs::Marked::one_below, words::proofs::Got::got_outside, words::proofs::Got::got_there, crate::specs::EntriesLemmas::merge_length, crate::specs::EntriesLemmas::get_none, crate::specs::EntriesLemmas::get_some))]
    fn get(&self, i: usize) -> Result<Option<T::Item>, OptionsFault<T::Fault>> {
        let some = of_marks(self.indexes.get(i))?;
        if some {
            let x = of_somes(self.somes.get(rank_in(&self.indexes, i)))?;
            Ok(Some(x))
        } else {
            Ok(None)
        }
    }
}

impl<T: Column, C: ReadStore<Item = u64>, V: ReadStore<Item = u64>> Variant for Options<T, C, V> {
    #[tactic(auto, using(crate::specs::EntriesLemmas::marks_merge, crate::specs::EntriesLemmas::merge_length))]
    fn rank(&self, i: usize) -> Result<usize, OptionsFault<T::Fault>> {
        of_marks(self.indexes.rank(i))
    }

    #[tactic(auto, using(crate::specs::EntriesLemmas::marks_merge))]
    fn select(&self, r: u64) -> Option<usize> {
        self.indexes.select(r)
    }
}
