ghost use Rattle.std.specs.Prelude.{◌≡◌, ℕ, ◌+◌, ◌-◌, ◌<◌, ◌≤◌, true, List, [], ◌∷◌, ◌++◌, length, Ok, Err};
ghost use Rattle.columns.specs.Kinds.{Each, most_items};
ghost use Rattle.columns.specs.Plain.{part, within, within_answer};
ghost use Rattle.std.proofs.Common.{rules, le-leb};
ghost use Rattle.columns.proofs.Lists.{each_alone, each_given};
ghost use Rattle.columns.proofs.Within.{within_begins, within_asks, within_third};

use crate::kind::WordsKind;
use columns::asking::{one_within, range_within};
use columns::column::{Column, Payload};
use columns::kind::{Kind, Plain};
use refusals::fault::Fault;
use refusals::refusal::Refusal;
use std::marker::PhantomData;
use words::reading::{GrowStore, Owned, ReadStore, item_of, put_in};

// Plain items, one after the other: the store's capacity is the limit.
#[derive(Drop)]
pub struct Items<S: ReadStore, K: Plain<S::Item>> {
    pub(crate) store: S,
    kind: PhantomData<K>,
    owned: Owned,
    pub ghost few: { length (S.ReadStore.list store) ≤ most_items },
    pub ghost each: { Each K.Plain.fitting (S.ReadStore.list store) } by { each_alone K.Plain.fitting K.Plain.alone (S.ReadStore.list store) },
}

// A column of words over any store of them.
pub type Words<S> = Items<S, WordsKind>;

impl<S: GrowStore, K: Plain<S::Item>> Items<S, K> {
    // No items, over a store that is cleared.
    pub fn new(mut store: S) -> Self
        ensures list { S.ReadStore.list result.store ≡ [] }
        ensures room { S.GrowStore.room result.store ≡ S.GrowStore.room store }
    {
        store.clear();
        Items {
            store,
            kind: PhantomData,
            owned: [],
        }
    }
}

// Adds items `start` to `end - 1` of a source to a store that has room for them.
#[tactic(auto, using(columns::proofs::Lists::length_part, columns::proofs::Lists::part_added))]
fn add_range<S: GrowStore>(store: &mut S, source: &S, start: usize, end: usize)
    requires range { (start ≤ end) × (end ≤ length (S.ReadStore.list source.now)) }
    requires room { length (S.ReadStore.list store.old) + (end - start) ≤ S.GrowStore.room store.old }
    ensures list { S.ReadStore.list store.new ≡ S.ReadStore.list store.old ++ part (S.ReadStore.list source.now) start end }
    ensures room { S.GrowStore.room store.new ≡ S.GrowStore.room store.old }
{
    for i in start..end {
        put_in(store, item_of(source, i));
    }
}

impl<S: ReadStore, K: Plain<S::Item>> Column for Items<S, K> {
    type Item = S::Item;

    type Fault = Fault;

    type Kind = K;

    ghost items = { λ s. S.ReadStore.list s.store };

    ghost lawful = { λ s. record { few = s.few; each = each_given K.Plain.fitting K.Kind.fit K.Plain.given (S.ReadStore.list s.store) s.each } };

    fn len(&self) -> usize {
        self.store.len()
    }

    fn get(&self, i: usize) -> Result<S::Item, Fault> {
        self.store.item(i)
    }
}

impl<S: GrowStore, K: Plain<S::Item>> Payload for Items<S, K> {
    ghost limit = { λ s. within (S.GrowStore.room s.store) };

    ghost ask = { λ s. within_answer (S.GrowStore.room s.store) };

    ghost holds = { λ s. le-leb _ _ (S.GrowStore.within s.store) };

    ghost empty = { Prim.search rules };

    ghost begins = { λ s xs ys e. within_begins (S.GrowStore.room s.store) xs ys e };

    ghost asks = { λ s xs ys. within_asks (S.GrowStore.room s.store) xs ys };

    ghost third = { λ s xs ys f e. within_third (S.GrowStore.room s.store) xs ys f e };

    fn fits(&self, _x: S::Item) -> Result<(), Fault> {
        one_within(self, self.store.capacity())
    }

    fn fits_range(&self, source: &Self, start: usize, end: usize) -> Result<(), Fault> {
        range_within(self, source, self.store.capacity(), start, end)
    }

    fn push(&mut self, x: S::Item) -> Result<(), Fault> {
        K::fits(x);
        self.store.put(x)
    }

    fn append(&mut self, source: &Self, start: usize, end: usize) -> Result<(), Fault> {
        self.fits_range(source, start, end)?;
        if start < end {
            add_range(&mut self.store, &source.store, start, end);
        }
        Ok(())
    }

    fn clear(&mut self) {
        self.store.clear();
    }
}
