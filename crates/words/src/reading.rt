ghost use Rattle.std.specs.Prelude.{◌≡◌, ℕ, ◌+◌, ◌<◌, ◌≤◌, List, [], ◌∷◌, ◌++◌, length, Ok, slice_index, OnErr};
ghost use Rattle.words.specs.Words.{most, item_answer, put_answer, put_list};

use refusals::fault::Fault;

// The most items that a growing store may have.
pub const MOST: usize = 67_108_863;

// An array of no boxes: it takes no room, and no memory is ever asked for. `Bools` and `Items` hold one,
// since the checker covers a struct with ghost fields beside a lent buffer, as in a column of columns, only
// where the struct owns memory by its type.
pub type Owned = [Box<u8>; 0];

// A reading store: it means a list of items, and reading alters nothing.
pub trait ReadStore {
    type Item: Copy;

    ghost list: { Self → List Self.Item };

    fn len(&self) -> usize
        ensures { result ≡ length (list self.now) };

    // Item `i`, refused with 1 outside.
    fn item(&self, i: usize) -> Result<Self::Item, Fault>
        ensures { result ≡ item_answer (list self.now) i };
}

// A growing store: items are put at the end, up to a capacity that no call alters.
pub trait GrowStore: ReadStore {
    ghost room: { Self → ℕ };

    fn capacity(&self) -> usize
        ensures { result ≡ room self.now };

    // Adds an item at the end, refused with 3 where the store is full.
    fn put(&mut self, x: Self::Item) -> Result<(), Fault>
        ensures answer { result ≡ put_answer (Self.ReadStore.list self.old) (room self.old) }
        ensures list { Self.ReadStore.list self.new ≡ put_list (Self.ReadStore.list self.old) (room self.old) x }
        ensures room { room self.new ≡ room self.old }
        ensures same { OnErr result (self.new ≡ self.old) };

    fn clear(&mut self)
        ensures list { Self.ReadStore.list self.new ≡ [] }
        ensures room { room self.new ≡ room self.old };

    ghost within: { (s : Self) → length (Self.ReadStore.list s) ≤ room s };

    ghost small: { (s : Self) → room s ≤ most };
}

// Item `i`, which is there: no refusal to carry out of an inner loop.
#[tactic(auto, using(crate::proofs::Got::got_there))]
pub fn item_of<S: ReadStore>(s: &S, i: usize) -> S::Item
    requires { i < length (S.ReadStore.list s.now) }
    ensures { Ok result ≡ item_answer (S.ReadStore.list s.now) i }
{
    s.item(i).unwrap()
}

// Word `i` of a store of words that has one.
#[tactic(auto, using(crate::proofs::Got::got_at))]
pub fn word_of<S: ReadStore<Item = u64>>(s: &S, i: usize) -> u64
    requires { i < length (S.ReadStore.list s.now) }
    ensures { result ≡ slice_index (S.ReadStore.list s.now) i }
{
    item_of(s, i)
}

// Puts `x` into a store that has room for it.
pub fn put_in<S: GrowStore>(s: &mut S, x: S::Item)
    requires { length (S.ReadStore.list s.old) < S.GrowStore.room s.old }
    ensures list { S.ReadStore.list s.new ≡ S.ReadStore.list s.old ++ (x ∷ []) }
    ensures room { S.GrowStore.room s.new ≡ S.GrowStore.room s.old }
{
    s.put(x).unwrap()
}

// Item `i` of a slice, which is the list of a store.
#[tactic(auto, using(crate::proofs::Got::got_inside, crate::proofs::Got::got_outside))]
pub(crate) fn item_in<T: Copy>(list: &[T], i: usize) -> Result<T, Fault>
    ensures { result ≡ item_answer list.now i }
{
    list.get(i).copied().ok_or(Fault::Outside(i))
}
