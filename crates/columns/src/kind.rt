ghost use Rattle.std.specs.Prelude.{◌≡◌, ℕ, ◌<◌, Bool, List, [], ◌∷◌, length, slice_index};
ghost use Rattle.store.specs.Layout.{Slice, AllFormed};
ghost use Rattle.columns.specs.Kinds.{Lawful, Whole, count_of, size_of, one_slice};

use words::reading::ReadStore;

// One more than the most slices of a kind that is written or opened.
pub const CUT: usize = 4096;

// The slices of the marks of a variant column: counts, full words, tail; and the size of their elements.
pub const MARK_SLICES: usize = 3;

pub const MARK_SIZE: usize = 8;

// How lists of items are stored. Columns of one kind store one list alike, whatever holds it.
pub trait Kind<I> {
    // Which items a variant column marks with a one; elsewhere none.
    ghost one: { I → Bool };

    // The item fits its type.
    ghost fit: { I → Type 0 };

    // The stored form of a list.
    ghost form: { List I → List Slice };

    // The size of an element of each slice.
    ghost sizes: { List ℕ };

    // The number of slices, cut at 4,096.
    fn slice_count() -> usize
        ensures { result ≡ count_of sizes };

    // The size of an element of slice `k`; 0 past the last, and from 4,096 on, as the format says: no size
    // is 0.
    fn element_size(k: usize) -> usize
        ensures { result ≡ size_of sizes k };

    ghost counted: { (xs : List I) → length (form xs) ≡ length sizes };

    ghost formed: { (xs : List I) → Lawful fit xs → AllFormed (form xs) };

    ghost whole: { (xs : List I) → Lawful fit xs → Whole sizes (form xs) };

    ghost single: { (xs ys : List I) → Lawful fit xs → Lawful fit ys → form xs ≡ form ys → xs ≡ ys };
}

// A kind of items whose type alone says that they fit, as a word is below 2 ^ 64. They are stored as one
// slice, worked out word by word.
pub trait Plain<I>: Kind<I> {
    // The size of an item in bytes.
    ghost width: { ℕ };

    // The words of the slice.
    ghost words: { List I → List ℕ };

    // The item fits its type: the kind's `fit`, as a fact that holds in one way only, so that a struct may keep it.
    ghost fitting: { I → Type 0 };

    ghost alone: { (x : I) → IsProp (fitting x) };

    fn fits(x: I)
        ensures fit { Self.Kind.fit x }
        ensures fitting { fitting x };

    fn width() -> usize
        ensures { result ≡ width };

    ghost given: { (x : I) → fitting x → Self.Kind.fit x };

    ghost sole: { (xs : List I) → Self.Kind.form xs ≡ one_slice width words xs };
}

// Such a kind, over a store of its items.
pub trait Packs<S: ReadStore>: Plain<S::Item> {
    // Word `j` of the slice of the store's list.
    fn word(store: &S, j: usize) -> u64
        requires { j < length (Self.Plain.words (S.ReadStore.list store.now)) }
        ensures { result ≡ slice_index (Self.Plain.words (S.ReadStore.list store.now)) j };
}

// The size of an element of slice `k`, where there is one slice, of elements of `size`.
pub fn sole_size(k: usize, size: usize) -> usize
    ensures { result ≡ size_of (size ∷ []) k }
{
    if k == 0 { size } else { 0 }
}
