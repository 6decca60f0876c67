ghost use Rattle.std.specs.Prelude.{◌≡◌, ℕ, Bool, true, List, [], ◌∷◌, ◌++◌, length, is_ok, Ok, Err, Result, OnErr};
ghost use Rattle.words.specs.Words.{got};
ghost use Rattle.columns.specs.Kinds.{Lawful};
ghost use Rattle.columns.specs.Plain.{grown, append_answer, append_list, rank_answer, select_answer};

use crate::kind::Kind;
use refusals::refusal::Refusal;

// A reading column: it means a list of items.
pub trait Column {
    type Item: Copy;

    type Fault: Copy + Refusal;

    // How its list is stored.
    type Kind: Kind<Self::Item>;

    ghost items: { Self → List Self.Item };

    fn len(&self) -> usize
        ensures { result ≡ length (items self.now) };

    // Item `i`, refused with 1 outside.
    fn get(&self, i: usize) -> Result<Self::Item, Self::Fault>
        ensures { result ≡ got (Self.Fault.Refusal.outside i) (items self.now) i };

    ghost lawful: { (s : Self) → Lawful Self.Kind.Kind.fit (items s) };
}

// A payload column: items are added at the end, within a limit that no call alters.
pub trait Payload: Column {
    // The lists that it may hold.
    ghost limit: { Self → List Self.Item → Bool };

    // What a call answers that would make the second list of the first: Ok, or refusal 3.
    ghost ask: { Self → List Self.Item → List Self.Item → Result Unit Self.Fault };

    // Whether one more item keeps the limit: what `push` would answer.
    fn fits(&self, x: Self::Item) -> Result<(), Self::Fault>
        ensures { result ≡ ask self.now (Self.items self.now) (Self.items self.now ++ (x ∷ [])) };

    // Whether a range of a source does, two numbers as the rules speak of it: what `append` would answer.
    fn fits_range(&self, source: &Self, start: usize, end: usize) -> Result<(), Self::Fault>
        ensures { result ≡ append_answer Self.Fault.Refusal.past (ask self.now) (Self.items self.now) (Self.items source.now) start end };

    // Adds an item, refused with 3 where the limit would be passed.
    fn push(&mut self, x: Self::Item) -> Result<(), Self::Fault>
        ensures answer { result ≡ ask self.old (Self.items self.old) (Self.items self.old ++ (x ∷ [])) }
        ensures list { Self.items self.new ≡ grown (limit self.old (Self.items self.old ++ (x ∷ []))) (Self.items self.old) (Self.items self.old ++ (x ∷ [])) }
        ensures limit { limit self.new ≡ limit self.old }
        ensures ask { ask self.new ≡ ask self.old }
        ensures same { OnErr result (self.new ≡ self.old) };

    // Adds items `start` to `end - 1` of a source, nothing where start is at or above end: refused with 2
    // where the end lies past the source, then with 3.
    fn append(&mut self, source: &Self, start: usize, end: usize) -> Result<(), Self::Fault>
        ensures answer { result ≡ append_answer Self.Fault.Refusal.past (ask self.old) (Self.items self.old) (Self.items source.now) start end }
        ensures list { Self.items self.new ≡ append_list (limit self.old) (Self.items self.old) (Self.items source.now) start end }
        ensures limit { limit self.new ≡ limit self.old }
        ensures ask { ask self.new ≡ ask self.old }
        ensures same { OnErr result (self.new ≡ self.old) };

    // Leaves no items.
    fn clear(&mut self)
        ensures list { Self.items self.new ≡ [] }
        ensures limit { limit self.new ≡ limit self.old }
        ensures ask { ask self.new ≡ ask self.old };

    ghost holds: { (s : Self) → limit s (Self.items s) ≡ true };

    ghost empty: { (s : Self) → limit s [] ≡ true };

    ghost begins: { (s : Self) (xs ys : List Self.Item) → limit s (xs ++ ys) ≡ true → limit s xs ≡ true };

    ghost asks: { (s : Self) (xs ys : List Self.Item) → is_ok (ask s xs ys) ≡ limit s ys };

    ghost third: { (s : Self) (xs ys : List Self.Item) (f : Self.Fault) → ask s xs ys ≡ Err f → Self.Fault.Refusal.numbered f ≡ 3 };
}

// A column of entries of two variants, of which one is marked by ones.
pub trait Variant: Column {
    // The number of marked entries below `i`, refused with 1 above the length.
    fn rank(&self, i: usize) -> Result<usize, Self::Fault>
        ensures { result ≡ rank_answer Self.Fault.Refusal.outside Self.Kind.Kind.one (Self.items self.now) i };

    // The place of the marked entry that `r` marked ones stand before, or none.
    fn select(&self, r: u64) -> Option<usize>
        ensures { result ≡ select_answer Self.Kind.Kind.one (Self.items self.now) r };
}
