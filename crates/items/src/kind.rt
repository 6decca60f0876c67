ghost use Rattle.std.specs.Prelude.{◌≡◌, ℕ, ◌^◌, ◌<◌, false, List, [], ◌∷◌};
ghost use Rattle.std.specs.Coded.{le_prop};
ghost use Rattle.columns.specs.Kinds.{words_slice};
ghost use Rattle.std.proofs.Common.{rules};

use columns::kind::{Kind, Packs, Plain, sole_size};
use words::reading::{ReadStore, word_of};

// Words are stored as one slice, 8 bytes a word.
pub enum WordsKind {}

impl Kind<u64> for WordsKind {
    ghost one = { λ _. false };

    ghost fit = { λ w. w < 2 ^ 64 };

    ghost form = { λ xs. words_slice xs ∷ [] };

    ghost sizes = { 8 ∷ [] };

    ghost counted = { Prim.search rules };

    ghost formed = { Prim.search rules };

    ghost whole = { Prim.search rules };

    ghost single = { Prim.search rules };

    fn slice_count() -> usize {
        1
    }

    fn element_size(k: usize) -> usize {
        sole_size(k, 8)
    }
}

impl Plain<u64> for WordsKind {
    ghost width = { 8 };

    ghost words = { λ xs. xs };

    ghost fitting = { λ w. w < 2 ^ 64 };

    ghost alone = { λ _. le_prop };

    ghost given = { λ _ h. h };

    ghost sole = { Prim.search rules };

    fn fits(_w: u64) {}

    fn width() -> usize {
        8
    }
}

impl<S: ReadStore<Item = u64>> Packs<S> for WordsKind {
    fn word(store: &S, j: usize) -> u64 {
        word_of(store, j)
    }
}
