ghost use Rattle.std.specs.Prelude.{◌≡◌, false, [], ◌∷◌, length};
ghost use Rattle.empties.specs.Counts.{count_slice};
ghost use Rattle.std.proofs.Common.{ap, rules};
ghost use Rattle.empties.specs.Counts;
ghost use Rattle.empties.specs.Units.{units_same};

use columns::kind::{Kind, sole_size};

// Units are stored as one slice of one word, their number.
pub enum EmptiesKind {}

impl Kind<()> for EmptiesKind {
    ghost one = { λ _. false };

    // every unit fits
    ghost fit = { λ _. Unit {0} };

    ghost form = { λ xs. count_slice xs ∷ [] };

    ghost sizes = { 8 ∷ [] };

    ghost counted = { Prim.search rules };

    ghost formed = { Prim.search rules };

    ghost whole = { Prim.search rules };

    ghost single = { λ xs ys h k e.
        let s : Counts.count_slice xs ≡ Counts.count_slice ys = cc in
        let w : length xs ∷ [] ≡ length ys ∷ [] = ap (λ q. q.words) s in
        let l : length xs ≡ length ys = cc in
        units_same xs ys l };

    fn slice_count() -> usize {
        1
    }

    fn element_size(k: usize) -> usize {
        sole_size(k, 8)
    }
}
