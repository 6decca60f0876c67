ghost use Rattle.std.specs.Prelude.{◌≡◌, ℕ, List, [], ◌∷◌, ◌++◌, is_some};
ghost use Rattle.columns.specs.Variants.{bits_form, bits_sizes};
ghost use Rattle.options.specs.Entries.{Fits, some_marks, somes};
ghost use Rattle.std.proofs.Common.{arith, rules};
ghost use Rattle.std.proofs.lemmas.List.{length-map};
ghost use Rattle.columns.specs.Variants;
ghost use Rattle.columns.proofs.Slices.{formed_append, bits_formed, whole_append, bits_whole, bits_single};
ghost use Rattle.options.specs.Entries;
ghost use Rattle.options.specs.EntriesLemmas.{lawful_somes, joined};

use columns::kind::{CUT, Kind, MARK_SIZE, MARK_SLICES};

// How options of a kind's items are stored: the slices of the marks, then those of the Some items.
pub struct OptionsKind<K>(K);

impl<I, K: Kind<I>> Kind<Option<I>> for OptionsKind<K> {
    ghost one = { is_some };

    ghost fit = { Fits K.Kind.fit };

    ghost form = { λ xs. bits_form (some_marks xs) ++ K.Kind.form (somes xs) };

    ghost sizes = { bits_sizes ++ K.Kind.sizes };

    ghost counted = { Prim.search rules };

    ghost formed = { λ xs h.
        let l = lawful_somes K.Kind.fit xs h in
        formed_append (Variants.bits_form (Entries.some_marks xs)) (K.Kind.form (somes xs))
        (bits_formed (Entries.some_marks xs) (omega (arith, h.few, length-map xs is_some))) (K.Kind.formed (somes xs) l) };

    ghost whole = { λ xs h.
        let l = lawful_somes K.Kind.fit xs h in
        whole_append Variants.bits_sizes K.Kind.sizes (Variants.bits_form (Entries.some_marks xs)) (K.Kind.form (somes xs)) (bits_whole (Entries.some_marks xs)) (K.Kind.whole (somes xs) l) };

    ghost single = { λ xs ys h k e.
        let p = bits_single (Entries.some_marks xs) (Entries.some_marks ys) (K.Kind.form (somes xs)) (K.Kind.form (somes ys)) e in
        let l = lawful_somes K.Kind.fit xs h in
        let m = lawful_somes K.Kind.fit ys k in
        joined xs ys p.0 (K.Kind.single (somes xs) (somes ys) l m p.1) };

    fn slice_count() -> usize {
        (K::slice_count() + MARK_SLICES).min(CUT)
    }

    fn element_size(k: usize) -> usize {
        if k >= CUT {
            return 0;
        }
        if k < MARK_SLICES {
            return MARK_SIZE;
        }
        K::element_size(k - MARK_SLICES)
    }
}
