ghost use Rattle.std.specs.Prelude.{◌≡◌, ℕ, List, [], ◌∷◌, ◌++◌, is_ok};
ghost use Rattle.std.proofs.Common.{◌∙◌, sym, arith, length-append};
ghost use Rattle.columns.specs.Variants.{bits_form, bits_sizes};
ghost use Rattle.results.specs.Entries.{Fits, ok_marks, oks, errs};
ghost use Rattle.std.proofs.lemmas.List.{length-map};
ghost use Rattle.columns.specs.Variants;
ghost use Rattle.columns.proofs.Slices.{formed_append, bits_formed, whole_append, bits_whole, append_parts, bits_single};
ghost use Rattle.results.specs.Entries;
ghost use Rattle.results.specs.EntriesLemmas.{lawful_oks, lawful_errs, joined};

use columns::kind::{CUT, Kind, MARK_SIZE, MARK_SLICES};

// How results of two kinds' items are stored: the slices of the marks, then those of the Ok items, then
// those of the Err items.
pub struct ResultsKind<K, L>(K, L);

impl<I, J, K: Kind<I>, L: Kind<J>> Kind<Result<I, J>> for ResultsKind<K, L> {
    ghost one = { is_ok };

    ghost fit = { Fits K.Kind.fit L.Kind.fit };

    ghost form = { λ xs. bits_form (ok_marks xs) ++ (K.Kind.form (oks xs) ++ L.Kind.form (errs xs)) };

    ghost sizes = { bits_sizes ++ (K.Kind.sizes ++ L.Kind.sizes) };

    ghost counted = { λ xs. omega (arith, length-append (K.Kind.form (oks xs)) (L.Kind.form (errs xs)), length-append K.Kind.sizes L.Kind.sizes, K.Kind.counted (oks xs), L.Kind.counted (errs xs)) };

    ghost formed = { λ xs h.
        formed_append (Variants.bits_form (Entries.ok_marks xs)) (K.Kind.form (oks xs) ++ L.Kind.form (errs xs))
        (bits_formed (Entries.ok_marks xs) (omega (arith, h.few, length-map xs is_ok)))
        (formed_append (K.Kind.form (oks xs)) (L.Kind.form (errs xs)) (K.Kind.formed (oks xs) (lawful_oks K.Kind.fit L.Kind.fit xs h)) (L.Kind.formed (errs xs) (lawful_errs K.Kind.fit L.Kind.fit xs h))) };

    ghost whole = { λ xs h.
        whole_append Variants.bits_sizes (K.Kind.sizes ++ L.Kind.sizes) (Variants.bits_form (Entries.ok_marks xs)) (K.Kind.form (oks xs) ++ L.Kind.form (errs xs)) (bits_whole (Entries.ok_marks xs))
        (whole_append K.Kind.sizes L.Kind.sizes (K.Kind.form (oks xs)) (L.Kind.form (errs xs)) (K.Kind.whole (oks xs) (lawful_oks K.Kind.fit L.Kind.fit xs h)) (L.Kind.whole (errs xs) (lawful_errs K.Kind.fit L.Kind.fit xs h))) };

    ghost single = { λ xs ys h k e.
        let p = bits_single (Entries.ok_marks xs) (Entries.ok_marks ys) (K.Kind.form (oks xs) ++ L.Kind.form (errs xs)) (K.Kind.form (oks ys) ++ L.Kind.form (errs ys)) e in
        let q = append_parts (K.Kind.form (oks xs)) (K.Kind.form (oks ys)) (L.Kind.form (errs xs)) (L.Kind.form (errs ys)) (K.Kind.counted (oks xs) ∙ sym (K.Kind.counted (oks ys))) p.1 in
        joined xs ys p.0
        (K.Kind.single (oks xs) (oks ys) (lawful_oks K.Kind.fit L.Kind.fit xs h) (lawful_oks K.Kind.fit L.Kind.fit ys k) q.0)
        (L.Kind.single (errs xs) (errs ys) (lawful_errs K.Kind.fit L.Kind.fit xs h) (lawful_errs K.Kind.fit L.Kind.fit ys k) q.1) };

    fn slice_count() -> usize {
        (K::slice_count() + L::slice_count() + MARK_SLICES).min(CUT)
    }

    // Of the marks as in `Options`: a text for these two tests alone would be no shorter.
    fn element_size(k: usize) -> usize {
        if k >= CUT {
            return 0;
        }
        if k < MARK_SLICES {
            return MARK_SIZE;
        }
        let own = K::slice_count();
        if k - MARK_SLICES < own {
            K::element_size(k - MARK_SLICES)
        } else {
            L::element_size(k - MARK_SLICES - own)
        }
    }
}
