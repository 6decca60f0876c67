ghost use Rattle.store.specs.Laws.{LayoutOne, LayoutPasses, LayoutSlices, CheckChecks, CheckedSlices, ValidateChecks};

// What stands between slices, their layout and a checked store.
#[tactic(auto, using(crate::proofs::Layouts::layout_one_lem, crate::proofs::Passing::layout_passes_lem, crate::proofs::Passing::layout_slices_lem, crate::proofs::Passed::check_checks_lem, crate::proofs::Passed::checked_slices_lem, crate::proofs::Passed::validate_checks_lem))]
pub fn laws()
    // Two lists of slices with one layout are equal.
    ensures layout_one { LayoutOne }
    // A layout passes check with its own number of slices.
    ensures layout_passes { LayoutPasses }
    // Slice k of a layout is slice k.
    ensures layout_slices { LayoutSlices }
    // What passes check has the slices that were expected, and each ends inside, at or behind its start.
    ensures check_checks { CheckChecks }
    // Slice k of a checked store is whole.
    ensures checked_slices { CheckedSlices }
    // What passes validate is checked, and each slice is a whole number of its elements.
    ensures validate_checks { ValidateChecks }
{}
