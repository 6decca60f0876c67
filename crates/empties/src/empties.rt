ghost use Rattle.std.specs.Prelude.{◌≡◌, min, []};
ghost use Rattle.columns.specs.Kinds.{most_items};
ghost use Rattle.columns.specs.Plain.{within, within_answer};
ghost use Rattle.empties.specs.Counts.{units};
ghost use Rattle.std.proofs.Common.{arith, rules, le-leb};
ghost use Rattle.empties.specs.Units.{units_length, each_unit};
ghost use Rattle.columns.specs.Kinds;
ghost use Rattle.columns.proofs.Within.{within_begins, within_asks, within_third};

use crate::kind::EmptiesKind;
use columns::asking::{one_within, range_within};
use columns::column::{Column, Payload};
use columns::kind::Kind;
use refusals::fault::Fault;
use refusals::refusal::Refusal;
use words::reading::MOST;

// Units, which are all alike: their number, cut to the most there may be, says which list it is. It is cut in
// code, as the length of `Table64`, and for the same reason.
#[derive(Clone, Copy)]
pub struct Empties {
    count: usize,
}

impl Empties {
    // No items.
    pub fn new() -> Self
        ensures { units result.count ≡ [] }
    {
        Empties { count: 0 }
    }

    fn at(&self) -> usize
        ensures { result ≡ min self.now.count most_items }
    {
        self.count.min(MOST)
    }
}

impl Column for Empties {
    type Item = ();

    type Fault = Fault;

    type Kind = EmptiesKind;

    ghost items = { λ s. units (min s.count most_items) };

    ghost lawful = { λ s. let n = min s.count most_items in record { few = omega (arith, units_length n); each = each_unit (units n) } };

    fn len(&self) -> usize {
        self.at()
    }

    #[tactic(auto, using(words::proofs::Got::got_outside, crate::specs::Units::units_length, crate::specs::Units::unit_at))]
    fn get(&self, i: usize) -> Result<(), Fault> {
        if i >= self.at() {
            return Err(Fault::Outside(i));
        }
        Ok(())
    }
}

impl Payload for Empties {
    ghost limit = { λ _. within most_items };

    ghost ask = { λ _. within_answer most_items };

    ghost holds = { λ s. le-leb _ _ (omega (arith, units_length (min s.count most_items))) };

    ghost empty = { Prim.search rules };

    ghost begins = { λ s xs ys e. within_begins Kinds.most_items xs ys e };

    ghost asks = { λ s xs ys. within_asks Kinds.most_items xs ys };

    ghost third = { λ s xs ys f e. within_third Kinds.most_items xs ys f e };

    fn fits(&self, _x: ()) -> Result<(), Fault> {
        one_within(self, MOST)
    }

    fn fits_range(&self, source: &Self, start: usize, end: usize) -> Result<(), Fault> {
        range_within(self, source, MOST, start, end)
    }

    #[tactic(auto, using(crate::specs::Units::push_cut))]
    fn push(&mut self, x: ()) -> Result<(), Fault> {
        self.fits(x)?;
        self.count = self.at() + 1;
        Ok(())
    }

    #[tactic(auto, using(crate::specs::Units::append_cut))]
    fn append(&mut self, source: &Self, start: usize, end: usize) -> Result<(), Fault> {
        self.fits_range(source, start, end)?;
        if start < end {
            self.count = self.at() + (end - start);
        }
        Ok(())
    }

    fn clear(&mut self) {
        self.count = 0;
    }
}
