ghost use Rattle.std.specs.Prelude.{◌≡◌, ℕ};
ghost use Rattle.std.specs.Result.{result_map_both};
ghost use Rattle.refusals.specs.Faults.{number_of, carried_by};
ghost use Rattle.refusals.specs.declared.fault.Fault.TheVariants.{Outside, Past};
ghost use Rattle.results.specs.declared.fault.ResultsFault.TheVariants.{Own, Oks, Errs};
ghost use Rattle.std.proofs.Common.{rules};

use refusals::fault::Fault;
use refusals::refusal::Refusal;
use std::fmt;

// Why a column of results refuses: itself, or one of its payloads, whose fault is held whole with its side.
#[derive(Clone, Copy, PartialEq, Eq, Debug)]
pub enum ResultsFault<F, G> {
    Own(Fault),
    Oks(F),
    Errs(G),
}

impl<F: Refusal, G: Refusal> Refusal for ResultsFault<F, G> {
    ghost outside = { λ i. Own (Outside i) };

    ghost past = { λ e. Own (Past e) };

    ghost numbered = { λ f. elim f [ Own h ↦ number_of h | Oks h ↦ F.Refusal.numbered h | Errs h ↦ G.Refusal.numbered h ] };

    ghost carries = { λ f. elim f [ Own h ↦ carried_by h | Oks h ↦ F.Refusal.carries h | Errs h ↦ G.Refusal.carries h ] };

    ghost first = { Prim.search rules };

    ghost second = { Prim.search rules };

    // As in `OptionsFault`, with a side more: a match names its variants.
    fn number(&self) -> u32 {
        match self {
            ResultsFault::Own(f) => f.number(),
            ResultsFault::Oks(f) => f.number(),
            ResultsFault::Errs(f) => f.number(),
        }
    }

    fn carried(&self) -> (u64, u64) {
        match self {
            ResultsFault::Own(f) => f.carried(),
            ResultsFault::Oks(f) => f.carried(),
            ResultsFault::Errs(f) => f.carried(),
        }
    }

    fn past_end(end: usize) -> Self {
        ResultsFault::Own(Fault::Past(end))
    }
}

// A fault of the column's own, carried up by `?`.
impl<F, G> From<Fault> for ResultsFault<F, G> {
    ghost from_gives = { λ f r. r ≡ Own f };

    fn from(fault: Fault) -> ResultsFault<F, G> {
        ResultsFault::Own(fault)
    }
}

impl<F: fmt::Display, G: fmt::Display> fmt::Display for ResultsFault<F, G> {
    fn fmt<W: fmt::Write>(&self, f: &mut fmt::Formatter<W>) -> fmt::Result {
        match self {
            ResultsFault::Own(g) => write!(f, "{g}"),
            ResultsFault::Oks(g) => write!(f, "of the Ok items: {g}"),
            ResultsFault::Errs(g) => write!(f, "of the Err items: {g}"),
        }
    }
}

// What the Ok payload answered, its fault with its side, for `?` to carry up. By hand, as `of_errs` below:
// `map_err` with a variant of a fault over two others is not covered by the borrow checker, see
// docs/DECISIONS.md.
pub fn of_oks<X, F, G>(r: Result<X, F>) -> Result<X, ResultsFault<F, G>>
    ensures { result ≡ result_map_both (λ x. x) Oks r }
{
    match r {
        Ok(x) => Ok(x),
        Err(f) => Err(ResultsFault::Oks(f)),
    }
}

// What the Err payload answered.
pub fn of_errs<X, F, G>(r: Result<X, G>) -> Result<X, ResultsFault<F, G>>
    ensures { result ≡ result_map_both (λ x. x) Errs r }
{
    match r {
        Ok(x) => Ok(x),
        Err(f) => Err(ResultsFault::Errs(f)),
    }
}
