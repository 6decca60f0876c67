ghost use Rattle.std.specs.Prelude.{◌≡◌, ℕ};
ghost use Rattle.std.specs.Result.{result_map_both};
ghost use Rattle.refusals.specs.Faults.{number_of, carried_by};
ghost use Rattle.refusals.specs.declared.fault.Fault.TheVariants.{Outside, Past};
ghost use Rattle.options.specs.declared.fault.OptionsFault.TheVariants.{Own, Somes};
ghost use Rattle.std.proofs.Common.{rules};

use refusals::fault::Fault;
use refusals::refusal::Refusal;
use std::fmt;

// Why a column of options refuses: itself, or its payload, whose fault is held whole.
#[derive(Clone, Copy, PartialEq, Eq, Debug)]
pub enum OptionsFault<F> {
    Own(Fault),
    Somes(F),
}

impl<F: Refusal> Refusal for OptionsFault<F> {
    ghost outside = { λ i. Own (Outside i) };

    ghost past = { λ e. Own (Past e) };

    ghost numbered = { λ f. elim f [ Own g ↦ number_of g | Somes g ↦ F.Refusal.numbered g ] };

    ghost carries = { λ f. elim f [ Own g ↦ carried_by g | Somes g ↦ F.Refusal.carries g ] };

    ghost first = { Prim.search rules };

    ghost second = { Prim.search rules };

    fn number(&self) -> u32 {
        match self {
            OptionsFault::Own(f) => f.number(),
            OptionsFault::Somes(f) => f.number(),
        }
    }

    fn carried(&self) -> (u64, u64) {
        match self {
            OptionsFault::Own(f) => f.carried(),
            OptionsFault::Somes(f) => f.carried(),
        }
    }

    fn past_end(end: usize) -> Self {
        OptionsFault::Own(Fault::Past(end))
    }
}

// A payload's fault, carried up by `?`.
impl<F> From<F> for OptionsFault<F> {
    ghost from_gives = { λ f r. r ≡ Somes f };

    fn from(fault: F) -> OptionsFault<F> {
        OptionsFault::Somes(fault)
    }
}

// What the marks answered, their fault as the column's own, for `?` to carry up. No `From`: that is the payload's,
// whose fault may be of the same type. By hand, as `of_oks` of `Results`.
pub(crate) fn of_marks<X, F>(r: Result<X, Fault>) -> Result<X, OptionsFault<F>>
    ensures { result ≡ result_map_both (λ x. x) Own r }
{
    match r {
        Ok(x) => Ok(x),
        Err(f) => Err(OptionsFault::Own(f)),
    }
}

// What the payload answered, its fault with its side, for `?` to carry up.
pub fn of_somes<X, F>(r: Result<X, F>) -> Result<X, OptionsFault<F>>
    ensures { result ≡ result_map_both (λ x. x) Somes r }
{
    r.map_err(OptionsFault::Somes)
}

impl<F: fmt::Display> fmt::Display for OptionsFault<F> {
    fn fmt<W: fmt::Write>(&self, f: &mut fmt::Formatter<W>) -> fmt::Result {
        match self {
            OptionsFault::Own(g) => write!(f, "{g}"),
            OptionsFault::Somes(g) => write!(f, "of the Some items: {g}"),
        }
    }
}
