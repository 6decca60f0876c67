ghost use Rattle.std.specs.Prelude.{◌≡◌, ℕ};
ghost use Rattle.refusals.specs.Faults.{number_of, carried_by};
ghost use Rattle.refusals.specs.declared.fault.Fault.TheVariants.{Outside, Past};
ghost use Rattle.std.proofs.Common.{rules};

use crate::fault::Fault;

// What a fault type means: how refusals 1 and 2 look in it, and the number of each fault.
pub trait Refusal: Sized {
    // refusal 1 of an index
    ghost outside: { ℕ → Self };

    // refusal 2 of a range's end
    ghost past: { ℕ → Self };

    ghost numbered: { Self → ℕ };

    ghost carries: { Self → ℕ × ℕ };

    // The number that the rules give a refusal: tests tell refusals by it, no column decides by it.
    fn number(&self) -> u32
        ensures { result ≡ numbered self.now };

    // What the fault carries, 0 where it carries less than two numbers: one shape for all faults, which
    // tests compare beside the number.
    fn carried(&self) -> (u64, u64)
        ensures { result ≡ carries self.now };

    // Refusal 2 of a range's end, for a caller that has no source to ask.
    fn past_end(end: usize) -> Self
        ensures { result ≡ past end };

    ghost first: { (i : ℕ) → numbered (outside i) ≡ 1 };

    ghost second: { (e : ℕ) → numbered (past e) ≡ 2 };
}

impl Refusal for Fault {
    ghost outside = { λ i. Outside i };

    ghost past = { λ e. Past e };

    ghost numbered = { number_of };

    ghost carries = { carried_by };

    ghost first = { Prim.search rules };

    ghost second = { Prim.search rules };

    fn number(&self) -> u32 {
        match self {
            Fault::Outside(_) => 1,
            Fault::Past(_) => 2,
            Fault::Full(_) => 3,
            Fault::Group(_) => 4,
            Fault::Length(_) => 5,
            Fault::Behind(_) => 6,
            Fault::Extent => 7,
            Fault::First(_) => 8,
            Fault::Table(_) => 9,
            Fault::Slices(_, _) => 10,
            Fault::Beyond(_, _) => 11,
            Fault::Before(_, _) => 12,
            Fault::Ragged(_) => 13,
            Fault::Unlawful(_) => 14,
            Fault::Room(_) => 15,
        }
    }

    fn carried(&self) -> (u64, u64) {
        match *self {
            Fault::Outside(n)
            | Fault::Past(n)
            | Fault::Full(n)
            | Fault::Group(n)
            | Fault::Length(n) => (n as u64, 0),
            Fault::Behind(w) | Fault::First(w) | Fault::Table(w) | Fault::Room(w) => (w, 0),
            Fault::Slices(expected, found) => (expected, found),
            Fault::Beyond(slice, end) | Fault::Before(slice, end) => (slice as u64, end),
            Fault::Ragged(slice) | Fault::Unlawful(slice) => (slice as u64, 0),
            Fault::Extent => (0, 0),
        }
    }

    fn past_end(end: usize) -> Self {
        Fault::Past(end)
    }
}
