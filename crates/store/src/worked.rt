ghost use Rattle.std.specs.Prelude.{◌≡◌, Ok, Err};
ghost use Rattle.refusals.specs.declared.fault.Fault.TheVariants.{Extent, First, Table, Slices, Outside};
ghost use Rattle.store.specs.Answers.{check_answer};
ghost use Rattle.store.specs.Worked.{two_words};

use crate::store::RawStore;
use refusals::fault::Fault;
use words::reading::ReadStore;

// What `check` answers, the store itself left out.
fn told(words: &[u64], expected: usize) -> Result<(), Fault>
    ensures { result ≡ check_answer words.now expected }
{
    RawStore::new(words).check(expected).map(|_| ())
}

// Four short stores that are refused, and one of four slices that is not.
pub fn worked_checks() -> (
    Result<(), Fault>,
    Result<(), Fault>,
    Result<(), Fault>,
    Result<(), Fault>,
    Result<(), Fault>,
)
    ensures { result ≡ (Err Extent, Err (First 0), Err (Table 2), Err (Slices 4 0), Ok tt) }
{
    (
        told(&[], 0),
        told(&[0], 0),
        told(&[16], 1),
        told(&[8], 4),
        told(&[40, 40, 40, 56, 72, 5, 3, 7, 9], 4),
    )
}

// The first two words and the tail bytes of slice `k` of a store with the words 5, 3 and 7, 9 in its
// last two slices.
fn two_words(k: usize) -> (Result<u64, Fault>, Result<u64, Fault>, u8)
    ensures { result ≡ two_words k }
{
    let checked = RawStore::new(&[40, 40, 40, 56, 72, 5, 3, 7, 9])
        .check(4)
        .unwrap();
    let (part, tail) = checked.slice(k);
    (part.item(0), part.item(1), tail)
}

// What slices 1 to 3 of that store hold; slice 1 is empty.
pub fn worked_slices() -> (
    (Result<u64, Fault>, Result<u64, Fault>, u8),
    (Result<u64, Fault>, Result<u64, Fault>, u8),
    (Result<u64, Fault>, Result<u64, Fault>, u8),
)
    ensures { result ≡ ((Err (Outside 0), Err (Outside 1), 0), (Ok 5, Ok 3, 0), (Ok 7, Ok 9, 0)) }
{
    (two_words(1), two_words(2), two_words(3))
}
