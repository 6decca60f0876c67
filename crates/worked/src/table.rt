ghost use Rattle.std.specs.Prelude.{◌≡◌, true, [], ◌∷◌, Some, None, Ok, Err};
ghost use Rattle.refusals.specs.declared.fault.Fault.TheVariants.{Outside};

use crate::bit_columns::{counts_of_ones, of_far_rank, of_group, of_none, of_three, of_walk};
use crate::routes::{RoundsFault, of_rounds, of_times};
use crate::writing::{of_size, of_writing};
use options::fault::OptionsFault;
use refusals::fault::Fault;

// What the calls of the examples answered.
#[derive(Clone, Copy)]
pub struct Table {
    // no bits: rank(0), select(0), rank(1)
    pub none: (Result<usize, Fault>, Option<usize>, Result<usize, Fault>),
    // bits 1, 0, 1: rank(2), rank(3), select(1), select(2)
    pub three: (
        Result<usize, Fault>,
        Result<usize, Fault>,
        Option<usize>,
        Option<usize>,
    ),
    // 1,023 ones, and 1,024: the number of counts, and the first
    pub nearly: (usize, Result<u64, Fault>),
    pub chunk: (usize, Result<u64, Fault>),
    // one bit, a one: select(4294967296)
    pub far: Option<usize>,
    // 62 zeros, and the group 5 of 3 bits: the first word, and the tail
    pub group: (Result<u64, Fault>, u64, usize),
    // 130 bits with ones at 63, 64 and 129: next_one, step, next_one
    pub walk: (
        Result<Option<usize>, Fault>,
        Result<Option<bool>, Fault>,
        Result<Option<usize>, Fault>,
    ),
    // Some 7, None, Some 9: the words that they take; what write answers for nine words of 0, and the words
    // behind it
    pub size: Result<usize, Fault>,
    pub written: (Result<usize, Fault>, [u64; 9]),
    // a route of Some 500, None: its length, and both
    pub times: (
        usize,
        Result<Option<u64>, OptionsFault<Fault>>,
        Result<Option<u64>, OptionsFault<Fault>>,
    ),
    // a route of Some None, None, Some Some 500: its length, and all three
    pub rounds: (
        usize,
        Result<Option<Option<u64>>, RoundsFault>,
        Result<Option<Option<u64>>, RoundsFault>,
        Result<Option<Option<u64>>, RoundsFault>,
    ),
}

// The examples worked by hand, as one table.
pub fn worked() -> Table
    ensures none { result.none ≡ (Ok 0, None, Err (Outside 1)) }
    ensures three { result.three ≡ (Ok 1, Ok 2, Some 2, None) }
    ensures nearly { result.nearly ≡ (0, Err (Outside 0)) }
    ensures chunk { result.chunk ≡ (1, Ok 1024) }
    ensures far { result.far ≡ None }
    ensures group { result.group ≡ (Ok 4611686018427387904, 1, 1) }
    ensures walk { result.walk ≡ (Ok (Some 63), Ok (Some true), Ok (Some 129)) }
    ensures size { result.size ≡ Ok 9 }
    ensures written { result.written ≡ (Ok 9, 40 ∷ 40 ∷ 40 ∷ 56 ∷ 72 ∷ 5 ∷ 3 ∷ 7 ∷ 9 ∷ []) }
    ensures times { result.times ≡ (2, Ok (Some 500), Ok None) }
    ensures rounds { result.rounds ≡ (3, Ok (Some None), Ok None, Ok (Some (Some 500))) }
{
    Table {
        none: of_none(),
        three: of_three(),
        nearly: counts_of_ones(1023),
        chunk: counts_of_ones(1024),
        far: of_far_rank(),
        group: of_group(),
        walk: of_walk(),
        size: of_size(),
        written: of_writing(),
        times: of_times(),
        rounds: of_rounds(),
    }
}
