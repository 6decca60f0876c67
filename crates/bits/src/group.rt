ghost use Rattle.std.specs.Prelude.{◌≡◌, ℕ, ◌^◌, ◌<◌, ◌≤◌, [], ◌∷◌, is_ok, IfOk, IfErr};
ghost use Rattle.refusals.specs.declared.fault.Fault.TheVariants;
ghost use Rattle.bitlaws.specs.Bits.{low_bits};
ghost use Rattle.bits.specs.Columns.{lawful_group};

use crate::tail::WORD;
use refusals::fault::Fault;

// The `count` lowest bits of a word, lowest first: 0 to 64, and none is set at or above them. Beside `Tail`,
// which has at most 63: one type over the bound would give both a number for a name.
#[derive(Clone, Copy)]
pub struct Group {
    pub word: u64,
    pub count: usize,
    ghost few: { count ≤ 64 },
    ghost clean: { word < 2 ^ count },
}

impl Group {
    // Refused with 4 where the count is above 64 or a bit is set at or above it.
    pub fn new(word: u64, count: usize) -> Result<Self, Fault>
        ensures lawful { is_ok result ≡ lawful_group word count }
        ensures group { IfOk result (λ g. (g.word ≡ word) × (g.count ≡ count)) }
        ensures refused { IfErr result (λ f. f ≡ TheVariants.Group count) }
    {
        if !is_group(word, count) {
            return Err(Fault::Group(count));
        }
        Ok(Group { word, count })
    }

    // One bit.
    #[tactic(auto, using(crate::proofs::Growing::bit_group))]
    pub(crate) fn one(bit: bool) -> Self
        ensures list { low_bits result.count result.word ≡ bit ∷ [] }
        ensures count { result.count ≡ 1 }
    {
        Group {
            word: bit as u64,
            count: 1,
        }
    }

    // The `count` lowest bits of a word, whatever stands above them.
    #[tactic(auto, using(bitlaws::proofs::Groups::low_cut, bitlaws::proofs::Groups::masked, std::proofs::lemmas::Nat::mod_below, std::proofs::lemmas::Nat::pow_pos))]
    pub(crate) fn lowest(word: u64, count: usize) -> Self
        requires { count ≤ 64 }
        ensures list { low_bits result.count result.word ≡ low_bits count word }
        ensures count { result.count ≡ count }
    {
        if count == WORD {
            return Group { word, count };
        }
        Group {
            word: word & ((1 << count) - 1),
            count,
        }
    }
}

// Whether the count is at most 64, and no bit of the word is set at or above it.
#[tactic(auto, using(crate::proofs::Growing::group_is))]
fn is_group(word: u64, count: usize) -> bool
    ensures { result ≡ lawful_group word count }
{
    if count < WORD {
        word >> count == 0
    } else {
        count == WORD
    }
}
