ghost use Rattle.std.specs.Prelude.{◌≡◌, ℕ, ◌+◌, ◌%◌, ◌^◌, ◌<◌, ◌≤◌, count_ones};
ghost use Rattle.bitlaws.specs.Bits.{low_bits, select_of};
ghost use Rattle.bits.specs.Halving.{Moved};

// The `k`-th one of `word` is sought, and stands `place` further up in the word that was given.
#[derive(Clone, Copy)]
pub struct Sought {
    word: u64,
    k: u64,
    place: usize,
}

impl Sought {
    // The half in which the one stands, of the `2 * half` lowest bits.
    #[tactic(auto, using(bitlaws::proofs::InWord::ones_split, crate::proofs::Halves::masked_ones, crate::proofs::Halves::stays))]
    fn halved(self, half: usize) -> Self
        requires width { half ≤ 32 }
        requires near { self.k < count_ones (self.word % 2 ^ (half + half)) }
        requires place { self.place ≤ 64 }
        ensures moved { Moved self result }
        ensures near { result.k < count_ones (result.word % 2 ^ half) }
        ensures place { result.place ≤ self.place + half }
    {
        let low = (self.word & ((1 << half) - 1)).count_ones() as u64;
        if self.k < low {
            return self;
        }
        Sought {
            word: self.word >> half,
            k: self.k - low,
            place: self.place + half,
        }
    }
}

// The place of the `k`-th one of a word, counted from 0, or none: six halvings, whatever the word.
#[tactic(auto, using(bitlaws::proofs::InWord::ones_word, bitlaws::proofs::Selects::select_none))]
pub(crate) fn select_in_word(word: u64, k: u64) -> Option<usize>
    ensures { result ≡ select_of (low_bits 64 word) k }
{
    if k >= word.count_ones() as u64 {
        return None;
    }
    let sought = Sought { word, k, place: 0 };
    let sought = sought
        .halved(32)
        .halved(16)
        .halved(8)
        .halved(4)
        .halved(2)
        .halved(1);
    Some(sought.place)
}
