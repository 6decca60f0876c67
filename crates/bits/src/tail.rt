ghost use Rattle.std.specs.Prelude.{◌≡◌, ℕ, ◌+◌, ◌-◌, ◌*◌, ◌/◌, ◌%◌, ◌^◌, ◌<◌, ◌≤◌};

// The bits in one word.
pub const WORD: usize = 64;

// A word of which the `bits` lowest bits count: 0 to 63, and none is set at or above them.
#[derive(Clone, Copy)]
pub struct Tail {
    pub word: u64,
    pub bits: usize,
    ghost few: { bits < 64 },
    ghost clean: { word < 2 ^ bits },
}

impl Tail {
    pub fn empty() -> Self
        ensures word { result.word ≡ 0 }
        ensures bits { result.bits ≡ 0 }
    {
        Tail { word: 0, bits: 0 }
    }

    // The tail's bits with a group behind them, as far as a word holds them.
    #[tactic(auto, using(bitlaws::proofs::Groups::joined_is))]
    pub fn joined(&self, group: u64) -> u64
        ensures { result ≡ (group * 2 ^ self.now.bits + self.now.word) % 2 ^ 64 }
    {
        self.word | (group << self.bits)
    }

    // The tail with a group of `count` bits behind it that does not fill the word.
    #[tactic(auto, using(bitlaws::proofs::Groups::joined_lt, bitlaws::proofs::Groups::joined_whole))]
    pub fn with(&self, group: u64, count: usize) -> Self
        requires { (group < 2 ^ count) × (self.now.bits + count < 64) }
        ensures word { result.word ≡ group * 2 ^ self.now.bits + self.now.word }
        ensures bits { result.bits ≡ self.now.bits + count }
    {
        Tail {
            word: self.joined(group),
            bits: self.bits + count,
        }
    }

    // What of the group a word does not hold.
    #[tactic(auto, using(bitlaws::proofs::Groups::joined_rest))]
    fn over(&self, group: u64) -> u64
        ensures { result ≡ (group * 2 ^ self.now.bits + self.now.word) / 2 ^ 64 }
    {
        if self.bits == 0 {
            0
        } else {
            group >> (WORD - self.bits)
        }
    }

    // The tail behind the word that such a group has filled.
    #[tactic(auto, using(bitlaws::proofs::Groups::rest_lt))]
    pub fn rest(&self, group: u64, count: usize) -> Self
        requires { (group < 2 ^ count) × ((count ≤ 64) × (64 ≤ self.now.bits + count)) }
        ensures word { result.word ≡ (group * 2 ^ self.now.bits + self.now.word) / 2 ^ 64 }
        ensures bits { result.bits ≡ self.now.bits + count - 64 }
    {
        Tail {
            word: self.over(group),
            bits: self.bits + count - WORD,
        }
    }
}
