// The laws of bits, with no machine in them: they are the contract of one small function, and the
// lemmas below them in proofs/ serve the crates above.
#![tactic(auto)]

ghost use Rattle.bitlaws.specs.Laws.{RankCounts, RankSteps, RankRises, SelectFinds, SelectLacks, FirstFinds, FirstLacks, OneHolding, FormHolds};

// What rank, select and the holding of bits in words mean.
pub fn laws()
    // rank(i) is the number of ones below i.
    ensures rank_counts { RankCounts }
    // rank(0) is 0, and rank grows by the bit.
    ensures rank_steps { RankSteps }
    // rank never falls.
    ensures rank_rises { RankRises }
    // select(r) is p exactly when p holds a one and rank(p) = r.
    ensures select_finds { SelectFinds }
    // select(r) is none exactly when there is no such p.
    ensures select_lacks { SelectLacks }
    // The first one at or after p is q exactly when q holds a one, and none between p and q does.
    ensures first_finds { FirstFinds }
    // There is none exactly when no place at or after p holds a one.
    ensures first_lacks { FirstLacks }
    // Sound columns with the same bits have the same counts, words and tail.
    ensures one_holding { OneHolding }
    // What is worked out from bits holds just these bits.
    ensures form_holds { FormHolds }
{}
