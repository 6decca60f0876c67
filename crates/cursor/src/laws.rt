ghost use Rattle.cursor.specs.Walks.{StepsRead, OnesInOrder, CountsBelow};

// What whole walks come to. One step more than there are bits reads the bits in order, and then none.
// Repeated from the start, next_one gives the places of the ones in order, and then none. After any
// accepted moves of a new cursor in which no seek passed the end, its count is the number of ones below
// its place.
#[tactic(auto, using(crate::proofs::Walking::steps_read_lem, crate::proofs::Walking::ones_in_order_lem, crate::proofs::Walking::counts_below_lem))]
pub fn laws()
    ensures steps_read { StepsRead }
    ensures ones_in_order { OnesInOrder }
    ensures counts_below { CountsBelow }
{}
