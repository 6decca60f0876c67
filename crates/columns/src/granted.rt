ghost use Rattle.std.specs.Prelude.{◌≡◌, ℕ, ◌+◌, ◌-◌, ◌≤◌, true, List, [], ◌∷◌, ◌++◌, length, Ok, Err};
ghost use Rattle.bitlaws.specs.Bits.{rank_of};
ghost use Rattle.bits.specs.Columns.{column_bits, room_in};
ghost use Rattle.columns.specs.Plain.{part, append_answer};

use crate::column::{Column, Payload};
use bits::rank_select::RankSelect;
use refusals::refusal::Refusal;
use words::reading::{GrowStore, ReadStore};

// Calls whose refusal is ruled out by what was asked before: they keep it out of the columns above.

// The ones of a bit column below `i`, which is not above its length.
#[tactic(auto, using(crate::proofs::Marked::rank_found, bitlaws::proofs::Words::rank_under))]
pub fn rank_in<C: ReadStore<Item = u64>, V: ReadStore<Item = u64>>(
    bits: &RankSelect<C, V>,
    i: usize,
) -> usize
    requires { i ≤ length (column_bits V.ReadStore bits.now) }
    ensures value { result ≡ rank_of (column_bits V.ReadStore bits.now) i }
    ensures below { result ≤ i }
{
    bits.rank(i).unwrap()
}

// The ones of a bit column below either end of a range within it: where the items of the marked entries
// of that range stand.
pub fn ranks_in<C: ReadStore<Item = u64>, V: ReadStore<Item = u64>>(
    bits: &RankSelect<C, V>,
    start: usize,
    end: usize,
) -> (usize, usize)
    requires { (start ≤ length (column_bits V.ReadStore bits.now)) × (end ≤ length (column_bits V.ReadStore bits.now)) }
    ensures first { result.0 ≡ rank_of (column_bits V.ReadStore bits.now) start }
    ensures last { result.1 ≡ rank_of (column_bits V.ReadStore bits.now) end }
    ensures below { (result.0 ≤ start) × (result.1 ≤ end) }
{
    (rank_in(bits, start), rank_in(bits, end))
}

// Adds a bit for which there is room.
pub fn push_bit<C: GrowStore<Item = u64>, V: GrowStore<Item = u64>>(
    bits: &mut RankSelect<C, V>,
    bit: bool,
)
    requires { room_in C.GrowStore.own V.GrowStore.own bits.old (length (column_bits V.ReadStore bits.old) + 1) ≡ true }
    ensures list { column_bits V.ReadStore bits.new ≡ column_bits V.ReadStore bits.old ++ (bit ∷ []) }
    ensures room { room_in C.GrowStore.own V.GrowStore.own bits.new ≡ room_in C.GrowStore.own V.GrowStore.own bits.old }
{
    bits.push(bit).unwrap()
}

// Adds bits `start` to `end - 1` of a source, for which there is room.
pub fn append_bits<C: GrowStore<Item = u64>, V: GrowStore<Item = u64>>(
    bits: &mut RankSelect<C, V>,
    source: &RankSelect<C, V>,
    start: usize,
    end: usize,
)
    requires within { end ≤ length (column_bits V.ReadStore source.now) }
    requires room { room_in C.GrowStore.own V.GrowStore.own bits.old (length (column_bits V.ReadStore bits.old) + (end - start)) ≡ true }
    ensures list { column_bits V.ReadStore bits.new ≡ column_bits V.ReadStore bits.old ++ part (column_bits V.ReadStore source.now) start end }
    ensures room { room_in C.GrowStore.own V.GrowStore.own bits.new ≡ room_in C.GrowStore.own V.GrowStore.own bits.old }
{
    bits.append(source, start, end).unwrap()
}

// Adds a range that `fits_range` has granted.
pub fn append_items<T: Payload>(column: &mut T, source: &T, start: usize, end: usize)
    requires { append_answer T.Fault.Refusal.past (T.Payload.ask column.old) (T.Column.items column.old) (T.Column.items source.now) start end ≡ Ok tt }
    ensures list { T.Column.items column.new ≡ T.Column.items column.old ++ part (T.Column.items source.now) start end }
    ensures limit { T.Payload.limit column.new ≡ T.Payload.limit column.old }
    ensures ask { T.Payload.ask column.new ≡ T.Payload.ask column.old }
{
    column.append(source, start, end).unwrap()
}
