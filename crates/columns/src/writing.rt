ghost use Rattle.std.specs.Prelude.{◌≡◌, ◌+◌, ◌*◌, ◌≤◌, ◌<◌, length, OnErr};
ghost use Rattle.store.specs.Layout.{up, head, contents, layout, last_end};
ghost use Rattle.store.specs.Answers.{most_slices};
ghost use Rattle.columns.specs.Writing.{put, write_answer, size_answer, written};

use crate::column::Column;
use crate::kind::{CUT, Kind};
use crate::stored::Stored;
use refusals::fault::Fault;
use store::table::LONGEST;

// The end in bytes of the last of a column's `k` slices.
#[tactic(auto, using(crate::proofs::Puts::end_next, crate::proofs::Puts::end_small, crate::proofs::Puts::few_bytes))]
fn last_end<C: Stored>(column: &C, k: usize) -> usize
    requires count { k ≡ length C.Kind.Kind.sizes }
    requires few { k ≤ most_slices }
    ensures end { result ≡ last_end (8 * (k + 1)) (C.Kind.Kind.form (C.Column.items column.now)) }
    ensures small { up result ≤ k + 1 + k * 67108864 }
{
    let mut end = 8 * (k + 1);
    for i in 0..k {
        end = 8 * end.div_ceil(8) + column.slice_bytes(i);
    }
    end
}

// Writes word 0 and the ends.
#[tactic(auto, using(crate::proofs::Puts::end_next, crate::proofs::Puts::end_small, crate::proofs::Puts::few_bytes, crate::proofs::Puts::ends_next, crate::proofs::Puts::ends_whole, crate::proofs::Puts::put_none))]
fn put_head<C: Stored>(column: &C, k: usize, out: &mut [u64])
    requires count { k ≡ length C.Kind.Kind.sizes }
    requires few { k ≤ most_slices }
    requires room { k + 1 ≤ length out.old }
    ensures { out.new ≡ put 0 (head (C.Kind.Kind.form (C.Column.items column.now))) out.old }
{
    let mut end = 8 * (k + 1);
    out[0] = end as u64;
    for i in 0..k {
        end = 8 * end.div_ceil(8) + column.slice_bytes(i);
        out[i + 1] = end as u64;
    }
}

// Writes the slices behind them.
#[tactic(auto, using(crate::proofs::Puts::contents_within, crate::proofs::Puts::contents_longer, crate::proofs::Puts::contents_step, crate::proofs::Puts::put_none))]
fn put_contents<C: Stored>(column: &C, k: usize, out: &mut [u64])
    requires count { k ≡ length C.Kind.Kind.sizes }
    requires few { k ≤ most_slices }
    requires room { k + 1 + length (contents (C.Kind.Kind.form (C.Column.items column.now))) ≤ length out.old }
    ensures { out.new ≡ put (k + 1) (contents (C.Kind.Kind.form (C.Column.items column.now))) out.old }
{
    let mut at = k + 1;
    for i in 0..k {
        at = column.write_slice(i, out, at);
    }
}

// The words of the column's writing, where there are `room` words for it: refused with 10 where its kind
// has more than 4,095 slices, then with 15.
#[tactic(auto, using(crate::proofs::Puts::fits, crate::proofs::Puts::short))]
fn needed<C: Stored>(column: &C, room: usize) -> Result<usize, Fault>
    ensures { result ≡ write_answer (C.Kind.Kind.form (C.Column.items column.now)) room }
{
    let k = C::Kind::slice_count();
    if k >= CUT {
        return Err(Fault::Slices(CUT as u64, 0));
    }
    let n = last_end(column, k).div_ceil(8);
    if n > LONGEST.min(room) {
        return Err(Fault::Room(n as u64));
    }
    Ok(n)
}

// The words that the column's writing takes: refused with 10 where its kind has more than 4,095 slices,
// then with 15 where they are more than 268,435,456.
pub fn size<C: Stored>(column: &C) -> Result<usize, Fault>
    ensures { result ≡ size_answer (C.Kind.Kind.form (C.Column.items column.now)) }
{
    needed(column, LONGEST)
}

// Writes the column into the first of the words handed in, and answers how many they are: refused as `size`
// is, and with 15 where there are fewer.
#[tactic(auto, using(crate::proofs::Puts::parts, crate::proofs::Puts::granted, crate::proofs::Puts::whole, crate::proofs::Puts::refused))]
pub fn write<C: Stored>(column: &C, out: &mut [u64]) -> Result<usize, Fault>
    ensures answer { result ≡ write_answer (C.Kind.Kind.form (C.Column.items column.now)) (length out.old) }
    ensures words { out.new ≡ written (C.Kind.Kind.form (C.Column.items column.now)) out.old }
    ensures same { OnErr result (out.new ≡ out.old) }
{
    let n = needed(column, out.len())?;
    let k = C::Kind::slice_count();
    put_head(column, k, out);
    put_contents(column, k, out);
    Ok(n)
}

// Two columns of one kind that are written alike hold one list. Nothing is computed.
pub fn written_alike<C: Column, D: Column<Item = C::Item, Kind = C::Kind>>(_one: &C, _other: &D)
    ensures { layout (C.Kind.Kind.form (C.Column.items _one.now)) ≡ layout (C.Kind.Kind.form (D.Column.items _other.now)) → C.Column.items _one.now ≡ D.Column.items _other.now }
{}
