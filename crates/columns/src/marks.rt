ghost use Rattle.std.specs.Prelude.{◌≡◌, ◌+◌, ◌*◌, ◌<◌, ◌≤◌, length};
ghost use Rattle.store.specs.Layout.{slice};
ghost use Rattle.bits.specs.Columns.{column_bits};
ghost use Rattle.columns.specs.Variants.{bits_form};
ghost use Rattle.columns.specs.Writing.{put};

use bits::rank_select::RankSelect;
use words::reading::{ReadStore, word_of};

// The marks of a variant column, as they are stored: for the columns that hold them.

// The length in bytes of slice `k` of the marks.
#[tactic(auto, using(crate::proofs::Formed::counts_slice, crate::proofs::Formed::full_at, crate::proofs::Formed::tail_at))]
pub fn marks_bytes<C: ReadStore<Item = u64>, V: ReadStore<Item = u64>>(
    marks: &RankSelect<C, V>,
    k: usize,
) -> usize
    requires { k < 3 }
    ensures { result ≡ (slice (bits_form (column_bits V.ReadStore marks.now)) k).bytes }
{
    match k {
        0 => 8 * marks.counts().len(),
        1 => 8 * marks.values().words().len(),
        _ => 16,
    }
}

// Writes a store's words at place `at`, and answers the place behind them.
#[tactic(auto, using(crate::proofs::Puts::words_step))]
fn put_store<S: ReadStore<Item = u64>>(store: &S, out: &mut [u64], at: usize) -> usize
    requires { at + length (S.ReadStore.list store.now) ≤ length out.old }
    ensures place { result ≡ at + length (S.ReadStore.list store.now) }
    ensures words { out.new ≡ put at (S.ReadStore.list store.now) out.old }
{
    let n = store.len();
    for i in 0..n {
        out[at + i] = word_of(store, i);
    }
    at + n
}

// Writes slice `k` of the marks at place `at`, for which there is room, and answers the place behind it.
#[tactic(auto, using(crate::proofs::Formed::counts_slice, crate::proofs::Formed::full_at, crate::proofs::Formed::tail_at, crate::proofs::Puts::put_two))]
pub fn write_marks<C: ReadStore<Item = u64>, V: ReadStore<Item = u64>>(
    marks: &RankSelect<C, V>,
    k: usize,
    out: &mut [u64],
    at: usize,
) -> usize
    requires slice { k < 3 }
    requires room { at + length (slice (bits_form (column_bits V.ReadStore marks.now)) k).words ≤ length out.old }
    ensures place { result ≡ at + length (slice (bits_form (column_bits V.ReadStore marks.now)) k).words }
    ensures words { out.new ≡ put at (slice (bits_form (column_bits V.ReadStore marks.now)) k).words out.old }
{
    match k {
        0 => put_store(marks.counts(), out, at),
        1 => put_store(marks.values().words(), out, at),
        _ => {
            let tail = marks.values().tail();
            out[at] = tail.word;
            out[at + 1] = tail.bits as u64;
            at + 2
        }
    }
}
