ghost use Rattle.std.specs.Prelude.{◌≡◌, ◌+◌, ◌≤◌, length};
ghost use Rattle.columns.specs.Writing.{put};

use crate::items::Items;
use columns::column::Column;
use columns::kind::{Kind, Packs, Plain};
use columns::stored::Stored;
use words::reading::ReadStore;

// Writes the words of a store's list at place `at`, and answers the place behind them.
#[tactic(auto, using(columns::proofs::Puts::words_step))]
fn put_words<S: ReadStore, K: Packs<S>>(store: &S, n: usize, out: &mut [u64], at: usize) -> usize
    requires count { n ≡ length (K.Plain.words (S.ReadStore.list store.now)) }
    requires room { at + n ≤ length out.old }
    ensures place { result ≡ at + n }
    ensures words { out.new ≡ put at (K.Plain.words (S.ReadStore.list store.now)) out.old }
{
    for j in 0..n {
        out[at + j] = K::word(store, j);
    }
    at + n
}

impl<S: ReadStore, K: Packs<S>> Stored for Items<S, K> {
    fn slice_bytes(&self, k: usize) -> usize {
        if k == 0 {
            K::width() * self.store.len()
        } else {
            0
        }
    }

    fn write_slice(&self, k: usize, out: &mut [u64], at: usize) -> usize {
        if k > 0 {
            return at;
        }
        let n = (K::width() * self.store.len()).div_ceil(8);
        put_words::<S, K>(&self.store, n, out, at)
    }
}
