ghost use Rattle.std.specs.Prelude.{◌≡◌, ◌+◌, ◌≤◌, length};

use crate::options::Options;
use columns::column::Column;
use columns::kind::{Kind, MARK_SLICES};
use columns::marks::{marks_bytes, write_marks};
use columns::stored::Stored;
use words::reading::ReadStore;

impl<T: Stored, C: ReadStore<Item = u64>, V: ReadStore<Item = u64>> Stored for Options<T, C, V> {
    #[tactic(auto, using(crate::proofs::Storing::marks_slice, crate::proofs::Storing::items_slice))]
    fn slice_bytes(&self, k: usize) -> usize {
        if k < MARK_SLICES {
            return marks_bytes(&self.indexes, k);
        }
        self.somes.slice_bytes(k - MARK_SLICES)
    }

    #[tactic(auto, using(crate::proofs::Storing::marks_slice, crate::proofs::Storing::items_slice))]
    fn write_slice(&self, k: usize, out: &mut [u64], at: usize) -> usize {
        if k < MARK_SLICES {
            return write_marks(&self.indexes, k, out, at);
        }
        self.somes.write_slice(k - MARK_SLICES, out, at)
    }
}
