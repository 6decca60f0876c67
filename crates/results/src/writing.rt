ghost use Rattle.std.specs.Prelude.{◌≡◌, ◌+◌, ◌≤◌, length};

use crate::results::Results;
use columns::column::Column;
use columns::kind::{Kind, MARK_SLICES};
use columns::marks::{marks_bytes, write_marks};
use columns::stored::Stored;
use words::reading::ReadStore;

impl<S: Stored, T: Stored, C: ReadStore<Item = u64>, V: ReadStore<Item = u64>> Stored
    for Results<S, T, C, V> {
    fn slice_bytes(&self, k: usize) -> usize {
        if k < MARK_SLICES {
            return marks_bytes(&self.indexes, k);
        }
        let own = S::Kind::slice_count();
        if k - MARK_SLICES < own {
            return self.oks.slice_bytes(k - MARK_SLICES);
        }
        self.errs.slice_bytes(k - MARK_SLICES - own)
    }

    fn write_slice(&self, k: usize, out: &mut [u64], at: usize) -> usize {
        if k < MARK_SLICES {
            return write_marks(&self.indexes, k, out, at);
        }
        let own = S::Kind::slice_count();
        if k - MARK_SLICES < own {
            return self.oks.write_slice(k - MARK_SLICES, out, at);
        }
        self.errs.write_slice(k - MARK_SLICES - own, out, at)
    }
}
