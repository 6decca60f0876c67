ghost use Rattle.std.specs.Prelude.{◌≡◌, ◌+◌, ◌<◌, ◌≤◌, length};
ghost use Rattle.store.specs.Layout.{slice};
ghost use Rattle.columns.specs.Kinds.{cut};
ghost use Rattle.columns.specs.Writing.{put};

use crate::column::Column;
use crate::kind::Kind;

// A column that hands out its list's stored form, slice by slice: for `write`, which asks for no slice from
// 4,096 on.
pub trait Stored: Column {
    // The length in bytes of slice `k`, 0 past the last.
    fn slice_bytes(&self, k: usize) -> usize
        requires { k < cut }
        ensures { result ≡ (slice (Self.Kind.Kind.form (Self.items self.now)) k).bytes };

    // Writes the words of slice `k` at place `at`, for which there is room, and answers the place behind
    // them.
    fn write_slice(&self, k: usize, out: &mut [u64], at: usize) -> usize
        requires slice { k < cut }
        requires room { at + length (slice (Self.Kind.Kind.form (Self.items self.now)) k).words ≤ length out.old }
        ensures place { result ≡ at + length (slice (Self.Kind.Kind.form (Self.items self.now)) k).words }
        ensures words { out.new ≡ put at (slice (Self.Kind.Kind.form (Self.items self.now)) k).words out.old };
}
