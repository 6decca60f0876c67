ghost use Rattle.std.specs.Prelude.{◌≡◌, ◌+◌, ◌≤◌, length};

use crate::empties::Empties;
use columns::column::Column;
use columns::kind::Kind;
use columns::stored::Stored;

impl Stored for Empties {
    fn slice_bytes(&self, k: usize) -> usize {
        if k == 0 { 8 } else { 0 }
    }

    fn write_slice(&self, k: usize, out: &mut [u64], at: usize) -> usize {
        if k > 0 {
            return at;
        }
        out[at] = self.len() as u64;
        at + 1
    }
}
