ghost use Rattle.std.specs.Prelude.{◌≡◌, ◌*◌, ◌≤◌};
ghost use Rattle.store.specs.Answers.{longest, answered, ends_fault, check_answer};

use refusals::fault::Fault;

// The most words that a store may have.
pub const LONGEST: usize = 268_435_456;

// The most slices that a caller may ask for.
pub(crate) const MOST_SLICES: usize = 4095;

// Refuses with 11 or 12 the first slice that ends behind the store or before its start, where the first
// slice starts at `start`. A store has at most 2,147,483,648 bytes, so an end that is not behind them can
// be rounded up.
fn check_ends(ends: &[u64], bytes: u64, start: u64) -> Result<(), Fault>
    requires { bytes ≤ 8 * longest }
    ensures { result ≡ answered (ends_fault bytes 0 start ends.now) }
{
    let mut from = start;
    for (i, e) in ends.iter().enumerate() {
        let end = *e;
        if bytes < end {
            return Err(Fault::Beyond(i, end));
        }
        if end < from {
            return Err(Fault::Before(i, end));
        }
        from = 8 * end.div_ceil(8);
    }
    Ok(())
}

// Refuses with 7 to 12 words that are no store of the expected number of slices.
pub(crate) fn check_table(words: &[u64], expected: usize) -> Result<(), Fault>
    ensures { result ≡ check_answer words.now expected }
{
    let n = words.len();
    if n == 0 || n > LONGEST {
        return Err(Fault::Extent);
    }
    let first = words[0];
    if first < 8 || first % 8 != 0 {
        return Err(Fault::First(first));
    }
    let table = first / 8;
    if table > n as u64 {
        return Err(Fault::Table(table));
    }
    if table - 1 != expected as u64 {
        return Err(Fault::Slices(expected as u64, table - 1));
    }
    check_ends(&words[1..table as usize], 8 * n as u64, first)
}
