ghost use Rattle.std.specs.Prelude.{◌≡◌, [], ◌∷◌, ◌++◌};
ghost use Rattle.columns.specs.Plain.{within_answer, append_answer};
ghost use Rattle.refusals.specs.declared.fault.Fault.TheVariants.{Past};

use crate::column::Column;
use refusals::fault::Fault;

// What a column of at most `most` items is asked before it grows, whatever holds the items.

// Whether it may take one more.
pub fn one_within<T: Column>(column: &T, most: usize) -> Result<(), Fault>
    ensures { (x : T.Item) → result ≡ within_answer most (T.Column.items column.now) (T.Column.items column.now ++ (x ∷ [])) }
{
    if column.len() >= most {
        return Err(Fault::Full(column.len()));
    }
    Ok(())
}

// Whether it may take items `start` to `end - 1` of a source. A column that is longer than `most` may take
// none.
pub fn range_within<T: Column>(
    column: &T,
    source: &T,
    most: usize,
    start: usize,
    end: usize,
) -> Result<(), Fault>
    ensures { result ≡ append_answer Past (within_answer most) (T.Column.items column.now) (T.Column.items source.now) start end }
{
    if start >= end {
        return Ok(());
    }
    if end > source.len() {
        return Err(Fault::Past(end));
    }
    let n = column.len();
    if end - start > most.saturating_sub(n) {
        return Err(Fault::Full(n));
    }
    Ok(())
}
