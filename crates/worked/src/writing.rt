ghost use Rattle.std.specs.Prelude.{◌≡◌, List, [], ◌∷◌, Some, None, Ok};
ghost use Rattle.bits.specs.Columns.{column_bits};
ghost use Rattle.options.specs.Entries.{merge};
ghost use Rattle.words.specs.contracts.table.Table64ReadStore.TheImpl.{ghosts as tabled};

use columns::column::Payload;
use columns::writing::{size, write};
use items::items::Words;
use options::options::Options;
use refusals::fault::Fault;
use words::table::Table64;

// Words or none, over three tables.
type Times = Options<Words<Table64>, Table64, Table64>;

// The entries Some 7, None, Some 9.
fn three_times() -> Times
    ensures { merge (column_bits tabled result.indexes) (tabled.list result.somes.store) ≡ Some 7 ∷ None ∷ Some 9 ∷ [] }
{
    let mut times = Options::new(Table64::new(), Table64::new(), Words::new(Table64::new()));
    let _ = times.push(Some(7));
    let _ = times.push(None);
    let _ = times.push(Some(9));
    times
}

// The words that they take.
pub fn of_size() -> Result<usize, Fault>
    ensures { result ≡ Ok 9 }
{
    size(&three_times())
}

// What `write` answers for nine words of 0, and the words behind it.
pub fn of_writing() -> (Result<usize, Fault>, [u64; 9])
    ensures { result ≡ (Ok 9, 40 ∷ 40 ∷ 40 ∷ 56 ∷ 72 ∷ 5 ∷ 3 ∷ 7 ∷ 9 ∷ []) }
{
    let mut words = [0; 9];
    let answer = write(&three_times(), &mut words);
    (answer, words)
}
