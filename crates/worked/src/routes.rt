ghost use Rattle.std.specs.Prelude.{◌≡◌, [], length, Some, None, Ok};
ghost use Rattle.bits.specs.Columns.{column_bits};
ghost use Rattle.options.specs.Entries.{merge};
ghost use Rattle.words.specs.contracts.table.Table64ReadStore.TheImpl.{ghosts as tabled};

use columns::column::{Column, Payload};
use items::items::Words;
use options::fault::OptionsFault;
use options::options::Options;
use refusals::fault::Fault;
use words::reading::{GrowStore, ReadStore};
use words::table::Table64;

// A struct over a column takes the column's type as its parameter.
#[derive(Drop)]
pub struct Route<T: Column> {
    doors: Options<T, Table64, Table64>,
}

// The same for any store of words, and for columns of columns: a name and no struct of its own, since the
// checker refuses a column over `Words<S>` anywhere within the fields of a struct over `S`.
type Times<S> = Route<Words<S>>;

type Rounds<T> = Route<Options<T, Table64, Table64>>;

// Why a route of rounds refuses.
pub type RoundsFault = OptionsFault<OptionsFault<Fault>>;

// No doors, their times to stand in a store that is cleared.
fn no_times<S: GrowStore<Item = u64>>(store: S) -> Times<S>
    ensures { merge (column_bits tabled result.doors.indexes) (S.ReadStore.list result.doors.somes.store) ≡ [] }
{
    Route {
        doors: Options::new(Table64::new(), Table64::new(), Words::new(store)),
    }
}

// The number of doors.
fn doors<S: ReadStore<Item = u64>>(route: &Times<S>) -> usize
    ensures { result ≡ length (merge (column_bits tabled route.now.doors.indexes) (S.ReadStore.list route.now.doors.somes.store)) }
{
    route.doors.len()
}

// No doors: a door will be on the round or not, and one that is has a visit or none, in a column that is
// cleared.
fn no_rounds<T: Payload>(visits: T) -> Rounds<T>
    ensures { merge (column_bits tabled result.doors.indexes) (merge (column_bits tabled result.doors.somes.indexes) (T.Column.items result.doors.somes.somes)) ≡ [] }
{
    let doors = Options::new(Table64::new(), Table64::new(), visits);
    Route {
        doors: Options::new(Table64::new(), Table64::new(), doors),
    }
}

// Two doors, one visited at 500 and one not: their number, and both.
pub fn of_times() -> (
    usize,
    Result<Option<u64>, OptionsFault<Fault>>,
    Result<Option<u64>, OptionsFault<Fault>>,
)
    ensures { result ≡ (2, Ok (Some 500), Ok None) }
{
    let mut route = no_times(Table64::new());
    let _ = route.doors.push(Some(500));
    let _ = route.doors.push(None);
    (doors(&route), route.doors.get(0), route.doors.get(1))
}

// Three doors: on the round and not visited, not on it, and visited at 500. Their number, and all three.
pub fn of_rounds() -> (
    usize,
    Result<Option<Option<u64>>, RoundsFault>,
    Result<Option<Option<u64>>, RoundsFault>,
    Result<Option<Option<u64>>, RoundsFault>,
)
    ensures { result ≡ (3, Ok (Some None), Ok None, Ok (Some (Some 500))) }
{
    let mut route = no_rounds(Words::new(Table64::new()));
    let _ = route.doors.push(Some(None));
    let _ = route.doors.push(None);
    let _ = route.doors.push(Some(Some(500)));
    (
        route.doors.len(),
        route.doors.get(0),
        route.doors.get(1),
        route.doors.get(2),
    )
}
