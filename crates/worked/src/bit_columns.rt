ghost use Rattle.std.specs.Prelude.{◌≡◌, ◌+◌, ◌/◌, ◌≤◌, true, List, [], ◌∷◌, replicate, if◌then◌else◌, Some, None, Ok, Err, nat_lt};
ghost use Rattle.refusals.specs.declared.fault.Fault.TheVariants.{Outside};
ghost use Rattle.bits.specs.Columns.{column_bits};
ghost use Rattle.words.specs.contracts.table.Table64ReadStore.TheImpl.{ghosts as tabled};

use bits::rank_select::RankSelect;
use cursor::cursor::Cursor;
use refusals::fault::Fault;
use words::reading::ReadStore;
use words::table::Table64;

// A column over two tables. Its promises pin what a push leaves, so no answer is looked at here.
pub type Column = RankSelect<Table64, Table64>;

// No bits, over two tables.
fn no_bits() -> Column
    ensures { column_bits tabled result ≡ [] }
{
    RankSelect::new(Table64::new(), Table64::new())
}

// rank(0), select(0) and rank(1) of no bits.
pub fn of_none() -> (Result<usize, Fault>, Option<usize>, Result<usize, Fault>)
    ensures { result ≡ (Ok 0, None, Err (Outside 1)) }
{
    let column = no_bits();
    (column.rank(0), column.select(0), column.rank(1))
}

// rank(2), rank(3), select(1) and select(2) of the bits 1, 0, 1.
pub fn of_three() -> (
    Result<usize, Fault>,
    Result<usize, Fault>,
    Option<usize>,
    Option<usize>,
)
    ensures { result ≡ (Ok 1, Ok 2, Some 2, None) }
{
    let mut column = no_bits();
    let _ = column.push(true);
    let _ = column.push(false);
    let _ = column.push(true);
    (
        column.rank(2),
        column.rank(3),
        column.select(1),
        column.select(2),
    )
}

// select(4294967296) of one bit, a one: the crate cuts the rank to 32 bits, and finds it.
pub fn of_far_rank() -> Option<usize>
    ensures { result ≡ None }
{
    let mut column = no_bits();
    let _ = column.push(true);
    column.select(4_294_967_296)
}

// Pushes `n` ones, for which two tables have room.
fn push_ones(column: &mut Column, n: usize)
    requires empty { column_bits tabled column.old ≡ [] }
    requires few { n ≤ 4096 }
    ensures { column_bits tabled column.new ≡ replicate n true }
{
    for _ in 0..n {
        let _ = column.push(true);
    }
}

// The number of counts of `n` ones, and the first.
pub fn counts_of_ones(n: usize) -> (usize, Result<u64, Fault>)
    requires { n ≤ 4096 }
    ensures { result ≡ (n / 1024, (if nat_lt 0 (n / 1024) then Ok 1024 else Err (Outside 0))) }
{
    let mut column = no_bits();
    push_ones(&mut column, n);
    let counts = column.counts();
    (counts.len(), counts.item(0))
}

// The first word, and the tail, of 62 zeros and then the group 5 of 3 bits.
pub fn of_group() -> (Result<u64, Fault>, u64, usize)
    ensures { result ≡ (Ok 4611686018427387904, 1, 1) }
{
    let mut column = no_bits();
    let _ = column.push_bits(0, 62);
    let _ = column.push_bits(5, 3);
    let values = column.values();
    let tail = values.tail();
    (values.words().item(0), tail.word, tail.bits)
}

// next_one, step and next_one again over 130 bits with ones at 63, 64 and 129.
pub fn of_walk() -> (
    Result<Option<usize>, Fault>,
    Result<Option<bool>, Fault>,
    Result<Option<usize>, Fault>,
)
    ensures { result ≡ (Ok (Some 63), Ok (Some true), Ok (Some 129)) }
{
    let mut column = no_bits();
    let _ = column.push_bits(1 << 63, 64);
    let _ = column.push_bits(1, 64);
    let _ = column.push_bits(2, 2);
    let mut cursor = Cursor::new(&column);
    (
        cursor.next_one(&column),
        cursor.step(&column),
        cursor.next_one(&column),
    )
}
