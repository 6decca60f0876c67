// Wrappers that Rust or C can link, over buffers that the caller owns: for measuring beside the crate. The
// buffers of a column are arguments one by one, and a range is two numbers: the C interface.
#![tactic(auto)]

use bits::rank_select::RankSelect;
use cursor::cursor::Cursor;
use words::lent::Lent;
use words::reading::{GrowStore, ReadStore};

pub mod visits;

// Bit `i` of a pattern of words, which goes round.
pub(crate) fn pattern_bit(pattern: &[u64], i: usize) -> bool {
    if pattern.is_empty() {
        return false;
    }
    (pattern[(i / 64) % pattern.len()] >> (i % 64)) & 1 == 1
}

// The number of ones: answered, so that the compiler can't leave the work out. It stands beside `marked` of
// payload columns: a bit column is none, so there is no trait over both.
fn ones<C: ReadStore<Item = u64>, V: ReadStore<Item = u64>>(column: &RankSelect<C, V>) -> usize {
    column.rank(column.len()).unwrap_or(0)
}

// The bits of a pattern over two buffers.
fn filled<'a>(
    counts: &'a mut [u64],
    words: &'a mut [u64],
    pattern: &[u64],
) -> RankSelect<Lent<'a, u64>, Lent<'a, u64>> {
    let mut column = RankSelect::new(Lent::new(counts, 0), Lent::new(words, 0));
    for w in pattern {
        let _ = column.push_bits(*w, 64);
    }
    column
}

#[unsafe(no_mangle)]
pub extern "C" fn rumbykai_push(
    counts: &mut [u64],
    words: &mut [u64],
    pattern: &[u64],
    n: usize,
) -> usize {
    let mut column = RankSelect::new(Lent::new(counts, 0), Lent::new(words, 0));
    for i in 0..n {
        let _ = column.push(pattern_bit(pattern, i));
    }
    ones(&column)
}

#[unsafe(no_mangle)]
pub extern "C" fn rumbykai_push_bits(
    counts: &mut [u64],
    words: &mut [u64],
    pattern: &[u64],
) -> usize {
    ones(&filled(counts, words, pattern))
}

// The sum of the ranks at some places, of the bits of a pattern.
#[unsafe(no_mangle)]
pub extern "C" fn rumbykai_rank(
    counts: &mut [u64],
    words: &mut [u64],
    pattern: &[u64],
    places: &[u64],
) -> u64 {
    let column = filled(counts, words, pattern);
    places
        .iter()
        .map(|p| column.rank(*p as usize).unwrap_or(0) as u64)
        .fold(0, u64::wrapping_add)
}

// The sum of the places of some ones.
#[unsafe(no_mangle)]
pub extern "C" fn rumbykai_select(
    counts: &mut [u64],
    words: &mut [u64],
    pattern: &[u64],
    ranks: &[u64],
) -> u64 {
    let column = filled(counts, words, pattern);
    ranks
        .iter()
        .map(|r| column.select(*r).unwrap_or(0) as u64)
        .fold(0, u64::wrapping_add)
}

// Appends ranges of a source, which are given as pairs of start and end, to a column that is cleared
// before each round.
#[unsafe(no_mangle)]
pub extern "C" fn rumbykai_append(
    counts: &mut [u64],
    words: &mut [u64],
    source_counts: &mut [u64],
    source_words: &mut [u64],
    pattern: &[u64],
    ranges: &[u64],
    rounds: usize,
) -> usize {
    let source = filled(source_counts, source_words, pattern);
    let mut column = RankSelect::new(Lent::new(counts, 0), Lent::new(words, 0));
    // This loop stands here and for visits: a bit column refuses an empty range past its source, so it is no payload
    // column, and a closure over the column isn't covered by the borrow checker.
    for _ in 0..rounds {
        column.clear();
        for [start, end] in ranges.as_chunks::<2>().0 {
            let _ = column.append(&source, *start as usize, *end as usize);
        }
    }
    ones(&column)
}

// The sum of the places of all ones, by a walk from one to the next.
fn walk_ones<C: ReadStore<Item = u64>, V: ReadStore<Item = u64>>(column: &RankSelect<C, V>) -> u64 {
    let mut cursor = Cursor::new(column);
    let mut sum = 0u64;
    for _ in 0..column.len() {
        let Ok(Some(p)) = cursor.next_one(column) else {
            break;
        };
        sum = sum.wrapping_add(p as u64);
    }
    sum
}

// The number of ones, by a walk over all bits.
fn walk_bits<C: ReadStore<Item = u64>, V: ReadStore<Item = u64>>(column: &RankSelect<C, V>) -> u64 {
    let mut cursor = Cursor::new(column);
    let mut sum = 0u64;
    for _ in 0..column.len() {
        if let Ok(Some(true)) = cursor.step(column) {
            sum = sum.wrapping_add(1);
        }
    }
    sum
}

// A flag says which walk: the C interface.
#[unsafe(no_mangle)]
pub extern "C" fn rumbykai_walk(
    counts: &mut [u64],
    words: &mut [u64],
    pattern: &[u64],
    ones_only: bool,
) -> u64 {
    let column = filled(counts, words, pattern);
    if ones_only {
        walk_ones(&column)
    } else {
        walk_bits(&column)
    }
}
