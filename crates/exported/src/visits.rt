// Results of words and bytes over buffers that the caller owns.
use crate::pattern_bit;
use byte_items::kind::Bytes;
use columns::column::{Column, Payload, Variant};
use columns::writing::write;
use items::items::Words;
use results::results::Results;
use words::lent::Lent;

// Visits over buffers of marks, times and codes.
type Visits<'a> = Results<Words<Lent<'a, u64>>, Bytes<Lent<'a, u8>>, Lent<'a, u64>, Lent<'a, u64>>;

fn no_visits<'a>(
    counts: &'a mut [u64],
    words: &'a mut [u64],
    times: &'a mut [u64],
    codes: &'a mut [u8],
) -> Visits<'a> {
    Results::new(
        Lent::new(counts, 0),
        Lent::new(words, 0),
        Words::new(Lent::new(times, 0)),
        Bytes::new(Lent::new(codes, 0)),
    )
}

// Entry `i` of a pattern: Ok with its number, or Err with a code.
fn entry(pattern: &[u64], i: usize) -> Result<u64, u8> {
    if pattern_bit(pattern, i) {
        Ok(i as u64)
    } else {
        Err((i % 256) as u8)
    }
}

// Clears a column and pushes `n` entries of a pattern.
fn fill<C: Payload + Column<Item = Result<u64, u8>>>(column: &mut C, pattern: &[u64], n: usize) {
    column.clear();
    for i in 0..n {
        let _ = column.push(entry(pattern, i));
    }
}

// The number of Ok entries: answered, so that the compiler can't leave the work out. It stands beside `ones`
// of bit columns: they are no payload columns, so there is no trait over both.
fn marked<C: Variant>(column: &C) -> usize {
    column.rank(column.len()).unwrap_or(0)
}

#[unsafe(no_mangle)]
pub extern "C" fn rumbykai_results_push(
    counts: &mut [u64],
    words: &mut [u64],
    times: &mut [u64],
    codes: &mut [u8],
    pattern: &[u64],
    n: usize,
    rounds: usize,
) -> usize {
    let mut column = no_visits(counts, words, times, codes);
    for _ in 0..rounds {
        fill(&mut column, pattern, n);
    }
    marked(&column)
}

#[unsafe(no_mangle)]
pub extern "C" fn rumbykai_results_get(
    counts: &mut [u64],
    words: &mut [u64],
    times: &mut [u64],
    codes: &mut [u8],
    pattern: &[u64],
    n: usize,
    places: &[u64],
) -> u64 {
    let mut column = no_visits(counts, words, times, codes);
    fill(&mut column, pattern, n);
    places
        .iter()
        .filter_map(|p| column.get(*p as usize).ok())
        .map(|visit| visit.unwrap_or_else(|code| code as u64))
        .fold(0, u64::wrapping_add)
}

// The words of the writing, or 0 where it was refused.
#[unsafe(no_mangle)]
pub extern "C" fn rumbykai_results_write(
    counts: &mut [u64],
    words: &mut [u64],
    times: &mut [u64],
    codes: &mut [u8],
    pattern: &[u64],
    n: usize,
    out: &mut [u64],
    rounds: usize,
) -> usize {
    let mut column = no_visits(counts, words, times, codes);
    fill(&mut column, pattern, n);
    let mut written = 0;
    for _ in 0..rounds {
        written = write(&column, out).unwrap_or(0);
    }
    written
}

// A buffer cut in two.
fn halves<T>(buffer: &mut [T]) -> (&mut [T], &mut [T]) {
    let half = buffer.len() / 2;
    buffer.split_at_mut(half)
}

// The buffers are cut in two, for a column and its source: so both are lent for one lifetime.
#[unsafe(no_mangle)]
pub extern "C" fn rumbykai_results_append(
    counts: &mut [u64],
    words: &mut [u64],
    times: &mut [u64],
    codes: &mut [u8],
    pattern: &[u64],
    n: usize,
    ranges: &[u64],
    rounds: usize,
) -> usize {
    let (own_counts, source_counts) = halves(counts);
    let (own_words, source_words) = halves(words);
    let (own_times, source_times) = halves(times);
    let (own_codes, source_codes) = halves(codes);
    let mut source = no_visits(source_counts, source_words, source_times, source_codes);
    fill(&mut source, pattern, n);
    let mut column = no_visits(own_counts, own_words, own_times, own_codes);
    // This loop stands here and for bits: a bit column refuses an empty range past its source, so it is no payload
    // column, and a closure over the column isn't covered by the borrow checker.
    for _ in 0..rounds {
        column.clear();
        for [start, end] in ranges.as_chunks::<2>().0 {
            let _ = column.append(&source, *start as usize, *end as usize);
        }
    }
    marked(&column)
}
