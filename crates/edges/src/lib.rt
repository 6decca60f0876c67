// Tests of the low crates at their edges; the functions here only fill and compare.
#![tactic(auto)]

use bits::rank_select::RankSelect;
use columns::column::{Column, Payload};
use columns::kind::Kind;
use columns::stored::Stored;
use columns::writing::write;
use cursor::cursor::Cursor;
use refusals::fault::Fault;
use refusals::refusal::Refusal;
use store::store::{CheckedStore, RawStore};
use words::reading::{GrowStore, ReadStore};

// Pushes `n` bits, of which every third is a one.
pub fn fill<C: GrowStore<Item = u64>, V: GrowStore<Item = u64>>(
    column: &mut RankSelect<C, V>,
    n: usize,
) -> Result<(), Fault> {
    for i in 0..n {
        column.push(i % 3 == 0)?;
    }
    Ok(())
}

// At how many places rank is another number than that of the ones which `get` shows below.
pub fn astray<C: ReadStore<Item = u64>, V: ReadStore<Item = u64>>(
    column: &RankSelect<C, V>,
) -> Result<usize, Fault> {
    let mut wrong = 0usize;
    let mut ones = 0usize;
    for i in 0..column.len() {
        if column.rank(i)? != ones {
            wrong = wrong.saturating_add(1);
        }
        if column.get(i)? {
            ones = ones.saturating_add(1);
        }
    }
    if column.rank(column.len())? != ones {
        wrong = wrong.saturating_add(1);
    }
    Ok(wrong)
}

// At how many ranks select is another place than that of the ones in order.
pub fn misplaced<C: ReadStore<Item = u64>, V: ReadStore<Item = u64>>(
    column: &RankSelect<C, V>,
) -> Result<usize, Fault> {
    let mut wrong = 0usize;
    let mut ones = 0u64;
    for i in 0..column.len() {
        if column.get(i)? {
            if column.select(ones) != Some(i) {
                wrong = wrong.saturating_add(1);
            }
            ones = ones.saturating_add(1);
        }
    }
    if column.select(ones) != None {
        wrong = wrong.saturating_add(1);
    }
    Ok(wrong)
}

// At how many places two columns differ, and how much longer one is.
pub fn unlike<C: ReadStore<Item = u64>, V: ReadStore<Item = u64>>(
    a: &RankSelect<C, V>,
    b: &RankSelect<C, V>,
) -> Result<usize, Fault> {
    let mut wrong = a.len().abs_diff(b.len());
    for i in 0..a.len().min(b.len()) {
        if a.get(i)? != b.get(i)? {
            wrong = wrong.saturating_add(1);
        }
    }
    Ok(wrong)
}

// Pushes bits `start` to `end - 1` of a source one by one.
pub fn push_range<C: GrowStore<Item = u64>, V: GrowStore<Item = u64>>(
    column: &mut RankSelect<C, V>,
    source: &RankSelect<C, V>,
    start: usize,
    end: usize,
) -> Result<(), Fault> {
    for i in start..end {
        column.push(source.get(i)?)?;
    }
    Ok(())
}

// Pushes `n` words of ones.
pub fn push_words<C: GrowStore<Item = u64>, V: GrowStore<Item = u64>>(
    column: &mut RankSelect<C, V>,
    n: usize,
) -> Result<(), Fault> {
    for _ in 0..n {
        column.push_bits(u64::MAX, 64)?;
    }
    Ok(())
}

// At how many calls a walk by next_one answers another place than select, and a walk by step another bit
// than get.
pub fn stray_walks<C: ReadStore<Item = u64>, V: ReadStore<Item = u64>>(
    column: &RankSelect<C, V>,
) -> Result<usize, Fault> {
    let mut wrong = 0usize;
    let mut ones = Cursor::new(column);
    let mut bits = Cursor::new(column);
    for i in 0..column.len() {
        if ones.next_one(column)? != column.select(i as u64) {
            wrong = wrong.saturating_add(1);
        }
        if bits.step(column)? != Some(column.get(i)?) || bits.rank() != column.rank(i + 1)? as u64 {
            wrong = wrong.saturating_add(1);
        }
    }
    if ones.next_one(column)? != None || bits.step(column)? != None {
        wrong = wrong.saturating_add(1);
    }
    Ok(wrong)
}

// The number of the refusal of a store, or 0. Refusals of changed words are counted by it, whatever they
// carry, and the tests of stores compare it; the other tests compare the refusals themselves.
pub fn number_of(answer: Result<CheckedStore<'_>, Fault>) -> u32 {
    answer.err().map_or(0, |fault| fault.number())
}

// How many changes of one word of a good store give that refusal.
pub fn changes_with(number: u32) -> usize {
    let good = [40, 40, 40, 56, 72, 5, 3, 7, 9];
    let values = [0, 8, 39, 41, 48, 56, 72, 73, u64::MAX];
    let mut found = 0usize;
    for i in 0..good.len() {
        for v in values.iter() {
            let mut words = good;
            words[i] = *v;
            if number_of(RawStore::new(&words).check(4)) == number {
                found = found.saturating_add(1);
            }
        }
    }
    found
}

// The number of words and of tail bytes of a slice.
pub fn slice_shape(words: &[u64], expected: usize, k: usize) -> Result<(usize, u8), Fault> {
    let checked = RawStore::new(words).check(expected)?;
    let (part, tail) = checked.slice(k);
    Ok((part.len(), tail))
}

// Pushes entries one by one.
pub fn push_each<C: Payload>(column: &mut C, entries: &[C::Item]) -> Result<(), C::Fault> {
    for entry in entries.iter() {
        column.push(*entry)?;
    }
    Ok(())
}

// Pushes `n` entries, of which every twentieth is Some.
pub fn fill_options<C: Payload + Column<Item = Option<u64>>>(
    column: &mut C,
    n: usize,
) -> Result<(), C::Fault> {
    for i in 0..n {
        column.push(if i % 20 == 0 { Some(i as u64) } else { None })?;
    }
    Ok(())
}

// At how many places the writings of two columns, of up to 128 words, differ, and how much longer one is.
pub fn apart<A: Stored, B: Stored>(a: &A, b: &B) -> Result<usize, Fault> {
    let mut left = [0; 128];
    let mut right = [1; 128]; // other words, so that one that is not written differs
    let n = write(a, &mut left)?;
    let mut wrong = n.abs_diff(write(b, &mut right)?);
    for i in 0..n.min(128) {
        if left[i] != right[i] {
            wrong = wrong.saturating_add(1);
        }
    }
    Ok(wrong)
}

// Checks and validates words with the number of slices of a column's kind, up to 8, and their sizes.
pub fn opened<C: Column>(_column: &C, words: &[u64]) -> Result<(), Fault> {
    let n = C::Kind::slice_count();
    let mut sizes = [0; 8];
    for k in 0..n.min(8) {
        sizes[k] = C::Kind::element_size(k);
    }
    let _ = RawStore::new(words).check(n)?;
    let _ = RawStore::new(words).validate(&sizes[..n.min(8)])?;
    Ok(())
}

// Whether slice `k` has those words and tail bytes.
pub fn slice_is(
    words: &[u64],
    expected: usize,
    k: usize,
    contents: &[u64],
    tail: u8,
) -> Result<bool, Fault> {
    let checked = RawStore::new(words).check(expected)?;
    let (part, found) = checked.slice(k);
    if part.len() != contents.len() || found != tail {
        return Ok(false);
    }
    for (i, w) in contents.iter().enumerate() {
        if part.item(i)? != *w {
            return Ok(false);
        }
    }
    Ok(true)
}

#[cfg(test)]
mod tests;
