ghost use Rattle.std.specs.Prelude.{◌≡◌, ◌-◌, ◌<◌, ◌≤◌, length, take, drop, slice_index, IfOk};
ghost use Rattle.std.specs.Result.{result_map_both};
ghost use Rattle.store.specs.Layout.{up};
ghost use Rattle.store.specs.Answers.{most_slices, answered, ragged_fault, check_answer, validate_answer, bytes_of, slices_in, slice_of};

use crate::table::{MOST_SLICES, check_table};
use refusals::fault::Fault;
use words::part::Part;

// Words of which nothing is known.
#[derive(Drop)]
pub struct RawStore<'a> {
    words: &'a [u64],
}

// Words whose table of ends was checked: only a raw store becomes one.
#[derive(Drop)]
pub struct CheckedStore<'a> {
    words: &'a [u64],
}

impl<'a> RawStore<'a> {
    pub fn new(words: &'a [u64]) -> RawStore<'a>
        ensures list { result.words.now ≡ words.now }
    {
        RawStore { words }
    }

    // Refuses with 7 to 12 a store that is not well laid out, or has another number of slices.
    pub fn check(self, expected: usize) -> Result<CheckedStore<'a>, Fault>
        ensures answer { result_map_both (λ _. tt) (λ f. f) result ≡ check_answer self.entry.words.now expected }
        ensures same { IfOk result (λ s. s.words.now ≡ self.entry.words.now) }
    {
        check_table(self.words, expected)?;
        Ok(CheckedStore { words: self.words })
    }

    // Refuses as check does, one slice for each size of an element, and with 13 the first slice that
    // is no whole number of its elements; at a size of 0 no slice is whole. A list of too many sizes
    // is refused before all else.
    pub fn validate(self, sizes: &[usize]) -> Result<CheckedStore<'a>, Fault>
        ensures answer { result_map_both (λ _. tt) (λ f. f) result ≡ validate_answer self.entry.words.now sizes.now }
        ensures same { IfOk result (λ s. s.words.now ≡ self.entry.words.now) }
    {
        if sizes.len() > MOST_SLICES {
            // The format's own numbers for too many sizes: 4,096 expected, 0 found.
            return Err(Fault::Slices(MOST_SLICES as u64 + 1, 0));
        }
        let checked = self.check(sizes.len())?;
        checked.check_elements(sizes)?;
        Ok(checked)
    }
}

impl<'a> CheckedStore<'a> {
    // The number of slices.
    pub fn len(&self) -> usize
        ensures { result ≡ slices_in self.now.words.now }
    {
        (self.word(0) / 8).saturating_sub(1) as usize
    }

    // The words of slice `k`, and how many bytes of the last are in use, 0 for all of them: the number that
    // the format has.
    pub fn slice(&self, k: usize) -> (Part<'a>, u8)
        ensures words { result.0.words.now ≡ (slice_of self.now.words.now k).0 }
        ensures tail { result.1 ≡ (slice_of self.now.words.now k).1 }
    {
        if k >= self.len() {
            // The format's rule past the last slice: no words, and tail 0.
            return (Part::new(&[]), 0);
        }
        let from = self.place(k);
        let to = self.place(k + 1);
        (self.cut(from, to), (self.word(k + 1) % 8) as u8)
    }

    // Word `i`, and 0 past the last.
    fn word(&self, i: usize) -> u64
        ensures { result ≡ slice_index self.now.words.now i }
    {
        self.words.get(i).copied().unwrap_or(0)
    }

    // The first word at or behind the byte that word `i` names.
    fn place(&self, i: usize) -> usize
        ensures { result ≡ up (slice_index self.now.words.now i) }
    {
        self.word(i).div_ceil(8) as usize
    }

    // The words from `a` on, before `b`.
    fn cut(&self, a: usize, b: usize) -> Part<'a>
        ensures { result.words.now ≡ take (b - a) (drop a self.now.words.now) }
    {
        let to = b.min(self.words.len());
        Part::new(self.words.get(a..to).unwrap_or(&[]))
    }

    // The length of slice `k` in bytes, by gap and padding: an end near 2^64 rounded up would not fit.
    fn bytes_of(&self, k: usize) -> u64
        requires { k < most_slices }
        ensures { result ≡ bytes_of self.now.words.now k }
    {
        let before = self.word(k);
        let gap = self.word(k + 1).saturating_sub(before);
        let padding = (8 - before % 8) % 8;
        gap.saturating_sub(padding)
    }

    // Refuses with 13 the first slice that is no whole number of elements. At a size of 0 no slice is
    // whole.
    fn check_elements(&self, sizes: &[usize]) -> Result<(), Fault>
        requires { length sizes.now ≤ most_slices }
        ensures { result ≡ answered (ragged_fault self.now.words.now 0 sizes.now) }
    {
        for (i, z) in sizes.iter().enumerate() {
            let size = *z as u64;
            if size == 0 || self.bytes_of(i) % size != 0 {
                return Err(Fault::Ragged(i));
            }
        }
        Ok(())
    }
}
