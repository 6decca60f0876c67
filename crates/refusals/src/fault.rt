// A refusal with what it carries. docs/RULES.md says which call gives which, and in which order.
#[derive(Clone, Copy, PartialEq, Eq, Debug)]
pub enum Fault {
    // 1: the index lies outside the list
    Outside(usize),
    // 2: a range's end lies past the end of its source
    Past(usize),
    // 3: the limit would be passed; the length before the call
    Full(usize),
    // 4: the count of a group of bits is above 64, or the group has a bit at or above it
    Group(usize),
    // 5: the column is not as long as the cursor; the column's length
    Length(usize),
    // 6: the target lies behind the cursor
    Behind(u64),
    // 7: the store is empty, or longer than 268,435,456 words
    Extent,
    // 8: the first word is below 8, or no multiple of 8
    First(u64),
    // 9: the table of ends is longer than the store; the first word divided by 8
    Table(u64),
    // 10: the number of slices is another than expected; expected and found
    Slices(u64, u64),
    // 11: an end lies behind the store; slice and end
    Beyond(usize, u64),
    // 12: an end lies before its slice's start; slice and end
    Before(usize, u64),
    // 13: a slice is no whole number of elements
    Ragged(usize),
    // 14: a slice is no part of the writing of any entries
    Unlawful(usize),
    // 15: the words needed are more than there may be, or than there are
    Room(u64),
}
