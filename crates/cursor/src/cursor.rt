ghost use Rattle.std.specs.Prelude.{◌≡◌, ◌+◌, ◌-◌, ◌*◌, ◌≤◌};
ghost use Rattle.cursor.specs.Hint.{above};

// Three numbers: the next place to look at, a count of ones, and the length of the column that the
// walk is over. The column is handed in at each call, so a cursor lends nothing.
//
// Beside them stands a hint: the word that was read last, which one it was, and what of it the walk has
// not come to. A call holds the word against the column's before it uses the rest, so the hint never
// decides an answer; it only spares the processor a wait for the word.
#[derive(Clone, Copy)]
pub struct Cursor {
    place: usize,
    count: u64,
    length: usize,
    block: usize,
    word: u64,
    rest: u64,
    ghost counted: { count ≤ place },
    ghost within: { place ≤ length },
    ghost begun: { 64 * block ≤ place },
    ghost ended: { place ≤ 64 * block + 64 },
    ghost hint: { rest ≡ above word (place - 64 * block) },
}

mod moves;
