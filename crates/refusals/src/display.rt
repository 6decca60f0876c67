use crate::fault::Fault;
use std::fmt;

// A refusal in words, with its number.
impl fmt::Display for Fault {
    fn fmt<W: fmt::Write>(&self, f: &mut fmt::Formatter<W>) -> fmt::Result {
        match *self {
            Fault::Outside(i) => write!(f, "index {i} is past the end (refusal 1)"),
            Fault::Past(e) => write!(
                f,
                "the range ends at {e}, past the end of its source (refusal 2)"
            ),
            Fault::Full(n) => write!(f, "at length {n} the limit would be passed (refusal 3)"),
            Fault::Group(n) => write!(
                f,
                "a group of {n} bits is too wide, or has a bit outside (refusal 4)"
            ),
            Fault::Length(n) => write!(
                f,
                "the cursor belongs to another length than {n} (refusal 5)"
            ),
            Fault::Behind(t) => write!(f, "target {t} lies behind the cursor (refusal 6)"),
            Fault::Extent => write!(f, "the store is empty or too long (refusal 7)"),
            Fault::First(w) => write!(f, "the store begins with {w} (refusal 8)"),
            Fault::Table(q) => write!(f, "a table of {q} ends does not fit the store (refusal 9)"),
            Fault::Slices(e, n) => write!(f, "{e} slices were expected, {n} found (refusal 10)"),
            Fault::Beyond(k, e) => write!(
                f,
                "slice {k} ends at byte {e}, behind the store (refusal 11)"
            ),
            Fault::Before(k, e) => write!(
                f,
                "slice {k} ends at byte {e}, before it starts (refusal 12)"
            ),
            Fault::Ragged(k) => write!(f, "slice {k} is no whole number of elements (refusal 13)"),
            Fault::Unlawful(k) => write!(f, "slice {k} is not lawful (refusal 14)"),
            Fault::Room(n) => write!(f, "{n} words are needed (refusal 15)"),
        }
    }
}
