use columns::column::{Column, Payload, Variant};
use columns::kind::Kind;
use columns::stored::Stored;
use columns::writing::{size, write};
use refusals::refusal::Refusal;
use std::{fmt, io};

// Prints what a call answered.
pub fn report<F: fmt::Display + Drop, R: Print>(
    rt: &R,
    call: &str,
    answer: Result<(), F>,
) -> io::Result<()> {
    match answer {
        Ok(()) => println!(rt; "{call}: done"),
        Err(f) => println!(rt; "{call}: {f}"),
    }
}

// Pushes entries one by one, and prints each refusal.
pub fn push_each<C: Payload, R: Print>(
    rt: &R,
    column: &mut C,
    entries: &[C::Item],
) -> io::Result<()>
where
    C::Fault: fmt::Display,
{
    for (i, entry) in entries.iter().enumerate() {
        if let Err(f) = column.push(*entry) {
            println!(rt; "push of entry {i}: {f}")?;
        }
    }
    Ok(())
}

// Prints how many entries a column has and how many are marked, each entry and the refusal past the last,
// and where the first marked one stands.
pub fn tell<C: Variant, R: Print>(rt: &R, title: &str, column: &C) -> io::Result<()>
where
    C::Item: fmt::Debug,
    C::Fault: fmt::Display,
{
    let n = column.len();
    match column.rank(n) {
        Ok(marked) => println!(rt; "{title}: {n} entries, {marked} marked")?,
        Err(f) => println!(rt; "{title}: {f}")?,
    }
    for i in 0..=n {
        match column.get(i) {
            Ok(entry) => println!(rt; "  {i}: {entry:?}")?,
            Err(f) => println!(rt; "  {i}: {f}")?,
        }
    }
    match column.select(0) {
        Some(place) => println!(rt; "  the first marked one stands at {place}"),
        None => println!(rt; "  none is marked"),
    }
}

// Prints how many words a column's writing takes, and the words where they go into `out`.
pub fn tell_written<C: Stored, R: Print>(rt: &R, column: &C, out: &mut [u64]) -> io::Result<()> {
    match size(column) {
        Ok(n) => print!(rt; "  in {n} words: ")?,
        Err(f) => print!(rt; "  in no words, {f}: ")?,
    }
    match write(column, out) {
        Ok(n) => println!(rt; "{:?}", &out[..n]),
        Err(f) => println!(rt; "{f}"),
    }
}
