use bits::rank_select::RankSelect;
use std::io;
use words::reading::ReadStore;

// How many doors lie between two counts of the report.
const STRIDE: usize = 64;

// Prints how many doors there are, how many of them were reached, in all and before every 64th door, and
// which were missed.
pub fn print_report<C: ReadStore<Item = u64>, V: ReadStore<Item = u64>>(
    rt: &impl Print,
    doors: &RankSelect<C, V>,
) -> io::Result<()> {
    let n = doors.len();
    println!(rt; "{n} doors")?;
    print_rank(rt, doors, n)?;
    for i in 1..=n / STRIDE {
        print_rank(rt, doors, STRIDE * i)?;
    }
    for i in 0..n {
        if let Ok(false) = doors.get(i) {
            println!(rt; "missed: door {i}")?;
        }
    }
    Ok(())
}

// Prints how many doors before a place were reached.
fn print_rank<C: ReadStore<Item = u64>, V: ReadStore<Item = u64>>(
    rt: &impl Print,
    doors: &RankSelect<C, V>,
    place: usize,
) -> io::Result<()> {
    match doors.rank(place) {
        Ok(reached) => println!(rt; "before door {place}: {reached} reached"),
        Err(fault) => println!(rt; "{fault}"),
    }
}
