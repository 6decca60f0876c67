// What became of the doors of a route: how many were reached, and which were missed.
#![tactic(auto)]

mod plan;
mod report;

use bits::rank_select::RankSelect;
use plan::note_doors;
use report::print_report;
use std::io;
use std::io::Read;
use words::heap::HeapWords;
use words::reading::ReadStore;

// The most bytes that a plan may have.
const LONGEST: usize = 16_384;

fn main(rt: HostRuntime) -> io::Result<()> {
    let mut text = Vec::with_capacity(rt.alloc(), LONGEST + 1)?;
    rt.stdin().take(LONGEST as u64 + 1).read_to_end(&mut text)?;
    if text.len() > LONGEST {
        return println!(rt; "the plan is too long: byte {LONGEST} is one too many");
    }
    // Room for as many doors as a plan may have bytes: a count for 1,024, and a word for 64.
    let counts = HeapWords::new(rt.alloc(), LONGEST / 1024)?;
    let values = HeapWords::new(rt.alloc(), LONGEST / 64)?;
    let mut doors = RankSelect::new(counts, values);
    match note_doors(text.as_slice(), &mut doors) {
        Ok(()) => print_report(&rt, &doors),
        Err(trouble) => println!(rt; "{trouble}"),
    }
}
