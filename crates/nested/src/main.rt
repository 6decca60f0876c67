// Visits in nested columns, over tables, lent buffers and words in memory: pushed one by one, joined by
// ranges, printed with every refusal in words, and written as words.
#![tactic(auto)]

use account::{push_each, report, tell, tell_written};
use byte_items::kind::Bytes;
use columns::column::Payload;
use items::items::Words;
use options::options::Options;
use results::results::Results;
use std::io;
use words::heap::HeapWords;
use words::lent::Lent;
use words::table::Table64;

mod account;

// Visits with their times in a table, and their codes in a lent buffer.
type Visits<'a> = Results<Words<Table64>, Bytes<Lent<'a, u8>>, Table64, Table64>;

fn in_tables<'a>(codes: &'a mut [u8]) -> Visits<'a> {
    Results::new(
        Table64::new(),
        Table64::new(),
        Words::new(Table64::new()),
        Bytes::new(Lent::new(codes, 0)),
    )
}

// Reached with a time, or missed with a code: times in a table, codes in a lent buffer of four.
fn reached_or_missed(rt: &HostRuntime) -> io::Result<()> {
    let mut codes = [0u8; 4];
    let mut joined_codes = [0u8; 4];
    let mut day = in_tables(&mut codes);
    push_each(rt, &mut day, &[Ok(500), Err(3), Ok(800), Err(4), Err(3)])?;
    tell(rt, "a day: times in a table, codes in a lent buffer", &day)?;
    tell_written(rt, &day, &mut [0; 11])?;
    let mut week = in_tables(&mut joined_codes);
    report(rt, "append entries 0 to 4", week.append(&day, 0, 5))?;
    report(rt, "append entries 1 to 4", week.append(&day, 1, 5))?;
    report(rt, "append entries 2 to 3", week.append(&day, 2, 4))?;
    report(rt, "append entries 3 to 8", week.append(&day, 3, 9))?;
    report(rt, "append entries 9 to 8", week.append(&day, 9, 9))?;
    tell(rt, "the days joined", &week)?;
    tell_written(rt, &week, &mut [0; 11])
}

// A time, or none yet: all in lent buffers, with room for three times.
fn perhaps_a_time(rt: &HostRuntime) -> io::Result<()> {
    let mut counts = [0u64; 1];
    let mut marks = [0u64; 1];
    let mut times = [0u64; 3];
    let mut route = Options::new(
        Lent::new(&mut counts, 0),
        Lent::new(&mut marks, 0),
        Words::new(Lent::new(&mut times, 0)),
    );
    push_each(
        rt,
        &mut route,
        &[Some(7), None, Some(9), Some(11), Some(13), None],
    )?;
    tell(rt, "times or none, in lent buffers", &route)?;
    tell_written(rt, &route, &mut [0; 11])?;
    route.clear();
    tell(rt, "cleared", &route)
}

// Reached, missed or still open: results within options, over words in memory that is reserved when the
// columns are made. The codes stand in a lent buffer.
fn open_reached_or_missed(rt: &HostRuntime) -> io::Result<()> {
    let heap = rt.alloc();
    let mut codes = [0u8; 8];
    let mut month = Options::new(
        HeapWords::new(heap, 1)?,
        HeapWords::new(heap, 1)?,
        Results::new(
            HeapWords::new(heap, 1)?,
            HeapWords::new(heap, 1)?,
            Words::new(HeapWords::new(heap, 2)?),
            Bytes::new(Lent::new(&mut codes, 0)),
        ),
    );
    push_each(
        rt,
        &mut month,
        &[
            Some(Ok(500)),
            None,
            Some(Err(3)),
            Some(Ok(800)),
            Some(Ok(900)),
            None,
        ],
    )?;
    tell(rt, "open, reached or missed, over words in memory", &month)
}

// The same in tables, and the codes in lent buffers: ranges of one column are appended to another, which
// has room for one code.
fn open_joined(rt: &HostRuntime) -> io::Result<()> {
    let mut codes = [0u8; 8];
    let mut joined_codes = [0u8; 1];
    let mut week = Options::new(Table64::new(), Table64::new(), in_tables(&mut codes));
    push_each(
        rt,
        &mut week,
        &[
            Some(Ok(500)),
            None,
            Some(Err(3)),
            Some(Ok(800)),
            Some(Err(4)),
        ],
    )?;
    let mut joined = Options::new(Table64::new(), Table64::new(), in_tables(&mut joined_codes));
    report(rt, "append entries 1 to 3", joined.append(&week, 1, 4))?;
    report(rt, "append entries 0 to 4", joined.append(&week, 0, 5))?;
    report(rt, "append entries 0 to 1", joined.append(&week, 0, 2))?;
    tell(rt, "open, reached or missed, joined", &joined)
}

fn main(rt: HostRuntime) -> io::Result<()> {
    reached_or_missed(&rt)?;
    perhaps_a_time(&rt)?;
    open_reached_or_missed(&rt)?;
    open_joined(&rt)
}
