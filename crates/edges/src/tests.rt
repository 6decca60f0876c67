use crate::{
    apart, astray, changes_with, fill, fill_options, misplaced, number_of, opened, push_each,
    push_range, push_words, slice_is, slice_shape, stray_walks, unlike,
};
use bits::rank_select::RankSelect;
use byte_items::kind::Bytes;
use columns::column::Payload;
use columns::writing::{size, write};
use cursor::cursor::Cursor;
use empties::empties::Empties;
use items::items::Words;
use options::options::Options;
use refusals::fault::Fault;
use refusals::refusal::Refusal;
use results::results::Results;
use std::test::Fail;
use store::store::RawStore;
use words::heap::HeapWords;
use words::lent::Lent;
use words::part::Part;
use words::reading::{GrowStore, ReadStore};
use words::table::Table64;

#[test]
fn refusals_in_words(rt: HostRuntime) -> Result<(), Fail> {
    let fault = Fault::Outside(7);
    assert!(rt; fault.number() == 1);
    assert!(rt;
        format!(in rt.alloc(); "{fault}")?.as_str() == "index 7 is past the end (refusal 1)"
    );
    let fault = Fault::Slices(4, 2);
    assert!(rt; fault.number() == 10);
    assert_eq!(rt; fault.carried(), (4, 2));
    Ok(())
}

#[test]
fn a_buffer_of_no_words(rt: HostRuntime) {
    let mut words: [u64; 0] = [];
    let mut store = Lent::new(&mut words, 9);
    assert!(rt; store.len() == 0);
    assert!(rt; store.capacity() == 0);
    assert_eq!(rt; store.put(1), Err(Fault::Full(0)));
    assert_eq!(rt; store.item(0), Err(Fault::Outside(0)));
}

#[test]
fn a_used_length_is_cut(rt: HostRuntime) {
    let mut words = [7, 8, 9];
    let mut store = Lent::new(&mut words, 5);
    assert!(rt; store.len() == 3);
    assert_eq!(rt; store.put(1), Err(Fault::Full(3)));
    store.clear();
    assert_eq!(rt; store.put(4), Ok(()));
    assert!(rt; store.len() == 1);
    assert_eq!(rt; store.item(0), Ok(4));
    assert_eq!(rt; store.item(1), Err(Fault::Outside(1)));
}

#[test]
fn a_table_fills_at_64(rt: HostRuntime) -> Result<(), Fail> {
    let mut table = Table64::new();
    for i in 0..64 {
        table.put(i)?;
    }
    assert_eq!(rt; table.put(64), Err(Fault::Full(64)));
    assert_eq!(rt; table.item(63), Ok(63));
    Ok(())
}

#[test]
fn memory_is_reserved(rt: HostRuntime) -> Result<(), Fail> {
    let mut store = HeapWords::new(rt.alloc(), 2)?;
    assert!(rt; store.capacity() == 2);
    store.put(5)?;
    store.put(6)?;
    assert_eq!(rt; store.put(7), Err(Fault::Full(2)));
    assert_eq!(rt; store.item(1), Ok(6));
    Ok(())
}

#[test]
fn a_part_only_reads(rt: HostRuntime) {
    let words = [3, 4];
    let part = Part::new(&words);
    assert!(rt; part.len() == 2);
    assert_eq!(rt; part.item(1), Ok(4));
    assert_eq!(rt; part.item(2), Err(Fault::Outside(2)));
}

#[test]
fn an_empty_column(rt: HostRuntime) {
    let column = RankSelect::new(Table64::new(), Table64::new());
    assert!(rt; column.len() == 0);
    assert_eq!(rt; column.rank(0), Ok(0));
    assert_eq!(rt; column.rank(1), Err(Fault::Outside(1)));
    assert_eq!(rt; column.get(0), Err(Fault::Outside(0)));
}

#[test]
fn around_a_word(rt: HostRuntime) -> Result<(), Fail> {
    let mut column = RankSelect::new(Table64::new(), Table64::new());
    fill(&mut column, 63)?;
    assert_eq!(rt; astray(&column)?, 0);
    column.push(true)?;
    assert_eq!(rt; astray(&column)?, 0);
    column.push(true)?;
    assert_eq!(rt; astray(&column)?, 0);
    assert_eq!(rt; column.rank(65), Ok(23));
    Ok(())
}

#[test]
fn around_a_chunk(rt: HostRuntime) -> Result<(), Fail> {
    let mut column = RankSelect::new(Table64::new(), Table64::new());
    fill(&mut column, 1023)?;
    assert_eq!(rt; astray(&column)?, 0);
    column.push(true)?;
    assert_eq!(rt; astray(&column)?, 0);
    column.push(true)?;
    assert_eq!(rt; astray(&column)?, 0);
    assert_eq!(rt; column.rank(1025), Ok(343));
    Ok(())
}

#[test]
fn a_full_column_keeps_its_bits(rt: HostRuntime) -> Result<(), Fail> {
    let mut counts = [0; 1];
    let mut words = [0; 1];
    let mut column = RankSelect::new(Lent::new(&mut counts, 0), Lent::new(&mut words, 0));
    fill(&mut column, 127)?;
    assert_eq!(rt; column.push(true), Err(Fault::Full(127)));
    assert!(rt; column.len() == 127);
    assert_eq!(rt; column.rank(127), Ok(43));
    Ok(())
}

#[test]
fn ranges_from_within_words(rt: HostRuntime) -> Result<(), Fail> {
    let mut source = RankSelect::new(Table64::new(), Table64::new());
    fill(&mut source, 1500)?;
    let mut whole = RankSelect::new(Table64::new(), Table64::new());
    let mut single = RankSelect::new(Table64::new(), Table64::new());
    whole.append(&source, 0, 1)?;
    push_range(&mut single, &source, 0, 1)?;
    whole.append(&source, 29, 151)?;
    push_range(&mut single, &source, 29, 151)?;
    whole.append(&source, 64, 1499)?;
    push_range(&mut single, &source, 64, 1499)?;
    whole.append(&source, 1023, 1500)?;
    push_range(&mut single, &source, 1023, 1500)?;
    assert_eq!(rt; unlike(&whole, &single)?, 0);
    assert_eq!(rt; astray(&whole)?, 0);
    assert_eq!(rt; misplaced(&whole)?, 0);
    assert_eq!(rt; whole.values().tail().word, single.values().tail().word);
    Ok(())
}

#[test]
fn ranges_that_are_refused(rt: HostRuntime) -> Result<(), Fail> {
    let mut source = RankSelect::new(Table64::new(), Table64::new());
    fill(&mut source, 10)?;
    let mut words = [0; 1];
    let mut counts = [0; 0];
    let mut column = RankSelect::new(Lent::new(&mut counts, 0), Lent::new(&mut words, 0));
    assert_eq!(rt; column.append(&source, 20, 11), Err(Fault::Past(11)));
    assert_eq!(rt; column.append(&source, 20, 10), Ok(()));
    fill(&mut column, 120)?;
    assert_eq!(rt; column.append(&source, 0, 8), Err(Fault::Full(120)));
    assert_eq!(rt; column.append(&source, 0, 7), Ok(()));
    assert_eq!(rt; column.rank(127), Ok(43));
    Ok(())
}

#[test]
fn groups_around_a_word(rt: HostRuntime) -> Result<(), Fail> {
    let mut column = RankSelect::new(Table64::new(), Table64::new());
    assert_eq!(rt; column.push_bits(0, 65), Err(Fault::Group(65)));
    assert_eq!(rt; column.push_bits(2, 1), Err(Fault::Group(1)));
    assert_eq!(rt; column.push_bits(1, 0), Err(Fault::Group(0)));
    assert_eq!(rt; column.push_bits(0, 0), Ok(()));
    assert!(rt; column.len() == 0);
    push_words(&mut column, 17)?;
    assert_eq!(rt; column.rank(1024), Ok(1024));
    column.push_bits(5, 3)?;
    column.push_bits(u64::MAX, 64)?;
    assert_eq!(rt; astray(&column)?, 0);
    assert_eq!(rt; misplaced(&column)?, 0);
    assert_eq!(rt; column.values().tail().word, 7);
    column.clear();
    assert_eq!(rt; column.len(), 0);
    assert_eq!(rt; column.select(0), None);
    Ok(())
}

#[test]
fn walks_with_tails_of_every_kind(rt: HostRuntime) -> Result<(), Fail> {
    let mut column = RankSelect::new(Table64::new(), Table64::new());
    assert_eq!(rt; stray_walks(&column)?, 0);
    fill(&mut column, 63)?;
    assert_eq!(rt; stray_walks(&column)?, 0);
    column.push(true)?;
    assert_eq!(rt; stray_walks(&column)?, 0);
    column.push(true)?;
    assert_eq!(rt; stray_walks(&column)?, 0);
    fill(&mut column, 1100)?;
    assert_eq!(rt; stray_walks(&column)?, 0);
    Ok(())
}

#[test]
fn walks_behind_a_word(rt: HostRuntime) -> Result<(), Fail> {
    let mut column = RankSelect::new(Table64::new(), Table64::new());
    column.push_bits(1 << 63, 64)?;
    column.push_bits(1, 64)?;
    column.push_bits(2, 2)?;
    let mut cursor = Cursor::new(&column);
    assert_eq!(rt; cursor.next_one(&column), Ok(Some(63)));
    assert_eq!(rt; cursor.step(&column), Ok(Some(true)));
    assert_eq!(rt; cursor.next_one(&column), Ok(Some(129)));
    assert_eq!(rt; cursor.next_one(&column), Ok(None));
    assert_eq!(rt; (cursor.pos(), cursor.rank()), (130, 3));
    Ok(())
}

#[test]
fn seeks_and_their_refusals(rt: HostRuntime) -> Result<(), Fail> {
    let mut column = RankSelect::new(Table64::new(), Table64::new());
    fill(&mut column, 200)?;
    let mut cursor = Cursor::new(&column);
    assert_eq!(rt; cursor.seek_to_pos(&column, 100), Ok(true));
    assert_eq!(rt; (cursor.pos(), cursor.rank()), (100, 34));
    assert_eq!(rt; cursor.seek_to_pos(&column, 99), Err(Fault::Behind(99)));
    assert_eq!(rt; cursor.seek_to_rank(&column, 33), Err(Fault::Behind(33)));
    assert_eq!(rt; cursor.seek_to_rank(&column, 34), Ok(Some(102)));
    assert_eq!(rt; cursor.seek_to_rank(&column, 1 << 32), Ok(None));
    assert_eq!(rt; (cursor.pos(), cursor.rank()), (200, 64));
    column.push(true)?;
    assert_eq!(rt; cursor.step(&column), Err(Fault::Length(201)));
    assert_eq!(rt;
        (cursor.pos(), cursor.rank(), cursor.total_bits()),
        (200, 64, 200)
    );
    Ok(())
}

// The numbers were counted by another program.
#[test]
fn one_word_of_a_store_changed(rt: HostRuntime) {
    assert_eq!(rt; changes_with(0), 45);
    assert_eq!(rt; changes_with(8), 5);
    assert_eq!(rt; changes_with(10), 4);
    assert_eq!(rt; changes_with(11), 8);
    assert_eq!(rt; changes_with(12), 19);
}

#[test]
fn one_word_of_a_store_cut_or_added(rt: HostRuntime) {
    assert_eq!(rt;
        number_of(RawStore::new(&[40, 40, 40, 56, 72, 5, 3, 7]).check(4)),
        11
    );
    assert_eq!(rt;
        number_of(RawStore::new(&[40, 40, 40, 56, 72, 5, 3, 7, 9, 0]).check(4)),
        0
    );
    assert_eq!(rt; number_of(RawStore::new(&[]).check(0)), 7);
}

#[test]
fn slices_of_a_store(rt: HostRuntime) {
    let words = [40, 40, 40, 56, 67, 5, 3, 7, 9];
    assert_eq!(rt;
        number_of(RawStore::new(&words).validate(&[8, 8, 8, 8])),
        13
    );
    assert_eq!(rt; number_of(RawStore::new(&words).validate(&[8, 8, 8, 1])), 0);
    assert_eq!(rt;
        number_of(RawStore::new(&words).validate(&[8, 8, 8, 0])),
        13
    );
    assert_eq!(rt; slice_shape(&words, 4, 0), Ok((0, 0)));
    assert_eq!(rt; slice_shape(&words, 4, 2), Ok((2, 0)));
    assert_eq!(rt; slice_shape(&words, 4, 3), Ok((2, 3)));
    assert_eq!(rt; slice_shape(&words, 4, 4), Ok((0, 0)));
    assert_eq!(rt; slice_shape(&words, 4, usize::MAX), Ok((0, 0)));
}

#[test]
fn an_altered_column_is_taken_as_it_is(rt: HostRuntime) -> Result<(), Fail> {
    let mut column = RankSelect::new(Table64::new(), Table64::new());
    column.push_bits(u64::MAX, 64)?;
    let mut cursor = Cursor::new(&column);
    assert_eq!(rt; cursor.next_one(&column), Ok(Some(0)));
    assert_eq!(rt; cursor.next_one(&column), Ok(Some(1)));
    column.clear();
    column.push_bits(1 << 5, 64)?;
    assert_eq!(rt; cursor.next_one(&column), Ok(Some(5)));
    assert_eq!(rt; (cursor.pos(), cursor.rank()), (6, 3));
    column.clear();
    column.push_bits(u64::MAX, 64)?;
    assert_eq!(rt; cursor.next_one(&column), Ok(Some(6)));
    column.clear();
    column.push_bits(0, 64)?;
    assert_eq!(rt; cursor.next_one(&column), Ok(None));
    assert_eq!(rt; (cursor.pos(), cursor.rank()), (64, 4));
    Ok(())
}

// Words or none, over tables.
fn in_tables() -> Options<Words<Table64>, Table64, Table64> {
    Options::new(Table64::new(), Table64::new(), Words::new(Table64::new()))
}

#[test]
fn one_word_too_few_and_two_too_many(rt: HostRuntime) -> Result<(), Fail> {
    let mut column = in_tables();
    push_each(&mut column, &[Some(7), None, Some(9)])?;
    let mut few = [1; 8];
    assert_eq!(rt; write(&column, &mut few), Err(Fault::Room(9)));
    assert!(rt; Fault::Room(9).number() == 15);
    assert_eq!(rt; few, [1; 8]);
    let mut many = [1; 11];
    assert_eq!(rt; write(&column, &mut many), Ok(9));
    assert_eq!(rt; many, [40, 40, 40, 56, 72, 5, 3, 7, 9, 1, 1]);
    Ok(())
}

#[test]
fn a_written_column_opens_as_a_store(rt: HostRuntime) -> Result<(), Fail> {
    let mut codes = [0u8; 4];
    let mut column = Results::new(
        Table64::new(),
        Table64::new(),
        Words::new(Table64::new()),
        Bytes::new(Lent::new(&mut codes, 0)),
    );
    push_each(&mut column, &[Ok(500), Err(3), Ok(800), Err(4), Err(3)])?;
    let mut words = [1; 11];
    assert_eq!(rt; write(&column, &mut words), Ok(11));
    assert_eq!(rt; words, [48, 48, 48, 64, 80, 83, 5, 5, 500, 800, 197635]);
    assert_eq!(rt; opened(&column, &words), Ok(()));
    assert_eq!(rt; slice_is(&words, 5, 0, &[], 0), Ok(true));
    assert_eq!(rt; slice_is(&words, 5, 1, &[], 0), Ok(true));
    assert_eq!(rt; slice_is(&words, 5, 2, &[5, 5], 0), Ok(true));
    assert_eq!(rt; slice_is(&words, 5, 3, &[500, 800], 0), Ok(true));
    assert_eq!(rt; slice_is(&words, 5, 4, &[197635], 3), Ok(true));
    Ok(())
}

#[test]
fn equal_entries_are_written_alike(rt: HostRuntime) -> Result<(), Fail> {
    let mut pushed = in_tables();
    fill_options(&mut pushed, 70)?;
    pushed.clear();
    fill_options(&mut pushed, 1100)?;
    assert_eq!(rt; size(&pushed), Ok(80));
    let heap = rt.alloc();
    let mut reserved = Options::new(
        HeapWords::new(heap, 1)?,
        HeapWords::new(heap, 17)?,
        Words::new(HeapWords::new(heap, 55)?),
    );
    fill_options(&mut reserved, 1100)?;
    assert_eq!(rt; apart(&pushed, &reserved)?, 0);
    let mut joined = in_tables();
    joined.append(&pushed, 0, 100)?;
    joined.append(&pushed, 100, 1030)?;
    joined.append(&pushed, 1030, 1100)?;
    assert_eq!(rt; apart(&pushed, &joined)?, 0);
    Ok(())
}

#[test]
fn used_buffers_leave_no_trace(rt: HostRuntime) -> Result<(), Fail> {
    let mut column = in_tables();
    push_each(&mut column, &[Some(7), None, Some(9)])?;
    let mut counts = [3; 1];
    let mut marks = [3; 2];
    let mut times = [3; 4];
    let mut lent = Options::new(
        Lent::new(&mut counts, 1),
        Lent::new(&mut marks, 2),
        Words::new(Lent::new(&mut times, 3)),
    );
    push_each(&mut lent, &[Some(7), None, Some(8), None])?;
    assert!(rt; apart(&column, &lent)? > 0);
    lent.clear();
    push_each(&mut lent, &[Some(7), None, Some(9)])?;
    assert_eq!(rt; apart(&column, &lent)?, 0);
    Ok(())
}

#[test]
fn empty_columns_are_written(rt: HostRuntime) {
    let mut words = [1; 8];
    assert_eq!(rt; size(&Empties::new()), Ok(3));
    assert_eq!(rt; write(&Words::new(Table64::new()), &mut words), Ok(2));
    assert_eq!(rt; words, [16, 16, 1, 1, 1, 1, 1, 1]);
    assert_eq!(rt; write(&Empties::new(), &mut words), Ok(3));
    assert_eq!(rt; words, [16, 24, 0, 1, 1, 1, 1, 1]);
    assert_eq!(rt; write(&in_tables(), &mut words), Ok(7));
    assert_eq!(rt; words, [40, 40, 40, 56, 56, 0, 0, 1]);
}
