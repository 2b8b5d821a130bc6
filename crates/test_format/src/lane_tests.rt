//! Comparisons of columns, by their lengths and at each of their words.

use eden_ids::{Id, IdColumn};
use eden_lanes::{count_differing, differ_kinds, differ_rows, find_row};
use std::alloc::Global;
use std::test::Fail;

/// The id of row `row`: twenty bytes, each the row's remainder by 251.
fn id_of(row: usize) -> Id {
    Id([(row % 251) as u8; 20])
}

/// The same id, with one byte at `byte` of 255.
fn changed_id(row: usize, byte: usize) -> Id {
    let mut id = id_of(row);
    if byte < 20 {
        id.0[byte] = 255;
    }
    id
}

/// A column of the ids of `count` rows, of which the one at `row` has a changed byte.
fn column_of(alloc: Global, count: usize, row: usize, byte: usize) -> Result<IdColumn, Fail> {
    let mut column = IdColumn::new(alloc);
    for place in 0..count {
        if place == row {
            column.push(changed_id(place, byte))?;
        } else {
            column.push(id_of(place))?;
        }
    }
    Ok(column)
}

/// The rows at which two columns differ, one by one.
fn rows_one_by_one(alloc: Global, a: &IdColumn, b: &IdColumn) -> Result<Vec<usize>, Fail> {
    let rows = 0..a.len();
    Ok(
        rows.filter(|row| a.get(*row) != b.get(*row))
            .collect(alloc)?,
    )
}

/// The rows at which two columns of one length differ.
fn differing(alloc: Global, a: &IdColumn, b: &IdColumn) -> Result<Vec<usize>, Fail> {
    if a.len() != b.len() {
        return Err(Fail::new("columns of two lengths"));
    }
    let rows = differ_rows(alloc, a, b)?;
    if rows.len() != count_differing(a, b) {
        return Err(Fail::new("another count than the rows have"));
    }
    Ok(rows)
}

/// Whether two columns are told to differ at one row alone, at which the second one has an id that the first one lacks.
fn differ_at(
    alloc: Global,
    first: &IdColumn,
    second: &IdColumn,
    row: usize,
    id: Id,
) -> Result<bool, Fail> {
    let rows = differing(alloc, first, second)?;
    Ok(
        rows.as_slice() == [row].as_slice()
            && find_row(second, id) == Some(row)
            && find_row(first, id).is_none(),
    )
}

/// Whether two columns of `count` rows, of which the last ones differ in their last byte alone, are compared right.
fn last_differs(alloc: Global, count: usize) -> Result<bool, Fail> {
    let last = count.saturating_sub(1);
    let first = column_of(alloc, count, count, 0)?;
    let second = column_of(alloc, count, last, 19)?;
    differ_at(alloc, &first, &second, last, changed_id(last, 19))
}

/// The places at which two lists of as many kinds differ.
fn differing_kinds(alloc: Global, a: &[u8], b: &[u8]) -> Result<Vec<usize>, Fail> {
    if a.len() != b.len() {
        return Err(Fail::new("lists of two lengths"));
    }
    Ok(differ_kinds(alloc, a, b)?)
}

#[test]
fn kernel_lengths(rt: HostRuntime) -> Result<(), Fail> {
    let alloc = rt.alloc();
    let none = IdColumn::new(alloc);
    assert!(rt; differing(alloc, &none, &none)?.is_empty());
    assert!(rt; find_row(&none, id_of(0)).is_none());
    for count in &[1, 3, 4, 5, 7, 8, 9] {
        assert!(rt; last_differs(alloc, *count)?, "{count} rows");
    }
    let rows = differing_kinds(alloc, &[1, 2, 3], &[1, 3, 3])?;
    assert!(rt; rows.as_slice() == [1].as_slice());
    Ok(())
}

#[test]
fn kernel_blocks(rt: HostRuntime) -> Result<(), Fail> {
    for count in &[15, 16, 17, 24, 25, 4_097] {
        assert!(rt; last_differs(rt.alloc(), *count)?, "{count} rows");
    }
    Ok(())
}

#[test]
fn each_word_of_each_row_is_compared(rt: HostRuntime) -> Result<(), Fail> {
    let alloc = rt.alloc();
    for row in 0..131 {
        for place in 0..5_usize {
            let changed_one = changed_id(row, 4 * place + row % 4);
            let mut plain = column_of(alloc, row + 1, row + 1, 0)?;
            let mut changed = column_of(alloc, row, row, 0)?;
            changed.push(changed_one)?;
            for count in row + 1..132 {
                assert!(rt;
                    differ_at(alloc, &plain, &changed, row, changed_one)?,
                    "{count} rows"
                );
                plain.push(id_of(count))?;
                changed.push(id_of(count))?;
            }
            let one_by_one = rows_one_by_one(alloc, &plain, &changed)?;
            assert!(rt; one_by_one.as_slice() == [row].as_slice());
        }
    }
    Ok(())
}

/// The rows of 23 at which the second of two columns has other ids than the first.
const ROWS: [usize; 8] = [1, 4, 7, 10, 13, 16, 19, 22];

/// These two columns.
fn columns(alloc: Global) -> Result<(IdColumn, IdColumn), Fail> {
    let mut first = IdColumn::new(alloc);
    let mut second = IdColumn::new(alloc);
    for row in 0..23 {
        first.push(id_of(row))?;
        let other = if ROWS.contains(&row) { row + 1 } else { row };
        second.push(id_of(other))?;
    }
    Ok((first, second))
}

#[test]
fn several_rows_are_told_in_order(rt: HostRuntime) -> Result<(), Fail> {
    let alloc = rt.alloc();
    let (first, second) = columns(alloc)?;
    assert!(rt; differing(alloc, &first, &second)?.as_slice() == ROWS.as_slice());
    assert!(rt; rows_one_by_one(alloc, &first, &second)?.as_slice() == ROWS.as_slice());
    Ok(())
}

/// A column of 30 rows, which has one id in the first rows, so many, and another one in the others.
fn two_ids(alloc: Global, first: usize) -> Result<IdColumn, Fail> {
    let mut column = IdColumn::new(alloc);
    for row in 0..30 {
        column.push(id_of(if row < first { 1 } else { 2 }))?;
    }
    Ok(column)
}

#[test]
fn the_first_of_equal_ids_is_found(rt: HostRuntime) -> Result<(), Fail> {
    for first in 0..30 {
        let column = two_ids(rt.alloc(), first)?;
        assert!(rt; find_row(&column, id_of(2)) == Some(first));
        assert!(rt; find_row(&column, id_of(3)).is_none());
    }
    Ok(())
}

/// `count` kinds, of which the one at `row` is another.
fn kinds_of(alloc: Global, count: usize, row: usize) -> Result<Vec<u8>, Fail> {
    let kinds = (0..count).map(|place| if place == row { 9 } else { (place % 3) as u8 });
    Ok(kinds.collect(alloc)?)
}

#[test]
fn each_kind_is_compared(rt: HostRuntime) -> Result<(), Fail> {
    let alloc = rt.alloc();
    for count in 0..68 {
        let plain = kinds_of(alloc, count, count)?;
        assert!(rt; differing_kinds(alloc, plain.as_slice(), plain.as_slice())?.is_empty());
        for row in 0..count {
            let changed = kinds_of(alloc, count, row)?;
            let rows = differing_kinds(alloc, plain.as_slice(), changed.as_slice())?;
            assert!(rt; rows.as_slice() == [row].as_slice());
        }
    }
    Ok(())
}
