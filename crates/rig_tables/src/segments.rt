//! What a table that grows costs, with a copy after each batch, and look-ups beside a plain map.

use crate::clock::{now, since};
use anyhow::Result;
use eden_ids::{Id, NoMemory};
use eden_segments::{Counted, Share, Table};
use indexmap::IndexMap;
use rig_kit::{each, scattered};
use std::alloc::Global;
use std::hint::black_box;
use std::time::Duration;

/// How often something short is done.
const TURNS: u64 = 1_000_000;

/// What a store might keep of an object: a number in the row, and bytes after a pointer.
#[derive(Drop)]
struct Row {
    number: u64,
    payload: Counted<Vec<u8>>,
}

impl Share for Row {
    fn share(&self) -> Result<Row, NoMemory> {
        let payload = self.payload.share()?;
        Ok(Row {
            number: self.number,
            payload,
        })
    }
}

/// Returns the row of a number, with a payload of 30 bytes.
fn new_row(alloc: Global, number: u64) -> Result<Row> {
    let payload = vec![in alloc; 0u8; 30]?;
    Ok(Row {
        number,
        payload: Counted::new(alloc, payload)?,
    })
}

/// Returns the id of a number, of which each byte looks as if it came by chance.
fn id(number: u64) -> Id {
    let mut bytes = [0; 20];
    let mut word = number;
    for byte in bytes.iter_mut() {
        word = word.wrapping_add(1).wrapping_mul(0x9e37_79b9_7f4a_7c15);
        word ^= word >> 29;
        let [highest, ..] = word.to_be_bytes();
        *byte = highest;
    }
    Id(bytes)
}

/// Adds the row of a number, unless its id has one.
fn add<V: Drop>(table: &mut Table<V>, number: u64, value: V) -> Result<()> {
    let key = id(number);
    match table.get(key) {
        Some(_) => Ok(()),
        None => Ok(table.add(key, value)?),
    }
}

/// Adds so many rows from a number on.
fn add_rows(table: &mut Table<Row>, first: u64, size: u64) -> Result<()> {
    let alloc = table.allocator();
    for place in 0..size {
        let number = first.saturating_add(place);
        add(table, number, new_row(alloc, number)?)?;
    }
    Ok(())
}

/// What times some calls took: all together, and the longest.
#[derive(Clone, Copy)]
struct Times {
    all: Duration,
    longest: Duration,
}

impl Times {
    fn new() -> Times {
        Times {
            all: Duration::ZERO,
            longest: Duration::ZERO,
        }
    }

    fn note(&mut self, from: Duration, to: Duration) {
        let time = to.saturating_sub(from);
        self.all = self.all.saturating_add(time);
        self.longest = self.longest.max(time);
    }
}

/// What times the batches of a growing table took, and the copies after them.
#[derive(Clone, Copy)]
struct Growth {
    adding: Times,
    copying: Times,
}

/// Adds so many rows from a number on, and freezes them.
fn add_batch(table: &mut Table<Row>, first: u64, size: u64) -> Result<()> {
    add_rows(table, first, size)?;
    table.freeze();
    Ok(())
}

fn copied(table: &mut Table<Row>) -> Result<Table<Row>> {
    Ok(table.share()?)
}

/// Adds a batch, takes a copy after it, and notes what time each took.
fn grow_once(
    rt: &HostRuntime,
    table: &mut Table<Row>,
    first: u64,
    size: u64,
    growth: &mut Growth,
) -> Result<Table<Row>> {
    let start = now(rt)?;
    add_batch(table, first, size)?;
    let added = now(rt)?;
    let copy = copied(table)?;
    growth.copying.note(added, now(rt)?);
    growth.adding.note(start, added);
    Ok(copy)
}

/// Adds so many rows in batches, and returns the last copy.
///
/// Each copy is kept until the next one is taken.
fn grown(rt: &HostRuntime, count: u64, batches: u64, growth: &mut Growth) -> Result<Table<Row>> {
    let mut table = Table::new(rt.alloc());
    let mut kept = Table::new(rt.alloc());
    let size = count.checked_div(batches).unwrap_or(0);
    for batch in 0..batches {
        let first = batch.saturating_mul(size);
        // What only the copy before held is freed here, in nobody's time.
        kept = grow_once(rt, &mut table, first, size, growth)?;
    }
    Ok(kept)
}

/// Measures a table of so many rows that are added in batches.
fn grow(rt: &HostRuntime, count: u64, batches: u64) -> Result<()> {
    let mut growth = Growth {
        adding: Times::new(),
        copying: Times::new(),
    };
    let found = found_all(&grown(rt, count, batches, &mut growth)?, count);
    println!(rt; "{count} rows in {batches} batches: {found} found")?;
    let Growth { adding, copying } = growth;
    eprintln!(rt;
        "{count} rows in {batches} batches: {} ns a row, {} ns the longest batch, {} ns a copy, {} ns the longest",
        each(adding.all, count),
        each(adding.longest, 1),
        each(copying.all, batches),
        each(copying.longest, 1)
    )?;
    Ok(())
}

/// Returns how many of the first numbers have their row.
fn found_all(table: &Table<Row>, count: u64) -> usize {
    (0..count)
        .filter(|number| table
            .get(id(*number))
            .is_some_and(|row| row.number == *number))
        .count()
}

/// Prints the time of a call of the clock, which is in each time of a copy.
fn clock(rt: &HostRuntime) -> Result<()> {
    let start = now(rt)?;
    for _ in 0..10_000 {
        black_box(now(rt)?);
    }
    let time = since(rt, start)?;
    eprintln!(rt;
        "a call of the clock, which is in each time of one copy: {} ns",
        each(time, 10_000)
    )?;
    Ok(())
}

/// Returns a table of so many rows in many segments.
///
/// Each of the last rows is frozen by itself.
fn filled(alloc: Global, count: u64) -> Result<Table<Row>> {
    let mut table = Table::new(alloc);
    let single = count.saturating_sub(999);
    add_rows(&mut table, 0, single)?;
    for number in single..count {
        add_batch(&mut table, number, 1)?;
    }
    Ok(table)
}

/// Measures copies of a table of so many rows, to which nothing is added.
fn copies(rt: &HostRuntime, count: u64) -> Result<()> {
    let mut table = filled(rt.alloc(), count)?;
    let start = now(rt)?;
    for _ in 0..TURNS {
        black_box(table.share()?);
    }
    let time = since(rt, start)?;
    eprintln!(rt; "a copy of {count} rows: {} ns", each(time, TURNS))?;
    Ok(())
}

/// Returns a table of so many rows in one segment.
fn one_segment(alloc: Global, count: u64) -> Result<Table<Row>> {
    let mut table = Table::new(alloc);
    add_rows(&mut table, 0, count)?;
    Ok(table)
}

/// Returns a table of pointers to so many rows.
fn behind_pointers(alloc: Global, count: u64) -> Result<Table<Counted<Row>>> {
    let mut table = Table::new(alloc);
    for number in 0..count {
        let row = Counted::new(alloc, new_row(alloc, number)?)?;
        add(&mut table, number, row)?;
    }
    Ok(table)
}

fn insert(map: &mut IndexMap<Id, Row>, number: u64, row: Row) -> Result<()> {
    map.insert(id(number), row)?;
    Ok(())
}

/// Returns a plain map of so many rows.
fn plain_map(alloc: Global, count: u64) -> Result<IndexMap<Id, Row>> {
    let mut map = IndexMap::new(alloc);
    for number in 0..count {
        insert(&mut map, number, new_row(alloc, number)?)?;
    }
    Ok(map)
}

/// Measures look-ups in a plain map and three tables of so many rows.
fn look_ups(rt: &HostRuntime, count: u64) -> Result<()> {
    let alloc = rt.alloc();
    look_up(rt, "a plain map", count, &plain_map(alloc, count)?)?;
    look_up(
        rt,
        "a table of one segment",
        count,
        &one_segment(alloc, count)?,
    )?;
    look_up(
        rt,
        "a table of several segments",
        count,
        &filled(alloc, count)?,
    )?;
    look_up(
        rt,
        "a table of rows behind pointers",
        count,
        &behind_pointers(alloc, count)?,
    )
}

/// Where rows are looked up.
trait Rows {
    fn row(&self, id: Id) -> Option<&Row>;
}

impl Rows for IndexMap<Id, Row> {
    fn row(&self, id: Id) -> Option<&Row> {
        self.get(&id)
    }
}

impl Rows for Table<Row> {
    fn row(&self, id: Id) -> Option<&Row> {
        self.get(id)
    }
}

impl Rows for Table<Counted<Row>> {
    fn row(&self, id: Id) -> Option<&Row> {
        match self.get(id) {
            Some(row) => Some(&**row),
            None => None,
        }
    }
}

/// Measures look-ups of scattered ids, which read the row's number or a byte of its payload.
fn look_up<R: Rows>(rt: &HostRuntime, name: &str, count: u64, rows: &R) -> Result<()> {
    let start = now(rt)?;
    let mut sum = 0u64;
    for turn in 0..TURNS {
        if let Some(row) = rows.row(id(scattered(turn, count))) {
            sum = sum.wrapping_add(row.number);
        }
    }
    let numbers = now(rt)?;
    for turn in 0..TURNS {
        if let Some(row) = rows.row(id(scattered(turn, count))) {
            sum = sum.wrapping_add(u64::from(row.payload.first().copied().unwrap_or(1)));
        }
    }
    let bytes = now(rt)?;
    println!(rt; "{name}, {count} rows: sum {sum}")?;
    eprintln!(rt;
        "{name}, {count} rows: {} ns for a number of the row, {} ns for a byte behind it",
        each(numbers.saturating_sub(start), TURNS),
        each(bytes.saturating_sub(numbers), TURNS)
    )?;
    Ok(())
}

/// Measures growing tables, copies of large ones, and look-ups.
pub fn measure_segments(rt: &HostRuntime) -> Result<()> {
    clock(rt)?;
    for batches in [1, 1_000, 100_000] {
        grow(rt, 100_000, batches)?;
    }
    for count in [1_000, 100_000, 1_000_000] {
        copies(rt, count)?;
    }
    for count in [1_000, 100_000] {
        look_ups(rt, count)?;
    }
    Ok(())
}
