//! `eden_lanes` for a program of another language that measures it. See bench/README.md.
#![tactic(auto)]

ghost use Rattle.std.specs.Prelude.{◌≡◌, ◌*◌, ◌/◌, length, IfOk};

use eden_ids::{Id, IdColumn, NoMemory};
use eden_lanes::{count_differing, differ_rows, find_row};
use std::alloc::Global;

/// The ids of a run of bytes, twenty to an id.
fn column_of(alloc: Global, bytes: &[u8]) -> Result<IdColumn, NoMemory>
    ensures { IfOk result (λ column. length column ≡ length bytes.now / 20) }
{
    let mut column = IdColumn::new(alloc);
    for row in 0..bytes.len() / 20 {
        let mut id = [0; 20];
        id.copy_from_slice(&bytes[20 * row..20 * row + 20]);
        column.push(Id(id))?;
    }
    Ok(column)
}

/// How many rows `differ_rows` tells of two runs of ids, in the last of so many rounds, or `usize::MAX` where memory ran out.
#[unsafe(no_mangle)]
pub extern "C" fn eden_lanes_differ_rows(
    alloc: Global,
    ids: &[u8],
    others: &[u8],
    rounds: usize,
) -> usize
    requires { length ids.now ≡ length others.now }
{
    let (Ok(a), Ok(b)) = (column_of(alloc, ids), column_of(alloc, others)) else {
        return usize::MAX;
    };
    let mut told = 0;
    for _ in 0..rounds {
        match differ_rows(alloc, &a, &b) {
            Ok(rows) => told = rows.len(),
            Err(_) => return usize::MAX,
        }
    }
    told
}

/// How many rows `count_differing` counts in two runs of ids, in the last of so many rounds, or `usize::MAX` where memory
/// ran out.
#[unsafe(no_mangle)]
pub extern "C" fn eden_lanes_count_differing(
    alloc: Global,
    ids: &[u8],
    others: &[u8],
    rounds: usize,
) -> usize
    requires { length ids.now ≡ length others.now }
{
    let (Ok(a), Ok(b)) = (column_of(alloc, ids), column_of(alloc, others)) else {
        return usize::MAX;
    };
    let mut count = 0;
    for _ in 0..rounds {
        count = count_differing(&a, &b);
    }
    count
}

/// Which row `find_row` finds, in the last of so many rounds, which search the two runs of ids in turn, or `usize::MAX`
/// where it finds none or memory ran out.
#[unsafe(no_mangle)]
pub extern "C" fn eden_lanes_find_row(
    alloc: Global,
    ids: &[u8],
    others: &[u8],
    id: &[u8],
    rounds: usize,
) -> usize
    requires { length id.now ≡ 20 }
{
    let (Ok(a), Ok(b)) = (column_of(alloc, ids), column_of(alloc, others)) else {
        return usize::MAX;
    };
    let mut needle = [0; 20];
    needle.copy_from_slice(id);
    let mut found = None;
    for round in 0..rounds {
        found = find_row(if round % 2 == 0 { &a } else { &b }, Id(needle));
    }
    found.unwrap_or(usize::MAX)
}
