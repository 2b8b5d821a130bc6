//! The rows at which two columns of ids differ, and their number.
ghost use Rattle.std.specs.Prelude.{◌≡◌, ◌+◌, ◌*◌, ◌/◌, ◌^◌, ◌<◌, ◌≤◌, ◌++◌, ◌∷◌, [], if◌then◌else◌, length, take, OnOk, IfOk};
ghost use Rattle.std.specs.Simd.Lanes.{chunk};
ghost use Rattle.eden_lanes.specs.Rows.{differing_ids};

use crate::vectors::{same_eight, same_row};
use eden_ids::{IdColumn, NoMemory};
use std::alloc::Global;

/// Adds a row after the others, unless `same` is true.
pub(crate) fn push_unless(found: &mut Vec<usize>, same: bool, row: usize) -> Result<(), NoMemory>
    ensures { OnOk result (found.new.items ≡ found.old.items ++ (if same then [] else row ∷ [])) }
{
    if same {
        return Ok(());
    }
    found.push(row)?;
    Ok(())
}

/// Adds the rows from `from` to `to`, exclusive, that differ.
#[tactic(auto, using(crate::proofs::Growing::grows))]
fn push_between(
    found: &mut Vec<usize>,
    a: &IdColumn,
    b: &IdColumn,
    from: usize,
    to: usize,
) -> Result<(), NoMemory>
    requires first { to ≤ length a.now }
    requires second { to ≤ length b.now }
    requires within { from ≤ to }
    requires so_far { found.old.items ≡ differing_ids (take from a.now) (take from b.now) }
    ensures { OnOk result (found.new.items ≡ differing_ids (take to a.now) (take to b.now)) }
{
    for row in from..to {
        push_unless(found, same_row(a, b, row), row)?;
    }
    Ok(())
}

/// Adds the rows that differ, in a block of eight.
#[tactic(auto, using(crate::proofs::Growing::grows))]
fn push_eight(
    found: &mut Vec<usize>,
    a: &IdColumn,
    b: &IdColumn,
    row: usize,
) -> Result<(), NoMemory>
    requires first { row + 8 ≤ length a.now }
    requires second { row + 8 ≤ length b.now }
    requires fits { row + 8 < 2 ^ 64 }
    requires so_far { found.old.items ≡ differing_ids (take row a.now) (take row b.now) }
    ensures { OnOk result (found.new.items ≡ differing_ids (take (row + 8) a.now) (take (row + 8) b.now)) }
{
    let same = same_eight(a, b, row);
    if same == 255 {
        return Ok(());
    }
    if same == 0 {
        // If eight rows differ, many may: this makes room for all of them at once.
        found.reserve(a.len() - row)?;
        found.extend_from_slice(&[
            row,
            row + 1,
            row + 2,
            row + 3,
            row + 4,
            row + 5,
            row + 6,
            row + 7,
        ])?;
        return Ok(());
    }
    for place in 0..8_usize {
        push_unless(found, (same >> place) % 2 == 1, row + place)?;
    }
    Ok(())
}

/// Adds the rows that differ, in whole blocks of eight.
///
/// The blocks are those before `to`.
fn push_eights(
    found: &mut Vec<usize>,
    a: &IdColumn,
    b: &IdColumn,
    to: usize,
) -> Result<(), NoMemory>
    requires first { to ≤ length a.now }
    requires second { to ≤ length b.now }
    requires so_far { found.old.items ≡ [] }
    ensures { OnOk result (found.new.items ≡ differing_ids (take (8 * (to / 8)) a.now) (take (8 * (to / 8)) b.now)) }
{
    for eight in 0..to / 8 {
        push_eight(found, a, b, 8 * eight)?;
    }
    Ok(())
}

/// Returns the rows at which two columns differ, ascending.
///
/// The columns must have the same length. Ids are compared eight at a time, word by word.
/// Only the result is allocated.
///
/// # Errors
///
/// - `NoMemory` if an allocation fails.
pub fn differ_rows(alloc: Global, a: &IdColumn, b: &IdColumn) -> Result<Vec<usize>, NoMemory>
    requires { length a.now ≡ length b.now }
    ensures { IfOk result (λ found. found.items ≡ differing_ids a.now b.now) }
{
    let mut found = Vec::new(alloc);
    let rows = a.len();
    push_eights(&mut found, a, b, rows)?;
    push_between(&mut found, a, b, 8 * (rows / 8), rows)?;
    Ok(found)
}

/// Returns 0 if a row is the same, else 1.
fn one_unless(same: bool) -> usize
    ensures { result ≡ (if same then 0 else 1) }
{
    if same { 0 } else { 1 }
}

/// Returns the number of rows before `to` at which the ids differ.
///
/// `before` is the number of those before `from`.
#[tactic(auto, using(crate::proofs::Growing::counts))]
fn count_between(before: usize, a: &IdColumn, b: &IdColumn, from: usize, to: usize) -> usize
    requires first { to ≤ length a.now }
    requires second { to ≤ length b.now }
    requires within { from ≤ to }
    requires so_far { before ≡ length (differing_ids (take from a.now) (take from b.now)) }
    ensures { result ≡ length (differing_ids (take to a.now) (take to b.now)) }
{
    let mut count = before;
    for row in from..to {
        count += one_unless(same_row(a, b, row));
    }
    count
}

/// Returns the number of rows that differ, in a block of eight.
#[tactic(auto, using(crate::proofs::Growing::counts))]
fn count_eight(a: &IdColumn, b: &IdColumn, row: usize) -> usize
    requires first { row + 8 ≤ length a.now }
    requires second { row + 8 ≤ length b.now }
    ensures { result ≡ length (differing_ids (chunk row 8 a.now) (chunk row 8 b.now)) }
{
    8 - same_eight(a, b, row).count_ones() as usize
}

/// Returns the number of rows that differ, in whole blocks of eight.
///
/// The blocks are those before `to`.
#[tactic(auto, using(crate::proofs::Growing::counts))]
fn count_eights(a: &IdColumn, b: &IdColumn, to: usize) -> usize
    requires first { to ≤ length a.now }
    requires second { to ≤ length b.now }
    ensures { result ≡ length (differing_ids (take (8 * (to / 8)) a.now) (take (8 * (to / 8)) b.now)) }
{
    let mut count = 0;
    for eight in 0..to / 8 {
        count += count_eight(a, b, 8 * eight);
    }
    count
}

/// Returns the number of rows at which two columns differ.
///
/// The columns must have the same length. Ids are compared eight at a time, word by word.
/// Does not allocate.
pub fn count_differing(a: &IdColumn, b: &IdColumn) -> usize
    requires { length a.now ≡ length b.now }
    ensures { result ≡ length (differing_ids a.now b.now) }
{
    let rows = a.len();
    let counted = count_eights(a, b, rows);
    count_between(counted, a, b, 8 * (rows / 8), rows)
}
