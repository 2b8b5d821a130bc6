//! Search for an id in a column.
ghost use Rattle.std.specs.Prelude.{◌≡◌, ◌+◌, ◌*◌, ◌/◌, ◌^◌, ◌<◌, ◌≤◌, length, take, None};
ghost use Rattle.std.specs.List.{position, position_from};
ghost use Rattle.eden_ids.specs.Sameness.{same_id};

use crate::vectors::{holds, holds_some};
use eden_ids::{Id, IdColumn};

/// Returns the first row before `to` that holds the id.
///
/// No row before `from` may hold it.
#[tactic(auto, using(crate::proofs::Finding::found))]
fn find_between(id: Id, column: &IdColumn, from: usize, to: usize) -> Option<usize>
    requires column { to ≤ length column.now }
    requires within { from ≤ to }
    requires none_before { position_from (same_id id) 0 (take from column.now) ≡ None }
    ensures { result ≡ position_from (same_id id) 0 (take to column.now) }
{
    for row in from..to {
        if holds(id, column, row) {
            return Some(row);
        }
    }
    None
}

/// Returns the first row before `row + 8` that holds the id.
///
/// No row before `row` may hold it.
#[tactic(auto, using(crate::proofs::Finding::found))]
fn find_in_eight(id: Id, column: &IdColumn, row: usize) -> Option<usize>
    requires column { row + 8 ≤ length column.now }
    requires fits { row + 8 < 2 ^ 64 }
    requires none_before { position_from (same_id id) 0 (take row column.now) ≡ None }
    ensures { result ≡ position_from (same_id id) 0 (take (row + 8) column.now) }
{
    if holds_some(id, column, row) {
        find_between(id, column, row, row + 8)
    } else {
        None
    }
}

/// Returns the first row with the id, in whole blocks of eight.
///
/// The blocks are those before `to`.
#[tactic(auto, using(crate::proofs::Finding::found))]
fn find_in_eights(id: Id, column: &IdColumn, to: usize) -> Option<usize>
    requires { to ≤ length column.now }
    ensures { result ≡ position_from (same_id id) 0 (take (8 * (to / 8)) column.now) }
{
    for eight in 0..to / 8 {
        if let Some(row) = find_in_eight(id, column, 8 * eight) {
            return Some(row);
        }
    }
    None
}

/// Returns the first row that holds the id, if any.
///
/// Ids are compared eight at a time, first by their first words and then by the others.
/// Does not allocate.
#[tactic(auto, using(crate::proofs::Finding::found))]
pub fn find_row(column: &IdColumn, id: Id) -> Option<usize>
    ensures { result ≡ position (same_id id) column.now }
{
    let rows = column.len();
    match find_in_eights(id, column, rows) {
        Some(row) => Some(row),
        None => find_between(id, column, 8 * (rows / 8), rows),
    }
}
