//! The rows at which two columns of kinds differ.
ghost use Rattle.std.specs.Prelude.{◌≡◌, ◌+◌, ◌*◌, ◌≤◌, [], length, take, OnOk, IfOk};
ghost use Rattle.eden_lanes.specs.Rows.{differing_kinds};

use crate::ids::push_unless;
use crate::vectors::same_thirty_two;
use eden_ids::NoMemory;
use std::alloc::Global;

/// Adds the rows from `from` to `to`, exclusive, that differ.
fn push_between(
    found: &mut Vec<usize>,
    a: &[u8],
    b: &[u8],
    from: usize,
    to: usize,
) -> Result<(), NoMemory>
    requires first { to ≤ length a.now }
    requires second { to ≤ length b.now }
    requires within { from ≤ to }
    requires so_far { found.old.items ≡ differing_kinds (take from a.now) (take from b.now) }
    ensures { OnOk result (found.new.items ≡ differing_kinds (take to a.now) (take to b.now)) }
{
    for row in from..to {
        push_unless(found, a[row] == b[row], row)?;
    }
    Ok(())
}

/// Adds the rows that differ, in a block of thirty-two.
#[tactic(auto, using(crate::proofs::KindLemmas::next_kinds))]
fn push_thirty_two(found: &mut Vec<usize>, a: &[u8], b: &[u8], row: usize) -> Result<(), NoMemory>
    requires first { row + 32 ≤ length a.now }
    requires second { row + 32 ≤ length b.now }
    requires so_far { found.old.items ≡ differing_kinds (take row a.now) (take row b.now) }
    ensures { OnOk result (found.new.items ≡ differing_kinds (take (row + 32) a.now) (take (row + 32) b.now)) }
{
    if same_thirty_two(a, b, row) {
        Ok(())
    } else {
        push_between(found, a, b, row, row + 32)
    }
}

/// Adds the rows that differ, in the first blocks of thirty-two.
fn push_blocks(found: &mut Vec<usize>, a: &[u8], b: &[u8], blocks: usize) -> Result<(), NoMemory>
    requires first { 32 * blocks ≤ length a.now }
    requires second { 32 * blocks ≤ length b.now }
    requires so_far { found.old.items ≡ [] }
    ensures { OnOk result (found.new.items ≡ differing_kinds (take (32 * blocks) a.now) (take (32 * blocks) b.now)) }
{
    for block in 0..blocks {
        push_thirty_two(found, a, b, 32 * block)?;
    }
    Ok(())
}

/// Returns the rows at which two columns of kinds differ, ascending.
///
/// The columns must have the same length. A kind is a byte. Kinds are compared thirty-two
/// at a time. Only the result is allocated.
///
/// # Errors
///
/// - `NoMemory` if an allocation fails.
pub fn differ_kinds(alloc: Global, a: &[u8], b: &[u8]) -> Result<Vec<usize>, NoMemory>
    requires { length a.now ≡ length b.now }
    ensures { IfOk result (λ found. found.items ≡ differing_kinds a.now b.now) }
{
    let mut found = Vec::new(alloc);
    let blocks = a.len() / 32;
    push_blocks(&mut found, a, b, blocks)?;
    push_between(&mut found, a, b, 32 * blocks, a.len())?;
    Ok(found)
}
