//! Rows that are compared several at a time.
ghost use Rattle.std.specs.Prelude.{◌≡◌, ◌+◌, ◌<◌, ◌≤◌, length, nat_eq, slice_index_or};
ghost use Rattle.std.specs.List.{All, list_any};
ghost use Rattle.std.specs.Simd.Lanes.{chunk, mask_l, zip2};
ghost use Rattle.std.specs.Cmp.Lexicographic.{pointwise};
ghost use Rattle.eden_ids.specs.Columns.{IsOfItsWords};
ghost use Rattle.eden_ids.specs.Sameness.{same_id};
ghost use Rattle.eden_lanes.specs.internal.Masks.{same_word};

use eden_ids::{Id, IdColumn};
use std::simd::prelude::*;

/// Returns a bit for each of eight rows, the first the lowest: set if the ids are the
/// same.
pub fn same_eight(a: &IdColumn, b: &IdColumn, row: usize) -> u64
    requires first { row + 8 ≤ length a.now }
    requires second { row + 8 ≤ length b.now }
    ensures { result ≡ mask_l (zip2 same_id (chunk row 8 a.now) (chunk row 8 b.now)) }
{
    let same = u32x8::from_slice(&a.words(0)[row..]).simd_eq(u32x8::from_slice(&b.words(0)[row..]))
        & u32x8::from_slice(&a.words(1)[row..]).simd_eq(u32x8::from_slice(&b.words(1)[row..]))
        & u32x8::from_slice(&a.words(2)[row..]).simd_eq(u32x8::from_slice(&b.words(2)[row..]))
        & u32x8::from_slice(&a.words(3)[row..]).simd_eq(u32x8::from_slice(&b.words(3)[row..]))
        & u32x8::from_slice(&a.words(4)[row..]).simd_eq(u32x8::from_slice(&b.words(4)[row..]));
    same.to_bitmask()
}

/// Returns true if one of eight rows holds an id.
///
/// The other words are compared only if the first one is found, which is rare in a row
/// with another id.
pub fn holds_some(id: Id, column: &IdColumn, row: usize) -> bool
    requires { row + 8 ≤ length column.now }
    ensures { result ≡ list_any (same_id id) (chunk row 8 column.now) }
{
    let first = u32x8::splat(id.word(0)).simd_eq(u32x8::from_slice(&column.words(0)[row..]));
    if first.to_bitmask() == 0 {
        return false;
    }
    let same = first
        & u32x8::splat(id.word(1)).simd_eq(u32x8::from_slice(&column.words(1)[row..]))
        & u32x8::splat(id.word(2)).simd_eq(u32x8::from_slice(&column.words(2)[row..]))
        & u32x8::splat(id.word(3)).simd_eq(u32x8::from_slice(&column.words(3)[row..]))
        & u32x8::splat(id.word(4)).simd_eq(u32x8::from_slice(&column.words(4)[row..]));
    same.to_bitmask() != 0
}

/// Returns true if a row has the same word in both columns.
///
/// `place` says which of the five words.
#[tactic(auto, using(crate::proofs::Words::read))]
fn same_word_at(a: &IdColumn, b: &IdColumn, place: usize, row: usize) -> bool
    requires place { place < 5 }
    requires first { row < length a.now }
    requires second { row < length b.now }
    ensures same { (d : Id) → result ≡ same_word place (slice_index_or a.now row d) (slice_index_or b.now row d) }
    ensures first { All IsOfItsWords a.now }
    ensures second { All IsOfItsWords b.now }
{
    a.words(place)[row] == b.words(place)[row]
}

/// Returns true if the ids of a row are the same.
pub fn same_row(a: &IdColumn, b: &IdColumn, row: usize) -> bool
    requires first { row < length a.now }
    requires second { row < length b.now }
    ensures { (d : Id) → result ≡ same_id (slice_index_or a.now row d) (slice_index_or b.now row d) }
{
    same_word_at(a, b, 0, row)
        & same_word_at(a, b, 1, row)
        & same_word_at(a, b, 2, row)
        & same_word_at(a, b, 3, row)
        & same_word_at(a, b, 4, row)
}

/// Returns true if a row has the same word as an id.
///
/// `place` says which of the five words.
#[tactic(auto, using(crate::proofs::Words::read))]
fn has_word(id: Id, column: &IdColumn, place: usize, row: usize) -> bool
    requires place { place < 5 }
    requires within { row < length column.now }
    ensures same { (d : Id) → result ≡ same_word place id (slice_index_or column.now row d) }
    ensures ids { All IsOfItsWords column.now }
{
    id.word(place) == column.words(place)[row]
}

/// Returns true if a row holds an id.
pub fn holds(id: Id, column: &IdColumn, row: usize) -> bool
    requires { row < length column.now }
    ensures { (d : Id) → result ≡ same_id id (slice_index_or column.now row d) }
{
    has_word(id, column, 0, row)
        & has_word(id, column, 1, row)
        & has_word(id, column, 2, row)
        & has_word(id, column, 3, row)
        & has_word(id, column, 4, row)
}

/// Returns true if thirty-two bytes are the same.
pub fn same_thirty_two(a: &[u8], b: &[u8], at: usize) -> bool
    requires first { at + 32 ≤ length a.now }
    requires second { at + 32 ≤ length b.now }
    ensures { result ≡ pointwise nat_eq (chunk at 32 a.now) (chunk at 32 b.now) }
{
    u8x32::from_slice(&a[at..]) == u8x32::from_slice(&b[at..])
}
