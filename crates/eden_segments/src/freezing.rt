//! The frozen segments of a table, which copies share, and the newest one.
ghost use Rattle.std.specs.Prelude.{◌≡◌, ◌≤◌, [], IfOk, OnOk, length, map, option_copied, reverse};
ghost use Rattle.std.specs.Arc.{arc_value};
ghost use Rattle.std.specs.Map.{lookup};
ghost use Rattle.eden_ids.specs.Sameness.{same_id};
ghost use Rattle.eden_segments.specs.Tables.{AreDistinct};
ghost use Rattle.eden_segments.specs.internal.Segments.{frozen_rows, stored};

use crate::segment::Segment;
use crate::share::Share;
use eden_ids::{Id, NoMemory};
use std::alloc::Global;
use std::mem;
use std::sync::Arc;

/// Returns the value of an id in frozen segments.
///
/// The oldest is searched first, since it has most of the rows.
pub(crate) fn find_in<V>(frozen: &[Arc<Segment<V>>], id: Id) -> Option<&V>
    ensures { option_copied result ≡ lookup (same_id id) (frozen_rows frozen.now) }
{
    for segment in frozen {
        if let Some(value) = segment.get(id) {
            return Some(value);
        }
    }
    None
}

/// Returns further owners of frozen segments.
pub(crate) fn shared<V: Drop>(
    alloc: Global,
    frozen: &[Arc<Segment<V>>],
) -> Result<Vec<Arc<Segment<V>>>, NoMemory>
    ensures { IfOk result (λ segments. map arc_value segments.items ≡ map arc_value frozen.now) }
{
    let mut segments = Vec::with_capacity(alloc, frozen.len())?;
    for segment in frozen {
        segments.push(Arc::try_clone(segment)?)?;
    }
    Ok(segments)
}

/// Returns the place of the first segment that is merged with newer rows.
///
/// From there on each segment has at most twice as many rows as all newer ones.
fn first_merged<V>(frozen: &[Arc<Segment<V>>], newest: usize) -> usize
    ensures { result ≤ length frozen.now }
{
    let mut first = frozen.len();
    let mut behind = newest;
    while first > 0 && frozen[first - 1].len() / 2 <= behind {
        first -= 1;
        behind = behind.saturating_add(frozen[first].len());
    }
    first
}

/// Returns the rows of frozen segments and then of the newest one, in one segment.
fn merged<V: Share + Drop>(
    frozen: &[Arc<Segment<V>>],
    newest: &Segment<V>,
) -> Result<Segment<V>, NoMemory>
    requires { AreDistinct (reverse (stored frozen.now newest.now)) }
    ensures { IfOk result (λ merged. merged ≡ stored frozen.now newest.now) }
{
    let rows = frozen.iter().fold(
        newest.len(),
        |rows, segment| rows.saturating_add(segment.len()),
    );
    let mut merged = Segment::with_room(newest.allocator(), rows)?;
    for segment in frozen {
        merged.take_rows(segment)?;
    }
    merged.take_rows(newest)?;
    Ok(merged)
}

/// Merges the newest segment with those frozen ones that are too small to stay apart.
fn merge_small<V: Share + Drop>(
    frozen: &mut Vec<Arc<Segment<V>>>,
    newest: &mut Segment<V>,
) -> Result<(), NoMemory>
    requires { AreDistinct (reverse (stored frozen.old.items newest.old)) }
    ensures { stored frozen.new.items newest.new ≡ stored frozen.old.items newest.old }
{
    let first = first_merged(frozen.as_slice(), newest.len());
    if first < frozen.len() {
        *newest = merged(&frozen.as_slice()[first..], newest)?;
        frozen.truncate(first);
    }
    Ok(())
}

/// Freezes the newest segment, and leaves an empty one in its place.
///
/// Each frozen segment then has more than twice the rows of the next one, so they stay few. The
/// rows are unchanged, also if an allocation fails.
pub(crate) fn freeze<V: Share + Drop>(
    frozen: &mut Vec<Arc<Segment<V>>>,
    newest: &mut Segment<V>,
) -> Result<(), NoMemory>
    requires { AreDistinct (reverse (stored frozen.old.items newest.old)) }
    ensures rows { stored frozen.new.items newest.new ≡ stored frozen.old.items newest.old }
    ensures empty { OnOk result (newest.new ≡ []) }
{
    if newest.len() == 0 {
        return Ok(());
    }
    merge_small(frozen, newest)?;
    frozen.reserve(1)?;
    let alloc = newest.allocator();
    match Arc::new(alloc, mem::replace(newest, Segment::new(alloc))) {
        Ok(segment) => {
            frozen.push_reserved(segment);
            Ok(())
        }
        Err(refused) => {
            *newest = refused.value;
            Err(NoMemory)
        }
    }
}
