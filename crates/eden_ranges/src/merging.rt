//! Mentions, and paths that the root names, merged in byte order.

ghost use Rattle.std.specs.Prelude.{◌≡◌, ◌++◌, take, drop, map, slice_get, option_map, IfOk, OnOk};
ghost use Rattle.eden_history.specs.Marks.{mark_said};
ghost use Rattle.eden_history.specs.Said.{by_root};
ghost use Rattle.eden_ranges.specs.internal.Mentions.{merged, order_of, told};

use crate::mentions::Mention;
use eden_history::{Mark, Marked};
use eden_ids::{NoMemory, Path};
use std::alloc::Global;
use std::cmp::Ordering;
use std::collections::VecDeque;

/// Compares the first path with that of the first mention.
///
/// A missing one comes after any other. It is `None` if both are missing.
fn order_of(named: &VecDeque<Path>, mentions: &VecDeque<Mention<'_>>) -> Option<Ordering>
    ensures { result ≡ order_of (slice_get named.now.items 0) (option_map told (slice_get mentions.now.items 0)) }
{
    match (named.front(), mentions.front()) {
        (None, None) => None,
        (Some(_), None) => Some(Ordering::Less),
        (None, Some(_)) => Some(Ordering::Greater),
        (Some(path), Some(mention)) => Some(path.cmp(mention.path)),
    }
}

/// Moves the first path to the marked ones, named by the root, if there is one.
fn move_first(marked: &mut Vec<Marked>, named: &mut VecDeque<Path>) -> Result<(), NoMemory>
    ensures added { OnOk result (marked.new.items ≡ marked.old.items ++ map mark_said (map by_root (take 1 named.old.items))) }
    ensures left { named.new.items ≡ drop 1 named.old.items }
{
    if let Some(path) = named.pop_front() {
        let mark = Mark::Root;
        marked.push(Marked { mark, path })?;
    }
    Ok(())
}

/// Copies the path of the first mention to the marked ones, if there is one, and passes it.
fn copy_first(
    marked: &mut Vec<Marked>,
    mentions: &mut VecDeque<Mention<'_>>,
) -> Result<(), NoMemory>
    ensures added { OnOk result (marked.new.items ≡ marked.old.items ++ map mark_said (map told (take 1 mentions.old.items))) }
    ensures left { mentions.new.items ≡ drop 1 mentions.old.items }
{
    if let Some(mention) = mentions.pop_front() {
        let mark = Mark::of(mention.touch);
        let path = mention.path.copy()?;
        marked.push(Marked { mark, path })?;
    }
    Ok(())
}

/// Merges mentions and paths that the root names into marked paths.
///
/// The paths are moved, and those of mentions copied. A path of both is marked as the mention
/// says.
pub(crate) fn merge(
    alloc: Global,
    mentions: Vec<Mention<'_>>,
    named: Vec<Path>,
) -> Result<Vec<Marked>, NoMemory>
    ensures { IfOk result (λ marked. marked.items ≡ map mark_said (merged (map told mentions.entry.items) named.items)) }
{
    let mut marked = Vec::with_capacity(alloc, mentions.len().max(named.len()))?;
    let mut named = VecDeque::from(named);
    let mut mentions = VecDeque::from(mentions);
    while let Some(order) = order_of(&named, &mentions) {
        match order {
            Ordering::Less => move_first(&mut marked, &mut named)?,
            // The mention says what happened there.
            Ordering::Equal => {
                let _ = named.pop_front();
            }
            Ordering::Greater => copy_first(&mut marked, &mut mentions)?,
        }
    }
    Ok(marked)
}
