//! Mentions in the byte order of their paths.

ghost use Rattle.std.specs.Prelude.{◌≡◌, map, slice_index, IfOk};
ghost use Rattle.std.specs.List.{All};
ghost use Rattle.std.specs.Ordering.{nat_cmp};
ghost use Rattle.std.specs.Cmp.Lexicographic.{slice_cmp};
ghost use Rattle.eden_history.specs.Said.{ends};
ghost use Rattle.eden_ranges.specs.internal.Heads.{IsHeaded, head_from, key};
ghost use Rattle.eden_ranges.specs.internal.Mentions.{one_a_path, told};

use crate::mentions::Mention;
use eden_ids::{NoMemory, Path, path_law};
use std::alloc::Global;
use std::cmp::Ordering;

/// A mention with the first eight bytes of its path as a number.
///
/// Two of them are mostly told apart by these numbers, without a look at the paths.
#[derive(Clone, Copy)]
struct Headed<'a> {
    head: u64,
    mention: Mention<'a>,
}

/// Returns a byte, or 0 after the last one.
fn byte_at(bytes: &[u8], place: usize) -> u8
    ensures { result ≡ slice_index bytes.now place }
{
    match bytes.get(place) {
        Some(byte) => *byte,
        None => 0,
    }
}

/// Returns the first eight bytes of a path as a number, the first one highest.
///
/// Each missing one counts as 0.
fn head_of(path: &Path) -> u64
    ensures { result ≡ head_from 8 path.now }
{
    let bytes = path.as_bytes();
    u64::from_be_bytes([
        byte_at(bytes, 0),
        byte_at(bytes, 1),
        byte_at(bytes, 2),
        byte_at(bytes, 3),
        byte_at(bytes, 4),
        byte_at(bytes, 5),
        byte_at(bytes, 6),
        byte_at(bytes, 7),
    ])
}

/// Gives a mention the number of its path.
fn with_head<'a>(mention: &Mention<'a>) -> Headed<'a>
    ensures mention { result.mention ≡ mention.now }
    ensures head { IsHeaded result }
{
    path_law(mention.path);
    let head = head_of(mention.path);
    Headed {
        head,
        mention: *mention,
    }
}

/// Compares the numbers, and the paths if these are equal.
fn compare(left: &Headed<'_>, right: &Headed<'_>) -> Ordering
    ensures { result ≡ slice_cmp nat_cmp (key left.now) (key right.now) }
{
    match left.head.cmp(&right.head) {
        Ordering::Equal => left.mention.path.cmp(right.mention.path),
        unequal => unequal,
    }
}

/// Gives each mention the number of its path.
fn with_heads<'a>(alloc: Global, mentions: &[Mention<'a>]) -> Result<Vec<Headed<'a>>, NoMemory>
    ensures mentions { IfOk result (λ headed. map (λ h. h.mention) headed.items ≡ mentions.now) }
    ensures heads { IfOk result (λ headed. All IsHeaded headed.items) }
{
    let mut headed = Vec::with_capacity(alloc, mentions.len())?;
    for mention in mentions {
        headed.push(with_head(mention))?;
    }
    Ok(headed)
}

/// Returns mentions in the byte order of their paths.
///
/// Those of one path stay in their order. So, joined, they are the ends of all.
pub(crate) fn in_order<'a>(
    alloc: Global,
    mentions: &[Mention<'a>],
) -> Result<Vec<Mention<'a>>, NoMemory>
    ensures { IfOk result (λ sorted. one_a_path (map told sorted.items) ≡ ends (map told mentions.now)) }
{
    let mut headed = with_heads(alloc, mentions)?;
    headed.sort_by(|left, right| compare(left, right))?;
    let mut sorted = Vec::with_capacity(alloc, headed.len())?;
    for one in headed.as_slice() {
        sorted.push(one.mention)?;
    }
    Ok(sorted)
}
