//! Entries in byte order of their paths, cut into blocks. To put one in moves the entries of one
//! block.

ghost use Rattle.std.specs.Prelude.{◌≡◌, ◌∷◌, ◌<◌, ◌≤◌, [], T, None, Some, filter, not, drop, length, IfOk, OnOk, OnErr};
ghost use Rattle.std.specs.FinMap.{is_sorted, put, find};
ghost use Rattle.std.specs.Option.{is_none, option_copied};
ghost use Rattle.eden_ids.specs.FileMaps.{same_path};
ghost use Rattle.eden_overlay.specs.Layers.{by_bytes};
ghost use Rattle.eden_overlay.specs.Places.{place};
ghost use Rattle.eden_overlay.specs.internal.Blocks.{flat, block_for, begins_at_or_before, AllFilled};

use crate::ascending::{place_of, put, take_out, value_at};
use crate::entries_walk::Walk;
use eden_ids::{Content, NoMemory, Path};

/// Entries that are kept together. No block is empty.
pub(crate) type Block = Vec<(Path, Option<Content>)>;

/// A block with this many entries is cut in two.
const FULL: usize = 128;

/// Returns whether a block begins with a path or with one before it.
fn begins_at_or_before(block: &Block, path: &[u8]) -> bool
    ensures { result ≡ begins_at_or_before path.now block.now.items }
{
    match block.as_slice().first() {
        Some(entry) => entry.0.as_bytes().cmp(path).is_le(),
        None => false,
    }
}

/// Returns which block has the entry of a path, or would have it.
///
/// That is the last block that begins with the path or before it, or else the first block.
pub(crate) fn block_for(blocks: &[Block], path: &[u8]) -> usize
    requires sorted { T (is_sorted by_bytes (flat blocks.now)) }
    requires filled { AllFilled blocks.now }
    ensures is { result ≡ block_for path.now blocks.now }
    ensures within { result ≤ length blocks.now }
    ensures there { 0 < length blocks.now → result < length blocks.now }
{
    match blocks.split_first() {
        Some((_, later)) => later.partition_point(|block| begins_at_or_before(block, path)),
        None => 0,
    }
}

/// Returns what the entries say of a path, or `None` if they have none for it. Does not allocate.
pub(crate) fn find<'a>(blocks: &'a [Block], path: &[u8]) -> Option<&'a Option<Content>>
    requires sorted { T (is_sorted by_bytes (flat blocks.now)) }
    requires filled { AllFilled blocks.now }
    ensures { option_copied result ≡ find by_bytes path.now (flat blocks.now) }
{
    let at = block_for(blocks, path);
    if at < blocks.len() {
        value_at(&blocks[at], path)
    } else {
        None
    }
}

/// Returns the entries from a path on. Does not allocate.
pub(crate) fn walk_from<'a>(blocks: &'a [Block], path: &[u8]) -> Walk<'a>
    requires sorted { T (is_sorted by_bytes (flat blocks.now)) }
    requires filled { AllFilled blocks.now }
    ensures { result ≡ drop (place path.now (flat blocks.now)) (flat blocks.now) }
{
    let at = block_for(blocks, path);
    match blocks[at..].split_first() {
        Some((block, later)) => Walk::of(&block[place_of(block, path)..], later),
        None => Walk::of(&[], &[]),
    }
}

/// Returns how many entries a full block keeps when it is cut in two.
///
/// Half of them, and of the last block all but one: paths that come in byte order fill each block.
fn lower_size(blocks: &[Block], at: usize) -> usize
    requires { at < length blocks.now }
    ensures some { 0 < result }
    ensures fewer { result < 128 }
{
    if at == blocks.len() - 1 {
        FULL - 1
    } else {
        FULL / 2
    }
}

/// Splits a full block in two. If an allocation fails, it stays whole.
fn split(blocks: &mut Vec<Block>, at: usize)
    requires at { at < length blocks.old.items }
    requires filled { AllFilled blocks.old.items }
    ensures same { flat blocks.new.items ≡ flat blocks.old.items }
    ensures filled { AllFilled blocks.new.items }
{
    if blocks[at].len() < FULL {
        return;
    }
    if blocks.reserve(1).is_err() {
        return;
    }
    let kept = lower_size(blocks, at);
    let Ok(upper) = blocks[at].split_off(kept) else {
        return;
    };
    let Ok(_) = blocks.insert(at + 1, upper) else {
        // There is room.
        unreachable!();
    };
}

/// Begins the first block with an entry.
///
/// `NoMemory` if an allocation fails; then nothing changes.
fn begin(blocks: &mut Vec<Block>, path: Path, file: Option<Content>) -> Result<(), NoMemory>
    requires { blocks.old.items ≡ [] }
    ensures ok { OnOk result (flat blocks.new.items ≡ (path, file) ∷ []) }
    ensures filled { AllFilled blocks.new.items }
    ensures err { OnErr result (flat blocks.new.items ≡ []) }
{
    let mut block = Vec::new(*blocks.allocator());
    block.push((path, file))?;
    blocks.push(block)?;
    Ok(())
}

/// Puts an entry in, replacing the path's earlier one, and returns whether it is new.
///
/// `NoMemory` if an allocation fails; then nothing changes, and the path had no entry.
pub(crate) fn put_in(
    blocks: &mut Vec<Block>,
    path: Path,
    file: Option<Content>,
) -> Result<bool, NoMemory>
    requires sorted { T (is_sorted by_bytes (flat blocks.old.items)) }
    requires filled { AllFilled blocks.old.items }
    ensures ok { OnOk result (flat blocks.new.items ≡ put by_bytes path file (flat blocks.old.items)) }
    ensures added { IfOk result (λ is_new. is_new ≡ is_none (find by_bytes path (flat blocks.old.items))) }
    ensures err { OnErr result (flat blocks.new.items ≡ flat blocks.old.items) }
    ensures filled { AllFilled blocks.new.items }
    ensures absent { OnErr result (find by_bytes path (flat blocks.old.items) ≡ None) }
{
    if blocks.is_empty() {
        begin(blocks, path, file)?;
        return Ok(true);
    }
    let at = block_for(blocks, path.as_bytes());
    let is_new = put(&mut blocks[at], path, file)?;
    split(blocks, at);
    Ok(is_new)
}

/// Removes the entry of a path and returns what it said. Does not allocate.
pub(crate) fn take_out_of(blocks: &mut Vec<Block>, path: &[u8]) -> Option<Option<Content>>
    requires sorted { T (is_sorted by_bytes (flat blocks.old.items)) }
    requires filled { AllFilled blocks.old.items }
    ensures left { flat blocks.new.items ≡ filter (λ e. not (same_path path.now e.0)) (flat blocks.old.items) }
    ensures filled { AllFilled blocks.new.items }
    ensures there { result ≡ find by_bytes path.now (flat blocks.old.items) }
{
    let at = block_for(blocks, path);
    if at >= blocks.len() {
        return None;
    }
    let block = &mut blocks[at];
    let said = take_out(block, path);
    if block.is_empty() {
        blocks.remove(at);
    }
    said
}

/// Returns a block with the same entries.
fn copy_of(block: &Block) -> Result<Block, NoMemory>
    ensures { IfOk result (λ copy. copy.items ≡ block.now.items) }
{
    Ok(block.clone()?)
}

/// Returns blocks with the same entries.
pub(crate) fn copy_all(blocks: &Vec<Block>) -> Result<Vec<Block>, NoMemory>
    requires { AllFilled blocks.now.items }
    ensures same { IfOk result (λ copies. flat copies.items ≡ flat blocks.now.items) }
    ensures filled { IfOk result (λ copies. AllFilled copies.items) }
{
    let mut copies = Vec::with_capacity(*blocks.allocator(), blocks.len())?;
    for block in blocks {
        copies.push(copy_of(block)?)?;
    }
    Ok(copies)
}
