//! What an overlay says of paths: asked, changed, forgotten, copied.

ghost use Rattle.std.specs.Prelude.{◌≡◌, ◌+◌, ◌^◌, ◌<◌, true, false, None, Some, IfOk, OnOk, OnErr, drop, length, option_copied};
ghost use Rattle.std.specs.FinMap as fin;
ghost use Rattle.eden_overlay.specs.Places.{place};

use crate::blocks::{Block, copy_all, find, put_in, take_out_of, walk_from};
use crate::entries_walk::Walk;
use eden_ids::{Content, NoMemory, Path};
use std::alloc::Global;
use std::marker::Model;

/// Some paths, each with the file that is there, or with none.
///
/// It says nothing of any other path: there the files below it are seen.
#[derive(Drop)]
pub struct Overlay {
    pub(crate) blocks: Vec<Block>,
    /// How many entries there are, in all blocks together.
    pub(crate) count: usize,
}

/// The largest number of entries, so that one more can be counted too. No memory has room for them,
/// but the lengths of the blocks alone do not show that.
const MOST: usize = usize::MAX - 1;

impl Model for Overlay {
    ghost use Rattle.std.specs.Prelude.{◌≡◌, T, ◌+◌, ◌^◌, ◌<◌, length};
    ghost use Rattle.std.specs.Coded.{coded_list, coded_ℕ, coded_option};
    ghost use Rattle.std.specs.FinMap as fin;
    ghost use Rattle.eden_ids.specs.contracts.content.Content as content;
    ghost use Rattle.eden_overlay.specs.Layers.{Layer, by_bytes};
    ghost use Rattle.eden_overlay.specs.internal.Blocks.{flat, AllFilled};

    ghost Value = { Layer };

    ghost coded = { fin.code (coded_list coded_ℕ) (coded_option content.the_row.coded) };

    ghost view = { λ o. fin.from_sorted (flat o.blocks.items) };

    ghost invariant = { λ o. T (fin.is_sorted by_bytes (flat o.blocks.items)) × AllFilled o.blocks.items
        × (length (flat o.blocks.items) ≡ o.count) × (o.count + 1 < 2 ^ 64) };
}

impl Overlay {
    /// Returns an overlay that says nothing of any path. Does not allocate.
    #[tactic(auto, using(crate::proofs::Placing::from_sorted_nothing))]
    pub fn new(alloc: Global) -> Overlay
        ensures { result ≡ fin.empty }
    {
        Overlay {
            blocks: Vec::new(alloc),
            count: 0,
        }
    }

    /// Returns the entry of a path: the file there, or that the path is absent.
    ///
    /// `None` if it says nothing of the path. Does not allocate.
    pub fn get(&self, path: &[u8]) -> Option<&Option<Content>>
        ensures { option_copied result ≡ fin.get self.now path.now }
    {
        find(self.blocks.as_slice(), path)
    }

    /// Returns all that it says, in byte order of the paths. Does not allocate.
    pub fn entries(&self) -> Walk<'_>
        ensures { result ≡ fin.entries self.now }
    {
        Walk::of(&[], self.blocks.as_slice())
    }

    /// Returns what it says of the paths that are not before one. Does not allocate.
    pub(crate) fn entries_from(&self, path: &[u8]) -> Walk<'_>
        ensures from { result ≡ drop (place path.now (fin.entries self.now)) (fin.entries self.now) }
        ensures countable { length result + 1 < 2 ^ 64 }
    {
        walk_from(self.blocks.as_slice(), path)
    }

    /// Returns the allocator that its memory comes from.
    pub fn allocator(&self) -> Global {
        *self.blocks.allocator()
    }

    /// Returns whether a path would be one entry more than there may be.
    fn is_too_many(&self, path: &[u8]) -> bool
        ensures new { result ≡ true → fin.get self.now path.now ≡ None }
        ensures room { result ≡ false → fin.get self.now path.now ≡ None → length (fin.entries self.now) + 2 < 2 ^ 64 }
    {
        if self.count < MOST {
            return false;
        }
        self.get(path).is_none()
    }

    /// Sets a path's entry: the file there, or that the path is absent.
    ///
    /// `NoMemory` if an allocation fails; then nothing changes. It can't fail if something was said
    /// of the path before.
    pub fn set(&mut self, path: Path, file: Option<Content>) -> Result<(), NoMemory>
        ensures ok { OnOk result (self.new ≡ fin.insert self.old path file) }
        ensures err { OnErr result (self.new ≡ self.old) }
        ensures absent { OnErr result (fin.get self.old path ≡ None) }
    {
        if self.is_too_many(path.as_bytes()) {
            return Err(NoMemory);
        }
        let is_new = put_in(&mut self.blocks, path, file)?;
        self.count += usize::from(is_new);
        Ok(())
    }

    /// Forgets what it says of a path, and returns it. Does not allocate.
    pub fn forget(&mut self, path: &[u8]) -> Option<Option<Content>>
        ensures left { self.new ≡ fin.remove self.old path.now }
        ensures said { result ≡ fin.get self.old path.now }
    {
        let said = take_out_of(&mut self.blocks, path);
        self.count -= usize::from(said.is_some());
        said
    }

    /// Says that no file is at `from`, and then that this one is at `to`.
    ///
    /// `NoMemory` if an allocation fails; then nothing changes.
    pub fn shift(&mut self, from: Path, to: Path, content: Content) -> Result<(), NoMemory>
        ensures ok { OnOk result (self.new ≡ fin.insert (fin.insert self.old from None) to (Some content)) }
        ensures err { OnErr result (self.new ≡ self.old) }
    {
        if from == to {
            return self.set(to, Some(content));
        }
        if self.get(from.as_bytes()).is_some() {
            self.set(to, Some(content))?;
            // Something was said of this path, so it takes no memory.
            return self.set(from, None);
        }
        let marked = from.copy()?;
        self.set(from, None)?;
        match self.set(to, Some(content)) {
            Ok(()) => Ok(()),
            Err(NoMemory) => {
                self.forget(marked.as_bytes());
                Err(NoMemory)
            }
        }
    }

    /// Returns an overlay that says the same. `NoMemory` if an allocation fails.
    pub fn copy(&self) -> Result<Overlay, NoMemory>
        ensures { IfOk result (λ overlay. overlay ≡ self.now) }
    {
        let blocks = copy_all(&self.blocks)?;
        Ok(Overlay {
            blocks,
            count: self.count,
        })
    }
}
