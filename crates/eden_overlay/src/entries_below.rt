//! What an overlay says of the paths below a directory.

ghost use Rattle.std.specs.Prelude.{◌≡◌, ◌&&◌, filter, is_some};
ghost use Rattle.std.specs.List.{list_any};
ghost use Rattle.std.specs.FinMap as fin;
ghost use Rattle.eden_ids.specs.Paths.{lies_below};
ghost use Rattle.eden_overlay.specs.Layers.{marks};
ghost use Rattle.eden_overlay.specs.internal.Blocks.{before};

use crate::edge::edge;
use crate::entries_walk::Walk;
use crate::marks::Marks;
use crate::overlay::Overlay;
use arrayvec::ArrayVec;
use eden_ids::Path;

/// The touched paths below a directory: those of a walk that come before the directory's end.
#[derive(Drop)]
pub(crate) struct Below<'a> {
    walk: Walk<'a>,
    end: ArrayVec<u8, 1025>,
}

impl Marks for Below<'_> {
    ghost use Rattle.eden_overlay.specs.Layers.{marks};
    ghost use Rattle.eden_overlay.specs.internal.Blocks.{before};

    ghost left = { λ below. marks (before below.end.items below.walk) };

    fn first(&self) -> Option<(&Path, bool)> {
        let entry = self.walk.first_before(self.end.as_slice())?;
        Some((&entry.0, entry.1.is_some()))
    }

    fn pass(&mut self) {
        let _ = self.walk.next_before(self.end.as_slice());
    }
}

/// Returns whether an entry before an end says that a file is there.
fn has_present(mut entries: Walk<'_>, end: &[u8]) -> bool
    ensures { result ≡ list_any (λ e. is_some e.1) (before end.now entries.entry) }
{
    while let Some(entry) = entries.next_before(end) {
        if entry.1.is_some() {
            return true;
        }
    }
    false
}

impl Overlay {
    /// Returns the touched paths below a directory, each with whether a file is there.
    pub(crate) fn below(&self, top: &Path) -> Below<'_>
        ensures { marks (before result.end.items result.walk) ≡ marks (filter (λ e. lies_below e.0 top.now) (fin.entries self.now)) }
    {
        Below {
            walk: self.entries_from(edge(top, b'/').as_slice()),
            end: edge(top, b'/' + 1),
        }
    }

    /// Returns whether it says anything of a path below a directory. Does not allocate.
    pub(crate) fn has_entry_below(&self, top: &Path) -> bool
        ensures { result ≡ list_any (λ e. lies_below e.0 top.now) (fin.entries self.now) }
    {
        let entries = self.entries_from(edge(top, b'/').as_slice());
        entries
            .first_before(edge(top, b'/' + 1).as_slice())
            .is_some()
    }

    /// Returns whether it has a file below a directory. Does not allocate.
    ///
    /// Only the entries below the directory are looked at, up to the first that has a file.
    pub fn has_file_below(&self, top: &Path) -> bool
        ensures { result ≡ list_any (λ e. is_some e.1 && lies_below e.0 top.now) (fin.entries self.now) }
    {
        let entries = self.entries_from(edge(top, b'/').as_slice());
        let end = edge(top, b'/' + 1);
        has_present(entries, end.as_slice())
    }
}
