//! The entries of a tree as columns, so that two trees are compared column by column.
ghost use Rattle.std.specs.Prelude.{◌≡◌, ◌≤◌, ◌+◌, ◌++◌, ◌∷◌, [], length, List, IfOk, OnOk, Option};
ghost use Rattle.eden_ids.specs.declared.content.Kind.{Kind};
ghost use Rattle.eden_git.specs.Columns.{AreColumns, AreColumnsOf, kind_byte};
ghost use Rattle.eden_git.specs.Entries.{plain};
ghost use Rattle.eden_git.specs.Starts.{breadth, extent};
ghost use Rattle.eden_git.specs.Trees.{Entry};

use crate::entry::{RawEntry, read_entry};
use eden_ids::{IdColumn, Kind, NoMemory};
use std::alloc::Global;

/// The places, ids, kinds and names of a tree's entries, each in a column of its own.
///
/// This takes some 26 bytes for each entry and the bytes of its name, and up to twice that as the
/// columns grow. The payload is kept elsewhere.
#[derive(Drop)]
pub struct Columns {
    /// The place in the payload at which each entry begins, and the place at which the last one
    /// ends.
    pub(crate) starts: Vec<u32>,
    pub(crate) ids: IdColumn,
    /// The kinds as bytes, 0 for a directory.
    pub(crate) kinds: Vec<u8>,
    /// The names, one after another, each followed by a slash.
    pub(crate) names: Vec<u8>,
}

/// Returns a kind as a byte, 0 for a directory.
fn kind_byte(kind: Option<Kind>) -> u8
    ensures { result ≡ kind_byte kind }
{
    match kind {
        None => 0,
        Some(Kind::Plain) => 1,
        Some(Kind::Exec) => 2,
        Some(Kind::Link) => 3,
    }
}

/// Returns the kind for a byte.
pub(crate) fn kind_of(byte: u8) -> Option<Kind>
    ensures { (kind : Option Kind) → byte ≡ kind_byte kind → result ≡ kind }
{
    match byte {
        0 => None,
        1 => Some(Kind::Plain),
        2 => Some(Kind::Exec),
        _ => Some(Kind::Link),
    }
}

impl Columns {
    /// Returns the columns of no entries.
    ///
    /// # Errors
    ///
    /// - `NoMemory` if an allocation fails.
    pub fn new(alloc: Global) -> Result<Columns, NoMemory>
        ensures { IfOk result (AreColumnsOf []) }
    {
        let mut starts = Vec::new(alloc);
        starts.push(0)?;
        Ok(Columns {
            starts,
            ids: IdColumn::new(alloc),
            kinds: Vec::new(alloc),
            names: Vec::new(alloc),
        })
    }

    /// Adds the next entry, which ends at this place of the payload.
    ///
    /// # Errors
    ///
    /// - `NoMemory` if an allocation fails. The columns are then of no use.
    pub fn push(&mut self, entry: &RawEntry<'_>, end: u32) -> Result<(), NoMemory>
        ensures { OnOk result ((es : List Entry) → AreColumnsOf es self.old → end ≡ extent es + breadth (plain entry.now)
            → AreColumnsOf (es ++ plain entry.now ∷ []) self.new) }
    {
        self.starts.push(end)?;
        self.ids.push(entry.id)?;
        self.kinds.push(kind_byte(entry.kind))?;
        self.names.extend_from_slice(entry.name)?;
        self.names.push(b'/')?;
        Ok(())
    }

    /// Reads a payload once and returns the columns of its entries.
    ///
    /// # Errors
    ///
    /// - `NoMemory` if an allocation fails.
    pub fn of(alloc: Global, payload: &[u8]) -> Result<Columns, NoMemory>
        requires { length payload.now ≤ 8388608 }
        ensures { IfOk result (λ columns. AreColumns payload.now columns) }
    {
        let mut columns = Columns::new(alloc)?;
        let mut rest = payload;
        'entries: while let Ok((entry, after)) = read_entry(rest) {
            columns.push(&entry, (payload.len() - after.len()) as u32)?;
            rest = after;
        }
        Ok(columns)
    }
}
