//! The directory that a walk reads, by the bytes that come before each of its names.

ghost use Rattle.std.specs.Prelude.{◌≡◌, ◌≤◌, ◌++◌, ℕ, [], length, take, if◌then◌else◌, None, Some, IfOk, IsSome, OnErr, OnOk};
ghost use Rattle.eden_globs.specs.Filters.{admits, all_paths};
ghost use Rattle.eden_globs.specs.Fronts.{Enters};
ghost use Rattle.eden_ids.specs.Paths.{IsPath};

use crate::filter::Filter;
use eden_ids::{NoMemory, Path};
use std::alloc::Global;
use std::marker::Model;

/// The bytes before each name of the directory that is read: none at the root, and below it the
/// directory's path and a slash.
#[derive(Drop)]
pub struct Front {
    bytes: Vec<u8>,
}

impl Model for Front {
    ghost use Rattle.std.specs.Prelude.{ℕ, List};

    ghost Value = { List ℕ };

    ghost view = { λ f. f.bytes.items };
}

impl Front {
    /// Returns that of the root. Does not allocate.
    pub fn new(alloc: Global) -> Front
        ensures { result ≡ [] }
    {
        Front {
            bytes: Vec::new(alloc),
        }
    }

    /// Returns the path of a file of the directory, if the filter admits it.
    ///
    /// No other path is made. `NoMemory` if an allocation fails. Nothing is changed.
    pub fn path_if_wanted(&mut self, filter: &Filter, name: &[u8]) -> Result<Option<Path>, NoMemory>
        requires { IsPath (self.old ++ name.now) }
        ensures path { IfOk result (λ path. path ≡ (if admits filter.now (self.old ++ name.now) then Some (self.old ++ name.now) else None)) }
        ensures front { self.new ≡ self.old }
    {
        let length = self.bytes.len();
        self.bytes.extend_from_slice(name)?;
        let wanted = filter.admits_bytes(self.bytes.as_slice());
        self.bytes.truncate(length);
        if !wanted {
            return Ok(None);
        }
        let path = Path::joined(*self.bytes.allocator(), self.bytes.as_slice(), name)?;
        Ok(Some(path))
    }

    /// Enters a subdirectory, unless the filter admits nothing below it.
    ///
    /// Returns the length with which `leave` goes back. A filter without patterns lets every
    /// directory be entered. `NoMemory` if an allocation fails; then nothing is changed.
    pub fn enter(&mut self, filter: &Filter, name: &[u8]) -> Result<Option<usize>, NoMemory>
        ensures entered { IfOk result (λ entered. Enters filter.now name.now self.old self.new entered) }
        ensures all { IfOk result (λ entered. filter.now ≡ all_paths → IsSome entered) }
        ensures err { OnErr result (self.new ≡ self.old) }
    {
        let length = self.bytes.len();
        self.bytes.extend_from_slice(name)?;
        if !filter.admits_below(self.bytes.as_slice()) {
            self.bytes.truncate(length);
            return Ok(None);
        }
        if self.bytes.push(b'/').is_err() {
            self.bytes.truncate(length);
            return Err(NoMemory);
        }
        Ok(Some(length))
    }

    /// Appends a name, for a caller that asks more of the path than a filter does.
    ///
    /// Returns the length with which `leave` goes back. `NoMemory` if an allocation fails; then
    /// nothing is changed.
    pub fn add(&mut self, name: &[u8]) -> Result<usize, NoMemory>
        ensures added { OnOk result (self.new ≡ self.old ++ name.now) }
        ensures err { OnErr result (self.new ≡ self.old) }
        ensures length { IfOk result (λ long. long ≡ length self.old) }
    {
        let length = self.bytes.len();
        self.bytes.extend_from_slice(name)?;
        Ok(length)
    }

    /// Returns the bytes. Does not allocate.
    pub fn as_bytes(&self) -> &[u8]
        ensures { result.now ≡ self.now }
    {
        self.bytes.as_slice()
    }

    /// Goes back to the directory for which `enter` or `add` returned the length.
    pub fn leave(&mut self, length: usize)
        ensures { self.new ≡ take length self.old }
    {
        self.bytes.truncate(length);
    }
}
