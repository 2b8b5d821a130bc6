//! Paths in a working copy.

ghost use Rattle.std.specs.Prelude.{◌≡◌, ◌≢◌, ◌++◌, ℕ, None, Some, IfOk, IfErr, not, nat_eq, length};
ghost use Rattle.std.specs.List.{list_all};
ghost use Rattle.std.specs.Option.{is_none};
ghost use Rattle.std.specs.Ordering.{nat_cmp, as_partial_cmp};
ghost use Rattle.std.specs.Cmp.Lexicographic.{pointwise, slice_cmp};
ghost use Rattle.std.specs.Cmp.{partial_order_from_own_ties};
ghost use Rattle.std.specs.Cmp.Rules.{comparing, hashing};
ghost use Rattle.std.proofs.Common.{rules};
ghost use Rattle.eden_ids.specs.Paths.{IsPath, components, is_component, path_fault, lies_below, clashes};

use crate::memory::NoMemory;
use std::alloc::{AllocError, Global};
use std::cmp::Ordering;
use std::fmt;
use std::hash::{Hash, Hasher};
use std::marker::Model;
use thiserror::Error;

/// Why bytes are not a path. The first cause in this order is reported.
#[derive(Clone, Copy, Debug, PartialEq, Eq, Error)]
pub enum PathFault {
    /// There are no bytes.
    #[error("Empty")]
    Empty,
    /// There are more than 1,024 bytes.
    #[error("TooLong")]
    TooLong,
    /// A component is invalid.
    ///
    /// It is empty, longer than 255 bytes, `.` or `..`, or holds a NUL byte.
    #[error("BadComponent")]
    BadComponent,
    /// There are more than 64 components.
    #[error("TooDeep")]
    TooDeep,
    /// An allocation failed.
    #[error("NoMemory")]
    NoMemory,
}

impl From<AllocError> for PathFault {
    ghost use Rattle.std.specs.Prelude.{◌≡◌};
    ghost use Rattle.eden_ids.specs.declared.path.PathFault.TheVariants as fault;

    ghost from_gives = { λ _ f. f ≡ fault.NoMemory };

    fn from(_refused: AllocError) -> PathFault {
        PathFault::NoMemory
    }
}

/// Bytes that are not a path, given back unchanged.
#[derive(Drop, Debug)]
pub struct NoPath {
    /// The first cause that applies; it is never `NoMemory`.
    pub cause: PathFault,
    /// The bytes.
    pub bytes: Vec<u8>,
}

/// A path in a working copy: 1 to 64 components joined by `/`, at most 1,024 bytes.
///
/// A component has 1 to 255 bytes, is neither `.` nor `..`, and holds no NUL byte. Any
/// other byte is allowed; a path need not be text. Paths are compared, ordered and hashed
/// as their bytes.
#[derive(Drop)]
pub struct Path {
    bytes: Vec<u8>,
}

impl Model for Path {
    ghost use Rattle.std.specs.Prelude.{ℕ, List};
    ghost use Rattle.eden_ids.specs.Paths.{IsPath};

    ghost Value = { List ℕ };

    ghost view = { λ p. p.bytes.items };

    ghost invariant = { λ p. IsPath p.bytes.items };
}

/// Returns true if the bytes can be a component of a path.
///
/// A component has 1 to 255 bytes, is neither `.` nor `..`, and holds no NUL byte.
/// Slashes are not looked for. Does not allocate.
pub fn is_component(name: &[u8]) -> bool
    ensures { result ≡ is_component name.now }
{
    !name.is_empty()
        && name.len() <= 255
        && name != b".".as_slice()
        && name != b"..".as_slice()
        && !name.contains(&0)
}

/// Returns true if each component may be a name.
fn has_names_alone(bytes: &[u8]) -> bool
    ensures { result ≡ list_all is_component (components bytes.now) }
{
    bytes.split(|b| *b == b'/').all(is_component)
}

/// Returns the number of components.
fn names_in(bytes: &[u8]) -> usize
    ensures { result ≡ length (components bytes.now) }
{
    bytes.split(|b| *b == b'/').count()
}

/// Returns why the bytes are not a path, if so.
fn fault_of(bytes: &[u8]) -> Option<PathFault>
    ensures { result ≡ path_fault bytes.now }
{
    if bytes.is_empty() {
        Some(PathFault::Empty)
    } else if bytes.len() > 1024 {
        Some(PathFault::TooLong)
    } else if !has_names_alone(bytes) {
        Some(PathFault::BadComponent)
    } else if names_in(bytes) > 64 {
        Some(PathFault::TooDeep)
    } else {
        None
    }
}

/// Returns true if the bytes are a path: if `Path::parse` accepts them.
///
/// Unlike `Path::parse`, it does not allocate.
pub fn is_path(bytes: &[u8]) -> bool
    ensures { result ≡ is_none (path_fault bytes.now) }
{
    fault_of(bytes).is_none()
}

impl Path {
    /// Reads a path and keeps a copy of its bytes.
    ///
    /// # Errors
    ///
    /// The first of these that applies:
    ///
    /// - `Empty` if there are no bytes.
    /// - `TooLong` if there are more than 1,024 bytes.
    /// - `BadComponent` if a component is invalid.
    /// - `TooDeep` if there are more than 64 components.
    ///
    /// `NoMemory` if an allocation fails; it may be returned instead of any other answer.
    pub fn parse(alloc: Global, bytes: &[u8]) -> Result<Path, PathFault>
        ensures accepts { IfOk result (λ _. path_fault bytes.now ≡ None) }
        ensures keeps { IfOk result (λ path. path ≡ bytes.now) }
        ensures refuses { IfErr result (λ fault. fault ≢ PathFault.NoMemory → path_fault bytes.now ≡ Some fault) }
    {
        if let Some(fault) = fault_of(bytes) {
            return Err(fault);
        }
        let bytes = bytes.to_vec(alloc)?;
        Ok(Path { bytes })
    }

    /// Makes a path from a vector of bytes, which is kept: no byte is copied.
    ///
    /// Does not allocate.
    ///
    /// # Errors
    ///
    /// As of `parse`, but never `NoMemory`; the bytes are given back.
    pub fn from_vec(bytes: Vec<u8>) -> Result<Path, NoPath>
        ensures accepts { IfOk result (λ path. (path ≡ bytes.items) × (path_fault bytes.items ≡ None)) }
        ensures refuses { IfErr result (λ fault. path_fault bytes.items ≡ Some fault.cause) }
        ensures back { IfErr result (λ fault. fault.bytes ≡ bytes) }
    {
        match fault_of(bytes.as_slice()) {
            Some(cause) => Err(NoPath { cause, bytes }),
            None => Ok(Path { bytes }),
        }
    }

    /// Returns the path that two parts make one after the other.
    ///
    /// The first part may be a directory with its slash, and the second a name. The two
    /// together must be a path; this is not checked again.
    ///
    /// # Errors
    ///
    /// - `NoMemory` if an allocation fails.
    pub fn joined(alloc: Global, front: &[u8], name: &[u8]) -> Result<Path, NoMemory>
        requires { IsPath (front.now ++ name.now) }
        ensures { IfOk result (λ path. path ≡ front.now ++ name.now) }
    {
        let mut bytes = Vec::with_capacity(alloc, front.len() + name.len())?;
        bytes.extend_from_slice(front)?;
        bytes.extend_from_slice(name)?;
        Ok(Path { bytes })
    }

    /// Returns the path's bytes. Does not allocate.
    pub fn as_bytes(&self) -> &[u8]
        ensures bytes { result.now ≡ self.now }
        ensures legal { path_fault self.now ≡ None }
    {
        self.bytes.as_slice()
    }

    /// Returns true if this path is below the other.
    ///
    /// It is if it begins with the other path and a slash, as a file below a directory
    /// does.
    #[tactic(auto, using(crate::proofs::BelowLemmas::below_in_steps))]
    pub fn is_below(&self, top: &Path) -> bool
        ensures { result ≡ lies_below self.now top.now }
    {
        let bytes = self.as_bytes();
        let top = top.as_bytes();
        bytes.starts_with(top) && bytes[top.len()..].starts_with(b"/".as_slice())
    }

    /// Returns true if no tree can hold both paths: one of them is below the other.
    pub fn clashes(&self, other: &Path) -> bool
        ensures { result ≡ clashes self.now other.now }
    {
        self.is_below(other) || other.is_below(self)
    }

    /// Returns a copy of this path.
    ///
    /// # Errors
    ///
    /// - `NoMemory` if an allocation fails.
    pub fn copy(&self) -> Result<Path, NoMemory>
        ensures { IfOk result (λ path. path ≡ self.now) }
    {
        Ok(self.clone()?)
    }
}

impl Clone for Path {
    ghost is_clone = { λ x y. y ≡ x };

    fn clone(&self) -> Result<Self, AllocError> {
        let bytes = self.bytes.clone()?;
        Ok(Path { bytes })
    }
}

impl PartialEq for Path {
    ghost eq = { pointwise nat_eq };

    ghost laws = { Prim.search (comparing, rules) };

    fn eq(&self, other: &Path) -> bool {
        self.as_bytes() == other.as_bytes()
    }
}

impl Eq for Path {
    ghost laws = { Prim.search (comparing, rules) };
}

impl PartialOrd for Path {
    ghost partial_cmp = { as_partial_cmp (slice_cmp nat_cmp) };

    ghost laws = { partial_order_from_own_ties (Prim.search (comparing, rules)) (Prim.search (comparing, rules)) };

    fn partial_cmp(&self, other: &Path) -> Option<Ordering> {
        Some(self.cmp(other))
    }
}

impl Ord for Path {
    ghost cmp = { slice_cmp nat_cmp };

    ghost total = { Prim.search (comparing, rules) };

    ghost matches_partial_cmp = { Prim.search (comparing, rules) };

    ghost matches_eq = { Prim.search (comparing, rules) };

    fn cmp(&self, other: &Path) -> Ordering {
        self.as_bytes().cmp(other.as_bytes())
    }
}

impl Hash for Path {
    ghost use Rattle.std.specs.Hash as fed;

    ghost hash_input = { fed.slice fed.u8 };

    fn hash<H: Hasher>(&self, state: &mut H) {
        self.as_bytes().hash(state);
    }

    ghost respects_eq = { Prim.search (hashing, rules) };
}

impl fmt::Debug for Path {
    fn fmt<W: fmt::Write>(&self, f: &mut fmt::Formatter<W>) -> fmt::Result {
        self.bytes.fmt(f)
    }
}
