//! Lists of patterns, and which paths they admit.

ghost use Rattle.std.specs.Prelude.{◌≡◌, ◌≢◌, ◌<◌, ◌≤◌, ◌==◌, ◌&&◌, ◌||◌, ℕ, List, [], false, true, nat_lt, length, not, None, Some, map, IfOk, IfErr, IfSome, nat_eq};
ghost use Rattle.std.specs.List.{list_all, list_any};
ghost use Rattle.eden_ids.specs.Paths.{IsPath, components, lies_below};
ghost use Rattle.eden_globs.specs.Filters.{admits, all_paths, ends_in_any_names, enters, filter_fault, includes, includes_below, including, is_part, is_spelled, lists, names_of, pattern_enters, pattern_fault, same_filter, some_match, some_take};
ghost use Rattle.eden_globs.specs.internal.Compiled.{AreCompiled, left_of};
ghost use Rattle.eden_globs.specs.internal.Sameness.{filters_equiv, filters_per};
ghost use Rattle.eden_globs.specs.internal.Sharing.{patterns_of};

use crate::matching::{is_entered, is_matched, is_taken};
use crate::pattern::{Part, parts_of};
use crate::stored::Stored;
use eden_ids::{NoMemory, Path};
use std::alloc::{AllocError, Global};
use std::fmt;
use std::marker::Model;
use std::sync::Arc;
use thiserror::Error;

/// Why a list of patterns is not a filter.
///
/// The first cause is reported: `TooMany`, then the patterns in their order.
#[derive(Clone, Copy, Debug, PartialEq, Eq, Error)]
pub enum FilterFault {
    /// There are more than 32 patterns.
    #[error("TooMany")]
    TooMany,
    /// A pattern is longer than 256 bytes.
    #[error("PatternTooLong")]
    PatternTooLong,
    /// The bytes at this index in the list are not a pattern.
    #[error("BadPattern {0}")]
    BadPattern(usize),
    /// An allocation failed.
    #[error("NoMemory")]
    NoMemory,
}

impl From<AllocError> for FilterFault {
    ghost use Rattle.std.specs.Prelude.{◌≡◌};
    ghost use Rattle.eden_globs.specs.declared.filter.FilterFault.TheVariants as fault;

    ghost from_gives = { λ _ f. f ≡ fault.NoMemory };

    fn from(_refused: AllocError) -> FilterFault {
        FilterFault::NoMemory
    }
}

/// Patterns, included and excluded, which say which paths are wanted.
///
/// A path is admitted if one of the included patterns matches it, or if there are none,
/// and no excluded pattern matches it. A pattern is parts joined by `/`. It matches a path
/// if its parts match the path's components, from first to last. The part `**` matches any
/// number of components, also zero. In any other part, `*` matches any run of bytes, `?`
/// any one byte, a backslash and a byte that byte, and any other byte itself. A name that
/// begins with a dot is not special.
///
/// Each list of patterns is stored once, and copies share it.
#[derive(Drop)]
pub struct Filter {
    /// Nothing for a list without patterns, which so is made without an allocation.
    included: Option<Arc<Stored>>,
    excluded: Option<Arc<Stored>>,
}

impl Model for Filter {
    ghost use Rattle.eden_globs.specs.Filters.{Patterns};
    ghost use Rattle.eden_globs.specs.internal.Sharing.{patterns_of};

    ghost Value = { Patterns };

    ghost view = { λ f. record { included = patterns_of f.included; excluded = patterns_of f.excluded } };
}

/// Returns true if brackets, braces and backslashes are escaped correctly.
///
/// A part must have no bare `[` or `{`, and no backslash at its end. A `[` or `{` is bare
/// if no backslash precedes it.
fn is_spelled(part: &[u8]) -> bool
    ensures { result ≡ is_spelled false part.now }
{
    let mut escaped = false;
    for byte in part {
        match (escaped, *byte) {
            (false, b'[' | b'{') => return false,
            (false, b'\\') => escaped = true,
            _ => escaped = false,
        }
    }
    !escaped
}

/// Returns true if the bytes may be a part of a pattern.
fn is_part(part: &[u8]) -> bool
    ensures { result ≡ is_part part.now }
{
    !part.is_empty() && is_spelled(part)
}

/// Returns true if each piece between slashes may be a part.
fn has_parts_alone(pattern: &[u8]) -> bool
    ensures { result ≡ list_all is_part (components pattern.now) }
{
    pattern.split(|b| *b == b'/').all(is_part)
}

/// Returns why the bytes are not a pattern, if so.
///
/// `place` is their index in the list.
fn fault_of_pattern(place: usize, bytes: &[u8]) -> Option<FilterFault>
    ensures { result ≡ pattern_fault place bytes.now }
{
    if bytes.len() > 256 {
        Some(FilterFault::PatternTooLong)
    } else if has_parts_alone(bytes) {
        None
    } else {
        Some(FilterFault::BadPattern(place))
    }
}

/// Returns why the patterns are not a filter, if so.
fn fault_of(patterns: &[&[u8]]) -> Option<FilterFault>
    ensures { result ≡ filter_fault (map (λ p. p.now) patterns.now) }
{
    if patterns.len() > 32 {
        return Some(FilterFault::TooMany);
    }
    for (place, pattern) in patterns.iter().enumerate() {
        if let Some(fault) = fault_of_pattern(place, pattern) {
            return Some(fault);
        }
    }
    None
}

/// Returns an owned copy of each of these byte strings.
fn copies(alloc: Global, patterns: &[&[u8]]) -> Result<Vec<Vec<u8>>, AllocError>
    ensures { IfOk result (λ copies. lists copies.items ≡ map (λ p. p.now) patterns.now) }
{
    let mut copies = Vec::new(alloc);
    for pattern in patterns {
        copies.push(pattern.to_vec(alloc)?)?;
    }
    Ok(copies)
}

/// Returns the parts of each pattern.
fn compile(alloc: Global, patterns: &[Vec<u8>]) -> Result<Vec<Vec<Part>>, AllocError>
    ensures { IfOk result (λ compiled. AreCompiled compiled.items (lists patterns.now)) }
{
    let mut compiled = Vec::new(alloc);
    for pattern in patterns {
        compiled.push(parts_of(alloc, pattern.as_slice())?)?;
    }
    Ok(compiled)
}

/// Returns true if a pattern matches the path of these bytes.
fn has_match(compiled: &[Vec<Part>], path: &[u8]) -> bool
    ensures { (patterns : List (List ℕ)) → AreCompiled compiled.now patterns → result ≡ some_match patterns path.now }
{
    for parts in compiled {
        if is_matched(parts.as_slice(), path) {
            return true;
        }
    }
    false
}

/// Returns true if one of the patterns enters a directory, which is not the root.
fn is_any_entered(compiled: &[Vec<Part>], directory: &[u8]) -> bool
    requires { 0 < length directory.now }
    ensures { (patterns : List (List ℕ)) → AreCompiled compiled.now patterns → result ≡ list_any (λ pattern. pattern_enters pattern directory.now) patterns }
{
    for parts in compiled {
        if is_entered(parts.as_slice(), directory) {
            return true;
        }
    }
    false
}

/// Returns the bytes of a directory's names, of which the root has none.
fn names_of(directory: &[u8]) -> Option<&[u8]>
    ensures { left_of result ≡ names_of directory.now }
{
    if directory.is_empty() {
        return None;
    }
    Some(directory)
}

/// Returns true if one of the patterns takes a directory whole.
fn has_taker(compiled: &[Vec<Part>], directory: &[u8]) -> bool
    ensures { (patterns : List (List ℕ)) → AreCompiled compiled.now patterns → result ≡ some_take patterns directory.now }
{
    let names = names_of(directory);
    for parts in compiled {
        if is_taken(parts.as_slice(), names) {
            return true;
        }
    }
    false
}

/// Returns the patterns that are stored.
fn patterns_of(stored: &Option<Arc<Stored>>) -> &[Vec<u8>]
    ensures patterns { lists result.now ≡ patterns_of stored.now }
    ensures legal { filter_fault (patterns_of stored.now) ≡ None }
{
    match stored {
        Some(stored) => stored.patterns(),
        None => &[],
    }
}

/// Returns the parts of each pattern that is stored.
fn compiled_of(stored: &Option<Arc<Stored>>) -> &[Vec<Part>]
    ensures { AreCompiled result.now (patterns_of stored.now) }
{
    match stored {
        Some(stored) => stored.compiled(),
        None => &[],
    }
}

/// Returns a copy that shares the patterns.
fn shared(stored: &Option<Arc<Stored>>) -> Result<Option<Arc<Stored>>, AllocError>
    ensures { IfOk result (λ copy. patterns_of copy ≡ patterns_of stored.now) }
{
    match stored {
        Some(stored) => Ok(Some(Arc::try_clone(stored)?)),
        None => Ok(None),
    }
}

impl Filter {
    /// Returns the filter without patterns, which admits every path. Does not allocate.
    pub fn all(_alloc: Global) -> Filter
        ensures { result ≡ all_paths }
    {
        Filter {
            included: None,
            excluded: None,
        }
    }

    /// Reads a filter and keeps its patterns. It excludes nothing.
    ///
    /// # Errors
    ///
    /// The first of these that applies:
    ///
    /// - `TooMany` if there are more than 32 patterns.
    /// - `PatternTooLong` or `BadPattern` for the first pattern that is invalid.
    ///
    /// `NoMemory` if an allocation fails; it may be returned instead of any other answer.
    pub fn parse(alloc: Global, patterns: &[&[u8]]) -> Result<Filter, FilterFault>
        ensures accepts { IfOk result (λ _. filter_fault (map (λ p. p.now) patterns.now) ≡ None) }
        ensures keeps { IfOk result (λ filter. filter ≡ including (map (λ p. p.now) patterns.now)) }
        ensures refuses { IfErr result (λ fault. fault ≢ FilterFault.NoMemory
            → filter_fault (map (λ p. p.now) patterns.now) ≡ Some fault) }
    {
        if let Some(fault) = fault_of(patterns) {
            return Err(fault);
        }
        if patterns.is_empty() {
            return Ok(Filter::all(alloc));
        }
        let patterns = copies(alloc, patterns)?;
        let compiled = compile(alloc, patterns.as_slice())?;
        match Arc::new(alloc, Stored::new(patterns, compiled)) {
            Ok(stored) => Ok(Filter {
                included: Some(stored),
                excluded: None,
            }),
            Err(_) => Err(FilterFault::NoMemory),
        }
    }

    /// Returns this filter with the patterns of another one as its excluded patterns.
    ///
    /// What this filter excluded is dropped, and so is what the other one excluded. The
    /// patterns are shared. Does not allocate.
    ///
    /// # Errors
    ///
    /// - `NoMemory` if one of the filters has as many copies as can be counted.
    pub fn except(&self, excluded: &Filter) -> Result<Filter, NoMemory>
        ensures { IfOk result (λ filter. filter ≡ record { included = self.now.included; excluded = excluded.now.included }) }
    {
        Ok(Filter {
            included: shared(&self.included)?,
            excluded: shared(&excluded.included)?,
        })
    }

    /// Returns the included patterns, in their order. Does not allocate.
    pub fn patterns(&self) -> &[Vec<u8>]
        ensures patterns { lists result.now ≡ self.now.included }
        ensures legal { filter_fault self.now.included ≡ None }
    {
        patterns_of(&self.included)
    }

    /// Returns the excluded patterns, in their order. Does not allocate.
    pub fn excluded(&self) -> &[Vec<u8>]
        ensures patterns { lists result.now ≡ self.now.excluded }
        ensures legal { filter_fault self.now.excluded ≡ None }
    {
        patterns_of(&self.excluded)
    }

    /// Returns true if the filter admits the path.
    ///
    /// The time is at most a constant times the length of the patterns times that of the
    /// path. Does not allocate.
    pub fn admits(&self, path: &Path) -> bool
        ensures { result ≡ admits self.now path.now }
    {
        self.admits_bytes(path.as_bytes())
    }

    /// Returns true if the filter admits the path of these bytes.
    ///
    /// It is `admits` for a caller that has no `Path`. The bytes must be a path.
    pub fn admits_bytes(&self, path: &[u8]) -> bool
        requires { IsPath path.now }
        ensures { result ≡ admits self.now path.now }
    {
        self.includes(path) && !self.excludes(path)
    }

    /// Returns true if an included pattern matches a path, or if there are none.
    #[tactic(auto, using(crate::proofs::FilterLemmas::includes_some, crate::proofs::FilterLemmas::includes_none))]
    fn includes(&self, path: &[u8]) -> bool
        ensures { result ≡ includes self.now.included path.now }
    {
        self.patterns().is_empty() || has_match(compiled_of(&self.included), path)
    }

    /// Returns true if an excluded pattern matches a path.
    fn excludes(&self, path: &[u8]) -> bool
        ensures { result ≡ some_match self.now.excluded path.now }
    {
        !self.excluded().is_empty() && has_match(compiled_of(&self.excluded), path)
    }

    /// Returns false only if nothing below a directory is admitted.
    ///
    /// So a walk need not read a directory for which the answer is false. The root is the
    /// empty byte string. The answer is false if an excluded pattern ends in `**` and
    /// matches the directory, and so all that is below it. Else it is true if the
    /// directory's names match the first parts of an included pattern and more parts are
    /// left. It is also true if they match up to a part `**`, and if there are no included
    /// patterns. It is always true for bytes that are longer than a path. The time is that
    /// of `admits`. Does not allocate.
    #[tactic(auto, using(crate::proofs::Entering::none_outside))]
    pub fn admits_below(&self, directory: &[u8]) -> bool
        ensures value { result ≡ (nat_lt 1024 (length directory.now) || enters self.now directory.now) }
        ensures outside { result ≡ false → (path : List ℕ) → lies_below path directory.now ≡ true → admits self.now path ≡ false }
    {
        directory.len() > 1024 || self.enters(directory)
    }

    /// Returns true if the filter enters a directory.
    fn enters(&self, directory: &[u8]) -> bool
        ensures { result ≡ enters self.now directory.now }
    {
        self.includes_below(directory) && !self.takes(directory)
    }

    /// Returns true if an included pattern enters a directory, or if there are none.
    #[tactic(auto, using(crate::proofs::FilterLemmas::enters_some, crate::proofs::FilterLemmas::enters_none, crate::proofs::Entering::root_enters))]
    fn includes_below(&self, directory: &[u8]) -> bool
        ensures { result ≡ includes_below self.now.included directory.now }
    {
        // The root has no names, and every pattern has a part for what is below it.
        if directory.is_empty() {
            return true;
        }
        self.patterns().is_empty() || is_any_entered(compiled_of(&self.included), directory)
    }

    /// Returns true if an excluded pattern takes a directory whole.
    fn takes(&self, directory: &[u8]) -> bool
        ensures { result ≡ some_take self.now.excluded directory.now }
    {
        !self.excluded().is_empty() && has_taker(compiled_of(&self.excluded), directory)
    }

    /// Returns a copy of this filter.
    ///
    /// It shares the patterns. Does not allocate.
    ///
    /// # Errors
    ///
    /// - `NoMemory` if the filter has as many copies as can be counted.
    pub fn copy(&self) -> Result<Filter, NoMemory>
        ensures { IfOk result (λ filter. filter ≡ self.now) }
    {
        Ok(self.clone()?)
    }
}

impl Clone for Filter {
    ghost is_clone = { λ x y. y ≡ x };

    fn clone(&self) -> Result<Self, AllocError> {
        Ok(Filter {
            included: shared(&self.included)?,
            excluded: shared(&self.excluded)?,
        })
    }
}

impl PartialEq for Filter {
    ghost eq = { same_filter };

    ghost laws = { filters_per };

    fn eq(&self, other: &Filter) -> bool {
        self.patterns() == other.patterns() && self.excluded() == other.excluded()
    }
}

impl Eq for Filter {
    ghost laws = { filters_equiv };
}

/// Formats the included patterns, and the excluded ones after them if there are any.
impl fmt::Debug for Filter {
    fn fmt<W: fmt::Write>(&self, f: &mut fmt::Formatter<W>) -> fmt::Result {
        self.patterns().fmt(f)?;
        if !self.excluded().is_empty() {
            f.write_str(" except ")?;
            self.excluded().fmt(f)?;
        }
        Ok(())
    }
}
