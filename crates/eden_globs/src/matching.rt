//! Matching the names of a path with the parts of a pattern.
//!
//! The time grows with the pattern's length times the path's. Nothing is allocated, and a
//! path is not cut before it is read.
//!
//! There are two levels: the parts of a pattern with the names of a path, and the tokens
//! of a part with the bytes of a name. Both are matched in the same way. A `**` (or a run)
//! ends a stretch of parts, of which each matches one name. A stretch is tried at one name
//! after the other. Where it matches first, that place is kept: what a later place leaves
//! to the rest of the pattern, the `**` after the stretch may skip to. So no place is tried
//! twice, and each part is compared with each name once at most.

ghost use Rattle.std.specs.Prelude.{◌≡◌, ◌<◌, ◌≤◌, ◌&&◌, ◌∷◌, ℕ, List, Bool, true, false, [], None, length, IfSome};
ghost use Rattle.eden_ids.specs.Paths.{components};
ghost use Rattle.eden_globs.specs.Filters.{ends_in_any_names, parts_enter, path_matches, some_rest};
ghost use Rattle.eden_globs.specs.internal.Compiled.{AreParts, EndsIn, left_length, left_of, part_matches, parts_match, tokens_match};

use crate::pattern::{Part, Token, cut};

/// Matches the tokens before the next run with as many bytes of a name.
///
/// Returns the tokens after the run and the bytes that are left. At the end of the tokens
/// neither is left. Returns `None` if the tokens do not match the name.
fn after_bytes<'a>(tokens: &'a [Token], name: &'a [u8]) -> Option<(&'a [Token], &'a [u8])>
    ensures none { result ≡ None → tokens_match tokens.now name.now ≡ false }
    ensures here { IfSome result (λ left. tokens_match tokens.now name.now ≡ some_rest (tokens_match left.0.now) left.1.now) }
    ensures later { IfSome result (λ left. some_rest (tokens_match tokens.now) name.now ≡ some_rest (tokens_match left.0.now) left.1.now) }
    ensures fewer { IfSome result (λ left. 0 < length tokens.now → length left.0.now < length tokens.now) }
    ensures shorter { IfSome result (λ left. length left.1.now ≤ length name.now) }
{
    for (at, token) in tokens.iter().enumerate() {
        if token.is_run() {
            return Some((&tokens[at + 1..], &name[at..]));
        }
        if at == name.len() {
            return None;
        }
        if !token.takes(name[at]) {
            return None;
        }
    }
    if tokens.len() != name.len() {
        return None;
    }
    Some((&[], &[]))
}

/// Returns true if the tokens match some end of a name.
fn is_name_end(tokens: &[Token], name: &[u8]) -> bool
    ensures { result ≡ some_rest (tokens_match tokens.now) name.now }
{
    let mut tokens = tokens;
    let mut left = name;
    while !tokens.is_empty() {
        match after_bytes(tokens, left) {
            Some((later, rest)) => {
                tokens = later;
                left = rest;
            }
            None => {
                let Some((_, rest)) = left.split_first() else {
                    return false;
                };
                left = rest;
            }
        }
    }
    true
}

/// Returns true if a name matches the tokens.
fn has_tokens(tokens: &[Token], name: &[u8]) -> bool
    ensures { result ≡ tokens_match tokens.now name.now }
{
    match after_bytes(tokens, name) {
        Some((later, rest)) => is_name_end(later, rest),
        None => false,
    }
}

impl Part {
    /// Returns true if a name matches this part.
    fn matches(&self, name: &[u8]) -> bool
        ensures { result ≡ part_matches self.now name.now }
    {
        match self {
            Part::AnyNames => true,
            Part::Name(bytes) => bytes.as_slice() == name,
            Part::Prefix(bytes) => name.starts_with(bytes.as_slice()),
            Part::Suffix(bytes) => name.ends_with(bytes.as_slice()),
            Part::Tokens(tokens) => has_tokens(tokens.as_slice(), name),
        }
    }

    /// Returns false only if the first name of a path does not match this part.
    ///
    /// So most paths are refused before the name is looked for.
    fn may_begin(&self, path: &[u8]) -> bool
        ensures { result ≡ false → (name : List ℕ) (names : List (List ℕ)) → components path.now ≡ name ∷ names → part_matches self.now name ≡ false }
    {
        match self {
            Part::Name(bytes) | Part::Prefix(bytes) => path.starts_with(bytes.as_slice()),
            _ => true,
        }
    }

    /// Returns false only if the last name of a path does not match this part.
    ///
    /// So most paths are refused before the name is looked for.
    fn may_end(&self, path: &[u8]) -> bool
        ensures { result ≡ false → (name : List ℕ) → EndsIn (components path.now) name → part_matches self.now name ≡ false }
    {
        match self {
            Part::Name(bytes) | Part::Suffix(bytes) => path.ends_with(bytes.as_slice()),
            _ => true,
        }
    }
}

/// Matches the parts before the next `**` with as many names of a path.
///
/// Returns the parts after the `**` and what is left of the path. At the end of the parts
/// neither is left. Returns `None` if the parts do not match the path.
fn after_names<'a>(
    parts: &'a [Part],
    path: Option<&'a [u8]>,
) -> Option<(&'a [Part], Option<&'a [u8]>)>
    ensures none { result ≡ None → parts_match parts.now (left_of path.entry) ≡ false }
    ensures here { IfSome result (λ left. parts_match parts.now (left_of path.entry) ≡ some_rest (parts_match left.0.now) (left_of left.1)) }
    ensures later { IfSome result (λ left. some_rest (parts_match parts.now) (left_of path.entry) ≡ some_rest (parts_match left.0.now) (left_of left.1)) }
    ensures fewer { IfSome result (λ left. 0 < length parts.now → length left.0.now < length parts.now) }
    ensures shorter { IfSome result (λ left. left_length left.1 ≤ left_length path.entry) }
{
    let mut left = path;
    for (at, part) in parts.iter().enumerate() {
        if part.is_any_names() {
            return Some((&parts[at + 1..], left));
        }
        let Some(names) = left else {
            return None;
        };
        if !part.may_begin(names) {
            return None;
        }
        let (name, rest) = cut(names);
        if !part.matches(name) {
            return None;
        }
        left = rest;
    }
    match left {
        Some(_) => None,
        None => Some((&[], None)),
    }
}

/// Returns true if the parts match some last names of a path.
fn is_path_end(parts: &[Part], path: Option<&[u8]>) -> bool
    ensures { result ≡ some_rest (parts_match parts.now) (left_of path.entry) }
{
    let mut parts = parts;
    let mut left = path;
    while !parts.is_empty() {
        match after_names(parts, left) {
            Some((later, rest)) => {
                parts = later;
                left = rest;
            }
            None => {
                let Some(names) = left else {
                    return false;
                };
                left = cut(names).1;
            }
        }
    }
    true
}

/// Returns true if a path's names match the parts of a pattern.
///
/// The root has no names, and is `None`. The time is at most a constant times the
/// pattern's length times the path's. Does not allocate.
fn is_admitted(parts: &[Part], path: Option<&[u8]>) -> bool
    ensures { (texts : List (List ℕ)) → AreParts parts.now texts → result ≡ path_matches texts (left_of path.entry) }
{
    match after_names(parts, path) {
        Some((later, rest)) => is_path_end(later, rest),
        None => false,
    }
}

/// Returns true if the last of a pattern's parts is `**`.
fn ends_in_any_names(parts: &[Part]) -> bool
    ensures { (texts : List (List ℕ)) → AreParts parts.now texts → result ≡ ends_in_any_names texts }
{
    match parts.split_last() {
        Some((part, _)) => part.is_any_names(),
        None => false,
    }
}

/// Returns true if the parts end in `**` and match a directory's names.
///
/// Then they match all that is below the directory. The root has no names, and is `None`.
/// Does not allocate.
pub(crate) fn is_taken(parts: &[Part], directory: Option<&[u8]>) -> bool
    ensures { (texts : List (List ℕ)) → AreParts parts.now texts → result ≡ (ends_in_any_names texts && path_matches texts (left_of directory.entry)) }
{
    ends_in_any_names(parts) && is_admitted(parts, directory)
}

/// Returns whether the parts match a path, if its last name decides it.
///
/// They do not match if their last part is not `**` and does not match the name. They do if
/// it matches, and before it is a `**` alone.
fn is_end_matched(parts: &[Part], path: &[u8]) -> Option<bool>
    ensures { IfSome result (λ matched. (texts : List (List ℕ)) → AreParts parts.now texts → path_matches texts (components path.now) ≡ matched) }
{
    let (last, before) = parts.split_last()?;
    if last.is_any_names() {
        return None;
    }
    if !last.may_end(path) {
        return Some(false);
    }
    if !last.matches(last_name(path)) {
        return Some(false);
    }
    if before.len() == 1 && before[0].is_any_names() {
        return Some(true);
    }
    None
}

/// Returns true if a path matches the parts of a pattern.
///
/// The time is at most a constant times the pattern's length times the path's. Does not
/// allocate.
pub(crate) fn is_matched(parts: &[Part], path: &[u8]) -> bool
    ensures { (texts : List (List ℕ)) → AreParts parts.now texts → result ≡ path_matches texts (components path.now) }
{
    // The last name decides it for most paths and patterns, before the others are read.
    match is_end_matched(parts, path) {
        Some(matched) => matched,
        None => is_admitted(parts, Some(path)),
    }
}

/// Returns true if a pattern may match something below a directory.
///
/// It may if the directory's names match the pattern's first parts and a part is left, or
/// if they match up to a `**`. The time is at most a constant times the pattern's length
/// times the directory's. Does not allocate.
pub(crate) fn is_entered(parts: &[Part], directory: &[u8]) -> bool
    ensures { (texts : List (List ℕ)) → AreParts parts.now texts → result ≡ parts_enter texts (components directory.now) }
{
    let mut left = Some(directory);
    for part in parts {
        let Some(names) = left else {
            return true;
        };
        if part.is_any_names() {
            return true;
        }
        let (name, behind) = cut(names);
        if !part.matches(name) {
            return false;
        }
        left = behind;
    }
    false
}

/// Returns the last name of a path.
fn last_name(path: &[u8]) -> &[u8]
    ensures { EndsIn (components path.now) result.now }
{
    for at in (0..path.len()).rev() {
        if path[at] == b'/' {
            return &path[at + 1..];
        }
    }
    path
}
