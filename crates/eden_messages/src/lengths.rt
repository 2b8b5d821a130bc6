//! The lengths of message bodies, known before a byte of them is written.

ghost use Rattle.std.specs.Prelude.{◌≡◌, ◌≤◌, ◌+◌, None, length};
ghost use Rattle.std.specs.List.{flat_map};
ghost use Rattle.eden_globs.specs.Filters.{filter_fault, lists};
ghost use Rattle.eden_messages.specs.Spells.{position_bytes, text_bytes, excluded_bytes, filter_bytes, marked_bytes, content_bytes, request_bytes, reply_bytes, if_small};

use crate::message::{Reply, Request};
use eden_globs::Filter;
use eden_history::{Marked, Position};
use eden_ids::{Content, Path};
use eden_stream::BODY_LIMIT;

/// Returns the length of a root.
fn len_of_root(root: &[u8; 20]) -> usize
    ensures len { result ≡ length root.now }
    ensures fixed { result ≡ 20 }
{
    root.len()
}

/// Returns the length of a position.
fn len_of_position(position: &Position) -> usize
    ensures len { result ≡ length (position_bytes position.now) }
    ensures fixed { result ≡ 36 }
{
    16 + len_of_root(&position.root.0)
}

/// Returns the length of a path with its two bytes of length.
#[tactic(auto, using(crate::proofs::Spelling::path_few))]
fn len_of_path(path: &Path) -> usize
    ensures len { result ≡ length (text_bytes path.now) }
    ensures few { result ≤ 1026 }
{
    2 + path.as_bytes().len()
}

/// Returns the length of paths, without their count.
///
/// It is `None` if a body cannot be that long.
#[tactic(auto, using(crate::proofs::BodyLengths::paths_front_small))]
fn len_of_paths(paths: &[Path]) -> Option<usize>
    ensures { result ≡ if_small (length (flat_map text_bytes paths.now)) }
{
    let mut len = 0;
    for path in paths {
        len += len_of_path(path);
        if len > BODY_LIMIT {
            return None;
        }
    }
    Some(len)
}

/// Returns the length of marked paths in a body, without their count.
///
/// It is `None` if a body cannot be that long. Does not allocate.
#[tactic(auto, using(crate::proofs::BodyLengths::list_front_small))]
pub fn len_of_marked(list: &[Marked]) -> Option<usize>
    ensures { result ≡ if_small (length (flat_map marked_bytes list.now)) }
{
    let mut len = 0;
    for marked in list {
        len += 1 + len_of_path(&marked.path);
        if len > BODY_LIMIT {
            return None;
        }
    }
    Some(len)
}

/// Returns the length of a file, or of its absence.
///
/// It is `None` if a body cannot be that long.
fn len_of_content(content: &Option<Content>) -> Option<usize>
    ensures { result ≡ if_small (length (content_bytes content.now)) }
{
    let Some(content) = content else {
        return Some(1);
    };
    let len = content.bytes.len();
    if len > BODY_LIMIT - 5 {
        return None;
    }
    Some(5 + len)
}

/// Returns the length of a filter's patterns: their count, and each with its length.
#[tactic(auto, using(crate::proofs::Filters::patterns_few, crate::proofs::Filters::patterns_short))]
fn len_of_patterns(patterns: &[Vec<u8>]) -> usize
    requires { filter_fault (lists patterns.now) ≡ None }
    ensures len { result ≡ length (filter_bytes (lists patterns.now)) }
    ensures few { result ≤ 8257 }
{
    let mut len = 1;
    for pattern in patterns {
        len += 2 + pattern.len();
    }
    len
}

/// Returns the length of what a filter excludes, which comes before a request.
#[tactic(auto, using(crate::proofs::BodyLengths::excluded_len, crate::proofs::BodyLengths::none_excluded_len))]
fn len_of_excluded(filter: &Filter) -> usize
    ensures len { result ≡ length (excluded_bytes filter.now.excluded) }
    ensures few { result ≤ 8259 }
{
    let patterns = filter.excluded();
    if patterns.is_empty() {
        return 0;
    }
    2 + len_of_patterns(patterns)
}

/// Returns the length of a filter in a body: of what it excludes and of what it includes.
///
/// Does not allocate.
pub fn len_of_filter(filter: &Filter) -> usize
    ensures len { result ≡ length (excluded_bytes filter.now.excluded) + length (filter_bytes filter.now.included) }
    ensures few { result ≤ 16516 }
{
    len_of_excluded(filter) + len_of_patterns(filter.patterns())
}

impl Request {
    /// Returns the length of the request's body: at most 17,568 bytes. Does not allocate.
    #[tactic(auto, using(crate::proofs::BodyLengths::basis_request_len, crate::proofs::BodyLengths::poll_len, crate::proofs::BodyLengths::fetch_len, crate::proofs::BodyLengths::list_request_len))]
    pub fn body_len(&self) -> u32
        ensures len { result ≡ length (request_bytes self.now) }
        ensures few { result ≤ 17568 }
    {
        match self {
            Request::Basis { filter, .. } => (26 + len_of_filter(filter)) as u32,
            Request::Poll { since, filter, .. } => {
                (26 + len_of_position(since) + len_of_filter(filter)) as u32
            }
            Request::Fetch { path, .. } => (26 + len_of_path(path)) as u32,
            Request::List { prefix, filter, .. } => {
                (26 + len_of_path(prefix) + len_of_filter(filter)) as u32
            }
        }
    }
}

impl Reply {
    /// Returns the length of the reply's body, or `None`.
    ///
    /// It is `None` if the body would be too long. A body has at most 16,777,216 bytes.
    /// The length is known before a byte of the body is written. Does not allocate.
    #[tactic(auto, using(crate::proofs::BodyLengths::basis_len, crate::proofs::BodyLengths::changes_len, crate::proofs::BodyLengths::content_len, crate::proofs::BodyLengths::list_len))]
    pub fn body_len(&self) -> Option<u32>
        ensures { result ≡ if_small (length (reply_bytes self.now)) }
    {
        match self {
            Reply::BasisIs {
                position,
                paths,
                ..
            } => {
                let front = 30 + len_of_position(position);
                match len_of_paths(paths.as_slice()) {
                    Some(len) if front + len <= BODY_LIMIT => Some((front + len) as u32),
                    _ => None,
                }
            }
            Reply::ChangesAre {
                target,
                marked,
                prefixes,
                ..
            } => {
                let front = 34 + len_of_position(target);
                match (
                    len_of_marked(marked.as_slice()),
                    len_of_paths(prefixes.as_slice()),
                ) {
                    (Some(list), Some(directories)) if front + list + directories <= BODY_LIMIT => {
                        Some((front + list + directories) as u32)
                    }
                    _ => None,
                }
            }
            Reply::ContentIs {
                position,
                path,
                content,
                ..
            } => {
                let front = 26 + len_of_position(position) + len_of_path(path);
                match len_of_content(content) {
                    Some(len) if front + len <= BODY_LIMIT => Some((front + len) as u32),
                    _ => None,
                }
            }
            Reply::Refused { .. } => Some(35),
            Reply::ListIs {
                position,
                prefix,
                paths,
                ..
            } => {
                let front = 30 + len_of_position(position) + len_of_path(prefix);
                match len_of_paths(paths.as_slice()) {
                    Some(len) if front + len <= BODY_LIMIT => Some((front + len) as u32),
                    _ => None,
                }
            }
        }
    }
}
