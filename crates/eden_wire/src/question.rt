//! What is asked of a mount: a request, or one that wants something else than its reply.

ghost use Rattle.std.specs.Prelude.{◌≡◌, ◌≤◌, ◌++◌, ℕ, List, length, IfOk, OnOk, Ok};
ghost use Rattle.eden_ids.specs.Fronts.{KeepsFront};
ghost use Rattle.eden_messages.specs.Spells.{IsRequest};
ghost use Rattle.eden_wire.specs.declared.question.Question.TheVariants as asks;
ghost use Rattle.eden_wire.specs.Formats.{optional, ◌▹◌};
ghost use Rattle.eden_wire.specs.Messages.{filter, path, query};
ghost use Rattle.eden_wire.specs.Questions.{SpellsQuestion, question_bytes, read_excluding, read_question, request_of, wants_of, without};
ghost use Rattle.eden_wire.specs.Reading.{Gives, read_to_end};

use crate::decoding::{excepting, filtered_of, head_of, request_of, tag_of, whole};
use crate::encoding::{
    len_of_path, put_bytes, put_excluded, put_head, put_included, put_path, put_request,
};
use crate::fault::DecodeFault;
use crate::fields::{excluded_of, filter_of, path_of, prefix_of, query_of};
use eden_globs::Filter;
use eden_ids::{NoMemory, Path, path_law};
use eden_messages::{Query, Request, filter_law, len_of_filter, query_law, request_text_law};
use std::alloc::{AllocError, Global};

/// What a client asks of a mount.
#[derive(Debug, PartialEq, Eq, Drop)]
pub enum Question {
    /// A request, whose reply is wanted as it is.
    Whole(Request),
    /// The kind, the length and the id of a file: what a Fetch is replied, without the bytes.
    Stat {
        /// The identity of the question.
        query: Query,
        /// The path.
        path: Path,
    },
    /// The kind, the length and the id of each file that a filter admits.
    Attributes {
        /// The identity of the question.
        query: Query,
        /// The directory below which the files are, or `None` for all files.
        prefix: Option<Path>,
        /// Which paths are wanted.
        filter: Filter,
    },
    /// Which paths differ from the commit below the working copy, and how.
    Status {
        /// The identity of the question.
        query: Query,
        /// Which paths are wanted.
        filter: Filter,
    },
}

/// What is wanted of the reply to a request.
#[derive(Clone, Copy, Debug, PartialEq, Eq)]
pub enum Wants {
    /// The reply as it is.
    Whole,
    /// The kind, the length and the id of a file, and not its bytes.
    Stat,
    /// The kind, the length and the id of each file, beside its path.
    Attributes,
    /// The paths that differ from the commit below the working copy, in place of all paths.
    Status,
}

impl Question {
    /// Returns the request to answer, and what is wanted of its reply.
    ///
    /// The request of a Stat is a Fetch. That of attributes is a Basis, or the List of their prefix.
    /// That of a status is a Basis. Does not allocate.
    pub fn into_request(self) -> (Request, Wants)
        ensures request { result.0 ≡ request_of self }
        ensures wants { result.1 ≡ wants_of self }
    {
        match self {
            Question::Whole(request) => (request, Wants::Whole),
            Question::Stat { query, path } => (Request::Fetch { query, path }, Wants::Stat),
            Question::Attributes {
                query,
                prefix,
                filter,
            } => {
                let request = match prefix {
                    None => Request::Basis { query, filter },
                    Some(prefix) => Request::List {
                        query,
                        prefix,
                        filter,
                    },
                };
                (request, Wants::Attributes)
            }
            Question::Status { query, filter } => (Request::Basis { query, filter }, Wants::Status),
        }
    }
}

// ---- reading

/// Reads the rest of a Stat, after its tag.
fn stat_of(alloc: Global, bytes: &[u8]) -> Result<Question, DecodeFault>
    ensures { Gives (λ question. question) result (read_to_end (query ▹ path) (λ x. asks.Stat x.0 x.1) bytes.now) }
{
    let (query, rest) = query_of(bytes)?;
    let (path, rest) = path_of(alloc, rest)?;
    whole(Question::Stat { query, path }, rest)
}

/// Reads the rest of a question for attributes, after its tag.
fn attributes_of(alloc: Global, bytes: &[u8]) -> Result<Question, DecodeFault>
    ensures { Gives (λ question. question) result (read_to_end (query ▹ optional path ▹ filter) (λ x. asks.Attributes x.0 x.1.0 x.1.1) bytes.now) }
{
    let (query, rest) = query_of(bytes)?;
    let (prefix, rest) = prefix_of(alloc, rest)?;
    let (filter, rest) = filter_of(alloc, rest)?;
    let question = Question::Attributes {
        query,
        prefix,
        filter,
    };
    whole(question, rest)
}

/// Reads the rest of a question for a status, after its tag.
fn status_of(alloc: Global, bytes: &[u8]) -> Result<Question, DecodeFault>
    ensures { Gives (λ question. question) result (read_to_end (query ▹ filter) (λ x. asks.Status x.0 x.1) bytes.now) }
{
    let (query, rest) = query_of(bytes)?;
    let (filter, rest) = filter_of(alloc, rest)?;
    whole(Question::Status { query, filter }, rest)
}

/// Returns the question with the patterns of another filter excluded.
fn without(question: Question, excluded: &Filter) -> Result<Question, NoMemory>
    ensures { IfOk result (λ q. q ≡ without excluded.now question) }
{
    match question {
        Question::Whole(request) => Ok(Question::Whole(excepting(request, excluded)?)),
        Question::Stat { .. } => Ok(question),
        Question::Attributes {
            query,
            prefix,
            filter,
        } => {
            let filter = filter.except(excluded)?;
            Ok(Question::Attributes {
                query,
                prefix,
                filter,
            })
        }
        Question::Status { query, filter } => {
            let filter = filter.except(excluded)?;
            Ok(Question::Status { query, filter })
        }
    }
}

/// Reads a question after what its filter excludes, from its version on.
fn included_of(alloc: Global, bytes: &[u8]) -> Result<Question, DecodeFault>
    ensures { Gives (λ question. question) result (read_excluding bytes.now) }
{
    let (tag, rest) = head_of(bytes)?;
    match tag {
        0x09 => attributes_of(alloc, rest),
        0x0a => status_of(alloc, rest),
        _ => Ok(Question::Whole(filtered_of(alloc, bytes)?)),
    }
}

/// Reads a whole body.
#[tactic(auto, unfolding(crate::specs::Questions::read_question))]
pub(crate) fn question_of(alloc: Global, body: &[u8]) -> Result<Question, DecodeFault>
    ensures { Gives (λ question. question) result (read_question body.now) }
{
    let (tag, rest) = tag_of(body)?;
    match tag {
        0x07 => {
            let (excluded, rest) = excluded_of(alloc, rest)?;
            let question = included_of(alloc, rest)?;
            Ok(without(question, &excluded)?)
        }
        0x08 => stat_of(alloc, rest),
        0x09 => attributes_of(alloc, rest),
        0x0a => status_of(alloc, rest),
        _ => Ok(Question::Whole(request_of(alloc, body)?)),
    }
}

/// Reads the body of a question: accepts exactly the bodies that encode one.
///
/// A Stat has the version, the tag 8 and the fields of a Fetch. Attributes have the tag 9, and after
/// the query a byte 0, or a byte 1 and the path of the prefix. A status has the tag 10 and the
/// fields of a Basis. What their filter excludes comes before these two, as before a request. Any
/// other question is a request.
///
/// # Errors
///
/// As of `decode_request`, in the same order.
pub fn decode_question(alloc: Global, body: &[u8]) -> Result<Question, DecodeFault>
    ensures spelled { IfOk result (λ question. SpellsQuestion body.now question) }
    ensures all { (question : Question) → SpellsQuestion body.now question → Gives (λ q. q) result (Ok question) }
    // The fault is this one.
    ensures exact { Gives (λ question. question) result (read_question body.now) }
{
    question_of(alloc, body)
}

// ---- writing

/// Writes the path of a prefix, or that there is none.
pub(crate) fn put_prefix(out: &mut Vec<u8>, prefix: &Option<Path>) -> Result<(), AllocError>
    ensures told { OnOk result (out.new.items ≡ out.old.items ++ (optional path).spell prefix.now) }
    ensures front { KeepsFront out.old.items out.new.items }
{
    match prefix {
        None => put_bytes(out, &[0]),
        Some(prefix) => {
            put_bytes(out, &[1])?;
            put_path(out, prefix)
        }
    }
}

/// Writes the body of a question.
pub(crate) fn put_question(out: &mut Vec<u8>, question: &Question) -> Result<(), AllocError>
    ensures told { OnOk result (out.new.items ≡ out.old.items ++ question_bytes question.now) }
    ensures front { KeepsFront out.old.items out.new.items }
{
    match question {
        Question::Whole(request) => put_request(out, request),
        Question::Stat { query, path } => {
            put_head(out, 0x08, query)?;
            put_path(out, path)
        }
        Question::Attributes {
            query,
            prefix,
            filter,
        } => {
            put_excluded(out, filter)?;
            put_head(out, 0x09, query)?;
            put_prefix(out, prefix)?;
            put_included(out, filter)
        }
        Question::Status { query, filter } => {
            put_excluded(out, filter)?;
            put_head(out, 0x0a, query)?;
            put_included(out, filter)
        }
    }
}

/// Returns the length of the path of a prefix, or of its absence.
pub(crate) fn len_of_prefix(prefix: &Option<Path>) -> usize
    ensures len { result ≡ length ((optional path).spell prefix.now) }
    ensures few { result ≤ 1027 }
{
    match prefix {
        None => 1,
        Some(prefix) => 1 + len_of_path(prefix),
    }
}

/// Returns the length of the body of a question.
#[tactic(auto, using(crate::proofs::Lengths::attributes_len, crate::proofs::Lengths::status_len))]
pub(crate) fn len_of_question(question: &Question) -> u32
    ensures len { result ≡ length (question_bytes question.now) }
    ensures few { result ≤ 17569 }
{
    match question {
        Question::Whole(request) => request.body_len(),
        Question::Stat { path, .. } => (26 + len_of_path(path)) as u32,
        Question::Attributes { prefix, filter, .. } => {
            (26 + len_of_prefix(prefix) + len_of_filter(filter)) as u32
        }
        Question::Status { filter, .. } => (26 + len_of_filter(filter)) as u32,
    }
}

/// States that each part of a question can be encoded.
pub(crate) fn question_text_law(question: &Question)
    ensures { IsRequest (request_of question.now) }
{
    match question {
        Question::Whole(request) => request_text_law(request),
        Question::Stat { query, path } => {
            query_law(*query);
            path_law(path);
        }
        Question::Attributes {
            query,
            prefix,
            filter,
        } => {
            query_law(*query);
            filter_law(filter);
            if let Some(prefix) = prefix {
                path_law(prefix);
            }
        }
        Question::Status { query, filter } => {
            query_law(*query);
            filter_law(filter);
        }
    }
}
