//! Paths that differ from the commit below a working copy: what a service replies to a status.

ghost use Rattle.std.specs.Prelude.{◌≡◌, ◌≤◌, ◌++◌, ℕ, List, length, IfOk, OnOk, Ok};
ghost use Rattle.eden_ids.specs.Fronts.{KeepsFront};
ghost use Rattle.eden_messages.specs.Spells.{if_small};
ghost use Rattle.eden_stream.specs.Frames.{frame};
ghost use Rattle.eden_wire.specs.Reading.{Gives, read_to_end};
ghost use Rattle.eden_wire.specs.Statuses.{SpellsStatus, read_status, status_bytes, status_is};
ghost use Rattle.eden_wire.specs.Wanted.{or_refused};

use crate::decoding::{after_tag, listing_of, whole};
use crate::encoding::{append_too_large, put_bytes, put_head, put_list, put_position};
use crate::fault::DecodeFault;
use crate::fields::{position_of, query_of};
use eden_history::{Marked, Position};
use eden_ids::{Sequence, id_law};
use eden_messages::{Query, len_of_marked};
use eden_stream::BODY_LIMIT;
use std::alloc::{AllocError, Global};

/// The reply to a status: a position, and the paths that differed from the commit then.
#[derive(Debug, PartialEq, Drop)]
pub struct StatusIs {
    /// The question.
    pub query: Query,
    /// The position at which it is true. Its root is the commit.
    pub position: Position,
    /// The paths, ascending. Each says whether its file was created, removed or changed.
    pub marked: Sequence<Marked>,
}

/// Reads what comes after the tag, up to the end.
fn status_is_of(alloc: Global, bytes: &[u8]) -> Result<StatusIs, DecodeFault>
    ensures { Gives (λ s. s) result (read_to_end status_is (λ s. s) bytes.now) }
{
    let (query, rest) = query_of(bytes)?;
    let (position, rest) = position_of(rest)?;
    let (marked, rest) = listing_of(alloc, rest)?;
    let message = StatusIs {
        query,
        position,
        marked,
    };
    whole(message, rest)
}

/// Reads the whole body of a reply to a status.
fn body_of(alloc: Global, body: &[u8]) -> Result<StatusIs, DecodeFault>
    ensures { Gives (λ s. s) result (read_status body.now) }
{
    let rest = after_tag(0x8a, body)?;
    status_is_of(alloc, rest)
}

/// Reads the body of a reply to a status: accepts exactly the bodies that encode one.
///
/// # Errors
///
/// As of `decode_reply`, in the same order. `BadTag` also if the body encodes another reply.
pub fn decode_status(alloc: Global, body: &[u8]) -> Result<StatusIs, DecodeFault>
    ensures spelled { IfOk result (λ s. SpellsStatus body.now s) }
    ensures all { (s : StatusIs) → SpellsStatus body.now s → Gives (λ x. x) result (Ok s) }
    // The fault is this one.
    ensures exact { Gives (λ s. s) result (read_status body.now) }
{
    body_of(alloc, body)
}

/// Writes the body of a reply to a status.
#[tactic(auto, using(crate::proofs::Lists::marked_few))]
fn put_status(out: &mut Vec<u8>, status: &StatusIs) -> Result<(), AllocError>
    requires { length (status_bytes status.now) ≤ 16777216 }
    ensures told { OnOk result (out.new.items ≡ out.old.items ++ status_bytes status.now) }
    ensures front { KeepsFront out.old.items out.new.items }
{
    put_head(out, 0x8a, &status.query)?;
    put_position(out, &status.position)?;
    put_list(out, status.marked.as_slice())
}

/// Returns the length of the body of a reply to a status, or `None` if it would be too long.
#[tactic(auto, using(crate::proofs::Lengths::status_is_len))]
fn len_of_status(status: &StatusIs) -> Option<u32>
    ensures { result ≡ if_small (length (status_bytes status.now)) }
{
    id_law(status.position.root);
    // The version, the tag, the query, the position and the count come first.
    match len_of_marked(status.marked.as_slice()) {
        Some(len) if 66 + len <= BODY_LIMIT => Some((66 + len) as u32),
        _ => None,
    }
}

/// Writes the frame of a reply to a status after a text: four bytes of length, and its body.
///
/// If the body would have more than 16,777,216 bytes, the frame is that of a refusal as `TooLarge`.
///
/// # Errors
///
/// - `AllocError` if an allocation fails. The text may then end with a part of the frame; what was
///   there before is unchanged.
pub fn append_status(text: &mut Vec<u8>, status: &StatusIs) -> Result<(), AllocError>
    ensures spelled { (body : List ℕ) → SpellsStatus body status.now → OnOk result (text.new.items ≡ text.old.items ++ frame body) }
    ensures exact { OnOk result (text.new.items ≡ text.old.items ++ frame (or_refused status.now.query (status_bytes status.now))) }
    ensures front { KeepsFront text.old.items text.new.items }
{
    let Some(len) = len_of_status(status) else {
        return append_too_large(text, status.query);
    };
    put_bytes(text, &len.to_be_bytes())?;
    put_status(text, status)
}
