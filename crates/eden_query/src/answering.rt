//! The reply to a request, from what was held of a mount.

ghost use Rattle.std.specs.Prelude.{◌≡◌, ◌≢◌, ◌≤◌, ◌++◌, length, true, false, IfOk, IfErr, OnOk};
ghost use Rattle.eden_ids.specs.Fronts.{KeepsFront};
ghost use Rattle.eden_globs.specs.Filters.{all_paths};
ghost use Rattle.eden_objects.specs.Commits.{commit_map};
ghost use Rattle.eden_messages.specs.Replies.{bounded};
ghost use Rattle.eden_messages.specs.Spells.{SpellsReply, reply_bytes};
ghost use Rattle.eden_messages.specs.declared.message.Reply.TheVariants as ReplyIs;
ghost use Rattle.eden_query.specs.Answers.{IsReplyOfWorld};
ghost use Rattle.eden_query.specs.Raws.{attributes_told, is_answerable, patterns_of, status_told, told, wanted_told};
ghost use Rattle.eden_wire.specs.Wanted.{said};
ghost use Rattle.eden_stream.specs.Frames.{frame};

use crate::raw::Raw;
use eden_globs::Filter;
use eden_history::Position;
use eden_ids::{Content, Naming, NoMemory, Path, Sequence};
use eden_messages::{Query, Reply, Request, request_text_law};
use eden_objects::{CommitFault, Store};
use eden_wire::{AttributesAre, StatusIs, Wants, append_attributes, append_status, append_wanted};
use std::alloc::Global;

/// Returns the reply with a file, or with `None` if the path holds no file.
fn content_reply(query: Query, position: Position, path: Path, content: Option<Content>) -> Reply
    ensures { result ≡ bounded query (ReplyIs.ContentIs query position path content) }
{
    let reply = Reply::ContentIs {
        query,
        position,
        path,
        content,
    };
    reply.bounded(query)
}

/// Returns the reply to a request, from what was held for it.
///
/// It takes the request's filter and the mount's objects, and no mount. If the body of the reply
/// would be longer than 16,777,216 bytes, the reply is a refusal as `TooLarge`. No directory is
/// read below which the filter admits nothing (`Filter::admits_below`), and no path is made that
/// it does not admit.
///
/// # Errors
///
/// - `NoCommit` if two neighbouring roots of a range differ and one of them is no commit of the
///   store, or if the root of a snapshot is no commit of it. It never comes if a mount gave `raw`
///   and the store has that mount's objects.
/// - `NoMemory` if an allocation fails.
#[tactic(auto, using(crate::proofs::ReplyFits::refusal_fits, crate::proofs::ReplyFits::bounded_fits))]
pub fn answer<N: Naming + Drop>(
    alloc: Global,
    raw: &Raw,
    store: &Store<N>,
    filter: &Filter,
) -> Result<Reply, CommitFault>
    ensures reply { IfOk result (λ reply. reply ≡ told store.now filter.now raw.now) }
    ensures fits { IfOk result (λ reply. length (reply_bytes reply) ≤ 16777216) }
    ensures compared { OnOk result (is_answerable (commit_map store.now) raw.now ≡ true) }
    ensures fault { IfErr result (λ fault. fault ≢ CommitFault.NoMemory → is_answerable (commit_map store.now) raw.now ≡ false) }
{
    match raw {
        Raw::Ranged(query, due) => {
            let (marked, prefixes) = due.expand_admitted(alloc, store, filter)?;
            let reply = Reply::ChangesAre {
                query: *query,
                target: due.to(),
                marked: Sequence::from_vec(marked),
                prefixes,
            };
            Ok(reply.bounded(*query))
        }
        Raw::Based(query, snapshot) => {
            let reply = Reply::BasisIs {
                query: *query,
                position: snapshot.position(),
                paths: Sequence::from_vec(snapshot.files(store, filter)?),
            };
            Ok(reply.bounded(*query))
        }
        Raw::Held(query, position, path, content) => {
            let content = Content::copy_of(content)?;
            Ok(content_reply(*query, *position, path.copy()?, content))
        }
        Raw::Listed(query, snapshot, prefix) => {
            let paths = snapshot.files_below(store, prefix, filter)?;
            let reply = Reply::ListIs {
                query: *query,
                position: snapshot.position(),
                prefix: prefix.copy()?,
                paths: Sequence::from_vec(paths),
            };
            Ok(reply.bounded(*query))
        }
        Raw::Refused(query, cause) => Ok(Reply::Refused {
            query: *query,
            cause: *cause,
        }),
    }
}

/// Returns the reply that `answer` gives, and moves a file that was held into it.
#[tactic(auto, using(crate::proofs::ReplyFits::bounded_fits))]
fn answered<N: Naming + Drop>(
    alloc: Global,
    raw: Raw,
    store: &Store<N>,
    filter: &Filter,
) -> Result<Reply, CommitFault>
    ensures reply { IfOk result (λ reply. reply ≡ told store.now filter.now raw) }
    ensures fits { IfOk result (λ reply. length (reply_bytes reply) ≤ 16777216) }
    ensures fault { IfErr result (λ fault. fault ≢ CommitFault.NoMemory → is_answerable (commit_map store.now) raw ≡ false) }
{
    match raw {
        Raw::Held(query, position, path, content) => {
            Ok(content_reply(query, position, path, content))
        }
        other => answer(alloc, &other, store, filter),
    }
}

/// Adds the frame of what is wanted of a reply to a text, from what was held for its request.
fn append_told<N: Naming + Drop>(
    text: &mut Vec<u8>,
    wants: Wants,
    raw: Raw,
    store: &Store<N>,
    filter: &Filter,
) -> Result<(), CommitFault>
    ensures exact { OnOk result (text.new.items ≡ text.old.items ++ frame (said N.id wants (told store.now filter.now raw))) }
    ensures front { KeepsFront text.old.items text.new.items }
    ensures fault { IfErr result (λ fault. fault ≢ CommitFault.NoMemory → is_answerable (commit_map store.now) raw ≡ false) }
{
    let reply = answered(store.allocator(), raw, store, filter)?;
    append_wanted(text, &store.naming(), wants, reply)?;
    Ok(())
}

/// Adds the frame of the files of a snapshot to a text, without their bytes.
///
/// If no snapshot was held, it adds that of the reply.
fn append_files<N: Naming + Drop>(
    text: &mut Vec<u8>,
    raw: Raw,
    store: &Store<N>,
    filter: &Filter,
) -> Result<(), CommitFault>
    ensures exact { OnOk result (text.new.items ≡ text.old.items ++ frame (attributes_told N.id store.now filter.now raw)) }
    ensures front { KeepsFront text.old.items text.new.items }
    ensures fault { IfErr result (λ fault. fault ≢ CommitFault.NoMemory → is_answerable (commit_map store.now) raw ≡ false) }
{
    match raw {
        Raw::Based(query, snapshot) => {
            let files = snapshot.stats(store, filter)?;
            let attributes = AttributesAre {
                query,
                position: snapshot.position(),
                prefix: None,
                files: Sequence::from_vec(files),
            };
            append_attributes(text, &attributes)?;
            Ok(())
        }
        Raw::Listed(query, snapshot, prefix) => {
            let files = snapshot.stats_below(store, &prefix, filter)?;
            let attributes = AttributesAre {
                query,
                position: snapshot.position(),
                prefix: Some(prefix),
                files: Sequence::from_vec(files),
            };
            append_attributes(text, &attributes)?;
            Ok(())
        }
        other => append_told(text, Wants::Whole, other, store, filter),
    }
}

/// Adds the frame of the dirty paths of a snapshot to a text.
///
/// If the files of a whole mount were not held, it adds that of the reply.
fn append_dirty<N: Naming + Drop>(
    text: &mut Vec<u8>,
    raw: Raw,
    store: &Store<N>,
    filter: &Filter,
) -> Result<(), CommitFault>
    ensures exact { OnOk result (text.new.items ≡ text.old.items ++ frame (status_told store.now filter.now raw)) }
    ensures front { KeepsFront text.old.items text.new.items }
    ensures fault { IfErr result (λ fault. fault ≢ CommitFault.NoMemory → is_answerable (commit_map store.now) raw ≡ false) }
{
    match raw {
        Raw::Based(query, snapshot) => {
            let marked = snapshot.dirty(store, filter)?;
            let status = StatusIs {
                query,
                position: snapshot.position(),
                marked: Sequence::from_vec(marked),
            };
            append_status(text, &status)?;
            Ok(())
        }
        other => append_told(text, Wants::Whole, other, store, filter),
    }
}

/// Adds the frame of what is wanted to a text, from what was held for a request.
///
/// It takes the request's filter. Of a snapshot it makes no reply if its files are wanted, or the
/// paths at which they are not the commit's.
fn append_held<N: Naming + Drop>(
    text: &mut Vec<u8>,
    wants: Wants,
    raw: Raw,
    store: &Store<N>,
    filter: &Filter,
) -> Result<(), CommitFault>
    ensures exact { OnOk result (text.new.items ≡ text.old.items ++ frame (wanted_told N.id store.now filter.now wants raw)) }
    ensures front { KeepsFront text.old.items text.new.items }
    ensures fault { IfErr result (λ fault. fault ≢ CommitFault.NoMemory → is_answerable (commit_map store.now) raw ≡ false) }
{
    match wants {
        Wants::Whole | Wants::Stat => append_told(text, wants, raw, store, filter),
        Wants::Attributes => append_files(text, raw, store, filter),
        Wants::Status => append_dirty(text, raw, store, filter),
    }
}

/// Returns the filter of a request, or the other one if the request has none.
fn filter_of<'a>(request: &'a Request, everything: &'a Filter) -> &'a Filter
    requires { everything.now ≡ all_paths }
    ensures { result.now ≡ patterns_of request.now }
{
    match request {
        Request::Basis { filter, .. } => filter,
        Request::Poll { filter, .. } => filter,
        Request::Fetch { .. } => everything,
        Request::List { filter, .. } => filter,
    }
}

/// Returns the reply to a request, from what a server held for it.
///
/// It takes the objects that the server had at that time, and no server. Objects that the server
/// took in since make no difference (`told_over_law`). A file that was held is moved into the
/// reply. `NoMemory` if an allocation fails.
pub fn answer_request<N: Naming + Drop>(
    alloc: Global,
    raw: Raw,
    store: &Store<N>,
    request: &Request,
) -> Result<Reply, NoMemory>
    requires { is_answerable (commit_map store.now) raw ≡ true }
    ensures reply { IfOk result (λ reply. reply ≡ told store.now (patterns_of request.now) raw) }
    ensures fits { IfOk result (λ reply. length (reply_bytes reply) ≤ 16777216) }
    // If a world gives this reply, its bytes spell it.
    ensures spelled { IfOk result (λ reply. IsReplyOfWorld request.now (told store.now (patterns_of request.now) raw) → SpellsReply (reply_bytes reply) reply) }
{
    request_text_law(request);
    let everything = Filter::all(alloc);
    let filter = filter_of(request, &everything);
    match answered(alloc, raw, store, filter) {
        Ok(reply) => Ok(reply),
        // The commits that it names are there.
        Err(CommitFault::NoCommit) => unreachable!(),
        Err(CommitFault::NoMemory) => Err(NoMemory),
    }
}

/// Returns the reply that `answer_request` returns, and leaves what was held.
pub fn answer_held<N: Naming + Drop>(
    alloc: Global,
    raw: &Raw,
    store: &Store<N>,
    request: &Request,
) -> Result<Reply, NoMemory>
    requires { is_answerable (commit_map store.now) raw.now ≡ true }
    ensures reply { IfOk result (λ reply. reply ≡ told store.now (patterns_of request.now) raw.now) }
    ensures fits { IfOk result (λ reply. length (reply_bytes reply) ≤ 16777216) }
    // If a world gives this reply, its bytes spell it.
    ensures spelled { IfOk result (λ reply. IsReplyOfWorld request.now (told store.now (patterns_of request.now) raw.now) → SpellsReply (reply_bytes reply) reply) }
{
    request_text_law(request);
    let everything = Filter::all(alloc);
    let filter = filter_of(request, &everything);
    match answer(alloc, raw, store, filter) {
        Ok(reply) => Ok(reply),
        // The commits that it names are there.
        Err(CommitFault::NoCommit) => unreachable!(),
        Err(CommitFault::NoMemory) => Err(NoMemory),
    }
}

/// Adds the frame of what is wanted to a text, from what a server held for a request.
///
/// As `answer_request`, it takes the objects that the server had at that time, and no server. If a
/// Stat is wanted, the bytes of a file are hashed. If attributes are wanted, so are those of the
/// files that were written; the id of any other is in the commit. A body of more than 16,777,216
/// bytes becomes a refusal as `TooLarge`. `NoMemory` if an allocation fails. The text may then end
/// with a part of the frame; what was there before is unchanged.
pub fn append_answer<N: Naming + Drop>(
    text: &mut Vec<u8>,
    wants: Wants,
    raw: Raw,
    store: &Store<N>,
    request: &Request,
) -> Result<(), NoMemory>
    requires { is_answerable (commit_map store.now) raw ≡ true }
    ensures exact { OnOk result (text.new.items ≡ text.old.items ++ frame (wanted_told N.id store.now (patterns_of request.now) wants raw)) }
    ensures front { KeepsFront text.old.items text.new.items }
{
    let everything = Filter::all(store.allocator());
    let filter = filter_of(request, &everything);
    match append_held(text, wants, raw, store, filter) {
        Ok(()) => Ok(()),
        // The commits that it names are there.
        Err(CommitFault::NoCommit) => unreachable!(),
        Err(CommitFault::NoMemory) => Err(NoMemory),
    }
}

/// Adds the frame of what is wanted to a text, if the reply is there already.
///
/// As `append_answer`, but no reply is made again.
pub fn append_beside<N: Naming + Drop>(
    text: &mut Vec<u8>,
    wants: Wants,
    reply: Reply,
    raw: Raw,
    store: &Store<N>,
    request: &Request,
) -> Result<(), NoMemory>
    requires answerable { is_answerable (commit_map store.now) raw ≡ true }
    requires reply { reply ≡ told store.now (patterns_of request.now) raw }
    requires fits { length (reply_bytes reply) ≤ 16777216 }
    ensures exact { OnOk result (text.new.items ≡ text.old.items ++ frame (wanted_told N.id store.now (patterns_of request.now) wants raw)) }
    ensures front { KeepsFront text.old.items text.new.items }
{
    match wants {
        Wants::Whole | Wants::Stat => {
            append_wanted(text, &store.naming(), wants, reply)?;
            Ok(())
        }
        Wants::Attributes | Wants::Status => append_answer(text, wants, raw, store, request),
    }
}
