//! Two polls, a basis and a fetch as frames, and the replies to them.

use crate::decoding::{reply_of, request_frame};
use crate::mounted::{apply, empty_mount};
use crate::refusals::{Refusals, again};
use crate::told::{tell_marked, tell_paths, tell_position, text_of};
use anyhow::{Result, bail};
use bytes::Bytes;
use eden_accumulate::Mount;
use eden_globs::Filter;
use eden_history::{Change, Position};
use eden_ids::{GitNaming, Id, Kind, Path};
use eden_messages::{Query, Reply, Request};
use eden_query::ServeFault;
use std::alloc::Global;

/// Whose questions they are.
pub(crate) const QUERY: Query = Query {
    mirror: 1,
    life: 1,
    number: 1,
};

/// How many bytes the replies have together, at the most.
const MOST_BYTES: usize = 4_096;

/// How many frames there are.
const FRAME_COUNT: u64 = 4;

/// What was written, and how the serving ended.
pub(crate) type Served = (Vec<u8>, Result<u64, ServeFault>);

/// The change that writes an executable file.
pub(crate) fn write(alloc: Global, at: &[u8], text: &[u8]) -> Result<Change> {
    Ok(Change::Write {
        path: Path::parse(alloc, at)?,
        kind: Kind::Exec,
        bytes: Bytes::copy_from_slice(alloc, text)?,
    })
}

/// A mount in generation 7 of two files.
fn two_files(alloc: Global) -> Result<Mount<GitNaming>> {
    let mut mount = empty_mount(alloc)?;
    for at in [b"d/a".as_slice(), b"e".as_slice()] {
        let _ = apply(&mut mount, &write(alloc, at, b"hi".as_slice())?)?;
    }
    Ok(mount)
}

/// The same, made anew where memory was refused.
pub(crate) fn mounted(alloc: Global, refusals: &mut Refusals) -> Result<Mount<GitNaming>> {
    Ok(again!(refusals, _, two_files(alloc)))
}

/// The frame of what changed since the first number, by these patterns.
fn poll(alloc: Global, patterns: &[&[u8]]) -> Result<Vec<u8>> {
    let since = Position {
        generation: 7,
        sequence: 1,
        root: Id::ZERO,
    };
    let request = Request::Poll {
        query: QUERY,
        since,
        filter: Filter::parse(alloc, patterns)?,
    };
    Ok(request_frame(alloc, &request)?)
}

/// What asks for all files.
pub(crate) fn basis(alloc: Global) -> Request {
    Request::Basis {
        query: QUERY,
        filter: Filter::all(alloc),
    }
}

/// What asks for the file at a path.
pub(crate) fn fetch(alloc: Global, at: &[u8]) -> Result<Request> {
    let path = Path::parse(alloc, at)?;
    Ok(Request::Fetch { query: QUERY, path })
}

/// The frames.
fn asked(alloc: Global) -> Result<Vec<u8>> {
    let mut frames = poll(alloc, &[])?;
    frames.extend_from_slice(poll(alloc, &[b"d/**".as_slice()])?.as_slice())?;
    frames.extend_from_slice(request_frame(alloc, &basis(alloc))?.as_slice())?;
    let fetch = fetch(alloc, b"d/a".as_slice())?;
    frames.extend_from_slice(request_frame(alloc, &fetch)?.as_slice())?;
    Ok(frames)
}

/// The frames, made anew where memory was refused.
pub(crate) fn frames(alloc: Global, refusals: &mut Refusals) -> Result<Vec<u8>> {
    Ok(again!(refusals, _, asked(alloc)))
}

/// Room for the replies, so that their writer takes no memory.
pub(crate) fn room(alloc: Global, refusals: &mut Refusals) -> Result<Vec<u8>> {
    Ok(again!(refusals, _, Vec::with_capacity(alloc, MOST_BYTES)))
}

/// The first reply of a text, and how many bytes its frame has.
fn first_reply(alloc: Global, text: &[u8]) -> Result<(Reply, usize)> {
    let [a, b, c, d, rest @ ..] = text else {
        bail!("a reply is missing");
    };
    let length = u32::from_be_bytes([*a, *b, *c, *d]) as usize;
    let Some(body) = rest.get(..length) else {
        bail!("a reply is cut short");
    };
    Ok((reply_of(alloc, body)?, length.saturating_add(4)))
}

/// The file of a reply.
fn tell_content(rt: &HostRuntime, reply: &Reply) -> Result<()> {
    match reply {
        Reply::ContentIs {
            content: Some(content),
            ..
        } => println!(rt; "{:?} {}", content.kind, text_of(content.bytes.as_slice())?)?,
        _ => println!(rt; "nothing")?,
    }
    Ok(())
}

/// What a reply says.
pub(crate) fn tell_reply(rt: &HostRuntime, reply: &Reply) -> Result<()> {
    match reply {
        Reply::BasisIs {
            position,
            paths,
            ..
        } => {
            print!(rt; "basis")?;
            tell_position(rt, &[], position)?;
            tell_paths(rt, "files", paths.as_slice())
        }
        Reply::ChangesAre { target, marked, .. } => {
            print!(rt; "changes {} to", marked.len())?;
            tell_position(rt, &[], target)?;
            tell_marked(rt, marked.as_slice())
        }
        Reply::ContentIs { position, .. } => {
            print!(rt; "content")?;
            tell_position(rt, &[], position)?;
            tell_content(rt, reply)
        }
        Reply::Refused { cause, .. } => {
            println!(rt; "refused {cause:?}")?;
            Ok(())
        }
        Reply::ListIs { paths, .. } => tell_paths(rt, "list", paths.as_slice()),
    }
}

/// What the replies of a text say.
fn tell_replies(
    rt: &HostRuntime,
    alloc: Global,
    refusals: &mut Refusals,
    text: &[u8],
) -> Result<()> {
    let mut rest = text;
    for _ in 0..FRAME_COUNT {
        let (reply, length) = again!(refusals, _, first_reply(alloc, rest));
        tell_reply(rt, &reply)?;
        rest = rest.get(length..).unwrap_or(&[]);
    }
    if !rest.is_empty() {
        bail!("more is written than the replies");
    }
    Ok(())
}

/// Tells what a serving that was not refused memory wrote. What one wrote that was refused it, if there was one, is a front of that.
pub(crate) fn tell_served(
    rt: &HostRuntime,
    alloc: Global,
    refusals: &mut Refusals,
    cut: Option<Vec<u8>>,
    whole: Served,
) -> Result<()> {
    let (text, ended) = whole;
    let served = ended?;
    if let Some(cut) = cut {
        if !text.starts_with(cut.as_slice()) {
            bail!("what was written before memory was refused is no front of the replies");
        }
    }
    tell_replies(rt, alloc, refusals, text.as_slice())?;
    println!(rt; "served {served}")?;
    Ok(())
}

/// Whether a serving ended since memory was refused, and notes that.
pub(crate) fn is_cut(refusals: &mut Refusals, served: &Served) -> bool {
    let cut = served.1 == Err(ServeFault::NoMemory);
    if cut {
        refusals.add();
    }
    cut
}
