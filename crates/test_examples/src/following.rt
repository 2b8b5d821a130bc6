//! A mount, and a mirror that follows it by frames: what a service and a client do, put together.

use eden_accumulate::Mount;
use eden_globs::Filter;
use eden_ids::{GitNaming, Id, Kind, Path};
use eden_messages::{Reply, Request};
use eden_mirror::Mirror;
use eden_objects::Store;
use eden_query::serve;
use eden_stream::Counted;
use eden_wire::{decode_reply, encode_request};
use std::alloc::Global;
use std::process::Abort;
use std::test::Fail;

/// What a service replies to the frame of a request. Here both ends are lists of bytes; they may be any reader and writer.
fn reply_to(alloc: Global, mount: &mut Mount<GitNaming>, request: &Request) -> Result<Reply, Fail> {
    let frame = encode_request(alloc, request)?;
    let mut requests = Counted::new(frame.as_slice());
    let mut written = Vec::new(alloc);
    let mut replies = Counted::new(&mut written);
    serve(alloc, &mut requests, &mut replies, mount)?;
    // Four bytes of length, and then the body.
    let Some(body) = written.get(4..) else {
        return Err(Fail::new("no reply"));
    };
    Ok(decode_reply(alloc, body)?)
}

/// Asks a request, and takes in the reply.
fn ask(
    alloc: Global,
    mount: &mut Mount<GitNaming>,
    mirror: &mut Mirror,
    request: &Request,
) -> Result<(), Fail> {
    let reply = reply_to(alloc, mount, request)?;
    mirror.deliver(&reply)?;
    Ok(())
}

/// Asks all that is outstanding.
fn ask_all(alloc: Global, mount: &mut Mount<GitNaming>, mirror: &mut Mirror) -> Result<(), Fail> {
    let requests = mirror.outstanding()?;
    for request in &requests {
        ask(alloc, mount, mirror, request)?;
    }
    Ok(())
}

/// A round of the mirror: first it asks which paths to fetch, and then for the content of each.
fn follow(alloc: Global, mount: &mut Mount<GitNaming>, mirror: &mut Mirror) -> Result<(), Fail> {
    mirror.begin()?;
    ask_all(alloc, mount, mirror)?;
    ask_all(alloc, mount, mirror)
}

/// A file is written, and the mirror has it after its next round.
fn write_and_follow(
    rt: &impl Abort,
    alloc: Global,
    mount: &mut Mount<GitNaming>,
    mirror: &mut Mirror,
) -> Result<(), Fail> {
    follow(alloc, mount, mirror)?;
    assert_eq!(rt; mirror.position(), Some(mount.position()));

    let path = Path::parse(alloc, b"src/lib.rs".as_slice())?;
    mount.write(&path, Kind::Plain, b"mod mount;\n".as_slice())?;
    follow(alloc, mount, mirror)?;
    assert_eq!(rt; mirror.position(), Some(mount.position()));
    assert!(rt; mirror.get(&path).is_some());
    Ok(())
}

/// A mount of the empty commit, and a mirror that wants what is below `src`.
pub(crate) fn following(rt: &impl Abort, alloc: Global) -> Result<(), Fail> {
    let wanted = Filter::parse(alloc, &[b"src/**".as_slice()])?;
    let store = Store::new(alloc, GitNaming);
    let mut mount = Mount::mount(alloc, store, Id::ZERO, 7, 1000)?;
    let mut mirror = Mirror::new(alloc, 1, 1, wanted);
    write_and_follow(rt, alloc, &mut mount, &mut mirror)
}
