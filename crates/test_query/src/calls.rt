//! Calls with long contracts, one function around each: a test compares what they give, and what they ensure is proved where they are.

use eden_accumulate::Mount;
use eden_globs::Filter;
use eden_ids::{GitNaming, Id};
use eden_messages::Reply;
use eden_objects::Store;
use eden_query::{Raw, ServeFault, Served, answer, serve, serve_writable};
use eden_stream::Counted;
use std::alloc::Global;
use std::io::Read;
use std::test::Fail;
use test_kit::Objects;
use test_wire::{Asked, request_of};

/// What was held for a request, with the objects of then.
pub(crate) type Held = (Raw, Store<GitNaming>);

/// Returns a mount of the empty commit, in generation 7.
pub(crate) fn opened(alloc: Global) -> Result<Mount<GitNaming>, Fail> {
    let store = Store::new(alloc, GitNaming);
    Ok(Mount::mount(alloc, store, Id::ZERO, 7, 1000)?)
}

/// Returns a mount of the commit `c` of these objects, in generation 7.
pub(crate) fn mounted(alloc: Global, objects: &mut Objects) -> Result<Mount<GitNaming>, Fail> {
    let root = objects.id("c");
    let store = objects.store.share()?;
    Ok(Mount::mount(alloc, store, root, 7, 1000)?)
}

/// What a server writes to the frames that a source gives, and how the serving ends.
pub(crate) fn served<T: Served<GitNaming>, R: Read + Drop>(
    alloc: Global,
    source: R,
    server: &mut T,
) -> (Vec<u8>, Result<u64, ServeFault>) {
    let mut written = Vec::new(alloc);
    let mut reader = Counted::new(source);
    let mut writer = Counted::new(&mut written);
    let ended = serve(alloc, &mut reader, &mut writer, server);
    (written, ended)
}

/// The same of frames that may ask for changes.
pub(crate) fn served_writable<T: Served<GitNaming>, R: Read + Drop>(
    alloc: Global,
    source: R,
    server: &mut T,
) -> (Vec<u8>, Result<u64, ServeFault>) {
    let mut written = Vec::new(alloc);
    let mut reader = Counted::new(source);
    let mut writer = Counted::new(&mut written);
    let ended = serve_writable(alloc, &mut reader, &mut writer, server);
    (written, ended)
}

/// Returns what a server holds for a question by its number.
pub(crate) fn hold<T: Served<GitNaming>>(
    alloc: Global,
    server: &mut T,
    number: u64,
    asked: Asked,
) -> Result<Held, Fail> {
    let request = request_of(alloc, number, asked)?;
    Ok(server.hold(1, &request)?)
}

/// Adds what a mount holds for a question.
pub(crate) fn add_held(
    alloc: Global,
    mount: &mut Mount<GitNaming>,
    asked: Asked,
    all: &mut Vec<Held>,
) -> Result<(), Fail> {
    let held = hold(alloc, mount, 1, asked)?;
    Ok(all.push(held)?)
}

/// The reply of what was held, over a store.
pub(crate) fn answered(alloc: Global, raw: &Raw, store: &Store<GitNaming>) -> Result<Reply, Fail> {
    Ok(answer(alloc, raw, store, &Filter::all(alloc))?)
}
