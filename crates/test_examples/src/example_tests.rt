//! The examples at the heads of the libraries, each of which runs.

// The body of each function `CRATE_example` but its last line is the text of the example at the head of that crate's lib.rt, and must
// stay so: docs/examples.py, which `./test` runs, compares them. There a call of a function of this crate stands for its body. An
// example lends what it makes to such a function, and does not work with it itself: CONTRIBUTING.md, "Cheap tests", says why.

ghost use Rattle.std.specs.Prelude.{◌≡◌};
ghost use Rattle.eden_history.specs.Worlds.{WorldState};

use crate::following::following;
use crate::locks::{eden_shared_head, eden_shared_logged, eden_shared_unlogged};
use crate::mounts::{
    eden_accumulate_example, eden_checkout_example, eden_ranges_example, eden_renames_example,
    eden_workcopy_example,
};
use eden_follow::Follower;
use eden_ids::GitNaming;
use eden_objects::Store;
use eden_segments::{Counted, Table};
use eden_shared::Origin;
use std::alloc::Global;
use std::fs::{File, Files};
use std::marker::Brand;
use std::net::{Net, TcpListener, TcpStream};
use std::process::Abort;
use std::sync::Wait;
use std::sync::ledger::{Blank, Ledger};
use std::test::Fail;
use std::thread::Threads;
use std::time::Clock;
use test_serve::free_port;

#[test]
fn examples(rt: HostRuntime) -> Result<(), Fail> {
    let alloc = rt.alloc();
    eden_ids_example(&rt, alloc)?;
    eden_stream_example(&rt, alloc)?;
    eden_globs_example(&rt, alloc)?;
    eden_lanes_example(&rt, alloc)?;
    eden_segments_example(&rt, alloc)?;
    eden_sockets_example(&rt)?;
    eden_overlay_example(&rt, alloc)?;
    eden_git_example(&rt, alloc)?;
    eden_objects_example(&rt, alloc)?;
    eden_batch_example(&rt, alloc)?;
    eden_treediff_example(&rt, alloc)?;
    eden_journal_example(&rt, alloc)?;
    eden_history_example(&rt, alloc)?;
    eden_messages_example(&rt, alloc)?;
    eden_wire_example(&rt, alloc)?;
    eden_mirror_example(&rt, alloc)?;
    eden_logs_example(&rt, alloc)?;
    eden_headline_example(&rt, alloc)?;
    eden_follow_example(&rt, alloc)?;
    eden_renames_example(&rt, alloc)?;
    eden_workcopy_example(&rt, alloc)?;
    eden_checkout_example(&rt, alloc)?;
    eden_ranges_example(&rt, alloc)?;
    eden_accumulate_example(&rt, alloc)?;
    eden_query_example(&rt, alloc)?;
    let (blank, other) = (Blank::new(256), Blank::new(2048));
    eden_shared_example::<HostRuntime, Brand, Brand>(&rt, alloc, blank, other)?;
    eden_script_example(&rt, alloc)?;
    eden_edend_example(&rt, alloc)?;
    eden_demo_example(&rt, alloc)?;
    eden_connect_example(&rt, alloc)?;
    eden_serve_example(&rt, alloc, free_port(&rt)?)?;
    eden_programs_example(&rt, alloc)?;
    eden_world_example(&rt, alloc)?;
    test_kit_example(&rt, alloc)?;
    test_devices_example(&rt, alloc)?;
    test_serve_example(&rt, alloc)?;
    following(&rt, alloc)
}

fn eden_ids_example(rt: &impl Abort, alloc: Global) -> Result<(), Fail> {
    use bytes::Bytes;
    use eden_ids::{Content, Files, GitNaming, Kind, Naming, Path};

    let file = Path::parse(alloc, b"src/lib.rs".as_slice())?;
    let directory = Path::parse(alloc, b"src".as_slice())?;
    assert!(rt; file.is_below(&directory));

    // The id that Git gives a file of these bytes.
    let id = GitNaming.id_of(b"blob".as_slice(), b"hello\n".as_slice());
    assert!(rt; id.to_hex().as_slice() == b"ce013625030ba8dba906f756967f9e9ca394464a".as_slice());

    // A map of one file.
    let mut files = Files::new(alloc);
    let content = Content {
        kind: Kind::Plain,
        bytes: Bytes::new(),
    };
    files.insert(file.copy()?, content)?;
    assert!(rt; files.get(&file).is_some());
    Ok(())
}

fn eden_stream_example(rt: &impl Abort, alloc: Global) -> Result<(), Fail> {
    use eden_stream::{Counted, Faults, FrameFault, ServeFault};
    use std::io::Read;

    let mut reader = Counted::new(b"some bytes".as_slice());
    let mut place = [0; 4];
    assert_eq!(rt; reader.read(&mut place)?, 4);
    assert_eq!(rt; (reader.calls(), reader.faults()), (1, 0));
    // What ended the serving of frames.
    let fault = ServeFault::Frame {
        number: 2,
        fault: FrameFault::TooLarge,
    };
    assert!(rt; format!(in alloc; "{fault}")?.as_bytes() == b"frame 2: TooLarge".as_slice());
    Ok(())
}

fn eden_globs_example(rt: &impl Abort, alloc: Global) -> Result<(), Fail> {
    use eden_globs::Filter;
    use eden_ids::Path;

    let filter = Filter::parse(alloc, &[b"src/**".as_slice(), b"*.md".as_slice()])?;
    assert!(rt; filter.admits(&Path::parse(alloc, b"src/lib.rs".as_slice())?));
    assert!(rt; filter.admits(&Path::parse(alloc, b"README.md".as_slice())?));
    assert!(rt; !filter.admits(&Path::parse(alloc, b"docs/formats.md".as_slice())?));

    let sources = filter.except(&Filter::parse(alloc, &[b"**/*.md".as_slice()])?)?;
    assert!(rt; sources.admits(&Path::parse(alloc, b"src/lib.rs".as_slice())?));
    assert!(rt; !sources.admits(&Path::parse(alloc, b"README.md".as_slice())?));
    Ok(())
}

fn eden_lanes_example(rt: &impl Abort, alloc: Global) -> Result<(), Fail> {
    use eden_ids::{Id, IdColumn};
    use eden_lanes::{differ_rows, find_row};

    let mut before = IdColumn::new(alloc);
    let mut after = IdColumn::new(alloc);
    for row in 0..9 {
        before.push(Id([row; 20]))?;
        after.push(Id([if row == 8 { 255 } else { row }; 20]))?;
    }
    assert_eq!(rt; before.len(), after.len());
    assert!(rt; differ_rows(alloc, &before, &after)?.as_slice() == [8].as_slice());
    assert_eq!(rt; find_row(&after, Id([255; 20])), Some(8));
    Ok(())
}

fn eden_segments_example(rt: &impl Abort, alloc: Global) -> Result<(), Fail> {
    use eden_ids::Id;
    use eden_segments::{Counted, Table};

    let mut table = Table::new(alloc);
    table.add(Id([1; 20]), Counted::new(alloc, 1)?)?;
    eden_segments_copied(rt, alloc, &mut table)
}

fn eden_segments_copied(
    rt: &impl Abort,
    alloc: Global,
    table: &mut Table<Counted<i32>>,
) -> Result<(), Fail> {
    use eden_ids::Id;
    use eden_segments::Counted;

    // A copy keeps its rows, and each of the two tables grows by itself.
    let copy = table.share()?;
    if table.get(Id([2; 20])).is_none() {
        table.add(Id([2; 20]), Counted::new(alloc, 2)?)?;
    }
    assert!(rt; copy.get(Id([1; 20])).is_some_and(|value| **value == 1));
    assert!(rt; table.get(Id([2; 20])).is_some() && copy.get(Id([2; 20])).is_none());
    Ok(())
}

fn eden_sockets_example<
    R: Abort + Files<File = File> + Net<Listener = TcpListener, Stream = TcpStream>,
>(rt: &R) -> Result<(), Fail> {
    use eden_sockets::{Listener, Place, SocketPath};
    use std::io::{Read, Write};

    let place = Place::Socket(SocketPath::new("example.socket")?);
    let listener = Listener::open(rt, place)?;
    let asking = place.connect(rt)?;
    let asked = listener.accept()?;
    (&asking).write_all(b"ping".as_slice())?;
    let mut said = [0; 4];
    (&asked).read_exact(&mut said)?;
    assert!(rt; said == *b"ping");
    // Both files stay until they are removed, or the next one who listens takes them over.
    drop(listener);
    place.remove_files(rt);
    Ok(())
}

fn eden_overlay_example(rt: &impl Abort, alloc: Global) -> Result<(), Fail> {
    use bytes::Bytes;
    use eden_ids::{Content, Kind, Path};
    use eden_overlay::Overlay;

    let notes = Path::parse(alloc, b"notes".as_slice())?;
    let empty = Content {
        kind: Kind::Plain,
        bytes: Bytes::new(),
    };
    let mut overlay = Overlay::new(alloc);
    overlay.set(notes.copy()?, Some(empty))?;
    // The file is there, of another path nothing is said.
    assert!(rt; overlay.get(notes.as_bytes()).is_some());
    assert!(rt; overlay.get(b"other".as_slice()).is_none());
    // That no file is there is an entry too, until it is forgotten.
    overlay.set(notes.copy()?, None)?;
    assert!(rt; overlay.get(notes.as_bytes()).is_some());
    overlay.forget(notes.as_bytes());
    assert!(rt; overlay.get(notes.as_bytes()).is_none());
    Ok(())
}

fn eden_git_example(rt: &impl Abort, alloc: Global) -> Result<(), Fail> {
    use eden_git::{number, tree_named};

    let commit = b"tree 4b825dc642cb6eb9a060e54bf8d69288fbee4904\n".as_slice();
    let tree = tree_named(commit);
    assert!(rt; tree.is_some());
    assert_eq!(rt; number(b"65536".as_slice()), Some(65_536));
    assert_eq!(rt; number(b"065536".as_slice()), None);
    Ok(())
}

fn eden_objects_example(rt: &impl Abort, alloc: Global) -> Result<(), Fail> {
    use eden_ids::GitNaming;
    use eden_objects::Store;

    let mut store = Store::new(alloc, GitNaming);
    eden_objects_put(rt, alloc, &mut store)
}

fn eden_objects_put(
    rt: &impl Abort,
    alloc: Global,
    store: &mut Store<GitNaming>,
) -> Result<(), Fail> {
    use eden_ids::Path;

    let file = store.put_blob(b"hello\n".as_slice())?;
    let mut tree = Vec::new(alloc);
    tree.extend_from_slice(b"100644 README\0".as_slice())?;
    tree.extend_from_slice(file.0.as_slice())?;
    let tree = store.put_tree(tree.as_slice())?;
    let mut commit = Vec::new(alloc);
    commit.extend_from_slice(b"tree ".as_slice())?;
    commit.extend_from_slice(tree.to_hex().as_slice())?;
    commit.extend_from_slice(b"\n".as_slice())?;
    let commit = store.put_commit(commit.as_slice())?;
    let readme = Path::parse(alloc, b"README".as_slice())?;
    assert!(rt; matches!(store.lookup(commit, &readme), Ok(Some((_, id))) if id == file));
    eden_objects_shared(rt, alloc, store)
}

fn eden_objects_shared(
    rt: &impl Abort,
    alloc: Global,
    store: &mut Store<GitNaming>,
) -> Result<(), Fail> {
    // A copy keeps the objects that it has, and several objects are imported together, or none of them.
    let copy = store.share()?;
    eden_objects_imported(rt, alloc, store, &copy)
}

fn eden_objects_imported(
    rt: &impl Abort,
    alloc: Global,
    store: &mut Store<GitNaming>,
    copy: &Store<GitNaming>,
) -> Result<(), Fail> {
    use bytes::Bytes;
    use eden_ids::{GitNaming, Naming};
    use eden_objects::{Object, ObjectType};

    let mut objects = Vec::new(alloc);
    for bytes in [b"more\n".as_slice(), b"and more\n".as_slice()] {
        let payload = Bytes::copy_from_slice(alloc, bytes)?;
        objects.push(Object {
            object_type: ObjectType::Blob,
            payload,
        })?;
    }
    store.import(objects.as_slice())?;
    let more = GitNaming.id_of(b"blob".as_slice(), b"more\n".as_slice());
    assert!(rt; store.blob(more).is_some() && copy.blob(more).is_none());
    Ok(())
}

fn eden_batch_example(rt: &impl Abort, alloc: Global) -> Result<(), Fail> {
    use eden_batch::read_objects;
    use eden_ids::GitNaming;
    use eden_objects::Store;
    use eden_stream::Counted;

    let mut store = Store::new(alloc, GitNaming);
    let printed = b"ce013625030ba8dba906f756967f9e9ca394464a blob 6\nhello\n\n".as_slice();
    let ids = read_objects(alloc, &mut Counted::new(printed), &mut store)?;
    assert_eq!(rt; ids.len(), 1);
    assert!(rt; store.blob(ids.as_slice()[0]) == Some(b"hello\n".as_slice()));
    Ok(())
}

fn eden_treediff_example(rt: &impl Abort, alloc: Global) -> Result<(), Fail> {
    use eden_ids::{GitNaming, Id};
    use eden_objects::Store;
    use eden_treediff::diff;

    let store = Store::new(alloc, GitNaming);
    // The empty commit differs from itself nowhere.
    assert!(rt; diff(alloc, &store, Id::ZERO, Id::ZERO)?.is_empty());
    Ok(())
}

fn eden_journal_example(rt: &impl Abort, alloc: Global) -> Result<(), Fail> {
    use eden_ids::{Id, Path};
    use eden_journal::{FileDelta, Journal};

    let mut journal = Journal::new(alloc, 7, Id::ZERO, 1000);
    let delta = FileDelta::created(Path::parse(alloc, b"notes".as_slice())?);
    assert_eq!(rt; journal.add_file(&delta), Ok(2));
    // Nothing before a flush can be listed any more.
    assert_eq!(rt; journal.flush(), Ok(3));
    assert_eq!(rt; (journal.floor(), journal.held()), (3, 0));
    Ok(())
}

fn eden_history_example(rt: &impl Abort, alloc: Global) -> Result<(), Fail> {
    use eden_history::Change;
    use eden_ids::Path;

    // A change is a value: what it does to a mount is said by `specs/Outcome.antt`, and no code here makes it.
    let path = Path::parse(alloc, b"notes".as_slice())?;
    let change = Change::Remove { path };
    assert_eq!(rt; change.copy()?, change);
    Ok(())
}

fn eden_messages_example(rt: &impl Abort, alloc: Global) -> Result<(), Fail> {
    use eden_globs::Filter;
    use eden_messages::{Query, Request};

    let query = Query {
        mirror: 1,
        life: 1,
        number: 1,
    };
    let request = Request::Basis {
        query,
        filter: Filter::all(alloc),
    };
    // A version, a tag, three numbers of eight bytes, and how many patterns there are.
    assert_eq!(rt; request.body_len(), 26 + 1);
    Ok(())
}

fn eden_wire_example(rt: &impl Abort, alloc: Global) -> Result<(), Fail> {
    use eden_ids::Path;
    use eden_messages::{Query, Request};
    use eden_wire::{DecodeFault, decode_request, encode_request};

    let query = Query {
        mirror: 1,
        life: 1,
        number: 1,
    };
    let path = Path::parse(alloc, b"a".as_slice())?;
    let frame = encode_request(alloc, &Request::Fetch { query, path })?;
    // Four bytes of length, and then the body.
    assert_eq!(rt; frame.len(), 4 + 29);
    let request = decode_request(alloc, &frame.as_slice()[4..])?;
    assert!(rt; matches!(request, Request::Fetch { .. }));
    let fault = decode_request(alloc, b"\x01\x03".as_slice());
    assert!(rt; matches!(fault, Err(DecodeFault::Version)));
    Ok(())
}

fn eden_mirror_example(rt: &impl Abort, alloc: Global) -> Result<(), Fail> {
    use eden_globs::Filter;
    use eden_messages::Request;
    use eden_mirror::Mirror;

    let mut mirror = Mirror::new(alloc, 1, 1, Filter::all(alloc));
    assert!(rt; mirror.begin().is_ok());
    // It has no position yet, so it asks for all paths.
    assert!(rt; matches!(mirror.outstanding()?.as_slice(), [Request::Basis { .. }]));
    Ok(())
}

fn eden_logs_example(rt: &impl Abort, alloc: Global) -> Result<(), Fail> {
    use eden_history::Change;
    use eden_ids::Sequence;
    use eden_logs::{CallAnswer, Call, CallLog, LogEntry};

    // A caller that asked for a flush, and was told nothing.
    let entry = LogEntry {
        ticket: 1,
        call: Call::Change(Change::Flush),
        answer: CallAnswer::Unanswered,
    };
    let entries = Sequence::from_vec(vec![in alloc; entry]?);
    let log = CallLog { caller: 1, entries };
    assert_eq!(rt; log.entries.len(), 1);
    Ok(())
}

fn eden_headline_example(rt: &impl Abort, alloc: Global) -> Result<(), Fail> {
    use eden_headline::{import_law, merge_law, schedule_law};

    schedule_law();
    import_law();
    merge_law();
    Ok(())
}

fn eden_follow_example(rt: &impl Abort, alloc: Global) -> Result<(), Fail> {
    use eden_follow::Follower;
    use eden_globs::Filter;

    let mut follower = Follower::new(alloc, 1, 1, Filter::all(alloc));
    eden_follow_stepped(rt, &mut follower)?;
    eden_follow_delivered(rt, alloc, follower)
}

fn eden_follow_stepped(rt: &impl Abort, follower: &mut Follower) -> Result<(), Fail> {
    use eden_messages::Request;

    let requests = follower.step()?;
    assert!(rt; matches!(requests.as_slice(), [Request::Basis { .. }]));
    Ok(())
}

fn eden_follow_delivered(
    rt: &impl Abort,
    alloc: Global,
    mut follower: Follower,
) -> Result<(), Fail> {
    use eden_follow::{VouchFault, vouch};
    use eden_messages::{Cause, Query, Reply};

    assert!(rt; vouch(alloc, &[], &follower).is_ok());
    // No log has this reply.
    let query = Query {
        mirror: 1,
        life: 1,
        number: 1,
    };
    let reply = Reply::Refused {
        query,
        cause: Cause::TooLarge,
    };
    follower.deliver(1, &reply)?;
    assert!(rt; matches!(vouch(alloc, &[], &follower), Err(VouchFault::StrangeReply)));
    Ok(())
}

fn eden_query_example(rt: &impl Abort, alloc: Global) -> Result<(), Fail> {
    use eden_accumulate::Mount;
    use eden_messages::{Query, Request};
    use eden_ids::{GitNaming, Id, Path};
    use eden_objects::Store;
    use eden_query::{encode_request, serve};
    use eden_stream::Counted;

    let query = Query {
        mirror: 1,
        life: 1,
        number: 1,
    };
    let path = Path::parse(alloc, b"a".as_slice())?;
    let frame = encode_request(alloc, &Request::Fetch { query, path })?;

    let store = Store::new(alloc, GitNaming);
    let mut mount = Mount::mount(alloc, store, Id::ZERO, 7, 1000)?;
    let mut replies = Counted::new(Vec::new(alloc));
    let mut requests = Counted::new(frame.as_slice());
    let served = serve(alloc, &mut requests, &mut replies, &mut mount);
    assert_eq!(rt; served, Ok(1));
    Ok(())
}

fn eden_shared_example<R: Abort + Wait, L: Ledger, K: Origin>(
    rt: &R,
    alloc: Global,
    blank: Blank,
    other: Blank,
) -> Result<(), Fail>
    requires name { blank.name ≡ L.name }
    requires parts { blank.parts ≡ L.parts }
    requires whole { blank.parts ≡ 256 }
    requires opens { (world : WorldState) → K.opens world → ⊥ }
    requires other_name { other.name ≡ K.name }
    requires other_parts { other.parts ≡ K.parts }
    requires other_whole { other.parts ≡ 2048 }
{
    eden_shared_logged::<R, L>(rt, alloc, blank)?;
    eden_shared_unlogged::<R, K>(rt, alloc, other)?;
    eden_shared_head(rt, alloc)
}

fn eden_script_example(rt: &impl Abort, alloc: Global) -> Result<(), Fail> {
    use eden_script::words;

    let Some(words) = words(alloc, b"write notes plain to\\sdo".as_slice())? else {
        return Ok(());
    };
    assert_eq!(rt; words.len(), 4);
    assert!(rt; words[3].as_bytes() == b"to do".as_slice());
    Ok(())
}

fn eden_edend_example(rt: &impl Abort, alloc: Global) -> Result<(), Fail> {
    use eden_edend::run;
    use eden_stream::Counted;

    let mut text = Counted::new(Vec::new(alloc));
    let mut script = Counted::new(b"mount empty 7 1000\nposition\n".as_slice());
    assert_eq!(rt; run(alloc, &mut script, &mut text), Ok(2));
    Ok(())
}

fn eden_demo_example<R: Abort + Threads + Wait + Clock + Sync>(
    rt: &R,
    alloc: Global,
) -> Result<(), Fail> {
    use eden_demo::demo;

    let mut text = Vec::new(alloc);
    assert_eq!(rt; demo(rt, alloc, &mut text), Ok(()));
    assert!(rt; text.as_slice() == b"audit ok\nfollowers agree\n".as_slice());
    Ok(())
}

fn eden_connect_example<R: Abort + Net<Stream = TcpStream>>(
    rt: &R,
    alloc: Global,
) -> Result<(), Fail> {
    use eden_connect::{ConnectFault, Quiet, connect_program};
    use eden_globs::Filter;
    use eden_sockets::Place;

    let mut output = Vec::new(alloc);
    let filter = Filter::all(alloc);
    // Mirror 1 in its first life, for one round. Nobody listens on port 1.
    let place = Place::Port(1);
    let ended = connect_program(rt, alloc, &mut output, place, 1, 1, 1, &filter, &mut Quiet);
    assert_eq!(rt; ended, Err(ConnectFault::NoConnection));
    Ok(())
}

fn eden_serve_example<
    R: Abort
        + Threads
        + Wait
        + Clock
        + Files<File = File>
        + Net<Listener = TcpListener, Stream = TcpStream>
        + Sync,
>(rt: &R, alloc: Global, port: u16) -> Result<(), Fail> {
    use eden_edend::Objects;
    use eden_serve::{Daemon, Desks, ScriptInput, Unobserved, Until, run_daemon};
    use eden_sockets::Place;
    use eden_stream::Counted;

    let script = b"mount empty 7 1000\nlisten\nwrite notes plain to\\sdo\n";
    let mut input = ScriptInput::new(alloc, script.as_slice())?;
    let mut text = Vec::new(alloc);
    let mut writer = Counted::new(&mut text);
    // A port that nobody listens at, and no connection.
    let daemon = Daemon {
        objects: Objects::new(alloc),
        place: Place::Port(port),
        until: Until::Connections(Desks {
            count: 0,
            writable: false,
        }),
    };
    let ended = run_daemon(rt, alloc, daemon, &mut input, &mut writer, &Unobserved);
    assert_eq!(rt; ended, Ok(()));
    assert!(rt; text.starts_with(b"at 7 1 empty\nlistening ".as_slice()));
    assert!(rt; text.ends_with(b"\naudit ok\n".as_slice()));
    Ok(())
}

fn eden_programs_example<R: Abort + Threads + Wait + Clock + Net<Stream = TcpStream> + Sync>(
    rt: &R,
    alloc: Global,
) -> Result<(), Fail> {
    use eden_programs::{Screen, follow};

    let mut words = Vec::new(alloc);
    for word in ["follow", "--version"] {
        words.push(String::from_str(alloc, word)?)?;
    }
    let (mut output, mut errors) = (Vec::new(alloc), Vec::new(alloc));
    let words = words.as_slice();
    let status = follow(rt, alloc, words, &mut output, &mut errors, Screen::None);
    assert_eq!(rt; status, 0);
    assert!(rt; output.as_slice() == b"follow 0.1.0\n".as_slice());
    Ok(())
}

fn eden_world_example(rt: &impl Abort, alloc: Global) -> Result<(), Fail> {
    use eden_history::{Answer, Change};
    use eden_ids::{GitNaming, Id};
    use eden_objects::Store;
    use eden_world::World;

    let store = Store::new(alloc, GitNaming);
    let mut world = World::mount(alloc, store, Id::ZERO, 7, 1000)?;
    assert!(rt; matches!(world.apply(&Change::Flush)?, Answer::At(_)));
    assert_eq!(rt; world.position().sequence, 2);
    Ok(())
}

fn test_kit_example(rt: &impl Abort, alloc: Global) -> Result<(), Fail> {
    use eden_ids::Id;
    use test_kit::{commit_of, push_entry};

    test_kit_objects(rt, alloc)?;
    let mut tree = Vec::new(alloc);
    push_entry(&mut tree, "100644", b"notes".as_slice(), Id::ZERO)?;
    assert_eq!(rt; tree.len(), 33);
    assert_eq!(rt; commit_of(alloc, Id::ZERO, "")?.len(), 46);
    Ok(())
}

fn test_kit_objects(rt: &impl Abort, alloc: Global) -> Result<(), Fail> {
    use test_kit::Objects;

    let objects = Objects::of(alloc, "blob x hello;tree t 100644 a x;commit c t")?;
    assert!(rt; objects.store.has_commit(objects.id("c")));
    Ok(())
}

fn test_devices_example(rt: &impl Abort, alloc: Global) -> Result<(), Fail> {
    use test_devices::{Sink, Source};
    use std::io::{Read, Write};

    let mut source = Source::new(b"some bytes");
    source.most = 2;
    let mut place = [0; 4];
    assert_eq!(rt; source.read(&mut place)?, 2);
    let mut sink = Sink::new(alloc);
    sink.write_all(&place[..2])?;
    assert_eq!(rt; sink.bytes.as_slice(), b"so".as_slice());
    Ok(())
}

fn test_serve_example<R: Abort + Clock>(rt: &R, alloc: Global) -> Result<(), Fail> {
    use std::io::Read;
    use std::sync::atomic::AtomicBool;
    use test_serve::Feed;

    let ended = AtomicBool::new(true);
    let mut text = Vec::new(alloc);
    let mut feed = Feed::new(rt, b"listen\n", b"flush\n", b"remount 8\n", &ended);
    assert_eq!(rt; feed.read_to_end(&mut text)?, 17);
    assert!(rt; text.as_slice() == b"listen\nremount 8\n".as_slice());
    Ok(())
}
