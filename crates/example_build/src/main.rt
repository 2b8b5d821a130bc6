//! How a build tool keeps up with a working copy: two threads write files, and a follower tells which of them a build has to look at.
#![tactic(auto)]

ghost use Rattle.std.specs.Prelude.{◌≡◌, [], IfOk};

use eden_accumulate::Mount;
use eden_follow::{Follower, vouch};
use eden_globs::Filter;
use eden_history::Change;
use eden_ids::{Content, GitNaming, Id, Kind, Path};
use eden_messages::Reply;
use eden_objects::Store;
use eden_shared::{Audited, CallLog, Desk, OpenGate, Pass, Shared, audit};
use std::alloc::Global;
use std::marker::Brand;
use std::sync::Wait;
use std::sync::ledger::{Blank, Ledger};
use std::thread;
use std::thread::Threads;

/// A mount that several threads change and ask.
type Tree<L> = Shared<GitNaming, Audited<GitNaming>, L>;

/// What each of the threads writes.
const FILES: [[&str; 2]; 2] = [["src/lex.rs", "src/main.rs"], ["src/main.rs", "README.md"]];

/// What a thread begins with: a desk, and which files it is to write.
#[derive(Drop)]
struct Job<L: Ledger> {
    desk: Desk<L>,
    files: [&'static str; 2],
}

/// What desks hand back.
#[derive(Drop)]
struct Ended<L: Ledger> {
    passes: Vec<Pass<L>>,
    logs: Vec<CallLog>,
}

impl<L: Ledger> Ended<L> {
    /// Nothing yet.
    fn none(alloc: Global) -> Ended<L> {
        Ended {
            passes: Vec::new(alloc),
            logs: Vec::new(alloc),
        }
    }

    /// Takes what one desk hands back.
    fn add(&mut self, back: (Pass<L>, CallLog)) -> anyhow::Result<()> {
        let (pass, log) = back;
        self.passes.push(pass)?;
        self.logs.push(log)?;
        Ok(())
    }
}

/// Writes a text to each file of a job.
fn write_files<L: Ledger>(
    rt: &impl Wait,
    alloc: Global,
    tree: &Tree<L>,
    job: Job<L>,
) -> anyhow::Result<(Pass<L>, CallLog)> {
    let Job { mut desk, files } = job;
    for file in files {
        let path = Path::parse(alloc, file.as_bytes())?;
        let Content { kind, bytes } = Content::from_bytes(alloc, Kind::Plain, b"text")?;
        desk.change(rt, tree, &Change::Write { path, kind, bytes })?;
    }
    Ok(desk.finish())
}

/// A desk for each job.
fn open_jobs<L: Ledger>(
    rt: &impl Wait,
    alloc: Global,
    tree: &Tree<L>,
) -> anyhow::Result<Vec<Job<L>>> {
    let mut jobs = Vec::new(alloc);
    for files in FILES {
        let desk = Desk::new(alloc, tree.pass(rt)?);
        jobs.push(Job { desk, files })?;
    }
    Ok(jobs)
}

/// Does each job in a thread, and takes what the desks hand back.
fn write_all<L: Ledger + Send + Sync, R: Threads + Wait + Sync>(
    rt: &R,
    alloc: Global,
    tree: &Tree<L>,
    ended: &mut Ended<L>,
) -> anyhow::Result<()> {
    let jobs = open_jobs(rt, alloc, tree)?;
    for done in thread::map_vec(rt, jobs, &|job| write_files(rt, alloc, tree, job))? {
        ended.add(done?)?;
    }
    Ok(())
}

/// Prints below which directories any file may have changed, since these were renamed.
fn print_renamed(rt: &impl Print, prefixes: &[Path]) -> anyhow::Result<()> {
    for prefix in prefixes {
        let path = str::from_utf8(prefix.as_bytes())?;
        println!(rt; "Renamed {path}/")?;
    }
    Ok(())
}

/// Prints which files and directories changed, each in byte order, where a reply tells that.
fn print_changes(rt: &impl Print, reply: &Reply) -> anyhow::Result<()> {
    if let Reply::ChangesAre {
        marked,
        prefixes,
        ..
    } = reply
    {
        for change in marked.as_slice() {
            let path = str::from_utf8(change.path.as_bytes())?;
            println!(rt; "{:?} {path}", change.mark)?;
        }
        print_renamed(rt, prefixes.as_slice())?;
    }
    Ok(())
}

/// Asks what is outstanding, and takes the replies: first the list of what changed, and then the files' contents.
fn take_step<L: Ledger>(
    rt: &(impl Wait + Print),
    tree: &Tree<L>,
    desk: &mut Desk<L>,
    follower: &mut Follower,
) -> anyhow::Result<()> {
    for request in follower.step()? {
        let (ticket, reply) = desk.ask(rt, tree, &request, &OpenGate)?;
        print_changes(rt, &reply)?;
        follower.deliver(ticket, &reply)?;
    }
    Ok(())
}

/// A mount of the empty commit, which stores what is done to it.
fn open_mount(alloc: Global) -> anyhow::Result<Audited<GitNaming>>
    ensures { IfOk result (λ audited. audited.entries ≡ []) }
{
    let mount = Mount::mount(alloc, Store::new(alloc, GitNaming), Id::ZERO, 1, 1_000_000)?;
    Ok(Audited::new(alloc, mount)?)
}

/// Two threads write while a follower waits, and then it tells what changed.
fn work<L: Ledger + Send + Sync, R: Threads + Wait + Print + Sync>(
    rt: &R,
    alloc: Global,
    tree: &Tree<L>,
    desk: &mut Desk<L>,
    follower: &mut Follower,
    ended: &mut Ended<L>,
) -> anyhow::Result<()> {
    take_step(rt, tree, desk, follower)?;
    write_all(rt, alloc, tree, ended)?;
    take_step(rt, tree, desk, follower)?;
    take_step(rt, tree, desk, follower)
}

/// Works at a desk of the follower's own. Gives what all desks hand back.
fn work_at_desks<L: Ledger + Send + Sync, R: Threads + Wait + Print + Sync>(
    rt: &R,
    alloc: Global,
    tree: &Tree<L>,
    follower: &mut Follower,
) -> anyhow::Result<Ended<L>> {
    let mut desk = Desk::new(alloc, tree.pass(rt)?);
    let mut ended = Ended::none(alloc);
    work(rt, alloc, tree, &mut desk, follower, &mut ended)?;
    ended.add(desk.finish())?;
    Ok(ended)
}

/// Audits what was done, by what the desks noted, and vouches for the follower.
fn check(
    rt: &impl Print,
    alloc: Global,
    audited: &mut Audited<GitNaming>,
    logs: &[CallLog],
    follower: &Follower,
) -> anyhow::Result<()> {
    audit(alloc, audited, logs)?;
    vouch(alloc, logs, follower)?;
    println!(rt; "{} files", follower.mirror().files()?.len())?;
    println!(rt; "{} calls, as the logs say", audited.entries().len())?;
    Ok(())
}

/// Takes the mount back from the lock, and checks what was done.
fn close<L: Ledger>(
    rt: &impl Print,
    alloc: Global,
    tree: Tree<L>,
    ended: Ended<L>,
    follower: &Follower,
) -> anyhow::Result<()> {
    let Ended { passes, logs } = ended;
    let mut audited = tree.finish(passes)?;
    check(rt, alloc, &mut audited, logs.as_slice(), follower)
}

/// Mounts the empty commit behind a lock, works there, and checks that.
fn build<L: Ledger + Send + Sync, R: Threads + Wait + Print + Sync>(
    rt: &R,
    alloc: Global,
    blank: Blank,
) -> anyhow::Result<()>
    requires name { blank.name ≡ L.name }
    requires parts { blank.parts ≡ L.parts }
    requires whole { blank.parts ≡ 256 }
{
    let filter = Filter::parse(alloc, &[b"src/**"])?;
    let tree: Tree<L> = Shared::new(open_mount(alloc)?, blank);
    let mut follower = Follower::new(alloc, 1, 1, filter);
    let ended = work_at_desks(rt, alloc, &tree, &mut follower)?;
    close(rt, alloc, tree, ended, &follower)
}

fn main(rt: HostRuntime) -> anyhow::Result<()> {
    build::<Brand, HostRuntime>(&rt, rt.alloc(), Blank::new(256))
}
