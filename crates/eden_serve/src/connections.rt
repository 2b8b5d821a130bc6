//! A number of connections, each in a thread of its own, and the audit after them.

ghost use Rattle.std.specs.Prelude.{◌≡◌, ℕ, List, [], Option, Err, IfOk, IfErr};
ghost use Rattle.eden_script.specs.declared.label.Binding.{Binding};
ghost use Rattle.eden_serve.specs.Endings.{Ran, ServingEnds};
ghost use Rattle.eden_serve.specs.declared.program.Desks.{Desks};

use crate::auditing::close;
use crate::changes::{AtDesk, AuditedMount, Lines, ObservedChanger, Service};
use crate::end_of_lines::end_lines;
use crate::fault::DaemonFault;
use crate::observing::Observer;
use crate::program::{Desks, Until};
use eden_accumulate::Mount;
use eden_edend::run_changes;
use eden_ids::{GitNaming, NoMemory};
use eden_shared::{
    Audited, CallLog, CallersSpent, Desk, OpenGate, Pass, Shared, serve_shared,
    serve_shared_writable,
};
use eden_sockets::{Listener, Stream};
use eden_stream::{Counted, CountedRead, CountedWrite, RunFault, ServeFault};
use std::alloc::Global;
use std::sync::Wait;
use std::sync::ledger::{Blank, Ledger};
use std::thread;
use std::thread::{JoinHandle, Scope, Threads};

/// What desks have noted, and their passes.
#[derive(Drop)]
struct Kept<L: Ledger> {
    passes: Vec<Pass<L>>,
    logs: Vec<CallLog>,
}

impl<L: Ledger> Kept<L> {
    /// Makes one that has no pass and no log.
    fn new(alloc: Global) -> Kept<L> {
        Kept {
            passes: Vec::new(alloc),
            logs: Vec::new(alloc),
        }
    }

    /// Takes the pass and the log of a desk.
    fn add(&mut self, desk: Desk<L>) -> Result<(), NoMemory> {
        let (pass, log) = desk.finish();
        self.passes.push(pass)?;
        self.logs.push(log)?;
        Ok(())
    }

    /// Joins threads, and takes their desks.
    fn join(
        &mut self,
        rt: &impl Threads,
        threads: Vec<JoinHandle<Desk<L>>>,
    ) -> Result<(), NoMemory> {
        for thread in threads {
            self.add(thread.join(rt))?;
        }
        Ok(())
    }
}

/// What a connection's thread begins with.
#[derive(Drop)]
struct Serving<L: Ledger> {
    desk: Desk<L>,
    /// Whether the connection may change the mount.
    writable: bool,
}

/// Serves a connection to its end. The observer hears of a frame that can't be answered.
fn serve_one<L: Ledger, V: Observer>(
    rt: &impl Wait,
    alloc: Global,
    shared: &AuditedMount<L>,
    serving: Serving<L>,
    stream: Stream,
    observer: &V,
) -> Desk<L> {
    let Serving { mut desk, writable } = serving;
    let mut reader = Counted::new(&stream);
    let mut writer = Counted::new(&stream);
    let served = if writable {
        serve_shared_writable(
            rt,
            alloc,
            &mut reader,
            &mut writer,
            shared,
            &mut desk,
            &OpenGate,
        )
    } else {
        serve_shared(
            rt,
            alloc,
            &mut reader,
            &mut writer,
            shared,
            &mut desk,
            &OpenGate,
        )
    };
    if let Err(ServeFault::Frame { number, fault }) = served {
        observer.frame_refused(number, fault);
    }
    desk
}

/// Accepts a connection, and serves it in a thread of its own.
///
/// Returns the desk if there is no such thread. It has then served the connection, if one was
/// accepted.
fn accept_one<'s, E, L: Ledger + Send + Sync + 's, R: Threads + Wait + Sync, V: Observer + Sync>(
    scope: &Scope<'s, E>,
    rt: &'s R,
    alloc: Global,
    shared: &'s AuditedMount<L>,
    listener: &Listener,
    serving: Serving<L>,
    observer: &'s V,
) -> Result<JoinHandle<Desk<L>>, Desk<L>> {
    let Ok(stream) = listener.accept() else {
        let Serving { desk, .. } = serving;
        return Err(desk);
    };
    match scope.spawn(move || serve_one(rt, alloc, shared, serving, stream, observer)) {
        Ok(thread) => Ok(thread),
        Err(kept) => Err((kept.value)()),
    }
}

/// Accepts a connection for each of these desks, and serves all to their ends.
fn accept_all<'s, E, L: Ledger + Send + Sync + 's, R: Threads + Wait + Sync, V: Observer + Sync>(
    scope: &Scope<'s, E>,
    rt: &'s R,
    alloc: Global,
    shared: &'s AuditedMount<L>,
    listener: &Listener,
    servings: Vec<Serving<L>>,
    observer: &'s V,
) -> Result<Kept<L>, NoMemory> {
    let mut kept = Kept::new(alloc);
    let mut threads = Vec::new(alloc);
    for serving in servings {
        match accept_one(scope, rt, alloc, shared, listener, serving, observer) {
            Ok(thread) => threads.push(thread)?,
            Err(desk) => kept.add(desk)?,
        }
    }
    kept.join(rt, threads)?;
    Ok(kept)
}

/// Serves a connection for each of these desks, and returns what they keep.
fn serve_all<L: Ledger + Send + Sync, R: Threads + Wait + Sync, V: Observer + Sync>(
    rt: &R,
    alloc: Global,
    shared: &AuditedMount<L>,
    listener: &Listener,
    servings: Vec<Serving<L>>,
    observer: &V,
) -> Result<Kept<L>, NoMemory> {
    thread::scope(
        thread::scope_env(),
        rt,
        |scope| -> Result<Kept<L>, NoMemory> {
            accept_all(scope, rt, alloc, shared, listener, servings, observer)
        },
    )
}

/// What the writer's thread begins with.
#[derive(Drop)]
struct Writing<'a, L: Ledger, I: CountedRead> {
    desk: Desk<L>,
    lines: Lines<'a, I>,
}

/// What the writer's thread ends with.
#[derive(Drop)]
struct Wrote<L: Ledger> {
    desk: Desk<L>,
    ran: Result<u64, RunFault>,
}

/// Makes the changes of the lines at a desk, to the end of the input or the first fault.
///
/// The observer hears of each change that is refused, and of a line that can't be read.
#[tactic(auto, using(crate::proofs::LinesEnding::ran))]
fn write_lines<L: Ledger, R: Wait, I: CountedRead, V: Observer>(
    rt: &R,
    alloc: Global,
    shared: &AuditedMount<L>,
    writing: Writing<'_, L, I>,
    observer: &V,
) -> Wrote<L>
    ensures { Ran writing.entry.lines.labels writing.entry.lines.from (I.remaining writing.entry.lines.input.now) result.ran }
{
    let Writing { mut desk, lines } = writing;
    let place = AtDesk {
        rt,
        shared,
        desk: &mut desk,
    };
    let mut writer = ObservedChanger { place, observer };
    let Lines {
        input,
        labels,
        from,
    } = lines;
    let ran = run_changes(alloc, input, &labels, from, &mut writer);
    if let Err(RunFault::BadLine(number)) = ran {
        observer.line_refused(number);
    }
    Wrote { desk, ran }
}

/// What all threads end with.
#[derive(Drop)]
struct Ended<L: Ledger> {
    kept: Kept<L>,
    /// How the lines have ended.
    ran: Result<u64, RunFault>,
}

/// Runs the lines in one thread, and a connection for each desk in its own, and joins all.
///
/// A desk whose connection can't be accepted does nothing. If no thread can be made, the connection
/// is served here, and the lines are run after the last connection. `NoMemory` if an allocation
/// fails, once all threads have ended.
fn run_threads<
    L: Ledger + Send + Sync,
    R: Threads + Wait + Sync,
    I: CountedRead + Send,
    V: Observer + Sync,
>(
    rt: &R,
    alloc: Global,
    shared: &AuditedMount<L>,
    listener: &Listener,
    servings: Vec<Serving<L>>,
    writing: Writing<'_, L, I>,
    observer: &V,
) -> Result<Ended<L>, NoMemory>
    ensures { IfOk result (λ ended. Ran writing.entry.lines.labels writing.entry.lines.from (I.remaining writing.entry.lines.input.now) ended.ran) }
{
    let (wrote, kept) = thread::join(
        rt,
        move || write_lines(rt, alloc, shared, writing, observer),
        move || serve_all(rt, alloc, shared, listener, servings, observer),
    );
    let Wrote { desk, ran } = wrote;
    let mut kept = kept?;
    kept.add(desk)?;
    Ok(Ended { kept, ran })
}

/// Makes a mount that stores its history from now on.
fn store_history(alloc: Global, mount: Mount<GitNaming>) -> Result<Audited<GitNaming>, NoMemory>
    ensures { IfOk result (λ audited. audited ≡ record { opening = mount; present = mount; entries = [] }) }
{
    match Audited::new(alloc, mount) {
        Ok(audited) => Ok(audited),
        Err(_) => Err(NoMemory),
    }
}

/// Opens a desk at a lock. `CallersSpent` if the lock has given all its passes.
fn open_desk<L: Ledger>(
    rt: &impl Wait,
    alloc: Global,
    shared: &AuditedMount<L>,
) -> Result<Desk<L>, CallersSpent> {
    let pass = shared.pass(rt)?;
    Ok(Desk::new(alloc, pass))
}

/// Opens a desk at a lock for each connection.
#[tactic(auto, using(crate::proofs::Ending::no_connection, crate::proofs::Ending::no_memory))]
fn open_desks<L: Ledger>(
    rt: &impl Wait,
    alloc: Global,
    shared: &AuditedMount<L>,
    desks: Desks,
) -> Result<Vec<Serving<L>>, DaemonFault>
    ensures { IfErr result (λ fault. (w : Option (List ℕ)) → (labels : List Binding) (from : ℕ) (r : Option (List ℕ)) → ServingEnds labels from (Until.Connections desks) r w w (Err fault)) }
{
    let mut servings = Vec::new(alloc);
    for _ in 0..desks.count {
        let Ok(desk) = open_desk(rt, alloc, shared) else {
            return Err(DaemonFault::NoConnection);
        };
        let serving = Serving {
            desk,
            writable: desks.writable,
        };
        if servings.push(serving).is_err() {
            return Err(DaemonFault::Script(RunFault::NoMemory));
        }
    }
    Ok(servings)
}

/// Opens a desk for the lines and one for each connection, and runs all threads to their ends.
#[tactic(auto, using(crate::proofs::Ending::no_connection, crate::proofs::Ending::no_memory))]
fn run_desks<
    L: Ledger + Send + Sync,
    R: Threads + Wait + Sync,
    I: CountedRead + Send,
    V: Observer + Sync,
>(
    rt: &R,
    alloc: Global,
    shared: &AuditedMount<L>,
    listener: &Listener,
    lines: Lines<'_, I>,
    desks: Desks,
    observer: &V,
) -> Result<Ended<L>, DaemonFault>
    ensures ran { IfOk result (λ ended. Ran lines.entry.labels lines.entry.from (I.remaining lines.entry.input.now) ended.ran) }
    ensures unwritten { IfErr result (λ fault. (w : Option (List ℕ)) → (labels : List Binding) (from : ℕ) (r : Option (List ℕ)) → ServingEnds labels from (Until.Connections desks) r w w (Err fault)) }
{
    let Ok(desk) = open_desk(rt, alloc, shared) else {
        return Err(DaemonFault::NoConnection);
    };
    let servings = match open_desks(rt, alloc, shared, desks) {
        Ok(servings) => servings,
        Err(fault) => return Err(fault),
    };
    let writing = Writing { desk, lines };
    match run_threads(rt, alloc, shared, listener, servings, writing, observer) {
        Ok(ended) => Ok(ended),
        Err(_) => Err(DaemonFault::Script(RunFault::NoMemory)),
    }
}

/// Audits what the threads have noted, writes what that found, and returns how the daemon ends.
#[tactic(auto, using(crate::proofs::Ending::audit_failed))]
fn end<L: Ledger, W: CountedWrite>(
    alloc: Global,
    shared: AuditedMount<L>,
    ended: Ended<L>,
    writer: &mut W,
) -> Result<(), DaemonFault>
    ensures { (labels : List Binding) → (from : ℕ) (desks : Desks) (input : Option (List ℕ)) → Ran labels from input ended.ran → ServingEnds labels from (Until.Connections desks) input (W.contents writer.old) (W.contents writer.new) result }
{
    let Ended { kept, ran } = ended;
    let Kept { passes, logs } = kept;
    match close(alloc, shared, passes, logs, writer) {
        Ok(_agreed) => end_lines(ran),
        Err(fault) => Err(fault),
    }
}

/// Serves connections at a lock while the lines run, and audits them.
///
/// The lock is owned here, and only lent to what can fail: each way out drops all that it holds.
fn serve_locked<
    L: Ledger + Send + Sync,
    R: Threads + Wait + Sync,
    I: CountedRead + Send,
    W: CountedWrite,
    V: Observer + Sync,
>(
    rt: &R,
    alloc: Global,
    shared: AuditedMount<L>,
    listener: &Listener,
    lines: Lines<'_, I>,
    desks: Desks,
    writer: &mut W,
    observer: &V,
) -> Result<(), DaemonFault>
    ensures { ServingEnds lines.entry.labels lines.entry.from (Until.Connections desks) (I.remaining lines.entry.input.now) (W.contents writer.old) (W.contents writer.new) result }
{
    match run_desks(rt, alloc, &shared, listener, lines, desks, observer) {
        Ok(ended) => end(alloc, shared, ended, writer),
        Err(fault) => Err(fault),
    }
}

/// Serves connections while the lines run, audits them, and writes what that found.
///
/// It is as `serve_listener` says, with this kind of ledger in the lock.
#[tactic(auto, using(crate::proofs::Ending::no_memory))]
pub(crate) fn serve_connections<
    L: Ledger + Send + Sync,
    R: Threads + Wait + Sync,
    I: CountedRead + Send,
    W: CountedWrite,
    V: Observer + Sync,
>(
    rt: &R,
    alloc: Global,
    blank: Blank,
    service: Service<'_, I>,
    desks: Desks,
    writer: &mut W,
    observer: &V,
) -> Result<(), DaemonFault>
    requires name { blank.name ≡ L.name }
    requires parts { blank.parts ≡ L.parts }
    requires whole { blank.parts ≡ 256 }
    ensures ends { ServingEnds service.entry.lines.labels service.entry.lines.from (Until.Connections desks) (I.remaining service.entry.lines.input.now) (W.contents writer.old) (W.contents writer.new) result }
{
    let Service {
        mount,
        listener,
        lines,
    } = service;
    match store_history(alloc, mount) {
        Ok(audited) => {
            let shared: AuditedMount<L> = Shared::new(audited, blank);
            serve_locked(rt, alloc, shared, &listener, lines, desks, writer, observer)
        }
        Err(_) => Err(DaemonFault::Script(RunFault::NoMemory)),
    }
}
