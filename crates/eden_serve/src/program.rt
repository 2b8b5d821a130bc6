//! The program: a script, a listener, and the connections.

ghost use Rattle.std.specs.Prelude.{◌⊎◌, Err, IsErrOf, false};
ghost use Rattle.eden_script.specs.ScriptText.{script_text};
ghost use Rattle.eden_script.specs.Sessions.{first_session, session_over};
ghost use Rattle.eden_serve.specs.Endings.{DaemonEnds, EndsServing, ServingEnds};
ghost use Rattle.eden_stream.specs.Counts.{Rose, RoseBy};

use crate::changes::{Lines, Service};
use crate::connections::serve_connections;
use crate::fault::DaemonFault;
use crate::input::ScriptInput;
use crate::listening::{Listening, listen};
use crate::observing::{Observer, Unobserved};
use crate::staying::serve_input;
use eden_edend::{Objects, Opened};
use eden_sockets::Place;
use eden_stream::{CountedRead, CountedWrite, RunFault};
use std::alloc::Global;
use std::fs::{File, Files};
use std::io::Read;
use std::marker::Brand;
use std::net::{Net, TcpListener, TcpStream};
use std::sync::Wait;
use std::sync::ledger::Blank;
use std::thread::Threads;
use std::time::{Clock, Duration};

/// How long a daemon serves.
#[derive(Clone, Copy, Debug, PartialEq, Eq)]
pub enum Until {
    /// Until some connections have ended, each in a thread of its own.
    ///
    /// All requests and replies are noted, and audited at the end. So are the changes that
    /// connections make, if they may.
    Connections(Desks),
    /// Until the input has ended.
    ///
    /// Nothing is noted, so nothing grows with the number of calls or connections.
    Input(Terms),
}

/// How many connections are served, each at a desk.
#[derive(Clone, Copy, Debug, PartialEq, Eq)]
pub struct Desks {
    /// How many connections.
    pub count: u64,
    /// Whether a connection may change the mount, as in `Terms`.
    pub writable: bool,
}

/// How connections are served until the input has ended.
#[derive(Clone, Copy, Debug, PartialEq, Eq)]
pub struct Terms {
    /// How many connections are served at a time, each in a thread.
    pub threads: u64,
    /// How long a frame that has begun may take to come, a reply to be read, and a place to be
    /// free.
    ///
    /// A connection that takes longer ends. The time between two frames is not limited.
    pub limit: Duration,
    /// Whether a connection may change the mount.
    ///
    /// Anybody who can connect can then change it, and put objects into its store.
    pub writable: bool,
}

/// What a daemon begins with.
#[derive(Drop)]
pub struct Daemon {
    /// The objects of the script's store, and the labels that are bound to some of them.
    pub objects: Objects,
    /// Where it listens.
    pub place: Place,
    /// How long it serves.
    pub until: Until,
}

/// Serves what a script has opened, while the lines after `listen` change it.
///
/// The listener accepts the connections. A connection ends when its peer ends it, with a fault, or
/// after 1,000,000 reads. That ends no other. The lines are run as `eden_edend::run_changes` does.
/// The observer hears of each change of theirs that is refused and of each frame that can't be
/// answered.
///
/// - `Connections`: each connection is served by `eden_shared::serve_shared`, or by
///   `serve_shared_writable` if it may change the mount. One that can't be accepted counts as one
///   that has ended. If no thread can be made, a connection is served before the next one is
///   accepted, and the lines are run after the last. All callers note their calls and the answers.
///   When all have ended, an audit compares these notes with the mount's history.
///   `audit ok` is written if they agree, and else `audit` and the name of the fault. The observer
///   also hears of a line that can't be read.
/// - `Input`: each thread accepts the next connection when its last one has ended. If not all of
///   the threads can be made, there are fewer. A connection also ends when its peer is slower than
///   the limit. While all threads serve, one more connection is accepted, and ends if none of them
///   has ended its own within the limit. Once the input has ended, or a line has a fault, no
///   connection is accepted any more. Those that are open end within 200 ms or so, whatever their
///   peers do. What is not read or not written by then is lost. The observer also hears of each
///   peer that is too slow, of each connection that found no place, and each time that the last
///   place is taken. Nothing is written.
///
///   Each connection is served by `eden_shared::serve_unlogged`. If the terms are writable, each
///   thread has a pass, which it lends to one connection after another. So connections can change
///   the mount. Their changes are answered, and the observer hears of none. A lock has 2,047
///   passes, and the lines have one: a thread for which none is left counts as one that can't be
///   made. Once the input has ended, a change may be made whose answer is lost. If the terms are
///   not writable, each change is answered as `NotWritable`.
///
/// # Errors
///
/// - `NoConnection` if there are more than 254 connections, since a lock has 255 callers and one is
///   the writer; or if no thread could be made that serves until the input ends. No line is read
///   then.
/// - `Audit` if the audit finds a fault, which is written.
/// - `BadLine`, `Read`, `TurnsSpent` and `NoMemory` if the lines have ended so. The audit agrees,
///   which is written. The number is counted from the first line of the script.
/// - `Write` if the output fails. Some first bytes of what the audit found are written.
/// - `NoMemory` also if an allocation fails for what all connections need. Nothing is written then.
///   A connection that is out of memory ends alone.
pub fn serve_listener<
    R: Threads + Wait + Clock + Sync,
    I: CountedRead + Send,
    W: CountedWrite,
    V: Observer + Sync,
>(
    rt: &R,
    alloc: Global,
    listening: Listening,
    until: Until,
    input: &mut I,
    writer: &mut W,
    observer: &V,
) -> Result<(), DaemonFault>
    ensures ends { ServingEnds listening.opened.labels listening.opened.line until (I.remaining input.old) (W.contents writer.old) (W.contents writer.new) result }
{
    let Listening { opened, listener } = listening;
    let Opened {
        line,
        mount,
        labels,
    } = opened;
    let lines = Lines {
        input,
        labels,
        from: line,
    };
    let service = Service {
        mount,
        listener,
        lines,
    };
    match until {
        Until::Connections(desks) => serve_connections::<Brand, R, I, W, V>(
            rt,
            alloc,
            Blank::new(256),
            service,
            desks,
            writer,
            observer,
        ),
        Until::Input(terms) => serve_input::<Brand, R, I, V>(
            rt,
            alloc,
            Blank::new(2048),
            service,
            terms,
            observer,
        ),
    }
}

/// Runs a script up to its line `listen`, and then serves its mount at a place.
///
/// The script begins with the daemon's objects. What the lines before `listen` print is written,
/// and then where connections are accepted, as `listen` says. Then the mount is served as
/// `serve_listener` says. The files of a socket stay at the end.
///
/// # Errors
///
/// - `BadLine`, with the number of the first line that can't be read, of `listen` if there is no
///   mount, or of the line after the last if the script ends before `listen`. Nobody listens. Or
///   with the number of a line after `listen` that changes no mount.
/// - `NoConnection` if nobody can listen there, or as in `serve_listener`.
/// - `Read`, `Write`, `TurnsSpent` and `NoMemory` as in `listen` and in `serve_listener`.
/// - `Audit` as in `serve_listener`.
#[tactic(auto, using(crate::proofs::Ending::served, crate::proofs::Ending::serving, crate::proofs::Ending::unserved))]
pub fn run_daemon<
    R: Threads
        + Wait
        + Clock
        + Files<File = File>
        + Net<Listener = TcpListener, Stream = TcpStream>
        + Sync,
    I: Read + Send + Drop,
    W: CountedWrite,
    V: Observer + Sync,
>(
    rt: &R,
    alloc: Global,
    daemon: Daemon,
    input: &mut ScriptInput<I>,
    writer: &mut W,
    observer: &V,
) -> Result<(), DaemonFault>
    ensures ends { DaemonEnds (script_text (session_over daemon.objects.store daemon.objects.labels)) daemon.until daemon.place
        input.old.lines.device (W.contents writer.old) (W.contents writer.new) result }
    // The input failed, or 1,000,000 reads were made of it, or it has listened.
    ensures read { IsErrOf result (DaemonFault.Script RunFault.Read) → Rose input.old.lines.failed input.new.lines.failed
        ⊎ EndsServing (script_text (session_over daemon.objects.store daemon.objects.labels)) daemon.until daemon.place
        input.old.lines.device (W.contents writer.old) (W.contents writer.new) result }
    ensures turns_spent { IsErrOf result (DaemonFault.Script RunFault.TurnsSpent) → RoseBy 1000000 input.old.lines.called input.new.lines.called
        ⊎ EndsServing (script_text (session_over daemon.objects.store daemon.objects.labels)) daemon.until daemon.place
        input.old.lines.device (W.contents writer.old) (W.contents writer.new) result }
{
    let Daemon {
        objects,
        place,
        until,
    } = daemon;
    let listening = match listen(rt, alloc, objects, &mut input.lines, writer, place) {
        Ok(listening) => listening,
        Err(fault) => return Err(fault),
    };
    serve_listener(
        rt,
        alloc,
        listening,
        until,
        &mut input.lines,
        writer,
        observer,
    )
}

/// Runs a script as `run_daemon` does, over no objects, and serves this many connections.
///
/// They can't change the mount.
///
/// # Errors
///
/// As in `run_daemon`. `NoMemory` also if an allocation fails for the input. Nothing is read or
/// written then.
#[tactic(auto, using(crate::proofs::Ending::nothing_run))]
pub fn serve_program<
    R: Threads
        + Wait
        + Clock
        + Files<File = File>
        + Net<Listener = TcpListener, Stream = TcpStream>
        + Sync,
    I: Read + Send + Drop,
    W: CountedWrite,
>(
    rt: &R,
    alloc: Global,
    input: I,
    writer: &mut W,
    place: Place,
    connections: u64,
) -> Result<(), DaemonFault>
    ensures { DaemonEnds (script_text first_session) (Until.Connections (record { count = connections; writable = false })) place (I.remaining input) (W.contents writer.old) (W.contents writer.new) result }
{
    let Ok(mut input) = ScriptInput::new(alloc, input) else {
        return Err(DaemonFault::Script(RunFault::NoMemory));
    };
    let daemon = Daemon {
        objects: Objects::new(alloc),
        place,
        until: Until::Connections(Desks {
            count: connections,
            writable: false,
        }),
    };
    run_daemon(rt, alloc, daemon, &mut input, writer, &Unobserved)
}
