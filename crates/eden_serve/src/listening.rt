//! What comes before the first connection: the script up to `listen`, and the listener.

ghost use Rattle.std.specs.Prelude.{◌+◌, ◌≤◌, IsErrOf};
ghost use Rattle.eden_script.specs.ScriptText.{script_text};
ghost use Rattle.eden_script.specs.Sessions.{session_over};
ghost use Rattle.eden_serve.specs.Endings.{ListenEnds};
ghost use Rattle.eden_stream.specs.Counts.{Rose, RoseBy};

use crate::fault::DaemonFault;
use crate::printing::listening_line;
use eden_edend::{Objects, Opened, run_to_listen};
use eden_sockets::{Listener, Place};
use eden_stream::{CountedRead, CountedWrite, RunFault, print};
use std::alloc::Global;
use std::fs::{File, Files};
use std::net::{Net, TcpListener, TcpStream};

/// What a script has opened, and what accepts the connections to it.
#[derive(Drop)]
pub struct Listening {
    /// What the script has made up to `listen`.
    pub opened: Opened,
    /// What accepts the connections.
    pub listener: Listener,
}

/// Runs a script up to its line `listen`, and then listens at a place.
///
/// The script begins with these objects, and with labels that are bound to some of them. What the
/// lines before `listen` print is written. Then `listening` is written, and the port, or `unix` and
/// the path of the socket, once connections are accepted there. Nothing else is written.
///
/// # Errors
///
/// - `BadLine`, with the number of the first line that can't be read, of `listen` if there is no
///   mount, or of the line after the last if the script ends before `listen`. Nobody listens.
/// - `NoConnection` if nobody can listen there.
/// - `Read`, `Write`, `TurnsSpent` and `NoMemory` as in `eden_edend::run`, for the lines before
///   `listen`. `Write` and `NoMemory` also if the place can't be printed.
#[tactic(auto, using(crate::proofs::Ending::unopened))]
pub fn listen<
    R: Files<File = File> + Net<Listener = TcpListener, Stream = TcpStream>,
    I: CountedRead,
    W: CountedWrite,
>(
    rt: &R,
    alloc: Global,
    objects: Objects,
    reader: &mut I,
    writer: &mut W,
    place: Place,
) -> Result<Listening, DaemonFault>
    ensures ends { ListenEnds (script_text (session_over objects.store objects.labels)) place (I.remaining reader.old) (I.remaining reader.new) (W.contents writer.old) (W.contents writer.new) result }
    ensures read { IsErrOf result (DaemonFault.Script RunFault.Read) → Rose (I.failed reader.old) (I.failed reader.new) }
    ensures turns_spent { IsErrOf result (DaemonFault.Script RunFault.TurnsSpent) → RoseBy 1000000 (I.called reader.old) (I.called reader.new) }
    ensures turns { I.called reader.new ≤ I.called reader.old + 1000000 }
{
    let opened = match run_to_listen(alloc, objects, reader, writer) {
        Ok(opened) => opened,
        Err(fault) => return Err(DaemonFault::Script(fault)),
    };
    let Ok(listener) = Listener::open(rt, place) else {
        return Err(DaemonFault::NoConnection);
    };
    let Ok(text) = listening_line(alloc, &place) else {
        return Err(DaemonFault::Script(RunFault::NoMemory));
    };
    if !print(writer, text.as_slice()) {
        return Err(DaemonFault::Script(RunFault::Write));
    }
    Ok(Listening { opened, listener })
}
