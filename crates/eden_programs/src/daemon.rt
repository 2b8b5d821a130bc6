//! The program `edend`: what it does with its command line, its statuses, and what it prints if it
//! can't go on.

ghost use Rattle.std.specs.Prelude.{◌≡◌, ◌≤◌};

use crate::daemon_words::{Service, Task, read_words};
use crate::ends::{EDEND, end_daemon, end_unrun};
use crate::log::Log;
use crate::objects::{Shelf, first_objects};
use crate::options::place_name;
use crate::script::Script;
use eden_edend::{Objects, run_over};
use eden_serve::{Daemon, DaemonFault, Observer, ScriptInput, run_daemon};
use eden_sockets::{ListenFault, Listener};
use eden_stream::{Counted, RunFault};
use std::alloc::{AllocError, Global};
use std::fs::{File, Files};
use std::io::{Read, Write};
use std::net::{Net, TcpListener, TcpStream};
use std::sync::Wait;
use std::thread::Threads;
use std::time::Clock;

/// Runs the script over these objects.
fn run_script<I: Read + Drop, O: Write>(
    alloc: Global,
    objects: Objects,
    input: I,
    output: &mut O,
) -> Result<(), DaemonFault> {
    let mut reader = Counted::new(input);
    let mut writer = Counted::new(output);
    run_over(alloc, objects, &mut reader, &mut writer)?;
    Ok(())
}

/// Does what a command line asks for, over these objects.
fn work<
    R: Threads
        + Wait
        + Clock
        + Files<File = File>
        + Net<Listener = TcpListener, Stream = TcpStream>
        + Sync,
    I: Read + Send + Drop,
    O: Write,
    V: Observer + Sync,
>(
    rt: &R,
    alloc: Global,
    service: Option<&Service>,
    objects: Objects,
    input: I,
    output: &mut O,
    observer: &V,
) -> Result<(), DaemonFault> {
    let Some(service) = service else {
        return run_script(alloc, objects, input, output);
    };
    let daemon = Daemon {
        objects,
        place: service.place,
        until: service.until,
    };
    let mut reader = ScriptInput::new(alloc, input)?;
    let mut writer = Counted::new(output);
    run_daemon(rt, alloc, daemon, &mut reader, &mut writer, observer)
}

/// Returns why nobody can listen at the place of a service now, if so. It leaves no file there.
fn listen_fault<R: Files<File = File> + Net<Listener = TcpListener, Stream = TcpStream>>(
    rt: &R,
    service: Option<&Service>,
) -> Option<ListenFault> {
    let place = &service?.place;
    let fault = Listener::open(rt, *place).err();
    place.remove_files(rt);
    fault
}

/// Returns why nobody can listen at the place of a service, with its name, if that is known.
fn place_reason(
    alloc: Global,
    service: Option<&Service>,
    fault: Option<ListenFault>,
) -> Result<Option<String>, AllocError> {
    let (Some(service), Some(fault)) = (service, fault) else {
        return Ok(None);
    };
    let name = place_name(alloc, &service.place)?;
    Ok(Some(format!(in alloc; "{name}: {fault}")?))
}

/// Returns why a fault of the program came.
fn explain<I>(
    alloc: Global,
    fault: DaemonFault,
    script: &mut Script<I>,
    task: &Task<'_>,
    busy: Option<ListenFault>,
) -> Result<Option<String>, AllocError> {
    let why = match fault {
        DaemonFault::Script(RunFault::BadLine(number)) => return Ok(script.explain(
            number,
            task.setting(),
        )),
        DaemonFault::Script(RunFault::Read) => match script.failed {
            Some(error) => format!(in alloc; "the script: {error}")?,
            None => return Ok(None),
        },
        DaemonFault::Script(RunFault::Write) => {
            format!(in alloc; "standard output can't be written")?
        }
        DaemonFault::Script(RunFault::TurnsSpent) => {
            format!(in alloc; "1,000,000 reads did not reach the end of the script")?
        }
        DaemonFault::NoConnection => return place_reason(alloc, task.service.as_ref(), busy),
        _ => return Ok(None),
    };
    Ok(Some(why))
}

/// Prints where the script has ended, if that is asked for, and returns the status of a program
/// that ends well.
fn end_well<I, E: Write>(errors: &mut E, is_verbose: bool, script: &mut Script<I>) -> u8
    ensures { result ≡ 0 }
{
    if is_verbose {
        let (count, is_whole) = script.finish();
        let end = if is_whole { "after" } else { "within" };
        let _ = write!(errors, "{EDEND}: the script has ended {end} line {count}\n");
    }
    0
}

/// Does what a command line asks for, once its objects are put and its place was looked at.
fn serve_or_run<
    R: Threads
        + Wait
        + Clock
        + Files<File = File>
        + Net<Listener = TcpListener, Stream = TcpStream>
        + Sync,
    I: Read + Send + Drop,
    O: Write,
    E: Write + Send,
>(
    rt: &R,
    alloc: Global,
    task: &Task<'_>,
    busy: Option<ListenFault>,
    objects: Objects,
    input: I,
    output: &mut O,
    errors: &mut E,
) -> u8
    ensures { result ≤ 4 }
{
    let mut script = Script::new(alloc, input);
    let service = task.service.as_ref();
    let is_verbose = service.is_some_and(|service| service.is_verbose);
    let log = Log::new(rt, &mut *errors, is_verbose);
    let done = work(rt, alloc, service, objects, &mut script, output, &log);
    if let Some(service) = service {
        service.place.remove_files(rt);
    }
    log.finish();
    match done {
        Ok(()) => end_well(errors, is_verbose, &mut script),
        Err(fault) => {
            let why = explain(alloc, fault, &mut script, task, busy);
            end_daemon(errors, fault, why.unwrap_or(None))
        }
    }
}

/// Does what a command line asks for, and returns the status of the program.
fn run_task<
    R: Threads
        + Wait
        + Clock
        + Files<File = File>
        + Net<Listener = TcpListener, Stream = TcpStream>
        + Sync,
    S: Shelf,
    I: Read + Send + Drop,
    O: Write,
    E: Write + Send,
>(rt: &R, alloc: Global, shelf: &S, task: &Task<'_>, input: I, output: &mut O, errors: &mut E) -> u8
    ensures { result ≤ 4 }
{
    let service = task.service.as_ref();
    let busy = listen_fault(rt, service);
    if matches!(busy, Some(ListenFault::InUse)) {
        let why = place_reason(alloc, service, busy);
        return end_daemon(errors, DaemonFault::NoConnection, why.unwrap_or(None));
    }
    let objects = match first_objects(alloc, shelf, task.objects, errors) {
        Ok(objects) => objects,
        Err(status) => return status,
    };
    serve_or_run(rt, alloc, task, busy, objects, input, output, errors)
}

/// Runs `edend` with the words of a command line, and returns its status.
///
/// The first word is the program's name.
///
/// `run` runs a script from the input and writes what it prints to the output, as `eden_edend::run`
/// does. `serve` serves the mount of a script at a port or a Unix socket, as
/// `eden_serve::run_daemon` does: until N connections have ended, or with `--stay` until the input
/// has. With `--writable` connections can change the mount. The files of the socket are removed at
/// the end. With `--objects FILE` both first put the objects of that file, as `git cat-file --batch`
/// prints them, and bind each commit to the label of the first 32 digits of its id. `--version`
/// writes name and version to the output.
///
/// - 0: the script was run, or served, or the version was written.
/// - 1: a line of the script can't be read: `line N: BadLine: ` and why. Or an object can't be put:
///   `edend: object N: `, the fault's name, and why. No line of the script is read then.
/// - 2: the command line is refused, or asks for help: what `clap` says.
/// - 3: reading, writing or memory failed, the reads were spent, or nobody can listen there:
///   `edend: `, `Read`, `Write`, `NoMemory`, `TurnsSpent` or `NoConnection`, and why, with `object
///   N: ` before it if the objects were being read. A place that is in use is found before the
///   objects are read. Or the file of objects can't be opened: `edend: FILE: ` and what the system
///   says.
/// - 4: the audit of what was served names a fault, which is in the output.
///
/// With `serve --verbose` it prints what goes wrong while it serves and ends nothing but itself,
/// when it happens: a change that is refused, a connection that ends at a frame that can't be
/// answered, a connection that takes the last place, and a line after `listen` that can't be read.
/// One line at the end has the counts, if there are any, and another says where the script has
/// ended.
///
/// All this goes to `errors`; that it can't be printed changes no status.
pub fn edend<
    R: Threads
        + Wait
        + Clock
        + Files<File = File>
        + Net<Listener = TcpListener, Stream = TcpStream>
        + Sync,
    S: Shelf,
    I: Read + Send + Drop,
    O: Write,
    E: Write + Send,
>(
    rt: &R,
    alloc: Global,
    shelf: &S,
    words: &[String],
    input: I,
    output: &mut O,
    errors: &mut E,
) -> u8
    ensures { result ≤ 4 }
{
    let task = match read_words(alloc, words) {
        Ok(task) => task,
        Err(error) => return end_unrun(output, errors, EDEND, &error),
    };
    run_task(rt, alloc, shelf, &task, input, output, errors)
}
