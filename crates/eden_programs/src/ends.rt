//! How the programs end: with which status, and what they print on standard error.

ghost use Rattle.std.specs.Prelude.{◌≡◌, ◌≤◌};
ghost use Rattle.eden_programs.specs.Statuses.{connect_status, daemon_status, demo_status};

use clap::Error;
use clap::error::ErrorKind;
use eden_connect::ConnectFault;
use eden_demo::DemoFault;
use eden_serve::DaemonFault;
use eden_stream::RunFault;
use std::io::Write;

/// The version that `--version` prints.
pub(crate) const VERSION: &str = "0.1.0";

/// The name of the program that runs scripts and serves mounts.
pub(crate) const EDEND: &str = "edend";

/// The name of the program that keeps mirrors.
pub(crate) const FOLLOW: &str = "follow";

/// Prints why a program can't go on, and returns its status.
///
/// It prints the program's name and the fault's, and what brought it about, if that is known. If
/// that can't be printed, the status is the same.
fn stop<E: Write>(errors: &mut E, program: &str, name: &str, why: Option<String>) -> u8
    ensures { result ≡ 3 }
{
    let _ = match why {
        Some(why) => write!(errors, "{program}: {name}: {why}\n"),
        None => write!(errors, "{program}: {name}\n"),
    };
    3
}

/// Prints the name of what stops a program, and returns its status.
pub(crate) fn fail<E: Write>(errors: &mut E, program: &str, name: &str) -> u8
    ensures { result ≡ 3 }
{
    stop(errors, program, name, None)
}

/// Prints that a line of a script can't be read, and why, if that is known.
fn say_line<E: Write>(errors: &mut E, number: u64, why: Option<String>) {
    let _ = match why {
        Some(why) => write!(errors, "line {number}: BadLine: {why}\n"),
        None => write!(errors, "line {number}: BadLine\n"),
    };
}

/// Prints what stopped a script, and returns the status.
fn end_script<E: Write>(errors: &mut E, fault: RunFault, why: Option<String>) -> u8
    ensures { result ≡ daemon_status (DaemonFault.Script fault) }
{
    match fault {
        RunFault::BadLine(number) => {
            say_line(errors, number, why);
            1
        }
        RunFault::Read => stop(errors, EDEND, "Read", why),
        RunFault::Write => stop(errors, EDEND, "Write", why),
        RunFault::TurnsSpent => stop(errors, EDEND, "TurnsSpent", why),
        RunFault::NoMemory => stop(errors, EDEND, "NoMemory", why),
    }
}

/// Prints what ended `edend`, and why, if that is known. Returns its status.
///
/// It prints `line N: BadLine`, or `edend: ` and the fault's name. It prints nothing of an audit,
/// whose fault is in the output.
pub fn end_daemon<E: Write>(errors: &mut E, fault: DaemonFault, why: Option<String>) -> u8
    ensures { result ≡ daemon_status fault }
{
    match fault {
        DaemonFault::Script(fault) => end_script(errors, fault, why),
        DaemonFault::NoConnection => stop(errors, EDEND, "NoConnection", why),
        DaemonFault::Audit(_) => 4,
    }
}

/// Prints what ended `follow connect`, and why, if that is known. Returns its status.
///
/// It prints `follow: ` and the fault's name. It prints nothing of a mirror with no position, which
/// is in the output.
pub fn end_connect<E: Write>(errors: &mut E, fault: ConnectFault, why: Option<String>) -> u8
    ensures { result ≡ connect_status fault }
{
    match fault {
        ConnectFault::Unplaced => 1,
        ConnectFault::Write => stop(errors, FOLLOW, "Write", why),
        ConnectFault::NoConnection => stop(errors, FOLLOW, "NoConnection", why),
        ConnectFault::NoMemory => stop(errors, FOLLOW, "NoMemory", why),
    }
}

/// Prints what ended `follow demo`, and returns its status.
///
/// It prints `follow: ` and the fault's name. It prints nothing of an audit or of followers that
/// differ, which are in the output.
pub fn end_demo<E: Write>(errors: &mut E, fault: DemoFault) -> u8
    ensures { result ≡ demo_status fault }
{
    match fault {
        DemoFault::Write => fail(errors, FOLLOW, "Write"),
        DemoFault::NoMemory => fail(errors, FOLLOW, "NoMemory"),
        DemoFault::NoConnection => fail(errors, FOLLOW, "NoConnection"),
        DemoFault::Refused(_) | DemoFault::Differ => 4,
    }
}

/// Writes the version, and returns the status.
fn print_version<O: Write, E: Write>(
    output: &mut O,
    errors: &mut E,
    program: &str,
    text: &Error,
) -> u8
    ensures { result ≤ 3 }
{
    if write!(output, "{text}").is_err() || output.flush().is_err() {
        return fail(errors, program, "Write");
    }
    0
}

/// Ends a program whose command line runs nothing, as `clap` says why, and returns its status.
///
/// - 0: the version was asked for, and is written to the output.
/// - 2: the command line is refused, or asks for help. What `clap` says is written to `errors`.
/// - 3: memory or the output failed. The program's name and `NoMemory` or `Write` are written to
///   `errors`.
pub(crate) fn end_unrun<O: Write, E: Write>(
    output: &mut O,
    errors: &mut E,
    program: &str,
    error: &Error,
) -> u8
    ensures { result ≤ 3 }
{
    match error.kind() {
        ErrorKind::DisplayVersion => print_version(output, errors, program, error),
        ErrorKind::OutOfMemory => fail(errors, program, "NoMemory"),
        _ => {
            let _ = write!(errors, "{error}");
            2
        }
    }
}
