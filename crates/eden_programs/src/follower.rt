//! The program `follow`: what it does with its command line, its statuses, and what it prints if it
//! can't go on.

ghost use Rattle.std.specs.Prelude.{◌≤◌, IfErr};

use crate::ends::{FOLLOW, end_connect, end_demo, end_unrun, fail};
use crate::explained::explain_patterns;
use crate::follower_words::{Task, Wanted, read_words};
use crate::options::place_name;
use crate::reason::Excerpt;
use eden_connect::{ConnectFault, Progress, Quiet, Shown, connect_program};
use eden_demo::demo;
use eden_globs::{Filter, FilterFault};
use eden_sockets::Place;
use std::alloc::{AllocError, Global};
use std::io::Write;
use std::net::{Net, TcpStream};
use std::sync::Wait;
use std::thread::Threads;
use std::time::Clock;

/// Says whether somebody sees standard error, and so is shown how far the work is.
#[derive(Clone, Copy, Debug, PartialEq, Eq)]
pub enum Screen {
    /// It goes to a terminal.
    Terminal,
    /// It goes to a file, a pipe, or nowhere.
    None,
}

/// Returns the filter of some patterns, in their order.
fn filter_of(alloc: Global, patterns: &[&str]) -> Result<Filter, FilterFault> {
    let mut words = Vec::new(alloc);
    for pattern in patterns {
        let Ok(()) = words.push(pattern.as_bytes()) else {
            return Err(FilterFault::NoMemory);
        };
    }
    Filter::parse(alloc, words.as_slice())
}

/// Keeps a mirror with this filter, as the command line says.
fn keep<R: Net<Stream = TcpStream>, O: Write, P: Progress>(
    rt: &R,
    alloc: Global,
    wanted: &Wanted<'_>,
    filter: &Filter,
    output: &mut O,
    progress: &mut P,
) -> Result<(), ConnectFault> {
    let Wanted {
        place,
        mirror,
        life,
        rounds,
        ..
    } = *wanted;
    connect_program(
        rt, alloc, output, place, mirror, life, rounds, filter, progress,
    )
}

/// Prints why patterns are refused, with the first that is not a pattern.
fn tell_pattern<E: Write>(errors: &mut E, fault: FilterFault, patterns: &[&str]) {
    let why = explain_patterns(fault);
    let refused = match fault {
        FilterFault::BadPattern(place) => patterns.get(place),
        _ => None,
    };
    let _ = match refused {
        Some(pattern) => {
            let pattern = Excerpt(pattern.as_bytes());
            write!(errors, "{FOLLOW}: {fault}: `{pattern}`: {why}\n")
        }
        None => write!(errors, "{FOLLOW}: {fault}: {why}\n"),
    };
}

/// Returns the filter of some patterns, or prints why they are refused.
///
/// An error is the status that the program ends with.
fn read_filter<E: Write>(alloc: Global, patterns: &[&str], errors: &mut E) -> Result<Filter, u8>
    ensures { IfErr result (λ status. status ≤ 4) }
{
    match filter_of(alloc, patterns) {
        Ok(filter) => Ok(filter),
        Err(FilterFault::NoMemory) => Err(fail(errors, FOLLOW, "NoMemory")),
        Err(fault) => {
            tell_pattern(errors, fault, patterns);
            Err(2)
        }
    }
}

/// Returns the filter that the command line gives, or prints why a pattern is refused.
///
/// An error is the status that the program ends with.
fn filter_given<E: Write>(alloc: Global, wanted: &Wanted<'_>, errors: &mut E) -> Result<Filter, u8>
    ensures { IfErr result (λ status. status ≤ 4) }
{
    let filter = read_filter(alloc, wanted.patterns.as_slice(), errors)?;
    let excluded = read_filter(alloc, wanted.excluded.as_slice(), errors)?;
    match filter.except(&excluded) {
        Ok(filter) => Ok(filter),
        Err(_) => Err(fail(errors, FOLLOW, "NoMemory")),
    }
}

/// Returns why a fault came.
fn explain(
    alloc: Global,
    fault: ConnectFault,
    place: &Place,
) -> Result<Option<String>, AllocError> {
    let why = match fault {
        ConnectFault::NoConnection => {
            let name = place_name(alloc, place)?;
            let machine = match place {
                Place::Port(_) => " of 127.0.0.1",
                Place::Socket(_) => "",
            };
            format!(in alloc; "nothing serves a mount at {name}{machine}")?
        }
        ConnectFault::Write => format!(in alloc; "standard output can't be written")?,
        _ => return Ok(None),
    };
    Ok(Some(why))
}

/// Keeps a mirror, as the command line says, and returns the status that the program ends with.
fn connect<R: Net<Stream = TcpStream> + Clock, O: Write, E: Write>(
    rt: &R,
    alloc: Global,
    wanted: &Wanted<'_>,
    output: &mut O,
    errors: &mut E,
    screen: Screen,
) -> u8
    ensures { result ≤ 4 }
{
    let filter = match filter_given(alloc, wanted, errors) {
        Ok(filter) => filter,
        Err(status) => return status,
    };
    let ended = match screen {
        Screen::Terminal => {
            let mut shown = Shown::new(&mut *errors, rt);
            keep(rt, alloc, wanted, &filter, output, &mut shown)
        }
        Screen::None => keep(rt, alloc, wanted, &filter, output, &mut Quiet),
    };
    match ended {
        Ok(()) => 0,
        Err(fault) => {
            let why = explain(alloc, fault, &wanted.place);
            end_connect(errors, fault, why.unwrap_or(None))
        }
    }
}

/// Runs the demonstration, and returns the status that the program ends with.
fn run_demo<R: Threads + Wait + Clock + Sync, O: Write, E: Write>(
    rt: &R,
    alloc: Global,
    output: &mut O,
    errors: &mut E,
) -> u8
    ensures { result ≤ 4 }
{
    match demo(rt, alloc, output) {
        Ok(()) => 0,
        Err(fault) => end_demo(errors, fault),
    }
}

/// Runs `follow` with the words of a command line, and returns its status.
///
/// The first word is the program's name.
///
/// `demo` runs the demonstration, as `eden_demo::demo` does. `connect` keeps a mirror of a mount
/// that is served on this machine, as `eden_connect::connect_program` does; on a terminal it shows how
/// many of the contents have come. `--version` writes name and version to the output.
///
/// - 0: the demonstration ended well, the mirror is placed, or the version was written.
/// - 1: the mirror has no position, as the output says.
/// - 2: the command line is refused, or asks for help: what `clap` says; or a pattern is refused:
///   `follow: `, the fault, and why.
/// - 3: writing or memory failed, or there was no connection: `follow: `, `Write`, `NoMemory` or
///   `NoConnection`, and why.
/// - 4: the audit refused the logs, or the followers differ, as the output says.
///
/// All this goes to `errors`; that it can't be printed changes no status.
pub fn follow<R: Threads + Wait + Clock + Net<Stream = TcpStream> + Sync, O: Write, E: Write>(
    rt: &R,
    alloc: Global,
    words: &[String],
    output: &mut O,
    errors: &mut E,
    screen: Screen,
) -> u8
    ensures { result ≤ 4 }
{
    match read_words(alloc, words) {
        Ok(Task::Demo) => run_demo(rt, alloc, output, errors),
        Ok(Task::Connect(wanted)) => connect(rt, alloc, &wanted, output, errors, screen),
        Err(error) => end_unrun(output, errors, FOLLOW, &error),
    }
}
