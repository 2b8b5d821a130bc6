//! The command line of `edend`.

use crate::ends::{EDEND, VERSION};
use crate::options::{number_of, number_option, optional_number, place_of, with_place};
use clap::error::ErrorKind;
use clap::{Arg, ArgAction, ArgMatches, Command, Error};
use eden_serve::{Desks, Terms, Until};
use eden_sockets::Place;
use std::alloc::Global;
use std::time::Duration;

/// How many connections there are at most with an audit.
const MOST_CONNECTIONS: u64 = 64;

/// How many connections there are at most at a time without one.
const MOST_PLACES: u64 = 1_024;

/// Says what `edend run` is for.
const ABOUT_RUN: &str = "Runs a script from standard input";

/// What `edend run` is for, and the lines of its script.
const LONG_ABOUT_RUN: &str = "Runs a script from standard input: edend run < FILE

Each line is one of these, with single spaces between its words
(docs/script.md):
  blob L TEXT | tree L [MODE NAME LABEL].. | commit L TREE | id L
  mount L GENERATION LIMIT
  write PATH KIND TEXT | remove PATH | rename OLD NEW | renamedir OLD NEW
  checkout L MODE | reset L | flush | remount GENERATION
  position | list [PATTERN].. | dirty | read PATH
  since GENERATION SEQUENCE
KIND is plain, exec or link; the MODE of a checkout is normal, force or dry.
L, LABEL and TREE are labels: 1 to 32 of a to z and 0 to 9.
In a word \\\\ is a backslash, \\n a line feed, \\s a space, and \\e nothing.";

/// What `edend serve` is for.
const ABOUT_SERVE: &str = "Serves a mount at a port of 127.0.0.1, or at a Unix socket";

/// What `edend serve` is for, and the lines that it reads.
const LONG_ABOUT_SERVE: &str = "Serves a mount at a port of 127.0.0.1, or at a Unix socket:
  edend serve --socket PATH --connections N < FILE

Anybody who has an account on the machine can connect to a port. To a socket,
its owner alone can. It is made with mode 0600, and removed at the end.

Runs the script up to the line `listen` as `edend run` does: lines blob, tree,
commit and id, then mount, and others. Then it prints `listening P`, or
`listening unix PATH`, and serves each connection in a thread of its own.
Meanwhile these lines change the mount, and print nothing:
  write PATH KIND TEXT | remove PATH | rename OLD NEW | renamedir OLD NEW
  checkout L MODE | reset L | flush | remount GENERATION

When N connections and the script have ended, it audits the replies against the
history of the mount, and prints `audit ok`, or `audit` and what is wrong.

With --stay it serves N connections at a time until the script ends. It keeps no
history and prints no audit, so its memory does not grow with the calls. A
connection ends if a frame that has begun does not come within the limit, or a
reply is not read within it. Between two frames it may wait for any time. If all
N are taken, one more waits for the limit at most.

With --writable, connections can change the mount too (docs/formats.md). Each
change is answered, and without --stay the audit includes it. The memory then
grows with what they write.";

/// What `--objects` is for.
const ABOUT_OBJECTS: &str = "Put these objects first, in the form that
`git cat-file --batch` prints. An object comes after
those that it names. The label of a commit is the
first 32 digits of its id.";

/// Says how a mount is served.
#[derive(Clone, Copy)]
pub(crate) struct Service {
    /// Where it listens.
    pub(crate) place: Place,
    /// How long it serves.
    pub(crate) until: Until,
    /// Whether it prints what is refused, and where its script has ended.
    pub(crate) is_verbose: bool,
}

/// Says which command reads a script.
#[derive(Clone, Copy)]
pub(crate) enum Setting {
    /// `edend run`.
    Run,
    /// `edend serve`.
    Serve {
        /// Whether it was given a file of objects.
        has_objects: bool,
    },
}

/// Says what a command line asks for.
#[derive(Clone, Copy)]
pub(crate) struct Task<'a> {
    /// The file of objects, if one is given.
    pub(crate) objects: Option<&'a str>,
    /// How to serve, or `None` to run a script alone.
    pub(crate) service: Option<Service>,
}

impl<'a> Task<'a> {
    /// Returns which command reads the script.
    pub(crate) fn setting(&self) -> Setting {
        if self.service.is_none() {
            return Setting::Run;
        }
        Setting::Serve {
            has_objects: self.objects.is_some(),
        }
    }
}

/// Returns the option for a file of objects.
fn objects_option<'a>(alloc: Global) -> Arg<'a> {
    Arg::new(alloc, "objects")
        .long("objects")
        .value_name("FILE")
        .help(ABOUT_OBJECTS)
        .action(ArgAction::Set)
}

/// Returns `edend serve` with its options.
fn serve_command<'a>(alloc: Global) -> Result<Command<'a>, Error> {
    let connections = number_option(
        alloc,
        "connections",
        "N",
        1,
        MOST_PLACES,
        "How many connections, 1 to 64; with --stay, 1 to 1024 at a time",
    );
    let stay = Arg::new(alloc, "stay")
        .long("stay")
        .help("Serve until the script ends, and keep no history")
        .action(ArgAction::SetTrue);
    let limit = optional_number(
        alloc,
        "limit",
        "SECONDS",
        1,
        3_600,
        "With --stay, the most that a frame or a free place takes",
    )
    .default_value("10")
    .requires_arg("stay")?;
    let writable = Arg::new(alloc, "writable")
        .long("writable")
        .help("With --socket, let connections change the mount")
        .action(ArgAction::SetTrue)
        .conflicts_with("port")?;
    let verbose = Arg::new(alloc, "verbose")
        .long("verbose")
        .help("Print what is refused, and where the script has ended")
        .action(ArgAction::SetTrue);
    let command = Command::new(alloc, "serve")
        .about(ABOUT_SERVE)
        .long_about(LONG_ABOUT_SERVE);
    let command = with_place(
        alloc,
        command,
        "The port to listen at, 1 to 65535",
        "Or the path of a socket to make, 101 bytes at most",
    )?
    .arg(connections)?
    .arg(stay)?
    .arg(limit)?
    .arg(writable)?
    .arg(verbose)?
    .arg(objects_option(alloc))?;
    Ok(command)
}

/// Returns how a mount is to be served.
fn service_of(
    alloc: Global,
    command: &mut Command<'_>,
    serve: &ArgMatches<'_>,
) -> Result<Service, Error> {
    let place = place_of(alloc, command, serve)?;
    let connections = number_of(command, serve, "connections")?;
    let stays = serve.get_flag("stay");
    let writable = serve.get_flag("writable");
    if !stays && connections > MOST_CONNECTIONS {
        let limit = "without --stay there are at most 64 connections";
        return Err(command.error(ErrorKind::ValueValidation, limit)?);
    }
    let until = if stays {
        Until::Input(Terms {
            threads: connections,
            limit: Duration::from_secs(number_of(command, serve, "limit")?),
            writable,
        })
    } else {
        Until::Connections(Desks {
            count: connections,
            writable,
        })
    };
    Ok(Service {
        place,
        until,
        is_verbose: serve.get_flag("verbose"),
    })
}

/// Returns what a command line asks for. Help and the version are errors too: they run nothing.
pub(crate) fn read_words<'a>(alloc: Global, words: &'a [String]) -> Result<Task<'a>, Error> {
    let run = Command::new(alloc, "run")
        .about(ABOUT_RUN)
        .long_about(LONG_ABOUT_RUN)
        .arg(objects_option(alloc))?;
    let mut command = Command::new(alloc, EDEND)
        .version(VERSION)
        .about("Runs a script of changes to a mount, and serves the mount")
        .subcommand_required(true)
        .subcommand(run)?
        .subcommand(serve_command(alloc)?)?;
    let matches = command.try_get_matches_from_mut(words)?;
    if let Some(serve) = matches.subcommand_matches("serve") {
        return Ok(Task {
            objects: serve.get_str("objects"),
            service: Some(service_of(alloc, &mut command, serve)?),
        });
    }
    let run = matches.subcommand_matches("run");
    Ok(Task {
        objects: run.and_then(|run| run.get_str("objects")),
        service: None,
    })
}
