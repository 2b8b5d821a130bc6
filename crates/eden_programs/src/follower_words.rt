//! The command line of `follow`.

use crate::ends::{FOLLOW, VERSION};
use crate::options::{number_of, number_option, place_of, small_of, with_place};
use clap::{Arg, ArgAction, ArgMatches, Command, Error};
use eden_sockets::Place;
use std::alloc::Global;

/// What `follow demo` is for.
const ABOUT_DEMO: &str = "Runs writers beside followers, and audits what they did";

/// What `follow demo` does.
const LONG_ABOUT_DEMO: &str =
    "Runs two writers that change a mount and two followers that keep mirrors of
it, and audits what they did";

/// What `follow connect` is for.
const ABOUT_CONNECT: &str = "Keeps a mirror of a mount that `edend serve` serves";

/// What `follow connect` does and prints.
const LONG_ABOUT_CONNECT: &str =
    "Keeps a mirror of a mount that `edend serve` serves on this machine

It makes N rounds, and prints the mirror: `placed GENERATION SEQUENCE ROOT` or
`unplaced`, `files N`, and a line `KIND LENGTH PATH` for each file.

A PATTERN is a path in which `*` matches any part of a name, and `**` any
directories. Without a pattern the mirror has all files, and it never has those
of an `--except` pattern.";

/// Says what `follow connect` is to do.
#[derive(Drop)]
pub(crate) struct Wanted<'a> {
    /// Where the mount is served.
    pub(crate) place: Place,
    /// The number of the mirror.
    pub(crate) mirror: u64,
    /// Its life.
    pub(crate) life: u64,
    /// The number of rounds.
    pub(crate) rounds: u32,
    /// The patterns of the paths that it wants.
    pub(crate) patterns: Vec<&'a str>,
    /// The patterns of the paths that it leaves out.
    pub(crate) excluded: Vec<&'a str>,
}

/// Says what a command line asks for.
#[derive(Drop)]
pub(crate) enum Task<'a> {
    /// The demonstration.
    Demo,
    /// A mirror.
    Connect(Wanted<'a>),
}

/// Returns `follow connect` with its options.
fn connect_command<'a>(alloc: Global) -> Result<Command<'a>, Error> {
    let mirror = number_option(
        alloc,
        "mirror",
        "M",
        0,
        u64::MAX,
        "The number of the mirror",
    );
    let life = number_option(
        alloc,
        "life",
        "L",
        0,
        u64::MAX,
        "The life of the mirror: a number that it never had before",
    );
    let rounds = number_option(
        alloc,
        "rounds",
        "N",
        1,
        1_000,
        "How often to ask what has changed, 1 to 1000",
    );
    let patterns = Arg::new(alloc, "pattern")
        .value_name("PATTERN")
        .help("The paths that the mirror has")
        .num_args(0..)
        .action(ArgAction::Append);
    let excluded = Arg::new(alloc, "except")
        .long("except")
        .value_name("PATTERN")
        .help("Paths that the mirror leaves out; may be given more than once")
        .action(ArgAction::Append);
    let command = Command::new(alloc, "connect")
        .about(ABOUT_CONNECT)
        .long_about(LONG_ABOUT_CONNECT);
    let command = with_place(
        alloc,
        command,
        "The port of the daemon, 1 to 65535",
        "Or the path of its socket",
    )?
    .arg(mirror)?
    .arg(life)?
    .arg(rounds)?
    .arg(excluded)?
    .arg(patterns)?;
    Ok(command)
}

/// Returns the words that were given for an argument.
fn words_of<'a>(
    alloc: Global,
    connect: &ArgMatches<'a>,
    name: &str,
) -> Result<Vec<&'a str>, Error> {
    match connect.get_strs(name) {
        Some(words) => Ok(words.to_vec(alloc)?),
        None => Ok(Vec::new(alloc)),
    }
}

/// Returns what `follow connect` is to do.
fn wanted_of<'a>(
    alloc: Global,
    command: &mut Command<'_>,
    connect: &ArgMatches<'a>,
) -> Result<Wanted<'a>, Error> {
    let patterns = words_of(alloc, connect, "pattern")?;
    let excluded = words_of(alloc, connect, "except")?;
    Ok(Wanted {
        place: place_of(alloc, command, connect)?,
        mirror: number_of(command, connect, "mirror")?,
        life: number_of(command, connect, "life")?,
        rounds: small_of(command, connect, "rounds")?,
        patterns,
        excluded,
    })
}

/// Returns what a command line asks for. Help and the version are errors too: they run nothing.
pub(crate) fn read_words<'a>(alloc: Global, words: &'a [String]) -> Result<Task<'a>, Error> {
    let demo = Command::new(alloc, "demo")
        .about(ABOUT_DEMO)
        .long_about(LONG_ABOUT_DEMO);
    let mut command = Command::new(alloc, FOLLOW)
        .version(VERSION)
        .about("Keeps mirrors of a mount")
        .subcommand_required(true)
        .subcommand(demo)?
        .subcommand(connect_command(alloc)?)?;
    let matches = command.try_get_matches_from_mut(words)?;
    match matches.subcommand_matches("connect") {
        Some(connect) => Ok(Task::Connect(wanted_of(alloc, &mut command, connect)?)),
        None => Ok(Task::Demo),
    }
}
