//! Options that both command lines have.

use clap::builder::ValueParser;
use clap::error::ErrorKind;
use clap::{Arg, ArgAction, ArgGroup, ArgMatches, Command, Error};
use eden_sockets::{Place, SocketPath};
use std::alloc::{AllocError, Global};

/// Returns an option with a number between two others.
pub(crate) fn optional_number<'a>(
    alloc: Global,
    name: &'a str,
    value_name: &'a str,
    least: u64,
    most: u64,
    help: &'a str,
) -> Arg<'a> {
    Arg::new(alloc, name)
        .long(name)
        .value_name(value_name)
        .value_parser(ValueParser::Unsigned(least, most))
        .help(help)
        .action(ArgAction::Set)
}

/// Returns an option that must be given, with a number between two others.
pub(crate) fn number_option<'a>(
    alloc: Global,
    name: &'a str,
    value_name: &'a str,
    least: u64,
    most: u64,
    help: &'a str,
) -> Arg<'a> {
    optional_number(alloc, name, value_name, least, most, help).required(true)
}

/// Adds the options for a place, of which one must be given: a port or a socket.
pub(crate) fn with_place<'a>(
    alloc: Global,
    command: Command<'a>,
    port_help: &'a str,
    socket_help: &'a str,
) -> Result<Command<'a>, Error> {
    let port = optional_number(alloc, "port", "P", 1, 65_535, port_help);
    let socket = Arg::new(alloc, "socket")
        .long("socket")
        .value_name("PATH")
        .help(socket_help)
        .action(ArgAction::Set);
    let one = ArgGroup::new(alloc, "place")
        .arg("port")?
        .arg("socket")?
        .required(true);
    Ok(command.arg(port)?.arg(socket)?.group(one)?)
}

/// Returns the place that a command line names.
pub(crate) fn place_of(
    alloc: Global,
    command: &mut Command<'_>,
    matches: &ArgMatches<'_>,
) -> Result<Place, Error> {
    let Some(path) = matches.get_str("socket") else {
        return Ok(Place::Port(small_of(command, matches, "port")?));
    };
    match SocketPath::new(path) {
        Ok(path) => Ok(Place::Socket(path)),
        Err(fault) => {
            let why = format!(in alloc; "invalid value for --socket: {fault}")?;
            Err(command.error(ErrorKind::ValueValidation, why.as_str())?)
        }
    }
}

/// Returns what a place is called: `port P` or `socket PATH`.
pub(crate) fn place_name(alloc: Global, place: &Place) -> Result<String, AllocError> {
    match place {
        Place::Port(port) => Ok(format!(in alloc; "port {port}")?),
        Place::Socket(path) => {
            let path = path.as_str();
            Ok(format!(in alloc; "socket {path}")?)
        }
    }
}

/// Returns the number of an option, or the error of `clap` if it has none.
pub(crate) fn number_of(
    command: &mut Command<'_>,
    matches: &ArgMatches<'_>,
    name: &str,
) -> Result<u64, Error> {
    match matches.get_one(name) {
        Some(number) => Ok(number),
        None => Err(command.error(ErrorKind::MissingRequiredArgument, name)?),
    }
}

/// Returns the number of an option whose range fits a smaller type.
pub(crate) fn small_of<T: TryFrom<u64>>(
    command: &mut Command<'_>,
    matches: &ArgMatches<'_>,
    name: &str,
) -> Result<T, Error>
where
    T::Error: Drop,
{
    let number = number_of(command, matches, name)?;
    match T::try_from(number) {
        Ok(small) => Ok(small),
        Err(_) => Err(command.error(ErrorKind::ValueValidation, name)?),
    }
}
