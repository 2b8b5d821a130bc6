//! The words of the command line.

ghost use Rattle.std.specs.Prelude.{◌≤◌, IfErr};

use crate::ends::fail;
use std::alloc::{Alloc, Global};
use std::env::Env;
use std::io::Write;
use std::{env, io};

/// Returns the words of the command line, of which the first is the program's name.
///
/// # Errors
///
/// Returns the status that the program ends with, and prints why to `errors`: 2 if a word is not
/// UTF-8, and 3 if an allocation fails.
pub fn command_words<R: Env + Alloc<A = Global>, E: Write>(
    rt: &R,
    errors: &mut E,
    program: &str,
) -> Result<Vec<String>, u8>
    ensures { IfErr result (λ status. status ≤ 3) }
{
    match env::args(rt) {
        Ok(words) => match words.collect(rt.alloc()) {
            Ok(words) => Ok(words),
            Err(_) => Err(fail(errors, program, "NoMemory")),
        },
        Err(error) if error.kind() == io::ErrorKind::InvalidData => {
            let _ = write!(errors, "error: a word of the command line is not UTF-8\n");
            Err(2)
        }
        Err(_) => Err(fail(errors, program, "NoMemory")),
    }
}
