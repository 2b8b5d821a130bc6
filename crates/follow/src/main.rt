//! Keeps mirrors of a mount.
//!
//! `follow connect --socket PATH --mirror M --life L --rounds N PATTERN..` keeps a mirror of the mount that `edend serve` serves at that socket,
//! or with `--port P` at that port of this machine. It prints where the mirror is and what it holds. If standard error is a terminal, it shows there how many contents have come.
//!
//! `follow demo` has two writers change a mount while two followers keep mirrors of it, each in a thread of its own. Then it audits the
//! mount's history, compares the followers with the mount, and prints what it found. `follow --version` prints its name and version.
//!
//! `eden_programs::follow` says what each status means.
#![tactic(auto)]

use eden_programs::{Screen, command_words, follow};
use std::io::IsTerminal;
use std::process::ExitCode;

/// Runs the program, and returns its exit status.
fn main(rt: HostRuntime) -> ExitCode {
    let mut errors = rt.stderr();
    let screen = if errors.is_terminal() {
        Screen::Terminal
    } else {
        Screen::None
    };
    let status = match command_words(&rt, &mut errors, "follow") {
        Ok(words) => follow(
            &rt,
            rt.alloc(),
            words.as_slice(),
            &mut rt.stdout(),
            &mut errors,
            screen,
        ),
        Err(status) => status,
    };
    ExitCode::from(status)
}
