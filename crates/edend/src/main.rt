//! Runs scripts of changes to a mount, and serves the mount.
//!
//! `edend run` runs a script from standard input, and writes what it prints to standard output. `edend serve --socket PATH --connections N`
//! runs one up to its line `listen`. Then it serves the mount at a Unix socket, or with `--port P` at a port of 127.0.0.1, while the lines after
//! `listen` change the mount; with `--stay` until they end. With `--writable` connections can change it too.
//! With `--objects FILE` both first put the objects of that file, as `git cat-file --batch` prints them. `edend --version` prints its name and
//! version.
//!
//! `eden_programs::edend` says what each status means.
#![tactic(auto)]

use eden_programs::{Shelf, command_words, edend};
use std::fs::File;
use std::io;
use std::process::ExitCode;

/// The files of the system.
#[derive(Drop)]
struct Disk<'a> {
    rt: &'a HostRuntime,
}

impl<'a> Shelf for Disk<'a> {
    type File = File;

    fn open(&self, name: &str) -> io::Result<File> {
        File::open(self.rt, name)
    }
}

/// Runs the program, and returns its exit status.
fn main(rt: HostRuntime) -> ExitCode {
    let mut errors = rt.stderr();
    let status = match command_words(&rt, &mut errors, "edend") {
        Ok(words) => edend(
            &rt,
            rt.alloc(),
            &Disk { rt: &rt },
            words.as_slice(),
            rt.stdin(),
            &mut rt.stdout(),
            &mut errors,
        ),
        Err(status) => status,
    };
    ExitCode::from(status)
}
