//! What goes wrong while a mount is served, as standard error shows it.

use crate::ends::EDEND;
use crate::reason::Excerpt;
use eden_history::{Change, ChangeFault};
use eden_serve::Observer;
use eden_stream::FrameFault;
use std::io::Write;
use std::sync::{Mutex, Wait};

/// Where it is printed, and how often each was heard.
#[derive(Drop)]
struct Heard<'a, E> {
    errors: &'a mut E,
    changes: u64,
    frames: u64,
    late: u64,
    away: u64,
    taken: u64,
}

/// Prints what goes wrong while a mount is served when it happens, and counts it. Without
/// `--verbose` it does nothing.
#[derive(Drop)]
pub(crate) struct Log<'a, 'b, E, R: Wait> {
    rt: &'b R,
    is_verbose: bool,
    heard: Mutex<Heard<'a, E>>,
}

/// Returns the word of a line that asks for such a change, and the path that comes after it.
fn line_of(change: &Change) -> (&'static str, &[u8]) {
    match change {
        Change::Write { path, .. } => ("write ", path.as_bytes()),
        Change::Remove { path } => ("remove ", path.as_bytes()),
        Change::Rename { old, .. } => ("rename ", old.as_bytes()),
        Change::RenameDir { old, .. } => ("renamedir ", old.as_bytes()),
        Change::Checkout { .. } => ("checkout", b""),
        Change::Reset { .. } => ("reset", b""),
        Change::Flush => ("flush", b""),
        Change::Remount { .. } => ("remount", b""),
        Change::Import { .. } => ("import", b""),
    }
}

impl<'a, 'b, E: Write, R: Wait> Log<'a, 'b, E, R> {
    /// Returns a log that has heard nothing.
    pub(crate) fn new(rt: &'b R, errors: &'a mut E, is_verbose: bool) -> Log<'a, 'b, E, R> {
        let heard = Heard {
            errors,
            changes: 0,
            frames: 0,
            late: 0,
            away: 0,
            taken: 0,
        };
        Log {
            rt,
            is_verbose,
            heard: Mutex::new(heard),
        }
    }

    /// Prints how often each was heard, if anything was.
    pub(crate) fn finish(self) {
        let Heard {
            errors,
            changes,
            frames,
            late,
            away,
            taken,
        } = self.heard.into_inner();
        if changes > 0 || frames > 0 || late > 0 || away > 0 || taken > 0 {
            let _ = write!(
                errors,
                "{EDEND}: refused changes: {changes}; connections that ended at an invalid frame: {frames}, since their peer was too slow: {late}, since no place was free: {away}; times that all places were taken: {taken}\n"
            );
        }
    }
}

impl<'a, 'b, E: Write, R: Wait> Observer for Log<'a, 'b, E, R> {
    fn change_refused(&self, change: &Change, fault: ChangeFault) {
        if self.is_verbose {
            let (word, path) = line_of(change);
            let path = Excerpt(path);
            let mut heard = self.heard.lock(self.rt);
            heard.changes = heard.changes.saturating_add(1);
            let _ = write!(
                heard.errors,
                "{EDEND}: `{word}{path}` was refused: {fault}\n"
            );
        }
    }

    fn line_refused(&self, number: u64) {
        if self.is_verbose {
            let mut heard = self.heard.lock(self.rt);
            let _ = write!(
                heard.errors,
                "{EDEND}: line {number} can't be read, so no line changes the mount any more\n"
            );
        }
    }

    fn frame_refused(&self, number: u64, fault: FrameFault) {
        if self.is_verbose {
            let mut heard = self.heard.lock(self.rt);
            heard.frames = heard.frames.saturating_add(1);
            let _ = write!(
                heard.errors,
                "{EDEND}: a connection has ended: frame {number}: {fault}\n"
            );
        }
    }

    fn peer_late(&self) {
        if self.is_verbose {
            let mut heard = self.heard.lock(self.rt);
            heard.late = heard.late.saturating_add(1);
            let _ = write!(
                heard.errors,
                "{EDEND}: a connection has ended: its peer took longer than the limit\n"
            );
        }
    }

    fn turned_away(&self) {
        if self.is_verbose {
            let mut heard = self.heard.lock(self.rt);
            heard.away = heard.away.saturating_add(1);
            let _ = write!(
                heard.errors,
                "{EDEND}: a connection has ended: no place was free within the limit\n"
            );
        }
    }

    fn places_taken(&self) {
        if self.is_verbose {
            let mut heard = self.heard.lock(self.rt);
            heard.taken = heard.taken.saturating_add(1);
            let _ = write!(
                heard.errors,
                "{EDEND}: all places are taken; the next connection waits\n"
            );
        }
    }
}
