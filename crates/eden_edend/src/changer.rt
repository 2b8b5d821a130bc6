//! The lines after `listen`, which change what was opened.

ghost use Rattle.std.specs.Prelude.{◌≡◌, ◌⊎◌, ⊤, ◌+◌, ◌^◌, ◌≤◌, IfOk, IsErrOf, OnErr, OnOk};
ghost use Rattle.eden_stream.specs.Counts.{Rose, RoseBy};
ghost use Rattle.eden_history.specs.declared.change.Change.{Change};
ghost use Rattle.eden_script.specs.Sessions.{change_of};
ghost use Rattle.eden_edend.specs.Changings.{EndsChanging, Loses, Makes, change_read};
ghost use Rattle.eden_edend.specs.internal.ChangeStory.{numbered};

use crate::changes::change_of;
use crate::labels::Labels;
use crate::session::read_line;
use eden_history::Change;
use eden_ids::NoMemory;
use eden_script::{ChangeLine, Command};
use eden_stream::{CountedRead, Lines, Nowhere, RunFault, Step, Teller, tell_lines};
use std::alloc::{AllocError, Global};

/// What makes the changes that lines ask for.
pub trait Changer {
    // What it is after a change that was made of what it was before, or refused by its mount.
    ghost made: { Self → Change → Self → Type 0 };

    // What is known of it after a change for which there was no memory.
    ghost lost: { Self → Change → Self → Type 0 } = { λ _ _ _. ⊤ };

    /// Makes a change. Whether the mount has refused it doesn't matter here.
    ///
    /// `NoMemory` if an allocation fails.
    fn change(&mut self, change: &Change) -> Result<(), NoMemory>
        ensures ok { OnOk result (made self.old change.now self.new) }
        ensures err { OnErr result (lost self.old change.now self.new) };
}

/// Returns what a line changes, if it is one that changes a mount.
fn read_change(alloc: Global, line: &[u8]) -> Result<Option<ChangeLine>, AllocError>
    ensures { IfOk result (λ change. change ≡ change_read line.now) }
{
    match read_line(alloc, line)? {
        Some(Command::Change(change)) => Ok(Some(change)),
        _ => Ok(None),
    }
}

/// Makes the change that a line asks for.
///
/// A line that is refused for its label or a path changes nothing, nor does one whose change
/// itself finds no memory.
fn make<C: Changer>(labels: &Labels, line: ChangeLine, changer: &mut C) -> Result<(), NoMemory>
    ensures ok { OnOk result (Makes C.made (change_of labels.now line) changer.old changer.new) }
    ensures err { OnErr result ((changer.new ≡ changer.old) ⊎ Loses C.lost (change_of labels.now line) changer.old changer.new) }
{
    match change_of(labels, line)? {
        Ok(change) => changer.change(&change),
        Err(_) => Ok(()),
    }
}

/// Has a changer make the changes of lines.
#[derive(Drop)]
struct Changing<'a> {
    alloc: Global,
    labels: &'a Labels,
}

impl<'a, C: Changer> Teller<Lines, C, ()> for Changing<'a> {
    ghost use Rattle.eden_edend.specs.internal.ChangeStory.{changing_laws, changing_story};

    ghost story = { λ changing before now. changing_story C.made C.lost changing.labels.now before now };

    fn answer(&self, changer: &mut C, line: &[u8], _text: &mut Vec<u8>) -> Step<()> {
        let change = match read_change(self.alloc, line) {
            Ok(Some(change)) => change,
            Ok(None) => return Step::Fault(()),
            Err(_) => return Step::NoMemory,
        };
        match make(self.labels, change, changer) {
            Ok(()) => Step::Told,
            Err(_) => Step::NoMemory,
        }
    }

    ghost lawful = { λ changing before now. changing_laws C.made C.lost changing.labels.now before now };
}

/// The most reads: 2^47.
const MOST_READS: u64 = 140_737_488_355_328;

/// Returns how a run ended, with its numbers of lines counted on from this one.
fn numbered(from: u64, outcome: Result<u64, RunFault>) -> Result<u64, RunFault>
    ensures { result ≡ numbered from outcome }
{
    match outcome {
        Ok(count) => Ok(from.saturating_add(count)),
        Err(RunFault::BadLine(line)) => Err(RunFault::BadLine(from.saturating_add(line))),
        Err(fault) => Err(fault),
    }
}

/// Makes the changes of the lines after `listen`, and returns the last number.
///
/// The number of the line `listen` is `from`, and the others count on from it.
///
/// The lines are those of a script that change a mount: write, remove, rename, renamedir, checkout,
/// reset, flush and remount. Each is read by these labels as in a script, and nothing is printed.
/// One that is refused for its label or a path changes nothing. Empty lines and comments are
/// skipped and counted.
///
/// A read asks for 64 KiB. All lines that are there are run before the next read.
///
/// # Errors
///
/// - `BadLine`: the line of this number is no such line, or it has more than 65,536 bytes. The
///   changes of the lines before it are made.
/// - `Read`: the device failed in this call. The changes of the whole lines that were read are
///   made.
/// - `TurnsSpent`: 2^47 reads in this call did not come to the end. The changes of the whole lines
///   that were read are made.
/// - `NoMemory` if an allocation fails. The changes of some first lines are made, and that of the
///   next one may be.
pub fn run_changes<R: CountedRead, C: Changer>(
    alloc: Global,
    reader: &mut R,
    labels: &Labels,
    from: u64,
    changer: &mut C,
) -> Result<u64, RunFault>
    ensures ends { EndsChanging C.made C.lost labels.now from (R.remaining reader.old) (R.remaining reader.new) changer.old changer.new result }
    ensures read { IsErrOf result RunFault.Read → Rose (R.failed reader.old) (R.failed reader.new) }
    ensures turns_spent { IsErrOf result RunFault.TurnsSpent → RoseBy (2 ^ 47) (R.called reader.old) (R.called reader.new) }
    ensures turns { R.called reader.new ≤ R.called reader.old + 2 ^ 47 }
{
    let changing = Changing { alloc, labels };
    let mut writer = Nowhere::new();
    let outcome = tell_lines(alloc, reader, &mut writer, &changing, changer, MOST_READS);
    numbered(from, outcome)
}
