//! What the lines that ask a mount come to.

ghost use Rattle.std.specs.Prelude.{◌≡◌, IfOk, filter, map};
ghost use Rattle.eden_globs.specs.Filters as globs;
ghost use Rattle.eden_ids.specs.FileMaps.{paths};
ghost use Rattle.eden_history.specs.Worlds.{WorldState, now};
ghost use Rattle.eden_accumulate.specs.Mounts.{StandsFor};
ghost use Rattle.eden_script.specs.Sessions.{asked};

use crate::changes::path_of;
use eden_accumulate::Mount;
use eden_globs::{Filter, FilterFault};
use eden_history::{Answer, Position, SinceFault};
use eden_ids::{GitNaming, Id, NoMemory, Path, Sequence};
use eden_objects::CommitFault;
use eden_script::{AskLine, Lent, Refusal, Told, Word};
use std::alloc::{AllocError, Global};

/// Returns the bytes of some words.
fn bytes_of(alloc: Global, words: &[Word]) -> Result<Vec<&[u8]>, AllocError>
    ensures { IfOk result (λ bytes. map (λ b. b.now) bytes.items ≡ words.now) }
{
    let mut bytes = Vec::new(alloc);
    for word in words {
        bytes.push(word.as_bytes())?;
    }
    Ok(bytes)
}

/// Lists the paths of the files that a filter admits.
#[tactic(auto, using(crate::proofs::Asking::root_there, crate::proofs::Asking::snapshot_lists))]
fn listed(mount: &Mount<GitNaming>, wanted: &Filter) -> Result<Vec<Path>, NoMemory>
    ensures { IfOk result (λ listed. (world : WorldState) → StandsFor mount.now world → listed.items ≡ filter (globs.admits wanted.now) (paths (now world).files)) }
{
    mount.stands_law();
    let snapshot = mount.snapshot()?;
    match snapshot.files(mount.store(), wanted) {
        Ok(paths) => Ok(paths),
        // A mount's root is a commit of its objects.
        Err(CommitFault::NoCommit) => unreachable!(),
        Err(CommitFault::NoMemory) => Err(NoMemory),
    }
}

/// Returns the present position.
///
/// Does not allocate.
fn position(mount: &Mount<GitNaming>) -> Told<'_>
    ensures { (world : WorldState) → StandsFor mount.now world → result ≡ asked world AskLine.Position }
{
    Told::Answer(Answer::At(mount.position()))
}

/// Lists the paths of the files that some patterns admit.
fn list<'a>(mount: &'a Mount<GitNaming>, patterns: &[Word]) -> Result<Told<'a>, NoMemory>
    ensures { IfOk result (λ told. (world : WorldState) → StandsFor mount.now world → told ≡ asked world (AskLine.ListFiles patterns.now)) }
{
    let alloc = mount.store().allocator();
    let bytes = bytes_of(alloc, patterns)?;
    match Filter::parse(alloc, bytes.as_slice()) {
        Ok(wanted) => {
            let paths = listed(mount, &wanted)?;
            Ok(Told::Files(Sequence::from_vec(paths)))
        }
        Err(FilterFault::NoMemory) => Err(NoMemory),
        Err(fault) => Ok(Told::Refused(Refusal::Patterns(fault))),
    }
}

/// Lists the paths at which the files differ from those of the commit.
#[tactic(auto, using(crate::proofs::Asking::dirty_asked))]
fn dirty(mount: &Mount<GitNaming>) -> Result<Told<'_>, NoMemory>
    ensures { IfOk result (λ told. (world : WorldState) → StandsFor mount.now world → told ≡ asked world AskLine.Dirty) }
{
    let paths = mount.work().dirty(mount.store())?;
    Ok(Told::Dirty(Sequence::from_vec(paths)))
}

/// Returns the file at a path.
///
/// Does not allocate: the bytes are lent.
fn read(mount: &Mount<GitNaming>, path: Word) -> Told<'_>
    ensures { (world : WorldState) → StandsFor mount.now world → result ≡ asked world (AskLine.Read path) }
{
    let path = match path_of(path) {
        Ok(path) => path,
        Err(cause) => return Told::Refused(cause),
    };
    match mount.read(&path) {
        Ok((kind, bytes)) => {
            let bytes = Lent::new(bytes);
            Told::File { kind, bytes }
        }
        Err(fault) => Told::Refused(Refusal::File(fault)),
    }
}

/// Returns what changed since a position.
fn since(mount: &Mount<GitNaming>, generation: u64, sequence: u64) -> Result<Told<'_>, NoMemory>
    ensures { IfOk result (λ told. (world : WorldState) → StandsFor mount.now world → told ≡ asked world (AskLine.Since generation sequence)) }
{
    let position = Position {
        generation,
        sequence,
        root: Id::ZERO,
    };
    match mount.changes_since(&position) {
        Ok(changes) => Ok(Told::Changes {
            marked: Sequence::from_vec(changes.marked),
            prefixes: changes.prefixes,
            to: changes.to,
        }),
        Err(SinceFault::NoMemory) => Err(NoMemory),
        Err(fault) => Ok(Told::Refused(Refusal::Since(fault))),
    }
}

/// Returns what a line that asks a mount comes to.
///
/// # Errors
///
/// - `NoMemory` if an allocation fails.
pub(crate) fn ask(mount: &Mount<GitNaming>, line: AskLine) -> Result<Told<'_>, NoMemory>
    ensures { IfOk result (λ told. (world : WorldState) → StandsFor mount.now world → told ≡ asked world line) }
{
    match line {
        AskLine::Position => Ok(position(mount)),
        AskLine::ListFiles { patterns } => list(mount, patterns.as_slice()),
        AskLine::Dirty => dirty(mount),
        AskLine::Read { path } => Ok(read(mount, path)),
        AskLine::Since {
            generation,
            sequence,
        } => since(mount, generation, sequence),
    }
}
