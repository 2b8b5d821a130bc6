//! What a line changes of a mount, by the labels so far.

ghost use Rattle.std.specs.Prelude.{◌≡◌, Some, None, IfOk, IfErr};
ghost use Rattle.std.specs.Option.{option_or};
ghost use Rattle.eden_script.specs.Sessions.{change_of, path_refusal};
ghost use Rattle.eden_script.specs.Labels.{bound};

use crate::labels::Labels;
use bytes::Bytes;
use eden_history::Change;
use eden_ids::{Id, NoMemory, Path};
use eden_script::{ChangeLine, Label, Refusal, Word};

/// Returns the path that a word is, or why it is not a path.
pub(crate) fn path_of(word: Word) -> Result<Path, Refusal>
    ensures accepts { IfOk result (λ path. (path ≡ word) × (path_refusal word ≡ None)) }
    ensures refuses { IfErr result (λ cause. path_refusal word ≡ Some cause) }
{
    match Path::from_vec(word.into_bytes()) {
        Ok(path) => Ok(path),
        Err(refused) => Err(Refusal::Path(refused.cause)),
    }
}

/// Returns the commit that a label is bound to.
fn commit_of(labels: &Labels, label: &Label) -> Result<Id, Refusal>
    ensures accepts { IfOk result (λ commit. bound labels.now label.now ≡ Some commit) }
    ensures refuses { IfErr result (λ cause. (bound labels.now label.now ≡ None) × (cause ≡ Refusal.NoLabel)) }
{
    match labels.get(label) {
        Some(commit) => Ok(commit),
        None => Err(Refusal::NoLabel),
    }
}

/// Returns the two paths that words are, or why the first invalid one is not a path.
fn paths_of(old: Word, new: Word) -> Result<(Path, Path), Refusal>
    ensures accepts { IfOk result (λ paths. (paths ≡ (old, new)) × (path_refusal old ≡ None) × (path_refusal new ≡ None)) }
    ensures refuses { IfErr result (λ cause. option_or (path_refusal old) (path_refusal new) ≡ Some cause) }
{
    let old = path_of(old)?;
    let new = path_of(new)?;
    Ok((old, new))
}

/// Returns what a line changes, or why it changes nothing.
///
/// Whether the mount makes the change is not asked. The bytes are moved, and not copied. The line
/// is refused as `Path` for its first word that is not a path, and as `NoLabel` if its label is
/// bound to nothing.
///
/// # Errors
///
/// - `NoMemory` if an allocation fails.
pub fn change_of(labels: &Labels, line: ChangeLine) -> Result<Result<Change, Refusal>, NoMemory>
    ensures { IfOk result (λ told. told ≡ change_of labels.now line) }
{
    Ok(match line {
        ChangeLine::Write { path, kind, bytes } => {
            let bytes = Bytes::from_vec(bytes.into_bytes())?;
            path_of(path).map(|path| Change::Write { path, kind, bytes })
        }
        ChangeLine::Remove { path } => path_of(path).map(|path| Change::Remove { path }),
        ChangeLine::Rename { old, new } => {
            paths_of(old, new).map(|(old, new)| Change::Rename { old, new })
        }
        ChangeLine::RenameDir { old, new } => {
            paths_of(old, new).map(|(old, new)| Change::RenameDir { old, new })
        }
        ChangeLine::Reset { label } => {
            commit_of(labels, &label).map(|commit| Change::Reset { commit })
        }
        ChangeLine::Flush => Ok(Change::Flush),
        ChangeLine::Remount { generation } => Ok(Change::Remount { generation }),
        ChangeLine::Checkout { label, mode } => {
            commit_of(labels, &label).map(|commit| Change::Checkout { commit, mode })
        }
    })
}
