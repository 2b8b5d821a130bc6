//! Whether followers have followed, and what an audit says.

ghost use Rattle.std.specs.Prelude.{◌≡◌, ◌↔◌, true, All, Ok, IsTrue, IfOk};
ghost use Rattle.eden_accumulate.specs.Mounts.{StandsFor};
ghost use Rattle.eden_demo.specs.Followings.{HasFollowed, HoldsAll};
ghost use Rattle.eden_history.specs.Worlds.{WorldState, now};
ghost use Rattle.eden_ids.specs.FileMaps.{file_at};
ghost use Rattle.eden_ids.specs.Naming.{git_name};
ghost use Rattle.eden_logs.specs.Logs.{LogsAgree};
ghost use Rattle.eden_overlay.specs.Listings.{admitted};

use crate::verdict::Verdict;
use eden_accumulate::Mount;
use eden_follow::{Follower, VouchFault, vouch};
use eden_ids::{GitNaming, NoMemory, Path};
use eden_mirror::Mirror;
use eden_objects::CommitFault;
use eden_shared::{AuditFault, Audited, CallLog, audit};
use std::alloc::Global;

/// Returns the paths of a mount's files that a mirror's filter admits.
fn wanted(mirror: &Mirror, mount: &Mount<GitNaming>) -> Result<Vec<Path>, NoMemory>
    ensures { IfOk result (λ list. (world : WorldState) → StandsFor mount.now world → list.items ≡ admitted mirror.now.patterns (now world).files) }
{
    mount.stands_law();
    match mount.snapshot()?.files(mount.store(), mirror.filter()) {
        Ok(paths) => Ok(paths),
        Err(CommitFault::NoMemory) => Err(NoMemory),
        // A store has the commit of its mount.
        Err(CommitFault::NoCommit) => unreachable!(),
    }
}

/// Returns whether two lists of paths are equal.
fn same_paths(one: &[Path], other: &[Path]) -> bool
    ensures { IsTrue result ↔ (one.now ≡ other.now) }
{
    one == other
}

/// Returns whether a mirror and a mount hold the same file at a path.
fn is_same_at(mirror: &Mirror, mount: &Mount<GitNaming>, path: &Path) -> bool
    ensures { IsTrue result → (world : WorldState) → StandsFor mount.now world
        → file_at mirror.now.files path.now ≡ file_at (now world).files path.now }
{
    match (mirror.get(path), mount.read(path)) {
        (Some(content), Ok((kind, bytes))) => {
            content.kind == kind && content.bytes.as_slice() == bytes
        }
        _ => false,
    }
}

/// Returns whether they do at each of these paths.
fn are_same(mirror: &Mirror, mount: &Mount<GitNaming>, paths: &[Path]) -> bool
    ensures { IsTrue result → (world : WorldState) → StandsFor mount.now world
        → All (λ path. file_at mirror.now.files path ≡ file_at (now world).files path) paths.now }
{
    for path in paths {
        if !is_same_at(mirror, mount, path) {
            return false;
        }
    }
    true
}

/// Returns whether a mirror holds what a mount holds of the paths that it wants: the same files at
/// the same paths.
fn holds_all(mirror: &Mirror, mount: &Mount<GitNaming>) -> Result<bool, NoMemory>
    ensures { IfOk result (λ held. held ≡ true → (world : WorldState) → StandsFor mount.now world → HoldsAll mirror.now (now world).files) }
{
    let paths = mirror.files()?;
    let wanted = wanted(mirror, mount)?;
    if !same_paths(paths.as_slice(), wanted.as_slice()) {
        return Ok(false);
    }
    Ok(are_same(mirror, mount, paths.as_slice()))
}

/// Returns whether the logs vouch for a follower, and its mirror holds what the mount holds.
fn has_followed(
    alloc: Global,
    mount: &Mount<GitNaming>,
    logs: &[CallLog],
    follower: &Follower,
) -> Result<bool, NoMemory>
    ensures { IfOk result (λ followed. followed ≡ true → HasFollowed logs.now mount.now follower.now) }
{
    match vouch(alloc, logs, follower) {
        Ok(()) => holds_all(follower.mirror(), mount),
        Err(VouchFault::NoMemory) => Err(NoMemory),
        Err(_) => Ok(false),
    }
}

/// Returns whether that is so of all followers.
fn have_followed(
    alloc: Global,
    mount: &Mount<GitNaming>,
    logs: &[CallLog],
    followers: &[Follower],
) -> Result<bool, NoMemory>
    ensures { IfOk result (λ followed. followed ≡ true → All (HasFollowed logs.now mount.now) followers.now) }
{
    for follower in followers {
        if !has_followed(alloc, mount, logs, follower)? {
            return Ok(false);
        }
    }
    Ok(true)
}

/// Audits the logs, and compares the followers with the mount.
pub(crate) fn verdict_of(
    alloc: Global,
    audited: &mut Audited<GitNaming>,
    logs: &[CallLog],
    followers: &[Follower],
) -> Result<Verdict, NoMemory>
    ensures audit { IfOk result (λ verdict. verdict.audit ≡ Ok tt → (world : WorldState) → StandsFor audited.old.opening world
        → LogsAgree git_name world audited.old.entries logs.now) }
    ensures agree { IfOk result (λ verdict. verdict.agree ≡ true → All (HasFollowed logs.now audited.old.present) followers.now) }
{
    let audit = audit(alloc, audited, logs);
    if let Err(AuditFault::NoMemory) = audit {
        return Err(NoMemory);
    }
    let agree = have_followed(alloc, audited.mount(), logs, followers)?;
    Ok(Verdict { audit, agree })
}
