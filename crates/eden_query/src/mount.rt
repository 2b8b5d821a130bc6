//! A mount as a server of requests.

ghost use Rattle.std.specs.Prelude.{◌≡◌, List, None, IfOk};
ghost use Rattle.eden_ids.specs.FileMaps.{file_at};
ghost use Rattle.eden_globs.specs.Filters.{Patterns};
ghost use Rattle.eden_objects.specs.Commits.{commit_map};
ghost use Rattle.eden_accumulate.specs.Mounts.{StandsFor, files_of};
ghost use Rattle.eden_history.specs.Worlds.{WorldState, now, position_of};
ghost use Rattle.eden_history.specs.Status.{status_of};
ghost use Rattle.eden_messages.specs.Replies.{reply_of};
ghost use Rattle.eden_query.specs.Raws.{NamesCommits, patterns_of, told, wanted_told};
ghost use Rattle.eden_logs.specs.Histories.{settled_by, settled_of};
ghost use Rattle.eden_query.specs.Settled.{settled};
ghost use Rattle.eden_wire.specs.declared.question.Wants.{Wants};
ghost use Rattle.eden_wire.specs.Wanted.{wanted_of};

use crate::raw::Raw;
use crate::served::Served;
use eden_accumulate::Mount;
use eden_history::{Answer, Change, Position};
use eden_ids::{Content, Naming, NoMemory, Path};
use eden_messages::{Cause, Query, Request};
use eden_objects::Store;

/// Holds which files there are, for a basis.
#[tactic(auto, using(crate::proofs::Telling::based_tells, crate::proofs::Telling::based_wanted, crate::proofs::Telling::based_commits, crate::proofs::Telling::based_settled))]
fn hold_basis<N: Naming + Drop>(mount: &Mount<N>, query: Query) -> Result<Raw, NoMemory>
    ensures replies { IfOk result (λ raw. (world : WorldState) → StandsFor mount.now world → (patterns : Patterns)
        → told mount.now.held patterns raw ≡ reply_of world (Request.Basis query patterns)) }
    ensures wanted { IfOk result (λ raw. (world : WorldState) → StandsFor mount.now world → (patterns : Patterns) (wants : Wants)
        → wanted_told N.id mount.now.held patterns wants raw ≡ wanted_of N.id world wants (Request.Basis query patterns)) }
    ensures settled { IfOk result (λ raw. (world : WorldState) → StandsFor mount.now world → settled raw ≡ Ok (position_of (now world))) }
    ensures commits { IfOk result (λ raw. NamesCommits (commit_map mount.now.held) raw) }
{
    mount.stands_law();
    let snapshot = mount.snapshot()?;
    Ok(Raw::Based(query, snapshot))
}

/// Holds which files there are, for a list of those below a directory.
#[tactic(auto, using(crate::proofs::Telling::listed_tells, crate::proofs::Telling::listed_wanted, crate::proofs::Telling::listed_commits, crate::proofs::Telling::listed_settled))]
fn hold_list<N: Naming + Drop>(
    mount: &Mount<N>,
    query: Query,
    prefix: &Path,
) -> Result<Raw, NoMemory>
    ensures replies { IfOk result (λ raw. (world : WorldState) → StandsFor mount.now world → (patterns : Patterns)
        → told mount.now.held patterns raw ≡ reply_of world (Request.List query prefix.now patterns)) }
    ensures wanted { IfOk result (λ raw. (world : WorldState) → StandsFor mount.now world → (patterns : Patterns) (wants : Wants)
        → wanted_told N.id mount.now.held patterns wants raw ≡ wanted_of N.id world wants (Request.List query prefix.now patterns)) }
    ensures settled { IfOk result (λ raw. (world : WorldState) → StandsFor mount.now world → settled raw ≡ Ok (position_of (now world))) }
    ensures commits { IfOk result (λ raw. NamesCommits (commit_map mount.now.held) raw) }
{
    mount.stands_law();
    let snapshot = mount.snapshot()?;
    Ok(Raw::Listed(query, snapshot, prefix.copy()?))
}

/// Holds what changed since a position, or why that is refused.
#[tactic(auto, using(crate::proofs::Telling::ranged_tells, crate::proofs::Telling::refused_tells, crate::proofs::Telling::ranged_wanted, crate::proofs::Telling::refused_wanted, crate::proofs::Telling::ranged_commits, crate::proofs::Telling::ranged_settled, crate::proofs::Telling::refused_settled))]
fn hold_poll<N: Naming + Drop>(
    mount: &Mount<N>,
    query: Query,
    since: &Position,
) -> Result<Raw, NoMemory>
    ensures replies { IfOk result (λ raw. (world : WorldState) → StandsFor mount.now world → (patterns : Patterns)
        → told mount.now.held patterns raw ≡ reply_of world (Request.Poll query since.now patterns)) }
    ensures wanted { IfOk result (λ raw. (world : WorldState) → StandsFor mount.now world → (patterns : Patterns) (wants : Wants)
        → wanted_told N.id mount.now.held patterns wants raw ≡ wanted_of N.id world wants (Request.Poll query since.now patterns)) }
    ensures settled { IfOk result (λ raw. (world : WorldState) → StandsFor mount.now world
        → settled raw ≡ settled_by (position_of (now world)) (status_of world since.now)) }
    ensures commits { IfOk result (λ raw. NamesCommits (commit_map mount.now.held) raw) }
{
    mount.stands_law();
    match mount.owe_since(since) {
        Ok(range) => Ok(Raw::Ranged(query, range)),
        Err(fault) => Ok(Raw::Refused(query, Cause::of(fault)?)),
    }
}

/// Returns the file at a path, or `None` if there is no file.
///
/// It shares the file's bytes.
fn content_at<N: Naming + Drop>(mount: &Mount<N>, path: &Path) -> Result<Option<Content>, NoMemory>
    ensures { IfOk result (λ content. content ≡ file_at (files_of mount.now) path.now) }
{
    Content::of_lent(mount.work().file(mount.store(), path.as_bytes()))
}

/// Holds what a request asks for.
#[tactic(auto, using(crate::proofs::Telling::held_tells, crate::proofs::Telling::held_wanted, crate::proofs::Telling::held_commits, crate::proofs::Telling::held_settled))]
fn hold<N: Naming + Drop>(mount: &Mount<N>, request: &Request) -> Result<Raw, NoMemory>
    ensures replies { IfOk result (λ raw. (world : WorldState) → StandsFor mount.now world
        → told mount.now.held (patterns_of request.now) raw ≡ reply_of world request.now) }
    ensures wanted { IfOk result (λ raw. (world : WorldState) → StandsFor mount.now world → (wants : Wants)
        → wanted_told N.id mount.now.held (patterns_of request.now) wants raw ≡ wanted_of N.id world wants request.now) }
    ensures settled { IfOk result (λ raw. (world : WorldState) → StandsFor mount.now world → settled raw ≡ settled_of world request.now) }
    ensures commits { IfOk result (λ raw. NamesCommits (commit_map mount.now.held) raw) }
{
    match request {
        Request::Basis { query, .. } => hold_basis(mount, *query),
        Request::Poll { query, since, .. } => hold_poll(mount, *query, since),
        Request::Fetch { query, path } => {
            mount.stands_law();
            let content = content_at(mount, path)?;
            Ok(Raw::Held(*query, mount.position(), path.copy()?, content))
        }
        Request::List { query, prefix, .. } => hold_list(mount, *query, prefix),
    }
}

impl<N: Naming + Drop> Served<N> for Mount<N> {
    ghost use Rattle.eden_accumulate.specs.Mounts.{Answers, Follows, StandsFor};

    ghost stands_for = { λ mount world. StandsFor mount world };

    ghost spelled = { λ _ _ stands. (stands.is_world, stands.spellable) };

    ghost held = { λ mount. mount.held };

    // A mount stores no history.
    ghost stored = { λ _. None };

    // The change was made once, and this is its answer.
    ghost apply_gives = { λ before _ change answer after. Answers N.id before change answer × Follows N.id before change after };

    // A request changes nothing.
    ghost hold_gives = { λ before _ _ _ after. after ≡ before };

    fn store(&self) -> &Store<N> {
        self.store()
    }

    fn taken(&self) -> Option<u64> {
        None
    }

    #[tactic(auto, using(crate::proofs::Telling::named_answerable))]
    fn hold(&mut self, _caller: u64, request: &Request) -> Result<(Raw, Store<N>), NoMemory> {
        self.stands_law();
        let raw = hold(self, request)?;
        Ok((raw, self.share()?))
    }

    fn apply(&mut self, _caller: u64, change: &Change) -> Result<Answer, NoMemory> {
        self.stands_law();
        self.apply(change)
    }
}
