//! Replies that no round awaits change nothing.

use crate::daemon::{Pair, Step, opened_world};
use crate::wanted::{Said, basis, content, created, listed, position, query, refused};
use eden_globs::Filter;
use eden_ids::GitNaming;
use eden_messages::{Cause, Outcome, Query, Reply};
use eden_mirror::Mirror;
use eden_world::World;
use std::alloc::Global;
use std::test::Fail;

/// The kinds of rounds.
#[derive(Clone, Copy, Debug, PartialEq, Eq)]
enum Round {
    /// None, and the mirror was never placed.
    NoneYet,
    /// None, and the mirror is placed.
    Over,
    /// All paths were asked for.
    AllAsked,
    /// The changes were asked for.
    ChangesAsked,
    /// The content of `p` is awaited, for 7/2.
    Gathering,
    /// The list of what stands below `d` is awaited, for 7/2.
    Listing,
}

const ROUNDS: &[Round] = &[
    Round::NoneYet,
    Round::Over,
    Round::AllAsked,
    Round::ChangesAsked,
    Round::Gathering,
    Round::Listing,
];

/// The kinds of replies.
#[derive(Clone, Copy, Debug, PartialEq, Eq)]
enum Kind {
    Basis,
    Changes,
    Content,
    List,
    Stale,
    TooLarge,
}

const KINDS: &[Kind] = &[
    Kind::Basis,
    Kind::Changes,
    Kind::Content,
    Kind::List,
    Kind::Stale,
    Kind::TooLarge,
];

/// What leads from one round to the next.
const WAY: &[Step] = &[
    Step::Begin,
    Step::Goes(Said::Basis(1, (7, 1), &[]), Outcome::Placed),
    Step::Write("p", "x"),
    Step::Begin,
    Step::Goes(Said::Created(2, (7, 2), "p"), Outcome::Taken),
    Step::Goes(Said::Content(2, (7, 2), "p", "x"), Outcome::Placed),
    Step::Begin,
    Step::Comes(Said::Moved(3, (7, 2), &["d"]), Outcome::Taken),
];

/// How many steps lead to such a round, and the number of the mirror's last one.
fn steps_to(round: Round) -> (usize, u64) {
    match round {
        Round::NoneYet => (0, 0),
        Round::AllAsked => (1, 1),
        Round::Over => (3, 1),
        Round::ChangesAsked => (4, 2),
        Round::Gathering => (5, 2),
        Round::Listing => (8, 3),
    }
}

/// A mirror of a world that is in such a round, and the question of its last round.
fn mirror_in(alloc: Global, round: Round) -> Result<(Pair<World<GitNaming>>, Query), Fail> {
    let (steps, number) = steps_to(round);
    let mut pair = Pair::new(alloc, opened_world(alloc)?);
    pair.goes(WAY.get(..steps).unwrap_or(WAY))?;
    Ok((pair, query(number)))
}

/// A reply of a kind that would be right for 7/2, but that it tells a strange file.
fn reply_of(alloc: Global, query: Query, kind: Kind) -> Result<Reply, Fail> {
    let here = position(7, 2);
    match kind {
        Kind::Basis => basis(alloc, query, here, &["p"]),
        Kind::Changes => created(alloc, query, here, "p"),
        Kind::Content => content(alloc, query, here, "p", "strange"),
        Kind::List => listed(alloc, query, here, "d", &["d/strange"]),
        Kind::Stale => Ok(refused(query, Cause::Stale(8))),
        Kind::TooLarge => Ok(refused(query, Cause::TooLarge)),
    }
}

/// Whether a reply of this kind, to the question of the round, counts in it.
fn is_awaited(round: Round, kind: Kind) -> bool {
    match round {
        Round::NoneYet | Round::Over => false,
        Round::AllAsked => matches!(kind, Kind::Basis | Kind::Stale | Kind::TooLarge),
        Round::ChangesAsked => matches!(kind, Kind::Changes | Kind::Stale | Kind::TooLarge),
        Round::Gathering => kind == Kind::Content,
        Round::Listing => matches!(kind, Kind::List | Kind::TooLarge),
    }
}

/// Where a mirror is placed, and what it asks.
fn place_and_requests(alloc: Global, mirror: &Mirror) -> Result<String, Fail> {
    let position = mirror.position();
    let requests = mirror.outstanding()?;
    Ok(format!(in alloc; "{position:?} {requests:?}")?)
}

/// Adds the files of a mirror to a text.
fn add_files(alloc: Global, mirror: &Mirror, text: &mut String) -> Result<(), Fail> {
    for path in &mirror.files()? {
        let content = mirror.get(path);
        let line = format!(in alloc; " {path:?} {content:?}")?;
        text.push_str(line.as_str())?;
    }
    Ok(())
}

/// All that a mirror shows.
fn shown(alloc: Global, mirror: &Mirror) -> Result<String, Fail> {
    let mut text = place_and_requests(alloc, mirror)?;
    add_files(alloc, mirror, &mut text)?;
    Ok(text)
}

/// Delivers a reply that is ignored and changes nothing.
fn ignores(pair: &mut Pair<World<GitNaming>>, reply: &Reply, said: &str) -> Result<(), Fail> {
    let before = shown(pair.alloc, &pair.mirror)?;
    let outcome = pair.delivered(reply)?;
    let after = shown(pair.alloc, &pair.mirror)?;
    if outcome == Outcome::Ignored && before == after {
        return Ok(());
    }
    Err(Fail::new(format_args!("{said}: {outcome:?}, {before} and then {after}")))
}

/// A question of a mirror in a life, by its number.
fn asked_by(mirror: u64, life: u64, number: u64) -> Query {
    Query {
        mirror,
        life,
        number,
    }
}

/// What is strange of a content or a list, and of what it is told: the mirror, the life and the number of the question, the generation and the
/// number of the position, and the path.
type Strange = (&'static str, u64, u64, u64, u64, u64, &'static str);

/// The content of `p` at 7/2 is awaited by the second round of mirror 1.
const CONTENTS: &[Strange] = &[
    ("another mirror", 2, 1, 2, 7, 2, "p"),
    ("another life", 1, 2, 2, 7, 2, "p"),
    ("an old round", 1, 1, 1, 7, 2, "p"),
    ("a round to come", 1, 1, 3, 7, 2, "p"),
    ("another generation", 1, 1, 2, 8, 2, "p"),
    ("an earlier position", 1, 1, 2, 7, 1, "p"),
    ("another path", 1, 1, 2, 7, 2, "q"),
    ("a path below", 1, 1, 2, 7, 2, "p/q"),
];

/// A list of `d` at 7/2 is awaited by its third round.
const LISTS: &[Strange] = &[
    ("another mirror", 2, 1, 3, 7, 2, "d"),
    ("another life", 1, 2, 3, 7, 2, "d"),
    ("an old round", 1, 1, 2, 7, 2, "d"),
    ("a round to come", 1, 1, 4, 7, 2, "d"),
    ("another generation", 1, 1, 3, 8, 2, "d"),
    ("an earlier position", 1, 1, 3, 7, 1, "d"),
    ("another directory", 1, 1, 3, 7, 2, "p"),
    ("a directory below", 1, 1, 3, 7, 2, "d/e"),
];

/// Then the content comes.
const RIGHT: &[Step] = &[
    Step::Goes(Said::Content(2, (7, 2), "p", "x"), Outcome::Placed),
    Step::Holds(Some((7, 2)), &[("p", "x")]),
];

/// Delivers strange contents to a mirror that awaits one, then what would have answered its question, which was answered before, and at
/// last the right content.
fn takes_right_content(pair: &mut Pair<World<GitNaming>>, asked: Query) -> Result<(), Fail> {
    for (said, mirror, life, number, generation, sequence, at) in CONTENTS {
        let query = asked_by(*mirror, *life, *number);
        let here = position(*generation, *sequence);
        let reply = content(pair.alloc, query, here, at, "strange")?;
        ignores(pair, &reply, said)?;
    }
    for kind in [Kind::Changes, Kind::TooLarge] {
        let reply = reply_of(pair.alloc, asked, kind)?;
        ignores(pair, &reply, "an answer that comes again")?;
    }
    pair.goes(RIGHT)
}

#[test]
fn strange_replies(rt: HostRuntime) -> Result<(), Fail> {
    let (mut pair, asked) = mirror_in(rt.alloc(), Round::Gathering)?;
    takes_right_content(&mut pair, asked)
}

/// Delivers strange lists to a mirror that awaits one, and at last the right one.
fn takes_right_list(pair: &mut Pair<World<GitNaming>>) -> Result<(), Fail> {
    for (said, mirror, life, number, generation, sequence, at) in LISTS {
        let query = asked_by(*mirror, *life, *number);
        let here = position(*generation, *sequence);
        let reply = listed(pair.alloc, query, here, at, &[])?;
        ignores(pair, &reply, said)?;
    }
    pair.goes(&[
        Step::Comes(Said::Listed(3, (7, 3), "d", &[]), Outcome::Placed),
        Step::Comes(Said::Listed(3, (7, 3), "d", &[]), Outcome::Ignored),
        Step::Holds(Some((7, 2)), &[("p", "x")]),
    ])
}

#[test]
fn strange_lists(rt: HostRuntime) -> Result<(), Fail> {
    let (mut pair, _) = mirror_in(rt.alloc(), Round::Listing)?;
    takes_right_list(&mut pair)
}

/// Whose question a reply answers: the mirror, its life, and whether the round is one to come.
const ASKED: &[(&str, u64, u64, bool)] = &[
    ("its own", 1, 1, false),
    ("another mirror's", 2, 1, false),
    ("another life's", 1, 2, false),
    ("a later one's", 1, 1, true),
];

/// Whatever question it answers, a reply of a kind changes nothing that is not awaited in such a round.
fn ignores_unasked(
    pair: &mut Pair<World<GitNaming>>,
    own: Query,
    round: Round,
    kind: Kind,
) -> Result<(), Fail> {
    for (said, mirror, life, to_come) in ASKED {
        let number = if *to_come { 4 } else { own.number };
        let asked = asked_by(*mirror, *life, number);
        if asked != own || !is_awaited(round, kind) {
            let reply = reply_of(pair.alloc, asked, kind)?;
            let line = format!(in pair.alloc; "{round:?}, {kind:?} to {said}")?;
            ignores(pair, &reply, line.as_str())?;
        }
    }
    Ok(())
}

/// So it is of replies of each kind.
fn ignores_all_unasked(
    pair: &mut Pair<World<GitNaming>>,
    own: Query,
    round: Round,
) -> Result<(), Fail> {
    for kind in KINDS {
        ignores_unasked(pair, own, round, *kind)?;
    }
    Ok(())
}

/// So it is of a mirror that is in such a round.
fn ignores_out_of(alloc: Global, round: Round) -> Result<(), Fail> {
    let (mut pair, own) = mirror_in(alloc, round)?;
    ignores_all_unasked(&mut pair, own, round)
}

#[test]
fn replies_out_of_their_round(rt: HostRuntime) -> Result<(), Fail> {
    for round in ROUNDS {
        ignores_out_of(rt.alloc(), *round)?;
    }
    Ok(())
}

/// What comes of a reply of a kind that is awaited.
fn outcome_of(kind: Kind) -> Outcome {
    match kind {
        Kind::Basis | Kind::Changes | Kind::List => Outcome::Taken,
        Kind::Content => Outcome::Placed,
        Kind::Stale => Outcome::Unplaced,
        Kind::TooLarge => Outcome::Ended,
    }
}

/// Whether a reply of an awaited kind, to its own question, counts at a mirror.
fn takes(pair: &mut Pair<World<GitNaming>>, own: Query, kind: Kind) -> Result<bool, Fail> {
    let reply = reply_of(pair.alloc, own, kind)?;
    Ok(pair.delivered(&reply)? == outcome_of(kind))
}

/// Whether a reply of a kind counts in such a round, as far as it is awaited there.
fn counts(alloc: Global, round: Round, kind: Kind) -> Result<bool, Fail> {
    if !is_awaited(round, kind) {
        return Ok(true);
    }
    let (mut pair, own) = mirror_in(alloc, round)?;
    takes(&mut pair, own, kind)
}

#[test]
fn awaited_replies_count(rt: HostRuntime) -> Result<(), Fail> {
    for round in ROUNDS {
        for kind in KINDS {
            assert!(rt; counts(rt.alloc(), *round, *kind)?, "{round:?}, {kind:?}");
        }
    }
    Ok(())
}

/// Delivers replies to the life before, before the first round of the new one and in it.
fn ignores_old(pair: &mut Pair<World<GitNaming>>, old: Query) -> Result<(), Fail> {
    for _ in 0..2 {
        for kind in KINDS {
            let reply = reply_of(pair.alloc, old, *kind)?;
            ignores(pair, &reply, "a reply to the life before")?;
        }
        pair.begin()?;
    }
    Ok(())
}

#[test]
fn begun_anew(rt: HostRuntime) -> Result<(), Fail> {
    let alloc = rt.alloc();
    let (mut pair, old) = mirror_in(alloc, Round::ChangesAsked)?;
    pair.mirror = Mirror::new(alloc, 1, 2, Filter::all(alloc));
    ignores_old(&mut pair, old)
}
