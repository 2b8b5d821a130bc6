//! A lock of which nothing is logged, asked and changed by frames over any reader and writer.

ghost use Rattle.std.specs.Prelude.{◌≡◌, ◌+◌, ◌≤◌, ◌⊎◌, ℕ, List, ◌++◌, length, IfOk, OnOk, OnErr, IsErrOf};
ghost use Rattle.eden_ids.specs.Fronts.{KeepsFront};
ghost use Rattle.eden_stream.specs.Counts.{Rose, RoseBy};
ghost use Rattle.eden_stream.specs.FrameTellings.{EndsTelling};
ghost use Rattle.eden_messages.specs.declared.message.Query.{Query};
ghost use Rattle.eden_stream.specs.Frames.{body_limit, frame};
ghost use Rattle.eden_wire.specs.Commands.{ListsInOrder, done_bytes};
ghost use Rattle.eden_wire.specs.declared.command.Command.TheVariants as commands;
ghost use Rattle.eden_shared.specs.Commands.{EndsSo, MakesUnsaid, Reads, Says, SaysReply, changes_of, counting, unlogged_story};
ghost use Rattle.eden_shared.specs.Gives.{IsMade, IsSaid};
ghost use Rattle.eden_shared.specs.Reached.{IsReached};
ghost use Rattle.eden_shared.specs.internal.Steps.{UnloggedStep};

use crate::origin::Origin;
use crate::pass::Pass;
use crate::patience::{Peer, patience_of};
use crate::unlogged::{Holding, Unlogged};
use eden_history::Change;
use eden_ids::{Naming, NoMemory};
use eden_messages::request_text_law;
use eden_query::{Served, UnitNaming, append_answer, fault_of_frame};
use eden_stream::{
    CountedRead, CountedWrite, FrameFault, Frames, ServeFault, Step, Teller, tell_frames,
};
use eden_wire::{Asked, Command, Doing, Done, Wants, append_done, append_wanted, decode_command};
use std::alloc::Global;
use std::sync::Wait;
use std::time::Clock;

/// Does at a lock what the bodies of frames ask for, for a peer.
#[derive(Drop)]
struct UnloggedTeller<'a, N: Naming + Drop, T: Served<N>, L: Origin, P: Peer, R: Wait + Clock> {
    rt: &'a R,
    alloc: Global,
    unlogged: &'a Unlogged<N, T, L>,
    peer: &'a P,
}

/// Asks a question, and adds the frame of what is said to it to a text.
fn ask<N: UnitNaming + Drop, T: Served<N>, L: Origin, P: Peer, R: Wait + Clock>(
    asker: &UnloggedTeller<N, T, L, P, R>,
    asked: Asked,
    text: &mut Vec<u8>,
) -> Result<(), NoMemory>
    ensures said { OnOk result ((said : List ℕ) × SaysReply (IsSaid (IsReached N.id T.stands_for L.opens) N.id T.stands_for T.held T.hold_gives 0) asked.question said
        × (text.new.items ≡ text.old.items ++ frame said)) }
    ensures front { KeepsFront text.old.items text.new.items }
{
    let patience = patience_of(asked.patience);
    let (request, wants) = asked.question.into_request();
    match wants {
        Wants::Whole | Wants::Stat => {
            let reply = asker
                .unlogged
                .ask_patiently(asker.rt, &request, patience, asker.peer)?;
            append_wanted(text, &N::unit(), wants, reply)?;
            Ok(())
        }
        // These wait for nothing, and no reply is made.
        Wants::Attributes | Wants::Status => {
            request_text_law(&request);
            let Holding { raw, store, .. } = asker.unlogged.hold(asker.rt, &request)?;
            append_answer(text, wants, raw, &store, &request)
        }
    }
}

/// Makes a change with a caller's pass, if it has one, and returns how that ended.
#[tactic(auto, using(crate::proofs::Answered::not_writable_fits))]
fn make<N: Naming + Drop, T: Served<N>, L: Origin, P: Peer, R: Wait + Clock>(
    asker: &UnloggedTeller<N, T, L, P, R>,
    writing: &mut Option<Pass<L>>,
    change: &Change,
) -> Result<Done, NoMemory>
    ensures ends { IfOk result (λ done. EndsSo (IsMade (IsReached N.id T.stands_for L.opens) N.id T.stands_for T.apply_gives 0) writing.old change.now done) }
    ensures ordered { IfOk result (λ done. ListsInOrder done) }
    ensures fits { IfOk result (λ done. (query : Query) → length (done_bytes query done) ≤ body_limit) }
    ensures counted { OnOk result (writing.new ≡ counting 1 writing.old) }
    ensures unchanged { OnErr result (writing.new ≡ writing.old) }
{
    match writing {
        Some(pass) => Ok(Done::of(asker.unlogged.change(asker.rt, pass, change)?)),
        None => Ok(Done::NotWritable),
    }
}

/// Makes the change that a body asks for, and adds the frame of its answer to a text.
fn change<N: Naming + Drop, T: Served<N>, L: Origin, P: Peer, R: Wait + Clock>(
    asker: &UnloggedTeller<N, T, L, P, R>,
    writing: &mut Option<Pass<L>>,
    doing: &Doing,
    text: &mut Vec<u8>,
) -> Result<(), NoMemory>
    ensures said { OnOk result ((said : List ℕ) × Says (SaysReply (IsSaid (IsReached N.id T.stands_for L.opens) N.id T.stands_for T.held T.hold_gives 0))
        (IsMade (IsReached N.id T.stands_for L.opens) N.id T.stands_for T.apply_gives 0) writing.old (commands.Do doing.now) said
        × (text.new.items ≡ text.old.items ++ frame said)) }
    ensures counted { OnOk result (writing.new ≡ counting 1 writing.old) }
    ensures left { OnErr result ((body : List ℕ) → Reads body (commands.Do doing.now) → (writing.new ≡ writing.old)
        ⊎ MakesUnsaid (IsMade (IsReached N.id T.stands_for L.opens) N.id T.stands_for T.apply_gives 0) body writing.old writing.new) }
    ensures front { KeepsFront text.old.items text.new.items }
{
    let done = make(asker, writing, &doing.change)?;
    append_done(text, doing.query, &done)?;
    Ok(())
}

/// Does what a body asks for, and adds the frame of what is said of it to a text.
fn answer<N: UnitNaming + Drop, T: Served<N>, L: Origin, P: Peer, R: Wait + Clock>(
    asker: &UnloggedTeller<N, T, L, P, R>,
    writing: &mut Option<Pass<L>>,
    command: Command,
    text: &mut Vec<u8>,
) -> Result<(), NoMemory>
    ensures said { OnOk result ((said : List ℕ) × Says (SaysReply (IsSaid (IsReached N.id T.stands_for L.opens) N.id T.stands_for T.held T.hold_gives 0))
        (IsMade (IsReached N.id T.stands_for L.opens) N.id T.stands_for T.apply_gives 0) writing.old command said
        × (text.new.items ≡ text.old.items ++ frame said)) }
    ensures counted { OnOk result (writing.new ≡ counting (changes_of command) writing.old) }
    ensures left { OnErr result ((body : List ℕ) → Reads body command → (writing.new ≡ writing.old)
        ⊎ MakesUnsaid (IsMade (IsReached N.id T.stands_for L.opens) N.id T.stands_for T.apply_gives 0) body writing.old writing.new) }
    ensures front { KeepsFront text.old.items text.new.items }
{
    match command {
        Command::Ask(asked) => ask(asker, asked, text),
        Command::Do(doing) => change(asker, writing, &doing, text),
    }
}

/// Reads a body and does what it asks for, and adds the frame of what is said of it to a text.
#[tactic(auto, using(eden_ids::proofs::Fronts::kept))]
fn answer_body<N: UnitNaming + Drop, T: Served<N>, L: Origin, P: Peer, R: Wait + Clock>(
    asker: &UnloggedTeller<N, T, L, P, R>,
    writing: &mut Option<Pass<L>>,
    body: &[u8],
    text: &mut Vec<u8>,
) -> Step<FrameFault>
    ensures { UnloggedStep (SaysReply (IsSaid (IsReached N.id T.stands_for L.opens) N.id T.stands_for T.held T.hold_gives 0))
        (IsMade (IsReached N.id T.stands_for L.opens) N.id T.stands_for T.apply_gives 0)
        writing.old writing.new body.now text.old.items text.new.items result }
{
    let command = match decode_command(asker.alloc, body) {
        Ok(command) => command,
        Err(fault) => {
            return match fault_of_frame(fault) {
                Some(fault) => Step::Fault(fault),
                None => Step::NoMemory,
            };
        }
    };
    match answer(asker, writing, command, text) {
        Ok(()) => Step::Told,
        Err(_) => Step::NoMemory,
    }
}

// What was asked is noted nowhere. What was changed is counted by the caller's pass.
impl<'a, N: UnitNaming + Drop, T: Served<N>, L: Origin, P: Peer, R: Wait + Clock> Teller<
    Frames,
    Option<Pass<L>>,
    FrameFault,
> for UnloggedTeller<'a, N, T, L, P, R> {
    ghost story = { λ _ before now. unlogged_story (SaysReply (IsSaid (IsReached N.id T.stands_for L.opens) N.id T.stands_for T.held T.hold_gives 0))
        (IsMade (IsReached N.id T.stands_for L.opens) N.id T.stands_for T.apply_gives 0) before now };

    fn answer(
        &self,
        writing: &mut Option<Pass<L>>,
        body: &[u8],
        text: &mut Vec<u8>,
    ) -> Step<FrameFault> {
        answer_body(self, writing, body, text)
    }

    ghost lawful = { λ _ _ _. record { passes = λ _ _ _ silent _. absurd silent; stops = λ _ _ told. told } };
}

/// Serves a connection to a lock of which nothing is logged, and returns the number of frames.
///
/// The frames are read from `reader`. What their bodies ask for (`eden_wire::decode_command`) is
/// done in order. The frames of the replies, and of how each change ended, are written to `writer`.
/// Each is that of the server at some moment after its own frame was read. Others may change the
/// server between two frames.
///
/// A change is made once, with the pass that `writing` has. The pass counts it. If `writing` has no
/// pass, the change is not made, its frame is that of `Done::NotWritable`, and the connection goes
/// on. A connection that ends after a change was sent leaves the client unsure whether the change
/// was made. The client then polls since the position that it had.
///
/// A request may come after a patience. `Unlogged::ask_patiently` asks it for the peer then, for at
/// most `LONGEST` milliseconds. Frames after it wait too, and so do the answers before it that are
/// not written yet. A Stat is asked as the Fetch that it is, and the bytes of the file are hashed
/// without the lock.
///
/// Whole frames are answered before the next read, of 64 KiB each. Answers are gathered. They are
/// written before the next read, and whenever there are 64 KiB of them. Nothing is left once this
/// ends.
///
/// # Errors
///
/// - `Frame`, with its number from 1: `CutShort` if the input ends inside it, `TooLarge` if its
///   length is above 16,777,216, which is found as soon as its four bytes are there, else the first
///   fault of its body. The answers to the frames before it are written.
/// - `Read` and `Write` if the device failed in this call. The answers to all whole frames that
///   were read are written; after `Write`, the first bytes of the answers to some first frames.
/// - `TurnsSpent` after 1,000,000 reads in this call. The answers to all whole frames that were
///   read are written.
/// - `NoMemory` if an allocation fails. The answers to some first frames are written.
///
/// After `NoMemory` the change of the frame after those that are answered may have been made, once.
/// So it may after `Write`, which can be returned instead of `NoMemory`.
pub fn serve_unlogged<
    N: UnitNaming + Drop,
    T: Served<N>,
    L: Origin,
    P: Peer,
    R: CountedRead,
    W: CountedWrite,
    Rt: Wait + Clock,
>(
    rt: &Rt,
    alloc: Global,
    reader: &mut R,
    writer: &mut W,
    unlogged: &Unlogged<N, T, L>,
    writing: &mut Option<Pass<L>>,
    peer: &P,
) -> Result<u64, ServeFault>
    ensures ends { EndsTelling (unlogged_story (SaysReply (IsSaid (IsReached N.id T.stands_for L.opens) N.id T.stands_for T.held T.hold_gives 0))
        (IsMade (IsReached N.id T.stands_for L.opens) N.id T.stands_for T.apply_gives 0) writing.old writing.new)
        (R.remaining reader.old) (R.remaining reader.new) (W.contents writer.old) (W.contents writer.new) result }
    ensures read { IsErrOf result ServeFault.Read → Rose (R.failed reader.old) (R.failed reader.new) }
    ensures write { IsErrOf result ServeFault.Write → Rose (W.failed writer.old) (W.failed writer.new) }
    ensures turns_spent { IsErrOf result ServeFault.TurnsSpent → RoseBy 1000000 (R.called reader.old) (R.called reader.new) }
    ensures turns { R.called reader.new ≤ R.called reader.old + 1000000 }
{
    let asker = UnloggedTeller {
        rt,
        alloc,
        unlogged,
        peer,
    };
    tell_frames(alloc, reader, writer, &asker, writing)
}
