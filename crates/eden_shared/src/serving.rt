//! A desk that is asked and that changes by frames, over any reader and writer.

ghost use Rattle.std.specs.Prelude.{◌≡◌, ◌⊎◌, ◌+◌, ◌≤◌, IsErrOf, OnOk, OnErr};
ghost use Rattle.eden_ids.specs.Fronts.{KeepsFront};
ghost use Rattle.eden_stream.specs.FrameTellings.{EndsTelling};
ghost use Rattle.eden_shared.specs.Gives.{IsMade, IsSaid, IsTurnOf};
ghost use Rattle.eden_shared.specs.Servings.{desk_story, read_patient, reading};
ghost use Rattle.eden_shared.specs.internal.Steps.{DeskStep, Takes, TakesUnsaid};
ghost use Rattle.eden_stream.specs.Counts.{Rose, RoseBy};
ghost use Rattle.eden_wire.specs.Commands.{read_command};
ghost use Rattle.eden_wire.specs.Reading.{Gives};
ghost use Rattle.eden_wire.specs.declared.command.Command.TheVariants as commands;

use crate::desk::Desk;
use crate::gate::Gate;
use crate::patience::patience_of;
use crate::shared::{Shared, Ticketed};
use eden_ids::{Naming, NoMemory};
use eden_query::{Served, UnitNaming, append_beside, fault_of_frame};
use eden_stream::{
    CountedRead, CountedWrite, FrameFault, Frames, ServeFault, Step, Teller, tell_frames,
};
use eden_wire::{
    Asked, Command, DecodeFault, Doing, Done, append_done, decode_asked, decode_command,
};
use std::alloc::Global;
use std::sync::Wait;
use std::sync::ledger::Ledger;

/// Does at a desk what the bodies of frames ask for.
#[derive(Drop)]
struct LockTeller<'a, N: Naming + Drop, T: Served<N>, L: Ledger, G: Gate, R: Wait> {
    rt: &'a R,
    alloc: Global,
    shared: &'a Shared<N, T, L>,
    gate: &'a G,
    /// Whether a body may ask for a change.
    writable: bool,
}

/// Reads what a body asks for, of a service that makes changes or of one that makes none.
fn command_of(alloc: Global, writable: bool, body: &[u8]) -> Result<Command, DecodeFault>
    ensures { Gives (λ command. command) result (reading writable body.now) }
{
    if writable {
        return decode_command(alloc, body);
    }
    let asked = decode_asked(alloc, body)?;
    Ok(Command::Ask(asked))
}

/// Asks a question, and adds the frame of what is said to it to a text.
fn ask<N: UnitNaming + Drop, T: Served<N>, L: Ledger, G: Gate, R: Wait>(
    asker: &LockTeller<N, T, L, G, R>,
    desk: &mut Desk<L>,
    asked: Asked,
    text: &mut Vec<u8>,
) -> Result<(), NoMemory>
    ensures takes { OnOk result (Takes (IsSaid (IsTurnOf T.stored) N.id T.stands_for T.held T.hold_gives desk.old.caller)
        (IsMade (IsTurnOf T.stored) N.id T.stands_for T.apply_gives desk.old.caller) desk.old desk.new (commands.Ask asked) text.old.items text.new.items) }
    ensures left { OnErr result ((desk.new ≡ desk.old) ⊎ TakesUnsaid (IsSaid (IsTurnOf T.stored) N.id T.stands_for T.held T.hold_gives desk.old.caller)
        (IsMade (IsTurnOf T.stored) N.id T.stands_for T.apply_gives desk.old.caller) desk.old desk.new (commands.Ask asked)) }
    ensures front { KeepsFront text.old.items text.new.items }
{
    let patience = patience_of(asked.patience);
    let (request, wants) = asked.question.into_request();
    let (ticketed, reply) = desk.ask_held(asker.rt, asker.shared, &request, patience, asker.gate)?;
    let Ticketed { raw, store, .. } = ticketed;
    append_beside(text, wants, reply, raw, &store, &request)?;
    Ok(())
}

/// Makes a change, and adds the frame of how it ended to a text.
fn change<N: Naming + Drop, T: Served<N>, L: Ledger, G: Gate, R: Wait>(
    asker: &LockTeller<N, T, L, G, R>,
    desk: &mut Desk<L>,
    doing: &Doing,
    text: &mut Vec<u8>,
) -> Result<(), NoMemory>
    ensures takes { OnOk result (Takes (IsSaid (IsTurnOf T.stored) N.id T.stands_for T.held T.hold_gives desk.old.caller)
        (IsMade (IsTurnOf T.stored) N.id T.stands_for T.apply_gives desk.old.caller) desk.old desk.new (commands.Do doing.now) text.old.items text.new.items) }
    ensures left { OnErr result ((desk.new ≡ desk.old) ⊎ TakesUnsaid (IsSaid (IsTurnOf T.stored) N.id T.stands_for T.held T.hold_gives desk.old.caller)
        (IsMade (IsTurnOf T.stored) N.id T.stands_for T.apply_gives desk.old.caller) desk.old desk.new (commands.Do doing.now)) }
    ensures front { KeepsFront text.old.items text.new.items }
{
    let (_, answer) = desk.change(asker.rt, asker.shared, &doing.change)?;
    append_done(text, doing.query, &Done::of(answer))?;
    Ok(())
}

/// Does a command, and adds the frame of what is said of it to a text.
fn answer_command<N: UnitNaming + Drop, T: Served<N>, L: Ledger, G: Gate, R: Wait>(
    asker: &LockTeller<N, T, L, G, R>,
    desk: &mut Desk<L>,
    command: Command,
    text: &mut Vec<u8>,
) -> Result<(), NoMemory>
    ensures takes { OnOk result (Takes (IsSaid (IsTurnOf T.stored) N.id T.stands_for T.held T.hold_gives desk.old.caller)
        (IsMade (IsTurnOf T.stored) N.id T.stands_for T.apply_gives desk.old.caller) desk.old desk.new command text.old.items text.new.items) }
    ensures left { OnErr result ((desk.new ≡ desk.old) ⊎ TakesUnsaid (IsSaid (IsTurnOf T.stored) N.id T.stands_for T.held T.hold_gives desk.old.caller)
        (IsMade (IsTurnOf T.stored) N.id T.stands_for T.apply_gives desk.old.caller) desk.old desk.new command) }
    ensures front { KeepsFront text.old.items text.new.items }
{
    match command {
        Command::Ask(asked) => ask(asker, desk, asked, text),
        Command::Do(doing) => change(asker, desk, &doing, text),
    }
}

/// Does what a body asks for, and adds the frame of what is said of it to a text.
#[tactic(auto, using(eden_ids::proofs::Fronts::kept))]
fn answer_body<N: UnitNaming + Drop, T: Served<N>, L: Ledger, G: Gate, R: Wait>(
    asker: &LockTeller<N, T, L, G, R>,
    desk: &mut Desk<L>,
    body: &[u8],
    text: &mut Vec<u8>,
) -> Step<FrameFault>
    ensures { DeskStep (reading asker.now.writable) (IsSaid (IsTurnOf T.stored) N.id T.stands_for T.held T.hold_gives desk.old.caller)
        (IsMade (IsTurnOf T.stored) N.id T.stands_for T.apply_gives desk.old.caller) desk.old desk.new body.now text.old.items text.new.items result }
{
    let command = match command_of(asker.alloc, asker.writable, body) {
        Ok(command) => command,
        Err(fault) => {
            return match fault_of_frame(fault) {
                Some(fault) => Step::Fault(fault),
                None => Step::NoMemory,
            };
        }
    };
    match answer_command(asker, desk, command, text) {
        Ok(()) => Step::Told,
        Err(_) => Step::NoMemory,
    }
}

impl<'a, N: UnitNaming + Drop, T: Served<N>, L: Ledger, G: Gate, R: Wait> Teller<
    Frames,
    Desk<L>,
    FrameFault,
> for LockTeller<'a, N, T, L, G, R> {
    ghost story = { λ asker before now. desk_story (reading asker.writable) (IsSaid (IsTurnOf T.stored) N.id T.stands_for T.held T.hold_gives before.caller)
        (IsMade (IsTurnOf T.stored) N.id T.stands_for T.apply_gives before.caller) before now };

    fn answer(&self, desk: &mut Desk<L>, body: &[u8], text: &mut Vec<u8>) -> Step<FrameFault> {
        answer_body(self, desk, body, text)
    }

    ghost lawful = { λ _ _ _. record { passes = λ _ _ _ silent _. absurd silent; stops = λ _ _ told. told } };
}

/// Serves requests to a desk, and returns the number of frames.
///
/// The frames of the requests are read from `reader`. The desk asks what they spell, in order, each
/// once. The frames of its replies are written to `writer`.
///
/// A request may come after a patience (`eden_wire::decode_asked`). `Gate::before` gets it, as at
/// most `LONGEST` milliseconds. A Stat is asked and noted as the Fetch that it is. The bytes of the
/// file are hashed after the hold.
///
/// Each frame is one call of the desk, in one hold of the lock. Others may call between two of
/// them. A frame with a fault is no call. If an allocation fails, the frame after those that are
/// answered may have been asked too, and the log then notes it. So it may before `Write`, which can
/// be returned instead of `NoMemory`.
///
/// Whole frames are answered before the next read, of 64 KiB each. Replies are gathered. They are
/// written before the next read, and whenever there are 64 KiB of them.
///
/// # Errors
///
/// - `Frame`, with its number from 1: `CutShort` if the input ends inside it, `TooLarge` if its
///   length is above 16,777,216, which is found as soon as its four bytes are there, else the first
///   fault of its body. The replies to the frames before it are written.
/// - `Read` and `Write` if the device failed in this call. The replies to all whole frames that
///   were read are written; after `Write`, the first bytes of the replies to some first frames.
/// - `TurnsSpent` after 1,000,000 reads in this call. The replies to all whole frames that were
///   read are written.
/// - `NoMemory` if an allocation fails. The replies to some first frames are written.
pub fn serve_shared<
    N: UnitNaming + Drop,
    T: Served<N>,
    L: Ledger,
    G: Gate,
    R: CountedRead,
    W: CountedWrite,
>(
    rt: &impl Wait,
    alloc: Global,
    reader: &mut R,
    writer: &mut W,
    shared: &Shared<N, T, L>,
    desk: &mut Desk<L>,
    gate: &G,
) -> Result<u64, ServeFault>
    ensures ends { EndsTelling (desk_story read_patient (IsSaid (IsTurnOf T.stored) N.id T.stands_for T.held T.hold_gives desk.old.caller)
        (IsMade (IsTurnOf T.stored) N.id T.stands_for T.apply_gives desk.old.caller) desk.old desk.new)
        (R.remaining reader.old) (R.remaining reader.new) (W.contents writer.old) (W.contents writer.new) result }
    ensures read { IsErrOf result ServeFault.Read → Rose (R.failed reader.old) (R.failed reader.new) }
    ensures write { IsErrOf result ServeFault.Write → Rose (W.failed writer.old) (W.failed writer.new) }
    ensures turns_spent { IsErrOf result ServeFault.TurnsSpent → RoseBy 1000000 (R.called reader.old) (R.called reader.new) }
    ensures turns { R.called reader.new ≤ R.called reader.old + 1000000 }
{
    let asker = LockTeller {
        rt,
        alloc,
        shared,
        gate,
        writable: false,
    };
    tell_frames(alloc, reader, writer, &asker, desk)
}

/// Serves requests and changes to a desk, and returns the number of frames.
///
/// As `serve_shared`, and a body may also ask for a change (`eden_wire::decode_command`). The desk
/// makes it once, in one hold of the lock, and notes it with its answer. The frame of how it ended
/// is that of `eden_wire::Done::of`.
///
/// A log has no query, so the frames of changes can't be made of it alone.
///
/// # Errors
///
/// As of `serve_shared`. If an allocation fails, the change of the frame after those that are
/// answered may have been made, once, and the log then notes it.
pub fn serve_shared_writable<
    N: UnitNaming + Drop,
    T: Served<N>,
    L: Ledger,
    G: Gate,
    R: CountedRead,
    W: CountedWrite,
>(
    rt: &impl Wait,
    alloc: Global,
    reader: &mut R,
    writer: &mut W,
    shared: &Shared<N, T, L>,
    desk: &mut Desk<L>,
    gate: &G,
) -> Result<u64, ServeFault>
    ensures ends { EndsTelling (desk_story read_command (IsSaid (IsTurnOf T.stored) N.id T.stands_for T.held T.hold_gives desk.old.caller)
        (IsMade (IsTurnOf T.stored) N.id T.stands_for T.apply_gives desk.old.caller) desk.old desk.new)
        (R.remaining reader.old) (R.remaining reader.new) (W.contents writer.old) (W.contents writer.new) result }
    ensures read { IsErrOf result ServeFault.Read → Rose (R.failed reader.old) (R.failed reader.new) }
    ensures write { IsErrOf result ServeFault.Write → Rose (W.failed writer.old) (W.failed writer.new) }
    ensures turns_spent { IsErrOf result ServeFault.TurnsSpent → RoseBy 1000000 (R.called reader.old) (R.called reader.new) }
    ensures turns { R.called reader.new ≤ R.called reader.old + 1000000 }
{
    let asker = LockTeller {
        rt,
        alloc,
        shared,
        gate,
        writable: true,
    };
    tell_frames(alloc, reader, writer, &asker, desk)
}
