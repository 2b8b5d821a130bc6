//! The service of requests and changes over a reader and a writer.

ghost use Rattle.std.specs.Prelude.{◌≡◌, ◌+◌, ◌≤◌, ◌⊎◌, length, Ok, IsErrOf, IfOk, OnOk, OnErr};
ghost use Rattle.eden_ids.specs.Fronts.{KeepsFront};
ghost use Rattle.eden_stream.specs.FrameAnswers.{AnswersBody};
ghost use Rattle.eden_stream.specs.FrameEnds.{Serves};
ghost use Rattle.eden_stream.specs.FrameTellings.{EndsTelling};
ghost use Rattle.eden_history.specs.Worlds.{WorldState};
ghost use Rattle.eden_messages.specs.Replies.{reply_of};
ghost use Rattle.eden_messages.specs.Spells.{SpellsReply, reply_bytes};
ghost use Rattle.eden_stream.specs.Counts.{Rose, RoseBy};
ghost use Rattle.eden_query.specs.Answers.{answer_to, frame_fault_of};
ghost use Rattle.eden_query.specs.Commands.{after, answer_by, answers_in, read_asking, reading};
ghost use Rattle.eden_query.specs.Raws.{patterns_of, told};
ghost use Rattle.eden_query.specs.Servers.{Does, raised};
ghost use Rattle.eden_query.specs.Servings.{serving_story};
ghost use Rattle.eden_query.specs.declared.raw.Raw.{Raw};
ghost use Rattle.eden_query.specs.internal.Askings.{DoesBody, DoesCommand, SaysCommand};
ghost use Rattle.eden_wire.specs.Commands.{read_command};
ghost use Rattle.eden_wire.specs.Reading.{Gives};
ghost use Rattle.eden_wire.specs.declared.command.Command.TheVariants as commands;

use crate::answering::{answer_request, append_answer};
use crate::naming::UnitNaming;
use crate::served::Served;
use eden_ids::{Naming, NoMemory};
use eden_messages::{Reply, Request, request_text_law};
use eden_stream::{
    CountedRead, CountedWrite, FrameFault, Frames, ServeFault, Step, Teller, tell_frames,
};
use eden_wire::{
    Asked, Command, DecodeFault, Doing, Done, append_done, decode_command, decode_question,
};
use std::alloc::Global;
use std::marker::PhantomData;

/// The caller as which frames are answered.
const STREAM: u64 = 0;

/// The teller of a service: it does at a server what the bodies of frames ask for.
#[derive(Drop)]
struct ServerTeller<N> {
    /// Whether a body may ask for a change.
    writable: bool,
    naming: PhantomData<N>,
}

/// Returns the fault of a body as its frame's, under the same name.
///
/// It is `None` for `NoMemory`, which is no fault of the body.
pub fn fault_of_frame(fault: DecodeFault) -> Option<FrameFault>
    ensures { result ≡ frame_fault_of fault }
{
    match fault {
        DecodeFault::CutShort => Some(FrameFault::CutShort),
        DecodeFault::TooLarge => Some(FrameFault::TooLarge),
        DecodeFault::BadTag => Some(FrameFault::BadTag),
        DecodeFault::BadField => Some(FrameFault::BadField),
        DecodeFault::Trailing => Some(FrameFault::Trailing),
        DecodeFault::Version => Some(FrameFault::Version),
        DecodeFault::NoMemory => None,
    }
}

/// Returns a server's reply to a request of this caller.
///
/// The server is asked once. `NoMemory` if an allocation fails. The request may have been held by
/// then, and a stored history keeps its entry.
pub fn reply_to<N: Naming + Drop, T: Served<N>>(
    server: &mut T,
    caller: u64,
    request: &Request,
) -> Result<Reply, NoMemory>
    ensures reply { IfOk result (λ reply. (world : WorldState) → T.stands_for server.old world → reply ≡ reply_of world request.now) }
    ensures fits { IfOk result (λ reply. length (reply_bytes reply) ≤ 16777216) }
    ensures spelled { IfOk result (λ reply. SpellsReply (reply_bytes reply) reply) }
    ensures stands { (world : WorldState) → T.stands_for server.old world → T.stands_for server.new world }
    ensures held { T.held server.new ≡ T.held server.old }
    ensures given { IfOk result (λ reply. (raw : Raw) × T.hold_gives server.old caller request.now raw server.new
        × (reply ≡ told (T.held server.old) (patterns_of request.now) raw)) }
    ensures noted { OnOk result (T.stored server.new ≡ raised (T.stored server.old)) }
    ensures left { OnErr result ((server.new ≡ server.old) ⊎ ((raw : Raw) × T.hold_gives server.old caller request.now raw server.new)) }
{
    request_text_law(request);
    let (raw, store) = server.hold(caller, request)?;
    answer_request(store.allocator(), raw, &store, request)
}

/// Reads what a body asks for, of a service that makes changes or of one that makes none.
fn command_of(alloc: Global, writable: bool, body: &[u8]) -> Result<Command, DecodeFault>
    ensures { Gives (λ command. command) result (reading writable body.now) }
{
    if writable {
        return decode_command(alloc, body);
    }
    let question = decode_question(alloc, body)?;
    Ok(Command::Ask(Asked {
        patience: 0,
        question,
    }))
}

/// Asks a server a question, and adds the frame of what is said to it to a text.
fn ask<N: UnitNaming + Drop, T: Served<N>>(
    server: &mut T,
    asked: Asked,
    text: &mut Vec<u8>,
) -> Result<(), NoMemory>
    ensures said { OnOk result (SaysCommand N.id T.stands_for server.old (commands.Ask asked) text.old.items text.new.items) }
    ensures done { OnOk result (DoesCommand N.id T.stands_for (Does T.hold_gives T.apply_gives 0) server.old (commands.Ask asked) server.new) }
    ensures left { OnErr result ((server.new ≡ server.old) ⊎ DoesCommand N.id T.stands_for (Does T.hold_gives T.apply_gives 0) server.old (commands.Ask asked) server.new) }
    ensures front { KeepsFront text.old.items text.new.items }
{
    let (request, wants) = asked.question.into_request();
    let (raw, store) = server.hold(STREAM, &request)?;
    append_answer(text, wants, raw, &store, &request)
}

/// Makes a change at a server, and adds the frame of its answer to a text.
fn change<N: Naming + Drop, T: Served<N>>(
    server: &mut T,
    doing: &Doing,
    text: &mut Vec<u8>,
) -> Result<(), NoMemory>
    ensures said { OnOk result (SaysCommand N.id T.stands_for server.old (commands.Do doing.now) text.old.items text.new.items) }
    ensures done { OnOk result (DoesCommand N.id T.stands_for (Does T.hold_gives T.apply_gives 0) server.old (commands.Do doing.now) server.new) }
    ensures left { OnErr result ((server.new ≡ server.old) ⊎ DoesCommand N.id T.stands_for (Does T.hold_gives T.apply_gives 0) server.old (commands.Do doing.now) server.new) }
    ensures front { KeepsFront text.old.items text.new.items }
{
    let answer = server.apply(STREAM, &doing.change)?;
    append_done(text, doing.query, &Done::of(answer))?;
    Ok(())
}

/// Does a command at a server, and adds the frame of what is said of it to a text.
fn answer_command<N: UnitNaming + Drop, T: Served<N>>(
    server: &mut T,
    command: Command,
    text: &mut Vec<u8>,
) -> Result<(), NoMemory>
    ensures said { OnOk result (SaysCommand N.id T.stands_for server.old command text.old.items text.new.items) }
    ensures done { OnOk result (DoesCommand N.id T.stands_for (Does T.hold_gives T.apply_gives 0) server.old command server.new) }
    ensures left { OnErr result ((server.new ≡ server.old) ⊎ DoesCommand N.id T.stands_for (Does T.hold_gives T.apply_gives 0) server.old command server.new) }
    ensures front { KeepsFront text.old.items text.new.items }
{
    match command {
        Command::Ask(asked) => ask(server, asked, text),
        Command::Do(doing) => change(server, &doing, text),
    }
}

/// Does at a server what a body asks for, and adds the frame of what is said of it to a text.
#[tactic(auto, using(eden_ids::proofs::Fronts::kept))]
fn answer_body<N: UnitNaming + Drop, T: Served<N>>(
    server: &mut T,
    writable: bool,
    body: &[u8],
    text: &mut Vec<u8>,
) -> Step<FrameFault>
    ensures answered { (world : WorldState) → T.stands_for server.old world
        → AnswersBody (λ body. answer_by N.id world (reading writable body)) body.now text.old.items text.new.items result }
    ensures done { DoesBody N.id (reading writable) T.stands_for (Does T.hold_gives T.apply_gives 0) server.old body.now server.new result }
{
    let command = match command_of(server.store().allocator(), writable, body) {
        Ok(command) => command,
        Err(fault) => {
            return match fault_of_frame(fault) {
                Some(fault) => Step::Fault(fault),
                None => Step::NoMemory,
            };
        }
    };
    match answer_command(server, command, text) {
        Ok(()) => Step::Told,
        Err(_) => Step::NoMemory,
    }
}

impl<N: UnitNaming + Drop, T: Served<N>> Teller<Frames, T, FrameFault> for ServerTeller<N> {
    ghost story = { λ asker before now. serving_story N.id (reading asker.writable) T.stands_for (Does T.hold_gives T.apply_gives 0) before now };

    #[tactic(auto, using(crate::proofs::Asking::serving_tells))]
    fn answer(&self, server: &mut T, body: &[u8], text: &mut Vec<u8>) -> Step<FrameFault> {
        answer_body(server, self.writable, body, text)
    }

    ghost lawful = { λ _ _ _. record { passes = λ _ _ _ silent _. absurd silent; stops = λ _ _ told. told } };
}

/// Serves requests from `reader`, and returns the number of frames.
///
/// It reads the frames of requests from `reader`, and writes the frames of the replies to
/// `writer`, in order. The server is asked as caller 0, once for each frame, and remains the
/// present of each world whose present it was. A Stat (`eden_wire::Question`) is asked as a Fetch,
/// and the bytes of the file are hashed for its reply. Attributes are asked as a Basis or a List,
/// and a status as a Basis.
///
/// It reads 64 KiB at a time, and answers all whole frames before the next read. It writes the
/// replies before the next read, and whenever there are 64 KiB of them.
///
/// # Errors
///
/// - `Frame`, with the frame's number from 1. The fault is `CutShort` if the input ends inside the
///   frame, and `TooLarge` if its length is above 16,777,216, as soon as the four bytes of the
///   length are read. Else it is the first fault of the body. The server is not asked. The replies
///   to the frames before it are written.
/// - `Read` if the reader fails in this call. The replies to all whole frames read are written.
/// - `Write` if the writer fails in this call. The first bytes of the replies to some first frames
///   are written.
/// - `TurnsSpent` after 1,000,000 reads in this call. The replies to all whole frames read are
///   written.
/// - `NoMemory` if an allocation fails. The replies to some first frames are written.
///
/// Before `NoMemory` the server may also have been asked the next frame, and a stored history keeps
/// its entry. `Write` may be returned instead of this `NoMemory`.
pub fn serve<N: UnitNaming + Drop, T: Served<N>, R: CountedRead, W: CountedWrite>(
    alloc: Global,
    reader: &mut R,
    writer: &mut W,
    server: &mut T,
) -> Result<u64, ServeFault>
    ensures ends { (world : WorldState) → T.stands_for server.old world
        → Serves (λ _. answer_to N.id world) (λ _. T.stands_for server.new world) (R.remaining reader.old) (R.remaining reader.new)
        (W.contents writer.old) (W.contents writer.new) result }
    ensures stands { (world : WorldState) → T.stands_for server.old world → T.stands_for server.new world }
    ensures asks { EndsTelling (serving_story N.id read_asking T.stands_for (Does T.hold_gives T.apply_gives 0) server.old server.new) (R.remaining reader.old) (R.remaining reader.new)
        (W.contents writer.old) (W.contents writer.new) result }
    ensures read { IsErrOf result ServeFault.Read → Rose (R.failed reader.old) (R.failed reader.new) }
    ensures write { IsErrOf result ServeFault.Write → Rose (W.failed writer.old) (W.failed writer.new) }
    ensures turns_spent { IsErrOf result ServeFault.TurnsSpent → RoseBy 1000000 (R.called reader.old) (R.called reader.new) }
    ensures turns { R.called reader.new ≤ R.called reader.old + 1000000 }
{
    let asker = ServerTeller::<N> {
        writable: false,
        naming: PhantomData,
    };
    tell_frames::<R, W, T, ServerTeller<N>>(alloc, reader, writer, &asker, server)
}

/// Serves requests and changes from `reader`, and returns the number of frames.
///
/// As `serve`, and a body may also ask for a change (`eden_wire::decode_command`). The change is
/// made as caller 0, once, before the next body is answered. The frame of how it ended is that of
/// `eden_wire::Done::of`. Each body is answered in the world that the bodies before it leave, and
/// the server remains the present of the world that all of them leave.
///
/// A request may come after a patience. It is answered at once, since nobody else changes the
/// server meanwhile.
///
/// # Errors
///
/// As of `serve`. Before `NoMemory` the change of the next frame may have been made too, once.
/// `Write` may be returned instead of this `NoMemory`.
pub fn serve_writable<N: UnitNaming + Drop, T: Served<N>, R: CountedRead, W: CountedWrite>(
    alloc: Global,
    reader: &mut R,
    writer: &mut W,
    server: &mut T,
) -> Result<u64, ServeFault>
    ensures ends { (world : WorldState) → T.stands_for server.old world
        → Serves (answers_in N.id read_command world) (λ bodies. T.stands_for server.new (after N.id read_command world bodies))
        (R.remaining reader.old) (R.remaining reader.new) (W.contents writer.old) (W.contents writer.new) result }
    ensures asks { EndsTelling (serving_story N.id read_command T.stands_for (Does T.hold_gives T.apply_gives 0) server.old server.new)
        (R.remaining reader.old) (R.remaining reader.new) (W.contents writer.old) (W.contents writer.new) result }
    ensures read { IsErrOf result ServeFault.Read → Rose (R.failed reader.old) (R.failed reader.new) }
    ensures write { IsErrOf result ServeFault.Write → Rose (W.failed writer.old) (W.failed writer.new) }
    ensures turns_spent { IsErrOf result ServeFault.TurnsSpent → RoseBy 1000000 (R.called reader.old) (R.called reader.new) }
    ensures turns { R.called reader.new ≤ R.called reader.old + 1000000 }
{
    let asker = ServerTeller::<N> {
        writable: true,
        naming: PhantomData,
    };
    tell_frames::<R, W, T, ServerTeller<N>>(alloc, reader, writer, &asker, server)
}
