//! The pump that cuts a stream into items and has them answered.
ghost use Rattle.std.specs.Prelude.{◌≡◌, ◌≢◌, Bool, ℕ, ◌+◌, ◌^◌, ◌<◌, ◌≤◌, ◌++◌, [], List, Result, length, take, drop, IsErrOf};
ghost use Rattle.std.specs.Bool.{OnFalse, OnTrue};
ghost use Rattle.eden_stream.specs.Counts.{Rose, RoseBy};
ghost use Rattle.eden_stream.specs.Counts.{Grew};
ghost use Rattle.eden_stream.specs.Pumps.{Ends};
ghost use Rattle.eden_stream.specs.internal.Steps.{Sends, TakesTurn};
ghost use Rattle.eden_stream.specs.Torn.{Tears};

use super::buffer::Buffer;
use super::counts::{CountedRead, CountedWrite};
use super::framing::{Framing, Next};
use super::teller::{Step, Teller};
use super::transfer::{Received, receive, send, send_if_full};
use std::alloc::Global;

/// The most reads of one call, where nothing else is said.
pub(crate) const MOST_READS: u64 = 1_000_000;

/// How many bytes one read asks for: 64 KiB.
const READ_SIZE: usize = 65_536;

/// Why a pumping ended before its input did.
#[derive(Clone, Copy)]
pub enum Stop<E> {
    /// The item of this number, counted from 1, can't be answered.
    Item { number: u64, fault: E },

    /// The reader gave an error.
    Read,

    /// The writer gave an error, or took none of some bytes.
    Write,

    /// The input did not end within 1,000,000 reads.
    TurnsSpent,

    /// An allocation failed.
    NoMemory,
}

/// What became of the first item that is held.
#[derive(Clone, Copy)]
enum Turn<E> {
    /// It was answered, or asks for no answer, and is held no more.
    Taken,

    /// It can't be answered.
    Faulty(E),

    /// An allocation failed.
    NoMemory,

    /// It is not all there yet.
    Waiting,
}

/// Returns the `size` bytes from `place` on.
fn item_of(bytes: &[u8], place: usize, size: usize) -> &[u8]
    requires { place + size ≤ length bytes.now }
    ensures { result.now ≡ take size (drop place bytes.now) }
{
    let (_, behind) = bytes.split_at(place);
    &behind[..size]
}

/// Takes the first item that is held, if all of it is there.
///
/// With no memory the text is as it was.
fn answer_first<F: Framing<E>, T, S: Teller<F, T, E>, E: Copy>(
    held: &mut Buffer,
    ended: bool,
    teller: &S,
    server: &mut T,
    text: &mut Vec<u8>,
) -> Turn<E>
    ensures turn { (before : T) (stream : List ℕ) (items : List (List ℕ)) (sent : List ℕ) → F.grammar.cut ended stream items held.old
        → (S.story teller.now before server.old).told items (sent ++ text.old.items)
        → TakesTurn F.grammar (S.story teller.now before server.new) ended stream items sent held.new text.new.items result }
    ensures shrinks { result ≡ Turn.Taken → length held.new < length held.old }
    ensures room { length held.new ≤ length held.old }
{
    match F::next(held, ended) {
        Next::Item { place, size, whole } => {
            let before = text.len();
            match teller.answer(server, item_of(held.as_slice(), place, size), text) {
                Step::Told => {
                    held.drop_first(whole);
                    Turn::Taken
                }
                Step::Fault(fault) => Turn::Faulty(fault),
                Step::NoMemory => {
                    text.truncate(before);
                    Turn::NoMemory
                }
            }
        }
        Next::Skipped(whole) => {
            held.drop_first(whole);
            Turn::Taken
        }
        Next::Partial => Turn::Waiting,
        Next::Faulty(fault) => Turn::Faulty(fault),
    }
}

/// Writes the waiting text, and returns whether nothing failed.
///
/// After an item it writes only if there are 64 KiB of text.
fn write_waiting<W: CountedWrite, E: Copy>(
    turn: Turn<E>,
    writer: &mut W,
    text: &mut Vec<u8>,
) -> bool
    ensures sent { OnTrue result (Sends (W.contents writer.old) (W.contents writer.new) text.old.items text.new.items) }
    ensures none_left { OnTrue result (turn ≢ Turn.Taken → text.new.items ≡ []) }
    ensures torn { OnFalse result (Tears (W.contents writer.old) (W.contents writer.new) text.old.items) }
    ensures failed { OnFalse result (Rose (W.failed writer.old) (W.failed writer.new)) }
    ensures grew { Grew (W.failed writer.old) (W.failed writer.new) }
{
    match turn {
        Turn::Taken => send_if_full(writer, text),
        _ => send(writer, text),
    }
}

/// Pumps with a buffer for one read, in at most this many reads.
fn pump_with<F: Framing<E>, R: CountedRead, W: CountedWrite, T, S: Teller<F, T, E>, E: Copy>(
    alloc: Global,
    reader: &mut R,
    writer: &mut W,
    teller: &S,
    server: &mut T,
    most_reads: u64,
    buffer: &mut [u8],
) -> Result<u64, Stop<E>>
    requires most { most_reads ≤ 2 ^ 47 }
    requires size { length buffer.old ≡ 65536 }
    ensures ends { (before : T) → (S.story teller.now before server.old).told [] []
        → Ends F.grammar (S.story teller.now before server.new) (R.remaining reader.old) (R.remaining reader.new) (W.contents writer.old) (W.contents writer.new) result }
    ensures read { IsErrOf result Stop.Read → Rose (R.failed reader.old) (R.failed reader.new) }
    ensures write { IsErrOf result Stop.Write → Rose (W.failed writer.old) (W.failed writer.new) }
    ensures turns_spent { IsErrOf result Stop.TurnsSpent → RoseBy most_reads (R.called reader.old) (R.called reader.new) }
    ensures turns { R.called reader.new ≤ R.called reader.old + most_reads }
{
    let mut held = Buffer::new(alloc);
    let mut text = Vec::new(alloc);
    let mut count: u64 = 0;
    let mut reads: u64 = 0;
    let mut ended = false;
    loop {
        let turn = answer_first::<F, T, S, E>(&mut held, ended, teller, server, &mut text);
        if !write_waiting(turn, writer, &mut text) {
            return Err(Stop::Write);
        }
        match turn {
            Turn::Taken => count += 1,
            Turn::Faulty(fault) => {
                let number = count + 1;
                return Err(Stop::Item { number, fault });
            }
            Turn::NoMemory => return Err(Stop::NoMemory),
            Turn::Waiting => {
                if ended {
                    return Ok(count);
                }
                if reads == most_reads {
                    return Err(Stop::TurnsSpent);
                }
                reads += 1;
                match receive(reader, buffer, &mut held) {
                    Received::More => {}
                    Received::Ended => ended = true,
                    Received::Failed => return Err(Stop::Read),
                    Received::NoMemory => return Err(Stop::NoMemory),
                }
            }
        }
    }
}

/// Answers items as `pump_items` does, in at most this many reads.
pub(crate) fn pump_within<
    F: Framing<E>,
    R: CountedRead,
    W: CountedWrite,
    T,
    S: Teller<F, T, E>,
    E: Copy,
>(
    alloc: Global,
    reader: &mut R,
    writer: &mut W,
    teller: &S,
    server: &mut T,
    most_reads: u64,
) -> Result<u64, Stop<E>>
    requires { most_reads ≤ 2 ^ 47 }
    ensures ends { (before : T) → (S.story teller.now before server.old).told [] []
        → Ends F.grammar (S.story teller.now before server.new) (R.remaining reader.old) (R.remaining reader.new) (W.contents writer.old) (W.contents writer.new) result }
    ensures read { IsErrOf result Stop.Read → Rose (R.failed reader.old) (R.failed reader.new) }
    ensures write { IsErrOf result Stop.Write → Rose (W.failed writer.old) (W.failed writer.new) }
    ensures turns_spent { IsErrOf result Stop.TurnsSpent → RoseBy most_reads (R.called reader.old) (R.called reader.new) }
    ensures turns { R.called reader.new ≤ R.called reader.old + most_reads }
{
    match vec![in alloc; 0; READ_SIZE] {
        Ok(mut buffer) => pump_with::<F, R, W, T, S, E>(
            alloc,
            reader,
            writer,
            teller,
            server,
            most_reads,
            &mut buffer,
        ),
        Err(_) => Err(Stop::NoMemory),
    }
}

/// Answers the items of a stream, and returns how many there were.
///
/// It reads the stream from `reader`, cuts it as `F` says, has `teller` answer
/// each item for `server`, and writes the answers to `writer`.
///
/// A read asks for 64 KiB. All items that are there are answered, and the
/// answers are written, before the next read; they are written earlier too,
/// whenever there are 64 KiB of them. The end of input is one more turn, in
/// which what is held may be an item that lacks its end.
///
/// # Errors
///
/// - `Item`: the item of this number can't be answered, or the bytes after the
///   items before it can't become one. The answers to those are written.
/// - `Read`: a read gave an error other than `Interrupted`, which only means
///   that nothing came. The answers to all items that were read are written.
/// - `Write`: a write gave an error other than `Interrupted`, or that one more
///   than 1,000 times in a row, or took none of some bytes. Some first bytes of
///   the answers are written.
/// - `TurnsSpent`: 1,000,000 reads did not come to the end. The answers to all
///   items that were read are written.
/// - `NoMemory` if an allocation fails, of the buffer of 64 KiB, of the held
///   bytes, or in the teller. The answers to some first items are written.
pub fn pump_items<F: Framing<E>, R: CountedRead, W: CountedWrite, T, S: Teller<F, T, E>, E: Copy>(
    alloc: Global,
    reader: &mut R,
    writer: &mut W,
    teller: &S,
    server: &mut T,
) -> Result<u64, Stop<E>>
    ensures ends { (before : T) → (S.story teller.now before server.old).told [] []
        → Ends F.grammar (S.story teller.now before server.new) (R.remaining reader.old) (R.remaining reader.new) (W.contents writer.old) (W.contents writer.new) result }
    ensures read { IsErrOf result Stop.Read → Rose (R.failed reader.old) (R.failed reader.new) }
    ensures write { IsErrOf result Stop.Write → Rose (W.failed writer.old) (W.failed writer.new) }
    ensures turns_spent { IsErrOf result Stop.TurnsSpent → RoseBy 1000000 (R.called reader.old) (R.called reader.new) }
    ensures turns { R.called reader.new ≤ R.called reader.old + 1000000 }
{
    pump_within::<F, R, W, T, S, E>(alloc, reader, writer, teller, server, MOST_READS)
}
