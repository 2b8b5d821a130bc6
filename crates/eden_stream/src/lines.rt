//! A stream of lines, and the answering of them.
ghost use Rattle.std.specs.Prelude.{◌≡◌, false, ℕ, ◌+◌, ◌^◌, ◌<◌, ◌≤◌, ◌↔◌, List, [], Option, Result, length, IsErrOf, IsTrue};
ghost use Rattle.std.specs.Str.Lines.{strip_carriage_return};
ghost use Rattle.eden_stream.specs.Counts.{Rose, RoseBy};
ghost use Rattle.eden_stream.specs.LineEnds.{EndsTellingLines};
ghost use Rattle.eden_stream.specs.LineGrammar.{line_grammar};
ghost use Rattle.eden_stream.specs.Lines.{HasNoBreak, IsComment};
ghost use Rattle.eden_stream.specs.internal.LineSteps.{FindsLine, Judges, run_as};
ghost use Rattle.eden_stream.specs.internal.LineLaws.{line_laws};

use super::buffer::Buffer;
use super::counts::{CountedRead, CountedWrite};
use super::framing::{Framing, Next};
use super::pump::{Stop, pump_within};
use super::teller::Teller;
use std::alloc::Global;
use thiserror::Error;

/// The most bytes that a line has which is no comment, its end not counted.
const LINE_LIMIT: usize = 65_536;

/// Why a run ended before its script did.
#[derive(Clone, Copy, Debug, PartialEq, Eq, Drop, Error)]
pub enum RunFault {
    /// The line of this number, counted from 1, can't be read.
    #[error("line {0} can't be read")]
    BadLine(u64),

    /// The reader gave an error.
    #[error("the reader failed")]
    Read,

    /// The writer gave an error, or took none of some bytes.
    #[error("the writer failed")]
    Write,

    /// The script did not end within 1,000,000 reads.
    #[error("the reads are spent")]
    TurnsSpent,

    /// An allocation failed.
    #[error("out of memory")]
    NoMemory,
}

/// A stream cut into lines.
pub struct Lines;

/// Returns whether the line begins with `#`.
fn is_comment(line: &[u8]) -> bool
    ensures { IsTrue result ↔ IsComment line.now }
{
    matches!(line, [b'#', ..])
}

/// Returns the line less the one carriage return at its end, if any.
fn without_return(line: &[u8]) -> &[u8]
    ensures { result.now ≡ strip_carriage_return line.now }
{
    match line {
        [front @ .., b'\r'] => front,
        _ => line,
    }
}

/// Returns what a line asks for that is the front of `whole` bytes.
fn item_at_front(line: &[u8], whole: usize) -> Next<()>
    ensures { Judges line.now whole result }
{
    if line.is_empty() || is_comment(line) {
        return Next::Skipped(whole);
    }
    if line.len() > LINE_LIMIT {
        return Next::Faulty(());
    }
    Next::Item {
        place: 0,
        size: line.len(),
        whole,
    }
}

/// Returns what is held if no line ends in it and more bytes may come.
///
/// Of a comment only the first byte stays.
fn unended_front(held: &mut Buffer) -> Next<()>
    requires { HasNoBreak held.old }
    ensures { FindsLine false held.old held.new result }
{
    if is_comment(held.as_slice()) {
        held.keep_first();
        return Next::Partial;
    }
    if held.as_slice().len() > LINE_LIMIT + 1 {
        return Next::Faulty(());
    }
    Next::Partial
}

/// Returns the first line that is held.
fn next_line(held: &mut Buffer, ended: bool) -> Next<()>
    ensures { FindsLine ended held.old held.new result }
{
    match held.find_break() {
        Some(end) => item_at_front(without_return(&held.as_slice()[..end]), end + 1),
        None if !ended => unended_front(held),
        None if held.as_slice().is_empty() => Next::Partial,
        None => item_at_front(held.as_slice(), held.as_slice().len()),
    }
}

impl Framing<()> for Lines {
    ghost grammar = { line_grammar };

    fn next(held: &mut Buffer, ended: bool) -> Next<()> {
        next_line(held, ended)
    }

    ghost lawful = { line_laws };
}

/// Returns how a run ended, by the pump.
fn run_outcome(outcome: Result<u64, Stop<()>>) -> Result<u64, RunFault>
    ensures { result ≡ run_as outcome }
{
    match outcome {
        Ok(count) => Ok(count),
        Err(Stop::Item { number, .. }) => Err(RunFault::BadLine(number)),
        Err(Stop::Read) => Err(RunFault::Read),
        Err(Stop::Write) => Err(RunFault::Write),
        Err(Stop::TurnsSpent) => Err(RunFault::TurnsSpent),
        Err(Stop::NoMemory) => Err(RunFault::NoMemory),
    }
}

/// Has the lines of a stream answered, and returns how many there were.
///
/// It reads them from `reader`, has `teller` answer them in turn for `server`,
/// and writes the answers to `writer`.
///
/// A line ends at an LF, with a CR before it or without one; the last one may
/// lack its end, and then keeps its CR. An empty line and one that begins with
/// `#` are counted, and the teller is not asked. A comment may have any length;
/// any other line has at most 65,536 bytes, its end not counted.
///
/// A read asks for 64 KiB. All lines that are there are answered, and the
/// answers are written, before the next read; they are written earlier too,
/// whenever there are 64 KiB of them. At most `most_reads` reads are made, which
/// may be 2^47.
///
/// # Errors
///
/// - `BadLine`: the teller refuses the line of this number, or it is too long.
///   That is said as soon as 65,538 bytes of it are there with no LF. The answers
///   to the lines before it are written.
/// - `Read`: a read gave an error other than `Interrupted`, which only means
///   that nothing came. The answers to the whole lines that were read are
///   written.
/// - `Write`: a write gave an error other than `Interrupted`, or that one more
///   than 1,000 times in a row, or took none of some bytes.
/// - `TurnsSpent`: `most_reads` reads did not come to the end. The answers to the
///   whole lines that were read are written.
/// - `NoMemory` if an allocation fails. The answers to some first lines are
///   written.
pub fn tell_lines<R: CountedRead, W: CountedWrite, T, S: Teller<Lines, T, ()>>(
    alloc: Global,
    reader: &mut R,
    writer: &mut W,
    teller: &S,
    server: &mut T,
    most_reads: u64,
) -> Result<u64, RunFault>
    requires { most_reads ≤ 2 ^ 47 }
    ensures ends { (before : T) → (S.story teller.now before server.old).told [] []
        → EndsTellingLines (S.story teller.now before server.new) (R.remaining reader.old) (R.remaining reader.new) (W.contents writer.old) (W.contents writer.new) result }
    ensures read { IsErrOf result RunFault.Read → Rose (R.failed reader.old) (R.failed reader.new) }
    ensures write { IsErrOf result RunFault.Write → Rose (W.failed writer.old) (W.failed writer.new) }
    ensures turns_spent { IsErrOf result RunFault.TurnsSpent → RoseBy most_reads (R.called reader.old) (R.called reader.new) }
    ensures turns { R.called reader.new ≤ R.called reader.old + most_reads }
{
    run_outcome(pump_within::<Lines, R, W, T, S, ()>(
        alloc, reader, writer, teller, server, most_reads,
    ))
}
