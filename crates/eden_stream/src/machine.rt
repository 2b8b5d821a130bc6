//! What answers the lines of a script, and the run of one.
ghost use Rattle.std.specs.Prelude.{◌≡◌, ℕ, ⊤, ◌+◌, ◌≤◌, List, Option, IsErrOf};
ghost use Rattle.eden_stream.specs.Counts.{Rose, RoseBy};
ghost use Rattle.eden_stream.specs.Ends.{Ends, LeavesMachine};
ghost use Rattle.eden_stream.specs.LineEnds.{StopsAtBadLine};
ghost use Rattle.eden_stream.specs.internal.LineSteps.{line_story};
ghost use Rattle.eden_stream.specs.internal.LineLaws.{story_laws};

use super::counts::{CountedRead, CountedWrite};
use super::lines::{Lines, RunFault, tell_lines};
use super::pump::MOST_READS;
use super::teller::{Step, Teller};
use std::alloc::Global;

/// What a machine made of a line.
#[derive(Clone, Copy, Debug, PartialEq, Eq)]
pub enum Answered {
    /// The line was read, and what it prints is at the text's end.
    Done,

    /// The line can't be read, and the text is as it was.
    BadLine,

    /// An allocation failed. The text may have grown, and nothing is known of the
    /// machine any more.
    NoMemory,
}

/// A machine that answers the lines of a script, one after another.
pub trait LineMachine {
    ghost use Rattle.eden_stream.specs.Answers.{AnswersLine};
    ghost use Rattle.eden_stream.specs.Lines.{IsSpoken};
    ghost use Rattle.eden_stream.specs.Scripts.{IsScript};

    // The machine stands for this script: what any list of further lines
    // prints, None where one of them can't be read.
    ghost stands_for: { Self → (List (List ℕ) → Option (List ℕ)) → Type 0 };

    // What is known of a machine that stood for this script and refused this
    // line last.
    ghost refused: { Self → (List (List ℕ) → Option (List ℕ)) → List ℕ → Type 0 } = { λ _ _ _. ⊤ };

    /// Answers one line, and appends what it prints to `text`.
    ///
    /// The line comes without its end. It is neither empty nor a comment, and has
    /// at most 65,536 bytes.
    fn answer(&mut self, line: &[u8], text: &mut Vec<u8>) -> Answered
        requires { IsSpoken line.now }
        ensures { (script : List (List ℕ) → Option (List ℕ)) → stands_for self.old script
            → AnswersLine (stands_for self.new) (refused self.new) script line.now text.old.items text.new.items result };

    // A script with no line prints nothing, one skips empty lines and comments,
    // and none has a line of more than 65,536 bytes.
    ghost lawful: { (machine : Self) (script : List (List ℕ) → Option (List ℕ)) → stands_for machine script → IsScript script };
}

/// Has a machine answer lines.
struct Scripted;

impl<M: LineMachine> Teller<Lines, M, ()> for Scripted {
    ghost story = { λ _ before now. line_story M.stands_for M.refused before now };

    fn answer(&self, machine: &mut M, line: &[u8], text: &mut Vec<u8>) -> Step<()> {
        match machine.answer(line, text) {
            Answered::Done => Step::Told,
            Answered::BadLine => Step::Fault(()),
            Answered::NoMemory => Step::NoMemory,
        }
    }

    ghost lawful = { λ _ before now. story_laws M.stands_for M.refused before now (M.lawful now) };
}

/// Runs the lines of a script, and returns how many there were.
///
/// It reads them from `reader`, has `machine` answer them in turn, and writes
/// what they print to `writer`.
///
/// A line ends at an LF, with a CR before it or without one; the last one may
/// lack its end, and then keeps its CR. An empty line and one that begins with
/// `#` are counted and say nothing. A comment may have any length; any other
/// line has at most 65,536 bytes, its end not counted.
///
/// A read asks for 64 KiB. All lines that are there are answered, and what they
/// print is written, before the next read; it is written earlier too, whenever
/// there are 64 KiB of it.
///
/// # Errors
///
/// - `BadLine`: the machine refuses the line of this number, or it is too long.
///   That is said as soon as 65,538 bytes of it are there with no LF. What the
///   lines before it print is written.
/// - `Read`: a read gave an error other than `Interrupted`, which only means
///   that nothing came. What the whole lines print that were read is written.
/// - `Write`: a write gave an error other than `Interrupted`, or that one more
///   than 1,000 times in a row, or took none of some bytes.
/// - `TurnsSpent`: 1,000,000 reads did not come to the end. What the whole lines
///   print that were read is written.
/// - `NoMemory` if an allocation fails. What some first lines print is written.
pub fn run_lines<R: CountedRead, W: CountedWrite, M: LineMachine>(
    alloc: Global,
    reader: &mut R,
    writer: &mut W,
    machine: &mut M,
) -> Result<u64, RunFault>
    ensures ends { (script : List (List ℕ) → Option (List ℕ)) → M.stands_for machine.old script
        → Ends script (R.remaining reader.old) (R.remaining reader.new) (W.contents writer.old) (W.contents writer.new) result }
    ensures left { (number : ℕ) → IsErrOf result (RunFault.BadLine number) → (script : List (List ℕ) → Option (List ℕ)) → M.stands_for machine.old script
        → StopsAtBadLine (LeavesMachine (M.stands_for machine.new) (M.refused machine.new) script)
        (R.remaining reader.old) (R.remaining reader.new) (W.contents writer.old) (W.contents writer.new) number }
    ensures read { IsErrOf result RunFault.Read → Rose (R.failed reader.old) (R.failed reader.new) }
    ensures write { IsErrOf result RunFault.Write → Rose (W.failed writer.old) (W.failed writer.new) }
    ensures turns_spent { IsErrOf result RunFault.TurnsSpent → RoseBy 1000000 (R.called reader.old) (R.called reader.new) }
    ensures turns { R.called reader.new ≤ R.called reader.old + 1000000 }
{
    tell_lines(alloc, reader, writer, &Scripted, machine, MOST_READS)
}
