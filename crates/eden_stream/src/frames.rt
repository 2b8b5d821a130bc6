//! The answering of frames.
ghost use Rattle.std.specs.Prelude.{◌≡◌, [], ◌+◌, ◌≤◌, IsErrOf};
ghost use Rattle.eden_stream.specs.Counts.{Rose, RoseBy};
ghost use Rattle.eden_stream.specs.FrameGrammar.{frame_grammar};
ghost use Rattle.eden_stream.specs.FrameTellings.{EndsTelling, served_as};
ghost use Rattle.eden_stream.specs.internal.FrameLaws.{frame_laws};

use crate::cutting::{FrameFront, measure_front};
use crate::frame_fault::FrameFault;
use crate::{Buffer, CountedRead, CountedWrite, Framing, Next, Stop, Teller, pump_items};
use std::alloc::Global;
use thiserror::Error;

/// Why the serving ended before its input did.
#[derive(Clone, Copy, Debug, PartialEq, Eq, Drop, Error)]
pub enum ServeFault {
    /// The frame of this number, counted from 1, can't be answered.
    #[error("frame {number}: {fault}")]
    Frame { number: u64, fault: FrameFault },

    /// The reader gave an error.
    #[error("the reader failed")]
    Read,

    /// The writer gave an error, or took none of some bytes.
    #[error("the writer failed")]
    Write,

    /// The input did not end within 1,000,000 reads.
    #[error("the reads are spent")]
    TurnsSpent,

    /// A growth was refused.
    #[error("out of memory")]
    NoMemory,
}

/// A stream cut into frames, of which the bodies are answered.
pub struct Frames;

impl Framing<FrameFault> for Frames {
    ghost grammar = { frame_grammar };

    fn next(held: &mut Buffer, ended: bool) -> Next<FrameFault> {
        match measure_front(held.as_slice()) {
            FrameFront::Whole(size) => Next::Item {
                place: 4,
                size,
                whole: 4 + size,
            },
            FrameFront::TooLong => Next::Faulty(FrameFault::TooLarge),
            FrameFront::Partial if ended && !held.as_slice().is_empty() => {
                Next::Faulty(FrameFault::CutShort)
            }
            FrameFront::Partial => Next::Partial,
        }
    }

    ghost lawful = { frame_laws };
}

/// Returns how a serving ended, by how the pump did.
fn serve_outcome(outcome: Result<u64, Stop<FrameFault>>) -> Result<u64, ServeFault>
    ensures { result ≡ served_as outcome }
{
    match outcome {
        Ok(count) => Ok(count),
        Err(Stop::Item { number, fault }) => Err(ServeFault::Frame { number, fault }),
        Err(Stop::Read) => Err(ServeFault::Read),
        Err(Stop::Write) => Err(ServeFault::Write),
        Err(Stop::TurnsSpent) => Err(ServeFault::TurnsSpent),
        Err(Stop::NoMemory) => Err(ServeFault::NoMemory),
    }
}

/// Answers the frames of a stream: reads them from `reader`, has `teller`
/// answer their bodies in turn for `server`, writes the answers to `writer`, and
/// gives how many frames there were.
///
/// A frame is four bytes of length, the highest first, and a body of that many
/// bytes, at most 16,777,216.
///
/// A read asks for 64 KiB. All whole frames that are there are answered, and
/// the answers are written, before the next read; they are written earlier too,
/// whenever there are 64 KiB of them. Memory grows with what was read, never by
/// a length whose bytes did not come: it holds one frame and one read, and the answers
/// that wait, less than 64 KiB before the last one.
///
/// # Errors
///
/// - `Frame`: the frame of this number can't be answered. Its body has this
///   fault; or it is `TooLarge`, which is said as soon as the four bytes of its
///   length are there; or it is `CutShort`, since the input ends inside its
///   length or its body. The answers to the frames before it are written.
/// - `Read`: a read gave an error other than `Interrupted`, which only means
///   that nothing came. The answers to all whole frames that were read are
///   written.
/// - `Write`: a write gave an error other than `Interrupted`, or that one more
///   than 1,000 times in a row, or took none of some bytes. Some first bytes of
///   the answers are written.
/// - `TurnsSpent`: 1,000,000 reads did not come to the end. The answers to all
///   whole frames that were read are written.
/// - `NoMemory`: a growth was refused, of the buffer of 64 KiB, of the held
///   bytes, or in the teller. The answers to some of the first frames are
///   written, and the teller may have been given the next one too, as it may
///   before `Write`.
pub fn tell_frames<R: CountedRead, W: CountedWrite, T, S: Teller<Frames, T, FrameFault>>(
    alloc: Global,
    reader: &mut R,
    writer: &mut W,
    teller: &S,
    server: &mut T,
) -> Result<u64, ServeFault>
    ensures ends { (before : T) → (S.story teller.now before server.old).told [] []
        → EndsTelling (S.story teller.now before server.new) (R.remaining reader.old) (R.remaining reader.new) (W.contents writer.old) (W.contents writer.new) result }
    ensures read { IsErrOf result ServeFault.Read → Rose (R.failed reader.old) (R.failed reader.new) }
    ensures write { IsErrOf result ServeFault.Write → Rose (W.failed writer.old) (W.failed writer.new) }
    ensures turns_spent { IsErrOf result ServeFault.TurnsSpent → RoseBy 1000000 (R.called reader.old) (R.called reader.new) }
    ensures turns { R.called reader.new ≤ R.called reader.old + 1000000 }
{
    serve_outcome(pump_items::<Frames, R, W, T, S, FrameFault>(
        alloc, reader, writer, teller, server,
    ))
}
