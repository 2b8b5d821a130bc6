//! One read and one whole write, over devices that count.
ghost use Rattle.std.specs.Prelude.{◌≡◌, ◌+◌, ◌<◌, ◌≤◌, [], length};
ghost use Rattle.std.specs.Bool.{OnFalse, OnTrue};
ghost use Rattle.std.specs.Io.KnownBytes.{Appends};
ghost use Rattle.eden_stream.specs.Counts.{Rose, RoseBy};
ghost use Rattle.eden_stream.specs.Counts.{Grew};
ghost use Rattle.eden_stream.specs.internal.Steps.{HasReceived, Sends};
ghost use Rattle.eden_stream.specs.Torn.{Tears};

use super::buffer::Buffer;
use super::counts::{CountedRead, CountedWrite};
use std::io::ErrorKind;

/// A text of this many bytes is written at once: 64 KiB.
const TEXT_SIZE: usize = 65_536;

/// A write is tried again this many times in a row where it was interrupted.
pub(crate) const MOST_TRIES: u32 = 1_000;

/// What one read gave.
pub(crate) enum Received {
    /// Bytes, or none where the read was interrupted.
    More,

    /// No bytes, since none are left.
    Ended,

    /// An error.
    Failed,

    /// Bytes that memory has no room for.
    NoMemory,
}

/// Reads once into `buffer`, and appends what came to the bytes that are held.
pub(crate) fn receive<R: CountedRead>(
    reader: &mut R,
    buffer: &mut [u8],
    held: &mut Buffer,
) -> Received
    requires { 0 < length buffer.old }
    ensures bytes { HasReceived (R.remaining reader.old) (R.remaining reader.new) held.old held.new result }
    ensures room { length held.new ≤ length held.old + length buffer.old }
    ensures called { RoseBy 1 (R.called reader.old) (R.called reader.new) }
    ensures called_once { R.called reader.new ≤ R.called reader.old + 1 }
    ensures failed { result ≡ Received.Failed → Rose (R.failed reader.old) (R.failed reader.new) }
    ensures grew { Grew (R.failed reader.old) (R.failed reader.new) }
{
    match reader.read_counted(buffer) {
        Ok(0) => Received::Ended,
        Ok(taken) => match held.append(&buffer[..taken]) {
            Ok(()) => Received::More,
            Err(_) => Received::NoMemory,
        },
        Err(error) => {
            if error.kind() == ErrorKind::Interrupted {
                Received::More
            } else {
                Received::Failed
            }
        }
    }
}

/// Writes a text, and returns whether it is all written.
///
/// It goes on while the device takes only a part, and after up to 1,000 interruptions in a row. If
/// it fails, some first bytes of the text are written. It does not flush. Does not allocate.
pub fn write_text<W: CountedWrite>(writer: &mut W, text: &[u8]) -> bool
    ensures written { OnTrue result (Appends (W.contents writer.old) (W.contents writer.new) text.now) }
    ensures torn { OnFalse result (Tears (W.contents writer.old) (W.contents writer.new) text.now) }
    ensures failed { OnFalse result (Rose (W.failed writer.old) (W.failed writer.new)) }
    ensures grew { Grew (W.failed writer.old) (W.failed writer.new) }
{
    let mut at = 0;
    let mut tries = MOST_TRIES;
    while at < text.len() {
        match writer.write_counted(&text[at..]) {
            Ok(0) => return false,
            Ok(taken) => {
                at += taken;
                tries = MOST_TRIES;
            }
            Err(error) => {
                if error.kind() != ErrorKind::Interrupted || tries == 0 {
                    return false;
                }
                tries -= 1;
            }
        }
    }
    true
}

/// Writes the waiting text and empties it, and says whether it is all written.
pub(crate) fn send<W: CountedWrite>(writer: &mut W, text: &mut Vec<u8>) -> bool
    ensures sent { OnTrue result (Appends (W.contents writer.old) (W.contents writer.new) text.old.items) }
    ensures none_left { OnTrue result (text.new.items ≡ []) }
    ensures torn { OnFalse result (Tears (W.contents writer.old) (W.contents writer.new) text.old.items) }
    ensures failed { OnFalse result (Rose (W.failed writer.old) (W.failed writer.new)) }
    ensures grew { Grew (W.failed writer.old) (W.failed writer.new) }
{
    let written = write_text(writer, text);
    if written {
        text.clear();
    }
    written
}

/// Writes the waiting text where there are 64 KiB of it, and says whether
/// nothing failed.
pub(crate) fn send_if_full<W: CountedWrite>(writer: &mut W, text: &mut Vec<u8>) -> bool
    ensures sent { OnTrue result (Sends (W.contents writer.old) (W.contents writer.new) text.old.items text.new.items) }
    ensures torn { OnFalse result (Tears (W.contents writer.old) (W.contents writer.new) text.old.items) }
    ensures failed { OnFalse result (Rose (W.failed writer.old) (W.failed writer.new)) }
    ensures grew { Grew (W.failed writer.old) (W.failed writer.new) }
{
    if text.len() < TEXT_SIZE {
        return true;
    }
    send(writer, text)
}
