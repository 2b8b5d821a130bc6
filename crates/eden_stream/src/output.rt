//! Texts that are written whole.
ghost use Rattle.std.specs.Bool.{OnFalse, OnTrue};
ghost use Rattle.std.specs.Io.KnownBytes.{Appends};
ghost use Rattle.eden_stream.specs.Torn.{Tears};

use super::transfer::MOST_TRIES;
use std::io::{ErrorKind, Write};

/// Writes and flushes a text, and returns whether the writer took it all.
///
/// It goes on while the writer takes only a part, and after up to 1,000 interruptions in a row. If
/// it fails, some first bytes of the text are written. Does not allocate.
pub fn print<W: Write>(writer: &mut W, text: &[u8]) -> bool
    ensures printed { OnTrue result (Appends (W.contents writer.old) (W.contents writer.new) text.now) }
    ensures torn { OnFalse result (Tears (W.contents writer.old) (W.contents writer.new) text.now) }
{
    let mut at = 0;
    let mut tries = MOST_TRIES;
    while at < text.len() {
        match writer.write(&text[at..]) {
            Ok(0) => return false,
            Ok(taken) => {
                at += taken;
                tries = MOST_TRIES;
            }
            Err(error) => {
                if error.kind() != ErrorKind::Interrupted || tries == 0 {
                    return false;
                }
                tries -= 1;
            }
        }
    }
    writer.flush().is_ok()
}
