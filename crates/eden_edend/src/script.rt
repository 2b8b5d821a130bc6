//! A whole script, from a reader to a writer.

ghost use Rattle.std.specs.Prelude.{◌+◌, ◌≤◌, IsErrOf};
ghost use Rattle.eden_stream.specs.Counts.{Rose, RoseBy};
ghost use Rattle.eden_stream.specs.Ends.{Ends};
ghost use Rattle.eden_script.specs.ScriptText.{script_text};
ghost use Rattle.eden_script.specs.Sessions.{first_session, session_over};

use crate::objects::Objects;
use crate::session::Session;
use eden_stream::{CountedRead, CountedWrite, RunFault, run_lines};
use std::alloc::Global;

/// Runs a script: reads its lines, does what each asks for, and writes what it prints. Gives the
/// number of lines.
///
/// A line ends with LF or CR LF; the last may lack its end, and then a CR counts as its byte. Empty
/// lines and lines that begin with `#` are skipped and counted. The other lines are those of the
/// script's table, with words parted by single spaces: `blob L TEXT`, `tree L` and any number of
/// `MODE NAME LABEL`, `commit L TREE` and `id L` for objects, and `mount L GENERATION LIMIT` for
/// the mount, once; for what changes it `write PATH KIND TEXT`, `remove PATH`, `rename OLD NEW`,
/// `renamedir OLD NEW`, `reset L`, `checkout L MODE`, `flush` and `remount GENERATION`; and for
/// what is asked of it `position`, `list` and any number of patterns, `dirty`, `read PATH` and
/// `since GENERATION SEQUENCE`. Objects are put before the mount.
///
/// Whole lines are answered before the next read, of 64 KiB each; what they print is gathered, and
/// written before the next read and whenever there are 64 KiB of it.
///
/// # Errors
///
/// - `BadLine`, with the number of the first line that no row of the table reads, from 1: what the
///   lines before it print is written. A line of more than 65,536 bytes without its end, comments
///   apart, is one.
/// - `Read` and `Write`, where the device failed in this call: what the whole lines print that were
///   read is written; after `Write`, the first bytes of what some first lines print.
/// - `TurnsSpent`, after 1,000,000 reads in this call: what the whole lines print that were read is
///   written.
/// - `NoMemory`, where a growth was refused: what some first lines print is written.
pub fn run<R: CountedRead, W: CountedWrite>(
    alloc: Global,
    reader: &mut R,
    writer: &mut W,
) -> Result<u64, RunFault>
    ensures ends { Ends (script_text first_session) (R.remaining reader.old) (R.remaining reader.new) (W.contents writer.old) (W.contents writer.new) result }
    ensures read { IsErrOf result RunFault.Read → Rose (R.failed reader.old) (R.failed reader.new) }
    ensures write { IsErrOf result RunFault.Write → Rose (W.failed writer.old) (W.failed writer.new) }
    ensures turns_spent { IsErrOf result RunFault.TurnsSpent → RoseBy 1000000 (R.called reader.old) (R.called reader.new) }
    ensures turns { R.called reader.new ≤ R.called reader.old + 1000000 }
{
    run_over(alloc, Objects::new(alloc), reader, writer)
}

/// Runs a script as `run` does, which begins with some objects, and with labels that are bound to
/// some of them.
///
/// # Errors
///
/// As those of `run`.
pub fn run_over<R: CountedRead, W: CountedWrite>(
    alloc: Global,
    objects: Objects,
    reader: &mut R,
    writer: &mut W,
) -> Result<u64, RunFault>
    ensures ends { Ends (script_text (session_over objects.store objects.labels)) (R.remaining reader.old) (R.remaining reader.new) (W.contents writer.old) (W.contents writer.new) result }
    ensures read { IsErrOf result RunFault.Read → Rose (R.failed reader.old) (R.failed reader.new) }
    ensures write { IsErrOf result RunFault.Write → Rose (W.failed writer.old) (W.failed writer.new) }
    ensures turns_spent { IsErrOf result RunFault.TurnsSpent → RoseBy 1000000 (R.called reader.old) (R.called reader.new) }
    ensures turns { R.called reader.new ≤ R.called reader.old + 1000000 }
{
    let mut session = Session::new(alloc, objects);
    run_lines(alloc, reader, writer, &mut session)
}
