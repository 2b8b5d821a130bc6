//! What is printed of a mirror in the end.

ghost use Rattle.std.specs.Prelude.{◌≡◌, ◌++◌, IfOk, OnOk, IsSome, IsNone, IsErrOf};
ghost use Rattle.std.specs.List.{flat_map};
ghost use Rattle.std.specs.Io.KnownBytes.{Appends, Keeps};
ghost use Rattle.eden_ids.specs.FileMaps.{file_at};
ghost use Rattle.eden_connect.specs.Reports.{AppendsFront, position_text, place_text, file_text, report_text};

use crate::fault::ConnectFault;
use eden_history::Position;
use eden_ids::{Content, NoMemory, Path};
use eden_mirror::Mirror;
use eden_script::{kind_name, push_bytes, push_escaped, push_id, push_number};
use eden_stream::print;
use std::alloc::{AllocError, Global};
use std::io::Write;

/// Appends the line of a position.
fn push_position(text: &mut Vec<u8>, position: &Position) -> Result<(), AllocError>
    ensures { OnOk result (text.new.items ≡ text.old.items ++ position_text position.now) }
{
    push_bytes(text, b"placed ".as_slice())?;
    push_number(text, position.generation)?;
    push_bytes(text, b" ".as_slice())?;
    push_number(text, position.sequence)?;
    push_bytes(text, b" ".as_slice())?;
    push_id(text, &position.root)?;
    push_bytes(text, b"\n".as_slice())
}

/// Appends the line that says where a mirror is.
fn push_place(text: &mut Vec<u8>, place: Option<Position>) -> Result<(), AllocError>
    ensures { OnOk result (text.new.items ≡ text.old.items ++ place_text place) }
{
    match place {
        Some(position) => push_position(text, &position),
        None => push_bytes(text, b"unplaced\n".as_slice()),
    }
}

/// Appends the line of a file.
fn push_file(text: &mut Vec<u8>, path: &Path, file: &Content) -> Result<(), AllocError>
    ensures { OnOk result (text.new.items ≡ text.old.items ++ file_text path.now (Some file.now)) }
{
    push_bytes(text, kind_name(file.kind))?;
    push_bytes(text, b" ".as_slice())?;
    push_number(text, file.bytes.len() as u64)?;
    push_bytes(text, b" ".as_slice())?;
    push_escaped(text, path.as_bytes())?;
    push_bytes(text, b"\n".as_slice())
}

/// Appends the lines of the files that a mirror holds at these paths.
fn push_files(text: &mut Vec<u8>, mirror: &Mirror, paths: &[Path]) -> Result<(), AllocError>
    ensures { OnOk result (text.new.items ≡ text.old.items ++ flat_map (λ path. file_text path (file_at mirror.now.files path)) paths.now) }
{
    for path in paths {
        if let Some(file) = mirror.get(path) {
            push_file(text, path, file)?;
        }
    }
    Ok(())
}

/// Returns the text that says where a mirror is and which files it holds.
pub(crate) fn report_text(alloc: Global, mirror: &Mirror) -> Result<Vec<u8>, NoMemory>
    ensures { IfOk result (λ text. text.items ≡ report_text mirror.now) }
{
    let paths = mirror.files()?;
    let mut text = Vec::new(alloc);
    push_place(&mut text, mirror.position())?;
    push_bytes(&mut text, b"files ".as_slice())?;
    push_number(&mut text, paths.len() as u64)?;
    push_bytes(&mut text, b"\n".as_slice())?;
    push_files(&mut text, mirror, paths.as_slice())?;
    Ok(text)
}

/// Writes that text. Returns `Unplaced` after it if the mirror has no position.
pub(crate) fn print_report<W: Write>(
    alloc: Global,
    output: &mut W,
    mirror: &Mirror,
) -> Result<(), ConnectFault>
    ensures ok { OnOk result (IsSome mirror.now.place × Appends (W.contents output.old) (W.contents output.new) (report_text mirror.now)) }
    ensures unplaced { IsErrOf result ConnectFault.Unplaced
        → IsNone mirror.now.place × Appends (W.contents output.old) (W.contents output.new) (report_text mirror.now) }
    ensures torn { IsErrOf result ConnectFault.Write → AppendsFront (W.contents output.old) (W.contents output.new) (report_text mirror.now) }
    ensures unwritten { IsErrOf result ConnectFault.NoMemory → Keeps (W.contents output.old) (W.contents output.new) }
    ensures connected { ¬ IsErrOf result ConnectFault.NoConnection }
{
    let Ok(text) = report_text(alloc, mirror) else {
        return Err(ConnectFault::NoMemory);
    };
    if !print(output, text.as_slice()) {
        return Err(ConnectFault::Write);
    }
    match mirror.position() {
        Some(_) => Ok(()),
        None => Err(ConnectFault::Unplaced),
    }
}
