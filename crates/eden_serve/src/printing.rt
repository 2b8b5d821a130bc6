//! The line in which a daemon says where it accepts connections.

ghost use Rattle.std.specs.Prelude.{◌≡◌, IfOk};
ghost use Rattle.eden_serve.specs.Endings.{listening_text};

use eden_ids::NoMemory;
use eden_script::{push_bytes, push_number};
use eden_sockets::Place;
use std::alloc::Global;

/// Returns the line that says where connections are accepted.
pub(crate) fn listening_line(alloc: Global, place: &Place) -> Result<Vec<u8>, NoMemory>
    ensures { IfOk result (λ text. text.items ≡ listening_text place.now) }
{
    let mut text = Vec::new(alloc);
    push_bytes(&mut text, b"listening ".as_slice())?;
    match place {
        Place::Port(port) => push_number(&mut text, u64::from(*port))?,
        Place::Socket(path) => {
            push_bytes(&mut text, b"unix ".as_slice())?;
            push_bytes(&mut text, path.as_str().as_bytes())?;
        }
    }
    push_bytes(&mut text, b"\n".as_slice())?;
    Ok(text)
}
