//! Cuts a stream into objects.
ghost use Rattle.std.specs.Prelude.{◌≡◌, ◌+◌};
ghost use Rattle.eden_batch.specs.internal.Fronts.{Begins};
ghost use Rattle.eden_batch.specs.internal.Grammar.{object_grammar};
ghost use Rattle.eden_batch.specs.internal.Laws.{object_laws};

use crate::fault::ObjectFault;
use crate::fields::Lack;
use crate::header::read_header;
use eden_stream::{Buffer, Framing, Next};

/// The most bytes that an object has: 8 MiB.
const OBJECT_LIMIT: u64 = 8_388_608;

/// What bytes begin with.
#[derive(Clone, Copy)]
enum ObjectFront {
    /// An object that has this number of bytes, with its header and its line feed.
    Whole(usize),

    /// The beginning of an object, and not all of it, or no bytes.
    Partial,

    /// Bytes that are not the beginning of any object.
    Faulty(ObjectFault),
}

/// Returns what bytes begin with.
///
/// It looks only at the header and at the byte after the object.
fn measure_front(bytes: &[u8]) -> ObjectFront
    ensures { Begins bytes.now result }
{
    let (header, behind) = match read_header(bytes) {
        Ok(read) => read,
        Err(Lack::Partial) => return ObjectFront::Partial,
        Err(Lack::Bad) => return ObjectFront::Faulty(ObjectFault::BadHeader),
    };
    if header.size > OBJECT_LIMIT {
        return ObjectFront::Faulty(ObjectFault::TooLarge);
    }
    let size = header.size as usize;
    match behind.get(size) {
        None => ObjectFront::Partial,
        Some(b'\n') => ObjectFront::Whole(bytes.len() - behind.len() + size + 1),
        Some(_) => ObjectFront::Faulty(ObjectFault::BadHeader),
    }
}

/// The format of objects that `git cat-file --batch` prints.
pub(crate) struct Printed;

impl Framing<ObjectFault> for Printed {
    ghost grammar = { object_grammar };

    fn next(held: &mut Buffer, ended: bool) -> Next<ObjectFault> {
        match measure_front(held.as_slice()) {
            ObjectFront::Whole(whole) => Next::Item {
                place: 0,
                size: whole,
                whole,
            },
            ObjectFront::Faulty(fault) => Next::Faulty(fault),
            ObjectFront::Partial if ended && !held.as_slice().is_empty() => {
                Next::Faulty(ObjectFault::CutShort)
            }
            ObjectFront::Partial => Next::Partial,
        }
    }

    ghost lawful = { object_laws };
}
