//! Reads a whole batch of objects.
ghost use Rattle.std.specs.Prelude.{◌≡◌, ◌≢◌, ℕ, ◌+◌, ◌≤◌, [], IsErrOf};
ghost use Rattle.eden_stream.specs.Counts.{Rose, RoseBy};
ghost use Rattle.eden_batch.specs.Ends.{Ends};
ghost use Rattle.eden_batch.specs.internal.Loads.{IsReadAs, with_ids};

use crate::fault::{ObjectFault, ObjectsFault};
use crate::framing::Printed;
use crate::putting::{Filling, Putting};
use eden_ids::{Id, Sequence};
use eden_objects::Importer;
use eden_stream::{CountedRead, Nowhere, Stop, pump_items};
use std::alloc::Global;

/// Returns how a reading ended, given how the pump ended.
///
/// `number` is that of the object after those whose ids are noted. The pump's writer never fails.
fn read_outcome(number: u64, outcome: Result<u64, Stop<ObjectFault>>) -> Result<(), ObjectsFault>
    requires { outcome ≢ Err Stop.Write }
    ensures { IsReadAs number outcome result }
{
    match outcome {
        Ok(_) => Ok(()),
        Err(Stop::Item { number, fault }) => Err(ObjectsFault::Object { number, fault }),
        Err(Stop::Read) => Err(ObjectsFault::Read { number }),
        Err(Stop::TurnsSpent) => Err(ObjectsFault::TurnsSpent { number }),
        Err(Stop::NoMemory) => Err(ObjectsFault::NoMemory { number }),
        Err(Stop::Write) => unreachable!(),
    }
}

/// Puts the objects of a stream and notes their ids.
fn fill<R: CountedRead, I: Importer>(
    alloc: Global,
    reader: &mut R,
    filling: &mut Filling<'_, I>,
) -> Result<(), ObjectsFault>
    requires { filling.old.ids.now.items ≡ [] }
    ensures ends { Ends I.name (R.remaining reader.old) (R.remaining reader.new)
        (I.held filling.old.into.now) (I.held filling.new.into.now) (with_ids filling.new.ids.now.items result) }
    ensures only { filling.new.into.now ≡ I.over filling.old.into.now (I.held filling.new.into.now) }
    ensures same_importer { filling.new.into.ghost_name ≡ filling.old.into.ghost_name }
    ensures same_list { filling.new.ids.ghost_name ≡ filling.old.ids.ghost_name }
    ensures read { (number : ℕ) → IsErrOf result (ObjectsFault.Read number) → Rose (R.failed reader.old) (R.failed reader.new) }
    ensures turns_spent { (number : ℕ) → IsErrOf result (ObjectsFault.TurnsSpent number)
        → RoseBy 1000000 (R.called reader.old) (R.called reader.new) }
    ensures turns { R.called reader.new ≤ R.called reader.old + 1000000 }
{
    let outcome = pump_items::<Printed, R, Nowhere, Filling<'_, I>, Putting, ObjectFault>(
        alloc,
        reader,
        &mut Nowhere::new(),
        &Putting,
        filling,
    );
    read_outcome(filling.ids.len() as u64 + 1, outcome)
}

/// Reads objects to the end of a stream and puts them into a store.
///
/// The stream is what `git cat-file --batch` prints. The objects may also be put into another
/// `Importer`, such as a mount. Returns their ids, in order.
///
/// An object is a header, its bytes and a line feed. A header is an id in 40 lower-case hexadecimal
/// digits, a space, `blob`, `tree` or `commit`, a space, the number of bytes in decimal, and a line
/// feed. The number has no sign and no leading zero, so a header has at most 69 bytes. Each object
/// is put by the call for its kind, `put_blob`, `put_tree` or `put_commit`, and must have the id of
/// its header. So what an object names comes before it in the stream.
///
/// A read asks for 64 KiB. Apart from the objects, memory is taken for one object, one read and the
/// ids.
///
/// # Errors
///
/// The first fault ends the reading, and what was put before it stays put. Each fault has the
/// number of the object at which the reading ended, counted from 1. If an object has several
/// faults, the first in this order is reported:
///
/// - `BadHeader`: the bytes are not the beginning of any header. This is reported as soon as it is
///   certain, after 69 bytes at the latest. A header's number is below 2^64. Also, the byte after
///   an object is not a line feed.
/// - `TooLarge`: the header's number is above 8,388,608. This is reported before the bytes are
///   read.
/// - `CutShort`: the stream ends within a header or an object, or before its line feed.
/// - `Refused`: the put call refuses the object, for this cause. It is never `NoMemory`.
/// - `OtherId`: the object has another id than its header says. It is put, under its own id.
///
/// These come as `Object`. The others are:
///
/// - `Read`: a read returned an error other than `Interrupted`, which only means that nothing came.
///   All whole objects that were read are put.
/// - `TurnsSpent`: 1,000,000 reads did not reach the end. All whole objects that were read are put.
/// - `NoMemory`: an allocation failed. All objects before the one of that number are put. That one
///   may be put too, and no other. This may be returned instead of any other result.
pub fn read_objects<R: CountedRead, I: Importer>(
    alloc: Global,
    reader: &mut R,
    into: &mut I,
) -> Result<Sequence<Id>, ObjectsFault>
    ensures ends { Ends I.name (R.remaining reader.old) (R.remaining reader.new) (I.held into.old) (I.held into.new) result }
    // Only the objects are changed.
    ensures only { into.new ≡ I.over into.old (I.held into.new) }
    ensures read { (number : ℕ) → IsErrOf result (ObjectsFault.Read number) → Rose (R.failed reader.old) (R.failed reader.new) }
    ensures turns_spent { (number : ℕ) → IsErrOf result (ObjectsFault.TurnsSpent number)
        → RoseBy 1000000 (R.called reader.old) (R.called reader.new) }
    ensures turns { R.called reader.new ≤ R.called reader.old + 1000000 }
{
    let mut ids = Vec::new(alloc);
    let mut filling = Filling {
        into,
        ids: &mut ids,
    };
    fill(alloc, reader, &mut filling)?;
    Ok(Sequence::from_vec(ids))
}
