//! Puts the objects of a stream into an importer.
ghost use Rattle.std.specs.Prelude.{◌≡◌};
ghost use Rattle.eden_batch.specs.internal.Loads.{put_laws, put_story, refusal_of};

use crate::fault::ObjectFault;
use crate::framing::Printed;
use crate::header::read_header;
use eden_ids::Id;
use eden_objects::{Importer, Payload, PutFault};
use eden_stream::{Step, Teller};

/// What is filled, and the ids of the objects that were put so far.
#[derive(Drop)]
pub(crate) struct Filling<'a, I> {
    pub(crate) into: &'a mut I,
    pub(crate) ids: &'a mut Vec<Id>,
}

/// Returns the answer to a put call that refused an object for this cause.
fn refusal(cause: PutFault) -> Step<ObjectFault>
    ensures { result ≡ refusal_of cause }
{
    match cause {
        PutFault::NoMemory => Step::NoMemory,
        _ => Step::Fault(ObjectFault::Refused(cause)),
    }
}

/// Puts objects.
pub(crate) struct Putting;

impl<'a, I: Importer> Teller<Printed, Filling<'a, I>, ObjectFault> for Putting {
    ghost story = { λ _ before now. put_story I.name I.held I.over before now };

    fn answer(
        &self,
        filling: &mut Filling<'a, I>,
        item: &[u8],
        _text: &mut Vec<u8>,
    ) -> Step<ObjectFault> {
        let Ok((header, behind)) = read_header(item) else {
            // An item is a whole object.
            unreachable!();
        };
        // The bytes are copied: the next ones take their place in the buffer.
        let payload = Payload::Copied(&behind[..header.size as usize]);
        match filling.into.put_object(header.object_type, payload) {
            Ok(id) if id != header.id => Step::Fault(ObjectFault::OtherId),
            Ok(id) => match filling.ids.push(id) {
                Ok(()) => Step::Told,
                Err(_) => Step::NoMemory,
            },
            Err(cause) => refusal(cause),
        }
    }

    ghost lawful = { λ _ before now. put_laws I.name I.held I.over before now };
}
