//! What makes connections to a service.

use eden_ids::NoMemory;
use eden_sockets::{Place, Stream};
use std::alloc::Global;
use std::io::{BufReader, Read, Write};
use std::net::{Net, TcpStream};

/// How many bytes of replies are read at once: 64 KiB.
const BUFFER: usize = 65_536;

/// Makes connections to a service, one after another.
pub trait Dial {
    ghost use Rattle.std.specs.Option.{option_map};
    ghost use Rattle.std.specs.Prelude.{ℕ, List, Option, IfOk};

    /// Reads what the service sends.
    type Reader: Read + Drop;

    /// Writes to the service.
    type Writer: Write + Drop;

    // What may come of asking for a connection: none, or one whose reader has these bytes, as far
    // as they are known.
    ghost dials: { Self → Option (Option (List ℕ)) → Self → Type 0 };

    /// Makes a connection, or returns `None` if none can be made.
    ///
    /// `NoMemory` if an allocation fails.
    fn dial(&mut self) -> Result<Option<(Self::Reader, Self::Writer)>, NoMemory>
        ensures { IfOk result (λ made. dials self.old (option_map (λ ends. Self.Reader.remaining ends.0) made) self.new) };
}

/// Makes connections to a place.
#[derive(Drop)]
pub(crate) struct Dialer<'a, R> {
    rt: &'a R,
    alloc: Global,
    place: Place,
}

impl<'a, R> Dialer<'a, R> {
    /// Returns what connects to a place.
    pub(crate) fn new(rt: &'a R, alloc: Global, place: Place) -> Dialer<'a, R> {
        Dialer { rt, alloc, place }
    }
}

impl<'a, R: Net<Stream = TcpStream>> Dial for Dialer<'a, R> {
    ghost use Rattle.std.specs.Prelude.{⊤};

    type Reader = BufReader<Stream>;

    type Writer = Stream;

    // No contract says what a place does.
    ghost dials = { λ _ _ _. ⊤ };

    fn dial(&mut self) -> Result<Option<(BufReader<Stream>, Stream)>, NoMemory> {
        let Ok(stream) = self.place.connect(self.rt) else {
            return Ok(None);
        };
        let Ok(writer) = stream.try_clone() else {
            return Ok(None);
        };
        match BufReader::with_capacity(self.alloc, BUFFER, stream) {
            Ok(reader) => Ok(Some((reader, writer))),
            Err(_) => Err(NoMemory),
        }
    }
}
