//! An input of lines that others read on after the line `listen`.

ghost use Rattle.std.specs.Prelude.{◌≡◌, ◌≤◌, ◌<◌, length, IfOk};

use eden_ids::NoMemory;
use std::alloc::Global;
use std::io;
use std::io::Read;
use std::marker::Model;

/// The line after which others read on.
pub(crate) const LISTEN: &[u8] = b"listen";

/// How many bytes are held, and asked of the device at once: 64 KiB.
const BUFFER_SIZE: usize = 65_536;

/// What is there of the line that is being read.
#[derive(Clone, Copy)]
enum LineFront {
    /// The first N bytes of `listen` and a carriage return, and no other.
    Listen(usize),
    /// Anything else.
    Other,
}

impl LineFront {
    /// Returns what is there with one byte more, which ends no line.
    fn grow(self, byte: u8) -> LineFront {
        match self {
            LineFront::Listen(count) if count < LISTEN.len() && LISTEN[count] == byte => {
                LineFront::Listen(count + 1)
            }
            LineFront::Listen(count) if count == LISTEN.len() && byte == b'\r' => {
                LineFront::Listen(count + 1)
            }
            _ => LineFront::Other,
        }
    }

    /// Goes on over these bytes, up to the end of the first line `listen`.
    ///
    /// Returns how many they are.
    fn pass(&mut self, bytes: &[u8]) -> usize
        ensures most { result ≤ length bytes.now }
        ensures some { 0 < length bytes.now → 0 < result }
    {
        for (place, byte) in bytes.iter().enumerate() {
            if *byte != b'\n' {
                *self = self.grow(*byte);
                continue;
            }
            let is_listen = matches!(*self, LineFront::Listen(count) if count >= LISTEN.len());
            *self = LineFront::Listen(0);
            if is_listen {
                return place + 1;
            }
        }
        bytes.len()
    }
}

/// Bytes that were read of a device and not given yet: those of a buffer between two places.
#[derive(Drop)]
struct Buffer {
    bytes: Vec<u8>,
    start: usize,
    end: usize,
}

impl Model for Buffer {
    ghost use Rattle.std.specs.Prelude.{ℕ, ◌≤◌, ◌<◌, List, length, slice_range};

    ghost Value = { List ℕ };

    ghost view = { λ held. slice_range held.bytes.items held.start held.end };

    ghost invariant = { λ held. (held.start ≤ held.end) × (held.end ≤ length held.bytes.items) × (0 < length held.bytes.items) };
}

impl Buffer {
    ghost use Rattle.std.specs.Prelude.{◌≡◌, ◌≤◌, ◌<◌, [], ◌++◌, length, take, OnOk, IfOk};
    ghost use Rattle.std.specs.Io.KnownBytes.{Keeps, IsAtEnd, prepend_known};

    /// Returns a buffer with no bytes.
    fn new(alloc: Global) -> Result<Buffer, NoMemory>
        ensures { IfOk result (λ held. held ≡ []) }
    {
        match vec![in alloc; 0; BUFFER_SIZE] {
            Ok(bytes) => Ok(Buffer {
                bytes,
                start: 0,
                end: 0,
            }),
            Err(_) => Err(NoMemory),
        }
    }

    /// Returns the first bytes, at most N.
    fn front(&self, most: usize) -> &[u8]
        ensures { result.now ≡ take most self.now }
    {
        let held = &self.bytes[self.start..self.end];
        &held[..held.len().min(most)]
    }

    /// Moves the first bytes to the front of `buf`.
    #[tactic(auto, using(crate::proofs::Giving::range_length))]
    fn give(&mut self, count: usize, buf: &mut [u8])
        requires held { count ≤ length self.old }
        requires room { count ≤ length buf.old }
        ensures room { length buf.new ≡ length buf.old }
        ensures given { self.old ≡ take count buf.new ++ self.new }
    {
        buf[..count].copy_from_slice(self.front(count));
        self.start += count;
    }

    /// Reads of the device once if nothing is held.
    fn fill<I: Read>(&mut self, device: &mut I) -> io::Result<()>
        ensures kept { Keeps (prepend_known self.old (I.remaining device.old)) (prepend_known self.new (I.remaining device.new)) }
        ensures ended { OnOk result (length self.new ≡ 0 → IsAtEnd (I.remaining device.new)) }
    {
        if self.start < self.end {
            return Ok(());
        }
        self.start = 0;
        self.end = 0;
        self.end = device.read(&mut self.bytes)?;
        Ok(())
    }
}

/// A script's input that is read in two parts: up to the line `listen`, and after it.
///
/// As a reader it gives what is there, but no byte after a line that is exactly `listen` in the
/// read in which that line ends. So whoever stops at that line has read no byte after it.
#[derive(Drop)]
pub struct LineInput<I: Read + Drop> {
    device: I,
    held: Buffer,
    front: LineFront,
}

impl<I: Read + Drop> Model for LineInput<I> {
    ghost use Rattle.std.specs.Prelude.{ℕ, List, Option};
    ghost use Rattle.std.specs.Io.KnownBytes.{prepend_known};

    // The bytes that are not given yet, where they are known.
    ghost Value = { Option (List ℕ) };

    ghost view = { λ input. prepend_known input.held (I.remaining input.device) };
}

impl<I: Read + Drop> LineInput<I> {
    /// Returns the input of a device, of which it holds up to 64 KiB.
    pub fn new(alloc: Global, device: I) -> Result<LineInput<I>, NoMemory>
        ensures { IfOk result (λ input. input ≡ I.remaining device) }
    {
        let held = Buffer::new(alloc)?;
        Ok(LineInput {
            device,
            held,
            front: LineFront::Listen(0),
        })
    }
}

impl<I: Read + Drop> Read for LineInput<I> {
    ghost remaining = { λ input. input };

    fn read(&mut self, buf: &mut [u8]) -> io::Result<usize> {
        self.held.fill(&mut self.device)?;
        let taken = self.front.pass(self.held.front(buf.len()));
        self.held.give(taken, buf);
        Ok(taken)
    }
}
