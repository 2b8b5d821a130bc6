//! What the devices give and take, and where they fail.

use super::{Endless, Sink, Source};
use std::alloc::Global;
use std::io;
use std::io::{ErrorKind, Read, Write};
use std::test::Fail;

/// What a read gave: its bytes and an LF, or `~` where it was interrupted, or `!` where it failed otherwise.
fn push_read(text: &mut Vec<u8>, place: &[u8], read: io::Result<usize>) -> Result<(), Fail> {
    match read {
        Ok(count) => {
            text.extend_from_slice(place.get(..count).ok_or("more than there is room for")?)?;
            text.push(b'\n')?;
        }
        Err(fault) if fault.kind() == ErrorKind::Interrupted => text.push(b'~')?,
        Err(_) => text.push(b'!')?,
    }
    Ok(())
}

/// What reads give that have room for so many bytes each.
fn reads(alloc: Global, source: &mut Source<'_>, rooms: &[usize]) -> Result<Vec<u8>, Fail> {
    let mut text = Vec::new(alloc);
    for room in rooms {
        let mut place = vec![in alloc; 0; *room]?;
        let read = source.read(&mut place);
        push_read(&mut text, place.as_slice(), read)?;
    }
    Ok(text)
}

#[test]
fn a_source_in_pieces(rt: HostRuntime) -> Result<(), Fail> {
    let mut source = Source::new(b"abcdefg");
    source.most = 3;
    source.cut = 4;
    source.fails_at = 6;
    let told = reads(rt.alloc(), &mut source, &[2, 9, 9, 9])?;
    assert_eq!(rt; told.as_slice(), b"ab\ncd\nefg\n!".as_slice());
    Ok(())
}

#[test]
fn interrupted_devices(rt: HostRuntime) -> Result<(), Fail> {
    let mut source = Source::new(b"ab");
    source.interrupts = true;
    let told = reads(rt.alloc(), &mut source, &[9; 4])?;
    assert_eq!(rt; told.as_slice(), b"~ab\n~\n".as_slice());
    Ok(())
}

/// How many bytes each of three writes takes.
fn writes(sink: &mut Sink, bytes: &[u8]) -> io::Result<[usize; 3]> {
    Ok([sink.write(bytes)?, sink.write(bytes)?, sink.write(bytes)?])
}

#[test]
fn a_full_sink(rt: HostRuntime) -> Result<(), Fail> {
    let mut sink = Sink::new(rt.alloc());
    sink.most = 2;
    sink.full_at = 3;
    assert_eq!(rt; writes(&mut sink, b"abc")?, [2, 1, 0]);
    assert_eq!(rt; sink.bytes.as_slice(), b"aba".as_slice());
    Ok(())
}

#[test]
fn bytes_without_end(rt: HostRuntime) -> Result<(), Fail> {
    let mut text = [0; 5];
    Endless::new(b"ab").read_exact(&mut text)?;
    assert_eq!(rt; text.as_slice(), b"ababa".as_slice());
    assert_eq!(rt; Endless::new(b"").read(&mut text)?, 0);
    Ok(())
}
