//! Peers that do not do what they should.

use crate::asking::fetch_frame;
use crate::client::connect;
use std::alloc::Global;
use std::io::Write;
use std::net::{Net, TcpStream};
use std::test::Fail;
use std::time::Clock;

/// What peers send at once: nothing; a part of a frame; a length of 4 GiB; what is no frame; and a thousand requests for `big`, to which they
/// read no reply.
pub fn hostile_texts(alloc: Global) -> Result<Vec<Vec<u8>>, Fail> {
    let frame = fetch_frame(alloc, "big")?;
    let mut many = Vec::new(alloc);
    for _ in 0..1_000 {
        many.extend_from_slice(frame.as_slice())?;
    }
    let mut texts = Vec::new(alloc);
    texts.push(Vec::new(alloc))?;
    texts.push([0, 0, 0, 63, 2, 2].as_slice().to_vec(alloc)?)?;
    texts.push([255; 4].as_slice().to_vec(alloc)?)?;
    texts.push(b"GET / HTTP/1.0\r\n\r\n".as_slice().to_vec(alloc)?)?;
    texts.push(many)?;
    Ok(texts)
}

/// Sends each of the texts on a connection of its own, and keeps the connections open.
pub fn send_all<R: Net<Stream = TcpStream> + Clock>(
    rt: &R,
    alloc: Global,
    port: u16,
    texts: &[Vec<u8>],
) -> Option<Vec<TcpStream>> {
    let mut streams = Vec::new(alloc);
    for text in texts {
        let mut stream = connect(rt, port)?;
        stream.write_all(text).ok()?;
        streams.push(stream).ok()?;
    }
    Some(streams)
}
