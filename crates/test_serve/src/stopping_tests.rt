//! A device that ends once a flag is set.

use eden_serve::Stoppable;
use std::io;
use std::io::{Error, ErrorKind, Read, Write};
use std::sync::atomic::{AtomicBool, Ordering};
use std::test::Fail;

/// A device that has to wait twice for each byte, and takes or gives one byte at a time. Its reads and writes fail once it has given or taken
/// three.
#[derive(Drop)]
struct Slow {
    calls: u8,
    bytes: Vec<u8>,
}

impl Slow {
    /// What this call is: the byte's number, where it is one that gives or takes a byte.
    fn step(&mut self) -> io::Result<u8> {
        self.calls = self.calls.saturating_add(1);
        match (self.calls / 3, self.calls % 3) {
            (number, 0) if number > 3 => Err(Error::from(ErrorKind::BrokenPipe)),
            (number, 0) => Ok(number),
            (_, 1) => Err(Error::from(ErrorKind::WouldBlock)),
            _ => Err(Error::from(ErrorKind::TimedOut)),
        }
    }
}

impl Read for Slow {
    fn read(&mut self, buf: &mut [u8]) -> io::Result<usize> {
        let number = self.step()?;
        match buf.first_mut() {
            Some(first) => {
                *first = number;
                Ok(1)
            }
            None => Ok(0),
        }
    }
}

impl Write for Slow {
    fn write(&mut self, buf: &[u8]) -> io::Result<usize> {
        self.step()?;
        match buf.first() {
            Some(first) => {
                self.bytes.push(*first)?;
                Ok(1)
            }
            None => Ok(0),
        }
    }

    fn flush(&mut self) -> io::Result<()> {
        Ok(())
    }
}

#[test]
fn waits_are_no_answers(rt: HostRuntime) -> Result<(), Fail> {
    let alloc = rt.alloc();
    let stopped = AtomicBool::new(false);
    let mut slow = Slow {
        calls: 0,
        bytes: Vec::new(alloc),
    };
    let mut read = Vec::new(alloc);
    let ended = Stoppable::new(&rt, &stopped, &mut slow).read_to_end(&mut read);
    assert_eq!(rt;
        ended.map_err(|error| error.kind()),
        Err(ErrorKind::BrokenPipe)
    );
    assert_eq!(rt; read.as_slice(), [1, 2, 3].as_slice());
    slow.calls = 0;
    let ended = Stoppable::new(&rt, &stopped, &mut slow).write_all(b"abcd");
    assert_eq!(rt;
        ended.map_err(|error| error.kind()),
        Err(ErrorKind::BrokenPipe)
    );
    assert_eq!(rt; slow.bytes.as_slice(), b"abc".as_slice());
    Ok(())
}

#[test]
fn a_flag_ends_a_device(rt: HostRuntime) -> Result<(), Fail> {
    let alloc = rt.alloc();
    let stopped = AtomicBool::new(false);
    let mut slow = Slow {
        calls: 0,
        bytes: Vec::new(alloc),
    };
    let mut device = Stoppable::new(&rt, &stopped, &mut slow);
    let mut byte = [0];
    assert_eq!(rt; device.read(&mut byte)?, 1);
    stopped.store(true, Ordering::SeqCst);
    assert_eq!(rt; device.read(&mut byte)?, 0);
    let ended = device.write(b"a");
    assert_eq!(rt;
        ended.map_err(|error| error.kind()),
        Err(ErrorKind::TimedOut)
    );
    assert!(rt; slow.bytes.is_empty());
    Ok(())
}
