//! Devices that remember how they failed.

use std::io;
use std::io::Read;

/// A reader that remembers the last error that it gave.
#[derive(Drop)]
pub(crate) struct Noting<D> {
    device: D,
    /// The error.
    pub(crate) failed: Option<io::Error>,
}

impl<D> Noting<D> {
    /// Makes a reader that has not failed.
    pub(crate) fn new(device: D) -> Noting<D> {
        Noting {
            device,
            failed: None,
        }
    }
}

impl<D: Read> Read for Noting<D> {
    fn read(&mut self, buf: &mut [u8]) -> io::Result<usize> {
        match self.device.read(buf) {
            Ok(taken) => Ok(taken),
            Err(error) => {
                self.failed = Some(error);
                Err(error)
            }
        }
    }
}
