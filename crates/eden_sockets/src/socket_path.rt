//! The path of a socket.

ghost use Rattle.std.specs.Prelude.{◌≡◌, None, Some, IfOk, IfErr};
ghost use Rattle.std.specs.List.{list_all};
ghost use Rattle.eden_sockets.specs.SocketPaths.{is_path_byte, socket_path_fault};

use arrayvec::ArrayString;
use std::marker::Model;
use thiserror::Error;

/// Why a text can't be the path of a socket. The first cause in this order is reported.
#[derive(Clone, Copy, Debug, PartialEq, Eq, Error)]
pub enum SocketPathFault {
    /// There are no bytes.
    #[error("the path is empty")]
    Empty,
    /// There are more than 101 bytes.
    #[error("the path has more than 101 bytes")]
    TooLong,
    /// There is a NUL byte or a line feed.
    #[error("the path holds a NUL byte or a line feed")]
    BadByte,
}

/// How many bytes the path of a socket has at most.
///
/// The system takes 107 bytes, and a socket is made at a path that is 6 bytes longer.
pub(crate) const MOST_BYTES: usize = 101;

/// The path of a socket: 1 to 101 bytes of text, without a NUL byte and a line feed.
#[derive(Clone, Copy)]
pub struct SocketPath {
    text: ArrayString<MOST_BYTES>,
}

impl Model for SocketPath {
    ghost use Rattle.std.specs.Prelude.{◌≡◌, None};
    ghost use Rattle.arrayvec.specs.ArrayString.{ArrayString as Text};
    ghost use Rattle.eden_sockets.specs.SocketPaths.{socket_path_fault};

    ghost Value = { Text };

    ghost view = { λ path. path.text };

    ghost invariant = { λ path. socket_path_fault path.text.bytes ≡ None };

    ghost inverse = { λ text. record { text = text } };
}

/// Returns true if the byte is neither NUL nor a line feed.
fn is_path_byte(byte: &u8) -> bool
    ensures { result ≡ is_path_byte byte.now }
{
    *byte != 0 && *byte != b'\n'
}

/// Returns true if each byte may be in the path of a socket.
fn has_path_bytes_alone(text: &[u8]) -> bool
    ensures { result ≡ list_all is_path_byte text.now }
{
    text.iter().all(is_path_byte)
}

/// Returns why a text can't be the path of a socket.
fn fault_of(text: &str) -> Option<SocketPathFault>
    ensures { result ≡ socket_path_fault text.now }
{
    if text.is_empty() {
        Some(SocketPathFault::Empty)
    } else if text.len() > MOST_BYTES {
        Some(SocketPathFault::TooLong)
    } else if !has_path_bytes_alone(text.as_bytes()) {
        Some(SocketPathFault::BadByte)
    } else {
        None
    }
}

impl SocketPath {
    /// Reads the path of a socket, and keeps a copy of it.
    ///
    /// # Errors
    ///
    /// The first of these that applies:
    ///
    /// - `Empty` if there are no bytes.
    /// - `TooLong` if there are more than 101 bytes.
    /// - `BadByte` if there is a NUL byte or a line feed.
    pub fn new(text: &str) -> Result<SocketPath, SocketPathFault>
        ensures accepts { IfOk result (λ _. socket_path_fault text.now ≡ None) }
        ensures keeps { IfOk result (λ path. path.bytes ≡ text.now) }
        ensures refuses { IfErr result (λ fault. socket_path_fault text.now ≡ Some fault) }
    {
        if let Some(fault) = fault_of(text) {
            return Err(fault);
        }
        match ArrayString::from(text) {
            Ok(text) => Ok(SocketPath { text }),
            Err(_) => unreachable!(),
        }
    }

    /// Returns the path.
    pub fn as_str(&self) -> &str
        ensures { result.now ≡ self.now.bytes }
    {
        self.text.as_str()
    }
}
