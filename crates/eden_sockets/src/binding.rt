//! How a socket is made at a path.

ghost use Rattle.std.specs.Prelude.{◌≡◌, ◌+◌, ◌≤◌, ◌++◌, length};

use crate::listener::ListenFault;
use crate::socket_path::SocketPath;
use arrayvec::ArrayString;
use std::fs::{DirBuilder, File, Files, OpenOptions, Permissions, TryLockError};
use std::io::ErrorKind;
use std::net::Net;
use std::os::unix::fs::{DirBuilderExt, FileTypeExt, MetadataExt, OpenOptionsExt, PermissionsExt};
use std::os::unix::net::{UnixListener, UnixStream};
use std::{fs, io};

/// What accepts connections at a path, and what keeps others from it.
#[derive(Drop)]
pub(crate) struct Bound {
    /// What accepts connections.
    pub(crate) listener: UnixListener,
    /// The lock, which is held as long as this is open.
    lock: File,
}

/// The path of a file beside a socket.
type Beside = ArrayString<107>;

/// Returns a path and what it is followed by.
fn beside(path: SocketPath, end: &str) -> Beside
    requires { length end.now ≤ 6 }
    ensures { result.bytes ≡ path.bytes ++ end.now }
{
    let mut longer = ArrayString::new();
    longer.push_str(path.as_str());
    longer.push_str(end);
    longer
}

/// Returns whether a file is still the one at a path.
fn is_at<R: Files>(rt: &R, file: &File, path: &str) -> io::Result<bool> {
    let here = file.metadata()?;
    match fs::metadata(rt, path) {
        Ok(there) => Ok(here.dev() == there.dev() && here.ino() == there.ino()),
        Err(error) if error.kind() == ErrorKind::NotFound => Ok(false),
        Err(error) => Err(error),
    }
}

/// Takes the lock of the one who listens at a path, or refuses it as `InUse`.
fn lock<R: Files<File = File>>(rt: &R, path: SocketPath) -> Result<File, ListenFault> {
    let name = beside(path, ".lock");
    let lock = OpenOptions::new()
        .write(true)
        .create(true)
        .mode(0o600)
        .open(rt, name.as_str())?;
    match lock.try_lock() {
        // Who had the lock may have removed its file meanwhile. The next one then makes another.
        Ok(()) if !is_at(rt, &lock, name.as_str())? => Err(ListenFault::InUse),
        Ok(()) => Ok(lock),
        Err(TryLockError::WouldBlock) => Err(ListenFault::InUse),
        Err(TryLockError::Error(error)) => Err(ListenFault::System(error)),
    }
}

/// Returns whether a socket may be made at a path.
///
/// Nothing is there, or a socket at which nobody listens.
fn is_free<R: Files + Net>(rt: &R, path: &str) -> io::Result<bool> {
    match fs::symlink_metadata(rt, path) {
        Err(error) if error.kind() == ErrorKind::NotFound => Ok(true),
        Err(error) => Err(error),
        Ok(found) if !found.file_type().is_socket() => Ok(false),
        Ok(_) => match UnixStream::connect(rt, path) {
            Ok(_) => Ok(false),
            Err(error) => Ok(error.kind() == ErrorKind::ConnectionRefused),
        },
    }
}

/// Removes a folder and the socket in it, if they are there.
fn remove_folder<R: Files>(rt: &R, folder: &str, made: &str) {
    let _ = fs::remove_file(rt, made);
    let _ = fs::remove_dir(rt, folder);
}

/// Makes a socket in a folder that is private, and moves it to where it is to be found.
fn bind_private<R: Files + Net>(rt: &R, made: &str, path: &str) -> io::Result<UnixListener> {
    let listener = UnixListener::bind(rt, made)?;
    fs::set_permissions(rt, made, Permissions::from_mode(0o600))?;
    fs::rename(rt, made, path)?;
    Ok(listener)
}

/// Listens at a path, as `Listener::at_path` says.
pub(crate) fn bind<R: Files<File = File> + Net>(
    rt: &R,
    path: SocketPath,
) -> Result<Bound, ListenFault> {
    let lock = lock(rt, path)?;
    if !is_free(rt, path.as_str())? {
        return Err(ListenFault::InUse);
    }
    // Making a socket's file takes the mode that the process's mask leaves, and connections are
    // accepted at once. So it is made where nobody else can go.
    let folder = beside(path, ".new");
    let made = beside(path, ".new/s");
    // What a daemon left that was killed just here.
    remove_folder(rt, folder.as_str(), made.as_str());
    DirBuilder::new().mode(0o700).create(rt, folder.as_str())?;
    let listener = bind_private(rt, made.as_str(), path.as_str());
    remove_folder(rt, folder.as_str(), made.as_str());
    Ok(Bound {
        listener: listener?,
        lock,
    })
}

/// Removes the files of a path, as `Place::remove_files` says.
pub(crate) fn remove<R: Files<File = File> + Net>(
    rt: &R,
    path: SocketPath,
) -> Result<(), ListenFault> {
    let _lock = lock(rt, path)?;
    let is_free = is_free(rt, path.as_str())?;
    if is_free {
        let _ = fs::remove_file(rt, path.as_str());
    }
    fs::remove_file(rt, beside(path, ".lock").as_str())?;
    Ok(())
}
