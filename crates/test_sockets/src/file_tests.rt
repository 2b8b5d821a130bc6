//! What becomes of the files at the path of a socket.

use crate::files::{files_of, fresh_path};
use eden_sockets::{ListenFault, Listener, Place, SocketPath};
use std::fs;
use std::fs::{File, Files};
use std::io::ErrorKind;
use std::net::Net;
use std::os::unix::fs::PermissionsExt;
use std::test::Fail;

/// Whether somebody else is there.
fn is_taken<R: Files<File = File> + Net>(rt: &R, path: SocketPath) -> bool {
    matches!(Listener::at_path(rt, path), Err(ListenFault::InUse))
}

#[test]
fn one_listens(rt: HostRuntime) -> Result<(), Fail> {
    let path = fresh_path(&rt, rt.alloc())?;
    let listener = Listener::at_path(&rt, path)?;
    let mode = fs::metadata(&rt, path.as_str())?.permissions().mode();
    assert_eq!(rt; mode & 0o777, 0o600);
    assert!(rt; is_taken(&rt, path));
    drop(listener);
    let refused = Place::Socket(path).connect(&rt);
    assert!(rt; matches!(refused, Err(error) if error.kind() == ErrorKind::ConnectionRefused));
    // The file that it has left gives way.
    let listener = Listener::at_path(&rt, path)?;
    Place::Socket(path).remove_files(&rt);
    assert_eq!(rt; files_of(&rt, rt.alloc(), path)?, (true, true));
    drop(listener);
    Place::Socket(path).remove_files(&rt);
    assert_eq!(rt; files_of(&rt, rt.alloc(), path)?, (false, false));
    Ok(())
}

#[test]
fn file_stays(rt: HostRuntime) -> Result<(), Fail> {
    let path = fresh_path(&rt, rt.alloc())?;
    fs::write(&rt, path.as_str(), b"mine".as_slice())?;
    assert!(rt; is_taken(&rt, path));
    Place::Socket(path).remove_files(&rt);
    assert_eq!(rt; files_of(&rt, rt.alloc(), path)?, (true, false));
    assert!(rt; fs::read(&rt, path.as_str())?.as_slice() == b"mine".as_slice());
    fs::remove_file(&rt, path.as_str())?;
    Ok(())
}

#[test]
fn rests_of_another_go(rt: HostRuntime) -> Result<(), Fail> {
    let path = fresh_path(&rt, rt.alloc())?;
    let folder = format!(in rt.alloc(); "{}.new", path.as_str())?;
    fs::create_dir(&rt, folder.as_str())?;
    fs::write(
        &rt,
        format!(in rt.alloc(); "{folder}/s")?.as_str(),
        b"".as_slice(),
    )?;
    assert!(rt; Listener::at_path(&rt, path).is_ok());
    assert!(rt; !fs::exists(&rt, folder.as_str())?);
    Place::Socket(path).remove_files(&rt);
    Ok(())
}
