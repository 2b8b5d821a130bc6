//! `edend serve` at a Unix socket: what it prints, and what becomes of the files.

use crate::daemon_tests::{ALL, OneFile, ran, split_words};
use crate::observed_tests::serve;
use eden_sockets::{Listener, Place, SocketPath};
use std::alloc::Global;
use std::fs::{File, Files};
use std::io::{Read, Write};
use std::net::{Net, TcpListener, TcpStream};
use std::sync::Wait;
use std::sync::atomic::{AtomicBool, Ordering};
use std::test::Fail;
use std::thread::Threads;
use std::time::{Clock, Duration};
use std::{fs, thread};
use test_sockets::{files_of, fresh_path};

/// A script that ends as soon as it is served.
const SERVED: &str = "mount empty 7 1000\nlisten\n";

/// What `edend` comes to at a socket with a script, beside no objects: its status, its output, and
/// what it prints of a fault.
fn ran_at<
    R: Threads
        + Wait
        + Clock
        + Files<File = File>
        + Net<Listener = TcpListener, Stream = TcpStream>
        + Sync,
>(
    rt: &R,
    alloc: Global,
    path: &str,
    script: &str,
    options: &str,
) -> Result<(u8, Vec<u8>, Vec<u8>), Fail> {
    let words = format!(in alloc; "edend serve --socket {path} --connections 1{options}")?;
    let file = OneFile {
        bytes: b"",
        fails_at: ALL,
    };
    ran(rt, alloc, words.as_str(), &file, script, ALL, ALL)
}

/// Whether `edend` serves at a socket until its script ends, and leaves no file.
fn is_served_at<
    R: Threads
        + Wait
        + Clock
        + Files<File = File>
        + Net<Listener = TcpListener, Stream = TcpStream>
        + Sync,
>(rt: &R, alloc: Global, path: SocketPath) -> Result<bool, Fail> {
    let name = path.as_str();
    let (status, output, errors) = ran_at(rt, alloc, name, SERVED, " --stay")?;
    let printed = format!(in alloc; "at 7 1 empty\nlistening unix {name}\n")?;
    let is_printed = output.as_slice() == printed.as_bytes() && errors.is_empty();
    Ok(status == 0 && is_printed && files_of(rt, alloc, path)? == (false, false))
}

/// Whether `edend` is refused at a socket that is in use. It reads no objects then.
fn is_refused_at<
    R: Threads
        + Wait
        + Clock
        + Files<File = File>
        + Net<Listener = TcpListener, Stream = TcpStream>
        + Sync,
>(rt: &R, alloc: Global, path: SocketPath) -> Result<bool, Fail> {
    let name = path.as_str();
    let (status, output, errors) = ran_at(rt, alloc, name, SERVED, " --objects none")?;
    let said = format!(in alloc;
        "edend: NoConnection: socket {name}: Address already in use (os error 98)\n"
    )?;
    Ok(status == 3 && output.is_empty() && errors.as_slice() == said.as_bytes())
}

#[test]
fn socket_is_made_and_removed(rt: HostRuntime) -> Result<(), Fail> {
    let alloc = rt.alloc();
    let path = fresh_path(&rt, alloc)?;
    assert!(rt; is_served_at(&rt, alloc, path)?);
    // A daemon that was killed leaves its files.
    drop(Listener::at_path(&rt, path)?);
    assert!(rt; is_served_at(&rt, alloc, path)?);
    Ok(())
}

#[test]
fn socket_in_use(rt: HostRuntime) -> Result<(), Fail> {
    let alloc = rt.alloc();
    let path = fresh_path(&rt, alloc)?;
    let listener = Listener::at_path(&rt, path)?;
    assert!(rt; is_refused_at(&rt, alloc, path)?);
    assert!(rt; Place::Socket(path).connect(&rt).is_ok());
    drop(listener);
    Place::Socket(path).remove_files(&rt);
    Ok(())
}

#[test]
fn another_file(rt: HostRuntime) -> Result<(), Fail> {
    let alloc = rt.alloc();
    let path = fresh_path(&rt, alloc)?;
    fs::write(&rt, path.as_str(), b"mine".as_slice())?;
    assert!(rt; is_refused_at(&rt, alloc, path)?);
    assert_eq!(rt; files_of(&rt, alloc, path)?, (true, false));
    assert!(rt; fs::read(&rt, path.as_str())?.as_slice() == b"mine".as_slice());
    fs::remove_file(&rt, path.as_str())?;
    Ok(())
}

#[test]
fn no_folder(rt: HostRuntime) -> Result<(), Fail> {
    let (status, output, errors) = ran_at(&rt, rt.alloc(), "none/s", SERVED, "")?;
    assert_eq!(rt; status, 3);
    assert!(rt; output.as_slice() == b"at 7 1 empty\n".as_slice());
    let said = "edend: NoConnection: socket none/s: No such file or directory (os error 2)\n";
    assert!(rt; errors.as_slice() == said.as_bytes());
    Ok(())
}

// The place is looked at before the script is read.
#[test]
fn bad_script_leaves_no_file(rt: HostRuntime) -> Result<(), Fail> {
    let alloc = rt.alloc();
    let path = fresh_path(&rt, alloc)?;
    let (status, output, _) = ran_at(&rt, alloc, path.as_str(), "x\n", "")?;
    assert_eq!(rt; status, 1);
    assert!(rt; output.is_empty());
    assert_eq!(rt; files_of(&rt, alloc, path)?, (false, false));
    Ok(())
}

/// A frame that asks for a flush.
const FLUSH: &[u8] = b"\0\0\0\x1b\x02\x06\
\0\0\0\0\0\0\0\x01\0\0\0\0\0\0\0\x01\0\0\0\0\0\0\0\x01\x06";

/// The frame that answers a flush that was not made, and one that was.
const NOT_WRITABLE: &[u8] = b"\0\0\0\x1b\x02\x86\
\0\0\0\0\0\0\0\x01\0\0\0\0\0\0\0\x01\0\0\0\0\0\0\0\x01\0";

const MADE: &[u8] = b"\0\0\0\x3f\x02\x86\
\0\0\0\0\0\0\0\x01\0\0\0\0\0\0\0\x01\0\0\0\0\0\0\0\x01\x01\
\0\0\0\0\0\0\0\x07\0\0\0\0\0\0\0\x02\0\0\0\0\0\0\0\0\0\0\0\0\0\0\0\0\0\0\0\0";

/// The options of a daemon at a socket, the frame that answers a flush, and what is printed last.
const FLUSHED: &[(&str, &[u8], &str)] = &[
    ("--stay", NOT_WRITABLE, ""),
    ("--stay --writable", MADE, ""),
    ("--writable", MADE, "audit ok\n"),
];

/// Asks for a flush on a connection of its own, and returns the first bytes of what is answered.
fn flush<R: Net<Stream = TcpStream>>(
    rt: &R,
    alloc: Global,
    place: &Place,
    length: usize,
) -> Option<Vec<u8>> {
    let stream = place.connect(rt).ok()?;
    let mut stream = &stream;
    stream.write_all(FLUSH).ok()?;
    let mut answer = vec![in alloc; 0; length].ok()?;
    stream.read_exact(&mut answer).ok()?;
    Some(answer)
}

/// Asks for a flush until it is answered.
///
/// A connection may be lost before the script is read, when the place is only tried.
fn flushed<R: Net<Stream = TcpStream> + Clock>(
    rt: &R,
    alloc: Global,
    place: &Place,
    length: usize,
) -> Option<Vec<u8>> {
    for _ in 0..10_000 {
        if let Some(answer) = flush(rt, alloc, place, length) {
            return Some(answer);
        }
        thread::sleep(rt, Duration::from_millis(1));
    }
    None
}

/// Flushes as a client, and then sets the flag. Returns whether this was answered.
fn flush_alone<R: Net<Stream = TcpStream> + Clock>(
    rt: &R,
    alloc: Global,
    place: &Place,
    answer: &[u8],
    ended: &AtomicBool,
) -> bool {
    let heard = flushed(rt, alloc, place, answer.len());
    ended.store(true, Ordering::SeqCst);
    heard.is_some_and(|heard| heard.as_slice() == answer)
}

#[test]
fn writable_socket(rt: HostRuntime) -> Result<(), Fail> {
    let alloc = rt.alloc();
    for (options, answer, last) in FLUSHED {
        let (path, ended) = (fresh_path(&rt, alloc)?, AtomicBool::new(false));
        let (name, place) = (path.as_str(), Place::Socket(path));
        let line = format!(in alloc; "edend serve --socket {name} --connections 1 {options}")?;
        let words = split_words(alloc, line.as_str())?;
        let mut errors = Vec::new(alloc);
        let ((status, output), is_answered) = thread::join(
            &rt,
            || serve(
                &rt,
                alloc,
                words.as_slice(),
                SERVED.as_bytes(),
                &ended,
                &mut errors,
            ),
            || flush_alone(&rt, alloc, &place, answer, &ended),
        );
        assert!(rt;
            is_answered && status == 0 && errors.is_empty(),
            "{options}"
        );
        let printed = format!(in alloc; "at 7 1 empty\nlistening unix {name}\n{last}")?;
        assert!(rt; output.as_slice() == printed.as_bytes(), "{options}");
    }
    Ok(())
}
