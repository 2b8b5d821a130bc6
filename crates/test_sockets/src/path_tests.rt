//! Which texts can be the path of a socket.

use eden_sockets::{SocketPath, SocketPathFault};
use std::test::Fail;

/// 101 bytes, as many as there may be.
const LONGEST: &str =
    "1234567890123456789012345678901234567890123456789012345678901234567890123456789012345678901234567890e";

/// One more.
const TOO_LONG: &str =
    "12345678901234567890123456789012345678901234567890123456789012345678901234567890123456789012345678901e";

#[test]
fn paths(rt: HostRuntime) -> Result<(), Fail> {
    assert_eq!(rt; SocketPath::new(LONGEST)?.as_str(), LONGEST);
    assert_eq!(rt; SocketPath::new("a b\\c/é")?.as_str(), "a b\\c/é");
    let faults = [
        ("", SocketPathFault::Empty),
        (TOO_LONG, SocketPathFault::TooLong),
        ("a\0", SocketPathFault::BadByte),
        ("\na", SocketPathFault::BadByte),
    ];
    for (text, fault) in faults {
        assert!(rt; matches!(SocketPath::new(text), Err(found) if found == fault));
    }
    Ok(())
}
