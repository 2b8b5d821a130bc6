//! The bodies of messages, as the format spells them.

/// Three times the number 1: the query of each of them.
pub const QUERY_BYTES: [u8; 24] = [
    0, 0, 0, 0, 0, 0, 0, 1, 0, 0, 0, 0, 0, 0, 0, 1, 0, 0, 0, 0, 0, 0, 0, 1,
];

/// The first position of generation 7, over the empty commit, from which a poll asks and which each reply tells.
pub const PLACE_BYTES: [u8; 36] = [
    0, 0, 0, 0, 0, 0, 0, 7, 0, 0, 0, 0, 0, 0, 0, 1, 0, 0, 0, 0, 0, 0, 0, 0, 0, 0, 0, 0, 0, 0, 0, 0,
    0, 0, 0, 0,
];

const Q: &[u8] = &QUERY_BYTES;

const P: &[u8] = &PLACE_BYTES;

/// The parts of the bodies of a basis, a poll, a fetch of `a` and a list of `d`, without patterns.
pub const REQUEST_BODIES: [&[&[u8]]; 4] = [
    &[&[2, 1], Q, &[0]],
    &[&[2, 2], Q, P, &[0]],
    &[&[2, 3], Q, &[0, 1, b'a']],
    &[&[2, 4], Q, &[0, 1, b'd', 0]],
];

/// The parts of the bodies of replies: that the files are `a` and `a/b`, that `a` was removed and that the root named `b`, that files were
/// moved from `d` to `e`, that there is no file at `a`, that `a` is a plain file, an executable one or a link that holds `hi`, that a reply
/// is too large, and that the file below `d` is `d/x`.
pub const REPLY_BODIES: [&[&[u8]]; 9] = [
    &[
        &[2, 0x81],
        Q,
        P,
        &[0, 0, 0, 2, 0, 1, b'a', 0, 3, b'a', b'/', b'b'],
    ],
    &[
        &[2, 0x82],
        Q,
        P,
        &[0, 0, 0, 2, 2, 0, 1, b'a', 4, 0, 1, b'b', 0, 0, 0, 0],
    ],
    &[
        &[2, 0x82],
        Q,
        P,
        &[0, 0, 0, 0, 0, 0, 0, 2, 0, 1, b'd', 0, 1, b'e'],
    ],
    &[&[2, 0x83], Q, P, &[0, 1, b'a', 0]],
    &[&[2, 0x83], Q, P, &[0, 1, b'a', 1, 0, 0, 0, 2, b'h', b'i']],
    &[&[2, 0x83], Q, P, &[0, 1, b'a', 2, 0, 0, 0, 2, b'h', b'i']],
    &[&[2, 0x83], Q, P, &[0, 1, b'a', 3, 0, 0, 0, 2, b'h', b'i']],
    &[&[2, 0x84], Q, &[4, 0, 0, 0, 0, 0, 0, 0, 0]],
    &[
        &[2, 0x85],
        Q,
        P,
        &[0, 1, b'd', 0, 0, 0, 1, 0, 3, b'd', b'/', b'x'],
    ],
];
