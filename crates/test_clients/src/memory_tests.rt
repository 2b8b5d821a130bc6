//! Rounds over connections whose replies were written beforehand.

use crate::talks::mount_of;
use eden_accumulate::Mount;
use eden_connect::{ConnectFault, Dial, Quiet, RoundFault, follow_rounds, keep_mirror};
use eden_globs::Filter;
use eden_ids::{GitNaming, NoMemory};
use eden_messages::{Query, Request};
use eden_mirror::Mirror;
use eden_query::serve;
use eden_stream::Counted;
use eden_wire::encode_request;
use std::alloc::Global;
use std::test::Fail;
use test_kit::path;

/// Makes connections that give these bytes, and none where there are no bytes.
#[derive(Drop)]
struct Canned<'a> {
    alloc: Global,
    made: &'a [Option<Vec<u8>>],
}

impl<'a> Dial for Canned<'a> {
    ghost use Rattle.std.specs.Prelude.{⊤};

    type Reader = &'a [u8];

    type Writer = Vec<u8>;

    ghost dials = { λ _ _ _. ⊤ };

    fn dial(&mut self) -> Result<Option<(&'a [u8], Vec<u8>)>, NoMemory> {
        let Some((first, rest)) = self.made.split_first() else {
            return Ok(None);
        };
        self.made = rest;
        match first {
            Some(bytes) => Ok(Some((bytes.as_slice(), Vec::new(self.alloc)))),
            None => Ok(None),
        }
    }
}

/// The question of mirror 1 in its first life, in a round.
fn query(number: u64) -> Query {
    Query {
        mirror: 1,
        life: 1,
        number,
    }
}

/// The frames of a mount's replies to these requests.
fn replies(
    alloc: Global,
    mount: &mut Mount<GitNaming>,
    requests: &[Request],
) -> Result<Vec<u8>, Fail> {
    let mut text = Vec::new(alloc);
    for request in requests {
        text.extend_from_slice(&encode_request(alloc, request)?)?;
    }
    let mut frames = Vec::new(alloc);
    let mut reader = Counted::new(text.as_slice());
    let mut writer = Counted::new(&mut frames);
    let _ = serve(alloc, &mut reader, &mut writer, mount)?;
    Ok(frames)
}

/// The request for all paths in a round.
fn basis(alloc: Global, number: u64) -> Request {
    Request::Basis {
        query: query(number),
        filter: Filter::all(alloc),
    }
}

/// The request for the file `a` in the first round.
fn fetch(alloc: Global) -> Result<Request, Fail> {
    Ok(Request::Fetch {
        query: query(1),
        path: path(alloc, "a")?,
    })
}

/// What a connection gives.
#[derive(Clone, Copy)]
enum Gives {
    /// The list of a round, and after it these bytes.
    List(u64, &'static [u8]),
    /// The content of the first round.
    Content,
    /// The list and the content of the first round.
    Both,
}

/// The bytes that a connection to a mount gives.
fn given(alloc: Global, mount: &mut Mount<GitNaming>, gives: Gives) -> Result<Vec<u8>, Fail> {
    match gives {
        Gives::List(number, more) => {
            let mut list = replies(alloc, mount, &[basis(alloc, number)])?;
            list.extend_from_slice(more)?;
            Ok(list)
        }
        Gives::Content => replies(alloc, mount, &[fetch(alloc)?]),
        Gives::Both => replies(alloc, mount, &[basis(alloc, 1), fetch(alloc)?]),
    }
}

/// The bytes of connections to a mount, of which some are not made.
fn all_given(
    alloc: Global,
    mount: &mut Mount<GitNaming>,
    made: &[Option<Gives>],
) -> Result<Vec<Option<Vec<u8>>>, Fail> {
    let mut all = Vec::new(alloc);
    for gives in made {
        all.push(match *gives {
            Some(gives) => Some(given(alloc, mount, gives)?),
            None => None,
        })?;
    }
    Ok(all)
}

/// The same of a mount of one file.
fn connections(alloc: Global, made: &[Option<Gives>]) -> Result<Vec<Option<Vec<u8>>>, Fail> {
    let mut mount = mount_of(alloc, &[("a", "1")])?;
    all_given(alloc, &mut mount, made)
}

/// Whether a mirror is placed with one file.
fn has_one(mirror: &Mirror) -> Result<bool, Fail> {
    Ok(mirror.position().is_some() && mirror.files()?.len() == 1)
}

/// Follows a round over these connections. Returns whether it has placed the mirror with one file, and the number of connections that are left.
fn followed(
    alloc: Global,
    made: &[Option<Vec<u8>>],
) -> Result<(Result<bool, RoundFault>, usize), Fail> {
    let mut dial = Canned { alloc, made };
    let mirror = Mirror::new(alloc, 1, 1, Filter::all(alloc));
    let ended = match follow_rounds(alloc, &mut dial, mirror, 1, &mut Quiet) {
        Ok(mirror) => Ok(has_one(&mirror)?),
        Err(fault) => Err(fault),
    };
    Ok((ended, dial.made.len()))
}

#[test]
fn one_connection(rt: HostRuntime) -> Result<(), Fail> {
    let made = connections(rt.alloc(), &[Some(Gives::Both)])?;
    assert_eq!(rt; followed(rt.alloc(), made.as_slice())?, (Ok(true), 0));
    Ok(())
}

#[test]
fn refused_and_lost(rt: HostRuntime) -> Result<(), Fail> {
    // The list, and a part of the next frame.
    let list = Some(Gives::List(1, &[0, 0, 0]));
    let made = connections(rt.alloc(), &[None, list, None, Some(Gives::Content), None])?;
    assert_eq!(rt; followed(rt.alloc(), made.as_slice())?, (Ok(true), 1));
    Ok(())
}

#[test]
fn given_up(rt: HostRuntime) -> Result<(), Fail> {
    // The reply is to a question that was not asked.
    let made = connections(rt.alloc(), &[Some(Gives::List(2, &[])), None])?;
    assert_eq!(rt; followed(rt.alloc(), made.as_slice())?, (Ok(false), 1));
    Ok(())
}

#[test]
fn sixteen_connections(rt: HostRuntime) -> Result<(), Fail> {
    let alloc = rt.alloc();
    let mut made = Vec::new(alloc);
    for _ in 0..20 {
        made.push(Some(Vec::new(alloc)))?;
    }
    let ended = followed(alloc, made.as_slice())?;
    assert_eq!(rt; ended, (Err(RoundFault::NoConnection), 4));
    Ok(())
}

/// Returns how a round over these connections ends, and what is printed of the mirror.
fn printed(
    alloc: Global,
    made: &[Option<Vec<u8>>],
) -> Result<(Result<(), ConnectFault>, Vec<u8>), Fail> {
    let mut dial = Canned { alloc, made };
    let mut output = Vec::new(alloc);
    let mirror = Mirror::new(alloc, 1, 1, Filter::all(alloc));
    let ended = keep_mirror(alloc, &mut dial, &mut output, mirror, 1, &mut Quiet);
    Ok((ended, output))
}

#[test]
fn prints_what_it_holds(rt: HostRuntime) -> Result<(), Fail> {
    let made = connections(rt.alloc(), &[Some(Gives::Both)])?;
    let (ended, text) = printed(rt.alloc(), made.as_slice())?;
    assert_eq!(rt; ended, Ok(()));
    assert!(rt; text.ends_with(b"\nfiles 1\nplain 1 a\n"));
    Ok(())
}

#[test]
fn prints_nothing_unless_a_round_ends(rt: HostRuntime) -> Result<(), Fail> {
    let alloc = rt.alloc();
    let (ended, text) = printed(alloc, &[])?;
    assert_eq!(rt; ended, Err(ConnectFault::NoConnection));
    assert!(rt; text.is_empty());
    Ok(())
}
