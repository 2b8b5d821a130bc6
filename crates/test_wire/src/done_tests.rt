//! Answers to changes over a connection: each kind by its bytes, bodies that are none, and what an answer becomes.

use crate::messages::{EMPTY, position};
use eden_history::{Answer, ChangeFault};
use eden_ids::{Path, Sequence};
use eden_messages::Query;
use eden_wire::{DecodeFault, Done, append_done, decode_done};
use std::alloc::Global;
use std::test::Fail;
use test_kit::{PLACE_BYTES as P, PUT_FAULTS, QUERY_BYTES as Q, framed, joined, path};

/// The query of `QUERY_BYTES`.
const QUERY: Query = Query {
    mirror: 1,
    life: 1,
    number: 1,
};

/// Returns the paths of these texts.
fn paths(alloc: Global, texts: &[&str]) -> Result<Sequence<Path>, Fail> {
    let mut list = Vec::new(alloc);
    for text in texts {
        list.push(path(alloc, text)?)?;
    }
    Ok(Sequence::from_vec(list))
}

/// Whether a body of these parts after the query is read as this answer.
fn is_read_as(alloc: Global, done: Done, fields: &[&[u8]]) -> Result<bool, Fail> {
    let fields = joined(alloc, fields)?;
    let body = joined(alloc, &[&[2, 0x86], &Q, fields.as_slice()])?;
    Ok(decode_done(alloc, body.as_slice())? == (QUERY, done))
}

/// Whether the answer to a change is encoded as these parts after the query, with their length before them, and read as that.
fn is_answered_by(alloc: Global, answer: Answer, fields: &[&[u8]]) -> Result<bool, Fail> {
    let fields = joined(alloc, fields)?;
    let body = joined(alloc, &[&[2, 0x86], &Q, fields.as_slice()])?;
    let frame = framed(alloc, body.as_slice())?;
    let mut text = joined(alloc, &[b"abc"])?;
    let done = Done::of(answer);
    append_done(&mut text, QUERY, &done)?;
    let read = decode_done(alloc, body.as_slice())?;
    Ok(text == joined(alloc, &[b"abc", frame.as_slice()])? && read == (QUERY, done))
}

#[test]
fn a_made_change_has_its_frame(rt: HostRuntime) -> Result<(), Fail> {
    let alloc = rt.alloc();
    let frame = joined(alloc, &[&[0, 0, 0, 0x3f, 2, 0x86], &Q, &[1], &P])?;
    let mut text = Vec::new(alloc);
    append_done(&mut text, QUERY, &Done::At(position(1, EMPTY)))?;
    assert_eq!(rt; text, frame);
    Ok(())
}

#[test]
fn a_change_that_may_not_be_made_has_its_frame(rt: HostRuntime) -> Result<(), Fail> {
    let alloc = rt.alloc();
    let frame = joined(alloc, &[&[0, 0, 0, 0x1b, 2, 0x86], &Q, &[0]])?;
    let mut text = Vec::new(alloc);
    append_done(&mut text, QUERY, &Done::NotWritable)?;
    assert_eq!(rt; text, frame);
    assert!(rt; is_read_as(alloc, Done::NotWritable, &[&[0]])?);
    Ok(())
}

/// Returns a checkout with this number of conflicts.
fn conflicting(count: u32) -> Done {
    Done::Conflicting {
        position: position(1, EMPTY),
        count,
    }
}

#[test]
fn a_number_of_conflicts_has_its_frame(rt: HostRuntime) -> Result<(), Fail> {
    let alloc = rt.alloc();
    let frame = joined(
        alloc,
        &[&[0, 0, 0, 0x43, 2, 0x86], &Q, &[4], &P, &[1, 2, 3, 4]],
    )?;
    let mut text = Vec::new(alloc);
    let done = Done::Conflicting {
        position: position(1, EMPTY),
        count: 0x0102_0304,
    };
    append_done(&mut text, QUERY, &done)?;
    assert_eq!(rt; text, frame);
    assert!(rt; is_read_as(alloc, conflicting(0x0102_0304), &[&[4], &P, &[1, 2, 3, 4]])?);
    Ok(())
}

#[test]
fn answers_have_their_bytes(rt: HostRuntime) -> Result<(), Fail> {
    let alloc = rt.alloc();
    let position = position(1, EMPTY);
    assert!(rt; is_answered_by(alloc, Answer::At(position), &[&[1], &P])?);
    let conflicts = paths(alloc, &["a", "b"])?;
    let answer = Answer::Checked {
        position,
        conflicts,
    };
    let fields: &[&[u8]] = &[&[2], &P, &[0, 0, 0, 2, 0, 1, b'a', 0, 1, b'b']];
    assert!(rt; is_answered_by(alloc, answer, fields)?);
    Ok(())
}

/// The causes that name no object, each with its number.
const PLAIN: &[(ChangeFault, u8)] = &[
    (ChangeFault::NotADirectory, 1),
    (ChangeFault::IsADirectory, 2),
    (ChangeFault::NoEntry, 3),
    (ChangeFault::TooLarge, 4),
    (ChangeFault::IntoItself, 5),
    (ChangeFault::PathTooLong, 6),
    (ChangeFault::NoCommit, 7),
    (ChangeFault::SequenceExhausted, 8),
    (ChangeFault::GenerationNotNew, 9),
    (ChangeFault::NoMemory, 11),
];

#[test]
fn refusals_have_their_bytes(rt: HostRuntime) -> Result<(), Fail> {
    let alloc = rt.alloc();
    for (fault, number) in PLAIN {
        let fields: &[&[u8]] = &[&[3, *number], &[0; 9]];
        assert!(rt; is_answered_by(alloc, Answer::Refused(*fault), fields)?);
    }
    let mut number: u8 = 0;
    for fault in PUT_FAULTS {
        number = number.wrapping_add(1);
        let fields: &[&[u8]] = &[&[3, 10, 0, 0, 0, 0, 0, 0, 1, 2, number]];
        let (place, fault) = (0x0102, *fault);
        let answer = Answer::Refused(ChangeFault::BadObject { place, fault });
        assert!(rt; is_answered_by(alloc, answer, fields)?);
    }
    Ok(())
}

/// The parts of bodies that answer nothing, after the query, and the first fault of each.
const NO_ANSWERS: &[(&[&[u8]], DecodeFault)] = &[
    // No kind, and an unknown one.
    (&[], DecodeFault::CutShort),
    (&[&[5]], DecodeFault::BadField),
    (&[&[0, 0]], DecodeFault::Trailing),
    (&[&[1], &[0; 35]], DecodeFault::CutShort),
    (&[&[1], &P, &[0]], DecodeFault::Trailing),
    // More conflicts than there are, two that are turned, and one twice.
    (
        &[&[2], &P, &[0xff, 0xff, 0xff, 0xff]],
        DecodeFault::CutShort,
    ),
    (
        &[&[2], &P, &[0, 0, 0, 2, 0, 1, b'b', 0, 1, b'a']],
        DecodeFault::BadField,
    ),
    (
        &[&[2], &P, &[0, 0, 0, 2, 0, 1, b'a', 0, 1, b'a']],
        DecodeFault::BadField,
    ),
    // No cause, unknown ones, a place where there is none, and a fault where there is none.
    (&[&[3]], DecodeFault::CutShort),
    (&[&[3, 0]], DecodeFault::BadField),
    (&[&[3, 12]], DecodeFault::BadField),
    (&[&[3, 1], &[0; 7]], DecodeFault::CutShort),
    (&[&[3, 1, 0, 0, 0, 0, 0, 0, 0, 1]], DecodeFault::BadField),
    (&[&[3, 1], &[0; 8]], DecodeFault::CutShort),
    (&[&[3, 11], &[0; 8], &[1]], DecodeFault::BadField),
    (&[&[3, 1], &[0; 10]], DecodeFault::Trailing),
    // An object without a place, without a fault, and with unknown ones.
    (&[&[3, 10], &[0; 7]], DecodeFault::CutShort),
    (&[&[3, 10], &[0; 8]], DecodeFault::CutShort),
    (&[&[3, 10], &[0; 9]], DecodeFault::BadField),
    (&[&[3, 10], &[0; 8], &[15]], DecodeFault::BadField),
    (&[&[3, 10], &[0; 8], &[1, 0]], DecodeFault::Trailing),
    // A number of conflicts that is cut.
    (&[&[4], &P, &[0, 0, 0]], DecodeFault::CutShort),
    (&[&[4], &P, &[0; 5]], DecodeFault::Trailing),
];

/// Whole bodies that answer no change, and the first fault of each.
const OTHER_TAGS: &[(&[&[u8]], DecodeFault)] = &[
    (&[&[1, 0x86]], DecodeFault::Version),
    (&[&[2, 0x84], &Q, &[1], &[0; 8]], DecodeFault::BadTag),
    (&[&[2, 6], &Q, &[6]], DecodeFault::BadTag),
    (&[&[2, 0x86], &[0; 23]], DecodeFault::CutShort),
];

/// Returns the first of these bodies that is not refused as it should be.
fn first_wrong(
    alloc: Global,
    head: &[u8],
    bodies: &[(&[&[u8]], DecodeFault)],
) -> Result<Option<usize>, Fail> {
    for (row, (parts, fault)) in bodies.iter().enumerate() {
        let body = joined(alloc, &[head, joined(alloc, parts)?.as_slice()])?;
        if decode_done(alloc, body.as_slice()).err() != Some(*fault) {
            return Ok(Some(row));
        }
    }
    Ok(None)
}

#[test]
fn bodies_that_answer_nothing(rt: HostRuntime) -> Result<(), Fail> {
    let alloc = rt.alloc();
    let head = joined(alloc, &[&[2, 0x86], &Q])?;
    assert_eq!(rt; first_wrong(alloc, head.as_slice(), NO_ANSWERS)?, None);
    assert_eq!(rt; first_wrong(alloc, b"", OTHER_TAGS)?, None);
    Ok(())
}

/// Returns a path of 1,023 bytes, whose first two say its number.
fn long_path(alloc: Global, number: u16) -> Result<Path, Fail> {
    let mut text = vec![in alloc; b'n'; 1_023]?;
    text[255] = b'/';
    text[511] = b'/';
    text[767] = b'/';
    text[0] = 0x80 | (number / 128 % 128) as u8;
    text[1] = 0x80 | (number % 128) as u8;
    Ok(Path::parse(alloc, text.as_slice())?)
}

#[test]
fn an_answer_becomes_what_a_body_holds(rt: HostRuntime) -> Result<(), Fail> {
    let alloc = rt.alloc();
    let position = position(1, EMPTY);
    assert!(rt; Done::of(Answer::At(position)) == Done::At(position));
    let fault = ChangeFault::NoCommit;
    assert!(rt; Done::of(Answer::Refused(fault)) == Done::Refused(fault));
    let conflicts = paths(alloc, &["a"])?;
    let answer = Answer::Checked {
        position,
        conflicts,
    };
    let conflicts = paths(alloc, &["a"])?;
    let done = Done::Checked {
        position,
        conflicts,
    };
    assert!(rt; Done::of(answer) == done);
    Ok(())
}

/// Returns what the answer to a checkout with these conflicts becomes.
fn checked(conflicts: Vec<Path>) -> Done {
    Done::of(Answer::Checked {
        position: position(1, EMPTY),
        conflicts: Sequence::from_vec(conflicts),
    })
}

#[test]
fn of_too_many_conflicts_the_number_is_left(rt: HostRuntime) -> Result<(), Fail> {
    let alloc = rt.alloc();
    // 67 bytes come before the conflicts, and each takes 1,025.
    let mut conflicts = Vec::new(alloc);
    for number in 0..16_367 {
        conflicts.push(long_path(alloc, number)?)?;
    }
    let Done::Checked {
        conflicts: held,
        ..
    } = checked(conflicts)
    else {
        assert!(rt; false, "they fit");
        return Ok(());
    };
    let mut more = held.into_vec();
    more.push(long_path(alloc, 16_367)?)?;
    assert!(rt; checked(more) == conflicting(16_368));
    Ok(())
}
