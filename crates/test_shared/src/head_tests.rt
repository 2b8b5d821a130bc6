//! What a head word shows to its seats, in one thread and in two.

ghost use Rattle.std.specs.Prelude.{◌≡◌, ◌<◌};

use eden_shared::{HeadSeat, HeadWord};
use std::test::Fail;
use std::thread;

/// How many numbers each thread raises.
const ROUNDS: u64 = 1_000;

#[test]
fn head_word_views(rt: HostRuntime) -> Result<(), Fail> {
    let (head, mut first) = HeadWord::new(rt.alloc())?;
    let mut second = head.split(&mut first);
    // The number begins at 0 and is no higher than what was raised: no load answers the greatest number there is.
    assert_eq!(rt; head.load(&mut first), 0);
    head.raise(&mut first, 5);
    assert_eq!(rt; head.load(&mut second), 5);
    head.raise(&mut second, 3);
    assert_eq!(rt; head.load(&mut second), 5);
    head.join(&mut first, second);
    assert_eq!(rt; head.load(&mut first), 5);
    Ok(())
}

/// Raises every second number from one on, and loads after each.
///
/// Returns whether no load fell or was below what was raised.
fn raise_all(head: &HeadWord, mut seat: HeadSeat, from: u64) -> bool
    requires own { seat.word ≡ head.now }
    requires low { from < 2 }
{
    let mut last = 0;
    let mut rises = true;
    for round in 0..ROUNDS {
        let ticket = from + 2 * round;
        head.raise(&mut seat, ticket);
        let found = head.load(&mut seat);
        rises = rises && last <= found && ticket <= found;
        last = found;
    }
    rises
}

#[test]
fn two_threads_raise(rt: HostRuntime) -> Result<(), Fail> {
    let (word, mut watcher) = HeadWord::new(rt.alloc())?;
    let head = &word;
    let even = head.split(&mut watcher);
    let odd = head.split(&mut watcher);
    let (even_rises, odd_rises) = thread::join(
        &rt,
        move || raise_all(head, even, 0),
        move || raise_all(head, odd, 1),
    );
    assert!(rt; even_rises && odd_rises);
    assert_eq!(rt; head.load(&mut watcher), 2 * ROUNDS - 1);
    Ok(())
}
