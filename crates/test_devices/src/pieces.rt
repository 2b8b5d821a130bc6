//! Streams that come in pieces.

use super::{Sink, Source};
use std::alloc::Global;

/// A stream, what is written of it, and how its run ends.
pub(crate) type Case<E> = (&'static [u8], &'static [u8], Result<u64, E>);

/// Returns true if a stream ends and is written so in pieces of at most this many bytes.
///
/// It is cut anywhere, with interrupts or without.
fn is_so_when_cut<E: PartialEq + Drop, F: Fn(Source<'_>, Sink) -> (Result<u64, E>, Vec<u8>)>(
    alloc: Global,
    case: &Case<E>,
    most: usize,
    interrupts: bool,
    run: &F,
) -> bool
    requires { F.IsAlwaysCallable run.now }
{
    let (stream, wanted, ends) = case;
    for cut in 0..=stream.len() {
        let source = Source::in_pieces(stream, most, cut, interrupts);
        let (end, text) = run(source, Sink::interrupting(alloc, interrupts));
        if end != *ends || text.as_slice() != *wanted {
            return false;
        }
    }
    true
}

/// Returns true if a stream ends and is written so in pieces of every size.
pub(crate) fn is_so_in_pieces<
    E: PartialEq + Drop,
    F: Fn(Source<'_>, Sink) -> (Result<u64, E>, Vec<u8>),
>(alloc: Global, case: &Case<E>, run: &F) -> bool
    requires { F.IsAlwaysCallable run.now }
{
    for most in [usize::MAX, 1, 2] {
        for interrupts in [false, true] {
            if !is_so_when_cut(alloc, case, most, interrupts, run) {
                return false;
            }
        }
    }
    true
}
