//! A mount that is served until its lines end, and the threads that accept connections to it.

ghost use Rattle.std.specs.Prelude.{◌≡◌, IfOk, is_some};

use crate::observing::Observer;
use crate::program::Terms;
use crate::stopping::Stoppable;
use crate::timely::Timely;
use eden_accumulate::Mount;
use eden_ids::GitNaming;
use eden_shared::{CallersSpent, Origin, Pass, Passes, Peer, Unlogged, serve_unlogged};
use eden_sockets::{Listener, Stream};
use eden_stream::{Counted, ServeFault};
use std::alloc::Global;
use std::io::ErrorKind;
use std::sync::Wait;
use std::sync::atomic::{AtomicBool, AtomicI64, Ordering};
use std::thread;
use std::time::{Clock, Duration, Instant};

/// The other end of a connection, which nobody else reads from meanwhile.
#[derive(Drop)]
struct Caller<'a> {
    stream: &'a Stream,
}

impl<'a> Peer for Caller<'a> {
    /// Returns true if the peer sends nothing more, or the connection has failed.
    ///
    /// A peer that has sent more than was read yet is not gone.
    fn is_gone(&self) -> bool {
        let glance = Duration::from_millis(GLANCE);
        if self.stream.set_read_patience(glance).is_err() {
            return true;
        }
        let seen = self.stream.peek(&mut [0]);
        let patience = Duration::from_millis(PATIENCE);
        if self.stream.set_read_patience(patience).is_err() {
            return true;
        }
        match seen {
            Ok(count) => count == 0,
            Err(error) => !matches!(
                error.kind(),
                ErrorKind::WouldBlock | ErrorKind::TimedOut | ErrorKind::Interrupted
            ),
        }
    }
}

/// How many milliseconds a connection waits at most before it sees that the station is closed.
const PATIENCE: u64 = 200;

/// How many milliseconds a look whether a peer is gone lasts at most.
const GLANCE: u64 = 1;

/// How many milliseconds a thread waits if no connection could be accepted, or no place is free.
///
/// So it doesn't spin if none ever can be.
const PAUSE: u64 = 20;

/// A mount of which nothing is logged, behind a lock.
pub(crate) type StayingMount<L> = Unlogged<GitNaming, Mount<GitNaming>, L>;

/// A mount, and the listener whose connections are served from it.
#[derive(Drop)]
pub(crate) struct Station<L: Origin> {
    pub(crate) unlogged: StayingMount<L>,
    listener: Listener,
    closed: AtomicBool,
    /// How many more connections may be served now. A thread that tries counts for a moment.
    free: AtomicI64,
    pub(crate) terms: Terms,
}

impl<L: Origin> Station<L> {
    /// Makes a station that serves connections on these terms.
    pub(crate) fn new(unlogged: StayingMount<L>, listener: Listener, terms: Terms) -> Station<L> {
        Station {
            unlogged,
            listener,
            closed: AtomicBool::new(false),
            free: AtomicI64::new(i64::try_from(terms.threads).unwrap_or(i64::MAX)),
            terms,
        }
    }

    /// Gives a pass to one more thread, if its connections may change the mount.
    ///
    /// `CallersSpent` if they may and all passes are given.
    pub(crate) fn pass_of_thread(
        &self,
        passes: &mut Passes<L>,
    ) -> Result<Option<Pass<L>>, CallersSpent>
        ensures { IfOk result (λ pass. is_some pass ≡ self.now.terms.writable) }
    {
        if !self.terms.writable {
            return Ok(None);
        }
        Ok(Some(passes.give()?))
    }

    /// Returns true if the station is closed.
    fn is_closed(&self) -> bool {
        self.closed.load(Ordering::SeqCst)
    }

    /// Serves a connection to its end, or until the station is closed.
    ///
    /// It also ends if its peer is slower than the limit. The observer hears of that, and of a frame
    /// that can't be answered. With a pass the connection may change the mount.
    fn serve<R: Wait + Clock, V: Observer>(
        &self,
        rt: &R,
        alloc: Global,
        stream: &Stream,
        pass: &mut Option<Pass<L>>,
        observer: &V,
    ) {
        if stream
            .set_patience(Duration::from_millis(PATIENCE))
            .is_err()
        {
            // It might never end.
            return;
        }
        let late = AtomicBool::new(false);
        let reading = Timely::new(rt, stream, self.terms.limit, &late);
        let writing = Timely::new(rt, stream, self.terms.limit, &late);
        let mut reader = Counted::new(Stoppable::new(rt, &self.closed, reading));
        let mut writer = Counted::new(Stoppable::new(rt, &self.closed, writing));
        let peer = Caller { stream };
        let served = serve_unlogged(
            rt,
            alloc,
            &mut reader,
            &mut writer,
            &self.unlogged,
            pass,
            &peer,
        );
        if let Err(ServeFault::Frame { number, fault }) = served {
            // A stream that the station itself has ended may end within a frame.
            if !self.is_closed() {
                observer.frame_refused(number, fault);
            }
        }
        if late.load(Ordering::SeqCst) {
            observer.peer_late();
        }
    }

    /// Notes that one of the threads could not be made.
    pub(crate) fn lacks_thread(&self) {
        self.free.fetch_sub(1, Ordering::SeqCst);
    }

    /// Takes a place, and returns whether one was free. The observer hears of the last one.
    fn enter<V: Observer>(&self, observer: &V) -> bool {
        let free = self.free.fetch_sub(1, Ordering::SeqCst);
        if free < 1 {
            self.leave();
            return false;
        }
        if free == 1 && !self.is_closed() {
            observer.places_taken();
        }
        true
    }

    /// Gives a place back.
    fn leave(&self) {
        self.free.fetch_add(1, Ordering::SeqCst);
    }

    /// Waits for a place, and takes it. Returns whether one was free within the limit.
    ///
    /// The observer hears of it if none was. A peer that is gone waits no longer, and nobody does
    /// once the station is closed.
    fn wait_for_place<R: Wait + Clock, V: Observer>(
        &self,
        rt: &R,
        stream: &Stream,
        observer: &V,
    ) -> bool {
        let began = Instant::now(rt);
        let peer = Caller { stream };
        for _ in rt.forever() {
            if self.enter(observer) {
                return true;
            }
            let Ok(began) = began else {
                return false;
            };
            if self.is_closed() || peer.is_gone() {
                return false;
            }
            if !began
                .elapsed(rt)
                .is_ok_and(|waited| waited < self.terms.limit)
            {
                observer.turned_away();
                return false;
            }
            thread::sleep(rt, Duration::from_millis(PAUSE));
        }
        false
    }

    /// Serves a connection once it has a place, if it gets one.
    fn take<R: Wait + Clock, V: Observer>(
        &self,
        rt: &R,
        alloc: Global,
        stream: &Stream,
        pass: &mut Option<Pass<L>>,
        observer: &V,
    ) {
        if self.wait_for_place(rt, stream, observer) {
            self.serve(rt, alloc, stream, pass, observer);
            self.leave();
        }
    }

    /// Accepts connections and serves them, one after another, until the station is closed.
    ///
    /// With a pass each of them may change the mount.
    pub(crate) fn accept_all<R: Wait + Clock, V: Observer>(
        &self,
        rt: &R,
        alloc: Global,
        mut pass: Option<Pass<L>>,
        observer: &V,
    ) {
        for _ in rt.forever() {
            let accepted = self.listener.accept();
            if self.is_closed() {
                return;
            }
            match accepted {
                Ok(stream) => self.take(rt, alloc, &stream, &mut pass, observer),
                Err(_) => thread::sleep(rt, Duration::from_millis(PAUSE)),
            }
        }
    }

    /// Closes the station, and has each thread that waits for a connection end.
    ///
    /// The patience of all requests ends too.
    pub(crate) fn close<R: Wait + Clock>(&self, rt: &R) {
        self.closed.store(true, Ordering::SeqCst);
        self.unlogged.end_patience(rt);
        // The system may have no handle to stop it by. The connections that end give theirs back.
        for _ in rt.forever() {
            if self.listener.stop().is_ok() {
                return;
            }
            thread::sleep(rt, Duration::from_millis(PAUSE));
        }
    }
}
