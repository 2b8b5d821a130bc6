//! Connections for as long as there is input: each of some threads serves one after another.

ghost use Rattle.std.specs.Prelude.{◌≡◌, ℕ, List, Option, IfSome};
ghost use Rattle.eden_accumulate.specs.Mounts.{StandsFor};
ghost use Rattle.eden_history.specs.Worlds.{WorldState};
ghost use Rattle.eden_serve.specs.Endings.{Ran, ServingEnds};

use crate::changes::{AtLock, Lines, ObservedChanger, Service};
use crate::end_of_lines::end_lines;
use crate::fault::DaemonFault;
use crate::observing::Observer;
use crate::program::{Terms, Until};
use crate::station::Station;
use eden_edend::run_changes;
use eden_shared::{Origin, Pass, Passes, Unlogged};
use eden_stream::{CountedRead, RunFault};
use std::alloc::Global;
use std::sync::Wait;
use std::sync::ledger::Blank;
use std::thread;
use std::thread::{Scope, Threads};
use std::time::Clock;

/// Makes the changes of the lines at a station.
#[tactic(auto, using(crate::proofs::LinesEnding::ran))]
fn run_lines<L: Origin, R: Wait, I: CountedRead, V: Observer>(
    rt: &R,
    alloc: Global,
    station: &Station<L>,
    mut pass: Pass<L>,
    lines: Lines<'_, I>,
    observer: &V,
) -> Result<u64, RunFault>
    ensures { Ran lines.entry.labels lines.entry.from (I.remaining lines.entry.input.now) result }
{
    let place = AtLock {
        rt,
        unlogged: &station.unlogged,
        pass: &mut pass,
    };
    let mut writer = ObservedChanger { place, observer };
    let Lines {
        input,
        labels,
        from,
    } = lines;
    run_changes(alloc, input, &labels, from, &mut writer)
}

/// Makes a thread that serves connections one after another. Returns whether it could be made.
fn spawn_server<
    's,
    E,
    L: Origin + Send + Sync + 's,
    R: Threads + Wait + Clock + Sync,
    V: Observer + Sync,
>(
    scope: &Scope<'s, E>,
    rt: &'s R,
    alloc: Global,
    station: &'s Station<L>,
    passes: &mut Passes<L>,
    observer: &'s V,
) -> bool {
    match station.pass_of_thread(passes) {
        Ok(pass) => scope
            .spawn(move || station.accept_all(rt, alloc, pass, observer))
            .is_ok(),
        Err(_) => false,
    }
}

/// Makes as many such threads as the terms have.
///
/// There are fewer if not all can be made. Returns whether there is one.
fn spawn_servers<
    's,
    E,
    L: Origin + Send + Sync + 's,
    R: Threads + Wait + Clock + Sync,
    V: Observer + Sync,
>(
    scope: &Scope<'s, E>,
    rt: &'s R,
    alloc: Global,
    station: &'s Station<L>,
    passes: &mut Passes<L>,
    observer: &'s V,
) -> bool {
    let mut serves = false;
    for _ in 0..station.terms.threads {
        if spawn_server(scope, rt, alloc, station, passes, observer) {
            serves = true;
        } else {
            station.lacks_thread();
        }
    }
    serves
}

/// Serves connections in threads, as many as the terms have or can be made, while the lines run.
///
/// One more thread waits with a connection that has no place yet.
///
/// Returns how the lines have ended, once all threads have. Returns `None` if no thread could be
/// made. No line is read then.
fn run_threads<
    L: Origin + Send + Sync,
    R: Threads + Wait + Clock + Sync,
    I: CountedRead,
    V: Observer + Sync,
>(
    rt: &R,
    alloc: Global,
    station: &Station<L>,
    pass: Pass<L>,
    mut passes: Passes<L>,
    lines: Lines<'_, I>,
    observer: &V,
) -> Option<Result<u64, RunFault>>
    ensures { IfSome result (λ ran. Ran lines.entry.labels lines.entry.from (I.remaining lines.entry.input.now) ran) }
{
    thread::scope(
        thread::scope_env(),
        rt,
        move |scope| -> Option<Result<u64, RunFault>>
            ensures { IfSome result (λ ran. Ran lines.entry.labels lines.entry.from (I.remaining lines.entry.input.now) ran) }
        {
            if !spawn_servers(scope, rt, alloc, station, &mut passes, observer) {
                return None;
            }
            // If all places are taken, one more thread waits with the next connection. Without it
            // that connection waits to be accepted.
            let _ = spawn_server(scope, rt, alloc, station, &mut passes, observer);
            let ended = run_lines(rt, alloc, station, pass, lines, observer);
            station.close(rt);
            Some(ended)
        },
    )
}

/// Serves connections on these terms, until the lines have ended.
///
/// It is as `serve_listener` says, with this kind of ledger in the lock. Nothing is written.
#[tactic(auto, using(crate::proofs::Ending::no_connection))]
pub(crate) fn serve_input<
    L: Origin + Send + Sync,
    R: Threads + Wait + Clock + Sync,
    I: CountedRead,
    V: Observer + Sync,
>(
    rt: &R,
    alloc: Global,
    blank: Blank,
    service: Service<'_, I>,
    terms: Terms,
    observer: &V,
) -> Result<(), DaemonFault>
    // The lock names the worlds for which the mount that is served stands.
    requires opens { (world : WorldState) → L.opens world → StandsFor service.mount world }
    requires name { blank.name ≡ L.name }
    requires parts { blank.parts ≡ L.parts }
    requires whole { blank.parts ≡ 2048 }
    ensures { (w : Option (List ℕ)) → ServingEnds service.entry.lines.labels service.entry.lines.from (Until.Input terms) (I.remaining service.entry.lines.input.now) w w result }
{
    let Service {
        mount,
        listener,
        lines,
    } = service;
    let (unlogged, mut passes) = Unlogged::new(mount, blank);
    let Ok(pass) = passes.give() else {
        // It is the first one.
        unreachable!()
    };
    let station = Station::<L>::new(unlogged, listener, terms);
    match run_threads(rt, alloc, &station, pass, passes, lines, observer) {
        Some(ran) => end_lines(ran),
        None => Err(DaemonFault::NoConnection),
    }
}
