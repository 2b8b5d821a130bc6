//! `follow connect` as a function, and what it does over any connections.

ghost use Rattle.std.specs.Prelude.{◌+◌, ◌^◌, ◌<◌, OnOk, IsErrOf, IsSome, IsNone};
ghost use Rattle.std.specs.Io.KnownBytes.{Keeps};
ghost use Rattle.eden_messages.specs.Mirrors.{new_mirror};
ghost use Rattle.eden_connect.specs.Connections.{FollowsFrom, IsCutOff, unconnected};
ghost use Rattle.eden_connect.specs.Rounds.{Follows, Tells, TellsFront};

use crate::dial::{Dial, Dialer};
use crate::fault::{ConnectFault, RoundFault};
use crate::progress::Progress;
use crate::report::print_report;
use crate::rounds::follow_rounds;
use eden_globs::Filter;
use eden_mirror::Mirror;
use eden_sockets::Place;
use std::alloc::Global;
use std::io::Write;
use std::net::{Net, TcpStream};

/// Runs N rounds of a mirror over the connections that `dial` makes, and prints the mirror.
///
/// `follow_rounds` says what a round is, and `connect_program` what is written.
///
/// # Errors
///
/// - `Unplaced` if the mirror has no position after its rounds: all is written.
/// - `NoConnection` if the 16 connections of a round are spent: nothing is written.
/// - `NoMemory` if an allocation fails: nothing is written.
/// - `Write` if the output can't be written: the first bytes of the text are written.
pub fn keep_mirror<D: Dial, W: Write, P: Progress>(
    alloc: Global,
    dial: &mut D,
    output: &mut W,
    mirror: Mirror,
    rounds: u32,
    progress: &mut P,
) -> Result<(), ConnectFault>
    requires { mirror.last + rounds < 2 ^ 64 }
    ensures placed { OnOk result (Tells (FollowsFrom D.dials rounds dial.old dial.new mirror) IsSome (W.contents output.old) (W.contents output.new)) }
    ensures unplaced { IsErrOf result ConnectFault.Unplaced
        → Tells (FollowsFrom D.dials rounds dial.old dial.new mirror) IsNone (W.contents output.old) (W.contents output.new) }
    ensures torn { IsErrOf result ConnectFault.Write
        → TellsFront (FollowsFrom D.dials rounds dial.old dial.new mirror) (W.contents output.old) (W.contents output.new) }
    ensures cut_off { IsErrOf result ConnectFault.NoConnection → IsCutOff D.dials rounds (unconnected dial.old) (unconnected dial.new) mirror }
    ensures unconnected { IsErrOf result ConnectFault.NoConnection → Keeps (W.contents output.old) (W.contents output.new) }
    ensures unwritten { IsErrOf result ConnectFault.NoMemory → Keeps (W.contents output.old) (W.contents output.new) }
{
    match follow_rounds(alloc, dial, mirror, rounds, progress) {
        Ok(mirror) => print_report(alloc, output, &mirror),
        Err(RoundFault::NoConnection) => Err(ConnectFault::NoConnection),
        Err(RoundFault::NoMemory) => Err(ConnectFault::NoMemory),
    }
}

/// Keeps a mirror of the mount that is served at a place, for N rounds, and prints it.
///
/// `mirror` and `life` say which mirror it is. No two lives of a mirror may be equal, and no two
/// mirrors that follow one mount. `filter` says which paths it wants. `keep_mirror` does the same
/// over any connections, and its contract says which faults they cause: none can say what a port
/// does.
///
/// It writes `placed` with the generation, the sequence number and the root of the mirror's
/// position, or `unplaced`. Then it writes `files` with the number of files, and a line for each
/// file in byte order of their paths: its kind (`plain`, `exec` or `link`), its length in bytes,
/// and its path, in which a backslash, a space and a line feed are escaped.
///
/// # Errors
///
/// - `Unplaced` if the mirror has no position after its rounds: all is written.
/// - `NoConnection` if the connections of a round are spent: nothing is written.
/// - `NoMemory` if an allocation fails: nothing is written.
/// - `Write` if the output can't be written: the first bytes of the text are written.
pub fn connect_program<R: Net<Stream = TcpStream>, W: Write, P: Progress>(
    rt: &R,
    alloc: Global,
    output: &mut W,
    place: Place,
    mirror: u64,
    life: u64,
    rounds: u32,
    filter: &Filter,
    progress: &mut P,
) -> Result<(), ConnectFault>
    ensures placed { OnOk result (Tells (Follows (new_mirror mirror life filter.now) rounds) IsSome (W.contents output.old) (W.contents output.new)) }
    ensures unplaced { IsErrOf result ConnectFault.Unplaced
        → Tells (Follows (new_mirror mirror life filter.now) rounds) IsNone (W.contents output.old) (W.contents output.new) }
    ensures torn { IsErrOf result ConnectFault.Write
        → TellsFront (Follows (new_mirror mirror life filter.now) rounds) (W.contents output.old) (W.contents output.new) }
    ensures rounds { IsErrOf result ConnectFault.NoConnection → 0 < rounds }
    ensures unconnected { IsErrOf result ConnectFault.NoConnection → Keeps (W.contents output.old) (W.contents output.new) }
    ensures unwritten { IsErrOf result ConnectFault.NoMemory → Keeps (W.contents output.old) (W.contents output.new) }
{
    let Ok(filter) = filter.copy() else {
        return Err(ConnectFault::NoMemory);
    };
    let mirror = Mirror::new(alloc, mirror, life, filter);
    let mut dial = Dialer::new(rt, alloc, place);
    keep_mirror(alloc, &mut dial, output, mirror, rounds, progress)
}
