//! Rounds over connections that may be lost.

ghost use Rattle.std.specs.Option.{option_map};
ghost use Rattle.std.specs.Prelude.{◌≡◌, ◌+◌, ◌^◌, ◌<◌, ◌≤◌, ℕ, Option, true, IfOk, IsErrOf, None, OnOk, Some};
ghost use Rattle.eden_connect.specs.Connections.{FollowsFrom, IsCutOff, unconnected};
ghost use Rattle.eden_connect.specs.internal.Exchanges.{IsOver};
ghost use Rattle.eden_connect.specs.internal.Talks.{HearsAll, HearsSome, Leads, Resumes, Talks};
ghost use Rattle.eden_messages.specs.Mirrors.{begun, has_number};

use crate::collector::Collector;
use crate::dial::Dial;
use crate::fault::RoundFault;
use crate::link::{Link, LinkFault};
use crate::progress::Progress;
use eden_ids::NoMemory;
use eden_mirror::Mirror;
use std::alloc::Global;
use std::io::{Read, Write};

/// The most connections that are asked for in a round.
const CONNECTIONS: u32 = 16;

/// Continues the round that is under way, until it has ended or no reply counts.
#[tactic(auto, using(crate::proofs::Following::hears_more, crate::proofs::Exchanging::exchanges_heard, crate::proofs::Exchanging::given_up))]
fn follow_round<I: Read, O: Write, P: Progress>(
    link: &mut Link<I, O>,
    collector: &mut Collector,
    progress: &mut P,
) -> Result<(), LinkFault>
    ensures over { OnOk result (IsOver (O.contents link.new.writer) (I.remaining link.new.reader) collector.new) }
    ensures ended { OnOk result (HearsAll (I.remaining link.old.reader) (I.remaining link.new.reader) collector.old collector.new) }
    ensures heard { HearsSome (I.remaining link.old.reader) collector.old collector.new }
{
    for _ in 0..u64::MAX {
        let requests = collector.mirror().outstanding()?;
        let counted = link.exchange(requests.as_slice(), collector, progress)?;
        if !counted || collector.mirror().is_idle() {
            return Ok(());
        }
    }
    // Each step but the last brings a content or a list of a directory that counts, and no round
    // awaits that many.
    Err(LinkFault::Lost)
}

/// Continues a round over a connection. Returns the connection if the round is over, or `None` if
/// the connection is lost.
fn talk<I: Read + Drop, O: Write + Drop, P: Progress>(
    link: Link<I, O>,
    collector: &mut Collector,
    progress: &mut P,
) -> Result<Option<Link<I, O>>, NoMemory>
    ensures { IfOk result (λ kept. Talks (I.remaining link.reader) (option_map (λ link. I.remaining link.reader) kept) collector.old collector.new) }
{
    let mut link = link;
    match follow_round(&mut link, collector, progress) {
        Ok(()) => Ok(Some(link)),
        Err(LinkFault::Lost) => Ok(None),
        Err(LinkFault::NoMemory) => Err(NoMemory),
    }
}

/// Continues a round over the connection that is there, if there is one.
fn resume<I: Read + Drop, O: Write + Drop, P: Progress>(
    link: Option<Link<I, O>>,
    collector: &mut Collector,
    progress: &mut P,
) -> Result<Option<Link<I, O>>, NoMemory>
    ensures { IfOk result (λ kept. Resumes (option_map (λ link. I.remaining link.reader) link) (option_map (λ link. I.remaining link.reader) kept)
        collector.old collector.new) }
{
    match link {
        Some(link) => talk(link, collector, progress),
        None => Ok(None),
    }
}

/// Asks for a connection, and continues a round over it. Returns the connection if the round is
/// over.
#[tactic(auto, using(crate::proofs::Leading::dialled_leads, crate::proofs::Leading::refused_leads))]
fn retry<D: Dial, P: Progress>(
    alloc: Global,
    dial: &mut D,
    collector: &mut Collector,
    progress: &mut P,
) -> Result<Option<Link<D::Reader, D::Writer>>, NoMemory>
    ensures { IfOk result (λ kept. Leads D.dials 1 (record { dial = dial.old; left = None })
        (record { dial = dial.new; left = option_map (λ link. D.Reader.remaining link.reader) kept }) collector.old collector.new) }
{
    let Some((reader, writer)) = dial.dial()? else {
        return Ok(None);
    };
    let kept = talk(Link::new(alloc, reader, writer), collector, progress)?;
    Ok(kept)
}

/// Runs a round over the connection that is there, and then over at most 16 new ones. Returns the
/// one over which it has ended.
#[tactic(auto, using(crate::proofs::Leading::leads_more, crate::proofs::Leading::resumes_lead))]
fn run_round<D: Dial, P: Progress>(
    alloc: Global,
    dial: &mut D,
    link: Option<Link<D::Reader, D::Writer>>,
    collector: &mut Collector,
    progress: &mut P,
) -> Result<Link<D::Reader, D::Writer>, RoundFault>
    requires { has_number collector.old ≡ true }
    ensures over { IfOk result (λ kept. (tries : ℕ) × (tries ≤ 16) × Leads D.dials tries
        (record { dial = dial.old; left = option_map (λ link. D.Reader.remaining link.reader) link })
        (record { dial = dial.new; left = Some (D.Reader.remaining kept.reader) }) (begun collector.old) collector.new) }
    ensures spent { IsErrOf result RoundFault.NoConnection → Leads D.dials 16
        (record { dial = dial.old; left = option_map (λ link. D.Reader.remaining link.reader) link })
        (record { dial = dial.new; left = None }) (begun collector.old) collector.new }
{
    collector.begin();
    if let Some(link) = resume(link, collector, progress)? {
        return Ok(link);
    }
    for _ in 0..CONNECTIONS {
        if let Some(link) = retry(alloc, dial, collector, progress)? {
            return Ok(link);
        }
    }
    Err(RoundFault::NoConnection)
}

/// Runs N rounds, for which the mirror has numbers.
#[tactic(auto, using(crate::proofs::Leading::follows_over_none))]
fn run<D: Dial, P: Progress>(
    alloc: Global,
    dial: &mut D,
    collector: &mut Collector,
    rounds: u32,
    progress: &mut P,
) -> Result<(), RoundFault>
    requires { collector.old.last + rounds < 2 ^ 64 }
    ensures followed { OnOk result (FollowsFrom D.dials rounds dial.old dial.new collector.old collector.new) }
    ensures cut_off { IsErrOf result RoundFault.NoConnection → IsCutOff D.dials rounds (unconnected dial.old) (unconnected dial.new) collector.old }
{
    let mut link = None;
    for _ in 0..rounds {
        link = Some(run_round(alloc, dial, link, collector, progress)?);
    }
    Ok(())
}

/// Runs N rounds of a mirror over the connections that `dial` makes, and returns the mirror.
///
/// A round begins with a request for a list, and then asks for the content of each path on that
/// list. It goes on until it has ended, or until a reply has come for each outstanding request and
/// none of them counted, which gives the round up. A connection is kept from one round to the next.
/// If it is lost, or a reply can't be read from it, a new one is made, and the outstanding requests
/// are sent again. At most 16 connections are asked for in a round, and one that can't be made
/// counts too.
///
/// `progress` hears of the contents that come.
///
/// # Errors
///
/// - `NoConnection` if the 16 connections of a round are spent.
/// - `NoMemory` if an allocation fails.
pub fn follow_rounds<D: Dial, P: Progress>(
    alloc: Global,
    dial: &mut D,
    mirror: Mirror,
    rounds: u32,
    progress: &mut P,
) -> Result<Mirror, RoundFault>
    requires { mirror.last + rounds < 2 ^ 64 }
    ensures followed { IfOk result (λ followed. FollowsFrom D.dials rounds dial.old dial.new mirror followed) }
    ensures cut_off { IsErrOf result RoundFault.NoConnection → IsCutOff D.dials rounds (unconnected dial.old) (unconnected dial.new) mirror }
{
    let mut collector = Collector::new(mirror);
    let ended = run(alloc, dial, &mut collector, rounds, progress);
    progress.finish();
    ended?;
    Ok(collector.into_mirror())
}
