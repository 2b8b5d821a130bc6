//! What holds of every mirror after every schedule, as the contract of a function that
//! does nothing.

ghost use Rattle.eden_headline.specs.Headline.{AgreeTogether, AgreesAtHead, HasPlace, HasValues, IsCovered, IsTold, OfMirrors, OfPairs};
ghost use Rattle.eden_headline.specs.Schedules.{OnFreshRuns};

/// States what holds of every mirror after every schedule.
///
/// A schedule has changes, checkouts, resets, flushes, remounts, growth of the store,
/// restarts of mirrors, and requests and replies that are served, delivered, lost,
/// repeated or reordered. After it, each path at which a placed mirror and the working
/// copy differ is reported since the mirror's place, or the place is refused. So mirrors
/// at the head agree with the working copy and with each other.
///
/// A schedule's steps are those of the definitions to which the mount, the service and
/// the mirror are proved equal. It is assumed only that each request that is served was
/// sent, and that each reply that comes was made. Also, a mirror starts again under a
/// greater life, and no other client asks under a mirror's name. An import of objects is
/// a step by which the store grows (`import_law`).
pub fn schedule_law()
    // Each path that the mirror's filter admits, and at which its files and the working
    // copy differ, is among the changes since its place, or the place is refused. It is
    // among them by its name, or below a directory that files were moved from or to. The
    // refusal is stale or truncated.
    ensures covered { OnFreshRuns (OfMirrors IsCovered) }
    // A poll since the place, served now, lists that path, or such a directory above it,
    // or refuses the place, or is refused as too large.
    ensures told { OnFreshRuns (OfMirrors IsTold) }
    // A mirror at the head holds what the working copy does at the paths that it wants,
    // and nothing else.
    ensures at_head { OnFreshRuns (OfMirrors AgreesAtHead) }
    // Two mirrors at the head hold the same at the paths that both want.
    ensures together { OnFreshRuns (OfPairs AgreeTogether) }
    // A place is that of a row of the world, and in the present generation not ahead of
    // the head.
    ensures places { OnFreshRuns (OfMirrors HasPlace) }
    // Each value that a placed mirror holds was in some row of its place's generation, at
    // the place or after it.
    ensures values { OnFreshRuns (OfMirrors HasValues) }
{}
