//! How a round counts down to its end.

ghost use Rattle.eden_mirror.specs.Counting.{ContentsCountDown, IgnoresOthers, ListsCountDown, PlacesWithNoneLeft, PlacesWithTheLast};

use crate::mirror::{Mirror, Round};

impl Mirror {
    /// States how each mirror's round counts down to its end.
    ///
    /// Each content that counts leaves one awaited path fewer. Each list that counts
    /// leaves one awaited directory fewer, and its paths are awaited too. The mirror is
    /// placed by exactly the reply that leaves none of either. Suppose n are awaited, and
    /// replies come in any order with others in between. Then the mirror is placed by the
    /// reply that counts as number n plus the number of paths that lists have added, and
    /// by none before it.
    pub fn round_law(&self)
        ensures contents { ContentsCountDown self.now }
        ensures lists { ListsCountDown self.now }
        ensures placed { PlacesWithNoneLeft self.now }
        ensures others { IgnoresOthers self.now }
        ensures last { PlacesWithTheLast self.now }
    {
        if let Round::Gathering {
            awaited,
            prefixes,
            ..
        } = &self.round
        {
            awaited.distinct_law();
            prefixes.distinct_law();
        }
    }
}
