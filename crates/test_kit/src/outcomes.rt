//! What became of changes drawn by lot.

use crate::imports::Roots;
use eden_history::{Answer, Change, ChangeFault};
use eden_objects::PutFault;

/// How many directories were renamed, to another path and to their own, and how many of these renames were refused, for each cause; how
/// many imports were made, and how many were refused for a child that is missing or of another kind; and how many changes went over to a
/// commit that an import had put.
#[derive(Clone, Copy, Debug, Default)]
pub struct Outcomes {
    away: u64,
    in_place: u64,
    no_directory: u64,
    no_entry: u64,
    into_itself: u64,
    taken: u64,
    imported: u64,
    missing: u64,
    wrong: u64,
    gone_over: u64,
}

/// One more.
fn count(number: &mut u64) {
    *number = number.saturating_add(1);
}

impl Outcomes {
    /// Counts a change by its answer.
    pub fn count(&mut self, change: &Change, answer: &Answer, roots: &Roots) {
        match (change, answer) {
            (Change::RenameDir { old, new }, Answer::At(_)) if old == new => {
                count(&mut self.in_place);
            }
            (Change::RenameDir { .. }, Answer::At(_)) => count(&mut self.away),
            (Change::RenameDir { .. }, Answer::Refused(fault)) => self.count_refusal(*fault),
            (Change::Import { .. }, Answer::At(_)) => count(&mut self.imported),
            (_, Answer::Refused(ChangeFault::BadObject { fault, .. })) => match fault {
                PutFault::MissingChild => count(&mut self.missing),
                PutFault::WrongChildKind => count(&mut self.wrong),
                _ => {}
            },
            (Change::Checkout { commit, .. }, Answer::Checked { position, .. })
            | (Change::Reset { commit }, Answer::At(position))
                if position.root == *commit && roots.is_imported(*commit) => {
                count(&mut self.gone_over);
            }
            _ => {}
        }
    }

    /// Counts why the rename of a directory is refused.
    fn count_refusal(&mut self, fault: ChangeFault) {
        match fault {
            ChangeFault::NotADirectory => count(&mut self.no_directory),
            ChangeFault::NoEntry => count(&mut self.no_entry),
            ChangeFault::IntoItself => count(&mut self.into_itself),
            ChangeFault::IsADirectory => count(&mut self.taken),
            _ => {}
        }
    }

    /// Whether there was some of each.
    pub fn has_all(&self) -> bool {
        let moved = self.away > 0
            && self.in_place > 0
            && self.no_directory > 0
            && self.no_entry > 0
            && self.into_itself > 0
            && self.taken > 0;
        let imported = self.imported > 0 && self.missing > 0 && self.wrong > 0;
        moved && imported && self.gone_over > 0
    }
}
