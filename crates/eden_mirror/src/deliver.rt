//! What a mirror does with a reply.

ghost use Rattle.std.specs.Prelude.{◌≡◌, ◌==◌, ◌&&◌, nat_le, Option, Some, IfOk, OnErr};
ghost use Rattle.eden_ids.specs.declared.content.Content.{Content};
ghost use Rattle.eden_messages.specs.declared.message.Reply.TheVariants.{BasisIs, ChangesAre, ContentIs, ListIs, Refused};
ghost use Rattle.eden_messages.specs.Mirrors.{delivered, gathers, query_numbered, same_query};
ghost use Rattle.eden_messages.specs.Mirrors.Round.{Idle};
ghost use Rattle.eden_mirror.specs.Counting.{content_counts};
ghost use Rattle.eden_mirror.specs.internal.Rounds.{settled_in};

use crate::awaited::Awaited;
use crate::listing::{remove_all, unlisted};
use crate::mirror::{Mirror, Round};
use eden_history::{Marked, Position};
use eden_ids::{Content, Files, NoMemory, Path};
use eden_messages::{Cause, Outcome, Query, Reply};

/// Returns true if a content or a list belongs to a round.
///
/// It must answer the round's question, and be of the generation of the round's target
/// and not older.
fn is_of_round(asked: Query, target: Position, query: Query, position: Position) -> bool
    ensures { result ≡ (same_query query asked && position.generation == target.generation && nat_le target.sequence position.sequence) }
{
    query == asked
        && position.generation == target.generation
        && position.sequence >= target.sequence
}

impl Mirror {
    /// Ends the round at its target.
    fn place_at(&mut self, target: Position) -> Outcome
        ensures placed { self.new ≡ record self.old { place = Some target; round = Idle } }
        ensures told { result ≡ Outcome.Placed }
    {
        self.place = Some(target);
        self.round = Round::Idle;
        Outcome::Placed
    }

    /// Returns the outcome of a reply that counted.
    ///
    /// The mirror is placed if no path and no directory is awaited any more.
    fn place_if_complete(&mut self) -> Outcome
        ensures { (self.new, result) ≡ settled_in self.old self.old.round }
    {
        let Round::Gathering {
            target,
            awaited,
            prefixes,
        } = &self.round
        else {
            return Outcome::Taken;
        };
        if !awaited.is_empty() || !prefixes.is_empty() {
            return Outcome::Taken;
        }
        let target = *target;
        self.place_at(target)
    }

    /// Waits for these contents and these lists of directories.
    ///
    /// If there are none of either, the mirror is placed.
    fn gather(&mut self, target: Position, awaited: Awaited, prefixes: Awaited) -> Outcome
        ensures { (self.new, result) ≡ gathers self.old (query_numbered self.old self.old.last) target awaited prefixes }
    {
        self.round = Round::Gathering {
            target,
            awaited,
            prefixes,
        };
        self.place_if_complete()
    }

    /// Takes the list of all paths.
    #[tactic(auto, unfolding(eden_messages::specs::Mirrors::delivered))]
    fn take_basis(
        &mut self,
        query: Query,
        target: Position,
        paths: &[Path],
    ) -> Result<Outcome, NoMemory>
        ensures ok { IfOk result (λ outcome. (self.new, outcome) ≡ delivered self.old (BasisIs query target paths.now)) }
        ensures err { OnErr result (self.new ≡ self.old) }
    {
        let Round::Asked = &self.round else {
            return Ok(Outcome::Ignored);
        };
        if self.place.is_some() || query != self.query() {
            return Ok(Outcome::Ignored);
        }
        let awaited = Awaited::of_paths(self.alloc(), paths)?;
        self.files = Files::new(self.alloc());
        let prefixes = Awaited::new(self.alloc());
        Ok(self.gather(target, awaited, prefixes))
    }

    /// Takes the list of changed paths and renamed directories.
    #[tactic(auto, unfolding(eden_messages::specs::Mirrors::delivered))]
    fn take_changes(
        &mut self,
        query: Query,
        target: Position,
        marked: &[Marked],
        prefixes: &[Path],
    ) -> Result<Outcome, NoMemory>
        ensures ok { IfOk result (λ outcome. (self.new, outcome) ≡ delivered self.old (ChangesAre query target marked.now prefixes.now)) }
        ensures err { OnErr result (self.new ≡ self.old) }
    {
        let Round::Asked = &self.round else {
            return Ok(Outcome::Ignored);
        };
        if self.place.is_none() || query != self.query() {
            return Ok(Outcome::Ignored);
        }
        let awaited = Awaited::of_marked(self.alloc(), marked)?;
        let prefixes = Awaited::of_paths(self.alloc(), prefixes)?;
        Ok(self.gather(target, awaited, prefixes))
    }

    /// Returns true if a content counts in the round under way.
    fn counts(&self, query: Query, position: Position, path: &Path) -> bool
        ensures { (content : Option Content) → result ≡ content_counts self.now.round (ContentIs query position path.now content) }
    {
        match &self.round {
            Round::Gathering {
                target,
                awaited,
                ..
            } => { is_of_round(self.query(), *target, query, position) && awaited.has(path) }
            _ => false,
        }
    }

    /// Takes the content of a path.
    #[tactic(auto, unfolding(eden_messages::specs::Mirrors::delivered))]
    fn take_content(
        &mut self,
        query: Query,
        position: Position,
        path: Path,
        content: Option<Content>,
    ) -> Result<Outcome, NoMemory>
        ensures ok { IfOk result (λ outcome. (self.new, outcome) ≡ delivered self.old (ContentIs query position path content)) }
        ensures err { OnErr result (self.new ≡ self.old) }
    {
        let asked = self.query();
        let Round::Gathering {
            target,
            awaited,
            ..
        } = &mut self.round
        else {
            return Ok(Outcome::Ignored);
        };
        if !is_of_round(asked, *target, query, position) {
            return Ok(Outcome::Ignored);
        }
        if !awaited.answer(&mut self.files, path, content)? {
            return Ok(Outcome::Ignored);
        }
        Ok(self.place_if_complete())
    }

    /// Takes a borrowed content, and shares its bytes if it counts.
    #[tactic(auto, unfolding(eden_messages::specs::Mirrors::delivered))]
    fn take_lent(
        &mut self,
        query: Query,
        position: Position,
        path: &Path,
        content: &Option<Content>,
    ) -> Result<Outcome, NoMemory>
        ensures ok { IfOk result (λ outcome. (self.new, outcome) ≡ delivered self.old (ContentIs query position path.now content.now)) }
        ensures err { OnErr result (self.new ≡ self.old) }
    {
        if !self.counts(query, position, path) {
            return Ok(Outcome::Ignored);
        }
        let content = Content::copy_of(content)?;
        self.take_content(query, position, path.copy()?, content)
    }

    /// Takes the list of a directory. All allocations come before the first change.
    #[tactic(auto, unfolding(eden_messages::specs::Mirrors::delivered))]
    fn take_list(
        &mut self,
        query: Query,
        position: Position,
        prefix: &Path,
        paths: &[Path],
    ) -> Result<Outcome, NoMemory>
        ensures ok { IfOk result (λ outcome. (self.new, outcome) ≡ delivered self.old (ListIs query position prefix.now paths.now)) }
        ensures err { OnErr result (self.new ≡ self.old) }
    {
        let asked = self.query();
        let alloc = self.alloc();
        let Round::Gathering {
            target,
            awaited,
            prefixes,
        } = &mut self.round
        else {
            return Ok(Outcome::Ignored);
        };
        if !is_of_round(asked, *target, query, position) || !prefixes.has(prefix) {
            return Ok(Outcome::Ignored);
        }
        let gone = unlisted(alloc, &self.files, prefix, paths)?;
        awaited.extend(paths)?;
        prefixes.take_out(prefix);
        remove_all(&mut self.files, gone.as_slice());
        Ok(self.place_if_complete())
    }

    /// Takes a refusal of a list. Does not allocate.
    ///
    /// It may be the list of the round, or of a directory; of the latter only `TooLarge`
    /// counts.
    #[tactic(auto, unfolding(eden_messages::specs::Mirrors::delivered))]
    fn take_refusal(&mut self, query: Query, cause: Cause) -> Outcome
        ensures { (self.new, result) ≡ delivered self.old (Refused query cause) }
    {
        let asked = self.query();
        match &self.round {
            Round::Idle => return Outcome::Ignored,
            Round::Asked => {}
            Round::Gathering { prefixes, .. } => {
                if query != asked || prefixes.is_empty() || !matches!(cause, Cause::TooLarge) {
                    return Outcome::Ignored;
                }
                self.round = Round::Idle;
                return Outcome::Ended;
            }
        }
        if query != asked {
            return Outcome::Ignored;
        }
        self.round = Round::Idle;
        match cause {
            Cause::TooLarge => Outcome::Ended,
            _ => {
                self.place = None;
                Outcome::Unplaced
            }
        }
    }

    /// Takes a reply, no matter for whom it was or how late.
    ///
    /// - A list counts if it answers the round that waits for it.
    /// - A content counts if it answers the question of the round under way and its path
    ///   is awaited. It must be of the generation of the round's target, and not older
    ///   than it.
    /// - A list of a directory counts in the same way, if the directory is awaited. Files
    ///   below the directory that are not listed are then removed, and the listed paths
    ///   become awaited.
    /// - A refusal ends a round that waits for its list. A round that waits for lists of
    ///   directories ends only if such a list would be too long.
    ///
    /// The last awaited reply places the mirror at the target. Any other reply is
    /// `Ignored` and changes nothing.
    ///
    /// A list of a directory costs a step for each path of it and for each file of the
    /// mirror. It also costs a binary search for each file below the directory. If
    /// contents came before it, it also costs a step for each awaited path.
    ///
    /// # Errors
    ///
    /// - `NoMemory` if an allocation fails; nothing changes, and the reply can be
    ///   delivered again.
    pub fn deliver(&mut self, reply: &Reply) -> Result<Outcome, NoMemory>
        ensures ok { IfOk result (λ outcome. (self.new, outcome) ≡ delivered self.old reply.now) }
        ensures err { OnErr result (self.new ≡ self.old) }
    {
        match reply {
            Reply::BasisIs {
                query,
                position,
                paths,
            } => self.take_basis(*query, *position, paths.as_slice()),
            Reply::ChangesAre {
                query,
                target,
                marked,
                prefixes,
            } => self.take_changes(*query, *target, marked.as_slice(), prefixes.as_slice()),
            Reply::ContentIs {
                query,
                position,
                path,
                content,
            } => self.take_lent(*query, *position, path, content),
            Reply::Refused { query, cause } => Ok(self.take_refusal(*query, *cause)),
            Reply::ListIs {
                query,
                position,
                prefix,
                paths,
            } => self.take_list(*query, *position, prefix, paths.as_slice()),
        }
    }

    /// Takes an owned reply, as `deliver` takes a borrowed one.
    ///
    /// A content is moved into the mirror, not copied.
    ///
    /// # Errors
    ///
    /// - `NoMemory` if an allocation fails; nothing changes, and the reply's request is
    ///   still outstanding.
    pub fn deliver_owned(&mut self, reply: Reply) -> Result<Outcome, NoMemory>
        ensures ok { IfOk result (λ outcome. (self.new, outcome) ≡ delivered self.old reply) }
        ensures err { OnErr result (self.new ≡ self.old) }
    {
        match reply {
            Reply::ContentIs {
                query,
                position,
                path,
                content,
            } => self.take_content(query, position, path, content),
            other => self.deliver(&other),
        }
    }
}
