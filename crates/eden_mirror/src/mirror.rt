//! A mirror's state, and how its rounds begin.

ghost use Rattle.std.specs.Prelude.{◌≡◌, [], ◌∷◌, false, true, IfOk, OnErr, OnOk};
ghost use Rattle.std.specs.Option.{option_copied};
ghost use Rattle.eden_ids.specs.FileMaps.{file_at, paths};
ghost use Rattle.eden_messages.specs.Mirrors.{begun, has_number, is_idle, list_request, new_mirror, next_requests, outstanding_of, query_numbered, refiltered};

use crate::awaited::Awaited;
use eden_globs::Filter;
use eden_history::Position;
use eden_ids::{Content, Files, NoMemory, Path};
use eden_messages::{Query, Request};
use std::alloc::Global;
use std::marker::Model;
use thiserror::Error;

/// The mirror has used all round numbers: the last was 2^64 - 1.
#[derive(Clone, Copy, Debug, PartialEq, Eq, Error)]
#[error("NumbersExhausted")]
pub struct NumbersExhausted;

/// The state of a round.
///
/// Its question always has the mirror's last number. Its list is requested with the
/// mirror's filter and since the mirror's position, since neither changes while a list is
/// awaited.
#[derive(Drop)]
pub(crate) enum Round {
    /// There is none.
    Idle,
    /// The list is awaited.
    Asked,
    /// The list has come; contents and lists of directories are awaited.
    Gathering {
        /// The position of the list.
        target: Position,
        /// The paths of the contents.
        awaited: Awaited,
        /// The directories.
        prefixes: Awaited,
    },
}

/// A client's copy of those files of a mount that it wants.
///
/// Its filter says which they are. It follows the mount in rounds. `begin` begins one.
/// `outstanding` returns what to ask; it can be called and sent as often as you like,
/// since messages may be lost. `deliver` takes each reply that comes, in any order and
/// any number of times.
///
/// A round first asks for a list: of all paths, or of those that changed since the
/// mirror's position. Then it asks for the content of each path, and for the list of each
/// directory that files were moved from or to. With the last of these the position moves
/// to that of the first list.
///
/// During a round the mirror holds contents of the new position beside others of the old
/// one. So two of its paths may clash: one may be below the other. No matter which
/// replies come, and in which order: the file that a mirror with a position holds at a
/// path that it wants was there at that position or after it.
#[derive(Drop)]
pub struct Mirror {
    alloc: Global,
    id: u64,
    life: u64,
    pub(crate) filter: Filter,
    last: u64,
    pub(crate) files: Files,
    pub(crate) place: Option<Position>,
    pub(crate) round: Round,
}

impl Model for Mirror {
    ghost use Rattle.std.specs.Coded.{codes};
    ghost use Rattle.eden_ids.specs.contracts.files.Files as held;
    ghost use Rattle.eden_messages.specs.Mirrors.{MirrorState};
    ghost use Rattle.eden_mirror.specs.internal.Rounds.{round_of};

    ghost Value = { MirrorState };

    ghost coded = { Prim.hlevel (codes, held.the_row.coded) };

    ghost view = { λ m. record {
      id = m.id;
      life = m.life;
      patterns = m.filter;
      last = m.last;
      files = m.files;
      place = m.place;
      round = round_of (record { mirror = m.id; life = m.life; number = m.last }) m.place m.filter m.round;
    } };
}

impl Mirror {
    /// Returns a mirror that holds nothing. Does not allocate.
    ///
    /// No other mirror of the mount may have, or have had, this id and life.
    pub fn new(alloc: Global, id: u64, life: u64, filter: Filter) -> Mirror
        ensures { result ≡ new_mirror id life filter }
    {
        Mirror {
            alloc,
            id,
            life,
            filter,
            last: 0,
            files: Files::new(alloc),
            place: None,
            round: Round::Idle,
        }
    }

    /// Returns the mirror's id. Does not allocate.
    pub fn id(&self) -> u64
        ensures { result ≡ self.now.id }
    {
        self.id
    }

    /// Returns the mirror's life; one that starts again takes a greater one. Does not
    /// allocate.
    pub fn life(&self) -> u64
        ensures { result ≡ self.now.life }
    {
        self.life
    }

    /// Returns the filter of the paths that it wants. Does not allocate.
    pub fn filter(&self) -> &Filter
        ensures { result.now ≡ self.now.patterns }
    {
        &self.filter
    }

    /// Returns the mirror's position, if it has one that can be followed. Does not
    /// allocate.
    ///
    /// It is the one at which the mirror was placed last.
    pub fn position(&self) -> Option<Position>
        ensures { result ≡ self.now.place }
    {
        self.place
    }

    /// Returns the file that it holds at a path, if any. Does not allocate.
    pub fn get(&self, path: &Path) -> Option<&Content>
        ensures { option_copied result ≡ file_at self.now.files path.now }
    {
        self.files.get(path)
    }

    /// Returns the paths at which it holds a file, in byte order.
    ///
    /// # Errors
    ///
    /// - `NoMemory` if an allocation fails.
    pub fn files(&self) -> Result<Vec<Path>, NoMemory>
        ensures { IfOk result (λ list. list.items ≡ paths self.now.files) }
    {
        let mut list = Vec::new(self.alloc);
        for path in self.files.paths() {
            list.push(path.copy()?)?;
        }
        Ok(list)
    }

    /// Returns true if no round is under way. Does not allocate.
    pub fn is_idle(&self) -> bool
        ensures { result ≡ is_idle self.now.round }
    {
        matches!(&self.round, Round::Idle)
    }

    /// Returns the allocator for new vectors.
    pub(crate) fn alloc(&self) -> Global {
        self.alloc
    }

    /// Returns the question of the round with a number.
    fn query_numbered(&self, number: u64) -> Query
        ensures { result ≡ query_numbered self.now number }
    {
        Query {
            mirror: self.id,
            life: self.life,
            number,
        }
    }

    /// Returns the question of the last round.
    pub(crate) fn query(&self) -> Query
        ensures { result ≡ query_numbered self.now self.now.last }
    {
        self.query_numbered(self.last)
    }

    /// Returns the request for the list of a round.
    fn list_request(&self, query: Query) -> Result<Request, NoMemory>
        ensures { IfOk result (λ request. request ≡ list_request query self.now.place self.now.patterns) }
    {
        let filter = self.filter.copy()?;
        match self.place {
            None => Ok(Request::Basis { query, filter }),
            Some(since) => Ok(Request::Poll {
                query,
                since,
                filter,
            }),
        }
    }

    /// Returns that request in a list of its own.
    fn list_alone(&self, query: Query) -> Result<Vec<Request>, NoMemory>
        ensures { IfOk result (λ requests. requests.items ≡ list_request query self.now.place self.now.patterns ∷ []) }
    {
        let mut requests = Vec::new(self.alloc);
        requests.push(self.list_request(query)?)?;
        Ok(requests)
    }

    /// Returns true if a number is left for another round. Does not allocate.
    pub fn can_begin(&self) -> bool
        ensures { result ≡ has_number self.now }
    {
        self.last < u64::MAX
    }

    /// Begins a round, and gives up one that is under way.
    ///
    /// The round has the next number. It asks what changed since the mirror's position,
    /// or for all paths if there is none. Does not allocate.
    ///
    /// # Errors
    ///
    /// - `NumbersExhausted` if the last number was 2^64 - 1; nothing changes.
    #[tactic(auto, unfolding(eden_messages::specs::Mirrors::begun))]
    pub fn begin(&mut self) -> Result<(), NumbersExhausted>
        ensures begun { self.new ≡ begun self.old }
        ensures numbered { OnOk result (has_number self.old ≡ true) }
        ensures exhausted { OnErr result (has_number self.old ≡ false) }
    {
        let Some(next) = self.last.checked_add(1) else {
            return Err(NumbersExhausted);
        };
        self.last = next;
        self.round = Round::Asked;
        Ok(())
    }

    /// Returns the requests that the round under way still waits for.
    ///
    /// - If its list is awaited: the request for it.
    /// - Later: a request for the list of each awaited directory, then one for the
    ///   content of each awaited path. Both are in the order in which they came to be
    ///   awaited.
    /// - If there is no round: nothing.
    ///
    /// It costs what it lists.
    ///
    /// # Errors
    ///
    /// - `NoMemory` if an allocation fails.
    #[tactic(auto, unfolding(eden_messages::specs::Mirrors::outstanding_of))]
    pub fn outstanding(&self) -> Result<Vec<Request>, NoMemory>
        ensures { IfOk result (λ requests. requests.items ≡ outstanding_of self.now) }
    {
        match &self.round {
            Round::Idle => Ok(Vec::new(self.alloc)),
            Round::Asked => self.list_alone(self.query()),
            Round::Gathering {
                awaited,
                prefixes,
                ..
            } => {
                let mut requests = Vec::new(self.alloc);
                prefixes.push_lists(&mut requests, self.query(), &self.filter)?;
                awaited.push_fetches(&mut requests, self.query())?;
                Ok(requests)
            }
        }
    }

    /// Returns the requests outstanding once a round is under way.
    ///
    /// They are those outstanding now or, if there is no round, those with which the next
    /// one begins. So a caller can make room for them before a round begins. If numbers
    /// are exhausted there are none.
    ///
    /// # Errors
    ///
    /// - `NoMemory` if an allocation fails.
    #[tactic(auto, unfolding(eden_messages::specs::Mirrors::begun, eden_messages::specs::Mirrors::stepped, eden_messages::specs::Mirrors::outstanding_of))]
    pub fn next_requests(&self) -> Result<Vec<Request>, NoMemory>
        ensures { IfOk result (λ requests. requests.items ≡ next_requests self.now) }
    {
        if !self.is_idle() {
            return self.outstanding();
        }
        match self.last.checked_add(1) {
            Some(next) => self.list_alone(self.query_numbered(next)),
            None => Ok(Vec::new(self.alloc)),
        }
    }

    /// Changes the filter, and gives up files, position and round.
    ///
    /// The number stays, so that no later round takes a reply to an earlier one. Does not
    /// allocate.
    #[tactic(auto, unfolding(eden_messages::specs::Mirrors::refiltered))]
    pub fn refilter(&mut self, filter: Filter)
        ensures { self.new ≡ refiltered self.old filter }
    {
        self.filter = filter;
        self.files = Files::new(self.alloc);
        self.place = None;
        self.round = Round::Idle;
    }
}
