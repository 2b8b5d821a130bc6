//! Requests and replies.

ghost use Rattle.std.specs.Prelude.{◌≡◌, IfOk};
ghost use Rattle.eden_messages.specs.Mirrors.{query_of};

use eden_globs::Filter;
use eden_history::{Marked, Position};
use eden_ids::{Content, NoMemory, Path, Sequence};

/// The identity of a question: which one a request asks and a reply answers.
#[derive(Clone, Copy, Debug, PartialEq, Eq)]
pub struct Query {
    /// The client, a mirror of the mount.
    pub mirror: u64,
    /// The client's life; a client that starts again takes another one.
    pub life: u64,
    /// The number of the question, counted by the client.
    pub number: u64,
}

/// What a client asks of a mount.
#[derive(Clone, Debug, PartialEq, Eq, Drop)]
pub enum Request {
    /// Asks which paths hold a file.
    Basis {
        /// The identity of the question.
        query: Query,
        /// The filter of the paths that are wanted.
        filter: Filter,
    },
    /// Asks which paths changed since a position.
    Poll {
        /// The identity of the question.
        query: Query,
        /// The position.
        since: Position,
        /// The filter of the paths that are wanted.
        filter: Filter,
    },
    /// Asks for the file at a path.
    Fetch {
        /// The identity of the question.
        query: Query,
        /// The path.
        path: Path,
    },
    /// Asks which paths below a directory hold a file.
    List {
        /// The identity of the question.
        query: Query,
        /// The directory.
        prefix: Path,
        /// The filter of the paths that are wanted.
        filter: Filter,
    },
}

impl Request {
    /// Returns the identity of the question. Does not allocate.
    pub fn query(&self) -> Query
        ensures { result ≡ query_of self.now }
    {
        match self {
            Request::Basis { query, .. } => *query,
            Request::Poll { query, .. } => *query,
            Request::Fetch { query, .. } => *query,
            Request::List { query, .. } => *query,
        }
    }

    /// Returns a copy of this request.
    ///
    /// # Errors
    ///
    /// - `NoMemory` if an allocation fails.
    pub fn copy(&self) -> Result<Request, NoMemory>
        ensures { IfOk result (λ request. request ≡ self.now) }
    {
        Ok(self.clone()?)
    }
}

/// Why a request is refused. The first cause in this order is reported.
#[derive(Clone, Copy, Debug, PartialEq, Eq)]
pub enum Cause {
    /// The position is of another generation than the mount's, which is given.
    Stale(u64),
    /// The position's number is above the head, which is given.
    Ahead(u64),
    /// The position's number is below the floor, which is given: older changes are no
    /// longer held.
    Truncated(u64),
    /// The reply would be longer than a body may be.
    TooLarge,
}

/// A mount's reply to a request.
#[derive(Clone, Debug, PartialEq, Drop)]
pub enum Reply {
    /// The paths that hold a file at a position.
    BasisIs {
        /// The question that is answered.
        query: Query,
        /// The position at which they hold a file.
        position: Position,
        /// The paths, ascending in byte order.
        paths: Sequence<Path>,
    },
    /// The paths that changed up to a position.
    ChangesAre {
        /// The question that is answered.
        query: Query,
        /// The position up to which changes are listed.
        target: Position,
        /// The paths with their marks, ascending in byte order.
        marked: Sequence<Marked>,
        /// The directories that files were moved from or to.
        ///
        /// They are listed regardless of the filter. They ascend in byte order. Changes
        /// of the files below them are not listed by path.
        prefixes: Sequence<Path>,
    },
    /// The file at a path.
    ContentIs {
        /// The question that is answered.
        query: Query,
        /// The position at which the file is there.
        position: Position,
        /// The path.
        path: Path,
        /// The file, or `None` if there is none.
        content: Option<Content>,
    },
    /// The question cannot be answered.
    Refused {
        /// The question.
        query: Query,
        /// The cause.
        cause: Cause,
    },
    /// The paths below a directory that hold a file at a position.
    ListIs {
        /// The question that is answered.
        query: Query,
        /// The position at which they hold a file.
        position: Position,
        /// The directory.
        prefix: Path,
        /// The paths, each below the directory, ascending in byte order.
        paths: Sequence<Path>,
    },
}

impl Reply {
    /// Returns a copy of this reply.
    ///
    /// # Errors
    ///
    /// - `NoMemory` if an allocation fails.
    pub fn copy(&self) -> Result<Reply, NoMemory>
        ensures { IfOk result (λ reply. reply ≡ self.now) }
    {
        match self.clone() {
            Ok(reply) => Ok(reply),
            Err(_) => Err(NoMemory),
        }
    }
}
