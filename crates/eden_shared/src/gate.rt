//! What is done while a caller waits for its reply, outside the lock.

use eden_messages::{Query, Request};
use std::time::Duration;

/// What a caller does before the hold of its request, and between that and the making of the reply.
///
/// The lock is free then. Others may change the mount. The reply is that of the hold.
pub trait Gate {
    /// Does what comes before the hold. It may wait until there is something to ask for.
    ///
    /// It is called once before each hold. The patience is for how long the caller would wait for
    /// a reply that names something. By default it does nothing.
    fn before(&self, _request: &Request, _patience: Duration) {}

    /// Does what is to be done while the lock is free. It may wait.
    ///
    /// It is called once for each request that was held, before anything is compared or listed for
    /// the reply. A gate is shared, so no clause can say that it was called: a test does.
    fn between(&self, query: &Query);
}

/// Does nothing before the hold, and nothing between the hold and the reply.
#[derive(Clone, Copy, Debug, PartialEq, Eq)]
pub struct OpenGate;

impl Gate for OpenGate {
    fn between(&self, _query: &Query) {}
}
