//! Laws of the types of messages, each as the contract of a function that changes
//! nothing.

ghost use Rattle.std.specs.List.{AllByRecursion};
ghost use Rattle.eden_globs.specs.Filters.{lists};
ghost use Rattle.eden_ids.specs.Texts.{AreBytes};
ghost use Rattle.eden_messages.specs.Spells.{IsFilterText, IsPosition, IsQuery, IsRequest};

use crate::message::{Query, Request};
use eden_globs::Filter;
use eden_history::Position;
use eden_ids::{bytes_law, id_law, path_law};

/// States that a query's numbers have eight bytes.
pub fn query_law(query: Query)
    ensures { IsQuery query }
{}

/// States that a position's numbers have eight bytes, and its root twenty.
pub fn position_law(position: Position)
    ensures { IsPosition position }
{
    id_law(position.root);
}

/// States that the bytes of all patterns are below 256.
fn patterns_law(patterns: &[Vec<u8>])
    ensures { AllByRecursion AreBytes (lists patterns.now) }
{
    for pattern in patterns {
        bytes_law(pattern.as_slice());
    }
}

/// States that a filter's patterns are valid, their bytes below 256.
pub fn filter_law(filter: &Filter)
    ensures { IsFilterText filter.now }
{
    patterns_law(filter.patterns());
    patterns_law(filter.excluded());
}

/// States that each part of a request can be encoded.
pub fn request_text_law(request: &Request)
    ensures { IsRequest request.now }
{
    match request {
        Request::Basis { query, filter } => {
            query_law(*query);
            filter_law(filter);
        }
        Request::Poll {
            query,
            since,
            filter,
        } => {
            query_law(*query);
            position_law(*since);
            filter_law(filter);
        }
        Request::Fetch { query, path } => {
            query_law(*query);
            path_law(path);
        }
        Request::List {
            query,
            prefix,
            filter,
        } => {
            query_law(*query);
            path_law(prefix);
            filter_law(filter);
        }
    }
}
