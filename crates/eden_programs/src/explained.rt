//! What faults mean, in words for a person.

use eden_globs::FilterFault;
use eden_objects::PutFault;

/// Returns why an object can't be put.
pub(crate) fn explain_put(fault: PutFault) -> &'static str {
    match fault {
        PutFault::TooLarge => "it has more than 8,388,608 bytes",
        PutFault::IdTaken => "another object has its id",
        PutFault::ZeroId => "its id is that of the empty commit",
        PutFault::BadMode => "the mode of an entry is none of 40000, 100644, 100755 and 120000",
        PutFault::BadName => {
            "the name of an entry is empty, `.` or `..`, has more than 255 bytes, or has a slash"
        }
        PutFault::OutOfOrder => "its entries are not in order",
        PutFault::Duplicate => "two entries have one name",
        PutFault::MissingChild => "it names an object that was not put before it",
        PutFault::WrongChildKind => "it names an object of another type",
        PutFault::TooDeep => "a path below it would have more than 64 components",
        PutFault::PathTooLong => "a path below it would have more than 1,024 bytes",
        PutFault::CutShort => "it ends within an entry or its first line",
        PutFault::BadCommit => "it does not begin with `tree `, an id and a line feed",
        PutFault::NoMemory => "out of memory",
    }
}

/// Returns why patterns are refused.
pub(crate) fn explain_patterns(fault: FilterFault) -> &'static str {
    match fault {
        FilterFault::TooMany => "there are more than 32 patterns",
        FilterFault::PatternTooLong => "a pattern has more than 256 bytes",
        FilterFault::BadPattern(_) => {
            "a pattern is empty, has an empty component, a `[` or `{` without a `\\`, or a `\\` before nothing or `/`"
        },
        FilterFault::NoMemory => "out of memory",
    }
}
