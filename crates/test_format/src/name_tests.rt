//! A fault has one name: what a script prints of it is what it displays.

use eden_globs::FilterFault;
use eden_history::{ChangeFault, SinceFault};
use eden_ids::PathFault;
use eden_script::{Refusal, push_refusal};
use std::alloc::Global;
use std::fmt::Display;
use std::test::Fail;
use test_kit::PUT_FAULTS;

/// Whether a refusal's line shows what a fault displays.
fn is_displayed<F: Display>(alloc: Global, fault: &F, cause: Refusal) -> Result<bool, Fail> {
    let shown = format!(in alloc; "refused {fault}\n")?;
    let mut text = Vec::new(alloc);
    push_refusal(&mut text, cause)?;
    Ok(shown.as_bytes() == text.as_slice())
}

const OF_CHANGES: &[ChangeFault] = &[
    ChangeFault::NotADirectory,
    ChangeFault::IsADirectory,
    ChangeFault::NoEntry,
    ChangeFault::TooLarge,
    ChangeFault::IntoItself,
    ChangeFault::PathTooLong,
    ChangeFault::NoCommit,
    ChangeFault::SequenceExhausted,
    ChangeFault::GenerationNotNew,
    ChangeFault::NoMemory,
];

const OF_PATHS: &[PathFault] = &[
    PathFault::Empty,
    PathFault::TooLong,
    PathFault::BadComponent,
    PathFault::TooDeep,
    PathFault::NoMemory,
];

#[test]
fn changes_paths_and_puts_are_refused_by_what_their_faults_display(
    rt: HostRuntime,
) -> Result<(), Fail> {
    let alloc = rt.alloc();
    for fault in OF_CHANGES {
        assert!(rt;
            is_displayed(alloc, fault, Refusal::File(*fault))?,
            "{fault}"
        );
    }
    for fault in OF_PATHS {
        assert!(rt;
            is_displayed(alloc, fault, Refusal::Path(*fault))?,
            "{fault}"
        );
    }
    for fault in PUT_FAULTS {
        assert!(rt;
            is_displayed(alloc, fault, Refusal::Put(*fault))?,
            "{fault}"
        );
    }
    Ok(())
}

const OF_POSITIONS: &[SinceFault] = &[
    SinceFault::Stale(7),
    SinceFault::Ahead(18),
    SinceFault::Truncated(0),
    SinceFault::NoMemory,
];

const OF_PATTERNS: &[FilterFault] = &[
    FilterFault::TooMany,
    FilterFault::PatternTooLong,
    FilterFault::BadPattern(31),
    FilterFault::NoMemory,
];

#[test]
fn positions_and_patterns_are_refused_by_what_their_faults_display(
    rt: HostRuntime,
) -> Result<(), Fail> {
    let alloc = rt.alloc();
    for fault in OF_POSITIONS {
        assert!(rt;
            is_displayed(alloc, fault, Refusal::Since(*fault))?,
            "{fault}"
        );
    }
    for fault in OF_PATTERNS {
        assert!(rt;
            is_displayed(alloc, fault, Refusal::Patterns(*fault))?,
            "{fault}"
        );
    }
    Ok(())
}
