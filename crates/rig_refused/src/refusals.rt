//! How often a call answered that memory was refused, and calls that are made again then.

use anyhow::Result;

/// How often a call answered so.
#[derive(Drop)]
pub(crate) struct Refusals {
    count: u64,
}

impl Refusals {
    pub(crate) fn new() -> Refusals {
        Refusals { count: 0 }
    }

    /// One call more answered so.
    pub(crate) fn add(&mut self) {
        self.count = self.count.saturating_add(1);
    }

    pub(crate) fn count(&self) -> u64 {
        self.count
    }
}

fn reserve<T>(items: &mut Vec<T>) -> Result<()> {
    Ok(items.try_reserve(1)?)
}

/// Puts an item behind the others, and again where memory was refused.
pub(crate) fn keep<T: Drop>(refusals: &mut Refusals, items: &mut Vec<T>, item: T) -> Result<()> {
    if reserve(items).is_err() {
        refusals.add();
        reserve(items)?;
    }
    Ok(items.push(item)?)
}

/// What a call answers, which changes nothing. It is made again where memory was refused: where its error is of this pattern.
macro_rules! again {
    ($refusals:expr, $refused:pat, $call:expr) => {
        match $call {
            Err($refused) => {
                $refusals.add();
                $call?
            }
            answered => answered?,
        }
    };
}

pub(crate) use again;
