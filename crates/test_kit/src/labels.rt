//! What the labels of a script are bound to.

use eden_history::Position;
use eden_ids::Id;
use eden_script::{Binding, Label, push_bytes, push_id, push_number};
use std::alloc::{AllocError, Global};

/// What the labels of a script are bound to: each binding that was made, the oldest first.
#[derive(Drop)]
pub(crate) struct Labels {
    made: Vec<Binding>,
}

impl Labels {
    pub(crate) fn new(alloc: Global) -> Labels {
        Labels {
            made: Vec::new(alloc),
        }
    }

    pub(crate) fn bind(&mut self, label: Label, id: Id) -> Result<(), AllocError> {
        self.made.push(Binding { label, id })?;
        Ok(())
    }

    /// What a name is bound to.
    pub(crate) fn get(&self, name: &[u8]) -> Option<Id> {
        if name == b"empty".as_slice() {
            return Some(Id::ZERO);
        }
        let mut newest = None;
        for binding in &self.made {
            if binding.label.as_bytes() == name {
                newest = Some(binding.id);
            }
        }
        newest
    }

    /// The first label that was bound to an id and still is.
    fn first_bound(&self, id: Id) -> Option<&[u8]> {
        for binding in &self.made {
            let label = binding.label.as_bytes();
            if binding.id == id && self.get(label) == Some(id) {
                return Some(label);
            }
        }
        None
    }

    /// Adds a position to a text, and ends its line.
    pub(crate) fn push_position(
        &self,
        text: &mut Vec<u8>,
        position: &Position,
    ) -> Result<(), AllocError> {
        push_number(text, position.generation)?;
        push_bytes(text, b" ".as_slice())?;
        push_number(text, position.sequence)?;
        push_bytes(text, b" ".as_slice())?;
        if position.root == Id::ZERO {
            push_bytes(text, b"empty".as_slice())?;
        } else if let Some(label) = self.first_bound(position.root) {
            push_bytes(text, label)?;
        } else {
            push_id(text, &position.root)?;
        }
        push_bytes(text, b"\n".as_slice())
    }
}
