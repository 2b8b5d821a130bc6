//! Labels, the names of objects in a script.

ghost use Rattle.std.specs.Prelude.{◌≡◌, nat_eq, IfOk};
ghost use Rattle.std.specs.List.{list_all};
ghost use Rattle.std.specs.Ordering.{nat_cmp, as_partial_cmp};
ghost use Rattle.std.specs.Cmp.Lexicographic.{pointwise, slice_cmp};
ghost use Rattle.std.specs.Cmp.{partial_order_from_own_ties};
ghost use Rattle.std.specs.Cmp.Rules.{comparing};
ghost use Rattle.std.proofs.Common.{rules};
ghost use Rattle.eden_script.specs.LabelWords.{is_label, is_label_byte, is_empty, label_read, label_to_bind, own_label};

use crate::lines::Word;
use eden_ids::{Id, hex_law, id_law};
use std::alloc::{AllocError, Global};
use std::cmp::Ordering;
use std::fmt;
use std::marker::Model;

/// The name that a script gives to an object: 1 to 32 of `a` to `z` and `0` to `9`.
///
/// Labels are compared and ordered as their bytes.
#[derive(Drop)]
pub struct Label {
    bytes: Vec<u8>,
}

impl Model for Label {
    ghost use Rattle.std.specs.Prelude.{◌≡◌, true, ℕ, List};
    ghost use Rattle.eden_script.specs.LabelWords.{is_label};

    ghost Value = { List ℕ };

    ghost view = { λ label. label.bytes.items };

    ghost invariant = { λ label. is_label label.bytes.items ≡ true };
}

/// Returns true if these are all lowercase letters and digits.
fn has_label_bytes(bytes: &[u8]) -> bool
    ensures { result ≡ list_all is_label_byte bytes.now }
{
    bytes.iter().all(|b| matches!(b, b'a'..=b'z' | b'0'..=b'9'))
}

/// Returns true if these bytes are a label: 1 to 32 letters and digits.
fn is_label(bytes: &[u8]) -> bool
    ensures { result ≡ is_label bytes.now }
{
    1 <= bytes.len() && bytes.len() <= 32 && has_label_bytes(bytes)
}

impl Label {
    /// Reads a label from a word, if it is valid.
    pub fn read(word: Word) -> Option<Label>
        ensures { result ≡ label_read word }
    {
        let bytes = word.into_bytes();
        if is_label(bytes.as_slice()) {
            Some(Label { bytes })
        } else {
            None
        }
    }

    /// Reads a label that a line may bind, if it is valid.
    ///
    /// `empty` is refused too: it always names the empty commit.
    pub fn read_to_bind(word: Word) -> Option<Label>
        ensures { result ≡ label_to_bind word }
    {
        match Label::read(word) {
            Some(label) if !label.is_empty() => Some(label),
            _ => None,
        }
    }

    /// Returns the label of a commit to which no line binds one.
    ///
    /// It is the first 32 digits of its id.
    ///
    /// # Errors
    ///
    /// - `AllocError` if an allocation fails.
    #[tactic(auto, using(crate::proofs::OwnLabels::own_is_label))]
    pub fn of_id(alloc: Global, id: Id) -> Result<Label, AllocError>
        ensures { IfOk result (λ label. label ≡ own_label id) }
    {
        hex_law();
        id_law(id);
        let mut bytes = id.to_hex().to_vec(alloc)?;
        bytes.truncate(32);
        Ok(Label { bytes })
    }

    /// Returns true if this is `empty`, the label of the empty commit.
    pub fn is_empty(&self) -> bool
        ensures { result ≡ is_empty self.now }
    {
        self.as_bytes() == b"empty".as_slice()
    }

    /// Returns the label's bytes. Does not allocate.
    pub fn as_bytes(&self) -> &[u8]
        ensures { result.now ≡ self.now }
    {
        self.bytes.as_slice()
    }
}

impl Clone for Label {
    ghost is_clone = { λ x y. y ≡ x };

    fn clone(&self) -> Result<Self, AllocError> {
        let bytes = self.bytes.clone()?;
        Ok(Label { bytes })
    }
}

impl PartialEq for Label {
    ghost eq = { pointwise nat_eq };

    ghost laws = { Prim.search (comparing, rules) };

    fn eq(&self, other: &Label) -> bool {
        self.as_bytes() == other.as_bytes()
    }
}

impl Eq for Label {
    ghost laws = { Prim.search (comparing, rules) };
}

impl PartialOrd for Label {
    ghost partial_cmp = { as_partial_cmp (slice_cmp nat_cmp) };

    ghost laws = { partial_order_from_own_ties (Prim.search (comparing, rules)) (Prim.search (comparing, rules)) };

    fn partial_cmp(&self, other: &Label) -> Option<Ordering> {
        Some(self.cmp(other))
    }
}

impl Ord for Label {
    ghost cmp = { slice_cmp nat_cmp };

    ghost total = { Prim.search (comparing, rules) };

    ghost matches_partial_cmp = { Prim.search (comparing, rules) };

    ghost matches_eq = { Prim.search (comparing, rules) };

    fn cmp(&self, other: &Label) -> Ordering {
        self.as_bytes().cmp(other.as_bytes())
    }
}

impl fmt::Debug for Label {
    fn fmt<W: fmt::Write>(&self, f: &mut fmt::Formatter<W>) -> fmt::Result {
        self.bytes.fmt(f)
    }
}

/// A binding that a line made: the label names the object until it is bound again.
#[derive(Drop)]
pub struct Binding {
    /// The label, never `empty`.
    pub label: Label,
    /// The object's id.
    pub id: Id,
}
