//! The labels of a script, and the ids that they are bound to.

ghost use Rattle.std.specs.Prelude.{◌≡◌, ◌∷◌, [], OnOk, OnErr, find, reverse};
ghost use Rattle.std.specs.Option.{option_copied};
ghost use Rattle.std.specs.FinMap as fin;
ghost use Rattle.std.specs.Map.{lookup};
ghost use Rattle.eden_ids.specs.Sameness.{same_id};
ghost use Rattle.eden_edend.specs.internal.Firsts.{IsNoted};
ghost use Rattle.eden_script.specs.Labels.{newest, bound, still_binds, label_of, is_id};

use eden_ids::Id;
use eden_script::{Binding, Label};
use indexmap::IndexMap;
use std::alloc::{AllocError, Global};
use std::collections::BTreeMap;
use std::marker::Model;

/// Maps each label to what it is bound to.
#[derive(Drop)]
struct Bound {
    ids: BTreeMap<Label, Id>,
}

impl Model for Bound {
    ghost use Rattle.std.specs.Coded.{coded_list, coded_ℕ};
    ghost use Rattle.std.specs.FinMap as fin;
    ghost use Rattle.eden_ids.specs.contracts.id.Id as id;
    ghost use Rattle.eden_edend.specs.internal.BoundMaps.{BoundMap};

    ghost Value = { BoundMap };

    ghost coded = { fin.code (coded_list coded_ℕ) id.the_row.coded };

    ghost view = { λ bound. fin.from_entries bound.ids.entries };
}

impl Bound {
    /// Makes a table that binds nothing.
    fn new(alloc: Global) -> Bound
        ensures { result ≡ fin.empty }
    {
        Bound {
            ids: BTreeMap::new(alloc),
        }
    }

    /// Returns the id that a label is bound to.
    fn get(&self, label: &Label) -> Option<&Id>
        ensures { option_copied result ≡ fin.get self.now label.now }
    {
        self.ids.get(label)
    }

    /// Binds a label to an id. If an allocation fails, nothing changes.
    fn insert(&mut self, label: Label, id: Id) -> Result<(), AllocError>
        ensures ok { OnOk result (self.new ≡ fin.insert self.old label id) }
        ensures err { OnErr result (self.new ≡ self.old) }
    {
        match self.ids.insert(label, id) {
            Ok(_) => {}
            Err(_) => return Err(AllocError),
        }
        Ok(())
    }
}

/// Finds the first binding to each id among those that were made.
#[derive(Drop)]
struct Firsts {
    places: IndexMap<Id, usize>,
}

impl Firsts {
    /// Makes a table that has no binding.
    fn new(alloc: Global) -> Firsts
        ensures { result.places.entries ≡ [] }
    {
        Firsts {
            places: IndexMap::new(alloc),
        }
    }

    /// Returns the place of the first binding to an id.
    fn get(&self, id: Id) -> Option<usize>
        ensures { result ≡ lookup (same_id id) self.now.places.entries }
    {
        match self.places.get(&id) {
            Some(at) => Some(*at),
            None => None,
        }
    }

    /// Notes the place of a binding to an id, unless an earlier one is noted.
    ///
    /// If an allocation fails, nothing is noted.
    fn note(&mut self, id: Id, at: usize) -> Result<(), AllocError>
        ensures ok { OnOk result (IsNoted self.old.places.entries self.new.places.entries id at) }
        ensures err { OnErr result (self.new.places.entries ≡ self.old.places.entries) }
    {
        if self.get(id).is_some() {
            return Ok(());
        }
        match self.places.insert(id, at) {
            Ok(_) => Ok(()),
            Err(_) => Err(AllocError),
        }
    }
}

/// Holds what each label of a script is bound to.
///
/// A look-up takes a time that grows with the logarithm of the number of bindings.
///
/// Its value is the list of the bindings that were made, the newest first.
#[derive(Drop)]
pub struct Labels {
    // The oldest first.
    made: Vec<Binding>,
    bound: Bound,
    firsts: Firsts,
}

impl Model for Labels {
    ghost use Rattle.std.specs.Prelude.{◌≡◌, List, reverse};
    ghost use Rattle.eden_script.specs.declared.label.Binding.{Binding};
    ghost use Rattle.eden_edend.specs.internal.BoundMaps.{bound_map};
    ghost use Rattle.eden_edend.specs.internal.Firsts.{AreFirsts};

    ghost Value = { List Binding };

    ghost view = { λ labels. reverse labels.made.items };

    ghost invariant = { λ labels. (labels.bound ≡ bound_map (reverse labels.made.items))
        × AreFirsts labels.firsts.places.entries labels.made.items };
}

/// Returns true if an id was found, and is this one.
fn is_id(found: Option<Id>, id: Id) -> bool
    ensures { result ≡ is_id found id }
{
    match found {
        Some(found) => found == id,
        None => false,
    }
}

impl Labels {
    /// Makes a table without bindings.
    ///
    /// Does not allocate.
    pub fn new(alloc: Global) -> Labels
        ensures { result ≡ [] }
    {
        Labels {
            made: Vec::new(alloc),
            bound: Bound::new(alloc),
            firsts: Firsts::new(alloc),
        }
    }

    /// Returns the id of the newest binding of a label.
    #[tactic(auto, using(crate::proofs::LabelLemmas::get_bound_map))]
    fn newest(&self, label: &Label) -> Option<Id>
        ensures { result ≡ newest self.now label.now }
    {
        match self.bound.get(label) {
            Some(id) => Some(*id),
            None => None,
        }
    }

    /// Returns what a label is bound to.
    ///
    /// The label `empty` is bound to the empty commit. Does not allocate.
    pub fn get(&self, label: &Label) -> Option<Id>
        ensures { result ≡ bound self.now label.now }
    {
        if label.is_empty() {
            Some(Id::ZERO)
        } else {
            self.newest(label)
        }
    }

    /// Binds a label to an id, from now on.
    ///
    /// A label that `Label::read_to_bind` read is not `empty`. For that one `get` returns the empty
    /// commit, whatever it is bound to.
    ///
    /// # Errors
    ///
    /// - `AllocError` if an allocation fails; nothing changes.
    #[tactic(auto, using(crate::proofs::LabelLemmas::bound_map_more, crate::proofs::LabelLemmas::reverse_one))]
    pub fn bind(&mut self, label: Label, id: Id) -> Result<(), AllocError>
        ensures binds { OnOk result (self.new ≡ record { label = label; id = id } ∷ self.old) }
        ensures unchanged { OnErr result (self.new ≡ self.old) }
    {
        let key = label.clone()?;
        self.made.reserve(1)?;
        self.firsts.note(id, self.made.len())?;
        self.bound.insert(key, id)?;
        self.made.push_reserved(Binding { label, id });
        Ok(())
    }

    /// Returns true if a binding to this id is its label's newest.
    fn still_binds(&self, binding: &Binding, id: Id) -> bool
        ensures { result ≡ still_binds self.now id binding.now }
    {
        binding.id == id && is_id(self.newest(&binding.label), id)
    }

    /// Returns the first binding to an id that still holds.
    #[tactic(auto, using(crate::proofs::LabelLemmas::turned_twice))]
    fn first_binding(&self, id: Id) -> Option<&Binding>
        ensures { option_copied result ≡ find (still_binds self.now id) (reverse self.now) }
    {
        match self.firsts.get(id) {
            Some(at) => self.made[at..]
                .iter()
                .find(|binding| self.still_binds(binding, id)),
            None => None,
        }
    }

    /// Returns the first label that was ever bound to an id and still is.
    ///
    /// The search begins at the first binding to the id. It goes on only if that label was bound to
    /// another id since. Does not allocate.
    pub fn first_bound(&self, id: Id) -> Option<&Label>
        ensures { option_copied result ≡ label_of self.now id }
    {
        match self.first_binding(id) {
            Some(binding) => Some(&binding.label),
            None => None,
        }
    }
}
