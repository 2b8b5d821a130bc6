//! The labels that commits have before a script binds any.

ghost use Rattle.std.specs.Prelude.{◌≡◌, ◌++◌, OnErr, OnOk};
ghost use Rattle.eden_edend.specs.OwnLabels.{BindsSome, own_bindings};

use crate::objects::Objects;
use eden_ids::{Id, NoMemory};
use eden_script::Label;

impl Objects {
    /// Binds each of these ids that is a commit's to its own label, the first 32 of its digits.
    ///
    /// So a line can name commits that no line put. The other ids are passed over. `NoMemory` if an
    /// allocation fails; then some first ones are bound.
    #[tactic(auto, using(crate::proofs::OwnBindings::none_bound, crate::proofs::OwnBindings::one_bound, crate::proofs::OwnBindings::none_more, crate::proofs::OwnBindings::some_bound))]
    pub fn name_commits(&mut self, ids: &[Id]) -> Result<(), NoMemory>
        ensures labels { OnOk result (self.new.labels ≡ own_bindings self.old.store ids.now ++ self.old.labels) }
        ensures err { OnErr result (BindsSome self.old.store ids.now self.old.labels self.new.labels) }
        ensures store { self.new.store ≡ self.old.store }
    {
        let alloc = self.store.allocator();
        for id in ids {
            if self.store.has_commit(*id) {
                let label = Label::of_id(alloc, *id)?;
                self.labels.bind(label, *id)?;
            }
        }
        Ok(())
    }
}
