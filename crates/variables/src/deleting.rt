//! Names that are deleted, and those that go with their client.

ghost use Rattle.std.specs.Prelude.{◌≡◌};
ghost use Rattle.object_names.specs.Selected.{selected};
ghost use Rattle.variables.specs.Definitions.{deletion, is_fixed, without, without_client};

use crate::{Variable, Vars};
use mms_types::{Deleted, Scope};
use object_names::{Deletable, Selection};

impl Deletable for Variable {
    ghost is_fixed = { is_fixed };

    fn is_fixed(&self) -> bool {
        self.configured
    }
}

impl Vars {
    /// How many variables a selection has, and how many of them it deletes.
    pub fn deletion(&self, selection: &Selection<'_>) -> Deleted
        ensures { result ≡ deletion (selected selection.entry.now) self.now }
    {
        let _ = &self.cells;
        self.variables.count(selection)
    }

    /// Deletes the variables that a selection has, but for those that were configured. It takes no memory.
    #[tactic(auto, using(object_names::proofs::Fewer::still_few))]
    pub fn delete(&mut self, selection: &Selection<'_>)
        ensures { self.new ≡ without (selected selection.entry.now) self.old }
    {
        self.variables.delete(selection);
    }

    /// A client is lost: the variables of its association are removed. It takes no memory.
    #[tactic(auto, using(object_names::proofs::Fewer::still_few))]
    pub fn lose(&mut self, client: u32)
        ensures { self.new ≡ without_client client self.old }
    {
        self.variables.remove_all_of(&Scope::Association(client));
    }
}
