//! Read, and the guards of variables.

ghost use Rattle.std.specs.Prelude.{◌≡◌, ◌≢◌, IfOk, OnErr, []};
ghost use Rattle.std.specs.Option.{option_copied};
ghost use Rattle.variables.specs.Access.{are_guarded, guard_named, read_of, reads};

use crate::Vars;
use mms_types::{AccessResult, AccessResults, DataAccessError, Identifier, Listed, Memory, Spec};
use std::alloc::Global;

impl Vars {
    /// The data of a variable, copied, or that it is missing.
    fn read_one(&self, alloc: Global, client: u32, spec: &Spec) -> Result<AccessResult, Memory>
        ensures { IfOk result (λ answer. answer ≡ read_of client self.now spec.now) }
    {
        match self.found(client, spec) {
            None => Ok(AccessResult::Failure(DataAccessError::ObjectNonExistent)),
            Some((_, cell)) => Ok(AccessResult::Success(cell.value.copy(alloc)?)),
        }
    }

    /// What a client reads of variables, in their order: the data of each, copied, or that it is missing. The one
    /// refusal is want of memory, only where there are variables.
    pub fn reads(
        &self,
        alloc: Global,
        client: u32,
        variables: &[Spec],
    ) -> Result<AccessResults, Memory>
        ensures told { IfOk result (λ answers. answers ≡ reads client variables.now self.now) }
        ensures wants { OnErr result (variables.now ≢ []) }
    {
        let mut answers = Listed::new(alloc);
        for spec in variables {
            answers.push(self.read_one(alloc, client, spec)?)?;
        }
        Ok(answers)
    }
}

impl Vars {
    /// The semaphore of the VMD that guards the cell that a client's specification names. None exactly where the name
    /// or the cell is missing, or the cell has no guard.
    pub fn guard_of(&self, client: u32, spec: &Spec) -> Option<&Identifier>
        ensures { option_copied result ≡ guard_named client self.now spec.now }
    {
        match self.found(client, spec) {
            None => None,
            Some((_, cell)) => cell.guard.as_ref(),
        }
    }

    /// Whether one of the variables that a client specifies has a guard. Where no cell has one, none is looked up.
    #[tactic(auto, using(crate::proofs::Guarded::none_guarded))]
    pub fn are_guarded(&self, client: u32, variables: &[Spec]) -> bool
        ensures { result ≡ are_guarded client variables.now self.now }
    {
        let _ = &self.cells;
        self.guarded && self.some_guarded(client, variables)
    }

    /// Whether any of these variables is of a cell whose guard keeps the client out, each looked up by its name.
    fn some_guarded(&self, client: u32, variables: &[Spec]) -> bool
        ensures { result ≡ are_guarded client variables.now self.now }
    {
        variables
            .iter()
            .any(|spec| self.guard_of(client, spec).is_some())
    }
}
