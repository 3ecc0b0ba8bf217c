ghost use Rattle.std.specs.Prelude.{◌≡◌, IfOk};
ghost use Rattle.std.specs.Option.{option_copied};
ghost use Rattle.variables.specs.Start.{AreApart};
ghost use Rattle.variable_services.specs.Services.{accessed_in, configured, lost, no_variables};

use mms_types::{Access, Cells, Memory, NamedCells, Spec};
use std::alloc::Global;
use variable_lists::Lists;
use variables::Vars;

/// The variables of a device and their lists.
pub struct VariableTables {
    /// Cells and named variables.
    pub vars: Vars,
    /// Lists of variables.
    pub lists: Lists,
}

/// The variables that an access names: those that it specifies, or those of a list. None where the list is missing.
pub(crate) fn accessed<'a>(lists: &'a Lists, client: u32, access: &'a Access) -> Option<&'a [Spec]>
    ensures { option_copied result ≡ accessed_in client access.now lists.now }
{
    match access {
        Access::Specs(variables) => Some(variables.as_slice()),
        Access::List(name) => lists.members(client, name),
    }
}

impl VariableTables {
    /// No cell, no variable and no list. Nothing is allocated.
    pub fn empty(alloc: Global) -> VariableTables
        ensures { result ≡ no_variables }
    {
        VariableTables {
            vars: Vars::empty(alloc),
            lists: Lists::new(alloc),
        }
    }

    /// The cells and the variables of a configuration, and no list. The one refusal is want of memory.
    pub fn new(alloc: Global, cells: Cells, variables: NamedCells) -> Result<VariableTables, Memory>
        requires { AreApart cells variables }
        ensures { IfOk result (λ tables. tables ≡ configured cells variables) }
    {
        Ok(VariableTables {
            vars: Vars::new(alloc, cells, variables)?,
            lists: Lists::new(alloc),
        })
    }

    /// A client is lost: the names of its association are removed. It takes no memory.
    pub fn lose(&mut self, client: u32)
        ensures { self.new ≡ lost client self.old }
    {
        self.vars.lose(client);
        self.lists.lose(client);
    }

    /// A copy. The one refusal is want of memory.
    pub fn copy(&self, alloc: Global) -> Result<VariableTables, Memory>
        ensures { IfOk result (λ tables. tables ≡ self.now) }
    {
        Ok(VariableTables {
            vars: self.vars.copy(alloc)?,
            lists: self.lists.copy(alloc)?,
        })
    }
}

impl Drop for VariableTables {
    fn drop(self) {
        let VariableTables {
            vars: _vars,
            lists: _lists,
        } = self;
    }
}
