ghost use Rattle.std.specs.Prelude.{◌≡◌, IfSome};
ghost use Rattle.std.specs.Option.{option_copied, option_map};
ghost use Rattle.variables.specs.Rows.{are_there, cell_at, cell_named, number_named, variable_named};

use crate::{StoredCell, Variable};
use indexmap::IndexMap;
use mms_types::{ObjectName, Spec};
use object_names::Named;
use std::marker::Model;

/// The variables of a device. Contracts see two lists: the cells with their numbers, and the named variables with
/// their names, each in the order in which they were made. Cells are found by number and names by hashing.
pub struct Vars {
    pub(crate) cells: IndexMap<u16, StoredCell>,
    pub(crate) variables: Named<Variable>,
    /// Whether some cell has a guard.
    pub(crate) guarded: bool,
}

impl Model for Vars {
    ghost use Rattle.variables.specs.Rows.{Rows};
    ghost use Rattle.std.specs.Prelude.{◌≤◌, ◌≡◌, length};
    ghost use Rattle.variables.specs.Bounds.{AreSmall, has_guard};

    ghost Value = { Rows };

    ghost use Rattle.std.specs.Coded.{codes};
    ghost use Rattle.variables.specs.contracts.rows.StoredCell as cell;

    ghost coded = { Prim.hlevel (codes, cell.the_row.coded) };

    ghost view = { λ vars. record { cells = vars.cells.entries; variables = vars.variables } };

    ghost invariant = { λ vars. AreSmall vars.cells.entries × (length vars.variables ≤ 4096)
        × (vars.guarded ≡ has_guard vars.cells.entries) };
}

impl Vars {
    /// The variable that a client names so. None where there is none.
    pub(crate) fn variable(&self, client: u32, name: &ObjectName) -> Option<&Variable>
        ensures { option_copied result ≡ variable_named client name.now self.now }
    {
        self.variables.named(client, name)
    }

    /// The cell of that number. Where cells are numbered from 0 in their order, it stands at the place of its number;
    /// else it is found by hashing.
    pub(crate) fn cell(&self, number: u16) -> Option<&StoredCell>
        ensures { option_copied result ≡ cell_at number self.now }
    {
        if let Some((other, cell)) = self.cells.get_index(usize::from(number)) {
            if *other == number {
                return Some(cell);
            }
        }
        self.cells.get(&number)
    }

    /// The cell of that address, with its number. No cell has a number of more than 16 bits.
    #[tactic(auto, using(crate::proofs::Cells::beyond))]
    pub(crate) fn addressed(&self, address: u32) -> Option<(u16, &StoredCell)>
        ensures cell { option_map (λ found. found.1.now) result ≡ cell_at address self.now }
        ensures number { IfSome result (λ found. found.0 ≡ address) }
    {
        let _ = &self.cells;
        let number = u16::try_from(address).ok()?;
        let cell = self.cell(number)?;
        Some((number, cell))
    }

    /// The cell of that address.
    pub(crate) fn at(&self, address: u32) -> Option<&StoredCell>
        ensures { option_copied result ≡ cell_at address self.now }
    {
        let (_, cell) = self.addressed(address)?;
        Some(cell)
    }

    /// The cell that a client's specification names, with its number. None where the name or the cell is missing.
    pub(crate) fn found(&self, client: u32, spec: &Spec) -> Option<(u16, &StoredCell)>
        ensures cell { option_map (λ found. found.1.now) result
            ≡ cell_named client spec.now self.now }
        ensures number { option_map (λ found. found.0) result
            ≡ number_named client spec.now self.now }
    {
        match spec {
            Spec::Address(address) => self.addressed(*address),
            Spec::Name(name) => {
                let number = self.variable(client, name)?.cell;
                let cell = self.cell(number)?;
                Some((number, cell))
            }
        }
    }

    /// The number of the cell that a client's specification names. None exactly where the name or the cell is missing.
    pub fn cell_of(&self, by: u32, of: &Spec) -> Option<u16>
        ensures { result ≡ number_named by of.now self.now }
    {
        let (number, _) = self.found(by, of)?;
        Some(number)
    }

    /// Whether each of the variables that a client specifies has its name and its cell.
    pub fn are_there(&self, client: u32, variables: &[Spec]) -> bool
        ensures { result ≡ are_there client variables.now self.now }
    {
        variables
            .iter()
            .all(|spec| self.found(client, spec).is_some())
    }
}

impl Drop for Vars {
    fn drop(self) {
        let Vars {
            cells: _cells,
            variables: _variables,
            guarded: _,
        } = self;
    }
}
