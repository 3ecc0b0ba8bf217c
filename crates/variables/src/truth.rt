//! Cells that are boolean, as event conditions watch them.

ghost use Rattle.std.specs.Prelude.{◌≡◌};
ghost use Rattle.variables.specs.Truth.{cell_fact, truth_at, truth_of};

use crate::Vars;
use mms_types::{CellFact, Data, DataKind, Spec};

/// The truth value that a value is.
fn truth_of(value: &Data) -> Option<bool>
    ensures { result ≡ truth_of value.now }
{
    match value.kind {
        DataKind::Boolean(is_true) => Some(is_true),
        _ => None,
    }
}

impl Vars {
    /// What the cell of that number says. None exactly where it is missing or isn't boolean. It takes no memory.
    pub fn is_true(&self, cell: u16) -> Option<bool>
        ensures { result ≡ truth_at cell self.now }
    {
        truth_of(&self.cell(cell)?.value)
    }

    /// What becomes of the cell that a client's specification names, for a condition that is to watch it: `Missing`
    /// exactly where the name or the cell is missing, `Other` exactly where the cell isn't boolean. It takes no memory.
    pub fn cell_fact(&self, client: u32, of: &Spec) -> CellFact
        ensures { result ≡ cell_fact client of.now self.now }
    {
        let Some(number) = self.cell_of(client, of) else {
            return CellFact::Missing;
        };
        match self.is_true(number) {
            None => CellFact::Other,
            Some(is_true) => CellFact::Found { number, is_true },
        }
    }
}
