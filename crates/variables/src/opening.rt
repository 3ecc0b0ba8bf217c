//! The variables of a device at its start, and copies of them.

ghost use Rattle.std.specs.Prelude.{◌≡◌, ◌<◌, ◌++◌, ◌∷◌, [], IfOk, None, OnOk, is_some, map, nat_eq};
ghost use Rattle.std.specs.Cmp.Lexicographic.{pointwise};
ghost use Rattle.std.specs.List.{IsDistinct, list_any};
ghost use Rattle.std.specs.Map.{lookup};
ghost use Rattle.variables.specs.Bounds.{AreSmall};
ghost use Rattle.variables.specs.Start.{AreApart, cell_row, start, variable_row};

use crate::{StoredCell, Variable, Vars};
use indexmap::IndexMap;
use mms_types::{CellRow, Cells, Key, Memory, NamedCell, NamedCells, Scope, copied_name};
use object_names::{Copied, Named};
use std::alloc::Global;

/// One cell more, of a number that none has.
fn add(cells: &mut IndexMap<u16, StoredCell>, number: u16, cell: StoredCell) -> Result<(), Memory>
    requires { lookup (nat_eq number) cells.old.entries ≡ None }
    ensures cells { OnOk result (cells.new.entries ≡ cells.old.entries ++ (number, cell) ∷ []) }
    ensures small { number < 65536 }
{
    match cells.insert(number, cell) {
        Ok(None) => Ok(()),
        Ok(Some(_)) => unreachable!(),
        Err(_) => Err(Memory::wanting()),
    }
}

/// The cells of a configuration, under their numbers.
#[tactic(auto, using(crate::proofs::Apart::small_more))]
fn numbered(alloc: Global, rows: Vec<CellRow>) -> Result<IndexMap<u16, StoredCell>, Memory>
    requires { IsDistinct nat_eq (map (λ row. row.number) rows.items) }
    ensures cells { IfOk result (λ cells. cells.entries ≡ map cell_row rows.items) }
    ensures small { IfOk result (λ cells. AreSmall cells.entries) }
{
    let mut cells = IndexMap::new(alloc);
    for row in rows {
        let cell = StoredCell {
            of: row.of,
            value: row.value,
            guard: row.guard,
        };
        add(&mut cells, row.number, cell)?;
    }
    Ok(cells)
}

/// The variables of a configuration, under their names.
fn named(alloc: Global, rows: Vec<NamedCell>) -> Result<Named<Variable>, Memory>
    requires { IsDistinct (pointwise nat_eq) (map (λ row. row.name) rows.items) }
    ensures { IfOk result (λ variables. variables ≡ map variable_row rows.items) }
{
    let mut variables = Named::new(alloc);
    for row in rows {
        let key = Key {
            scope: Scope::Vmd,
            item: row.name,
        };
        let variable = Variable {
            cell: row.cell,
            configured: true,
        };
        variables.insert(key, variable)?;
    }
    Ok(variables)
}

/// Whether some cell of a configuration has a guard.
fn has_guard(rows: &[CellRow]) -> bool
    ensures { result ≡ list_any (λ row. is_some row.guard) rows.now }
{
    rows.iter().any(|row| row.guard.is_some())
}

impl Vars {
    /// No cells and no variables. Nothing is allocated.
    pub fn empty(alloc: Global) -> Vars
        ensures { result ≡ record { cells = []; variables = [] } }
    {
        Vars {
            cells: IndexMap::new(alloc),
            variables: Named::new(alloc),
            guarded: false,
        }
    }

    /// The cells and the variables of a configuration, in its order. The one refusal is want of memory.
    #[tactic(auto, using(crate::proofs::Guarded::guard_of_rows))]
    pub fn new(alloc: Global, cells: Cells, variables: NamedCells) -> Result<Vars, Memory>
        requires { AreApart cells variables }
        ensures { IfOk result (λ vars. vars ≡ start cells variables) }
    {
        let guarded = has_guard(cells.as_slice());
        Ok(Vars {
            cells: numbered(alloc, cells.into_vec())?,
            variables: named(alloc, variables.into_vec())?,
            guarded,
        })
    }
}

/// The cells, copied.
fn copied(
    alloc: Global,
    cells: &IndexMap<u16, StoredCell>,
) -> Result<IndexMap<u16, StoredCell>, Memory>
    ensures { IfOk result (λ copies. copies.entries ≡ cells.now.entries) }
{
    let _distinct = cells.len();
    let mut copies = IndexMap::new(alloc);
    for (number, cell) in cells.iter() {
        let copy = StoredCell {
            of: cell.of.copy(alloc)?,
            value: cell.value.copy(alloc)?,
            guard: copied_name(alloc, &cell.guard)?,
        };
        add(&mut copies, *number, copy)?;
    }
    Ok(copies)
}

impl Copied for Variable {
    fn copied(&self, _alloc: Global) -> Result<Variable, Memory> {
        Ok(*self)
    }
}

impl Vars {
    /// A copy, with its rows in the same order. The one refusal is want of memory.
    pub fn copy(&self, alloc: Global) -> Result<Vars, Memory>
        ensures { IfOk result (λ vars. vars ≡ self.now) }
    {
        Ok(Vars {
            cells: copied(alloc, &self.cells)?,
            variables: self.variables.copy(alloc)?,
            guarded: self.guarded,
        })
    }
}
