//! The rules of variables, and the variables that keep them.

ghost use Rattle.std.specs.Prelude.{◌≡◌, IsTrue, IfOk, map};
ghost use Rattle.std.specs.List.{list_all};
ghost use Rattle.mms_types.specs.Spelling.{is_identifier};
ghost use Rattle.cell_config.specs.Cells.{is_number, is_among, are_named, are_variables, named_cell};
ghost use Rattle.cell_config.specs.Seen.{variable_seen};

use crate::cells::cell_number;
use crate::names::identifier;
use crate::rows::VariableText;
use indexmap::IndexSet;
use mms_types::{Edition, Identifier, Memory, NamedCell, NamedCells};
use std::alloc::Global;

/// Whether each name is an identifier of the edition.
pub(crate) fn are_named(variables: &[VariableText<'_>], edition: Edition) -> bool
    ensures { result ≡ are_named edition (map variable_seen variables.now) }
{
    for variable in variables {
        if Identifier::check(variable.name.as_bytes(), edition).is_err() {
            return false;
        }
    }
    true
}

/// Whether the variable's cell is one of those with these numbers.
fn is_among(numbers: &IndexSet<u16>, variable: &VariableText<'_>) -> bool
    ensures { result ≡ is_among numbers.now.keys variable.now.cell }
{
    match cell_number(variable.cell) {
        Some(number) => numbers.contains(&number),
        None => false,
    }
}

/// Whether each variable's cell is there, and no two variables share a name.
pub(crate) fn are_variables(
    alloc: Global,
    numbers: &IndexSet<u16>,
    variables: &[VariableText<'_>],
) -> Result<bool, Memory>
    ensures { IfOk result (λ are. are
        ≡ are_variables numbers.now.keys (map variable_seen variables.now)) }
{
    let mut names = IndexSet::new(alloc);
    for variable in variables {
        if !is_among(numbers, variable) {
            return Ok(false);
        }
        if !names.insert(variable.name)? {
            return Ok(false);
        }
    }
    Ok(true)
}

/// A variable with its name, copied.
fn named_cell(
    alloc: Global,
    variable: &VariableText<'_>,
    edition: Edition,
) -> Result<NamedCell, Memory>
    requires name { IsTrue (is_identifier edition variable.now.name.now) }
    requires cell { IsTrue (is_number variable.now.cell) }
    ensures { IfOk result (λ named. named ≡ named_cell (variable_seen variable.now)) }
{
    Ok(NamedCell {
        name: identifier(alloc, variable.name, edition)?,
        cell: variable.cell as u16,
    })
}

/// The variables, their names copied.
pub(crate) fn named_cells(
    alloc: Global,
    variables: &[VariableText<'_>],
    edition: Edition,
) -> Result<NamedCells, Memory>
    requires names { IsTrue (are_named edition (map variable_seen variables.now)) }
    requires cells { IsTrue (list_all (λ variable. is_number variable.cell)
        (map variable_seen variables.now)) }
    ensures { IfOk result (λ named. named ≡ map named_cell (map variable_seen variables.now)) }
{
    let mut named = NamedCells::new(alloc);
    for variable in variables {
        named.push(named_cell(alloc, variable, edition)?)?;
    }
    Ok(named)
}
