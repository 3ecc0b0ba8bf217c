//! The rules of cells, and the cells that keep them.

ghost use Rattle.std.specs.Prelude.{◌≡◌, ◌≤◌, is_some, IsTrue, IfOk, IfSome, map, option_map};
ghost use Rattle.std.specs.List.{list_all};
ghost use Rattle.std.specs.Option.{option_copied};
ghost use Rattle.std.specs.Result.{result_ok};
ghost use Rattle.hex.specs.Hex.{decode_of};
ghost use Rattle.cell_config.specs.Cells.{is_guard, is_number, number_of, numbers_of, are_guarded, are_numbered, hex_says, type_told, value_told, fits, are_typed, cell_row};
ghost use Rattle.cell_config.specs.Seen.{cell_seen};

use crate::names::identifier;
use crate::numbers::between;
use crate::rows::CellText;
use ber_forms::Unread;
use hex::FromHexError;
use indexmap::IndexSet;
use mms_types::{CellRow, Cells, Edition, Identifier, Memory};
use pdu_data::{DataValue, TypeSpecification};
use pdu_names::{Formed, read_form};
use std::alloc::Global;

/// The number, where a cell may have it.
pub(crate) fn cell_number(number: i64) -> Option<u16>
    ensures found { is_some result ≡ is_number number }
    ensures value { IfSome result (λ n. n ≡ number_of number) }
{
    Some(between(0, 4095, number)? as u16)
}

/// The number of a cell, where it may have that.
fn number(cell: &CellText<'_>) -> Option<u16>
    ensures found { is_some result ≡ is_number cell.now.number }
    ensures value { IfSome result (λ n. n ≡ number_of cell.now.number) }
{
    cell_number(cell.number)
}

/// The numbers of the cells, in their order. None where one is out of range, or two cells share
/// one.
pub(crate) fn numbers(
    alloc: Global,
    cells: &[CellText<'_>],
) -> Result<Option<IndexSet<u16>>, Memory>
    ensures numbered { IfOk result (λ found. is_some found
        ≡ are_numbered (map cell_seen cells.now)) }
    ensures numbers { IfOk result (λ found. IfSome found
        (λ set. set.keys ≡ numbers_of (map cell_seen cells.now))) }
{
    let mut numbers = IndexSet::new(alloc);
    for cell in cells {
        let Some(number) = number(cell) else {
            return Ok(None);
        };
        if !numbers.insert(number)? {
            return Ok(None);
        }
    }
    Ok(Some(numbers))
}

/// Whether the name of a guard is an identifier of the edition, where there is one.
fn is_guard(guard: Option<&str>, edition: Edition) -> bool
    ensures { result ≡ is_guard edition (option_copied guard.entry) }
{
    match guard {
        None => true,
        Some(name) => Identifier::check(name.as_bytes(), edition).is_ok(),
    }
}

/// Whether the guards of the cells have names that are identifiers of the edition.
pub(crate) fn are_guarded(cells: &[CellText<'_>], edition: Edition) -> bool
    ensures { result ≡ are_guarded edition (map cell_seen cells.now) }
{
    for cell in cells {
        if !is_guard(cell.guard, edition) {
            return false;
        }
    }
    true
}

/// The name of a guard, copied.
fn guard(alloc: Global, guard: Option<&str>, edition: Edition) -> Result<Option<Identifier>, Memory>
    requires { IsTrue (is_guard edition (option_copied guard)) }
    ensures { IfOk result (λ found. found ≡ option_copied guard.entry) }
{
    match guard {
        None => Ok(None),
        Some(name) => Ok(Some(identifier(alloc, name, edition)?)),
    }
}

/// The octets that pairs of digits tell. None where they are no pairs of digits.
fn octets(alloc: Global, hex: &str) -> Result<Option<Vec<u8>>, Memory>
    ensures { IfOk result (λ found. option_map (λ octets. octets.items) found
        ≡ result_ok (decode_of hex.now)) }
{
    match hex::decode(alloc, hex.as_bytes()) {
        Ok(octets) => Ok(Some(octets)),
        Err(FromHexError::OutOfMemory) => Err(Memory::wanting()),
        Err(_) => Ok(None),
    }
}

/// What hex says of a form. None where it is no pairs of digits, or the octets are not of the form
/// or nest too deep.
fn hex_says<F: Formed>(
    alloc: Global,
    hex: &str,
    edition: Edition,
) -> Result<Option<F::Item>, Memory>
    ensures { IfOk result (λ found. found ≡ hex_says F.kind edition hex.now) }
{
    let Some(octets) = octets(alloc, hex)? else {
        return Ok(None);
    };
    match read_form::<F>(alloc, &octets, edition) {
        Ok(item) => Ok(Some(item)),
        Err(Unread::Memory) => Err(Memory::wanting()),
        Err(_) => Ok(None),
    }
}

/// A cell with its type and its value. None where one of them is missing, or the value is not of
/// the type.
fn read_cell(
    alloc: Global,
    cell: &CellText<'_>,
    edition: Edition,
) -> Result<Option<CellRow>, Memory>
    requires number { IsTrue (is_number cell.now.number) }
    requires guard { IsTrue (is_guard edition (option_copied cell.now.guard)) }
    ensures fits { IfOk result (λ found. is_some found
        ≡ fits (type_told edition cell.now.of.now) (value_told edition cell.now.value.now)) }
    ensures row { IfOk result (λ found. IfSome found
        (λ row. row ≡ cell_row edition (cell_seen cell.now))) }
{
    let Some(of) = hex_says::<TypeSpecification>(alloc, cell.of, edition)? else {
        return Ok(None);
    };
    let Some(value) = hex_says::<DataValue>(alloc, cell.value, edition)? else {
        return Ok(None);
    };
    if !value.matches(&of) {
        return Ok(None);
    }
    let number = cell.number as u16;
    let guard = guard(alloc, cell.guard, edition)?;
    Ok(Some(CellRow {
        number,
        of,
        value,
        guard,
    }))
}

/// The cells. None where the type or the value of one is missing, or a value is not of its type.
pub(crate) fn read_cells(
    alloc: Global,
    cells: &[CellText<'_>],
    edition: Edition,
) -> Result<Option<Cells>, Memory>
    requires numbers { IsTrue (list_all (λ cell. is_number cell.number) (map cell_seen cells.now)) }
    requires guards { IsTrue (are_guarded edition (map cell_seen cells.now)) }
    ensures typed { IfOk result (λ found. is_some found
        ≡ are_typed edition (map cell_seen cells.now)) }
    ensures rows { IfOk result (λ found. IfSome found
        (λ rows. rows ≡ map (cell_row edition) (map cell_seen cells.now))) }
{
    let mut rows = Cells::new(alloc);
    for cell in cells {
        let Some(row) = read_cell(alloc, cell, edition)? else {
            return Ok(None);
        };
        rows.push(row)?;
    }
    Ok(Some(rows))
}
