//! Write: what becomes of variables, each looked up once, and the cells' new values, which are put into them later.

ghost use Rattle.std.specs.Prelude.{◌≡◌, ◌≢◌, ◌++◌, Bool, IfOk, List, OnErr, OnOk, Some, [], slice_get, true};
ghost use Rattle.std.specs.List.{zip};
ghost use Rattle.std.specs.Option.{option_copied, option_map};
ghost use Rattle.variables.specs.Access.{change_cell, flagged, flags_of, guard_named, guards, is_open, is_owned, result_of, taken_by, writes};
ghost use Rattle.variables.specs.Bounds.{AreSmall, has_guard};
ghost use Rattle.variables.specs.NewValues.{is_success, new_of, with_data, with_new_value, with_new_values};

use crate::{NewValue, NewValues, StoredCell, Vars};
use indexmap::IndexMap;
use mms_types::{
    Data, DataAccessError, Identifier, Listed, Memory, Spec, WriteResult, WriteResults,
};
use std::alloc::Global;

/// Of which guards a client owns a token.
pub trait OwnsGuards {
    ghost use Rattle.std.specs.Prelude.{ℕ};

    ghost owns: { Self → List ℕ → Bool };

    /// Whether it owns a token of that guard.
    fn owns(&self, guard: &Identifier) -> bool
        ensures { result ≡ owns self.now guard.now };
}

/// Whether the client owns a token of a variable's guard, where it has one.
fn is_owned<O: OwnsGuards>(by: &O, guard: Option<&Identifier>) -> bool
    ensures { result ≡ is_owned (O.owns by.now) (option_copied guard.entry) }
{
    match guard {
        None => false,
        Some(guard) => by.owns(guard),
    }
}

/// Whether the cell has no guard, or the client owns a token of it.
fn is_open(owns: bool, cell: &StoredCell) -> bool
    ensures { result ≡ is_open owns cell.now }
{
    cell.guard.is_none() || owns
}

/// What becomes of data for a cell.
fn taken(cell: &StoredCell, owns: bool, value: &Data) -> WriteResult
    ensures { result ≡ taken_by owns value.now (Some cell.now) }
{
    if !is_open(owns, cell) {
        return WriteResult::Failure(DataAccessError::ObjectAccessDenied);
    }
    if value.matches(&cell.of) {
        WriteResult::Success
    } else {
        WriteResult::Failure(DataAccessError::TypeInconsistent)
    }
}

/// Whether a variable takes its data.
fn is_success(told: &WriteResult) -> bool
    ensures { result ≡ is_success told.now }
{
    match told {
        WriteResult::Success => true,
        WriteResult::Failure(_) => false,
    }
}

/// Whether the cell of that number stands at the place of its number.
fn is_in_place(cells: &IndexMap<u16, StoredCell>, number: u16) -> bool
    ensures { result ≡ true
        → option_map (λ row. row.0) (slice_get cells.now.entries number) ≡ Some number }
{
    match cells.get_index(usize::from(number)) {
        None => false,
        Some((other, _)) => *other == number,
    }
}

/// Puts data into the cell of that number, which stands at the place of its number.
fn put_in_place(cells: &mut IndexMap<u16, StoredCell>, number: u16, value: Data)
    requires place { option_map (λ row. row.0) (slice_get cells.old.entries number) ≡ Some number }
    ensures { cells.new.entries ≡ change_cell number (with_data value) cells.old.entries }
{
    if let Some(cell) = cells.get_index_mut(usize::from(number)) {
        cell.value = value;
    }
}

/// Puts data into the cell of that number, which is found by hashing, where it is there.
fn put_by_number(cells: &mut IndexMap<u16, StoredCell>, number: u16, value: Data)
    ensures { cells.new.entries ≡ change_cell number (with_data value) cells.old.entries }
{
    if let Some(cell) = cells.get_mut(&number) {
        cell.value = value;
    }
}

/// Puts data into the cell of that number, where it is there. All cells keep their numbers and their guards.
fn put(cells: &mut IndexMap<u16, StoredCell>, number: u16, value: Data)
    ensures changed { cells.new.entries ≡ change_cell number (with_data value) cells.old.entries }
    ensures small { AreSmall cells.old.entries → AreSmall cells.new.entries }
    ensures guards { has_guard cells.new.entries ≡ has_guard cells.old.entries }
{
    if is_in_place(cells, number) {
        put_in_place(cells, number, value);
    } else {
        put_by_number(cells, number, value);
    }
}

impl Vars {
    /// What becomes of a variable that is to be written; where it takes its data, they are put, copied, behind the new
    /// values.
    fn result_of<O: OwnsGuards>(
        &self,
        alloc: Global,
        client: u32,
        by: &O,
        spec: &Spec,
        value: &Data,
        new: &mut NewValues,
    ) -> Result<WriteResult, Memory>
        ensures told { IfOk result (λ told. told ≡ result_of client self.now (
          is_owned (O.owns by.now) (guard_named client self.now spec.now),
          (spec.now, value.now),
        )) }
        ensures values { OnOk result (new.new ≡ new.old ++ new_of client self.now (
          is_owned (O.owns by.now) (guard_named client self.now spec.now),
          (spec.now, value.now),
        )) }
    {
        let Some((cell, found)) = self.found(client, spec) else {
            return Ok(WriteResult::Failure(DataAccessError::ObjectNonExistent));
        };
        let told = taken(found, is_owned(by, found.guard.as_ref()), value);
        if is_success(&told) {
            let value = value.copy(alloc)?;
            new.push(NewValue { cell, value })?;
        }
        Ok(told)
    }

    /// What becomes of variables, each beside its data, where a client writes them one after the other: a variable
    /// that is missing is told so, then one that has a guard of which the client owns no token, then data that are not
    /// of its type; and the new values by which all is as after that write. Nothing is written yet. The one refusal is
    /// want of memory, only where there are variables.
    pub fn results<O: OwnsGuards>(
        &self,
        alloc: Global,
        client: u32,
        by: &O,
        variables: &[Spec],
        values: &[Data],
    ) -> Result<(WriteResults, NewValues), Memory>
        ensures told { IfOk result (λ told. told.0 ≡ (writes client
            (flagged (flags_of (O.owns by.now) (guards client variables.now self.now))
            (zip variables.now values.now)) self.now).1) }
        ensures values { IfOk result (λ told. with_new_values told.1 self.now ≡ (writes client
            (flagged (flags_of (O.owns by.now) (guards client variables.now self.now))
            (zip variables.now values.now)) self.now).0) }
        ensures wants { OnErr result (variables.now ≢ []) }
    {
        let _distinct = self.cells.len();
        let mut results = Listed::new(alloc);
        let mut new = Listed::new(alloc);
        for (spec, value) in variables.iter().zip(values) {
            results.push(self.result_of(alloc, client, by, spec, value, &mut new)?)?;
        }
        Ok((results, new))
    }

    /// Puts a new value into its cell.
    fn write_one(&mut self, new: NewValue)
        ensures { self.new ≡ with_new_value new self.old }
    {
        let NewValue { cell, value } = new;
        put(&mut self.cells, cell, value);
    }

    /// Puts new values into their cells, one after the other. It takes no memory.
    pub fn write(&mut self, values: NewValues)
        ensures { self.new ≡ with_new_values values self.old }
    {
        for new in values.into_vec() {
            self.write_one(new);
        }
    }
}
