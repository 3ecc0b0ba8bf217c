//! The cells of a device, and the names and the pools that it is configured with.

ghost use Rattle.std.specs.Prelude.{◌≡◌, IfOk};

use crate::{Data, Identifier, Identifiers, Listed, Memory, TypeSpec, copied_name};
use std::alloc::Global;

/// A cell, as it is configured: a variable that has an address and no name of its own (ISO 9506-1, unnamed variable).
#[derive(Drop)]
pub struct CellRow {
    /// Its number, from 0 to 4,095 in a configuration: the address by which PDUs name it.
    pub number: u16,
    /// Its type, which stays.
    pub of: TypeSpec,
    /// Its value at the start.
    pub value: Data,
    /// The semaphore of the VMD of which a client has to own a token that writes it, where it is guarded. It need not
    /// be there.
    pub guard: Option<Identifier>,
}

/// Cells in order. Contracts see the list of them.
pub type Cells = Listed<CellRow>;

/// A variable of the VMD that is configured, and can't be deleted (ISO 9506-1, named variable).
#[derive(Drop)]
pub struct NamedCell {
    /// Its name.
    pub name: Identifier,
    /// The number of its cell.
    pub cell: u16,
}

/// Configured variables in order. Contracts see the list of them.
pub type NamedCells = Listed<NamedCell>;

/// A pool of the VMD that is configured, and can't be deleted (ISO 9506-1, pool semaphore).
#[derive(Drop)]
pub struct PoolRow {
    /// Its name.
    pub name: Identifier,
    /// The names of its tokens, from 1 to 256 in a configuration, in the order of the text.
    pub tokens: Identifiers,
}

/// Configured pools in order. Contracts see the list of them.
pub type Pools = Listed<PoolRow>;

impl Listed<CellRow> {
    /// A copy. Memory where memory runs out.
    pub fn copy(&self, alloc: Global) -> Result<Cells, Memory>
        ensures { IfOk result (λ cells. cells ≡ self.now) }
    {
        let mut cells = Listed::new(alloc);
        for cell in self.as_slice() {
            cells.push(CellRow {
                number: cell.number,
                of: cell.of.copy(alloc)?,
                value: cell.value.copy(alloc)?,
                guard: copied_name(alloc, &cell.guard)?,
            })?;
        }
        Ok(cells)
    }
}

impl Listed<NamedCell> {
    /// A copy. Memory where memory runs out.
    pub fn copy(&self, alloc: Global) -> Result<NamedCells, Memory>
        ensures { IfOk result (λ variables. variables ≡ self.now) }
    {
        let mut variables = Listed::new(alloc);
        for variable in self.as_slice() {
            variables.push(NamedCell {
                name: variable.name.copy(alloc)?,
                cell: variable.cell,
            })?;
        }
        Ok(variables)
    }
}

impl Listed<PoolRow> {
    /// A copy. Memory where memory runs out.
    pub fn copy(&self, alloc: Global) -> Result<Pools, Memory>
        ensures { IfOk result (λ pools. pools ≡ self.now) }
    {
        let mut pools = Listed::new(alloc);
        for pool in self.as_slice() {
            pools.push(PoolRow {
                name: pool.name.copy(alloc)?,
                tokens: pool.tokens.copy(alloc)?,
            })?;
        }
        Ok(pools)
    }
}
