//! The configuration.

ghost use Rattle.std.specs.Prelude.{◌≡◌, ◌≤◌, ◌∷◌, [], IfOk};
ghost use Rattle.mms_types.specs.Spelling.{is_identifier};
ghost use Rattle.mms_types.specs.declared.identifier.Edition.TheVariants.{One};
ghost use Rattle.cell_config.specs.Said.{IsConfig};
ghost use Rattle.cell_stress.specs.Stress.{cell, stress_config, variable};

use crate::requests::name;
use cell_config::Config;
use mms_types::{
    CellRow, Cells, Data, DataKind, Edition, Memory, Moment, NamedCell, NamedCells, Octets, Pools,
    TypeKind, TypeSpec,
};
use std::alloc::Global;

/// The cells.
fn cells(alloc: Global) -> Result<Cells, Memory>
    ensures { IfOk result (λ cells. cells ≡ cell ∷ []) }
{
    let mut cells = Cells::new(alloc);
    cells.push(CellRow {
        number: 0,
        of: TypeSpec {
            kind: TypeKind::Integer(32),
        },
        value: Data {
            kind: DataKind::Integer(0),
        },
        guard: None,
    })?;
    Ok(cells)
}

/// The variables.
fn variables(alloc: Global) -> Result<NamedCells, Memory>
    ensures { IfOk result (λ variables. variables ≡ variable ∷ []) }
{
    let mut variables = NamedCells::new(alloc);
    variables.push(NamedCell {
        name: name(alloc, b"V")?,
        cell: 0,
    })?;
    Ok(variables)
}

/// The configuration of the trial with so many clients.
pub fn stress_config(alloc: Global, clients: u32) -> Result<Config, Memory>
    ensures config { IfOk result (λ config. config ≡ stress_config clients) }
{
    Ok(Config {
        edition: Edition::One,
        clients,
        start: Moment(0),
        vendor: Octets::from_slice(alloc, b"VMD")?,
        model: Octets::from_slice(alloc, b"CELL")?,
        revision: Octets::from_slice(alloc, b"1")?,
        cells: cells(alloc)?,
        variables: variables(alloc)?,
        pools: Pools::new(alloc),
    })
}
