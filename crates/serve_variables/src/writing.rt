//! Variables are written (ISO 9506-1, Write).

ghost use Rattle.std.specs.Prelude.{◌≡◌, OnErr, OnOk};
ghost use Rattle.cell_client.specs.Areas.{IsServedIn};
ghost use Rattle.cell_client.specs.Facts.{Facts};
ghost use Rattle.serve_variables.specs.Variables.{write};
ghost use Rattle.variable_services.specs.Services.{guards_owned};

use cell_client::Client;
use mms_types::{Answer, Memory, Refuse, Write};
use std::alloc::Global;
use variable_services::VariableTables;
use variables::OwnsGuards;

/// Answers a write of variables and writes them, or refuses it, where nothing is written. `by` tells which guards the
/// client owns.
pub(crate) fn write<O: OwnsGuards>(
    alloc: Global,
    own: &mut Client,
    tables: &mut VariableTables,
    by: &O,
    invoke: u32,
    asked: &Write,
) -> Result<(), Memory>
    ensures served { OnOk result ((facts : Facts) → facts.owned
        ≡ guards_owned (O.owns by.now) own.old.row.client asked.now tables.old
        → IsServedIn (write asked.now) facts invoke own.old.row tables.old tables.new own.new) }
    ensures kept { OnErr result (own.new ≡ own.old) }
    ensures same { OnErr result (tables.new ≡ tables.old) }
{
    let client = own.part().client();
    match tables.write_results(alloc, client, by, asked) {
        Err(Refuse::Memory) => Err(Memory::wanting()),
        Err(Refuse::Service(error)) => own.refuse(alloc, invoke, error),
        Ok((results, values)) => {
            let Some(octets) = own.ready(alloc, invoke, &Answer::Write(results))? else {
                return Ok(());
            };
            tables.write(values);
            own.push(octets);
            Ok(())
        }
    }
}
