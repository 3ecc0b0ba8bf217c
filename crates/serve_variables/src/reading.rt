//! Variables are read (ISO 9506-1, Read).

ghost use Rattle.std.specs.Prelude.{◌≡◌, OnErr, OnOk, Some};
ghost use Rattle.mms_types.specs.Serves.{Serves};
ghost use Rattle.variable_services.specs.Services.{read_answer, read_cause};
ghost use Rattle.cell_client.specs.Areas.{IsServedIn};
ghost use Rattle.cell_client.specs.Facts.{Facts};
ghost use Rattle.serve_variables.specs.Variables.{read};

use cell_client::Client;
use mms_types::{Answer, Memory, Read, Refuse};
use std::alloc::Global;
use variable_services::VariableTables;

/// What is said to a read of variables.
fn read_said(
    alloc: Global,
    own: &Client,
    tables: &VariableTables,
    asked: &Read,
) -> Result<Answer, Refuse>
    ensures { Serves result (read_cause own.now.row.client asked.now tables.now)
        (Some (Answer.Read (read_answer own.now.row.client asked.now tables.now))) }
{
    let read = tables.read(alloc, own.part().client(), asked)?;
    Ok(Answer::Read(read))
}

/// Answers a read of variables, or refuses it.
pub(crate) fn read(
    alloc: Global,
    own: &mut Client,
    tables: &VariableTables,
    invoke: u32,
    asked: &Read,
) -> Result<(), Memory>
    ensures served { OnOk result ((facts : Facts) → IsServedIn (read asked.now) facts invoke
        own.old.row tables.now tables.now own.new) }
    ensures kept { OnErr result (own.new ≡ own.old) }
{
    let said = read_said(alloc, own, tables, asked);
    let _answered = own.settle(alloc, invoke, &said)?;
    Ok(())
}
