//! What variables and their lists are (ISO 9506-1, GetVariableAccessAttributes and GetNamedVariableListAttributes).

ghost use Rattle.std.specs.Prelude.{◌≡◌, OnErr, OnOk};
ghost use Rattle.std.specs.Option.{option_map};
ghost use Rattle.mms_types.specs.Serves.{Serves};
ghost use Rattle.variable_services.specs.Services.{attributes_answer, attributes_cause, list_attributes_answer, list_attributes_cause};
ghost use Rattle.cell_client.specs.Areas.{IsServedIn};
ghost use Rattle.cell_client.specs.Facts.{Facts};
ghost use Rattle.serve_variables.specs.Variables.{list_attributes, variable_attributes};

use cell_client::Client;
use mms_types::{Answer, Memory, ObjectName, Refuse, Spec};
use std::alloc::Global;
use variable_services::VariableTables;

/// What is said of a variable.
fn attributes_said(
    alloc: Global,
    own: &Client,
    tables: &VariableTables,
    asked: &Spec,
) -> Result<Answer, Refuse>
    ensures { Serves result (attributes_cause own.now.row.client asked.now tables.now)
        (option_map Answer.GetVariableAccessAttributes
        (attributes_answer own.now.row.client asked.now tables.now)) }
{
    let told = tables.attributes(alloc, own.part().client(), asked)?;
    Ok(Answer::GetVariableAccessAttributes(told))
}

/// What is said of a list of variables.
fn list_attributes_said(
    alloc: Global,
    own: &Client,
    tables: &VariableTables,
    asked: &ObjectName,
) -> Result<Answer, Refuse>
    ensures { Serves result (list_attributes_cause own.now.row.client asked.now tables.now)
        (option_map Answer.GetNamedVariableListAttributes
        (list_attributes_answer own.now.row.client asked.now tables.now)) }
{
    let told = tables.list_attributes(alloc, own.part().client(), asked)?;
    Ok(Answer::GetNamedVariableListAttributes(told))
}

/// Answers what a variable is, or refuses to.
pub(crate) fn attributes(
    alloc: Global,
    own: &mut Client,
    tables: &VariableTables,
    invoke: u32,
    asked: &Spec,
) -> Result<(), Memory>
    ensures served { OnOk result ((facts : Facts) → IsServedIn (variable_attributes asked.now)
        facts invoke own.old.row tables.now tables.now own.new) }
    ensures kept { OnErr result (own.new ≡ own.old) }
{
    let said = attributes_said(alloc, own, tables, asked);
    let _answered = own.settle(alloc, invoke, &said)?;
    Ok(())
}

/// Answers what a list of variables is, or refuses to.
pub(crate) fn list_attributes(
    alloc: Global,
    own: &mut Client,
    tables: &VariableTables,
    invoke: u32,
    asked: &ObjectName,
) -> Result<(), Memory>
    ensures served { OnOk result ((facts : Facts) → IsServedIn (list_attributes asked.now)
        facts invoke own.old.row tables.now tables.now own.new) }
    ensures kept { OnErr result (own.new ≡ own.old) }
{
    let said = list_attributes_said(alloc, own, tables, asked);
    let _answered = own.settle(alloc, invoke, &said)?;
    Ok(())
}
