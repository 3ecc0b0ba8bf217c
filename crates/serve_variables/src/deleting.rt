//! Names of variables and of their lists are deleted (ISO 9506-1, DeleteVariableAccess and DeleteNamedVariableList).

ghost use Rattle.std.specs.Prelude.{◌≡◌, OnErr, OnOk};
ghost use Rattle.cell_client.specs.Areas.{IsServedIn};
ghost use Rattle.cell_client.specs.Facts.{Facts};
ghost use Rattle.serve_variables.specs.Variables.{delete_lists, delete_variables};

use cell_client::Client;
use mms_types::{Answer, DeleteNames, Memory};
use object_names::Selection;
use std::alloc::Global;
use variable_services::{VariableTables, delete_cause};

/// Deletes names of variables and answers how many, or refuses to, where none is deleted. `live` is whether the domain
/// that is named is live.
pub(crate) fn delete(
    alloc: Global,
    own: &mut Client,
    tables: &mut VariableTables,
    live: bool,
    invoke: u32,
    asked: &DeleteNames,
) -> Result<(), Memory>
    ensures served { OnOk result ((facts : Facts) → facts.live ≡ live
        → IsServedIn (delete_variables asked.now) facts invoke
        own.old.row tables.old tables.new own.new) }
    ensures kept { OnErr result (own.new ≡ own.old) }
    ensures same { OnErr result (tables.new ≡ tables.old) }
{
    if let Some(error) = delete_cause(asked, live) {
        return own.refuse(alloc, invoke, error);
    }
    let selection = Selection::of(alloc, own.part().client(), asked)?;
    let told = Answer::DeleteVariableAccess(tables.vars.deletion(&selection));
    let Some(octets) = own.ready(alloc, invoke, &told)? else {
        return Ok(());
    };
    tables.vars.delete(&selection);
    own.push(octets);
    Ok(())
}

/// Deletes names of lists and answers how many, or refuses to, where none is deleted. `live` is whether the domain that is
/// named is live.
pub(crate) fn delete_lists(
    alloc: Global,
    own: &mut Client,
    tables: &mut VariableTables,
    live: bool,
    invoke: u32,
    asked: &DeleteNames,
) -> Result<(), Memory>
    ensures served { OnOk result ((facts : Facts) → facts.live ≡ live
        → IsServedIn (delete_lists asked.now) facts invoke
        own.old.row tables.old tables.new own.new) }
    ensures kept { OnErr result (own.new ≡ own.old) }
    ensures same { OnErr result (tables.new ≡ tables.old) }
{
    if let Some(error) = delete_cause(asked, live) {
        return own.refuse(alloc, invoke, error);
    }
    let selection = Selection::of(alloc, own.part().client(), asked)?;
    let told = Answer::DeleteNamedVariableList(tables.lists.deletion(&selection));
    let Some(octets) = own.ready(alloc, invoke, &told)? else {
        return Ok(());
    };
    tables.lists.delete(&selection);
    own.push(octets);
    Ok(())
}
