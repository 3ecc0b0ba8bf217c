//! Variables and their lists are defined (ISO 9506-1, DefineNamedVariable and DefineNamedVariableList).

ghost use Rattle.std.specs.Prelude.{◌≡◌, OnErr, OnOk};
ghost use Rattle.cell_client.specs.Areas.{IsServedIn};
ghost use Rattle.cell_client.specs.Effects.{settled};
ghost use Rattle.cell_client.specs.Facts.{Facts};
ghost use Rattle.serve_variables.specs.Variables.{define_list, define_variable};

use cell_client::Client;
use mms_types::{Answer, DefineNamedVariable, DefineNamedVariableList, Memory};
use std::alloc::Global;
use variable_services::VariableTables;

/// Defines a variable and answers, or refuses to, where none is defined. `live` is whether the domain of its name is
/// live.
pub(crate) fn define(
    alloc: Global,
    own: &mut Client,
    tables: &mut VariableTables,
    live: bool,
    invoke: u32,
    asked: &DefineNamedVariable,
) -> Result<(), Memory>
    requires settled { own.old ≡ settled own.old.row }
    ensures served { OnOk result ((facts : Facts) → facts.live ≡ live
        → IsServedIn (define_variable asked.now) facts invoke
        own.old.row tables.old tables.new own.new) }
    ensures kept { OnErr result (own.new ≡ own.old) }
    ensures same { OnErr result (tables.new ≡ tables.old) }
{
    let client = own.part().client();
    if let Some(error) = tables.define_cause(client, asked, live) {
        return own.refuse(alloc, invoke, error);
    }
    let Some(octets) = own.ready(alloc, invoke, &Answer::DefineNamedVariable)? else {
        return Ok(());
    };
    if let Err(memory) = tables.define(alloc, client, asked) {
        own.release();
        return Err(memory);
    }
    own.push(octets);
    Ok(())
}

/// Defines a list of variables and answers, or refuses to, where none is defined. `live` is whether the domain of its
/// name is live.
pub(crate) fn define_list(
    alloc: Global,
    own: &mut Client,
    tables: &mut VariableTables,
    live: bool,
    invoke: u32,
    asked: &DefineNamedVariableList,
) -> Result<(), Memory>
    requires settled { own.old ≡ settled own.old.row }
    ensures served { OnOk result ((facts : Facts) → facts.live ≡ live
        → IsServedIn (define_list asked.now) facts invoke
        own.old.row tables.old tables.new own.new) }
    ensures kept { OnErr result (own.new ≡ own.old) }
    ensures same { OnErr result (tables.new ≡ tables.old) }
{
    let client = own.part().client();
    if let Some(error) = tables.define_list_cause(client, asked, live) {
        return own.refuse(alloc, invoke, error);
    }
    let Some(octets) = own.ready(alloc, invoke, &Answer::DefineNamedVariableList)? else {
        return Ok(());
    };
    if let Err(memory) = tables.define_list(alloc, client, asked) {
        own.release();
        return Err(memory);
    }
    own.push(octets);
    Ok(())
}
