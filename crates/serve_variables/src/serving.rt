//! A request for variables is served.

ghost use Rattle.std.specs.Prelude.{◌≡◌, Bool, List, OnErr, OnOk};
ghost use Rattle.cell_client.specs.Areas.{IsServedIn};
ghost use Rattle.cell_client.specs.Effects.{settled};
ghost use Rattle.cell_client.specs.Facts.{Facts};
ghost use Rattle.serve_variables.specs.Variables.{guards_asked, request_in};
ghost use Rattle.variables.specs.Access.{flags_of};

use crate::attributes::{attributes, list_attributes};
use crate::defining::{define, define_list};
use crate::deleting::{delete, delete_lists};
use crate::reading::read;
use crate::writing::write;
use cell_client::Client;
use mms_types::{Memory, VariableRequest};
use std::alloc::Global;
use variable_services::VariableTables;
use variables::OwnsGuards;

/// Serves a request for variables on the tables that hold them and the part of its client: it is refused, or done and
/// answered. `live` is whether the domain of a name is live that is written in it, and `by` tells which guards the client
/// owns of the variables that it writes. Without memory all is as before.
pub fn serve<O: OwnsGuards>(
    alloc: Global,
    own: &mut Client,
    tables: &mut VariableTables,
    live: bool,
    by: &O,
    invoke: u32,
    asked: VariableRequest<'_>,
) -> Result<(), Memory>
    requires settled { own.old ≡ settled own.old.row }
    ensures served { OnOk result ((facts : Facts) → facts.live ≡ live
        → facts.owned ≡ flags_of (O.owns by.now)
        (guards_asked asked.entry own.old.row.client tables.old)
        → IsServedIn (request_in asked.entry) facts invoke
        own.old.row tables.old tables.new own.new) }
    ensures kept { OnErr result (own.new ≡ own.old) }
    ensures same { OnErr result (tables.new ≡ tables.old) }
{
    match asked {
        VariableRequest::Read(asked) => read(alloc, own, tables, invoke, asked),
        VariableRequest::Write(asked) => write(alloc, own, tables, by, invoke, asked),
        VariableRequest::GetVariableAccessAttributes(asked) => {
            attributes(alloc, own, tables, invoke, asked)
        }
        VariableRequest::DefineNamedVariable(asked) => {
            define(alloc, own, tables, live, invoke, asked)
        }
        VariableRequest::DeleteVariableAccess(asked) => {
            delete(alloc, own, tables, live, invoke, asked)
        }
        VariableRequest::DefineNamedVariableList(asked) => {
            define_list(alloc, own, tables, live, invoke, asked)
        }
        VariableRequest::GetNamedVariableListAttributes(asked) => {
            list_attributes(alloc, own, tables, invoke, asked)
        }
        VariableRequest::DeleteNamedVariableList(asked) => {
            delete_lists(alloc, own, tables, live, invoke, asked)
        }
    }
}
