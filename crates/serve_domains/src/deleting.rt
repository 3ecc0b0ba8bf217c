//! A domain is deleted (ISO 9506-1, DeleteDomain).

ghost use Rattle.std.specs.Prelude.{◌≡◌, Bool, None, OnErr, OnOk, Some, if◌then◌else◌};
ghost use Rattle.domain_load.specs.Domains.{delete_cause, without};
ghost use Rattle.domain_upload.specs.Uploads.{uploads_of};
ghost use Rattle.cell_client.specs.Areas.{IsServedIn};
ghost use Rattle.cell_client.specs.Effects.{felt_all, settled};
ghost use Rattle.cell_client.specs.Facts.{Facts};
ghost use Rattle.cell_client.specs.Requests.{fits, request_told, size_of};
ghost use Rattle.serve_domains.specs.Domains.{delete};

use crate::DomainTables;
use cell_client::Client;
use mms_types::{Answer, Identifier, Memory};
use std::alloc::Global;

/// A domain is deleted that nothing is against, and the client answered, unless the answer is too long.
fn delete_there(
    alloc: Global,
    own: &mut Client,
    tables: &mut DomainTables,
    invoke: u32,
    name: &Identifier,
) -> Result<(), Memory>
    requires { (in_scope : Bool) × (delete_cause name.now
        (uploads_of name.now tables.old.uploads) in_scope tables.old.domains ≡ None) }
    ensures told { OnOk result (own.new ≡ settled (felt_all
        (request_told (size_of own.old.row.association) invoke None
        (Some Answer.DeleteDomain)) own.old.row)) }
    ensures deleted { OnOk result (tables.new
        ≡ (if fits (size_of own.old.row.association) invoke (Some Answer.DeleteDomain)
        then record tables.old { domains = without name.now tables.old.domains }
        else tables.old)) }
    ensures kept { OnErr result (own.new ≡ own.old) }
    ensures same { OnErr result (tables.new ≡ tables.old) }
{
    let Some(octets) = own.ready(alloc, invoke, &Answer::DeleteDomain)? else {
        return Ok(());
    };
    tables.delete(name);
    own.push(octets);
    Ok(())
}

/// A domain is deleted. `scoped` is whether any object has it for its scope.
pub(crate) fn delete(
    alloc: Global,
    own: &mut Client,
    tables: &mut DomainTables,
    scoped: bool,
    invoke: u32,
    name: &Identifier,
) -> Result<(), Memory>
    ensures served { OnOk result ((facts : Facts) → facts.scoped ≡ scoped
        → IsServedIn (delete name.now) facts invoke own.old.row
        tables.old tables.new own.new) }
    ensures kept { OnErr result (own.new ≡ own.old) }
    ensures same { OnErr result (tables.new ≡ tables.old) }
{
    let uploads = tables.uploads().of_domain(name);
    match tables.domains().delete_cause(name, uploads, scoped) {
        Some(error) => own.refuse(alloc, invoke, error),
        None => delete_there(alloc, own, tables, invoke, name),
    }
}
