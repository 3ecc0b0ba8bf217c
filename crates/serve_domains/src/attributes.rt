//! What a domain is is told (ISO 9506-1, GetDomainAttributes).

ghost use Rattle.std.specs.Prelude.{◌≡◌, ◌∷◌, [], OnErr, OnOk, is_none};
ghost use Rattle.std.specs.Option.{option_map};
ghost use Rattle.mms_types.specs.Errors.{first_of, object_non_existent};
ghost use Rattle.mms_types.specs.Serves.{Serves};
ghost use Rattle.domain_load.specs.Domains.{attributes, named};
ghost use Rattle.domain_upload.specs.Uploads.{uploads_of};
ghost use Rattle.cell_client.specs.Areas.{IsServedIn};
ghost use Rattle.cell_client.specs.Facts.{Facts};
ghost use Rattle.serve_domains.specs.Domains.{attributes as attributes_asked};

use crate::DomainTables;
use cell_client::Client;
use mms_types::{Answer, Identifier, Memory, Refuse, ServiceError};
use std::alloc::Global;

/// What the domain of that name is, or why it isn't told.
fn attributes_said(
    alloc: Global,
    tables: &DomainTables,
    name: &Identifier,
) -> Result<Answer, Refuse>
    ensures { Serves result
        (first_of ((is_none (named name.now tables.now.domains), object_non_existent) ∷ []))
        (option_map Answer.GetDomainAttributes (attributes name.now
        (uploads_of name.now tables.now.uploads) tables.now.domains)) }
{
    let uploads = tables.uploads().of_domain(name);
    match tables.domains().attributes(alloc, name, uploads)? {
        None => Err(Refuse::Service(ServiceError::OBJECT_NON_EXISTENT)),
        Some(told) => Ok(Answer::GetDomainAttributes(told)),
    }
}

/// What a domain is is told.
pub(crate) fn attributes(
    alloc: Global,
    own: &mut Client,
    tables: &DomainTables,
    invoke: u32,
    name: &Identifier,
) -> Result<(), Memory>
    ensures served { OnOk result ((facts : Facts)
        → IsServedIn (attributes_asked name.now) facts invoke own.old.row
        tables.now tables.now own.new) }
    ensures kept { OnErr result (own.new ≡ own.old) }
{
    let said = attributes_said(alloc, tables, name);
    let _answered = own.settle(alloc, invoke, &said)?;
    Ok(())
}
