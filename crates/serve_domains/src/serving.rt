//! A request for domains is served.

ghost use Rattle.std.specs.Prelude.{◌≡◌, OnErr, OnOk, false, true};
ghost use Rattle.association.specs.Asked.{is_open};
ghost use Rattle.cell_client.specs.Areas.{IsServedIn, lacks_number_in};
ghost use Rattle.cell_client.specs.Effects.{settled};
ghost use Rattle.cell_client.specs.Facts.{Facts};
ghost use Rattle.serve_domains.specs.Domains.{request_in};

use crate::DomainTables;
use crate::attributes::attributes;
use crate::deleting::delete;
use crate::download::download;
use crate::upload::{initiate, segment, terminate};
use cell_client::Client;
use mms_types::{DomainRequest, Memory};
use std::alloc::Global;

/// Serves a request for domains on these tables and the part of its client: it is refused, or done and answered. A load
/// that begins asks for its first segment besides, behind the answer, for which a number has to be left. `scoped` is
/// whether any object has the domain that is to be deleted for its scope. Without memory all is as before.
pub fn serve(
    alloc: Global,
    own: &mut Client,
    tables: &mut DomainTables,
    scoped: bool,
    invoke: u32,
    asked: DomainRequest<'_>,
) -> Result<(), Memory>
    requires settled { own.old ≡ settled own.old.row }
    requires open { is_open own.old.row.association ≡ true }
    requires number { (facts : Facts) → lacks_number_in (request_in asked) facts
        own.old.row invoke tables.old ≡ false }
    ensures served { OnOk result ((facts : Facts) → facts.scoped ≡ scoped
        → IsServedIn (request_in asked.entry) facts invoke own.old.row
        tables.old tables.new own.new) }
    ensures kept { OnErr result (own.new ≡ own.old) }
    ensures same { OnErr result (tables.new ≡ tables.old) }
{
    match asked {
        DomainRequest::InitiateDownloadSequence(asked) => {
            download(alloc, own, tables, invoke, asked)
        }
        DomainRequest::InitiateUploadSequence(name) => initiate(alloc, own, tables, invoke, name),
        DomainRequest::UploadSegment(number) => segment(alloc, own, tables, invoke, number),
        DomainRequest::TerminateUploadSequence(number) => {
            terminate(alloc, own, tables, invoke, number)
        }
        DomainRequest::DeleteDomain(name) => delete(alloc, own, tables, scoped, invoke, name),
        DomainRequest::GetDomainAttributes(name) => attributes(alloc, own, tables, invoke, name),
    }
}
