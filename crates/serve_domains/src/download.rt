//! A client begins to load a domain (ISO 9506-1, InitiateDownloadSequence).

ghost use Rattle.std.specs.Prelude.{◌≡◌, ◌∷◌, [], Bool, None, OnErr, OnOk, Some, false, if◌then◌else◌, is_none, true};
ghost use Rattle.mms_types.specs.declared.asked.Asked.TheVariants as asks;
ghost use Rattle.association.specs.Asked.{is_open};
ghost use Rattle.association.specs.Client.{next_ask};
ghost use Rattle.domain_load.specs.Loading.{initiate_after, initiate_cause};
ghost use Rattle.cell_client.specs.Areas.{IsServedIn, lacks_number_in};
ghost use Rattle.cell_client.specs.Effects.{Asks, Sends, felt_all, settled};
ghost use Rattle.cell_client.specs.Facts.{Facts};
ghost use Rattle.cell_client.specs.Requests.{fits, size_of};
ghost use Rattle.serve_domains.specs.Domains.{calling_left, download_told, initiate_download};

use crate::DomainTables;
use association::ClientPart;
use cell_client::{Client, size_of};
use mms_types::{Answer, Asked, InitiateDownloadSequence, Memory, Octets, ServiceError, What};
use std::alloc::Global;

/// Whether a client may be asked one thing more.
pub(crate) fn calling_left(part: &ClientPart) -> bool
    ensures { result ≡ calling_left part.now.row }
{
    match part.negotiated() {
        None => false,
        Some(values) => part.unanswered() < values.calling as usize,
    }
}

/// A load begins that nothing is against. The client is answered by those octets, and then asked for the first segment
/// under that number.
fn begin_asking(
    alloc: Global,
    own: &mut Client,
    tables: &mut DomainTables,
    number: u32,
    answer: Octets,
    asked: &InitiateDownloadSequence,
) -> Result<(), Memory>
    requires free { (left : Bool)
        × (initiate_cause left asked.now tables.old.domains ≡ None) }
    requires settled { own.old ≡ settled own.old.row }
    requires open { is_open own.old.row.association ≡ true }
    requires number { next_ask own.old.row ≡ Some number }
    ensures told { OnOk result (own.new ≡ settled (felt_all
        (Sends (What.Octets answer) ∷ Asks asks.Segment asked.now.domain ∷ []) own.old.row)) }
    ensures begun { OnOk result (tables.new ≡ record tables.old {
      domains = initiate_after own.old.row.client asked.now tables.old.domains;
    }) }
    ensures kept { OnErr result (own.new ≡ own.old) }
    ensures same { OnErr result (tables.new ≡ tables.old) }
{
    let client = own.part().client();
    let asking = own.spelled_ask(alloc, number, Asked::Segment, &asked.domain)?;
    let domain = asked.domain.copy(alloc)?;
    own.reserve_to_ask(2)?;
    if let Err(error) = tables.begin_load(alloc, client, asked) {
        own.release();
        return Err(error);
    }
    own.push(answer);
    own.ask(Asked::Segment, domain, asking);
    Ok(())
}

/// A load begins that nothing is against: the client is answered, and asked for the first segment, unless the answer is
/// too long.
fn begin_new(
    alloc: Global,
    own: &mut Client,
    tables: &mut DomainTables,
    invoke: u32,
    asked: &InitiateDownloadSequence,
) -> Result<(), Memory>
    requires free { (left : Bool)
        × (initiate_cause left asked.now tables.old.domains ≡ None) }
    requires settled { own.old ≡ settled own.old.row }
    requires open { is_open own.old.row.association ≡ true }
    requires number { fits (size_of own.old.row.association) invoke
        (Some Answer.InitiateDownloadSequence) ≡ true → is_none (next_ask own.old.row) ≡ false }
    ensures told { OnOk result (own.new ≡ settled (felt_all
        (download_told (size_of own.old.row.association) invoke asked.now.domain)
        own.old.row)) }
    ensures begun { OnOk result (tables.new
        ≡ (if fits (size_of own.old.row.association) invoke (Some Answer.InitiateDownloadSequence)
        then record tables.old {
          domains = initiate_after own.old.row.client asked.now tables.old.domains;
        } else tables.old)) }
    ensures kept { OnErr result (own.new ≡ own.old) }
    ensures same { OnErr result (tables.new ≡ tables.old) }
{
    let answer = own.spelled_answer(alloc, invoke, &Answer::InitiateDownloadSequence)?;
    if answer.len() > size_of(own.part()) as usize {
        return own.refuse(alloc, invoke, ServiceError::OTHER);
    }
    let Some(number) = own.part().next_ask() else {
        unreachable!()
    };
    begin_asking(alloc, own, tables, number, answer, asked)
}

/// A client begins to load a domain.
pub(crate) fn download(
    alloc: Global,
    own: &mut Client,
    tables: &mut DomainTables,
    invoke: u32,
    asked: &InitiateDownloadSequence,
) -> Result<(), Memory>
    requires settled { own.old ≡ settled own.old.row }
    requires open { is_open own.old.row.association ≡ true }
    requires number { (facts : Facts) → lacks_number_in (initiate_download asked.now) facts
        own.old.row invoke tables.old ≡ false }
    ensures served { OnOk result ((facts : Facts)
        → IsServedIn (initiate_download asked.now) facts invoke own.old.row
        tables.old tables.new own.new) }
    ensures kept { OnErr result (own.new ≡ own.old) }
    ensures same { OnErr result (tables.new ≡ tables.old) }
{
    let left = calling_left(own.part());
    match tables.domains().initiate_download_cause(asked, left) {
        Some(error) => own.refuse(alloc, invoke, error),
        None => begin_new(alloc, own, tables, invoke, asked),
    }
}
