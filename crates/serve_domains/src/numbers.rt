//! Whether no number is left for what would be asked of a client.

ghost use Rattle.std.specs.Prelude.{◌≡◌, None, IfOk, List, Some, ℕ, is_some};
ghost use Rattle.cell_client.specs.Areas.{lacks_number_in};
ghost use Rattle.cell_client.specs.Facts.{Facts};
ghost use Rattle.cell_client.specs.Meant.{came};
ghost use Rattle.cell_client.specs.Requests.{is_done, size_of};
ghost use Rattle.domain_load.specs.Domains.{Rows as Domains};
ghost use Rattle.domain_load.specs.Loading.{asked_next, initiate_cause};
ghost use Rattle.serve_domains.specs.Domains.{calling_left, replied, reply_of, request_in};
ghost use Rattle.serve_domains.specs.Tables.{DomainTables as Rows};

use crate::DomainTables;
use crate::download::calling_left;
use association::ClientPart;
use cell_client::{Came, answer_within, size_of};
use mms_types::{Answer, Asked, DomainRequest, InitiateDownloadSequence, Memory};
use std::alloc::Global;

/// Whether a load would begin: nothing is against it, and the answer isn't too long.
fn begins(
    alloc: Global,
    part: &ClientPart,
    tables: &DomainTables,
    invoke: u32,
    asked: &InitiateDownloadSequence,
) -> Result<bool, Memory>
    ensures { IfOk result (λ begins. begins ≡ is_done (size_of part.now.row.association) invoke
        (initiate_cause (calling_left part.now.row) asked.now tables.now.domains)
        (Some Answer.InitiateDownloadSequence)) }
{
    let left = calling_left(part);
    if tables
        .domains()
        .initiate_download_cause(asked, left)
        .is_some()
    {
        return Ok(false);
    }
    let answer = &Answer::InitiateDownloadSequence;
    Ok(answer_within(alloc, size_of(part), invoke, answer)?.is_some())
}

/// Whether a request would ask something of its client, and no number is left for that. A load that begins alone asks
/// anything.
pub fn lacks_number(
    alloc: Global,
    part: &ClientPart,
    tables: &DomainTables,
    invoke: u32,
    asked: DomainRequest<'_>,
) -> Result<bool, Memory>
    ensures { IfOk result (λ lacks. (facts : Facts) → lacks
        ≡ lacks_number_in (request_in asked.entry) facts part.now.row invoke tables.now) }
{
    if part.next_ask().is_some() {
        return Ok(false);
    }
    match asked {
        DomainRequest::InitiateDownloadSequence(asked) => begins(
            alloc, part, tables, invoke, asked,
        ),
        _ => Ok(false),
    }
}

/// Whether something is asked after a client's answer to a request of that kind, which is of a load.
fn asks_more(asked: Asked, answer: Came<'_>) -> bool
    ensures { (domain : List ℕ) (rows : Domains) → result
        ≡ is_some (asked_next (reply_of (came answer.entry) (asked, domain)) rows) }
{
    match answer {
        Came::Arrives(_) => true,
        Came::Ends => false,
        Came::Fails => matches!(asked, Asked::Segment),
    }
}

/// Whether something would be asked of a client after its answer to the server's request of that number, and no number
/// is left for that.
pub fn reply_lacks_number(part: &ClientPart, number: u32, answer: Came<'_>) -> bool
    ensures { (facts : Facts) (invoke : ℕ) (tables : Rows) → result
        ≡ lacks_number_in (replied number (came answer.entry)) facts part.now.row invoke tables }
{
    if part.next_ask().is_some() {
        return false;
    }
    match part.asked(number) {
        None => false,
        Some((asked, _)) => asks_more(asked, answer),
    }
}
