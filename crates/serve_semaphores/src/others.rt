//! Whom a request for semaphores tells something besides its client.

ghost use Rattle.std.specs.Prelude.{◌≡◌, ◌≢◌, ◌==◌, ℕ, false, IfOk, OnErr, Some};
ghost use Rattle.std.specs.List.{list_any};
ghost use Rattle.cell_client.specs.Areas.{also_in};
ghost use Rattle.cell_client.specs.Facts.{Facts};
ghost use Rattle.cell_client.specs.Requests.{fits, size_of};
ghost use Rattle.serve_semaphores.specs.Semaphores.{relinquish_control, request_in};
ghost use Rattle.serve_semaphores.specs.Tokens.{grants_nobody, is_the_one, tells_alone};

use association::ClientPart;
use cell_client::{answer_octets, size_of};
use mms_time::{Semaphores, relinquish_control_told};
use mms_types::{Answer, Memory, RelinquishControl, SemaphoreRequest};
use std::alloc::Global;

/// Whether the answer to a token that is given back is not longer than was negotiated.
fn is_answered(alloc: Global, part: &ClientPart, invoke: u32) -> Result<bool, Memory>
    ensures { IfOk result (λ b. b ≡ fits (size_of part.now.row.association) invoke
        (Some Answer.RelinquishControl)) }
{
    let octets = answer_octets(alloc, invoke, &Answer::RelinquishControl)?;
    Ok(octets.len() <= size_of(part) as usize)
}

/// Who is granted the token that a client gives back.
fn heir(
    alloc: Global,
    rows: &Semaphores,
    part: &ClientPart,
    invoke: u32,
    asked: &RelinquishControl,
) -> Result<Option<u32>, Memory>
    ensures told { IfOk result (λ c. (facts : Facts) (k : ℕ) → list_any (λ t. t.0 == k)
        (also_in (relinquish_control asked.now) facts part.now.row invoke rows.now)
        ≡ is_the_one c k) }
    ensures wants { OnErr result (grants_nobody part.now.row.client asked.now rows.now ≡ false) }
{
    match relinquish_control_told(rows, part.client(), asked) {
        Err(_) | Ok(None) => Ok(None),
        Ok(Some(grant)) => {
            if is_answered(alloc, part, invoke)? {
                Ok(Some(grant.client))
            } else {
                Ok(None)
            }
        }
    }
}

/// Whom a request tells something besides its client: who is granted a token that is given back. It is at most one, and
/// nobody by any other request. Memory is wanted only where somebody is granted the token.
pub fn tells(
    alloc: Global,
    rows: &Semaphores,
    part: &ClientPart,
    invoke: u32,
    asked: SemaphoreRequest<'_>,
) -> Result<Option<u32>, Memory>
    ensures told { IfOk result (λ c. (facts : Facts) (k : ℕ) → part.now.row.client ≢ k
        → list_any (λ t. t.0 == k)
        (also_in (request_in asked.entry) facts part.now.row invoke rows.now) ≡ is_the_one c k) }
    ensures wants { OnErr result (tells_alone part.now.row.client asked.entry rows.now ≡ false) }
{
    match asked {
        SemaphoreRequest::RelinquishControl(asked) => heir(alloc, rows, part, invoke, asked),
        _ => Ok(None),
    }
}
