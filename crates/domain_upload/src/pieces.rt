//! The pieces in which the octets of a domain are sent.
ghost use Rattle.std.specs.Prelude.{◌≡◌, ◌+◌, IfOk, length};
ghost use Rattle.domain_upload.specs.Pieces.{most_of_piece, next_octets, next_piece};

use domain_load::Domain;
use mms_types::{Memory, Segment};
use std::alloc::Global;

/// The octets of an answer that are left for what stands around those of a piece.
const AROUND: u32 = 64;

/// The most octets of a piece, whatever size was negotiated.
const MOST_OCTETS: u32 = 4096;

/// The most octets of a piece, by the size of a PDU that was negotiated with its client.
pub(crate) fn most_of_piece(size: u32) -> u32
    ensures { result ≡ most_of_piece size }
{
    size.saturating_sub(AROUND).min(MOST_OCTETS)
}

/// The next piece of a domain, of which so many octets were sent. The one refusal is want of memory.
pub(crate) fn next_piece(
    alloc: Global,
    size: u32,
    sent: u32,
    domain: &Domain,
) -> Result<Segment, Memory>
    ensures { IfOk result (λ piece. piece ≡ next_piece size sent domain.now) }
{
    let octets = domain.piece(alloc, sent, most_of_piece(size))?;
    let more = (sent as usize) + octets.len() < domain.octets() as usize;
    Ok(Segment { octets, more })
}

/// How many octets of a domain were sent after the next piece.
#[tactic(auto, using(crate::proofs::Lengths::length_next))]
pub(crate) fn sent_after(size: u32, sent: u32, domain: &Domain) -> u32
    ensures { result ≡ sent + length (next_octets size sent domain.now) }
{
    sent + most_of_piece(size).min(domain.octets().saturating_sub(sent))
}
