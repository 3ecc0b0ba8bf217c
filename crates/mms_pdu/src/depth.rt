//! How deep what a PDU has nests.

ghost use Rattle.std.specs.Prelude.{◌≡◌};
ghost use Rattle.mms_pdu.specs.Hearing.{request_depth, depth_of};

use mms_types::{Pdu, Request};

/// How deep the data and the type of a request nest: the data that is written, also into a journal, and the type of a
/// variable that is defined.
pub(crate) fn request_depth(request: &Request) -> u8
    ensures { result ≡ request_depth request.now }
{
    match request {
        Request::Write(x) => x.depth(),
        Request::DefineNamedVariable(x) => x.depth(),
        Request::WriteJournal(x) => x.depth(),
        _ => 0,
    }
}

/// How deep the data and the type of the request nest that the PDU is, and 0 where it is none.
pub(crate) fn depth(pdu: &Pdu) -> u8
    ensures { result ≡ depth_of pdu.now }
{
    match pdu {
        Pdu::ConfirmedRequest { request, .. } | Pdu::ModifiedRequest { request, .. } => {
            request_depth(request)
        }
        _ => 0,
    }
}
