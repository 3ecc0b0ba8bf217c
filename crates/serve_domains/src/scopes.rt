//! What a request for domains asks tables that aren't its own.

ghost use Rattle.std.specs.Prelude.{◌≡◌, ◌∷◌, []};
ghost use Rattle.std.specs.Option.{option_copied, option_map_or};
ghost use Rattle.cell_client.specs.Facts.{Scoped};
ghost use Rattle.serve_domains.specs.Domains.{request_in};

use mms_types::{DomainRequest, Identifier};

/// The domain of which a request asks whether any object has it for its scope: the one that is to be deleted. No other
/// request asks anything.
pub fn scope_asked<'a>(asked: DomainRequest<'a>) -> Option<&'a Identifier>
    ensures { (request_in asked.entry).words
        ≡ option_map_or (λ name. Scoped name ∷ []) (option_copied result) [] }
{
    match asked {
        DomainRequest::DeleteDomain(name) => Some(name),
        DomainRequest::InitiateDownloadSequence(_)
        | DomainRequest::InitiateUploadSequence(_)
        | DomainRequest::UploadSegment(_)
        | DomainRequest::TerminateUploadSequence(_)
        | DomainRequest::GetDomainAttributes(_) => None,
    }
}
