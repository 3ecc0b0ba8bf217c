//! What a request for journals asks tables that aren't its own.

ghost use Rattle.std.specs.Prelude.{◌≡◌, [], ◌∷◌};
ghost use Rattle.std.specs.Option.{option_copied};
ghost use Rattle.cell_client.specs.Areas.{is_of_domain};
ghost use Rattle.cell_client.specs.Facts.{Live};
ghost use Rattle.serve_journals.specs.Journals.{domain_asked, request_in};

use mms_types::{Identifier, JournalRequest, ObjectName};

/// Whether a name is one of a domain.
fn is_of_domain(name: &ObjectName) -> bool
    ensures { result ≡ is_of_domain name.now }
{
    matches!(name, ObjectName::Domain { .. })
}

/// The domain that has to be live for a request, where one has to: that of a new journal's name.
pub fn domain_asked<'a>(asked: JournalRequest<'a>) -> Option<&'a Identifier>
    ensures { option_copied result ≡ domain_asked asked.entry }
{
    match asked {
        JournalRequest::CreateJournal(ObjectName::Domain { domain, .. }) => Some(domain),
        _ => None,
    }
}

/// Whether the name of a domain is written in a request.
pub fn names_domain(asked: JournalRequest<'_>) -> bool
    ensures { (request_in asked.entry).words ≡ Live result (domain_asked asked.entry) ∷ [] }
{
    match asked {
        JournalRequest::ReadJournal(asked) => is_of_domain(&asked.name),
        JournalRequest::WriteJournal(asked) => is_of_domain(&asked.name),
        JournalRequest::InitializeJournal(asked) => is_of_domain(&asked.name),
        JournalRequest::ReportJournalStatus(name)
        | JournalRequest::CreateJournal(name)
        | JournalRequest::DeleteJournal(name) => is_of_domain(name),
    }
}
