//! What a request for semaphores asks tables that aren't its own.

ghost use Rattle.std.specs.Prelude.{◌≡◌};
ghost use Rattle.std.specs.Option.{option_copied};
ghost use Rattle.cell_client.specs.Areas.{is_of_domain};
ghost use Rattle.serve_semaphores.specs.Semaphores.{at_its_moment, domain_asked, request_in};

use mms_types::{DefineSemaphore, Identifier, ObjectName, SemaphoreRequest};

/// Whether a name is one of a domain.
fn is_of_domain(name: &ObjectName) -> bool
    ensures { result ≡ is_of_domain name.now }
{
    matches!(name, ObjectName::Domain { .. })
}

/// The domain that has to be live for a request, where one has to.
pub fn domain_asked<'a>(asked: SemaphoreRequest<'a>) -> Option<&'a Identifier>
    ensures { option_copied result ≡ domain_asked asked.entry }
{
    match asked {
        SemaphoreRequest::DefineSemaphore(
            DefineSemaphore {
                name: ObjectName::Domain { domain, .. },
                ..
            },
        ) => Some(domain),
        _ => None,
    }
}

/// Whether the name of a domain is written in a request. The moment is asked by each.
pub fn names_domain(asked: SemaphoreRequest<'_>) -> bool
    ensures { (request_in asked.entry).words
        ≡ at_its_moment result (domain_asked asked.entry) }
{
    match asked {
        SemaphoreRequest::TakeControl(asked) => is_of_domain(&asked.name),
        SemaphoreRequest::RelinquishControl(asked) => is_of_domain(&asked.name),
        SemaphoreRequest::DefineSemaphore(asked) => is_of_domain(&asked.name),
        SemaphoreRequest::DeleteSemaphore(name) => is_of_domain(name),
        SemaphoreRequest::ReportSemaphoreStatus(name) => is_of_domain(name),
        SemaphoreRequest::ReportPoolSemaphoreStatus(asked) => is_of_domain(&asked.name),
        SemaphoreRequest::ReportSemaphoreEntryStatus(asked) => is_of_domain(&asked.name),
    }
}
