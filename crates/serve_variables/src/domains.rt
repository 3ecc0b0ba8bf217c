//! Whether a request for variables has to know that a domain is live (ISO 9506-1, variable access).

ghost use Rattle.std.specs.Prelude.{◌≡◌, [], ◌∷◌};
ghost use Rattle.std.specs.List.{list_any};
ghost use Rattle.std.specs.Option.{option_copied};
ghost use Rattle.cell_client.specs.Areas.{domain_in, is_of_domain};
ghost use Rattle.cell_client.specs.Facts.{Live};
ghost use Rattle.serve_variables.specs.Variables.{accesses_domain, deletes_domain, domain_asked, lists_domain, request_in, specifies_domain};

use mms_types::{Access, DeleteNames, Identifier, ObjectName, ObjectNames, Spec, VariableRequest};

/// Whether it is a name of a domain.
fn is_of_domain(name: &ObjectName) -> bool
    ensures { result ≡ is_of_domain name.now }
{
    match name {
        ObjectName::Domain { .. } => true,
        ObjectName::Vmd(_) | ObjectName::Association(_) => false,
    }
}

/// Whether it specifies a name of a domain.
fn specifies_domain(spec: &Spec) -> bool
    ensures { result ≡ specifies_domain spec.now }
{
    match spec {
        Spec::Name(name) => is_of_domain(name),
        Spec::Address(_) => false,
    }
}

/// Whether one of them specifies a name of a domain.
fn specify_domain(variables: &[Spec]) -> bool
    ensures { result ≡ list_any specifies_domain variables.now }
{
    variables.iter().any(specifies_domain)
}

/// Whether a name of a domain is accessed.
fn accesses_domain(access: &Access) -> bool
    ensures { result ≡ accesses_domain access.now }
{
    match access {
        Access::Specs(variables) => specify_domain(variables.as_slice()),
        Access::List(name) => is_of_domain(name),
    }
}

/// Whether one of the names is of a domain.
fn are_of_domain(names: &[ObjectName]) -> bool
    ensures { result ≡ list_any is_of_domain names.now }
{
    names.iter().any(is_of_domain)
}

/// Whether names are listed and one of them is of a domain.
fn lists_domain(names: &Option<ObjectNames>) -> bool
    ensures { result ≡ lists_domain names.now }
{
    match names {
        None => false,
        Some(names) => are_of_domain(names.as_slice()),
    }
}

/// Whether a domain is written in a deletion.
fn deletes_domain(asked: &DeleteNames) -> bool
    ensures { result ≡ deletes_domain asked.now }
{
    asked.domain.is_some() || lists_domain(&asked.names)
}

/// The domain of which it is a name.
fn domain_in(name: &ObjectName) -> Option<&Identifier>
    ensures { option_copied result ≡ domain_in name.now }
{
    match name {
        ObjectName::Domain { domain, .. } => Some(domain),
        ObjectName::Vmd(_) | ObjectName::Association(_) => None,
    }
}

/// The domain that has to be live for a request, where one has to.
pub fn domain_asked<'a>(asked: VariableRequest<'a>) -> Option<&'a Identifier>
    ensures { option_copied result ≡ domain_asked asked.entry }
{
    match asked {
        VariableRequest::DefineNamedVariable(asked) => domain_in(&asked.name),
        VariableRequest::DefineNamedVariableList(asked) => domain_in(&asked.name),
        VariableRequest::DeleteVariableAccess(asked)
        | VariableRequest::DeleteNamedVariableList(asked) => asked.domain.as_ref(),
        VariableRequest::Read(_)
        | VariableRequest::Write(_)
        | VariableRequest::GetVariableAccessAttributes(_)
        | VariableRequest::GetNamedVariableListAttributes(_) => None,
    }
}

/// Whether the name of a domain is written in a request.
pub fn names_domain(asked: VariableRequest<'_>) -> bool
    ensures { (request_in asked.entry).words ≡ Live result (domain_asked asked.entry) ∷ [] }
{
    match asked {
        VariableRequest::Read(asked) => accesses_domain(&asked.access),
        VariableRequest::Write(asked) => accesses_domain(&asked.access),
        VariableRequest::GetVariableAccessAttributes(asked) => specifies_domain(asked),
        VariableRequest::DefineNamedVariable(asked) => is_of_domain(&asked.name),
        VariableRequest::DeleteVariableAccess(asked) => deletes_domain(asked),
        VariableRequest::DefineNamedVariableList(asked) => {
            is_of_domain(&asked.name) || specify_domain(asked.variables.as_slice())
        }
        VariableRequest::GetNamedVariableListAttributes(asked) => is_of_domain(asked),
        VariableRequest::DeleteNamedVariableList(asked) => deletes_domain(asked),
    }
}
