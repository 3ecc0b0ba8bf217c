//! CreateProgramInvocation: a program invocation is made of loaded domains.
ghost use Rattle.std.specs.Prelude.{◌≡◌, ◌∷◌, ◌++◌, [], None, not, OnErr, OnOk, is_some};
ghost use Rattle.std.specs.List.{list_any};
ghost use Rattle.std.specs.Map.{lookup};
ghost use Rattle.domain_load.specs.Domains.{is_there, name_eq, Rows as DomainRows, named as domain_named};
ghost use Rattle.domain_load.specs.Standing.{is_loading};
ghost use Rattle.domain_load.specs.Used.{is_taken};
ghost use Rattle.program_inv.specs.Programs.{after_create, create_cause, has_clash, names_twice};

use crate::{Invocation, Programs};
use domain_load::Domains;
use indexmap::IndexMap;
use mms_types::{
    CreateProgramInvocation, Identifier, Identifiers, InvocationState, Memory, Octets, ServiceError,
};
use std::alloc::Global;

/// The most program invocations.
const MOST_PROGRAMS: usize = 256;

impl Programs {
    /// Why no program invocation is made (ISO 9506-2, CreateProgramInvocation), each cause being looked for among all
    /// domains that are named before the next one: object-exists where there is one of that name; object-non-existent
    /// where a domain is missing; object-state-conflict where one is LOADING; object-constraint-conflict where one is
    /// named twice, or is IN-USE and not sharable; capability-unavailable where there are 256 program invocations.
    pub fn create_cause(
        &self,
        asked: &CreateProgramInvocation,
        domains: &Domains,
    ) -> Option<ServiceError>
        ensures { result ≡ create_cause asked.now domains.now self.now }
    {
        if self.named(&asked.name).is_some() {
            return Some(ServiceError::OBJECT_EXISTS);
        }
        if has_missing(&asked.domains, domains) {
            return Some(ServiceError::OBJECT_NON_EXISTENT);
        }
        if has_loading(&asked.domains, domains) {
            return Some(ServiceError::OBJECT_STATE_CONFLICT);
        }
        if has_clash(&asked.domains, domains) {
            return Some(ServiceError::OBJECT_CONSTRAINT_CONFLICT);
        }
        if self.rows.len() >= MOST_PROGRAMS {
            return Some(ServiceError::CAPABILITY_UNAVAILABLE);
        }
        None
    }

    /// A program invocation is made (ISO 9506-1, CreateProgramInvocation): it is the last one, idle, and was told the
    /// empty text. The one refusal is want of memory; then all is as before.
    #[tactic(auto, using(crate::proofs::Unopposed::nothing_against, crate::proofs::Unopposed::one_more))]
    pub fn create(&mut self, alloc: Global, asked: &CreateProgramInvocation) -> Result<(), Memory>
        requires { (ds : DomainRows) × (create_cause asked.now ds self.old ≡ None) }
        ensures made { OnOk result (self.new ≡ after_create asked.now self.old) }
        ensures kept { OnErr result (self.new ≡ self.old) }
    {
        let name = asked.name.copy(alloc)?;
        let invocation = Invocation {
            domains: asked.domains.copy(alloc)?,
            reusable: asked.reusable,
            state: InvocationState::Idle,
            argument: Octets::new(Vec::new(alloc)),
        };
        put_row(&mut self.rows, name, invocation)
    }
}

/// Whether one of the domains is missing.
fn has_missing(names: &Identifiers, domains: &Domains) -> bool
    ensures { result ≡ list_any (λ name. not (is_some (domain_named name domains.now))) names.now }
{
    names
        .as_slice()
        .iter()
        .any(|name| domains.named(name).is_none())
}

/// Whether one of the domains is LOADING.
fn has_loading(names: &Identifiers, domains: &Domains) -> bool
    ensures { result ≡ list_any (λ name. is_there is_loading name domains.now) names.now }
{
    names.as_slice().iter().any(|name| domains.is_loading(name))
}

/// Whether one of the domains is IN-USE and not sharable.
fn has_taken(names: &[Identifier], domains: &Domains) -> bool
    ensures { result ≡ list_any (λ name. is_there is_taken name domains.now) names.now }
{
    names.iter().any(|name| domains.is_taken(name))
}

/// Whether one of the domains is named twice, or is IN-USE and not sharable.
fn has_clash(names: &Identifiers, domains: &Domains) -> bool
    ensures { result ≡ has_clash names.now domains.now }
{
    has_twice(names.as_slice()) || has_taken(names.as_slice(), domains)
}

/// Whether one of the names is this one.
fn has_name(names: &[Identifier], name: &Identifier) -> bool
    ensures { result ≡ list_any (name_eq name.now) names.now }
{
    names.iter().any(|other| *name == *other)
}

/// Whether a name stands twice among them.
fn has_twice(names: &[Identifier]) -> bool
    ensures { result ≡ names_twice names.now }
{
    let mut left = names.len();
    while left > 0 {
        left -= 1;
        if has_name(&names[left + 1..], &names[left]) {
            return true;
        }
    }
    false
}

/// A program invocation is put behind all others, of which none has its name. The one refusal is want of memory; then
/// all is as before.
pub(crate) fn put_row(
    rows: &mut IndexMap<Identifier, Invocation>,
    name: Identifier,
    invocation: Invocation,
) -> Result<(), Memory>
    requires { lookup (name_eq name) rows.old.entries ≡ None }
    ensures placed { OnOk result (rows.new.entries ≡ rows.old.entries ++ (name, invocation) ∷ []) }
    ensures kept { OnErr result (rows.new.entries ≡ rows.old.entries) }
{
    match rows.insert(name, invocation) {
        Ok(_) => Ok(()),
        Err(_) => Err(Memory::wanting()),
    }
}
