//! What variables are, and the names that they are given: GetVariableAccessAttributes, DefineNamedVariable.

ghost use Rattle.std.specs.Prelude.{◌≡◌, ◌≢◌, Bool, IfOk, None, OnErr, OnOk, is_none, is_some, length, nat_lt, take};
ghost use Rattle.std.specs.Option.{option_copied};
ghost use Rattle.object_names.specs.Listing.{names_after};
ghost use Rattle.object_names.specs.NewName.{is_of_domain};
ghost use Rattle.object_names.specs.Scopes.{has_any_of};
ghost use Rattle.variables.specs.Rows.{cell_at, variable_named};
ghost use Rattle.variables.specs.Definitions.{attributes, attributes_of_cell, define_cause, defined, has_other_type};

use crate::{StoredCell, Variable, Vars};
use mms_types::{
    DefineNamedVariable, Identifier, Memory, ObjectName, Scope, ServiceError, Spec, TypeSpec,
    VariableAttributes,
};
use object_names::Names;
use std::alloc::Global;

/// The most variables with a name.
const MOST_VARIABLES: usize = 4096;

/// Whether a type is given that isn't that of the cell.
fn has_other_type(given: &Option<TypeSpec>, cell: Option<&StoredCell>) -> bool
    ensures { result ≡ has_other_type given.now (option_copied cell.entry) }
{
    match (given, cell) {
        (Some(of), Some(cell)) => *of != cell.of,
        (Some(_), None) => true,
        (None, _) => false,
    }
}

impl Vars {
    /// What the variable is that a client's specification names, with its type copied: None exactly where the name or
    /// the cell is missing; then no memory is taken (ISO 9506-2, GetVariableAccessAttributes-Response).
    pub fn attributes(
        &self,
        alloc: Global,
        client: u32,
        spec: &Spec,
    ) -> Result<Option<VariableAttributes>, Memory>
        ensures told { IfOk result (λ told. told ≡ attributes client spec.now self.now) }
        ensures wants { OnErr result (attributes client spec.now self.now ≢ None) }
    {
        let (deletable, address) = match spec {
            Spec::Address(_) => (false, None),
            Spec::Name(name) => match self.variable(client, name) {
                Some(variable) => (!variable.configured, Some(u32::from(variable.cell))),
                None => return Ok(None),
            },
        };
        let Some((_, cell)) = self.found(client, spec) else {
            return Ok(None);
        };
        Ok(Some(VariableAttributes {
            deletable,
            address,
            of: cell.of.copy(alloc)?,
        }))
    }

    /// Why a name is not defined: the first condition that holds. `domain_live` is whether the domain of its scope is
    /// live, where it has one.
    pub fn define_cause(
        &self,
        client: u32,
        asked: &DefineNamedVariable,
        domain_live: bool,
    ) -> Option<ServiceError>
        ensures { result ≡ define_cause domain_live client asked.now self.now }
    {
        if matches!(asked.name, ObjectName::Domain { .. }) && !domain_live {
            return Some(ServiceError::OBJECT_UNDEFINED);
        }
        if self.variable(client, &asked.name).is_some() {
            return Some(ServiceError::OBJECT_EXISTS);
        }
        let cell = self.at(asked.address);
        if cell.is_none() {
            return Some(ServiceError::INVALID_ADDRESS);
        }
        if has_other_type(&asked.of, cell) {
            return Some(ServiceError::TYPE_INCONSISTENT);
        }
        if self.variables.len() >= MOST_VARIABLES {
            return Some(ServiceError::CAPABILITY_UNAVAILABLE);
        }
        None
    }

    /// Defines a variable of that name and cell: it is the last one. The one refusal is want of memory; then all is as
    /// before.
    #[tactic(auto, using(crate::proofs::Unopposed::nothing_against))]
    pub fn define(
        &mut self,
        alloc: Global,
        client: u32,
        asked: &DefineNamedVariable,
    ) -> Result<(), Memory>
        requires { (live : Bool) × (define_cause live client asked.now self.old ≡ None) }
        ensures defined { OnOk result (self.new ≡ defined client asked.now self.old) }
        ensures kept { OnErr result (self.new ≡ self.old) }
    {
        let Some((cell, _)) = self.addressed(asked.address) else {
            unreachable!()
        };
        let key = asked.name.key(alloc, client)?;
        let variable = Variable {
            cell,
            configured: false,
        };
        self.variables.insert(key, variable)?;
        Ok(())
    }

    /// Whether some variable has a name of that scope. It takes no memory.
    pub fn has_any_of(&self, scope: &Scope) -> bool
        ensures { result ≡ has_any_of scope.now self.now.variables }
    {
        self.variables.has_any_of(scope)
    }

    /// The names of variables of a scope that come after that one, which need not be there, in order of octets: the
    /// first `most` of them, and whether more are left (ISO 9506-2, GetNameList). The one refusal is want of memory.
    pub fn names_after(
        &self,
        alloc: Global,
        scope: &Scope,
        after: Option<&Identifier>,
        most: usize,
    ) -> Result<Names, Memory>
        ensures list { IfOk result (λ names. names.list
            ≡ take most (names_after scope.now (option_copied after.entry) self.now.variables)) }
        ensures more { IfOk result (λ names. names.more
            ≡ nat_lt most (length (names_after scope.now
            (option_copied after.entry) self.now.variables))) }
    {
        self.variables.names_after(alloc, scope, after, most)
    }
}
