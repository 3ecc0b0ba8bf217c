//! DefineNamedVariableList and GetNamedVariableListAttributes.

ghost use Rattle.std.specs.Prelude.{◌≡◌, Bool, None, OnErr, OnOk};
ghost use Rattle.mms_types.specs.Serves.{Serves};
ghost use Rattle.variable_services.specs.Services.{define_list_after, define_list_cause, list_attributes_answer, list_attributes_cause};

use crate::VariableTables;
use mms_types::{
    DefineNamedVariableList, ListAttributes, Memory, ObjectName, Refuse, ServiceError,
};
use std::alloc::Global;

impl VariableTables {
    /// What a list is (ISO 9506-2, GetNamedVariableListAttributes). Object-non-existent where it is missing.
    pub fn list_attributes(
        &self,
        alloc: Global,
        client: u32,
        asked: &ObjectName,
    ) -> Result<ListAttributes, Refuse>
        ensures { Serves result (list_attributes_cause client asked.now self.now)
            (list_attributes_answer client asked.now self.now) }
    {
        match self.lists.attributes(alloc, client, asked)? {
            Some(told) => Ok(told),
            None => Err(Refuse::Service(ServiceError::OBJECT_NON_EXISTENT)),
        }
    }

    /// Why a list is not defined (ISO 9506-2, DefineNamedVariableList): the first condition that holds. `live` is
    /// whether the domain of its scope is live, where it has one.
    pub fn define_list_cause(
        &self,
        client: u32,
        asked: &DefineNamedVariableList,
        live: bool,
    ) -> Option<ServiceError>
        ensures { result ≡ define_list_cause live client asked.now self.now }
    {
        let there = self.vars.are_there(client, asked.variables.as_slice());
        self.lists.define_cause(client, asked, live, there)
    }

    /// Defines a list. The one refusal is want of memory; then all is as before.
    pub fn define_list(
        &mut self,
        alloc: Global,
        client: u32,
        asked: &DefineNamedVariableList,
    ) -> Result<(), Memory>
        requires { (live : Bool) × (define_list_cause live client asked.now self.old ≡ None) }
        ensures defined { OnOk result (self.new ≡ define_list_after client asked.now self.old) }
        ensures kept { OnErr result (self.new ≡ self.old) }
    {
        self.lists.define(alloc, client, asked)
    }
}
