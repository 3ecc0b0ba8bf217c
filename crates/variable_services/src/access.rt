//! Read, Write, GetVariableAccessAttributes and DefineNamedVariable.

ghost use Rattle.std.specs.Prelude.{◌≡◌, Bool, IfErr, IfOk, None, OnErr, OnOk, Some};
ghost use Rattle.mms_types.specs.Serves.{Serves};
ghost use Rattle.variable_services.specs.Services.{accessed, answer_of, attributes_answer, attributes_cause, define_after, define_cause, guards_owned, is_guarded, read_answer, read_cause, with_new_values, write_after, write_answer, write_cause};

use crate::VariableTables;
use crate::tables::accessed;
use mms_types::{
    DefineNamedVariable, Memory, Read, ReadAnswer, Refuse, ServiceError, Spec, VariableAttributes,
    Write, WriteAnswer,
};
use std::alloc::Global;
use variables::{NewValues, OwnsGuards};

impl VariableTables {
    /// What a client reads (ISO 9506-2, Read). Object-non-existent where the list that it names is missing.
    pub fn read(&self, alloc: Global, client: u32, asked: &Read) -> Result<ReadAnswer, Refuse>
        ensures { Serves result (read_cause client asked.now self.now)
            (Some (read_answer client asked.now self.now)) }
    {
        let Some(variables) = accessed(&self.lists, client, &asked.access) else {
            return Err(Refuse::Service(ServiceError::OBJECT_NON_EXISTENT));
        };
        let access = if asked.with_access {
            Some(asked.access.copy(alloc)?)
        } else {
            None
        };
        Ok(ReadAnswer {
            access,
            results: self.vars.reads(alloc, client, variables)?,
        })
    }

    /// Whether a variable that a client's write names has a guard: none has where the list that it names is missing.
    pub fn is_guarded(&self, client: u32, asked: &Write) -> bool
        ensures { result ≡ is_guarded client asked.now self.now }
    {
        match accessed(&self.lists, client, &asked.access) {
            None => false,
            Some(variables) => self.vars.are_guarded(client, variables),
        }
    }

    /// The variables that a client writes, or why none is written (ISO 9506-2, Write): object-non-existent where the
    /// list that the write names is missing, and then type-inconsistent where there are more or fewer data than
    /// variables.
    fn to_write<'a>(&'a self, client: u32, asked: &'a Write) -> Result<&'a [Spec], ServiceError>
        ensures variables { IfOk result (λ variables.
            accessed client asked.now.access self.now ≡ Some variables.now) }
        ensures written { OnOk result (write_cause client asked.now self.now ≡ None) }
        ensures refused { IfErr result (λ error.
            write_cause client asked.now self.now ≡ Some error) }
    {
        let Some(variables) = accessed(&self.lists, client, &asked.access) else {
            return Err(ServiceError::OBJECT_NON_EXISTENT);
        };
        if asked.values.as_slice().len() != variables.len() {
            return Err(ServiceError::TYPE_INCONSISTENT);
        }
        Ok(variables)
    }

    /// What becomes of the variables that a client writes (ISO 9506-2, Write), and the new values by which all is as
    /// after that write; nothing is written yet. Object-non-existent where the list that it names is missing, and then
    /// type-inconsistent where there are more or fewer data than variables.
    pub fn write_results<O: OwnsGuards>(
        &self,
        alloc: Global,
        client: u32,
        by: &O,
        asked: &Write,
    ) -> Result<(WriteAnswer, NewValues), Refuse>
        ensures answer { Serves (answer_of result) (write_cause client asked.now self.now)
            (Some (write_answer (guards_owned (O.owns by.now) client asked.now self.now)
            client asked.now self.now)) }
        ensures values { IfOk result (λ told. with_new_values told.1 self.now ≡ write_after
            (guards_owned (O.owns by.now) client asked.now self.now) client asked.now self.now) }
    {
        match self.to_write(client, asked) {
            Err(error) => Err(Refuse::Service(error)),
            Ok(variables) => {
                let values = asked.values.as_slice();
                Ok(self.vars.results(alloc, client, by, variables, values)?)
            }
        }
    }

    /// Puts new values into their cells, one after the other. It takes no memory.
    pub fn write(&mut self, values: NewValues)
        ensures { self.new ≡ with_new_values values self.old }
    {
        self.vars.write(values);
    }

    /// What a variable is (ISO 9506-2, GetVariableAccessAttributes). Object-non-existent where its name or its cell is
    /// missing.
    pub fn attributes(
        &self,
        alloc: Global,
        client: u32,
        asked: &Spec,
    ) -> Result<VariableAttributes, Refuse>
        ensures { Serves result (attributes_cause client asked.now self.now)
            (attributes_answer client asked.now self.now) }
    {
        match self.vars.attributes(alloc, client, asked)? {
            Some(told) => Ok(told),
            None => Err(Refuse::Service(ServiceError::OBJECT_NON_EXISTENT)),
        }
    }

    /// Why a variable is not defined (ISO 9506-2, DefineNamedVariable): the first condition that holds. `live` is
    /// whether the domain of its scope is live, where it has one.
    pub fn define_cause(
        &self,
        client: u32,
        asked: &DefineNamedVariable,
        live: bool,
    ) -> Option<ServiceError>
        ensures { result ≡ define_cause live client asked.now self.now }
    {
        self.vars.define_cause(client, asked, live)
    }

    /// Defines a variable. The one refusal is want of memory; then all is as before.
    pub fn define(
        &mut self,
        alloc: Global,
        client: u32,
        asked: &DefineNamedVariable,
    ) -> Result<(), Memory>
        requires { (live : Bool) × (define_cause live client asked.now self.old ≡ None) }
        ensures defined { OnOk result (self.new ≡ define_after client asked.now self.old) }
        ensures kept { OnErr result (self.new ≡ self.old) }
    {
        self.vars.define(alloc, client, asked)
    }
}
