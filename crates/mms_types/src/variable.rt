//! Variables as PDUs name them, and the requests and answers of the services for variables (ISO 9506-2, variable
//! access).

ghost use Rattle.std.specs.Prelude.{◌≡◌, ◌<◌, IfOk};
ghost use Rattle.mms_types.specs.DeleteScopes.{scope_number};

use crate::{
    AccessResults, Data, DataList, Identifier, Listed, Memory, ObjectName, ObjectNames, TypeSpec,
};
use std::alloc::Global;

/// A variable as a PDU names it (ISO 9506-2, VariableSpecification): by its name, or by the address of a cell.
pub enum Spec {
    /// The variable of that name.
    Name(ObjectName),
    /// The cell of that number (ISO 9506-2, Address, numericAddress).
    Address(u32),
}

/// Variables in order, as a PDU names them. Contracts see the list of them.
pub type Specs = Listed<Spec>;

/// Which variables are read or written (ISO 9506-2, VariableAccessSpecification).
pub enum Access {
    /// These variables, in this order.
    Specs(Specs),
    /// Those that the variable list of that name has.
    List(ObjectName),
}

impl Spec {
    /// A copy. Memory where memory runs out.
    pub fn copy(&self, alloc: Global) -> Result<Spec, Memory>
        ensures { IfOk result (λ spec. spec ≡ self.now) }
    {
        match self {
            Spec::Name(name) => Ok(Spec::Name(name.copy(alloc)?)),
            Spec::Address(number) => Ok(Spec::Address(*number)),
        }
    }
}

impl Listed<Spec> {
    /// A copy. Memory where memory runs out.
    pub fn copy(&self, alloc: Global) -> Result<Specs, Memory>
        ensures { IfOk result (λ specs. specs ≡ self.now) }
    {
        let mut specs = Listed::new(alloc);
        for spec in self.as_slice() {
            specs.push(spec.copy(alloc)?)?;
        }
        Ok(specs)
    }
}

impl Listed<Data> {
    /// A copy. Memory where memory runs out.
    pub fn copy(&self, alloc: Global) -> Result<DataList, Memory>
        ensures { IfOk result (λ values. values ≡ self.now) }
    {
        let mut values = Listed::new(alloc);
        for value in self.as_slice() {
            values.push(value.copy(alloc)?)?;
        }
        Ok(values)
    }
}

impl Access {
    /// A copy. Memory where memory runs out.
    pub fn copy(&self, alloc: Global) -> Result<Access, Memory>
        ensures { IfOk result (λ access. access ≡ self.now) }
    {
        match self {
            Access::Specs(specs) => Ok(Access::Specs(specs.copy(alloc)?)),
            Access::List(name) => Ok(Access::List(name.copy(alloc)?)),
        }
    }
}

/// Which variables are read (ISO 9506-2, Read-Request).
#[derive(Drop)]
pub struct Read {
    /// Whether the answer says again which variables were read (specificationWithResult).
    pub with_access: bool,
    /// The variables.
    pub access: Access,
}

/// What is written, and to which variables (ISO 9506-2, Write-Request).
#[derive(Drop)]
pub struct Write {
    /// The variables.
    pub access: Access,
    /// The data, for each variable in their order.
    pub values: DataList,
}

/// Which named variable is defined (ISO 9506-2, DefineNamedVariable-Request).
#[derive(Drop)]
pub struct DefineNamedVariable {
    /// Its name.
    pub name: ObjectName,
    /// The number of its cell.
    pub address: u32,
    /// The type that the cell must have, where one is given.
    pub of: Option<TypeSpec>,
}

/// Which names are deleted (ISO 9506-2, DeleteVariableAccess-Request and DeleteNamedVariableList-Request,
/// scopeOfDelete).
#[derive(Clone, Copy)]
pub enum DeleteScope {
    /// Those that are listed.
    Specific,
    /// All that belong to the association of the client.
    Association,
    /// All of a domain.
    Domain,
    /// All of the whole device.
    Vmd,
}

impl DeleteScope {
    /// The scope of that number, from 0 to 3.
    pub fn numbered(number: u8) -> DeleteScope
        requires { number < 4 }
        ensures { scope_number result ≡ number }
    {
        match number {
            0 => DeleteScope::Specific,
            1 => DeleteScope::Association,
            2 => DeleteScope::Domain,
            _ => DeleteScope::Vmd,
        }
    }

    /// Its number, from 0 to 3.
    pub fn number(self) -> u8
        ensures { result ≡ scope_number self }
    {
        self as u8
    }
}

/// Which names of variables, or of variable lists, are deleted (ISO 9506-2, DeleteVariableAccess-Request and
/// DeleteNamedVariableList-Request).
#[derive(Drop)]
pub struct DeleteNames {
    /// Which of them.
    pub scope: DeleteScope,
    /// The names, where they are listed.
    pub names: Option<ObjectNames>,
    /// The domain, where the names are all of one.
    pub domain: Option<Identifier>,
}

/// Which list of variables is defined (ISO 9506-2, DefineNamedVariableList-Request).
#[derive(Drop)]
pub struct DefineNamedVariableList {
    /// Its name.
    pub name: ObjectName,
    /// Its variables, 1 to 64 in what is read.
    pub variables: Specs,
}

/// What was read (ISO 9506-2, Read-Response).
#[derive(Drop)]
pub struct ReadAnswer {
    /// Which variables were read, where the request asked for it.
    pub access: Option<Access>,
    /// The data of each variable, or why there is none, in their order.
    pub results: AccessResults,
}

/// What a variable is (ISO 9506-2, GetVariableAccessAttributes-Response).
#[derive(Drop)]
pub struct VariableAttributes {
    /// Whether it can be deleted.
    pub deletable: bool,
    /// The number of its cell, where it was asked for by its name.
    pub address: Option<u32>,
    /// Its type.
    pub of: TypeSpec,
}

/// How many names were deleted (ISO 9506-2, DeleteVariableAccess-Response and DeleteNamedVariableList-Response).
#[derive(Clone, Copy)]
pub struct Deleted {
    /// How many names the request named that there were.
    pub matched: u32,
    /// How many of them were deleted.
    pub deleted: u32,
}

/// What a list of variables is (ISO 9506-2, GetNamedVariableListAttributes-Response).
#[derive(Drop)]
pub struct ListAttributes {
    /// Whether it can be deleted.
    pub deletable: bool,
    /// Its variables, in their order.
    pub variables: Specs,
}

impl Drop for Spec {
    fn drop(self) {
        match self {
            Spec::Name(_x) => {}
            Spec::Address(_) => {}
        }
    }
}

impl Drop for Access {
    fn drop(self) {
        match self {
            Access::Specs(_x) => {}
            Access::List(_x) => {}
        }
    }
}
