ghost use Rattle.std.specs.Prelude.{◌≡◌, ◌<◌};
ghost use Rattle.mms_types.specs.Classes.{class_number};

use crate::{Identifier, Identifiers};

/// A class of objects that have names (ISO 9506-2, ObjectClass).
#[derive(Clone, Copy)]
pub enum ObjectClass {
    NamedVariable,
    ScatteredAccess,
    NamedVariableList,
    NamedType,
    Semaphore,
    EventCondition,
    EventAction,
    EventEnrollment,
    Journal,
    Domain,
    ProgramInvocation,
    OperatorStation,
}

impl ObjectClass {
    /// The class of that number, from 0 to 11.
    pub fn numbered(number: u8) -> ObjectClass
        requires { number < 12 }
        ensures { class_number result ≡ number }
    {
        match number {
            0 => ObjectClass::NamedVariable,
            1 => ObjectClass::ScatteredAccess,
            2 => ObjectClass::NamedVariableList,
            3 => ObjectClass::NamedType,
            4 => ObjectClass::Semaphore,
            5 => ObjectClass::EventCondition,
            6 => ObjectClass::EventAction,
            7 => ObjectClass::EventEnrollment,
            8 => ObjectClass::Journal,
            9 => ObjectClass::Domain,
            10 => ObjectClass::ProgramInvocation,
            _ => ObjectClass::OperatorStation,
        }
    }

    /// Its number, from 0 to 11.
    pub fn number(self) -> u8
        ensures { result ≡ class_number self }
    {
        self as u8
    }
}

/// The scope whose names are asked for (ISO 9506-2, GetNameList, objectScope).
#[derive(Drop)]
pub enum ObjectScope {
    /// The names of the whole device.
    Vmd,
    /// The names in the domain of that name.
    Domain(Identifier),
    /// The names of the association on which they are asked for.
    Association,
}

/// Which names are asked for (ISO 9506-2, GetNameList-Request).
#[derive(Drop)]
pub struct GetNameList {
    /// The class of the objects.
    pub class: ObjectClass,
    /// Where their names belong.
    pub scope: ObjectScope,
    /// The name after which the list begins, where it isn't to begin with the first.
    pub after: Option<Identifier>,
}

/// The names (ISO 9506-2, GetNameList-Response).
#[derive(Drop)]
pub struct GetNameListAnswer {
    /// The names, in order of octets.
    pub names: Identifiers,
    /// Whether more names come after these.
    pub more: bool,
}
