//! The requests and answers of the services for program invocations (ISO 9506-2, program invocation management).

ghost use Rattle.std.specs.Prelude.{◌≡◌, ◌≤◌};
ghost use Rattle.mms_types.specs.InvocationStates.{invocation_state_number};

use crate::{Identifier, Identifiers, Octets};

/// Which program invocation is made, and of what (ISO 9506-2, CreateProgramInvocation-Request).
pub struct CreateProgramInvocation {
    /// Its name.
    pub name: Identifier,
    /// The names of its domains: 1 to 16 in what is read.
    pub domains: Identifiers,
    /// Whether it is idle again after it has ended or was reset.
    pub reusable: bool,
}

/// Which program invocation runs or goes on, and what it is told (ISO 9506-2, Start-Request and Resume-Request).
pub struct RunProgram {
    /// Its name.
    pub name: Identifier,
    /// What it is told, where it is told something: at most 255 octets in what is read, also none.
    pub argument: Option<Octets>,
}

/// Where a program invocation stands (ISO 9506-2, ProgramInvocationState): of its states, those that are seen here.
#[derive(Clone, Copy)]
pub enum InvocationState {
    /// It can't run any more.
    Unrunnable,
    /// It may be started.
    Idle,
    /// It runs.
    Running,
    /// It was stopped, and may be resumed or reset.
    Stopped,
}

impl InvocationState {
    /// The state of that number, from 1 to 4.
    pub fn numbered(number: u8) -> InvocationState
        requires first { 1 ≤ number }
        requires last { number ≤ 4 }
        ensures { invocation_state_number result ≡ number }
    {
        match number {
            1 => InvocationState::Unrunnable,
            2 => InvocationState::Idle,
            3 => InvocationState::Running,
            _ => InvocationState::Stopped,
        }
    }

    /// Its number, from 1 to 4.
    pub fn number(self) -> u8
        ensures { result ≡ invocation_state_number self }
    {
        match self {
            InvocationState::Unrunnable => 1,
            InvocationState::Idle => 2,
            InvocationState::Running => 3,
            InvocationState::Stopped => 4,
        }
    }
}

/// What a program invocation is (ISO 9506-2, GetProgramInvocationAttributes-Response).
pub struct InvocationAttributes {
    /// Where it stands.
    pub state: InvocationState,
    /// The names of its domains.
    pub domains: Identifiers,
    /// Whether it can be deleted.
    pub deletable: bool,
    /// Whether it is idle again after it has ended or was reset.
    pub reusable: bool,
    /// Whether an event condition watches it.
    pub monitor: bool,
    /// What it was told last.
    pub argument: Octets,
}

impl Drop for CreateProgramInvocation {
    fn drop(self) {
        let CreateProgramInvocation {
            name: _name,
            domains: _domains,
            reusable: _,
        } = self;
    }
}

impl Drop for RunProgram {
    fn drop(self) {
        let RunProgram {
            name: _name,
            argument: _argument,
        } = self;
    }
}

impl Drop for InvocationAttributes {
    fn drop(self) {
        let InvocationAttributes {
            state: _,
            domains: _domains,
            deletable: _,
            reusable: _,
            monitor: _,
            argument: _argument,
        } = self;
    }
}
