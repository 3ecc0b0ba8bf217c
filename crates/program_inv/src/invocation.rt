ghost use Rattle.std.specs.Prelude.{◌≡◌, IfOk};
ghost use Rattle.program_inv.specs.Programs.{attributes_of, commanded, is_running, state_cause, told};
ghost use Rattle.program_inv.specs.Table.{ended};

use crate::Command;
use crate::command::{ended, next, refusal};
use mms_types::{Identifiers, InvocationAttributes, InvocationState, Memory, Octets, ServiceError};
use std::alloc::Global;

/// A program invocation (ISO 9506-1, program invocation management): a program of loaded domains, which is run.
pub struct Invocation {
    /// The names of its domains, in the order in which its client gave them.
    pub domains: Identifiers,
    /// Whether it is idle again after it has ended or was reset.
    pub reusable: bool,
    /// Where it stands.
    pub state: InvocationState,
    /// What it was told last (executionArgument).
    pub argument: Octets,
}

impl Invocation {
    /// Whether it runs.
    pub fn is_running(&self) -> bool
        ensures { result ≡ is_running self.now }
    {
        match self.state {
            InvocationState::Running => true,
            _ => false,
        }
    }

    /// Why it doesn't follow a command: its state refuses.
    pub(crate) fn state_cause(&self, command: Command) -> Option<ServiceError>
        ensures { result ≡ state_cause command self.now }
    {
        match next(command, self.reusable, self.state) {
            Some(_) => None,
            None => Some(refusal(command, self.state)),
        }
    }

    /// It follows a command, unless its state refuses.
    pub(crate) fn follow(&mut self, command: Command)
        ensures { self.new ≡ commanded command self.old }
    {
        if let Some(state) = next(command, self.reusable, self.state) {
            self.state = state;
        }
    }

    /// It is told something.
    pub(crate) fn tell(&mut self, text: Octets)
        ensures { self.new ≡ told text self.old }
    {
        self.argument = text;
    }

    /// It ends by itself, if it runs.
    pub(crate) fn end(&mut self)
        ensures { self.new ≡ record self.old { state = ended self.old.reusable self.old.state } }
    {
        self.state = ended(self.reusable, self.state);
    }

    /// What it is.
    pub(crate) fn attributes(&self, alloc: Global) -> Result<InvocationAttributes, Memory>
        ensures { IfOk result (λ told. told ≡ attributes_of self.now) }
    {
        Ok(InvocationAttributes {
            state: self.state,
            domains: self.domains.copy(alloc)?,
            deletable: true,
            reusable: self.reusable,
            monitor: false,
            argument: self.argument.copy(alloc)?,
        })
    }

    /// A copy. The one refusal is want of memory.
    pub fn copy(&self, alloc: Global) -> Result<Invocation, Memory>
        ensures { IfOk result (λ invocation. invocation ≡ self.now) }
    {
        Ok(Invocation {
            domains: self.domains.copy(alloc)?,
            reusable: self.reusable,
            state: self.state,
            argument: self.argument.copy(alloc)?,
        })
    }
}

impl Drop for Invocation {
    fn drop(self) {
        let Invocation {
            domains: _domains,
            reusable: _,
            state: _,
            argument: _argument,
        } = self;
    }
}
