//! Start, Stop, Resume, Reset and Kill, and how a program invocation ends by itself.
ghost use Rattle.std.specs.Prelude.{◌≡◌, None, OnErr, OnOk, length};
ghost use Rattle.program_inv.specs.Programs.{after_command, after_ends, after_resume, after_start, changed, command_cause, commanded, told};
ghost use Rattle.program_inv.specs.Table.{ended};

use crate::{Command, Invocation, Programs};
use indexmap::IndexMap;
use mms_types::{Identifier, Memory, Octets, RunProgram, ServiceError};
use std::alloc::Global;

impl Programs {
    /// Why the program invocation of that name doesn't follow a command (ISO 9506-2, Start, Stop, Resume, Reset and
    /// Kill): object-non-existent where it is missing; object-state-conflict where its state refuses, with the state
    /// except at Kill.
    pub fn command_cause(&self, command: Command, name: &Identifier) -> Option<ServiceError>
        ensures { result ≡ command_cause command name.now self.now }
    {
        match self.named(name) {
            None => Some(ServiceError::OBJECT_NON_EXISTENT),
            Some(found) => found.state_cause(command),
        }
    }

    /// The program invocation of that name follows a command, by the table of states; what it was told stays (ISO
    /// 9506-1, Stop, Reset and Kill). Where it is missing or its state refuses, nothing changes. It takes no memory.
    pub fn command(&mut self, command: Command, name: &Identifier)
        ensures { self.new ≡ after_command command name.now self.old }
    {
        follow(&mut self.rows, command, name);
    }

    /// A program invocation is started that no cause keeps from it (ISO 9506-1, Start), and told the argument, or the
    /// empty text where there is none. The one refusal is want of memory; then all is as before.
    pub fn start(&mut self, alloc: Global, asked: &RunProgram) -> Result<(), Memory>
        requires { command_cause Command.Start asked.now.name self.old ≡ None }
        ensures started { OnOk result (self.new ≡ after_start asked.now self.old) }
        ensures kept { OnErr result (self.new ≡ self.old) }
    {
        let text = match &asked.argument {
            Some(argument) => argument.copy(alloc)?,
            None => Octets::new(Vec::new(alloc)),
        };
        run(&mut self.rows, Command::Start, &asked.name, text);
        Ok(())
    }

    /// A program invocation goes on that no cause keeps from it (ISO 9506-1, Resume), and is told the argument; where
    /// there is none, what it was told stays. The one refusal is want of memory; then all is as before.
    pub fn resume(&mut self, alloc: Global, asked: &RunProgram) -> Result<(), Memory>
        requires { command_cause Command.Resume asked.now.name self.old ≡ None }
        ensures resumed { OnOk result (self.new ≡ after_resume asked.now self.old) }
        ensures kept { OnErr result (self.new ≡ self.old) }
    {
        match &asked.argument {
            Some(argument) => {
                let text = argument.copy(alloc)?;
                run(&mut self.rows, Command::Resume, &asked.name, text);
            }
            None => follow(&mut self.rows, Command::Resume, &asked.name),
        }
        Ok(())
    }

    /// The program invocation of that name ends by itself: one that runs is idle again, or unrunnable where it isn't
    /// reusable. Where it is missing or doesn't run, nothing changes. It takes no memory.
    pub fn ends(&mut self, name: &Identifier)
        ensures { self.new ≡ after_ends name.now self.old }
    {
        end(&mut self.rows, name);
    }
}

/// The program invocation of that name follows a command.
fn follow(rows: &mut IndexMap<Identifier, Invocation>, command: Command, name: &Identifier)
    ensures followed { rows.new.entries ≡ changed name.now (commanded command) rows.old.entries }
    ensures many { length rows.new.entries ≡ length rows.old.entries }
{
    if let Some(found) = rows.get_mut(name) {
        found.follow(command);
    }
}

/// The program invocation of that name follows a command, and is told this.
fn run(
    rows: &mut IndexMap<Identifier, Invocation>,
    command: Command,
    name: &Identifier,
    text: Octets,
)
    ensures followed { rows.new.entries
        ≡ changed name.now (λ p. told text (commanded command p)) rows.old.entries }
    ensures many { length rows.new.entries ≡ length rows.old.entries }
{
    if let Some(found) = rows.get_mut(name) {
        found.follow(command);
        found.tell(text);
    }
}

/// The program invocation of that name ends.
fn end(rows: &mut IndexMap<Identifier, Invocation>, name: &Identifier)
    ensures ended { rows.new.entries ≡ changed name.now (λ p. record p {
      state
          = ended p.reusable p.state;
    }) rows.old.entries }
    ensures many { length rows.new.entries ≡ length rows.old.entries }
{
    if let Some(found) = rows.get_mut(name) {
        found.end();
    }
}
